//! Why an entry is a flaw, and which entry the step gives in its place.

ghost use Rattle.std.specs.Prelude.{ℕ, List, IfOk, IfErr};
ghost use Rattle.tp_record.specs.declared.entries.Entry.{Entry as Told};
ghost use Rattle.tp_record.specs.State as states;
ghost use Rattle.tp_record.specs.Step as steps;
ghost use Rattle.tp_audit.specs.Audited.{settings, Judged, IsDenied};

use crate::causes::{Cause, asked_slot, asked_task};
use crate::rows::{ShownSlot, ShownTask};
use std::alloc::{AllocError, Global};
use std::fmt;
use tp_audit::auditor::Auditor;
use tp_audit::tables::Tables;
use tp_record::entries::{Ask, Did, Entry};
use tp_rules::effects::reserved_by;
use tp_text::asks::ShownAsk;
use tp_text::entries::write_entry;
use tp_types::configs::Config;
use tp_types::ids::SlotId;
use tp_types::refusals::PoolError;

/// A number that a new slot may have: the entry's own, where that is no slot, and else the least.
fn free_number(tables: &Tables, did: Did) -> SlotId {
    if let Some(w) = reserved_by(did) {
        if tables.slots.get(SlotId(w)).is_none() {
            return SlotId(w);
        }
    }
    let count = tables.slots.count();
    for w in 0..count {
        if tables.slots.get(SlotId(w)).is_none() {
            return SlotId(w);
        }
    }
    SlotId(count)
}

/// The step's answer to the ask of an entry, after the entries that the auditor was told.
pub fn given_instead(auditor: &Auditor, entry: &Entry) -> Result<Did, PoolError>
    ensures given { IfOk result (λ did. (h : List Told) → Judged auditor.now h
        → steps.Gives (settings auditor.now) (states.state (settings auditor.now) h) entry.now.ask did) }
    ensures refused { IfErr result (λ e. (h : List Told) → Judged auditor.now h
        → (w : ℕ) × IsDenied (settings auditor.now) (states.state (settings auditor.now) h) w entry.now.ask e) }
{
    auditor.answer(entry.ask, free_number(auditor.tables(), entry.did))
}

/// A pool in words, as far as it matters to an ask.
#[derive(Clone, Copy)]
struct Situation<'a> {
    tables: &'a Tables,
    ask: Ask,
}

impl Situation<'_> {
    /// What the queue is like.
    fn write_queue<W: fmt::Write>(&self, f: &mut fmt::Formatter<W>) -> fmt::Result {
        match self.tables.queue.first() {
            None => f.write_str(" and the queue is empty"),
            Some(head) => write!(f, " and the queue's head is t{head}"),
        }
    }

    /// What the pool's sizes are.
    fn write_sizes<W: fmt::Write>(&self, f: &mut fmt::Formatter<W>) -> fmt::Result {
        let slots = self.tables.slots.count();
        let core = self.tables.core;
        let maximum = self.tables.maximum;
        let tasks = self.tables.tasks.len();
        write!(
            f,
            "{tasks} tasks were submitted, {slots} slots are taken, core is {core} and max is {maximum}"
        )
    }
}

impl fmt::Display for Situation<'_> {
    fn fmt<W: fmt::Write>(&self, f: &mut fmt::Formatter<W>) -> fmt::Result {
        let tables = self.tables;
        match (self.ask, asked_task(self.ask), asked_slot(self.ask)) {
            (Ask::Take(slot), _, _) => {
                let shown = ShownSlot { tables, slot };
                write!(f, "{shown}")?;
                self.write_queue(f)
            }
            (_, Some(task), _) => {
                let shown = ShownTask { tables, task };
                write!(f, "{shown}")?;
                self.write_queue(f)
            }
            (_, _, Some(slot)) => {
                let shown = ShownSlot { tables, slot };
                write!(f, "{shown}")
            }
            _ => self.write_sizes(f),
        }
    }
}

/// Why the entry of this number is a flaw: its line, its ask, and what the step answers there.
pub fn flaw_text(
    alloc: Global,
    auditor: &Auditor,
    config: &Config,
    number: usize,
    entry: &Entry,
) -> Result<String, AllocError> {
    let line = number.saturating_add(2);
    let ask = ShownAsk::of_entry(entry.ask);
    let tables = auditor.tables();
    let mut text = format!(in alloc; "line {line}: {ask}: ")?;
    match given_instead(auditor, entry) {
        Ok(did) => {
            let situation = Situation {
                tables,
                ask: entry.ask,
            };
            let given = Entry {
                by: entry.by,
                ask: entry.ask,
                did,
            };
            let mut other = String::new(alloc);
            write_entry(&mut other, number, &given)?;
            let other = other.as_str().trim_end_matches('\n');
            write!(text, "{situation}, so the entry here is '{other}'")?;
        }
        Err(refusal) => {
            let cause = Cause {
                config,
                tables,
                ask: entry.ask,
                refusal,
            };
            write!(text, "{refusal} ({cause}), so no such entry stands here")?;
        }
    }
    Ok(text)
}
