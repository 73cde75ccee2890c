//! A record counted entry by entry.

ghost use Rattle.std.specs.Prelude.{ℕ, ◌≡◌, ◌<◌, ◌^◌, ◌∷◌, [], List, Err, suc, length, IfOk, IsOkUnless, OnOk, OnErr, vec_len, vec_capacity, if◌then◌else◌};
ghost use Rattle.tp_types.specs.Config.{IsConfig};
ghost use Rattle.tp_record.specs.declared.entries.Entry.{Entry as Told};
ghost use Rattle.tp_record.specs.State as states;
ghost use Rattle.tp_record.specs.Step as steps;
ghost use Rattle.tp_story.specs.Since.{HasRoom, Timed};
ghost use Rattle.tp_story.specs.Counted as counted;

use crate::reasons::{Refusals, reason_of};
use crate::spans::{Mover, Span, add_span};
use crate::times::{Since, Times, latest_of};
use std::alloc::{AllocError, Global};
use std::marker::Model;
use tp_audit::auditor::Auditor;
use tp_audit::tables::Tables;
use tp_audit_plain::summary::Flaw;
use tp_record::entries::{Did, Entry, Opened, Took};
use tp_types::configs::Config;

/// The longest queue so far.
#[derive(Clone, Copy, Debug, PartialEq, Eq)]
pub struct Longest {
    /// How many tasks were in it.
    pub tasks: usize,
    /// After which entry it was so long first; 0 where it was always empty.
    pub number: u64,
}

/// What the entries so far of a pool's record tell in numbers. The memory goes by the numbers of tasks and slots.
#[derive(Drop)]
pub struct Stats {
    auditor: Auditor,
    times: Times,
    // Each wait and each run is kept: the middle one, and the one that 99 in a hundred do not exceed, can't be told from sums.
    waits: Vec<Span>,
    runs: Vec<Span>,
    refusals: Refusals,
    longest: Longest,
    opened: u64,
    left: u64,
}

impl Model for Stats {
    ghost use Rattle.std.specs.Coded.{codes};
    ghost use Rattle.tp_audit.specs.contracts.tables.Tables as kept;
    ghost use Rattle.tp_story.specs.contracts.times.Times as noted;
    ghost use Rattle.tp_story.specs.Counted.{Counting};

    ghost Value = { Counting };

    ghost coded = { Prim.hlevel (codes, kept.the_row.coded, noted.the_row.coded) };

    ghost view = { λ s. record {
      judge = s.auditor;
      times = s.times;
      waits = s.waits.items;
      runs = s.runs.items;
      refusals = s.refusals;
      longest = s.longest;
      opened = s.opened;
      left = s.left;
    } };
}

/// The task that a worker takes from the queue.
fn taken_task(did: Did) -> Option<Mover>
    ensures { result ≡ counted.taken did }
{
    match did {
        Did::Take(slot, Took::Head(task)) => Some((task, Some(slot))),
        _ => None,
    }
}

/// The task whose body ends.
fn ended_task(did: Did) -> Option<Mover>
    ensures { result ≡ counted.ended did }
{
    match did {
        Did::End(slot, task, _) => Some((task, Some(slot))),
        Did::CallerEnd(task, _) => Some((task, None)),
        _ => None,
    }
}

/// Whether a worker is made.
fn opens(did: Did) -> bool
    ensures { result ≡ counted.opens did }
{
    matches!(did, Did::Open(_, Opened::Live))
}

/// Whether a worker leaves.
fn leaves(did: Did) -> bool
    ensures { result ≡ counted.leaves did }
{
    matches!(did, Did::Take(_, Took::Leave) | Did::Leave(..))
}

/// A count with one more, if there is one.
fn with_one(is_one: bool, count: u64) -> u64
    ensures { count < 2 ^ 32 → result ≡ counted.with_one is_one count }
{
    if is_one {
        count.saturating_add(1)
    } else {
        count
    }
}

/// Makes room for what one more entry adds. After want of memory nothing has changed.
fn reserve_all(
    times: &mut Times,
    waits: &mut Vec<Span>,
    runs: &mut Vec<Span>,
) -> Result<(), AllocError>
    ensures times { (h : List Told) → Timed h times.old → Timed h times.new }
    ensures times_room { OnOk result (HasRoom times.new) }
    ensures waits { waits.new.items ≡ waits.old.items }
    ensures waits_room { OnOk result (vec_len waits.new < vec_capacity waits.new) }
    ensures runs { runs.new.items ≡ runs.old.items }
    ensures runs_room { OnOk result (vec_len runs.new < vec_capacity runs.new) }
{
    times.reserve()?;
    waits.reserve(1)?;
    runs.reserve(1)
}

/// The longer one of a queue after this entry and the longest before it.
fn longer(tasks: usize, number: u64, longest: Longest) -> Longest
    ensures { result ≡ counted.longer tasks number longest }
{
    if longest.tasks < tasks {
        Longest { tasks, number }
    } else {
        longest
    }
}

impl Stats {
    ghost use Rattle.tp_audit.specs.Audited.{settings};
    ghost use Rattle.tp_story.specs.Counted.{Counts};

    /// Those of the record of a pool that is made with `config`, before the first entry. Want of memory is NoMemory (4).
    pub fn new(alloc: Global, config: &Config) -> Result<Stats, Flaw>
        requires { IsConfig config.now }
        ensures settings { IfOk result (λ s. settings s.judge ≡ config.now) }
        ensures counts { IfOk result (λ s. Counts s []) }
        ensures refused { IsOkUnless result Flaw.NoMemory }
    {
        let auditor = match Auditor::new(alloc, config) {
            Ok(auditor) => auditor,
            Err(flaw) => return Err(flaw),
        };
        Ok(Stats {
            auditor,
            times: Times::new(alloc),
            waits: Vec::new(alloc),
            runs: Vec::new(alloc),
            refusals: Refusals {
                shut_down: 0,
                full: 0,
                no_worker: 0,
            },
            longest: Longest {
                tasks: 0,
                number: 0,
            },
            opened: 0,
            left: 0,
        })
    }

    /// Counts the next entry. One that the step does not give after those before it is a flaw, with its number, from 1; want of
    /// memory is NoMemory (4). After either all is as it was.
    pub fn tell(&mut self, entry: &Entry) -> Result<(), Flaw>
        ensures given { OnOk result ((h : List Told) → Counts self.old h → steps.Gives (settings self.old.judge) (states.state (settings self.old.judge) h) entry.now.ask entry.now.did) }
        ensures told { OnOk result ((h : List Told) → Counts self.old h → Counts self.new (entry.now ∷ h)) }
        ensures flaw { (n : ℕ) → result ≡ Err (Flaw.At n) → (h : List Told) → Counts self.old h
            → (n ≡ suc (length h)) × (steps.Gives (settings self.old.judge) (states.state (settings self.old.judge) h) entry.now.ask entry.now.did → ⊥) }
        ensures same { OnErr result ((h : List Told) → Counts self.old h → Counts self.new h) }
        ensures settings { settings self.new.judge ≡ settings self.old.judge }
    {
        if reserve_all(&mut self.times, &mut self.waits, &mut self.runs).is_err() {
            return Err(Flaw::NoMemory);
        }
        match self.auditor.push(entry) {
            Ok(()) => {}
            Err(flaw) => return Err(flaw),
        }
        let did = entry.did;
        let after = self.auditor.tables();
        let latest = latest_of(after);
        add_span(&mut self.waits, &self.times, taken_task(did), latest);
        add_span(&mut self.runs, &self.times, ended_task(did), latest);
        self.refusals = self.refusals.and(reason_of(after.rank, did));
        self.longest = longer(after.queue.len(), latest.number, self.longest);
        self.opened = with_one(opens(did), self.opened);
        self.left = with_one(leaves(did), self.left);
        self.times.note(entry, after);
        Ok(())
    }

    /// The auditor that was told the entries so far.
    pub fn auditor(&self) -> &Auditor
        ensures { result.now ≡ self.now.judge }
    {
        &self.auditor
    }

    /// What all entries so far say of the pool.
    pub fn tables(&self) -> &Tables
        ensures { result.now ≡ self.now.judge.tables }
    {
        self.auditor.tables()
    }

    /// How long tasks waited in the queue that a worker took from it, in the order in which they were taken.
    pub fn waits(&self) -> &[Span]
        ensures { (h : List Told) → Counts self.now h → result.now ≡ counted.spans counted.taken h }
    {
        &self.waits
    }

    /// How long bodies ran, in the order in which they ended.
    pub fn runs(&self) -> &[Span]
        ensures { (h : List Told) → Counts self.now h → result.now ≡ counted.spans counted.ended h }
    {
        &self.runs
    }

    /// How often submissions were refused, by reason.
    pub fn refusals(&self) -> Refusals
        ensures { (h : List Told) → Counts self.now h → result ≡ counted.refusals h }
    {
        self.refusals
    }

    /// The longest queue.
    pub fn longest(&self) -> Longest
        ensures { (h : List Told) → Counts self.now h → result ≡ counted.longest (settings self.now.judge) h }
    {
        self.longest
    }

    /// How many workers were made.
    pub fn opened(&self) -> u64
        ensures { (h : List Told) → Counts self.now h → result ≡ counted.count counted.opens h }
    {
        self.opened
    }

    /// How many workers left.
    pub fn left(&self) -> u64
        ensures { (h : List Told) → Counts self.now h → result ≡ counted.count counted.leaves h }
    {
        self.left
    }
}
