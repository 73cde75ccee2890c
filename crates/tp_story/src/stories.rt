//! A story that is told entry by entry.

ghost use Rattle.std.specs.Prelude.{ℕ, ◌≡◌, ◌∷◌, [], List, Err, Ok, suc, length, IfOk, IsOkUnless, OnOk, OnErr};
ghost use Rattle.tp_types.specs.Config.{IsConfig};
ghost use Rattle.tp_record.specs.declared.entries.Entry.{Entry as Told};
ghost use Rattle.tp_record.specs.State as states;
ghost use Rattle.tp_record.specs.Step as steps;
ghost use Rattle.tp_audit.specs.Tables.{shown};
ghost use Rattle.tp_story.specs.Stories as stories;

use crate::events::{Event, event_after};
use crate::subjects::Subject;
use std::alloc::Global;
use std::marker::Model;
use tp_audit::auditor::Auditor;
use tp_audit::tables::Tables;
use tp_audit_plain::summary::Flaw;
use tp_record::entries::Entry;
use tp_types::configs::Config;
use tp_types::ids::TaskId;
use tp_types::tasks::Fate;

/// The entries so far of a pool's record that tell of one task or of one slot. The memory goes by what an auditor keeps, and
/// by their number.
#[derive(Drop)]
pub struct Story {
    auditor: Auditor,
    subject: Subject,
    events: Vec<Event>,
    fated: Option<u64>,
}

impl Model for Story {
    ghost use Rattle.std.specs.Coded.{codes};
    ghost use Rattle.tp_audit.specs.contracts.tables.Tables as kept;
    ghost use Rattle.tp_story.specs.Stories.{Telling};

    ghost Value = { Telling };

    ghost coded = { Prim.hlevel (codes, kept.the_row.coded) };

    ghost view = { λ s. record { judge = s.auditor; subject = s.subject; events = s.events.items; fated = s.fated } };
}

impl Story {
    ghost use Rattle.tp_audit.specs.Audited.{settings, Judged};
    ghost use Rattle.tp_story.specs.Stories.{Tells, story, fate_in, fated_at, is_known};

    /// A story of a subject in the record of a pool that is made with `config`, before the first entry. Want of memory is
    /// NoMemory (4).
    pub fn new(alloc: Global, config: &Config, subject: Subject) -> Result<Story, Flaw>
        requires { IsConfig config.now }
        ensures settings { IfOk result (λ s. settings s.judge ≡ config.now) }
        ensures subject { IfOk result (λ s. s.subject ≡ subject) }
        ensures tells { IfOk result (λ s. Tells s []) }
        ensures refused { IsOkUnless result Flaw.NoMemory }
    {
        match Auditor::new(alloc, config) {
            Ok(auditor) => Ok(Story {
                auditor,
                subject,
                events: Vec::new(alloc),
                fated: None,
            }),
            Err(flaw) => Err(flaw),
        }
    }

    /// Tells the next entry. One that the step does not give after those before it is a flaw, with its number, from 1; want of
    /// memory is NoMemory (4). After either the story is as it was.
    pub fn tell(&mut self, entry: &Entry) -> Result<(), Flaw>
        ensures given { OnOk result ((h : List Told) → Tells self.old h → steps.Gives (settings self.old.judge) (states.state (settings self.old.judge) h) entry.now.ask entry.now.did) }
        ensures told { OnOk result ((h : List Told) → Tells self.old h → Tells self.new (entry.now ∷ h)) }
        ensures flaw { (n : ℕ) → result ≡ Err (Flaw.At n) → (h : List Told) → Tells self.old h
            → (n ≡ suc (length h)) × (steps.Gives (settings self.old.judge) (states.state (settings self.old.judge) h) entry.now.ask entry.now.did → ⊥) }
        ensures same { OnErr result ((h : List Told) → Tells self.old h → Tells self.new h) }
        ensures settings { settings self.new.judge ≡ settings self.old.judge }
        ensures subject { self.new.subject ≡ self.old.subject }
    {
        let event = event_after(self.subject, self.auditor.tables(), entry);
        if self.events.reserve(1).is_err() {
            return Err(Flaw::NoMemory);
        }
        match self.auditor.push(entry) {
            Ok(()) => {}
            Err(flaw) => return Err(flaw),
        }
        if let Some(event) = event {
            self.events.push_reserved(event);
        }
        self.fated = fated_after(self.fated, self.auditor.tables(), self.subject);
        Ok(())
    }

    /// Of what the story tells.
    pub fn subject(&self) -> Subject
        ensures { result ≡ self.now.subject }
    {
        self.subject
    }

    /// The entries so far that tell of it, the oldest first: these and no others.
    pub fn events(&self) -> &[Event]
        ensures events { result.now ≡ self.now.events }
        ensures story { (h : List Told) → Tells self.now h → result.now ≡ story (settings self.now.judge) self.now.subject h }
    {
        &self.events
    }

    /// The fate of the task, if it has one; a slot has none.
    pub fn fate(&self) -> Option<Fate>
        ensures { (h : List Told) → Tells self.now h → result ≡ fate_in (states.state (settings self.now.judge) h) self.now.subject }
    {
        fate_in(self.auditor.tables(), self.subject)
    }

    /// The number of the entry that gave the task its fate.
    pub fn fated(&self) -> Option<u64>
        ensures fated { result ≡ self.now.fated }
        ensures first { (h : List Told) → Tells self.now h → result ≡ fated_at (settings self.now.judge) self.now.subject h }
    {
        self.fated
    }

    /// Whether the record knows the subject: the task was submitted, or some entry tells of the slot.
    pub fn is_known(&self) -> bool
        ensures { result ≡ is_known self.now }
    {
        match self.subject {
            Subject::Task(task) => (task.0 as usize) < self.tables().tasks.len(),
            Subject::Slot(_) => !self.events.is_empty(),
        }
    }

    /// The auditor that was told the entries so far.
    pub fn auditor(&self) -> &Auditor
        ensures { result.now ≡ self.now.judge }
    {
        &self.auditor
    }

    /// What all entries so far say of the pool.
    pub fn tables(&self) -> &Tables
        ensures { result.now ≡ self.now.judge.tables }
    {
        self.auditor.tables()
    }
}

/// The fate of a task, if it has one.
fn fate_at(tables: &Tables, task: TaskId) -> Option<Fate>
    ensures { result ≡ states.fate_of (states.task_at (shown tables.now) task.0) }
{
    match tables.tasks.get(task.0 as usize) {
        Some(row) => row.fate(),
        None => None,
    }
}

/// The fate of the subject, if it has one.
fn fate_in(tables: &Tables, subject: Subject) -> Option<Fate>
    ensures { result ≡ stories.fate_in (shown tables.now) subject }
{
    match subject {
        Subject::Task(task) => fate_at(tables, task),
        Subject::Slot(_) => None,
    }
}

/// The entry that gave the subject its fate, after the latest one.
fn fated_after(fated: Option<u64>, tables: &Tables, subject: Subject) -> Option<u64>
    ensures { result ≡ stories.fated_after fated (stories.fate_in (shown tables.now) subject) tables.now.steps }
{
    match (fated, fate_in(tables, subject)) {
        (None, Some(_)) => Some(u64::from(tables.steps)),
        _ => fated,
    }
}
