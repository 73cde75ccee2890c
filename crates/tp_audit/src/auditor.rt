//! The auditor that judges a record one entry at a time.

ghost use Rattle.std.specs.Prelude.{ℕ, ◌≡◌, ◌↔◌, ◌≤◌, ◌∷◌, [], List, Err, suc, true, count_by, length, unwrap_or, Ok, IsTrue, IfOk, IfErr, IfSome, IsOkUnless, OnOk, OnErr};
ghost use Rattle.tp_types.specs.Config.{IsConfig};
ghost use Rattle.tp_record.specs.declared.entries.Entry.{Entry as Told};
ghost use Rattle.tp_record.specs.Effects.{reserves};
ghost use Rattle.tp_record.specs.Fields.{is_live};
ghost use Rattle.tp_record.specs.State as states;
ghost use Rattle.tp_record.specs.Step as steps;
ghost use Rattle.tp_audit_plain.specs.Audit.{IsSummary};
ghost use Rattle.tp_audit.specs.Done.{done_in};
ghost use Rattle.tp_audit.specs.Tables.{shown, HasRanks};

use crate::done::Done;
use crate::orders::Order;
use crate::queue::QueueTable;
use crate::slot_table::SlotTable;
use crate::tables::Tables;
use std::alloc::Global;
use std::marker::Model;
use tp_audit_plain::plain::{are_same, fates_of};
use tp_audit_plain::summary::{Flaw, Summary};
use tp_record::entries::{Ask, Did, Entry};
use tp_rules::counts::fated;
use tp_rules::effects::{freed_by, reserved_by};
use tp_rules::step::fitting;
use tp_types::configs::Config;
use tp_types::ids::SlotId;
use tp_types::refusals::PoolError;
use tp_types::states::{Counts, RunState};
use tp_types::tasks::Fate;

/// Judges the record of a pool, one entry at a time. Each entry costs what it changes. The first `shutdown` and a `stop` cost as
/// many slots and tasks as they wake and hand back, and a `purge` as the queue is long. All others have a fixed cost, or go by
/// the logarithm of what is kept: in a priority queue what is done with one task goes by the logarithm of how many wait. The memory
/// goes by the numbers of tasks and slots. What the auditor was told and took is at each moment a legal record.
//
// Its contracts speak of each legal history that it was told (`Judged`): it keeps no list of the entries. That there is such a
// history is the invariant of the type, so a caller owes nothing for what it tells.
#[derive(Drop)]
pub struct Auditor {
    alloc: Global,
    config: Config,
    tables: Tables,
}

impl Model for Auditor {
    ghost use Rattle.std.specs.Coded.{codes};
    ghost use Rattle.tp_audit.specs.Audited.{Judge};
    ghost use Rattle.tp_audit.specs.contracts.tables.Tables as kept;

    ghost Value = { Judge };

    ghost coded = { Prim.hlevel (codes, kept.the_row.coded) };

    ghost use Rattle.tp_audit.specs.Tables.{Stands};

    ghost view = { λ a. record { config = a.config; tables = a.tables } };

    ghost invariant = { λ a. Stands a.config a.tables };
}

impl Auditor {
    ghost use Rattle.tp_audit.specs.Audited.{settings, Judged, IsDenied};

    /// An auditor of a pool that is made with `config`, before the first entry. Want of memory is NoMemory (4).
    pub fn new(alloc: Global, config: &Config) -> Result<Auditor, Flaw>
        requires { IsConfig config.now }
        ensures settings { IfOk result (λ a. settings a ≡ config.now) }
        ensures judged { IfOk result (λ a. Judged a []) }
        ensures refused { IsOkUnless result Flaw.NoMemory }
    {
        match no_entries(alloc, config) {
            Ok(tables) => Ok(Auditor {
                alloc,
                config: *config,
                tables,
            }),
            Err(_) => Err(Flaw::NoMemory),
        }
    }

    /// Tells the auditor the next entry: Ok where the step gives it after those told before, and there is memory for what it
    /// makes, else NoMemory (4); and exactly where the step does not give it, its number, counted from 1, as a flaw. After
    /// either the auditor is as it was. The pass that the entry names is free, and so is the number of a new slot, if it is no
    /// slot then.
    pub fn push(&mut self, entry: &Entry) -> Result<(), Flaw>
        ensures given { OnOk result ((h : List Told) → Judged self.old h → steps.Gives (settings self.old) (states.state (settings self.old) h) entry.now.ask entry.now.did) }
        ensures told { OnOk result ((h : List Told) → Judged self.old h → Judged self.new (entry.now ∷ h)) }
        ensures flaw { (n : ℕ) → result ≡ Err (Flaw.At n) → (h : List Told) → Judged self.old h
            → (n ≡ suc (length h)) × (steps.Gives (settings self.old) (states.state (settings self.old) h) entry.now.ask entry.now.did → ⊥) }
        ensures memory { result ≡ Err Flaw.NoMemory → (h : List Told) → Judged self.old h
            → steps.Gives (settings self.old) (states.state (settings self.old) h) entry.now.ask entry.now.did }
        ensures same { OnErr result ((h : List Told) → Judged self.old h → Judged self.new h) }
        ensures settings { settings self.new ≡ settings self.old }
    {
        if !self.is_given(entry.ask, entry.did) {
            return Err(Flaw::At(self.tables.steps as usize + 1));
        }
        let Ok(()) = self.tables.note(entry.did) else {
            return Err(Flaw::NoMemory);
        };
        Ok(())
    }

    /// What the entries told so far say at their end. Want of memory is NoMemory (4).
    pub fn finish(&self) -> Result<Summary, Flaw>
        ensures summary { IfOk result (λ s. (h : List Told) → Judged self.now h → IsSummary (settings self.now) h s) }
        ensures refused { IsOkUnless result Flaw.NoMemory }
    {
        match fates_of(self.alloc, &self.tables.tasks) {
            Ok(fates) => Ok(Summary {
                counts: self.tables.counts(),
                state: RunState::from_rank(self.tables.rank),
                fates,
            }),
            Err(_) => Err(Flaw::NoMemory),
        }
    }

    /// What the entries told so far say of the pool.
    pub fn tables(&self) -> &Tables
        ensures { result.now ≡ self.now.tables }
    {
        &self.tables
    }

    /// What the step gives for an ask after the entries told so far, where a slot that it makes gets the number `made`; else
    /// its refusal, which is BookFull (5) too where the entry would make a slot of a number that is one. It takes no memory.
    pub fn answer(&self, ask: Ask, made: SlotId) -> Result<Did, PoolError>
        ensures given { IfOk result (λ did. (h : List Told) → Judged self.now h
            → steps.Gives (settings self.now) (states.state (settings self.now) h) ask did) }
        ensures answered { IfOk result (λ did. (h : List Told) → Judged self.now h
            → steps.step (settings self.now) (states.state (settings self.now) h) made.0 ask ≡ Ok did) }
        ensures refused { IfErr result (λ e. (h : List Told) → Judged self.now h
            → IsDenied (settings self.now) (states.state (settings self.now) h) made.0 ask e) }
    {
        let did = match fitting(self.alloc, &self.config, &self.tables, made, ask) {
            Ok(did) => did,
            Err(refusal) => return Err(refusal),
        };
        if !self.is_given(ask, did) {
            return Err(PoolError::BookFull);
        }
        Ok(did)
    }

    /// Whether the step gives this entry after those told before.
    fn is_given(&self, ask: Ask, did: Did) -> bool
        ensures { (h : List Told) → Judged self.now h
            → IsTrue result ↔ steps.Gives (settings self.now) (states.state (settings self.now) h) ask did }
    {
        if !self.fits(ask, did) {
            return false;
        }
        self.has_free_number(did) && self.tables.has_room(&self.config, did)
    }

    /// Whether the ask is answered so, without a look at the room.
    fn fits(&self, ask: Ask, did: Did) -> bool
        ensures { (h : List Told) → Judged self.now h
            → IsTrue result ↔ (steps.fitting (settings self.now) (states.state (settings self.now) h) (unwrap_or (reserves did) 0) ask ≡ Ok did) }
    {
        let made = SlotId(reserved_by(did).unwrap_or(0));
        match fitting(self.alloc, &self.config, &self.tables, made, ask) {
            Ok(answer) => are_same(answer, did),
            Err(_) => false,
        }
    }

    /// Whether the slot that an entry makes, if it makes one, has a number that is no slot before it, or that of the slot
    /// which it frees.
    fn has_free_number(&self, did: Did) -> bool
        ensures { IsTrue result ↔ IfSome (reserves did) (λ w. steps.is_free_for (shown self.now.tables) did w ≡ true) }
    {
        match reserved_by(did) {
            None => true,
            Some(w) => self.tables.slots.get(SlotId(w)).is_none() || freed_by(did) == Some(w),
        }
    }
}

/// The tables before the first entry.
fn no_entries(alloc: Global, config: &Config) -> Result<Tables, PoolError>
    ensures kept { IfOk result (λ t. shown t ≡ states.state config.now []) }
    ensures done { IfOk result (λ t. (g : ℕ) → done_in t.done g ≡ []) }
    ensures due { IfOk result (λ t. t.due ≡ 4) }
    ensures ranks { IfOk result (λ t. HasRanks t) }
    ensures refused { IsOkUnless result PoolError.NoMemory }
{
    let Ok(queue) = QueueTable::new(alloc, config.queue) else {
        return Err(PoolError::NoMemory);
    };
    let Ok(idling) = Order::new(alloc) else {
        return Err(PoolError::NoMemory);
    };
    Ok(Tables {
        steps: 0,
        rank: 0,
        core: config.core,
        maximum: config.maximum,
        keep: config.keep,
        core_timeout: config.core_timeout,
        moment: 0,
        tasks: Vec::new(alloc),
        queue,
        slots: SlotTable::new(alloc),
        idling,
        done: Done::new(alloc),
        completions: 0,
        largest: 0,
        due: 4,
    })
}

impl Tables {
    /// The twelve counters.
    fn counts(&self) -> Counts
        requires tasks { length (shown self.now).tasks ≤ 1048577 }
        requires queue { length (shown self.now).queue ≤ 1048577 }
        requires live { count_by is_live (shown self.now).slots ≤ 1048577 }
        requires largest { (shown self.now).largest ≤ 1048577 }
        ensures { result ≡ states.counts (shown self.now) }
    {
        Counts {
            submitted: self.tasks.len() as u32,
            run: fated(Fate::Run, &self.tasks),
            caller: fated(Fate::RunByCaller, &self.tasks),
            rejected: fated(Fate::Rejected, &self.tasks),
            discarded: fated(Fate::Discarded, &self.tasks),
            handedback: fated(Fate::HandedBack, &self.tasks),
            removed: fated(Fate::Removed, &self.tasks),
            cancelled: fated(Fate::Cancelled, &self.tasks),
            completed: self.completions,
            queued: self.queue.len() as u32,
            live: self.slots.live() as u32,
            largest: self.largest as u32,
        }
    }
}
