//! The tables after an entry that changes what it names alone.

ghost use Rattle.std.specs.Prelude.{ℕ, ◌≡◌, ◌<◌, ◌^◌, true, false, suc, max, count_by, is_some, unwrap_or, vec_len, vec_capacity, OnOk, OnErr, if◌then◌else◌};
ghost use Rattle.tp_record.specs.Effects as effects;
ghost use Rattle.tp_record.specs.Fields.{is_live};
ghost use Rattle.tp_record.specs.Lists.{is_it};
ghost use Rattle.tp_record.specs.State as states;
ghost use Rattle.tp_laws.proofs.Effects.Names as entry;
ghost use Rattle.tp_audit.specs.Done.{done_in};
ghost use Rattle.tp_audit.specs.Queued.{Keeps};
ghost use Rattle.tp_audit.specs.Tables.{shown, undone, grown as grown_by, applied as applied_by, completion as completion_of, with_completion, handed_out, HasRanks, HasSizes, Suits};

use crate::rows::row_at;
use crate::slots::{reserve_slot, take_out, turn_slot, turned_slot, woken_slot};
use crate::tables::Tables;
use crate::tasks::{change_queue, change_tasks};
use std::alloc::AllocError;
use tp_record::entries::Did;
use tp_record::rows::TaskRow;
use tp_rules::effects::{
    closed_by, completed_by, core_said, core_timeout_said, idled_by, is_completion, is_submit,
    keep_said, maximum_said, now_said, queued_by, reaches, reserved_by,
};
use tp_types::ids::TaskId;
use tp_types::tasks::Kind;

/// The task that an entry completes, if it is of a group.
fn completed_task(tasks: &Vec<TaskRow>, did: Did) -> Option<u32>
    ensures { result ≡ effects.completes did (λ t. (states.row_at tasks.now.items t).kind) (λ t. (states.row_at tasks.now.items t).cancelled) }
{
    match closed_by(did) {
        Some(t) => {
            let row = row_at(tasks, t);
            completed_by(did, row.kind, row.cancelled)
        }
        None => None,
    }
}

/// Makes a place for the task that an entry submits, if it submits one. Where memory is refused nothing has changed.
fn make_place(tasks: &mut Vec<TaskRow>, did: Did) -> Result<(), AllocError>
    ensures room { OnOk result (effects.is_submit did ≡ true → vec_len tasks.new < vec_capacity tasks.new) }
    ensures same { tasks.new.items ≡ tasks.old.items }
{
    if is_submit(did) {
        tasks.reserve(1)?;
    }
    Ok(())
}

impl Tables {
    /// The group of the task that an entry completes, and the task.
    fn completion(&self, did: Did) -> Option<(u32, u32)>
        ensures { result ≡ completion_of did (shown self.now) }
    {
        let t = completed_task(&self.tasks, did)?;
        match row_at(&self.tasks, TaskId(t)).kind {
            Kind::Group(g) => Some((g, t)),
            _ => None,
        }
    }

    /// What the entry puts in the queue, or at the end of the order of idling or of a group's completed tasks goes there, and
    /// the slot that it reserves is made: at most one of these. Where memory is refused nothing has changed.
    fn grow(&mut self, did: Did) -> Result<(), AllocError>
        requires suits { Suits (shown self.old) did }
        requires sizes { HasSizes (shown self.old) }
        requires ranks { HasRanks self.old }
        ensures grown { OnOk result (shown self.new ≡ grown_by did (shown self.old)) }
        ensures done { OnOk result ((g : ℕ) → done_in self.new.done g ≡ with_completion (completion_of did (shown self.old)) g (done_in self.old.done g)) }
        ensures err { OnErr result (shown self.new ≡ shown self.old) }
        ensures err_done { OnErr result ((g : ℕ) → done_in self.new.done g ≡ done_in self.old.done g) }
        ensures due { self.new.due ≡ self.old.due }
        ensures room { vec_capacity self.new.tasks ≡ vec_capacity self.old.tasks }
        ensures ranks { HasRanks self.new }
    {
        if let Some(t) = queued_by(did) {
            let rank = row_at(&self.tasks, TaskId(t)).priority;
            return self.queue.push(t, rank);
        }
        if let Some(w) = idled_by(did) {
            return self.idling.push(w);
        }
        if let Some((group, t)) = self.completion(did) {
            return self.done.push(group, t);
        }
        reserve_slot(&mut self.slots, did, self.moment, &self.tasks)
    }

    /// The settings, the moment, the run state and the counters after an entry, once the slots are those after it.
    pub fn set(&mut self, did: Did)
        requires steps { self.old.steps < 2 ^ 31 }
        requires completions { self.old.completions < 2 ^ 31 }
        ensures { self.new ≡ record self.old {
          steps = suc self.old.steps;
          rank = max (effects.reaches did) self.old.rank;
          core = unwrap_or (effects.sets_core did) self.old.core;
          maximum = unwrap_or (effects.sets_maximum did) self.old.maximum;
          keep = unwrap_or (effects.sets_keep did) self.old.keep;
          core_timeout = unwrap_or (effects.sets_core_timeout did) self.old.core_timeout;
          moment = unwrap_or (effects.sets_now did) self.old.moment;
          completions = if effects.is_completion did then suc self.old.completions else self.old.completions;
          largest = max (count_by is_live self.old.slots) self.old.largest;
        } }
    {
        self.steps += 1;
        self.rank = reaches(did).max(self.rank);
        self.core = core_said(did).unwrap_or(self.core);
        self.maximum = maximum_said(did).unwrap_or(self.maximum);
        self.keep = keep_said(did).unwrap_or(self.keep);
        self.core_timeout = core_timeout_said(did).unwrap_or(self.core_timeout);
        self.moment = now_said(did).unwrap_or(self.moment);
        if is_completion(did) {
            self.completions += 1;
        }
        self.largest = self.slots.live().max(self.largest);
    }

    /// The tables after an entry whose slot is made and whose list is longer; `awake` is the slot that it turns and does
    /// not leave idle. It takes no memory.
    fn apply(&mut self, did: Did, awake: Option<usize>)
        requires narrow { entry.is_wide did ≡ false }
        requires apart { (t : ℕ) → is_it (entry.names did) t ≡ true → is_it (entry.drops did) t ≡ false }
        requires steps { self.old.steps < 2 ^ 31 }
        requires completions { self.old.completions < 2 ^ 31 }
        requires number { vec_len self.old.tasks < 2 ^ 32 }
        requires retries { (t : ℕ) → (states.row_at self.old.tasks.items t).retries < 2 ^ 31 }
        requires few { count_by is_some self.old.slots < 2 ^ 32 }
        requires room { effects.is_submit did ≡ true → vec_len self.old.tasks < vec_capacity self.old.tasks }
        ensures applied { shown self.new ≡ applied_by did awake (shown self.old) }
        ensures kept { Keeps self.old.queue self.new.queue }
        ensures done { (g : ℕ) → done_in self.new.done g ≡ handed_out did g (done_in self.old.done g) }
        ensures due { self.new.due ≡ self.old.due }
    {
        turn_slot(
            &mut self.slots,
            did,
            self.moment,
            &self.tasks,
            turned_slot(did),
        );
        take_out(&mut self.idling, reserved_by(did));
        take_out(&mut self.idling, awake);
        change_queue(&mut self.queue, &self.tasks, did);
        change_tasks(&mut self.tasks, did);
        if let Did::TakeDone(group, _) = did {
            self.done.hand_out(group);
        }
        self.set(did);
    }

    /// The tables after an entry that changes what it names alone, but for what is owed. Where memory is refused nothing
    /// has changed.
    pub fn note_named(&mut self, did: Did) -> Result<(), AllocError>
        requires narrow { entry.is_wide did ≡ false }
        requires suits { Suits (shown self.old) did }
        requires sizes { HasSizes (shown self.old) }
        requires ranks { HasRanks self.old }
        ensures next { OnOk result (shown self.new ≡ undone (states.next (shown self.old) did)) }
        ensures done { OnOk result ((g : ℕ) → done_in self.new.done g
            ≡ handed_out did g (with_completion (completion_of did (shown self.old)) g (done_in self.old.done g))) }
        ensures ranks { HasRanks self.new }
        ensures err { OnErr result (shown self.new ≡ shown self.old) }
        ensures err_done { OnErr result ((g : ℕ) → done_in self.new.done g ≡ done_in self.old.done g) }
        ensures due { self.new.due ≡ self.old.due }
    {
        let awake = woken_slot(did, self.moment, &self.tasks, &self.slots);
        make_place(&mut self.tasks, did)?;
        self.grow(did)?;
        self.apply(did, awake);
        Ok(())
    }
}
