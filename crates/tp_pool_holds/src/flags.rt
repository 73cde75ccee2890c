//! The pool's hold of each cancel flag, as its lock keeps them: of each slot, and of the tasks that their callers run. There is no
//! table by the numbers of tasks, so what is kept grows with the slots and the callers.
ghost use Rattle.std.specs.Prelude.{◌≡◌, [], not, filter, nat_eq, replicate, set as set_at, Some, None, IfOk, IfErr};

use std::alloc::{AllocError, Global};
use std::marker::Model;
use tp_protocols::flags::CancelFlag;
use tp_types::ids::{SlotId, TaskId};
use tp_types::refusals::PoolError;

/// Contracts see of which slots and tasks there are flags; what a flag says, other threads write.
#[derive(Drop)]
pub struct Flags {
    // Of each slot, from its first worker on. The worker has the other hold.
    slots: Vec<Option<CancelFlag>>,
    // Of the tasks that their callers run: no more than there are callers.
    at_callers: Vec<(TaskId, CancelFlag)>,
    // Flags for the other callers.
    ready: Vec<CancelFlag>,
    alloc: Global,
}

// Adds so many new flags. NoMemory (4).
fn add(alloc: Global, ready: &mut Vec<CancelFlag>, more: usize) -> Result<(), PoolError>
    ensures { IfErr result (λ e. e ≡ PoolError.NoMemory) }
{
    for _ in 0..more {
        let flag = CancelFlag::new(alloc)?;
        if ready.push(flag).is_err() {
            return Err(PoolError::NoMemory);
        }
    }
    Ok(())
}

impl Model for Flags {
    ghost use Rattle.std.specs.Prelude.{map};
    ghost use Rattle.tp_pool_holds.specs.Flagged.{FlagsView, flags_code};

    ghost Value = { FlagsView };

    ghost coded = { flags_code };

    ghost view = { λ f. record { slots = f.slots.items; at_callers = map (λ x. x.0.0) f.at_callers.items } };
}

impl Flags {
    /// No flags, for so many slots. AllocError where there is no memory for it.
    pub fn new(alloc: Global, slots: usize) -> Result<Flags, AllocError>
        ensures { IfOk result (λ f. f ≡ record { slots = replicate slots None; at_callers = [] }) }
    {
        let mut none = Vec::new(alloc);
        none.resize_with(slots, || None)?;
        Ok(Flags {
            slots: none,
            at_callers: Vec::new(alloc),
            ready: Vec::new(alloc),
            alloc,
        })
    }

    /// Makes a flag for the task that each of so many callers may run, one at a time. NoMemory (4).
    #[inline(always)]
    pub fn reserve(&mut self, callers: usize) -> Result<(), PoolError>
        ensures same { self.new ≡ self.old }
        ensures refused { IfErr result (λ e. e ≡ PoolError.NoMemory) }
    {
        let free = callers.saturating_sub(self.at_callers.len());
        if free <= self.ready.len() {
            return Ok(());
        }
        self.make(free)
    }

    // Makes flags until there is one for each of so many callers that run no task.
    #[cold]
    #[inline(never)]
    fn make(&mut self, free: usize) -> Result<(), PoolError>
        ensures same { self.new ≡ self.old }
        ensures refused { IfErr result (λ e. e ≡ PoolError.NoMemory) }
    {
        let more = free.saturating_sub(self.ready.len());
        match self.at_callers.reserve(free) {
            Ok(()) => add(self.alloc, &mut self.ready, more),
            Err(_) => Err(PoolError::NoMemory),
        }
    }

    /// This slot has this flag. The one that it had comes back.
    pub fn seat(&mut self, w: SlotId, kept: CancelFlag) -> Option<CancelFlag>
        ensures { self.new ≡ record self.old { slots = set_at self.old.slots w.0 (Some kept) } }
    {
        match self.slots.get_mut(w.0) {
            Some(slot) => slot.replace(kept),
            None => Some(kept),
        }
    }

    /// Sets the flag of this slot.
    pub fn set_slot(&self, w: SlotId) {
        if let Some(Some(flag)) = self.slots.get(w.0) {
            flag.set();
        }
    }

    /// The task that its caller has begun has a flag that no task had before.
    pub fn begin_at_caller(&mut self, t: TaskId)
        ensures { self.new.slots ≡ self.old.slots }
    {
        if self.at_callers.len() < self.at_callers.capacity() {
            if let Some(flag) = self.ready.pop() {
                self.at_callers.push_reserved((t, flag));
            }
        }
    }

    /// One flag more is ready, where there is room for it.
    pub fn add_ready(&mut self, flag: CancelFlag)
        ensures { self.new ≡ self.old }
    {
        if self.ready.len() < self.ready.capacity() {
            self.ready.push_reserved(flag);
        }
    }

    /// The job's hold of the flag of a task that its caller runs.
    pub fn at_caller(&self, t: TaskId) -> Option<CancelFlag> {
        for (task, flag) in self.at_callers.as_slice() {
            if *task == t {
                return flag.share().ok();
            }
        }
        None
    }

    /// Sets the flag of a task that its caller runs.
    pub fn set_at_caller(&self, t: TaskId) {
        for (task, flag) in self.at_callers.as_slice() {
            if *task == t {
                flag.set();
            }
        }
    }

    /// A task that its caller ran is gone.
    pub fn end_at_caller(&mut self, t: TaskId)
        ensures { self.new ≡ record self.old { at_callers = filter (λ u. not (nat_eq u t.0)) self.old.at_callers } }
    {
        self.at_callers.retain(|(task, _)| *task != t);
    }
}
