//! Who sleeps, who waits, and who is to be woken, as it lies under a pool's lock.
ghost use Rattle.std.specs.Prelude.{ℕ, ◌≡◌, ◌≢◌, ◌⊎◌, ◌<◌, Some, length, replicate, IfOk, IsTrue, true, nat_lt, ⊤};
ghost use Rattle.tp_types.specs.declared.ids.SlotId.{SlotId};
ghost use Rattle.tp_types.specs.declared.ids.TaskId.{TaskId};
ghost use Rattle.tp_waking.specs.Rests.{rest_at, IsSettled};
ghost use Rattle.tp_waking.specs.declared.calls.TheConstants.{NO_WAITERS, NOBODY};
ghost use Rattle.tp_waking.specs.Calls.{IsCalled};
ghost use Rattle.tp_waking.specs.Follows.{Follows};
ghost use Rattle.tp_waking.specs.Heard.{IsHeardBy};
ghost use Rattle.tp_waking.specs.Quiet.{IsQuiet};
ghost use Rattle.tp_waking.specs.Told.{IsTold, EndsIdling, HasLooked};

use crate::calls::{Calls, NO_WAITERS, NOBODY, Waiters};
use crate::ends::changes_end;
use crate::results::changes_results;
use crate::rooms::changes_room;
use crate::sleepers::{Rest, Sleepers};
use std::alloc::{AllocError, Global};
use tp_record::entries::{Ask, Did, Offered};
use tp_types::ids::SlotId;
use tp_types::states::RunState;

/// What a pool's lock keeps of those who sleep.
#[derive(Drop)]
pub struct Waking {
    /// The workers that sleep, or were woken.
    pub sleepers: Sleepers,
    /// Somebody may wait for these.
    pub awaited: Waiters,
    /// Who is to be woken once the lock is let go.
    pub calls: Calls,
}

impl Waking {
    /// Nobody sleeps, of workers in so many slots, and nobody waits.
    pub fn new(alloc: Global, slots: usize) -> Result<Waking, AllocError>
        ensures { IfOk result (λ w. w ≡ record { sleepers = replicate slots Rest.Away; awaited = NO_WAITERS; calls = NOBODY }) }
    {
        Ok(Waking {
            sleepers: Sleepers::new(alloc, slots)?,
            awaited: NO_WAITERS,
            calls: NOBODY,
        })
    }

    /// Somebody waits in `await_termination`.
    pub fn await_end(&mut self)
        ensures { self.new ≡ record self.old { awaited = record self.old.awaited { end = true } } }
    {
        self.awaited.end = true;
    }

    /// Somebody waits for a future.
    pub fn await_result(&mut self)
        ensures { self.new ≡ record self.old { awaited = record self.old.awaited { results = true } } }
    {
        self.awaited.results = true;
    }

    /// Somebody waits in `wait_step`.
    pub fn await_step(&mut self)
        ensures { self.new ≡ record self.old { awaited = record self.old.awaited { steps = true } } }
    {
        self.awaited.steps = true;
    }

    /// Somebody waits until a submission finds room.
    pub fn await_room(&mut self)
        ensures { self.new ≡ record self.old { awaited = record self.old.awaited { room = true } } }
    {
        self.awaited.room = true;
    }

    /// Who is to be woken; the caller wakes them once it has let go of the lock.
    #[inline(always)]
    pub fn release(&mut self) -> Calls
        ensures calls { result ≡ self.old.calls }
        ensures told { self.new ≡ record self.old { calls = NOBODY } }
    {
        let calls = self.calls;
        self.calls = NOBODY;
        calls
    }

    /// Whether no worker sleeps and nobody waits: then no step concerns anybody. So it is most of the time, while
    /// all workers work.
    #[inline(always)]
    pub fn is_quiet(&self) -> bool
        ensures { IsTrue result → IsQuiet self.now }
    {
        self.sleepers.none_sleeps() & self.awaited.is_none()
    }

    /// After an accepted step, which leaves the pool in this state, with so many live workers and queued tasks;
    /// `leaving` is the worker that is idle longest, where its `take` would leave now.
    #[inline(always)]
    pub fn follow(
        &mut self,
        ask: &Ask,
        did: &Did,
        state: RunState,
        live: u32,
        queued: u32,
        leaving: Option<SlotId>,
    )
        ensures settled { IsSettled (nat_lt 0 queued) self.new.sleepers }
        ensures follows { Follows self.old self.new ask.now did.now state live queued leaving }
    {
        self.call_for(did);
        self.call_leaving(leaving);
        self.settle(queued);
        self.hear(
            changes_end(ask, state, live, queued),
            changes_results(did),
            changes_room(did),
        );
    }

    // Wakes those who wait: for the end, for futures and for room where this step may change what they find, and for
    // steps always.
    #[inline(always)]
    fn hear(&mut self, end: bool, results: bool, room: bool)
        ensures end { IsHeardBy (λ w. IsTrue w.end) (IsTrue end) self.old self.new }
        ensures results { IsHeardBy (λ w. IsTrue w.results) (IsTrue results) self.old self.new }
        ensures room { IsHeardBy (λ w. IsTrue w.room) (IsTrue room) self.old self.new }
        ensures steps { IsHeardBy (λ w. IsTrue w.steps) ⊤ self.old self.new }
        ensures told { IsTold self.old self.new }
        ensures sleepers { self.new.sleepers ≡ self.old.sleepers }
    {
        if self.awaited.end && end {
            self.awaited.end = false;
            self.calls.waiters.end = true;
        }
        if self.awaited.results && results {
            self.awaited.results = false;
            self.calls.waiters.results = true;
        }
        if self.awaited.room && room {
            self.awaited.room = false;
            self.calls.waiters.room = true;
        }
        if self.awaited.steps {
            self.awaited.steps = false;
            self.calls.waiters.steps = true;
        }
    }

    /// After the `take` of slot `w`'s worker, also a refused one, which leaves so many tasks queued: its
    /// search is over, and where it is idle it sleeps from now on.
    #[inline(always)]
    pub fn took(&mut self, w: SlotId, idle: bool, queued: u32)
        ensures settled { IsSettled (nat_lt 0 queued) self.new.sleepers }
        ensures looked { HasLooked self.old self.new w.0 (IsTrue idle) }
    {
        self.rest(w, idle);
        self.settle(queued);
    }

    // The search of slot `w`'s worker is over, and where it is idle it sleeps.
    fn rest(&mut self, w: SlotId, idle: bool)
        ensures listed { (v : ℕ) → rest_at self.old.sleepers v ≡ Rest.Listed → rest_at self.new.sleepers v ≡ Rest.Listed }
        ensures others { (v : ℕ) → v ≢ w.0 → rest_at self.new.sleepers v ≡ rest_at self.old.sleepers v }
        ensures asleep { IsTrue idle → w.0 < length self.old.sleepers → rest_at self.new.sleepers w.0 ≡ Rest.Listed }
        ensures over { rest_at self.new.sleepers w.0 ≢ Rest.Marked }
        ensures same { (self.new.awaited ≡ self.old.awaited) × (self.new.calls ≡ self.old.calls) }
    {
        self.sleepers.end_search(w);
        if idle {
            self.sleepers.list(w);
        }
    }

    // Wakes whom this answer concerns: who has a task by hand, or all who were idle.
    #[inline(always)]
    fn call_for(&mut self, did: &Did)
        ensures told { IsTold self.old self.new }
        ensures hand { (t : TaskId) (w : SlotId) → did.now ≡ Did.Offer t (Offered.Hand w) → rest_at self.new.sleepers w.0 ≢ Rest.Listed }
        ensures all { EndsIdling did.now → (v : ℕ) → rest_at self.new.sleepers v ≢ Rest.Listed }
        ensures same { (self.new.awaited ≡ self.old.awaited) × (self.new.calls.waiters ≡ self.old.calls.waiters) }
    {
        match did {
            Did::Offer(_, Offered::Hand(w)) => self.call(*w),
            Did::Shutdown | Did::Stop(_) => self.call_all(),
            _ => {}
        }
    }

    // Wakes the worker of this slot, where it sleeps.
    fn call(&mut self, w: SlotId)
        ensures told { IsTold self.old self.new }
        ensures up { rest_at self.new.sleepers w.0 ≢ Rest.Listed }
        ensures same { (self.new.awaited ≡ self.old.awaited) × (self.new.calls.waiters ≡ self.old.calls.waiters) }
    {
        if self.sleepers.call(w) {
            self.calls.add(w);
        }
    }

    // Wakes the worker that would leave, where it sleeps.
    #[inline(always)]
    fn call_leaving(&mut self, leaving: Option<SlotId>)
        ensures told { IsTold self.old self.new }
        ensures up { (w : SlotId) → leaving ≡ Some w → rest_at self.new.sleepers w.0 ≢ Rest.Listed }
        ensures same { (self.new.awaited ≡ self.old.awaited) × (self.new.calls.waiters ≡ self.old.calls.waiters) }
    {
        if let Some(w) = leaving {
            self.call(w);
        }
    }

    // Wakes all who sleep.
    fn call_all(&mut self)
        ensures told { IsTold self.old self.new }
        ensures up { (v : ℕ) → rest_at self.new.sleepers v ≢ Rest.Listed }
        ensures same { (self.new.awaited ≡ self.old.awaited) × (self.new.calls.waiters ≡ self.old.calls.waiters) }
    {
        self.sleepers.call_all();
        self.calls.everyone = true;
    }

    /// Where so many tasks are queued: wakes one worker that sleeps, where a task waits and nobody looks for one.
    #[inline(always)]
    pub fn settle(&mut self, queued: u32)
        ensures settled { IsSettled (nat_lt 0 queued) self.new.sleepers }
        ensures told { IsTold self.old self.new }
        ensures marked { (v : ℕ) → rest_at self.new.sleepers v ≡ Rest.Marked → (rest_at self.old.sleepers v ≡ Rest.Marked) ⊎ IsCalled self.new.calls v }
        ensures same { (self.new.awaited ≡ self.old.awaited) × (self.new.calls.waiters ≡ self.old.calls.waiters) }
    {
        if let Some(w) = self.sleepers.settle(queued > 0) {
            self.calls.add(w);
        }
    }
}
