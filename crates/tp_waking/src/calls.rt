//! Whom a thread wakes once it has let go of a pool's lock.
ghost use Rattle.std.specs.Prelude.{ℕ, ◌≡◌, ◌↔◌, IsTrue};
ghost use Rattle.tp_waking.specs.Calls.{IsCalled};
ghost use Rattle.tp_waking.specs.declared.calls.TheConstants.{NOBODY, NO_WAITERS};

use tp_types::ids::SlotId;

/// Who waits for what, apart from workers. Each kind sleeps on a condition of its own.
//
// A kind has a mark and no count, which would have to be kept right. The thread that waits sets the mark, and sets it again where
// it waits on; the thread that wakes clears it. A condition without sleepers is not notified, which would be a system call.
#[derive(Clone, Copy, Debug, PartialEq, Eq)]
pub struct Waiters {
    /// Those in `await_termination`.
    pub end: bool,
    /// Those who wait for futures, in `await_result` and `await_done`.
    pub results: bool,
    /// Those in `wait_step`.
    pub steps: bool,
    /// Those who wait until a submission finds room.
    pub room: bool,
}

/// Nobody waits.
pub const NO_WAITERS: Waiters = Waiters {
    end: false,
    results: false,
    steps: false,
    room: false,
};

impl Waiters {
    /// Whether nobody waits.
    #[inline(always)]
    pub fn is_none(&self) -> bool
        ensures { IsTrue result ↔ (self.now ≡ NO_WAITERS) }
    {
        let Waiters {
            end,
            results,
            steps,
            room,
        } = *self;
        !(end | results | steps | room)
    }
}

/// Who is to be woken. One worker has a place of its own, since no hold calls two by name. Were it to call a
/// second one, all workers would be woken: a worker that is woken in vain sleeps again.
//
// The five flags do not stand side by side: the compiler would look at all of them by vectors, in twice the instructions.
#[derive(Clone, Copy, Debug, PartialEq, Eq)]
pub struct Calls {
    /// All who wait for these.
    pub waiters: Waiters,
    /// This worker.
    pub worker: Option<SlotId>,
    /// All workers.
    pub everyone: bool,
}

/// Nobody.
pub const NOBODY: Calls = Calls {
    worker: None,
    everyone: false,
    waiters: NO_WAITERS,
};

impl Calls {
    /// One worker more.
    #[inline(always)]
    pub fn add(&mut self, w: SlotId)
        ensures called { IsCalled self.new w.0 }
        ensures kept { (v : ℕ) → IsCalled self.old v → IsCalled self.new v }
        ensures waiters { self.new.waiters ≡ self.old.waiters }
    {
        if self.worker.is_none() {
            self.worker = Some(w);
        } else {
            self.everyone = true;
        }
    }

    /// Whether nobody is to be woken, as after most holds.
    #[inline(always)]
    pub fn is_nobody(&self) -> bool
        ensures { IsTrue result ↔ (self.now ≡ NOBODY) }
    {
        self.worker.is_none() && !self.everyone & self.waiters.is_none()
    }
}
