//! Submissions that wait for room: where the queue is full and no more workers may be made, the pool's policy would judge the task at
//! once. Java's pool has no such call; its users write a handler that puts the task into the queue, or a semaphore.
ghost use Rattle.std.specs.Prelude.{◌≡◌, ◌⊎◌, not, false, true, Some, IfOk, IfErr, OnOk};
ghost use Rattle.tp_machine.specs.Readings.{lacks_room};
ghost use Rattle.tp_pool_holds.specs.Moments.{AtSome};
ghost use Rattle.tp_pool.specs.Admissions.{Admits, AtPriority, IsTurnedAway};

use crate::pool::PoolOf;
use crate::timed::Timer;
use std::sync::Wait;
use std::thread::Threads;
use std::time::{Clock, Duration};
use tp_book::passes::Pass;
use tp_machine::machine::releases::Keeper;
use tp_pool_holds::answers::{Admitted, Refused};
use tp_pool_holds::edges::Edge;
use tp_pool_holds::names::PoolNaming;
use tp_pool_holds::shared::Event;
use tp_protocols::jobs::Job;
use tp_types::refusals::PoolError;
use tp_types::tasks::Kind;

impl<G: PoolNaming, J: Drop, E: Edge, K: Keeper> PoolOf<G, J, E, K> {
    /// Whether a task that is submitted now would find room: a slot, a place in the queue or an idle worker. It is so, too, once the
    /// pool runs no more: then the policy judges the task. No step is made.
    pub fn has_room<R: Wait>(&self, rt: &R) -> bool
        ensures { AtSome (K.terms G.config) (λ s. lacks_room (K.terms G.config).queue s ≡ not result) }
    {
        !self.shared().hold(rt).lacks_room()
    }

    /// Waits until a task that is submitted would find room, as `has_room` tells it. It makes no step. Another caller's submission may
    /// take the room first.
    pub fn await_room<R: Wait>(&self, rt: &R)
        ensures { AtSome (K.terms G.config) (λ s. lacks_room (K.terms G.config).queue s ≡ false) }
    {
        self.shared().await_room(rt);
    }

    /// As `await_room`, for at most so long by the clock. TimedOut (16) where the time is over, or the clock can't be read, and there is
    /// no room.
    pub fn await_room_for<R: Wait + Clock>(&self, rt: &R, most: Duration) -> Result<(), PoolError>
        ensures room { OnOk result (AtSome (K.terms G.config) (λ s. lacks_room (K.terms G.config).queue s ≡ false)) }
        ensures late { IfErr result (λ e. (e ≡ PoolError.TimedOut) × AtSome (K.terms G.config) (λ s. lacks_room (K.terms G.config).queue s ≡ true)) }
    {
        let timer = Timer::new(rt, most);
        let shared = self.shared();
        let mut locked = shared.hold(rt);
        for _ in rt.forever() {
            if locked.await_room() {
                return Ok(());
            }
            let Some(left) = timer.left(rt) else {
                return Err(PoolError::TimedOut);
            };
            locked = shared.wait_at_for(rt, Event::Room, locked, left);
        }
        unreachable!()
    }
}

// The refusal of a task for which there was no room. Its submission has not begun.
fn late<J>(job: J) -> Refused<J>
    ensures { result ≡ record { error = PoolError.TimedOut; job = Some job } }
{
    Refused {
        error: PoolError::TimedOut,
        job: Some(job),
    }
}

impl<
    G: PoolNaming + Send + Sync + 'static,
    J: Job + 'static,
    E: Edge + Send + Sync + 'static,
    K: Keeper + Send + 'static,
> PoolOf<G, J, E, K> {
    /// As `execute_as`, once a submission would find room (`await_room`). The policy judges the task where other callers fill the pool
    /// first, or the pool runs no more.
    pub fn execute_when_room<R: Threads + Wait + Copy + Send + 'static>(
        &self,
        rt: &R,
        kind: Kind,
        job: J,
        pass: &mut Pass<G>,
    ) -> Result<Admitted, Refused<J>>
        ensures admitted { Admits (K.terms G.config) kind (J.urgency job) job (J.promised job) pass.old pass.new result }
        ensures refused { IfErr result (λ r. AtPriority (J.urgency job) (λ p. IsTurnedAway K.RECEIPTS (K.terms G.config) kind p job (J.promised job) pass.old pass.new r)) }
    {
        self.await_room(rt);
        self.execute_as(rt, kind, job, pass)
    }

    /// As `execute_when_room`, where there is room within so long by the clock. Else TimedOut (16), with the job: no step was made.
    pub fn execute_when_room_for<R: Threads + Wait + Clock + Copy + Send + 'static>(
        &self,
        rt: &R,
        kind: Kind,
        most: Duration,
        job: J,
        pass: &mut Pass<G>,
    ) -> Result<Admitted, Refused<J>>
        ensures admitted { Admits (K.terms G.config) kind (J.urgency job) job (J.promised job) pass.old pass.new result }
        ensures refused { IfErr result (λ r. ((r ≡ record { error = PoolError.TimedOut; job = Some job }) × (pass.new ≡ pass.old) × AtSome (K.terms G.config) (λ s. lacks_room (K.terms G.config).queue s ≡ true))
            ⊎ AtPriority (J.urgency job) (λ p. IsTurnedAway K.RECEIPTS (K.terms G.config) kind p job (J.promised job) pass.old pass.new r)) }
    {
        match self.await_room_for(rt, most) {
            Ok(()) => self.execute_as(rt, kind, job, pass),
            Err(_) => Err(late(job)),
        }
    }

    /// As `execute_as`, where there is room now. Else TimedOut (16), with the job: no step was made, so the record does not grow by
    /// tries against a full pool.
    pub fn try_execute<R: Threads + Wait + Copy + Send + 'static>(
        &self,
        rt: &R,
        kind: Kind,
        job: J,
        pass: &mut Pass<G>,
    ) -> Result<Admitted, Refused<J>>
        ensures admitted { Admits (K.terms G.config) kind (J.urgency job) job (J.promised job) pass.old pass.new result }
        ensures refused { IfErr result (λ r. ((r ≡ record { error = PoolError.TimedOut; job = Some job }) × (pass.new ≡ pass.old) × AtSome (K.terms G.config) (λ s. lacks_room (K.terms G.config).queue s ≡ true))
            ⊎ AtPriority (J.urgency job) (λ p. IsTurnedAway K.RECEIPTS (K.terms G.config) kind p job (J.promised job) pass.old pass.new r)) }
    {
        if self.has_room(rt) {
            self.execute_as(rt, kind, job, pass)
        } else {
            Err(late(job))
        }
    }
}
