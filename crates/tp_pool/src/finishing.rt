//! The end of a pool whose callers are through: it is shut down, waited for, and let go where it can't be closed.
ghost use Rattle.std.specs.Prelude.{◌≡◌, ◌≤◌, IsTrue, IfErr, OnOk};
ghost use Rattle.tp_record.specs.Fields.{rank};
ghost use Rattle.tp_record.specs.Step.{Legal};
ghost use Rattle.tp_pool.specs.Lives.{IsShut};

use crate::callers::Runtime;
use crate::closing::CloseFault;
use crate::pool::PoolOf;
use std::thread;
use tp_book::passes::Pass;
use tp_machine::machine::releases::Keeper;
use tp_machine::typed::Plain;
use tp_machine::typed::controllers::Shutdown;
use tp_pool_holds::edges::Edge;
use tp_pool_holds::names::PoolNaming;
use tp_protocols::jobs::Job;
use tp_protocols::rescues::Remains;
use tp_types::refusals::PoolError;
use tp_types::states::RunState;

impl<
    G: PoolNaming + Send + Sync + 'static,
    J: Job + 'static,
    E: Edge + Send + Sync + 'static,
    K: Keeper + Send + 'static,
> PoolOf<G, J, E, K> {
    /// Shuts the pool down, where it runs still, and waits until its workers are through. Where tasks are left to nobody then, since
    /// no worker could be made for them, the pool is stopped: their jobs are dropped.
    pub fn shut<R: Runtime>(&self, rt: &R, pass: &mut Pass<G>)
        requires room { 4 ≤ pass.old.room }
        ensures room { 2 ≤ pass.new.room }
        ensures shut { IsShut (K.terms G.config) pass.new.front }
    {
        self.shut_down(rt, pass);
        self.see_off(rt, pass);
    }

    // Shuts the pool down, where it runs still, and has a worker made where one is wanted for that.
    fn shut_down<R: Runtime>(&self, rt: &R, pass: &mut Pass<G>)
        requires room { 4 ≤ pass.old.room }
        ensures room { 3 ≤ pass.new.room }
        ensures shut { IsShut (K.terms G.config) pass.new.front }
    {
        if self.glance(pass) != RunState::Running {
            return;
        }
        let (_, remains) = self.shared().ask_left(rt, Plain(Shutdown), pass);
        if remains != Remains::End {
            self.rescue(*rt, remains);
        }
    }

    // Waits until no worker is left, and stops the pool where tasks are stranded then. They are so at the shutdown, or later: a worker
    // fails, and none can be made in its place. Each worker's thread makes the one in its place before it goes, so no worker comes
    // behind the last.
    fn see_off<R: Runtime>(&self, rt: &R, pass: &mut Pass<G>)
        requires shut { IsShut (K.terms G.config) pass.old.front }
        ensures room { 2 ≤ pass.new.room }
        ensures shut { IsShut (K.terms G.config) pass.new.front }
    {
        for _ in rt.forever() {
            self.shared().await_workers(rt);
            // A step that falls behind this reading ends the wait below.
            let seen = self.steps(rt);
            if self.is_cleared(rt, pass) {
                return;
            }
            self.await_change(rt, seen);
        }
        unreachable!()
    }

    // Waits until the pool may have changed, which had so many steps. Another thread has a worker made, and tells of it by a step. Where
    // tasks are stranded, there was no memory for the answer of a stop: no step tells when other threads give some back.
    fn await_change<R: Runtime>(&self, rt: &R, seen: u64) {
        if self.is_stranded(rt) {
            thread::yield_now();
        } else {
            self.wait_step(rt, seen);
        }
    }

    // Whether no task is queued, once the pool is stopped where one was stranded. False where there is no memory for the answer of the
    // stop. False, too, where another thread is making a worker.
    fn is_cleared<R: Runtime>(&self, rt: &R, pass: &mut Pass<G>) -> bool
        requires shut { IsShut (K.terms G.config) pass.old.front }
        ensures room { IsTrue result → 2 ≤ pass.new.room }
        ensures shut { IsShut (K.terms G.config) pass.new.front }
    {
        if pass.reserve(3).is_err() {
            return false;
        }
        if !self.is_stranded(rt) {
            return self.counts(rt).queued == 0;
        }
        self.shared().stop(rt, pass).is_ok()
    }

    /// Waits for the end of a pool that is shut down, and until its workers' threads are through with it. TornRecord (22) does not
    /// come as long as the pool's book is sound.
    pub fn await_shut<R: Runtime>(&self, rt: &R, pass: &mut Pass<G>) -> Result<(), PoolError>
        requires room { 2 ≤ pass.old.room }
        requires shut { IsShut (K.terms G.config) pass.old.front }
        ensures seen { 3 ≤ rank pass.new.front }
        ensures legal { Legal (K.terms G.config) pass.new.front }
        ensures ended { OnOk result (rank pass.new.front ≡ 4) }
        ensures torn { IfErr result (λ e. e ≡ PoolError.TornRecord) }
    {
        let shared = self.shared();
        let ended = shared.await_end(rt, None, pass);
        shared.await_workers(rt);
        ended
    }
}

impl<G: PoolNaming, J: Drop, E: Drop, K: Keeper> PoolOf<G, J, E, K> {
    /// Lets the pool go, with no report: its workers run what is queued, and then wait. They end with the process. It is not shut down,
    /// since this call takes no pass and waits for nothing. Java's pool is let go so wherever the last reference to it is lost.
    pub fn let_go(self) {
        let PoolOf { owner } = self;
        drop(owner);
    }
}

impl<G: PoolNaming, J: Drop, E: Drop, K: Keeper, P: Drop> CloseFault<G, J, E, K, P> {
    /// Lets the pool of a refused close go, as `PoolOf::let_go`, with what was handed in; the answer is the refusal.
    pub fn let_go(self) -> PoolError
        ensures { result ≡ self.error }
    {
        let CloseFault {
            error,
            pool,
            passes: _,
        } = self;
        pool.let_go();
        error
    }
}
