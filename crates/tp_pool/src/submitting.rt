//! Submissions: a task's path from its first step to its end, each step in a hold of its own. Between two of
//! them other threads may make steps, so a submission asks after each answer what comes next.
ghost use Rattle.std.specs.Prelude.{◌≡◌, ◌≢◌, ◌⊎◌, ◌+◌, ◌<◌, ◌≤◌, true, option_map, Some, IsSome, IfSome, IfNone, IfOk, IfErr, OnSome, OnOk, OnErr};
ghost use Rattle.tp_record.specs.State.{state};
ghost use Rattle.tp_record.specs.declared.entries.Ask.{Ask as AskOf};
ghost use Rattle.tp_record.specs.Step.{allows};
ghost use Rattle.tp_record.specs.Paths.{Ends, Rejected, follows as what_follows};
ghost use Rattle.tp_protocols.specs.Fronts.{admission_of, follow_of, goes};
ghost use Rattle.tp_pool_holds.specs.Passes.{AddsStep, AddsNone, IsRefusal, LooksOnly, opening};
ghost use Rattle.tp_machine.specs.Answers.{ComesBack};
ghost use Rattle.tp_pool.specs.Admissions.{task_of, end_of, Admits, AtPriority, Awaits, IsAdmitted, IsTurnedAway, IsUndone};
ghost use Rattle.tp_pool_holds.specs.Submitting.{IsHalted, TakesOut};

use crate::boxes::{Boxed, Boxes};
use crate::orders::{Order, rescue_by, staffed_by};
use crate::pool::{Owner, PoolOf};
use std::sync::Wait;
use std::thread::Threads;
use tp_book::passes::Pass;
use tp_machine::machine::releases::Keeper;
use tp_machine::typed::Plain;
use tp_machine::typed::submitters::{CallerEnd, Grow, Look, Offer, Submit};
use tp_pool_holds::answers::{Admitted, Refused};
use tp_pool_holds::edges::Edge;
use tp_pool_holds::names::PoolNaming;
use tp_pool_holds::staffing::staff;
use tp_pool_holds::tasks::Payload;
use tp_protocols::flags::CancelFlag;
use tp_protocols::jobs::Job;
use tp_protocols::laws::law_fronts_are_paths;
use tp_protocols::paths::{Ending, Next, follows};
use tp_record::entries::{Ask, Did};
use tp_types::configs::Verdict;
use tp_types::ids::{SlotId, TaskId};
use tp_types::refusals::PoolError;
use tp_types::tasks::{Kind, Outcome};

/// The most steps of one submission. Their receipts are reserved before the first, so that no submission
/// breaks off for want of memory. The longest path is shorter.
pub const MOST_STEPS: usize = 512;

// The refusal of a submission whose step the book does not take, or whose path does not end.
fn torn<J>() -> Refused<J>
    ensures { result.error ≡ PoolError.TornRecord }
{
    Refused {
        error: PoolError::TornRecord,
        job: None,
    }
}

// Room for the receipts of a submission. NoMemory (4).
fn reserve<G: PoolNaming>(pass: &mut Pass<G>) -> Result<(), PoolError>
    ensures room { OnOk result (512 ≤ pass.new.room) }
    ensures same { AddsNone pass.old pass.new }
    ensures refused { IfErr result (λ e. e ≡ PoolError.NoMemory) }
{
    pass.reserve(MOST_STEPS)
}

// The answer of a submission that has come to this end.
#[inline(always)]
fn answer<J: Drop>(
    t: TaskId,
    ending: Ending,
    held: Option<Payload<J>>,
) -> Result<Admitted, Refused<J>>
    ensures admitted { IfOk result (λ a. (task_of a ≡ t) × (end_of a ≡ admission_of ending)) }
    ensures rejected { IfErr result (λ r. (r.error ≡ PoolError.Rejected t) × (ending ≡ Ending.Rejected)) }
    ensures job { IfErr result (λ r. r.job ≡ option_map (λ k. k.job) held) }
{
    match ending {
        Ending::Accepted => Ok(Admitted::Accepted(t)),
        Ending::RanHere(outcome) => Ok(Admitted::RanHere(t, outcome)),
        Ending::Discarded => Ok(Admitted::Discarded(t)),
        Ending::Rejected => Err(Refused {
            error: PoolError::Rejected(t),
            job: held.map(Payload::into_job),
        }),
    }
}

// Runs a task's job on its submitter's thread.
fn run_here<J: Job>(job: J, flag: &CancelFlag) -> Outcome {
    let mut job = job;
    job.call(flag)
}

impl<
    G: PoolNaming + Send + Sync + 'static,
    J: Job + 'static,
    E: Edge + Send + Sync + 'static,
    K: Keeper + Send + 'static,
> PoolOf<G, J, E, K> {
    /// Submits a task of this kind, as `ThreadPoolExecutor.execute`, and follows it to the end of its
    /// submission. The answer has the task's number. `Accepted`: the pool has the task, or it was cancelled
    /// before its submitter was to run it. `RanHere` and `Discarded`: the pool could not take the task, and
    /// the policy had it run or dropped.
    ///
    /// Where its steps leave a pool that is shut down to nobody, this call also does what is left, with a pass
    /// of the pool's own: it ends the pool, or has a worker made for the tasks that are queued. So it may call
    /// the terminated hook and the factory once the pool is shut down.
    ///
    /// NoMemory (4) or BookFull (5) comes before the first step, with the job and with nothing done.
    /// Rejected (12) comes after the task's whole path, with the job where it was not cancelled.
    /// TornRecord (22) does not come as long as the pool's book is sound.
    pub fn execute_as<R: Threads + Wait + Copy + Send + 'static>(
        &self,
        rt: &R,
        kind: Kind,
        job: J,
        pass: &mut Pass<G>,
    ) -> Result<Admitted, Refused<J>>
        ensures admitted { Admits (K.terms G.config) kind (J.urgency job) job (J.promised job) pass.old pass.new result }
        ensures refused { IfErr result (λ r. AtPriority (J.urgency job) (λ p. IsTurnedAway K.RECEIPTS (K.terms G.config) kind p job (J.promised job) pass.old pass.new r)) }
    {
        self.execute_at(rt, kind, job.priority(), job, pass)
    }

    /// As `execute_as`, at this priority: the job's own is not asked.
    pub fn execute_at<R: Threads + Wait + Copy + Send + 'static>(
        &self,
        rt: &R,
        kind: Kind,
        priority: u32,
        job: J,
        pass: &mut Pass<G>,
    ) -> Result<Admitted, Refused<J>>
        ensures admitted { IfOk result (IsAdmitted (K.terms G.config) kind priority job (J.promised job) pass.old pass.new) }
        ensures refused { IfErr result (IsTurnedAway K.RECEIPTS (K.terms G.config) kind priority job (J.promised job) pass.old pass.new) }
    {
        let promise = job.promise();
        let step = Submit {
            kind,
            priority,
            promise,
        };
        let make = |order| self.obey(*rt, order);
        self.execute_by(
            rt,
            step,
            job,
            &make,
            &|job, flag: CancelFlag| run_here(job, &flag),
            pass,
        )
    }

    // Has a worker made for this slot, and tells whether one was.
    pub(crate) fn staffed<R: Threads + Wait + Copy + Send + 'static>(
        &self,
        rt: R,
        w: SlotId,
    ) -> bool {
        match &self.owner {
            Owner::Shared(shared) => staff(rt, shared, w),
            Owner::Sole(_) => false,
        }
    }
}

impl<G: PoolNaming, J: Drop, E: Edge, K: Keeper> PoolOf<G, J, E, K> {
    /// As `execute_at`, for a job that promises what the step says, of a caller that knows how workers are made, and how a job
    /// is run in its own thread.
    pub fn execute_by<R: Wait, F: Fn(Order) -> bool, H: Fn(J, CancelFlag) -> Outcome>(
        &self,
        rt: &R,
        step: Submit,
        job: J,
        make: &F,
        run: &H,
        pass: &mut Pass<G>,
    ) -> Result<Admitted, Refused<J>>
        requires make { F.IsAlwaysCallable make.now }
        requires run { H.IsAlwaysCallable run.now }
        ensures admitted { IfOk result (IsAdmitted (K.terms G.config) step.kind step.priority job step.promise pass.old pass.new) }
        ensures refused { IfErr result (IsTurnedAway K.RECEIPTS (K.terms G.config) step.kind step.priority job step.promise pass.old pass.new) }
    {
        match reserve(pass) {
            Ok(()) => self.submit(rt, step, job, make, run, pass),
            Err(error) => Err(Refused {
                error,
                job: Some(job),
            }),
        }
    }

    // The steps of a submission: the first, and then each that the answer before it asks for.
    fn submit<R: Wait, F: Fn(Order) -> bool, H: Fn(J, CancelFlag) -> Outcome>(
        &self,
        rt: &R,
        step: Submit,
        job: J,
        make: &F,
        run: &H,
        pass: &mut Pass<G>,
    ) -> Result<Admitted, Refused<J>>
        requires room { 512 ≤ pass.old.room }
        requires make { F.IsAlwaysCallable make.now }
        requires run { H.IsAlwaysCallable run.now }
        ensures admitted { IfOk result (IsAdmitted (K.terms G.config) step.kind step.priority job step.promise pass.old pass.new) }
        ensures refused { IfErr result (IsTurnedAway K.RECEIPTS (K.terms G.config) step.kind step.priority job step.promise pass.old pass.new) }
    {
        let (t, look) = match self.shared().submit(rt, step, job, pass) {
            Ok(submitted) => submitted,
            Err((error, job)) => {
                return Err(Refused {
                    error,
                    job: Some(job),
                });
            }
        };
        law_fronts_are_paths();
        let mut next = follows(t, &Did::Submit(t, step.kind, step.priority, look));
        let mut held = None;
        for _ in 1..MOST_STEPS {
            if let Next::End(ending) = next {
                return answer(t, ending, held);
            }
            let Some(did) = self.advance(rt, t, next, make, run, &mut held, pass) else {
                return Err(torn());
            };
            next = next.after(t, &did);
        }
        match next {
            Next::End(ending) => answer(t, ending, held),
            _ => Err(torn()),
        }
    }

    // One further step of a submission, None where the book does not take it. The verdict is asked, the body
    // run and the worker's thread made before the hold of the step, with no lock held. Where the step rejects
    // the task, its job is held unless the task was cancelled.
    #[inline(always)]
    fn advance<R: Wait, F: Fn(Order) -> bool, H: Fn(J, CancelFlag) -> Outcome>(
        &self,
        rt: &R,
        t: TaskId,
        next: Next,
        make: &F,
        run: &H,
        held: &mut Option<Payload<J>>,
        pass: &mut Pass<G>,
    ) -> Option<Did>
        requires room { 0 < pass.old.room }
        requires make { F.IsAlwaysCallable make.now }
        requires run { H.IsAlwaysCallable run.now }
        ensures step { IfSome result (λ d. (ask : AskOf) × AddsStep (K.terms G.config) pass.old ask d pass.new) }
        ensures left { OnSome result (pass.old.room ≤ pass.new.room + 1) }
        ensures on_path { OnSome result (Awaits (follow_of t.0 next)) }
        ensures undone { IfNone result (Awaits (follow_of t.0 next) → IsUndone K.RECEIPTS (K.terms G.config) t next pass.new) }
        ensures returned { IfSome result (λ d. goes t.0 (follow_of t.0 next) d ≡ Ends Rejected → ComesBack t.0 held.new pass.new.front × TakesOut (K.terms G.config) pass.old.number t.0 held.new pass.old.front pass.new.front) }
        ensures unchanged { IfNone result ((pass.new ≡ pass.old) ⊎ LooksOnly (K.terms G.config) pass.old pass.new) }
    {
        let shared = self.shared();
        match next {
            Next::Offer => match shared.ask(rt, Plain(Offer(t)), pass) {
                Ok(answer) => Some(Did::Offer(t, answer)),
                Err(_) => None,
            },
            Next::Second => self.second(rt, t, make, pass),
            Next::Look => match shared.ask(rt, Plain(Look(t)), pass) {
                Ok(answer) => Some(Did::Look(t, answer)),
                Err(_) => None,
            },
            Next::Grow => match shared.ask(rt, Plain(Grow(t)), pass) {
                Ok(answer) => Some(Did::Grow(t, answer)),
                Err(_) => None,
            },
            Next::Judge => self.judge(rt, t, self.verdict(rt, t), make, held, pass),
            Next::RunHere => {
                let flag = shared.flag_at_caller(rt, t)?;
                let outcome = run(held.take()?.into_job(), flag);
                match shared.ask(rt, Plain(CallerEnd(t, outcome)), pass) {
                    Ok(()) => Some(Did::CallerEnd(t, outcome)),
                    Err(_) => None,
                }
            }
            Next::Staff(w) => self.open_by(rt, w, staffed_by(make, w), make, pass).ok(),
            Next::End(_) | Next::Astray => None,
        }
    }

    // The step `second`: what it did. A task that comes back may leave the pool to nobody.
    #[inline(always)]
    fn second<R: Wait, F: Fn(Order) -> bool>(
        &self,
        rt: &R,
        t: TaskId,
        make: &F,
        pass: &mut Pass<G>,
    ) -> Option<Did>
        requires room { 0 < pass.old.room }
        requires make { F.IsAlwaysCallable make.now }
        ensures step { IfSome result (λ d. AddsStep (K.terms G.config) pass.old (Ask.Second t) d pass.new) }
        ensures left { OnSome result (pass.old.room ≤ pass.new.room + 1) }
        ensures refused { IfNone result (IsHalted K.RECEIPTS (K.terms G.config) pass.new (Ask.Second t)) }
        ensures unchanged { IfNone result (LooksOnly (K.terms G.config) pass.old pass.new) }
    {
        let (did, remains) = self.shared().second(rt, t, pass);
        rescue_by(make, remains);
        did
    }

    // The step `verdict`: what it did. A task that its submitter is to run, or that is gone, is handed out unless
    // it was cancelled.
    #[cold]
    #[inline(never)]
    fn judge<R: Wait, F: Fn(Order) -> bool>(
        &self,
        rt: &R,
        t: TaskId,
        verdict: Verdict,
        make: &F,
        held: &mut Option<Payload<J>>,
        pass: &mut Pass<G>,
    ) -> Option<Did>
        requires room { 0 < pass.old.room }
        requires make { F.IsAlwaysCallable make.now }
        ensures step { IfSome result (λ d. AddsStep (K.terms G.config) pass.old (Ask.Verdict t verdict) d pass.new) }
        ensures left { OnSome result (pass.old.room ≤ pass.new.room + 1) }
        ensures refused { IfNone result (IsHalted K.RECEIPTS (K.terms G.config) pass.new (Ask.Verdict t verdict)) }
        ensures returned { IfSome result (λ d. what_follows t.0 d ≡ Ends Rejected → ComesBack t.0 held.new pass.new.front × TakesOut (K.terms G.config) pass.old.number t.0 held.new pass.old.front pass.new.front) }
        ensures unchanged { IfNone result (LooksOnly (K.terms G.config) pass.old pass.new) }
    {
        let (did, remains) = self.shared().judge(rt, t, verdict, held, pass);
        rescue_by(make, remains);
        did
    }

    // Tells whether a worker was made for this slot, and has done what that leaves to do.
    #[inline(never)]
    pub(crate) fn open_by<R: Wait, F: Fn(Order) -> bool>(
        &self,
        rt: &R,
        w: SlotId,
        staffed: bool,
        make: &F,
        pass: &mut Pass<G>,
    ) -> Result<Did, PoolError>
        requires room { 0 < pass.old.room }
        requires make { F.IsAlwaysCallable make.now }
        ensures step { IfOk result (λ d. AddsStep (K.terms G.config) pass.old (opening w staffed) d pass.new) }
        ensures left { OnOk result (pass.old.room ≤ pass.new.room + 1) }
        ensures refused { IfErr result (IsRefusal true (K.terms G.config) pass.new (opening w staffed)) }
        ensures unchanged { OnErr result (LooksOnly (K.terms G.config) pass.old pass.new) }
    {
        let (opened, remains) = self.shared().hand_over(rt, w, staffed, pass);
        rescue_by(make, remains);
        opened
    }

    // The verdict on a refused task: the policy's, or the handler's under `Policy::Own`.
    fn verdict<R: Wait>(&self, rt: &R, t: TaskId) -> Verdict
        ensures { allows (K.terms G.config).policy result ≡ true }
    {
        let shared = self.shared();
        match shared.around.policy.verdict::<K>() {
            Some(verdict) => verdict,
            None => {
                let state = shared.hold(rt).book().state();
                shared.around.edge.verdict(rt, t, state)
            }
        }
    }
}

impl<G: PoolNaming + Send + Sync + 'static, K: Keeper + Send + 'static> PoolOf<G, Boxed, Boxes, K> {
    /// Submits a plain task, as `ThreadPoolExecutor.execute`, in a box and with the answers of `execute_as`.
    /// NoMemory (4) or BookFull (5), with the job and with nothing done; Rejected (12), with the job;
    /// TornRecord (22), which does not come as long as the pool's book is sound.
    pub fn execute<R: Threads + Wait + Copy + Send + 'static>(
        &self,
        rt: &R,
        job: Box<dyn Job>,
        pass: &mut Pass<G>,
    ) -> Result<Admitted, Refused<Boxed>>
        ensures admitted { Admits (K.terms G.config) Kind.Plain (urgency job) (record { job = job }) (promised job) pass.old pass.new result }
        ensures refused { IfErr result (λ r. AtPriority (urgency job) (λ p. IsTurnedAway K.RECEIPTS (K.terms G.config) Kind.Plain p (record { job = job }) (promised job) pass.old pass.new r)) }
        ensures returned { IfErr result (λ r. r.error ≢ PoolError.TornRecord → IsSome r.job) }
    {
        self.execute_as(rt, Kind::Plain, Boxed { job }, pass)
    }
}
