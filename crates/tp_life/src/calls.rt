//! A pool's calls, as a caller makes them that has a pass of its own; and what a life with a pool is.

use crate::tasks::{Find, Held, Task};
use std::sync::Wait;
use std::time::{Clock, Duration};
use tp_pool::readings::Reading;
use tp_pool::task_of;
use tp_pool_holds::answers::{Admitted, Drained, Refused, Removal};
use tp_record::entries::{Ask, Did};
use tp_types::ids::TaskId;
use tp_types::refusals::PoolError;
use tp_types::states::RunState;
use tp_types::tasks::Kind;

/// What a caller may set.
#[derive(Clone, Copy)]
pub enum Setting {
    /// The maximum size, in workers.
    Maximum(u32),
    /// The keep-alive, in ticks.
    Keep(u64),
    /// Whether core workers time out too.
    CoreTimeout(bool),
    /// The moment, in ticks.
    Tick(u64),
}

/// The future of a task, as a `Future<V>`.
#[derive(Drop)]
pub struct Ticket<W: Task> {
    /// Its task's number.
    pub task: TaskId,
    /// Where its value is found.
    pub value: Find<W>,
}

/// The calls of a running pool that speak of no task's value: its settings, its end, and how it stands. They are made by one caller with
/// its pass. What they say is what the pool's own calls say.
// They are a trait apart, since the check compares the calls of one trait with those of a pool in one go. So a `final` call is one that
// stands on another: it is proved once, and compared with none.
pub trait Controls {
    ghost use Rattle.std.specs.Prelude.{Bool, true, ◌≡◌, ◌⊎◌, ◌<◌, ◌≤◌, [], ◌∷◌, length, IfOk, IfErr, OnOk, OnErr};
    ghost use Rattle.tp_types.specs.RunState.{state_rank};
    ghost use Rattle.tp_types.specs.declared.configs.Config.{Config};
    ghost use Rattle.tp_record.specs.Fields.{rank};
    ghost use Rattle.tp_record.specs.State.{counts as counts_of};
    ghost use Rattle.tp_glance.specs.Word.{IsFrontOf};
    ghost use Rattle.tp_book.specs.PassView.{PassView};
    ghost use Rattle.tp_pool_holds.specs.Moments.{AtFront};
    ghost use Rattle.tp_pool_holds.specs.Passes.{Adds, AddsNone, AddsStep, LooksOnly, Refuses, tidied, ended};
    ghost use Rattle.tp_pool_holds.specs.Endings.{AddsAndEnds, IsBarred};
    ghost use Rattle.tp_life.specs.Settings.{asked, done};

    /// The settings by which its steps are judged.
    ghost terms: { Config };

    /// Whether its record is kept.
    ghost keeps: { Bool };

    /// The caller's pass.
    ghost pass: { Self → PassView };

    /// Cancels a task's future, as `Future.cancel`, and answers whether that had effect. A job that runs hears of it by its cancel
    /// flag, where `flag` asks for that. NoMemory (4) for its receipt, else UnknownTask (6), NotFuture (9) or BookFull (5).
    fn cancel(&mut self, t: TaskId, flag: bool) -> Result<bool, PoolError>
        ensures step { IfOk result (λ effective. AddsStep terms (pass self.old) (Ask.Cancel t flag) (Did.Cancel t flag effective) (pass self.new)) }
        ensures refused { IfErr result (Refuses keeps terms ((pass self.old).room < 1) (pass self.new) (Ask.Cancel t flag)) }
        ensures unchanged { OnErr result (AddsNone (pass self.old) (pass self.new)) };

    /// Takes the cancelled tasks out of the queue, as `ThreadPoolExecutor.purge`, and answers how many they were. Where that leaves a
    /// pool that is shut down without a task and a worker, this call ends the pool. NoMemory (4) for its receipt, else BookFull (5).
    fn purge(&mut self) -> Result<u32, PoolError>
        ensures step { IfOk result (λ n. AddsStep terms (pass self.old) Ask.Purge (Did.Purge n) (pass self.new)) }
        ensures refused { IfErr result (Refuses true terms ((pass self.old).room < 1) (pass self.new) Ask.Purge) }
        ensures unchanged { OnErr result (AddsNone (pass self.old) (pass self.new)) };

    /// Sets this, in one step. NoMemory (4) for its receipt, else as the calls below, which say what they set.
    fn set(&mut self, setting: Setting) -> Result<(), PoolError>
        ensures step { OnOk result (AddsStep terms (pass self.old) (asked setting) (done setting) (pass self.new)) }
        ensures refused { IfErr result (Refuses true terms ((pass self.old).room < 1) (pass self.new) (asked setting)) }
        ensures unchanged { OnErr result (AddsNone (pass self.old) (pass self.new)) };

    /// Shuts the pool down, as `ThreadPoolExecutor.shutdown`: it takes no more tasks, and runs those that it has. NoMemory (4) for its
    /// receipts, else BookFull (5), which does not come while the pool runs.
    fn shutdown(&mut self) -> Result<(), PoolError>
        ensures steps { OnOk result (AddsAndEnds terms (pass self.old) Ask.Shutdown Did.Shutdown (pass self.new)) }
        ensures seen { OnOk result (1 ≤ rank (pass self.new).front) }
        ensures refused { IfErr result (Refuses true terms ((pass self.old).room < 3) (pass self.new) Ask.Shutdown) }
        ensures unchanged { OnErr result (AddsNone (pass self.old) (pass self.new)) };

    /// Waits until the pool is terminated, as `awaitTermination`, for at most so long by the clock; where the pool can end, this call
    /// ends it. The call makes no tick.
    ///
    /// NoMemory (4) for its receipts, else TimedOut (16) where the time is over, or the clock can't be read, and the pool is not
    /// terminated: these calls make no step. TornRecord (22) does not come as long as the pool's book is sound.
    fn await_end_for(&mut self, most: Duration) -> Result<(), PoolError>
        ensures steps { OnOk result (Adds terms (pass self.old) [] (pass self.new) ⊎ Adds terms (pass self.old) (tidied (pass self.old).number ∷ ended (pass self.old).number ∷ []) (pass self.new)) }
        ensures seen { OnOk result (rank (pass self.new).front ≡ 4) }
        ensures late { IfErr result (λ e. e ≡ PoolError.TimedOut → AtFront terms (pass self.new).front (λ s. ¬ (s.rank ≡ 4))) }
        ensures refused { IfErr result (λ e. ((e ≡ PoolError.NoMemory) × ((pass self.old).room < 2) × AddsNone (pass self.old) (pass self.new))
            ⊎ ((e ≡ PoolError.TimedOut) × Adds terms (pass self.old) [] (pass self.new))
            ⊎ ((e ≡ PoolError.TornRecord) × IsBarred terms (pass self.new).front Ask.Ended × Adds terms (pass self.old) (tidied (pass self.old).number ∷ []) (pass self.new))) };

    /// The run state that is published now, without the lock.
    fn state(&mut self) -> RunState
        ensures state { state_rank result ≡ rank (pass self.new).front }
        ensures goes_on { IsFrontOf (pass self.old).front (pass self.new).front }
        ensures knew { IsFrontOf (pass self.old).released (pass self.new).released }
        ensures same { pass self.new ≡ record (pass self.old) { front = (pass self.new).front; released = (pass self.new).released } };

    /// The run state, the counters, the moment in ticks and the record's length in entries, all of one moment.
    fn look(&mut self) -> Reading
        ensures reads { AtFront terms (pass self.new).front (λ s. (state_rank result.state ≡ s.rank) × (result.counts ≡ counts_of s) × (result.now ≡ s.now)) }
        ensures steps { result.steps ≡ length (pass self.new).front }
        ensures looks { LooksOnly terms (pass self.old) (pass self.new) };

    /// Sets the maximum size, in workers, as `setMaximumPoolSize`. NoMemory (4) for its receipt, else BadSizes (1) for 0, above 1,024
    /// or below the core size, else BookFull (5), or NoMemory (4) for the places of more slots.
    final fn set_maximum(&mut self, maximum: u32) -> Result<(), PoolError>
        ensures step { OnOk result (AddsStep terms (pass self.old) (Ask.Maximum maximum) (Did.Maximum maximum) (pass self.new)) }
        ensures refused { IfErr result (Refuses true terms ((pass self.old).room < 1) (pass self.new) (Ask.Maximum maximum)) }
        ensures unchanged { OnErr result (AddsNone (pass self.old) (pass self.new)) }
    {
        self.set(Setting::Maximum(maximum))
    }

    /// Sets the keep-alive, in ticks, as `setKeepAliveTime`. NoMemory (4) for its receipt, else KeepZero (11) for 0 while core workers
    /// time out, else BookFull (5).
    final fn set_keep(&mut self, keep: u64) -> Result<(), PoolError>
        ensures step { OnOk result (AddsStep terms (pass self.old) (Ask.Keep keep) (Did.Keep keep) (pass self.new)) }
        ensures refused { IfErr result (Refuses true terms ((pass self.old).room < 1) (pass self.new) (Ask.Keep keep)) }
        ensures unchanged { OnErr result (AddsNone (pass self.old) (pass self.new)) }
    {
        self.set(Setting::Keep(keep))
    }

    /// Says whether core workers time out too, as `allowCoreThreadTimeOut`. NoMemory (4) for its receipt, else KeepZero (11) for `true`
    /// while the keep-alive is 0, else BookFull (5).
    final fn allow_core_timeout(&mut self, on: bool) -> Result<(), PoolError>
        ensures step { OnOk result (AddsStep terms (pass self.old) (Ask.CoreTimeout on) (Did.CoreTimeout on) (pass self.new)) }
        ensures refused { IfErr result (Refuses true terms ((pass self.old).room < 1) (pass self.new) (Ask.CoreTimeout on)) }
        ensures unchanged { OnErr result (AddsNone (pass self.old) (pass self.new)) }
    {
        self.set(Setting::CoreTimeout(on))
    }

    /// Sets the moment, in ticks; Java's pool reads a clock instead. Keep-alives are measured by it. NoMemory (4) for its receipt, else
    /// ClockBack (10) for a moment below now, else BookFull (5).
    final fn tick(&mut self, now: u64) -> Result<(), PoolError>
        ensures step { OnOk result (AddsStep terms (pass self.old) (Ask.Tick now) (Did.Tick now) (pass self.new)) }
        ensures refused { IfErr result (Refuses true terms ((pass self.old).room < 1) (pass self.new) (Ask.Tick now)) }
        ensures unchanged { OnErr result (AddsNone (pass self.old) (pass self.new)) }
    {
        self.set(Setting::Tick(now))
    }
}

/// The calls of a running pool, made by one caller with its pass, and by the runtime by which it waits: so no call names either. Who
/// is generic in it names no pool's type. What its calls say is what the pool's own calls say.
pub trait Calls: Controls {
    ghost use Rattle.std.specs.Prelude.{true, None, ◌≡◌, ◌⊎◌, ◌<◌, ◌≤◌, List, Result, length, IfOk, IfErr, OnOk, OnErr};
    ghost use Rattle.tp_record.specs.Fields.{rank};
    ghost use Rattle.tp_record.specs.declared.entries.Entry.{Entry};
    ghost use Rattle.tp_glance.specs.Word.{IsFrontOf};
    ghost use Rattle.tp_pool_holds.specs.Answers.{is_removed};
    ghost use Rattle.tp_pool_holds.specs.Moments.{AtFront, BookOf};
    ghost use Rattle.tp_pool_holds.specs.Passes.{AddsNone, AddsStep, LooksOnly, Refuses};
    ghost use Rattle.tp_pool_holds.specs.Readings.{got, IsFound, IsUndoneAt};
    ghost use Rattle.tp_pool_holds.specs.Steps.{Removes, Stops};
    ghost use Rattle.tp_pool_holds.specs.declared.tasks.Payload.{Payload as TaskOf};
    ghost use Rattle.tp_pool.specs.Admissions.{Admits, AtPriority, IsAdmitted, IsTurnedAway};
    ghost use Rattle.tp_pool.specs.Submissions.{AddsJob, Submits};
    ghost use Rattle.tp_pool.specs.Timed.{IsFoundInTime, IsUndoneInTime};
    ghost use Rattle.tp_book.specs.PassView.{PassView};
    ghost use Rattle.tp_types.specs.declared.ids.TaskId.{TaskId as TaskIdOf};
    ghost use Rattle.tp_pool_holds.specs.Endings.{AddsAndEnds};
    ghost use Rattle.tp_life.specs.Futures.{IsAnswer, IsTaken};
    ghost use Rattle.tp_life.specs.declared.tasks.TheConstants.{VOID};

    /// What it runs.
    type Task: Task;

    /// The runtime by which its calls wait, and read the clock.
    type Host: Wait + Clock;

    /// The runtime, as for a lock of the caller's own.
    fn host(&self) -> &Self::Host;

    /// Submits a task of this kind: what became of it, and where its value is found. Refused as the calls below.
    fn enter(
        &mut self,
        kind: Kind,
        task: Self::Task,
    ) -> Result<(Admitted, Find<Self::Task>), Refused<Self::Task>>
        ensures admitted { IfOk result (λ r. AtPriority (Self.Task.urgency task) (λ p. IsAdmitted Self.terms kind p task VOID (Self.pass self.old) (Self.pass self.new) r.0)) }
        ensures refused { IfErr result (λ r. AtPriority (Self.Task.urgency task) (λ p. IsTurnedAway Self.keeps Self.terms kind p task VOID (Self.pass self.old) (Self.pass self.new) r)) };

    /// Waits for the next done task of this group and takes it, cancelled ones too, in the order of completion, as
    /// `CompletionService.take`. Its value is where its ticket's `get` finds it.
    ///
    /// NoMemory (4) for its receipt, else NothingOpen (19) where no task of the group is done and none is open, at which Java waits, or
    /// BookFull (5). A refused call takes nothing and makes no step.
    fn take(&mut self, group: u32) -> Result<TaskId, PoolError>
        ensures step { IfOk result (λ t. AddsStep Self.terms (Self.pass self.old) (Ask.TakeDone group) (Did.TakeDone group t) (Self.pass self.new)) }
        ensures refused { IfErr result (λ e. ((e ≡ PoolError.NoMemory) × ((Self.pass self.old).room < 1)) ⊎ AtFront Self.terms (Self.pass self.new).front (λ s. IsUndoneAt Self.terms s group e)) }
        ensures unchanged { OnErr result (AddsNone (Self.pass self.old) (Self.pass self.new)) };

    /// As `take`, but for at most so long by the clock, as `CompletionService.poll` with a timeout. TimedOut (16) where the time is over, or
    /// the clock can't be read, and none is done and one is open. Then the call made no step and no tick.
    fn take_for(&mut self, group: u32, most: Duration) -> Result<TaskId, PoolError>
        ensures step { IfOk result (λ t. AddsStep Self.terms (Self.pass self.old) (Ask.TakeDone group) (Did.TakeDone group t) (Self.pass self.new)) }
        ensures refused { IfErr result (λ e. ((e ≡ PoolError.NoMemory) × ((Self.pass self.old).room < 1)) ⊎ AtFront Self.terms (Self.pass self.new).front (λ s. IsUndoneInTime Self.terms s group e)) }
        ensures unchanged { OnErr result (AddsNone (Self.pass self.old) (Self.pass self.new)) };

    /// Waits until the future is not open any more, and takes its value, as `Future.get`. The call makes no step.
    ///
    /// UnknownTask (6), CancelledTask (13), Faulted (14) with the fault's code, or Lost (15) with the fate of a task that left without
    /// running. NotThere (8) where the value was taken before.
    fn get(
        &mut self,
        ticket: &Ticket<Self::Task>,
    ) -> Result<<Self::Task as Task>::Output, PoolError>
        ensures reads { BookOf (TaskOf Self.Task) Self.terms (Self.pass self.new) (λ b. IsAnswer Self.Task.gives (λ r. IsFound b ticket.now.task.0 Self.keeps None (got r)) result) }
        ensures looks { LooksOnly Self.terms (Self.pass self.old) (Self.pass self.new) }
        ensures knew { IsFrontOf (Self.pass self.old).released (Self.pass self.new).released };

    /// As `get`, but for at most so long by the clock. TimedOut (16) where the time is over, or the clock can't be read, and the future
    /// is open. The call makes no step and no tick.
    fn get_for(
        &mut self,
        ticket: &Ticket<Self::Task>,
        most: Duration,
    ) -> Result<<Self::Task as Task>::Output, PoolError>
        ensures reads { BookOf (TaskOf Self.Task) Self.terms (Self.pass self.new) (λ b. IsAnswer Self.Task.gives (λ r. IsFoundInTime b ticket.now.task.0 Self.keeps (got r)) result) }
        ensures looks { LooksOnly Self.terms (Self.pass self.old) (Self.pass self.new) }
        ensures knew { IsFrontOf (Self.pass self.old).released (Self.pass self.new).released };

    /// Takes a task out of the queue, as `ThreadPoolExecutor.remove`, and hands it back unless it was cancelled. A task that is not in
    /// the queue answers `Removal::No`. Where a pool that is shut down is left without a task and a worker, this call ends the pool.
    /// NoMemory (4) for its receipt, else UnknownTask (6) or BookFull (5).
    fn remove(&mut self, t: TaskId) -> Result<Removal<Held<Self::Task>>, PoolError>
        ensures job { IfOk result (λ r. Removes Self.Task Self.terms (Self.pass self.old).number (Self.pass self.old).front t r (Self.pass self.new).front) }
        ensures step { IfOk result (λ r. AddsStep Self.terms (Self.pass self.old) (Ask.Remove t) (Did.Remove t (is_removed r)) (Self.pass self.new)) }
        ensures refused { IfErr result (Refuses Self.keeps Self.terms ((Self.pass self.old).room < 1) (Self.pass self.new) (Ask.Remove t)) }
        ensures unchanged { OnErr result (AddsNone (Self.pass self.old) (Self.pass self.new)) };

    /// Stops the pool, as `shutdownNow`: the tasks in its queue are handed back in their order and never begin. NoMemory (4), else
    /// BookFull (5), which does not come before the pool is stopped.
    fn shutdown_now(&mut self) -> Result<Vec<Drained<Held<Self::Task>>>, PoolError>
        ensures handed { IfOk result (λ drained. (mid : List Entry) × Stops Self.Task Self.terms (Self.pass self.old).number (Self.pass self.old).front drained.items mid × IsFrontOf mid (Self.pass self.new).front) }
        ensures steps { IfOk result (λ drained. AddsAndEnds Self.terms (Self.pass self.old) Ask.Stop (Did.Stop (length drained.items)) (Self.pass self.new)) }
        ensures seen { OnOk result (2 ≤ rank (Self.pass self.new).front) }
        ensures refused { IfErr result (Refuses true Self.terms (((Self.pass self.old).room < 3) ⊎ AtFront Self.terms (Self.pass self.new).front (λ s. 0 < length s.queue)) (Self.pass self.new) Ask.Stop) }
        ensures unchanged { OnErr result (AddsNone (Self.pass self.old) (Self.pass self.new)) };

    /// Submits a task of this kind, and answers its ticket, also where its submitter ran it or the policy discarded it.
    final fn ticket(
        &mut self,
        kind: Kind,
        task: Self::Task,
    ) -> Result<Ticket<Self::Task>, Refused<Self::Task>>
        ensures submitted { IfOk result (λ k. AddsJob Self.terms kind task VOID (Self.Task.urgency task) k.task (Self.pass self.old) (Self.pass self.new)) }
        ensures refused { IfErr result (λ r. AtPriority (Self.Task.urgency task) (λ p. IsTurnedAway Self.keeps Self.terms kind p task VOID (Self.pass self.old) (Self.pass self.new) r)) }
    {
        match self.enter(kind, task) {
            Ok((admitted, value)) => Ok(Ticket {
                task: task_of(admitted),
                value,
            }),
            Err(refused) => Err(refused),
        }
    }

    /// Submits a plain task, as `ThreadPoolExecutor.execute`; its value is dropped. `Accepted`: the pool has the task. `RanHere` and
    /// `Discarded`: the pool could not take it, and the policy had it run or dropped.
    ///
    /// NoMemory (4) or BookFull (5) comes before the first step, with the task. Rejected (12) comes after the task's whole path, with
    /// the task where it was not cancelled. TornRecord (22) does not come as long as the pool's book is sound.
    final fn execute(&mut self, task: Self::Task) -> Result<Admitted, Refused<Self::Task>>
        ensures admitted { Admits Self.terms Kind.Plain (Self.Task.urgency task) task VOID (Self.pass self.old) (Self.pass self.new) result }
        ensures refused { IfErr result (λ r. AtPriority (Self.Task.urgency task) (λ p. IsTurnedAway Self.keeps Self.terms Kind.Plain p task VOID (Self.pass self.old) (Self.pass self.new) r)) }
    {
        match self.enter(Kind::Plain, task) {
            Ok((admitted, _)) => Ok(admitted),
            Err(refused) => Err(refused),
        }
    }

    /// Submits a task with a future, as `ExecutorService.submit`, and answers its ticket, also where its submitter ran it or the
    /// policy discarded it. Refused as `execute`.
    final fn submit(&mut self, task: Self::Task) -> Result<Ticket<Self::Task>, Refused<Self::Task>>
        ensures submitted { IfOk result (λ k. AddsJob Self.terms Kind.Future task VOID (Self.Task.urgency task) k.task (Self.pass self.old) (Self.pass self.new)) }
        ensures refused { IfErr result (λ r. AtPriority (Self.Task.urgency task) (λ p. IsTurnedAway Self.keeps Self.terms Kind.Future p task VOID (Self.pass self.old) (Self.pass self.new) r)) }
    {
        self.ticket(Kind::Future, task)
    }

    /// Submits a task with a future and waits for its value, as `submit(task).get()`. Refused as `submit`, but the task is dropped then, or
    /// as `get`.
    final fn run(&mut self, task: Self::Task) -> Result<<Self::Task as Task>::Output, PoolError>
        ensures { (submitted : Result TaskIdOf PoolError) × (mid : PassView) × Submits Self.keeps Self.terms task VOID (Self.Task.urgency task) submitted (Self.pass self.old) mid × IsTaken Self.keeps Self.terms Self.Task.gives submitted result mid (Self.pass self.new) }
    {
        match self.submit(task) {
            Ok(ticket) => self.get(&ticket),
            Err(refused) => Err(refused.error),
        }
    }

    /// Submits a task of this group, as `CompletionService.submit`, and answers its ticket. A number names a group. Refused as `execute`.
    final fn submit_to(
        &mut self,
        group: u32,
        task: Self::Task,
    ) -> Result<Ticket<Self::Task>, Refused<Self::Task>>
        ensures submitted { IfOk result (λ k. AddsJob Self.terms (Kind.Group group) task VOID (Self.Task.urgency task) k.task (Self.pass self.old) (Self.pass self.new)) }
        ensures refused { IfErr result (λ r. AtPriority (Self.Task.urgency task) (λ p. IsTurnedAway Self.keeps Self.terms (Kind.Group group) p task VOID (Self.pass self.old) (Self.pass self.new) r)) }
    {
        self.ticket(Kind::Group(group), task)
    }
}

/// What is done with a pool while it is open, by each of its callers.
// It does not say that what comes of it crosses to another thread: what opens the pool asks for that, as of a `Task`.
pub trait Life: Drop {
    ghost use Rattle.std.specs.Prelude.{ℕ};
    ghost use Rattle.tp_types.specs.declared.configs.Config.{Config};
    ghost use Rattle.tp_book.specs.PassView.{PassView};

    /// What comes of it, for each caller.
    type Out: Drop;

    /// What its pool runs.
    type Task: Task;

    /// What a life leaves, by the settings that judge its pool's steps, its caller's number, its caller's pass at first and at last,
    /// and what came of it. Nothing is said of it where a life has no `leaves` of its own.
    ghost leaves: { Self → Config → ℕ → PassView → PassView → Self.Out → Type 0 } = { λ _ _ _ _ _ _. Unit {0} };

    /// What the caller of this number does, from 0.
    fn live<P: Calls<Task = Self::Task>>(&self, pool: &mut P, who: u32) -> Self::Out
        ensures { leaves self.now P.terms who (P.pass pool.old) (P.pass pool.new) result };
}
