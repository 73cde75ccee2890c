//! Results in the order in which their tasks are done.
ghost use Rattle.std.specs.Prelude.{◌≡◌, ◌⊎◌, [], ◌∷◌, ◌++◌, Some, length, IfErr, IfSome, IfNone, OnOk, OnErr};
ghost use Rattle.tp_pool.specs.Admissions.{AtPriority, IsTurnedAway};
ghost use Rattle.tp_pool.specs.Submissions.{AddsJob};
ghost use Rattle.tp_life.specs.declared.tasks.TheConstants.{VOID};
ghost use Rattle.tp_pool_holds.specs.Readings.{IsUndoneAt};
ghost use Rattle.tp_pool.specs.Timed.{IsUndoneInTime};
ghost use Rattle.tp_life.specs.Groups.{HadNone, IsNext, IsOut, IsResult, IsToldOf};
ghost use Rattle.std.specs.Iterator.{at_most};

use crate::calls::{Calls, Ticket};
use crate::running::Told;
use crate::tasks::Task;
use std::alloc::Global;
use std::time::Duration;
use tp_pool_holds::answers::Refused;
use tp_types::ids::TaskId;
use tp_types::refusals::PoolError;
use tp_types::tasks::Kind;

/// Tasks of a group with their tickets, as an `ExecutorCompletionService`. Two of one number share their done tasks: so each group of a
/// pool has a number of its own.
#[derive(Drop)]
pub struct Group<W: Task> {
    /// Its number.
    pub number: u32,
    /// The tickets of its tasks that have not been told of yet.
    pub tickets: Vec<Ticket<W>>,
}

impl<W: Task> Group<W> {
    /// The group of this number, without a task.
    pub fn new(alloc: Global, number: u32) -> Group<W>
        ensures { (result.number ≡ number) × (result.tickets.items ≡ []) }
    {
        Group {
            number,
            tickets: Vec::new(alloc),
        }
    }

    /// How many of its tasks have not been told of yet.
    pub fn len(&self) -> usize
        ensures { result ≡ length self.now.tickets.items }
    {
        self.tickets.len()
    }

    /// Submits a task of the group, as `CompletionService.submit`. Refused as `Calls::submit_to`, with NoMemory (4) also where there is
    /// none for its ticket.
    pub fn submit<P: Calls<Task = W>>(&mut self, pool: &mut P, task: W) -> Result<(), Refused<W>>
        ensures submitted { OnOk result ((k : _) × (self.new.tickets.items ≡ self.old.tickets.items ++ k ∷ []) × AddsJob P.terms (Kind.Group self.old.number) task VOID (W.urgency task) k.task (P.pass pool.old) (P.pass pool.new)) }
        ensures refused { IfErr result (λ r. ((r ≡ record { error = PoolError.NoMemory; job = Some task }) × (P.pass pool.new ≡ P.pass pool.old))
            ⊎ AtPriority (W.urgency task) (λ p. IsTurnedAway P.keeps P.terms (Kind.Group self.old.number) p task VOID (P.pass pool.old) (P.pass pool.new) r)) }
        ensures kept { OnErr result (self.new.tickets.items ≡ self.old.tickets.items) }
        ensures number { self.new.number ≡ self.old.number }
    {
        if self.tickets.reserve(1).is_err() {
            return Err(Refused {
                error: PoolError::NoMemory,
                job: Some(task),
            });
        }
        match pool.submit_to(self.number, task) {
            Ok(ticket) => {
                self.tickets.push_reserved(ticket);
                Ok(())
            }
            Err(refused) => Err(refused),
        }
    }

    /// Waits for the next task of the group that is done, and tells what became of it, in the order of completion. None where none is
    /// open. With NoMemory (4) for a receipt, or BookFull (5), it has taken nothing.
    pub fn next<P: Calls<Task = W>>(&mut self, pool: &mut P) -> Option<Told<W::Output>>
        ensures told { IsNext self.old.tickets.items self.new.tickets.items (λ k. k.task) W.gives P.keeps P.terms self.old.number (λ s e. IsUndoneAt P.terms s self.old.number e) result (P.pass pool.old) (P.pass pool.new) }
        ensures number { self.new.number ≡ self.old.number }
    {
        match pool.take(self.number) {
            Ok(t) => Some(self.told_of(pool, t)),
            Err(PoolError::NothingOpen) => None,
            Err(error) => Some(Err(error)),
        }
    }

    /// As `next`, but for at most so long by the clock, as `CompletionService.poll` with a timeout. TimedOut (16) where the time is over,
    /// or the clock can't be read, and none is done. Then nothing was taken, and the call made no step and no tick.
    pub fn next_for<P: Calls<Task = W>>(
        &mut self,
        pool: &mut P,
        most: Duration,
    ) -> Option<Told<W::Output>>
        ensures told { IsNext self.old.tickets.items self.new.tickets.items (λ k. k.task) W.gives P.keeps P.terms self.old.number (λ s e. IsUndoneInTime P.terms s self.old.number e) result (P.pass pool.old) (P.pass pool.new) }
        ensures number { self.new.number ≡ self.old.number }
    {
        match pool.take_for(self.number, most) {
            Ok(t) => Some(self.told_of(pool, t)),
            Err(PoolError::NothingOpen) => None,
            Err(error) => Some(Err(error)),
        }
    }

    /// What becomes of its tasks, in the order of completion, until none is open: as `next`, at most as often as `len` says now.
    pub fn results<'a, P: Calls<Task = W>>(&'a mut self, pool: &'a mut P) -> Results<'a, P, W>
        ensures { result.left ≡ length self.old.tickets.items }
    {
        Results {
            left: self.tickets.len(),
            group: self,
            pool,
        }
    }

    // What is told of a task that was taken.
    fn told_of<P: Calls<Task = W>>(&mut self, pool: &mut P, t: TaskId) -> Told<W::Output>
        ensures told { IsToldOf self.old.tickets.items self.new.tickets.items (λ k. k.task) W.gives P.keeps P.terms self.old.number t result (P.pass pool.old) (P.pass pool.new) }
        ensures number { self.new.number ≡ self.old.number }
    {
        match self.ticket_of(t) {
            Some(ticket) => pool.get(&ticket),
            None => Err(PoolError::NotThere),
        }
    }

    // Hands out the ticket of this task.
    fn ticket_of(&mut self, t: TaskId) -> Option<Ticket<W>>
        ensures out { IfSome result (IsOut self.old.tickets.items self.new.tickets.items (λ k. k.task) t) }
        ensures none { IfNone result (HadNone self.old.tickets.items self.new.tickets.items (λ k. k.task) t) }
        ensures number { self.new.number ≡ self.old.number }
    {
        let at = self.tickets.iter().position(|ticket| ticket.task == t)?;
        Some(self.tickets.swap_remove(at))
    }
}

/// The results of a group, in the order of completion.
#[derive(Drop)]
pub struct Results<'a, P: Calls<Task = W>, W: Task> {
    group: &'a mut Group<W>,
    pool: &'a mut P,
    left: usize,
}

impl<'a, W: Task, P: Calls<Task = W>> Iterator for Results<'a, P, W> {
    type Item = Told<W::Output>;

    ghost remaining = { λ s. at_most s.left };

    ghost next_gives = { λ s told t. IsResult s.group.now.tickets.items t.group.now.tickets.items (λ k. k.task) W.gives P.keeps P.terms s.group.now.number (λ x e. IsUndoneAt P.terms x s.group.now.number e) s.left told (P.pass s.pool.now) (P.pass t.pool.now) };

    fn next(&mut self) -> Option<Told<W::Output>> {
        if self.left == 0 {
            return None;
        }
        self.left -= 1;
        self.group.next(self.pool)
    }
}
