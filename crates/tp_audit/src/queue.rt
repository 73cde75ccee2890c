//! The work queue.

ghost use Rattle.std.specs.Prelude.{ℕ, ◌≡◌, [], Some, length, slice_get, Contains, IfOk, OnOk, OnErr};
ghost use Rattle.tp_types.specs.Queues.{is_ranked};
ghost use Rattle.tp_record.specs.Lists.{without, join_line};
ghost use Rattle.tp_audit.specs.Orders.{next_of};
ghost use Rattle.tp_audit.specs.Queued.{tasks_of, is_by_rank, AreRanked, Keeps};

use crate::ranks::Ranks;
use crate::turns::Turns;
use std::alloc::{AllocError, Global};
use tp_types::configs::QueueKind;

/// The tasks in the work queue, its head first.
#[derive(Drop)]
pub enum QueueTable {
    /// In the order of their offers.
    InTurn(Turns),
    /// The least rank first, and of equal ones the earlier offer.
    ByRank(Ranks),
}

impl QueueTable {
    /// An empty queue of this kind.
    pub fn new(alloc: Global, kind: QueueKind) -> Result<QueueTable, AllocError>
        ensures empty { IfOk result (λ q. tasks_of q ≡ []) }
        ensures kind { IfOk result (λ q. is_by_rank q ≡ is_ranked kind) }
        ensures ranks { IfOk result (λ q. (rank : ℕ → ℕ) → AreRanked rank q) }
    {
        if kind.is_ranked() {
            Ok(QueueTable::ByRank(Ranks::new(alloc)))
        } else {
            Ok(QueueTable::InTurn(Turns::new(alloc)?))
        }
    }

    /// How many tasks wait.
    pub fn len(&self) -> usize
        ensures { result ≡ length (tasks_of self.now) }
    {
        match self {
            QueueTable::InTurn(queue) => queue.len(),
            QueueTable::ByRank(queue) => queue.len(),
        }
    }

    /// The head.
    pub fn first(&self) -> Option<u32>
        ensures { result ≡ slice_get (tasks_of self.now) 0 }
    {
        match self {
            QueueTable::InTurn(queue) => queue.first(),
            QueueTable::ByRank(queue) => queue.first(),
        }
    }

    /// The task behind `t`, where both are there: a walk along the queue asks for one after the other.
    pub fn next_after(&self, t: u32) -> Option<u32>
        ensures { result ≡ next_of t (tasks_of self.now) }
    {
        match self {
            QueueTable::InTurn(queue) => queue.next_after(t),
            QueueTable::ByRank(queue) => queue.next_after(t),
        }
    }

    /// Puts a task behind all whose rank is not greater, where the queue goes by ranks, and else at the end. Where memory is
    /// refused nothing has changed; so it is after 2^64 - 1 of them. The rank is the priority in the task's row: a queue that
    /// looked into the rows at each comparison would have to know of rows.
    pub fn push(&mut self, t: u32, rank: u32) -> Result<(), AllocError>
        requires { Contains (tasks_of self.old) t → ⊥ }
        ensures ok { OnOk result ((ranks : ℕ → ℕ) → ranks t ≡ rank → AreRanked ranks self.old
            → (tasks_of self.new ≡ join_line (is_by_rank self.old) ranks (Some t) (tasks_of self.old)) × AreRanked ranks self.new) }
        ensures kind { is_by_rank self.new ≡ is_by_rank self.old }
        ensures err { OnErr result (self.new ≡ self.old) }
    {
        match self {
            QueueTable::InTurn(queue) => queue.push(t),
            QueueTable::ByRank(queue) => queue.push(t, rank),
        }
    }

    /// Takes a task out, if it is there. The others keep their order.
    pub fn remove(&mut self, t: u32)
        ensures tasks { tasks_of self.new ≡ without t (tasks_of self.old) }
        ensures kept { Keeps self.old self.new }
    {
        match self {
            QueueTable::InTurn(queue) => queue.remove(t),
            QueueTable::ByRank(queue) => queue.remove(t),
        }
    }
}
