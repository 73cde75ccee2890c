//! The tasks of a pool, by number.

ghost use Rattle.std.specs.Prelude.{ℕ, ◌≡◌, ◌↔◌, ◌+◌, ◌-◌, ◌<◌, ◌^◌, ◌&&◌, ◌++◌, ◌∷◌, [], true, false, not, drop, List, length, slice_get, option_map, nat_eq, is_none, option_copied, IsTrue, IsSome, IfSome, IfNone, IsOkUnless, IfOk, OnOk, Some, None, if◌then◌else◌};
ghost use Rattle.tp_types.specs.declared.tasks.Fate.{Fate};
ghost use Rattle.tp_record.specs.declared.rows.TaskRow.{TaskRow};
ghost use Rattle.tp_record.specs.State.{fate_of, is_fate, no_row};
ghost use Rattle.tp_record.specs.Step.{is_of_group};
ghost use Rattle.tp_tasks.specs.Homes.{is_purgeable, passes};
ghost use Rattle.tp_tasks.specs.Kept.{AreSubmitted, AreCounted, AreGrouped, AreListed};

use crate::fates::Fates;
use crate::group::Group;
use crate::homes::Rows;
use crate::spaces::Space;
use crate::table::KeptTask;
use crate::{groups, table};
use indexmap::IndexMap;
use std::alloc::{AllocError, Global};
use tp_record::rows::TaskRow;
use tp_types::ids::TaskId;
use tp_types::refusals::PoolError;
use tp_types::tasks::{Fate, Kind, Outcome, Place, Promise};

/// The tasks of a pool: of each its row, its promise, its payload and its place number; of each group the completed tasks
/// that are not handed out; of each fate how many tasks came to it. Only `reserve` takes memory. Each task is marked where it is
/// one of those completed tasks, so that `release` looks through no list.
#[derive(Drop)]
pub struct Tasks<P> {
    alloc: Global,
    fates: Fates,
    submitted: u32,
    tasks: Rows<P>,
    groups: IndexMap<u32, Group>,
    ghost small: { submitted < 2 ^ 32 },
    ghost below: { AreSubmitted submitted tasks },
    ghost counted: { AreCounted fates tasks submitted },
    ghost grouped: { AreGrouped groups tasks },
    ghost listed: { AreListed groups tasks },
}

impl<P> Tasks<P> {
    ghost use Rattle.tp_tasks.specs.Tasks.{task_of, row_of, promise_of, number_of, payload_of, done_of, fated_of, submissions, kept_of, purgeable_of, HasNone, IsReady, IsOpenIn, IsListed, AreReleased, KeepsOthers, KeepsDone, KeepsFates, SetsRow, IsUnchanged};

    /// No tasks. It takes no memory.
    pub fn new(alloc: Global) -> Tasks<P>
        ensures { HasNone result }
    {
        Tasks {
            alloc,
            tasks: table::none(alloc),
            groups: IndexMap::new(alloc),
            fates: Fates::none(),
            submitted: 0,
        }
    }

    /// No tasks, and memory for this many, which is written here: so no page is touched first where a task comes. More tasks
    /// have the table grow. AllocError where there is no memory for them.
    pub fn with_room(alloc: Global, places: u32) -> Result<Tasks<P>, AllocError>
    where
        P: Drop,
        ensures { IfOk result HasNone }
    {
        Ok(Tasks {
            alloc,
            tasks: table::written(alloc, places)?,
            groups: IndexMap::new(alloc),
            fates: Fates::none(),
            submitted: 0,
        })
    }

    /// Makes memory for one more task of this kind: its own place, and one among the completed tasks of its group. Want of
    /// memory is NoMemory (4): it comes before the step, so all refusals of a submission stand before its first change.
    #[inline(always)]
    pub fn reserve(&mut self, kind: Kind) -> Result<(), PoolError>
        ensures ready { OnOk result (IsReady self.new kind) }
        ensures unchanged { IsUnchanged self.old self.new }
        ensures refused { IsOkUnless result PoolError.NoMemory }
    {
        if let Kind::Group(g) = kind {
            if groups::make_place(self.alloc, &mut self.groups, g).is_err() {
                return Err(PoolError::NoMemory);
            }
        }
        if table::make_place(&mut self.tasks, self.submitted).is_err() {
            return Err(PoolError::NoMemory);
        }
        Ok(())
    }

    /// For how many homes of tasks a `Space` is to be made before the next task comes, 0 for none. Nothing is promised of that:
    /// where none is made, `reserve` takes the memory.
    #[inline(always)]
    pub fn wants_space(&self) -> usize {
        table::wants_space(&self.tasks, self.submitted)
    }

    /// Has the tasks lie in this memory, if there is room for twice as many homes in it. What they lay in comes back in its
    /// place.
    pub fn take_space(&mut self, space: &mut Space<P>)
        ensures { IsUnchanged self.old self.new }
    {
        table::take_space(&mut self.tasks, space);
    }

    /// How many tasks were submitted: the number of the next one.
    #[inline(always)]
    pub fn submitted(&self) -> u32
        ensures { result ≡ submissions self.now }
    {
        self.submitted
    }

    /// Puts a new task of this kind and priority, in this place, with what its job promises and its payload, and gives its
    /// number. There is memory for it.
    #[inline(always)]
    pub fn put(
        &mut self,
        kind: Kind,
        priority: u32,
        place: Place,
        promise: Promise,
        payload: P,
    ) -> TaskId
    where
        P: Drop,
        requires ready { IsReady self.old kind }
        requires few { submissions self.old < 2 ^ 32 - 1 }
        ensures number { result.0 ≡ submissions self.old }
        ensures submitted { submissions self.new ≡ submissions self.old + 1 }
        ensures row { row_of self.new result.0 ≡ Some (record no_row { kind = kind; priority = priority; place = place }) }
        ensures promise { promise_of self.new result.0 ≡ Some promise }
        ensures unqueued { number_of self.new result.0 ≡ None }
        ensures payload { payload_of self.new result.0 ≡ Some payload }
        ensures others { KeepsOthers self.old self.new result.0 }
        ensures done { KeepsDone self.old self.new }
        ensures fates { KeepsFates self.old self.new }
    {
        let t = self.submitted;
        let task = KeptTask {
            row: TaskRow::new(kind, priority, place),
            promise,
            number: None,
            payload: Some(payload),
            listed: false,
        };
        table::put(&mut self.tasks, t, task);
        groups::enter(&mut self.groups, kind);
        self.submitted += 1;
        TaskId(t)
    }

    /// The row of a task, None where it is not kept.
    #[inline(always)]
    pub fn row(&self, t: TaskId) -> Option<TaskRow>
        ensures { result ≡ row_of self.now t.0 }
    {
        table::row(&self.tasks, t.0)
    }

    /// What a task's job promises, None where the task is not kept.
    #[inline(always)]
    pub fn promise(&self, t: TaskId) -> Option<Promise>
        ensures { result ≡ promise_of self.now t.0 }
    {
        table::promise(&self.tasks, t.0)
    }

    /// The number of a task's last place in the work queue, None where it was never queued or is not kept.
    #[inline(always)]
    pub fn place_number(&self, t: TaskId) -> Option<u64>
        ensures { result ≡ number_of self.now t.0 }
    {
        table::number(&self.tasks, t.0)
    }

    /// Notes the number of the place in the work queue that the task came to.
    #[inline(always)]
    pub fn set_place_number(&mut self, t: TaskId, number: u64)
        requires { IsSome (row_of self.old t.0) }
        ensures row { row_of self.new t.0 ≡ row_of self.old t.0 }
        ensures promise { promise_of self.new t.0 ≡ promise_of self.old t.0 }
        ensures number { number_of self.new t.0 ≡ Some number }
        ensures payload { payload_of self.new t.0 ≡ payload_of self.old t.0 }
        ensures others { KeepsOthers self.old self.new t.0 }
        ensures done { KeepsDone self.old self.new }
        ensures fates { KeepsFates self.old self.new }
        ensures submitted { submissions self.new ≡ submissions self.old }
    {
        table::set_number(&mut self.tasks, t.0, number);
    }

    /// A task's payload, None where it was taken or the task is not kept.
    pub fn payload(&self, t: TaskId) -> Option<&P>
        ensures { option_copied result ≡ payload_of self.now t.0 }
    {
        table::payload(&self.tasks, t.0)
    }

    /// Takes a task's payload out, None where it was taken before or the task is not kept.
    #[inline(always)]
    pub fn take_payload(&mut self, t: TaskId) -> Option<P>
        ensures out { result ≡ payload_of self.old t.0 }
        ensures gone { payload_of self.new t.0 ≡ None }
        ensures row { row_of self.new t.0 ≡ row_of self.old t.0 }
        ensures promise { promise_of self.new t.0 ≡ promise_of self.old t.0 }
        ensures number { number_of self.new t.0 ≡ number_of self.old t.0 }
        ensures others { KeepsOthers self.old self.new t.0 }
        ensures done { KeepsDone self.old self.new }
        ensures fates { KeepsFates self.old self.new }
        ensures submitted { submissions self.new ≡ submissions self.old }
    {
        table::take_payload(&mut self.tasks, t.0)
    }

    /// Changes a task's row without a change of its kind or its fate, as where the task moves.
    pub fn set_row(&mut self, t: TaskId, from: TaskRow, to: TaskRow)
        requires now { row_of self.old t.0 ≡ Some from }
        requires kind { to.kind ≡ from.kind }
        requires fate { fate_of to ≡ fate_of from }
        ensures set { SetsRow self.old self.new t.0 to }
        ensures done { KeepsDone self.old self.new }
        ensures fates { KeepsFates self.old self.new }
    {
        table::set_row(&mut self.tasks, t.0, to);
    }

    /// The task is in another place from now on.
    #[inline(always)]
    pub fn set_place(&mut self, t: TaskId, place: Place)
        requires { IsSome (row_of self.old t.0) }
        ensures set { (r : TaskRow) → row_of self.old t.0 ≡ Some r → SetsRow self.old self.new t.0 (record r { place = place }) }
        ensures done { KeepsDone self.old self.new }
        ensures fates { KeepsFates self.old self.new }
    {
        table::set_place(&mut self.tasks, t.0, place);
    }

    /// The task is in another place from now on, and its submitter owes it a second look.
    #[inline(always)]
    pub fn hand(&mut self, t: TaskId, place: Place)
        requires { IsSome (row_of self.old t.0) }
        ensures set { (r : TaskRow) → row_of self.old t.0 ≡ Some r → SetsRow self.old self.new t.0 (record r { place = place; second = true }) }
        ensures done { KeepsDone self.old self.new }
        ensures fates { KeepsFates self.old self.new }
    {
        table::hand(&mut self.tasks, t.0, place);
    }

    /// The task is not owed its second look any more, and is where it was.
    #[inline(always)]
    pub fn clear_second(&mut self, t: TaskId)
        requires { IsSome (row_of self.old t.0) }
        ensures set { (r : TaskRow) → row_of self.old t.0 ≡ Some r → SetsRow self.old self.new t.0 (record r { second = false }) }
        ensures done { KeepsDone self.old self.new }
        ensures fates { KeepsFates self.old self.new }
    {
        table::clear_second(&mut self.tasks, t.0);
    }

    /// Gives an open task its fate, with the row that it has then; `completed` says that this completes it, where it is of a
    /// group.
    fn end(&mut self, t: TaskId, from: TaskRow, to: TaskRow, fate: Fate, completed: bool)
        requires now { row_of self.old t.0 ≡ Some from }
        requires kind { to.kind ≡ from.kind }
        requires was_open { fate_of from ≡ None }
        requires fate { fate_of to ≡ Some fate }
        ensures set { SetsRow self.old self.new t.0 to }
        ensures done { (g : ℕ) → done_of self.new g ≡ done_of self.old g ++ (if is_of_group g from.kind && completed then t.0 ∷ [] else []) }
        ensures fates { (f : Fate) → fated_of self.new f ≡ fated_of self.old f + (if is_fate f (Some fate) then 1 else 0) }
    {
        groups::close(&mut self.groups, from.kind, t.0, completed);
        self.fates.raise(fate);
        table::finish(&mut self.tasks, t.0, to, completed);
    }

    /// An open task has run to its end, with this fate and outcome: it is gone, and completed where it is of a group.
    #[inline(always)]
    fn end_run(&mut self, t: TaskId, from: TaskRow, fate: Fate, outcome: Outcome)
        requires now { row_of self.old t.0 ≡ Some from }
        requires was_open { fate_of from ≡ None }
        ensures set { SetsRow self.old self.new t.0 (record from { place = Place.Gone; ending = Some fate; outcome = Some outcome }) }
        ensures done { (g : ℕ) → done_of self.new g ≡ done_of self.old g ++ (if is_of_group g from.kind then t.0 ∷ [] else []) }
        ensures fates { (f : Fate) → fated_of self.new f ≡ fated_of self.old f + (if is_fate f (Some fate) then 1 else 0) }
    {
        groups::close(&mut self.groups, from.kind, t.0, true);
        self.fates.raise(fate);
        table::conclude(&mut self.tasks, t.0, fate, outcome);
    }

    /// The task is gone without having run, with this fate, unless it was cancelled. A cancelled task keeps the fate
    /// cancelled: its row notes the ending, and no counter and no group changes.
    pub fn finish(&mut self, t: TaskId, row: TaskRow, fate: Fate)
        requires now { row_of self.old t.0 ≡ Some row }
        requires unended { row.ending ≡ None }
        ensures set { SetsRow self.old self.new t.0 (record row { place = Place.Gone; ending = Some fate }) }
        ensures done { KeepsDone self.old self.new }
        ensures fates { (f : Fate) → fated_of self.new f ≡ fated_of self.old f + (if not row.cancelled && is_fate f (Some fate) then 1 else 0) }
    {
        let to = TaskRow {
            place: Place::Gone,
            ending: Some(fate),
            ..row
        };
        if row.cancelled {
            self.set_row(t, row, to);
        } else {
            self.end(t, row, to, fate, false);
        }
    }

    /// The task has run to its end, with this fate and outcome: it is gone, and completed where it is of a group, unless it
    /// was cancelled.
    #[inline(always)]
    pub fn complete(&mut self, t: TaskId, row: TaskRow, fate: Fate, outcome: Outcome)
        requires now { row_of self.old t.0 ≡ Some row }
        requires unended { row.ending ≡ None }
        ensures set { SetsRow self.old self.new t.0 (record row { place = Place.Gone; ending = Some fate; outcome = Some outcome }) }
        ensures done { (g : ℕ) → done_of self.new g ≡ done_of self.old g ++ (if is_of_group g row.kind && not row.cancelled then t.0 ∷ [] else []) }
        ensures fates { (f : Fate) → fated_of self.new f ≡ fated_of self.old f + (if not row.cancelled && is_fate f (Some fate) then 1 else 0) }
    {
        if row.cancelled {
            let to = TaskRow {
                place: Place::Gone,
                ending: Some(fate),
                outcome: Some(outcome),
                ..row
            };
            self.set_row(t, row, to);
        } else {
            self.end_run(t, row, fate, outcome);
        }
    }

    /// Cancels an open task, which completes it where it is of a group. It stays where it is.
    pub fn cancel(&mut self, t: TaskId, row: TaskRow)
        requires now { row_of self.old t.0 ≡ Some row }
        requires was_open { fate_of row ≡ None }
        ensures set { SetsRow self.old self.new t.0 (record row { cancelled = true }) }
        ensures done { (g : ℕ) → done_of self.new g ≡ done_of self.old g ++ (if is_of_group g row.kind then t.0 ∷ [] else []) }
        ensures fates { (f : Fate) → fated_of self.new f ≡ fated_of self.old f + (if is_fate f (Some Fate.Cancelled) then 1 else 0) }
    {
        let to = TaskRow {
            cancelled: true,
            ..row
        };
        self.end(t, row, to, Fate::Cancelled, true);
    }

    /// Forgets a task that has a fate, unless it is a completed task of a group that is not handed out. It takes no memory.
    #[inline(always)]
    pub fn release(&mut self, t: TaskId)
    where
        P: Drop,
        requires ended { (r : TaskRow) × (row_of self.old t.0 ≡ Some r) × (is_none (fate_of r) ≡ false) }
        requires handed_out { ¬ IsListed self.old t.0 }
        ensures gone { task_of self.new t.0 ≡ None }
        ensures others { KeepsOthers self.old self.new t.0 }
        ensures done { KeepsDone self.old self.new }
        ensures fates { KeepsFates self.old self.new }
        ensures submitted { submissions self.new ≡ submissions self.old }
    {
        table::remove(&mut self.tasks, t.0);
    }

    /// How many tasks are kept: those that were submitted and not released.
    #[inline(always)]
    pub fn kept(&self) -> u32
        ensures count { result ≡ kept_of self.now }
        ensures released { (rs : List ℕ) → AreReleased self.now rs → result + length rs ≡ submissions self.now }
    {
        table::len(&self.tasks)
    }

    /// How many of them are cancelled and in the queue: a purge takes these. It looks at no task.
    pub fn purgeable(&self) -> u32
        ensures { result ≡ purgeable_of self.now }
    {
        table::purgeable(&self.tasks)
    }

    /// One of these, None where there is none. Each task is looked at once after it was cancelled in the queue: the last ones that
    /// have left it since go off the list here.
    pub fn next_purgeable(&mut self) -> Option<TaskId>
        ensures unchanged { IsUnchanged self.old self.new }
        ensures taken { IfSome result (λ t. passes is_purgeable (row_of self.new t.0) ≡ true) }
        ensures none { IfNone result (purgeable_of self.new ≡ 0) }
    {
        match table::next_purgeable(&mut self.tasks) {
            Some(t) => Some(TaskId(t)),
            None => None,
        }
    }

    /// How many tasks came to this fate.
    #[inline(always)]
    pub fn fated(&self, fate: Fate) -> u32
        ensures { result ≡ fated_of self.now fate }
    {
        self.fates.count(fate)
    }

    /// Hands out the task of the group that was completed first, None where none is left, as
    /// `ExecutorCompletionService.poll`.
    pub fn take_done(&mut self, g: u32) -> Option<TaskId>
        ensures first { option_map (λ t. t.0) result ≡ slice_get (done_of self.old g) 0 }
        ensures done { done_of self.new g ≡ drop 1 (done_of self.old g) }
        ensures other_groups { (h : ℕ) → nat_eq g h ≡ false → done_of self.new h ≡ done_of self.old h }
        ensures rows { (t : ℕ) → row_of self.new t ≡ row_of self.old t }
        ensures promises { (t : ℕ) → promise_of self.new t ≡ promise_of self.old t }
        ensures numbers { (t : ℕ) → number_of self.new t ≡ number_of self.old t }
        ensures payloads { (t : ℕ) → payload_of self.new t ≡ payload_of self.old t }
        ensures fates { KeepsFates self.old self.new }
        ensures submitted { submissions self.new ≡ submissions self.old }
    {
        match groups::take_done(&mut self.groups, g) {
            Some(t) => {
                table::unmark(&mut self.tasks, t);
                Some(TaskId(t))
            }
            None => None,
        }
    }

    /// The task of the group that `take_done` would hand out, None where none is left.
    pub fn first_done(&self, g: u32) -> Option<TaskId>
        ensures { option_map (λ t. t.0) result ≡ slice_get (done_of self.now g) 0 }
    {
        groups::first_done(&self.groups, g).map(TaskId)
    }

    /// Whether a completed task of the group is not handed out.
    pub fn has_done(&self, g: u32) -> bool
        ensures { IsTrue result ↔ (0 < length (done_of self.now g)) }
    {
        groups::has_done(&self.groups, g)
    }

    /// Whether this is a completed task of a group that is not handed out. It looks at the task alone.
    pub fn is_listed(&self, t: TaskId) -> bool
        ensures { IsTrue result ↔ IsListed self.now t.0 }
    {
        table::is_listed(&self.tasks, t.0)
    }

    /// Whether a task of the group has no fate yet.
    pub fn is_open(&self, g: u32) -> bool
        ensures { IsTrue result ↔ ((t : ℕ) × (r : TaskRow) × IsOpenIn self.now g t r) }
    {
        groups::is_pending(&self.groups, g)
    }
}
