//! Since when tasks and slots are where they are.

ghost use Rattle.std.specs.Prelude.{ℕ, ◌≡◌, ◌↔◌, ◌<◌, ◌≤◌, ◌+◌, ◌^◌, ◌∷◌, [], List, Option, None, Some, is_some, nat_eq, Contains, IfOk, IsSome, OnOk, IsPermutation, IsSorted, vec_len, vec_capacity};
ghost use Rattle.std.specs.Ordering.{nat_cmp};
ghost use Rattle.indexmap.specs.IndexMap.{get, keys, spare};
ghost use Rattle.tp_types.specs.declared.configs.Config.{Config};
ghost use Rattle.tp_record.specs.declared.entries.Entry.{Entry as Told};
ghost use Rattle.tp_record.specs.State.{state, slot_at};
ghost use Rattle.tp_record.specs.Step.{Legal};
ghost use Rattle.tp_audit.specs.Tables.{StandsAt};
ghost use Rattle.tp_story.specs.Since as times;

use indexmap::IndexMap;
use std::alloc::{AllocError, Global};
use tp_audit::named::{dropped_task, named_slot, named_task, replacing_slot};
use tp_audit::tables::Tables;
use tp_record::entries::{Did, Entry, Seconded, Took};
use tp_types::ids::{SlotId, TaskId};

/// An entry, and the moment at which it was made.
#[derive(Clone, Copy, Debug, PartialEq, Eq)]
pub struct Since {
    /// The entry's number, from 1.
    pub number: u64,
    /// The moment in ticks.
    pub moment: u64,
}

/// What is kept of a task.
#[derive(Clone, Copy, Debug, PartialEq, Eq)]
pub struct TaskTime {
    /// The pass that submitted it.
    pub by: u32,
    /// When it came to where it is.
    pub since: Since,
}

/// What is kept of a slot.
#[derive(Clone, Copy, Debug, PartialEq, Eq)]
pub struct SlotTime {
    /// The last entry that names it.
    pub since: Since,
    /// Whether that entry left its worker idle.
    pub is_idle: bool,
}

/// Since when each task and each slot of a record is where it is, and which pass submitted each task. The memory goes by the
/// numbers of tasks and slots.
#[derive(Drop)]
pub struct Times {
    /// The tasks by number.
    pub tasks: Vec<TaskTime>,
    /// The slots by number.
    pub slots: IndexMap<usize, SlotTime>,
    /// The first entry that woke all idle workers. No worker is idle after it, so one entry is kept for all of them, and no slot
    /// is touched.
    pub woken: Option<Since>,
}

/// The latest entry, by the tables after it.
pub fn latest_of(after: &Tables) -> Since
    ensures number { result.number ≡ after.now.steps }
    ensures moment { result.moment ≡ after.now.moment }
    ensures few { result.number < 2 ^ 32 }
{
    Since {
        number: u64::from(after.steps),
        moment: after.moment,
    }
}

/// The task that an entry moves by its name. A `stop` and a `purge` end tasks that they do not name: these are gone then, and
/// nobody asks since when.
fn moved_task(did: Did) -> Option<u32>
    ensures { result ≡ times.moved did }
{
    match did {
        Did::Cancel(..)
        | Did::Second(_, Seconded::Stay)
        | Did::Second(_, Seconded::StayReserve(_)) => None,
        _ => named_task(did),
    }
}

/// Adds the task that an entry submits, for which there is room.
fn add_task(tasks: &mut Vec<TaskTime>, entry: &Entry, since: Since)
    requires { vec_len tasks.old < vec_capacity tasks.old }
    ensures { tasks.new.items ≡ times.submitted_at entry.now.did entry.now.by since tasks.old.items }
{
    if let Did::Submit(..) = entry.did {
        tasks.push_reserved(TaskTime {
            by: entry.by,
            since,
        });
    }
}

/// Notes when a task came to where it is.
fn move_task(tasks: &mut Vec<TaskTime>, task: Option<u32>, since: Since)
    ensures { tasks.new.items ≡ times.moved_at since task tasks.old.items }
{
    let Some(t) = task else {
        return;
    };
    let at = t as usize;
    if at < tasks.len() {
        let by = tasks[at].by;
        tasks[at] = TaskTime { by, since };
    }
}

/// Notes when a slot came to where it is, for which there is room; one that is none any more is forgotten.
fn turn_slot(
    slots: &mut IndexMap<usize, SlotTime>,
    slot: Option<usize>,
    time: SlotTime,
    after: &Tables,
)
    requires { 0 < spare slots.old }
    ensures turned { (w : ℕ) → get nat_eq slots.new w ≡ times.turned_at after.now.slots slot time w (get nat_eq slots.old w) }
    ensures spare { spare slots.old ≤ spare slots.new + 1 }
{
    let Some(w) = slot else {
        return;
    };
    if after.slots.get(SlotId(w)).is_some() {
        let _was = slots.insert(w, time);
    } else {
        slots.swap_remove(&w);
    }
}

/// The first entry that woke all idle workers, after one more.
fn first_wake(woken: Option<Since>, did: Did, since: Since) -> Option<Since>
    ensures { result ≡ times.wake_after woken did since }
{
    match did {
        Did::Shutdown | Did::Stop(_) if woken.is_none() => Some(since),
        _ => woken,
    }
}

/// When an entry turns a slot.
fn turning(did: Did, since: Since) -> SlotTime
    ensures { result ≡ times.turning did since }
{
    let is_idle = matches!(did, Did::Take(_, Took::Idle));
    SlotTime { since, is_idle }
}

impl Times {
    /// Before the first entry.
    pub fn new(alloc: Global) -> Times
        ensures { times.Timed [] result }
    {
        Times {
            tasks: Vec::new(alloc),
            slots: IndexMap::new(alloc),
            woken: None,
        }
    }

    /// Makes room for what one more entry makes. After want of memory nothing has changed.
    pub fn reserve(&mut self) -> Result<(), AllocError>
        ensures room { OnOk result (times.HasRoom self.new) }
        ensures same { (h : List Told) → times.Timed h self.old → times.Timed h self.new }
    {
        self.tasks.reserve(1)?;
        self.slots.reserve(2)
    }

    /// Notes the latest entry, after which the pool is as the tables say, and for which `reserve` made room.
    pub fn note(&mut self, entry: &Entry, after: &Tables)
        requires { times.HasRoom self.old }
        ensures noted { (c : Config) → (h : List Told) → StandsAt c (entry.now ∷ h) after.now → times.Timed h self.old → times.Timed (entry.now ∷ h) self.new }
    {
        let did = entry.did;
        let since = latest_of(after);
        add_task(&mut self.tasks, entry, since);
        move_task(&mut self.tasks, moved_task(did), since);
        move_task(&mut self.tasks, dropped_task(did), since);
        let time = turning(did, since);
        turn_slot(&mut self.slots, named_slot(did), time, after);
        turn_slot(&mut self.slots, replacing_slot(did), time, after);
        self.woken = first_wake(self.woken, did, since);
    }

    /// When a task came to where it is: the last entry that moved it; None where none of this number was submitted.
    pub fn task(&self, task: TaskId) -> Option<Since>
        ensures { (h : List Told) → times.Timed h self.now → result ≡ times.task_since h task.0 }
    {
        match self.tasks.get(task.0 as usize) {
            Some(time) => Some(time.since),
            None => None,
        }
    }

    /// The pass that submitted a task.
    pub fn submitter(&self, task: TaskId) -> Option<u32>
        ensures { (h : List Told) → times.Timed h self.now → result ≡ times.submitter h task.0 }
    {
        match self.tasks.get(task.0 as usize) {
            Some(time) => Some(time.by),
            None => None,
        }
    }

    /// When a slot's worker came to where it is; None where there is no slot of this number.
    pub fn slot(&self, slot: SlotId) -> Option<Since>
        ensures since { (h : List Told) → times.Timed h self.now → result ≡ times.slot_since h slot.0 }
        ensures known { (c : Config) (h : List Told) → Legal c h → times.Timed h self.now → is_some result ≡ is_some (slot_at (state c h).slots slot.0) }
    {
        let Some(time) = self.slots.get(&slot.0) else {
            return None;
        };
        match self.woken {
            Some(woken) if time.is_idle => Some(woken),
            _ => Some(time.since),
        }
    }

    /// The numbers of the slots, the least first.
    pub fn slots(&self, alloc: Global) -> Result<Vec<usize>, AllocError>
        ensures numbers { IfOk result (λ v. IsPermutation (keys self.now.slots) v.items) }
        ensures order { IfOk result (λ v. IsSorted nat_cmp v.items) }
        ensures slots { IfOk result (λ v. (c : Config) (h : List Told) → Legal c h → times.Timed h self.now → (w : ℕ) → Contains v.items w ↔ IsSome (slot_at (state c h).slots w)) }
    {
        let mut numbers = Vec::new(alloc);
        for w in self.slots.keys() {
            numbers.push(*w)?;
        }
        numbers.sort()?;
        Ok(numbers)
    }
}
