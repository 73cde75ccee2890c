//! Tasks and slots in words.

use std::fmt;
use tp_audit::tables::Tables;
use tp_record::rows::{SlotRow, Stage, TaskRow};
use tp_types::ids::{SlotId, TaskId};
use tp_types::tasks::Place;

/// A task, by what an auditor's tables say of it.
#[derive(Clone, Copy)]
pub struct ShownTask<'a> {
    /// The tables.
    pub tables: &'a Tables,
    /// The task.
    pub task: TaskId,
}

/// What became of a task that is gone.
fn write_gone<W: fmt::Write>(f: &mut fmt::Formatter<W>, t: u32, row: &TaskRow) -> fmt::Result {
    match row.fate() {
        Some(fate) => {
            let fate = fate.name();
            write!(f, "t{t} has its fate: {fate}")
        }
        None => write!(f, "t{t} has ended"),
    }
}

/// Where a task is.
fn write_place<W: fmt::Write>(f: &mut fmt::Formatter<W>, t: u32, row: &TaskRow) -> fmt::Result {
    match row.place {
        Place::Looking => write!(f, "t{t} is to look again"),
        Place::ToOffer => write!(f, "t{t} is to be offered"),
        Place::ToGrow => write!(f, "t{t} found the queue full, and is to grow"),
        Place::Refused => write!(f, "t{t} is refused, and awaits its verdict"),
        Place::Queued => write!(f, "t{t} is queued"),
        Place::Held(SlotId(w)) => write!(f, "t{t} is held by w{w}, which has not taken it"),
        Place::Taken(SlotId(w)) => write!(f, "t{t} was taken by w{w}, which has not begun it"),
        Place::Running(SlotId(w)) => write!(f, "t{t} is run by w{w}"),
        Place::Caller => write!(f, "t{t} is run by its submitter"),
        Place::Gone => write_gone(f, t, row),
    }
}

impl fmt::Display for ShownTask<'_> {
    fn fmt<W: fmt::Write>(&self, f: &mut fmt::Formatter<W>) -> fmt::Result {
        let TaskId(t) = self.task;
        match self.tables.tasks.get(t as usize) {
            Some(row) => write_place(f, t, row),
            None => write!(f, "there is no t{t}"),
        }
    }
}

/// A slot, by what an auditor's tables say of it.
#[derive(Clone, Copy)]
pub struct ShownSlot<'a> {
    /// The tables.
    pub tables: &'a Tables,
    /// The slot.
    pub slot: SlotId,
}

/// What a worker does with the task in its slot.
fn write_work<W: fmt::Write>(
    f: &mut fmt::Formatter<W>,
    tables: &Tables,
    w: usize,
    task: TaskId,
) -> fmt::Result {
    let TaskId(t) = task;
    match tables.tasks.get(t as usize) {
        Some(row) if row.place == Place::Running(SlotId(w)) => write!(f, "w{w} runs t{t}"),
        Some(row) if row.place == Place::Taken(SlotId(w)) => {
            write!(f, "w{w} has taken t{t}, and not begun it")
        }
        _ => write!(f, "w{w} holds t{t}, and has not taken it"),
    }
}

/// What a slot is for, or what its worker does.
fn write_slot<W: fmt::Write>(
    f: &mut fmt::Formatter<W>,
    tables: &Tables,
    w: usize,
    row: SlotRow,
) -> fmt::Result {
    match (row.stage, row.task) {
        (Stage::Working, Some(task)) => write_work(f, tables, w, task),
        (Stage::Working, None) => write!(f, "w{w} has no task, and is about to take one"),
        (Stage::Idle(since), _) => write!(f, "w{w} is idle since moment {since}"),
        (Stage::Dying, _) => write!(f, "w{w} is to leave, since its task faulted"),
        (_, Some(TaskId(t))) => write!(f, "w{w} is reserved for t{t}, and not open"),
        (_, None) => write!(f, "w{w} is reserved, and not open"),
    }
}

impl fmt::Display for ShownSlot<'_> {
    fn fmt<W: fmt::Write>(&self, f: &mut fmt::Formatter<W>) -> fmt::Result {
        let SlotId(w) = self.slot;
        match self.tables.slots.get(self.slot) {
            Some(row) => write_slot(f, self.tables, w, row),
            None => write!(f, "there is no w{w}"),
        }
    }
}

/// How many numbers are looked at for slots, and how many slots are named.
const LOOKED: usize = 2_048;

const NAMED: usize = 8;

/// The slots of an auditor's tables, or the first of them.
#[derive(Clone, Copy)]
pub struct ShownSlots<'a>(pub &'a Tables);

impl fmt::Display for ShownSlots<'_> {
    fn fmt<W: fmt::Write>(&self, f: &mut fmt::Formatter<W>) -> fmt::Result {
        let tables = self.0;
        let count = tables.slots.count();
        if count == 0 {
            return f.write_str("no slots");
        }
        f.write_str("slots:")?;
        let mut named = 0usize;
        for w in 0..LOOKED {
            if named < NAMED && tables.slots.get(SlotId(w)).is_some() {
                named += 1;
                write!(f, " w{w}")?;
            }
        }
        if named < count {
            f.write_str(" ..")?;
        }
        Ok(())
    }
}

/// The tasks of an auditor's tables.
#[derive(Clone, Copy)]
pub struct ShownTasks<'a>(pub &'a Tables);

impl fmt::Display for ShownTasks<'_> {
    fn fmt<W: fmt::Write>(&self, f: &mut fmt::Formatter<W>) -> fmt::Result {
        match self.0.tasks.len() {
            0 => f.write_str("no tasks"),
            1 => f.write_str("tasks: t0"),
            count => {
                let last = count.saturating_sub(1);
                write!(f, "tasks: t0 to t{last}")
            }
        }
    }
}
