//! A pool after an entry, as JSON: an object a line.

use crate::forms::Quoted;
use crate::fronts::{is_cancelled, is_with_submitter};
use std::alloc::{AllocError, Global};
use std::fmt;
use std::io::{self, Write};
use tp_audit::tables::Tables;
use tp_audit_causes::rows::{ShownSlot, ShownTask};
use tp_story::fronts::Front;
use tp_story::times::Since;
use tp_text::pools::ShownQueue;
use tp_types::configs::Config;
use tp_types::ids::{SlotId, TaskId};

/// Want of memory, as a writer's error.
fn no_memory(_error: AllocError) -> io::Error {
    io::Error::from(io::ErrorKind::OutOfMemory)
}

/// Since which entry, and since which moment, as `"since":3,"moment":0`.
#[derive(Clone, Copy)]
struct SinceMember(Option<Since>);

impl fmt::Display for SinceMember {
    fn fmt<W: fmt::Write>(&self, f: &mut fmt::Formatter<W>) -> fmt::Result {
        match self.0 {
            Some(Since { number, moment }) => {
                write!(f, "\"since\":{number},\"moment\":{moment}")
            }
            None => f.write_str("\"since\":null,\"moment\":null"),
        }
    }
}

/// The settings as they are now.
fn write_settings<W: Write>(out: &mut W, tables: &Tables) -> io::Result<()> {
    let core = tables.core;
    let maximum = tables.maximum;
    let keep = tables.keep;
    let core_timeout = tables.core_timeout;
    writeln!(
        out,
        "{{\"now\":\"settings\",\"core\":{core},\"maximum\":{maximum},\"keep\":{keep},\"core_timeout\":{core_timeout}}}"
    )
}

/// The settings with which the pool was made.
fn write_config<W: Write>(out: &mut W, config: &Config) -> io::Result<()> {
    let core = config.core;
    let maximum = config.maximum;
    let keep = config.keep;
    let core_timeout = config.core_timeout;
    let queue = ShownQueue(config.queue);
    let policy = config.policy.name();
    let limit = config.record_limit;
    writeln!(
        out,
        "{{\"first\":\"settings\",\"core\":{core},\"maximum\":{maximum},\"keep\":{keep},\"core_timeout\":{core_timeout},\"queue\":\"{queue}\",\"policy\":\"{policy}\",\"record_limit\":{limit}}}"
    )
}

/// A slot.
fn write_slot<W: Write>(alloc: Global, out: &mut W, front: &Front, slot: SlotId) -> io::Result<()> {
    let SlotId(w) = slot;
    let shown = ShownSlot {
        tables: front.tables(),
        slot,
    };
    let words = format!(in alloc; "{shown}").map_err(no_memory)?;
    let words = Quoted(words.as_str());
    let since = SinceMember(front.times().slot(slot));
    writeln!(out, "{{\"slot\":{w},\"words\":{words},{since}}}")
}

/// The slots.
fn write_slots<W: Write>(alloc: Global, out: &mut W, front: &Front) -> io::Result<()> {
    let slots = front.times().slots(alloc).map_err(no_memory)?;
    for w in &slots {
        write_slot(alloc, out, front, SlotId(*w))?;
    }
    Ok(())
}

/// The queue, its head first.
fn write_queue<W: Write>(out: &mut W, front: &Front) -> io::Result<()> {
    let tables = front.tables();
    let mut next = tables.queue.first();
    for _ in 0..tables.queue.len() {
        let Some(t) = next else {
            return Ok(());
        };
        let since = SinceMember(front.times().task(TaskId(t)));
        let cancelled = is_cancelled(tables, t);
        writeln!(out, "{{\"queued\":{t},\"cancelled\":{cancelled},{since}}}")?;
        next = tables.queue.next_after(t);
    }
    Ok(())
}

/// A task that is with its submitter.
fn write_submitted<W: Write>(
    alloc: Global,
    out: &mut W,
    front: &Front,
    task: TaskId,
) -> io::Result<()> {
    let shown = ShownTask {
        tables: front.tables(),
        task,
    };
    let words = format!(in alloc; "{shown}").map_err(no_memory)?;
    let words = Quoted(words.as_str());
    let by = front.times().submitter(task).unwrap_or(0);
    let since = SinceMember(front.times().task(task));
    let TaskId(t) = task;
    writeln!(
        out,
        "{{\"task\":{t},\"by\":{by},\"words\":{words},{since}}}"
    )
}

/// What submitters owe.
fn write_submitters<W: Write>(alloc: Global, out: &mut W, front: &Front) -> io::Result<()> {
    let mut t = 0u32;
    for row in &front.tables().tasks {
        let task = TaskId(t);
        if is_with_submitter(row.place) {
            write_submitted(alloc, out, front, task)?;
        }
        if row.second {
            let by = front.times().submitter(task).unwrap_or(0);
            writeln!(out, "{{\"second\":{t},\"by\":{by}}}")?;
        }
        t = t.saturating_add(1);
    }
    Ok(())
}

/// Writes the pool after an entry, but for the line that says which entry that is.
pub(crate) fn write_json<W: Write>(alloc: Global, out: &mut W, front: &Front) -> io::Result<()> {
    write_settings(out, front.tables())?;
    write_config(out, front.config())?;
    write_slots(alloc, out, front)?;
    write_queue(out, front)?;
    write_submitters(alloc, out, front)
}
