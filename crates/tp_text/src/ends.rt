//! The lines other than entries.
ghost use Rattle.std.specs.Prelude.{◌≡◌, ◌++◌, OnOk, codes, map, string_bytes};
ghost use Rattle.tp_text.specs.EntryLine.{behind};
ghost use Rattle.tp_text.specs.EndLines.{refused_place, refusal_line, back_line, fate_word, fate_line, state_line, ran_counters, lost_counters, worker_counters, counts_line};

use crate::pieces::{numbered, text};
use arrayvec::ArrayString;
use itoa::Buffer;
use std::alloc::AllocError;
use tp_types::ids::TaskId;
use tp_types::refusals::PoolError;
use tp_types::states::{Counts, RunState};
use tp_types::tasks::Fate;

/// The line of a text that a refusal speaks of.
fn refused_place(refusal: PoolError) -> Option<u32>
    ensures { result ≡ refused_place refusal }
{
    match refusal {
        PoolError::BadLine(place) | PoolError::BadEntry(place) => Some(place),
        _ => None,
    }
}

/// The line of a refusal, as `refused 8 NotThere`, with the line of a text that it speaks of, as `refused 23 BadLine 10`. It
/// takes no memory, since want of it is a refusal too.
pub fn refusal_line(refusal: PoolError) -> ArrayString<40>
    ensures { result.bytes ≡ refusal_line refusal }
{
    let mut line = ArrayString::new();
    line.push_str("refused ");
    line.push_str(Buffer::new().format(refusal.number()));
    line.push_str(" ");
    line.push_str(refusal.name());
    if let Some(place) = refused_place(refusal) {
        line.push_str(" ");
        line.push_str(Buffer::new().format(place));
    }
    line.push_str("\n");
    line
}

/// Writes the line of a refusal.
pub fn write_refusal(line: &mut String, refusal: PoolError) -> Result<(), AllocError>
    ensures { OnOk result (string_bytes line.new ≡ string_bytes line.old ++ refusal_line refusal) }
{
    text(line, refusal_line(refusal).as_str())
}

/// Writes the line of tasks that a stop handed back, in the queue's order, as `back t1 t2`.
pub fn write_back(line: &mut String, tasks: &[TaskId]) -> Result<(), AllocError>
    ensures { OnOk result (string_bytes line.new ≡ string_bytes line.old ++ back_line (map (λ task. task.0) tasks.now)) }
{
    line.push_str("back")?;
    for task in tasks {
        let TaskId(task) = *task;
        numbered(line, " t", task)?;
    }
    line.push_str("\n")
}

fn fate_word(fate: Option<Fate>) -> &'static str
    ensures { result.now ≡ fate_word fate }
{
    match fate {
        None => "open",
        Some(fate) => fate.name(),
    }
}

/// Writes the line of a task's fate, as `t0 run`, or `t0 open` where it has none.
pub fn write_fate(line: &mut String, task: TaskId, fate: Option<Fate>) -> Result<(), AllocError>
    ensures { OnOk result (string_bytes line.new ≡ string_bytes line.old ++ fate_line task.0 fate) }
{
    let TaskId(task) = task;
    numbered(line, "t", task)?;
    text(line, " ")?;
    text(line, fate_word(fate))?;
    text(line, "\n")
}

/// Writes the line of the run state, as `state running`.
pub fn write_state(line: &mut String, state: RunState) -> Result<(), AllocError>
    ensures { OnOk result (string_bytes line.new ≡ string_bytes line.old ++ state_line state) }
{
    let name = state.name();
    write!(line, "state {name}\n")
}

fn write_ran(line: &mut String, counts: &Counts) -> Result<(), AllocError>
    ensures { OnOk result (string_bytes line.new ≡ string_bytes line.old ++ (codes "counts" ++ behind (ran_counters counts.now))) }
{
    let Counts {
        submitted,
        run,
        caller,
        ..
    } = *counts;
    write!(
        line,
        "counts submitted={submitted} run={run} caller={caller}"
    )
}

fn write_lost(line: &mut String, counts: &Counts) -> Result<(), AllocError>
    ensures { OnOk result (string_bytes line.new ≡ string_bytes line.old ++ behind (lost_counters counts.now)) }
{
    let Counts {
        rejected,
        discarded,
        handedback,
        removed,
        cancelled,
        ..
    } = *counts;
    write!(
        line,
        " rejected={rejected} discarded={discarded} handedback={handedback} removed={removed} cancelled={cancelled}"
    )
}

fn write_workers(line: &mut String, counts: &Counts) -> Result<(), AllocError>
    ensures { OnOk result (string_bytes line.new ≡ string_bytes line.old ++ behind (worker_counters counts.now)) }
{
    let Counts {
        completed,
        queued,
        live,
        largest,
        ..
    } = *counts;
    write!(
        line,
        " completed={completed} queued={queued} live={live} largest={largest}"
    )
}

/// Writes the line of the counters, as `counts submitted=1 run=1 caller=0 ..`.
pub fn write_counts(line: &mut String, counts: &Counts) -> Result<(), AllocError>
    ensures { OnOk result (string_bytes line.new ≡ string_bytes line.old ++ counts_line counts.now) }
{
    write_ran(line, counts)?;
    write_lost(line, counts)?;
    write_workers(line, counts)?;
    line.push_str("\n")
}
