//! The scenario of an interleaving: its asks, as `poolrun steps` reads them.

use crate::outcomes::write_outcome;
use crate::slots::Slots;
use std::alloc::{AllocError, Global};
use tp_explore::moves::Move;
use tp_explore::plans::Plan;
use tp_record::entries::{Ask, Did};
use tp_text::asks::{ShownAsk, ShownKind};
use tp_text::pools::ShownQueue;
use tp_types::configs::Config;
use tp_types::limits::DEFAULT_RECORD_LIMIT;
use tp_types::tasks::{Kind, Outcome};

// Writes a submission.
fn write_submission(
    line: &mut String,
    kind: Kind,
    priority: u32,
    outcome: Outcome,
) -> Result<(), AllocError> {
    let kind = ShownKind(kind);
    write!(line, "submit {kind} ")?;
    write_outcome(line, outcome)?;
    if priority != 0 {
        write!(line, " prio {priority}")?;
    }
    Ok(())
}

// The ask, with the pool's number of its slot.
fn numbered(slots: &Slots, ask: Ask) -> Ask {
    match ask {
        Ask::Open(w) => Ask::Open(slots.number(w)),
        Ask::Fail(w) => Ask::Fail(slots.number(w)),
        Ask::Take(w) => Ask::Take(slots.number(w)),
        Ask::Begin(w) => Ask::Begin(slots.number(w)),
        Ask::End(w, outcome) => Ask::End(slots.number(w), outcome),
        Ask::Leave(w) => Ask::Leave(slots.number(w)),
        ask => ask,
    }
}

// Writes the line of an ask; `outcome` is that of a submission.
fn write_ask(
    line: &mut String,
    slots: &Slots,
    ask: Ask,
    outcome: Outcome,
) -> Result<(), AllocError> {
    match ask {
        Ask::Submit(kind, priority) => write_submission(line, kind, priority, outcome),
        ask => {
            let ask = ShownAsk::of_line(numbered(slots, ask));
            write!(line, "{ask}")
        }
    }
}

// Writes the pool line of these settings.
fn write_pool(line: &mut String, config: &Config) -> Result<(), AllocError> {
    let Config {
        core,
        maximum,
        queue,
        keep,
        core_timeout,
        policy,
        record_limit,
    } = *config;
    let queue = ShownQueue(queue);
    let policy = policy.name();
    write!(line, "pool {core} {maximum} {queue} keep {keep} {policy}")?;
    if core_timeout {
        line.push_str(" coretimeout")?;
    }
    if record_limit != DEFAULT_RECORD_LIMIT {
        write!(line, " limit {record_limit}")?;
    }
    line.push_str("\n")
}

// How the body of the task ends that an entry submits.
fn outcome_of(plan: &Plan, made: &Move) -> Outcome {
    let Ok(Did::Submit(t, _, _, _)) = made.answer else {
        return Ok(0);
    };
    match made.after.submission(t) {
        Some(submission) if submission < plan.submissions.len() =>
            plan.submissions[submission].outcome,
        _ => Ok(0),
    }
}

/// The scenario of a way from the new pool: its asks, also those that are refused. AllocError where there is no memory for it.
pub fn scenario(alloc: Global, plan: &Plan, way: &[Move]) -> Result<String, AllocError> {
    let mut lines = String::new(alloc);
    let mut slots = Slots::new(alloc);
    write_pool(&mut lines, &plan.config)?;
    for made in way {
        write_ask(&mut lines, &slots, made.deed.ask, outcome_of(plan, made))?;
        lines.push_str("\n")?;
        if let Ok(did) = made.answer {
            slots.follow(did)?;
        }
    }
    Ok(lines)
}
