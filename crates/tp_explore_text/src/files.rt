//! A file of callers: a pool line, the callers' lines, and maybe a line on the thread factory.
ghost use Rattle.std.specs.Prelude.{◌≡◌, ◌≤◌, true, IfOk, length};
ghost use Rattle.tp_explore.specs.Moves.{is_fit};

use crate::calls::{SaidCall, calls_of};
use crate::ends::Label;
use std::alloc::{AllocError, Global};
use tp_explore::plans::{Call, Factory, Plan, Submission};
use tp_explore_ends::explored::Exploration;
use tp_text::lines::{clean_text, is_skipped, next_line};
use tp_text::pools::{PoolLine, pool_of};
use tp_text::words::behind;
use tp_types::refusals::PoolError;

/// A plan, and the names of its submissions.
#[derive(Debug, Drop)]
pub struct Named {
    /// What is to be explored.
    pub exploration: Exploration,
    /// The name of each submission, in the order of the names.
    pub labels: Vec<Label>,
}

// A caller's calls, and the number of their line.
#[derive(Drop)]
struct SaidCaller<'a> {
    line: u32,
    calls: Vec<SaidCall<'a>>,
}

// What a file says, so far.
#[derive(Drop)]
struct Said<'a> {
    pool: Option<PoolLine>,
    factory: Option<Factory>,
    callers: Vec<SaidCaller<'a>>,
}

fn factory_of(text: &str) -> Option<Factory> {
    match text {
        "consents" => Some(Factory::Consents),
        "refuses" => Some(Factory::Refuses),
        "may refuse" => Some(Factory::MayRefuse),
        _ => None,
    }
}

// Takes in the pool line; false where it is none.
fn take_pool(said: &mut Said<'_>, text: &str) -> Result<bool, PoolError> {
    let Some(pool) = pool_of(text) else {
        return Ok(false);
    };
    // Settings that no pool can have are refused whatever stands in later lines.
    pool.config().check()?;
    said.pool = Some(pool);
    Ok(true)
}

// Takes in a line on the thread factory; false where it is a second one, or says nothing that a factory does.
fn take_factory(said: &mut Said<'_>, text: &str) -> bool {
    let is_first = said.factory.is_none();
    said.factory = factory_of(text);
    is_first && said.factory.is_some()
}

// Takes in a line that says something; false where it is bad.
fn take_line<'a>(
    alloc: Global,
    said: &mut Said<'a>,
    line: u32,
    text: &'a str,
) -> Result<bool, PoolError> {
    if said.pool.is_none() {
        return take_pool(said, text);
    }
    if let Some(factory) = behind(text, "factory") {
        return Ok(take_factory(said, factory));
    }
    let Some(calls) = behind(text, "caller") else {
        return Ok(false);
    };
    match calls_of(alloc, calls)? {
        None => Ok(false),
        Some(calls) => {
            said.callers.push(SaidCaller { line, calls })?;
            Ok(true)
        }
    }
}

// What a text says, and how many lines it has. BadLine (23) for its first bad line.
fn read_lines(alloc: Global, text: &[u8]) -> Result<(Said<'_>, u32), PoolError> {
    let mut said = Said {
        pool: None,
        factory: None,
        callers: Vec::new(alloc),
    };
    let mut rest = text;
    let mut line: u32 = 0;
    while let Some((bytes, behind)) = next_line(rest) {
        rest = behind;
        line = line.saturating_add(1);
        if is_skipped(bytes) {
            continue;
        }
        let is_good = match clean_text(bytes) {
            None => false,
            Some(text) => take_line(alloc, &mut said, line, text)?,
        };
        if !is_good {
            return Err(PoolError::BadLine(line));
        }
    }
    if rest.is_empty() {
        Ok((said, line))
    } else {
        Err(PoolError::BadLine(line.saturating_add(1)))
    }
}

// The submission of this name.
fn submission_of(labels: &[Label], name: &str) -> Option<usize> {
    for label in labels {
        if label.name.as_str() == name {
            return Some(label.submission);
        }
    }
    None
}

// How many of the names stand before this one.
fn names_before(labels: &[Label], name: &str) -> usize
    ensures { result ≤ length labels.now }
{
    for (i, label) in labels.iter().enumerate() {
        if name < label.name.as_str() {
            return i;
        }
    }
    labels.len()
}

// Takes in the name of the next submission; false where another has it.
fn add_name(labels: &mut Vec<Label>, name: String) -> Result<bool, AllocError> {
    if submission_of(labels, name.as_str()).is_some() {
        return Ok(false);
    }
    let submission = labels.len();
    let place = names_before(labels, name.as_str());
    labels.insert(place, Label { name, submission })?;
    Ok(true)
}

// The name of a submission: the one that is said, or that of its caller and call, as `c0.1`.
fn name_of(
    alloc: Global,
    said: Option<&str>,
    caller: usize,
    call: usize,
) -> Result<String, AllocError> {
    match said {
        None => format!(in alloc; "c{caller}.{call}"),
        Some(name) => String::from_str(alloc, name),
    }
}

// Takes in a caller's submissions, and their names; false where a name stands twice.
fn add_submissions(
    alloc: Global,
    labels: &mut Vec<Label>,
    submissions: &mut Vec<Submission>,
    caller: usize,
    calls: &[SaidCall<'_>],
) -> Result<bool, AllocError> {
    for (k, call) in calls.iter().enumerate() {
        let SaidCall::Submit(said, submission) = *call else {
            continue;
        };
        let name = name_of(alloc, said, caller, k)?;
        if !add_name(labels, name)? {
            return Ok(false);
        }
        submissions.push(submission)?;
    }
    Ok(true)
}

// The call that a line says; `made` submissions stand before it. None: it names no task.
fn call_of(labels: &[Label], made: usize, said: SaidCall<'_>) -> Option<Call> {
    match said {
        SaidCall::Submit(_, _) => Some(Call::Submit(made)),
        SaidCall::Control(ask) => Some(Call::Control(ask)),
        SaidCall::Cancel(name, flag) => Some(Call::Cancel(submission_of(labels, name)?, flag)),
        SaidCall::Remove(name) => Some(Call::Remove(submission_of(labels, name)?)),
        SaidCall::Await(name) => Some(Call::Await(submission_of(labels, name)?)),
        SaidCall::AwaitEnd => Some(Call::AwaitEnd),
    }
}

// A caller's calls; `made` counts the submissions so far. None: a call names no task.
fn calls_from(
    alloc: Global,
    labels: &[Label],
    made: &mut usize,
    said: &[SaidCall<'_>],
) -> Result<Option<Vec<Call>>, AllocError> {
    let mut calls = Vec::new(alloc);
    for said in said {
        let Some(call) = call_of(labels, *made, *said) else {
            return Ok(None);
        };
        calls.push(call)?;
        if let SaidCall::Submit(_, _) = *said {
            *made = made.saturating_add(1);
        }
    }
    Ok(Some(calls))
}

// The plan that the lines say, and its names. BadLine (23) where a name stands twice, or a call names no task.
fn plan_of(alloc: Global, pool: PoolLine, said: &Said<'_>) -> Result<Named, PoolError> {
    let mut labels = Vec::new(alloc);
    let mut submissions = Vec::new(alloc);
    for (i, caller) in said.callers.iter().enumerate() {
        if !add_submissions(alloc, &mut labels, &mut submissions, i, &caller.calls)? {
            return Err(PoolError::BadLine(caller.line));
        }
    }
    let mut callers = Vec::new(alloc);
    let mut made = 0;
    for caller in &said.callers {
        match calls_from(alloc, &labels, &mut made, &caller.calls)? {
            None => return Err(PoolError::BadLine(caller.line)),
            Some(calls) => callers.push(calls)?,
        }
    }
    let plan = Plan {
        config: pool.config(),
        factory: said.factory.unwrap_or(Factory::Consents),
        submissions,
        callers,
    };
    Ok(Named {
        exploration: Exploration { plan },
        labels,
    })
}

/// The plan that a text says. BadLine (23) with the number of a line that is bad, of the line behind the last where there is no pool line,
/// or of the last one where there are more than 4,096 callers; the refusal of settings that no pool can have: 1, 2, 3 or 11. NoMemory (4)
/// where there is none.
pub fn read_plan(alloc: Global, text: &[u8]) -> Result<Named, PoolError>
    ensures { IfOk result (λ named. is_fit named.exploration.plan ≡ true) }
{
    let (said, lines) = read_lines(alloc, text)?;
    let Some(pool) = said.pool else {
        return Err(PoolError::BadLine(lines.saturating_add(1)));
    };
    let named = plan_of(alloc, pool, &said)?;
    if named.exploration.plan.is_fit() {
        Ok(named)
    } else {
        Err(PoolError::BadLine(lines))
    }
}
