//! The parts that an end's line may have, for a search that is to find a misspelled one.

use crate::ends::{Label, write_fate};
use crate::files::Named;
use std::alloc::{AllocError, Global};
use tp_types::states::RunState;
use tp_types::tasks::{Fate, Outcome};

const FATES: [Option<Fate>; 8] = [
    None,
    Some(Fate::Run),
    Some(Fate::RunByCaller),
    Some(Fate::Rejected),
    Some(Fate::Discarded),
    Some(Fate::HandedBack),
    Some(Fate::Removed),
    Some(Fate::Cancelled),
];

// Whether this may be told of a task with this name, whose body ends so.
fn may_tell(
    alloc: Global,
    label: &Label,
    outcome: Option<Outcome>,
    part: &str,
) -> Result<bool, AllocError> {
    for fate in FATES {
        let mut line = String::new(alloc);
        line.push_str(label.name.as_str())?;
        line.push_str(" ")?;
        write_fate(&mut line, fate, outcome)?;
        if line.as_str() == part {
            return Ok(true);
        }
    }
    Ok(false)
}

/// Whether some end's line might have this between its semicolons: a task's name and a fate, as `b rejected` or `a run 1`, or a run state.
/// AllocError where there is no memory to look.
pub fn is_part(alloc: Global, named: &Named, part: &str) -> Result<bool, AllocError> {
    for label in &named.labels {
        let outcome = match named.exploration.plan.submissions.get(label.submission) {
            Some(submission) => Some(submission.outcome),
            None => None,
        };
        if may_tell(alloc, label, outcome, part)? {
            return Ok(true);
        }
    }
    for rank in 0..5 {
        if RunState::from_rank(rank).name() == part {
            return Ok(true);
        }
    }
    Ok(false)
}
