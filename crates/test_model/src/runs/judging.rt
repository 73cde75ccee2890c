//! A worked row as asks, the refused ones among them.

use crate::compare::same;
use crate::known::ROW_18;
use crate::rows::config_of;
use crate::scenarios::{asks_of, is_judged, run_of};
use std::alloc::Global;
use tp_record::entries::Did;
use tp_types::refusals::PoolError;

/// Row 18 ends in a line that is no step, and is judged as what stands before it.
#[test]
fn judges_a_row_that_breaks_off(rt: HostRuntime) {
    let (text, output) = ROW_18;
    same(&rt, 18, &is_judged(rt.alloc(), text, output), &Ok(true));
}

/// How many of these answers are refusals.
fn refusals(answers: &[Result<Did, PoolError>]) -> usize {
    let mut refusals = 0usize;
    for answer in answers {
        if answer.is_err() {
            refusals = refusals.saturating_add(1);
        }
    }
    refusals
}

/// How many asks of a row are refused.
fn refused_asks(alloc: Global, text: &str) -> Result<usize, PoolError> {
    let Some(config) = config_of(text) else {
        return Ok(0);
    };
    let asks = asks_of(alloc, config, text)?;
    let run = run_of(alloc, config, &asks)?;
    Ok(refusals(&run.answers))
}

/// The asks of a row are not the accepted ones alone: row 18 has two that are refused.
#[test]
fn asks_what_is_refused(rt: HostRuntime) {
    same(&rt, 18, &refused_asks(rt.alloc(), ROW_18.0), &Ok(2));
}
