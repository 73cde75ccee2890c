//! Why a text was refused.

use crate::guesses::word_meant;
use crate::lines::{Line, line_at};
use crate::mistakes::{Finding, Kind, Mistake};
use crate::scenarios::{first_line, in_settings};
use crate::wordings::Wording;
use crate::{records, scenarios};
use std::alloc::{AllocError, Global};
use tp_types::refusals::PoolError;

/// What was found, with the word that was meant where that is known.
fn guessed(alloc: Global, found: Option<Finding<'_>>) -> Result<Option<Finding<'_>>, AllocError> {
    let Some(
        Finding {
            mistake: Mistake::Words(wording),
            line,
            start,
            width,
        },
    ) = found
    else {
        return Ok(found);
    };
    let near = word_meant(alloc, &wording)?;
    Ok(Some(Finding {
        line,
        start,
        width,
        mistake: Mistake::Words(Wording { near, ..wording }),
    }))
}

/// What is wrong with a text that was refused so. The line is the one that the refusal names, or the pool line where the settings
/// are refused. None where the refusal speaks of no line.
pub fn reason(
    alloc: Global,
    kind: Kind,
    text: &[u8],
    refusal: PoolError,
) -> Result<Option<Finding<'_>>, AllocError> {
    let found = match (refusal, kind) {
        (PoolError::BadLine(number), _) => Some(scenarios::in_line(kind, text, number)),
        (PoolError::BadEntry(number), _) => Some(records::in_line(text, number)),
        (_, Kind::Record) => in_settings(line_at(text, 2), refusal),
        (_, _) => in_settings(line_at(text, first_line(text)), refusal),
    };
    guessed(alloc, found)
}

/// What is wrong with this line of a record, for which the text was refused so. A stream keeps no other line. The flag says that
/// the record ends before it.
pub fn reason_of_line<'a>(
    alloc: Global,
    line: Line<'a>,
    is_behind_end: bool,
    refusal: PoolError,
) -> Result<Option<Finding<'a>>, AllocError> {
    let found = match refusal {
        PoolError::BadEntry(_) => Some(records::in_refused(line, is_behind_end)),
        _ => in_settings(line, refusal),
    };
    guessed(alloc, found)
}
