//! All interleavings of some callers: bytes in, bytes out.

ghost use Rattle.std.specs.Prelude.{List, ℕ};
ghost use Rattle.tp_c.specs.declared.statuses.Status.{Status as Ending};
ghost use Rattle.tp_c.specs.Rooms.{IsLaid};

use crate::rooms::lay;
use crate::statuses::Status;
use crate::texts::refuse;
use std::alloc::Global;
use tp_explore_text::explored::explore_named;
use tp_explore_text::files::read_plan;
use tp_explore_text::texts::ends_text;
use tp_explore_walk::systems::Unwatched;
use tp_types::limits::MAX_TEXT_BYTES;
use tp_types::refusals::PoolError;

/// The lines of all ends to which the interleavings of a text's callers lead; none where more than `most` states are reached. ReadFailed
/// (25) for a text that is too long, else as `read_plan` and `explore_named`.
fn lines_of(alloc: Global, text: &[u8], most: usize) -> Result<Option<String>, PoolError> {
    if MAX_TEXT_BYTES < text.len() {
        return Err(PoolError::ReadFailed);
    }
    let named = read_plan(alloc, text)?;
    match explore_named(alloc, named, most, &mut Unwatched)? {
        Some(explored) => Ok(Some(ends_text(alloc, &explored)?)),
        None => Ok(None),
    }
}

/// Explores all interleavings of the callers that a text says, and lays the lines of their ends into the room. The answer is 0, TooMany
/// (37) where more than `most` states are reached, the number of the refusal, or TooSmall (33), where nothing was laid; `needed` is the
/// length of what was to be laid.
#[unsafe(no_mangle)]
pub extern "C" fn zk_core_explore(
    alloc: Global,
    text: &[u8],
    most: usize,
    room: &mut [u8],
    needed: &mut usize,
) -> u32
    ensures { (out : List ℕ) × (ending : Ending) × IsLaid out ending room.old room.new needed.new result }
{
    match lines_of(alloc, text, most) {
        Ok(Some(lines)) => lay(lines.as_str().as_bytes(), Status::Done, room, needed),
        Ok(None) => lay(&[], Status::TooMany, room, needed),
        Err(error) => refuse(&[], error, room, needed),
    }
}
