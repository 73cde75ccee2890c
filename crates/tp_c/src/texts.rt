//! Calls that keep nothing: bytes in, bytes out.

ghost use Rattle.std.specs.Prelude.{◌≡◌, ◌++◌, Bool, List, Result, ℕ};
ghost use Rattle.tp_types.specs.declared.refusals.PoolError.{PoolError as Refusal};
ghost use Rattle.tp_text.specs.EndLines.{refusal_line as refusal_text};
ghost use Rattle.tp_c.specs.declared.statuses.Status.TheVariants.{Refused};
ghost use Rattle.tp_c.specs.Rooms.{IsLaid};
ghost use Rattle.tp_c.specs.Statuses.{audit_status, run_status};
ghost use Rattle.tp_c.specs.Texts.{Audits, Plays};

use crate::rooms::{lay, lay_closed};
use crate::statuses::Status;
use std::alloc::Global;
use tp_scenario::listeners::Nobody;
use tp_scenario::play::play;
use tp_text::ends::refusal_line;
use tp_text_record::judgments::judge_text;
use tp_types::limits::MAX_TEXT_BYTES;
use tp_types::refusals::PoolError;

/// Lays lines, and behind them that of a refusal, into the room, with the refusal's number as status.
pub(crate) fn refuse(lines: &[u8], refusal: PoolError, room: &mut [u8], needed: &mut usize) -> u32
    ensures { IsLaid (lines.now ++ refusal_text refusal) (Refused refusal) room.old room.new needed.new result }
{
    let line = refusal_line(refusal);
    lay_closed(
        lines,
        line.as_str().as_bytes(),
        Status::Refused(refusal),
        room,
        needed,
    )
}

/// Judges the record of a text, as `poolrun audit` does, and lays what that writes into the room. The answer is 0 where the record is
/// legal, Flaw (32), the number of the refusal, or TooSmall (33), where nothing was laid; `needed` is the length of what was to be
/// laid.
#[unsafe(no_mangle)]
pub extern "C" fn zk_core_audit(
    alloc: Global,
    text: &[u8],
    room: &mut [u8],
    needed: &mut usize,
) -> u32
    ensures { (out : List ℕ) × (answer : Result Bool Refusal) × Audits text.now out answer × IsLaid out (audit_status answer) room.old room.new needed.new result }
{
    if MAX_TEXT_BYTES < text.len() {
        return refuse(&[], PoolError::ReadFailed, room, needed);
    }
    match judge_text(alloc, text) {
        Ok(judgment) => {
            let status = Status::of_judged(judgment.legal);
            lay(judgment.lines.as_slice(), status, room, needed)
        }
        Err(error) => refuse(&[], error, room, needed),
    }
}

/// Plays the scenario of a text, as `poolrun steps` does, and lays what that writes into the room. The answer is 0 where it was
/// played to its end, the number of the refusal, or TooSmall (33), where nothing was laid; `needed` is the length of what was to be
/// laid.
#[unsafe(no_mangle)]
pub extern "C" fn zk_core_steps(
    alloc: Global,
    text: &[u8],
    room: &mut [u8],
    needed: &mut usize,
) -> u32
    ensures { (out : List ℕ) × (ending : Result (Unit {0}) Refusal) × Plays text.now out ending × IsLaid out (run_status ending) room.old room.new needed.new result }
{
    if MAX_TEXT_BYTES < text.len() {
        return refuse(&[], PoolError::ReadFailed, room, needed);
    }
    let played = play(alloc, text, &mut Nobody);
    match played.ending {
        Ok(()) => lay(played.output.as_slice(), Status::Done, room, needed),
        Err(error) => refuse(played.output.as_slice(), error, room, needed),
    }
}
