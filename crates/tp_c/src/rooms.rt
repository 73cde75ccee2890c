//! Answers in bytes: a caller gives the room for them.

ghost use Rattle.std.specs.Prelude.{◌≡◌, ◌≤◌, ◌++◌, length, drop};
ghost use Rattle.tp_c.specs.Rooms.{IsLaid};

use crate::statuses::Status;

/// Puts a part at the head of the room. The rest stays.
fn put(room: &mut [u8], part: &[u8])
    requires fits { length part.now ≤ length room.old }
    ensures { room.new ≡ part.now ++ drop (length part.now) room.old }
{
    let (front, _) = room.split_at_mut(part.len());
    front.copy_from_slice(part);
}

/// Lays an answer into the room, where that is large enough, and tells how many bytes it needs. The answer is the status's number, or
/// TooSmall (33), and the room is as it was then.
pub fn lay(answer: &[u8], status: Status, room: &mut [u8], needed: &mut usize) -> u32
    ensures { IsLaid answer.now status room.old room.new needed.new result }
{
    *needed = answer.len();
    if room.len() < answer.len() {
        return Status::TooSmall.number();
    }
    put(room, answer);
    status.number()
}

/// Lays lines, and a closing line behind them, as `lay` does.
pub fn lay_closed(
    lines: &[u8],
    closing: &[u8],
    status: Status,
    room: &mut [u8],
    needed: &mut usize,
) -> u32
    requires few { length closing.now ≤ 64 }
    ensures { IsLaid (lines.now ++ closing.now) status room.old room.new needed.new result }
{
    let whole = lines.len() + closing.len();
    *needed = whole;
    if room.len() < whole {
        return Status::TooSmall.number();
    }
    let (front, back) = room.split_at_mut(lines.len());
    front.copy_from_slice(lines);
    put(back, closing);
    status.number()
}
