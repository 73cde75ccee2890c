//! The text that a command reads.

ghost use Rattle.std.specs.Prelude.{◌≡◌, ◌≤◌, length, Err, Ok, IfErr, IfOk, IfSome, OnOk};
ghost use Rattle.tp_text.specs.Watching.{TellsReader, source};
ghost use Rattle.poolrun_commands.specs.Status.{EndsUnread, IsFinished, status_of};

use crate::statuses::finish;
use crate::telling::tell_unread;
use std::alloc::Global;
use std::io::{Read, Write};
use tp_messages::mistakes::Kind;
use tp_text::inputs::read_text;
use tp_text::watched::{WatchedReader, WatchedWriter};
use tp_types::refusals::PoolError;

/// Ends a run whose text was not read: the refusal is the last line of the output, and `errors` is told why the reader failed. The answer
/// is the status of the program.
pub fn end_unread<R, W: Write, E: Write>(
    kind: Kind,
    name: &str,
    reader: &WatchedReader<R>,
    refusal: PoolError,
    out: &mut WatchedWriter<W>,
    errors: &mut E,
) -> u8
    ensures status { result ≡ status_of (Err refusal) }
    ensures finished { IsFinished W.contents out.old (Err refusal) out.new }
{
    if refusal == PoolError::ReadFailed {
        tell_unread(errors, kind, name, reader);
    }
    finish(out, &Err(refusal))
}

/// The whole text that a reader of this name gives; else the status of the program, with the refusal as the last line of the output.
/// It is 25 `ReadFailed` just where the reader fails now, or gives more than 1,048,576 bytes, and `errors` is told which. It is
/// NoMemory (4) where the text finds no room.
pub fn text_or_status<R: Read, W: Write, E: Write>(
    alloc: Global,
    kind: Kind,
    name: &str,
    reader: &mut WatchedReader<R>,
    out: &mut WatchedWriter<W>,
    errors: &mut E,
) -> Result<Vec<u8>, u8>
    ensures short { IfOk result (λ text. length text.items ≤ 1048576) }
    ensures whole { IfOk result (λ text. IfSome (R.remaining (source reader.old)) (λ xs. text.items ≡ xs)) }
    ensures tells_reader { IfOk result (λ text. TellsReader reader.old (Ok text) reader.new) }
    ensures unwritten { OnOk result (out.new ≡ out.old) }
    ensures ended { IfErr result (EndsUnread W.contents reader.old reader.new out.old out.new) }
{
    let refusal = match read_text(alloc, reader) {
        Ok(text) => return Ok(text),
        Err(refusal) => refusal,
    };
    Err(end_unread(kind, name, reader, refusal, out, errors))
}
