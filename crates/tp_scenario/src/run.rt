//! The runner: a scenario's text is read, played, and what comes of it is written.

ghost use Rattle.std.specs.Prelude.{◌≡◌, ◌≢◌, ◌⊎◌, ◌≤◌, ◌<◌, length, Err, Some, IfSome, OnOk};
ghost use Rattle.tp_text.specs.Watching.{TellsReader, TellsWriter, sink, source};
ghost use Rattle.tp_scenario.specs.Played.{IsRun};
ghost use Rattle.tp_scenario.specs.Plays.{HeardText};

use crate::listeners::{Listener, Nobody};
use crate::play::play;
use std::alloc::Global;
use std::io::{Read, Write};
use tp_text::inputs::read_text;
use tp_text::watched::{WatchedReader, WatchedWriter};
use tp_text::writing::write_text;
use tp_types::refusals::PoolError;

/// Plays the scenario of a text, and writes what comes of it. The run ends at its end, with 23 at the first bad line, with the refusal
/// of a pool's configuration, or with 4 where the runner itself finds no memory. 26 comes just where the writer fails now, which
/// keeps why. The listener hears each step's answer.
pub fn run_text<L: Listener, W: Write>(
    alloc: Global,
    text: &[u8],
    listener: &mut L,
    writer: &mut WatchedWriter<W>,
) -> Result<(), PoolError>
    requires { length text.now ≤ 1048576 }
    ensures runs { IsRun (Some text.now) (W.contents (sink writer.old)) (W.contents (sink writer.new)) result }
    ensures reads { result ≢ Err PoolError.ReadFailed }
    ensures tells_writer { TellsWriter writer.old result writer.new }
    ensures heard { OnOk result (HeardText L.heard text.now listener.new) }
{
    let played = play(alloc, text, listener);
    if let Err(error) = write_text(writer, played.output.as_slice()) {
        return Err(error);
    }
    played.ending
}

/// Reads a scenario whole and plays it, as `run_text`. 25 comes just where the reader fails now, which keeps why, or gives more than
/// 1,048,576 bytes, and nothing is written then.
pub fn run<R: Read, W: Write>(
    alloc: Global,
    reader: &mut WatchedReader<R>,
    writer: &mut WatchedWriter<W>,
) -> Result<(), PoolError>
    ensures runs { IsRun (R.remaining (source reader.old)) (W.contents (sink writer.old)) (W.contents (sink writer.new)) result }
    ensures long { IfSome (R.remaining (source reader.old)) (λ text. 1048576 < length text
        → (result ≡ Err PoolError.ReadFailed) ⊎ (result ≡ Err PoolError.NoMemory)) }
    ensures unread { result ≡ Err PoolError.ReadFailed → writer.new ≡ writer.old }
    ensures tells_reader { TellsReader reader.old result reader.new }
    ensures tells_writer { TellsWriter writer.old result writer.new }
{
    let text = match read_text(alloc, reader) {
        Ok(text) => text,
        Err(error) => return Err(error),
    };
    run_text(alloc, text.as_slice(), &mut Nobody, writer)
}
