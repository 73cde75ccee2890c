//! Texts written whole. Each text was made before, so that want of memory and a failing writer are two refusals of two calls.

ghost use Rattle.std.specs.Prelude.{◌≡◌, OnOk, IsOkUnless};
ghost use Rattle.std.specs.Io.KnownBytes.{Appends};
ghost use Rattle.tp_text.specs.Watching.{TellsWriter, sink};

use crate::watched::WatchedWriter;
use std::io::Write;
use tp_types::refusals::PoolError;

/// Writes all of a text, and flushes. 26 `WriteFailed` comes just where the writer fails now, which
/// keeps why.
pub fn write_text<W: Write>(writer: &mut WatchedWriter<W>, text: &[u8]) -> Result<(), PoolError>
    ensures written { OnOk result (Appends (W.contents (sink writer.old)) (W.contents (sink writer.new)) text.now) }
    ensures only_writing { IsOkUnless result PoolError.WriteFailed }
    ensures unwritten { TellsWriter writer.old result writer.new }
{
    if writer.write_all(text).is_err() {
        return Err(PoolError::WriteFailed);
    }
    match writer.flush() {
        Ok(()) => Ok(()),
        Err(_) => Err(PoolError::WriteFailed),
    }
}
