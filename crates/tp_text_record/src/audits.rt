//! An audit, from a reader to a writer.
ghost use Rattle.std.specs.Prelude.{◌≡◌, ◌≢◌, ◌⊎◌, ◌<◌, ℕ, List, Option, length, Err, IfErr, IfSome, IsOk};
ghost use Rattle.tp_text.specs.Watching.{TellsReader, TellsWriter, sink, source};
ghost use Rattle.tp_text_record.specs.AuditText.{IsAudit, JudgesFrom};

use crate::judgments::{Judgment, judge_text};
use std::alloc::Global;
use std::io::{Read, Write};
use tp_text::inputs::read_text;
use tp_text::watched::{WatchedReader, WatchedWriter};
use tp_text::writing::write_text;
use tp_types::refusals::PoolError;

/// Writes a judgment, or leaves its refusal as it is. The answer says whether the record is legal. 26 comes just where the writer
/// fails now, which keeps why.
pub fn write_judgment<W: Write>(
    judgment: &Result<Judgment, PoolError>,
    writer: &mut WatchedWriter<W>,
) -> Result<bool, PoolError>
    ensures audits { (input : Option (List ℕ)) → JudgesFrom input judgment.now → IsAudit input (W.contents (sink writer.old)) (W.contents (sink writer.new)) result }
    ensures tells_writer { (input : Option (List ℕ)) → JudgesFrom input judgment.now → TellsWriter writer.old result writer.new }
    ensures refused { IfErr judgment.now (λ e. result ≡ Err e) }
    ensures reads { IsOk judgment.now → result ≢ Err PoolError.ReadFailed }
{
    match judgment {
        Ok(judgment) => match write_text(writer, judgment.lines.as_slice()) {
            Ok(()) => Ok(judgment.legal),
            Err(refusal) => Err(refusal),
        },
        Err(refusal) => Err(*refusal),
    }
}

/// Reads a record text whole, judges its record, and writes the judgment: `legal` and the number of
/// entries, the run state and the counters, where each entry is one that the step gives after those
/// before it; or `flaw` and the number of the first that is not. The answer says whether it is legal.
/// 25 comes just where the reader fails now, which keeps why, or gives more than 1,048,576 bytes; else a
/// configuration that no pool can have (1, 2, 3, 11) or a wrong line (24) is refused, whichever comes
/// first; 4 is want of memory. Nothing is written then. 26 comes just where the writer fails now, which
/// keeps why.
pub fn audit_text<R: Read, W: Write>(
    alloc: Global,
    reader: &mut WatchedReader<R>,
    writer: &mut WatchedWriter<W>,
) -> Result<bool, PoolError>
    ensures audits { IsAudit (R.remaining (source reader.old)) (W.contents (sink writer.old)) (W.contents (sink writer.new)) result }
    ensures long { IfSome (R.remaining (source reader.old)) (λ text. 1048576 < length text
        → (result ≡ Err PoolError.ReadFailed) ⊎ (result ≡ Err PoolError.NoMemory)) }
    ensures tells_reader { TellsReader reader.old result reader.new }
    ensures tells_writer { TellsWriter writer.old result writer.new }
{
    let text = match read_text(alloc, reader) {
        Ok(text) => text,
        Err(refusal) => return Err(refusal),
    };
    write_judgment(&judge_text(alloc, text.as_slice()), writer)
}
