//! The command `audit`: a record is judged.

ghost use Rattle.std.specs.Prelude.{◌≤◌, false, true};
ghost use Rattle.poolrun_commands.specs.Audits.{Audits};
ghost use Rattle.poolrun_commands.specs.Status.{Ends};

use crate::explains::judge_explained;
use crate::statuses::finish;
use crate::telling::{tell_flaw, tell_refusal, tell_refused};
use crate::texts::text_or_status;
use poolrun_choices::choices::Auditing;
use std::alloc::Global;
use std::io::{Read, Write};
use tp_messages::messages::Style;
use tp_messages::mistakes::Kind;
use tp_text::watched::{WatchedReader, WatchedWriter};
use tp_text_record::audits::write_judgment;
use tp_text_record::judgments::{Judgment, judge_stream};
use tp_types::refusals::PoolError;

/// Tells why a record has a flaw, where it has one.
fn tell_judged<E: Write>(errors: &mut E, name: &str, judgment: &Result<Judgment, PoolError>) {
    if let Ok(Judgment { why: Some(why), .. }) = judgment {
        tell_flaw(errors, name, why.as_str());
    }
}

/// Judges the record of a text that is read whole. Why it turned tasks away goes to `errors`, where that is asked for.
fn audit_whole<R: Read, W: Write, E: Write>(
    alloc: Global,
    explains: bool,
    name: &str,
    reader: &mut WatchedReader<R>,
    out: &mut WatchedWriter<W>,
    errors: &mut E,
    style: Style,
) -> u8
    ensures few { result ≤ 1 }
    ensures audits { Ends W.contents (Audits R.remaining W.contents false reader.old reader.new out.old) result out.new }
{
    let text = match text_or_status(alloc, Kind::Record, name, reader, out, errors) {
        Ok(text) => text,
        Err(status) => return status,
    };
    let text = text.as_slice();
    let mut told = String::new(alloc);
    let judgment = judge_explained(alloc, explains, text, &mut told);
    let outcome = write_judgment(&judgment, out);
    let status = finish(out, &outcome);
    let _ = errors.write_all(told.as_bytes());
    tell_judged(errors, name, &judgment);
    if let Err(refusal) = outcome {
        tell_refusal(alloc, errors, Kind::Record, name, text, refusal, style);
    }
    status
}

/// Judges the record of a text of any length, line by line.
fn audit_stream<R: Read, W: Write, E: Write>(
    alloc: Global,
    name: &str,
    reader: &mut WatchedReader<R>,
    out: &mut WatchedWriter<W>,
    errors: &mut E,
    style: Style,
) -> u8
    ensures few { result ≤ 1 }
    ensures audits { Ends W.contents (Audits R.remaining W.contents true reader.old reader.new out.old) result out.new }
{
    let mut line = None;
    let judgment = judge_stream(alloc, reader, &mut line);
    let outcome = write_judgment(&judgment, out);
    let status = finish(out, &outcome);
    tell_judged(errors, name, &judgment);
    if let Err(refusal) = outcome {
        tell_refused(alloc, errors, name, reader, &line, refusal, style);
    }
    status
}

/// Judges the record that a reader of this name gives, as `poolrun audit`, and gives the status of the program: line by line where it
/// may have any length. Why it has a flaw, or is refused, goes to `errors`.
pub fn run_audit<R: Read, W: Write, E: Write>(
    alloc: Global,
    auditing: Auditing,
    name: &str,
    reader: &mut WatchedReader<R>,
    out: &mut WatchedWriter<W>,
    errors: &mut E,
    style: Style,
) -> u8
    ensures few { result ≤ 1 }
    ensures audits { Ends W.contents (Audits R.remaining W.contents auditing.has_any_length reader.old reader.new out.old) result out.new }
{
    if auditing.has_any_length {
        audit_stream(alloc, name, reader, out, errors, style)
    } else {
        audit_whole(alloc, auditing.explains, name, reader, out, errors, style)
    }
}
