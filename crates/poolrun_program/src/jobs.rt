//! The command `threads`: a file of jobs is run by threads.

ghost use Rattle.std.specs.Prelude.{◌<◌, length, IfOk};

use crate::hosts::Host;
use crate::journals::{JournalFile, journal_at, tell_journal};
use crate::tallies::tally_text;
use crate::texts::{Unfinished, run_text};
use poolrun_choices::choices::Running;
use poolrun_commands::objects::record_objects;
use poolrun_commands::statuses::finish;
use poolrun_commands::telling::{tell, tell_finding, tell_refusal};
use poolrun_commands::texts::{end_unread, text_or_status};
use std::alloc::Global;
use std::fs;
use std::io::{ErrorKind, Read, Write};
use std::rt::Files;
use tp_journal::endings::JournalEnd;
use tp_messages::messages::Style;
use tp_messages::mistakes::Kind;
use tp_messages::scenarios::{count_jobs, in_job_refused, pool_line_of};
use tp_messages::tellings::Room;
use tp_pool_advice::sizes::for_jobs;
use tp_story_words::forms::Form;
use tp_text::watched::{WatchedReader, WatchedWriter};
use tp_text::writing::write_text;
use tp_types::configs::Policy;
use tp_types::limits::DEFAULT_RECORD_LIMIT;
use tp_types::refusals::PoolError;

/// A text of jobs has fewer bytes, whatever is allowed.
const MOST_BYTES: usize = 4_294_967_295;

/// Writes the record's text to the file at a path, if there is one: WriteFailed (26) where that fails, and `errors` is told why.
pub fn write_file<H: Files, E: Write>(
    rt: &H,
    path: Option<&str>,
    text: &[u8],
    errors: &mut E,
) -> Result<(), PoolError> {
    let Some(path) = path else {
        return Ok(());
    };
    match fs::write(rt, path, text) {
        Ok(()) => Ok(()),
        Err(reason) => {
            tell(errors, path, &reason);
            Err(PoolError::WriteFailed)
        }
    }
}

/// The text of jobs beyond the usual length, as `text_or_status` gives it: 25 (`ReadFailed`) comes just where the reader fails. A line's
/// number has 32 bits, so a text of 4,294,967,295 bytes finds no room (4).
fn long_text_or_status<R: Read, W: Write, E: Write>(
    alloc: Global,
    name: &str,
    reader: &mut WatchedReader<R>,
    out: &mut WatchedWriter<W>,
    errors: &mut E,
) -> Result<Vec<u8>, u8>
    ensures { IfOk result (λ text. length text.items < 4294967295) }
{
    let mut text = Vec::new(alloc);
    let refusal = match reader.read_to_end(&mut text) {
        Ok(_) if text.len() < MOST_BYTES => return Ok(text),
        Err(reason) if reason.kind() != ErrorKind::OutOfMemory => PoolError::ReadFailed,
        _ => PoolError::NoMemory,
    };
    Err(end_unread(Kind::Jobs, name, reader, refusal, out, errors))
}

/// The text of jobs, of the length that is allowed.
fn jobs_text<R: Read, W: Write, E: Write>(
    alloc: Global,
    running: &Running,
    name: &str,
    reader: &mut WatchedReader<R>,
    out: &mut WatchedWriter<W>,
    errors: &mut E,
) -> Result<Vec<u8>, u8>
    ensures { IfOk result (λ text. length text.items < 4294967295) }
{
    if running.has_any_length {
        return long_text_or_status(alloc, name, reader, out, errors);
    }
    text_or_status(alloc, Kind::Jobs, name, reader, out, errors)
}

/// Runs the jobs of a text by threads. The record, or what stands in its place, goes to `out`, and the record's text to the file at the
/// path too, if there is one. What is left of a run where a submission is refused, or no thread could be made, is kept, and so is the end
/// of its journal.
fn run_jobs<H: Host, W: Write, E: Write>(
    rt: H,
    alloc: Global,
    running: &Running,
    text: &[u8],
    out: &mut WatchedWriter<W>,
    errors: &mut E,
    ended: &mut Option<JournalEnd<JournalFile<H>>>,
    kept: &mut Option<Unfinished>,
) -> Result<bool, PoolError>
    requires { length text.now < 4294967295 }
{
    if !running.keeps_record {
        tally_text(rt, alloc, text, out)?;
        return Ok(true);
    }
    let wish = journal_at(rt, alloc, running.journal.as_deref())?;
    let mut written = Vec::new(alloc);
    let mut writer = WatchedWriter::new(&mut written);
    run_text(rt, alloc, text, &mut writer, wish, ended, kept)?;
    write_file(&rt, running.record.as_deref(), written.as_slice(), errors)?;
    match running.form {
        Form::Words => write_text(out, written.as_slice())?,
        Form::Json => {
            let objects = record_objects(alloc, written.as_slice())?;
            write_text(out, objects.as_bytes())?;
        }
    }
    Ok(true)
}

/// The room of the record of a text's jobs, and what they want. What they want is not known under the policy discardoldest, which tries
/// a task again.
fn room_of(text: &[u8]) -> Room {
    let Some(pool) = pool_line_of(text) else {
        return Room {
            limit: DEFAULT_RECORD_LIMIT,
            wanted: None,
        };
    };
    let config = pool.config();
    let wanted = match for_jobs(config, count_jobs(text)) {
        Ok(wanted) if config.policy != Policy::DiscardOldest => Some(wanted.record_limit),
        _ => None,
    };
    Room {
        limit: config.record_limit,
        wanted,
    }
}

/// Tells which job of a text was refused, or for how many there was no thread.
fn tell_job<E: Write>(
    alloc: Global,
    name: &str,
    text: &[u8],
    refusal: PoolError,
    left: &Unfinished,
    errors: &mut E,
    style: Style,
) {
    let jobs = left.stranded;
    if refusal == PoolError::NoMemory && jobs > 0 {
        let _ = writeln!(
            errors,
            "poolrun: {name}: no thread could be made for {jobs} of its jobs"
        );
        return;
    }
    let job = left.submitted.saturating_add(1);
    let finding = in_job_refused(text, job, refusal, room_of(text));
    tell_finding(alloc, errors, name, Some(finding), style);
}

/// Writes what is left of a run that was refused to the file at the path, and tells so; or tells how to have it.
fn tell_record<H: Files, E: Write>(
    rt: &H,
    record: Option<&str>,
    name: &str,
    left: &Unfinished,
    errors: &mut E,
) {
    let Some(path) = record else {
        let _ = writeln!(
            errors,
            "poolrun: {name}: with --record PATH, the record of this run goes there"
        );
        return;
    };
    // The run is refused as its submission is, and not as the file is.
    if write_file(rt, record, left.text.as_slice(), errors).is_ok() {
        let _ = writeln!(
            errors,
            "poolrun: {name}: the record of this run is in {path}"
        );
    }
}

/// Tells why a run was refused, and what it left.
fn tell_run<H: Files, E: Write>(
    rt: &H,
    alloc: Global,
    running: &Running,
    name: &str,
    text: &[u8],
    refusal: PoolError,
    kept: Option<Unfinished>,
    errors: &mut E,
    style: Style,
) {
    match kept {
        Some(left) => {
            tell_job(alloc, name, text, refusal, &left, errors, style);
            tell_record(rt, running.record.as_deref(), name, &left, errors);
        }
        None => tell_refusal(alloc, errors, Kind::Jobs, name, text, refusal, style),
    }
}

/// Runs the jobs that a reader of this name gives, as `poolrun threads`, and gives the status of the program. What is wrong with a text
/// that is refused, or which job is, goes to `errors`, and so does why a journal is not whole.
pub fn run_threads<H: Host, R: Read, W: Write, E: Write>(
    rt: H,
    alloc: Global,
    running: &Running,
    name: &str,
    reader: &mut WatchedReader<R>,
    out: &mut WatchedWriter<W>,
    errors: &mut E,
    style: Style,
) -> u8 {
    let text = match jobs_text(alloc, running, name, reader, out, errors) {
        Ok(text) => text,
        Err(status) => return status,
    };
    let text = text.as_slice();
    let mut ended = None;
    let mut kept = None;
    let outcome = run_jobs(rt, alloc, running, text, out, errors, &mut ended, &mut kept);
    let status = finish(out, &outcome);
    if let Err(refusal) = outcome {
        tell_run(
            &rt, alloc, running, name, text, refusal, kept, errors, style,
        );
    }
    tell_journal(errors, running.journal.as_deref(), &ended);
    status
}
