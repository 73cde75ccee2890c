//! What is told on the standard error.

use std::alloc::Global;
use std::io::{self, Write};
use tp_messages::lines::Line;
use tp_messages::messages::{Style, write_message};
use tp_messages::mistakes::{Finding, Kind};
use tp_messages::reasons::{reason, reason_of_line};
use tp_text::watched::WatchedReader;
use tp_text_record::reading::RefusedLine;
use tp_types::refusals::PoolError;

/// What is told of a text that is too long to be read.
const TOO_LONG: &str = "the text has more than 1,048,576 bytes";

/// Tells the name of what failed, and the reason.
pub fn tell<E: Write>(errors: &mut E, name: &str, reason: &io::Error) {
    let _ = writeln!(errors, "poolrun: {name}: {reason}");
}

/// Tells why the reader of a text failed, or that it gave too much.
pub fn tell_unread<R, E: Write>(errors: &mut E, kind: Kind, name: &str, reader: &WatchedReader<R>) {
    let _ = match (reader.failure(), kind) {
        (Some(reason), _) => writeln!(errors, "poolrun: {name}: {reason}"),
        (None, Kind::Record) => writeln!(
            errors,
            "poolrun: {name}: {TOO_LONG}, which `poolrun audit --any-length` takes"
        ),
        (None, Kind::Jobs) => writeln!(
            errors,
            "poolrun: {name}: {TOO_LONG}, which `poolrun threads --any-length` takes"
        ),
        (None, _) => writeln!(errors, "poolrun: {name}: {TOO_LONG}"),
    };
}

/// The name of what is read at a path: `-` is the standard input.
pub fn name_of(path: &str) -> &str {
    if path == "-" { "standard input" } else { path }
}

/// Tells what is wrong with the text of this name, where that was found. It is written at once, so that no other line comes between.
pub fn tell_finding<E: Write>(
    alloc: Global,
    errors: &mut E,
    name: &str,
    finding: Option<Finding<'_>>,
    style: Style,
) {
    let Some(finding) = finding else {
        return;
    };
    let mut message = Vec::new(alloc);
    if write_message(&mut message, name, &finding, style).is_ok() {
        let _ = errors.write_all(message.as_slice());
    }
}

/// Tells what is wrong with a text of this kind and name that was refused so, where the refusal speaks of a line of it.
pub fn tell_refusal<E: Write>(
    alloc: Global,
    errors: &mut E,
    kind: Kind,
    name: &str,
    text: &[u8],
    refusal: PoolError,
    style: Style,
) {
    let finding = reason(alloc, kind, text, refusal).unwrap_or(None);
    tell_finding(alloc, errors, name, finding, style);
}

/// Tells behind which entry a record is cut off.
pub fn tell_cut<E: Write>(errors: &mut E, name: &str, entries: u32) {
    let _ = writeln!(
        errors,
        "poolrun: {name}: the record ends at entry {entries}, without its last line"
    );
}

/// Tells why a record has a flaw.
pub fn tell_flaw<E: Write>(errors: &mut E, name: &str, why: &str) {
    let _ = writeln!(errors, "poolrun: {name}: {why}");
}

/// What is wrong with a record that was read line by line, and refused so at this line, where there is one.
fn finding_in(
    alloc: Global,
    line: &Option<RefusedLine>,
    refusal: PoolError,
) -> Option<Finding<'_>> {
    let line = line.as_ref()?;
    let number = match refusal {
        PoolError::BadEntry(number) => number,
        // The other refusals of a record are those of its pool line.
        _ => 2,
    };
    let shown = Line {
        number,
        bytes: line.bytes.as_slice(),
        is_ended: line.is_ended,
    };
    reason_of_line(alloc, shown, line.is_behind_end, refusal).unwrap_or(None)
}

/// Tells why the record that a reader of this name gives is refused, at this line, where there is one.
pub fn tell_refused<R, E: Write>(
    alloc: Global,
    errors: &mut E,
    name: &str,
    reader: &WatchedReader<R>,
    line: &Option<RefusedLine>,
    refusal: PoolError,
    style: Style,
) {
    if refusal == PoolError::ReadFailed {
        tell_unread(errors, Kind::Record, name, reader);
    }
    let finding = finding_in(alloc, line, refusal);
    tell_finding(alloc, errors, name, finding, style);
}
