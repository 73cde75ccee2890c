//! Mistakes, and what is told of each. The sentences are written by hand, from what its user has to know to mend it.

use crate::messages::compare::same;
use std::alloc::Global;
use std::process::Abort;
use std::test::Fail;
use tp_explore_text::files::read_plan;
use tp_messages::messages::{UNADORNED, write_message};
use tp_messages::mistakes::Kind;
use tp_messages::reasons::reason;
use tp_scenario::jobs::read_jobs;
use tp_scenario::run::run;
use tp_text::watched::{WatchedReader, WatchedWriter};
use tp_text_record::audits::audit_text;
use tp_types::refusals::PoolError;

/// A text, the place that is told (`2:8`), the sentence, and what is said under the line or in a note.
type Row = (&'static [u8], &'static str, &'static str, &'static str);

/// How a text of a kind is refused, if it is.
pub fn refusal_of(alloc: Global, kind: Kind, text: &[u8]) -> Option<PoolError> {
    let mut reader = WatchedReader::new(text);
    let mut out = WatchedWriter::new(Vec::new(alloc));
    match kind {
        Kind::Scenario => run(alloc, &mut reader, &mut out).err(),
        Kind::Jobs => read_jobs(alloc, &mut reader).err(),
        Kind::Record => audit_text(alloc, &mut reader, &mut out).err(),
        Kind::Callers => read_plan(alloc, text).err(),
    }
}

/// The message of a text of a kind.
fn message_of(alloc: Global, kind: Kind, text: &[u8]) -> Result<Vec<u8>, Fail> {
    let mut message = Vec::new(alloc);
    if let Some(refusal) = refusal_of(alloc, kind, text) {
        if let Some(finding) = reason(alloc, kind, text, refusal)? {
            write_message(&mut message, "FILE", &finding, UNADORNED)?;
        }
    }
    Ok(message)
}

/// What a message lacks of what its row says.
fn lacks(alloc: Global, message: &str, row: &Row) -> Result<Option<&'static str>, Fail> {
    let (_, place, sentence, advice) = row;
    let place = format!(in alloc; "--> FILE:{place}\n")?;
    let sentence = format!(in alloc; "error: {sentence}\n")?;
    Ok(if !message.contains(place.as_str()) {
        Some("place")
    } else if !message.starts_with(sentence.as_str()) {
        Some("sentence")
    } else if !message.contains(*advice) {
        Some("advice")
    } else {
        None
    })
}

/// The messages of the texts of a table, of this kind, say what it says.
fn tells(rt: &impl Abort, alloc: Global, kind: Kind, rows: &[Row]) -> Result<(), Fail> {
    for (at, row) in rows.iter().enumerate() {
        let message = message_of(alloc, kind, row.0)?;
        let text = str::from_utf8(message.as_slice()).unwrap_or("");
        let lacking = lacks(alloc, text, row)?;
        same(rt, at, &lacking, &None);
    }
    Ok(())
}

static BYTES: [Row; 17] = [
    (
        b"",
        "1:1",
        "the text is empty",
        "^ it begins with a pool line\n  = form: pool CORE MAX QUEUE keep TICKS POLICY",
    ),
    (
        b"# nothing\n\n",
        "3:1",
        "the text has no pool line",
        "^ the text ends here",
    ),
    (
        b"pool 1 1 unbounded keep 0 abort\r\nstop\r\n",
        "1:32",
        "a carriage return ends the line, as on Windows",
        "save the file with the line ends of Unix (LF)",
    ),
    (
        b"\xEF\xBB\xBFpool 1 1 unbounded keep 0 abort\n",
        "1:1",
        "a byte order mark stands before the text",
        "^^^ save the file without it",
    ),
    (
        b"\xFF\xFEp\0o\0",
        "1:1",
        "the text has two bytes a character, as UTF-16",
        "^^ save the file as ASCII",
    ),
    (
        b"pool 1 1 unbounded keep 0 abort\nsubmit\tplain 5\n",
        "2:7",
        "a tab stands in the line",
        "write one space between two words",
    ),
    (
        b"pool 1 1 unbounded keep 0 abort\nsubmit  plain 5\n",
        "2:8",
        "two spaces stand side by side",
        "write one space between two words",
    ),
    (
        b"pool 1 1 unbounded keep 0 abort\n stop\n",
        "2:1",
        "a space stands before the first word",
        "^ take out what is marked",
    ),
    (
        b"pool 1 1 unbounded keep 0 abort\nstop \n",
        "2:5",
        "a space stands behind the last word",
        "^ take out what is marked",
    ),
    (
        b"pool 1 1 unbounded keep 0 abort\nstop",
        "2:5",
        "the text's last line has no line feed at its end",
        "end the line here; or the text was cut off",
    ),
    (
        b"pool 1 1 unbounded keep 0 abort\n# caf\xC3\xA9\n",
        "2:6",
        "the byte 195 is above 127",
        "a text is ASCII, and its comments are too",
    ),
    (
        b"# 345678901234567890123456789012345678901234567890123456789012345678901234567890123456789012345678901234567890123456789012345678901234567890123456789012345678901234567890123456789012345678901234567890!\n",
        "1:201",
        "the line has more than 200 bytes",
        "the line should end before it",
    ),
    (
        b"pool 1 1 unbounded keep 0 abort\nsubmit\tplain 5\n",
        "2:7",
        "a tab stands in the line",
        "2 | submit\\tplain 5\n  |       ^^ write",
    ),
    (
        b"pool 1 1 unbounded keep 0 abort\n# caf\xC3\xA9 \xE9\x80\x9F \x1B[1m \x80\xC3\n",
        "2:6",
        "the byte 195 is above 127",
        "2 | # caf\u{E9} \u{901F} ?[1m ??\n  |      ^ a text is ASCII",
    ),
    // A letter before the mark takes one place, and two bytes of the column. A sign that turns the line round is no letter.
    (
        b"\xC3\xA9\xE2\x80\xAE pool\r\n",
        "1:1",
        "the byte 195 is above 127",
        "1 | \u{E9}??? pool\\r\n  | ^ a text is ASCII",
    ),
    (
        b"pool 1 1 unbounded keep 0 abort\r\n",
        "1:32",
        "a carriage return ends the line, as on Windows",
        "1 | pool 1 1 unbounded keep 0 abort\\r\n  |                                ^^ save",
    ),
    // What moves a terminal's cursor is shown nowhere, and not in the sentence.
    (
        b"pool 1 1 unbounded keep 0 abort\n\x1B[2J 5\n",
        "2:1",
        "no line begins with '?[2J'",
        "2 | ?[2J 5\n  | ^^^^\n",
    ),
];

#[test]
fn tells_what_is_wrong(rt: HostRuntime) -> Result<(), Fail> {
    tells(&rt, rt.alloc(), Kind::Scenario, &BYTES)
}
