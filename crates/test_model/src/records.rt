//! Texts of records: each is judged so from bytes to bytes, or refused.

use crate::auditors::judged;
use crate::rows::parts;
use std::alloc::{AllocError, Global};
use std::io::Read;
use test_rows::is_same;
use tp_text::ends::refusal_line;
use tp_text::watched::{WatchedReader, WatchedWriter};
use tp_text_record::audits::audit_text;
use tp_text_record::records::read_record;
use tp_types::limits::MAX_TEXT_BYTES;
use tp_types::refusals::PoolError;

/// What is written of what a reader gives, and whether it is legal.
pub fn outcome_from<R: Read>(alloc: Global, reader: &mut R) -> (Vec<u8>, Result<bool, PoolError>) {
    let mut written = Vec::new(alloc);
    let mut reader = WatchedReader::new(reader);
    let mut writer = WatchedWriter::new(&mut written);
    let answer = audit_text(alloc, &mut reader, &mut writer);
    (written, answer)
}

/// What is written of a record's text, or the line of the refusal, and whether the record is legal.
fn told(alloc: Global, text: &[u8]) -> Result<(Vec<u8>, bool), AllocError> {
    let mut reader = text;
    let (mut written, given) = outcome_from(alloc, &mut reader);
    if let Err(refusal) = given {
        written.extend_from_slice(refusal_line(refusal).as_str().as_bytes())?;
    }
    Ok((written, given == Ok(true)))
}

/// Whether both auditors judge alike what a text says, where it says a record.
fn is_judged_alike(alloc: Global, text: &[u8]) -> bool {
    if text.len() > MAX_TEXT_BYTES {
        return false;
    }
    match read_record(alloc, text) {
        Ok(record) => judged(alloc, &record.config, &record.entries).is_some(),
        Err(_) => true,
    }
}

/// A record is judged so, and by both auditors alike.
pub fn judges(rt: &impl Print, alloc: Global, row: &str) -> anyhow::Result<()> {
    let (text, output) = parts(row);
    let told = told(alloc, text);
    let seen = told.as_ref().map(|(written, legal)| (str::from_utf8(written.as_slice()), *legal));
    let wanted = (Ok(output), output.starts_with("legal"));
    is_same(rt, 0, &seen, &Ok(wanted))?;
    is_same(rt, 1, &is_judged_alike(alloc, text), &true)
}
