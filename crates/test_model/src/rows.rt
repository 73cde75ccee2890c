//! What is read of a worked row: a scenario or a record, an empty line, and what is written of it.

use std::alloc::{AllocError, Global};
use tp_record::entries::Entry;
use tp_text::pools::pool_of;
use tp_text_record::entries::read_entry;
use tp_text_record::versions::Version;
use tp_types::configs::Config;

/// The text of a row, and what is written of it: nothing where it has no empty line.
pub fn parts(row: &str) -> (&[u8], &str) {
    let (text, output) = row.split_once("\n\n").unwrap_or((row, ""));
    let end = text.len().wrapping_add(1);
    (row.as_bytes().get(..end).unwrap_or(row.as_bytes()), output)
}

/// The configuration that the first line of a scenario says.
pub fn config_of(text: &str) -> Option<Config> {
    Some(pool_of(text.lines().next()?)?.config())
}

/// The entries among the lines that a run wrote.
pub fn entries_of(alloc: Global, output: &str) -> Result<Vec<Entry>, AllocError> {
    let mut entries = Vec::new(alloc);
    for line in output.lines() {
        if let Some((_, entry)) = read_entry(Version::Two, line.as_bytes()) {
            entries.push(entry)?;
        }
    }
    Ok(entries)
}
