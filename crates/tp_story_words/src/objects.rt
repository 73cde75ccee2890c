//! The entries of a record and its counters, as members of JSON's objects.

use crate::forms::Quoted;
use std::alloc::{AllocError, Global};
use std::fmt;
use tp_record::entries::Entry;
use tp_text::entries::write_entry;
use tp_types::states::Counts;

/// What a record's line says of an entry behind its number and its pass.
fn did_of(alloc: Global, entry: &Entry) -> Result<String, AllocError> {
    let mut line = String::new(alloc);
    write_entry(&mut line, 0, entry)?;
    let mut skipped = if entry.by == 0 { 1usize } else { 2 };
    let mut did = String::new(alloc);
    for letter in line.as_str().chars() {
        if skipped > 0 {
            if letter == ' ' {
                skipped -= 1;
            }
        } else if letter != '\n' {
            did.push(letter)?;
        }
    }
    Ok(did)
}

/// The pass that asked, and what was done as the record writes it: `"by":0,"did":"take w0 idle"`.
pub fn entry_members(alloc: Global, entry: &Entry) -> Result<String, AllocError> {
    let by = entry.by;
    let did = did_of(alloc, entry)?;
    let did = Quoted(did.as_str());
    format!(in alloc; "\"by\":{by},\"did\":{did}")
}

/// The counters, by the names of the line of counters: `"submitted":5,"run":3,` and so on.
#[derive(Clone, Copy)]
pub struct CountMembers<'a>(pub &'a Counts);

impl fmt::Display for CountMembers<'_> {
    fn fmt<W: fmt::Write>(&self, f: &mut fmt::Formatter<W>) -> fmt::Result {
        let Counts {
            submitted,
            run,
            caller,
            rejected,
            discarded,
            handedback,
            ..
        } = *self.0;
        write!(
            f,
            "\"submitted\":{submitted},\"run\":{run},\"caller\":{caller},\"rejected\":{rejected},\"discarded\":{discarded},\"handedback\":{handedback}"
        )?;
        let Counts {
            removed,
            cancelled,
            completed,
            queued,
            live,
            largest,
            ..
        } = *self.0;
        write!(
            f,
            ",\"removed\":{removed},\"cancelled\":{cancelled},\"completed\":{completed},\"queued\":{queued},\"live\":{live},\"largest\":{largest}"
        )
    }
}
