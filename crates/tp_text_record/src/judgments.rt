//! The judgment of a record, and its lines.
ghost use Rattle.std.specs.Prelude.{◌≡◌, ◌≤◌, ◌++◌, List, length, reverse, string_bytes, IfOk, IsOkUnless};
ghost use Rattle.tp_record.specs.declared.entries.Entry.{Entry as Told};
ghost use Rattle.tp_audit.specs.Audited.{settings, Judged};
ghost use Rattle.tp_text.specs.EndLines.{counts_line, state_line};
ghost use Rattle.tp_text.specs.Watching.{TellsReader, source};
ghost use Rattle.tp_text_record.specs.AuditText.{IsJudged, JudgesFrom, JudgesText, flaw_line, legal_line};
ghost use Rattle.tp_text_record.specs.Judging.{IsToldBy};

use crate::judging::Judging;
use crate::reading::{Ending, RefusedLine, read_stream, read_whole};
use std::alloc::{AllocError, Global};
use std::io::Read;
use tp_audit::auditor::Auditor;
use tp_audit_plain::summary::Summary;
use tp_text::ends::{write_counts, write_state};
use tp_text::watched::WatchedReader;
use tp_types::refusals::PoolError;

/// What is said of a record.
#[derive(Debug, PartialEq, Eq, Drop)]
pub struct Judgment {
    /// Whether each entry is one that the step gives after those before it.
    pub legal: bool,
    /// The lines that say so, each with its line feed.
    pub lines: Vec<u8>,
    /// Why the first entry that is none is a flaw, where there was memory to say so.
    pub why: Option<String>,
}

fn legal_text(alloc: Global, entries: usize, summary: &Summary) -> Result<String, AllocError>
    ensures { IfOk result (λ text. string_bytes text
        ≡ legal_line entries ++ (state_line summary.now.state ++ counts_line summary.now.counts)) }
{
    let mut lines = format!(in alloc; "legal {entries}\n")?;
    write_state(&mut lines, summary.state)?;
    write_counts(&mut lines, &summary.counts)?;
    Ok(lines)
}

fn flaw_text(alloc: Global, entry: usize) -> Result<String, AllocError>
    ensures { IfOk result (λ text. string_bytes text ≡ flaw_line entry) }
{
    format!(in alloc; "flaw {entry}\n")
}

/// The line of the first flaw, as `flaw 2`.
fn flawed(alloc: Global, entry: usize) -> Result<Vec<u8>, PoolError>
    ensures text { IfOk result (λ line. line.items ≡ flaw_line entry) }
    ensures only_memory { IsOkUnless result PoolError.NoMemory }
{
    let line = flaw_text(alloc, entry).map_err(|_| PoolError::NoMemory)?;
    Ok(line.into_bytes())
}

/// The lines of a legal record: `legal` and the number of its entries, the run state, and the
/// counters.
fn legal(alloc: Global, entries: usize, summary: &Summary) -> Result<Vec<u8>, PoolError>
    ensures text { IfOk result (λ lines. lines.items
        ≡ legal_line entries ++ (state_line summary.now.state ++ counts_line summary.now.counts)) }
    ensures only_memory { IsOkUnless result PoolError.NoMemory }
{
    let lines = legal_text(alloc, entries, summary).map_err(|_| PoolError::NoMemory)?;
    Ok(lines.into_bytes())
}

/// The judgment of a legal record of so many entries, which the auditor was told.
fn legal_judgment(alloc: Global, auditor: &Auditor, entries: u32) -> Result<Judgment, PoolError>
    ensures judged { IfOk result (λ j. (es : List Told) → Judged auditor.now (reverse es) → entries ≡ length es
        → IsJudged (settings auditor.now) es j.legal j.lines.items) }
    ensures only_memory { IsOkUnless result PoolError.NoMemory }
{
    match auditor.finish() {
        Ok(summary) => Ok(Judgment {
            legal: true,
            lines: legal(alloc, entries as usize, &summary)?,
            why: None,
        }),
        Err(_) => Err(PoolError::NoMemory),
    }
}

/// The judgment of a record of so many entries, which were told.
pub fn judge(alloc: Global, judging: Judging, entries: u32) -> Result<Judgment, PoolError>
    ensures judged { IfOk result (λ j. (es : List Told) → IsToldBy judging.auditor judging.flaw es → entries ≡ length es
        → IsJudged (settings judging.auditor) es j.legal j.lines.items) }
    ensures only_memory { IsOkUnless result PoolError.NoMemory }
{
    match judging.flaw {
        Some(entry) => Ok(Judgment {
            legal: false,
            lines: flawed(alloc, entry)?,
            why: judging.why,
        }),
        None => legal_judgment(alloc, &judging.auditor, entries),
    }
}

/// The judgment of the record that a text is the text of, whose entries are judged as they are read. Else the refusal of the
/// text, as `read_record` tells it.
pub fn judge_text(alloc: Global, text: &[u8]) -> Result<Judgment, PoolError>
    requires { length text.now ≤ 1048576 }
    ensures { JudgesText text.now result }
{
    match read_whole::<Judging>(alloc, &(), text) {
        Ok(body) => judge(alloc, body.taker, body.entries),
        Err(refusal) => Err(refusal),
    }
}

/// The judgment of the record that a stream is the text of, line by line, so that it may have any length. Else its refusal, as that
/// of a text, with the line of which it speaks, where there is memory for it. 25 `ReadFailed` comes just where the reader fails now,
/// which keeps why, or gives more lines than have numbers.
pub fn judge_stream<R: Read>(
    alloc: Global,
    reader: &mut WatchedReader<R>,
    refused: &mut Option<RefusedLine>,
) -> Result<Judgment, PoolError>
    ensures judges { JudgesFrom (R.remaining (source reader.old)) result }
    ensures tells_reader { TellsReader reader.old result reader.new }
{
    match read_stream::<R, Judging>(alloc, &(), Ending::Whole, reader, refused) {
        Ok(read) => judge(alloc, read.taker, read.entries),
        Err(refusal) => Err(refusal),
    }
}
