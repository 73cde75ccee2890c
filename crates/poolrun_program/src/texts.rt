//! From the text of a file of jobs to the text of its pool's record.
ghost use Rattle.std.specs.Prelude.{◌≡◌, ◌≢◌, ◌⊎◌, ◌<◌, ℕ, List, Option, length, reverse, Err, IfErr, IfOk, IfSome, IsOkUnless, OnOk, Some};
ghost use Rattle.std.specs.Io.KnownBytes.{Appends};
ghost use Rattle.tp_types.specs.declared.configs.Config.{Config as Settings};
ghost use Rattle.tp_record.specs.declared.entries.Entry.{Entry as Told};
ghost use Rattle.tp_glance.specs.Word.{IsFrontOf};
ghost use Rattle.tp_text.specs.Watching.{TellsWriter, sink};
ghost use Rattle.tp_text_record.specs.declared.versions.Version.{Version};
ghost use Rattle.tp_text_record.specs.RecordText.{record_text as text_of};
ghost use Rattle.tp_journal.specs.Endings.{IfThrough, IsWhole};
ghost use Rattle.tp_journal.specs.Journals.{IsJournalOf};
ghost use Rattle.poolrun_program.specs.Runs.{RefusesText, WritesRun};

use crate::runs::run_jobs;
use std::alloc::Global;
use std::io::Write;
use std::sync::Wait;
use std::thread::Threads;
use std::time::Clock;
use tp_journal::endings::{JournalEnd, Stopped, Wish, ended_by, ended_cut};
use tp_pool::closing::Report;
use tp_record::entries::{Did, Entry};
use tp_record::packed::unpacked;
use tp_scenario::jobs::jobs_of;
use tp_text::watched::WatchedWriter;
use tp_text::writing::write_text;
use tp_text_record::writing::record_text;
use tp_types::configs::Config;
use tp_types::refusals::PoolError;

/// What a run leaves that ended with the refusal of a submission, or for want of a thread.
#[derive(Debug, PartialEq, Eq, Drop)]
pub struct Unfinished {
    /// How many jobs were submitted before.
    pub submitted: usize,
    /// For how many jobs that were queued no thread could be made: they came back unrun.
    pub stranded: u32,
    /// The text of the closed pool's record.
    pub text: Vec<u8>,
}

// Whether an entry is a submission.
fn is_submission(entry: &Entry) -> bool {
    match entry.did {
        Did::Submit(_, _, _, _) => true,
        _ => false,
    }
}

// What is left of a run by the report of its pool, if it was closed and there is memory for the text.
fn left_of(alloc: Global, config: &Config, report: Option<Report>) -> Option<Unfinished> {
    let report = report?;
    let entries = unpacked(alloc, &report.entries).ok()?;
    let submitted = entries.iter().filter(|entry| is_submission(entry)).count();
    let text = record_text(alloc, config, &entries).ok()?;
    Some(Unfinished {
        submitted,
        stranded: report.counts.handedback,
        text,
    })
}

// The end of a journal, if there is one, by the text of the closed pool's record, or by why there is none.
fn ended_at<V: Write + Drop>(
    journal: Option<Stopped<V>>,
    text: Result<&[u8], PoolError>,
) -> Option<JournalEnd<V>>
    ensures { IfOk text.entry (λ bytes. (before : Option (List ℕ)) (c : Settings) (known es : List Told) → IfSome journal (λ s. IfThrough s (IsJournalOf V.contents before c known)) → IsFrontOf known (reverse es)
        → bytes.now ≡ text_of Version.Two c es → IfSome result (IsWhole V.contents before bytes.now)) }
{
    let Some(stopped) = journal else {
        return None;
    };
    match text {
        Ok(text) => Some(ended_by(stopped, text)),
        Err(error) => Some(ended_cut(stopped, error)),
    }
}

// What is left of a run that was refused so, and the end of its journal.
fn refused_run<V: Write + Drop>(
    alloc: Global,
    config: &Config,
    report: Option<Report>,
    journal: Option<Stopped<V>>,
    error: PoolError,
) -> (Option<Unfinished>, Option<JournalEnd<V>>) {
    let left = left_of(alloc, config, report);
    let text = match &left {
        Some(left) => Ok(left.text.as_slice()),
        None => Err(error),
    };
    let ended = ended_at(journal, text);
    (left, ended)
}

// The text of the record of a closed pool with these settings.
fn report_text(alloc: Global, config: &Config, report: &Report) -> Result<Vec<u8>, PoolError>
    ensures text { IfOk result (λ text. text.items ≡ text_of Version.Two config.now report.now.entries.items) }
    ensures only_memory { IsOkUnless result PoolError.NoMemory }
{
    let Ok(entries) = unpacked(alloc, report.entries.as_slice()) else {
        return Err(PoolError::NoMemory);
    };
    record_text(alloc, config, entries.as_slice())
}

/// Runs the jobs of a text by threads, as `run_jobs`, and writes the text of the pool's record, and nothing in place of one. The text is
/// read whole before a thread starts, and has at most 4,294,967,294 bytes. Refused as `jobs_of` and `run_jobs` are, with nothing written,
/// or by NoMemory (4) where there is no memory for the text of the record. WriteFailed (26) comes just where the writer fails now, which
/// keeps why; it may come after some of the text was written. Where a submission is refused, or no thread could be made, what the run
/// leaves is kept. A journal that is wished for is written while the pool runs, as by `run_jobs`, and ended; where it is whole, it has the same
/// text.
pub fn run_text<
    R: Threads + Wait + Clock + Copy + Send + 'static,
    W: Write,
    V: Write + Send + Drop + 'static,
>(
    rt: R,
    alloc: Global,
    text: &[u8],
    writer: &mut WatchedWriter<W>,
    wish: Option<Wish<V>>,
    ended: &mut Option<JournalEnd<V>>,
    kept: &mut Option<Unfinished>,
) -> Result<(), PoolError>
    requires { length text.now < 4294967295 }
    ensures written { OnOk result (WritesRun (Some text.now) (W.contents (sink writer.old)) (W.contents (sink writer.new))) }
    ensures journal { OnOk result ((bytes : List ℕ) × Appends (W.contents (sink writer.old)) (W.contents (sink writer.new)) bytes × IfSome wish (λ w. IfSome ended.new (IsWhole V.contents (V.contents w.writer) bytes))) }
    ensures refused { IfErr result (λ e. (e ≡ PoolError.WriteFailed) ⊎ (RefusesText (Some text.now) e × (writer.new ≡ writer.old))) }
    ensures reads { result ≢ Err PoolError.ReadFailed }
    ensures tells_writer { TellsWriter writer.old result writer.new }
{
    let jobs = match jobs_of(alloc, text) {
        Ok(jobs) => jobs,
        Err(error) => return Err(error),
    };
    let mut journal = None;
    let mut closed = None;
    let report = match run_jobs(rt, alloc, &jobs, wish, &mut journal, &mut closed) {
        Ok(report) => report,
        Err(error) => {
            let (left, end) = refused_run(alloc, &jobs.config, closed, journal, error);
            *kept = left;
            *ended = end;
            return Err(error);
        }
    };
    let record = match report_text(alloc, &jobs.config, &report) {
        Ok(record) => record,
        Err(error) => {
            *ended = ended_at(journal, Err(error));
            return Err(error);
        }
    };
    let record = record.as_slice();
    *ended = ended_at(journal, Ok(record));
    write_text(writer, record)
}
