//! From the text of a file of jobs to what is told of its pool, which keeps no record.
ghost use Rattle.std.specs.Prelude.{◌≡◌, ◌≢◌, ◌⊎◌, ◌<◌, length, Err, IfOk, IfErr, IsOkUnless, OnOk, Some};
ghost use Rattle.tp_text.specs.Watching.{TellsWriter, sink};
ghost use Rattle.poolrun_program.specs.Runs.{RefusesText, WritesTally, tally_lines};

use crate::runs::tally_jobs;
use std::alloc::Global;
use std::io::Write;
use std::sync::Wait;
use std::thread::Threads;
use tp_scenario::jobs::jobs_of;
use tp_text::printing::Output;
use tp_text::watched::WatchedWriter;
use tp_text::writing::write_text;
use tp_types::refusals::PoolError;
use tp_types::states::{Counts, RunState};

// The line of the run state of a closed pool, and the line of its counters. NoMemory (4).
fn lines_of(alloc: Global, counts: &Counts) -> Result<Vec<u8>, PoolError>
    ensures text { IfOk result (λ text. text.items ≡ tally_lines counts.now) }
    ensures only_memory { IsOkUnless result PoolError.NoMemory }
{
    let mut output = Output::new(alloc);
    output.state(RunState::Terminated)?;
    output.counts(counts)?;
    Ok(output.written)
}

/// Runs the jobs of a text by threads, as `tally_jobs`, and writes the line of the run state and the line of the counters, and nothing in
/// place of them. The text is read whole before a thread starts, and has at most 4,294,967,294 bytes. Refused as `jobs_of` and
/// `tally_jobs` are, with nothing written, or by NoMemory (4) where there is no memory for the lines. WriteFailed (26) comes just where the
/// writer fails now, which keeps why; it may come after some of the lines was written.
pub fn tally_text<R: Threads + Wait + Copy + Send + 'static, W: Write>(
    rt: R,
    alloc: Global,
    text: &[u8],
    writer: &mut WatchedWriter<W>,
) -> Result<(), PoolError>
    requires { length text.now < 4294967295 }
    ensures written { OnOk result (WritesTally (Some text.now) (W.contents (sink writer.old)) (W.contents (sink writer.new))) }
    ensures refused { IfErr result (λ e. (e ≡ PoolError.WriteFailed) ⊎ (RefusesText (Some text.now) e × (writer.new ≡ writer.old))) }
    ensures reads { result ≢ Err PoolError.ReadFailed }
    ensures tells_writer { TellsWriter writer.old result writer.new }
{
    let jobs = match jobs_of(alloc, text) {
        Ok(jobs) => jobs,
        Err(error) => return Err(error),
    };
    let report = match tally_jobs(rt, alloc, &jobs) {
        Ok(report) => report,
        Err(error) => return Err(error),
    };
    let lines = match lines_of(alloc, &report.counts) {
        Ok(lines) => lines,
        Err(error) => return Err(error),
    };
    write_text(writer, lines.as_slice())
}
