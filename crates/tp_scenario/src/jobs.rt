//! Files of jobs: a pool, and the jobs that it gets in order.

ghost use Rattle.std.specs.Prelude.{◌≡◌, ◌⊎◌, ◌≤◌, ◌<◌, ℕ, List, length, Err, IfSome};
ghost use Rattle.tp_text.specs.Reads.{ReadsAs};
ghost use Rattle.tp_text.specs.Watching.{TellsReader, source};
ghost use Rattle.tp_scenario.specs.declared.jobs.JobLine.{JobLine};
ghost use Rattle.tp_scenario.specs.Jobs.{FitsJob, IsJobsText, IsRead, JobsSaid, ReadsJobs, job_text};

use crate::forms::LineForm;
use crate::reading::given;
use crate::texts::{PoolText, read_pool_text};
use std::alloc::Global;
use std::io::Read;
use tp_text::inputs::read_text;
use tp_text::watched::WatchedReader;
use tp_text::words::first_word;
use tp_types::configs::Config;
use tp_types::refusals::PoolError;
use tp_types::tasks::Outcome;

/// One job.
#[derive(Clone, Copy, Debug, PartialEq, Eq)]
pub struct JobLine {
    /// Whether it has a future, as with `ExecutorService.submit`, or none, as with `execute`.
    pub future: bool,
    /// How its body ends: with a value, or with a fault's code.
    pub outcome: Outcome,
    /// Its priority, where the line says one; else it is 0.
    pub priority: Option<u32>,
}

/// What a file of jobs says.
#[derive(Debug, Drop)]
pub struct Jobs {
    /// The pool's settings, which a pool can have.
    pub config: Config,
    /// The jobs, in the order in which they are to be submitted.
    pub jobs: Vec<JobLine>,
}

/// The job of this text: `execute 5`, `submit !7 prio 2`.
fn job_of(text: &str) -> Option<JobLine>
    ensures { ReadsAs job_text FitsJob text.now result }
{
    let (word, rest) = first_word(text);
    let (outcome, priority) = given(rest?)?;
    match word {
        "execute" => Some(JobLine {
            future: false,
            outcome,
            priority,
        }),
        "submit" => Some(JobLine {
            future: true,
            outcome,
            priority,
        }),
        _ => None,
    }
}

impl LineForm for JobLine {
    ghost text_of = { job_text };

    ghost fits = { FitsJob };

    fn of_text(text: &str) -> Option<JobLine> {
        job_of(text)
    }
}

/// The jobs of a text of at most 4,294,967,294 bytes, whose lines a `u32` counts. It is refused as `read_jobs` refuses what it has read.
pub fn jobs_of(alloc: Global, text: &[u8]) -> Result<Jobs, PoolError>
    requires { length text.now < 4294967295 }
    ensures { ReadsJobs text.now result }
{
    let Ok(read) = read_pool_text::<JobLine>(alloc, text) else {
        return Err(PoolError::NoMemory);
    };
    let PoolText { pool, lines, bad } = match read {
        Ok(said) => said,
        Err(line) => return Err(PoolError::BadLine(line)),
    };
    let config = pool.config();
    if let Err(error) = config.check() {
        return Err(error);
    }
    match bad {
        Some(line) => Err(PoolError::BadLine(line)),
        None => Ok(Jobs {
            config,
            jobs: lines,
        }),
    }
}

/// Reads a file of jobs whole: a pool line, and behind it a line `execute V` or `submit V` for each
/// job, which may end in ` prio N`, in their order. Empty lines and comments are skipped, and counted.
///
/// The first of these refusals that applies is answered:
/// 25 `ReadFailed`, just where the reader fails now, which keeps why, or gives more than 1,048,576 bytes;
/// 23 `BadLine`, for a bad line up to the pool line, or for the line after the last where no pool line stands;
/// 1, 2, 3 or 11, for settings that no pool can have;
/// 23 `BadLine`, for the first bad line behind the pool line;
/// 4 `NoMemory`, where the text or the jobs find no room.
pub fn read_jobs<R: Read>(alloc: Global, reader: &mut WatchedReader<R>) -> Result<Jobs, PoolError>
    ensures reads { IsRead (R.remaining (source reader.old)) result }
    ensures long { IfSome (R.remaining (source reader.old)) (λ text. 1048576 < length text
        → (result ≡ Err PoolError.ReadFailed) ⊎ (result ≡ Err PoolError.NoMemory)) }
    ensures tells { TellsReader reader.old result reader.new }
{
    let text = match read_text(alloc, reader) {
        Ok(text) => text,
        Err(error) => return Err(error),
    };
    jobs_of(alloc, text.as_slice())
}

/// No text is that of two jobs.
pub fn one_job()
    ensures { (j k : JobLine) → FitsJob j → FitsJob k → job_text j ≡ job_text k → j ≡ k }
{}

/// The law that a text of jobs says one thing: one pool, the same jobs and the same bad line.
pub fn one_file_of_jobs()
    ensures { (text : List ℕ) (s t : JobsSaid) → IsJobsText text s → IsJobsText text t → s ≡ t }
{}
