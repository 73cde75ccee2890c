//! Files of jobs, read from bytes: worked and hostile texts, and readers that fail.

use super::{ERRORS, comments};
use crate::compare::same;
use crate::streams::{FailsOnce, last_line};
use std::alloc::{AllocError, Global};
use std::io::{self, Read};
use tp_scenario::jobs::{JobLine, Jobs};
use tp_scenario::read_jobs;
use tp_text::watched::WatchedReader;
use tp_types::configs::{Config, Policy, QueueKind};
use tp_types::limits::MAX_TEXT_BYTES;
use tp_types::refusals::PoolError;
use tp_types::tasks::Outcome;

const POOL: &[u8] = b"pool 1 1 unbounded keep 0 abort\n";

/// A file with each thing that a line can be.
const WORKED: &[u8] = b"\
# a comment, and an empty line before the pool

pool 2 4 bounded 8 keep 5 callerruns limit 1048576
execute 5
#
submit 6

execute !7
submit !0
submit -9223372036854775808
";

const WORKED_CONFIG: Config = Config {
    core: 2,
    maximum: 4,
    queue: QueueKind::Bounded(8),
    keep: 5,
    core_timeout: false,
    policy: Policy::CallerRuns,
    record_limit: 1_048_576,
};

/// Whether a line is a submission with a future, its outcome, and its priority.
type Said = (bool, Outcome, Option<u32>);

const WORKED_JOBS: [Said; 5] = [
    (false, Ok(5), None),
    (true, Ok(6), None),
    (false, Err(7), None),
    (true, Err(0), None),
    (true, Ok(i64::MIN), None),
];

/// What a line says.
fn said(job: &JobLine) -> Said {
    (job.future, job.outcome, job.priority)
}

/// What is read of what a reader gives.
fn read_from<R: Read>(alloc: Global, reader: &mut R) -> Result<Jobs, PoolError> {
    read_jobs(alloc, &mut WatchedReader::new(reader))
}

/// What a text is read as.
fn read(alloc: Global, text: &[u8]) -> Result<Jobs, PoolError> {
    let mut reader = text;
    read_from(alloc, &mut reader)
}

/// The refusal of a text.
fn refusal_of(alloc: Global, text: &[u8]) -> Option<PoolError> {
    read(alloc, text).err()
}

/// Whether these are the jobs of the worked file.
fn is_worked(jobs: &Jobs) -> bool {
    for (at, worked) in WORKED_JOBS.iter().enumerate() {
        match jobs.jobs.get(at) {
            Some(job) if said(job) == *worked => {}
            _ => return false,
        }
    }
    jobs.config == WORKED_CONFIG && jobs.jobs.len() == WORKED_JOBS.len()
}

/// Whether a file is read as the worked one.
fn reads_worked<R: Read>(alloc: Global, reader: &mut R) -> Result<bool, PoolError> {
    let jobs = read_from(alloc, reader)?;
    Ok(is_worked(&jobs))
}

/// A worked file is read as it stands, and from a reader that gives one byte a call.
#[test]
fn reads_a_worked_file(rt: HostRuntime) {
    let mut whole = WORKED;
    same(&rt, 0, &reads_worked(rt.alloc(), &mut whole), &Ok(true));
    let mut bytes = FailsOnce {
        rest: WORKED,
        before: usize::MAX,
        error: io::ErrorKind::Other,
    };
    same(&rt, 1, &reads_worked(rt.alloc(), &mut bytes), &Ok(true));
}

/// A pool with no jobs, one whose last line is a comment, and one with a comment of 200 bytes, of which no line may have more.
static WITHOUT_JOBS: [&[u8]; 3] = [
    POOL,
    b"pool 1 1 unbounded keep 0 abort\n\n# none\n",
    b"pool 1 1 unbounded keep 0 abort\n\
##################################################\
##################################################\
##################################################\
##################################################\n",
];

/// How many jobs are read of a text, and what its pool's limit is.
fn jobs_and_limit(alloc: Global, text: &[u8]) -> Result<(usize, u32), PoolError> {
    let jobs = read(alloc, text)?;
    Ok((jobs.jobs.len(), jobs.config.record_limit))
}

#[test]
fn reads_files_without_jobs(rt: HostRuntime) {
    for text in &WITHOUT_JOBS {
        let seen = jobs_and_limit(rt.alloc(), text);
        same(&rt, text.len(), &seen, &Ok((0, 4_096)));
    }
}

/// The pool line and then this line.
fn text_with(alloc: Global, line: &[u8]) -> Result<Vec<u8>, AllocError> {
    let mut text = Vec::new(alloc);
    text.extend_from_slice(POOL)?;
    text.extend_from_slice(line)?;
    text.push(b'\n')?;
    Ok(text)
}

/// What a text is read as that has this one line behind the pool line.
fn read_behind(alloc: Global, line: &[u8]) -> Result<Jobs, PoolError> {
    let text = text_with(alloc, line)?;
    read(alloc, text.as_slice())
}

/// What the one job of such a text says; none where it has another number of jobs.
fn job_behind(alloc: Global, line: &[u8]) -> Result<Option<Said>, PoolError> {
    let jobs = read_behind(alloc, line)?;
    match jobs.jobs.as_slice() {
        [job] => Ok(Some(said(job))),
        _ => Ok(None),
    }
}

/// Lines with bytes that no line may have.
static BAD_LINES: [&[u8]; 5] = [
    b"execute\t5",
    b"execute 5\r",
    b"execute 5\0",
    b"\xEF\xBB\xBFexecute 5",
    b"ex\xC3\xA9cute 5",
];

#[test]
fn refuses_bad_lines(rt: HostRuntime) {
    for (at, line) in BAD_LINES.iter().enumerate() {
        let given = read_behind(rt.alloc(), line).err();
        same(&rt, at, &given, &Some(PoolError::BadLine(2)));
    }
}

/// Lines with the last outcome of each type, and with a priority, and the job that each says. Priority 0 may be written here, and it
/// is none other.
static GOOD_LINES: [(&[u8], Said); 7] = [
    (b"execute 9223372036854775807", (false, Ok(i64::MAX), None)),
    (b"execute -9223372036854775808", (false, Ok(i64::MIN), None)),
    (b"execute !4294967295", (false, Err(u32::MAX), None)),
    (b"execute 5 prio 0", (false, Ok(5), Some(0))),
    (b"execute -5 prio 7", (false, Ok(-5), Some(7))),
    (b"submit !7 prio 4294967295", (true, Err(7), Some(u32::MAX))),
    (b"submit 0 prio 10", (true, Ok(0), Some(10))),
];

#[test]
fn reads_good_lines(rt: HostRuntime) {
    for (at, (line, job)) in GOOD_LINES.iter().enumerate() {
        same(&rt, at, &job_behind(rt.alloc(), line), &Ok(Some(*job)));
    }
}

/// A pool line, and three lines.
const SHORT: &[u8] = b"pool 1 1 unbounded keep 0 abort\nexecute 5\n# six\nsubmit !6\n";

/// A file that is cut behind a line is good where the pool line is left. Cut anywhere else its last line
/// is bad.
#[test]
fn cut_files_end_at_the_cut_line(rt: HostRuntime) {
    for end in 0..SHORT.len() {
        let text = &SHORT[..end];
        let answer = if text.last() == Some(&b'\n') {
            None
        } else {
            Some(PoolError::BadLine(last_line(text)))
        };
        same(&rt, end, &refusal_of(rt.alloc(), text), &answer);
    }
}

#[test]
fn refuses_a_reader_that_fails(rt: HostRuntime) {
    for error in ERRORS {
        for before in 0..WORKED.len() + 1 {
            let mut reader = FailsOnce {
                rest: WORKED,
                before,
                error,
            };
            let given = read_from(rt.alloc(), &mut reader).err();
            same(&rt, before, &given, &Some(PoolError::ReadFailed));
        }
    }
}

static LONG: [(usize, Option<PoolError>); 4] = [
    (MAX_TEXT_BYTES, None),
    (MAX_TEXT_BYTES - 1, Some(PoolError::BadLine(524_273))),
    (MAX_TEXT_BYTES + 1, Some(PoolError::ReadFailed)),
    (usize::MAX, Some(PoolError::ReadFailed)),
];

#[test]
fn reads_a_long_file_and_no_longer_one(rt: HostRuntime) {
    for (end, answer) in &LONG {
        let given = read_from(rt.alloc(), &mut comments(*end)).err();
        same(&rt, *end, &given, answer);
    }
}

/// So many jobs, each third of which faults, and each second of which has a future.
fn many_jobs(alloc: Global, count: u32) -> Result<String, AllocError> {
    let mut text = String::from_str(alloc, "pool 8 8 unbounded keep 0 abort limit 1048576\n")?;
    for job in 0..count {
        let word = if job % 2 == 0 { "execute" } else { "submit" };
        let mark = if job % 3 == 0 { "!" } else { "" };
        write!(text, "{word} {mark}{job}\n")?;
    }
    Ok(text)
}

/// Whether this is the job of this number.
fn is_job(job: &JobLine, number: u32) -> bool {
    let outcome = if number % 3 == 0 {
        Err(number)
    } else {
        Ok(i64::from(number))
    };
    said(job) == (number % 2 == 1, outcome, None)
}

/// The number of the first job that is another; how many there are where none is.
fn first_wrong(jobs: &Jobs) -> u32 {
    let mut number = 0u32;
    for job in &jobs.jobs {
        if !is_job(job, number) {
            return number;
        }
        number = number.wrapping_add(1);
    }
    number
}

/// The first wrong one of so many jobs, and how many are read.
fn wrong_of_many(alloc: Global, count: u32) -> Result<(u32, usize), PoolError> {
    let text = many_jobs(alloc, count)?;
    let jobs = read(alloc, text.as_bytes())?;
    Ok((first_wrong(&jobs), jobs.jobs.len()))
}

const MANY: [u32; 2] = [2_000, 60_000];

#[test]
fn reads_many_jobs(rt: HostRuntime) {
    for count in MANY {
        let seen = wrong_of_many(rt.alloc(), count);
        same(&rt, 0, &seen, &Ok((count, count as usize)));
    }
}

/// Where any one allocation fails, the answer is 4; with ample memory it is all the jobs.
#[test]
fn want_of_memory_is_refused(rt: HostRuntime) {
    let mut reader = WORKED;
    let is_told = match reads_worked(rt.alloc(), &mut reader) {
        Ok(is_worked) => is_worked,
        Err(error) => error == PoolError::NoMemory,
    };
    same(&rt, 0, &is_told, &true);
}
