//! Refusals in words.

use std::fmt;
use tp_types::refusals::PoolError;
use tp_types::tasks::Fate;

/// A refusal in words, with what it carries. It prints as one line: its number, its name, and what came about.
#[derive(Clone, Copy, Debug)]
pub struct Reason(pub PoolError);

impl fmt::Display for Reason {
    fn fmt<W: fmt::Write>(&self, f: &mut fmt::Formatter<W>) -> fmt::Result {
        let error = &self.0;
        write!(f, "{} {}: ", error.number(), error.name())?;
        match error {
            PoolError::Rejected(t) => write!(f, "the pool has no place for task {}", t.0),
            PoolError::Faulted(code) => write!(f, "code {code}"),
            PoolError::Lost(fate) => write!(f, "its fate is {}", fate_in_words(*fate)),
            PoolError::AllFailed(Some(code)) => write!(f, "the last fault had code {code}"),
            PoolError::BadLine(line) => write!(f, "line {line}"),
            PoolError::BadEntry(line) => write!(f, "line {line}"),
            _ => write!(f, "{}", words(error)),
        }
    }
}

/// What became of a task, in words: its value, or the refusal as `Reason` tells it.
#[derive(Clone, Copy)]
pub struct InWords<'a, T>(pub &'a Result<T, PoolError>);

impl<T: fmt::Display> fmt::Display for InWords<'_, T> {
    fn fmt<W: fmt::Write>(&self, f: &mut fmt::Formatter<W>) -> fmt::Result {
        match self.0 {
            Ok(value) => write!(f, "{value}"),
            Err(error) => write!(f, "{}", Reason(*error)),
        }
    }
}

// A fate in words.
fn fate_in_words(fate: Fate) -> &'static str {
    match fate {
        Fate::Run => "run",
        Fate::RunByCaller => "run by its caller",
        Fate::Rejected => "rejected",
        Fate::Discarded => "discarded",
        Fate::HandedBack => "handed back",
        Fate::Removed => "removed",
        Fate::Cancelled => "cancelled",
    }
}

// What came about, of a refusal that carries nothing.
fn words(error: &PoolError) -> &'static str {
    match error {
        PoolError::BadSizes => "the maximum size is 0, above 1024 or below the core size",
        PoolError::BadCapacity => "a bounded queue has 1 to 65536 places",
        PoolError::BadLimit => "a record has 64 to 1048576 entries",
        PoolError::NoMemory => "there was no memory",
        PoolError::BookFull => {
            "the record has no room beside what is owed: set a larger limit, or keep no record"
        }
        PoolError::UnknownTask => "no task has this number",
        PoolError::UnknownSlot => "no slot has this number now",
        PoolError::NotThere => "it is not where the call needs it, or was taken before",
        PoolError::NotFuture => "a plain task has no future",
        PoolError::ClockBack => "the moment is before now",
        PoolError::KeepZero => "the keep-alive is 0 while core workers time out",
        PoolError::CancelledTask => "the future was cancelled",
        PoolError::TimedOut => "the time is over",
        PoolError::NoTasks => "no jobs were given",
        PoolError::AllFailed(None) => "no job succeeded",
        PoolError::NothingOpen => "no task of the group is done, and none is open",
        PoolError::NotTerminated => "the pool is not terminated",
        PoolError::MissingPass => "fewer or more passes came back than were made",
        PoolError::TornRecord => "the record and a pass disagree",
        PoolError::ReadFailed => "the reader failed, or the text is too long",
        PoolError::WriteFailed => "the writer failed",
        _ => "",
    }
}
