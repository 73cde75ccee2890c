//! Asks in words.

use std::fmt;
use tp_record::entries::Ask;
use tp_types::ids::{SlotId, TaskId};
use tp_types::tasks::Kind;

/// How an ask names tasks and slots.
#[derive(Clone, Copy, Debug, PartialEq, Eq)]
enum Names {
    /// As entries do: `t0` and `w0`.
    Entries,
    /// As the lines of scenarios do: by their numbers alone.
    Scenarios,
}

/// An ask, in the words with which its entry begins, as `end w0`, or in those of a scenario's line, as `end 0`. How a task ends that a
/// line submits is not said: the ask does not have it.
#[derive(Clone, Copy)]
pub struct ShownAsk {
    ask: Ask,
    names: Names,
}

impl ShownAsk {
    /// As an entry has it.
    pub fn of_entry(ask: Ask) -> ShownAsk {
        ShownAsk {
            ask,
            names: Names::Entries,
        }
    }

    /// As a scenario's line has it.
    pub fn of_line(ask: Ask) -> ShownAsk {
        ShownAsk {
            ask,
            names: Names::Scenarios,
        }
    }

    /// What stands before a task's number.
    fn task(&self) -> &'static str {
        match self.names {
            Names::Entries => "t",
            Names::Scenarios => "",
        }
    }

    /// What stands before a slot's number.
    fn slot(&self) -> &'static str {
        match self.names {
            Names::Entries => "w",
            Names::Scenarios => "",
        }
    }

    /// An ask of a task's submitter.
    fn write_of_task<W: fmt::Write>(&self, f: &mut fmt::Formatter<W>) -> fmt::Result {
        let of = self.task();
        match self.ask {
            Ask::Submit(kind, priority) => write_submit(f, kind, priority),
            Ask::Look(TaskId(t)) => write!(f, "look {of}{t}"),
            Ask::Offer(TaskId(t)) => write!(f, "offer {of}{t}"),
            Ask::Second(TaskId(t)) => write!(f, "second {of}{t}"),
            Ask::Grow(TaskId(t)) => write!(f, "grow {of}{t}"),
            Ask::Verdict(TaskId(t), verdict) => {
                let verdict = verdict.name();
                write!(f, "verdict {of}{t} {verdict}")
            }
            Ask::CallerEnd(TaskId(t), _) => write!(f, "callerend {of}{t}"),
            Ask::Remove(TaskId(t)) => write!(f, "remove {of}{t}"),
            Ask::Cancel(TaskId(t), false) => write!(f, "cancel {of}{t}"),
            Ask::Cancel(TaskId(t), true) => write!(f, "cancel {of}{t} flag"),
            _ => Ok(()),
        }
    }

    /// An ask of a worker, or of its factory.
    fn write_of_slot<W: fmt::Write>(&self, f: &mut fmt::Formatter<W>) -> fmt::Result {
        let of = self.slot();
        match self.ask {
            Ask::Open(SlotId(w)) => write!(f, "open {of}{w}"),
            Ask::Fail(SlotId(w)) => write!(f, "fail {of}{w}"),
            Ask::Take(SlotId(w)) => write!(f, "take {of}{w}"),
            Ask::Begin(SlotId(w)) => write!(f, "begin {of}{w}"),
            Ask::End(SlotId(w), _) => write!(f, "end {of}{w}"),
            Ask::Leave(SlotId(w)) => write!(f, "leave {of}{w}"),
            _ => Ok(()),
        }
    }
}

/// A task's kind, as `group 3`.
#[derive(Clone, Copy)]
pub struct ShownKind(pub Kind);

impl fmt::Display for ShownKind {
    fn fmt<W: fmt::Write>(&self, f: &mut fmt::Formatter<W>) -> fmt::Result {
        match self.0 {
            Kind::Plain => f.write_str("plain"),
            Kind::Future => f.write_str("future"),
            Kind::Group(group) => write!(f, "group {group}"),
        }
    }
}

/// A submission, with its priority where that is not 0.
fn write_submit<W: fmt::Write>(
    f: &mut fmt::Formatter<W>,
    kind: Kind,
    priority: u32,
) -> fmt::Result {
    let kind = ShownKind(kind);
    match priority {
        0 => write!(f, "submit {kind}"),
        _ => write!(f, "submit {kind} prio {priority}"),
    }
}

impl fmt::Display for ShownAsk {
    fn fmt<W: fmt::Write>(&self, f: &mut fmt::Formatter<W>) -> fmt::Result {
        match self.ask {
            Ask::Shutdown => f.write_str("shutdown"),
            Ask::Stop => f.write_str("stop"),
            Ask::Tidy => f.write_str("tidy"),
            Ask::Ended => f.write_str("ended"),
            Ask::Purge => f.write_str("purge"),
            Ask::TakeDone(group) => write!(f, "takedone {group}"),
            Ask::Core(core) => write!(f, "core {core}"),
            Ask::Maximum(maximum) => write!(f, "max {maximum}"),
            Ask::Keep(keep) => write!(f, "keep {keep}"),
            Ask::CoreTimeout(true) => f.write_str("coretimeout on"),
            Ask::CoreTimeout(false) => f.write_str("coretimeout off"),
            Ask::Tick(moment) => write!(f, "tick {moment}"),
            Ask::Prestart => f.write_str("prestart"),
            _ => {
                self.write_of_task(f)?;
                self.write_of_slot(f)
            }
        }
    }
}
