//! The words of a story.

ghost use Rattle.std.specs.Prelude.{◌≡◌};
ghost use Rattle.tp_story_words.specs.Words as words;

use crate::amounts::Amount;
use std::fmt;
use tp_record::entries::{
    Did, Failed, Grown, Looked, Offered, Opened, Ruled, Seconded, Started, Took,
};
use tp_story::events::Event;
use tp_story::scenes::Scene;
use tp_story::subjects::Subject;
use tp_story::times::Since;
use tp_types::ids::{SlotId, TaskId};
use tp_types::tasks::{Kind, Outcome};

/// What earlier entries of a task's story say that the words of a later one need.
#[derive(Clone, Copy, Debug, PartialEq, Eq)]
pub struct Earlier {
    /// When it was queued last.
    pub queued: Option<Since>,
    /// When its body began last.
    pub begun: Option<Since>,
    /// When it was cancelled.
    pub cancelled: Option<Since>,
}

impl Earlier {
    /// Before the first entry.
    pub fn none() -> Earlier
        ensures { result ≡ words.nothing }
    {
        Earlier {
            queued: None,
            begun: None,
            cancelled: None,
        }
    }

    /// After an event too.
    pub fn and(self, event: &Event) -> Earlier
        ensures { result ≡ words.earlier_after self event.now }
    {
        let since = Some(Since {
            number: event.number,
            moment: event.before.moment,
        });
        match event.entry.did {
            Did::Offer(_, Offered::Queued) => Earlier {
                queued: since,
                ..self
            },
            Did::Begin(_, Started::Run(_)) | Did::Verdict(_, _, Ruled::Caller) => {
                Earlier {
                    begun: since,
                    ..self
                }
            }
            Did::Cancel(_, _, true) => Earlier {
                cancelled: since,
                ..self
            },
            _ => self,
        }
    }
}

/// An event of a story, in words.
#[derive(Clone, Copy)]
pub struct ShownEvent<'a> {
    /// Of what the story tells.
    pub subject: Subject,
    /// The event.
    pub event: &'a Event,
    /// What came before it.
    pub earlier: &'a Earlier,
}

/// A kind, as `a future`.
#[derive(Clone, Copy)]
pub struct ShownKind(pub Kind);

impl fmt::Display for ShownKind {
    fn fmt<W: fmt::Write>(&self, f: &mut fmt::Formatter<W>) -> fmt::Result {
        match self.0 {
            Kind::Plain => f.write_str("a plain task"),
            Kind::Future => f.write_str("a future"),
            Kind::Group(group) => write!(f, "a future of group {group}"),
        }
    }
}

/// How a body ended, as `with value 3`.
#[derive(Clone, Copy)]
struct ShownOutcome(Outcome);

impl fmt::Display for ShownOutcome {
    fn fmt<W: fmt::Write>(&self, f: &mut fmt::Formatter<W>) -> fmt::Result {
        match self.0 {
            Ok(value) => write!(f, "with value {value}"),
            Err(code) => write!(f, "with fault {code}"),
        }
    }
}

/// What the pool did at a moment.
#[derive(Clone, Copy)]
struct ShownScene(Scene);

impl fmt::Display for ShownScene {
    fn fmt<W: fmt::Write>(&self, f: &mut fmt::Formatter<W>) -> fmt::Result {
        let live = self.0.live;
        let maximum = self.0.maximum;
        match self.0.rank {
            0 => write!(f, "while the pool ran with {live} of {maximum} workers"),
            1 => f.write_str("after the shutdown"),
            2 => f.write_str("after the stop"),
            _ => f.write_str("after the pool's end"),
        }
    }
}

/// What a look for a core slot answered.
#[derive(Clone, Copy)]
struct ShownLook(Looked);

impl fmt::Display for ShownLook {
    fn fmt<W: fmt::Write>(&self, f: &mut fmt::Formatter<W>) -> fmt::Result {
        match self.0 {
            Looked::Reserve(SlotId(w)) => write!(f, "w{w} is reserved for it, for the core"),
            Looked::Queue => f.write_str("to be queued"),
            Looked::Refuse => f.write_str("refused, since the pool is shut down"),
        }
    }
}

/// How long ago something was.
#[derive(Clone, Copy)]
struct ShownWait {
    since: Since,
    number: u64,
    moment: u64,
}

impl fmt::Display for ShownWait {
    fn fmt<W: fmt::Write>(&self, f: &mut fmt::Formatter<W>) -> fmt::Result {
        let entries = Amount::Entries(self.number.saturating_sub(self.since.number));
        let ticks = Amount::Ticks(self.moment.saturating_sub(self.since.moment));
        write!(f, "{entries}, and {ticks}")
    }
}

impl ShownEvent<'_> {
    /// How long ago something was, at the event.
    fn wait(&self, since: Since) -> ShownWait {
        ShownWait {
            since,
            number: self.event.number,
            moment: self.event.before.moment,
        }
    }

    /// An offer of the task.
    fn write_offer<W: fmt::Write>(
        &self,
        f: &mut fmt::Formatter<W>,
        offered: Offered,
    ) -> fmt::Result {
        let queued = self.event.before.queued;
        let tasks = Amount::Tasks(queued as u64);
        match offered {
            Offered::Queued if queued == 0 => f.write_str("queued, with no task before it"),
            Offered::Queued => write!(f, "queued behind {tasks}"),
            Offered::Hand(SlotId(w)) => write!(f, "handed to w{w}, which was idle"),
            Offered::Full => write!(f, "the queue is full, with {tasks} in it"),
        }
    }

    /// Its second look.
    fn write_second<W: fmt::Write>(
        &self,
        f: &mut fmt::Formatter<W>,
        seconded: Seconded,
    ) -> fmt::Result {
        match seconded {
            Seconded::Stay => f.write_str("second look: it stays"),
            Seconded::StayReserve(SlotId(w)) => write!(
                f,
                "second look: it stays, and w{w} is reserved, since there was no worker"
            ),
            Seconded::Back => {
                f.write_str(
                    "second look: the pool was shut down meanwhile, so it is taken back and refused",
                )
            }
        }
    }

    /// An attempt to grow for it.
    fn write_grow<W: fmt::Write>(&self, f: &mut fmt::Formatter<W>, grown: Grown) -> fmt::Result {
        let Scene {
            rank,
            slots,
            maximum,
            queued,
            ..
        } = self.event.before;
        match grown {
            Grown::Reserve(SlotId(w)) => write!(
                f,
                "grow: w{w} is reserved for it, up to the maximum"
            ),
            Grown::Refuse if rank > 0 => f.write_str("grow: refused, since the pool is shut down"),
            Grown::Refuse => {
                let tasks = Amount::Tasks(queued as u64);
                write!(
                    f,
                    "grow: refused, with {slots} of {maximum} slots taken and {tasks} queued"
                )
            }
        }
    }

    /// What became of it by a verdict.
    fn write_ruled<W: fmt::Write>(
        &self,
        f: &mut fmt::Formatter<W>,
        about: TaskId,
        ruled: Ruled,
    ) -> fmt::Result {
        let is_about = self.subject == Subject::Task(about);
        match ruled {
            Ruled::Rejected => f.write_str("rejected"),
            Ruled::Caller => f.write_str("its submitter begins to run it"),
            Ruled::Skip => f.write_str("gone without a verdict, since it was cancelled"),
            Ruled::Discarded => f.write_str("discarded"),
            Ruled::Retry => f.write_str("it is to look again"),
            Ruled::RetryDrop(TaskId(u)) if is_about => {
                write!(
                    f,
                    "it is to look again, and t{u}, the queue's head, is discarded for it"
                )
            }
            Ruled::RetryDrop(_) => {
                let TaskId(t) = about;
                write!(f, "discarded as the queue's head, for t{t}")
            }
        }
    }

    /// An event of the task that its submitter asked for.
    fn write_submitting<W: fmt::Write>(&self, f: &mut fmt::Formatter<W>) -> fmt::Result {
        let by = self.event.entry.by;
        match self.event.entry.did {
            Did::Submit(_, _, _, looked) => {
                let scene = ShownScene(self.event.before);
                let look = ShownLook(looked);
                write!(f, "submitted by pass {by} {scene}: {look}")
            }
            Did::Look(_, looked) => {
                let look = ShownLook(looked);
                write!(f, "looks again: {look}")
            }
            Did::Offer(_, offered) => self.write_offer(f, offered),
            Did::Second(_, seconded) => self.write_second(f, seconded),
            Did::Grow(_, grown) => self.write_grow(f, grown),
            Did::Verdict(about, _, ruled) => self.write_ruled(f, about, ruled),
            _ => Ok(()),
        }
    }

    /// That a slot which held the task came to nothing.
    fn write_unopened<W: fmt::Write>(&self, f: &mut fmt::Formatter<W>) -> fmt::Result {
        match self.event.entry.did {
            Did::Open(SlotId(w), _) => write!(
                f,
                "w{w}, which held it, is given up, since the pool is shut down: it is refused"
            ),
            Did::Fail(SlotId(w), Failed::Offer(_)) => write!(
                f,
                "no worker was made for w{w}, which held it: it is to be offered to the queue"
            ),
            Did::Fail(SlotId(w), _) => {
                write!(
                    f,
                    "no worker was made for w{w}, which held it: it is refused"
                )
            }
            _ => Ok(()),
        }
    }

    /// That its body ended.
    fn write_end<W: fmt::Write>(
        &self,
        f: &mut fmt::Formatter<W>,
        who: &str,
        outcome: Outcome,
    ) -> fmt::Result {
        let shown = ShownOutcome(outcome);
        write!(f, "{who} ended {shown}")?;
        if let Some(begun) = self.earlier.begun {
            let wait = self.wait(begun);
            write!(f, ", after {wait}")?;
        }
        match self.earlier.cancelled {
            Some(_) => f.write_str("; the outcome is dropped, since it was cancelled"),
            None => Ok(()),
        }
    }

    /// What a worker does with it.
    fn write_working<W: fmt::Write>(&self, f: &mut fmt::Formatter<W>) -> fmt::Result {
        match (self.event.entry.did, self.earlier.queued) {
            (Did::Take(SlotId(w), Took::Head(_)), Some(queued)) => {
                let wait = self.wait(queued);
                write!(f, "taken by w{w}; it had waited {wait}")
            }
            (Did::Take(SlotId(w), _), _) => write!(f, "taken by w{w}, which held it"),
            (Did::Begin(SlotId(w), Started::Skip(_)), _) => {
                write!(f, "skipped by w{w}, since it was cancelled")
            }
            (Did::Begin(SlotId(w), _), _) => write!(f, "begun by w{w}"),
            (Did::End(_, _, outcome), _) => self.write_end(f, "its body", outcome),
            _ => self.write_unopened(f),
        }
    }

    /// What a controller does with it.
    fn write_controlled<W: fmt::Write>(&self, f: &mut fmt::Formatter<W>) -> fmt::Result {
        let by = self.event.entry.by;
        match self.event.entry.did {
            Did::CallerEnd(_, outcome) => self.write_end(f, "its run by its submitter", outcome),
            Did::Remove(_, true) => write!(f, "removed from the queue by pass {by}"),
            Did::Remove(_, false) => write!(
                f,
                "pass {by} asks to remove it, but it is not in the queue"
            ),
            Did::Cancel(_, true, true) => write!(f, "cancelled, with its flag set, by pass {by}"),
            Did::Cancel(_, false, true) => write!(f, "cancelled by pass {by}"),
            Did::Cancel(_, _, false) => write!(f, "pass {by} asks to cancel it, without effect"),
            Did::TakeDone(group, _) => write!(
                f,
                "handed out to pass {by} as done in group {group}"
            ),
            Did::Stop(_) if self.earlier.cancelled.is_some() => {
                write!(f, "taken out of the queue by the stop of pass {by}")
            }
            Did::Stop(_) => write!(f, "handed back by the stop of pass {by}"),
            Did::Purge(_) => write!(
                f,
                "taken out of the queue by a purge of pass {by}, since it was cancelled"
            ),
            _ => Ok(()),
        }
    }

    /// An event of a task.
    fn write_of_task<W: fmt::Write>(&self, f: &mut fmt::Formatter<W>) -> fmt::Result {
        match self.event.entry.did {
            Did::Submit(..)
            | Did::Look(..)
            | Did::Offer(..)
            | Did::Second(..)
            | Did::Grow(..)
            | Did::Verdict(..) => { self.write_submitting(f) }
            Did::Open(..) | Did::Fail(..) | Did::Take(..) | Did::Begin(..) | Did::End(..) => {
                self.write_working(f)
            }
            _ => self.write_controlled(f),
        }
    }

    /// That the slot is reserved.
    fn write_reserved<W: fmt::Write>(
        &self,
        f: &mut fmt::Formatter<W>,
        slot: SlotId,
    ) -> fmt::Result {
        match self.event.entry.did {
            Did::Submit(TaskId(t), ..) | Did::Look(TaskId(t), _) => {
                write!(f, "reserved for t{t}, for the core")
            }
            Did::Grow(TaskId(t), _) => write!(f, "reserved for t{t}, up to the maximum"),
            Did::Second(TaskId(t), _) => {
                write!(
                    f,
                    "reserved at the second look of t{t}, since there was no worker"
                )
            }
            Did::Offer(TaskId(t), _) => write!(f, "woken, and handed t{t}"),
            Did::Leave(SlotId(v), _) if v != slot.0 => {
                write!(f, "reserved in place of w{v}, which leaves")
            }
            _ => f.write_str("reserved before there is a task for it"),
        }
    }

    /// What came of its worker's making.
    fn write_opened<W: fmt::Write>(&self, f: &mut fmt::Formatter<W>) -> fmt::Result {
        match self.event.entry.did {
            Did::Open(_, Opened::Live) => f.write_str("its worker is made, and live"),
            Did::Open(_, Opened::GivenUp) => f.write_str("given up, since the pool is shut down"),
            Did::Open(_, Opened::GivenUpRefuse(TaskId(t))) => {
                write!(f, "given up, since the pool is shut down: t{t} is refused")
            }
            Did::Fail(_, Failed::Offer(TaskId(t))) => {
                write!(f, "no worker was made: t{t} is to be offered to the queue")
            }
            Did::Fail(_, Failed::Refuse(TaskId(t))) => write!(
                f,
                "no worker was made: t{t} is refused"
            ),
            _ => f.write_str("no worker was made"),
        }
    }

    /// What its worker does.
    fn write_turn<W: fmt::Write>(&self, f: &mut fmt::Formatter<W>) -> fmt::Result {
        match self.event.entry.did {
            Did::Take(_, Took::Held(TaskId(t))) => write!(f, "takes t{t}, which it holds"),
            Did::Take(_, Took::Head(TaskId(t))) => write!(f, "takes t{t} from the queue"),
            Did::Take(_, Took::Leave) => f.write_str("finds no task, and leaves"),
            Did::Take(_, Took::Idle) => f.write_str("finds no task, and is idle"),
            Did::Begin(_, Started::Run(TaskId(t))) => write!(f, "begins t{t}"),
            Did::Begin(_, Started::Skip(TaskId(t))) => write!(f, "skips t{t}, which was cancelled"),
            Did::End(_, TaskId(t), outcome) => {
                let shown = ShownOutcome(outcome);
                write!(f, "ends t{t} {shown}")
            }
            _ => Ok(()),
        }
    }

    /// An event of a slot.
    fn write_of_slot<W: fmt::Write>(&self, f: &mut fmt::Formatter<W>, slot: SlotId) -> fmt::Result {
        match self.event.entry.did {
            Did::Open(..) | Did::Fail(..) => self.write_opened(f),
            Did::Take(..) | Did::Begin(..) | Did::End(..) => self.write_turn(f),
            Did::Leave(named, None) if named == slot => {
                f.write_str("leaves, since its task faulted")
            }
            Did::Leave(named, Some(SlotId(made))) if named == slot => {
                write!(
                    f,
                    "leaves, since its task faulted, and w{made} is reserved in its place"
                )
            }
            Did::Shutdown => f.write_str("woken by the shutdown"),
            Did::Stop(_) => f.write_str("woken by the stop"),
            _ => self.write_reserved(f, slot),
        }
    }
}

impl fmt::Display for ShownEvent<'_> {
    fn fmt<W: fmt::Write>(&self, f: &mut fmt::Formatter<W>) -> fmt::Result {
        match self.subject {
            Subject::Task(_) => self.write_of_task(f),
            Subject::Slot(slot) => self.write_of_slot(f, slot),
        }
    }
}
