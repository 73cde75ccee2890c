//! A worker's turns at a stand-in for its pool, which answers by a script and keeps each deed; and the path of a task's submission.

use crate::calls::{Call, Said, Tested};
use anyhow::anyhow;
use std::alloc::Global;
use std::sync::Wait;
use tp_protocols::deeds::{Deed, Departed, EndAnswer, Taken};
use tp_protocols::flags::CancelFlag;
use tp_protocols::gates::Point;
use tp_protocols::jobs::Job;
use tp_protocols::paths::{Next, follows};
use tp_protocols::turns::{BeginAnswer, Turn, Workplace, one_turn};
use tp_text_record::entries::read_entry;
use tp_text_record::versions::Version;
use tp_types::ids::{SlotId, TaskId};
use tp_types::tasks::{Outcome, Promise, WIDEST, as_widest};

const TASK: TaskId = TaskId(3);

/// A job that ends so.
#[derive(Drop)]
struct Fixed(Outcome);

impl Job for Fixed {
    ghost use Rattle.tp_types.specs.declared.tasks.TheConstants.{WIDEST};

    ghost promised = { λ _. WIDEST };

    fn promise(&self) -> Promise {
        WIDEST
    }

    fn call(&mut self, _cancel: &CancelFlag) -> Outcome {
        as_widest(self.0)
    }
}

/// What a turn is to meet: what its `take` and its `begin` come to, and whether its job faults.
fn script(name: &str) -> anyhow::Result<(Taken, Deed, bool)> {
    match name {
        "leaves" => Ok((Taken::Left, Deed::Unbegun, false)),
        "noslot" => Ok((Taken::Refused, Deed::Unbegun, false)),
        "notask" => Ok((Taken::Task, Deed::Unbegun, false)),
        "cancelled" => Ok((Taken::Task, Deed::Skipped(TASK), false)),
        "runs" => Ok((Taken::Task, Deed::Began(TASK), false)),
        "dies" => Ok((Taken::Task, Deed::Began(TASK), true)),
        _ => Err(anyhow!("no such script")),
    }
}

/// A pool by a script, with the deeds so far.
#[derive(Drop)]
struct Stage {
    taken: Taken,
    begun: Deed,
    faults: bool,
    flag: CancelFlag,
    deeds: Vec<Deed>,
}

impl Stage {
    fn note(&mut self, deed: Deed) {
        let _ = self.deeds.push(deed);
    }
}

impl<R: Wait> Workplace<Fixed, R> for Stage {
    ghost did = { λ _ _ _. Unit {0} };

    ghost owes = { λ _ _. Unit {0} };

    fn pass(&mut self, p: Point) {
        self.note(Deed::Passed(p));
    }

    fn take(&mut self, _rt: &R) -> Taken {
        self.note(Deed::Took(self.taken));
        self.taken
    }

    fn begin(&mut self, _rt: &R) -> BeginAnswer<Fixed> {
        self.note(self.begun);
        match self.begun {
            Deed::Began(t) => BeginAnswer::Run(t, Fixed(if self.faults { Err(9) } else { Ok(5) })),
            Deed::Skipped(t) => BeginAnswer::Skip(t),
            _ => BeginAnswer::Refused,
        }
    }

    fn before(&mut self, _rt: &R, t: TaskId) {
        self.note(Deed::Before(t));
    }

    fn run(&mut self, job: Fixed) -> Outcome {
        let mut job = job;
        let outcome = job.call(&self.flag);
        self.note(Deed::Ran(outcome));
        outcome
    }

    fn after(&mut self, _rt: &R, t: TaskId, outcome: Option<Outcome>) {
        self.note(Deed::After(t, outcome));
    }

    fn end(&mut self, _rt: &R, outcome: Outcome) -> EndAnswer {
        let ended = if self.faults {
            EndAnswer::Dying
        } else {
            EndAnswer::Live
        };
        self.note(Deed::Ended(outcome, ended));
        ended
    }

    fn leave(&mut self, _rt: &R) -> Departed {
        let departed = Departed::Replaced(SlotId(2));
        self.note(Deed::Left(departed));
        departed
    }

    fn replace(&mut self, _rt: &R, w: SlotId) {
        self.note(Deed::Replaced(w));
    }

    fn tidy(&mut self, _rt: &R) {
        self.note(Deed::Tidied);
    }
}

/// How a turn went, and what was done in it.
#[derive(Drop)]
pub struct Turned(Turn, Vec<Deed>);

/// A turn by the script of this name.
pub fn scripted<R: Wait>(rt: &R, alloc: Global, name: &str) -> anyhow::Result<Turned> {
    let (taken, begun, faults) = script(name)?;
    let mut stage = Stage {
        taken,
        begun,
        faults,
        flag: CancelFlag::new(alloc)?,
        deeds: Vec::new(alloc),
    };
    let turn = one_turn(rt, &mut stage);
    Ok(Turned(turn, stage.deeds))
}

impl Tested for Turned {
    fn answer(&mut self, call: &Call<'_>) -> Said {
        match call.name {
            "turn" => call.says(&self.0),
            "deed" => call.says(&self.1.get(call.size()?)),
            _ => None,
        }
    }
}

/// The task whose submission is followed.
const SUBMITTED: TaskId = TaskId(7);

/// The path of its submission: what follows next; none before its first answer.
#[derive(Drop)]
pub struct Path(pub Option<Next>);

impl Tested for Path {
    fn answer(&mut self, call: &Call<'_>) -> Said {
        let (_, entry) = read_entry(Version::Two, call.line.as_bytes())?;
        let next = match self.0 {
            None => follows(SUBMITTED, &entry.did),
            Some(next) => next.after(SUBMITTED, &entry.did),
        };
        self.0 = Some(next);
        call.says(&next)
    }
}
