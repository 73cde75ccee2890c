//! How far a caller is.
ghost use Rattle.std.specs.Prelude.{◌≡◌};
ghost use Rattle.tp_record.specs.State as states;
ghost use Rattle.tp_rules.specs.PlainState.{shown};
ghost use Rattle.tp_explore.specs.Moves as moves;
ghost use Rattle.tp_explore.specs.Situation as situation;

use tp_record::entries::{Did, Opened, Seconded};
use tp_rules::next::{slot_of, task_at};
use tp_rules::plain_state::PlainState;
use tp_types::ids::{SlotId, TaskId};
use tp_types::tasks::Place;

/// What a caller does in its call.
#[derive(Clone, Copy, Debug, PartialEq, Eq, Hash)]
pub enum Doing {
    /// It has not begun.
    Nothing,
    /// It submits this task.
    Submitting(TaskId),
    /// It starts so many workers yet, while tasks are queued.
    Starting(u32),
    /// It has this slot's worker made, and then starts so many yet.
    Staffing(SlotId, u32),
}

/// How far a caller is.
#[derive(Clone, Copy, Debug, PartialEq, Eq, Hash)]
pub struct Caller {
    /// How many of its calls are left, the one that it makes among them.
    pub left: usize,
    /// What it does in this call.
    pub doing: Doing,
}

// Whether a slot is reserved.
fn is_reserved(pool: &PlainState, w: SlotId) -> bool
    ensures { result ≡ situation.is_reserved_row (states.slot_at pool.now.slots.items w.0) }
{
    match slot_of(pool, w) {
        None => false,
        Some(row) => row.stage.is_reserved(),
    }
}

// Whether a task in this place is with its submitter.
fn is_with_submitter(pool: &PlainState, place: Place) -> bool
    ensures { result ≡ situation.is_with_submitter (shown pool.now) place }
{
    match place {
        Place::Looking | Place::ToOffer | Place::ToGrow | Place::Refused | Place::Caller => true,
        Place::Held(w) => is_reserved(pool, w),
        Place::Queued | Place::Taken(_) | Place::Running(_) | Place::Gone => false,
    }
}

// Whether a submitter has more to do for its task.
fn goes_on(pool: &PlainState, t: TaskId) -> bool
    ensures { result ≡ situation.goes_on (shown pool.now) t.0 }
{
    let row = task_at(pool, t);
    row.second || is_with_submitter(pool, row.place)
}

impl Caller {
    /// Before so many calls.
    pub fn before(left: usize) -> Caller
        ensures { result ≡ moves.before left }
    {
        Caller {
            left,
            doing: Doing::Nothing,
        }
    }

    /// Before the call behind this one.
    pub fn next_call(self) -> Caller
        ensures { result ≡ moves.next_call self }
    {
        Caller::before(self.left.saturating_sub(1))
    }

    // In the same call.
    fn with(self, doing: Doing) -> Caller
        ensures { result ≡ record self { doing = doing } }
    {
        Caller {
            left: self.left,
            doing,
        }
    }

    // After an answer on the path of task `t`.
    fn along(self, after: &PlainState, t: TaskId) -> Caller
        ensures { result ≡ moves.along (shown after.now) self t }
    {
        if goes_on(after, t) {
            self.with(Doing::Submitting(t))
        } else {
            self.next_call()
        }
    }

    // With so many workers to start.
    fn starting(self, more: u32) -> Caller
        ensures { result ≡ moves.starting self more }
    {
        if more == 0 {
            self.next_call()
        } else {
            self.with(Doing::Starting(more))
        }
    }

    // After the first answer of a call.
    fn begun(self, after: &PlainState, did: Did) -> Caller
        ensures { result ≡ moves.begun (shown after.now) self did }
    {
        match did {
            Did::Submit(t, _, _, _) => self.along(after, t),
            Did::Core(_, more) => self.starting(more),
            Did::Prestart(Some(w)) => self.with(Doing::Staffing(w, 0)),
            _ => self.next_call(),
        }
    }

    // After an answer on the path of task `t`, which may have reserved a slot without a task.
    fn submitted(self, after: &PlainState, t: TaskId, did: Did) -> Caller
        ensures { result ≡ moves.submitting (shown after.now) self t did }
    {
        match did {
            Did::Second(_, Seconded::StayReserve(w)) => self.with(Doing::Staffing(w, 0)),
            _ => self.along(after, t),
        }
    }

    // After the answer to a start, before so many more.
    fn started(self, more: u32, did: Did) -> Caller
        ensures { result ≡ moves.started self more did }
    {
        match did {
            Did::Prestart(Some(w)) => self.with(Doing::Staffing(w, more)),
            _ => self.next_call(),
        }
    }

    // After the slot was opened or given back, before so many more starts.
    fn staffed(self, more: u32, did: Did) -> Caller
        ensures { result ≡ moves.staffed self more did }
    {
        match did {
            Did::Open(_, Opened::Live) => self.starting(more),
            _ => self.next_call(),
        }
    }

    /// After an answer to what it asked; `after` is the pool then.
    pub fn after(self, after: &PlainState, did: Did) -> Caller
        ensures { result ≡ moves.after (shown after.now) self did }
    {
        match self.doing {
            Doing::Nothing => self.begun(after, did),
            Doing::Submitting(t) => self.submitted(after, t, did),
            Doing::Starting(more) => self.started(more.saturating_sub(1), did),
            Doing::Staffing(_, more) => self.staffed(more, did),
        }
    }

    /// Whether it has this slot's worker made.
    pub fn staffs(self, pool: &PlainState, w: SlotId) -> bool
        ensures { result ≡ situation.staffs (shown pool.now) w.0 self }
    {
        match self.doing {
            Doing::Submitting(t) => match task_at(pool, t).place {
                Place::Held(v) => w == v,
                _ => false,
            },
            Doing::Staffing(v, _) => w == v,
            Doing::Nothing | Doing::Starting(_) => false,
        }
    }
}
