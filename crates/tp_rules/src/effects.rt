//! What one entry says of one task or slot, by the working tables.

ghost use Rattle.std.specs.Prelude.{◌≡◌, ℕ, Bool, false, None, IfSome, IfNone};
ghost use Rattle.tp_record.specs.Lists.{said_of};
ghost use Rattle.tp_record.specs.Effects as effects;
ghost use Rattle.tp_record.specs.Fields as fields;
ghost use Rattle.tp_types.specs.declared.tasks.Kind.{Kind};

use tp_record::entries::{
    Did, Failed, Grown, Looked, Offered, Opened, Ruled, Seconded, Started, Took,
};
use tp_record::rows::Stage;
use tp_types::ids::{SlotId, TaskId};
use tp_types::tasks::{Fate, Kind, Outcome, Place};

/// Where a look puts its task.
pub fn place_looked(looked: Looked) -> Place
    ensures { result ≡ effects.place_looked looked }
{
    match looked {
        Looked::Reserve(w) => Place::Held(w),
        Looked::Queue => Place::ToOffer,
        Looked::Refuse => Place::Refused,
    }
}

/// Where an offer puts its task.
pub fn place_offered(offered: Offered) -> Place
    ensures { result ≡ effects.place_offered offered }
{
    match offered {
        Offered::Queued => Place::Queued,
        Offered::Hand(w) => Place::Held(w),
        Offered::Full => Place::ToGrow,
    }
}

/// Where an attempt to grow puts its task.
pub fn place_grown(grown: Grown) -> Place
    ensures { result ≡ effects.place_grown grown }
{
    match grown {
        Grown::Reserve(w) => Place::Held(w),
        Grown::Refuse => Place::Refused,
    }
}

/// Where a verdict's answer puts task `t`, the verdict being on task `u`.
pub fn place_ruled(u: TaskId, ruled: Ruled, t: TaskId) -> Option<Place>
    ensures { result ≡ said_of t.0 (effects.moved_ruled u.0 ruled) }
{
    match ruled {
        Ruled::Rejected | Ruled::Skip | Ruled::Discarded => (t == u).then_some(Place::Gone),
        Ruled::Caller => (t == u).then_some(Place::Caller),
        Ruled::Retry => (t == u).then_some(Place::Looking),
        Ruled::RetryDrop(x) => {
            if t == u {
                Some(Place::Looking)
            } else {
                (t == x).then_some(Place::Gone)
            }
        }
    }
}

/// Where an entry that names task `t` puts it.
pub fn moved_to(did: Did, t: TaskId) -> Option<Place>
    ensures { result ≡ said_of t.0 (effects.moved did) }
{
    match did {
        Did::Submit(u, _, _, looked) => (t == u).then_some(place_looked(looked)),
        Did::Look(u, looked) => (t == u).then_some(place_looked(looked)),
        Did::Offer(u, offered) => (t == u).then_some(place_offered(offered)),
        Did::Second(u, Seconded::Back) => (t == u).then_some(Place::Refused),
        Did::Grow(u, grown) => (t == u).then_some(place_grown(grown)),
        Did::Verdict(u, _, ruled) => place_ruled(u, ruled, t),
        Did::CallerEnd(u, _) => (t == u).then_some(Place::Gone),
        Did::Open(_, Opened::GivenUpRefuse(u)) => (t == u).then_some(Place::Refused),
        Did::Fail(_, Failed::Offer(u)) => (t == u).then_some(Place::ToOffer),
        Did::Fail(_, Failed::Refuse(u)) => (t == u).then_some(Place::Refused),
        Did::Take(w, Took::Held(u)) => (t == u).then_some(Place::Taken(w)),
        Did::Take(w, Took::Head(u)) => (t == u).then_some(Place::Taken(w)),
        Did::Begin(w, Started::Run(u)) => (t == u).then_some(Place::Running(w)),
        Did::Begin(_, Started::Skip(u)) => (t == u).then_some(Place::Gone),
        Did::End(_, u, _) => (t == u).then_some(Place::Gone),
        Did::Remove(u, true) => (t == u).then_some(Place::Gone),
        _ => None,
    }
}

/// Whether an entry finishes a task that it need not name.
pub fn sweeps(did: Did, cancelled: bool, place: Place) -> bool
    ensures { result ≡ fields.sweeps did cancelled place }
{
    match did {
        Did::Stop(_) => place == Place::Queued,
        Did::Purge(_) => place == Place::Queued && cancelled,
        _ => false,
    }
}

/// The place of a task that an entry does not name.
pub fn swept(did: Did, cancelled: bool, place: Place) -> Place
    ensures { result ≡ fields.swept did cancelled place }
{
    if sweeps(did, cancelled, place) {
        Place::Gone
    } else {
        place
    }
}

/// The kind that an entry says of task `t`.
pub fn kind_said(did: Did, t: TaskId) -> Option<Kind>
    ensures { result ≡ said_of t.0 (effects.kinds_said did) }
{
    match did {
        Did::Submit(u, kind, _, _) => (t == u).then_some(kind),
        _ => None,
    }
}

/// The priority that an entry says of task `t`.
pub fn priority_said(did: Did, t: TaskId) -> Option<u32>
    ensures { result ≡ said_of t.0 (effects.priorities_said did) }
{
    match did {
        Did::Submit(u, _, priority, _) => (t == u).then_some(priority),
        _ => None,
    }
}

/// Whether task `t` comes to owe a second look, or pays it.
pub fn second_said(did: Did, t: TaskId) -> Option<bool>
    ensures { result ≡ said_of t.0 (effects.seconds did) }
{
    match did {
        Did::Submit(u, _, _, _) => (t == u).then_some(false),
        Did::Offer(u, Offered::Queued) => (t == u).then_some(true),
        Did::Offer(u, Offered::Hand(_)) => (t == u).then_some(true),
        Did::Second(u, _) => (t == u).then_some(false),
        _ => None,
    }
}

/// Whether an entry cancels task `t`, or submits it.
pub fn cancel_said(did: Did, t: TaskId) -> Option<bool>
    ensures { result ≡ said_of t.0 (effects.cancels did) }
{
    match did {
        Did::Submit(u, _, _, _) => (t == u).then_some(false),
        Did::Cancel(u, _, true) => (t == u).then_some(true),
        _ => None,
    }
}

/// The fate that an entry which names task `t` gives it, unless it is cancelled.
pub fn ending_said(did: Did, t: TaskId) -> Option<Option<Fate>>
    ensures { result ≡ said_of t.0 (effects.endings did) }
{
    match did {
        Did::Submit(u, _, _, _) => (t == u).then_some(None),
        Did::Verdict(u, _, Ruled::Rejected) => (t == u).then_some(Some(Fate::Rejected)),
        Did::Verdict(u, _, Ruled::Discarded) => (t == u).then_some(Some(Fate::Discarded)),
        Did::Verdict(_, _, Ruled::RetryDrop(x)) => (t == x).then_some(Some(Fate::Discarded)),
        Did::CallerEnd(u, _) => (t == u).then_some(Some(Fate::RunByCaller)),
        Did::End(_, u, _) => (t == u).then_some(Some(Fate::Run)),
        Did::Remove(u, true) => (t == u).then_some(Some(Fate::Removed)),
        _ => None,
    }
}

/// The fate of a task that an entry does not name, cancelled aside.
pub fn handed_back(did: Did, place: Place, ending: Option<Fate>) -> Option<Fate>
    ensures { result ≡ fields.handed_back did place ending }
{
    match did {
        Did::Stop(_) if place == Place::Queued => Some(Fate::HandedBack),
        _ => ending,
    }
}

/// How an entry says that the body of task `t` ended.
pub fn outcome_said(did: Did, t: TaskId) -> Option<Option<Outcome>>
    ensures { result ≡ said_of t.0 (effects.outcomes did) }
{
    match did {
        Did::Submit(u, _, _, _) => (t == u).then_some(None),
        Did::CallerEnd(u, outcome) => (t == u).then_some(Some(outcome)),
        Did::End(_, u, outcome) => (t == u).then_some(Some(outcome)),
        _ => None,
    }
}

/// Whether the retries of task `t` begin anew (false), or it retries (true).
pub fn retry_said(did: Did, t: TaskId) -> Option<bool>
    ensures { result ≡ said_of t.0 (effects.tries did) }
{
    match did {
        Did::Submit(u, _, _, _) => (t == u).then_some(false),
        Did::Verdict(u, _, Ruled::Retry) => (t == u).then_some(true),
        Did::Verdict(u, _, Ruled::RetryDrop(_)) => (t == u).then_some(true),
        _ => None,
    }
}

/// Whether an entry submits.
pub fn is_submit(did: Did) -> bool
    ensures { result ≡ effects.is_submit did }
{
    matches!(did, Did::Submit(..))
}

/// Whether an entry counts as completed.
pub fn is_completion(did: Did) -> bool
    ensures { result ≡ effects.is_completion did }
{
    matches!(did, Did::End(..) | Did::Begin(_, Started::Skip(_)))
}

/// Whether a kind is that of a group.
pub fn is_group(kind: Kind) -> bool
    ensures { result ≡ effects.is_group kind }
{
    matches!(kind, Kind::Group(_))
}

/// The task that an entry ends or cancels, so that it may complete it.
pub fn closed_by(did: Did) -> Option<TaskId>
    ensures named { IfSome result (λ t. (kind_of : ℕ → Kind) (cancelled_of : ℕ → Bool) →
        effects.completes did kind_of cancelled_of ≡ effects.completes did (λ _. kind_of t.0) (λ _. cancelled_of t.0)) }
    ensures faults { IfSome result (λ t. (kind_of : ℕ → Kind) →
        effects.is_plain_fault did kind_of ≡ effects.is_plain_fault did (λ _. kind_of t.0)) }
    ensures none { IfNone result ((kind_of : ℕ → Kind) (cancelled_of : ℕ → Bool) →
        effects.completes did kind_of cancelled_of ≡ None) }
    ensures no_fault { IfNone result ((kind_of : ℕ → Kind) → effects.is_plain_fault did kind_of ≡ false) }
{
    match did {
        Did::End(_, t, _) | Did::CallerEnd(t, _) | Did::Cancel(t, _, true) => Some(t),
        _ => None,
    }
}

/// Whether an entry ends a plain task with a fault, `kind` being the kind of the task that it ends.
pub fn is_plain_fault(did: Did, kind: Kind) -> bool
    ensures { result ≡ effects.is_plain_fault did (λ _. kind) }
{
    match did {
        Did::End(_, _, Err(_)) => kind == Kind::Plain,
        _ => false,
    }
}

/// The task of a group that an entry completes: by its cancel, or by its end where it is not cancelled. `kind` and
/// `cancelled` are those of the task that it cancels or ends.
pub fn completed_by(did: Did, kind: Kind, cancelled: bool) -> Option<u32>
    ensures { result ≡ effects.completes did (λ _. kind) (λ _. cancelled) }
{
    match did {
        Did::Cancel(t, _, true) => is_group(kind).then_some(t.0),
        Did::End(_, t, _) | Did::CallerEnd(t, _) => (is_group(kind) && !cancelled).then_some(t.0),
        _ => None,
    }
}

/// The run state that an entry reaches.
pub fn reaches(did: Did) -> u8
    ensures { result ≡ effects.reaches did }
{
    match did {
        Did::Shutdown => 1,
        Did::Stop(_) => 2,
        Did::Tidy => 3,
        Did::Ended => 4,
        _ => 0,
    }
}

/// The task that an entry puts in the queue.
pub fn queued_by(did: Did) -> Option<u32>
    ensures { result ≡ effects.queues did }
{
    match did {
        Did::Offer(t, Offered::Queued) => Some(t.0),
        _ => None,
    }
}

/// The slot that a look reserves.
pub fn reserved_looked(looked: Looked) -> Option<usize>
    ensures { result ≡ effects.reserved_looked looked }
{
    match looked {
        Looked::Reserve(w) => Some(w.0),
        _ => None,
    }
}

/// The slot that an entry reserves.
pub fn reserved_by(did: Did) -> Option<usize>
    ensures { result ≡ effects.reserves did }
{
    match did {
        Did::Submit(_, _, _, looked) | Did::Look(_, looked) => reserved_looked(looked),
        Did::Second(_, Seconded::StayReserve(w)) => Some(w.0),
        Did::Grow(_, Grown::Reserve(w)) => Some(w.0),
        Did::Leave(_, Some(w)) => Some(w.0),
        Did::Prestart(Some(w)) => Some(w.0),
        _ => None,
    }
}

/// The slot that an entry frees.
pub fn freed_by(did: Did) -> Option<usize>
    ensures { result ≡ effects.frees did }
{
    match did {
        Did::Open(w, Opened::GivenUp) | Did::Open(w, Opened::GivenUpRefuse(_)) => Some(w.0),
        Did::Fail(w, _) | Did::Take(w, Took::Leave) | Did::Leave(w, _) => Some(w.0),
        _ => None,
    }
}

/// Whether an entry makes number `w` a slot (true), or frees it (false).
pub fn hold_said(did: Did, w: SlotId) -> Option<bool>
    ensures { result ≡ said_of w.0 (effects.holds did) }
{
    if reserved_by(did) == Some(w.0) {
        Some(true)
    } else {
        (freed_by(did) == Some(w.0)).then_some(false)
    }
}

/// The stage in which an entry leaves slot `w`, where it names it and does not free it; `now` is the moment before it,
/// and `dies` says that it ends a plain task with a fault.
pub fn turned_to(now: u64, dies: bool, did: Did, w: SlotId) -> Option<Stage>
    ensures { result ≡ said_of w.0 (effects.turned now dies did) }
{
    match did {
        Did::Submit(_, _, _, Looked::Reserve(v)) => (w == v).then_some(Stage::ReservedCore),
        Did::Look(_, Looked::Reserve(v)) => (w == v).then_some(Stage::ReservedCore),
        Did::Offer(_, Offered::Hand(v)) => (w == v).then_some(Stage::Working),
        Did::Second(_, Seconded::StayReserve(v)) => (w == v).then_some(Stage::ReservedBare),
        Did::Grow(_, Grown::Reserve(v)) => (w == v).then_some(Stage::ReservedMaximum),
        Did::Open(v, Opened::Live) => (w == v).then_some(Stage::Working),
        Did::Take(v, Took::Held(_)) => (w == v).then_some(Stage::Working),
        Did::Take(v, Took::Head(_)) => (w == v).then_some(Stage::Working),
        Did::Take(v, Took::Idle) => (w == v).then_some(Stage::Idle(now)),
        Did::Begin(v, _) => (w == v).then_some(Stage::Working),
        Did::End(v, _, _) if dies => (w == v).then_some(Stage::Dying),
        Did::End(v, _, _) => (w == v).then_some(Stage::Working),
        Did::Leave(_, Some(v)) => (w == v).then_some(Stage::ReservedBare),
        Did::Prestart(Some(v)) => (w == v).then_some(Stage::ReservedBare),
        _ => None,
    }
}

/// The stage of a slot that an entry does not name.
pub fn woken(did: Did, stage: Stage) -> Stage
    ensures { result ≡ fields.woken did stage }
{
    match did {
        Did::Shutdown | Did::Stop(_) => stage.woken(),
        _ => stage,
    }
}

/// The task that an entry leaves in slot `w`, where it names it.
pub fn seat_said(did: Did, w: SlotId) -> Option<Option<TaskId>>
    ensures { result ≡ said_of w.0 (effects.seated did) }
{
    match did {
        Did::Submit(t, _, _, Looked::Reserve(v)) => (w == v).then_some(Some(t)),
        Did::Look(t, Looked::Reserve(v)) => (w == v).then_some(Some(t)),
        Did::Offer(t, Offered::Hand(v)) => (w == v).then_some(Some(t)),
        Did::Second(_, Seconded::StayReserve(v)) => (w == v).then_some(None),
        Did::Grow(t, Grown::Reserve(v)) => (w == v).then_some(Some(t)),
        Did::Open(_, Opened::Live) => None,
        Did::Open(v, _) => (w == v).then_some(None),
        Did::Fail(v, _) => (w == v).then_some(None),
        Did::Take(v, Took::Held(t)) => (w == v).then_some(Some(t)),
        Did::Take(v, Took::Head(t)) => (w == v).then_some(Some(t)),
        Did::Take(v, _) => (w == v).then_some(None),
        Did::Begin(v, Started::Run(t)) => (w == v).then_some(Some(t)),
        Did::Begin(v, Started::Skip(_)) => (w == v).then_some(None),
        Did::End(v, _, _) => (w == v).then_some(None),
        Did::Leave(v, Some(u)) => (w == u || w == v).then_some(None),
        Did::Leave(v, None) => (w == v).then_some(None),
        Did::Prestart(Some(v)) => (w == v).then_some(None),
        _ => None,
    }
}

/// The slot that an entry leaves idle.
pub fn idled_by(did: Did) -> Option<usize>
    ensures { result ≡ effects.idles did }
{
    match did {
        Did::Take(w, Took::Idle) => Some(w.0),
        _ => None,
    }
}

/// Whether an entry hands out the completion of task `t` (false), or submits it (false).
pub fn hand_out_said(did: Did, t: TaskId) -> Option<bool>
    ensures { result ≡ said_of t.0 (effects.hands_out did) }
{
    match did {
        Did::Submit(u, _, _, _) => (t == u).then_some(false),
        Did::TakeDone(_, u) => (t == u).then_some(false),
        _ => None,
    }
}

/// The core size that an entry sets.
pub fn core_said(did: Did) -> Option<u32>
    ensures { result ≡ effects.sets_core did }
{
    match did {
        Did::Core(size, _) => Some(size),
        _ => None,
    }
}

/// The maximum size that an entry sets.
pub fn maximum_said(did: Did) -> Option<u32>
    ensures { result ≡ effects.sets_maximum did }
{
    match did {
        Did::Maximum(size) => Some(size),
        _ => None,
    }
}

/// The keep-alive that an entry sets.
pub fn keep_said(did: Did) -> Option<u64>
    ensures { result ≡ effects.sets_keep did }
{
    match did {
        Did::Keep(ticks) => Some(ticks),
        _ => None,
    }
}

/// Whether core workers time out, as an entry sets it.
pub fn core_timeout_said(did: Did) -> Option<bool>
    ensures { result ≡ effects.sets_core_timeout did }
{
    match did {
        Did::CoreTimeout(on) => Some(on),
        _ => None,
    }
}

/// The moment that an entry sets.
pub fn now_said(did: Did) -> Option<u64>
    ensures { result ≡ effects.sets_now did }
{
    match did {
        Did::Tick(ticks) => Some(ticks),
        _ => None,
    }
}
