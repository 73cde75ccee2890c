//! An entry in 24 bytes, as a record keeps it: what was asked is read off what was done. An entry is packed and unpacked here alone.

ghost use Rattle.std.specs.Prelude.{◌≡◌, ◌%◌, ◌^◌, ◌<◌, IfOk, vec_capacity};
ghost use Rattle.tp_record.specs.Asked.{asked};
ghost use Rattle.tp_record.specs.Packed.{did_of, entry_of, Fits16, HasSmallLook, HasSmallOffer, HasSmallSecond, HasSmallGrowth, HasSmallReserve, HasSmallSlots, looked_of, offered_of, seconded_of, grown_of, ruled_of, outcome_of, opened_of, failed_of, took_of, started_of, reserved_of, is_answer_yes};

use crate::entries::{
    Did, Entry, Failed, Grown, Looked, Offered, Opened, Ruled, Seconded, Started, Took,
};
use std::alloc::{AllocError, Global};
use std::marker::Model;
use std::mem::size_of;
use tp_types::configs::Verdict;
use tp_types::ids::{SlotId, TaskId};
use tp_types::tasks::{Kind, Outcome};

// Which step was made, with what the ask tells beside numbers.
#[derive(Clone, Copy)]
#[repr(u8)]
enum Step {
    SubmitPlain,
    SubmitFuture,
    SubmitGroup,
    Look,
    Offer,
    Second,
    Grow,
    Abort,
    CallerRuns,
    Discard,
    DiscardOldest,
    CallerEnd,
    Open,
    Fail,
    Take,
    Begin,
    End,
    Leave,
    Shutdown,
    Stop,
    Tidy,
    Ended,
    Remove,
    Purge,
    Cancel,
    CancelFlag,
    TakeDone,
    Core,
    Maximum,
    Keep,
    CoreTimeout,
    Tick,
    Prestart,
}

// What the step answered, without the numbers.
#[derive(Clone, Copy)]
#[repr(u8)]
enum Answer {
    Nothing,
    Reserve,
    Queue,
    Refuse,
    Queued,
    Hand,
    Full,
    Stay,
    StayReserve,
    Back,
    Rejected,
    Caller,
    Skip,
    Discarded,
    Retry,
    RetryDrop,
    Value,
    Fault,
    Live,
    GivenUp,
    GivenUpRefuse,
    Offer,
    Held,
    Head,
    Leave,
    Idle,
    Run,
    Yes,
    No,
}

/// An entry of a record, seen as the entry that it unpacks to.
#[derive(Drop)]
pub struct Packed {
    // An outcome's value, a group, ticks, or for how many slots a core size has `prestart` asked.
    value: u64,
    by: u32,
    // The task that the step is of, or that its slot gives.
    task: TaskId,
    // A priority, a size, a count, a fault's code, the task that a retry drops, or the slot that is reserved in place of one that left.
    number: u32,
    slot: u16,
    step: Step,
    answer: Answer,
}

// What stands where a step names no task, or no slot.
const NO_TASK: TaskId = TaskId(0);

const NO_SLOT: u16 = 0;

// What a step says that answers nothing, and has no number and no value.
const NOTHING: (Answer, u32, u64) = (Answer::Nothing, 0, 0);

// One more than the greatest u32.
const HALF: u64 = 1 << 32;

const _: () = prove!(size_of::<Packed>() == 24);

impl Model for Packed {
    ghost use Rattle.tp_record.specs.declared.entries.Entry.{Entry};
    ghost use Rattle.tp_record.specs.Packed.{did_of, entry_of};

    ghost Value = { Entry };

    ghost view = { λ p. entry_of p.by (did_of p.step p.answer p.task p.number (record { 0 = p.slot }) p.value) };
}

impl Packed {
    /// The entry, packed.
    #[inline(always)]
    pub fn pack(entry: Entry) -> Packed
        requires asked { entry.ask ≡ asked entry.did }
        requires slots { HasSmallSlots entry.did }
        ensures { result ≡ entry }
    {
        pack_did(entry.by, entry.did)
    }

    /// The number of the pass that asked for it.
    #[inline(always)]
    pub fn by(&self) -> u32
        ensures { result ≡ self.now.by }
    {
        self.by
    }

    /// The entry that was packed.
    pub fn unpack(&self) -> Entry
        ensures { result ≡ self.now }
    {
        let did = unpack_did(
            self.step,
            self.answer,
            self.task,
            self.number,
            SlotId(usize::from(self.slot)),
            self.value,
        );
        Entry {
            by: self.by,
            ask: did.ask(),
            did,
        }
    }
}

// The entry of a pass with this answer, packed.
#[inline(always)]
fn pack_did(by: u32, did: Did) -> Packed
    requires { HasSmallSlots did }
    ensures { result ≡ entry_of by did }
{
    match did {
        Did::Submit(t, kind, p, looked) => of_submit(by, t, kind, p, pack_looked(looked)),
        Did::Look(t, looked) => of_task(by, Step::Look, t, pack_looked(looked)),
        Did::Offer(t, offered) => of_task(by, Step::Offer, t, pack_offered(offered)),
        Did::Second(t, seconded) => of_task(by, Step::Second, t, pack_seconded(seconded)),
        Did::Grow(t, grown) => of_task(by, Step::Grow, t, pack_grown(grown)),
        Did::Verdict(t, verdict, ruled) => of_verdict(by, t, verdict, pack_ruled(ruled)),
        Did::CallerEnd(t, o) => of_parts(by, Step::CallerEnd, t, NO_SLOT, pack_outcome(o)),
        Did::Open(w, opened) => of_slot(by, Step::Open, small(w), pack_opened(opened)),
        Did::Fail(w, failed) => of_slot(by, Step::Fail, small(w), pack_failed(failed)),
        Did::Take(w, took) => of_slot(by, Step::Take, small(w), pack_took(took)),
        Did::Begin(w, started) => of_slot(by, Step::Begin, small(w), pack_started(started)),
        Did::End(w, t, o) => of_parts(by, Step::End, t, small(w), pack_outcome(o)),
        Did::Leave(w, reserved) => of_leave(by, small(w), pack_reserved(reserved)),
        Did::Shutdown => of_pool(by, Step::Shutdown, NOTHING),
        Did::Stop(count) => of_pool(by, Step::Stop, (Answer::Nothing, count, 0)),
        Did::Tidy => of_pool(by, Step::Tidy, NOTHING),
        Did::Ended => of_pool(by, Step::Ended, NOTHING),
        Did::Remove(t, gone) => of_task(by, Step::Remove, t, (yes_or_no(gone), NO_SLOT)),
        Did::Purge(count) => of_pool(by, Step::Purge, (Answer::Nothing, count, 0)),
        Did::Cancel(t, flag, done) => of_cancel(by, t, flag, yes_or_no(done)),
        Did::TakeDone(group, t) => of_parts(
            by,
            Step::TakeDone,
            t,
            NO_SLOT,
            (Answer::Nothing, group, 0),
        ),
        Did::Core(size, more) => of_pool(by, Step::Core, (Answer::Nothing, size, u64::from(more))),
        Did::Maximum(size) => of_pool(by, Step::Maximum, (Answer::Nothing, size, 0)),
        Did::Keep(ticks) => of_pool(by, Step::Keep, (Answer::Nothing, 0, ticks)),
        Did::CoreTimeout(on) => of_pool(by, Step::CoreTimeout, (yes_or_no(on), 0, 0)),
        Did::Tick(moment) => of_pool(by, Step::Tick, (Answer::Nothing, 0, moment)),
        Did::Prestart(reserved) => of_task(by, Step::Prestart, NO_TASK, pack_reserved(reserved)),
    }
}

// What was done, by what a packed entry keeps.
fn unpack_did(step: Step, a: Answer, t: TaskId, n: u32, w: SlotId, v: u64) -> Did
    ensures { result ≡ did_of step a t n w v }
{
    match step {
        Step::SubmitPlain => Did::Submit(t, Kind::Plain, n, unpack_looked(a, w)),
        Step::SubmitFuture => Did::Submit(t, Kind::Future, n, unpack_looked(a, w)),
        Step::SubmitGroup => Did::Submit(t, Kind::Group(low_half(v)), n, unpack_looked(a, w)),
        Step::Look => Did::Look(t, unpack_looked(a, w)),
        Step::Offer => Did::Offer(t, unpack_offered(a, w)),
        Step::Second => Did::Second(t, unpack_seconded(a, w)),
        Step::Grow => Did::Grow(t, unpack_grown(a, w)),
        Step::Abort => Did::Verdict(t, Verdict::Abort, unpack_ruled(a, n)),
        Step::CallerRuns => Did::Verdict(t, Verdict::CallerRuns, unpack_ruled(a, n)),
        Step::Discard => Did::Verdict(t, Verdict::Discard, unpack_ruled(a, n)),
        Step::DiscardOldest => Did::Verdict(t, Verdict::DiscardOldest, unpack_ruled(a, n)),
        Step::CallerEnd => Did::CallerEnd(t, unpack_outcome(a, n, v)),
        Step::Open => Did::Open(w, unpack_opened(a, t)),
        Step::Fail => Did::Fail(w, unpack_failed(a, t)),
        Step::Take => Did::Take(w, unpack_took(a, t)),
        Step::Begin => Did::Begin(w, unpack_started(a, t)),
        Step::End => Did::End(w, t, unpack_outcome(a, n, v)),
        Step::Leave => Did::Leave(w, unpack_reserved(a, SlotId(n as usize))),
        Step::Shutdown => Did::Shutdown,
        Step::Stop => Did::Stop(n),
        Step::Tidy => Did::Tidy,
        Step::Ended => Did::Ended,
        Step::Remove => Did::Remove(t, is_yes(a)),
        Step::Purge => Did::Purge(n),
        Step::Cancel => Did::Cancel(t, false, is_yes(a)),
        Step::CancelFlag => Did::Cancel(t, true, is_yes(a)),
        Step::TakeDone => Did::TakeDone(n, t),
        Step::Core => Did::Core(n, low_half(v)),
        Step::Maximum => Did::Maximum(n),
        Step::Keep => Did::Keep(v),
        Step::CoreTimeout => Did::CoreTimeout(is_yes(a)),
        Step::Tick => Did::Tick(v),
        Step::Prestart => Did::Prestart(unpack_reserved(a, w)),
    }
}

/// The entries that were packed, in their order. AllocError where there is no memory for them.
pub fn unpacked(alloc: Global, packed: &[Packed]) -> Result<Vec<Entry>, AllocError>
    ensures { IfOk result (λ v. v.items ≡ packed.now) }
{
    let mut entries = Vec::with_capacity(alloc, packed.len())?;
    for one in packed {
        entries.push_reserved(one.unpack());
    }
    Ok(entries)
}

// What stands in the room behind entries before an entry does.
const BLANK: Packed = Packed {
    value: 0,
    by: 0,
    task: NO_TASK,
    number: 0,
    slot: NO_SLOT,
    step: Step::Tidy,
    answer: Answer::Nothing,
};

/// Writes the room behind these entries once, so that no page of it is a new one where an entry is noted: a page that is touched
/// first within a hold is paid for by each thread that waits for the lock.
#[tactic(auto, using(crate::proofs::Rooms::front_kept, std::proofs::lemmas::List::take_all))]
pub fn write_room(entries: &mut Vec<Packed>)
    ensures same { entries.new.items ≡ entries.old.items }
    ensures room { vec_capacity entries.old ≡ vec_capacity entries.new }
{
    let count = entries.len();
    for _ in count..entries.capacity() {
        entries.push_reserved(BLANK);
    }
    entries.truncate(count);
}

// An entry by its parts: what the step answered, with a number and a value, and the task and the slot that it is of.
#[inline(always)]
fn of_parts(by: u32, step: Step, t: TaskId, slot: u16, said: (Answer, u32, u64)) -> Packed
    ensures { result ≡ entry_of by (did_of step said.0 t said.1 (record { 0 = slot }) said.2) }
{
    Packed {
        value: said.2,
        slot,
        by,
        task: t,
        number: said.1,
        step,
        answer: said.0,
    }
}

// An entry of a task's step, which names a slot or none.
#[inline(always)]
fn of_task(by: u32, step: Step, t: TaskId, said: (Answer, u16)) -> Packed
    ensures { result ≡ entry_of by (did_of step said.0 t 0 (record { 0 = said.1 }) 0) }
{
    of_parts(by, step, t, said.1, (said.0, 0, 0))
}

// An entry of a slot's step, which gives a task or none.
#[inline(always)]
fn of_slot(by: u32, step: Step, slot: u16, said: (Answer, TaskId)) -> Packed
    ensures { result ≡ entry_of by (did_of step said.0 said.1 0 (record { 0 = slot }) 0) }
{
    of_parts(by, step, said.1, slot, (said.0, 0, 0))
}

// An entry of the pool's, which names no task and no slot.
#[inline(always)]
fn of_pool(by: u32, step: Step, said: (Answer, u32, u64)) -> Packed
    ensures { result ≡ entry_of by (did_of step said.0 NO_TASK said.1 (record { 0 = 0 }) said.2) }
{
    of_parts(by, step, NO_TASK, NO_SLOT, said)
}

// An entry of a slot that is freed, with the one reserved in its place.
#[inline(always)]
fn of_leave(by: u32, slot: u16, said: (Answer, u16)) -> Packed
    ensures { result ≡ entry_of by (did_of Step.Leave said.0 NO_TASK said.1 (record { 0 = slot }) 0) }
{
    of_parts(
        by,
        Step::Leave,
        NO_TASK,
        slot,
        (said.0, u32::from(said.1), 0),
    )
}

// An entry of a submission.
#[inline(always)]
fn of_submit(by: u32, t: TaskId, kind: Kind, priority: u32, said: (Answer, u16)) -> Packed
    ensures { result ≡ entry_of by (Did.Submit t kind priority (looked_of said.0 (record { 0 = said.1 }))) }
{
    let (step, value) = match kind {
        Kind::Plain => (Step::SubmitPlain, 0),
        Kind::Future => (Step::SubmitFuture, 0),
        Kind::Group(group) => (Step::SubmitGroup, u64::from(group)),
    };
    of_parts(by, step, t, said.1, (said.0, priority, value))
}

// An entry of a verdict.
#[inline(always)]
fn of_verdict(by: u32, t: TaskId, verdict: Verdict, said: (Answer, u32)) -> Packed
    ensures { result ≡ entry_of by (Did.Verdict t verdict (ruled_of said.0 said.1)) }
{
    let step = match verdict {
        Verdict::Abort => Step::Abort,
        Verdict::CallerRuns => Step::CallerRuns,
        Verdict::Discard => Step::Discard,
        Verdict::DiscardOldest => Step::DiscardOldest,
    };
    of_parts(by, step, t, NO_SLOT, (said.0, said.1, 0))
}

// An entry of a cancel.
#[inline(always)]
fn of_cancel(by: u32, t: TaskId, flag: bool, answer: Answer) -> Packed
    ensures { result ≡ entry_of by (Did.Cancel t flag (is_answer_yes answer)) }
{
    let step = if flag { Step::CancelFlag } else { Step::Cancel };
    of_task(by, step, t, (answer, NO_SLOT))
}

// What a look answered, and its slot's number.
#[inline(always)]
fn pack_looked(looked: Looked) -> (Answer, u16)
    requires { HasSmallLook looked }
    ensures { looked_of result.0 (record { 0 = result.1 }) ≡ looked }
{
    match looked {
        Looked::Reserve(w) => (Answer::Reserve, small(w)),
        Looked::Queue => (Answer::Queue, NO_SLOT),
        Looked::Refuse => (Answer::Refuse, NO_SLOT),
    }
}

fn unpack_looked(answer: Answer, w: SlotId) -> Looked
    ensures { result ≡ looked_of answer w }
{
    match answer {
        Answer::Reserve => Looked::Reserve(w),
        Answer::Queue => Looked::Queue,
        _ => Looked::Refuse,
    }
}

// What an offer answered, and its slot's number.
#[inline(always)]
fn pack_offered(offered: Offered) -> (Answer, u16)
    requires { HasSmallOffer offered }
    ensures { offered_of result.0 (record { 0 = result.1 }) ≡ offered }
{
    match offered {
        Offered::Queued => (Answer::Queued, NO_SLOT),
        Offered::Hand(w) => (Answer::Hand, small(w)),
        Offered::Full => (Answer::Full, NO_SLOT),
    }
}

fn unpack_offered(answer: Answer, w: SlotId) -> Offered
    ensures { result ≡ offered_of answer w }
{
    match answer {
        Answer::Queued => Offered::Queued,
        Answer::Hand => Offered::Hand(w),
        _ => Offered::Full,
    }
}

// What a second look answered, and its slot's number.
#[inline(always)]
fn pack_seconded(seconded: Seconded) -> (Answer, u16)
    requires { HasSmallSecond seconded }
    ensures { seconded_of result.0 (record { 0 = result.1 }) ≡ seconded }
{
    match seconded {
        Seconded::Stay => (Answer::Stay, NO_SLOT),
        Seconded::StayReserve(w) => (Answer::StayReserve, small(w)),
        Seconded::Back => (Answer::Back, NO_SLOT),
    }
}

fn unpack_seconded(answer: Answer, w: SlotId) -> Seconded
    ensures { result ≡ seconded_of answer w }
{
    match answer {
        Answer::Stay => Seconded::Stay,
        Answer::StayReserve => Seconded::StayReserve(w),
        _ => Seconded::Back,
    }
}

// What an attempt to grow answered, and its slot's number.
#[inline(always)]
fn pack_grown(grown: Grown) -> (Answer, u16)
    requires { HasSmallGrowth grown }
    ensures { grown_of result.0 (record { 0 = result.1 }) ≡ grown }
{
    match grown {
        Grown::Reserve(w) => (Answer::Reserve, small(w)),
        Grown::Refuse => (Answer::Refuse, NO_SLOT),
    }
}

fn unpack_grown(answer: Answer, w: SlotId) -> Grown
    ensures { result ≡ grown_of answer w }
{
    match answer {
        Answer::Reserve => Grown::Reserve(w),
        _ => Grown::Refuse,
    }
}

// What a worker that was made answered, and its task's number.
#[inline(always)]
fn pack_opened(opened: Opened) -> (Answer, TaskId)
    ensures { opened_of result.0 result.1 ≡ opened }
{
    match opened {
        Opened::Live => (Answer::Live, NO_TASK),
        Opened::GivenUp => (Answer::GivenUp, NO_TASK),
        Opened::GivenUpRefuse(t) => (Answer::GivenUpRefuse, t),
    }
}

fn unpack_opened(answer: Answer, t: TaskId) -> Opened
    ensures { result ≡ opened_of answer t }
{
    match answer {
        Answer::Live => Opened::Live,
        Answer::GivenUp => Opened::GivenUp,
        _ => Opened::GivenUpRefuse(t),
    }
}

// What a failed worker answered, and its task's number.
#[inline(always)]
fn pack_failed(failed: Failed) -> (Answer, TaskId)
    ensures { failed_of result.0 result.1 ≡ failed }
{
    match failed {
        Failed::Nothing => (Answer::Nothing, NO_TASK),
        Failed::Offer(t) => (Answer::Offer, t),
        Failed::Refuse(t) => (Answer::Refuse, t),
    }
}

fn unpack_failed(answer: Answer, t: TaskId) -> Failed
    ensures { result ≡ failed_of answer t }
{
    match answer {
        Answer::Nothing => Failed::Nothing,
        Answer::Offer => Failed::Offer(t),
        _ => Failed::Refuse(t),
    }
}

// What a take answered, and its task's number.
#[inline(always)]
fn pack_took(took: Took) -> (Answer, TaskId)
    ensures { took_of result.0 result.1 ≡ took }
{
    match took {
        Took::Held(t) => (Answer::Held, t),
        Took::Head(t) => (Answer::Head, t),
        Took::Leave => (Answer::Leave, NO_TASK),
        Took::Idle => (Answer::Idle, NO_TASK),
    }
}

fn unpack_took(answer: Answer, t: TaskId) -> Took
    ensures { result ≡ took_of answer t }
{
    match answer {
        Answer::Held => Took::Held(t),
        Answer::Head => Took::Head(t),
        Answer::Leave => Took::Leave,
        _ => Took::Idle,
    }
}

// What a begin answered, and its task's number.
#[inline(always)]
fn pack_started(started: Started) -> (Answer, TaskId)
    ensures { started_of result.0 result.1 ≡ started }
{
    match started {
        Started::Run(t) => (Answer::Run, t),
        Started::Skip(t) => (Answer::Skip, t),
    }
}

fn unpack_started(answer: Answer, t: TaskId) -> Started
    ensures { result ≡ started_of answer t }
{
    match answer {
        Answer::Run => Started::Run(t),
        _ => Started::Skip(t),
    }
}

// What became of a task by its verdict, and the number of the task that is dropped.
#[inline(always)]
fn pack_ruled(ruled: Ruled) -> (Answer, u32)
    ensures { ruled_of result.0 result.1 ≡ ruled }
{
    match ruled {
        Ruled::Rejected => (Answer::Rejected, 0),
        Ruled::Caller => (Answer::Caller, 0),
        Ruled::Skip => (Answer::Skip, 0),
        Ruled::Discarded => (Answer::Discarded, 0),
        Ruled::Retry => (Answer::Retry, 0),
        Ruled::RetryDrop(t) => (Answer::RetryDrop, t.0),
    }
}

fn unpack_ruled(answer: Answer, number: u32) -> Ruled
    ensures { result ≡ ruled_of answer number }
{
    match answer {
        Answer::Rejected => Ruled::Rejected,
        Answer::Caller => Ruled::Caller,
        Answer::Skip => Ruled::Skip,
        Answer::Discarded => Ruled::Discarded,
        Answer::Retry => Ruled::Retry,
        _ => Ruled::RetryDrop(TaskId(number)),
    }
}

// How a task ended, with a fault's code or a value.
#[inline(always)]
fn pack_outcome(outcome: Outcome) -> (Answer, u32, u64)
    ensures { outcome_of result.0 result.1 result.2 ≡ outcome }
{
    match outcome {
        Ok(value) => (Answer::Value, 0, value.cast_unsigned()),
        Err(code) => (Answer::Fault, code, 0),
    }
}

fn unpack_outcome(answer: Answer, number: u32, value: u64) -> Outcome
    ensures { result ≡ outcome_of answer number value }
{
    match answer {
        Answer::Value => Ok(value.cast_signed()),
        _ => Err(number),
    }
}

// The slot that is reserved, if one is.
#[inline(always)]
fn pack_reserved(reserved: Option<SlotId>) -> (Answer, u16)
    requires { HasSmallReserve reserved }
    ensures { reserved_of result.0 (record { 0 = result.1 }) ≡ reserved }
{
    match reserved {
        Some(w) => (Answer::Reserve, small(w)),
        None => (Answer::Nothing, NO_SLOT),
    }
}

fn unpack_reserved(answer: Answer, w: SlotId) -> Option<SlotId>
    ensures { result ≡ reserved_of answer w }
{
    match answer {
        Answer::Reserve => Some(w),
        _ => None,
    }
}

#[inline(always)]
fn yes_or_no(yes: bool) -> Answer
    ensures { is_answer_yes result ≡ yes }
{
    if yes { Answer::Yes } else { Answer::No }
}

fn is_yes(answer: Answer) -> bool
    ensures { result ≡ is_answer_yes answer }
{
    matches!(answer, Answer::Yes)
}

// The number of a slot, where it is small.
#[inline(always)]
fn small(w: SlotId) -> u16
    requires { Fits16 w }
    ensures { result ≡ w.0 }
{
    w.0 as u16
}

// The number below 2^32 that a value is.
fn low_half(value: u64) -> u32
    ensures { result ≡ value % 2 ^ 32 }
{
    (value % HALF) as u32
}
