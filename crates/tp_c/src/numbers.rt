//! What was done as plain numbers, as it goes to C.

ghost use Rattle.std.specs.Prelude.{ℕ, ◌≡◌};
ghost use Rattle.tp_types.specs.declared.tasks.Kind.{Kind as KindOf};
ghost use Rattle.tp_types.specs.declared.configs.Verdict.{Verdict as VerdictOf};
ghost use Rattle.tp_c.specs.Numbers.{answer_of as numbers_answered, has_left as leaves, says_effect, says_reserved};

use crate::answers::Answer;
use tp_machine::answers::Begun;
use tp_machine::steps::Stepped;
use tp_record::entries::{
    Did, Failed, Grown, Looked, Offered, Opened, Ruled, Seconded, Started, Took,
};
use tp_types::ids::{SlotId, TaskId};

// What answers say, by number.
const DONE: u32 = 0;

const RESERVE: u32 = 1;

const QUEUE: u32 = 2;

const REFUSE: u32 = 3;

const QUEUED: u32 = 4;

const HAND: u32 = 5;

const FULL: u32 = 6;

const STAY: u32 = 7;

const STAY_RESERVE: u32 = 8;

const BACK: u32 = 9;

const REJECTED: u32 = 10;

const CALLER: u32 = 11;

const SKIP: u32 = 12;

const DISCARDED: u32 = 13;

const RETRY: u32 = 14;

const RETRY_DROP: u32 = 15;

const LIVE: u32 = 16;

const GIVEN_UP: u32 = 17;

const NOTHING: u32 = 18;

const OFFER: u32 = 19;

const HELD: u32 = 20;

const HEAD: u32 = 21;

const LEAVE: u32 = 22;

const IDLE: u32 = 23;

const RUN: u32 = 24;

const ENDED: u32 = 25;

const YES: u32 = 26;

const NO: u32 = 27;

const COUNT: u32 = 28;

fn looked(task: TaskId, looked: Looked) -> Answer
    ensures submit { (k : KindOf) (p : ℕ) → result ≡ numbers_answered (Did.Submit task k p looked) }
    ensures look { result ≡ numbers_answered (Did.Look task looked) }
{
    match looked {
        Looked::Reserve(slot) => Answer::of(RESERVE).task(task).slot(slot),
        Looked::Queue => Answer::of(QUEUE).task(task),
        Looked::Refuse => Answer::of(REFUSE).task(task),
    }
}

fn offered(task: TaskId, offered: Offered) -> Answer
    ensures { result ≡ numbers_answered (Did.Offer task offered) }
{
    match offered {
        Offered::Queued => Answer::of(QUEUED).task(task),
        Offered::Hand(slot) => Answer::of(HAND).task(task).slot(slot),
        Offered::Full => Answer::of(FULL).task(task),
    }
}

fn seconded(task: TaskId, seconded: Seconded) -> Answer
    ensures { result ≡ numbers_answered (Did.Second task seconded) }
{
    match seconded {
        Seconded::Stay => Answer::of(STAY).task(task),
        Seconded::StayReserve(slot) => Answer::of(STAY_RESERVE).task(task).slot(slot),
        Seconded::Back => Answer::of(BACK).task(task),
    }
}

fn grown(task: TaskId, grown: Grown) -> Answer
    ensures { result ≡ numbers_answered (Did.Grow task grown) }
{
    match grown {
        Grown::Reserve(slot) => Answer::of(RESERVE).task(task).slot(slot),
        Grown::Refuse => Answer::of(REFUSE).task(task),
    }
}

fn ruled(task: TaskId, ruled: Ruled) -> Answer
    ensures { (v : VerdictOf) → result ≡ numbers_answered (Did.Verdict task v ruled) }
{
    match ruled {
        Ruled::Rejected => Answer::of(REJECTED).task(task),
        Ruled::Caller => Answer::of(CALLER).task(task),
        Ruled::Skip => Answer::of(SKIP).task(task),
        Ruled::Discarded => Answer::of(DISCARDED).task(task),
        Ruled::Retry => Answer::of(RETRY).task(task),
        Ruled::RetryDrop(head) => Answer::of(RETRY_DROP).task(head),
    }
}

fn opened(slot: SlotId, opened: Opened) -> Answer
    ensures { result ≡ numbers_answered (Did.Open slot opened) }
{
    match opened {
        Opened::Live => Answer::of(LIVE).slot(slot),
        Opened::GivenUp => Answer::of(GIVEN_UP).slot(slot),
        Opened::GivenUpRefuse(task) => Answer::of(REFUSE).task(task).slot(slot),
    }
}

fn failed(slot: SlotId, failed: Failed) -> Answer
    ensures { result ≡ numbers_answered (Did.Fail slot failed) }
{
    match failed {
        Failed::Nothing => Answer::of(NOTHING).slot(slot),
        Failed::Offer(task) => Answer::of(OFFER).task(task).slot(slot),
        Failed::Refuse(task) => Answer::of(REFUSE).task(task).slot(slot),
    }
}

fn took(slot: SlotId, took: Took) -> Answer
    ensures { result ≡ numbers_answered (Did.Take slot took) }
{
    match took {
        Took::Held(task) => Answer::of(HELD).task(task).slot(slot),
        Took::Head(task) => Answer::of(HEAD).task(task).slot(slot),
        Took::Leave => Answer::of(LEAVE).slot(slot),
        Took::Idle => Answer::of(IDLE).slot(slot),
    }
}

fn started(slot: SlotId, started: Started) -> Answer
    ensures { result ≡ numbers_answered (Did.Begin slot started) }
{
    match started {
        Started::Run(task) => Answer::of(RUN).task(task).slot(slot),
        Started::Skip(task) => Answer::of(SKIP).task(task).slot(slot),
    }
}

fn reserved(slot: Option<SlotId>) -> Answer
    ensures { result ≡ says_reserved slot }
{
    match slot {
        Some(slot) => Answer::of(RESERVE).slot(slot),
        None => Answer::of(NOTHING),
    }
}

fn effect(task: TaskId, effective: bool) -> Answer
    ensures { result ≡ says_effect task.0 effective }
{
    Answer::of(if effective { YES } else { NO }).task(task)
}

/// The numbers of what was done.
pub fn answer_of(did: Did) -> Answer
    ensures { result ≡ numbers_answered did }
{
    match did {
        Did::Submit(task, _, _, answer) | Did::Look(task, answer) => looked(task, answer),
        Did::Offer(task, answer) => offered(task, answer),
        Did::Second(task, answer) => seconded(task, answer),
        Did::Grow(task, answer) => grown(task, answer),
        Did::Verdict(task, _, answer) => ruled(task, answer),
        Did::Open(slot, answer) => opened(slot, answer),
        Did::Fail(slot, answer) => failed(slot, answer),
        Did::Take(slot, answer) => took(slot, answer),
        Did::Begin(slot, answer) => started(slot, answer),
        Did::End(slot, task, _) => Answer::of(ENDED).task(task).slot(slot),
        Did::CallerEnd(task, _) => Answer::of(ENDED).task(task),
        Did::Leave(_, slot) | Did::Prestart(slot) => reserved(slot),
        Did::Remove(task, effective) | Did::Cancel(task, _, effective) => effect(task, effective),
        Did::TakeDone(_, task) => Answer::of(DONE).task(task),
        Did::Stop(number) | Did::Purge(number) | Did::Core(_, number) => {
            Answer::of(COUNT).number(number)
        }
        Did::Shutdown | Did::Tidy | Did::Ended => Answer::of(DONE),
        Did::Maximum(_) | Did::Keep(_) | Did::CoreTimeout(_) | Did::Tick(_) => Answer::of(DONE),
    }
}

/// Whether the payload of the task that the answer names leaves the machine with it.
pub fn has_left(stepped: &Stepped<()>) -> bool
    ensures { result ≡ leaves stepped.now }
{
    match stepped {
        Stepped::Begin(Begun::Run(..)) => true,
        Stepped::Verdict(judged) => match judged.dropped {
            Some((_, payload)) => payload.is_some(),
            None => judged.payload.is_some(),
        },
        Stepped::Remove(Some((_, payload))) => payload.is_some(),
        Stepped::Cancel(_, payload) => payload.is_some(),
        _ => false,
    }
}
