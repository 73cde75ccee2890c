//! What an entry answers, read from the words of its line.
ghost use Rattle.std.specs.Prelude.{◌≡◌, ◌≢◌, ◌++◌, List, ℕ, [], ◌∷◌, Some, None, codes};
ghost use Rattle.std.specs.Fmt.{decimal};
ghost use Rattle.tp_text.specs.Fits.{Fits32, FitsKind, FitsOutcome};
ghost use Rattle.tp_text.specs.Reads.{Any, ReadsAs};
ghost use Rattle.tp_text.specs.EntryLine.{task_name, slot_name, kind_words, priority_words, outcome_words, looked_words, offered_words, seconded_words, grown_words, ruled_words, opened_words, failed_words, took_words, started_words, reserved_words, prestart_words, dropped_words, refused_words, flag_words};
ghost use Rattle.tp_text_record.specs.EntryFits.{FitsTask, FitsSlot, FitsLooked, FitsOffered, FitsSeconded, FitsGrown, FitsRuled, FitsOpened, FitsFailed, HasTask, FitsTook, FitsStarted, FitsReserved, FitsTold, FitsPriority};
ghost use Rattle.tp_text_record.specs.Rests.{ReadsOn, left};

use crate::words::{
    alone, last_effect, last_number, last_slot, last_task, last_value, next_word, number_on,
    task_on,
};
use tp_record::entries::{Failed, Grown, Looked, Offered, Opened, Ruled, Seconded, Started, Took};
use tp_types::ids::{SlotId, TaskId};
use tp_types::tasks::{Kind, Outcome};

/// The slot that is reserved besides, if one is.
pub fn reserved(rest: Option<&str>) -> Option<Option<SlotId>>
    ensures { ReadsAs reserved_words FitsReserved (left rest.entry) result }
{
    match next_word(rest) {
        None => Some(None),
        Some(("reserve", rest)) => Some(Some(last_slot(rest)?)),
        Some(_) => None,
    }
}

/// The queue's head that a retry drops, if it drops one.
fn dropped(rest: Option<&str>) -> Option<Option<TaskId>>
    ensures { ReadsAs dropped_words FitsTold (left rest.entry) result }
{
    match next_word(rest) {
        None => Some(None),
        Some(("drop", rest)) => Some(Some(last_task(rest)?)),
        Some(_) => None,
    }
}

/// A task, and the word that refuses it.
fn refused_task(rest: Option<&str>) -> Option<TaskId>
    ensures { ReadsAs (λ t. task_name t ∷ codes "refuse" ∷ []) FitsTask (left rest.entry) result }
{
    let (task, rest) = task_on(rest)?;
    match next_word(rest)? {
        ("refuse", rest) => alone(rest, task),
        _ => None,
    }
}

/// The first task of a slot that is given up, if it has one.
fn refused(rest: Option<&str>) -> Option<Option<TaskId>>
    ensures { ReadsAs refused_words FitsTold (left rest.entry) result }
{
    match next_word(rest) {
        None => Some(None),
        Some(_) => Some(Some(refused_task(rest)?)),
    }
}

/// How a job ended.
pub fn outcome(rest: Option<&str>) -> Option<Outcome>
    ensures { ReadsAs outcome_words FitsOutcome (left rest.entry) result }
{
    let (word, rest) = next_word(rest)?;
    match word {
        "value" => Some(Ok(last_value(rest)?)),
        "fault" => Some(Err(last_number(rest)?)),
        _ => None,
    }
}

/// What a look answered.
pub fn looked(rest: Option<&str>) -> Option<Looked>
    ensures { ReadsAs looked_words FitsLooked (left rest.entry) result }
{
    let (word, rest) = next_word(rest)?;
    match word {
        "reserve" => Some(Looked::Reserve(last_slot(rest)?)),
        "queue" => alone(rest, Looked::Queue),
        "refuse" => alone(rest, Looked::Refuse),
        _ => None,
    }
}

/// What an offer answered.
pub fn offered(rest: Option<&str>) -> Option<Offered>
    ensures { ReadsAs offered_words FitsOffered (left rest.entry) result }
{
    let (word, rest) = next_word(rest)?;
    match word {
        "queued" => alone(rest, Offered::Queued),
        "hand" => Some(Offered::Hand(last_slot(rest)?)),
        "full" => alone(rest, Offered::Full),
        _ => None,
    }
}

/// What a second look answered.
pub fn seconded(rest: Option<&str>) -> Option<Seconded>
    ensures { ReadsAs seconded_words FitsSeconded (left rest.entry) result }
{
    let (word, rest) = next_word(rest)?;
    match word {
        "stay" => match reserved(rest)? {
            None => Some(Seconded::Stay),
            Some(slot) => Some(Seconded::StayReserve(slot)),
        },
        "back" => alone(rest, Seconded::Back),
        _ => None,
    }
}

/// What an attempt to grow answered.
pub fn grown(rest: Option<&str>) -> Option<Grown>
    ensures { ReadsAs grown_words FitsGrown (left rest.entry) result }
{
    let (word, rest) = next_word(rest)?;
    match word {
        "reserve" => Some(Grown::Reserve(last_slot(rest)?)),
        "refuse" => alone(rest, Grown::Refuse),
        _ => None,
    }
}

/// What became of a task by its verdict.
pub fn ruled(rest: Option<&str>) -> Option<Ruled>
    ensures { ReadsAs ruled_words FitsRuled (left rest.entry) result }
{
    let (word, rest) = next_word(rest)?;
    match word {
        "rejected" => alone(rest, Ruled::Rejected),
        "caller" => alone(rest, Ruled::Caller),
        "skip" => alone(rest, Ruled::Skip),
        "discarded" => alone(rest, Ruled::Discarded),
        "retry" => match dropped(rest)? {
            None => Some(Ruled::Retry),
            Some(head) => Some(Ruled::RetryDrop(head)),
        },
        _ => None,
    }
}

/// What became of a slot that a worker was made for.
pub fn opened(rest: Option<&str>) -> Option<Opened>
    ensures { ReadsAs opened_words FitsOpened (left rest.entry) result }
{
    let (word, rest) = next_word(rest)?;
    match word {
        "live" => alone(rest, Opened::Live),
        "givenup" => match refused(rest)? {
            None => Some(Opened::GivenUp),
            Some(task) => Some(Opened::GivenUpRefuse(task)),
        },
        _ => None,
    }
}

/// What a worker takes.
pub fn took(rest: Option<&str>) -> Option<Took>
    ensures { ReadsAs took_words FitsTook (left rest.entry) result }
{
    let (word, rest) = next_word(rest)?;
    match word {
        "held" => Some(Took::Held(last_task(rest)?)),
        "head" => Some(Took::Head(last_task(rest)?)),
        "leave" => alone(rest, Took::Leave),
        "idle" => alone(rest, Took::Idle),
        _ => None,
    }
}

/// The slot that a prestart reserved, if it reserved one.
pub fn prestarted(rest: Option<&str>) -> Option<Option<SlotId>>
    ensures { ReadsAs prestart_words FitsReserved (left rest.entry) result }
{
    let (word, rest) = next_word(rest)?;
    match word {
        "none" => alone(rest, None),
        "reserve" => Some(Some(last_slot(rest)?)),
        _ => None,
    }
}

/// The priority that the next word is, any but 0, and what is left behind it.
fn priority_on(rest: Option<&str>) -> Option<(u32, Option<&str>)>
    ensures { ReadsOn decimal FitsPriority (left rest.entry) result }
{
    let (priority, rest) = number_on(rest)?;
    if priority == 0 {
        None
    } else {
        Some((priority, rest))
    }
}

/// A priority that is written, and what its task's first look answered.
fn ranked(rest: Option<&str>) -> Option<(u32, Looked)>
    ensures { ReadsAs (λ p. decimal p.0 ∷ looked_words p.1) (λ p. FitsPriority p.0 × FitsLooked p.1) (left rest.entry) result }
{
    let (priority, rest) = priority_on(rest)?;
    Some((priority, looked(rest)?))
}

/// A new task's priority, which is written where it is not 0, and what its first look answered.
fn prioritized(rest: Option<&str>) -> Option<(u32, Looked)>
    ensures { ReadsAs (λ p. priority_words p.0 ++ looked_words p.1) (λ p. Fits32 p.0 × FitsLooked p.1) (left rest.entry) result }
{
    let (word, behind) = next_word(rest)?;
    match word {
        "prio" => ranked(behind),
        _ => Some((0, looked(rest)?)),
    }
}

/// A new task's kind and priority, and what its first look answered.
pub fn submitted(rest: Option<&str>) -> Option<(Kind, (u32, Looked))>
    ensures { ReadsAs (λ p. kind_words p.0 ++ (priority_words p.1.0 ++ looked_words p.1.1)) (λ p. FitsKind p.0 × (Fits32 p.1.0 × FitsLooked p.1.1)) (left rest.entry) result }
{
    let (word, rest) = next_word(rest)?;
    match word {
        "plain" => Some((Kind::Plain, prioritized(rest)?)),
        "future" => Some((Kind::Future, prioritized(rest)?)),
        "group" => {
            let (group, rest) = number_on(rest)?;
            Some((Kind::Group(group), prioritized(rest)?))
        }
        _ => None,
    }
}

/// The task of a slot that no worker was made for, and what becomes of it.
fn failed_task(rest: Option<&str>) -> Option<Failed>
    ensures { ReadsAs failed_words (λ f. FitsFailed f × HasTask f) (left rest.entry) result }
{
    let (task, rest) = task_on(rest)?;
    let (word, rest) = next_word(rest)?;
    match word {
        "offer" => alone(rest, Failed::Offer(task)),
        "refuse" => alone(rest, Failed::Refuse(task)),
        _ => None,
    }
}

/// What becomes of the task of a slot that no worker was made for.
pub fn failed(rest: Option<&str>) -> Option<Failed>
    ensures { ReadsAs failed_words FitsFailed (left rest.entry) result }
{
    let (word, behind) = next_word(rest)?;
    match word {
        "none" => alone(behind, Failed::Nothing),
        _ => failed_task(rest),
    }
}

/// What a worker begins.
pub fn started(rest: Option<&str>) -> Option<Started>
    ensures { ReadsAs started_words FitsStarted (left rest.entry) result }
{
    let (word, behind) = next_word(rest)?;
    match word {
        "skip" => Some(Started::Skip(last_task(behind)?)),
        _ => Some(Started::Run(last_task(rest)?)),
    }
}

/// Whether a flag was asked for, and whether the cancel had effect.
pub fn cancelled(rest: Option<&str>) -> Option<(bool, bool)>
    ensures { ReadsAs (λ p. flag_words p.0 p.1) Any (left rest.entry) result }
{
    let (word, behind) = next_word(rest)?;
    match word {
        "flag" => Some((true, last_effect(behind)?)),
        _ => Some((false, last_effect(rest)?)),
    }
}
