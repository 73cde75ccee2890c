//! What stands behind the word of a step, in the line of an entry.
ghost use Rattle.std.specs.Prelude.{◌≡◌, ◌≢◌, ◌++◌, List, ℕ, [], ◌∷◌, Some, None, codes};
ghost use Rattle.std.specs.Fmt.{decimal};
ghost use Rattle.tp_types.specs.Verdict.{verdict_name};
ghost use Rattle.tp_text.specs.Fits.{Fits32, FitsKind, FitsOutcome};
ghost use Rattle.tp_text.specs.Reads.{Any, ReadsAs};
ghost use Rattle.tp_text.specs.EntryLine.{task_name, slot_name, effect_word, kind_words, priority_words, outcome_words, looked_words, offered_words, seconded_words, grown_words, ruled_words, opened_words, failed_words, took_words, started_words, reserved_words, flag_words};
ghost use Rattle.tp_text_record.specs.EntryFits.{FitsTask, FitsSlot, FitsLooked, FitsOffered, FitsSeconded, FitsGrown, FitsRuled, FitsOpened, FitsFailed, FitsTook, FitsStarted, FitsReserved};
ghost use Rattle.tp_text_record.specs.Rests.{left};

use crate::answers::{
    cancelled, failed, grown, looked, offered, opened, outcome, reserved, ruled, seconded, started,
    submitted, took,
};
use crate::words::{
    last_effect, last_number, last_task, next_word, number_on, slot_on, task_on, verdict_on,
};
use tp_record::entries::{Failed, Grown, Looked, Offered, Opened, Ruled, Seconded, Started, Took};
use tp_types::configs::Verdict;
use tp_types::ids::{SlotId, TaskId};
use tp_types::tasks::{Kind, Outcome};

/// `t0 group 3 prio 5 reserve w0`.
pub fn submission(rest: Option<&str>) -> Option<(TaskId, (Kind, (u32, Looked)))>
    ensures { ReadsAs (λ p. task_name p.0 ∷ (kind_words p.1.0 ++ (priority_words p.1.1.0 ++ looked_words p.1.1.1))) (λ p. FitsTask p.0 × (FitsKind p.1.0 × (Fits32 p.1.1.0 × FitsLooked p.1.1.1))) (left rest.entry) result }
{
    let (task, rest) = task_on(rest)?;
    Some((task, submitted(rest)?))
}

/// `t0 queue`.
pub fn look(rest: Option<&str>) -> Option<(TaskId, Looked)>
    ensures { ReadsAs (λ p. task_name p.0 ∷ looked_words p.1) (λ p. FitsTask p.0 × FitsLooked p.1) (left rest.entry) result }
{
    let (task, rest) = task_on(rest)?;
    Some((task, looked(rest)?))
}

/// `t0 hand w0`.
pub fn offer(rest: Option<&str>) -> Option<(TaskId, Offered)>
    ensures { ReadsAs (λ p. task_name p.0 ∷ offered_words p.1) (λ p. FitsTask p.0 × FitsOffered p.1) (left rest.entry) result }
{
    let (task, rest) = task_on(rest)?;
    Some((task, offered(rest)?))
}

/// `t0 stay reserve w0`.
pub fn second(rest: Option<&str>) -> Option<(TaskId, Seconded)>
    ensures { ReadsAs (λ p. task_name p.0 ∷ seconded_words p.1) (λ p. FitsTask p.0 × FitsSeconded p.1) (left rest.entry) result }
{
    let (task, rest) = task_on(rest)?;
    Some((task, seconded(rest)?))
}

/// `t0 reserve w0`.
pub fn grow(rest: Option<&str>) -> Option<(TaskId, Grown)>
    ensures { ReadsAs (λ p. task_name p.0 ∷ grown_words p.1) (λ p. FitsTask p.0 × FitsGrown p.1) (left rest.entry) result }
{
    let (task, rest) = task_on(rest)?;
    Some((task, grown(rest)?))
}

/// `t0 value 5`.
pub fn caller_end(rest: Option<&str>) -> Option<(TaskId, Outcome)>
    ensures { ReadsAs (λ p. task_name p.0 ∷ outcome_words p.1) (λ p. FitsTask p.0 × FitsOutcome p.1) (left rest.entry) result }
{
    let (task, rest) = task_on(rest)?;
    Some((task, outcome(rest)?))
}

/// `w0 givenup t0 refuse`.
pub fn open(rest: Option<&str>) -> Option<(SlotId, Opened)>
    ensures { ReadsAs (λ p. slot_name p.0 ∷ opened_words p.1) (λ p. FitsSlot p.0 × FitsOpened p.1) (left rest.entry) result }
{
    let (slot, rest) = slot_on(rest)?;
    Some((slot, opened(rest)?))
}

/// `w0 t0 offer`.
pub fn fail(rest: Option<&str>) -> Option<(SlotId, Failed)>
    ensures { ReadsAs (λ p. slot_name p.0 ∷ failed_words p.1) (λ p. FitsSlot p.0 × FitsFailed p.1) (left rest.entry) result }
{
    let (slot, rest) = slot_on(rest)?;
    Some((slot, failed(rest)?))
}

/// `w0 held t0`.
pub fn take(rest: Option<&str>) -> Option<(SlotId, Took)>
    ensures { ReadsAs (λ p. slot_name p.0 ∷ took_words p.1) (λ p. FitsSlot p.0 × FitsTook p.1) (left rest.entry) result }
{
    let (slot, rest) = slot_on(rest)?;
    Some((slot, took(rest)?))
}

/// `w0 skip t0`.
pub fn begin(rest: Option<&str>) -> Option<(SlotId, Started)>
    ensures { ReadsAs (λ p. slot_name p.0 ∷ started_words p.1) (λ p. FitsSlot p.0 × FitsStarted p.1) (left rest.entry) result }
{
    let (slot, rest) = slot_on(rest)?;
    Some((slot, started(rest)?))
}

/// `w0 t0 value 5`.
pub fn end(rest: Option<&str>) -> Option<(SlotId, (TaskId, Outcome))>
    ensures { ReadsAs (λ p. slot_name p.0 ∷ (task_name p.1.0 ∷ outcome_words p.1.1)) (λ p. FitsSlot p.0 × (FitsTask p.1.0 × FitsOutcome p.1.1)) (left rest.entry) result }
{
    let (slot, rest) = slot_on(rest)?;
    Some((slot, caller_end(rest)?))
}

/// `w0 reserve w1`.
pub fn leave(rest: Option<&str>) -> Option<(SlotId, Option<SlotId>)>
    ensures { ReadsAs (λ p. slot_name p.0 ∷ reserved_words p.1) (λ p. FitsSlot p.0 × FitsReserved p.1) (left rest.entry) result }
{
    let (slot, rest) = slot_on(rest)?;
    Some((slot, reserved(rest)?))
}

/// `t0 yes`.
pub fn removal(rest: Option<&str>) -> Option<(TaskId, bool)>
    ensures { ReadsAs (λ p. task_name p.0 ∷ effect_word p.1 ∷ []) (λ p. FitsTask p.0) (left rest.entry) result }
{
    let (task, rest) = task_on(rest)?;
    Some((task, last_effect(rest)?))
}

/// `t0 flag yes`.
pub fn cancellation(rest: Option<&str>) -> Option<(TaskId, (bool, bool))>
    ensures { ReadsAs (λ p. task_name p.0 ∷ flag_words p.1.0 p.1.1) (λ p. FitsTask p.0) (left rest.entry) result }
{
    let (task, rest) = task_on(rest)?;
    Some((task, cancelled(rest)?))
}

/// `abort rejected`.
fn judged(rest: Option<&str>) -> Option<(Verdict, Ruled)>
    ensures { ReadsAs (λ p. verdict_name p.0 ∷ ruled_words p.1) (λ p. FitsRuled p.1) (left rest.entry) result }
{
    let (verdict, rest) = verdict_on(rest)?;
    Some((verdict, ruled(rest)?))
}

/// `t0 abort rejected`.
pub fn ruling(rest: Option<&str>) -> Option<(TaskId, (Verdict, Ruled))>
    ensures { ReadsAs (λ p. task_name p.0 ∷ verdict_name p.1.0 ∷ ruled_words p.1.1) (λ p. FitsTask p.0 × FitsRuled p.1.1) (left rest.entry) result }
{
    let (task, rest) = task_on(rest)?;
    Some((task, judged(rest)?))
}

/// `drained 3`.
pub fn drained(rest: Option<&str>) -> Option<u32>
    ensures { ReadsAs (λ n. codes "drained" ∷ decimal n ∷ []) Fits32 (left rest.entry) result }
{
    match next_word(rest)? {
        ("drained", rest) => last_number(rest),
        _ => None,
    }
}

/// `add 1`.
fn added(rest: Option<&str>) -> Option<u32>
    ensures { ReadsAs (λ n. codes "add" ∷ decimal n ∷ []) Fits32 (left rest.entry) result }
{
    match next_word(rest)? {
        ("add", rest) => last_number(rest),
        _ => None,
    }
}

/// `2 add 1`.
pub fn core_size(rest: Option<&str>) -> Option<(u32, u32)>
    ensures { ReadsAs (λ p. decimal p.0 ∷ codes "add" ∷ decimal p.1 ∷ []) (λ p. Fits32 p.0 × Fits32 p.1) (left rest.entry) result }
{
    let (core, rest) = number_on(rest)?;
    Some((core, added(rest)?))
}

/// `3 t0`.
pub fn take_done(rest: Option<&str>) -> Option<(u32, TaskId)>
    ensures { ReadsAs (λ p. decimal p.0 ∷ task_name p.1 ∷ []) (λ p. Fits32 p.0 × FitsTask p.1) (left rest.entry) result }
{
    let (group, rest) = number_on(rest)?;
    Some((group, last_task(rest)?))
}
