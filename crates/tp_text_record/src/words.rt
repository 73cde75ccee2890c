//! The words of a line, one after another.
ghost use Rattle.std.specs.Prelude.{◌≡◌, ◌≢◌, List, ℕ, [], ◌∷◌, Some, None};
ghost use Rattle.std.specs.Fmt.{decimal, signed_decimal};
ghost use Rattle.tp_types.specs.Verdict.{verdict_name};
ghost use Rattle.tp_text.specs.Fits.{Fits32, Fits64, FitsValue};
ghost use Rattle.tp_text.specs.Reads.{Any, ReadsAs};
ghost use Rattle.tp_text.specs.EntryLine.{task_name, slot_name, effect_word, switch_word};
ghost use Rattle.tp_text_record.specs.EntryFits.{FitsTask, FitsSlot};
ghost use Rattle.tp_text_record.specs.Rests.{Alone, ReadsOn, TakesWord, left};

use tp_text::numbers::{index, long_number, number, value};
use tp_text::words::{first_word, switch, verdict};
use tp_types::configs::Verdict;
use tp_types::ids::{SlotId, TaskId};

/// The first word of what is left, and what is left behind it.
pub fn next_word(rest: Option<&str>) -> Option<(&str, Option<&str>)>
    ensures { TakesWord (left rest.entry) result }
{
    let text = rest?;
    Some(first_word(text))
}

/// The value, where nothing is left.
pub fn alone<V: Drop>(rest: Option<&str>, value: V) -> Option<V>
    ensures { Alone (left rest.entry) value result }
{
    match rest {
        None => Some(value),
        Some(_) => None,
    }
}

/// The task that a word names.
fn task(word: &str) -> Option<TaskId>
    ensures { ReadsAs task_name FitsTask word.now result }
{
    Some(TaskId(number(word.strip_prefix('t')?)?))
}

/// The slot that a word names.
fn slot(word: &str) -> Option<SlotId>
    ensures { ReadsAs slot_name FitsSlot word.now result }
{
    Some(SlotId(index(word.strip_prefix('w')?)?))
}

/// Whether a step had effect.
fn effect(word: &str) -> Option<bool>
    ensures { ReadsAs effect_word Any word.now result }
{
    match word {
        "yes" => Some(true),
        "no" => Some(false),
        _ => None,
    }
}

/// The task that the next word names, and what is left behind it.
pub fn task_on(rest: Option<&str>) -> Option<(TaskId, Option<&str>)>
    ensures { ReadsOn task_name FitsTask (left rest.entry) result }
{
    let (word, rest) = next_word(rest)?;
    Some((task(word)?, rest))
}

/// The slot that the next word names, and what is left behind it.
pub fn slot_on(rest: Option<&str>) -> Option<(SlotId, Option<&str>)>
    ensures { ReadsOn slot_name FitsSlot (left rest.entry) result }
{
    let (word, rest) = next_word(rest)?;
    Some((slot(word)?, rest))
}

/// The number that the next word is, and what is left behind it.
pub fn number_on(rest: Option<&str>) -> Option<(u32, Option<&str>)>
    ensures { ReadsOn decimal Fits32 (left rest.entry) result }
{
    let (word, rest) = next_word(rest)?;
    Some((number(word)?, rest))
}

/// The verdict that the next word names, and what is left behind it.
pub fn verdict_on(rest: Option<&str>) -> Option<(Verdict, Option<&str>)>
    ensures { ReadsOn verdict_name Any (left rest.entry) result }
{
    let (word, rest) = next_word(rest)?;
    Some((verdict(word)?, rest))
}

/// The task that the last word names.
pub fn last_task(rest: Option<&str>) -> Option<TaskId>
    ensures { ReadsAs (λ t. task_name t ∷ []) FitsTask (left rest.entry) result }
{
    let (task, rest) = task_on(rest)?;
    alone(rest, task)
}

/// The slot that the last word names.
pub fn last_slot(rest: Option<&str>) -> Option<SlotId>
    ensures { ReadsAs (λ w. slot_name w ∷ []) FitsSlot (left rest.entry) result }
{
    let (slot, rest) = slot_on(rest)?;
    alone(rest, slot)
}

/// The number that the last word is.
pub fn last_number(rest: Option<&str>) -> Option<u32>
    ensures { ReadsAs (λ n. decimal n ∷ []) Fits32 (left rest.entry) result }
{
    let (number, rest) = number_on(rest)?;
    alone(rest, number)
}

/// The ticks that the last word is.
pub fn last_ticks(rest: Option<&str>) -> Option<u64>
    ensures { ReadsAs (λ n. decimal n ∷ []) Fits64 (left rest.entry) result }
{
    let (word, rest) = next_word(rest)?;
    alone(rest, long_number(word)?)
}

/// The value that the last word is.
pub fn last_value(rest: Option<&str>) -> Option<i64>
    ensures { ReadsAs (λ v. signed_decimal v ∷ []) FitsValue (left rest.entry) result }
{
    let (word, rest) = next_word(rest)?;
    alone(rest, value(word)?)
}

/// Whether a step had effect, as the last word says.
pub fn last_effect(rest: Option<&str>) -> Option<bool>
    ensures { ReadsAs (λ b. effect_word b ∷ []) Any (left rest.entry) result }
{
    let (word, rest) = next_word(rest)?;
    alone(rest, effect(word)?)
}

/// On or off, as the last word says.
pub fn last_switch(rest: Option<&str>) -> Option<bool>
    ensures { ReadsAs (λ b. switch_word b ∷ []) Any (left rest.entry) result }
{
    let (word, rest) = next_word(rest)?;
    alone(rest, switch(word)?)
}
