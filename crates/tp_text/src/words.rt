//! The words of a line.

ghost use Rattle.std.specs.Prelude.{◌≡◌, ◌≢◌, ◌<◌, List, ℕ, Option, Some, IfSome, IfNone, MatchOption, length, slice_index, take};
ghost use Rattle.std.specs.Option.{option_map};
ghost use Rattle.tp_text.specs.Reads.{Any, FirstWord, IsWord, ReadsAs, spaced};
ghost use Rattle.tp_text.specs.Commands.{IsNoLoneCommand, command_word, pool_word, size_word, slot_word, task_word, tick_word};
ghost use Rattle.tp_text.specs.EntryLine.{switch_word};
ghost use Rattle.tp_types.specs.Verdict.{verdict_name};

use crate::commands::{Command, PoolVerb, SizeVerb, SlotVerb, TaskVerb, TickVerb};
use tp_types::configs::Verdict;

/// Where the first space is.
#[inline(always)]
fn first_space(text: &[u8]) -> Option<usize>
    ensures { MatchOption result (IsWord text.now) (λ i. (i < length text.now) × (slice_index text.now i ≡ 32) × IsWord (take i text.now)) }
{
    text.iter().position(|b| *b == b' ')
}

/// The first word, and what follows it after a space, if a space does.
#[inline(always)]
pub fn first_word(text: &str) -> (&str, Option<&str>)
    ensures { FirstWord text.now result.0.now (option_map (λ r. r.now) result.1) }
{
    match first_space(text.as_bytes()) {
        None => (text, None),
        Some(end) => (&text[..end], Some(&text[end + 1..])),
    }
}

/// What follows a word and a space.
pub fn behind<'a>(text: &'a str, word: &str) -> Option<&'a str>
    ensures { MatchOption result ((rest : List ℕ) → text.now ≢ spaced word.now rest) (λ x. text.now ≡ spaced word.now x.now) }
{
    text.strip_prefix(word)?.strip_prefix(' ')
}

#[inline(always)]
fn task_verb(word: &str) -> Option<TaskVerb>
    ensures { ReadsAs task_word Any word.now result }
{
    match word {
        "look" => Some(TaskVerb::Look),
        "offer" => Some(TaskVerb::Offer),
        "second" => Some(TaskVerb::Second),
        "grow" => Some(TaskVerb::Grow),
        "callerend" => Some(TaskVerb::CallerEnd),
        "remove" => Some(TaskVerb::Remove),
        _ => None,
    }
}

#[inline(always)]
fn slot_verb(word: &str) -> Option<SlotVerb>
    ensures { ReadsAs slot_word Any word.now result }
{
    match word {
        "open" => Some(SlotVerb::Open),
        "fail" => Some(SlotVerb::Fail),
        "take" => Some(SlotVerb::Take),
        "begin" => Some(SlotVerb::Begin),
        "end" => Some(SlotVerb::End),
        "leave" => Some(SlotVerb::Leave),
        _ => None,
    }
}

#[inline(always)]
fn pool_verb(word: &str) -> Option<PoolVerb>
    ensures { ReadsAs pool_word Any word.now result }
{
    match word {
        "shutdown" => Some(PoolVerb::Shutdown),
        "stop" => Some(PoolVerb::Stop),
        "tidy" => Some(PoolVerb::Tidy),
        "ended" => Some(PoolVerb::Ended),
        "purge" => Some(PoolVerb::Purge),
        "prestart" => Some(PoolVerb::Prestart),
        _ => None,
    }
}

#[inline(always)]
fn size_verb(word: &str) -> Option<SizeVerb>
    ensures { ReadsAs size_word Any word.now result }
{
    match word {
        "takedone" => Some(SizeVerb::TakeDone),
        "core" => Some(SizeVerb::Core),
        "max" => Some(SizeVerb::Maximum),
        _ => None,
    }
}

#[inline(always)]
fn tick_verb(word: &str) -> Option<TickVerb>
    ensures { ReadsAs tick_word Any word.now result }
{
    match word {
        "keep" => Some(TickVerb::Keep),
        "tick" => Some(TickVerb::Tick),
        _ => None,
    }
}

/// The command of four that stand for themselves.
#[inline(always)]
fn lone_command(word: &str) -> Option<Command>
    ensures some { IfSome result (λ c. word.now ≡ command_word c) }
    ensures none { IfNone result (IsNoLoneCommand word.now) }
{
    match word {
        "submit" => Some(Command::Submit),
        "verdict" => Some(Command::Verdict),
        "cancel" => Some(Command::Cancel),
        "coretimeout" => Some(Command::CoreTimeout),
        _ => None,
    }
}

/// The command that a line begins with.
#[inline(always)]
pub fn command(word: &str) -> Option<Command>
    ensures { ReadsAs command_word Any word.now result }
{
    if let Some(verb) = task_verb(word) {
        return Some(Command::OfTask(verb));
    }
    if let Some(verb) = slot_verb(word) {
        return Some(Command::OfSlot(verb));
    }
    if let Some(verb) = pool_verb(word) {
        return Some(Command::OfPool(verb));
    }
    if let Some(verb) = size_verb(word) {
        return Some(Command::OfSize(verb));
    }
    if let Some(verb) = tick_verb(word) {
        return Some(Command::OfTicks(verb));
    }
    lone_command(word)
}

/// What becomes of a refused task.
pub fn verdict(word: &str) -> Option<Verdict>
    ensures { ReadsAs verdict_name Any word.now result }
{
    match word {
        "abort" => Some(Verdict::Abort),
        "callerruns" => Some(Verdict::CallerRuns),
        "discard" => Some(Verdict::Discard),
        "discardoldest" => Some(Verdict::DiscardOldest),
        _ => None,
    }
}

/// On or off.
pub fn switch(word: &str) -> Option<bool>
    ensures { ReadsAs switch_word Any word.now result }
{
    match word {
        "on" => Some(true),
        "off" => Some(false),
        _ => None,
    }
}
