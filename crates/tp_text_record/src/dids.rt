//! What was done, read from the words of an entry's line.
ghost use Rattle.tp_text.specs.EntryLine.{did_words};
ghost use Rattle.tp_text.specs.declared.commands.Command.{Command};
ghost use Rattle.tp_text.specs.Reads.{ReadsAs};
ghost use Rattle.tp_text_record.specs.EntryFits.{FitsDid, ReadsDid};
ghost use Rattle.tp_text_record.specs.Rests.{left};

use crate::answers::prestarted;
use crate::steps::{
    begin, caller_end, cancellation, core_size, drained, end, fail, grow, leave, look, offer, open,
    removal, ruling, second, submission, take, take_done,
};
use crate::words::{alone, last_number, last_switch, last_ticks, next_word};
use tp_record::entries::Did;
use tp_text::commands::{Command, PoolVerb, SizeVerb, SlotVerb, TaskVerb, TickVerb};
use tp_text::words::command;

/// What was done of a task.
fn task_did(verb: TaskVerb, rest: Option<&str>) -> Option<Did>
    ensures { ReadsDid (Command.OfTask verb) (left rest.entry) result }
{
    match verb {
        TaskVerb::Look => {
            let (task, looked) = look(rest)?;
            Some(Did::Look(task, looked))
        }
        TaskVerb::Offer => {
            let (task, offered) = offer(rest)?;
            Some(Did::Offer(task, offered))
        }
        TaskVerb::Second => {
            let (task, seconded) = second(rest)?;
            Some(Did::Second(task, seconded))
        }
        TaskVerb::Grow => {
            let (task, grown) = grow(rest)?;
            Some(Did::Grow(task, grown))
        }
        TaskVerb::CallerEnd => {
            let (task, outcome) = caller_end(rest)?;
            Some(Did::CallerEnd(task, outcome))
        }
        TaskVerb::Remove => {
            let (task, effect) = removal(rest)?;
            Some(Did::Remove(task, effect))
        }
    }
}

/// What was done of a slot.
fn slot_did(verb: SlotVerb, rest: Option<&str>) -> Option<Did>
    ensures { ReadsDid (Command.OfSlot verb) (left rest.entry) result }
{
    match verb {
        SlotVerb::Open => {
            let (slot, opened) = open(rest)?;
            Some(Did::Open(slot, opened))
        }
        SlotVerb::Fail => {
            let (slot, failed) = fail(rest)?;
            Some(Did::Fail(slot, failed))
        }
        SlotVerb::Take => {
            let (slot, took) = take(rest)?;
            Some(Did::Take(slot, took))
        }
        SlotVerb::Begin => {
            let (slot, started) = begin(rest)?;
            Some(Did::Begin(slot, started))
        }
        SlotVerb::End => {
            let (slot, (task, outcome)) = end(rest)?;
            Some(Did::End(slot, task, outcome))
        }
        SlotVerb::Leave => {
            let (slot, reserved) = leave(rest)?;
            Some(Did::Leave(slot, reserved))
        }
    }
}

/// What was done of the pool.
fn pool_did(verb: PoolVerb, rest: Option<&str>) -> Option<Did>
    ensures { ReadsDid (Command.OfPool verb) (left rest.entry) result }
{
    match verb {
        PoolVerb::Shutdown => alone(rest, Did::Shutdown),
        PoolVerb::Stop => Some(Did::Stop(drained(rest)?)),
        PoolVerb::Tidy => alone(rest, Did::Tidy),
        PoolVerb::Ended => alone(rest, Did::Ended),
        PoolVerb::Purge => Some(Did::Purge(last_number(rest)?)),
        PoolVerb::Prestart => Some(Did::Prestart(prestarted(rest)?)),
    }
}

/// What was done of a size or a group.
fn size_did(verb: SizeVerb, rest: Option<&str>) -> Option<Did>
    ensures { ReadsDid (Command.OfSize verb) (left rest.entry) result }
{
    match verb {
        SizeVerb::TakeDone => {
            let (group, task) = take_done(rest)?;
            Some(Did::TakeDone(group, task))
        }
        SizeVerb::Core => {
            let (core, more) = core_size(rest)?;
            Some(Did::Core(core, more))
        }
        SizeVerb::Maximum => Some(Did::Maximum(last_number(rest)?)),
    }
}

/// What was done of the keep-alive or the moment.
fn ticks_did(verb: TickVerb, rest: Option<&str>) -> Option<Did>
    ensures { ReadsDid (Command.OfTicks verb) (left rest.entry) result }
{
    match verb {
        TickVerb::Keep => Some(Did::Keep(last_ticks(rest)?)),
        TickVerb::Tick => Some(Did::Tick(last_ticks(rest)?)),
    }
}

/// What was done by a step that begins with this word.
fn did_by(command: Command, rest: Option<&str>) -> Option<Did>
    ensures { ReadsDid command (left rest.entry) result }
{
    match command {
        Command::Submit => {
            let (task, (kind, (priority, looked))) = submission(rest)?;
            Some(Did::Submit(task, kind, priority, looked))
        }
        Command::OfTask(verb) => task_did(verb, rest),
        Command::Verdict => {
            let (task, (verdict, ruled)) = ruling(rest)?;
            Some(Did::Verdict(task, verdict, ruled))
        }
        Command::OfSlot(verb) => slot_did(verb, rest),
        Command::OfPool(verb) => pool_did(verb, rest),
        Command::Cancel => {
            let (task, (flag, effect)) = cancellation(rest)?;
            Some(Did::Cancel(task, flag, effect))
        }
        Command::OfSize(verb) => size_did(verb, rest),
        Command::OfTicks(verb) => ticks_did(verb, rest),
        Command::CoreTimeout => Some(Did::CoreTimeout(last_switch(rest)?)),
    }
}

/// What was done, as the words that are left say.
pub fn did_of(rest: Option<&str>) -> Option<Did>
    ensures { ReadsAs did_words FitsDid (left rest.entry) result }
{
    let (word, rest) = next_word(rest)?;
    did_by(command(word)?, rest)
}
