//! The words of what was done, for each kind of answer: each behind a space, behind what is written of the line.
ghost use Rattle.std.specs.Prelude.{◌≡◌, ◌++◌, ◌∷◌, [], OnOk, string_bytes};
ghost use Rattle.tp_record.specs.declared.entries.Did.{Did};
ghost use Rattle.tp_text.specs.EntryLine.{behind, did_words, effect_word, kind_words, looked_words, outcome_words, priority_words, ruled_words, seconded_words, switch_word};

use crate::pieces::{numbered, text};
use std::alloc::AllocError;
use tp_record::entries::{Failed, Grown, Looked, Offered, Opened, Ruled, Seconded, Started, Took};
use tp_types::configs::Verdict;
use tp_types::ids::{SlotId, TaskId};
use tp_types::tasks::{Kind, Outcome};

fn write_effect(line: &mut String, effect: bool) -> Result<(), AllocError>
    ensures { OnOk result (string_bytes line.new ≡ string_bytes line.old ++ behind (effect_word effect ∷ [])) }
{
    if effect {
        text(line, " yes")
    } else {
        text(line, " no")
    }
}

fn write_kind(line: &mut String, kind: Kind) -> Result<(), AllocError>
    ensures { OnOk result (string_bytes line.new ≡ string_bytes line.old ++ behind (kind_words kind)) }
{
    match kind {
        Kind::Plain => text(line, " plain"),
        Kind::Future => text(line, " future"),
        Kind::Group(group) => numbered(line, " group ", group),
    }
}

fn write_priority(line: &mut String, priority: u32) -> Result<(), AllocError>
    ensures { OnOk result (string_bytes line.new ≡ string_bytes line.old ++ behind (priority_words priority)) }
{
    if priority == 0 {
        return Ok(());
    }
    numbered(line, " prio ", priority)
}

fn write_looked(line: &mut String, looked: Looked) -> Result<(), AllocError>
    ensures { OnOk result (string_bytes line.new ≡ string_bytes line.old ++ behind (looked_words looked)) }
{
    match looked {
        Looked::Reserve(SlotId(slot)) => numbered(line, " reserve w", slot),
        Looked::Queue => text(line, " queue"),
        Looked::Refuse => text(line, " refuse"),
    }
}

fn write_outcome(line: &mut String, outcome: Outcome) -> Result<(), AllocError>
    ensures { OnOk result (string_bytes line.new ≡ string_bytes line.old ++ behind (outcome_words outcome)) }
{
    match outcome {
        Ok(value) => numbered(line, " value ", value),
        Err(code) => numbered(line, " fault ", code),
    }
}

/// ` submit t0 group 3 prio 5 reserve w0`.
pub fn write_submit(
    line: &mut String,
    task: TaskId,
    kind: Kind,
    priority: u32,
    looked: Looked,
) -> Result<(), AllocError>
    ensures { OnOk result (string_bytes line.new ≡ string_bytes line.old ++ behind (did_words (Did.Submit task kind priority looked))) }
{
    let TaskId(task) = task;
    numbered(line, " submit t", task)?;
    write_kind(line, kind)?;
    write_priority(line, priority)?;
    write_looked(line, looked)
}

/// ` look t0 queue`.
pub fn write_look(line: &mut String, task: TaskId, looked: Looked) -> Result<(), AllocError>
    ensures { OnOk result (string_bytes line.new ≡ string_bytes line.old ++ behind (did_words (Did.Look task looked))) }
{
    let TaskId(task) = task;
    numbered(line, " look t", task)?;
    write_looked(line, looked)
}

/// ` offer t0 hand w0`.
pub fn write_offer(line: &mut String, task: TaskId, offered: Offered) -> Result<(), AllocError>
    ensures { OnOk result (string_bytes line.new ≡ string_bytes line.old ++ behind (did_words (Did.Offer task offered))) }
{
    let TaskId(task) = task;
    numbered(line, " offer t", task)?;
    match offered {
        Offered::Queued => text(line, " queued"),
        Offered::Hand(SlotId(slot)) => numbered(line, " hand w", slot),
        Offered::Full => text(line, " full"),
    }
}

fn write_seconded(line: &mut String, seconded: Seconded) -> Result<(), AllocError>
    ensures { OnOk result (string_bytes line.new ≡ string_bytes line.old ++ behind (seconded_words seconded)) }
{
    match seconded {
        Seconded::Stay => text(line, " stay"),
        Seconded::StayReserve(SlotId(slot)) => numbered(line, " stay reserve w", slot),
        Seconded::Back => text(line, " back"),
    }
}

/// ` second t0 stay reserve w0`.
pub fn write_second(line: &mut String, task: TaskId, seconded: Seconded) -> Result<(), AllocError>
    ensures { OnOk result (string_bytes line.new ≡ string_bytes line.old ++ behind (did_words (Did.Second task seconded))) }
{
    let TaskId(task) = task;
    numbered(line, " second t", task)?;
    write_seconded(line, seconded)
}

/// ` grow t0 reserve w0`.
pub fn write_grow(line: &mut String, task: TaskId, grown: Grown) -> Result<(), AllocError>
    ensures { OnOk result (string_bytes line.new ≡ string_bytes line.old ++ behind (did_words (Did.Grow task grown))) }
{
    let TaskId(task) = task;
    numbered(line, " grow t", task)?;
    match grown {
        Grown::Reserve(SlotId(slot)) => numbered(line, " reserve w", slot),
        Grown::Refuse => text(line, " refuse"),
    }
}

fn write_ruled(line: &mut String, ruled: Ruled) -> Result<(), AllocError>
    ensures { OnOk result (string_bytes line.new ≡ string_bytes line.old ++ behind (ruled_words ruled)) }
{
    match ruled {
        Ruled::Rejected => text(line, " rejected"),
        Ruled::Caller => text(line, " caller"),
        Ruled::Skip => text(line, " skip"),
        Ruled::Discarded => text(line, " discarded"),
        Ruled::Retry => text(line, " retry"),
        Ruled::RetryDrop(TaskId(head)) => numbered(line, " retry drop t", head),
    }
}

/// ` verdict t1 discardoldest retry drop t0`.
pub fn write_verdict(
    line: &mut String,
    task: TaskId,
    verdict: Verdict,
    ruled: Ruled,
) -> Result<(), AllocError>
    ensures { OnOk result (string_bytes line.new ≡ string_bytes line.old ++ behind (did_words (Did.Verdict task verdict ruled))) }
{
    let TaskId(task) = task;
    numbered(line, " verdict t", task)?;
    text(line, " ")?;
    text(line, verdict.name())?;
    write_ruled(line, ruled)
}

/// ` callerend t0 value 5`.
pub fn write_caller_end(line: &mut String, task: TaskId, outcome: Outcome) -> Result<(), AllocError>
    ensures { OnOk result (string_bytes line.new ≡ string_bytes line.old ++ behind (did_words (Did.CallerEnd task outcome))) }
{
    let TaskId(task) = task;
    numbered(line, " callerend t", task)?;
    write_outcome(line, outcome)
}

/// ` open w0 givenup t0 refuse`.
pub fn write_open(line: &mut String, slot: SlotId, opened: Opened) -> Result<(), AllocError>
    ensures { OnOk result (string_bytes line.new ≡ string_bytes line.old ++ behind (did_words (Did.Open slot opened))) }
{
    let SlotId(slot) = slot;
    numbered(line, " open w", slot)?;
    match opened {
        Opened::Live => text(line, " live"),
        Opened::GivenUp => text(line, " givenup"),
        Opened::GivenUpRefuse(TaskId(task)) => {
            numbered(line, " givenup t", task)?;
            text(line, " refuse")
        }
    }
}

/// ` fail w0 t0 offer`.
pub fn write_fail(line: &mut String, slot: SlotId, failed: Failed) -> Result<(), AllocError>
    ensures { OnOk result (string_bytes line.new ≡ string_bytes line.old ++ behind (did_words (Did.Fail slot failed))) }
{
    let SlotId(slot) = slot;
    numbered(line, " fail w", slot)?;
    match failed {
        Failed::Nothing => text(line, " none"),
        Failed::Offer(TaskId(task)) => {
            numbered(line, " t", task)?;
            text(line, " offer")
        }
        Failed::Refuse(TaskId(task)) => {
            numbered(line, " t", task)?;
            text(line, " refuse")
        }
    }
}

/// ` take w0 held t0`.
pub fn write_take(line: &mut String, slot: SlotId, took: Took) -> Result<(), AllocError>
    ensures { OnOk result (string_bytes line.new ≡ string_bytes line.old ++ behind (did_words (Did.Take slot took))) }
{
    let SlotId(slot) = slot;
    numbered(line, " take w", slot)?;
    match took {
        Took::Held(TaskId(task)) => numbered(line, " held t", task),
        Took::Head(TaskId(task)) => numbered(line, " head t", task),
        Took::Leave => text(line, " leave"),
        Took::Idle => text(line, " idle"),
    }
}

/// ` begin w0 skip t0`.
pub fn write_begin(line: &mut String, slot: SlotId, started: Started) -> Result<(), AllocError>
    ensures { OnOk result (string_bytes line.new ≡ string_bytes line.old ++ behind (did_words (Did.Begin slot started))) }
{
    let SlotId(slot) = slot;
    numbered(line, " begin w", slot)?;
    match started {
        Started::Run(TaskId(task)) => numbered(line, " t", task),
        Started::Skip(TaskId(task)) => numbered(line, " skip t", task),
    }
}

/// ` end w0 t0 value 5`.
pub fn write_end(
    line: &mut String,
    slot: SlotId,
    task: TaskId,
    outcome: Outcome,
) -> Result<(), AllocError>
    ensures { OnOk result (string_bytes line.new ≡ string_bytes line.old ++ behind (did_words (Did.End slot task outcome))) }
{
    let SlotId(slot) = slot;
    let TaskId(task) = task;
    numbered(line, " end w", slot)?;
    numbered(line, " t", task)?;
    write_outcome(line, outcome)
}

/// ` leave w0 reserve w0`.
pub fn write_leave(
    line: &mut String,
    slot: SlotId,
    reserved: Option<SlotId>,
) -> Result<(), AllocError>
    ensures { OnOk result (string_bytes line.new ≡ string_bytes line.old ++ behind (did_words (Did.Leave slot reserved))) }
{
    let SlotId(slot) = slot;
    numbered(line, " leave w", slot)?;
    match reserved {
        None => Ok(()),
        Some(SlotId(reserved)) => numbered(line, " reserve w", reserved),
    }
}

/// ` remove t0 yes`.
pub fn write_remove(line: &mut String, task: TaskId, effect: bool) -> Result<(), AllocError>
    ensures { OnOk result (string_bytes line.new ≡ string_bytes line.old ++ behind (did_words (Did.Remove task effect))) }
{
    let TaskId(task) = task;
    numbered(line, " remove t", task)?;
    write_effect(line, effect)
}

/// ` cancel t0 flag yes`.
pub fn write_cancel(
    line: &mut String,
    task: TaskId,
    flag: bool,
    effect: bool,
) -> Result<(), AllocError>
    ensures { OnOk result (string_bytes line.new ≡ string_bytes line.old ++ behind (did_words (Did.Cancel task flag effect))) }
{
    let TaskId(task) = task;
    numbered(line, " cancel t", task)?;
    if flag {
        text(line, " flag")?;
    }
    write_effect(line, effect)
}

fn write_switch(line: &mut String, on: bool) -> Result<(), AllocError>
    ensures { OnOk result (string_bytes line.new ≡ string_bytes line.old ++ behind (switch_word on ∷ [])) }
{
    if on {
        text(line, " on")
    } else {
        text(line, " off")
    }
}

/// ` coretimeout on`.
pub fn write_core_timeout(line: &mut String, on: bool) -> Result<(), AllocError>
    ensures { OnOk result (string_bytes line.new ≡ string_bytes line.old ++ behind (did_words (Did.CoreTimeout on))) }
{
    text(line, " coretimeout")?;
    write_switch(line, on)
}

/// ` prestart reserve w0`.
pub fn write_prestart(line: &mut String, reserved: Option<SlotId>) -> Result<(), AllocError>
    ensures { OnOk result (string_bytes line.new ≡ string_bytes line.old ++ behind (did_words (Did.Prestart reserved))) }
{
    match reserved {
        None => text(line, " prestart none"),
        Some(SlotId(slot)) => numbered(line, " prestart reserve w", slot),
    }
}
