//! A story, told line by line.

ghost use Rattle.std.specs.Prelude.{◌≡◌, ◌++◌, ℕ, List, OnOk, Some, string_bytes};
ghost use Rattle.tp_record.specs.declared.entries.Entry.{Entry as Told};
ghost use Rattle.tp_record.specs.State.{state};
ghost use Rattle.tp_audit.specs.Audited.{settings};
ghost use Rattle.tp_text.specs.Lines.{HasNoLineFeed};
ghost use Rattle.tp_story.specs.Stories.{Tells, fate_in};
ghost use Rattle.tp_story_words.specs.Lines.{AreLines, IsEnd, IsLine, IsToldStory, event_line};

use crate::amounts::Amount;
use crate::forms::{Form, Quoted, one_line, write_line};
use crate::objects::entry_members;
use crate::words::{Earlier, ShownEvent, ShownKind};
use std::alloc::{AllocError, Global};
use std::fmt;
use tp_audit::tables::Tables;
use tp_audit_causes::rows::{ShownSlot, ShownTask};
use tp_record::rows::TaskRow;
use tp_story::events::Event;
use tp_story::stories::Story;
use tp_story::subjects::Subject;
use tp_types::ids::{SlotId, TaskId};
use tp_types::tasks::{Fate, Kind, Place};

/// What stands above a story, in words.
fn head_in_words(alloc: Global, story: &Story) -> Result<String, AllocError> {
    let subject = story.subject();
    let entries = Amount::Entries(story.events().len() as u64);
    let tell = if story.events().len() == 1 {
        "tells"
    } else {
        "tell"
    };
    let Some(row) = row_of(story) else {
        return format!(in alloc; "{subject}: {entries} {tell} of it");
    };
    let kind = ShownKind(row.kind);
    let priority = row.priority;
    if priority == 0 {
        format!(in alloc; "{subject}, {kind}: {entries} {tell} of it")
    } else {
        format!(in alloc; "{subject}, {kind} of priority {priority}: {entries} {tell} of it")
    }
}

/// A kind as a record writes it, as `group 3`.
#[derive(Clone, Copy)]
struct KindWords(Kind);

impl fmt::Display for KindWords {
    fn fmt<W: fmt::Write>(&self, f: &mut fmt::Formatter<W>) -> fmt::Result {
        match self.0 {
            Kind::Plain => f.write_str("plain"),
            Kind::Future => f.write_str("future"),
            Kind::Group(group) => write!(f, "group {group}"),
        }
    }
}

/// What stands above a story, as JSON.
fn head_as_json(alloc: Global, story: &Story) -> Result<String, AllocError> {
    let entries = story.events().len();
    match (story.subject(), row_of(story)) {
        (Subject::Task(TaskId(t)), Some(row)) => {
            let kind = KindWords(row.kind);
            let priority = row.priority;
            format!(in alloc;
                "{{\"task\":{t},\"kind\":\"{kind}\",\"priority\":{priority},\"entries\":{entries}}}"
            )
        }
        (Subject::Task(TaskId(t)), None) => {
            format!(in alloc; "{{\"task\":{t},\"entries\":{entries}}}")
        }
        (Subject::Slot(SlotId(w)), _) => {
            format!(in alloc; "{{\"slot\":{w},\"entries\":{entries}}}")
        }
    }
}

/// The task's row at the end of what was told, where the story is of one that was submitted.
fn row_of(story: &Story) -> Option<TaskRow> {
    match story.subject() {
        Subject::Task(TaskId(t)) => story.tables().tasks.get(t as usize).copied(),
        Subject::Slot(_) => None,
    }
}

/// Writes the line above a story.
fn write_head(alloc: Global, text: &mut String, story: &Story, form: Form) -> Result<(), AllocError>
    ensures { OnOk result ((line : List ℕ) × IsLine line × (string_bytes text.new ≡ string_bytes text.old ++ line)) }
{
    let head = match form {
        Form::Words => head_in_words(alloc, story)?,
        Form::Json => head_as_json(alloc, story)?,
    };
    write_line(text, head.as_str())
}

/// How many tasks stand in the queue before this one.
fn tasks_before(tables: &Tables, task: u32) -> u64 {
    let mut count = 0u64;
    let mut next = tables.queue.first();
    for _ in 0..tables.queue.len() {
        let Some(t) = next else {
            return count;
        };
        if t == task {
            return count;
        }
        count = count.saturating_add(1);
        next = tables.queue.next_after(t);
    }
    count
}

/// How many numbers are looked at for slots, and how many workers are named.
const LOOKED: usize = 2_048;

const NAMED: usize = 8;

/// The workers that have a task, and what they do with it.
#[derive(Clone, Copy)]
struct ShownWorkers<'a>(&'a Tables);

impl fmt::Display for ShownWorkers<'_> {
    fn fmt<W: fmt::Write>(&self, f: &mut fmt::Formatter<W>) -> fmt::Result {
        let tables = self.0;
        let workers = Amount::LiveWorkers(tables.slots.live() as u64);
        write!(f, "{workers}")?;
        let mut named = 0usize;
        for w in 0..LOOKED {
            let slot = SlotId(w);
            if named < NAMED && has_task(tables, slot) {
                named += 1;
                let shown = ShownSlot { tables, slot };
                write!(f, ", {shown}")?;
            }
        }
        Ok(())
    }
}

/// Whether there is such a slot, and it has a task.
fn has_task(tables: &Tables, slot: SlotId) -> bool {
    match tables.slots.get(slot) {
        Some(row) => row.task.is_some(),
        None => false,
    }
}

/// What a task waits for that is open.
#[derive(Clone, Copy)]
struct Waiting<'a> {
    tables: &'a Tables,
    task: TaskId,
    place: Place,
}

impl fmt::Display for Waiting<'_> {
    fn fmt<W: fmt::Write>(&self, f: &mut fmt::Formatter<W>) -> fmt::Result {
        let shown = ShownTask {
            tables: self.tables,
            task: self.task,
        };
        write!(f, "{shown}")?;
        let TaskId(t) = self.task;
        match self.place {
            Place::Queued => {
                let before = Amount::Tasks(tasks_before(self.tables, t));
                let workers = ShownWorkers(self.tables);
                write!(f, ", {before} before it; {workers}")
            }
            Place::Held(slot) => {
                let tables = self.tables;
                let shown = ShownSlot { tables, slot };
                write!(f, "; {shown}")
            }
            _ => Ok(()),
        }
    }
}

/// Where what was told leaves the subject, in words.
fn left_in_words(alloc: Global, story: &Story) -> Result<String, AllocError> {
    let tables = story.tables();
    match (story.subject(), row_of(story)) {
        (Subject::Task(task), Some(row)) => {
            let waiting = Waiting {
                tables,
                task,
                place: row.place,
            };
            format!(in alloc; "{waiting}")
        }
        (Subject::Task(task), None) => {
            let shown = ShownTask { tables, task };
            format!(in alloc; "{shown}")
        }
        (Subject::Slot(slot), _) => {
            let shown = ShownSlot { tables, slot };
            format!(in alloc; "{shown}")
        }
    }
}

/// Writes where what was told leaves the subject.
fn write_left(alloc: Global, text: &mut String, story: &Story, form: Form) -> Result<(), AllocError>
    ensures { OnOk result ((line : List ℕ) × IsLine line × (string_bytes text.new ≡ string_bytes text.old ++ line)) }
{
    let words = left_in_words(alloc, story)?;
    let words = words.as_str();
    let quoted = Quoted(words);
    let line = match (form, story.subject()) {
        (Form::Words, Subject::Task(_)) => format!(in alloc; "open: {words}")?,
        (Form::Words, Subject::Slot(_)) => format!(in alloc; "at the end: {words}")?,
        (Form::Json, Subject::Task(_)) => format!(in alloc; "{{\"open\":{quoted}}}")?,
        (Form::Json, Subject::Slot(_)) => format!(in alloc; "{{\"state\":{quoted}}}")?,
    };
    write_line(text, line.as_str())
}

/// Writes a fate, and the entry that gave it.
fn write_fate(text: &mut String, fate: Fate, number: u64, form: Form) -> Result<(), AllocError>
    ensures { OnOk result ((line : List ℕ) × IsEnd form (Some fate) (Some number) line × (string_bytes text.new ≡ string_bytes text.old ++ line)) }
{
    let name = fate.name();
    match form {
        Form::Words => write!(text, "fate: {name}, at entry {number}\n"),
        Form::Json => write!(text, "{{\"fate\":\"{name}\",\"at\":{number}}}\n"),
    }
}

/// Writes what the story comes to.
fn write_end(alloc: Global, text: &mut String, story: &Story, form: Form) -> Result<(), AllocError>
    ensures { OnOk result ((h : List Told) → Tells story.now h → (line : List ℕ)
        × IsEnd form (fate_in (state (settings story.now.judge) h) story.now.subject) story.now.fated line × (string_bytes text.new ≡ string_bytes text.old ++ line)) }
{
    match story.fate() {
        Some(fate) => match story.fated() {
            Some(number) => write_fate(text, fate, number, form),
            None => write_left(alloc, text, story, form),
        },
        None => write_left(alloc, text, story, form),
    }
}

/// What the line of an event says behind its number.
fn words_of(alloc: Global, shown: ShownEvent<'_>, form: Form) -> Result<String, AllocError> {
    let words = format!(in alloc; "{shown}")?;
    if form == Form::Words {
        return Ok(words);
    }
    let members = entry_members(alloc, &shown.event.entry)?;
    let members = members.as_str();
    let words = Quoted(words.as_str());
    format!(in alloc; "{members},\"words\":{words}}}")
}

/// Writes the line of an event.
fn write_event(
    alloc: Global,
    text: &mut String,
    shown: ShownEvent<'_>,
    form: Form,
) -> Result<(), AllocError>
    ensures { OnOk result ((words : List ℕ) × HasNoLineFeed words × (string_bytes text.new ≡ string_bytes text.old ++ event_line form shown.entry.event.now.number words)) }
{
    let words = words_of(alloc, shown, form)?;
    let words = one_line(words.as_str());
    let number = shown.event.number;
    match form {
        Form::Words => write!(text, "{number:>8}  {words}\n"),
        Form::Json => write!(text, "{{\"number\":{number},{words}\n"),
    }
}

/// Writes a line for each event.
fn write_events(
    alloc: Global,
    text: &mut String,
    subject: Subject,
    events: &[Event],
    form: Form,
) -> Result<(), AllocError>
    ensures { OnOk result ((lines : List ℕ) × AreLines form events.now lines × (string_bytes text.new ≡ string_bytes text.old ++ lines)) }
{
    let mut earlier = Earlier::none();
    for event in events {
        let shown = ShownEvent {
            subject,
            event,
            earlier: &earlier,
        };
        write_event(alloc, text, shown, form)?;
        earlier = earlier.and(event);
    }
    Ok(())
}

/// Writes a story behind what is written: a line above, a line for each entry that tells of its subject and for no other, and
/// what it comes to. Where room is missing, some of it may be written.
pub fn write_story(
    alloc: Global,
    text: &mut String,
    story: &Story,
    form: Form,
) -> Result<(), AllocError>
    ensures { OnOk result ((h : List Told) → Tells story.now h → (out : List ℕ)
        × IsToldStory form story.now.events (fate_in (state (settings story.now.judge) h) story.now.subject) story.now.fated out × (string_bytes text.new ≡ string_bytes text.old ++ out)) }
{
    write_head(alloc, text, story, form)?;
    write_events(alloc, text, story.subject(), story.events(), form)?;
    write_end(alloc, text, story, form)
}
