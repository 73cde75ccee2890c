//! `draw`: what a picture shows, gathered entry by entry.

ghost use Rattle.std.specs.Prelude.{◌≡◌, ◌<◌, ◌++◌, IfSome, OnOk, length, map};
ghost use Rattle.tp_story_drawing.specs.Drawn as drawn;

use crate::pictures::picture_of;
use std::alloc::{AllocError, Global};
use tp_audit::auditor::Auditor;
use tp_audit::tables::Tables;
use tp_audit_plain::summary::Flaw;
use tp_record::entries::{Did, Entry, Opened, Ruled, Started, Took};
use tp_story_questions::accounts::{Account, Said};
use tp_story_words::forms::Form;
use tp_types::configs::Config;
use tp_types::ids::{SlotId, TaskId};
use tp_types::refusals::PoolError;

/// What is to be drawn.
#[derive(Clone, Copy, Debug, PartialEq, Eq)]
pub struct Window {
    /// From this entry on.
    pub from: u64,
    /// To this entry; None to the last.
    pub to: Option<u64>,
    /// Whether time runs by ticks, and not by entries.
    pub by_ticks: bool,
}

impl Window {
    /// Whether the entry of this number is drawn.
    fn has(self, number: u64) -> bool
        ensures { result ≡ drawn.is_within self number }
    {
        let is_reached = match self.to {
            Some(to) => number <= to,
            None => true,
        };
        self.from <= number && is_reached
    }
}

/// A run of a task by a slot's worker.
#[derive(Clone, Copy, Debug, PartialEq, Eq)]
pub struct Run {
    /// The slot.
    pub slot: usize,
    /// The task.
    pub task: u32,
    /// When it began.
    pub from: u64,
    /// When it ended; None where it runs on.
    pub to: Option<u64>,
}

/// The time in which a slot has a worker.
#[derive(Clone, Copy, Debug, PartialEq, Eq)]
pub struct Life {
    /// The slot.
    pub slot: usize,
    /// When its worker came; None where that was before all that is drawn.
    pub from: Option<u64>,
    /// When it left; None where it stays.
    pub to: Option<u64>,
}

/// What a caller's step was.
#[derive(Clone, Copy, Debug, PartialEq, Eq)]
pub enum Step {
    /// The submission of the task of this number.
    Submission(u32),
    /// A rejection.
    Rejection,
    /// Another one.
    Other,
}

/// A step of a caller.
#[derive(Clone, Copy, Debug, PartialEq, Eq)]
pub struct Call {
    /// The caller's pass.
    pub by: u32,
    /// When it was.
    pub time: u64,
    /// The entry's number.
    pub number: u64,
    /// What it was.
    pub step: Step,
}

/// Something that concerns the whole pool.
#[derive(Clone, Copy, Debug, PartialEq, Eq)]
pub struct Mark {
    /// When it was.
    pub time: u64,
    /// The entry's number.
    pub number: u64,
    /// What it was.
    pub did: Did,
}

/// How long the queue was from some time on.
#[derive(Clone, Copy, Debug, PartialEq, Eq)]
pub struct Depth {
    /// From when on.
    pub time: u64,
    /// How many tasks were in it.
    pub tasks: usize,
}

/// What a picture shows.
#[derive(Drop)]
pub struct Drawing {
    auditor: Auditor,
    /// What is to be drawn.
    pub window: Window,
    /// The runs of tasks, in the order in which they began.
    pub runs: Vec<Run>,
    /// When slots had workers, in the order in which these came.
    pub lives: Vec<Life>,
    /// The callers' steps.
    pub calls: Vec<Call>,
    /// What concerns the whole pool.
    pub marks: Vec<Mark>,
    /// How long the queue was.
    pub depths: Vec<Depth>,
    /// The first time that is drawn.
    pub first: Option<u64>,
    /// The last time that is drawn.
    pub last: u64,
}

/// What a caller's entry was; None where a worker or a controller made it.
fn step_of(did: Did) -> Option<Step>
    ensures { result ≡ drawn.step_of did }
{
    match did {
        Did::Submit(TaskId(task), ..) => Some(Step::Submission(task)),
        Did::Verdict(_, _, Ruled::Rejected) => Some(Step::Rejection),
        Did::Open(..)
        | Did::Fail(..)
        | Did::Take(..)
        | Did::Begin(..)
        | Did::End(..)
        | Did::Leave(..)
        | Did::Tick(_)
        | Did::Tidy
        | Did::Ended => None,
        _ => Some(Step::Other),
    }
}

/// Whether an entry concerns the whole pool.
fn is_mark(did: Did) -> bool
    ensures { result ≡ drawn.is_mark did }
{
    match did {
        Did::Shutdown | Did::Stop(_) | Did::Tidy | Did::Ended | Did::Tick(_) => true,
        Did::Core(..) | Did::Maximum(_) | Did::Keep(_) | Did::CoreTimeout(_) => true,
        _ => false,
    }
}

/// Notes a caller's step.
fn note_call(calls: &mut Vec<Call>, entry: &Entry, number: u64, time: u64) -> Result<(), AllocError>
    ensures { OnOk result (calls.new.items ≡ calls.old.items ++ drawn.call_of time number entry.now) }
{
    if let Some(step) = step_of(entry.did) {
        calls.push(Call {
            by: entry.by,
            time,
            number,
            step,
        })?;
    }
    Ok(())
}

/// Notes what concerns the whole pool.
fn note_mark(marks: &mut Vec<Mark>, entry: &Entry, number: u64, time: u64) -> Result<(), AllocError>
    ensures { OnOk result (marks.new.items ≡ marks.old.items ++ drawn.mark_of time number entry.now) }
{
    if is_mark(entry.did) {
        marks.push(Mark {
            time,
            number,
            did: entry.did,
        })?;
    }
    Ok(())
}

/// Where the run stands that goes on in this slot, if there is one.
fn open_run(runs: &[Run], slot: usize) -> Option<usize>
    ensures { IfSome result (λ i. i < length runs.now) }
{
    let count = runs.len();
    for back in 0..count {
        let i = count - 1 - back;
        if runs[i].slot == slot && runs[i].to.is_none() {
            return Some(i);
        }
    }
    None
}

/// Notes that the run ends which goes on in this slot, if there is one.
fn end_run(runs: &mut Vec<Run>, slot: usize, time: u64)
    ensures { map drawn.begun runs.new.items ≡ map drawn.begun runs.old.items }
{
    if let Some(i) = open_run(runs.as_slice(), slot) {
        runs[i].to = Some(time);
    }
}

/// Notes that a task's run begins, or ends.
fn note_run(runs: &mut Vec<Run>, did: Did, time: u64) -> Result<(), AllocError>
    ensures { OnOk result (map drawn.begun runs.new.items ≡ map drawn.begun runs.old.items ++ drawn.run_of time did) }
{
    match did {
        Did::Begin(SlotId(slot), Started::Run(TaskId(task))) => runs.push(Run {
            slot,
            task,
            from: time,
            to: None,
        })?,
        Did::End(SlotId(slot), _, _) => end_run(runs, slot, time),
        _ => {}
    }
    Ok(())
}

/// Where the last worker of a slot stands, if there was one.
fn last_life(lives: &[Life], slot: usize) -> Option<usize>
    ensures { IfSome result (λ i. i < length lives.now) }
{
    let count = lives.len();
    for back in 0..count {
        let i = count - 1 - back;
        if lives[i].slot == slot {
            return Some(i);
        }
    }
    None
}

/// Notes that the worker of a slot leaves. One that came before all that is drawn is noted here.
fn end_life(lives: &mut Vec<Life>, slot: usize, time: u64) -> Result<(), AllocError> {
    match last_life(lives.as_slice(), slot) {
        Some(i) => {
            if lives[i].to.is_none() {
                lives[i].to = Some(time);
            }
        }
        None => lives.push(Life {
            slot,
            from: None,
            to: Some(time),
        })?,
    }
    Ok(())
}

/// Notes that a slot's worker comes, or leaves.
fn note_life(lives: &mut Vec<Life>, did: Did, time: u64) -> Result<(), AllocError> {
    match did {
        Did::Open(SlotId(slot), Opened::Live) => lives.push(Life {
            slot,
            from: Some(time),
            to: None,
        })?,
        Did::Take(SlotId(slot), Took::Leave) | Did::Leave(SlotId(slot), _) => {
            end_life(lives, slot, time)?
        }
        _ => {}
    }
    Ok(())
}

/// Notes how long the queue is, where that is new.
fn note_depth(depths: &mut Vec<Depth>, tasks: usize, time: u64) -> Result<(), AllocError> {
    match depths.last() {
        Some(depth) if depth.tasks == tasks => {}
        _ => depths.push(Depth { time, tasks })?,
    }
    Ok(())
}

/// When an entry is drawn, behind which an auditor has these tables.
fn time_of(tables: &Tables, by_ticks: bool) -> u64
    ensures { result ≡ drawn.time_in tables.now by_ticks }
{
    if by_ticks {
        tables.moment
    } else {
        u64::from(tables.steps)
    }
}

/// The earlier time, if there is one.
fn earlier(first: Option<u64>, time: u64) -> Option<u64>
    ensures { result ≡ drawn.earlier first time }
{
    match first {
        Some(first) => Some(first),
        None => Some(time),
    }
}

impl Drawing {
    /// What the entries so far say of the pool.
    pub fn tables(&self) -> &Tables {
        self.auditor.tables()
    }

    /// Notes what is drawn of the entry that was told last.
    fn note(&mut self, entry: &Entry, number: u64, time: u64) -> Result<(), AllocError>
        ensures noted { OnOk result (drawn.IsNoted entry.now number time self.old self.new) }
        ensures auditor { self.new.auditor ≡ self.old.auditor }
        ensures window { self.new.window ≡ self.old.window }
    {
        self.first = earlier(self.first, time);
        self.last = time;
        let tasks = self.auditor.tables().queue.len();
        note_run(&mut self.runs, entry.did, time)?;
        note_call(&mut self.calls, entry, number, time)?;
        note_mark(&mut self.marks, entry, number, time)?;
        note_life(&mut self.lives, entry.did, time)?;
        note_depth(&mut self.depths, tasks, time)
    }
}

impl Account for Drawing {
    ghost use Rattle.std.specs.Prelude.{◌≡◌};
    ghost use Rattle.tp_audit.specs.Audited as audited;
    ghost use Rattle.tp_story_drawing.specs.Drawn as drawn;

    type Question = Window;

    ghost settings = { λ d. audited.settings d.auditor };

    ghost is_asked = { λ q d. d.window ≡ q };

    ghost tells = { λ d h. drawn.IsDrawn d h };

    ghost says = { λ d h form out holds. drawn.Says d out holds };

    fn begin(alloc: Global, config: &Config, question: &Window) -> Result<Drawing, Flaw> {
        match Auditor::new(alloc, config) {
            Ok(auditor) => Ok(Drawing {
                auditor,
                window: *question,
                runs: Vec::new(alloc),
                lives: Vec::new(alloc),
                calls: Vec::new(alloc),
                marks: Vec::new(alloc),
                depths: Vec::new(alloc),
                first: None,
                last: 0,
            }),
            Err(flaw) => Err(flaw),
        }
    }

    fn tell(&mut self, entry: &Entry) -> Result<(), Flaw> {
        match self.auditor.push(entry) {
            Ok(()) => {}
            Err(flaw) => return Err(flaw),
        }
        let number = u64::from(self.auditor.tables().steps);
        if !self.window.has(number) {
            return Ok(());
        }
        let time = time_of(self.auditor.tables(), self.window.by_ticks);
        match self.note(entry, number, time) {
            Ok(()) => Ok(()),
            Err(_) => Err(Flaw::NoMemory),
        }
    }

    fn auditor(&self) -> &Auditor {
        &self.auditor
    }

    fn say(&self, alloc: Global, _form: Form) -> Result<Said, PoolError> {
        if self.first.is_none() {
            let entries = self.auditor.tables().steps;
            let complaint = format!(in alloc;
                "no entry is drawn; the record has {entries} of them"
            )?;
            return Ok(Said {
                text: Vec::new(alloc),
                holds: false,
                complaint: Some(complaint),
            });
        }
        let text = picture_of(alloc, self)?;
        Ok(Said {
            text,
            holds: true,
            complaint: None,
        })
    }
}
