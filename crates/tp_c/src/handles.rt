//! Machines behind a handle.

ghost use Rattle.std.specs.Prelude.{◌≡◌, ◌⊎◌, false, IfErr, IfNone, IfOk, IfSome, OnErr};
ghost use Rattle.tp_record.specs.State.{counts as counts_of, fate_of, task_at};
ghost use Rattle.tp_record.specs.Step.{is_known, slot_count};
ghost use Rattle.tp_machine.specs.Readings.{EachState};
ghost use Rattle.tp_machine.specs.Steps.{IsStep, Stays};
ghost use Rattle.tp_machine.specs.Stepped.{IsAnswer, IsPaid, did_of};
ghost use Rattle.tp_machine.specs.Typed.{IsDeniedBy};
ghost use Rattle.tp_c.specs.Handles.{Denies, IsStepped, Same, Steps, told};
ghost use Rattle.tp_text.specs.Pools.{FitsPool, pool_text};
ghost use Rattle.tp_c.specs.Opening.{IsNew, IsNoPoolLine, IsOpened, IsUnmade, IsUnopened};
ghost use Rattle.tp_c.specs.Views.{Each, IsForgotten, IsHanded, IsNotForgotten, IsRecordLaid, IsTaskTold, Releases, Sees, SeesTask, counts_in, fate_number as fate_numbered, place_number, place_slot};

use crate::answers::{Answer, NO_SLOT, PoolView, TaskView};
use crate::asking::Asking;
use crate::numbers::{answer_of, has_left};
use crate::rooms::lay;
use crate::statuses::Status;
use std::alloc::Global;
use tp_machine::machine::Machine;
use tp_machine::steps::Stepped;
use tp_machine::typed::Step;
use tp_machine::typed::asked::Asked;
use tp_record::entries::Ask;
use tp_record::packed::unpacked;
use tp_record::recorders::{Full, Recorder, Tally};
use tp_text::lines::clean_text;
use tp_text::pools::{PoolLine, pool_of};
use tp_text_record::writing::record_text;
use tp_types::configs::Config;
use tp_types::ids::TaskId;
use tp_types::refusals::PoolError;
use tp_types::tasks::{Fate, Place, Promise, WIDEST};

/// A machine, with its record or without one. Its payloads stay with the caller.
#[derive(Drop)]
pub enum Kept {
    /// It keeps its record.
    Full(Machine<(), Full>),
    /// It keeps only how long its record is.
    Tallied(Machine<(), Tally>),
}

/// A machine, its settings, and the tasks that its last stop handed back.
#[derive(Drop)]
pub struct Handle {
    /// The machine.
    pub kept: Kept,
    /// The settings that it was made with.
    pub config: Config,
    /// What its last stop handed back, in the queue's order.
    pub handed: Vec<(TaskId, Option<()>)>,
}

// What comes with an ask: a submission promises nothing of its outcome.
fn load_of(ask: &Ask) -> Option<(Promise, ())>
    ensures { IsPaid ask.now result }
{
    match ask {
        Ask::Submit(..) => Some((WIDEST, ())),
        _ => None,
    }
}

/// The numbers of a place, and of the slot that it is in.
fn place_numbers(place: Place) -> (u32, u64)
    ensures place { result.0 ≡ place_number place }
    ensures slot { result.1 ≡ place_slot place }
{
    match place {
        Place::Looking => (0, NO_SLOT),
        Place::ToOffer => (1, NO_SLOT),
        Place::ToGrow => (2, NO_SLOT),
        Place::Refused => (3, NO_SLOT),
        Place::Queued => (4, NO_SLOT),
        Place::Held(slot) => (5, slot.0 as u64),
        Place::Taken(slot) => (6, slot.0 as u64),
        Place::Running(slot) => (7, slot.0 as u64),
        Place::Caller => (8, NO_SLOT),
        Place::Gone => (9, NO_SLOT),
    }
}

/// The number of a fate, or of none.
fn fate_number(fate: Option<Fate>) -> u32
    ensures { result ≡ fate_numbered fate }
{
    match fate {
        None => 0,
        Some(Fate::Run) => 1,
        Some(Fate::RunByCaller) => 2,
        Some(Fate::Rejected) => 3,
        Some(Fate::Discarded) => 4,
        Some(Fate::HandedBack) => 5,
        Some(Fate::Removed) => 6,
        Some(Fate::Cancelled) => 7,
    }
}

/// What is seen of a machine now.
fn pool_view<R: Recorder>(machine: &Machine<(), R>) -> PoolView
    ensures counts { EachState R.tells machine.now (λ s. counts_in result ≡ counts_of s) }
    ensures state { EachState R.tells machine.now (λ s. result.state ≡ s.rank) }
    ensures core { EachState R.tells machine.now (λ s. result.core ≡ s.core) }
    ensures slots { EachState R.tells machine.now (λ s. result.slots ≡ slot_count s) }
    ensures now { EachState R.tells machine.now (λ s. result.now ≡ s.now) }
    ensures steps { EachState R.tells machine.now (λ s. result.steps ≡ s.steps) }
{
    let counts = machine.counts();
    PoolView {
        state: u32::from(machine.state().rank()),
        submitted: counts.submitted,
        run: counts.run,
        caller: counts.caller,
        rejected: counts.rejected,
        discarded: counts.discarded,
        handedback: counts.handedback,
        removed: counts.removed,
        cancelled: counts.cancelled,
        completed: counts.completed,
        queued: counts.queued,
        live: counts.live,
        largest: counts.largest,
        core: machine.core_size(),
        slots: machine.slots() as u64,
        now: machine.now(),
        steps: machine.steps(),
    }
}

/// What is seen of a task now. UnknownTask (6).
fn task_view<R: Recorder>(machine: &Machine<(), R>, task: TaskId) -> Result<TaskView, PoolError>
    ensures place { IfOk result (λ v. EachState R.tells machine.now (λ s. v.place ≡ place_number (task_at s task.0).place)) }
    ensures slot { IfOk result (λ v. EachState R.tells machine.now (λ s. v.slot ≡ place_slot (task_at s task.0).place)) }
    ensures fate { IfOk result (λ v. EachState R.tells machine.now (λ s. v.fate ≡ fate_numbered (fate_of (task_at s task.0)))) }
    ensures unknown { IfErr result (λ e. (e ≡ PoolError.UnknownTask) × EachState R.tells machine.now (λ s. is_known s task.0 ≡ false)) }
{
    let place = match machine.place(task) {
        Ok(place) => place,
        Err(error) => return Err(error),
    };
    let fate = match machine.fate(task) {
        Ok(fate) => fate_number(fate),
        Err(error) => return Err(error),
    };
    let (place, slot) = place_numbers(place);
    Ok(TaskView { place, fate, slot })
}

// The step of an ask.
fn make<R: Recorder>(
    machine: &mut Machine<(), R>,
    by: u32,
    ask: Ask,
) -> Result<Stepped<()>, PoolError>
    ensures answer { IfOk result (λ s. IsAnswer ask s) }
    ensures step { IfOk result (λ s. IsStep R.tells machine.old machine.new by ask (did_of ask s)) }
    ensures denied { IfErr result (λ e. IsDeniedBy R.tells machine.old ask e) }
    ensures unchanged { OnErr result (Stays R.tells machine.old machine.new) }
{
    match Asked(ask).make(by, load_of(&ask), machine) {
        Ok(stepped) => Ok(stepped),
        Err((error, _)) => Err(error),
    }
}

impl Kept {
    /// The step of an ask, with the number of the pass that asks. The error is the machine's, and nothing has changed.
    fn step(&mut self, by: u32, ask: Ask) -> Result<Stepped<()>, PoolError>
        ensures answer { IfOk result (λ s. IsAnswer ask s) }
        ensures step { IfOk result (λ s. Steps self.old self.new by ask (did_of ask s)) }
        ensures denied { IfErr result (λ e. Denies self.old ask e) }
        ensures unchanged { OnErr result (Same self.old self.new) }
    {
        match self {
            Kept::Full(machine) => make(machine, by, ask),
            Kept::Tallied(machine) => make(machine, by, ask),
        }
    }
}

/// Forgets a task that is gone and owes nothing. UnknownTask (6), or NotThere (8) where the task is not so.
fn forget(machine: &mut Machine<(), Tally>, task: u32) -> u32
    ensures { IsForgotten machine.old machine.new task result ⊎ IsNotForgotten machine.old machine.new task result }
{
    match machine.release(TaskId(task)) {
        Ok(()) => Status::Done.number(),
        Err(error) => Status::Refused(error).number(),
    }
}

impl Kept {
    /// What is seen of the pool now.
    fn view(&self) -> PoolView
        ensures { Sees self.now result }
    {
        match self {
            Kept::Full(machine) => pool_view(machine),
            Kept::Tallied(machine) => pool_view(machine),
        }
    }

    /// What is seen of a task now. UnknownTask (6).
    fn task(&self, task: TaskId) -> Result<TaskView, PoolError>
        ensures seen { IfOk result (λ v. SeesTask self.now task.0 v) }
        ensures unknown { IfErr result (λ e. (e ≡ PoolError.UnknownTask) × Each self.now (λ s. is_known s task.0 ≡ false)) }
    {
        match self {
            Kept::Full(machine) => task_view(machine, task),
            Kept::Tallied(machine) => task_view(machine, task),
        }
    }
}

/// The pool that a line says, without its line feed.
fn pool_line(line: &[u8]) -> Option<PoolLine>
    ensures reads { IfSome result (λ p. FitsPool p × (line.now ≡ pool_text p)) }
    ensures none { IfNone result (IsNoPoolLine line.now) }
{
    pool_of(clean_text(line)?)
}

/// A machine that nothing has been asked of, and which keeps its record (0) or its length alone (1). WrongKind (34) where there is no such
/// recorder, else as `Machine::new`.
fn kept_of(alloc: Global, config: Config, recorder: u32) -> Result<Kept, Status>
    ensures new { IfOk result (λ k. IsNew recorder config k) }
    ensures refused { IfErr result (λ s. IsUnmade recorder config s) }
{
    match recorder {
        0 => match Machine::new(alloc, config) {
            Ok(machine) => Ok(Kept::Full(machine)),
            Err(error) => Err(Status::Refused(error)),
        },
        1 => match Machine::tallied(alloc, config) {
            Ok(machine) => Ok(Kept::Tallied(machine)),
            Err(error) => Err(Status::Refused(error)),
        },
        _ => Err(Status::WrongKind),
    }
}

impl Handle {
    /// A pool of this pool line, without a line feed, which has no tasks and keeps its record (0) or its length alone (1). BadLine (23)
    /// where the line is none, else as `kept_of`.
    pub fn new(alloc: Global, line: &[u8], recorder: u32) -> Result<Handle, Status>
        ensures opens { IfOk result (λ h. IsOpened line.now recorder h) }
        ensures refuses { IfErr result (λ s. IsUnopened line.now recorder s) }
    {
        let Some(pool) = pool_line(line) else {
            return Err(Status::Refused(PoolError::BadLine(1)));
        };
        let config = pool.config();
        match kept_of(alloc, config, recorder) {
            Ok(kept) => Ok(Handle {
                kept,
                config,
                handed: Vec::new(alloc),
            }),
            Err(status) => Err(status),
        }
    }

    // Tells what was answered, and keeps which tasks a stop handed back.
    fn tell(&mut self, ask: Ask, stepped: Stepped<()>) -> Answer
        requires { IsAnswer ask stepped }
        ensures answer { result ≡ told ask stepped }
        ensures kept { self.new.kept ≡ self.old.kept }
    {
        let answer = answer_of(stepped.did(&ask)).left(has_left(&stepped));
        if let Stepped::Stop(handed) = stepped {
            self.handed = handed;
        }
        answer
    }

    /// Makes the step that these numbers ask for, with the number of the pass that asks, and tells what was answered: Done (0). A step
    /// that the machine denies has its refusal's number, and numbers that ask nothing are WrongAsk (35): nothing has changed then.
    pub fn step(&mut self, by: u32, asking: Asking, answer: &mut Answer) -> u32
        ensures { IsStepped self.old self.new by asking answer.old answer.new result }
    {
        let Some(ask) = asking.ask() else {
            return Status::WrongAsk.number();
        };
        match self.kept.step(by, ask) {
            Ok(stepped) => {
                *answer = self.tell(ask, stepped);
                Status::Done.number()
            }
            Err(error) => Status::Refused(error).number(),
        }
    }

    /// What is seen of the pool now.
    pub fn view(&self) -> PoolView
        ensures { Sees self.now.kept result }
    {
        self.kept.view()
    }

    /// Tells what is seen of a task now. UnknownTask (6), and nothing is told.
    pub fn task(&self, task: u32, view: &mut TaskView) -> u32
        ensures { IsTaskTold self.now.kept task view.old view.new result }
    {
        match self.kept.task(TaskId(task)) {
            Ok(seen) => {
                *view = seen;
                Status::Done.number()
            }
            Err(error) => Status::Refused(error).number(),
        }
    }

    /// Tells which task the last stop handed back at this index, in the queue's order. UnknownTask (6) behind the last one.
    pub fn handed(&self, index: usize, task: &mut u32) -> u32
        ensures { IsHanded self.now.handed.items index task.old task.new result }
    {
        match self.handed.get(index) {
            Some((handed, _)) => {
                *task = handed.0;
                Status::Done.number()
            }
            None => Status::Refused(PoolError::UnknownTask).number(),
        }
    }

    /// Lays the text of the record into the room. WrongKind (34) where none is kept, NoMemory (4), TooSmall (33).
    pub fn record(&self, alloc: Global, room: &mut [u8], needed: &mut usize) -> u32
        ensures { IsRecordLaid self.now room.old room.new needed.new result }
    {
        let Kept::Full(machine) = &self.kept else {
            return Status::WrongKind.number();
        };
        let Ok(entries) = unpacked(alloc, machine.entries()) else {
            return Status::Refused(PoolError::NoMemory).number();
        };
        match record_text(alloc, &self.config, &entries) {
            Ok(text) => lay(text.as_slice(), Status::Done, room, needed),
            Err(error) => Status::Refused(error).number(),
        }
    }

    /// Forgets a task that is gone and owes nothing, where no record is kept. WrongKind (34) where one is, UnknownTask (6), or NotThere
    /// (8) where the task is not so.
    pub fn release(&mut self, task: u32) -> u32
        ensures released { Releases self.old.kept self.new.kept task result }
        ensures handed { self.new.handed ≡ self.old.handed }
        ensures config { self.new.config ≡ self.old.config }
    {
        match &mut self.kept {
            Kept::Full(_) => Status::WrongKind.number(),
            Kept::Tallied(machine) => forget(machine, task),
        }
    }
}
