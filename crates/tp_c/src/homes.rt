//! The memory that a caller gives for a machine.

ghost use Rattle.std.specs.Prelude.{◌≡◌, None};
ghost use Rattle.tp_c.specs.Handles.{IsStepped};
ghost use Rattle.tp_c.specs.Homes.{OnMachine, OnStep, OpensAt};
ghost use Rattle.tp_c.specs.Views.{IsHanded, IsRecordLaid, IsReleased, IsTaskTold, Sees};

use crate::answers::{Answer, PoolView, TaskView};
use crate::asking::Asking;
use crate::handles::Handle;
use crate::statuses::Status;
use std::alloc::Global;

/// What lies there: a machine, or none yet or any more.
#[derive(Drop)]
pub struct Home {
    /// By which the machine takes its memory.
    pub alloc: Global,
    /// The machine.
    pub handle: Option<Handle>,
}

impl Home {
    /// No machine yet.
    pub(crate) fn empty(alloc: Global) -> Home
        ensures { result.handle ≡ None }
    {
        Home {
            alloc,
            handle: None,
        }
    }
}

/// Opens a machine where none is. WrongKind (34) where one is, else as `Handle::new`.
pub(crate) fn open_of(home: &mut Home, line: &[u8], recorder: u32) -> u32
    ensures { OpensAt home.old.handle home.new.handle line.now recorder result × (home.new.alloc ≡ home.old.alloc) }
{
    match &home.handle {
        Some(_) => Status::WrongKind.number(),
        None => match Handle::new(home.alloc, line, recorder) {
            Ok(handle) => {
                home.handle = Some(handle);
                Status::Done.number()
            }
            Err(status) => status.number(),
        },
    }
}

/// Makes one step.
pub(crate) fn step_of(
    home: &mut Home,
    by: u32,
    what: u32,
    first: u64,
    second: u64,
    value: i64,
    answer: &mut Answer,
) -> u32
    ensures { OnStep home.old.handle home.new.handle (λ h k. IsStepped h k by (record { what = what; first = first; second = second; value = value }) answer.old answer.new result)
        ((answer.new ≡ answer.old) × (result ≡ 34)) }
{
    let asking = Asking {
        what,
        first,
        second,
        value,
    };
    match &mut home.handle {
        Some(handle) => handle.step(by, asking, answer),
        None => Status::WrongKind.number(),
    }
}

/// Tells what is seen of the pool now.
pub(crate) fn view_of(home: &mut Home, view: &mut PoolView) -> u32
    ensures { (home.new ≡ home.old) × OnMachine home.old.handle (λ h. Sees h.kept view.new × (result ≡ 0)) ((view.new ≡ view.old) × (result ≡ 34)) }
{
    match &home.handle {
        Some(handle) => {
            *view = handle.view();
            Status::Done.number()
        }
        None => Status::WrongKind.number(),
    }
}

/// Tells what is seen of a task now.
pub(crate) fn task_of(home: &mut Home, task: u32, view: &mut TaskView) -> u32
    ensures { (home.new ≡ home.old) × OnMachine home.old.handle (λ h. IsTaskTold h.kept task view.old view.new result) ((view.new ≡ view.old) × (result ≡ 34)) }
{
    match &home.handle {
        Some(handle) => handle.task(task, view),
        None => Status::WrongKind.number(),
    }
}

/// Tells which task the last stop handed back at this index.
pub(crate) fn handed_of(home: &mut Home, index: usize, task: &mut u32) -> u32
    ensures { (home.new ≡ home.old) × OnMachine home.old.handle (λ h. IsHanded h.handed.items index task.old task.new result) ((task.new ≡ task.old) × (result ≡ 34)) }
{
    match &home.handle {
        Some(handle) => handle.handed(index, task),
        None => Status::WrongKind.number(),
    }
}

/// Lays the text of the record into the room.
pub(crate) fn record_of(home: &mut Home, room: &mut [u8], needed: &mut usize) -> u32
    ensures { (home.new ≡ home.old) × OnMachine home.old.handle (λ h. IsRecordLaid h room.old room.new needed.new result) ((room.new ≡ room.old) × (result ≡ 34)) }
{
    match &home.handle {
        Some(handle) => handle.record(home.alloc, room, needed),
        None => Status::WrongKind.number(),
    }
}

/// Forgets a task that is gone and owes nothing, where no record is kept.
pub(crate) fn release_of(home: &mut Home, task: u32) -> u32
    ensures { OnStep home.old.handle home.new.handle (λ h k. IsReleased h k task result) (result ≡ 34) }
{
    match &mut home.handle {
        Some(handle) => handle.release(task),
        None => Status::WrongKind.number(),
    }
}

/// Drops the machine, where one is.
pub(crate) fn close_of(home: &mut Home) -> u32
    ensures { (home.new.handle ≡ None) × (result ≡ 0) }
{
    home.handle = None;
    Status::Done.number()
}
