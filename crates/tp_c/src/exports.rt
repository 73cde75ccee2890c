//! The calls on a machine, as C makes them. A caller gives the memory for it: `zk_core_size` bytes, aligned as `malloc` aligns. The pointer
//! is one at which `zk_core_init` was called.
ghost use Rattle.std.specs.Prelude.{◌≡◌, None};
ghost use Rattle.std.specs.Borrow.{sem};
ghost use Rattle.std.specs.Ptr.{points_to, room_at};
ghost use prog.Memory.{capped, size};
ghost use denote.Param.{layout};
ghost use Rattle.tp_c.specs.contracts.homes.Home.{the_row};
ghost use Rattle.tp_c.specs.Handles.{IsStepped};
ghost use Rattle.tp_c.specs.Homes.{OnMachine, OnStep, OpensAt};
ghost use Rattle.tp_c.specs.Views.{IsHanded, IsRecordLaid, IsReleased, IsTaskTold, Sees};

use crate::answers::{Answer, PoolView, TaskView};
use crate::homes::{
    Home, close_of, handed_of, open_of, record_of, release_of, step_of, task_of, view_of,
};
use std::alloc::Global;

/// How many bytes of memory a machine lies in.
#[unsafe(no_mangle)]
pub extern "C" fn zk_core_size() -> usize
    ensures { result ≡ capped (size (layout the_row)) }
{
    std::mem::size_of::<Home>()
}

/// Makes the caller's memory one that holds no machine yet.
#[unsafe(no_mangle)]
pub unsafe extern "C" fn zk_core_init(alloc: Global, home: *mut u8)
    requires* { sem 𝓛 (room_at the_row home) }
    ensures* { ∃ₛ (λ (after : Home). sem 𝓛 (points_to the_row home after) ∗ ⌜ after.handle ≡ None ⌝) }
{
    std::ptr::write(home as *mut Home, Home::empty(alloc));
}

/// Makes the step that these numbers ask for, with the number of the pass that asks, and tells what was answered.
#[unsafe(no_mangle)]
pub unsafe extern "C" fn zk_core_step(
    home: *mut u8,
    by: u32,
    what: u32,
    first: u64,
    second: u64,
    value: i64,
    answer: &mut Answer,
) -> u32
    ghost before: { Home }
    requires* { sem 𝓛 (points_to the_row home before) }
    ensures* { ∃ₛ (λ (after : Home). sem 𝓛 (points_to the_row home after) ∗ ⌜ OnStep before.handle after.handle (λ h k. IsStepped h k by (record { what = what; first = first; second = second; value = value }) answer.old answer.new result) ((answer.new ≡ answer.old) × (result ≡ 34)) ⌝) }
{
    step_of(
        &mut *(home as *mut Home),
        by,
        what,
        first,
        second,
        value,
        answer,
    )
}

/// Tells what is seen of the pool now.
#[unsafe(no_mangle)]
pub unsafe extern "C" fn zk_core_view(home: *mut u8, view: &mut PoolView) -> u32
    ghost before: { Home }
    requires* { sem 𝓛 (points_to the_row home before) }
    ensures* { ∃ₛ (λ (after : Home). sem 𝓛 (points_to the_row home after) ∗ ⌜ (after ≡ before) × OnMachine before.handle (λ h. Sees h.kept view.new × (result ≡ 0)) ((view.new ≡ view.old) × (result ≡ 34)) ⌝) }
{
    view_of(&mut *(home as *mut Home), view)
}

/// Tells what is seen of a task now.
#[unsafe(no_mangle)]
pub unsafe extern "C" fn zk_core_task(home: *mut u8, task: u32, view: &mut TaskView) -> u32
    ghost before: { Home }
    requires* { sem 𝓛 (points_to the_row home before) }
    ensures* { ∃ₛ (λ (after : Home). sem 𝓛 (points_to the_row home after) ∗ ⌜ (after ≡ before) × OnMachine before.handle (λ h. IsTaskTold h.kept task view.old view.new result) ((view.new ≡ view.old) × (result ≡ 34)) ⌝) }
{
    task_of(&mut *(home as *mut Home), task, view)
}

/// Tells which task the last stop handed back at this index.
#[unsafe(no_mangle)]
pub unsafe extern "C" fn zk_core_handed(home: *mut u8, index: usize, task: &mut u32) -> u32
    ghost before: { Home }
    requires* { sem 𝓛 (points_to the_row home before) }
    ensures* { ∃ₛ (λ (after : Home). sem 𝓛 (points_to the_row home after) ∗ ⌜ (after ≡ before) × OnMachine before.handle (λ h. IsHanded h.handed.items index task.old task.new result) ((task.new ≡ task.old) × (result ≡ 34)) ⌝) }
{
    handed_of(&mut *(home as *mut Home), index, task)
}

/// Lays the text of the record into the room, and tells how many bytes it needs.
#[unsafe(no_mangle)]
pub unsafe extern "C" fn zk_core_record(home: *mut u8, room: &mut [u8], needed: &mut usize) -> u32
    ghost before: { Home }
    requires* { sem 𝓛 (points_to the_row home before) }
    ensures* { ∃ₛ (λ (after : Home). sem 𝓛 (points_to the_row home after) ∗ ⌜ (after ≡ before) × OnMachine before.handle (λ h. IsRecordLaid h room.old room.new needed.new result) ((room.new ≡ room.old) × (result ≡ 34)) ⌝) }
{
    record_of(&mut *(home as *mut Home), room, needed)
}

/// Forgets a task that is gone and owes nothing, where no record is kept.
#[unsafe(no_mangle)]
pub unsafe extern "C" fn zk_core_release(home: *mut u8, task: u32) -> u32
    ghost before: { Home }
    requires* { sem 𝓛 (points_to the_row home before) }
    ensures* { ∃ₛ (λ (after : Home). sem 𝓛 (points_to the_row home after) ∗ ⌜ OnStep before.handle after.handle (λ h k. IsReleased h k task result) (result ≡ 34) ⌝) }
{
    release_of(&mut *(home as *mut Home), task)
}

/// Opens a pool of this pool line, which keeps its record (0) or its length alone (1), where no machine is.
#[unsafe(no_mangle)]
pub unsafe extern "C" fn zk_core_open(home: *mut u8, line: &[u8], recorder: u32) -> u32
    ghost before: { Home }
    requires* { sem 𝓛 (points_to the_row home before) }
    ensures* { ∃ₛ (λ (after : Home). sem 𝓛 (points_to the_row home after) ∗ ⌜ OpensAt before.handle after.handle line.now recorder result × (after.alloc ≡ before.alloc) ⌝) }
{
    open_of(&mut *(home as *mut Home), line, recorder)
}

/// Drops the machine, where one is: after this the memory is the caller's alone.
#[unsafe(no_mangle)]
pub unsafe extern "C" fn zk_core_close(home: *mut u8) -> u32
    ghost before: { Home }
    requires* { sem 𝓛 (points_to the_row home before) }
    ensures* { ∃ₛ (λ (after : Home). sem 𝓛 (points_to the_row home after) ∗ ⌜ (after.handle ≡ None) × (result ≡ 0) ⌝) }
{
    close_of(&mut *(home as *mut Home))
}
