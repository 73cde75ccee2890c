//! A new task, and its first look for a core slot, as `execute` and `submit` begin.

ghost use Rattle.std.specs.Prelude.{ℕ, ◌≡◌, ◌≤◌, ◌↔◌, OnOk, IfOk, IfErr, IfSome, IsOkUnless};
ghost use Rattle.tp_record.specs.declared.entries.Ask.{Ask};
ghost use Rattle.tp_record.specs.declared.entries.Did.{Did};
ghost use Rattle.tp_record.specs.Effects.{reserved_looked};
ghost use Rattle.tp_record.specs.State.{State};
ghost use Rattle.tp_tasks.specs.Tasks.{submissions};
ghost use Rattle.tp_machine_state.specs.Memory.{HasMemory};
ghost use Rattle.tp_machine_state.specs.Payloads.{Keeps, PutsIn};
ghost use Rattle.tp_machine_state.specs.Shows.{Shows};
ghost use Rattle.tp_machine_state.specs.Steps.{Stands, Accepts, Refuses, Leads};
ghost use Rattle.tp_machine_submitters.specs.Owed.{rise_of};

use tp_machine_state::parts::Parts;
use tp_record::entries::{Ask, Did, Looked};
use tp_record::owed::{HELD_FOR_CORE, REFUSED, RESERVED, TO_OFFER};
use tp_record::rows::Stage;
use tp_rules::submitters::look;
use tp_types::ids::{SlotId, TaskId};
use tp_types::refusals::PoolError;
use tp_types::tasks::{Kind, Place, Promise};

/// Whether the next task, of this kind and priority, is held by a new core slot, is to be offered, or is refused. BookFull (5)
/// where the record has no room for it, or its number would be 4,294,967,295.
#[inline(always)]
pub fn answer<P>(parts: &Parts<P>, kind: Kind, priority: u32) -> Result<Looked, PoolError>
    requires stands { Stands parts.now }
    ensures accepts { IfOk result (λ l. Accepts parts.now (Ask.Submit kind priority) (Did.Submit (record { 0 = submissions parts.now.tasks }) kind priority l)) }
    ensures next { IfOk result (λ l. IfSome (reserved_looked l) (λ w. w ≡ parts.now.slots.next)) }
    ensures refuses { IfErr result (λ e. Refuses parts.now (Ask.Submit kind priority) e) }
{
    if parts.tasks.submitted() == u32::MAX {
        return Err(PoolError::BookFull);
    }
    let looked = look(parts, parts.slots.next_number());
    parts.in_room(Ok(looked), 0, rise(looked))
}

/// Makes memory for the task of an accepted answer, so that nothing that becomes of it takes any. NoMemory (4). Either way
/// the same states are shown, and what was accepted is.
#[inline(always)]
pub fn prepare<P>(parts: &mut Parts<P>, kind: Kind) -> Result<(), PoolError>
    requires stands { Stands parts.old }
    ensures memory { OnOk result (HasMemory parts.new kind) }
    ensures refused { IsOkUnless result PoolError.NoMemory }
    ensures stands { Stands parts.new }
    ensures same { (s : State) → Shows parts.old s ↔ Shows parts.new s }
    ensures accepts { (a : Ask) (d : Did) → Accepts parts.old a d → Accepts parts.new a d }
    ensures submitted { submissions parts.new.tasks ≡ submissions parts.old.tasks }
    ensures rest { parts.new ≡ record parts.old { tasks = parts.new.tasks; queue = parts.new.queue } }
    ensures payloads { Keeps parts.old.tasks parts.new.tasks }
{
    parts.make_room(kind)
}

/// Makes an accepted answer, for a job that promises this and has this payload, and gives the new task's number. Memory for
/// it was made (`prepare`), after the answer.
#[inline(always)]
pub fn apply<P>(
    parts: &mut Parts<P>,
    kind: Kind,
    priority: u32,
    promise: Promise,
    payload: P,
    looked: Looked,
) -> TaskId
where
    P: Drop,
    requires stands { Stands parts.old }
    requires memory { HasMemory parts.old kind }
    requires accepts { Accepts parts.old (Ask.Submit kind priority) (Did.Submit (record { 0 = submissions parts.old.tasks }) kind priority looked) }
    requires next { IfSome (reserved_looked looked) (λ w. w ≡ parts.old.slots.next) }
    ensures number { result.0 ≡ submissions parts.old.tasks }
    ensures leads { Leads parts.old (Did.Submit result kind priority looked) parts.new }
    ensures payloads { PutsIn parts.old.tasks parts.new.tasks result.0 promise payload }
{
    match looked {
        Looked::Reserve(w) => reserve(parts, kind, priority, promise, payload, w),
        Looked::Queue => queue(parts, kind, priority, promise, payload),
        Looked::Refuse => refuse(parts, kind, priority, promise, payload),
    }
}

/// How many more entries are owed after a submission with this look.
#[inline(always)]
fn rise(looked: Looked) -> u64
    ensures rise { result ≡ rise_of looked }
    ensures bound { result ≤ 12 }
{
    match looked {
        Looked::Reserve(_) => HELD_FOR_CORE + RESERVED,
        Looked::Queue => TO_OFFER,
        Looked::Refuse => REFUSED,
    }
}

/// The next slot is reserved for the core, and holds the task.
#[inline(never)]
fn reserve<P>(
    parts: &mut Parts<P>,
    kind: Kind,
    priority: u32,
    promise: Promise,
    payload: P,
    w: SlotId,
) -> TaskId
where
    P: Drop,
    requires stands { Stands parts.old }
    requires memory { HasMemory parts.old kind }
    requires accepts { Accepts parts.old (Ask.Submit kind priority) (Did.Submit (record { 0 = submissions parts.old.tasks }) kind priority (Looked.Reserve w)) }
    requires next { w.0 ≡ parts.old.slots.next }
    ensures number { result.0 ≡ submissions parts.old.tasks }
    ensures leads { Leads parts.old (Did.Submit result kind priority (Looked.Reserve w)) parts.new }
    ensures payloads { PutsIn parts.old.tasks parts.new.tasks result.0 promise payload }
{
    parts.count_rising_entry(rise(Looked::Reserve(w)));
    let t = parts.put_task(kind, priority, Place::Held(w), promise, payload);
    parts.reserve(Stage::ReservedCore, Some(t));
    t
}

/// The task is to be offered.
#[inline(always)]
fn queue<P>(parts: &mut Parts<P>, kind: Kind, priority: u32, promise: Promise, payload: P) -> TaskId
where
    P: Drop,
    requires stands { Stands parts.old }
    requires memory { HasMemory parts.old kind }
    requires accepts { Accepts parts.old (Ask.Submit kind priority) (Did.Submit (record { 0 = submissions parts.old.tasks }) kind priority Looked.Queue) }
    ensures number { result.0 ≡ submissions parts.old.tasks }
    ensures leads { Leads parts.old (Did.Submit result kind priority Looked.Queue) parts.new }
    ensures payloads { PutsIn parts.old.tasks parts.new.tasks result.0 promise payload }
{
    parts.count_rising_entry(rise(Looked::Queue));
    parts.put_task(kind, priority, Place::ToOffer, promise, payload)
}

/// The pool is shut down: the task awaits a verdict.
#[inline(never)]
fn refuse<P>(
    parts: &mut Parts<P>,
    kind: Kind,
    priority: u32,
    promise: Promise,
    payload: P,
) -> TaskId
where
    P: Drop,
    requires stands { Stands parts.old }
    requires memory { HasMemory parts.old kind }
    requires accepts { Accepts parts.old (Ask.Submit kind priority) (Did.Submit (record { 0 = submissions parts.old.tasks }) kind priority Looked.Refuse) }
    ensures number { result.0 ≡ submissions parts.old.tasks }
    ensures leads { Leads parts.old (Did.Submit result kind priority Looked.Refuse) parts.new }
    ensures payloads { PutsIn parts.old.tasks parts.new.tasks result.0 promise payload }
{
    parts.count_rising_entry(rise(Looked::Refuse));
    parts.put_task(kind, priority, Place::Refused, promise, payload)
}
