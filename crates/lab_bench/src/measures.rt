//! What is measured: a function for each, which makes a structure of so many entries ready, and then
//! times turns on it.

ghost use Rattle.std.specs.Prelude.{◌≡◌, ◌≤◌, ◌<◌, ◌^◌, IfOk};
ghost use Rattle.tp_queue.specs.Queues.{waiting_of};

use std::alloc::{AllocError, Global};
use std::io;
use std::rt::Clock;
use std::time::{Duration, Instant};
use tp_queue::queues::Queue;
use tp_queue::work::WorkQueue;
use tp_record::rows::{Stage, TaskRow};
use tp_slots::slots::Slots;
use tp_tasks::tasks::Tasks;
use tp_types::configs::QueueKind;
use tp_types::ids::{SlotId, TaskId};
use tp_types::tasks::{Fate, Kind, Place, Promise};

/// How large a structure is, and how often it is used.
#[derive(Clone, Copy)]
pub struct Size {
    /// The entries of the structure before the first turn.
    pub entries: u32,
    /// The turns that are timed.
    pub turns: u32,
}

/// What a measure found.
#[derive(Clone, Copy)]
pub struct Measured {
    /// The time of all turns together.
    pub elapsed: Duration,
    /// The entries of the structure after the last turn.
    pub left: usize,
}

/// What can be measured.
#[derive(Clone, Copy)]
pub enum Measure {
    /// Of a full queue the head is taken, and a task offered.
    TakeAndOffer,
    /// Out of the middle of a full queue a task is removed, and another offered.
    RemoveAndOffer,
    /// Of workers that are all idle the one that is idle longest is woken, and is idle again.
    WakeLongest,
    /// Out of the middle of the order of idling a worker is woken, and is idle again.
    WakeMiddle,
    /// Among tasks of a group one more is put, completed and handed out.
    PutAndComplete,
}

impl Measure {
    /// All that can be measured.
    pub const ALL: [Measure; 5] = [
        Measure::TakeAndOffer,
        Measure::RemoveAndOffer,
        Measure::WakeLongest,
        Measure::WakeMiddle,
        Measure::PutAndComplete,
    ];

    /// What a turn does, in words.
    pub fn name(self) -> &'static str {
        match self {
            Measure::TakeAndOffer => "take the head and offer",
            Measure::RemoveAndOffer => "remove from the middle and offer",
            Measure::WakeLongest => "wake the longest idle and idle",
            Measure::WakeMiddle => "wake out of the middle and idle",
            Measure::PutAndComplete => "put, complete and hand out",
        }
    }

    /// Measures this at one size.
    pub fn measured<R: Clock + AllocGlobal>(self, rt: &R, size: Size) -> io::Result<Measured> {
        match self {
            Measure::TakeAndOffer => take_and_offer(rt, size),
            Measure::RemoveAndOffer => remove_and_offer(rt, size),
            Measure::WakeLongest => wake_longest(rt, size),
            Measure::WakeMiddle => wake_middle(rt, size),
            Measure::PutAndComplete => put_and_complete(rt, size),
        }
    }
}

/// A bounded queue that is full.
fn full_queue(alloc: Global, entries: u32) -> Result<Queue, AllocError>
    ensures { IfOk result (λ q. (waiting_of q).offers ≤ entries) }
{
    let mut queue = Queue::new(alloc, QueueKind::Bounded(entries), 0)?;
    for number in 0..entries {
        let _ = queue.offer(TaskId(number), 0);
    }
    Ok(queue)
}

fn take_and_offer<R: Clock + AllocGlobal>(rt: &R, size: Size) -> io::Result<Measured> {
    let mut queue = full_queue(rt.alloc(), size.entries)?;
    Ok(Measured {
        elapsed: turns_of_take(rt, &mut queue, size.turns)?,
        left: queue.len(),
    })
}

fn turns_of_take<R: Clock>(rt: &R, queue: &mut Queue, turns: u32) -> io::Result<Duration>
    requires { (waiting_of queue.old).offers < 2 ^ 32 }
{
    let start = Instant::now(rt)?;
    for turn in 0..turns {
        queue.take_head();
        let _ = queue.offer(TaskId(turn), 0);
    }
    start.elapsed(rt)
}

/// The first half of the queue stays, so that the dead lie in its middle.
fn remove_and_offer<R: Clock + AllocGlobal>(rt: &R, size: Size) -> io::Result<Measured> {
    let mut queue = full_queue(rt.alloc(), size.entries)?;
    Ok(Measured {
        elapsed: turns_of_remove(rt, &mut queue, size)?,
        left: queue.len(),
    })
}

fn turns_of_remove<R: Clock>(rt: &R, queue: &mut Queue, size: Size) -> io::Result<Duration>
    requires { (waiting_of queue.old).offers < 2 ^ 32 }
{
    let middle = u64::from(size.entries) / 2;
    let start = Instant::now(rt)?;
    for turn in 0..size.turns {
        queue.remove(0, middle + u64::from(turn));
        let _ = queue.offer(TaskId(turn), 0);
    }
    start.elapsed(rt)
}

/// A table in which every worker is idle.
fn idle_slots(alloc: Global, entries: u32) -> Result<Slots, AllocError>
    ensures { IfOk result (λ s. s.idlings ≤ entries) }
{
    let mut slots = Slots::new(alloc, entries as usize)?;
    for made in 0..entries {
        if slots.len() < slots.places() {
            let w = slots.reserve(Stage::ReservedBare, None);
            slots.open(w);
            slots.idle(w, 0);
        }
    }
    Ok(slots)
}

fn wake_longest<R: Clock + AllocGlobal>(rt: &R, size: Size) -> io::Result<Measured> {
    let mut slots = idle_slots(rt.alloc(), size.entries)?;
    Ok(Measured {
        elapsed: turns_of_longest(rt, &mut slots, size.turns)?,
        left: slots.live(),
    })
}

fn turns_of_longest<R: Clock>(rt: &R, slots: &mut Slots, turns: u32) -> io::Result<Duration>
    requires { slots.old.idlings < 2 ^ 32 }
{
    let start = Instant::now(rt)?;
    for turn in 0..turns {
        if let Some(w) = slots.longest_idle() {
            slots.wake(w, None);
            slots.idle(w, u64::from(turn));
        }
    }
    start.elapsed(rt)
}

/// Slots are woken from the middle one on, round and round.
fn wake_middle<R: Clock + AllocGlobal>(rt: &R, size: Size) -> io::Result<Measured> {
    let mut slots = idle_slots(rt.alloc(), size.entries)?;
    Ok(Measured {
        elapsed: turns_of_middle(rt, &mut slots, size)?,
        left: slots.live(),
    })
}

fn turns_of_middle<R: Clock>(rt: &R, slots: &mut Slots, size: Size) -> io::Result<Duration>
    requires { slots.old.idlings < 2 ^ 32 }
{
    let middle = size.entries / 2;
    let start = Instant::now(rt)?;
    for turn in 0..size.turns {
        let w = SlotId((middle + turn % (size.entries - middle).max(1)) as usize);
        if slots.get(w).is_some_and(|row| row.is_idle()) {
            slots.wake(w, None);
            slots.idle(w, u64::from(turn));
        }
    }
    start.elapsed(rt)
}

/// One more task of group 0, put and completed.
fn put_completed(tasks: &mut Tasks<u32>, turn: u32) -> Result<(), AllocError> {
    const ANY: Promise = Promise {
        low: i64::MIN,
        high: i64::MAX,
        may_fault: true,
    };
    let (kind, place) = (Kind::Group(0), Place::ToOffer);
    let Ok(()) = tasks.reserve(kind) else {
        return Err(AllocError);
    };
    if tasks.submitted() < u32::MAX {
        let t = tasks.put(kind, 0, place, ANY, turn);
        let _ = tasks.take_payload(t);
        tasks.complete(t, TaskRow::new(kind, 0, place), Fate::Run, Ok(0));
    }
    Ok(())
}

fn put_and_complete<R: Clock + AllocGlobal>(rt: &R, size: Size) -> io::Result<Measured> {
    let mut tasks = Tasks::new(rt.alloc());
    Ok(Measured {
        elapsed: turns_of_put(rt, &mut tasks, size)?,
        left: tasks.fated(Fate::Run) as usize,
    })
}

fn turns_of_put<R: Clock>(rt: &R, tasks: &mut Tasks<u32>, size: Size) -> io::Result<Duration> {
    for entry in 0..size.entries {
        put_completed(tasks, entry)?;
    }
    let start = Instant::now(rt)?;
    for turn in 0..size.turns {
        put_completed(tasks, turn)?;
        let _ = tasks.take_done(0);
    }
    start.elapsed(rt)
}
