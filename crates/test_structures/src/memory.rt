//! Any one allocation may fail: then a maker answers so, and a growth that fails changes nothing and works when it is called again.

use crate::calls::Call;
use crate::compare::same;
use crate::queues::Tasks;
use crate::slots::{Table, row};
use crate::tasks;
use std::alloc::Global;
use std::process::Abort;
use tp_queue::queues::Queue;
use tp_queue::work::WorkQueue;
use tp_record::rows::Stage;
use tp_types::configs::QueueKind;
use tp_types::ids::{SlotId, TaskId};
use tp_types::tasks::Kind;

/// Places are reserved for as many tasks, and the tasks from one number up to another are offered.
fn reserve_and_fill(rt: &impl Abort, tasks: &mut Tasks<Queue>, from: u32, to: u32) {
    let head = if from == 0 { None } else { Some(TaskId(0)) };
    if tasks.reserve(to as usize).is_err() {
        let seen = (tasks.queue.len(), tasks.queue.head());
        same(rt, 0, &seen, &(from as usize, head));
        same(rt, 1, &tasks.reserve(to as usize).is_ok(), &true);
    }
    for number in from..to {
        let placed = tasks.offer(TaskId(number), 0);
        same(rt, 2, &placed, &Ok(u64::from(number)));
    }
}

/// A queue that has no limit grows twice, unless it can't be made.
#[test]
fn queues_grow_or_refuse(rt: HostRuntime) {
    if let Ok(queue) = Queue::new(rt.alloc(), QueueKind::Bounded(3), 0) {
        same(&rt, 0, &queue.is_full(), &false);
    }
    for kind in [QueueKind::Unbounded, QueueKind::Priority] {
        if let Ok(queue) = Queue::new(rt.alloc(), kind, 0) {
            let mut tasks = Tasks::new(rt.alloc(), queue);
            reserve_and_fill(&rt, &mut tasks, 0, 20);
            reserve_and_fill(&rt, &mut tasks, 20, 60);
        }
    }
}

/// Reserves the slot that comes next, which has this number, and opens it.
fn open(rt: &impl Abort, table: &mut Table, w: usize) {
    let reserved = table.reserve("bare", None);
    let opened = table.change("open", SlotId(w), None);
    same(rt, w, &(reserved, opened), &(Some(SlotId(w)), true));
}

#[test]
fn slots_grow_or_refuse(rt: HostRuntime) {
    let Ok(mut table) = Table::new(rt.alloc(), 1) else {
        return;
    };
    open(&rt, &mut table, 0);
    if table.slots.grow_to(64).is_err() {
        let slots = &table.slots;
        let seen = (slots.places(), slots.len(), slots.live());
        same(&rt, 0, &seen, &(1, 1, 1));
        same(
            &rt,
            1,
            &slots.get(SlotId(0)),
            &Some(row(Stage::Working, None)),
        );
        same(&rt, 2, &table.slots.grow_to(64).is_ok(), &true);
    }
    same(&rt, 3, &table.slots.places(), &64);
    for w in 1..64 {
        open(&rt, &mut table, w);
    }
}

/// Submits the task of this number. The growth that it needs works at the second try at the latest.
fn submit(rt: &impl Abort, table: &mut tasks::Table, t: u32) {
    let submitted = table.submit(Kind::Group(t % 7), u64::from(t) + 10);
    same(rt, 4, &submitted, &Some(TaskId(t)));
}

/// Runs the task of this number to its end.
fn run(rt: &impl Abort, alloc: Global, table: &mut tasks::Table, t: u32) {
    let payload = table.tasks.take_payload(TaskId(t));
    same(rt, 5, &payload, &Some(u64::from(t) + 10));
    let ended = table.change(TaskId(t), &Call::of(alloc, "run t value 1"));
    same(rt, 6, &ended, &Some(true));
}

/// Runs 4,000 tasks of seven groups, and takes each out of its group.
fn run_thousands(rt: &impl Abort, alloc: Global, table: &mut tasks::Table) {
    for t in 0..4000u32 {
        run(rt, alloc, table, t);
    }
    for t in 0..4000u32 {
        same(rt, 7, &table.tasks.take_done(t % 7), &Some(TaskId(t)));
    }
}

/// The table of tasks grows as they come, or lies in memory that was made before.
#[test]
fn tasks_come_at_the_second_try(rt: HostRuntime) {
    for is_made_before in [false, true] {
        let mut table = tasks::Table::new(rt.alloc());
        for t in 0..4000u32 {
            let is_made = is_made_before && table.make_space(rt.alloc());
            same(&rt, 8, &is_made, &is_made_before);
            submit(&rt, &mut table, t);
        }
        run_thousands(&rt, rt.alloc(), &mut table);
    }
}
