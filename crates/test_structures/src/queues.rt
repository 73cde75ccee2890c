//! Queues of tasks whose numbers equal their place numbers.

ghost use Rattle.std.specs.Prelude.{◌≡◌, ◌≤◌};

use crate::calls::{Call, Said, Tested};
use crate::plays::play;
use anyhow::anyhow;
use std::alloc::{AllocError, Global};
use tp_queue::bounded::Bounded;
use tp_queue::queues::Queue;
use tp_queue::unbounded::Unbounded;
use tp_queue::work::WorkQueue;
use tp_text::numbers::{index, long_number, number};
use tp_types::configs::QueueKind;
use tp_types::ids::TaskId;

/// A queue, with a bound on the offers made to it, and the tasks that were taken out all at once.
#[derive(Drop)]
pub struct Tasks<Q: WorkQueue + Drop> {
    pub queue: Q,
    offers: u64,
    drained: Vec<TaskId>,
    ghost few: { (Q.waiting queue).offers ≤ offers },
}

impl<Q: WorkQueue + Drop> Tasks<Q> {
    /// A new queue.
    pub fn new(alloc: Global, queue: Q) -> Tasks<Q>
        requires { (Q.waiting queue).offers ≡ 0 }
    {
        Tasks {
            queue,
            offers: 0,
            drained: Vec::new(alloc),
        }
    }

    /// Offers a task at this priority.
    pub fn offer(&mut self, task: TaskId, priority: u32) -> Result<u64, TaskId> {
        let Some(offers) = self.offers.checked_add(1) else {
            return Err(task);
        };
        let placed = self.queue.offer(task, priority);
        self.offers = offers;
        placed
    }

    /// Makes room for so many tasks.
    pub fn reserve(&mut self, places: usize) -> Result<(), AllocError> {
        self.queue.reserve(places)
    }

    /// Takes out all tasks at once, and answers how many there are.
    fn drain(&mut self, alloc: Global) -> Result<usize, AllocError> {
        let mut tasks = Vec::with_capacity(alloc, self.queue.len())?;
        self.queue.drain(&mut tasks);
        self.drained = tasks;
        Ok(self.drained.len())
    }
}

impl<Q: WorkQueue + Drop> Tested for Tasks<Q> {
    fn answer(&mut self, call: &Call<'_>) -> Said {
        match call.name {
            "offer" => {
                let priority = number(call.second).unwrap_or(0);
                call.says(&self.offer(call.task()?, priority))
            }
            "remove" => {
                let place = long_number(call.first)?;
                call.says(&self.queue.remove(number(call.second)?, place))
            }
            "reserve" => call.says(&self.reserve(call.size()?)),
            "drain" => call.says(&self.drain(call.alloc)),
            "drained" => call.says(&self.drained.get(call.size()?)),
            "head" => call.says(&self.queue.head()),
            "take" => call.says(&self.queue.take_head()),
            "len" => call.says(&self.queue.len()),
            "full" => call.says(&self.queue.is_full()),
            _ => None,
        }
    }
}

/// Plays a text on this new queue, once room for so many tasks is made.
fn plays_on<Q: WorkQueue + Drop>(
    rt: &impl Print,
    alloc: Global,
    queue: Q,
    on: &Call<'_>,
    text: &str,
) -> anyhow::Result<()>
    requires { (Q.waiting queue).offers ≡ 0 }
{
    let mut tasks = Tasks::new(alloc, queue);
    let room = index(on.second).unwrap_or(0);
    if room > 0 {
        tasks.reserve(room)?;
    }
    play(rt, alloc, tasks, index(on.third).unwrap_or(0), text)
}

/// Plays a text on a queue: of a type of its own, as `exact bounded 0 64`, or one among all kinds, as `queue bounded 1000 64`. The
/// first number says for how many tasks room is made, the last one how many places a bounded one has.
pub fn plays(rt: &impl Print, alloc: Global, on: &Call<'_>, text: &str) -> anyhow::Result<()> {
    let capacity = number(on.third).unwrap_or(0);
    let kind = match (on.name, on.first) {
        ("exact", "bounded") => {
            return plays_on(rt, alloc, Bounded::new(alloc, capacity)?, on, text);
        }
        ("exact", "unbounded") => {
            return plays_on(rt, alloc, Unbounded::new(alloc, 0)?, on, text);
        }
        ("queue", "bounded") => QueueKind::Bounded(capacity),
        ("queue", "unbounded") => QueueKind::Unbounded,
        ("queue", "priority") => QueueKind::Priority,
        ("queue", "handoff") => QueueKind::Handoff,
        _ => return Err(anyhow!("no such queue")),
    };
    plays_on(rt, alloc, Queue::new(alloc, kind, 0)?, on, text)
}
