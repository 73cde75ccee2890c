//! What a pool keeps beside its record.

ghost use Rattle.std.specs.Prelude.{◌≤◌, IfOk};
ghost use Rattle.tp_types.specs.Config.{IsConfig};
ghost use Rattle.tp_tasks.specs.Tasks.{HasNone};
ghost use Rattle.tp_machine_state.specs.Tied.{IsNew};

use std::alloc::{AllocError, Global};
use tp_queue::queues::Queue;
use tp_slots::slots::Slots;
use tp_tasks::tasks::Tasks;
use tp_types::configs::Config;
use tp_types::states::RunState;

/// What a pool keeps beside its record: what it was made with, and what its entries so far have led to.
#[derive(Drop)]
pub struct Parts<P> {
    /// How many entries were made so far.
    pub steps: u64,
    /// How many entries are still owed.
    pub due: u64,
    /// How many tasks workers ended or skipped.
    pub completions: u32,
    /// The work queue.
    pub queue: Queue,
    /// The tasks, each with what was handed in with it.
    pub tasks: Tasks<P>,
    /// The worker slots, and the order in which they are idle.
    pub slots: Slots,
    /// The settings that it was made with.
    pub config: Config,
    /// At how many entries the pool is full: what keeps its record says so.
    pub limit: u64,
    /// The run state.
    pub state: RunState,
    /// The core size in workers.
    pub core: u32,
    /// The maximum size in workers.
    pub maximum: u32,
    /// The keep-alive in ticks.
    pub keep: u64,
    /// Whether core workers time out.
    pub core_timeout: bool,
    /// The moment in ticks.
    pub moment: u64,
    /// The greatest number of live slots so far.
    pub largest: usize,
}

impl<P> Parts<P> {
    /// A pool that runs, at tick 0, and keeps its tasks in these, of which there are none yet. The places of a bounded queue
    /// and those of the slots below the maximum are taken here; an error is want of memory, refusal 4. It is full at so many
    /// entries, no fewer than the settings say. Where its queue is unbounded, it has room for so many tasks from now on.
    pub fn new(
        alloc: Global,
        config: Config,
        limit: u64,
        tasks: Tasks<P>,
        room: u32,
    ) -> Result<Parts<P>, AllocError>
    where
        P: Drop,
        requires good { IsConfig config }
        requires limit { config.record_limit ≤ limit }
        requires none { HasNone tasks }
        ensures { IfOk result (IsNew (record config { record_limit = limit })) }
    {
        let queue = Queue::new(alloc, config.queue, room)?;
        let slots = Slots::new(alloc, config.maximum as usize)?;
        Ok(Parts {
            config,
            limit,
            steps: 0,
            tasks,
            queue,
            slots,
            state: RunState::Running,
            core: config.core,
            maximum: config.maximum,
            keep: config.keep,
            core_timeout: config.core_timeout,
            moment: 0,
            completions: 0,
            largest: 0,
            due: 4,
        })
    }
}
