//! All that an auditor keeps of the entries that it was told.

use crate::done::Done;
use crate::orders::Order;
use crate::queue::QueueTable;
use crate::slot_table::SlotTable;
use tp_record::rows::TaskRow;

/// What the entries so far say of a pool, in tables each of whose changes costs by what changes.
#[derive(Drop)]
pub struct Tables {
    /// The number of entries.
    pub steps: u32,
    /// The run state's rank.
    pub rank: u8,
    /// The core size in workers.
    pub core: u32,
    /// The maximum size in workers.
    pub maximum: u32,
    /// The keep-alive in ticks.
    pub keep: u64,
    /// Whether core workers time out.
    pub core_timeout: bool,
    /// The moment in ticks.
    pub moment: u64,
    /// The submitted tasks by number.
    pub tasks: Vec<TaskRow>,
    /// The tasks in the work queue, its head first.
    pub queue: QueueTable,
    /// The slots by number.
    pub slots: SlotTable,
    /// The idle slots, the one that is idle longest first.
    pub idling: Order,
    /// The completed tasks of groups that are not yet handed out.
    pub done: Done,
    /// The number of bodies that workers ended and of cancelled tasks that they skipped.
    pub completions: u32,
    /// The greatest number of live slots so far.
    pub largest: usize,
    /// What is owed, in entries.
    pub due: u64,
}
