//! What a pool is like at a moment.

ghost use Rattle.std.specs.Prelude.{◌≡◌};
ghost use Rattle.tp_audit.specs.Tables.{shown};
ghost use Rattle.tp_story.specs.Stories as stories;

use tp_audit::tables::Tables;

/// What a pool is like at a moment, in numbers.
#[derive(Clone, Copy, Debug, PartialEq, Eq)]
pub struct Scene {
    /// The run state's rank, 0 to 4.
    pub rank: u8,
    /// The core size in workers.
    pub core: u32,
    /// The maximum size in workers.
    pub maximum: u32,
    /// The number of slots, those that are reserved among them.
    pub slots: usize,
    /// The number of live slots.
    pub live: usize,
    /// The number of queued tasks.
    pub queued: usize,
    /// The moment in ticks.
    pub moment: u64,
}

/// What a pool is like, by an auditor's tables.
pub fn scene_of(tables: &Tables) -> Scene
    ensures { result ≡ stories.scene_of (shown tables.now) }
{
    Scene {
        rank: tables.rank,
        core: tables.core,
        maximum: tables.maximum,
        slots: tables.slots.count(),
        live: tables.slots.live(),
        queued: tables.queue.len(),
        moment: tables.moment,
    }
}
