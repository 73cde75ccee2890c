//! Slots.

ghost use Rattle.std.specs.Prelude.{List, ◌∷◌};
ghost use Rattle.tp_laws.specs.Laws.{HasGoodSizes, RescueServes, Served, SlotsWithinMaximum};
ghost use Rattle.tp_record.specs.Step.{Legal};
ghost use Rattle.tp_record.specs.declared.entries.Entry.{Entry};
ghost use Rattle.tp_types.specs.declared.configs.Config.{Config};

/// An entry that reserves a slot leaves at most as many slots as the maximum in force, reserved and
/// live ones together: no race of two growths passes `maximumPoolSize`, and no worker that is made in
/// place of a dying one does. A lower maximum leaves slots above it, which then leave.
pub fn slots_within_maximum()
    ensures { (c : Config) (e : Entry) (h : List Entry) → HasGoodSizes c → Legal c (e ∷ h) → SlotsWithinMaximum c e h }
{}

/// Where no worker was lost to the thread factory or to a shutdown before it came, and the pool runs or
/// is shut down, each task in the queue owes a second look or there is a slot. This answers the pools
/// of core size 0 that queued a task and started nobody to take it, and the worker that timed out just
/// as a task came.
pub fn served()
    ensures { (c : Config) (h : List Entry) → HasGoodSizes c → Legal c h → Served h }
{}

/// In a pool that is shut down and has no slot, with a task in its queue and a core size above 0, a prestart
/// reserves a slot, whatever number that gets; for want of room in the record it is refused, and for nothing
/// else. So a thread that finds tasks left to nobody can have a worker made for them.
pub fn rescue_serves()
    ensures { (c : Config) (h : List Entry) → Legal c h → RescueServes c h }
{}
