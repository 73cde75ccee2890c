//! The queue.

ghost use Rattle.std.specs.Prelude.{◌≡◌, List, ◌∷◌, ◌++◌, false};
ghost use Rattle.tp_laws.specs.Laws.{FirstLeaves, QueueOrder, NoneBefore, FirstOfEquals, ListsThoseWaiting, LeastFirst, OffersInOrder, QueueWithinCapacity, QueuedOnce};
ghost use Rattle.tp_record.specs.Step.{Legal};
ghost use Rattle.tp_record.specs.declared.entries.Entry.{Entry};
ghost use Rattle.tp_types.specs.declared.configs.Config.{Config};
ghost use Rattle.tp_types.specs.Queues.{is_ranked};

/// A task is put in the queue at most once: one that came back from it at a second look is not queued
/// again, and a retry under `DiscardOldestPolicy` offers only what was never queued. The definition of
/// the queue goes by the last offer of each task, and so does not assume it.
pub fn queued_once()
    ensures { (c : Config) (h : List Entry) → Legal c h → QueuedOnce h }
{}

/// Tasks leave by order: who is taken by a worker or dropped as the oldest is the first that waits.
///
/// That is first in, first out, where the queue does not go by priority: each task that was put there before it has left. In a
/// priority queue no task waits whose priority is smaller, and each of its equals that was put there before it has left.
/// Removing, purging, draining and taking back are other ways out, and have no order.
pub fn queue_order()
    ensures first { (c : Config) (e : Entry) (h : List Entry) → Legal c (e ∷ h) → FirstLeaves c e h }
    ensures order { (c : Config) (e : Entry) (after between before : List Entry) (queues_u queues_t : Entry) →
        is_ranked c.queue ≡ false → Legal c (e ∷ (after ++ queues_u ∷ (between ++ queues_t ∷ before))) →
        QueueOrder e after queues_u between queues_t before }
    ensures least { (c : Config) (e : Entry) (h : List Entry) → Legal c (e ∷ h) → NoneBefore c e h }
    ensures equals { (c : Config) (e : Entry) (after between before : List Entry) (queues_u queues_t : Entry) →
        Legal c (e ∷ (after ++ queues_u ∷ (between ++ queues_t ∷ before))) →
        FirstOfEquals e after queues_u between queues_t before }
{}

/// The queue lists just the tasks that wait, each once. In a priority queue no task stands behind one whose priority number is
/// greater, and tasks of one priority number stand in the order of their offers. In any other queue all tasks do.
pub fn queue_in_order()
    ensures whole { (c : Config) (h : List Entry) → Legal c h → ListsThoseWaiting c h }
    ensures least { (c : Config) (h : List Entry) → LeastFirst c h }
    ensures offers { (c : Config) (h : List Entry) → OffersInOrder c h }
{}

/// A bounded queue never exceeds its capacity, and a queue of no places never has a task.
pub fn queue_within_capacity()
    ensures { (c : Config) (h : List Entry) → Legal c h → QueueWithinCapacity c h }
{}
