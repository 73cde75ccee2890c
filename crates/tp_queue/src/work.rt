//! What each work queue does.

use std::alloc::AllocError;
use tp_types::ids::TaskId;

/// Tasks that wait for a worker, in the order in which they leave, each under a key, as a
/// `BlockingQueue<Runnable>`.
///
/// Place numbers count the accepted offers from 0, so none comes twice. A priority queue's keys are made of a task's priority and
/// its place number, and another queue's are the place numbers alone. Keys rise along the queue. No call but `reserve` takes
/// memory.
pub trait WorkQueue {
    ghost use Rattle.std.specs.Prelude.{◌≡◌, ◌==◌, ◌+◌, ◌-◌, ◌^◌, ◌<◌, ◌≤◌, ◌++◌, ◌∷◌, [], length, drop, slice_get, option_map, IsTrue, vec_len, vec_capacity, IfOk, IfErr, OnOk, OnErr, IsOk, ◌↔◌};
    ghost use Rattle.tp_ring.specs.Line.{without_place, ids, Ordered};
    ghost use Rattle.tp_ring.specs.Ranks.{enter, AreNumbered};
    ghost use Rattle.tp_types.specs.Queues.{is_open};
    ghost use Rattle.tp_queue.specs.Waiting.{Waiting, HasPlaces, place_key, key_bound};

    /// What contracts see.
    ghost waiting: { Self → Waiting };

    /// The law of each queue: keys rise, place numbers stay below the number of accepted offers and none comes twice. No more
    /// tasks wait than were accepted, nor more than the capacity, and the capacity is its kind's.
    fn law_is_lawful(&self)
        ensures keys { Ordered 0 (waiting self.now).items (key_bound (waiting self.now).kind (waiting self.now).offers) }
        ensures numbers { AreNumbered (waiting self.now).offers (waiting self.now).items }
        ensures few { length (waiting self.now).items ≤ (waiting self.now).offers }
        ensures within { length (waiting self.now).items ≤ (waiting self.now).capacity }
        ensures capacity { HasPlaces (waiting self.now).kind (waiting self.now).capacity };

    /// How many tasks wait, as `BlockingQueue.size`.
    fn len(&self) -> usize
        ensures { result ≡ length (waiting self.now).items };

    /// Whether there is no room for one more task.
    fn is_full(&self) -> bool
        ensures { IsTrue result ↔ ((waiting self.now).capacity ≤ length (waiting self.now).items) };

    /// Makes places for so many tasks in all, where the queue has no limit; a queue of another kind
    /// stays as it is. `AllocError` is refusal 4: nothing has changed. To ask for one place more each
    /// time moves each task but a few times. The number is that of all, since several submitters may each
    /// still need a place before any of them offers.
    fn reserve(&mut self, places: usize) -> Result<(), AllocError>
        ensures room { OnOk result (IsTrue (is_open (waiting self.old).kind) → places ≤ (waiting self.new).capacity) }
        ensures kept { (waiting self.old).capacity ≤ (waiting self.new).capacity }
        ensures same { waiting self.new ≡ record (waiting self.old) { capacity = (waiting self.new).capacity } }
        ensures refused { OnErr result (IsTrue (is_open (waiting self.old).kind)) }
        ensures err { OnErr result (waiting self.new ≡ waiting self.old) };

    /// Puts a task in behind all whose key is not greater and answers its place number, or gives the task back where the queue
    /// is full, as `BlockingQueue.offer`. In a priority queue it goes behind those of the same priority, in another to the end.
    fn offer(&mut self, task: TaskId, priority: u32) -> Result<u64, TaskId>
        requires { (waiting self.old).offers < 2 ^ 64 - 1 }
        ensures room { IsOk result ↔ (length (waiting self.old).items < (waiting self.old).capacity) }
        ensures place { IfOk result (λ n. n ≡ (waiting self.old).offers) }
        ensures queued { OnOk result (waiting self.new ≡ record (waiting self.old) {
          items = enter (place_key (waiting self.old).kind priority (waiting self.old).offers) task (waiting self.old).items;
          offers = (waiting self.old).offers + 1;
        }) }
        ensures full { IfErr result (λ t. (t ≡ task) × (waiting self.new ≡ waiting self.old)) };

    /// The task that leaves first, as `BlockingQueue.peek`.
    fn head(&self) -> Option<TaskId>
        ensures { result ≡ option_map (λ x. x.0) (slice_get (waiting self.now).items 0) };

    /// Takes out the task that leaves first, as `BlockingQueue.poll`.
    fn take_head(&mut self) -> Option<TaskId>
        ensures head { result ≡ option_map (λ x. x.0) (slice_get (waiting self.old).items 0) }
        ensures rest { waiting self.new ≡ record (waiting self.old) { items = drop 1 (waiting self.old).items } };

    /// Takes out the task of this priority and place number, if it waits, as `BlockingQueue.remove`. The others keep their order
    /// and numbers. A queue that does not go by priority looks for the number alone.
    fn remove(&mut self, priority: u32, number: u64)
        ensures { waiting self.new ≡ record (waiting self.old) { items = without_place (place_key (waiting self.old).kind priority number) (waiting self.old).items } };

    /// Moves all tasks, in the queue's order, to the end of a list that has room for them, as
    /// `BlockingQueue.drainTo`. A stop reserves its whole answer before it changes anything.
    fn drain(&mut self, tasks: &mut Vec<TaskId>)
        requires { vec_len tasks.old + length (waiting self.old).items ≤ vec_capacity tasks.old }
        ensures tasks { tasks.new.items ≡ tasks.old.items ++ ids (waiting self.old).items }
        ensures room { vec_capacity tasks.new ≡ vec_capacity tasks.old }
        ensures empty { waiting self.new ≡ record (waiting self.old) { items = [] } }
    {
        while let Some(task) = self.take_head() {
            tasks.push_reserved(task);
        }
    }
}
