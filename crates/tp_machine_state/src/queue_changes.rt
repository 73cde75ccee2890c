//! Changes of the work queue.

ghost use Rattle.std.specs.Prelude.{ℕ, ◌≡◌, drop};
ghost use Rattle.tp_types.specs.declared.configs.Config.{Config};
ghost use Rattle.tp_queue.specs.Queues.{waiting_of};
ghost use Rattle.tp_laws.specs.View.{View};
ghost use Rattle.tp_machine_state.specs.Shows.{Views};
ghost use Rattle.tp_machine_state.specs.Tied.{IsTied};

use crate::parts::Parts;
use tp_queue::work::WorkQueue;

impl<P> Parts<P> {
    /// Takes the task out of the queue that waits longest.
    #[inline(always)]
    pub fn dequeue(&mut self)
        ensures views { (v : View) → Views self.old v → Views self.new (record v { queue = drop 1 v.queue }) }
        ensures tied { (c : Config) (n : ℕ) → IsTied c n self.old → IsTied c n self.new }
        ensures rest { self.new ≡ record self.old { queue = self.new.queue } }
        ensures left { (waiting_of self.new.queue).items ≡ drop 1 (waiting_of self.old.queue).items }
    {
        self.queue.take_head();
    }
}
