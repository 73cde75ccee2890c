//! The queued tasks are handed back.

ghost use Rattle.std.specs.Prelude.{ℕ, ◌≡◌, ◌+◌, ◌≤◌, ◌++◌, [], length, vec_len, vec_capacity, IfSome, IfNone};
ghost use Rattle.tp_types.specs.declared.configs.Config.{Config};
ghost use Rattle.tp_queue.specs.Queues.{waiting_of};
ghost use Rattle.tp_laws.specs.View.{View};
ghost use Rattle.tp_machine_state.specs.Drained.{CanDrain, DrainsHead, HandsOutAll, drained as after_drain, handed_back};
ghost use Rattle.tp_machine_state.specs.Shows.{Views, numbers};
ghost use Rattle.tp_machine_state.specs.Tied.{IsTied};

use crate::parts::Parts;
use tp_queue::work::WorkQueue;
use tp_types::ids::TaskId;
use tp_types::tasks::Fate;

impl<P> Parts<P> {
    /// Hands back the tasks of the queue in order, as `drainTo` in `shutdownNow`: each is gone, and goes to the end of the list
    /// with its payload, if it waited. The list has room for them.
    pub fn drain_queue(&mut self, drained: &mut Vec<(TaskId, Option<P>)>)
        requires known { CanDrain self.old }
        requires room { vec_len drained.old + length (waiting_of self.old.queue).items ≤ vec_capacity drained.old }
        ensures handed { drained.new.items ≡ drained.old.items ++ handed_back self.old }
        ensures views { (v : View) → Views self.old v → Views self.new (after_drain v) }
        ensures tied { (c : Config) (n : ℕ) → IsTied c n self.old → IsTied c n self.new }
        ensures rest { self.new ≡ record self.old { tasks = self.new.tasks; queue = self.new.queue } }
        ensures payloads { HandsOutAll self.old.tasks self.new.tasks (numbers (waiting_of self.old.queue).items) }
    {
        while let Some(task) = self.drain_head() {
            drained.push_reserved(task);
        }
    }

    /// Hands back the task that waits longest, with its payload, if it waited.
    fn drain_head(&mut self) -> Option<(TaskId, Option<P>)>
        requires known { CanDrain self.old }
        ensures head { IfSome result (λ x. DrainsHead self.old self.new x) }
        ensures none { IfNone result ((waiting_of self.old.queue).items ≡ []) }
        ensures same { IfNone result (self.new ≡ self.old) }
    {
        let Some(t) = self.queue.head() else {
            return None;
        };
        self.dequeue();
        let payload = self.finish_task(t, Fate::HandedBack);
        Some((t, payload))
    }
}
