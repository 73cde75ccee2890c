//! Memory for tasks that is made before it is needed.

ghost use Rattle.tp_machine.specs.Steps.{Stays};

use super::Machine;
use tp_record::recorders::Recorder;
use tp_tasks::spaces::Space;

impl<P, R: Recorder> Machine<P, R> {
    /// For how many homes of tasks a `Space` is to be made before the next submission, 0 for none. Nothing is promised of that:
    /// where none is made, the submission takes the memory. Where the record is kept there was room from the beginning
    /// (`roomy`).
    #[inline(always)]
    pub fn wants_space(&self) -> usize {
        if R::RECEIPTS {
            0
        } else {
            self.parts.tasks.wants_space()
        }
    }

    /// Has the tasks lie in this memory, if there is room for twice as many in it. What they lay in comes back in its place. It is
    /// no step: nothing has changed.
    pub fn take_space(&mut self, space: &mut Space<P>)
        ensures { Stays R.tells self.old self.new }
    {
        self.parts.take_space(space);
    }
}
