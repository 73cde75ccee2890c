//! Memory for tasks that is made before it is needed.
ghost use Rattle.tp_book.specs.BookView.{IsUnmoved};

use super::Book;
use tp_glance::glance::Naming;
use tp_machine::machine::releases::Keeper;
use tp_tasks::spaces::Space;

impl<G: Naming, P, R: Keeper> Book<G, P, R> {
    /// For how many homes of tasks a `Space` is to be made before the next submission: `Machine::wants_space`.
    #[inline(always)]
    pub fn wants_space(&self) -> usize {
        self.machine.wants_space()
    }

    /// Has the tasks lie in this memory: `Machine::take_space`.
    pub fn take_space(&mut self, space: &mut Space<P>)
        ensures { IsUnmoved self.old self.new }
    {
        R::law_forgets_at_will();
        self.machine.take_space(space);
    }
}
