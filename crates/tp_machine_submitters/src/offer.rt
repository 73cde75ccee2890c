//! The submitter offers its task to the queue, as `workQueue.offer` in `execute`.

ghost use Rattle.std.specs.Prelude.{refl};
ghost use Rattle.tp_machine_state.specs.Payloads.{Keeps};
ghost use Rattle.tp_machine_state.specs.Steps.{Stands, Fits, Leads};

use tp_machine_state::parts::Parts;
use tp_machine_state::step::Step;
use tp_record::entries::{Ask, Did, Offered};
use tp_record::owed::{HELD, IDLE, QUEUED, SECOND_LOOK, TO_GROW, TO_OFFER, WORKING};
use tp_rules::submitters::offer;
use tp_types::ids::{SlotId, TaskId};
use tp_types::refusals::PoolError;
use tp_types::tasks::Place;

/// The submitter offers its task to the queue.
#[derive(Clone, Copy)]
pub struct Offer(pub TaskId);

impl<P> Step<P> for Offer {
    ghost use Rattle.tp_record.specs.declared.entries.Ask.TheVariants as ask;
    ghost use Rattle.tp_record.specs.declared.entries.Did.TheVariants as did;
    ghost use Rattle.tp_machine_state.proofs.Standing.{accepts_owed};

    /// Whether the queue takes the task, or a worker does, or neither.
    type Answer = Offered;

    type Out = ();

    ghost ask = { λ s. ask.Offer s.0 };

    ghost did = { λ s x. did.Offer s.0 x };

    ghost fits = { λ s x p. Fits p (ask.Offer s.0) (did.Offer s.0 x) };

    ghost accepts = { λ s x p stands fits. accepts_owed p stands (ask.Offer s.0) (did.Offer s.0 x) (λ n. refl) fits };

    #[inline(always)]
    fn ask(self) -> Ask {
        Ask::Offer(self.0)
    }

    #[inline(always)]
    fn did(self, answer: &Offered) -> Did {
        Did::Offer(self.0, *answer)
    }

    // UnknownTask (6) or NotThere (8).
    #[inline(always)]
    fn answer(self, parts: &Parts<P>) -> Result<Offered, PoolError> {
        offer(parts, parts.config.queue, self.0)
    }

    // A task that the queue takes goes straight there: each frame of this hold is one that does something.
    #[inline(always)]
    fn apply(self, parts: &mut Parts<P>, offered: Offered) {
        match offered {
            Offered::Queued => {
                parts.count_entry(TO_OFFER - QUEUED - SECOND_LOOK);
                parts.enqueue(self.0);
            }
            Offered::Hand(w) => hand(parts, self.0, w),
            Offered::Full => turn_away(parts, self.0),
        }
    }
}

/// The worker that was idle longest has the task.
#[inline(always)]
fn hand<P>(parts: &mut Parts<P>, t: TaskId, w: SlotId)
    requires stands { Stands parts.old }
    requires fits { Fits parts.old (Ask.Offer t) (Did.Offer t (Offered.Hand w)) }
    ensures leads { Leads parts.old (Did.Offer t (Offered.Hand w)) parts.new }
    ensures payloads { Keeps parts.old.tasks parts.new.tasks }
{
    parts.count_entry(TO_OFFER + IDLE - HELD - WORKING - SECOND_LOOK);
    parts.hand_task(t, w);
    parts.wake(w, Some(t));
}

/// There is no room: the pool is to grow.
#[inline(never)]
fn turn_away<P>(parts: &mut Parts<P>, t: TaskId)
    requires stands { Stands parts.old }
    requires fits { Fits parts.old (Ask.Offer t) (Did.Offer t Offered.Full) }
    ensures leads { Leads parts.old (Did.Offer t Offered.Full) parts.new }
    ensures payloads { Keeps parts.old.tasks parts.new.tasks }
{
    parts.count_entry(TO_OFFER - TO_GROW);
    parts.place_task(t, Place::ToGrow);
}
