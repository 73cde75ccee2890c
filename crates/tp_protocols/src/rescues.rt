//! What a thread does where it leaves a pool to nobody. No worker comes by itself, so the thread that is there ends the
//! pool, or has a worker made for the tasks that are queued.
ghost use Rattle.tp_protocols.specs.Rescues.{IsRound};

use std::sync::Wait;
use tp_types::ids::SlotId;

/// What is left to do in a pool that has no slot.
#[derive(Clone, Copy, Debug, PartialEq, Eq)]
pub enum Remains {
    /// Nothing, or nothing that this thread is to do.
    Nothing,
    /// The pool can end.
    End,
    /// So many tasks are queued, and the core size allows a worker for them.
    Worker(u32),
}

/// One deed of a rescue, with what came of it.
#[derive(Clone, Copy, Debug, PartialEq, Eq)]
pub enum RescueDeed {
    /// It asked for the pool's end; whether that began.
    Tidied(bool),
    /// The terminated hook was called.
    Terminated,
    /// It told that the hook had run.
    Ended,
    /// It asked for a worker; the slot that was reserved for one.
    Reserved(Option<SlotId>),
}

/// A pool that is to be rescued, as a thread steps there with a pass. Each call is one deed.
pub trait House<R: Wait> {
    ghost use Rattle.tp_protocols.specs.declared.rescues.RescueDeed.{RescueDeed};
    ghost use Rattle.tp_protocols.specs.declared.rescues.RescueDeed.TheVariants as deed;

    /// With which its steps are made.
    type Pass;

    // it is so of the pass before a deed and after it
    ghost did: { Self.Pass → RescueDeed → Self.Pass → Type 0 };

    /// Asks for the pool's end.
    fn tidy(&self, rt: &R, pass: &mut Self::Pass) -> bool
        ensures { did pass.old (deed.Tidied result) pass.new };

    /// Calls the terminated hook.
    fn terminated(&self, rt: &R, pass: &mut Self::Pass)
        ensures { did pass.old deed.Terminated pass.new };

    /// Tells that the terminated hook has run.
    fn ended(&self, rt: &R, pass: &mut Self::Pass)
        ensures { did pass.old deed.Ended pass.new };

    /// Asks for a worker.
    fn prestart(&self, rt: &R, pass: &mut Self::Pass) -> Option<SlotId>
        ensures { did pass.old (deed.Reserved result) pass.new };
}

/// One round of a rescue, after so many workers were asked for: ends the pool where it can end, or asks for a
/// worker, at most as often as tasks are queued. It answers the slot for which a worker is to be made then.
pub fn rescue<R: Wait, H: House<R>>(
    rt: &R,
    house: &H,
    pass: &mut H::Pass,
    remains: Remains,
    tried: u32,
) -> Option<SlotId>
    ensures { IsRound H.did pass.old remains tried result pass.new }
{
    match remains {
        Remains::Nothing => None,
        Remains::End => {
            if house.tidy(rt, pass) {
                house.terminated(rt, pass);
                house.ended(rt, pass);
            }
            None
        }
        Remains::Worker(queued) if tried < queued => house.prestart(rt, pass),
        Remains::Worker(_) => None,
    }
}
