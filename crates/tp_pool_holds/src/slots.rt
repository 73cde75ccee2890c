//! A reserved slot is handed over to the worker that was made for it, or is given up.
ghost use Rattle.std.specs.Prelude.{◌≡◌, IfOk, IfErr, OnErr};
ghost use Rattle.tp_record.specs.State.{state};
ghost use Rattle.tp_machine_state.specs.Payloads.{Keeps};
ghost use Rattle.tp_pool_holds.specs.Left.{IsLeft};
ghost use Rattle.tp_pool_holds.specs.Passes.{entry_of, opening};
ghost use Rattle.tp_pool_holds.specs.Steps.{Makes, Refused as IsRefusedAt};

use crate::edges::Edge;
use crate::locked::Locked;
use crate::names::PoolNaming;
use crate::shared::{Event, Shared, left_in};
use std::sync::Wait;
use tp_book::payers::Payer;
use tp_glance::glance::Glance;
use tp_machine::machine::releases::Keeper;
use tp_machine::typed::Plain;
use tp_machine::typed::workers::Fail;
use tp_protocols::rescues::Remains;
use tp_record::entries::{Ask, Did};
use tp_types::ids::SlotId;
use tp_types::refusals::PoolError;

// The step `open` of a slot for which a worker was made, or else its step `fail`: what it did.
fn opened<G: PoolNaming, J: Drop, K: Keeper, A: Payer<G>>(
    locked: &mut Locked<G, J, K>,
    w: SlotId,
    staffed: bool,
    glance: &Glance<G>,
    pass: &mut A,
) -> Result<Did, PoolError>
    requires ready { A.ready pass.old (Ask.Open w) × A.ready pass.old (Ask.Fail w) }
    ensures makes { IfOk result (λ d. Makes J (K.terms G.config) (A.number pass.old) (A.front pass.old) (opening w staffed) d Keeps (A.front pass.new)) }
    ensures paid { IfOk result (λ d. A.paid pass.old (entry_of (A.number pass.old) (opening w staffed) d) pass.new) }
    ensures refused { IfErr result (λ e. IsRefusedAt J K.RECEIPTS (K.terms G.config) (A.front pass.old) (opening w staffed) e (A.front pass.new)) }
    ensures shown { OnErr result (A.shown pass.old pass.new) }
    ensures number { A.number pass.new ≡ A.number pass.old }
    ensures front { A.front pass.new ≡ locked.new.book.history }
{
    if staffed {
        match locked.open(w, glance, pass) {
            Ok(opened) => Ok(Did::Open(w, opened)),
            Err(error) => Err(error),
        }
    } else {
        match locked.step(Plain(Fail(w)), glance, pass) {
            Ok(failed) => Ok(Did::Fail(w, failed)),
            Err(error) => Err(error),
        }
    }
}

impl<G: PoolNaming, J: Drop, E: Edge, K: Keeper> Shared<G, J, E, K> {
    /// Tells, in a hold of its own, whether a worker was made for this slot, with a caller's or a worker's pass: the step
    /// `open` or `fail`. What it did, and what is left to do then. The thread that waits to be told of the slot is woken.
    pub fn hand_over<R: Wait, A: Payer<G>>(
        &self,
        rt: &R,
        w: SlotId,
        staffed: bool,
        pass: &mut A,
    ) -> (Result<Did, PoolError>, Remains)
        requires ready { A.ready pass.old (Ask.Open w) × A.ready pass.old (Ask.Fail w) }
        ensures makes { IfOk result.0 (λ d. Makes J (K.terms G.config) (A.number pass.old) (A.front pass.old) (opening w staffed) d Keeps (A.front pass.new)) }
        ensures paid { IfOk result.0 (λ d. A.paid pass.old (entry_of (A.number pass.old) (opening w staffed) d) pass.new) }
        ensures refused { IfErr result.0 (λ e. IsRefusedAt J K.RECEIPTS (K.terms G.config) (A.front pass.old) (opening w staffed) e (A.front pass.new)) }
        ensures shown { OnErr result.0 (A.shown pass.old pass.new) }
        ensures number { A.number pass.new ≡ A.number pass.old }
        ensures left { IsLeft (state (K.terms G.config) (A.front pass.new)) result.1 }
    {
        let mut locked = self.hold(rt);
        let did = opened(&mut locked, w, staffed, &self.around.glance, pass);
        let remains = left_in(&locked);
        self.release(locked);
        self.tell_threads(staffed);
        (did, remains)
    }

    // Wakes the threads that wait to be told of their slots, where one was made.
    fn tell_threads(&self, made: bool) {
        if made {
            self.around.conditions.wake_all(Event::Begun);
        }
    }
}
