//! Steps of a book: one body for all of them, and for callers' and workers' passes alike.
ghost use Rattle.std.specs.Prelude.{◌≡◌, ◌<◌, ◌≤◌, ◌+◌, [], ◌∷◌, option_map, IfOk, IfErr, OnOk, OnErr};
ghost use Rattle.tp_machine.specs.Stepped.{IsPaid, did_of};
ghost use Rattle.tp_glance.specs.Word.{IsFrontOf};
ghost use Rattle.tp_book.specs.PassView.{receipts_with};
ghost use Rattle.tp_book.specs.BookView.{config, released_of, Advances, IsAdvanced, IsUnmoved, IsDenied};

use super::Book;
use crate::passes::Pass;
use crate::payers::Payer;
use tp_glance::glance::{Glance, Naming};
use tp_machine::machine::releases::Keeper;
use tp_machine::steps::Stepped;
use tp_machine::typed::Step;
use tp_machine::typed::asked::Asked;
use tp_record::entries::{Ask, Entry};
use tp_types::refusals::PoolError;
use tp_types::tasks::Promise;

impl<G: Naming, P, R: Keeper> Book<G, P, R> {
    /// Makes this step with a caller's or a worker's pass.
    ///
    /// An accepted step writes one entry with the pass's number. That entry is one unit of the pass's share and,
    /// where the pass is a caller's, its last receipt: the caller has reserved a place for it. Where the step
    /// raises the run state, the word publishes that. Accepted or refused, the pass knows the whole history
    /// then, and what it knew is a front of the history before. So a refusal is said of the pass's new front.
    ///
    /// TornRecord (22) where an outcome is not as the ending task promised, else refused as the machine's
    /// call is. Nothing has changed then, and what came with the step comes back.
    #[inline(always)]
    pub fn step_by<S: Step<P>, A: Payer<G>>(
        &mut self,
        step: S,
        load: S::Load,
        glance: &Glance<G>,
        pass: &mut A,
    ) -> Result<S::Answer, (PoolError, S::Load)>
        requires brings { S.brings step load }
        requires ready { A.ready pass.old (S.ask step) }
        ensures answers { IfOk result (λ x. S.answers step x) }
        ensures step { IfOk result (λ x. Advances self.old self.new (A.number pass.old) (S.ask step) (S.did step x) (S.moves step load x)) }
        ensures says { IfOk result (λ x. S.says step x (config self.old) self.old.history) }
        ensures paid { IfOk result (λ x. A.paid pass.old (record { by = A.number pass.old; ask = S.ask step; did = S.did step x }) pass.new) }
        ensures number { A.number pass.new ≡ A.number pass.old }
        ensures front { A.front pass.new ≡ self.new.history }
        ensures released { A.released pass.new ≡ released_of self.old }
        ensures refused { IfErr result (λ r. IsDenied R.RECEIPTS self.old (S.ask step) r.0) }
        ensures returned { IfErr result (λ r. r.1 ≡ load) }
        ensures unchanged { OnErr result (IsUnmoved self.old self.new) }
        ensures shown { OnErr result (A.shown pass.old pass.new) }
        ensures knew { IsFrontOf (A.front pass.old) self.old.history }
        ensures goes_on { IsFrontOf (A.front pass.old) self.new.history }
    {
        let Book {
            machine,
            accounts,
            seat,
        } = self;
        R::law_forgets_at_will();
        machine.law_slots_are_small();
        let before = machine.state();
        let by = pass.payer();
        let answer = match step.make(by, load, machine) {
            Ok(answer) => answer,
            Err(refused) => {
                pass.learn(glance, seat);
                return Err(refused);
            }
        };
        let entry = Entry {
            by,
            ask: step.ask(),
            did: step.did(&answer),
        };
        machine.law_slots_are_small();
        pass.pay(accounts, glance, seat, before, machine.state(), entry);
        Ok(answer)
    }

    /// Makes the step of this ask with a caller's pass, as `step_by` does and with the same refusals, where the
    /// ask is known only when the program runs. A promise and a payload come with a submission alone, and where
    /// that is refused the payload comes back.
    pub fn step(
        &mut self,
        ask: Ask,
        submitted: Option<(Promise, P)>,
        glance: &Glance<G>,
        pass: &mut Pass<G>,
    ) -> Result<Stepped<P>, (PoolError, Option<P>)>
    where
        P: Drop,
        requires payload { IsPaid ask submitted }
        requires room { 0 < pass.old.room }
        ensures step { IfOk result (IsAdvanced self.old self.new pass.old.number ask submitted) }
        ensures pass { IfOk result (λ s. pass.new ≡ record {
          number = pass.old.number;
          amount = pass.old.amount + 1;
          front = self.new.history;
          released = released_of self.old;
          keeps = pass.old.keeps;
          receipts = receipts_with pass.old (record { by = pass.old.number; ask = ask; did = did_of ask s } ∷ []);
          room = pass.new.room;
        }) }
        ensures left { pass.old.room ≤ pass.new.room + 1 }
        ensures refused { IfErr result (λ r. IsDenied R.RECEIPTS self.old ask r.0) }
        ensures returned { IfErr result (λ r. r.1 ≡ option_map (λ x. x.1) submitted) }
        ensures unchanged { OnErr result (IsUnmoved self.old self.new) }
        ensures shown { OnErr result (pass.new ≡ record pass.old { front = self.old.history; released = released_of self.old }) }
        ensures knew { IsFrontOf pass.old.front self.old.history }
        ensures goes_on { IsFrontOf pass.old.front self.new.history }
    {
        match self.step_by(Asked(ask), submitted, glance, pass) {
            Ok(stepped) => Ok(stepped),
            Err((error, submitted)) => Err((error, submitted.map(|(_, payload)| payload))),
        }
    }
}
