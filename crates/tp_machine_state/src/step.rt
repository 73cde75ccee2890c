//! A step as one value: what it asks, what it answers, and what it makes of a pool's structures.

ghost use Rattle.std.specs.Prelude.{◌≡◌, IfOk, IfErr, OnOk};
ghost use Rattle.tp_laws.specs.Reserved.{TakesNext};
ghost use Rattle.tp_machine_state.specs.Outcomes.{FitsOutcome, Denies};
ghost use Rattle.tp_machine_state.specs.Steps.{Stands, Accepts, Leads};

use crate::parts::Parts;
use tp_record::entries::{Ask, Did};
use tp_types::refusals::PoolError;

/// A step of a pool with payloads `P`: a small value, which reads the structures for its answer and then changes them.
pub trait Step<P>: Copy {
    ghost use Rattle.tp_record.specs.declared.entries.Ask.{Ask};
    ghost use Rattle.tp_record.specs.declared.entries.Did.{Did};
    ghost use Rattle.tp_tasks.specs.declared.tasks.Tasks.{Tasks};
    ghost use Rattle.tp_machine_state.specs.declared.parts.Parts.{Parts};
    ghost use Rattle.tp_machine_state.specs.Payloads.{Keeps};

    /// What this step answers: what its entry says beside what was asked.
    type Answer: Copy;

    /// What it hands out beside its answer: a payload, or nothing.
    type Out;

    /// What it asks.
    ghost ask: { Self → Ask };

    /// What its entry says was done, where it was so answered.
    ghost did: { Self → Self.Answer → Did };

    /// What an answer says of the structures that it was read of.
    ghost fits: { Self → Self.Answer → Parts P → Type 0 };

    /// What it does to the payloads and promises of the tasks: it keeps them, where a step does not say otherwise.
    ghost moves: { Self → Self.Answer → Self.Out → Tasks P → Tasks P → Type 0 } = { λ _ _ _ old new. Keeps old new };

    /// What it asks.
    fn ask(self) -> Ask
        ensures { result ≡ ask self };

    /// What its entry says was done.
    fn did(self, answer: &Self::Answer) -> Did
        ensures { result ≡ did self answer.now };

    /// What the step answers in these structures, or why it is refused: TornRecord (22) where an outcome is not as the task
    /// promised that ends, else as the step is. Nothing changes.
    fn answer(self, parts: &Parts<P>) -> Result<Self::Answer, PoolError>
        requires stands { Stands parts.now }
        ensures fits { IfOk result (λ x. fits self x parts.now) }
        ensures next { IfOk result (λ x. TakesNext parts.now.slots.next (did self x)) }
        ensures promised { OnOk result (FitsOutcome parts.now (ask self)) }
        ensures denies { IfErr result (λ e. Denies parts.now (ask self) e) };

    /// Makes an accepted answer.
    fn apply(self, parts: &mut Parts<P>, answer: Self::Answer) -> Self::Out
        requires stands { Stands parts.old }
        requires fits { fits self answer parts.old }
        requires next { TakesNext parts.old.slots.next (did self answer) }
        ensures leads { Leads parts.old (did self answer) parts.new }
        ensures moves { moves self answer result parts.old.tasks parts.new.tasks };

    /// The law that such an answer is accepted: it is owed, or there is room for its entry.
    ghost accepts: { (s : Self) (x : Self.Answer) (p : Parts P) → Stands p → fits s x p → Accepts p (ask s) (did s x) };
}
