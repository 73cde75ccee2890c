//! What is told of a record entry by entry, to answer a question about it.

use std::alloc::Global;
use tp_audit::auditor::Auditor;
use tp_audit_plain::summary::Flaw;
use tp_record::entries::Entry;
use tp_story_words::forms::Form;
use tp_types::configs::Config;
use tp_types::refusals::PoolError;

/// What is said of a record in answer to a question.
#[derive(Debug, PartialEq, Eq, Drop)]
pub struct Said {
    /// What is written, in whole lines.
    pub text: Vec<u8>,
    /// Whether what was asked for is there.
    pub holds: bool,
    /// Why it is not, and what there is in its place.
    pub complaint: Option<String>,
}

/// What is told the entries of a record, the oldest first, and then answers a question about it.
pub trait Account: Sized {
    ghost use Rattle.std.specs.Prelude.{◌≡◌, ℕ, suc, Bool, List, [], ◌∷◌, length, Err, IfOk, IsOkUnless, OnOk};
    ghost use Rattle.tp_types.specs.Config.{IsConfig};
    ghost use Rattle.tp_types.specs.declared.configs.Config.{Config as Settings};
    ghost use Rattle.tp_record.specs.declared.entries.Entry.{Entry as Told};
    ghost use Rattle.tp_record.specs.State.{state};
    ghost use Rattle.tp_record.specs.Step.{Gives, Legal};
    ghost use Rattle.tp_story_words.specs.declared.forms.Form.{Form as Shape};

    /// What it is asked.
    type Question;

    /// The settings of the pool of whose record it is told.
    ghost settings: { Self → Settings };

    /// It was asked this.
    ghost is_asked: { Self.Question → Self → Type 0 };

    /// It was told this history.
    ghost tells: { Self → List Told → Type 0 };

    /// Of this history it says this in this form, and whether what was asked for is there.
    ghost says: { Self → List Told → Shape → List ℕ → Bool → Type 0 };

    /// One that was asked this of the record of a pool that is made with `config`, before the first entry. Want of memory is
    /// NoMemory (4).
    fn begin(alloc: Global, config: &Config, question: &Self::Question) -> Result<Self, Flaw>
        requires { IsConfig config.now }
        ensures settings { IfOk result (λ a. settings a ≡ config.now) }
        ensures asked { IfOk result (is_asked question.now) }
        ensures none { IfOk result (λ a. tells a []) }
        ensures refused { IsOkUnless result Flaw.NoMemory };

    /// Tells the next entry. One that the step does not give after those before it may be a flaw, with its number, from 1.
    fn tell(&mut self, entry: &Entry) -> Result<(), Flaw>
        ensures told { OnOk result ((h : List Told) → tells self.old h → tells self.new (entry.now ∷ h)) }
        ensures flaw { (n : ℕ) → result ≡ Err (Flaw.At n) → (h : List Told) → tells self.old h
            → Legal (settings self.old) h × (n ≡ suc (length h)) × (Gives (settings self.old) (state (settings self.old) h) entry.now.ask entry.now.did → ⊥) }
        ensures settings { settings self.new ≡ settings self.old }
        ensures asked { (q : Self.Question) → is_asked q self.old → is_asked q self.new };

    /// The auditor that was told the entries so far.
    fn auditor(&self) -> &Auditor;

    /// The answer. Want of memory is NoMemory (4).
    fn say(&self, alloc: Global, form: Form) -> Result<Said, PoolError>
        ensures said { IfOk result (λ s. (h : List Told) → tells self.now h → says self.now h form s.text.items s.holds) }
        ensures only_memory { IsOkUnless result PoolError.NoMemory };
}
