//! Who hears how the steps of a scenario are answered, as it is played.

use crate::step::Refusal;
use std::alloc::AllocError;
use tp_record::entries::Entry;
use tp_types::configs::Config;

/// How the pool answered a step: the entry that it added to the record, or its refusal.
pub type Answered = Result<Entry, Refusal>;

/// One that hears a play: each step's answer, in order. So a scenario is played once, whatever is wanted of it, and no answer is kept
/// that nobody wants.
pub trait Listener {
    ghost use Rattle.std.specs.Prelude.{List, [], ◌∷◌, ◌++◌, OnOk};
    ghost use Rattle.tp_types.specs.Config.{IsConfig};
    ghost use Rattle.tp_types.specs.declared.configs.Config.{Config as Settings};
    ghost use Rattle.tp_scenario.specs.Plays.{Answered as Answer};

    /// It heard how a pool with these settings answered, the oldest answer first.
    ghost heard: { Self → Settings → List Answer → Type 0 };

    /// The play begins, on a pool with these settings.
    fn begin(&mut self, config: &Config) -> Result<(), AllocError>
        requires { IsConfig config.now }
        ensures { OnOk result (heard self.new config.now []) };

    /// The step that the line of this number asks for is answered so.
    fn hear(&mut self, number: u32, line: &[u8], answered: &Answered) -> Result<(), AllocError>
        ensures { OnOk result ((c : Settings) (xs : List Answer) → heard self.old c xs → heard self.new c (xs ++ answered.now ∷ [])) };
}

/// Nobody hears the play: what is written of it is all.
#[derive(Clone, Copy, Debug)]
pub struct Nobody;

impl Listener for Nobody {
    ghost heard = { λ _ _ _. Unit {0} };

    fn begin(&mut self, _config: &Config) -> Result<(), AllocError> {
        Ok(())
    }

    fn hear(&mut self, _number: u32, _line: &[u8], _answered: &Answered) -> Result<(), AllocError> {
        Ok(())
    }
}

/// Two that hear one play.
#[derive(Drop)]
pub struct Both<A, B> {
    /// The one.
    pub one: A,
    /// The other.
    pub other: B,
}

impl<A: Listener, B: Listener> Listener for Both<A, B> {
    ghost heard = { λ b c xs. A.heard b.one c xs × B.heard b.other c xs };

    fn begin(&mut self, config: &Config) -> Result<(), AllocError> {
        self.one.begin(config)?;
        self.other.begin(config)?;
        Ok(())
    }

    fn hear(&mut self, number: u32, line: &[u8], answered: &Answered) -> Result<(), AllocError> {
        self.one.hear(number, line, answered)?;
        self.other.hear(number, line, answered)?;
        Ok(())
    }
}
