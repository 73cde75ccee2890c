//! A question about a record, as its text is read.

ghost use Rattle.std.specs.Prelude.{◌≡◌, List, IfOk, IsOkUnless};
ghost use Rattle.tp_record.specs.declared.entries.Entry.{Entry as Told};
ghost use Rattle.tp_story_questions.specs.Asking.{IsToldAll, SaysOfAll};

use crate::accounts::{Account, Said};
use std::alloc::Global;
use tp_audit_causes::flaws::flaw_text;
use tp_audit_plain::summary::Flaw;
use tp_record::entries::Entry;
use tp_story_words::forms::Form;
use tp_text_record::reading::Taker;
use tp_text_record::versions::Version;
use tp_types::configs::Config;
use tp_types::refusals::PoolError;

/// Tells an account each entry that is taken, up to the first flaw. Those behind it are let pass: there may be a wrong line
/// behind it, and then the text is refused.
#[derive(Drop)]
pub struct Asking<T> {
    alloc: Global,
    config: Config,
    /// What is told the entries up to the first flaw.
    pub account: T,
    /// The number of the first flaw, counted from 1.
    pub flaw: Option<usize>,
    /// Why it is one, where there was memory to say so.
    pub why: Option<String>,
}

impl<T: Account + Drop> Taker for Asking<T> {
    ghost use Rattle.tp_story_questions.specs.Asking.{IsAskedOf, IsToldAll};

    type Question = T::Question;

    ghost about = { λ q a v c. IsAskedOf T.settings T.is_asked q a.account c };

    ghost took = { λ a es. IsToldAll T.settings T.tells a.account a.flaw es };

    fn new(
        alloc: Global,
        question: &T::Question,
        _version: Version,
        config: &Config,
    ) -> Result<Asking<T>, PoolError> {
        match T::begin(alloc, config, question) {
            Ok(account) => Ok(Asking {
                alloc,
                config: *config,
                account,
                flaw: None,
                why: None,
            }),
            Err(_) => Err(PoolError::NoMemory),
        }
    }

    fn take(&mut self, entry: &Entry) -> Result<(), PoolError> {
        if self.flaw.is_some() {
            return Ok(());
        }
        match self.account.tell(entry) {
            Ok(()) => Ok(()),
            Err(Flaw::At(number)) => {
                self.why = flaw_text(
                    self.alloc,
                    self.account.auditor(),
                    &self.config,
                    number,
                    entry,
                )
                .ok();
                self.flaw = Some(number);
                Ok(())
            }
            Err(Flaw::NoMemory) => Err(PoolError::NoMemory),
        }
    }
}

impl<T: Account + Drop> Asking<T> {
    /// The answer to the question, or that the record has a flaw. Want of memory is NoMemory (4).
    pub fn say(self, alloc: Global, form: Form) -> Result<Said, PoolError>
        ensures said { IfOk result (λ s. (es : List Told) → IsToldAll T.settings T.tells self.account self.flaw es
            → SaysOfAll T.settings T.says self.account self.flaw es form s.text.items s.holds) }
        ensures only_memory { IsOkUnless result PoolError.NoMemory }
    {
        if self.flaw.is_some() {
            return Ok(Said {
                text: Vec::new(alloc),
                holds: false,
                complaint: self.why,
            });
        }
        self.account.say(alloc, form)
    }
}
