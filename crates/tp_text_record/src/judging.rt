//! A record judged as its text is read.
ghost use Rattle.std.specs.Prelude.{◌≡◌};
ghost use Rattle.tp_audit.specs.Audited.{settings};
ghost use Rattle.tp_text_record.specs.Judging.{IsToldBy};

use crate::reading::Taker;
use crate::versions::Version;
use std::alloc::Global;
use tp_audit::auditor::Auditor;
use tp_audit_causes::flaws::flaw_text;
use tp_audit_plain::summary::Flaw;
use tp_record::entries::Entry;
use tp_types::configs::Config;
use tp_types::refusals::PoolError;

/// Judges the entries that it takes, and holds none of them. Those behind the first flaw it lets pass: there may be a wrong
/// line behind it, and then the text is refused.
#[derive(Drop)]
pub struct Judging {
    alloc: Global,
    config: Config,
    /// The auditor of the entries up to the first flaw.
    pub auditor: Auditor,
    /// The number of the first flaw, counted from 1.
    pub flaw: Option<usize>,
    /// Why it is one, where there was memory to say so.
    pub why: Option<String>,
}

impl Taker for Judging {
    ghost use Rattle.tp_audit.specs.Audited.{settings};
    ghost use Rattle.tp_text_record.specs.Judging.{IsToldBy};

    type Question = ();

    ghost about = { λ _ j v c. settings j.auditor ≡ c };

    ghost took = { λ j es. IsToldBy j.auditor j.flaw es };

    fn new(
        alloc: Global,
        _question: &(),
        _version: Version,
        config: &Config,
    ) -> Result<Judging, PoolError> {
        match Auditor::new(alloc, config) {
            Ok(auditor) => Ok(Judging {
                alloc,
                config: *config,
                auditor,
                flaw: None,
                why: None,
            }),
            Err(_) => Err(PoolError::NoMemory),
        }
    }

    fn take(&mut self, entry: &Entry) -> Result<(), PoolError> {
        if self.flaw.is_some() {
            return Ok(());
        }
        match self.auditor.push(entry) {
            Ok(()) => Ok(()),
            Err(Flaw::At(number)) => {
                self.why = flaw_text(self.alloc, &self.auditor, &self.config, number, entry).ok();
                self.flaw = Some(number);
                Ok(())
            }
            Err(Flaw::NoMemory) => Err(PoolError::NoMemory),
        }
    }
}
