//! Whether the steps of a play are refused, and why: that is told by an auditor of its record.

ghost use Rattle.std.specs.Prelude.{◌≡◌, ◌==◌};
ghost use Rattle.tp_scenario.specs.Plays.{refusals_in};

use std::alloc::{AllocError, Global};
use std::io::Write;
use tp_audit::auditor::Auditor;
use tp_audit_causes::causes::Cause;
use tp_audit_plain::summary::Flaw;
use tp_record::entries::Entry;
use tp_scenario::listeners::{Answered, Listener};
use tp_scenario::step::Refusal;
use tp_types::configs::Config;

/// The settings of a play's pool, and an auditor of its record.
#[derive(Drop)]
struct Audited {
    config: Config,
    auditor: Auditor,
}

impl Audited {
    /// Tells the auditor an entry.
    fn note(&mut self, entry: &Entry) -> Result<(), AllocError> {
        match self.auditor.push(entry) {
            Err(Flaw::NoMemory) => Err(AllocError),
            _ => Ok(()),
        }
    }

    /// Tells why the step in the line of this number was refused.
    fn tell(
        &self,
        told: &mut String,
        number: u32,
        line: &[u8],
        refusal: &Refusal,
    ) -> Result<(), AllocError> {
        let text = str::from_utf8(line).unwrap_or("");
        let Refusal { ask, error } = *refusal;
        let cause = Cause {
            config: &self.config,
            tables: self.auditor.tables(),
            ask,
            refusal: error,
        };
        write!(told, "line {number}: {text}: {error} ({cause})\n")
    }
}

/// Hears whether each step is accepted; and where that is asked for why steps are refused, each in a line, as
/// `line 3: take 3: refused 7 UnknownSlot (slots: w0)`.
#[derive(Drop)]
pub struct Refusals {
    alloc: Global,
    is_asked: bool,
    pool: Option<Audited>,
    told: String,
    /// Whether each step so far was accepted.
    pub is_whole: bool,
}

impl Refusals {
    /// One that has heard nothing.
    pub fn new(alloc: Global, is_asked: bool) -> Refusals {
        Refusals {
            alloc,
            is_asked,
            pool: None,
            told: String::new(alloc),
            is_whole: true,
        }
    }

    /// Hears of an accepted step.
    fn note(&mut self, entry: &Entry) -> Result<(), AllocError>
        ensures { self.new.is_whole ≡ self.old.is_whole }
    {
        match &mut self.pool {
            Some(pool) => pool.note(entry),
            None => Ok(()),
        }
    }

    /// Tells why the step in the line of this number was refused.
    fn tell(&mut self, number: u32, line: &[u8], refusal: &Refusal) -> Result<(), AllocError>
        ensures { self.new.is_whole ≡ self.old.is_whole }
    {
        match &self.pool {
            Some(pool) => pool.tell(&mut self.told, number, line, refusal),
            None => Ok(()),
        }
    }

    /// Writes what it tells, at once.
    pub fn write<W: Write>(&self, out: &mut W) {
        let _ = out.write_all(self.told.as_bytes());
    }
}

impl Listener for Refusals {
    ghost heard = { λ r _ xs. r.is_whole ≡ (refusals_in xs == 0) };

    fn begin(&mut self, config: &Config) -> Result<(), AllocError> {
        self.is_whole = true;
        if !self.is_asked {
            return Ok(());
        }
        match Auditor::new(self.alloc, config) {
            Ok(auditor) => {
                let config = *config;
                self.pool = Some(Audited { config, auditor });
                Ok(())
            }
            Err(_) => Err(AllocError),
        }
    }

    fn hear(&mut self, number: u32, line: &[u8], answered: &Answered) -> Result<(), AllocError> {
        match answered {
            Ok(entry) => self.note(entry),
            Err(refusal) => {
                self.is_whole = false;
                self.tell(number, line, refusal)
            }
        }
    }
}
