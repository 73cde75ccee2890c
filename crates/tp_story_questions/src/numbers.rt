//! `stats`: a record in numbers.

use crate::accounts::{Account, Said};
use std::alloc::Global;
use tp_audit::auditor::Auditor;
use tp_audit_plain::summary::Flaw;
use tp_record::entries::Entry;
use tp_story::stats::Stats;
use tp_story_words::forms::Form;
use tp_story_words::numbers::stats_text;
use tp_types::configs::Config;
use tp_types::refusals::PoolError;

/// A record that is counted, and of how many tasks that waited longest it is to be told.
#[derive(Drop)]
pub struct Counted {
    /// What is counted.
    pub stats: Stats,
    /// Of so many tasks it is told.
    pub top: u64,
}

impl Account for Counted {
    ghost use Rattle.std.specs.Prelude.{◌≡◌, true};
    ghost use Rattle.tp_audit.specs.Audited as audited;
    ghost use Rattle.tp_story.specs.Counted.{Counts};

    type Question = u64;

    ghost settings = { λ c. audited.settings c.stats.judge };

    ghost is_asked = { λ q c. c.top ≡ q };

    ghost tells = { λ c h. Counts c.stats h };

    ghost says = { λ c h form out holds. holds ≡ true };

    fn begin(alloc: Global, config: &Config, question: &u64) -> Result<Counted, Flaw> {
        match Stats::new(alloc, config) {
            Ok(stats) => Ok(Counted {
                stats,
                top: *question,
            }),
            Err(flaw) => Err(flaw),
        }
    }

    fn tell(&mut self, entry: &Entry) -> Result<(), Flaw> {
        self.stats.tell(entry)
    }

    fn auditor(&self) -> &Auditor {
        self.stats.auditor()
    }

    fn say(&self, alloc: Global, form: Form) -> Result<Said, PoolError> {
        let text = stats_text(alloc, &self.stats, self.top, form)?;
        Ok(Said {
            text,
            holds: true,
            complaint: None,
        })
    }
}
