//! `now`: the pool after an entry.

use crate::accounts::{Account, Said};
use std::alloc::{AllocError, Global};
use tp_audit::auditor::Auditor;
use tp_audit_plain::summary::Flaw;
use tp_record::entries::Entry;
use tp_story::fronts::Front;
use tp_story_words::forms::Form;
use tp_story_words::fronts::front_text;
use tp_types::configs::Config;
use tp_types::refusals::PoolError;

/// That the record has no such entry, and which it has.
fn missing(alloc: Global, front: &Front) -> Result<String, AllocError> {
    let wanted = front.until().unwrap_or(0);
    let entries = front.tables().steps;
    format!(in alloc;
        "the record has no entry {wanted}; it has entries 0 to {entries}, where 0 stands before the first"
    )
}

impl Account for Front {
    ghost use Rattle.std.specs.Prelude.{◌≡◌};
    ghost use Rattle.tp_audit.specs.Audited as audited;
    ghost use Rattle.tp_story.specs.Fronts.{Follows};
    ghost use Rattle.tp_story_questions.specs.Saying.{SaysFront};

    type Question = Option<u64>;

    ghost settings = { λ f. audited.settings f.judge };

    ghost is_asked = { λ q f. f.until ≡ q };

    ghost tells = { Follows };

    ghost says = { SaysFront };

    fn begin(alloc: Global, config: &Config, question: &Option<u64>) -> Result<Front, Flaw> {
        Front::new(alloc, config, *question)
    }

    fn tell(&mut self, entry: &Entry) -> Result<(), Flaw> {
        self.tell(entry)
    }

    fn auditor(&self) -> &Auditor {
        self.auditor()
    }

    fn say(&self, alloc: Global, form: Form) -> Result<Said, PoolError> {
        if !self.has_entry() {
            let complaint = missing(alloc, self)?;
            return Ok(Said {
                text: Vec::new(alloc),
                holds: false,
                complaint: Some(complaint),
            });
        }
        let text = front_text(alloc, self, form)?;
        Ok(Said {
            text,
            holds: true,
            complaint: None,
        })
    }
}
