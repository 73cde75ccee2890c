//! `audit --cut`: whether a record is legal as far as it goes.

ghost use Rattle.std.specs.Prelude.{◌≡◌, IfOk, string_bytes};
ghost use Rattle.tp_story_questions.specs.Saying.{cut_text};

use crate::accounts::{Account, Said};
use std::alloc::{AllocError, Global};
use tp_audit::auditor::Auditor;
use tp_audit_plain::summary::{Flaw, Summary};
use tp_record::entries::Entry;
use tp_story_words::forms::Form;
use tp_story_words::objects::CountMembers;
use tp_text::ends::{write_counts, write_state};
use tp_types::configs::Config;
use tp_types::refusals::PoolError;

/// So many entries that are legal, the run state and the counters, in words.
fn in_words(alloc: Global, entries: u32, summary: &Summary) -> Result<String, AllocError>
    ensures { IfOk result (λ text. string_bytes text ≡ cut_text entries summary.now) }
{
    let mut lines = format!(in alloc; "legal so far {entries}\n")?;
    write_state(&mut lines, summary.state)?;
    write_counts(&mut lines, &summary.counts)?;
    Ok(lines)
}

/// The same as JSON.
fn as_json(alloc: Global, entries: u32, summary: &Summary) -> Result<String, AllocError> {
    let state = summary.state.name();
    let counts = CountMembers(&summary.counts);
    format!(in alloc; "{{\"legal\":{entries},\"state\":\"{state}\",{counts}}}\n")
}

impl Account for Auditor {
    ghost use Rattle.tp_audit.specs.Audited.{Judged};
    ghost use Rattle.tp_audit.specs.Audited as audited;
    ghost use Rattle.tp_story_questions.specs.Saying.{SaysCut};

    type Question = ();

    ghost settings = { λ a. audited.settings a };

    ghost is_asked = { λ q a. Unit {0} };

    ghost tells = { Judged };

    ghost says = { SaysCut };

    fn begin(alloc: Global, config: &Config, _question: &()) -> Result<Auditor, Flaw> {
        Auditor::new(alloc, config)
    }

    fn tell(&mut self, entry: &Entry) -> Result<(), Flaw> {
        self.push(entry)
    }

    fn auditor(&self) -> &Auditor {
        self
    }

    fn say(&self, alloc: Global, form: Form) -> Result<Said, PoolError> {
        let Ok(summary) = self.finish() else {
            return Err(PoolError::NoMemory);
        };
        let entries = self.tables().steps;
        let text = match form {
            Form::Words => in_words(alloc, entries, &summary)?,
            Form::Json => as_json(alloc, entries, &summary)?,
        };
        Ok(Said {
            text: text.into_bytes(),
            holds: true,
            complaint: None,
        })
    }
}
