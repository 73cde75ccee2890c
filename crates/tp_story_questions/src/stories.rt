//! `why`: the story of a task or of a slot.

use crate::accounts::{Account, Said};
use std::alloc::{AllocError, Global};
use tp_audit::auditor::Auditor;
use tp_audit_causes::rows::{ShownSlots, ShownTasks};
use tp_audit_plain::summary::Flaw;
use tp_record::entries::Entry;
use tp_story::stories::Story;
use tp_story::subjects::Subject;
use tp_story_words::forms::Form;
use tp_story_words::stories::write_story;
use tp_types::configs::Config;
use tp_types::refusals::PoolError;

/// That the record knows no such task or slot, and which it knows.
fn unknown(alloc: Global, story: &Story) -> Result<String, AllocError> {
    let subject = story.subject();
    let tables = story.tables();
    match subject {
        Subject::Task(_) => {
            let tasks = ShownTasks(tables);
            format!(in alloc; "the record has no {subject}; it has {tasks}")
        }
        Subject::Slot(_) => {
            let slots = ShownSlots(tables);
            format!(in alloc;
                "no entry of the record tells of {subject}; at its end there are {slots}"
            )
        }
    }
}

impl Account for Story {
    ghost use Rattle.std.specs.Prelude.{◌≡◌};
    ghost use Rattle.tp_audit.specs.Audited as audited;
    ghost use Rattle.tp_story.specs.Stories.{Tells};
    ghost use Rattle.tp_story_questions.specs.Saying.{SaysStory};

    type Question = Subject;

    ghost settings = { λ s. audited.settings s.judge };

    ghost is_asked = { λ q s. s.subject ≡ q };

    ghost tells = { Tells };

    ghost says = { SaysStory };

    fn begin(alloc: Global, config: &Config, question: &Subject) -> Result<Story, Flaw> {
        Story::new(alloc, config, *question)
    }

    fn tell(&mut self, entry: &Entry) -> Result<(), Flaw> {
        self.tell(entry)
    }

    fn auditor(&self) -> &Auditor {
        self.auditor()
    }

    fn say(&self, alloc: Global, form: Form) -> Result<Said, PoolError> {
        if !self.is_known() {
            let complaint = unknown(alloc, self)?;
            return Ok(Said {
                text: Vec::new(alloc),
                holds: false,
                complaint: Some(complaint),
            });
        }
        let mut text = String::new(alloc);
        write_story(alloc, &mut text, self, form)?;
        Ok(Said {
            text: text.into_bytes(),
            holds: true,
            complaint: None,
        })
    }
}
