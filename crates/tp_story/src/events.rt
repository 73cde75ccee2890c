//! One entry of a story.

ghost use Rattle.std.specs.Prelude.{◌≡◌};
ghost use Rattle.tp_audit.specs.Tables.{shown};
ghost use Rattle.tp_story.specs.Stories as stories;

use crate::naming::tells_of;
use crate::scenes::{Scene, scene_of};
use crate::subjects::Subject;
use tp_audit::tables::Tables;
use tp_record::entries::Entry;

/// An entry that tells of a subject.
#[derive(Clone, Copy, Debug, PartialEq, Eq)]
pub struct Event {
    /// The entry's number in the record, from 1.
    pub number: u64,
    /// The entry.
    pub entry: Entry,
    /// What the pool was like before it.
    pub before: Scene,
}

/// The entry that comes next, if it tells of the subject.
pub fn event_after(subject: Subject, tables: &Tables, entry: &Entry) -> Option<Event>
    ensures { result ≡ stories.event_after subject (shown tables.now) entry.now }
{
    if !tells_of(tables, entry.did, subject) {
        return None;
    }
    Some(Event {
        number: u64::from(tables.steps) + 1,
        entry: *entry,
        before: scene_of(tables),
    })
}
