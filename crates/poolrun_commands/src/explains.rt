//! `--explain` of a record: which of its entries turned a task away, and what the pool was like then.

ghost use Rattle.std.specs.Prelude.{◌≡◌, ◌≤◌, length};
ghost use Rattle.tp_text_record.specs.AuditText.{JudgesText};

use std::alloc::{AllocError, Global};
use std::io::Write;
use tp_audit::tables::Tables;
use tp_record::entries::{Did, Entry, Grown, Looked, Offered, Ruled, Seconded};
use tp_story::events::event_after;
use tp_story::subjects::Subject;
use tp_story_words::words::{Earlier, ShownEvent};
use tp_text_record::judging::Judging;
use tp_text_record::judgments::{Judgment, judge};
use tp_text_record::reading::{Taker, read_whole};
use tp_text_record::versions::Version;
use tp_types::configs::Config;
use tp_types::ids::TaskId;
use tp_types::refusals::PoolError;

/// The task that an entry turns away: from the queue, from the pool, or from what was asked for it.
fn turned_away(did: Did) -> Option<TaskId> {
    match did {
        Did::Submit(task, _, _, Looked::Refuse)
        | Did::Look(task, Looked::Refuse)
        | Did::Offer(task, Offered::Full)
        | Did::Second(task, Seconded::Back)
        | Did::Grow(task, Grown::Refuse)
        | Did::Verdict(task, _, Ruled::Rejected)
        | Did::Verdict(task, _, Ruled::Discarded)
        | Did::Verdict(_, _, Ruled::RetryDrop(task))
        | Did::Remove(task, false)
        | Did::Cancel(task, _, false) => Some(task),
        _ => None,
    }
}

/// Writes why an entry turns a task away, by the tables before it, in a line of its own. Nothing is written where it turns none away.
fn write_reason(text: &mut String, tables: &Tables, entry: &Entry) -> Result<(), AllocError> {
    let Some(task) = turned_away(entry.did) else {
        return Ok(());
    };
    let subject = Subject::Task(task);
    // The text has two lines before its first entry.
    let line = u64::from(tables.steps) + 3;
    let Some(event) = event_after(subject, tables, entry) else {
        return Ok(());
    };
    let words = ShownEvent {
        subject,
        event: &event,
        earlier: &Earlier::none(),
    };
    write!(text, "line {line}: {subject}: {words}\n")
}

/// A record that is judged as its text is read; and why it turned tasks away up to its first flaw, where that is asked for. What there is
/// no memory to tell is left out.
#[derive(Drop)]
pub(crate) struct Explained {
    is_asked: bool,
    /// What judges it.
    pub(crate) judging: Judging,
    /// A line for each task that was turned away, as `line 12: t3: grow: refused, with 1 of 1 slots taken and 2 tasks queued`.
    pub(crate) told: String,
}

impl Taker for Explained {
    ghost use Rattle.tp_audit.specs.Audited.{settings};
    ghost use Rattle.tp_text_record.specs.Judging.{IsToldBy};

    type Question = bool;

    ghost about = { λ _ t v c. settings t.judging.auditor ≡ c };

    ghost took = { λ t es. IsToldBy t.judging.auditor t.judging.flaw es };

    fn new(
        alloc: Global,
        question: &bool,
        version: Version,
        config: &Config,
    ) -> Result<Explained, PoolError> {
        match Judging::new(alloc, &(), version, config) {
            Ok(judging) => Ok(Explained {
                is_asked: *question,
                judging,
                told: String::new(alloc),
            }),
            Err(refusal) => Err(refusal),
        }
    }

    fn take(&mut self, entry: &Entry) -> Result<(), PoolError> {
        if self.is_asked && self.judging.flaw.is_none() {
            let _ = write_reason(&mut self.told, self.judging.auditor.tables(), entry);
        }
        self.judging.take(entry)
    }
}

/// The judgment of a text, as `judge_text` gives it. Why its record turned tasks away is put in `told`, where that is asked for.
pub(crate) fn judge_explained(
    alloc: Global,
    explains: bool,
    text: &[u8],
    told: &mut String,
) -> Result<Judgment, PoolError>
    requires { length text.now ≤ 1048576 }
    ensures { JudgesText text.now result }
{
    match read_whole::<Explained>(alloc, &explains, text) {
        Ok(body) => {
            *told = body.taker.told;
            judge(alloc, body.taker.judging, body.entries)
        }
        Err(refusal) => Err(refusal),
    }
}

/// Tells why a record turned tasks away, where that is asked for and the text is a record.
pub fn explain_record<E: Write>(alloc: Global, explains: bool, text: &[u8], errors: &mut E)
    requires { length text.now ≤ 1048576 }
{
    if !explains {
        return;
    }
    if let Ok(body) = read_whole::<Explained>(alloc, &true, text) {
        let _ = errors.write_all(body.taker.told.as_bytes());
    }
}
