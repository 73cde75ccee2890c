//! `diff --fates`: what became of the tasks of a record, and which tasks of two records ended otherwise.

ghost use Rattle.std.specs.Prelude.{ℕ, ◌≡◌, ◌↔◌, List, IfOk, IsOkUnless, IsTrue, string_bytes};
ghost use Rattle.std.specs.List.{flat_map};
ghost use Rattle.tp_record.specs.declared.entries.Entry.{Entry as Told};
ghost use Rattle.tp_audit.specs.Audited as audited;
ghost use Rattle.tp_story_questions.specs.Asking.{IsToldAll};
ghost use Rattle.tp_text.specs.Watching.{TellsReader, source};
ghost use Rattle.tp_text_record.specs.Reading.{OfReader};
ghost use Rattle.tp_story_claims.specs.Endings as endings;

use std::alloc::{AllocError, Global};
use std::io::Read;
use tp_audit::auditor::Auditor;
use tp_story_questions::asking::Asking;
use tp_story_questions::questions::Notes;
use tp_story_words::forms::Form;
use tp_text::watched::WatchedReader;
use tp_text_record::reading::{Ending, read_stream};
use tp_types::refusals::PoolError;
use tp_types::tasks::Fate;

/// What became of the tasks of the record of which an auditor was told; None where it has a flaw, which is noted.
fn fates_told(
    asking: &mut Asking<Auditor>,
    notes: &mut Notes,
) -> Result<Option<Vec<Option<Fate>>>, PoolError>
    ensures fates { IfOk result (λ f. (es : List Told) → IsToldAll audited.settings audited.Judged asking.old.account asking.old.flaw es → endings.AreFates (audited.settings asking.old.account) es f) }
    ensures only_memory { IsOkUnless result PoolError.NoMemory }
{
    if asking.flaw.is_some() {
        notes.complaint = asking.why.take();
        return Ok(None);
    }
    match asking.account.finish() {
        Ok(summary) => Ok(Some(summary.fates)),
        Err(_) => Err(PoolError::NoMemory),
    }
}

/// What became of the tasks of the record that a reader gives, the fate of each by its number, None where it is open. There is no
/// answer where the record has a flaw, which is noted, as is where it is cut off. Refused as `answer_question` refuses a text.
pub fn fates_in<R: Read>(
    alloc: Global,
    reader: &mut WatchedReader<R>,
    notes: &mut Notes,
) -> Result<Option<Vec<Option<Fate>>>, PoolError>
    ensures fates { IfOk result (λ f. OfReader (R.remaining (source reader.old)) (λ text. endings.AreFatesOf text f)) }
    ensures tells_reader { TellsReader reader.old result reader.new }
{
    let ending = Ending::Anywhere;
    match read_stream::<R, Asking<Auditor>>(alloc, &(), ending, reader, &mut notes.refused) {
        Ok(mut read) => {
            if !read.is_over {
                notes.cut_off = Some(read.entries);
            }
            fates_told(&mut read.taker, notes)
        }
        Err(refusal) => Err(refusal),
    }
}

/// What became of one task in two records.
#[derive(Clone, Copy, Debug, PartialEq, Eq)]
pub struct Otherwise {
    /// The task's number.
    pub task: usize,
    /// Its fate in the first record, None where it is open; None where the record does not submit it.
    pub first: Option<Option<Fate>>,
    /// The same of the second record.
    pub second: Option<Option<Fate>>,
}

/// What became of a task in two records.
fn ends_of(first: &[Option<Fate>], second: &[Option<Fate>], task: usize) -> Otherwise
    ensures { result ≡ endings.ends_of first.now second.now task }
{
    Otherwise {
        task,
        first: first.get(task).copied(),
        second: second.get(task).copied(),
    }
}

/// Whether the same became of a task in two records.
fn is_same(ends: &Otherwise) -> bool
    ensures { IsTrue result ↔ ends.now.first ≡ ends.now.second }
{
    ends.first == ends.second
}

/// The tasks that ended otherwise, the least number first. Want of memory is NoMemory (4).
pub fn ended_otherwise(
    alloc: Global,
    first: &[Option<Fate>],
    second: &[Option<Fate>],
) -> Result<Vec<Otherwise>, AllocError>
    ensures { IfOk result (λ found. endings.AreOtherwise first.now second.now (endings.tasks_of first.now second.now) found.items) }
{
    let mut found = Vec::new(alloc);
    for task in 0..first.len().max(second.len()) {
        let ends = ends_of(first, second, task);
        if !is_same(&ends) {
            found.push(ends)?;
        }
    }
    Ok(found)
}

/// What became of a task, in a word or two.
fn name_of(end: Option<Option<Fate>>) -> &'static str
    ensures { result.now ≡ endings.end_name end }
{
    match end {
        Some(Some(fate)) => fate.name(),
        Some(None) => "open",
        None => "not submitted",
    }
}

/// The line of a task that ended otherwise.
fn line_of(alloc: Global, ends: &Otherwise, form: Form) -> Result<String, AllocError>
    ensures { IfOk result (λ line. string_bytes line ≡ endings.end_line form ends.now) }
{
    let task = ends.task;
    let first = name_of(ends.first);
    let second = name_of(ends.second);
    match form {
        Form::Words => format!(in alloc; "t{task}: {first}, and {second}\n"),
        Form::Json => format!(in alloc;
            "{{\"task\":{task},\"first\":\"{first}\",\"second\":\"{second}\"}}\n"
        ),
    }
}

/// The lines of tasks that ended otherwise. Want of memory is NoMemory (4).
pub fn otherwise_text(alloc: Global, found: &[Otherwise], form: Form) -> Result<Vec<u8>, AllocError>
    ensures { IfOk result (λ text. text.items ≡ flat_map (endings.end_line form) found.now) }
{
    let mut text = Vec::new(alloc);
    for ends in found {
        let line = line_of(alloc, ends, form)?;
        text.extend_from_slice(line.as_bytes())?;
    }
    Ok(text)
}
