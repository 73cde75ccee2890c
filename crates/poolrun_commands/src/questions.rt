//! The commands that ask a question of a record: `why`, `now`, `stats` and `audit --cut`.

ghost use Rattle.std.specs.Prelude.{◌≤◌};
ghost use Rattle.poolrun_commands.specs.Questions.{Asks, AsksChosen};
ghost use Rattle.poolrun_commands.specs.Status.{Ends};

use crate::statuses::finish;
use crate::telling::{tell_cut, tell_flaw, tell_refused};
use poolrun_choices::choices::Question;
use std::alloc::Global;
use std::io::{Read, Write};
use tp_audit::auditor::Auditor;
use tp_messages::messages::Style;
use tp_story::fronts::Front;
use tp_story::stories::Story;
use tp_story::subjects::Subject;
use tp_story_questions::accounts::Account;
use tp_story_questions::numbers::Counted;
use tp_story_questions::questions::{Notes, answer_question};
use tp_story_words::forms::Form;
use tp_text::watched::{WatchedReader, WatchedWriter};
use tp_types::ids::{SlotId, TaskId};

/// Tells why there is no answer, and where a record is cut off.
pub fn tell_notes<E: Write>(errors: &mut E, name: &str, notes: &Notes) {
    if let Some(complaint) = &notes.complaint {
        tell_flaw(errors, name, complaint.as_str());
    }
    if let Some(entries) = notes.cut_off {
        tell_cut(errors, name, entries);
    }
}

/// Asks a question of the record that a reader of this name gives, and gives the status of the program: 0 where what was asked for is
/// there. What is wrong goes to `errors`.
pub fn run_question<R: Read, W: Write, E: Write, T: Account + Drop>(
    alloc: Global,
    name: &str,
    question: &T::Question,
    form: Form,
    reader: &mut WatchedReader<R>,
    out: &mut WatchedWriter<W>,
    errors: &mut E,
    style: Style,
) -> u8
    ensures few { result ≤ 1 }
    ensures asks { Ends W.contents (Asks R.remaining W.contents T.settings T.is_asked T.tells T.says question.now form reader.old reader.new out.old) result out.new }
{
    let mut notes = Notes::none();
    let outcome = answer_question::<R, W, T>(alloc, question, form, reader, out, &mut notes);
    let status = finish(out, &outcome);
    if let Err(refusal) = outcome {
        let line = &notes.refused;
        tell_refused(alloc, errors, name, reader, line, refusal, style);
    }
    tell_notes(errors, name, &notes);
    status
}

/// Answers a question about the record that a reader of this name gives, as `poolrun why`, `now`, `stats` and `audit --cut`, and gives
/// the status of the program: 0 where what was asked for is there. Why it is not, and where the record is cut off, goes to `errors`.
pub fn run_asked<R: Read, W: Write, E: Write>(
    alloc: Global,
    question: Question,
    form: Form,
    name: &str,
    reader: &mut WatchedReader<R>,
    out: &mut WatchedWriter<W>,
    errors: &mut E,
    style: Style,
) -> u8
    ensures few { result ≤ 1 }
    ensures asks { Ends W.contents (AsksChosen R.remaining W.contents question form reader.old reader.new out.old) result out.new }
{
    match question {
        Question::Task(t) => {
            let subject = Subject::Task(TaskId(t));
            run_question::<R, W, E, Story>(alloc, name, &subject, form, reader, out, errors, style)
        }
        Question::Slot(w) => {
            let subject = Subject::Slot(SlotId(w));
            run_question::<R, W, E, Story>(alloc, name, &subject, form, reader, out, errors, style)
        }
        Question::Now(until) => {
            run_question::<R, W, E, Front>(alloc, name, &until, form, reader, out, errors, style)
        }
        Question::Stats(top) => {
            run_question::<R, W, E, Counted>(alloc, name, &top, form, reader, out, errors, style)
        }
        Question::Cut => {
            run_question::<R, W, E, Auditor>(alloc, name, &(), form, reader, out, errors, style)
        }
    }
}
