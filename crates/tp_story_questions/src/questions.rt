//! A question, from a reader of a record to a writer.

ghost use Rattle.std.specs.Prelude.{◌≡◌, ◌⊎◌, IfErr, IfOk};
ghost use Rattle.tp_text.specs.Watching.{TellsReader, TellsWriter, sink, source};
ghost use Rattle.tp_text_record.specs.ReadRecord.{IsRefusedText};
ghost use Rattle.tp_text_record.specs.Reading.{OfReader};
ghost use Rattle.tp_story_questions.specs.Answers.{AnswersFrom, IsAsked, IsWritten};

use crate::accounts::{Account, Said};
use crate::asking::Asking;
use std::alloc::Global;
use std::io::{Read, Write};
use tp_story_words::forms::Form;
use tp_text::watched::{WatchedReader, WatchedWriter};
use tp_text::writing::write_text;
use tp_text_record::reading::{Ending, RefusedLine, read_stream};
use tp_types::refusals::PoolError;

/// What is told beside an answer.
#[derive(Debug, PartialEq, Eq, Drop)]
pub struct Notes {
    /// The line for which the text is refused, where there was memory for it.
    pub refused: Option<RefusedLine>,
    /// Why there is no answer: the record has a flaw, or what was asked for is not there.
    pub complaint: Option<String>,
    /// How many entries the record has, where it is cut off.
    pub cut_off: Option<u32>,
}

impl Notes {
    /// Nothing.
    pub fn none() -> Notes {
        Notes {
            refused: None,
            complaint: None,
            cut_off: None,
        }
    }
}

/// Asks a question of the record that a reader gives.
fn ask<R: Read, T: Account + Drop>(
    alloc: Global,
    question: &T::Question,
    form: Form,
    reader: &mut WatchedReader<R>,
    notes: &mut Notes,
) -> Result<Said, PoolError>
    ensures answers { AnswersFrom T.settings T.is_asked T.tells T.says question.now form (R.remaining (source reader.old)) result }
    ensures tells_reader { TellsReader reader.old result reader.new }
{
    let ending = Ending::Anywhere;
    match read_stream::<R, Asking<T>>(alloc, question, ending, reader, &mut notes.refused) {
        Ok(read) => {
            if !read.is_over {
                notes.cut_off = Some(read.entries);
            }
            read.taker.say(alloc, form)
        }
        Err(refusal) => Err(refusal),
    }
}

/// Writes what is said, or leaves a refusal as it is. The answer says whether what was asked for is there. 26 comes just where the
/// writer fails now, which keeps why.
fn write_said<W: Write>(
    said: &Result<Said, PoolError>,
    writer: &mut WatchedWriter<W>,
) -> Result<bool, PoolError>
    ensures { IsWritten W.contents said.now writer.old result writer.new }
{
    match said {
        Ok(said) => match write_text(writer, said.text.as_slice()) {
            Ok(()) => Ok(said.holds),
            Err(refusal) => Err(refusal),
        },
        Err(refusal) => Err(*refusal),
    }
}

/// Asks a question of the record that a reader gives, line by line, so that it may have any length, and writes what is said; the record
/// may be cut off anywhere behind its pool line. The answer says whether what was asked for is there; it is not where the record has
/// a flaw. Refused is a configuration that no pool can have (1, 2, 3, 11), or else the first wrong line (24); 4 is want of memory.
/// 25 comes just where the reader fails now, which keeps why, or gives more lines than have numbers; 26 just where the writer fails
/// now, which keeps why. Nothing is written where it is refused, and nothing where what was asked for is not there.
pub fn answer_question<R: Read, W: Write, T: Account + Drop>(
    alloc: Global,
    question: &T::Question,
    form: Form,
    reader: &mut WatchedReader<R>,
    writer: &mut WatchedWriter<W>,
    notes: &mut Notes,
) -> Result<bool, PoolError>
    ensures asked { IsAsked T.settings T.is_asked T.tells T.says question.now form (R.remaining (source reader.old)) (W.contents (sink writer.old)) (W.contents (sink writer.new)) result }
    ensures tells_reader { TellsReader reader.old result reader.new }
    ensures tells_writer { TellsWriter writer.old result writer.new }
{
    let mut said = ask::<R, T>(alloc, question, form, reader, notes);
    let outcome = write_said(&said, writer);
    if let Ok(said) = &mut said {
        notes.complaint = said.complaint.take();
    }
    outcome
}
