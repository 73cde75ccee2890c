//! The command `draw`: a record as a picture.

ghost use Rattle.std.specs.Prelude.{◌≤◌};
ghost use Rattle.poolrun_commands.specs.Drawings.{Draws};
ghost use Rattle.poolrun_commands.specs.Status.{Ends};

use crate::questions::run_question;
use std::alloc::Global;
use std::io::{Read, Write};
use tp_messages::messages::Style;
use tp_story_drawing::drawings::{Drawing, Window};
use tp_story_words::forms::Form;
use tp_text::watched::{WatchedReader, WatchedWriter};

/// Draws the record that a reader of this name gives, as `poolrun draw`, and gives the status of the program: 0 where some entry is
/// drawn. Nothing is drawn of a record that has a flaw. What is wrong goes to `errors`.
pub fn run_draw<R: Read, W: Write, E: Write>(
    alloc: Global,
    window: &Window,
    name: &str,
    reader: &mut WatchedReader<R>,
    out: &mut WatchedWriter<W>,
    errors: &mut E,
    style: Style,
) -> u8
    ensures few { result ≤ 1 }
    ensures draws { Ends W.contents (Draws R.remaining W.contents window.now reader.old reader.new out.old) result out.new }
{
    let form = Form::Words;
    run_question::<R, W, E, Drawing>(alloc, name, window, form, reader, out, errors, style)
}
