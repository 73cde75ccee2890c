//! The command `steps`: a scenario is played.

ghost use Rattle.std.specs.Prelude.{◌≡◌, ◌≢◌, ◌≤◌, false, length, true, Err, IfOk, Some};
ghost use Rattle.tp_text.specs.Watching.{TellsWriter, sink};
ghost use Rattle.poolrun_commands.specs.Status.{Ends};
ghost use Rattle.poolrun_commands.specs.Steps.{IsPassed, IsRecordRun, Plays, RunsSteps};

use crate::explains::explain_record;
use crate::records::Recording;
use crate::refusals::Refusals;
use crate::statuses::finish;
use crate::telling::tell_refusal;
use crate::texts::text_or_status;
use poolrun_choices::choices::Playing;
use std::alloc::Global;
use std::io::{Read, Write};
use tp_messages::messages::Style;
use tp_messages::mistakes::Kind;
use tp_scenario::listeners::Both;
use tp_scenario::play::play as play_scenario;
use tp_scenario::run::run_text;
use tp_text::watched::{WatchedReader, WatchedWriter};
use tp_types::refusals::PoolError;

/// Whether a play lets the program end well.
pub(crate) fn passes(playing: Playing, refusals: &Refusals) -> bool
    ensures each { playing.is_strict ≡ false → result ≡ true }
    ensures strict { playing.is_strict ≡ true → result ≡ refusals.now.is_whole }
{
    !playing.is_strict || refusals.is_whole
}

/// Plays a scenario, and writes its record's text to `out`. The answer says whether a refused step is let pass.
fn play_for_record<W: Write, E: Write>(
    alloc: Global,
    playing: Playing,
    text: &[u8],
    out: &mut WatchedWriter<W>,
    errors: &mut E,
) -> Result<bool, PoolError>
    requires { length text.now ≤ 1048576 }
    ensures record { IsRecordRun (Some text.now) (W.contents (sink out.old)) (W.contents (sink out.new)) result }
    ensures passed { IfOk result (IsPassed playing.is_strict text.now) }
    ensures reads { result ≢ Err PoolError.ReadFailed }
    ensures tells_writer { TellsWriter out.old result out.new }
{
    let mut heard = Both {
        one: Recording::new(alloc),
        other: Refusals::new(alloc, playing.explains),
    };
    let played = play_scenario(alloc, text, &mut heard);
    heard.other.write(errors);
    if let Err(refusal) = played.ending {
        return Err(refusal);
    }
    match heard.one.write(alloc, out) {
        Ok(()) => Ok(passes(playing, &heard.other)),
        Err(refusal) => Err(refusal),
    }
}

/// Plays a scenario: its output, or the text of its record, goes to `out`, and to `errors` why steps are refused, where that is
/// asked for. The answer says whether the run went to its end, and where that is asked for also without a refused step.
pub fn play<W: Write, E: Write>(
    alloc: Global,
    playing: Playing,
    text: &[u8],
    out: &mut WatchedWriter<W>,
    errors: &mut E,
) -> Result<bool, PoolError>
    requires { length text.now ≤ 1048576 }
    ensures plays { Plays W.contents playing (Some text.now) out.old result out.new }
    ensures reads { result ≢ Err PoolError.ReadFailed }
{
    if playing.prints_record {
        return play_for_record(alloc, playing, text, out, errors);
    }
    let mut refusals = Refusals::new(alloc, playing.explains);
    let outcome = run_text(alloc, text, &mut refusals, out);
    refusals.write(errors);
    match outcome {
        Ok(()) => Ok(passes(playing, &refusals)),
        Err(refusal) => Err(refusal),
    }
}

/// Plays the scenario that a reader of this name gives, as `poolrun steps`, and gives the status of the program. What is wrong with
/// a text that is refused goes to `errors`.
pub fn run_steps<R: Read, W: Write, E: Write>(
    alloc: Global,
    playing: Playing,
    name: &str,
    reader: &mut WatchedReader<R>,
    out: &mut WatchedWriter<W>,
    errors: &mut E,
    style: Style,
) -> u8
    ensures few { result ≤ 1 }
    ensures runs { Ends W.contents (RunsSteps R.remaining W.contents playing reader.old reader.new out.old) result out.new }
{
    let text = match text_or_status(alloc, Kind::Scenario, name, reader, out, errors) {
        Ok(text) => text,
        Err(status) => return status,
    };
    let text = text.as_slice();
    let outcome = play(alloc, playing, text, out, errors);
    let status = finish(out, &outcome);
    if let Err(refusal) = outcome {
        // The text may be a record, which is explained all the same.
        explain_record(alloc, playing.explains, text, errors);
        tell_refusal(alloc, errors, Kind::Scenario, name, text, refusal, style);
    }
    status
}
