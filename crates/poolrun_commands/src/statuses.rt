//! The exit status, and the line of a refusal of the whole run.

ghost use Rattle.std.specs.Prelude.{◌≡◌, ◌≤◌};
ghost use Rattle.poolrun_commands.specs.Status.{IsFinished, status_of};

use std::io::Write;
use tp_text::ends::refusal_line;
use tp_text::watched::WatchedWriter;
use tp_text::writing::write_text;
use tp_types::refusals::PoolError;

/// Writes a refusal's line, and says with what status the program ends: 0 where the run answered
/// true, 1 where it answered false or was refused. Nothing is known of what a failing writer took.
pub fn finish<W: Write>(writer: &mut WatchedWriter<W>, outcome: &Result<bool, PoolError>) -> u8
    ensures status { result ≡ status_of outcome.now }
    ensures few { result ≤ 1 }
    ensures finished { IsFinished W.contents writer.old outcome.now writer.new }
{
    match outcome {
        Ok(true) => 0,
        Ok(false) => 1,
        Err(refusal) => {
            let line = refusal_line(*refusal);
            let _ = write_text(writer, line.as_str().as_bytes());
            1
        }
    }
}
