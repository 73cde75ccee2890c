//! How a body ended, in words.
ghost use Rattle.std.specs.Prelude.{◌≡◌, ◌++◌, OnOk, string_bytes};
ghost use Rattle.tp_scenario.specs.Lines.{outcome_text};

use std::alloc::AllocError;
use tp_types::tasks::Outcome;

/// Writes how a body ended, as a scenario has it: its value, or a fault's code after an exclamation mark.
pub fn write_outcome(line: &mut String, outcome: Outcome) -> Result<(), AllocError>
    ensures { OnOk result (string_bytes line.new ≡ string_bytes line.old ++ outcome_text outcome) }
{
    match outcome {
        Ok(value) => write!(line, "{value}"),
        Err(code) => write!(line, "!{code}"),
    }
}
