//! A whole scenario, read from its text.

ghost use Rattle.std.specs.Prelude.{◌≡◌, ◌≤◌, ℕ, List, length, IfOk};
ghost use Rattle.tp_scenario.specs.declared.lines.ScenarioLine.{ScenarioLine};
ghost use Rattle.tp_scenario.specs.Lines.{FitsLine, line_text};
ghost use Rattle.tp_scenario.specs.Read.{said_by};
ghost use Rattle.tp_scenario.specs.Scenario.{IsScenario, Said};

use crate::lines::ScenarioLine;
use crate::texts::{PoolText, read_pool_text};
use std::alloc::{AllocError, Global};

/// A pool, and the steps that a scenario's lines ask of it.
pub type Scenario = PoolText<ScenarioLine>;

/// What the text of a scenario says: its pool and its steps, or the number of the bad line before
/// any pool line. Where no line is left for the pool, the line after the last is bad.
pub fn read_scenario(alloc: Global, text: &[u8]) -> Result<Result<Scenario, u32>, AllocError>
    requires { length text.now ≤ 1048576 }
    ensures { IfOk result (λ r. IsScenario text.now (said_by r)) }
{
    read_pool_text::<ScenarioLine>(alloc, text)
}

/// No text is that of two lines that ask for steps.
pub fn one_reading()
    ensures { (l m : ScenarioLine) → FitsLine l → FitsLine m → line_text l ≡ line_text m → l ≡ m }
{}

/// The law that the text of a scenario says one thing: one pool, the same steps and the same bad
/// line.
pub fn one_scenario()
    ensures { (text : List ℕ) (s t : Said) → IsScenario text s → IsScenario text t → s ≡ t }
{}
