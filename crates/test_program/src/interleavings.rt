//! Interleavings of callers' steps: what is told of them holds step by step.
ghost use Rattle.std.specs.Prelude.{IfOk};
ghost use Rattle.tp_explore_text.specs.Explored.{IsExplored};

mod again;
mod followed;
mod played;

use again::same_again;
use anyhow::anyhow;
use followed::same_followed;
use played::same_played;
use std::alloc::Global;
use tp_explore_text::explored::{Explored, explore_named};
use tp_explore_text::files::read_plan;
use tp_explore_walk::systems::Unwatched;

/// What is explored of a text.
fn explored(alloc: Global, text: &str) -> anyhow::Result<Explored>
    ensures { IfOk result IsExplored }
{
    let named = read_plan(alloc, text.as_bytes())?;
    match explore_named(alloc, named, 10_000, &mut Unwatched)? {
        Some(explored) => Ok(explored),
        None => Err(anyhow!("too many states")),
    }
}

/// Whether each sequence of moves is counted, each submission goes along its path, and each witness has the end that is told.
pub fn holds(alloc: Global, text: &str) -> anyhow::Result<bool> {
    let explored = explored(alloc, text)?;
    Ok(
        same_again(alloc, &explored)?
            && same_followed(alloc, &explored)?
            && same_played(alloc, &explored)?,
    )
}
