//! A caller's entries on a way: each submission goes along its path, with no other entry of its caller between.
ghost use Rattle.std.specs.Prelude.{◌<◌, length};
ghost use Rattle.tp_explore_text.specs.Explored.{IsExplored};

use std::alloc::Global;
use tp_explore::deeds::Mover;
use tp_explore::moves::Move;
use tp_explore_ends::witnesses::witness;
use tp_explore_text::explored::Explored;
use tp_protocols::paths::{Next, follows};
use tp_record::entries::Did;
use tp_types::ids::TaskId;

/// Whether the further entries of this caller go along the path of a task, from its submission to its end.
fn goes_along(rest: &[Move], by: Mover, t: TaskId, submitted: &Did) -> bool {
    let mut next = follows(t, submitted);
    for made in rest {
        if let Next::End(_) = next {
            return true;
        }
        if made.deed.by == by {
            if let Ok(did) = made.answer {
                next = next.after(t, &did);
            }
        }
    }
    match next {
        Next::End(_) => true,
        _ => false,
    }
}

/// Whether each submission on a way goes along its path.
fn all_go_along(way: &[Move]) -> bool {
    for (i, made) in way.iter().enumerate() {
        if let Ok(did) = made.answer {
            if let Did::Submit(t, _, _, _) = did {
                let rest = way.get(i + 1..).unwrap_or(&[]);
                if !goes_along(rest, made.deed.by, t, &did) {
                    return false;
                }
            }
        }
    }
    true
}

/// Whether it is so on the way to this place, at which nobody can move.
fn is_followed(alloc: Global, explored: &Explored, place: usize) -> anyhow::Result<bool>
    requires explored { IsExplored explored.now }
    requires within { place < length explored.now.graph.states.items }
{
    let way = witness(alloc, &explored.named.exploration, &explored.graph, place)?;
    Ok(all_go_along(&way))
}

/// Whether it is so on the way to each state in which nobody can move.
pub fn same_followed(alloc: Global, explored: &Explored) -> anyhow::Result<bool>
    requires { IsExplored explored.now }
{
    for place in &explored.graph.ends {
        if !is_followed(alloc, explored, *place)? {
            return Ok(false);
        }
    }
    Ok(true)
}
