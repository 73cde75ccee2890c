//! A second count: each sequence of moves is gone through for itself.
ghost use Rattle.std.specs.Prelude.{◌≡◌, ◌++◌, OnOk};
ghost use Rattle.std.specs.List.{All};
ghost use Rattle.tp_explore.specs.Moves.{Holds};
ghost use Rattle.tp_explore.specs.Situation.{seen};
ghost use Rattle.tp_explore_text.specs.Explored.{IsExplored};

use anyhow::anyhow;
use std::alloc::{AllocError, Global};
use tp_explore::states::{State, first};
use tp_explore_text::ends::end_text;
use tp_explore_text::explored::Explored;
use tp_explore_walk::counts::Count;
use tp_explore_walk::systems::System;

/// The most interleavings that are gone through one by one.
const MOST: u128 = 20_000;

/// How many sequences end with this text.
#[derive(Drop)]
struct Tally {
    text: String,
    count: u128,
}

/// Counts one more sequence that ends with this text.
fn count(tallies: &mut Vec<Tally>, text: String) -> Result<(), AllocError> {
    for i in 0..tallies.len() {
        if tallies[i].text.as_str() == text.as_str() {
            tallies[i].count = tallies[i].count.saturating_add(1);
            return Ok(());
        }
    }
    tallies.push(Tally { text, count: 1 })?;
    Ok(())
}

/// Goes through all sequences of moves, the last move first, and counts how they end.
fn count_all(alloc: Global, explored: &Explored) -> anyhow::Result<Vec<Tally>>
    requires { IsExplored explored.now }
{
    let exploration = &explored.named.exploration;
    let mut tallies = Vec::new(alloc);
    let begin = first(alloc, &exploration.plan)?;
    let mut open = Vec::new(alloc);
    open.push(begin)?;
    for _turn in 0..10_000_000 {
        let Some(state) = open.pop() else {
            return Ok(tallies);
        };
        let mut next = exploration.moves(alloc, &state)?;
        if next.is_empty() {
            count(
                &mut tallies,
                end_text(alloc, &explored.named.labels, &state)?,
            )?;
        }
        open.append(&mut next)?;
    }
    Err(anyhow!("too many sequences"))
}

/// Whether this end is counted so.
fn is_counted(tallies: &[Tally], text: &str, count: Count) -> bool {
    for tally in tallies {
        if tally.text.as_str() == text {
            return count == Count::Exactly(tally.count);
        }
    }
    false
}

/// How many interleavings there are; many where they are not known.
fn interleavings(explored: &Explored) -> u128 {
    let mut sum = Count::Exactly(0);
    for end in &explored.ends {
        sum = sum.plus(end.count);
    }
    match sum {
        Count::Exactly(sum) => sum,
        Count::Over => u128::MAX,
    }
}

/// Whether each end is counted as it is told, where there are few enough interleavings to go through them.
pub fn same_again(alloc: Global, explored: &Explored) -> anyhow::Result<bool>
    requires { IsExplored explored.now }
{
    if interleavings(explored) > MOST {
        return Ok(true);
    }
    let tallies = count_all(alloc, explored)?;
    for end in &explored.ends {
        if !is_counted(&tallies, end.text.as_str(), end.count) {
            return Ok(false);
        }
    }
    Ok(tallies.len() == explored.ends.len())
}
