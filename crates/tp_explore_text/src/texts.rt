//! What is printed of an exploration: its ends, as lines and as JSON, and the scenario of an interleaving.
ghost use Rattle.std.specs.Prelude.{◌≡◌, ◌<◌, ◌++◌, IfOk, OnOk, length, string_bytes};
ghost use Rattle.std.specs.List.{flat_map};
ghost use Rattle.tp_explore_text.specs.Explored.{IsExplored};
ghost use Rattle.tp_explore_text.specs.Texts.{ListsEnds, count_text, end_line};

use crate::ends::End;
use crate::explored::Explored;
use crate::scenarios::scenario;
use std::alloc::{AllocError, Global};
use tp_explore_ends::witnesses::witness;
use tp_explore_walk::counts::Count;
use tp_types::refusals::PoolError;

fn write_count(text: &mut String, count: Count) -> Result<(), AllocError>
    ensures { OnOk result (string_bytes text.new ≡ string_bytes text.old ++ count_text count) }
{
    match count {
        Count::Exactly(n) => write!(text, "{n}"),
        Count::Over => text.push_str("over 340282366920938463463374607431768211455"),
    }
}

impl Explored {
    /// How many interleavings there are.
    fn interleavings(&self) -> Count {
        let mut sum = Count::Exactly(0);
        for end in &self.ends {
            sum = sum.plus(end.count);
        }
        sum
    }

    /// How many moves the graph has.
    fn steps(&self) -> usize {
        let mut steps: usize = 0;
        for row in &self.graph.moves {
            steps = steps.saturating_add(row.len());
        }
        steps
    }
}

// The line of an end.
fn write_end(text: &mut String, end: &End) -> Result<(), AllocError>
    ensures { OnOk result (string_bytes text.new ≡ string_bytes text.old ++ end_line end.now) }
{
    write_count(text, end.count)?;
    text.push_str(" ")?;
    text.push_str(end.text.as_str())?;
    text.push_str("\n")
}

// A line for each end.
fn write_ends(text: &mut String, ends: &[End]) -> Result<(), AllocError>
    ensures { OnOk result (string_bytes text.new ≡ string_bytes text.old ++ flat_map end_line ends.now) }
{
    for end in ends {
        write_end(text, end)?;
    }
    Ok(())
}

/// The ends, a line for each behind a line with the numbers of states, steps, interleavings and ends.
pub fn ends_text(alloc: Global, explored: &Explored) -> Result<String, AllocError>
    ensures { IfOk result (λ text. ListsEnds explored.now.ends.items (string_bytes text)) }
{
    let mut text = String::new(alloc);
    let states = explored.graph.states.len();
    let steps = explored.steps();
    let ends = explored.ends.len();
    write!(text, "states {states}, steps {steps}, interleavings ")?;
    write_count(&mut text, explored.interleavings())?;
    write!(text, ", ends {ends}\n")?;
    write_ends(&mut text, &explored.ends)?;
    Ok(text)
}

// An end as JSON. Its count is a text, since it may be greater than the numbers that readers keep.
fn write_json(text: &mut String, end: &End) -> Result<(), AllocError> {
    text.push_str("{\"count\":\"")?;
    write_count(text, end.count)?;
    text.push_str("\",\"end\":\"")?;
    text.push_str(end.text.as_str())?;
    text.push_str("\"}")
}

/// The same as JSON, on one line.
pub fn json_text(alloc: Global, explored: &Explored) -> Result<String, AllocError> {
    let mut text = String::new(alloc);
    let states = explored.graph.states.len();
    let steps = explored.steps();
    write!(
        text,
        "{{\"states\":{states},\"steps\":{steps},\"interleavings\":\""
    )?;
    write_count(&mut text, explored.interleavings())?;
    text.push_str("\",\"ends\":[")?;
    for (i, end) in explored.ends.iter().enumerate() {
        if i > 0 {
            text.push_str(",")?;
        }
        write_json(&mut text, end)?;
    }
    text.push_str("]}\n")?;
    Ok(text)
}

/// The scenario of a shortest interleaving to the state at this place. NoMemory (4) where there is no memory for it.
pub fn witness_text(alloc: Global, explored: &Explored, place: usize) -> Result<String, PoolError>
    requires explored { IsExplored explored.now }
    requires within { place < length explored.now.graph.states.items }
{
    let exploration = &explored.named.exploration;
    let way = witness(alloc, exploration, &explored.graph, place)?;
    Ok(scenario(alloc, &exploration.plan, &way)?)
}
