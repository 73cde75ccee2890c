//! The graph of states, for Graphviz.
ghost use Rattle.tp_explore_text.specs.Explored.{IsExplored};

use crate::ends::end_text;
use crate::explored::Explored;
use std::alloc::{AllocError, Global};

/// The most states of a graph that is drawn.
pub const MOST_DRAWN: usize = 2_000;

// The colour of an end, by the fate that its reader looks for first.
fn colour(text: &str) -> &'static str {
    if text.contains(" open") {
        "khaki"
    } else if text.contains(" rejected") {
        "salmon"
    } else if text.contains(" handedback") {
        "lightblue"
    } else if text.contains(" discarded") {
        "orange"
    } else if text.contains(" cancelled") || text.contains(" removed") {
        "lightgrey"
    } else {
        "palegreen"
    }
}

// The ends, each with what became of the tasks.
fn write_ends(alloc: Global, explored: &Explored, text: &mut String) -> Result<(), AllocError>
    requires { IsExplored explored.now }
{
    for place in &explored.graph.ends {
        let state = &explored.graph.states[*place];
        let label = end_text(alloc, &explored.named.labels, state)?;
        let colour = colour(label.as_str());
        write!(
            text,
            "  s{place} [shape=box, style=filled, fillcolor={colour}, label=\"{label}\"];\n"
        )?;
    }
    Ok(())
}

/// The graph of states as a picture for Graphviz: a dot for each state, and for each end a box with what became of the tasks, coloured by
/// fate.
pub fn dot_text(alloc: Global, explored: &Explored) -> Result<String, AllocError>
    requires { IsExplored explored.now }
{
    let mut text = String::new(alloc);
    text.push_str("digraph interleavings {\n  node [shape=point];\n  edge [arrowsize=0.5];\n")?;
    write_ends(alloc, explored, &mut text)?;
    for (from, row) in explored.graph.moves.iter().enumerate() {
        for to in row {
            write!(text, "  s{from} -> s{to};\n")?;
        }
    }
    text.push_str("}\n")?;
    Ok(text)
}
