//! The ends: what becomes of each task, and how many interleavings lead there.
ghost use Rattle.std.specs.Prelude.{◌≡◌, ◌≢◌, ◌<◌, ◌++◌, ◌∷◌, ℕ, List, [], OnOk, IfOk, IsPermutation, MatchOption, codes, length, map, string_bytes};
ghost use Rattle.std.specs.List.{All, AllZip, flat_map};
ghost use Rattle.tp_types.specs.RunState.{state_name};
ghost use Rattle.tp_text.specs.EndLines.{state_at};
ghost use Rattle.tp_explore_walk.specs.Moves.{IsAt};
ghost use Rattle.tp_explore_walk.specs.Paths.{Tells};
ghost use Rattle.tp_explore.specs.Situation.{Situation, seen};
ghost use Rattle.tp_explore_text.specs.Ends as spec;
ghost use Rattle.tp_explore_text.specs.Ends.{AreTold, fate_text, task_text, text_of};

use crate::outcomes::write_outcome;
use std::alloc::{AllocError, Global};
use tp_explore::states::State;
use tp_explore_walk::counts::Count;
use tp_explore_walk::graphs::Graph;
use tp_rules::next::task_at;
use tp_types::states::RunState;
use tp_types::tasks::{Fate, Outcome};

/// The name of a submission.
#[derive(Debug, Drop)]
pub struct Label {
    /// The name.
    pub name: String,
    /// The submission's place in the plan.
    pub submission: usize,
}

/// A way to end.
#[derive(Debug, Drop)]
pub struct End {
    /// What became of each task, and the run state, as `a run 1; b rejected; terminated`.
    pub text: String,
    /// How many interleavings end so.
    pub count: Count,
    /// The place of a state that is such an end.
    pub place: usize,
}

/// Writes a fate, and how the body ended where it ran.
pub fn write_fate(
    line: &mut String,
    fate: Option<Fate>,
    outcome: Option<Outcome>,
) -> Result<(), AllocError>
    ensures { OnOk result (string_bytes line.new ≡ string_bytes line.old ++ fate_text fate outcome) }
{
    match (fate, outcome) {
        (Some(Fate::Run), Some(outcome)) => {
            line.push_str("run ")?;
            write_outcome(line, outcome)
        }
        (Some(Fate::RunByCaller), Some(outcome)) => {
            line.push_str("caller ")?;
            write_outcome(line, outcome)
        }
        (Some(fate), _) => line.push_str(fate.name()),
        (None, _) => line.push_str("open"),
    }
}

// What became of a submission.
fn became(state: &State, submission: usize) -> (Option<Fate>, Option<Outcome>)
    ensures { result ≡ spec.became (seen state.now) submission }
{
    match state.number(submission) {
        None => (None, None),
        Some(t) => {
            let row = task_at(&state.pool, t);
            (row.fate(), row.outcome)
        }
    }
}

// Writes what became of a submission, as `a run 1`.
fn write_task(line: &mut String, label: &Label, state: &State) -> Result<(), AllocError>
    ensures { OnOk result (string_bytes line.new ≡ string_bytes line.old ++ task_text (seen state.now) label.now) }
{
    let (fate, outcome) = became(state, label.submission);
    line.push_str(label.name.as_str())?;
    line.push_str(" ")?;
    write_fate(line, fate, outcome)
}

// Writes what became of each submission.
fn write_tasks(line: &mut String, labels: &[Label], state: &State) -> Result<(), AllocError>
    ensures { OnOk result (string_bytes line.new ≡ string_bytes line.old ++ flat_map (λ l. task_text (seen state.now) l ++ codes "; ") labels.now) }
{
    for label in labels {
        write_task(line, label, state)?;
        line.push_str("; ")?;
    }
    Ok(())
}

// The run state of this rank.
fn run_state(rank: u8) -> RunState
    ensures { result ≡ state_at rank }
{
    match rank {
        0 => RunState::Running,
        1 => RunState::Shutdown,
        2 => RunState::Stop,
        3 => RunState::Tidying,
        _ => RunState::Terminated,
    }
}

/// What a state is told as, as `a run 1; b rejected; terminated`.
pub fn end_text(alloc: Global, labels: &[Label], state: &State) -> Result<String, AllocError>
    ensures { IfOk result (λ line. string_bytes line ≡ spec.end_text labels.now (seen state.now)) }
{
    let mut line = String::new(alloc);
    write_tasks(&mut line, labels, state)?;
    line.push_str(run_state(state.pool.rank).name())?;
    Ok(line)
}

// Which of the ends has this text.
fn place_of(ends: &[End], text: &str) -> Option<usize>
    ensures { MatchOption result (All (λ e. text_of e ≢ text.now) ends.now)
        (λ i. (e : End) × IsAt ends.now i e × (text_of e ≡ text.now)) }
{
    for (i, end) in ends.iter().enumerate() {
        if end.text.as_str() == text {
            return Some(i);
        }
    }
    None
}

// Takes in an end of one more situation, which may be told already.
fn add(ends: &mut Vec<End>, end: End) -> Result<(), AllocError>
    ensures { (labels : List Label) (xs zs : List Situation) (ns : List ℕ) (z : Situation) (n : ℕ) → AreTold labels xs zs ns ends.old.items
        → IsAt xs end.place z → spec.end_text labels z ≡ text_of end → Tells end.count n
        → OnOk result (AreTold labels xs (zs ++ z ∷ []) (ns ++ n ∷ []) ends.new.items) }
{
    match place_of(ends, end.text.as_str()) {
        Some(i) => ends[i].count = ends[i].count.plus(end.count),
        None => ends.push(end)?,
    }
    Ok(())
}

// The ends, those of most interleavings first, and equal ones in the order of their texts.
fn in_order(mut ends: Vec<End>) -> Vec<End>
    ensures { IsPermutation ends.items result.items }
{
    ends.sort_unstable_by(|a, b| b.count.cmp(&a.count).then_with(|| a.text.cmp(&b.text)));
    ends
}

/// The distinct ends of a graph, to each of which so many interleavings lead: those of most interleavings first, and equal ones in the
/// order of their texts. AllocError where there is no memory for them.
pub fn ends_of(
    alloc: Global,
    labels: &[Label],
    graph: &Graph<State>,
    counts: &[Count],
) -> Result<Vec<End>, AllocError>
    requires within { All (λ k. k < length graph.now.states.items) graph.now.ends.items }
    requires beside { length counts.now ≡ length graph.now.ends.items }
    ensures { (zs : List Situation) (ns : List ℕ) → AllZip (IsAt (map seen graph.now.states.items)) graph.now.ends.items zs → AllZip Tells counts.now ns
        → IfOk result (λ ends. AreTold labels.now (map seen graph.now.states.items) zs ns ends.items) }
{
    let mut ends = Vec::new(alloc);
    for (i, count) in counts.iter().enumerate() {
        let place = graph.ends[i];
        add(
            &mut ends,
            End {
                text: end_text(alloc, labels, &graph.states[place])?,
                count: *count,
                place,
            },
        )?;
    }
    Ok(in_order(ends))
}

// Whether this stands between the semicolons of what a state is told as.
fn has_part(alloc: Global, labels: &[Label], state: &State, part: &str) -> Result<bool, AllocError>
    ensures { IfOk result (λ b. b ≡ spec.has_part labels.now (seen state.now) part.now) }
{
    for label in labels {
        let mut own = String::new(alloc);
        write_task(&mut own, label, state)?;
        if own.as_str() == part {
            return Ok(true);
        }
    }
    Ok(run_state(state.pool.rank).name() == part)
}

/// Whether each of these parts stands between the semicolons of what a state is told as. AllocError where there is no memory to look.
pub fn has_parts(
    alloc: Global,
    labels: &[Label],
    state: &State,
    parts: &[String],
) -> Result<bool, AllocError>
    ensures { IfOk result (λ b. b ≡ spec.has_parts labels.now (seen state.now) (map string_bytes parts.now)) }
{
    for part in parts {
        if !has_part(alloc, labels, state, part.as_str())? {
            return Ok(false);
        }
    }
    Ok(true)
}
