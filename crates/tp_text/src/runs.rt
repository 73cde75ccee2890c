//! What a run writes, step by step.
ghost use Rattle.std.specs.Prelude.{◌≡◌, ℕ, suc, ◌+◌, ◌<◌, List, [], ◌∷◌, ◌++◌, length, map, take, Ok, OnOk, string_bytes};
ghost use Rattle.tp_types.specs.declared.configs.Config.{Config};
ghost use Rattle.tp_types.specs.declared.states.RunState.{RunState};
ghost use Rattle.tp_types.specs.RunState.{state_rank};
ghost use Rattle.tp_record.specs.declared.entries.Entry.{Entry};
ghost use Rattle.tp_record.specs.declared.rows.TaskRow.{TaskRow};
ghost use Rattle.tp_record.specs.State.{state, fate_of, row_at};
ghost use Rattle.tp_text.specs.EndLines.{fate_line, state_line, state_at};
ghost use Rattle.tp_text.specs.RunText.{Answer, drained, answer_lines, after, after_all, run_lines, fate_lines, output, IsFront};

use crate::ends::write_back;
use crate::entries::write_entry;
use std::alloc::AllocError;
use tp_record::entries::Entry;
use tp_types::ids::TaskId;

/// Writes what an accepted step writes: its entry's line, and after it the line of the tasks that it
/// handed back, where there are any. Where room is missing, some of it may be written.
#[inline(always)]
pub fn write_lines(
    line: &mut String,
    number: usize,
    entry: &Entry,
    back: &[TaskId],
) -> Result<(), AllocError>
    ensures { OnOk result ((c : Config) (h : List Entry) → number ≡ suc (length h)
        → map (λ task. task.0) back.now ≡ drained c h entry.now.did
        → string_bytes line.new ≡ string_bytes line.old ++ answer_lines c h (Ok entry.now)) }
{
    write_entry(line, number, entry)?;
    if back.is_empty() {
        return Ok(());
    }
    write_back(line, back)
}

/// The law that what a run writes grows by what each answer writes.
pub fn lines_grow()
    ensures history { (h : List Entry) (earlier : List Answer) (a : Answer)
        → after_all h (earlier ++ a ∷ []) ≡ after (after_all h earlier) a }
    ensures lines { (c : Config) (h : List Entry) (earlier : List Answer) (a : Answer)
        → run_lines c h (earlier ++ a ∷ []) ≡ run_lines c h earlier ++ answer_lines c (after_all h earlier) a }
    ensures parts { (c : Config) (h : List Entry) (earlier later : List Answer)
        → run_lines c h (earlier ++ later) ≡ run_lines c h earlier ++ run_lines c (after_all h earlier) later }
{}

/// The law that the lines of fates grow task by task.
pub fn fates_grow()
    ensures { (i : ℕ) (rows : List TaskRow) → i < length rows
        → fate_lines 0 (take (suc i) rows) ≡ fate_lines 0 (take i rows) ++ fate_line i (fate_of (row_at rows i)) }
{}

/// The law that a run whose writing breaks off has written the front of an output: between two
/// answers, between two fates, or before the counters.
pub fn broken_off_is_front()
    ensures answers { (c : Config) (earlier later : List Answer)
        → IsFront (run_lines c [] earlier) (output c (earlier ++ later)) }
    ensures fates { (c : Config) (answers : List Answer) (i : ℕ)
        → IsFront (run_lines c [] answers ++ fate_lines 0 (take i (state c (after_all [] answers)).tasks)) (output c answers) }
    ensures state { (c : Config) (answers : List Answer)
        → IsFront (run_lines c [] answers ++ (fate_lines 0 (state c (after_all [] answers)).tasks
        ++ state_line (state_at (state c (after_all [] answers)).rank))) (output c answers) }
{}

/// The law that the state of a run state's rank is that run state.
pub fn ranks_name_states()
    ensures { (s : RunState) → state_at (state_rank s) ≡ s }
{}
