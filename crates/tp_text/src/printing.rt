//! The output of a run, as far as it is written.
ghost use Rattle.std.specs.Prelude.{◌≡◌, ℕ, suc, List, [], ◌++◌, length, map, Ok, IsOk, OnErr, OnOk, IsOkUnless, string_bytes};
ghost use Rattle.tp_types.specs.declared.configs.Config.{Config};
ghost use Rattle.tp_record.specs.declared.entries.Entry.{Entry};
ghost use Rattle.tp_text.specs.EndLines.{refusal_line, fate_line, state_line, counts_line};
ghost use Rattle.tp_text.specs.RunText.{answer_lines, drained};

use crate::ends::{write_counts, write_fate, write_refusal, write_state};
use crate::runs::write_lines;
use std::alloc::{AllocError, Global};
use tp_record::entries::Entry;
use tp_types::ids::TaskId;
use tp_types::refusals::PoolError;
use tp_types::states::{Counts, RunState};
use tp_types::tasks::Fate;

/// What is written of a run, line by line. A line that finds no room is not written at all: 4
/// `NoMemory`. The room in which a line is made is kept for the next.
#[derive(Debug, Drop)]
pub struct Output {
    /// The lines that are written.
    pub written: Vec<u8>,
    line: String,
}

impl Output {
    /// An output of which nothing is written.
    pub fn new(alloc: Global) -> Output
        ensures { result.written.items ≡ [] }
    {
        Output {
            written: Vec::new(alloc),
            line: String::new(alloc),
        }
    }

    /// Writes the line, where all of it was made.
    #[inline(always)]
    fn keep(&mut self, made: Result<(), AllocError>) -> Result<(), PoolError>
        ensures made { OnOk result (IsOk made) }
        ensures ok { OnOk result (self.new.written.items ≡ self.old.written.items ++ string_bytes self.old.line) }
        ensures err { OnErr result (self.new.written.items ≡ self.old.written.items) }
        ensures only_memory { IsOkUnless result PoolError.NoMemory }
    {
        if made.is_err() {
            return Err(PoolError::NoMemory);
        }
        self.written
            .extend_from_slice(self.line.as_bytes())
            .map_err(|_| PoolError::NoMemory)
    }

    /// Writes what an accepted step writes: the line of its entry, which has this number, and the line
    /// of the tasks that it handed back, where there are any.
    #[inline(always)]
    pub fn entry(&mut self, number: usize, entry: &Entry, back: &[TaskId]) -> Result<(), PoolError>
        ensures ok { OnOk result ((c : Config) (h : List Entry) → number ≡ suc (length h)
            → map (λ task. task.0) back.now ≡ drained c h entry.now.did
            → self.new.written.items ≡ self.old.written.items ++ answer_lines c h (Ok entry.now)) }
        ensures err { OnErr result (self.new.written.items ≡ self.old.written.items) }
        ensures only_memory { IsOkUnless result PoolError.NoMemory }
    {
        self.line.clear();
        let made = write_lines(&mut self.line, number, entry, back);
        self.keep(made)
    }

    /// Writes the line of a refused step, as `refused 8 NotThere`.
    pub fn refusal(&mut self, refusal: PoolError) -> Result<(), PoolError>
        ensures ok { OnOk result (self.new.written.items ≡ self.old.written.items ++ refusal_line refusal) }
        ensures err { OnErr result (self.new.written.items ≡ self.old.written.items) }
        ensures only_memory { IsOkUnless result PoolError.NoMemory }
    {
        self.line.clear();
        let made = write_refusal(&mut self.line, refusal);
        self.keep(made)
    }

    /// Writes the line of a task's fate, as `t0 run`, or `t0 open` where it has none.
    pub fn fate(&mut self, task: TaskId, fate: Option<Fate>) -> Result<(), PoolError>
        ensures ok { OnOk result (self.new.written.items ≡ self.old.written.items ++ fate_line task.0 fate) }
        ensures err { OnErr result (self.new.written.items ≡ self.old.written.items) }
        ensures only_memory { IsOkUnless result PoolError.NoMemory }
    {
        self.line.clear();
        let made = write_fate(&mut self.line, task, fate);
        self.keep(made)
    }

    /// Writes the line of the run state, as `state running`.
    pub fn state(&mut self, state: RunState) -> Result<(), PoolError>
        ensures ok { OnOk result (self.new.written.items ≡ self.old.written.items ++ state_line state) }
        ensures err { OnErr result (self.new.written.items ≡ self.old.written.items) }
        ensures only_memory { IsOkUnless result PoolError.NoMemory }
    {
        self.line.clear();
        let made = write_state(&mut self.line, state);
        self.keep(made)
    }

    /// Writes the line of the counters, as `counts submitted=1 run=1 caller=0 ..`.
    pub fn counts(&mut self, counts: &Counts) -> Result<(), PoolError>
        ensures ok { OnOk result (self.new.written.items ≡ self.old.written.items ++ counts_line counts.now) }
        ensures err { OnErr result (self.new.written.items ≡ self.old.written.items) }
        ensures only_memory { IsOkUnless result PoolError.NoMemory }
    {
        self.line.clear();
        let made = write_counts(&mut self.line, counts);
        self.keep(made)
    }
}
