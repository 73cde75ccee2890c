//! What a journal's thread does.
ghost use Rattle.std.specs.Prelude.{ℕ, List, Option};
ghost use Rattle.tp_journal.specs.Journals.{IsJournalOf};

use crate::windows::Window;
use crate::writers::RecordWriter;
use std::alloc::Global;
use std::io::Write;
use std::sync::Wait;
use std::time::{Clock, Duration};
use tp_book::sights::Sight;
use tp_pool_holds::edges::Edge;
use tp_pool_holds::names::PoolNaming;
use tp_protocols::jobs::Job;
use tp_types::refusals::PoolError;

// Waits for so long, and writes what the window shows then. It answers whether the thread goes on: not where the window is shut, or the
// writer has failed.
fn follow<G: PoolNaming, J: Job, E: Edge, W: Write, R: Wait + Clock>(
    rt: &R,
    alloc: Global,
    window: &Window<G, J, E>,
    every: Duration,
    sight: &mut Sight<G>,
    writer: &mut RecordWriter<W>,
) -> bool
    ensures { (before : Option (List ℕ)) → IsJournalOf W.contents before G.config sight.old writer.old → IsJournalOf W.contents before G.config sight.new writer.new }
{
    match window.look(rt, alloc, every, writer.entries(), sight) {
        Ok(Some(news)) => writer.add(alloc, news.as_slice()) != Err(PoolError::WriteFailed),
        Ok(None) => false,
        // There may be memory for these lines, and for those behind them, when it looks again.
        Err(_) => true,
    }
}

/// Writes the record of a pool while it runs, each time that so long went by, until the window is shut or the writer fails.
pub fn keep<G: PoolNaming, J: Job, E: Edge, W: Write, R: Wait + Clock>(
    rt: &R,
    alloc: Global,
    window: &Window<G, J, E>,
    every: Duration,
    sight: &mut Sight<G>,
    writer: &mut RecordWriter<W>,
)
    ensures { (before : Option (List ℕ)) → IsJournalOf W.contents before G.config sight.old writer.old → IsJournalOf W.contents before G.config sight.new writer.new }
{
    for _ in rt.forever() {
        if !follow(rt, alloc, window, every, sight, writer) {
            return;
        }
    }
}
