//! A journal from its wish to its end: what is wanted of it, and what became of it.
ghost use Rattle.std.specs.Prelude.{◌≡◌, ◌⊎◌, ℕ, List, Option, reverse};
ghost use Rattle.tp_types.specs.declared.configs.Config.{Config as Settings};
ghost use Rattle.tp_record.specs.declared.entries.Entry.{Entry as Told};
ghost use Rattle.tp_glance.specs.Word.{IsFrontOf};
ghost use Rattle.tp_pool_holds.specs.Passes.{LooksOnly};
ghost use Rattle.tp_text_record.specs.declared.versions.Version.{Version};
ghost use Rattle.tp_text_record.specs.RecordText.{record_text};
ghost use Rattle.tp_journal.specs.Endings.{IfThrough, IsCut, IsWhole};
ghost use Rattle.tp_journal.specs.Journals.{IsJournalOf};

use crate::journals::{Journal, MILLIS};
use crate::writers::{Cut, RecordWriter};
use std::alloc::Global;
use std::fs;
use std::io::{self, Write};
use std::rt::Files;
use std::sync::Wait;
use std::thread::Threads;
use std::time::{Clock, Duration};
use tp_book::passes::Pass;
use tp_pool::PoolOf;
use tp_pool_holds::edges::Edge;
use tp_pool_holds::names::PoolNaming;
use tp_protocols::jobs::Job;
use tp_record::packed::Packed;
use tp_types::refusals::PoolError;

/// For how many milliseconds the end of a pool waits for a writer that takes nothing, where nobody says otherwise.
const PATIENCE: u64 = 5_000;

/// A journal that is wanted of a pool.
#[derive(Drop)]
pub struct Wish<W> {
    /// Its writer.
    pub writer: W,
    /// How long the journal waits before it looks again.
    pub every: Duration,
    /// How long the pool's end waits for the writer: one whose write takes longer is left with what it has.
    pub patience: Duration,
}

impl<W> Wish<W> {
    /// A journal by this writer, that looks each tenth of a second, and for which the pool's end waits five seconds at most.
    pub fn new(writer: W) -> Wish<W>
        ensures { result.writer ≡ writer }
    {
        Wish {
            writer,
            every: Duration::from_millis(MILLIS),
            patience: Duration::from_millis(PATIENCE),
        }
    }
}

/// A journal that is written to the file at this path, made anew, if there is a path. Where it can't be made, the answer says why.
pub fn wish_at<H: Files>(rt: &H, path: Option<&String>) -> io::Result<Option<Wish<H::File>>> {
    match path {
        Some(path) => Ok(Some(Wish::new(fs::create(rt, path.as_str())?))),
        None => Ok(None),
    }
}

/// A journal whose pool has come to its end.
#[derive(Drop)]
pub enum Stopped<W> {
    /// Its thread is through. A front of the record was written, by this writer.
    Through(RecordWriter<W>),
    /// Its writer waits, and was left.
    Left,
}

/// What became of the journal of a pool.
#[derive(Drop)]
pub enum JournalEnd<W> {
    /// It has the whole text of the record. This is its writer.
    Whole(W),
    /// It is cut off.
    Cut(Cut<W>),
    /// Its writer waits, and was left.
    Left,
}

impl<
    G: PoolNaming + Send + Sync + 'static,
    J: Job + 'static,
    E: Edge + Send + Sync + 'static,
    W: Write + Send + Drop + 'static,
> Journal<G, J, E, W> {
    /// Stops the journal, as `stop`, or leaves it where that takes longer than this. Where a write was refused, the writer is there too:
    /// what is missing may be written behind the close.
    pub fn stop_in<R: Threads + Wait + Clock>(
        self,
        rt: &R,
        pool: &PoolOf<G, J, E>,
        patience: Duration,
        pass: &mut Pass<G>,
    ) -> Stopped<W>
        ensures front { IfThrough result (IsJournalOf W.contents (W.contents self.thread.promise.writer.value) G.config pass.new.front) }
        ensures looks { (pass.new ≡ pass.old) ⊎ LooksOnly G.config pass.old pass.new }
    {
        if !self.stops_within(rt, patience) {
            self.leave(rt);
            return Stopped::Left;
        }
        Stopped::Through(self.stop(rt, pool, pass))
    }
}

/// The end of a journal whose pool was closed with these entries: the rest of them is written behind what it has.
pub fn ended_whole<W: Write + Drop>(
    alloc: Global,
    stopped: Stopped<W>,
    entries: &[Packed],
) -> JournalEnd<W>
    ensures { (before : Option (List ℕ)) (c : Settings) (known : List Told) → IfThrough stopped (IsJournalOf W.contents before c known) → IsFrontOf known (reverse entries.now)
        → IsWhole W.contents before (record_text Version.Two c entries.now) result }
{
    let Stopped::Through(writer) = stopped else {
        return JournalEnd::Left;
    };
    match writer.finish(alloc, entries) {
        Ok(writer) => JournalEnd::Whole(writer),
        Err(cut) => JournalEnd::Cut(cut),
    }
}

/// The same, by the text of the record, which is there already.
pub fn ended_by<W: Write + Drop>(stopped: Stopped<W>, text: &[u8]) -> JournalEnd<W>
    ensures { (before : Option (List ℕ)) (c : Settings) (known es : List Told) → IfThrough stopped (IsJournalOf W.contents before c known) → IsFrontOf known (reverse es)
        → text.now ≡ record_text Version.Two c es → IsWhole W.contents before text.now result }
{
    let Stopped::Through(writer) = stopped else {
        return JournalEnd::Left;
    };
    match writer.finish_by(text) {
        Ok(writer) => JournalEnd::Whole(writer),
        Err(cut) => JournalEnd::Cut(cut),
    }
}

/// The end of a journal whose pool's close was refused so, or for whose text there is no memory.
pub fn ended_cut<W>(stopped: Stopped<W>, error: PoolError) -> JournalEnd<W>
    ensures { IsCut stopped error result }
{
    match stopped {
        Stopped::Through(writer) => JournalEnd::Cut(Cut { error, writer }),
        Stopped::Left => JournalEnd::Left,
    }
}
