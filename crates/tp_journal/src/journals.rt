//! Journals of running pools, as a pool's owner has them.
ghost use Rattle.std.specs.Prelude.{◌≡◌, ◌⊎◌, IfOk, IfErr, IfSome, IsOkUnless};
ghost use Rattle.tp_pool_holds.specs.Passes.{LooksOnly};
ghost use Rattle.tp_text_record.specs.declared.versions.Version.{Version};
ghost use Rattle.tp_text_record.specs.ReadRecord.{head};
ghost use Rattle.tp_journal.specs.Journals.{IsJournalOf};

use crate::following::keep;
use crate::windows::Window;
use crate::writers::{RecordWriter, head_of};
use std::alloc::Global;
use std::io::Write;
use std::marker::PhantomData;
use std::snapshot::Snapshot;
use std::sync::{Arc, Wait};
use std::thread::{self, Promise, PromisedHandle, Threads};
use std::time::{Clock, Duration};
use tp_book::passes::Pass;
use tp_book::sights::Sight;
use tp_pool::PoolOf;
use tp_pool_holds::edges::Edge;
use tp_pool_holds::names::PoolNaming;
use tp_protocols::jobs::Job;
use tp_types::configs::Config;
use tp_types::refusals::PoolError;

/// After how many milliseconds a journal looks again, where nobody says otherwise. A process that is killed leaves a record that is cut
/// off at most so long before, and as long as a write takes.
pub const MILLIS: u64 = 100;

/// A journal that was not started.
#[derive(Drop)]
pub struct StartFault<W> {
    /// The refusal: NoMemory (4) or TornRecord (22).
    pub error: PoolError,
    /// The writer, to which nothing was written; None where no thread could be made: it was let go.
    pub writer: Option<W>,
}

/// The lines that come before the first entry of the record of a pool of this name.
#[derive(Drop)]
pub struct First<G: PoolNaming> {
    text: Vec<u8>,
    of: PhantomData<G>,
    ghost is_head: { text.items ≡ head Version.Two G.config },
}

/// What a journal's thread leaves.
#[derive(Drop)]
pub struct Leaves<G: PoolNaming, W> {
    writer: RecordWriter<W>,
    sight: Sight<G>,
}

/// What a journal's thread promises of that: behind what this writer held, the text of a front of what its sight knows was written, unless
/// the writer failed.
#[derive(Drop)]
pub struct Follows<W> {
    writer: Snapshot<W>,
}

impl<G: PoolNaming, W: Write> Promise<Leaves<G, W>> for Follows<W> {
    ghost use Rattle.tp_journal.specs.Journals.{IsJournalOf};

    ghost kept_by = { λ p left. IsJournalOf W.contents (W.contents p.writer.value) G.config left.sight left.writer };
}

/// A journal: a thread that writes the record of a pool while it runs. As the pool, it is not `Drop`: its owner stops it, or leaves it.
pub struct Journal<G: PoolNaming, J, E, W: Write> {
    window: Arc<Window<G, J, E>>,
    thread: PromisedHandle<Leaves<G, W>, Follows<W>>,
}

// What a journal's thread does, from the first line on.
fn record<G: PoolNaming, J: Job, E: Edge, W: Write, R: Wait + Clock>(
    rt: &R,
    alloc: Global,
    first: &First<G>,
    window: &Window<G, J, E>,
    every: Duration,
    sight: &mut Sight<G>,
    writer: &mut RecordWriter<W>,
)
    requires none { writer.old.entries ≡ 0 }
    ensures { IsJournalOf W.contents (W.contents writer.old.writer) G.config sight.new writer.new }
{
    match writer.begin(first.text.as_slice()) {
        Ok(()) => keep(rt, alloc, window, every, sight, writer),
        Err(_) => (),
    }
}

// The same, of a writer that was moved to the thread. Then it tells that it is through.
fn followed<G: PoolNaming, J: Job, E: Edge, W: Write, R: Wait + Clock>(
    rt: &R,
    alloc: Global,
    first: &First<G>,
    window: &Window<G, J, E>,
    every: Duration,
    sight: Sight<G>,
    writer: W,
) -> Leaves<G, W>
    ensures { IsJournalOf W.contents (W.contents writer) G.config result.sight result.writer }
{
    let mut sight = sight;
    let mut writer = RecordWriter::new(writer);
    record(rt, alloc, first, window, every, &mut sight, &mut writer);
    window.tell_through(rt);
    Leaves { writer, sight }
}

// The first lines of the text of the record of a pool with these settings. NoMemory (4).
fn first_of<G: PoolNaming>(alloc: Global, settings: &Config) -> Result<First<G>, PoolError>
    requires settings { settings.now ≡ G.config }
    ensures refused { IsOkUnless result PoolError.NoMemory }
{
    match head_of(alloc, settings) {
        Ok(text) => Ok(First {
            text,
            of: PhantomData,
        }),
        Err(refusal) => Err(refusal),
    }
}

// What is wanted for a journal of this pool, beside a thread: the first lines, and a window for two.
fn prepared<G: PoolNaming, J: Job, E: Edge>(
    alloc: Global,
    pool: &PoolOf<G, J, E>,
    settings: &Config,
) -> Result<(First<G>, Arc<Window<G, J, E>>, Arc<Window<G, J, E>>), PoolError>
    requires settings { settings.now ≡ G.config }
    ensures refused { IfErr result (λ e. (e ≡ PoolError.NoMemory) ⊎ (e ≡ PoolError.TornRecord)) }
{
    let first = match first_of::<G>(alloc, settings) {
        Ok(first) => first,
        Err(refusal) => return Err(refusal),
    };
    let handle = match pool.handle() {
        Ok(handle) => handle,
        Err(refusal) => return Err(refusal),
    };
    let window = Arc::new(alloc, Window::new(handle))?;
    let seen = Arc::try_clone(&window)?;
    Ok((first, window, seen))
}

impl<
    G: PoolNaming + Send + Sync + 'static,
    J: Job + 'static,
    E: Edge + Send + Sync + 'static,
    W: Write + Send + Drop + 'static,
> Journal<G, J, E, W> {
    /// Starts a journal of this pool, which was made with these settings, in a thread of its own. The thread writes the lines that come
    /// before the first entry, and then what the record has, each time that so long went by. What it writes begins with the record's
    /// first entry, whenever it starts. The pass stays as it is.
    ///
    /// NoMemory (4) where there is none, or no thread, or TornRecord (22), as `handle`: then nothing was written.
    pub fn start<R: Threads + Wait + Clock + Copy + Send + 'static>(
        rt: &R,
        alloc: Global,
        pool: &PoolOf<G, J, E>,
        settings: Config,
        pass: &mut Pass<G>,
        writer: W,
        every: Duration,
    ) -> Result<Journal<G, J, E, W>, StartFault<W>>
        requires settings { settings ≡ G.config }
        ensures promise { IfOk result (λ j. j.thread.promise.writer.value ≡ writer) }
        ensures refused { IfErr result (λ f. (f.error ≡ PoolError.NoMemory) ⊎ (f.error ≡ PoolError.TornRecord)) }
        ensures returned { IfErr result (λ f. IfSome f.writer (λ w. w ≡ writer)) }
        ensures same { pass.new ≡ pass.old }
    {
        let sight = pool.sight(pass);
        let (first, window, seen) = match prepared(alloc, pool, &settings) {
            Ok(prepared) => prepared,
            Err(error) => {
                let writer = Some(writer);
                return Err(StartFault { error, writer });
            }
        };
        let promised = Follows {
            writer: Snapshot::of(&writer),
        };
        let host = *rt;
        let work = move || { followed(&host, alloc, &first, &*seen, every, sight, writer) };
        match thread::spawn_with(rt, promised, work) {
            Ok(thread) => Ok(Journal { window, thread }),
            Err(_) => Err(StartFault {
                error: PoolError::NoMemory,
                writer: None,
            }),
        }
    }

    /// Tells the thread to stop, and waits for that for at most so long by the clock: whether it has, so that `stop` waits for nothing.
    /// The thread has no handle of the pool any more, also where it waits for its writer.
    pub fn stops_within<R: Wait + Clock>(&self, rt: &R, most: Duration) -> bool {
        self.window.shut(rt);
        self.window.is_through_within(rt, most)
    }

    /// Tells the thread to stop, and waits for it. The pass knows then the record of which a front was written, or a later one: a pool that
    /// is closed with it goes on from what was written, and `RecordWriter::finish` writes the rest. It waits for ever for a writer that
    /// does, as a pipe that nobody reads.
    pub fn stop<R: Threads + Wait>(
        self,
        rt: &R,
        pool: &PoolOf<G, J, E>,
        pass: &mut Pass<G>,
    ) -> RecordWriter<W>
        ensures front { IsJournalOf W.contents (W.contents self.thread.promise.writer.value) G.config pass.new.front result }
        ensures looks { LooksOnly G.config pass.old pass.new }
    {
        let Journal { window, thread } = self;
        window.shut(rt);
        let Leaves { writer, mut sight } = thread.join(rt);
        pool.catch_up(rt, &mut sight, pass);
        writer
    }

    /// Leaves the journal, whose writer may wait for ever: the thread is told to stop, and nobody waits for it, or gets its writer back. It
    /// has no handle of the pool any more, so a close does not wait for it. What was written is cut off.
    pub fn leave<R: Wait>(self, rt: &R) {
        let Journal { window, thread } = self;
        window.shut(rt);
        drop(window);
        drop(thread);
    }
}
