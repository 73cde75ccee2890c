//! A pool for the time of one call, as of `lives`, whose record is written while it runs.
ghost use Rattle.std.specs.Prelude.{◌≡◌, ◌<◌, ◌≤◌, [], suc, true, vec_len, vec_capacity, IfOk, IfErr, IfSome, IsSomeAnd};
ghost use Rattle.tp_text_record.specs.declared.versions.Version.{Version};
ghost use Rattle.tp_text_record.specs.RecordText.{record_text};
ghost use Rattle.tp_book.specs.Reports.{TellsRecord};
ghost use Rattle.tp_journal.specs.Endings.{IsWhole};
ghost use Rattle.tp_life.specs.Lived.{IsLived, IsUnlived};

use std::alloc::Global;
use std::io::Write;
use std::marker::Brand;
use std::time::Clock;
use tp_book::opening::Unopened;
use tp_book::passes::Pass;
use tp_book::reports::Report;
use tp_journal::endings::{JournalEnd, Wish, ended_whole};
use tp_journal::journals::Journal;
use tp_life::calls::Life;
use tp_life::lives::{Rooms, all_lives, close, lived, make_rooms, shut};
use tp_life::tasks::{Held, Task};
use tp_pool::{PoolOf, Runtime};
use tp_pool_holds::edges::Edge;
use tp_pool_holds::names::PoolNaming;
use tp_record::recorders::Full;
use tp_types::configs::Config;
use tp_types::refusals::PoolError;

/// As `with_pool`, with a journal, where one is wished for: a thread of its own writes the record's text while the pool runs. A process
/// that is killed leaves a record that is cut off. The pool waits for the writer at no step, and at its end for as long as the wish says.
///
/// It answers what became of the journal too; None where none was wished for. Refused as `with_pool`; then a journal that was begun is cut
/// off.
pub fn with_journal<
    V: Send + Drop + 'static,
    W: Task<Output = V> + Send + 'static,
    O: Send + Drop,
    L: Life<Task = W, Out = O> + Sync,
    E: Edge + Send + Sync + 'static,
    F: Write + Send + Drop + 'static,
    R: Runtime + Clock,
>(
    rt: &R,
    alloc: Global,
    settings: Config,
    edge: E,
    callers: u32,
    life: &L,
    wish: Option<Wish<F>>,
) -> Result<(Vec<O>, Report, Option<JournalEnd<F>>), PoolError>
    ensures outs { IfOk result (λ r. vec_len r.0 ≡ callers) }
    ensures lived { IfOk result (λ r. IsLived (L.leaves life.now settings) true TellsRecord settings settings r.0.items r.1) }
    ensures whole { IfOk result (λ r. IfSome wish (λ w. IsSomeAnd r.2 (IsWhole F.contents (F.contents w.writer) (record_text Version.Two settings r.1.entries.items)))) }
    ensures refused { IfErr result (IsUnlived settings settings) }
{
    let unopened = match Unopened::new(alloc) {
        Ok(unopened) => unopened,
        Err(error) => return Err(error),
    };
    opened::<Brand, V, W, O, L, E, F, R>(rt, alloc, unopened, settings, edge, callers, life, wish)
}

// The same under a name of the pool's own.
fn opened<
    G: PoolNaming + Send + Sync + 'static,
    V: Send + Drop + 'static,
    W: Task<Output = V> + Send + 'static,
    O: Send + Drop,
    L: Life<Task = W, Out = O> + Sync,
    E: Edge + Send + Sync + 'static,
    F: Write + Send + Drop + 'static,
    R: Runtime + Clock,
>(
    rt: &R,
    alloc: Global,
    unopened: Unopened,
    settings: Config,
    edge: E,
    callers: u32,
    life: &L,
    wish: Option<Wish<F>>,
) -> Result<(Vec<O>, Report, Option<JournalEnd<F>>), PoolError>
    requires named { unopened ≡ record { ledger = G.name; parts = G.parts; table = G.table } }
    requires settings { settings ≡ G.config }
    ensures outs { IfOk result (λ r. vec_len r.0 ≡ callers) }
    ensures lived { IfOk result (λ r. IsLived (L.leaves life.now settings) true TellsRecord settings settings r.0.items r.1) }
    ensures whole { IfOk result (λ r. IfSome wish (λ w. IsSomeAnd r.2 (IsWhole F.contents (F.contents w.writer) (record_text Version.Two settings r.1.entries.items)))) }
    ensures refused { IfErr result (IsUnlived settings settings) }
{
    let rooms = match make_rooms(alloc, callers) {
        Ok(rooms) => rooms,
        Err(error) => return Err(error),
    };
    let (pool, pass) = match PoolOf::<G, Held<W>, E>::over(alloc, unopened, settings, edge) {
        Ok(opened) => opened,
        Err(error) => return Err(error),
    };
    let Some(wish) = wish else {
        return match lived::<G, V, W, O, L, E, Full, R>(
            rt, alloc, pool, pass, callers, rooms, life,
        ) {
            Ok((outs, report)) => Ok((outs, report, None)),
            Err(error) => Err(error),
        };
    };
    match recorded(rt, alloc, pool, pass, settings, callers, rooms, life, wish) {
        Ok((outs, report, ended)) => Ok((outs, report, Some(ended))),
        Err(error) => Err(error),
    }
}

// The lives with a new pool, with its journal.
fn recorded<
    G: PoolNaming + Send + Sync + 'static,
    V: Send + Drop + 'static,
    W: Task<Output = V> + Send + 'static,
    O: Send + Drop,
    L: Life<Task = W, Out = O> + Sync,
    E: Edge + Send + Sync + 'static,
    F: Write + Send + Drop + 'static,
    R: Runtime + Clock,
>(
    rt: &R,
    alloc: Global,
    pool: PoolOf<G, Held<W>, E>,
    pass: Pass<G>,
    settings: Config,
    callers: u32,
    rooms: Rooms<G, O>,
    life: &L,
    wish: Wish<F>,
) -> Result<(Vec<O>, Report, JournalEnd<F>), PoolError>
    requires settings { settings ≡ G.config }
    requires outs { (rooms.outs.items ≡ []) × (callers ≤ vec_capacity rooms.outs) }
    requires passes { (rooms.passes.items ≡ []) × (suc callers ≤ vec_capacity rooms.passes) }
    requires new { (pass.front ≡ []) × (pass.released ≡ []) }
    ensures outs { IfOk result (λ r. vec_len r.0 ≡ callers) }
    ensures lived { IfOk result (λ r. IsLived (L.leaves life.now G.config) true TellsRecord G.config G.config r.0.items r.1) }
    ensures whole { IfOk result (λ r. IsWhole F.contents (F.contents wish.writer) (record_text Version.Two G.config r.1.entries.items) r.2) }
    ensures refused { IfErr result (IsUnlived G.config G.config) }
{
    let Wish {
        writer,
        every,
        patience,
    } = wish;
    let mut last = pass;
    let journal = match Journal::start(rt, alloc, &pool, settings, &mut last, writer, every) {
        Ok(journal) => journal,
        Err(_) => {
            pool.let_go();
            return Err(PoolError::NoMemory);
        }
    };
    let (pool, last, outs, passes) = match all_lives(rt, alloc, pool, last, callers, rooms, life) {
        Ok(lives) => lives,
        Err(error) => {
            journal.leave(rt);
            return Err(error);
        }
    };
    let mut last = last;
    if let Err(error) = shut(rt, &pool, &mut last) {
        journal.leave(rt);
        pool.let_go();
        return Err(error);
    }
    let stopped = journal.stop_in(rt, &pool, patience, &mut last);
    match close(rt, pool, passes, last) {
        Ok(report) => {
            let ended = ended_whole(alloc, stopped, report.entries.as_slice());
            Ok((outs, report, ended))
        }
        Err(error) => Err(error),
    }
}
