//! A pool for the time of one call: it is opened, its callers live, it is shut down, waited for and closed.
ghost use Rattle.std.specs.Prelude.{ℕ, ◌≡◌, ◌⊎◌, ◌<◌, ◌≤◌, [], ◌∷◌, ◌++◌, length, suc, true, false, Some, slice_index_or, vec_len, vec_capacity, IfOk, IfErr, IfSome, OnOk, IsSome, IsSomeAnd};
ghost use Rattle.tp_record.specs.Fields.{rank};
ghost use Rattle.tp_record.specs.Step.{Legal};
ghost use Rattle.tp_record.specs.Terms.{without_end};
ghost use Rattle.tp_book.specs.Reports.{TellsCount, TellsRecord};
ghost use Rattle.tp_pool_holds.specs.Reports.{Closes};
ghost use Rattle.tp_life.specs.Lived.{AreLived, IsLived, IsNewPass, IsUnlived, IsUntold};
ghost use Rattle.tp_life.specs.Ran.{Pairwise};

use crate::calls::Life;
use crate::desk::{Desk, starter, with_room};
use crate::seats::CallerSeat;
use crate::tasks::{Held, Task};
use std::alloc::Global;
use std::marker::Brand;
use std::sync::{Arc, Wait};
use std::thread::{self, JoinHandle};
use std::time::Clock;
use tp_book::opening::Unopened;
use tp_book::passes::Pass;
use tp_book::reports::{Report, Reporter, TallyReport};
use tp_machine::machine::releases::Keeper;
use tp_pool::{PoolOf, Runtime};
use tp_pool_holds::edges::Edge;
use tp_pool_holds::names::PoolNaming;
use tp_protocols::jobs::Job;
use tp_record::recorders::{Full, Tally};
use tp_types::configs::Config;
use tp_types::refusals::PoolError;

/// Opens a pool with these settings and objects, has so many callers live with it, each in a thread of its own, and ends it: it is
/// shut down where no caller did so, it is waited for, and it is closed. So each job that it accepted has run, or was handed back
/// where a caller stopped the pool. This is so whatever the callers come to, as of Java's `try (var pool = ..)` since Java 19. One
/// caller lives in this thread. It answers what came of each life, in the order of the callers' numbers, and the report of the
/// closed pool.
///
/// Callers may wait for one another. Where the system makes no thread for one of them, it lives in another one's thread, after it.
/// Workers' threads are made by a thread of the pool's own.
///
/// BadSizes (1), BadCapacity (2), BadLimit (3) or KeepZero (11) where no pool has these settings; NoMemory (4) where there is none
/// for the pool, its passes or its own thread, or BookFull (5) where there is no number for a pass: then nobody has lived. Else
/// MissingPass (21) or TornRecord (22), which do not come as long as the pool's book is sound.
pub fn with_pool<
    V: Send + Drop + 'static,
    W: Task<Output = V> + Send + 'static,
    O: Send + Drop,
    L: Life<Task = W, Out = O> + Sync,
    E: Edge + Send + Sync + 'static,
    R: Runtime + Clock,
>(
    rt: &R,
    alloc: Global,
    settings: Config,
    edge: E,
    callers: u32,
    life: &L,
) -> Result<(Vec<O>, Report), PoolError>
    ensures outs { IfOk result (λ r. vec_len r.0 ≡ callers) }
    ensures lived { IfOk result (λ r. IsLived (L.leaves life.now settings) true TellsRecord settings settings r.0.items r.1) }
    ensures refused { IfErr result (IsUnlived settings settings) }
{
    let unopened = match Unopened::new(alloc) {
        Ok(unopened) => unopened,
        Err(error) => return Err(error),
    };
    opened::<Brand, V, W, O, L, E, Full, R>(rt, alloc, unopened, settings, edge, callers, life)
}

/// As `with_pool`, with a pool that keeps no record, and forgets its plain tasks. It answers how many steps were made, the counters,
/// and how many tasks have no fate.
pub fn with_tally<
    V: Send + Drop + 'static,
    W: Task<Output = V> + Send + 'static,
    O: Send + Drop,
    L: Life<Task = W, Out = O> + Sync,
    E: Edge + Send + Sync + 'static,
    R: Runtime + Clock,
>(
    rt: &R,
    alloc: Global,
    settings: Config,
    edge: E,
    callers: u32,
    life: &L,
) -> Result<(Vec<O>, TallyReport), PoolError>
    ensures outs { IfOk result (λ r. vec_len r.0 ≡ callers) }
    ensures lived { IfOk result (λ r. IsLived (L.leaves life.now (without_end settings)) false TellsCount settings (without_end settings) r.0.items r.1) }
    ensures refused { IfErr result (IsUnlived settings (without_end settings)) }
{
    let unopened = match Unopened::new(alloc) {
        Ok(unopened) => unopened,
        Err(error) => return Err(error),
    };
    opened::<Brand, V, W, O, L, E, Tally, R>(rt, alloc, unopened, settings, edge, callers, life)
}

// The same under a name of the pool's own.
fn opened<
    G: PoolNaming + Send + Sync + 'static,
    V: Send + Drop + 'static,
    W: Task<Output = V> + Send + 'static,
    O: Send + Drop,
    L: Life<Task = W, Out = O> + Sync,
    E: Edge + Send + Sync + 'static,
    K: Reporter + Send + 'static,
    R: Runtime + Clock,
>(
    rt: &R,
    alloc: Global,
    unopened: Unopened,
    settings: Config,
    edge: E,
    callers: u32,
    life: &L,
) -> Result<(Vec<O>, K::Report), PoolError>
    requires named { unopened ≡ record { ledger = G.name; parts = G.parts; table = G.table } }
    requires settings { settings ≡ G.config }
    ensures outs { IfOk result (λ r. vec_len r.0 ≡ callers) }
    ensures lived { IfOk result (λ r. IsLived (L.leaves life.now (K.terms settings)) K.RECEIPTS K.told settings (K.terms settings) r.0.items r.1) }
    ensures refused { IfErr result (IsUnlived settings (K.terms settings)) }
{
    let rooms = match make_rooms(alloc, callers) {
        Ok(rooms) => rooms,
        Err(error) => return Err(error),
    };
    match PoolOf::<G, Held<W>, E, K>::over(alloc, unopened, settings, edge) {
        Ok((pool, pass)) => lived(rt, alloc, pool, pass, callers, rooms, life),
        Err(error) => Err(error),
    }
}

/// What a life wants beside its pool: lists with room for what comes of its callers and for all passes, and the desk. The memory for it
/// is taken before the pool is made. For `tp_life_journal`, as are the calls below.
#[derive(Drop)]
pub struct Rooms<G: PoolNaming, O> {
    /// What came of the callers.
    pub outs: Vec<O>,
    /// The passes of all.
    pub passes: Vec<Pass<G>>,
    desk: Arc<Desk>,
}

/// The rooms for so many callers. NoMemory (4).
pub fn make_rooms<G: PoolNaming, O: Drop>(
    alloc: Global,
    callers: u32,
) -> Result<Rooms<G, O>, PoolError>
    ensures outs { IfOk result (λ r. (r.outs.items ≡ []) × (callers ≤ vec_capacity r.outs)) }
    ensures passes { IfOk result (λ r. (r.passes.items ≡ []) × (suc callers ≤ vec_capacity r.passes)) }
    ensures refused { IfErr result (λ e. e ≡ PoolError.NoMemory) }
{
    let most = callers as usize;
    Ok(Rooms {
        outs: Vec::with_capacity(alloc, most)?,
        passes: Vec::with_capacity(alloc, most + 1)?,
        desk: Arc::new(alloc, Desk::new())?,
    })
}

// A caller: its number, its seat, and what came of its life.
#[derive(Drop)]
struct Caller<G: PoolNaming, W: Task, H, E, K: Keeper, O> {
    who: u32,
    seat: CallerSeat<G, W, H, E, K>,
    out: Option<O>,
}

/// The lives with a new pool, which is then ended.
pub fn lived<
    G: PoolNaming + Send + Sync + 'static,
    V: Send + Drop + 'static,
    W: Task<Output = V> + Send + 'static,
    O: Send + Drop,
    L: Life<Task = W, Out = O> + Sync,
    E: Edge + Send + Sync + 'static,
    K: Reporter + Send + 'static,
    R: Runtime + Clock,
>(
    rt: &R,
    alloc: Global,
    pool: PoolOf<G, Held<W>, E, K>,
    pass: Pass<G>,
    callers: u32,
    rooms: Rooms<G, O>,
    life: &L,
) -> Result<(Vec<O>, K::Report), PoolError>
    requires outs { (rooms.outs.items ≡ []) × (callers ≤ vec_capacity rooms.outs) }
    requires passes { (rooms.passes.items ≡ []) × (suc callers ≤ vec_capacity rooms.passes) }
    requires new { (pass.front ≡ []) × (pass.released ≡ []) }
    ensures outs { IfOk result (λ r. vec_len r.0 ≡ callers) }
    ensures lived { IfOk result (λ r. IsLived (L.leaves life.now (K.terms G.config)) K.RECEIPTS K.told G.config (K.terms G.config) r.0.items r.1) }
    ensures refused { IfErr result (IsUnlived G.config (K.terms G.config)) }
{
    let (pool, last, outs, passes) = match all_lives(rt, alloc, pool, pass, callers, rooms, life) {
        Ok(lives) => lives,
        Err(error) => return Err(error),
    };
    let mut last = last;
    if let Err(error) = shut(rt, &pool, &mut last) {
        pool.let_go();
        return Err(error);
    }
    match close(rt, pool, passes, last) {
        Ok(report) => Ok((outs, report)),
        Err(error) => Err(error),
    }
}

/// The pool and its first pass behind the lives with it, what came of them, and their passes, which are split from the first one. That has
/// room then for all receipts of the pool's end. NoMemory (4) or BookFull (5), where nobody has lived, and the pool is let go.
pub fn all_lives<
    G: PoolNaming + Send + Sync + 'static,
    V: Send + Drop + 'static,
    W: Task<Output = V> + Send + 'static,
    O: Send + Drop,
    L: Life<Task = W, Out = O> + Sync,
    E: Edge + Send + Sync + 'static,
    K: Reporter + Send + 'static,
    R: Runtime + Clock,
>(
    rt: &R,
    alloc: Global,
    pool: PoolOf<G, Held<W>, E, K>,
    pass: Pass<G>,
    callers: u32,
    rooms: Rooms<G, O>,
    life: &L,
) -> Result<(PoolOf<G, Held<W>, E, K>, Pass<G>, Vec<O>, Vec<Pass<G>>), PoolError>
    requires outs { (rooms.outs.items ≡ []) × (callers ≤ vec_capacity rooms.outs) }
    requires passes { (rooms.passes.items ≡ []) × (suc callers ≤ vec_capacity rooms.passes) }
    requires new { (pass.front ≡ []) × (pass.released ≡ []) }
    ensures outs { IfOk result (λ r. vec_len r.2 ≡ callers) }
    ensures place { IfOk result (λ r. vec_len r.3 < vec_capacity r.3) }
    ensures lived { IfOk result (λ r. AreLived (L.leaves life.now (K.terms G.config)) K.RECEIPTS 0 r.2.items r.3.items) }
    ensures room { IfOk result (λ r. 4 ≤ r.1.room) }
    ensures refused { IfErr result (λ e. (e ≡ PoolError.NoMemory) ⊎ (e ≡ PoolError.BookFull)) }
{
    let Rooms { outs, passes, desk } = rooms;
    let mut last = pass;
    let seated = match seats(rt, alloc, &pool, &desk, &mut last, callers) {
        Ok(seated) => seated,
        Err(error) => {
            pool.let_go();
            return Err(error);
        }
    };
    let Some(starter) = staff(rt, &pool, &desk, last) else {
        pool.let_go();
        return Err(PoolError::NoMemory);
    };
    let (outs, passes) = gathered(rt, life, seated, outs, passes);
    desk.close(rt);
    let last = with_room(rt, starter.join(rt));
    Ok((pool, last, outs, passes))
}

// A seat for each caller, with a pass that is split from this one, which then has room for all receipts of the pool's end. NoMemory (4)
// or BookFull (5).
fn seats<G: PoolNaming, W: Task + Send, H: Wait + Copy, E: Edge, K: Keeper, O: Drop>(
    rt: &H,
    alloc: Global,
    pool: &PoolOf<G, Held<W>, E, K>,
    desk: &Arc<Desk>,
    first: &mut Pass<G>,
    callers: u32,
) -> Result<Vec<Caller<G, W, H, E, K, O>>, PoolError>
where
    W::Output: Send,
    requires new { (first.old.front ≡ []) × (first.old.released ≡ []) }
    ensures callers { IfOk result (λ v. vec_len v ≡ callers) }
    ensures seated { IfOk result (λ v. (i : ℕ) (d : _) → i < length v.items → ((slice_index_or v.items i d).who ≡ i) × IsNewPass K.RECEIPTS (slice_index_or v.items i d).seat.pass) }
    ensures room { OnOk result (4 ≤ first.new.room) }
    ensures refused { IfErr result (λ e. (e ≡ PoolError.NoMemory) ⊎ (e ≡ PoolError.BookFull)) }
{
    first.reserve(4)?;
    let mut seated = Vec::new(alloc);
    for who in 0..callers {
        let pass = match pool.split_pass(rt, first) {
            Ok(pass) => pass,
            Err(error) => return Err(error),
        };
        let (Ok(theirs), Ok(at)) = (pool.handle(), Arc::try_clone(desk)) else {
            return Err(PoolError::NoMemory);
        };
        let seat = CallerSeat {
            pass,
            pool: theirs,
            desk: at,
            host: *rt,
            alloc,
        };
        seated.push(Caller {
            who,
            seat,
            out: None,
        })?;
    }
    Ok(seated)
}

// Starts the pool's own thread, which makes its workers' threads, with the pass that ends the pool when it comes back. None where there is
// no memory or no thread.
fn staff<
    G: PoolNaming + Send + Sync + 'static,
    J: Job + 'static,
    E: Edge + Send + Sync + 'static,
    K: Keeper + Send + 'static,
    R: Runtime + Clock,
>(
    rt: &R,
    pool: &PoolOf<G, J, E, K>,
    desk: &Arc<Desk>,
    pass: Pass<G>,
) -> Option<JoinHandle<Pass<G>>> {
    let theirs = pool.handle().ok()?;
    let at = Arc::try_clone(desk).ok()?;
    let host = *rt;
    let work = move || starter(host, &*theirs, &*at, pass);
    thread::Builder::new().spawn(rt, work).ok()
}

// What comes of the callers' lives, and their passes, in these lists, which have room for them.
fn gathered<
    G: PoolNaming + Send + Sync + 'static,
    V: Send + Drop + 'static,
    W: Task<Output = V> + Send + 'static,
    O: Send + Drop,
    L: Life<Task = W, Out = O> + Sync,
    E: Edge + Send + Sync + 'static,
    K: Reporter + Send + 'static,
    R: Runtime + Clock,
>(
    rt: &R,
    life: &L,
    callers: Vec<Caller<G, W, R, E, K, O>>,
    outs: Vec<O>,
    passes: Vec<Pass<G>>,
) -> (Vec<O>, Vec<Pass<G>>)
    requires outs { (outs.items ≡ []) × (vec_len callers ≤ vec_capacity outs) }
    requires passes { (passes.items ≡ []) × (vec_len callers ≤ vec_capacity passes) }
    requires seated { (i : ℕ) (d : _) → i < length callers.items → ((slice_index_or callers.items i d).who ≡ i) × IsNewPass K.RECEIPTS (slice_index_or callers.items i d).seat.pass }
    ensures outs { vec_len result.0 ≡ vec_len callers }
    ensures callers { vec_len result.1 ≡ vec_len callers }
    ensures lived { AreLived (L.leaves life.now (K.terms G.config)) K.RECEIPTS 0 result.0.items result.1.items }
    ensures room { vec_capacity result.1 ≡ vec_capacity passes }
{
    let mut callers = callers;
    live_all(rt, life, callers.as_mut_slice());
    parted(callers, outs, passes)
}

// Has each caller live, in a thread of its own where one can be made.
fn live_all<
    G: PoolNaming + Send + Sync + 'static,
    V: Send + Drop + 'static,
    W: Task<Output = V> + Send + 'static,
    O: Send + Drop,
    L: Life<Task = W, Out = O> + Sync,
    E: Edge + Send + Sync + 'static,
    K: Reporter + Send + 'static,
    R: Runtime + Clock,
>(rt: &R, life: &L, callers: &mut [Caller<G, W, R, E, K, O>])
    ensures many { length callers.new ≡ length callers.old }
    ensures lived { (i : ℕ) (d : _) → i < length callers.new → IsSomeAnd (slice_index_or callers.new i d).out (L.leaves life.now (K.terms G.config) (slice_index_or callers.old i d).who (slice_index_or callers.old i d).seat.pass (slice_index_or callers.new i d).seat.pass) }
{
    let threads = callers.len().max(1);
    let live = |_: usize, caller: &mut Caller<G, W, R, E, K, O>|
        ensures lived { IsSomeAnd caller.exit.now.out (L.leaves life.entry.now (K.terms G.config) caller.entry.now.who caller.entry.now.seat.pass caller.exit.now.seat.pass) }
    {
        caller.out = Some(live_one(life, &mut caller.seat, caller.who));
    };
    thread::for_each_mut(rt, callers, threads, &live);
}

// One caller's life, at its seat. It is a function of its own, so that the check compares the calls of a life with those of a pool where
// nothing else is known.
fn live_one<G: PoolNaming, L: Life, E: Edge, K: Keeper, R: Wait + Clock + Copy>(
    life: &L,
    seat: &mut CallerSeat<G, L::Task, R, E, K>,
    who: u32,
) -> L::Out
    ensures { L.leaves life.now (K.terms G.config) who seat.old.pass seat.new.pass result }
{
    life.live(seat, who)
}

// Keeps what came of a life, in a list that has room for it.
fn keep<O: Drop>(outs: &mut Vec<O>, out: Option<O>)
    requires { vec_len outs.old < vec_capacity outs.old }
    ensures kept { IfSome out (λ o. outs.new.items ≡ outs.old.items ++ o ∷ []) }
    ensures room { vec_capacity outs.new ≡ vec_capacity outs.old }
{
    if let Some(out) = out {
        outs.push_reserved(out);
    }
}

// What came of callers who have lived, and their passes, in these lists, which have room for them.
fn parted<G: PoolNaming, W: Task, H: Wait + Copy, E: Edge, K: Keeper, O: Drop>(
    callers: Vec<Caller<G, W, H, E, K, O>>,
    outs: Vec<O>,
    passes: Vec<Pass<G>>,
) -> (Vec<O>, Vec<Pass<G>>)
    requires outs { (outs.items ≡ []) × (vec_len callers ≤ vec_capacity outs) }
    requires passes { (passes.items ≡ []) × (vec_len callers ≤ vec_capacity passes) }
    requires some { (i : ℕ) (d : _) → i < length callers.items → IsSome (slice_index_or callers.items i d).out }
    ensures outs { vec_len result.0 ≡ vec_len callers }
    ensures callers { vec_len result.1 ≡ vec_len callers }
    ensures came { Pairwise (λ k o. k.out ≡ Some o) callers.items result.0.items }
    ensures passes { Pairwise (λ k p. p ≡ k.seat.pass) callers.items result.1.items }
    ensures room { vec_capacity result.1 ≡ vec_capacity passes }
{
    let mut outs = outs;
    let mut passes = passes;
    for caller in callers {
        let Caller { who: _, seat, out } = caller;
        keep(&mut outs, out);
        passes.push_reserved(seat.into_pass());
    }
    (outs, passes)
}

/// Shuts the pool down with this pass, where no caller did so, and waits until it is terminated. TornRecord (22).
pub fn shut<
    G: PoolNaming + Send + Sync + 'static,
    J: Job + 'static,
    E: Edge + Send + Sync + 'static,
    K: Reporter + Send + 'static,
    R: Runtime,
>(rt: &R, pool: &PoolOf<G, J, E, K>, last: &mut Pass<G>) -> Result<(), PoolError>
    requires room { 4 ≤ last.old.room }
    ensures seen { OnOk result (rank last.new.front ≡ 4) }
    ensures legal { OnOk result (Legal (K.terms G.config) last.new.front) }
    ensures untold { IfErr result (IsUntold (K.terms G.config)) }
{
    pool.shut(rt, last);
    match pool.await_shut(rt, last) {
        Ok(()) => Ok(()),
        Err(error) => Err(error),
    }
}

/// Closes a terminated pool with the callers' passes and this one, for which their list has room.
pub fn close<
    G: PoolNaming + Send + Sync + 'static,
    J: Job + 'static,
    E: Edge + Send + Sync + 'static,
    K: Reporter + Send + 'static,
    R: Runtime,
>(
    rt: &R,
    pool: PoolOf<G, J, E, K>,
    passes: Vec<Pass<G>>,
    last: Pass<G>,
) -> Result<K::Report, PoolError>
    requires place { vec_len passes < vec_capacity passes }
    requires seen { rank last.front ≡ 4 }
    requires legal { Legal (K.terms G.config) last.front }
    ensures report { IfOk result (Closes K.told K.RECEIPTS G.config (K.terms G.config) (passes.items ++ last ∷ [])) }
    ensures untold { IfErr result (IsUntold (K.terms G.config)) }
{
    let mut passes = passes;
    passes.push_reserved(last);
    match pool.close(rt, passes) {
        Ok(report) => Ok(report),
        Err(fault) => Err(fault.let_go()),
    }
}
