//! Threads for slots that are reserved.
ghost use Rattle.std.specs.Thread.{IsSend, IsSync};

use crate::edges::Edge;
use crate::names::PoolNaming;
use crate::shared::Shared;
use crate::working::Post;
use std::alloc::Global;
use std::sync::{Arc, Mutex, Wait};
use std::thread::{Builder, Threads};
use tp_book::passes::WorkerPass;
use tp_machine::machine::releases::Keeper;
use tp_protocols::flags::SlotFlag;
use tp_protocols::jobs::Job;
use tp_protocols::rescues::{Remains, rescue};
use tp_types::ids::SlotId;

// A worker's pass and its slot's flag, kept for its thread, which takes them as it begins. Where no thread can be made,
// whoever wanted one still has the pass: no close would find all passes without it. Where a thread that has a name can't
// be made, its work is dropped: so they stand beside the work.
type Kept<G> = Arc<Mutex<Option<(WorkerPass<G>, SlotFlag)>>>;

/// Has a worker made for this slot, and tells whether one was: the factory is asked, and where it consents a
/// pass, a flag and a thread are made. The thread waits to be told of its slot. No lock is held while the factory
/// answers or the thread is made.
pub fn staff<
    G: PoolNaming + Send + Sync + 'static,
    J: Job + 'static,
    E: Edge + Send + Sync + 'static,
    K: Keeper + Send + 'static,
    R: Threads + Wait + Copy + Send + 'static,
>(rt: R, shared: &Arc<Shared<G, J, E, K>>, w: SlotId) -> bool {
    staff_heir(rt, shared, w, u64::MAX)
}

/// As `staff`, for a worker whose line of heirs is to be shorter than this; at 0 none is made.
#[cycle(staffing)]
pub fn staff_heir<
    G: PoolNaming + Send + Sync + 'static,
    J: Job + 'static,
    E: Edge + Send + Sync + 'static,
    K: Keeper + Send + 'static,
    R: Threads + Wait + Copy + Send + 'static,
>(rt: R, shared: &Arc<Shared<G, J, E, K>>, w: SlotId, heirs: u64) -> bool {
    let Some(heirs) = heirs.checked_sub(1) else {
        return false;
    };
    if !shared.around.edge.allow(&rt, w) {
        return false;
    }
    let Some((kept, theirs)) = enlisted(&rt, &**shared, w) else {
        return false;
    };
    if launch(rt, shared, w, theirs, heirs) {
        return true;
    }
    hand_back(&rt, &**shared, &kept);
    false
}

// A pass for this slot's worker and the slot's flag, in both ends of what keeps them. None for want of memory, or of a number.
fn enlisted<G: PoolNaming, J: Drop, E: Edge, K: Keeper, R: Wait>(
    rt: &R,
    shared: &Shared<G, J, E, K>,
    w: SlotId,
) -> Option<(Kept<G>, Kept<G>)> {
    let (kept, theirs) = keepers(shared.around.alloc)?;
    let (flag, held) = SlotFlag::new(shared.around.alloc).ok()?;
    let enlisted = shared.hold(rt).enlist(w, held, &shared.around.glance);
    let Ok(pass) = enlisted else {
        return None;
    };
    *kept.lock(rt) = Some((pass, flag));
    Some((kept, theirs))
}

// Hands in the pass of a worker that has no thread.
fn hand_back<G: PoolNaming, J: Drop, E: Edge, K: Keeper, R: Wait>(
    rt: &R,
    shared: &Shared<G, J, E, K>,
    kept: &Kept<G>,
) {
    let left = kept.lock(rt).take();
    if let Some((pass, _)) = left {
        shared.hand_in(rt, pass);
    }
}

// Both ends of what keeps a worker's pass and flag: for whoever wants the worker, and for its thread.
fn keepers<G: PoolNaming>(alloc: Global) -> Option<(Kept<G>, Kept<G>)> {
    let kept = Arc::new(alloc, Mutex::new(None)).ok()?;
    let theirs = Arc::try_clone(&kept).ok()?;
    Some((kept, theirs))
}

// Starts the thread, and tells whether it could be made. It is a function of its own, where little else is known: the
// check shows there that the pool may cross to a thread.
#[cycle(staffing)]
fn launch<
    G: PoolNaming + Send + Sync + 'static,
    J: Job + 'static,
    E: Edge + Send + Sync + 'static,
    K: Keeper + Send + 'static,
    R: Threads + Wait + Copy + Send + 'static,
>(rt: R, shared: &Arc<Shared<G, J, E, K>>, w: SlotId, kept: Kept<G>, heirs: u64) -> bool {
    let Ok(theirs) = Arc::try_clone(shared) else {
        return false;
    };
    let work = move ||
        requires { IsSend R.row × IsSend G.row × IsSync G.row × IsSend E.row × IsSync E.row }
    { run_worker(rt, theirs, w, kept, heirs) };
    let thread = Builder::new().stack_size(shared.around.edge.stack());
    let thread = match shared.around.edge.name(shared.around.alloc, w) {
        Some(name) => thread.name(name),
        None => thread,
    };
    thread.spawn(&rt, work).is_ok()
}

// The work of a worker's thread: its turns, and then a worker in its place where one is wanted, and what is left to do
// where that leaves the pool to nobody, also in a pool that runs: no other thread is there for its queue. At last it hands in its
// pass and lets go of the pool. Each heir is made by the thread before it, so the line of heirs is counted down.
#[cycle(staffing)]
fn run_worker<
    G: PoolNaming + Send + Sync + 'static,
    J: Job + 'static,
    E: Edge + Send + Sync + 'static,
    K: Keeper + Send + 'static,
    R: Threads + Wait + Copy + Send + 'static,
>(rt: R, shared: Arc<Shared<G, J, E, K>>, w: SlotId, kept: Kept<G>, heirs: u64) {
    let Some((shared, mut pass, heir)) = worked(rt, shared, w, kept) else {
        return;
    };
    let staffed = staff_heir(rt, &shared, heir, heirs);
    let remains = told_of(&rt, &*shared, heir, staffed, &mut pass);
    save(rt, &shared, &mut pass, remains, heirs);
    shared.hand_in(&rt, pass);
    drop(shared);
}

// A worker's turns, once its slot is live. Where a slot is reserved in its place after them, the pool, the pass and that
// slot; else it hands in the pass and lets go of the pool.
fn worked<
    G: PoolNaming + Send + Sync + 'static,
    J: Job + 'static,
    E: Edge + Send + Sync + 'static,
    K: Keeper + Send + 'static,
    R: Threads + Wait + Copy + Send + 'static,
>(
    rt: R,
    shared: Arc<Shared<G, J, E, K>>,
    w: SlotId,
    kept: Kept<G>,
) -> Option<(Arc<Shared<G, J, E, K>>, WorkerPass<G>, SlotId)> {
    let Some((pass, flag)) = kept.lock(&rt).take() else {
        return None;
    };
    let mut post = Post::new(shared, w, pass, flag);
    let heir = post.work(&rt);
    let (shared, pass) = post.into_parts();
    if let Some(heir) = heir {
        return Some((shared, pass, heir));
    }
    shared.hand_in(&rt, pass);
    None
}

// Tells whether a worker was made for this slot, with a pass of the pool's own: what is left to do then, and where none was made, what
// a pool that runs wants.
fn told_of<G: PoolNaming, J: Drop, E: Edge, K: Keeper, R: Wait>(
    rt: &R,
    shared: &Shared<G, J, E, K>,
    w: SlotId,
    staffed: bool,
    pass: &mut WorkerPass<G>,
) -> Remains {
    let (_, left) = shared.hand_over(rt, w, staffed, pass);
    if staffed || left != Remains::Nothing {
        return left;
    }
    shared.hold_as_worker(rt).wanted()
}

/// Does what is left to do in a pool that is shut down, or wanted in one that runs, round by round: it ends the pool where it can
/// end, or has a worker made for the tasks that are queued, and tells whether one was. It ends with the first worker that goes
/// live, or once as many were not made as tasks are queued.
#[cycle(staffing)]
pub fn save<
    G: PoolNaming + Send + Sync + 'static,
    J: Job + 'static,
    E: Edge + Send + Sync + 'static,
    K: Keeper + Send + 'static,
    R: Threads + Wait + Copy + Send + 'static,
>(rt: R, shared: &Arc<Shared<G, J, E, K>>, pass: &mut WorkerPass<G>, remains: Remains, heirs: u64) {
    let mut remains = remains;
    for tried in 0..u32::MAX {
        let Some(w) = rescue(&rt, &**shared, pass, remains, tried) else {
            return;
        };
        let staffed = staff_heir(rt, shared, w, heirs);
        remains = told_of(&rt, &**shared, w, staffed, pass);
    }
}
