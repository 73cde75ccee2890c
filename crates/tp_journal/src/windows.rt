//! Where a journal's thread looks at a pool, for as long as the pool's owner lets it.
ghost use Rattle.std.specs.Prelude.{◌≡◌, drop, reverse, IfOk, IfErr, IfSome};
ghost use Rattle.tp_glance.specs.Word.{IsFrontOf};

use std::alloc::Global;
use std::sync::{Condvar, Mutex, Wait};
use std::time::{Clock, Duration};
use tp_book::sights::Sight;
use tp_pool::Handle;
use tp_pool_holds::edges::Edge;
use tp_pool_holds::names::PoolNaming;
use tp_protocols::jobs::Job;
use tp_record::entries::Entry;
use tp_types::refusals::PoolError;

// What lies under the window's lock.
#[derive(Drop)]
struct View<G: PoolNaming, J, E> {
    // The pool; None once the window is shut.
    pool: Option<Handle<G, J, E>>,
    // The journal's thread writes nothing any more.
    is_through: bool,
}

/// A window onto a pool. Its lock is held while entries are copied, and at no time while they are written.
#[derive(Drop)]
pub struct Window<G: PoolNaming, J, E> {
    view: Mutex<View<G, J, E>>,
    changed: Condvar,
}

impl<G: PoolNaming, J: Job, E: Edge> View<G, J, E> {
    // As `Window::look`, without the wait.
    fn look<R: Wait>(
        &self,
        rt: &R,
        alloc: Global,
        written: usize,
        sight: &mut Sight<G>,
    ) -> Result<Option<Vec<Entry>>, PoolError>
        ensures news { IfOk result (λ seen. IfSome seen (λ v. v.items ≡ drop written (reverse sight.new))) }
        ensures goes_on { IsFrontOf sight.old sight.new }
        ensures refused { IfErr result (λ e. e ≡ PoolError.NoMemory) }
    {
        match &self.pool {
            Some(pool) => match pool.record_since_by(rt, alloc, written as u64, sight) {
                Ok(news) => Ok(Some(news)),
                Err(refusal) => Err(refusal),
            },
            None => Ok(None),
        }
    }
}

impl<G: PoolNaming, J: Job, E: Edge> Window<G, J, E> {
    /// A window onto this pool.
    pub fn new(pool: Handle<G, J, E>) -> Window<G, J, E> {
        Window {
            view: Mutex::new(View {
                pool: Some(pool),
                is_through: false,
            }),
            changed: Condvar::new(),
        }
    }

    /// Shuts the window, and drops its handle of the pool.
    pub fn shut<R: Wait>(&self, rt: &R) {
        self.view.lock(rt).pool = None;
        self.changed.notify_all();
    }

    /// Whether the window is open.
    pub fn is_open<R: Wait>(&self, rt: &R) -> bool {
        self.view.lock(rt).pool.is_some()
    }

    /// Waits until the window is shut, for at most so long, and looks once: the entries of the record from this one on, counted from 0, as
    /// `record_since_by`; None where the window is shut. NoMemory (4) for the copy.
    pub fn look<R: Wait + Clock>(
        &self,
        rt: &R,
        alloc: Global,
        every: Duration,
        written: usize,
        sight: &mut Sight<G>,
    ) -> Result<Option<Vec<Entry>>, PoolError>
        ensures news { IfOk result (λ seen. IfSome seen (λ v. v.items ≡ drop written (reverse sight.new))) }
        ensures goes_on { IsFrontOf sight.old sight.new }
        ensures refused { IfErr result (λ e. e ≡ PoolError.NoMemory) }
    {
        let view = self.view.lock(rt);
        let (view, _) = self
            .changed
            .wait_timeout_while(rt, view, every, |view| view.pool.is_some());
        view.look(rt, alloc, written, sight)
    }

    /// The journal's thread tells that it is through.
    pub fn tell_through<R: Wait>(&self, rt: &R) {
        self.view.lock(rt).is_through = true;
        self.changed.notify_all();
    }

    /// Waits until the journal's thread is through, for at most so long: whether it is.
    pub fn is_through_within<R: Wait + Clock>(&self, rt: &R, most: Duration) -> bool {
        let view = self.view.lock(rt);
        let (view, _) = self
            .changed
            .wait_timeout_while(rt, view, most, |view| !view.is_through);
        view.is_through
    }
}
