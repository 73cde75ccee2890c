//! A state: the pool, and how far each caller is.
ghost use Rattle.std.specs.Prelude.{◌≡◌, ◌++◌, IfOk, fold};
ghost use Rattle.std.proofs.Common.{ap};
ghost use Rattle.std.specs.List.{flat_map};
ghost use Rattle.tp_explore.specs.Moves.{starts};
ghost use Rattle.tp_explore.specs.Same as same;
ghost use Rattle.tp_explore.specs.Situation.{seen, number, submission_from};

use crate::callers::Caller;
use crate::plans::Plan;
use std::alloc::Global;
use std::hash::{Hash, Hasher};
use tp_record::rows::TaskRow;
use tp_rules::build::plain_state;
use tp_rules::plain_state::PlainState;
use tp_types::ids::TaskId;
use tp_types::refusals::PoolError;
use tp_types::tasks::Place;

/// The pool, and how far each caller is. What a submitter asks next is read off its task's place, so no place on a path is kept.
#[derive(Debug, Drop)]
pub struct State {
    /// The pool. What no step asks for is 0: the greatest number of workers, and how many tasks were completed. So states that part in
    /// these alone are one. The number of entries is kept: the record's room rests on it, and each entry lowers the rank that ends the
    /// walk. So two orders that come to the same by more or by fewer entries are two states.
    pub pool: PlainState,
    /// How far each caller is.
    pub callers: Vec<Caller>,
    /// The task that each submission of the plan is, once it was made.
    pub numbers: Vec<Option<TaskId>>,
}

// Whether two pools have the same run state, settings and moment.
fn same_settings(a: &PlainState, b: &PlainState) -> bool
    ensures { result ≡ same.same_settings a.now b.now }
{
    a.steps == b.steps
        && a.rank == b.rank
        && a.core == b.core
        && a.maximum == b.maximum
        && a.keep == b.keep
        && a.core_timeout == b.core_timeout
        && a.moment == b.moment
        && a.ranked == b.ranked
}

// Whether two pools have the same tasks and slots, in the same order.
fn same_lists(a: &PlainState, b: &PlainState) -> bool
    ensures { result ≡ same.same_lists a.now b.now }
{
    a.tasks == b.tasks
        && a.queue == b.queue
        && a.slots == b.slots
        && a.idling == b.idling
        && a.done == b.done
}

// Whether two pools have counted the same.
fn same_counts(a: &PlainState, b: &PlainState) -> bool
    ensures { result ≡ same.same_counts a.now b.now }
{
    a.completions == b.completions && a.largest == b.largest
}

impl PartialEq for State {
    ghost eq = { same.same_state };

    ghost laws = { same.same_laws_partial };

    fn eq(&self, other: &State) -> bool {
        self.callers == other.callers
            && self.numbers == other.numbers
            && same_settings(&self.pool, &other.pool)
            && same_lists(&self.pool, &other.pool)
            && same_counts(&self.pool, &other.pool)
    }
}

impl Eq for State {
    ghost laws = { same.same_laws };
}

// Feeds each of these.
fn feed<T: Hash, H: Hasher>(items: &[T], state: &mut H)
    ensures { state.new ≡ fold H.write state.old (flat_map T.hash_input items.now) }
{
    T::hash_slice(items, state);
}

// Feeds the tasks' places.
fn feed_places<H: Hasher>(tasks: &[TaskRow], state: &mut H)
    ensures { state.new ≡ fold H.write state.old (flat_map (λ r. ⟦<Place as Hash>⟧.hash_input r.place) tasks.now) }
{
    for task in tasks {
        task.place.hash(state);
    }
}

impl Hash for State {
    ghost hash_input = { λ s. flat_map ⟦<Caller as Hash>⟧.hash_input s.callers.items
        ++ flat_map ⟦<Option<TaskId> as Hash>⟧.hash_input s.numbers.items
        ++ flat_map ⟦<u32 as Hash>⟧.hash_input s.pool.queue.items
        ++ flat_map (λ r. ⟦<Place as Hash>⟧.hash_input r.place) s.pool.tasks.items
        ++ flat_map ⟦<usize as Hash>⟧.hash_input s.pool.idling.items
        ++ ⟦<u32 as Hash>⟧.hash_input s.pool.steps
        ++ ⟦<u8 as Hash>⟧.hash_input s.pool.rank };

    ghost respects_eq = { λ a b h. ap (λ x. flat_map ⟦<Caller as Hash>⟧.hash_input x.callers
        ++ flat_map ⟦<Option<TaskId> as Hash>⟧.hash_input x.numbers
        ++ flat_map ⟦<u32 as Hash>⟧.hash_input x.pool.queue
        ++ flat_map (λ r. ⟦<Place as Hash>⟧.hash_input r.place) x.pool.tasks
        ++ flat_map ⟦<usize as Hash>⟧.hash_input x.pool.idling
        ++ ⟦<u32 as Hash>⟧.hash_input x.pool.steps
        ++ ⟦<u8 as Hash>⟧.hash_input x.pool.rank) (same.same_seen a b h) };

    fn hash<H: Hasher>(&self, state: &mut H) {
        feed(&self.callers, state);
        feed(&self.numbers, state);
        feed(&self.pool.queue, state);
        feed_places(&self.pool.tasks, state);
        feed(&self.pool.idling, state);
        self.pool.steps.hash(state);
        self.pool.rank.hash(state);
    }
}

impl State {
    /// The task that this submission of the plan is, once it was made.
    pub fn number(&self, submission: usize) -> Option<TaskId>
        ensures { result ≡ number (seen self.now) submission }
    {
        *self.numbers.get(submission)?
    }

    /// Which submission of the plan task `t` is.
    pub fn submission(&self, t: TaskId) -> Option<usize>
        ensures { result ≡ submission_from 0 t.0 self.now.numbers.items }
    {
        for (submission, number) in self.numbers.iter().enumerate() {
            if *number == Some(t) {
                return Some(submission);
            }
        }
        None
    }
}

/// The new pool, before any call. NoMemory (4) where there is none.
pub fn first(alloc: Global, plan: &Plan) -> Result<State, PoolError>
    ensures { IfOk result (λ s. seen s ≡ starts plan.now) }
{
    let mut callers = Vec::new(alloc);
    for calls in &plan.callers {
        callers.push(Caller::before(calls.len()))?;
    }
    Ok(State {
        pool: plain_state(alloc, &plan.config, &[])?,
        callers,
        numbers: vec![in alloc; None; plan.submissions.len()]?,
    })
}
