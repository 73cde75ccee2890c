//! A caller's seat at a pool: its pass, the pool, and the desk where it asks for workers.
ghost use Rattle.std.specs.Prelude.{◌≡◌};

use crate::calls::{Calls, Controls, Setting, Ticket};
use crate::desk::Desk;
use crate::running::found;
use crate::tasks::{Find, Held, Task, VOID};
use std::alloc::Global;
use std::sync::{Arc, Wait};
use std::time::{Clock, Duration};
use tp_book::passes::Pass;
use tp_machine::machine::releases::Keeper;
use tp_machine::typed::submitters::Submit;
use tp_pool::Handle;
use tp_pool::readings::Reading;
use tp_pool_holds::answers::{Admitted, Drained, Refused, Removal};
use tp_pool_holds::edges::Edge;
use tp_pool_holds::names::PoolNaming;
use tp_protocols::flags::CancelFlag;
use tp_types::ids::TaskId;
use tp_types::refusals::PoolError;
use tp_types::states::RunState;
use tp_types::tasks::{Kind, Outcome};

/// A caller's pass of a pool, with the pool, the desk where its callers ask for workers, the runtime by which it waits, and
/// the allocator of the places of its tasks' values.
#[derive(Drop)]
pub struct CallerSeat<G: PoolNaming, W: Task, H, E, K: Keeper> {
    /// The pass.
    pub pass: Pass<G>,
    /// The pool.
    pub pool: Handle<G, Held<W>, E, K>,
    /// The desk.
    pub desk: Arc<Desk>,
    /// The runtime.
    pub host: H,
    /// The allocator.
    pub alloc: Global,
}

// Runs a task in its submitter's thread.
fn run_here<W: Task>(job: Held<W>, flag: &CancelFlag) -> Outcome {
    let mut held = job;
    held.run(flag)
}

// The refusal of a submission, with its task.
fn untaken<W: Task>(refused: Refused<Held<W>>) -> Refused<W>
    ensures { result ≡ refused }
{
    let Refused { error, job } = refused;
    let job = match job {
        Some(held) => Some(held.into_task()),
        None => None,
    };
    Refused { error, job }
}

impl<G: PoolNaming, W: Task, H: Wait + Copy, E: Edge, K: Keeper> CallerSeat<G, W, H, E, K> {
    /// The pass of a caller that is through.
    pub fn into_pass(self) -> Pass<G>
        ensures { result ≡ self.pass }
    {
        let CallerSeat {
            pass,
            pool: _,
            desk: _,
            host: _,
            alloc: _,
        } = self;
        pass
    }
}

impl<G: PoolNaming, W: Task, H: Wait + Clock + Copy, E: Edge, K: Keeper> Controls
    for CallerSeat<G, W, H, E, K> {
    ghost terms = { K.terms G.config };

    ghost keeps = { K.RECEIPTS };

    ghost pass = { λ s. s.pass };

    fn cancel(&mut self, t: TaskId, flag: bool) -> Result<bool, PoolError> {
        let rt = self.host;
        self.pool.cancel(&rt, t, flag, &mut self.pass)
    }

    fn purge(&mut self) -> Result<u32, PoolError> {
        let rt = self.host;
        self.pool.purge(&rt, &mut self.pass)
    }

    fn set(&mut self, setting: Setting) -> Result<(), PoolError> {
        let rt = self.host;
        match setting {
            Setting::Maximum(most) => self.pool.set_maximum(&rt, most, &mut self.pass),
            Setting::Keep(keep) => self.pool.set_keep(&rt, keep, &mut self.pass),
            Setting::CoreTimeout(on) => self.pool.allow_core_timeout(&rt, on, &mut self.pass),
            Setting::Tick(now) => self.pool.tick(&rt, now, &mut self.pass),
        }
    }

    fn shutdown(&mut self) -> Result<(), PoolError> {
        let (rt, desk) = (self.host, &*self.desk);
        self.pool
            .shutdown_by(&rt, &|order| desk.ask(&rt, order), &mut self.pass)
    }

    fn await_end_for(&mut self, most: Duration) -> Result<(), PoolError> {
        let rt = self.host;
        self.pool.await_end_for(&rt, most, &mut self.pass)
    }

    fn state(&mut self) -> RunState {
        self.pool.glance(&mut self.pass)
    }

    fn look(&mut self) -> Reading {
        let rt = self.host;
        self.pool.look(&rt, &mut self.pass)
    }
}

impl<G: PoolNaming, W: Task, H: Wait + Clock + Copy, E: Edge, K: Keeper> Calls
    for CallerSeat<G, W, H, E, K> {
    type Task = W;

    type Host = H;

    fn host(&self) -> &H {
        &self.host
    }

    // Workers are made by the pool's own thread.
    fn enter(&mut self, kind: Kind, task: W) -> Result<(Admitted, Find<W>), Refused<W>> {
        let priority = task.priority();
        let (held, found) = match Held::placed(self.alloc, task) {
            Ok(placed) => placed,
            Err(task) => {
                return Err(Refused {
                    error: PoolError::NoMemory,
                    job: Some(task),
                });
            }
        };
        let step = Submit {
            kind,
            priority,
            promise: VOID,
        };
        let (rt, desk) = (self.host, &*self.desk);
        let make = |order| desk.ask(&rt, order);
        let run = |job, flag: CancelFlag| run_here(job, &flag);
        match self
            .pool
            .execute_by(&rt, step, held, &make, &run, &mut self.pass)
        {
            Ok(admitted) => Ok((admitted, found)),
            Err(refused) => Err(untaken(refused)),
        }
    }

    fn take(&mut self, group: u32) -> Result<TaskId, PoolError> {
        let rt = self.host;
        self.pool.await_done(&rt, group, &mut self.pass)
    }

    fn take_for(&mut self, group: u32, most: Duration) -> Result<TaskId, PoolError> {
        let rt = self.host;
        self.pool.await_done_for(&rt, group, most, &mut self.pass)
    }

    fn get(&mut self, ticket: &Ticket<W>) -> Result<W::Output, PoolError> {
        let (rt, pool) = (self.host, &*self.pool);
        let answer = pool.await_result_with(&rt, ticket.task, None, &mut self.pass);
        found(&rt, answer, &ticket.value)
    }

    fn get_for(&mut self, ticket: &Ticket<W>, most: Duration) -> Result<W::Output, PoolError> {
        let (rt, pool) = (self.host, &*self.pool);
        let answer = pool.await_result_for(&rt, ticket.task, most, &mut self.pass);
        found(&rt, answer, &ticket.value)
    }

    fn remove(&mut self, t: TaskId) -> Result<Removal<Held<W>>, PoolError> {
        let rt = self.host;
        self.pool.remove(&rt, t, &mut self.pass)
    }

    fn shutdown_now(&mut self) -> Result<Vec<Drained<Held<W>>>, PoolError> {
        let rt = self.host;
        self.pool.shutdown_now(&rt, &mut self.pass)
    }
}
