//! Runs of any asks on a pool that keeps no record, of which tasks may be released.

ghost use Rattle.std.specs.Prelude.{◌≡◌, ◌⊎◌, IfOk, IfErr, OnOk, Err};
ghost use Rattle.tp_types.specs.Config.{IsConfig, checked};
ghost use Rattle.tp_machine.specs.Seen.{config_of};
ghost use Rattle.tp_machine.specs.Runs.{AllPromise};
ghost use Rattle.tp_machine.specs.Tallies.{Answers, IsTallied};

use crate::machine::Machine;
use crate::runs::answer;
use std::alloc::Global;
use tp_record::entries::{Ask, Did};
use tp_record::recorders::{Recorder, Tally};
use tp_types::configs::Config;
use tp_types::ids::TaskId;
use tp_types::refusals::PoolError;
use tp_types::states::{Counts, RunState};
use tp_types::tasks::WIDEST;

/// What is asked of a pool that keeps no record.
#[derive(Clone, Copy, Debug, PartialEq, Eq)]
pub enum TallyAsk {
    /// A step, with the number of the pass that asks.
    Step(u32, Ask),
    /// To forget a task.
    Release(TaskId),
}

/// What came of a list of such asks.
#[derive(Debug, PartialEq, Eq, Drop)]
pub struct TallyRun {
    /// The answer to each ask, in the order of the asks: what the step did, None where a task was released, or the refusal.
    pub answers: Vec<Result<Option<Did>, PoolError>>,
    /// The twelve counters at the end. Released tasks are counted in them.
    pub counts: Counts,
    /// The run state at the end.
    pub state: RunState,
}

// Makes the step of an ask, or releases its task: the answer, or the refusal, after which nothing has changed.
fn answered(machine: &mut Machine<(), Tally>, ask: TallyAsk) -> Result<Option<Did>, PoolError>
    requires { AllPromise WIDEST machine.old }
    ensures answer { Answers ⟦<Tally as Recorder>⟧.tells machine.old machine.new ask result }
    ensures config { config_of machine.new ≡ config_of machine.old }
    ensures promises { AllPromise WIDEST machine.new }
{
    match ask {
        TallyAsk::Step(by, ask) => match answer(machine, by, ask) {
            Ok(did) => Ok(Some(did)),
            Err(error) => Err(error),
        },
        TallyAsk::Release(t) => match machine.release(t) {
            Ok(()) => Ok(None),
            Err(error) => Err(error),
        },
    }
}

/// Makes these steps and releases on a new pool with these settings, one after the other, as `run_asks`. The pool keeps no
/// record: its limit is 2^64 - 1 entries, whatever the settings say. An ask that names a released task is
/// answered UnknownTask (6), a release of a task that may not be released NotThere (8), and the run goes on. BadSizes (1),
/// BadCapacity (2), BadLimit (3), KeepZero (11), or NoMemory (4) for the answers, or the queue's and the slots' places.
pub fn run_tally(alloc: Global, config: Config, asks: &[TallyAsk]) -> Result<TallyRun, PoolError>
    ensures tallied { IfOk result (IsTallied config asks.now) }
    ensures good { OnOk result (IsConfig config) }
    ensures refuses { IfErr result (λ e. (checked config ≡ Err e) ⊎ ((e ≡ PoolError.NoMemory) × IsConfig config)) }
{
    let mut machine = match Machine::tallied(alloc, config) {
        Ok(machine) => machine,
        Err(error) => return Err(error),
    };
    let Ok(mut answers) = Vec::with_capacity(alloc, asks.len()) else {
        return Err(PoolError::NoMemory);
    };
    for &ask in asks {
        answers.push_reserved(answered(&mut machine, ask));
    }
    Ok(TallyRun {
        answers,
        counts: machine.counts(),
        state: machine.state(),
    })
}
