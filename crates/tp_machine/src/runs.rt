//! Runs of any asks.

ghost use Rattle.std.specs.Prelude.{◌≡◌, ◌⊎◌, reverse, IfOk, IfErr, OnOk, OnErr, Err};
ghost use Rattle.tp_types.specs.Config.{IsConfig, checked};
ghost use Rattle.tp_types.specs.Promise.{FitsPromise};
ghost use Rattle.tp_record.specs.Step as steps;
ghost use Rattle.tp_machine.specs.Seen.{config_of};
ghost use Rattle.tp_machine.specs.Steps.{IsStep, Stays, IsRefusedBy};
ghost use Rattle.tp_laws.specs.Lawful.{IsLawful};
ghost use Rattle.tp_machine.specs.Runs.{AllPromise, IfOutcome};

use crate::machine::Machine;
use std::alloc::Global;
use tp_record::entries::{Ask, Did, Entry};
use tp_record::packed::unpacked;
use tp_record::recorders::Recorder;
use tp_types::configs::Config;
use tp_types::refusals::PoolError;
use tp_types::tasks::WIDEST;

/// What came of a list of asks.
#[derive(Debug, PartialEq, Eq, Drop)]
pub struct Run {
    /// The record, the oldest entry first.
    pub entries: Vec<Entry>,
    /// The answer to each ask, in the order of the asks: what was done, or the number of the refusal.
    pub answers: Vec<Result<Did, PoolError>>,
}

/// Whether the widest promise allows the outcome of an ask: it allows every one.
fn widest_allows(ask: Ask) -> bool
    ensures { IfOutcome ask (FitsPromise WIDEST) }
{
    match ask {
        Ask::CallerEnd(_, Ok(value)) => i64::MIN <= value && value <= i64::MAX,
        Ask::End(_, Ok(value)) => i64::MIN <= value && value <= i64::MAX,
        _ => true,
    }
}

/// Makes the step of an ask: its answer, or its refusal, after which nothing has changed.
pub(crate) fn answer<R: Recorder>(
    machine: &mut Machine<(), R>,
    by: u32,
    ask: Ask,
) -> Result<Did, PoolError>
    requires { AllPromise WIDEST machine.old }
    ensures step { IfOk result (λ d. IsStep R.tells machine.old machine.new by ask d) }
    ensures refused { IfErr result (λ e. IsRefusedBy R.tells machine.old ask e) }
    ensures unchanged { OnErr result (Stays R.tells machine.old machine.new) }
    ensures config { config_of machine.new ≡ config_of machine.old }
    ensures promises { AllPromise WIDEST machine.new }
{
    if let Ask::Submit(kind, priority) = ask {
        return match machine.submit(by, kind, priority, WIDEST, ()) {
            Ok((_, did)) => Ok(did),
            Err((error, _)) => Err(error),
        };
    }
    let _ = widest_allows(ask);
    match machine.step(by, ask, None) {
        Ok(stepped) => Ok(stepped.did(&ask)),
        Err((error, _)) => Err(error),
    }
}

/// Makes the steps of these asks, each with the number of the pass that asks, on a new pool with these
/// settings, one after the other. All promises are the widest. A refusal is the answer of its step,
/// want of memory (4) of a submission, a stop or a new maximum among them, and the run goes on.
/// BadSizes (1), BadCapacity (2), BadLimit (3), KeepZero (11), or NoMemory (4) for the record, the
/// answers, or the queue's and the slots' places.
pub fn run_asks(alloc: Global, config: Config, asks: &[(u32, Ask)]) -> Result<Run, PoolError>
    ensures run { IfOk result (λ r. steps.Run config asks.now r.answers.items (reverse r.entries.items)) }
    ensures legal { IfOk result (λ r. steps.Legal config (reverse r.entries.items)) }
    ensures lawful { IfOk result (λ r. IsLawful config (reverse r.entries.items)) }
    ensures good { OnOk result (IsConfig config) }
    ensures refuses { IfErr result (λ e. (checked config ≡ Err e) ⊎ ((e ≡ PoolError.NoMemory) × IsConfig config)) }
{
    let mut machine = match Machine::new(alloc, config) {
        Ok(machine) => machine,
        Err(error) => return Err(error),
    };
    let Ok(mut answers) = Vec::with_capacity(alloc, asks.len()) else {
        return Err(PoolError::NoMemory);
    };
    for &(by, ask) in asks {
        answers.push_reserved(answer(&mut machine, by, ask));
    }
    let Ok(entries) = unpacked(alloc, machine.entries()) else {
        return Err(PoolError::NoMemory);
    };
    Ok(Run { entries, answers })
}
