//! A pool that a scenario's lines are played on, step by step.

ghost use Rattle.std.specs.Prelude.{◌≡◌, ◌≢◌, ◌⊎◌, ◌<◌, [], length, IfOk, IfErr, IfSome, IsErr, IsSome, OnErr, Err, None, Some};
ghost use Rattle.tp_types.specs.Config.{checked, IsConfig};
ghost use Rattle.tp_types.specs.Promise.{FitsPromise};
ghost use Rattle.tp_types.specs.RunState.{state_rank};
ghost use Rattle.tp_record.specs.declared.entries.Ask.TheVariants as ask;
ghost use Rattle.tp_record.specs.State.{state, counts as counts_of, fate_of, slot_at, task_at};
ghost use Rattle.tp_tasks.specs.declared.tasks.Tasks.{Tasks};
ghost use Rattle.tp_machine.specs.Seen.{promise, task_of_row, FitsThere};
ghost use Rattle.tp_machine.specs.Stepped.{FitsOutcome};
ghost use Rattle.tp_scenario.specs.declared.lines.ScenarioLine.TheVariants as line;
ghost use Rattle.tp_scenario.specs.Answered.{IsAt, KeepsPromises, Playing, Tells, TellsLine, promise_of};
ghost use Rattle.tp_scenario.specs.Played.{outcome_of, outcome_said, outcome_there};

use crate::counted::Counted;
use crate::lines::ScenarioLine;
use std::alloc::{AllocError, Global};
use std::marker::Model;
use tp_machine::machine::Machine;
use tp_machine::typed::controllers::{
    Cancel, Ended, Purge, Remove, Shutdown, Stop, TakeDone, Tidy,
};
use tp_machine::typed::settings::{Core, CoreTimeout, Keep, Maximum, Prestart, Tick};
use tp_machine::typed::submitters::{CallerEnd, Grow, Judge, Look, Offer, Second, Submit};
use tp_machine::typed::workers::{Begin, End, Fail, Leave, Open, Take};
use tp_machine::typed::{Plain, Step};
use tp_record::entries::{Ask, Entry};
use tp_text::commands::{PoolVerb, SizeVerb, SlotVerb, TaskVerb, TickVerb};
use tp_types::configs::Config;
use tp_types::ids::{SlotId, TaskId};
use tp_types::refusals::PoolError;
use tp_types::states::{Counts, RunState};
use tp_types::tasks::{Fate, Kind, Outcome, Promise};

/// A step that was refused.
#[derive(Clone, Copy, Debug, PartialEq, Eq)]
pub struct Refusal {
    /// What was asked.
    pub ask: Ask,
    /// Why it was refused.
    pub error: PoolError,
}

/// What comes of a line.
#[derive(Debug, Drop)]
pub struct Told {
    /// The entry that it added to the record, or its refusal.
    pub answer: Result<Entry, Refusal>,
    /// The tasks that the step handed back, in the queue's order: none but at a stop.
    pub handed: Vec<(TaskId, Option<()>)>,
}

/// A pool that lines are played on. Every ask is by pass 0, and a task ends as the line said that
/// submitted it. Of its record the runner keeps how long it is. So its contracts name any record at which the pool stands, and say what
/// the answer makes of each.
#[derive(Drop)]
pub struct Runner {
    alloc: Global,
    machine: Machine<(), Counted>,
    outcomes: Vec<Outcome>,
}

impl Model for Runner {
    ghost use Rattle.std.specs.Coded.{codes};
    ghost use Rattle.tp_scenario.specs.Answered.{Running, ArePromised};
    ghost use Rattle.tp_scenario.specs.Codes.{pool_code};
    ghost use Rattle.tp_scenario.specs.contracts.counted.Counted as counted;

    ghost Value = { Running };

    ghost coded = { Prim.hlevel (codes, pool_code, counted.the_row.coded) };

    ghost view = { λ r. record { machine = r.machine; outcomes = r.outcomes.items } };

    ghost invariant = { λ r. ArePromised r.machine r.outcomes.items };
}

/// The promise of a job whose outcome is known.
fn promise_of(outcome: Outcome) -> Promise
    ensures { result ≡ promise_of outcome }
{
    match outcome {
        Ok(value) => Promise {
            low: value,
            high: value,
            may_fault: false,
        },
        Err(_) => Promise {
            low: 0,
            high: 0,
            may_fault: true,
        },
    }
}

impl Runner {
    /// A pool with these settings and no tasks. BadSizes (1), BadCapacity (2), BadLimit (3), KeepZero (11), or NoMemory (4) for its
    /// queue and its slots.
    pub fn new(alloc: Global, config: Config) -> Result<Runner, PoolError>
        ensures starts { IfOk result (λ r. IsAt r (record { config = config; history = []; outcomes = [] })) }
        ensures refuses { IfErr result (λ e. (checked config ≡ Err e) ⊎ ((e ≡ PoolError.NoMemory) × IsConfig config)) }
    {
        let counted = Counted::new(config.record_limit);
        let machine = match Machine::over(alloc, config, counted) {
            Ok(machine) => machine,
            Err(error) => return Err(error),
        };
        Ok(Runner {
            alloc,
            machine,
            outcomes: Vec::new(alloc),
        })
    }

    /// How a task ends. A task that was never submitted is refused its end, whatever it is.
    #[inline(always)]
    fn outcome_of(&self, task: TaskId) -> Outcome
        ensures said { (p : Playing) → IsAt self.now p → result ≡ outcome_of p.outcomes task.0 }
        ensures promised { IfSome (promise self.now.machine task.0) (λ p. FitsPromise p result) }
    {
        let TaskId(number) = task;
        self.outcomes
            .as_slice()
            .get(number as usize)
            .copied()
            .unwrap_or(Ok(0))
    }

    /// How the task in a slot ends; where there is none, its end is refused, whatever it is.
    #[inline(always)]
    fn outcome_there(&self, slot: SlotId) -> Outcome
        ensures said { (p : Playing) → IsAt self.now p → result ≡ outcome_there p.outcomes (task_of_row (slot_at (state p.config p.history).slots slot.0)) }
        ensures promised { FitsThere self.now.machine slot result }
    {
        match self.machine.task_in(slot) {
            None => Ok(0),
            Some(task) => self.outcome_of(task),
        }
    }

    /// Makes a step that hands no task back and is no submission.
    #[inline(always)]
    fn make<A: Drop, S: Step<(), Load = (), Answer = A>>(&mut self, step: S) -> Told
        requires brings { S.brings step tt }
        requires outcome { FitsOutcome self.old.machine (S.ask step) }
        requires keeps { (x : A) (old new : Tasks (Unit {0})) → S.moves step tt x old new → KeepsPromises old new }
        requires quiet { S.ask step ≢ ask.Stop }
        ensures { (p : Playing) → IsAt self.old p → Tells p (S.ask step) None result self.new }
    {
        let handed = Vec::new(self.alloc);
        match step.make(0, (), &mut self.machine) {
            Ok(answer) => {
                let entry = Entry {
                    by: 0,
                    ask: step.ask(),
                    did: step.did(&answer),
                };
                Told {
                    answer: Ok(entry),
                    handed,
                }
            }
            Err((error, ())) => {
                let ask = step.ask();
                Told {
                    answer: Err(Refusal { ask, error }),
                    handed,
                }
            }
        }
    }

    /// Stops the pool.
    fn stop(&mut self) -> Told
        ensures { (p : Playing) → IsAt self.old p → Tells p ask.Stop None result self.new }
    {
        let ask = Ask::Stop;
        match Stop.make(0, (), &mut self.machine) {
            Ok(handed) => {
                let did = Step::<()>::did(Stop, &handed);
                Told {
                    answer: Ok(Entry { by: 0, ask, did }),
                    handed,
                }
            }
            Err((error, ())) => Told {
                answer: Err(Refusal { ask, error }),
                handed: Vec::new(self.alloc),
            }
        }
    }

    /// Makes a step of a task. At its caller it ends as its submission said.
    #[inline(always)]
    fn of_task(&mut self, verb: TaskVerb, task: TaskId) -> Told
        ensures { (p : Playing) → IsAt self.old p → TellsLine p (line.OfTask verb task) result self.new }
    {
        match verb {
            TaskVerb::Look => self.make(Plain(Look(task))),
            TaskVerb::Offer => self.make(Plain(Offer(task))),
            TaskVerb::Second => self.make(Plain(Second(task))),
            TaskVerb::Grow => self.make(Plain(Grow(task))),
            TaskVerb::CallerEnd => {
                let outcome = self.outcome_of(task);
                self.make(Plain(CallerEnd(task, outcome)))
            }
            TaskVerb::Remove => self.make(Remove(task)),
        }
    }

    /// Makes a step of a slot. The task there ends as its submission said.
    #[inline(always)]
    fn of_slot(&mut self, verb: SlotVerb, slot: SlotId) -> Told
        ensures { (p : Playing) → IsAt self.old p → TellsLine p (line.OfSlot verb slot) result self.new }
    {
        match verb {
            SlotVerb::Open => self.make(Plain(Open(slot))),
            SlotVerb::Fail => self.make(Plain(Fail(slot))),
            SlotVerb::Take => self.make(Plain(Take(slot))),
            SlotVerb::Begin => self.make(Begin(slot)),
            SlotVerb::End => {
                let outcome = self.outcome_there(slot);
                self.make(Plain(End(slot, outcome)))
            }
            SlotVerb::Leave => self.make(Plain(Leave(slot))),
        }
    }

    /// Makes a step of the pool.
    #[inline(always)]
    fn of_pool(&mut self, verb: PoolVerb) -> Told
        ensures { (p : Playing) → IsAt self.old p → TellsLine p (line.OfPool verb) result self.new }
    {
        match verb {
            PoolVerb::Shutdown => self.make(Plain(Shutdown)),
            PoolVerb::Stop => self.stop(),
            PoolVerb::Tidy => self.make(Plain(Tidy)),
            PoolVerb::Ended => self.make(Plain(Ended)),
            PoolVerb::Purge => self.make(Plain(Purge)),
            PoolVerb::Prestart => self.make(Plain(Prestart)),
        }
    }

    /// Sets a size, or takes a group's next completed task.
    #[inline(always)]
    fn of_size(&mut self, verb: SizeVerb, number: u32) -> Told
        ensures { (p : Playing) → IsAt self.old p → TellsLine p (line.OfSize verb number) result self.new }
    {
        match verb {
            SizeVerb::TakeDone => self.make(Plain(TakeDone(number))),
            SizeVerb::Core => self.make(Plain(Core(number))),
            SizeVerb::Maximum => self.make(Maximum(number)),
        }
    }

    /// Sets the keep-alive or the moment.
    #[inline(always)]
    fn of_ticks(&mut self, verb: TickVerb, ticks: u64) -> Told
        ensures { (p : Playing) → IsAt self.old p → TellsLine p (line.OfTicks verb ticks) result self.new }
    {
        match verb {
            TickVerb::Keep => self.make(Plain(Keep(ticks))),
            TickVerb::Tick => self.make(Plain(Tick(ticks))),
        }
    }

    /// Makes a submission. Its task ends so. An error is want of memory for the outcome, and changes nothing.
    #[inline(always)]
    fn submit(&mut self, kind: Kind, priority: u32, outcome: Outcome) -> Result<Told, AllocError>
        ensures tells { IfOk result (λ x. (p : Playing) → IsAt self.old p → Tells p (ask.Submit kind priority) (Some outcome) x self.new) }
        ensures unchanged { OnErr result (self.new ≡ self.old) }
    {
        // Before the step, since no accepted submission is undone. No other line needs this room, so want of it ends no run there.
        self.outcomes.reserve(1)?;
        let ask = Ask::Submit(kind, priority);
        let handed = Vec::new(self.alloc);
        let step = Submit {
            kind,
            priority,
            promise: promise_of(outcome),
        };
        self.machine.law_has_history();
        self.machine.law_keeps_waiting();
        match step.make(0, (), &mut self.machine) {
            Ok(answer) => {
                self.outcomes.push_reserved(outcome);
                let did = Step::<()>::did(step, &answer);
                Ok(Told {
                    answer: Ok(Entry { by: 0, ask, did }),
                    handed,
                })
            }
            Err((error, ())) => Ok(Told {
                answer: Err(Refusal { ask, error }),
                handed,
            }),
        }
    }

    /// Plays one line: the pool answers what the line asks. An error is want of memory for a task's outcome, and changes
    /// nothing.
    #[inline(always)]
    pub fn step(&mut self, line: &ScenarioLine) -> Result<Told, AllocError>
        ensures tells { IfOk result (λ x. (p : Playing) → IsAt self.old p → TellsLine p line.now x self.new) }
        ensures unchanged { OnErr result (self.new ≡ self.old) }
        ensures submits { IsErr result → IsSome (outcome_said line.now) }
    {
        match *line {
            ScenarioLine::Submit(kind, outcome, priority) => {
                self.submit(kind, priority.unwrap_or(0), outcome)
            }
            ScenarioLine::OfTask(verb, task) => Ok(self.of_task(verb, task)),
            ScenarioLine::Verdict(task, verdict) => Ok(self.make(Judge(task, verdict))),
            ScenarioLine::OfSlot(verb, slot) => Ok(self.of_slot(verb, slot)),
            ScenarioLine::OfPool(verb) => Ok(self.of_pool(verb)),
            ScenarioLine::Cancel(task, flag) => Ok(self.make(Cancel(task, flag))),
            ScenarioLine::OfSize(verb, number) => Ok(self.of_size(verb, number)),
            ScenarioLine::OfTicks(verb, ticks) => Ok(self.of_ticks(verb, ticks)),
            ScenarioLine::CoreTimeout(on) => Ok(self.make(Plain(CoreTimeout(on)))),
        }
    }

    /// The twelve counters.
    pub fn counts(&self) -> Counts
        ensures { (p : Playing) → IsAt self.now p → result ≡ counts_of (state p.config p.history) }
    {
        self.machine.counts()
    }

    /// The run state.
    pub fn state(&self) -> RunState
        ensures { (p : Playing) → IsAt self.now p → state_rank result ≡ (state p.config p.history).rank }
    {
        self.machine.state()
    }

    /// What became of a task, `None` while it is open, and where there is no such task.
    pub fn fate(&self, task: TaskId) -> Option<Fate>
        ensures { (p : Playing) → IsAt self.now p → task.0 < length (state p.config p.history).tasks → result ≡ fate_of (task_at (state p.config p.history) task.0) }
    {
        self.machine.fate(task).unwrap_or(None)
    }
}
