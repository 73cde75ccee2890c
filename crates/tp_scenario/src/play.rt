//! A scenario is played: from its text to what is written of it, in memory.

ghost use Rattle.std.specs.Prelude.{◌≡◌, ◌≢◌, ◌⊎◌, ◌≤◌, ◌<◌, ◌+◌, ◌^◌, ◌++◌, ℕ, [], List, length, map, take, Err, Ok, IfOk, IfErr, OnOk, OnErr, IsOkUnless};
ghost use Rattle.tp_types.specs.Config.{checked, IsConfig};
ghost use Rattle.tp_record.specs.State.{state};
ghost use Rattle.tp_text.specs.Pools.{config_of};
ghost use Rattle.tp_text.specs.RunText.{fate_lines, end_lines, IsFront};
ghost use Rattle.tp_scenario.specs.Lines.{FitsLine, line_text};
ghost use Rattle.tp_scenario.specs.PoolText.{LinesSayFrom};
ghost use Rattle.tp_scenario.specs.Scenario.{Asked};
ghost use Rattle.tp_scenario.specs.Answered.{IsAt, Playing, PlaysLine, PlaysLines, Stands, settings_of};
ghost use Rattle.tp_scenario.specs.Played.{IsPlayed, ComesOf, BreaksOff};
ghost use Rattle.tp_scenario.specs.Plays.{HeardLines, HeardText, HearsOn};

use crate::forms::LineRead;
use crate::lines::ScenarioLine;
use crate::listeners::Listener;
use crate::step::Runner;
use crate::texts::{first_bad, opening, read_line};
use std::alloc::{AllocError, Global};
use tp_text::lines::next_line;
use tp_text::pools::PoolLine;
use tp_text::printing::Output;
use tp_types::configs::Config;
use tp_types::ids::TaskId;
use tp_types::refusals::PoolError;

/// What came of a scenario.
#[derive(Debug, Drop)]
pub struct Played {
    /// What is to be written.
    pub output: Vec<u8>,
    /// How the run ended.
    pub ending: Result<(), PoolError>,
}

/// The tasks without their payloads.
#[inline(always)]
fn without_payloads(
    alloc: Global,
    handed: &[(TaskId, Option<()>)],
) -> Result<Vec<TaskId>, AllocError>
    ensures { IfOk result (λ tasks. map (λ t. t.0) tasks.items ≡ map (λ x. x.0.0) handed.now) }
{
    let mut tasks = Vec::new(alloc);
    for (task, _) in handed {
        tasks.push(*task)?;
    }
    Ok(tasks)
}

/// Plays a line: its answer is heard, and what comes of it is written. So many steps were accepted before.
#[inline(always)]
fn play_line<L: Listener>(
    alloc: Global,
    runner: &mut Runner,
    listener: &mut L,
    number: u32,
    line: &[u8],
    step: &ScenarioLine,
    accepted: &mut usize,
    output: &mut Output,
) -> Result<(), PoolError>
    requires { accepted.old < 2 ^ 32 }
    ensures ok { OnOk result ((p : Playing) → IsAt runner.old p → accepted.old ≡ length p.history
        → PlaysLine (HearsOn L.heard listener.old listener.new) p step.now runner.new accepted.new output.old.written.items output.new.written.items) }
    ensures few { accepted.new ≤ accepted.old + 1 }
    ensures err { OnErr result (output.new.written.items ≡ output.old.written.items) }
    ensures only_memory { IsOkUnless result PoolError.NoMemory }
{
    let Ok(told) = runner.step(step) else {
        return Err(PoolError::NoMemory);
    };
    let Ok(()) = listener.hear(number, line, &told.answer) else {
        return Err(PoolError::NoMemory);
    };
    match told.answer {
        Ok(entry) => {
            let Ok(back) = without_payloads(alloc, told.handed.as_slice()) else {
                return Err(PoolError::NoMemory);
            };
            *accepted += 1;
            output.entry(*accepted, &entry, back.as_slice())
        }
        Err(refusal) => output.refusal(refusal.error),
    }
}

/// Plays the lines behind a pool line: each answer is heard, and a line is written for it. The first has the number `first`. The answer
/// says whether there was memory for all of them, and the number of the first bad line, if there is one.
fn play_lines<L: Listener>(
    alloc: Global,
    runner: &mut Runner,
    listener: &mut L,
    first: u32,
    text: &[u8],
    output: &mut Output,
) -> (Result<(), PoolError>, Option<u32>)
    requires short { first + length text.now < 2 ^ 32 }
    requires starts { Stands (settings_of runner.old) [] [] runner.old output.old.written.items }
    requires begun { L.heard listener.old (settings_of runner.old) [] }
    ensures { (lines : List ScenarioLine) × LinesSayFrom line_text FitsLine first text.now (lines, result.1)
        × PlaysLines (settings_of runner.old) lines result.0 runner.new output.new.written.items
        × OnOk result.0 (HeardLines L.heard (settings_of runner.old) lines listener.new) }
{
    let mut accepted = 0;
    let mut rest = text;
    let mut number = first;
    while let Some((line, behind)) = next_line(rest) {
        match read_line::<ScenarioLine>(line) {
            LineRead::Skipped => {}
            LineRead::Says(step) => {
                if let Err(error) = play_line(
                    alloc,
                    runner,
                    listener,
                    number,
                    line,
                    &step,
                    &mut accepted,
                    output,
                ) {
                    return (Err(error), first_bad::<ScenarioLine>(number + 1, behind));
                }
            }
            LineRead::Bad => return (Ok(()), Some(number)),
        }
        rest = behind;
        number += 1;
    }
    if rest.is_empty() {
        (Ok(()), None)
    } else {
        (Ok(()), Some(number))
    }
}

/// Writes the fates of the tasks.
fn write_fates(runner: &Runner, output: &mut Output) -> Result<(), PoolError>
    ensures ok { OnOk result ((p : Playing) → IsAt runner.now p → output.new.written.items ≡ output.old.written.items
        ++ fate_lines 0 (state p.config p.history).tasks) }
    ensures err { OnErr result ((p : Playing) → IsAt runner.now p → (n : ℕ) × (output.new.written.items ≡ output.old.written.items
        ++ fate_lines 0 (take n (state p.config p.history).tasks))) }
    ensures only_memory { IsOkUnless result PoolError.NoMemory }
{
    for task in 0..runner.counts().submitted {
        let fate = runner.fate(TaskId(task));
        output.fate(TaskId(task), fate)?;
    }
    Ok(())
}

/// Writes what stands at the end of a run: the fates, the run state and the counters.
fn write_ends(runner: &Runner, output: &mut Output) -> Result<(), PoolError>
    ensures ok { OnOk result ((p : Playing) → IsAt runner.now p → output.new.written.items ≡ output.old.written.items
        ++ end_lines (state p.config p.history)) }
    ensures err { OnErr result ((p : Playing) → IsAt runner.now p → (front : List ℕ) × (output.new.written.items ≡ output.old.written.items ++ front)
        × IsFront front (end_lines (state p.config p.history))) }
    ensures only_memory { IsOkUnless result PoolError.NoMemory }
{
    write_fates(runner, output)?;
    output.state(runner.state())?;
    output.counts(&runner.counts())
}

/// A pool with these settings, of which the listener is told.
fn begun<L: Listener>(alloc: Global, config: Config, listener: &mut L) -> Result<Runner, PoolError>
    requires { IsConfig config }
    ensures starts { IfOk result (λ r. IsAt r (record { config = config; history = []; outcomes = [] })) }
    ensures begun { OnOk result (L.heard listener.new config []) }
    ensures refuses { IfErr result (λ e. (checked config ≡ Err e) ⊎ ((e ≡ PoolError.NoMemory) × IsConfig config)) }
{
    let runner = match Runner::new(alloc, config) {
        Ok(runner) => runner,
        Err(error) => return Err(error),
    };
    match listener.begin(&config) {
        Ok(()) => Ok(runner),
        Err(_) => Err(PoolError::NoMemory),
    }
}

/// Plays the lines behind this pool line. The first has the number `first`.
fn play_pool<L: Listener>(
    alloc: Global,
    pool: &PoolLine,
    first: u32,
    text: &[u8],
    listener: &mut L,
    output: &mut Output,
) -> Result<(), PoolError>
    requires short { first + length text.now < 2 ^ 32 }
    requires empty { output.old.written.items ≡ [] }
    ensures { (asked : Asked) × LinesSayFrom line_text FitsLine first text.now asked
        × ((ComesOf (Ok (pool.now, asked)) output.new.written.items result)
        ⊎ ((result ≡ Err PoolError.NoMemory) × BreaksOff (Ok (pool.now, asked)) output.new.written.items))
        × (result ≢ Err PoolError.NoMemory → checked (config_of pool.now) ≡ Ok tt → HeardLines L.heard (config_of pool.now) asked.0 listener.new) }
{
    let config = pool.config();
    if let Err(error) = config.check() {
        // The lines are read all the same: what a text says is told whatever comes of it.
        let _ = first_bad::<ScenarioLine>(first, text);
        return Err(error);
    }
    let mut runner = match begun(alloc, config, listener) {
        Ok(runner) => runner,
        Err(error) => {
            let _ = first_bad::<ScenarioLine>(first, text);
            return Err(error);
        }
    };
    match play_lines(alloc, &mut runner, listener, first, text, output) {
        (Err(error), _) => Err(error),
        (Ok(()), Some(line)) => Err(PoolError::BadLine(line)),
        (Ok(()), None) => write_ends(&runner, output),
    }
}

/// Plays the scenario of a text.
fn play_text<L: Listener>(
    alloc: Global,
    text: &[u8],
    listener: &mut L,
    output: &mut Output,
) -> Result<(), PoolError>
    requires short { length text.now ≤ 1048576 }
    requires empty { output.old.written.items ≡ [] }
    ensures played { IsPlayed text.now output.new.written.items result }
    ensures heard { result ≢ Err PoolError.NoMemory → HeardText L.heard text.now listener.new }
{
    match opening::<ScenarioLine>(text) {
        Ok((pool, first, behind)) => play_pool(alloc, &pool, first, behind, listener, output),
        Err(line) => Err(PoolError::BadLine(line)),
    }
}

/// Plays the scenario of a text: what is written of it, and how the run ends. The listener hears each step's answer, so that nothing
/// is played twice. Where it finds no memory, the run ends in 4 (`NoMemory`).
pub fn play<L: Listener>(alloc: Global, text: &[u8], listener: &mut L) -> Played
    requires { length text.now ≤ 1048576 }
    ensures played { IsPlayed text.now result.output.items result.ending }
    ensures heard { result.ending ≢ Err PoolError.NoMemory → HeardText L.heard text.now listener.new }
{
    let mut output = Output::new(alloc);
    let ending = play_text(alloc, text, listener, &mut output);
    Played {
        output: output.written,
        ending,
    }
}
