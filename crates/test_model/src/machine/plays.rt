//! A play of the machine is a text: the lines of pools, and then the entries that each of them records, with what is refused and what is
//! read between them. No function here says anything of the machine, so that a test is proved without the machine's own contracts: it is compared
//! when it runs.
//!
//! | Line | Means |
//! |---|---|
//! | `4 begin w0 t0: pays 10` | what the entry asks for is asked, and answered so: it is entry 4, and hands this payload out; `-` is none |
//! | `5 tidy: refused NotThere` | what the entry asks for is asked, and refused so; of the entry's answer nothing is said |
//! | `task 0 Ok(Gone) Ok(Some(Run)) Ok(Some(8)) Ok(true)` | its place, fate and future's answer, and whether it promises what it should |
//! | `slot 1 Some(TaskId(1))` | which task is in the slot |
//! | `group 4 true` | whether a task of the group has no fate yet |
//! | `pool stop at 0 counts ..` | the state, the moment and the counters |
//! | `fill` | the record is filled up to what is owed |
//!
//! Task t is submitted with payload t + 10, and promises a value from -1000 to 1000 or a fault. The lines of `play_line` that have a
//! function of their own are what takes thousands of lines, or memory that may be wanting.

ghost use Rattle.tp_machine.specs.Stepped.{IsPaid, FitsOutcome};

use super::long::{counts_what_is_done, retry_often};
use super::memory::{keeps_all, stop_all, submit_all};
use std::alloc::{AllocError, Global};
use test_rows::is_same;
use tp_machine::answers::Begun;
use tp_machine::machine::Machine;
use tp_machine::steps::Stepped;
use tp_record::entries::{Ask, Did, Entry};
use tp_record::recorders::Full;
use tp_text::ends::write_counts;
use tp_text::numbers::number;
use tp_text::pools::pool_of;
use tp_text::words::first_word;
use tp_text_record::entries::read_entry;
use tp_text_record::versions::Version;
use tp_types::configs::Config;
use tp_types::ids::{SlotId, TaskId};
use tp_types::refusals::PoolError;
use tp_types::states::{Counts, RunState};
use tp_types::tasks::Promise;

/// A pool whose payloads are numbers, and which keeps its whole record.
pub type Pool = Machine<u32, Full>;

/// The payloads that a step hands out: the first three.
pub type Handed = (Option<u32>, Option<u32>, Option<u32>);

/// No payload.
pub const NONE: Handed = (None, None, None);

/// What each job promises.
pub const ANY: Promise = Promise {
    low: -1000,
    high: 1000,
    may_fault: true,
};

/// What is read of a pool as a whole.
#[derive(Clone, Copy, Debug, PartialEq, Eq)]
pub struct Reading {
    counts: Counts,
    state: RunState,
    moment: u64,
    entries: usize,
    last: Option<Entry>,
}

/// What is read of the pool now.
pub fn read(pool: &Pool) -> Reading {
    Reading {
        counts: pool.counts(),
        state: pool.state(),
        moment: pool.now(),
        entries: pool.entries().len(),
        last: pool.entries().last().map(|packed| packed.unpack()),
    }
}

/// A new pool. A want of memory is tried once more.
fn pool(rt: &impl Print, alloc: Global, config: Config) -> anyhow::Result<Pool> {
    match Machine::new(alloc, config) {
        Ok(pool) => Ok(pool),
        Err(error) => {
            is_same(rt, 0, &error, &PoolError::NoMemory)?;
            Ok(Machine::new(alloc, config)?)
        }
    }
}

/// The payload of one of the tasks that are handed back.
fn payload_at(handed: &[(TaskId, Option<u32>)], index: usize) -> Option<u32> {
    match handed.get(index) {
        Some((_, payload)) => *payload,
        None => None,
    }
}

/// The payloads that a step handed out.
fn handed(stepped: &Stepped<u32>) -> Handed {
    match stepped {
        Stepped::Begin(Begun::Run(_, payload)) => (Some(*payload), None, None),
        Stepped::Verdict(judged) => match judged.dropped {
            Some((_, dropped)) => (judged.payload, dropped, None),
            None => (judged.payload, None, None),
        },
        Stepped::Remove(Some((_, payload))) => (*payload, None, None),
        Stepped::Cancel(_, payload) => (*payload, None, None),
        Stepped::Stop(tasks) => (
            payload_at(tasks, 0),
            payload_at(tasks, 1),
            payload_at(tasks, 2),
        ),
        _ => NONE,
    }
}

/// What an ask is answered with, and the payloads that it hands out.
pub type Played = (Result<Did, PoolError>, Handed);

/// What a step did, and the payloads that it handed out; or its refusal, and the payload that came back.
type Answer = Result<(Did, Handed), (PoolError, Option<u32>)>;

/// Makes the step of an ask.
fn step(pool: &mut Pool, by: u32, ask: Ask, submitted: Option<(Promise, u32)>) -> Answer
    requires paid { IsPaid ask submitted }
    requires outcome { FitsOutcome pool.old ask }
{
    match pool.step(by, ask, submitted) {
        Ok(stepped) => Ok((stepped.did(&ask), handed(&stepped))),
        Err(refusal) => Err(refusal),
    }
}

/// Asks for a step, with this payload where it is a submission. An outcome that was not promised is no step: it is answered
/// with TornRecord (22).
fn answer(pool: &mut Pool, by: u32, ask: Ask, payload: u32) -> Answer {
    if let Ask::Submit(..) = ask {
        return step(pool, by, ask, Some((ANY, payload)));
    }
    if let Ask::End(w, outcome) = ask {
        if !pool.may_end(w, &outcome) {
            return Err((PoolError::TornRecord, None));
        }
    }
    if let Ask::CallerEnd(t, outcome) = ask {
        if !pool.may_end_at_caller(t, &outcome) {
            return Err((PoolError::TornRecord, None));
        }
    }
    step(pool, by, ask, None)
}

/// The answer to an ask. A step adds the one entry that the answer is of, and a refusal changes nothing and gives the payload back.
fn ask_once(rt: &impl Print, pool: &mut Pool, ask: Ask) -> anyhow::Result<Played> {
    let before = read(pool);
    let by = before.counts.submitted;
    let payload = by.wrapping_add(10);
    match answer(pool, by, ask, payload) {
        Ok((did, handed)) => {
            let after = read(pool);
            let entries = before.entries.wrapping_add(1);
            let wanted = (entries, Some(Entry { by, ask, did }));
            is_same(rt, entries, &(after.entries, after.last), &wanted)?;
            Ok((Ok(did), handed))
        }
        Err((error, returned)) => {
            let paid = match ask {
                Ask::Submit(..) => Some(payload),
                _ => None,
            };
            let after = read(pool);
            is_same(rt, before.entries, &(returned, after), &(paid, before))?;
            Ok((Err(error), NONE))
        }
    }
}

/// Whether the step of an ask takes memory.
fn takes_memory(ask: Ask) -> bool {
    match ask {
        Ask::Submit(..) | Ask::Stop | Ask::Maximum(_) => true,
        _ => false,
    }
}

/// The answer to an ask. A want of memory is tried once more.
pub fn ask(rt: &impl Print, pool: &mut Pool, ask: Ask) -> anyhow::Result<Played> {
    match ask_once(rt, pool, ask)? {
        (Err(PoolError::NoMemory), _) => {
            is_same(rt, 0, &(ask, takes_memory(ask)), &(ask, true))?;
            ask_once(rt, pool, ask)
        }
        answer => Ok(answer),
    }
}

/// This is asked, and answered so, with these payloads.
pub fn asks(
    rt: &impl Print,
    pool: &mut Pool,
    asked: Ask,
    answer: Result<Did, PoolError>,
    paid: Handed,
) -> anyhow::Result<()> {
    let played = ask(rt, pool, asked)?;
    is_same(rt, 0, &(asked, played), &(asked, (answer, paid)))
}

/// This is asked, and done.
pub fn does(rt: &impl Print, pool: &mut Pool, asked: Ask) -> anyhow::Result<()> {
    let (answer, _) = ask(rt, pool, asked)?;
    is_same(rt, 0, &(asked, answer.is_ok()), &(asked, true))
}

/// The payloads that a line says, the first three.
fn paid(words: &str) -> Handed {
    let (first, words) = first_word(words);
    let (second, words) = first_word(words.unwrap_or("-"));
    let (third, _) = first_word(words.unwrap_or("-"));
    (number(first), number(second), number(third))
}

/// Asks for what this entry asks for. The answer is the entry's, or the refusal of the line, and the record is as long as the line's
/// number says.
fn play_entry(
    rt: &impl Print,
    pool: &mut Pool,
    at: usize,
    line: &str,
    entry: &Entry,
    end: &str,
) -> anyhow::Result<()> {
    let (answer, handed) = ask(rt, pool, entry.ask)?;
    let seen = match answer {
        Ok(did) => (Some(did), "", handed),
        Err(error) => (None, error.name(), handed),
    };
    let wanted = match end.strip_prefix(" refused ") {
        Some(name) => (None, name, NONE),
        None => (
            Some(entry.did),
            "",
            paid(end.strip_prefix(" pays ").unwrap_or("")),
        ),
    };
    is_same(rt, at, &(line, seen), &(line, wanted))
}

/// Plays the line of an entry.
fn play_step(rt: &impl Print, pool: &mut Pool, at: usize, line: &str) -> anyhow::Result<()> {
    let (words, end) = line.split_once(':').unwrap_or((line, ""));
    let next = pool.entries().len().wrapping_add(1);
    match read_entry(Version::Two, words.as_bytes()) {
        Some((place, entry)) => {
            is_same(rt, at, &(line, next), &(line, place as usize))?;
            play_entry(rt, pool, at, line, &entry, end)?;
        }
        None => is_same(rt, at, &line, &"the line of an entry")?,
    }
    Ok(())
}

/// The refusal of the first tick for which the record has no room; none where it is never full.
fn refusal_of_ticks(rt: &impl Print, pool: &mut Pool) -> anyhow::Result<Option<PoolError>> {
    for _ in 0..128 {
        if let (Err(refusal), _) = ask(rt, pool, Ask::Tick(9))? {
            return Ok(Some(refusal));
        }
    }
    Ok(None)
}

/// Fills the record up to what is owed.
fn fill(rt: &impl Print, pool: &mut Pool) -> anyhow::Result<()> {
    let full = refusal_of_ticks(rt, pool)?;
    is_same(rt, 0, &full, &Some(PoolError::BookFull))
}

/// Writes what is read of the task of this number.
fn write_task(text: &mut String, pool: &Pool, t: u32) -> Result<(), AllocError> {
    let task = TaskId(t);
    let (place, fate, result) = (pool.place(task), pool.fate(task), pool.result(task));
    let promised = match pool.promise(task) {
        Ok(promise) => Ok(promise == ANY),
        Err(error) => Err(error),
    };
    write!(
        text,
        "task {t} {place:?} {fate:?} {result:?} {promised:?}\n"
    )
}

/// Writes what a line reads: of the pool, or of the task, the slot or the group of this number. Else nothing is written.
fn write_reading(
    text: &mut String,
    pool: &Pool,
    word: &str,
    named: Option<u32>,
) -> Result<(), AllocError> {
    match (word, named) {
        ("pool", _) => {
            let (state, moment) = (pool.state().name(), pool.now());
            write!(text, "pool {state} at {moment} ")?;
            write_counts(text, &pool.counts())
        }
        ("task", Some(t)) => write_task(text, pool, t),
        ("slot", Some(w)) => {
            let task = pool.task_in(SlotId(w as usize));
            write!(text, "slot {w} {task:?}\n")
        }
        ("group", Some(g)) => {
            let is_open = pool.group_open(g);
            write!(text, "group {g} {is_open}\n")
        }
        _ => Ok(()),
    }
}

/// What a line reads, as it is to be said; an empty text where the line reads nothing.
fn text_read(alloc: Global, pool: &Pool, line: &str) -> Result<String, AllocError> {
    let mut text = String::new(alloc);
    let (word, rest) = first_word(line);
    let (named, _) = first_word(rest.unwrap_or(""));
    write_reading(&mut text, pool, word, number(named))?;
    Ok(text)
}

/// Whether the line reads something. Then that is as the line says. A want of memory is tried once more.
fn reads(
    rt: &impl Print,
    alloc: Global,
    pool: &Pool,
    at: usize,
    line: &str,
) -> anyhow::Result<bool> {
    let text = match text_read(alloc, pool, line) {
        Ok(text) => text,
        Err(_) => text_read(alloc, pool, line)?,
    };
    match text.as_str().lines().next() {
        Some(seen) => {
            is_same(rt, at, &seen, &line)?;
            Ok(true)
        }
        None => Ok(false),
    }
}

/// Plays a line.
fn play_line(
    rt: &impl Print,
    alloc: Global,
    pool: &mut Pool,
    at: usize,
    line: &str,
) -> anyhow::Result<()> {
    match line {
        "fill" => fill(rt, pool)?,
        "retry 64 times" => retry_often(rt, pool, 64)?,
        "count thousands" => counts_what_is_done(rt, pool)?,
        "submit forty" => submit_all(rt, pool)?,
        "keep forty" => keeps_all(rt, pool)?,
        "stop forty" => stop_all(rt, pool)?,
        _ => {
            if !reads(rt, alloc, pool, at, line)? {
                play_step(rt, pool, at, line)?;
            }
        }
    }
    Ok(())
}

/// Plays these lines.
fn play_lines(rt: &impl Print, alloc: Global, pool: &mut Pool, text: &str) -> anyhow::Result<()> {
    for (at, line) in text.lines().enumerate() {
        if pool_of(line).is_none() {
            play_line(rt, alloc, pool, at, line)?;
        }
    }
    Ok(())
}

/// Plays a text on a pool with these settings. No other function has a pool of its own: what owns one is dear to prove.
fn plays_on(rt: &impl Print, alloc: Global, config: Config, text: &str) -> anyhow::Result<()> {
    let mut pool = pool(rt, alloc, config)?;
    play_lines(rt, alloc, &mut pool, text)
}

/// Plays a text on each of its pools.
pub fn plays(rt: &impl Print, alloc: Global, text: &str) -> anyhow::Result<()> {
    let mut played = false;
    for line in text.lines() {
        if let Some(pool) = pool_of(line) {
            plays_on(rt, alloc, pool.config(), text)?;
            played = true;
        }
    }
    is_same(rt, 0, &played, &true)
}
