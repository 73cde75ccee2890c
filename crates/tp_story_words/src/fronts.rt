//! A pool after an entry, told line by line.

ghost use Rattle.std.specs.Prelude.{◌≡◌, ◌++◌, ℕ, List, IfOk, IsOkUnless, string_bytes};
ghost use Rattle.tp_story_words.specs.Fronts.{front_head};

use crate::amounts::Amount;
use crate::forms::Form;
use crate::json::write_json;
use std::alloc::{AllocError, Global};
use std::fmt;
use std::io::{self, Write};
use tp_audit::tables::Tables;
use tp_audit_causes::rows::{ShownSlot, ShownTask};
use tp_story::fronts::Front;
use tp_story::times::Since;
use tp_text::pools::ShownQueue;
use tp_types::configs::Config;
use tp_types::ids::{SlotId, TaskId};
use tp_types::refusals::PoolError;
use tp_types::states::RunState;
use tp_types::tasks::Place;

/// A setting, and what it was at first where it was changed.
#[derive(Clone, Copy)]
struct ShownSetting {
    name: &'static str,
    now: u64,
    first: u64,
}

impl fmt::Display for ShownSetting {
    fn fmt<W: fmt::Write>(&self, f: &mut fmt::Formatter<W>) -> fmt::Result {
        let name = self.name;
        let now = self.now;
        let first = self.first;
        if now == first {
            write!(f, "{name} {now}")
        } else {
            write!(f, "{name} {now} (made with {first})")
        }
    }
}

/// How long something has lasted at a front, as ` since entry 3, for 4 entries and 0 ticks`.
#[derive(Clone, Copy)]
struct ShownSince<'a> {
    since: Option<Since>,
    tables: &'a Tables,
}

impl fmt::Display for ShownSince<'_> {
    fn fmt<W: fmt::Write>(&self, f: &mut fmt::Formatter<W>) -> fmt::Result {
        let Some(since) = self.since else {
            return Ok(());
        };
        let number = since.number;
        let entries = Amount::Entries(u64::from(self.tables.steps).saturating_sub(number));
        let ticks = Amount::Ticks(self.tables.moment.saturating_sub(since.moment));
        write!(f, " since entry {number}, for {entries} and {ticks}")
    }
}

/// The settings.
fn write_settings<W: Write>(out: &mut W, config: &Config, tables: &Tables) -> io::Result<()> {
    let core = ShownSetting {
        name: "core",
        now: u64::from(tables.core),
        first: u64::from(config.core),
    };
    let maximum = ShownSetting {
        name: "max",
        now: u64::from(tables.maximum),
        first: u64::from(config.maximum),
    };
    let keep = ShownSetting {
        name: "keep",
        now: tables.keep,
        first: config.keep,
    };
    let queue = ShownQueue(config.queue);
    let policy = config.policy.name();
    let timeout = if tables.core_timeout {
        ", core workers time out"
    } else {
        ""
    };
    writeln!(
        out,
        "settings: {core}, {maximum}, {queue}, {keep}, {policy}{timeout}"
    )
}

/// A slot's line.
fn write_slot<W: Write>(out: &mut W, front: &Front, slot: SlotId) -> io::Result<()> {
    let tables = front.tables();
    let shown = ShownSlot { tables, slot };
    let since = ShownSince {
        since: front.times().slot(slot),
        tables,
    };
    writeln!(out, "  {shown},{since}")
}

/// The slots.
fn write_slots<W: Write>(alloc: Global, out: &mut W, front: &Front) -> io::Result<()> {
    let tables = front.tables();
    let count = tables.slots.count();
    let live = tables.slots.live();
    let largest = tables.largest;
    writeln!(
        out,
        "slots: {count}, {live} of them live, at most {largest} so far"
    )?;
    let Ok(slots) = front.times().slots(alloc) else {
        return Err(io::Error::from(io::ErrorKind::OutOfMemory));
    };
    for w in &slots {
        write_slot(out, front, SlotId(*w))?;
    }
    Ok(())
}

/// Whether a task was cancelled.
pub(crate) fn is_cancelled(tables: &Tables, task: u32) -> bool {
    match tables.tasks.get(task as usize) {
        Some(row) => row.cancelled,
        None => false,
    }
}

/// The queue, its head first.
fn write_queue<W: Write>(out: &mut W, front: &Front) -> io::Result<()> {
    let tables = front.tables();
    let count = tables.queue.len();
    writeln!(out, "queue: {count}")?;
    let mut next = tables.queue.first();
    for _ in 0..count {
        let Some(t) = next else {
            return Ok(());
        };
        let since = ShownSince {
            since: front.times().task(TaskId(t)),
            tables,
        };
        let mark = if is_cancelled(tables, t) {
            ", cancelled,"
        } else {
            ""
        };
        writeln!(out, "  t{t}{mark}{since}")?;
        next = tables.queue.next_after(t);
    }
    Ok(())
}

/// Whether a task is with its submitter.
pub(crate) fn is_with_submitter(place: Place) -> bool {
    matches!(
        place,
        Place::Looking | Place::ToOffer | Place::ToGrow | Place::Refused | Place::Caller
    )
}

/// What submitters owe.
fn write_submitters<W: Write>(out: &mut W, front: &Front) -> io::Result<()> {
    let tables = front.tables();
    let mut t = 0u32;
    for row in &tables.tasks {
        let task = TaskId(t);
        let by = front.times().submitter(task).unwrap_or(0);
        if is_with_submitter(row.place) {
            let shown = ShownTask { tables, task };
            let since = ShownSince {
                since: front.times().task(task),
                tables,
            };
            writeln!(out, "  pass {by}: {shown},{since}")?;
        }
        if row.second {
            writeln!(out, "  pass {by} owes a second look of t{t}")?;
        }
        t = t.saturating_add(1);
    }
    Ok(())
}

/// What is owed, and by whom.
fn write_owed<W: Write>(out: &mut W, front: &Front) -> io::Result<()> {
    let due = Amount::Entries(front.tables().due);
    writeln!(out, "owed: {due}")?;
    write_submitters(out, front)
}

/// What a pool waits for that was shut down.
fn write_end<W: Write>(out: &mut W, tables: &Tables) -> io::Result<()> {
    let slots = Amount::Slots(tables.slots.count() as u64);
    let queued = Amount::Tasks(tables.queue.len() as u64);
    match tables.rank {
        1 | 2 if tables.slots.count() > 0 || tables.queue.len() > 0 => {
            writeln!(out, "the end waits for {queued} in the queue and {slots}")
        }
        1 | 2 => writeln!(out, "the end waits for `tidy`"),
        3 => writeln!(out, "the end waits for `ended`"),
        _ => Ok(()),
    }
}

/// Writes what stands under the first line.
fn write_below<W: Write>(alloc: Global, out: &mut W, front: &Front) -> io::Result<()> {
    let tables = front.tables();
    write_settings(out, front.config(), tables)?;
    write_slots(alloc, out, front)?;
    write_queue(out, front)?;
    write_owed(out, front)?;
    write_end(out, tables)
}

/// The first line: after which entry, the run state and the moment, and how many tasks were submitted.
fn head_of(alloc: Global, tables: &Tables, form: Form) -> Result<String, AllocError>
    ensures { IfOk result (λ s. (more : List ℕ) × (string_bytes s ≡ front_head form tables.now ++ more)) }
{
    let entry = tables.steps;
    let state = RunState::from_rank(tables.rank.min(4)).name();
    let moment = tables.moment;
    let submitted = tables.tasks.len();
    match form {
        Form::Words => {
            let tasks = Amount::Tasks(submitted as u64);
            let more = format!(in alloc; "{tasks} submitted")?;
            let more = more.as_str();
            format!(in alloc; "after entry {entry}: {state}, at moment {moment}, {more}\n")
        }
        Form::Json => {
            let due = tables.due;
            format!(in alloc;
                "{{\"entry\":{entry},\"state\":\"{state}\",\"moment\":{moment},\"submitted\":{submitted},\"due\":{due}}}\n"
            )
        }
    }
}

/// Writes what the pool is like after the entries that were followed.
pub fn write_front<W: Write>(alloc: Global, out: &mut W, front: &Front) -> io::Result<()> {
    let Ok(head) = head_of(alloc, front.tables(), Form::Words) else {
        return Err(io::Error::from(io::ErrorKind::OutOfMemory));
    };
    out.write_all(head.as_bytes())?;
    write_below(alloc, out, front)
}

/// What the pool is like after the entries that were followed: first after which entry, the run state and the moment. Want of
/// memory is NoMemory (4).
pub fn front_text(alloc: Global, front: &Front, form: Form) -> Result<Vec<u8>, PoolError>
    ensures text { IfOk result (λ text. (more : List ℕ) × (text.items ≡ front_head form front.now.judge.tables ++ more)) }
    ensures only_memory { IsOkUnless result PoolError.NoMemory }
{
    let mut below = Vec::new(alloc);
    let written = match form {
        Form::Words => write_below(alloc, &mut below, front),
        Form::Json => write_json(alloc, &mut below, front),
    };
    if written.is_err() {
        return Err(PoolError::NoMemory);
    }
    let mut text = head_of(alloc, front.tables(), form)?.into_bytes();
    text.extend_from_slice(below.as_slice())?;
    Ok(text)
}
