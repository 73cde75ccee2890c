//! A record's numbers, told line by line.

ghost use Rattle.std.specs.Prelude.{IsOkUnless};

use crate::amounts::Amount;
use crate::forms::Form;
use crate::tallies::write_json;
use std::alloc::{AllocError, Global};
use std::io::{self, Write};
use tp_record::rows::TaskRow;
use tp_story::fates::{Sort, count_fated};
use tp_story::spans::Span;
use tp_story::stats::Stats;
use tp_types::ids::SlotId;
use tp_types::refusals::PoolError;
use tp_types::tasks::Fate;

/// Want of memory, as a writer's error.
pub(crate) fn no_memory(_error: AllocError) -> io::Error {
    io::Error::from(io::ErrorKind::OutOfMemory)
}

/// A line of the table of kinds and fates.
fn write_fates<W: Write>(out: &mut W, name: &str, sort: Sort, tasks: &[TaskRow]) -> io::Result<()> {
    let run = count_fated(sort, Some(Fate::Run), tasks);
    let caller = count_fated(sort, Some(Fate::RunByCaller), tasks);
    let rejected = count_fated(sort, Some(Fate::Rejected), tasks);
    let discarded = count_fated(sort, Some(Fate::Discarded), tasks);
    let handedback = count_fated(sort, Some(Fate::HandedBack), tasks);
    let removed = count_fated(sort, Some(Fate::Removed), tasks);
    let cancelled = count_fated(sort, Some(Fate::Cancelled), tasks);
    let open = count_fated(sort, None, tasks);
    writeln!(
        out,
        "{name:<8}{run:>9}{caller:>9}{rejected:>9}{discarded:>10}{handedback:>11}{removed:>9}{cancelled:>10}{open:>6}"
    )
}

/// The table of kinds and fates.
fn write_tasks<W: Write>(out: &mut W, tasks: &[TaskRow]) -> io::Result<()> {
    writeln!(
        out,
        "tasks         run   caller rejected discarded handedback  removed cancelled  open"
    )?;
    write_fates(out, "plain", Sort::Plain, tasks)?;
    write_fates(out, "future", Sort::Future, tasks)?;
    write_fates(out, "group", Sort::Group, tasks)
}

/// The number that so many in a hundred of these do not exceed, which stand in order.
pub(crate) fn quantile(sorted: &[u64], hundredth: usize) -> u64 {
    let count = sorted.len();
    let whole = (count / 100).saturating_mul(hundredth);
    let rest = (count % 100).saturating_mul(hundredth).saturating_add(99) / 100;
    let at = whole.saturating_add(rest).saturating_sub(1);
    sorted.get(at).copied().unwrap_or(0)
}

/// The least, the middle and the greatest of some numbers in order, and two of which 90 and 99 in a hundred are no greater.
fn write_quantiles<W: Write>(out: &mut W, unit: &str, sorted: &[u64]) -> io::Result<()> {
    let least = quantile(sorted, 0);
    let median = quantile(sorted, 50);
    let ninety = quantile(sorted, 90);
    let ninety_nine = quantile(sorted, 99);
    let most = quantile(sorted, 100);
    writeln!(
        out,
        "  in {unit}: least {least}, median {median}, 90 in 100 to {ninety}, 99 in 100 to {ninety_nine}, most {most}"
    )
}

/// The span that is the longest in entries, and of these the first.
pub(crate) fn longest(spans: &[Span]) -> Option<Span> {
    let mut found: Option<Span> = None;
    for span in spans {
        found = match found {
            Some(best) if best.entries >= span.entries => Some(best),
            _ => Some(*span),
        };
    }
    found
}

/// The lengths of spans in entries, in order.
pub(crate) fn entries_of(alloc: Global, spans: &[Span]) -> Result<Vec<u64>, AllocError> {
    let mut numbers = Vec::new(alloc);
    for span in spans {
        numbers.push(span.entries)?;
    }
    numbers.sort()?;
    Ok(numbers)
}

/// The lengths of spans in ticks, in order.
pub(crate) fn ticks_of(alloc: Global, spans: &[Span]) -> Result<Vec<u64>, AllocError> {
    let mut numbers = Vec::new(alloc);
    for span in spans {
        numbers.push(span.ticks)?;
    }
    numbers.sort()?;
    Ok(numbers)
}

/// How many marks the longest bar has.
const WIDTH: u64 = 40;

/// A bar of a histogram: a range of numbers, how many there are in it, and marks for them, beside the most in a range.
fn write_bar<W: Write>(out: &mut W, bar: &Bar, most: u64) -> io::Result<()> {
    let Bar { low, high, count } = *bar;
    write!(out, "  {low:>10} to {high:>10} {count:>9}")?;
    if count > 0 {
        let marks = (count.saturating_mul(WIDTH) / most.max(1)).clamp(1, WIDTH) as usize;
        write!(out, " {:#<marks$}", "")?;
    }
    writeln!(out)
}

/// How many numbers there are in a range.
#[derive(Clone, Copy, Debug, PartialEq, Eq)]
pub(crate) struct Bar {
    pub low: u64,
    pub high: u64,
    pub count: u64,
}

/// How many of these numbers, which stand in order, are below a bound.
fn count_below(sorted: &[u64], bound: u64) -> usize {
    let mut count = 0usize;
    for number in sorted {
        if *number >= bound {
            return count;
        }
        count = count.saturating_add(1);
    }
    count
}

/// The bars of numbers in order, by powers of two: 0, 1, 2 to 3, 4 to 7 and so on, from the least number to the greatest.
pub(crate) fn bars_of(alloc: Global, sorted: &[u64]) -> Result<Vec<Bar>, AllocError> {
    let mut bars = Vec::new(alloc);
    let mut low = 0u64;
    let mut rest = sorted;
    for _ in 0..65 {
        if rest.is_empty() {
            return Ok(bars);
        }
        let bound = low.saturating_mul(2).max(1);
        let count = count_below(rest, bound);
        if count > 0 || !bars.is_empty() {
            bars.push(Bar {
                low,
                high: bound.saturating_sub(1),
                count: count as u64,
            })?;
        }
        rest = rest.get(count..).unwrap_or(&[]);
        low = bound;
    }
    Ok(bars)
}

/// A histogram of numbers in order.
fn write_histogram<W: Write>(alloc: Global, out: &mut W, sorted: &[u64]) -> io::Result<()> {
    let bars = bars_of(alloc, sorted).map_err(no_memory)?;
    let mut most = 1u64;
    for bar in &bars {
        most = most.max(bar.count);
    }
    for bar in &bars {
        write_bar(out, bar, most)?;
    }
    Ok(())
}

/// The spans of one sort.
fn write_spans<W: Write>(alloc: Global, out: &mut W, name: &str, spans: &[Span]) -> io::Result<()> {
    let count = spans.len();
    let Some(span) = longest(spans) else {
        return writeln!(out, "{name}: none");
    };
    let length = Amount::Entries(span.entries);
    let task = span.task;
    writeln!(
        out,
        "{name}: {count}, the longest that of t{task}, of {length}"
    )?;
    let entries = entries_of(alloc, spans).map_err(no_memory)?;
    let ticks = ticks_of(alloc, spans).map_err(no_memory)?;
    write_quantiles(out, "entries", &entries)?;
    write_quantiles(out, "ticks", &ticks)?;
    write_histogram(alloc, out, &entries)
}

/// The lengths of spans in entries, their tasks, and their lengths in ticks, the longest first.
pub(crate) fn longest_first(
    alloc: Global,
    spans: &[Span],
) -> Result<Vec<(u64, u32, u64)>, AllocError> {
    let mut order = Vec::new(alloc);
    for span in spans {
        order.push((u64::MAX - span.entries, span.task, span.ticks))?;
    }
    order.sort()?;
    for row in &mut order {
        row.0 = u64::MAX - row.0;
    }
    Ok(order)
}

/// The tasks that waited longest, so many of them, the longest wait first.
fn write_top<W: Write>(alloc: Global, out: &mut W, spans: &[Span], top: u64) -> io::Result<()> {
    let order = longest_first(alloc, spans).map_err(no_memory)?;
    let mut left = top;
    for (entries, task, ticks) in &order {
        if left == 0 {
            return Ok(());
        }
        left -= 1;
        let entries = Amount::Entries(*entries);
        let ticks = Amount::Ticks(*ticks);
        writeln!(out, "  t{task} waited {entries}, and {ticks}")?;
    }
    Ok(())
}

/// How many tasks the workers of a slot ended, and for how many entries they ran them.
pub(crate) fn work_of(runs: &[Span], slot: SlotId) -> (u64, u64) {
    let mut tasks = 0u64;
    let mut busy = 0u64;
    for run in runs {
        if run.slot == Some(slot) {
            tasks = tasks.saturating_add(1);
            busy = busy.saturating_add(run.entries);
        }
    }
    (tasks, busy)
}

/// The slots whose workers ran a task, each once, the least first.
pub(crate) fn slots_of(alloc: Global, runs: &[Span]) -> Result<Vec<usize>, AllocError> {
    let mut slots = Vec::new(alloc);
    for run in runs {
        if let Some(SlotId(w)) = run.slot {
            if !slots.contains(&w) {
                slots.push(w)?;
            }
        }
    }
    slots.sort()?;
    Ok(slots)
}

/// The workers of each slot.
fn write_workers<W: Write>(alloc: Global, out: &mut W, stats: &Stats) -> io::Result<()> {
    let steps = u64::from(stats.tables().steps).max(1);
    let opened = stats.opened();
    let left = stats.left();
    let largest = stats.tables().largest;
    writeln!(
        out,
        "workers: {opened} made, {left} left, at most {largest} at a time"
    )?;
    let slots = slots_of(alloc, stats.runs()).map_err(no_memory)?;
    for w in &slots {
        let (tasks, busy) = work_of(stats.runs(), SlotId(*w));
        let tasks = Amount::Tasks(tasks);
        let share = busy.saturating_mul(100) / steps;
        let busy = Amount::Entries(busy);
        writeln!(out, "  w{w} ended {tasks}, busy for {busy}, {share} in 100")?;
    }
    Ok(())
}

/// Writes what a record tells in numbers, with so many of the tasks that waited longest.
pub fn write_stats<W: Write>(
    alloc: Global,
    out: &mut W,
    stats: &Stats,
    top: u64,
) -> io::Result<()> {
    let steps = stats.tables().steps;
    writeln!(out, "entries: {steps}")?;
    write_tasks(out, &stats.tables().tasks)?;
    write_spans(alloc, out, "waits in the queue", stats.waits())?;
    write_top(alloc, out, stats.waits(), top)?;
    write_spans(alloc, out, "runs", stats.runs())?;
    write_workers(alloc, out, stats)?;
    let longest = stats.longest();
    let tasks = Amount::Tasks(longest.tasks as u64);
    let number = longest.number;
    writeln!(out, "longest queue: {tasks}, first after entry {number}")?;
    let refusals = stats.refusals();
    let shut_down = refusals.shut_down;
    let full = refusals.full;
    let no_worker = refusals.no_worker;
    writeln!(
        out,
        "refused: {full} since queue and pool were full, {shut_down} since the pool was shut down, {no_worker} since no worker was made"
    )
}

/// What a record tells in numbers, with so many of the tasks that waited longest. Want of memory is NoMemory (4).
pub fn stats_text(alloc: Global, stats: &Stats, top: u64, form: Form) -> Result<Vec<u8>, PoolError>
    ensures { IsOkUnless result PoolError.NoMemory }
{
    let mut text = Vec::new(alloc);
    let written = match form {
        Form::Words => write_stats(alloc, &mut text, stats, top),
        Form::Json => write_json(alloc, &mut text, stats, top),
    };
    match written {
        Ok(()) => Ok(text),
        Err(_) => Err(PoolError::NoMemory),
    }
}
