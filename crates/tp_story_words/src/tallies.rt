//! A record's numbers, as JSON: an object a line.

use crate::numbers::{
    Bar, bars_of, entries_of, longest, longest_first, no_memory, quantile, slots_of, ticks_of,
    work_of,
};
use std::alloc::Global;
use std::fmt;
use std::io::{self, Write};
use tp_record::rows::TaskRow;
use tp_story::fates::{Sort, count_fated};
use tp_story::spans::Span;
use tp_story::stats::Stats;
use tp_types::ids::SlotId;
use tp_types::tasks::Fate;

/// The tasks of one kind, by what became of them.
fn write_fates<W: Write>(out: &mut W, name: &str, sort: Sort, tasks: &[TaskRow]) -> io::Result<()> {
    let run = count_fated(sort, Some(Fate::Run), tasks);
    let caller = count_fated(sort, Some(Fate::RunByCaller), tasks);
    let rejected = count_fated(sort, Some(Fate::Rejected), tasks);
    let discarded = count_fated(sort, Some(Fate::Discarded), tasks);
    let handedback = count_fated(sort, Some(Fate::HandedBack), tasks);
    let removed = count_fated(sort, Some(Fate::Removed), tasks);
    let cancelled = count_fated(sort, Some(Fate::Cancelled), tasks);
    let open = count_fated(sort, None, tasks);
    writeln!(
        out,
        "{{\"kind\":\"{name}\",\"run\":{run},\"caller\":{caller},\"rejected\":{rejected},\"discarded\":{discarded},\"handedback\":{handedback},\"removed\":{removed},\"cancelled\":{cancelled},\"open\":{open}}}"
    )
}

/// The least, the middle and the greatest of some numbers in order, and two of which 90 and 99 in a hundred are no greater.
#[derive(Clone, Copy)]
struct Quantiles<'a>(&'a [u64]);

impl fmt::Display for Quantiles<'_> {
    fn fmt<W: fmt::Write>(&self, f: &mut fmt::Formatter<W>) -> fmt::Result {
        let least = quantile(self.0, 0);
        let median = quantile(self.0, 50);
        let ninety = quantile(self.0, 90);
        let ninety_nine = quantile(self.0, 99);
        let most = quantile(self.0, 100);
        write!(
            f,
            "{{\"least\":{least},\"median\":{median},\"p90\":{ninety},\"p99\":{ninety_nine},\"most\":{most}}}"
        )
    }
}

/// A bar of a histogram.
fn write_bar<W: Write>(out: &mut W, name: &str, bar: &Bar) -> io::Result<()> {
    let Bar { low, high, count } = *bar;
    writeln!(
        out,
        "{{\"bar\":\"{name}\",\"low\":{low},\"high\":{high},\"count\":{count}}}"
    )
}

/// The spans of one sort.
fn write_spans<W: Write>(alloc: Global, out: &mut W, name: &str, spans: &[Span]) -> io::Result<()> {
    let count = spans.len();
    let Some(span) = longest(spans) else {
        return writeln!(out, "{{\"spans\":\"{name}\",\"count\":0}}");
    };
    let task = span.task;
    let sorted = entries_of(alloc, spans).map_err(no_memory)?;
    let sorted_ticks = ticks_of(alloc, spans).map_err(no_memory)?;
    let entries = Quantiles(&sorted);
    let ticks = Quantiles(&sorted_ticks);
    writeln!(
        out,
        "{{\"spans\":\"{name}\",\"count\":{count},\"longest\":{task},\"entries\":{entries},\"ticks\":{ticks}}}"
    )?;
    let bars = bars_of(alloc, &sorted).map_err(no_memory)?;
    for bar in &bars {
        write_bar(out, name, bar)?;
    }
    Ok(())
}

/// The tasks that waited longest, so many of them, the longest wait first.
fn write_top<W: Write>(alloc: Global, out: &mut W, spans: &[Span], top: u64) -> io::Result<()> {
    let order = longest_first(alloc, spans).map_err(no_memory)?;
    let mut left = top;
    for (entries, task, ticks) in &order {
        if left == 0 {
            return Ok(());
        }
        left -= 1;
        writeln!(
            out,
            "{{\"waited\":{task},\"entries\":{entries},\"ticks\":{ticks}}}"
        )?;
    }
    Ok(())
}

/// The workers of each slot.
fn write_workers<W: Write>(alloc: Global, out: &mut W, runs: &[Span]) -> io::Result<()> {
    let slots = slots_of(alloc, runs).map_err(no_memory)?;
    for w in &slots {
        let (tasks, busy) = work_of(runs, SlotId(*w));
        writeln!(out, "{{\"slot\":{w},\"tasks\":{tasks},\"busy\":{busy}}}")?;
    }
    Ok(())
}

/// The whole record.
fn write_whole<W: Write>(out: &mut W, stats: &Stats) -> io::Result<()> {
    let entries = stats.tables().steps;
    let opened = stats.opened();
    let left = stats.left();
    let largest = stats.tables().largest;
    let queue = stats.longest().tasks;
    let queue_at = stats.longest().number;
    let refusals = stats.refusals();
    let full = refusals.full;
    let shut_down = refusals.shut_down;
    let no_worker = refusals.no_worker;
    writeln!(
        out,
        "{{\"entries\":{entries},\"opened\":{opened},\"left\":{left},\"largest\":{largest},\"longest_queue\":{queue},\"longest_queue_at\":{queue_at},\"refused_full\":{full},\"refused_shut_down\":{shut_down},\"refused_no_worker\":{no_worker}}}"
    )
}

/// Writes what a record tells in numbers, with so many of the tasks that waited longest.
pub(crate) fn write_json<W: Write>(
    alloc: Global,
    out: &mut W,
    stats: &Stats,
    top: u64,
) -> io::Result<()> {
    write_whole(out, stats)?;
    let tasks = &stats.tables().tasks;
    write_fates(out, "plain", Sort::Plain, tasks)?;
    write_fates(out, "future", Sort::Future, tasks)?;
    write_fates(out, "group", Sort::Group, tasks)?;
    write_spans(alloc, out, "waits", stats.waits())?;
    write_top(alloc, out, stats.waits(), top)?;
    write_spans(alloc, out, "runs", stats.runs())?;
    write_workers(alloc, out, stats.runs())
}
