//! What became of each job of a closed pool: by what its callers saw, by its own count and its value, and by the record.

use crate::calls::{Event, Seen};
use crate::chores::Sign;
use crate::lives::{Out, Shift};
use crate::mishaps::{Mishap, ensure};
use crate::plans::Plan;
use std::sync::{Arc, Wait};
use tp_audit_plain::plain::audit_plain;
use tp_audit_plain::summary::Flaw;
use tp_life::prelude::*;
use tp_pool::task_of;
use tp_record::entries::{Did, Entry, Ruled, Seconded, Started};
use tp_record::packed::unpacked;

// The number of the pass with which a life is ended. Those of its callers come next, and then those of the pool's own.
const LAST: u32 = 0;

/// Why who ended a life stopped its pool: its core size is 0, or the worker that it asked for with a pass of its own was not made, or its
/// record has no room for another worker, or no record says it.
#[derive(Clone, Copy, PartialEq, Eq)]
pub enum Cause {
    CoreZero,
    InVain,
    Full,
    Untold,
}

/// What a pool came to, or several, in the order in which it is told.
pub type Totals = [u64; 14];

/// A job, as its callers, itself and the record tell of it.
#[derive(Clone, Copy, Default)]
pub struct Row {
    number: u32,
    // Its task, where it got one.
    task: Option<TaskId>,
    // With which fate it came back, where it did: with none where its submission was refused before the first step.
    back: Option<Option<Fate>>,
    // Its value, where one is found.
    value: Option<u32>,
    // How often it ran, by its own count.
    ran: u64,
    // How often the record begins it, and its fate there.
    begun: u64,
    fate: Option<Fate>,
}

impl Row {
    // Where this is not so of it, it is what differs.
    fn ensure(&self, so: bool, differs: &'static str) -> Result<(), Mishap> {
        so.then_some(()).ok_or(Mishap::Job(self.number, differs))
    }

    // It comes back, with this fate or with none.
    fn comes_back(&mut self, fate: Option<Fate>) -> Result<(), Mishap> {
        self.ensure(self.back.is_none(), "came back twice")?;
        self.back = Some(fate);
        Ok(())
    }

    // Notes what a caller saw of it, once the pool is closed.
    fn note<R: Wait>(&mut self, rt: &R, seen: Seen) -> Result<(), Mishap> {
        match seen {
            Seen::Entered(admitted, value) => {
                self.task = Some(task_of(admitted));
                self.value = value.take(rt);
            }
            Seen::Refused(PoolError::Rejected(t), came_back) => {
                self.task = Some(t);
                if came_back {
                    self.comes_back(Some(Fate::Rejected))?;
                }
            }
            Seen::Refused(PoolError::BookFull, true) => self.comes_back(None)?,
            Seen::Refused(error, _) => return Err(Mishap::Refused(error)),
            Seen::Back(fate) => self.comes_back(Some(fate))?,
        }
        Ok(())
    }

    // It ran once at most and gave its value then, or came back.
    fn is_sound(&self, plan: &Plan) -> Result<(), Mishap> {
        let may_run = self.task.is_some() && self.back.is_none();
        let runs = self.ran <= u64::from(may_run);
        self.ensure(runs, "ran twice, or ran and came back")?;
        let gives = self.ran == 1 && plan.outcome(self.number).is_ok();
        let value = gives.then_some(self.number);
        self.ensure(self.value == value, "gave another value")
    }

    // The record begins it, or ends it with the outcome of its body.
    fn follow(&mut self, plan: &Plan, did: Did) -> Result<(), Mishap> {
        match did {
            Did::Begin(_, Started::Run(t)) | Did::Verdict(t, _, Ruled::Caller) => {
                let begun = u64::from(self.task == Some(t));
                self.begun = self.begun.saturating_add(begun);
                Ok(())
            }
            Did::End(_, t, outcome) | Did::CallerEnd(t, outcome) => {
                let same = self.task != Some(t) || outcome == plan.outcome(self.number);
                self.ensure(same, "ended with another outcome")
            }
            _ => Ok(()),
        }
    }

    // It was begun, and came back, as its fate in the record says. Who ended the life may have dropped it.
    fn agrees(&self, dropped: bool) -> Result<(), Mishap> {
        let (begun, comes_back) = match self.fate {
            Some(Fate::Run | Fate::RunByCaller) => (self.begun == 1, false),
            Some(Fate::Cancelled) => (self.begun <= 1, false),
            Some(Fate::Discarded) => (self.begun == 0, false),
            Some(Fate::HandedBack) => (self.begun == 0, !dropped),
            Some(Fate::Rejected | Fate::Removed) => (self.begun == 0, true),
            None => (self.begun == 0 && self.task.is_none(), true),
        };
        self.ensure(begun && self.ran == self.begun, "ran against its fate")?;
        let back = comes_back.then_some(self.fate);
        self.ensure(self.back == back, "came back against its fate")
    }
}

// Each task is one job.
fn are_jobs(rows: &[Row], submitted: u32) -> Result<(), Mishap> {
    let tasks = rows.iter().filter(|row| row.task.is_some()).count();
    ensure(tasks == submitted as usize, "not as many jobs have a task")?;
    for t in 0..submitted {
        let is_job = rows.iter().any(|row| row.task == Some(TaskId(t)));
        ensure(is_job, "a task is no job")?;
    }
    Ok(())
}

// Why who ended this pool's life stopped it, by its record; None where he did not. Owed then: six entries a task, seven for pool and worker.
fn cause_of(plan: &Plan, entries: &[Entry]) -> Result<Option<Cause>, Mishap> {
    let (mut core, mut refused) = (plan.settings.core, false);
    for (steps, entry) in (0u64..).zip(entries) {
        match entry.did {
            Did::Core(size, _) => core = size,
            Did::Fail(_, _) => refused = plan.callers < entry.by,
            Did::Open(_, _) => refused = false,
            Did::Stop(queued) if entry.by == LAST => {
                let owed = u64::from(queued).saturating_mul(6).saturating_add(7);
                let full = u64::from(plan.settings.record_limit) < steps.saturating_add(owed);
                return match (core, refused) {
                    (0, _) => Ok(Some(Cause::CoreZero)),
                    (_, true) => Ok(Some(Cause::InVain)),
                    _ if full => Ok(Some(Cause::Full)),
                    _ => Err(Mishap::Differs("tasks were left to nobody")),
                };
            }
            _ => {}
        }
    }
    Ok(None)
}

/// What is told of a closed pool.
pub trait Judged: Drop {
    /// Its counters, its steps, and how many tasks came back at their second look, where a record says so.
    fn sums(&self) -> (Counts, u64, usize);

    /// It accounts for each job. Why who ended the life stopped the pool, where he did.
    fn judge(&self, shift: &Shift, rows: &mut [Row]) -> Result<Option<Cause>, Mishap>;
}

impl Judged for Report {
    fn sums(&self) -> (Counts, u64, usize) {
        let entries = self.entries.iter();
        let back = entries.filter(|packed| matches!(
            packed.unpack().did,
            Did::Second(_, Seconded::Back)
        ));
        (self.counts, self.entries.len() as u64, back.count())
    }

    fn judge(&self, shift: &Shift, rows: &mut [Row]) -> Result<Option<Cause>, Mishap> {
        let plan = &shift.plan;
        plan.settings.check()?;
        let entries = unpacked(shift.alloc, &self.entries)?;
        let summary = match audit_plain(shift.alloc, &plan.settings, &entries) {
            Ok(summary) => summary,
            Err(Flaw::At(entry)) => return Err(Mishap::Illegal(entry)),
            Err(Flaw::NoMemory) => return Err(Mishap::Refused(PoolError::NoMemory)),
        };
        let same = summary.counts == self.counts && summary.state == RunState::Terminated;
        ensure(same, "the report's counters are not the record's")?;
        let cause = cause_of(plan, &entries)?;
        for row in rows {
            for entry in &entries {
                row.follow(plan, entry.did)?;
            }
            if let Some(t) = row.task {
                row.fate = summary.fates.get(t.0 as usize).copied().flatten();
            }
            row.agrees(cause.is_some())?;
        }
        Ok(cause)
    }
}

// How many jobs came back with this fate.
fn back_as(rows: &[Row], fate: Fate) -> usize {
    let back = Some(Some(fate));
    rows.iter().filter(|row| row.back == back).count()
}

impl Judged for TallyReport {
    fn sums(&self) -> (Counts, u64, usize) {
        (self.counts, self.steps, 0)
    }

    // Nothing is refused for want of room. A job that was cancelled may have run.
    fn judge(&self, shift: &Shift, rows: &mut [Row]) -> Result<Option<Cause>, Mishap> {
        let counts = &self.counts;
        let all = self.unended == 0 && counts.submitted == shift.plan.jobs;
        ensure(all, "not each job is a task with a fate")?;
        let ran = rows.iter().filter(|row| row.ran == 1).count() as u64;
        let least = u64::from(counts.run) + u64::from(counts.caller);
        let runs = least <= ran && ran <= least + u64::from(counts.cancelled);
        ensure(runs, "the counters of runs are not the jobs' own")?;
        let handed = back_as(rows, Fate::HandedBack);
        let dropped = handed == 0 && counts.handedback != 0;
        let returns = back_as(rows, Fate::Rejected) == counts.rejected as usize
            && back_as(rows, Fate::Removed) == counts.removed as usize
            && (dropped || handed == counts.handedback as usize);
        ensure(returns, "the counters of returns are not the jobs' own")?;
        Ok(dropped.then_some(Cause::Untold))
    }
}

// The jobs of a closed pool with these counters, with what its callers saw of them. Each cancel that had effect cancelled a task.
fn rows_of<R: Wait>(
    rt: &R,
    shift: &Shift,
    outs: Vec<Out>,
    counts: &Counts,
) -> Result<Vec<Row>, Mishap> {
    let (mut rows, mut cancels) = (Vec::new(shift.alloc), 0u32);
    for number in 0..shift.plan.jobs {
        rows.push(Row {
            number,
            ran: shift.signs.count(Sign::Job(number)),
            ..Row::default()
        })?;
    }
    for out in outs {
        for event in out? {
            match event {
                Event::Cancelled => cancels = cancels.saturating_add(1),
                Event::Job(number, seen) => match rows.get_mut(number as usize) {
                    Some(row) => row.note(rt, seen)?,
                    None => return Err(Mishap::Job(number, "is no job of the pool")),
                },
            }
        }
    }
    for row in &rows {
        row.is_sound(&shift.plan)?;
    }
    ensure(cancels == counts.cancelled, "a cancel cancelled no task")?;
    are_jobs(&rows, counts.submitted)?;
    Ok(rows)
}

/// What a closed pool came to, by what its callers saw and what is told of it. Each job is accounted for.
pub fn account_for<T: Judged, R: Wait>(
    rt: &R,
    shift: &Shift,
    (outs, report): (Vec<Out>, T),
) -> Result<Totals, Mishap> {
    let Shift { plan, signs, .. } = shift;
    let (counts, steps, back) = report.sums();
    let mut rows = rows_of(rt, shift, outs, &counts)?;
    let cause = report.judge(shift, &mut rows)?;
    let run = plan.run.is_none_or(|run| run == counts.run);
    ensure(run, "another number of jobs ran")?;
    let ended = signs.count(Sign::Ended) == 1;
    ensure(ended, "the terminated hook was not called once")?;
    ensure(Arc::strong_count(signs) == 1, "somebody holds a job yet")?;
    let returned = counts.rejected.saturating_add(counts.removed);
    Ok([
        u64::from(plan.jobs),
        u64::from(counts.run),
        u64::from(counts.caller),
        u64::from(returned.saturating_add(counts.handedback)),
        u64::from(counts.discarded),
        u64::from(counts.cancelled),
        steps,
        back as u64,
        signs.count(Sign::Asked),
        signs.count(Sign::Refused),
        u64::from(cause == Some(Cause::CoreZero)),
        u64::from(cause == Some(Cause::InVain)),
        u64::from(cause == Some(Cause::Full)),
        u64::from(cause == Some(Cause::Untold)),
    ])
}
