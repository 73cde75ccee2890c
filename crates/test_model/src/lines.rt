//! Each form of line once. The texts are those of the worked examples, and the table of texts has the forms that no
//! example shows.

use crate::compare::same;
use std::alloc::{AllocError, Global};
use std::process::Abort;
use tp_record::entries::{
    Ask, Did, Entry, Failed, Grown, Looked, Offered, Opened, Ruled, Seconded, Started, Took,
};
use tp_text::ends::{write_back, write_counts, write_fate, write_refusal, write_state};
use tp_text::entries::write_entry;
use tp_text::numbers::index;
use tp_text::printing::Output;
use tp_text::words::first_word;
use tp_types::configs::Verdict;
use tp_types::ids::{SlotId, TaskId};
use tp_types::refusals::PoolError;
use tp_types::states::{Counts, RunState};
use tp_types::tasks::{Fate, Kind};

const TASK_0: TaskId = TaskId(0);

const TASK_1: TaskId = TaskId(1);

const TASK_2: TaskId = TaskId(2);

const SLOT_0: SlotId = SlotId(0);

const SLOT_1: SlotId = SlotId(1);

// The ask of an entry is not written.
fn entry(by: u32, did: Did) -> Entry {
    Entry {
        by,
        ask: Ask::Tidy,
        did,
    }
}

static SUBMISSIONS_AND_LOOKS: [(Did, &str); 10] = [
    (
        Did::Submit(TASK_0, Kind::Plain, 0, Looked::Reserve(SLOT_0)),
        "1 submit t0 plain reserve w0\n",
    ),
    (
        Did::Submit(TASK_1, Kind::Future, 0, Looked::Queue),
        "2 submit t1 future queue\n",
    ),
    (
        Did::Submit(TASK_0, Kind::Group(3), 0, Looked::Reserve(SLOT_0)),
        "1 submit t0 group 3 reserve w0\n",
    ),
    (
        Did::Submit(TASK_2, Kind::Plain, 0, Looked::Refuse),
        "10 submit t2 plain refuse\n",
    ),
    (
        Did::Submit(TASK_1, Kind::Plain, 5, Looked::Queue),
        "2 submit t1 plain prio 5 queue\n",
    ),
    (
        Did::Submit(TASK_2, Kind::Group(3), 1, Looked::Reserve(SLOT_1)),
        "3 submit t2 group 3 prio 1 reserve w1\n",
    ),
    (
        Did::Submit(TASK_0, Kind::Future, u32::MAX, Looked::Refuse),
        "4 submit t0 future prio 4294967295 refuse\n",
    ),
    (Did::Look(TASK_2, Looked::Queue), "9 look t2 queue\n"),
    (
        Did::Look(TASK_2, Looked::Reserve(SLOT_1)),
        "9 look t2 reserve w1\n",
    ),
    (Did::Look(TASK_2, Looked::Refuse), "9 look t2 refuse\n"),
];

static OFFERS_AND_GROWTH: [(Did, &str); 8] = [
    (Did::Offer(TASK_1, Offered::Queued), "3 offer t1 queued\n"),
    (
        Did::Offer(TASK_1, Offered::Hand(SLOT_0)),
        "10 offer t1 hand w0\n",
    ),
    (Did::Offer(TASK_2, Offered::Full), "6 offer t2 full\n"),
    (Did::Second(TASK_1, Seconded::Stay), "4 second t1 stay\n"),
    (
        Did::Second(TASK_0, Seconded::StayReserve(SLOT_0)),
        "3 second t0 stay reserve w0\n",
    ),
    (Did::Second(TASK_1, Seconded::Back), "5 second t1 back\n"),
    (
        Did::Grow(TASK_2, Grown::Reserve(SLOT_1)),
        "7 grow t2 reserve w1\n",
    ),
    (Did::Grow(TASK_2, Grown::Refuse), "7 grow t2 refuse\n"),
];

static VERDICTS: [(Did, &str); 8] = [
    (
        Did::Verdict(TASK_1, Verdict::Abort, Ruled::Rejected),
        "6 verdict t1 abort rejected\n",
    ),
    (
        Did::Verdict(TASK_1, Verdict::CallerRuns, Ruled::Caller),
        "7 verdict t1 callerruns caller\n",
    ),
    (
        Did::Verdict(TASK_1, Verdict::CallerRuns, Ruled::Skip),
        "8 verdict t1 callerruns skip\n",
    ),
    (
        Did::Verdict(TASK_1, Verdict::Discard, Ruled::Discarded),
        "7 verdict t1 discard discarded\n",
    ),
    (
        Did::Verdict(TASK_1, Verdict::DiscardOldest, Ruled::Retry),
        "7 verdict t1 discardoldest retry\n",
    ),
    (
        Did::Verdict(TASK_2, Verdict::DiscardOldest, Ruled::RetryDrop(TASK_1)),
        "8 verdict t2 discardoldest retry drop t1\n",
    ),
    (Did::CallerEnd(TASK_1, Ok(2)), "8 callerend t1 value 2\n"),
    (Did::CallerEnd(TASK_1, Err(7)), "8 callerend t1 fault 7\n"),
];

static SLOTS: [(Did, &str); 17] = [
    (Did::Open(SLOT_0, Opened::Live), "2 open w0 live\n"),
    (Did::Open(SLOT_0, Opened::GivenUp), "8 open w0 givenup\n"),
    (
        Did::Open(SLOT_0, Opened::GivenUpRefuse(TASK_0)),
        "3 open w0 givenup t0 refuse\n",
    ),
    (Did::Fail(SLOT_0, Failed::Nothing), "5 fail w0 none\n"),
    (
        Did::Fail(SLOT_0, Failed::Offer(TASK_0)),
        "2 fail w0 t0 offer\n",
    ),
    (
        Did::Fail(SLOT_0, Failed::Refuse(TASK_0)),
        "8 fail w0 t0 refuse\n",
    ),
    (Did::Take(SLOT_0, Took::Held(TASK_0)), "3 take w0 held t0\n"),
    (Did::Take(SLOT_0, Took::Head(TASK_1)), "9 take w0 head t1\n"),
    (Did::Take(SLOT_0, Took::Leave), "9 take w0 leave\n"),
    (Did::Take(SLOT_0, Took::Idle), "8 take w0 idle\n"),
    (Did::Begin(SLOT_0, Started::Run(TASK_0)), "4 begin w0 t0\n"),
    (
        Did::Begin(SLOT_0, Started::Skip(TASK_1)),
        "12 begin w0 skip t1\n",
    ),
    (Did::End(SLOT_0, TASK_0, Ok(5)), "5 end w0 t0 value 5\n"),
    (Did::End(SLOT_0, TASK_0, Ok(-5)), "5 end w0 t0 value -5\n"),
    (Did::End(SLOT_0, TASK_0, Err(7)), "5 end w0 t0 fault 7\n"),
    (Did::Leave(SLOT_0, None), "6 leave w0\n"),
    (Did::Leave(SLOT_0, Some(SLOT_0)), "6 leave w0 reserve w0\n"),
];

static POOLS: [(Did, &str); 20] = [
    (Did::Shutdown, "3 shutdown\n"),
    (Did::Stop(0), "7 stop drained 0\n"),
    (Did::Tidy, "12 tidy\n"),
    (Did::Ended, "13 ended\n"),
    (Did::Remove(TASK_1, true), "13 remove t1 yes\n"),
    (Did::Remove(TASK_1, false), "14 remove t1 no\n"),
    (Did::Purge(1), "11 purge 1\n"),
    (Did::Cancel(TASK_1, false, true), "5 cancel t1 yes\n"),
    (Did::Cancel(TASK_1, false, false), "6 cancel t1 no\n"),
    (Did::Cancel(TASK_2, true, true), "21 cancel t2 flag yes\n"),
    (Did::Cancel(TASK_2, true, false), "22 cancel t2 flag no\n"),
    (Did::TakeDone(3, TASK_1), "10 takedone 3 t1\n"),
    (Did::Core(3, 2), "7 core 3 add 2\n"),
    (Did::Maximum(1), "23 max 1\n"),
    (Did::Keep(7), "11 keep 7\n"),
    (Did::CoreTimeout(true), "12 coretimeout on\n"),
    (Did::CoreTimeout(false), "12 coretimeout off\n"),
    (Did::Tick(5), "8 tick 5\n"),
    (Did::Prestart(Some(SLOT_0)), "1 prestart reserve w0\n"),
    (Did::Prestart(None), "10 prestart none\n"),
];

static REFUSALS: [(PoolError, &str); 5] = [
    (PoolError::NotThere, "refused 8 NotThere\n"),
    (PoolError::ClockBack, "refused 10 ClockBack\n"),
    (PoolError::BadLine(10), "refused 23 BadLine 10\n"),
    (PoolError::BadEntry(5), "refused 24 BadEntry 5\n"),
    (PoolError::Faulted(7), "refused 14 Faulted\n"),
];

static FATES: [(TaskId, Option<Fate>, &str); 5] = [
    (TASK_0, Some(Fate::Run), "t0 run\n"),
    (TASK_1, Some(Fate::RunByCaller), "t1 caller\n"),
    (TASK_2, Some(Fate::Cancelled), "t2 cancelled\n"),
    (TaskId(3), Some(Fate::HandedBack), "t3 handedback\n"),
    (TASK_1, None, "t1 open\n"),
];

const COUNTS: Counts = Counts {
    submitted: 1,
    run: 2,
    caller: 3,
    rejected: 4,
    discarded: 5,
    handedback: 6,
    removed: 7,
    cancelled: 8,
    completed: 9,
    queued: 10,
    live: 11,
    largest: 12,
};

/// What a line says.
#[derive(Clone, Copy)]
enum Said {
    /// The number of an entry, its pass and its answer.
    Entry(usize, u32, Did),
    /// The tasks that a stop hands back.
    Back(&'static [TaskId]),
    Refusal(PoolError),
    Fate(TaskId, Option<Fate>),
    State(RunState),
    Counts(Counts),
}

/// Writes a line behind what stands in a text.
fn write_line(text: &mut String, said: &Said) -> Result<(), AllocError> {
    match said {
        Said::Entry(number, by, did) => write_entry(text, *number, &entry(*by, *did)),
        Said::Back(tasks) => write_back(text, tasks),
        Said::Refusal(refusal) => write_refusal(text, *refusal),
        Said::Fate(t, fate) => write_fate(text, *t, *fate),
        Said::State(state) => write_state(text, *state),
        Said::Counts(counts) => write_counts(text, counts),
    }
}

/// The text of these lines.
fn text_of(alloc: Global, lines: &[Said]) -> Result<String, AllocError> {
    let mut text = String::new(alloc);
    for said in lines {
        write_line(&mut text, said)?;
    }
    Ok(text)
}

/// These lines are written so; where there is no memory to write them, nothing is.
fn writes(rt: &impl Abort, at: usize, alloc: Global, lines: &[Said], text: &str) {
    match text_of(alloc, lines) {
        Ok(written) => same(rt, at, &written.as_str(), &text),
        Err(_) => same(rt, at, &"", &text),
    }
}

/// This line is written so.
fn writes_one(rt: &impl Abort, at: usize, alloc: Global, said: Said, text: &str) {
    writes(rt, at, alloc, &[said], text);
}

/// Each entry of a table is written so, under the number that its text begins with.
fn writes_each(rt: &impl Abort, alloc: Global, table: &[(Did, &str)]) {
    for (did, text) in table {
        let (word, _) = first_word(text);
        let number = index(word).unwrap_or(0);
        writes_one(rt, number, alloc, Said::Entry(number, 0, *did), text);
    }
}

#[test]
fn entries(rt: HostRuntime) {
    let alloc = rt.alloc();
    writes_each(&rt, alloc, &SUBMISSIONS_AND_LOOKS);
    writes_each(&rt, alloc, &OFFERS_AND_GROWTH);
    writes_each(&rt, alloc, &VERDICTS);
    writes_each(&rt, alloc, &SLOTS);
    writes_each(&rt, alloc, &POOLS);
}

#[test]
fn refusals_and_fates(rt: HostRuntime) {
    for (at, (refusal, text)) in REFUSALS.iter().enumerate() {
        writes_one(&rt, at, rt.alloc(), Said::Refusal(*refusal), text);
    }
    for (at, (task, fate, text)) in FATES.iter().enumerate() {
        writes_one(&rt, at, rt.alloc(), Said::Fate(*task, *fate), text);
    }
}

/// Lines one behind another. A pass stands before the words, and a stop names the tasks that it hands back.
static LINES: [(&[Said], &str); 3] = [
    (
        &[
            Said::Entry(2, 0, Did::Open(SLOT_0, Opened::Live)),
            Said::Entry(3, 1, Did::Take(SLOT_0, Took::Held(TASK_0))),
        ],
        "2 open w0 live\n3 p1 take w0 held t0\n",
    ),
    (&[Said::Back(&[TASK_2, TASK_0])], "back t2 t0\n"),
    (
        &[Said::State(RunState::Terminated), Said::Counts(COUNTS)],
        "state terminated\ncounts submitted=1 run=2 caller=3 rejected=4 discarded=5 handedback=6 removed=7 cancelled=8 completed=9 queued=10 live=11 largest=12\n",
    ),
];

#[test]
fn lines_one_behind_another(rt: HostRuntime) {
    for (at, (lines, text)) in LINES.iter().enumerate() {
        writes(&rt, at, rt.alloc(), lines, text);
    }
}

/// A pool's output: a stop of no task and one of a task, a refusal, a fate, the state and the counts.
fn fill(output: &mut Output) -> Result<(), PoolError> {
    output.entry(7, &entry(0, Did::Stop(0)), &[])?;
    output.entry(11, &entry(0, Did::Stop(1)), &[TASK_2])?;
    output.refusal(PoolError::NotThere)?;
    output.fate(TASK_1, Some(Fate::Run))?;
    output.state(RunState::Running)?;
    output.counts(&Counts::default())
}

const FILLED: &str =
    "7 stop drained 0\n11 stop drained 1\nback t2\nrefused 8 NotThere\nt1 run\nstate running\ncounts submitted=0 run=0 caller=0 rejected=0 discarded=0 handedback=0 removed=0 cancelled=0 completed=0 queued=0 live=0 largest=0\n";

/// Whether an output that is filled has all its lines.
fn is_filled(alloc: Global) -> Result<bool, PoolError> {
    let mut output = Output::new(alloc);
    fill(&mut output)?;
    Ok(output.written.as_slice() == FILLED.as_bytes())
}

#[test]
fn an_output_grows_line_by_line(rt: HostRuntime) {
    same(&rt, 0, &is_filled(rt.alloc()), &Ok(true));
}
