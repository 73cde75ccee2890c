//! Worked rows that tests know by their names; the others stand in `data/`. Each is a text: a scenario or a record, an empty line, and
//! what is written of it. Where that is refused, the line of the refusal stands last. `tools/bindings.py` takes rows from here.

use crate::rows::{config_of, entries_of};
use std::alloc::Global;
use tp_record::entries::Entry;
use tp_types::configs::Config;
use tp_types::refusals::PoolError;

/// The scenarios that are played to their ends.
pub static PLAYED: [&str; 3] = [ROW_01, ROW_04, ROW_12];

pub const ROW_01: &str = "\
pool 1 1 unbounded keep 0 abort
submit plain 5
open 0
take 0
begin 0
end 0

1 submit t0 plain reserve w0
2 open w0 live
3 take w0 held t0
4 begin w0 t0
5 end w0 t0 value 5
t0 run
state running
counts submitted=1 run=1 caller=0 rejected=0 discarded=0 handedback=0 removed=0 cancelled=0 completed=1 queued=0 live=1 largest=1
";

/// Every step that takes memory: submissions of each kind, until the tables grow, a larger maximum and a stop that hands tasks back.
pub const GROWING: &str = "\
pool 1 1 unbounded keep 0 abort
submit plain 1
submit future 2
offer 1
second 1
submit group 3 3
offer 2
second 2
submit group 4 4
offer 3
second 3
submit plain 5
offer 4
second 4
max 40
core 2
prestart
open 0
take 0
begin 0
end 0
take 0
begin 0
end 0
take 0
begin 0
end 0
takedone 3
stop
take 0
open 1
tidy
ended

1 submit t0 plain reserve w0
2 submit t1 future queue
3 offer t1 queued
4 second t1 stay
5 submit t2 group 3 queue
6 offer t2 queued
7 second t2 stay
8 submit t3 group 4 queue
9 offer t3 queued
10 second t3 stay
11 submit t4 plain queue
12 offer t4 queued
13 second t4 stay
14 max 40
15 core 2 add 1
16 prestart reserve w1
17 open w0 live
18 take w0 held t0
19 begin w0 t0
20 end w0 t0 value 1
21 take w0 head t1
22 begin w0 t1
23 end w0 t1 value 2
24 take w0 head t2
25 begin w0 t2
26 end w0 t2 value 3
27 takedone 3 t2
28 stop drained 2
back t3 t4
29 take w0 leave
30 open w1 givenup
31 tidy
32 ended
t0 run
t1 run
t2 run
t3 handedback
t4 handedback
state terminated
counts submitted=5 run=3 caller=0 rejected=0 discarded=0 handedback=2 removed=0 cancelled=0 completed=3 queued=0 live=0 largest=1
";

pub const ROW_04: &str = "\
pool 1 2 bounded 1 keep 0 abort
submit plain 1
submit plain 2
offer 1
second 1
submit plain 3
offer 2
grow 2
submit plain 4
offer 3
grow 3
verdict 3 abort

1 submit t0 plain reserve w0
2 submit t1 plain queue
3 offer t1 queued
4 second t1 stay
5 submit t2 plain queue
6 offer t2 full
7 grow t2 reserve w1
8 submit t3 plain queue
9 offer t3 full
10 grow t3 refuse
11 verdict t3 abort rejected
t0 open
t1 open
t2 open
t3 rejected
state running
counts submitted=4 run=0 caller=0 rejected=1 discarded=0 handedback=0 removed=0 cancelled=0 completed=0 queued=1 live=0 largest=0
";

pub const ROW_12: &str = "\
pool 1 1 bounded 1 keep 0 discardoldest
submit plain 1
submit plain 2
offer 1
second 1
submit plain 3
offer 2
grow 2
verdict 2 discardoldest
look 2
offer 2
second 2

1 submit t0 plain reserve w0
2 submit t1 plain queue
3 offer t1 queued
4 second t1 stay
5 submit t2 plain queue
6 offer t2 full
7 grow t2 refuse
8 verdict t2 discardoldest retry drop t1
9 look t2 queue
10 offer t2 queued
11 second t2 stay
t0 open
t1 discarded
t2 open
state running
counts submitted=3 run=0 caller=0 rejected=0 discarded=1 handedback=0 removed=0 cancelled=0 completed=0 queued=1 live=0 largest=0
";

/// Row 21's legal text: the shortest life of a task.
pub const LEGAL: &str = "\
tprecord 1
pool 1 1 unbounded keep 0 abort
1 submit t0 plain reserve w0
2 open w0 live
3 take w0 held t0
4 begin w0 t0
5 end w0 t0 value 5
end 5

legal 5
state running
counts submitted=1 run=1 caller=0 rejected=0 discarded=0 handedback=0 removed=0 cancelled=0 completed=1 queued=0 live=1 largest=1
";

/// The same in the second form.
pub const SECOND_FORM: &str = "\
tprecord 2
pool 1 1 unbounded keep 0 abort
1 submit t0 plain reserve w0
2 open w0 live
3 take w0 held t0
4 begin w0 t0
5 end w0 t0 value 5
end 5

legal 5
state running
counts submitted=1 run=1 caller=0 rejected=0 discarded=0 handedback=0 removed=0 cancelled=0 completed=1 queued=0 live=1 largest=1
";

/// A factory that refuses always, and then a stop.
pub const ROW_35: &str = "\
tprecord 1
pool 1 1 unbounded keep 0 abort
1 submit t0 plain reserve w0
2 fail w0 t0 offer
3 offer t0 queued
4 second t0 stay reserve w0
5 fail w0 none
6 stop drained 1
7 tidy
8 ended
end 8

legal 8
state terminated
counts submitted=1 run=0 caller=0 rejected=0 discarded=0 handedback=1 removed=0 cancelled=0 completed=0 queued=0 live=0 largest=0
";

/// A priority queue of one worker: of three tasks that wait the least priority leaves first, and of equal ones the earlier.
pub const RANKED: &str = "\
tprecord 2
pool 1 1 priority keep 0 abort
1 submit t0 plain reserve w0
2 submit t1 plain prio 5 queue
3 offer t1 queued
4 second t1 stay
5 submit t2 plain prio 2 queue
6 offer t2 queued
7 second t2 stay
8 submit t3 plain prio 5 queue
9 offer t3 queued
10 second t3 stay
11 open w0 live
12 take w0 held t0
13 begin w0 t0
14 end w0 t0 value 0
15 take w0 head t2
16 begin w0 t2
17 end w0 t2 value 2
18 take w0 head t1
19 begin w0 t1
20 end w0 t1 value 1
21 stop drained 1
end 21

legal 21
state stop
counts submitted=4 run=3 caller=0 rejected=0 discarded=0 handedback=1 removed=0 cancelled=0 completed=3 queued=0 live=1 largest=1
";

/// Row 18, whose last line has no line feed, and what is written of it.
pub const ROW_18: (&str, &str) = (
    "\
pool 1 1 unbounded keep 5 abort
submit plain 1
open 0
take 0
begin 0
end 0
take 0
begin 7
begin 0
sub",
    "\
1 submit t0 plain reserve w0
2 open w0 live
3 take w0 held t0
4 begin w0 t0
5 end w0 t0 value 1
6 take w0 idle
refused 7 UnknownSlot
refused 8 NotThere
refused 23 BadLine 10
",
);

/// The configuration of a row's pool, and the entries among the lines that are written of it.
pub fn record_of(alloc: Global, row: &str) -> Result<(Config, Vec<Entry>), PoolError> {
    let (text, output) = row.split_once("\n\n").unwrap_or((row, ""));
    match config_of(text) {
        Some(config) => Ok((config, entries_of(alloc, output)?)),
        None => Err(PoolError::TornRecord),
    }
}
