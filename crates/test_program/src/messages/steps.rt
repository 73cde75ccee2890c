//! What is told of refused steps; and the record of a scenario.

ghost use Rattle.std.specs.Prelude.{◌≤◌, length};

use crate::messages::compare::same;
use poolrun_commands::records::Recording;
use poolrun_commands::refusals::Refusals;
use std::alloc::Global;
use std::process::Abort;
use std::test::Fail;
use tp_scenario::listeners::Both;
use tp_scenario::play::play;
use tp_text::watched::WatchedWriter;

const REFUSED: &[u8] = b"pool 1 1 unbounded keep 5 abort limit 64
# one task
take 3
look 0
submit plain 5
open 0
take 0
begin 0
begin 0
cancel 0
core 2
max 0
verdict 0 abort
tick 7
tick 3
coretimeout on
keep 0
takedone 3
tidy
end 0
second 0
";

const ACCEPTED: &[u8] = b"pool 1 1 unbounded keep 5 abort
submit plain 5
open 0
";

const TOLD: &[u8] = b"line 3: take 3: refused 7 UnknownSlot (no slots)
line 4: look 0: refused 6 UnknownTask (no tasks)
line 9: begin 0: refused 8 NotThere (w0 runs t0)
line 10: cancel 0: refused 9 NotFuture (a plain task can't be cancelled)
line 11: core 2: refused 1 BadSizes (core is 0 to the maximum, which is 1)
line 12: max 0: refused 1 BadSizes (max is 1 to 1024, and not below the core, which is 1)
line 13: verdict 0 abort: refused 8 NotThere (t0 is run by w0)
line 15: tick 3: refused 10 ClockBack (the moment is 7)
line 17: keep 0: refused 11 KeepZero (core workers time out, so keep is 1 or more)
line 18: takedone 3: refused 8 NotThere (group 3 has no done task that is not taken)
line 19: tidy: refused 8 NotThere (the state is running, with 1 slots and 0 queued tasks)
line 21: second 0: refused 8 NotThere (t0 owes no second look; t0 has its fate: run)
";

const RECORD: &[u8] = b"tprecord 2
pool 1 1 unbounded keep 5 abort limit 64
1 submit t0 plain reserve w0
2 open w0 live
3 take w0 held t0
4 begin w0 t0
5 tick 7
6 coretimeout on
7 end w0 t0 value 5
end 7
";

/// What is heard of a scenario's play.
#[derive(Drop)]
struct Heard {
    /// Whether each step was accepted.
    is_whole: bool,
    /// Why steps were refused.
    told: Vec<u8>,
    /// The text of the record.
    record: Vec<u8>,
}

/// What is heard of a scenario that is played to its end.
fn hear_play(alloc: Global, text: &[u8]) -> Result<Heard, Fail>
    requires { length text.now ≤ 1048576 }
{
    let mut listener = Both {
        one: Recording::new(alloc),
        other: Refusals::new(alloc, true),
    };
    let played = play(alloc, text, &mut listener);
    played.ending?;
    let mut told = Vec::new(alloc);
    listener.other.write(&mut told);
    let mut record = Vec::new(alloc);
    listener
        .one
        .write(alloc, &mut WatchedWriter::new(&mut record))?;
    Ok(Heard {
        is_whole: listener.other.is_whole,
        told,
        record,
    })
}

/// This was written.
fn is_written(rt: &impl Abort, line: usize, written: &[u8], wanted: &[u8]) {
    let text = str::from_utf8(written).unwrap_or("");
    same(rt, line, &text, &str::from_utf8(wanted).unwrap_or("?"));
}

#[test]
fn tells_why_steps_are_refused(rt: HostRuntime) -> Result<(), Fail> {
    let refused = hear_play(rt.alloc(), REFUSED)?;
    same(&rt, 0, &refused.is_whole, &false);
    is_written(&rt, 1, refused.told.as_slice(), TOLD);
    is_written(&rt, 2, refused.record.as_slice(), RECORD);
    let accepted = hear_play(rt.alloc(), ACCEPTED)?;
    same(&rt, 3, &accepted.is_whole, &true);
    is_written(&rt, 4, accepted.told.as_slice(), b"");
    Ok(())
}
