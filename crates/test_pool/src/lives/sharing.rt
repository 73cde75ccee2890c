//! A job that shares its flag, and keeps it after its end.

use crate::harness::boards::Signal;
use crate::harness::calls::Call;
use crate::harness::chores::Work;
use crate::harness::findings::Finding;
use crate::harness::lives::lives;
use crate::harness::scripts::{Answer, Cue, LIFE, Life, ONE_WORKER, SHUTS_DOWN, Step, TELLS};
use std::test::Fail;
use tp_types::ids::TaskId;
use tp_types::tasks::Kind;

const WAITING: Step = Step::Hand(Kind::Future, Work::Wait, Answer::Accepted);

// One worker runs three jobs. The first shares its flag, the second is cancelled while it runs, and the third runs after that.
static SHARED: [Life; 1] = [Life {
    settings: ONE_WORKER,
    first: &[
        Step::Hand(Kind::Future, Work::Share, Answer::Accepted),
        Step::Get(0, Ok(0)),
        WAITING,
        Step::Cue(Cue::Reaches(Signal::Begun, 1)),
        Step::Call(Call::Cancel(TaskId(1), true, true)),
        TELLS,
        WAITING,
        SHUTS_DOWN,
    ],
    findings: &[
        Finding::Ended(1, Ok(1)),
        Finding::Ended(2, Ok(0)),
        Finding::Hears(false),
    ],
    ..LIFE
}];

// The second job hears of its cancel. The flag that the first job shared does not, nor does the third job.
#[test]
fn shared_flag_hears_no_other_cancel(rt: HostRuntime) -> Result<(), Fail> {
    lives(rt, rt.alloc(), &SHARED)
}
