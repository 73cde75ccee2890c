//! Each call of a pool without tasks, with ample memory and where one allocation fails.

use crate::harness::calls::Call;
use crate::harness::lives::lives_again;
use crate::harness::scripts::{Deal, LIFE, Life, ONE_WORKER, Step, View};
use std::test::Fail;
use tp_types::configs::Config;
use tp_types::ids::TaskId;
use tp_types::refusals::PoolError;
use tp_types::states::RunState;

const UNKNOWN: PoolError = PoolError::UnknownTask;

const NONE: TaskId = TaskId(0);

// Each call, what it answers with ample memory on a pool without tasks, and how many receipts its pass has then.
const CALLS: [Step; 18] = [
    Step::Deal(Deal::Counts(Call::Core(2), Ok(true), 1)),
    Step::Deal(Deal::Counts(Call::Maximum(64), Ok(true), 2)),
    Step::Deal(Deal::Counts(Call::Keep(8), Ok(true), 3)),
    Step::Deal(Deal::Counts(Call::CoreTimeout(true), Ok(true), 4)),
    Step::Deal(Deal::Counts(Call::Tick(3), Ok(true), 5)),
    Step::Deal(Deal::Counts(Call::Purge(0), Ok(true), 6)),
    Step::Deal(Deal::Counts(Call::Remove(NONE), Err(UNKNOWN), 6)),
    Step::Deal(Deal::Counts(Call::Cancel(NONE, true, true), Err(UNKNOWN), 6)),
    Step::Deal(Deal::Counts(Call::TakeDone(4, NONE), Err(PoolError::NotThere), 6)),
    Step::Deal(Deal::Counts(Call::AwaitDone(4), Err(PoolError::NothingOpen), 6)),
    Step::Deal(Deal::Counts(Call::Result(NONE), Err(UNKNOWN), 6)),
    Step::Deal(Deal::Counts(Call::AwaitResult(NONE, 0), Err(UNKNOWN), 6)),
    Step::Deal(Deal::Counts(Call::WaitStep(5, 6), Ok(true), 6)),
    Step::Deal(Deal::Counts(Call::Shutdown, Ok(true), 9)),
    Step::Deal(Deal::Counts(Call::Stop(0, 0), Ok(true), 10)),
    Step::Deal(Deal::Counts(Call::Await(0), Ok(true), 10)),
    Step::Deal(Deal::Counts(Call::Sees(RunState::Terminated), Ok(true), 10)),
    Step::Is(View::Now(3)),
];

static EACH_CALL: Life = Life {
    settings: Config {
        maximum: 2,
        record_limit: 64,
        ..ONE_WORKER
    },
    first: &CALLS,
    ..LIFE
};

// With ample memory each call succeeds. Where any one allocation of a call fails, the call answers 4 and has changed nothing. Made once
// more, it succeeds.
#[test]
fn ample_memory_succeeds(rt: HostRuntime) -> Result<(), Fail> {
    lives_again(rt, rt.alloc(), &EACH_CALL)
}
