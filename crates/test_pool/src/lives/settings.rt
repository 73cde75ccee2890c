//! The settings of a pool, and its stop.

use crate::harness::calls::Call;
use crate::harness::findings::{Finding, NO_COUNTS, Row};
use crate::harness::lives::lives;
use crate::harness::scripts::{LIFE, Life, ONE_WORKER, Step, View};
use std::test::Fail;
use tp_record::entries::{Ask, Did};
use tp_types::configs::Config;
use tp_types::ids::TaskId;
use tp_types::refusals::PoolError;

// Each setting once, settings that no pool may have, and calls that want a task where there is none.
const LINES: [Step; 11] = [
    Step::Call(Call::Core(2)),
    Step::Call(Call::Maximum(3)),
    Step::Call(Call::CoreTimeout(true)),
    Step::Call(Call::Purge(0)),
    Step::Refused(Call::Core(4), PoolError::BadSizes),
    Step::Refused(Call::Maximum(1), PoolError::BadSizes),
    Step::Refused(Call::Keep(0), PoolError::KeepZero),
    Step::Refused(Call::Cancel(TaskId(0), true, true), PoolError::UnknownTask),
    Step::Refused(Call::Remove(TaskId(0)), PoolError::UnknownTask),
    Step::Is(View::NoTasks),
    Step::Call(Call::Stop(0, 0)),
];

const RECORD: [Row; 7] = [
    (0, Ask::Core(2), Did::Core(2, 0)),
    (0, Ask::Maximum(3), Did::Maximum(3)),
    (0, Ask::CoreTimeout(true), Did::CoreTimeout(true)),
    (0, Ask::Purge, Did::Purge(0)),
    (0, Ask::Stop, Did::Stop(0)),
    (0, Ask::Tidy, Did::Tidy),
    (0, Ask::Ended, Did::Ended),
];

// One caller changes the settings and stops the pool.
static CHANGED: [Life; 1] = [Life {
    settings: Config {
        maximum: 2,
        ..ONE_WORKER
    },
    first: &LINES,
    findings: &[Finding::Record(&RECORD), Finding::Counts(NO_COUNTS)],
    ..LIFE
}];

#[test]
fn changes_settings(rt: HostRuntime) -> Result<(), Fail> {
    lives(rt, rt.alloc(), &CHANGED)
}
