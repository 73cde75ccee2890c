//! Many jobs, of which one is refused. The earlier ones are cancelled, and it and the later ones are dropped.

use super::HELD_ONE;
use crate::harness::chores::Work;
use crate::harness::findings::Finding;
use crate::harness::lives::lives;
use crate::harness::scripts::{CAME, FIRST, LETS_GO, Life, Many, ONE_WORKER, SHUTS_DOWN, Step};
use std::test::Fail;
use tp_types::configs::{Config, QueueKind};
use tp_types::ids::TaskId;
use tp_types::refusals::PoolError;

const LOOKS: [Work; 3] = [Work::Look, Work::Look, Work::Look];

const REFUSED: PoolError = PoolError::Rejected(TaskId(2));

// One place is left in the queue, so the second of three is rejected.
const ONE_PLACE: Life = Life {
    settings: Config {
        queue: QueueKind::Bounded(1),
        ..ONE_WORKER
    },
    first: &[FIRST, CAME],
    last: &[
        Step::Get(1, Err(PoolError::CancelledTask)),
        LETS_GO,
        SHUTS_DOWN,
    ],
    findings: &[
        Finding::Submitted(3),
        Finding::Run(1),
        Finding::Cancelled(1),
    ],
    ..HELD_ONE
};

static REJECTED: [Life; 2] = [
    Life {
        middle: &[Step::Many(Many::AllRefused(&LOOKS, REFUSED))],
        ..ONE_PLACE
    },
    Life {
        middle: &[Step::Many(Many::Any(&LOOKS, Err(REFUSED)))],
        ..ONE_PLACE
    },
];

#[test]
fn earlier_jobs_are_cancelled(rt: HostRuntime) -> Result<(), Fail> {
    lives(rt, rt.alloc(), &REJECTED)
}

static FULL: [Life; 1] = [Life {
    settings: Config {
        record_limit: 64,
        ..ONE_WORKER
    },
    first: &[
        Step::Many(Many::AllRefused(&[Work::Look; 40], PoolError::BookFull)),
        LETS_GO,
        SHUTS_DOWN,
    ],
    ..HELD_ONE
}];

// The record has no room for so many jobs. A cancel for which it has none either is left undone, and the pool still ends.
#[test]
fn full_record_refuses_many(rt: HostRuntime) -> Result<(), Fail> {
    lives(rt, rt.alloc(), &FULL)
}
