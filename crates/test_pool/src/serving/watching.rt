//! What a thread sees that watches a pool and makes no step.

use super::HELD_ONE;
use crate::harness::chores::Work;
use crate::harness::findings::Finding;
use crate::harness::lives::lives;
use crate::harness::scripts::{CAME, FIRST, LETS_GO, Life, SHUTS_DOWN, Seen, Step};
use std::test::Fail;
use tp_types::states::RunState;
use tp_types::tasks::Kind;

// Worker 0 is held in task 0 (submit, open, take, begin), and task 1 is queued behind it (submit, offer, second).
const BUSY: Seen = Seen {
    state: RunState::Running,
    steps: 7,
    queued: 1,
    busy: &[(0, 0)],
};

const SHUT: Seen = Seen {
    state: RunState::Shutdown,
    steps: 8,
    ..BUSY
};

const WATCHED: [Step; 7] = [
    FIRST,
    CAME,
    Step::Submit(Kind::Future, Work::End(Ok(1)), 1),
    Step::Watch(BUSY),
    SHUTS_DOWN,
    Step::Watch(SHUT),
    LETS_GO,
];

static SEEN: [Life; 1] = [Life {
    first: &WATCHED,
    findings: &[Finding::Run(2)],
    ..HELD_ONE
}];

#[test]
fn sight_sees_a_pool_at_work(rt: HostRuntime) -> Result<(), Fail> {
    lives(rt, rt.alloc(), &SEEN)
}
