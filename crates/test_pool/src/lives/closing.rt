//! Who closes a pool, and with which passes.

use crate::harness::boards::Signal;
use crate::harness::calls::Call;
use crate::harness::findings::{Finding, NO_COUNTS, Row};
use crate::harness::lives::lives;
use crate::harness::scripts::{LIFE, Life, Refusal, SHUTS_DOWN, Step, Turn, View};
use std::test::Fail;
use tp_record::entries::{Ask, Did};
use tp_types::refusals::PoolError;
use tp_types::states::RunState;

const BEGINNING: [Turn; 3] = [
    (0, Step::Call(Call::Tick(5))),
    (1, Step::Call(Call::Keep(7))),
    (0, Step::Refused(Call::Await(5), PoolError::TimedOut)),
];

const SHUT_DOWN: [Turn; 3] = [
    (0, SHUTS_DOWN),
    (0, Step::Call(Call::Sees(RunState::Shutdown))),
    (1, Step::Call(Call::Sees(RunState::Shutdown))),
];

const AWAITED: [Turn; 2] = [
    (0, Step::Call(Call::Await(0))),
    (0, Step::Is(View::State(RunState::Terminated))),
];

const RECORD_OF_TWO: [Row; 5] = [
    (0, Ask::Tick(5), Did::Tick(5)),
    (1, Ask::Keep(7), Did::Keep(7)),
    (0, Ask::Shutdown, Did::Shutdown),
    (0, Ask::Tidy, Did::Tidy),
    (0, Ask::Ended, Did::Ended),
];

// Two callers in one thread close the pool too early, then with one pass of two, and then with both.
static TWO_CALLERS: [Life; 1] = [Life {
    callers: 2,
    turns: &BEGINNING,
    refusals: &[
        Refusal {
            withholds: false,
            error: PoolError::NotTerminated,
            then: &SHUT_DOWN,
            exchanged: false,
        },
        Refusal {
            withholds: true,
            error: PoolError::MissingPass,
            then: &AWAITED,
            exchanged: false,
        },
    ],
    findings: &[
        Finding::Record(&RECORD_OF_TWO),
        Finding::Counts(NO_COUNTS),
        Finding::Noted(Signal::Ends, 1),
    ],
    ..LIFE
}];

#[test]
fn closes_with_both_passes(rt: HostRuntime) -> Result<(), Fail> {
    lives(rt, rt.alloc(), &TWO_CALLERS)
}

const RECORD_OF_THREE: [Row; 3] = [
    (1, Ask::Shutdown, Did::Shutdown),
    (1, Ask::Tidy, Did::Tidy),
    (1, Ask::Ended, Did::Ended),
];

// Three callers, of whom one is late.
static THREE_CALLERS: [Life; 1] = [Life {
    callers: 3,
    turns: &[(1, SHUTS_DOWN)],
    refusals: &[Refusal {
        withholds: true,
        error: PoolError::MissingPass,
        then: &[],
        exchanged: true,
    }],
    findings: &[
        Finding::Record(&RECORD_OF_THREE),
        Finding::Counts(NO_COUNTS),
        Finding::Noted(Signal::Ends, 1),
    ],
    ..LIFE
}];

#[test]
fn closes_with_three_passes(rt: HostRuntime) -> Result<(), Fail> {
    lives(rt, rt.alloc(), &THREE_CALLERS)
}
