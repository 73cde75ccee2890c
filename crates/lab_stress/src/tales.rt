//! Plans of all sorts.

use crate::calls::{A_WHILE, Call, Line};
use crate::chores::{Sign, Work};
use crate::luck::Luck;
use crate::plans::{Lines, Making, Plan};
use tp_life::prelude::*;

/// Of which sort a plan is.
#[derive(Clone, Copy)]
pub enum Sort {
    /// By chance, with a record and without.
    Chance,
    Tally,
    /// By chance, with workers who come and go, and factories that refuse, by turns with a record and without.
    Lives,
    /// All jobs run at once: 1, 2, 4 or 8.
    Meeting,
    /// The pool is shut down and left to nobody. It ends by itself, and its queued jobs are run where a worker may be made for them.
    Left,
    /// A submission races with the shutdown at core size 0. Its task may come back at its second look. The pool ends by itself.
    Race,
    /// A slot is given up at a shutdown, and reserved anew at once.
    Anew,
}

const SHUTS_DOWN: Line = Line::Makes(Call::ShutDown);

const AWAITS: Line = Line::Makes(Call::Await(A_WHILE));

// Each job waits for all others.
static MEETINGS: [[Line; 3]; 4] = [
    [Line::SubmitsMany(0, 1, Work::Meets(1)), SHUTS_DOWN, AWAITS],
    [Line::SubmitsMany(0, 2, Work::Meets(2)), SHUTS_DOWN, AWAITS],
    [Line::SubmitsMany(0, 4, Work::Meets(4)), SHUTS_DOWN, AWAITS],
    [Line::SubmitsMany(0, 8, Work::Meets(8)), SHUTS_DOWN, AWAITS],
];

// While the worker of the second caller's job is being made, the first one submits the others and shuts the pool down.
static LEAVES: [Line; 5] = [
    Line::Until(Sign::Asked, 1),
    Line::SubmitsMany(1, 9, Work::Nothing),
    SHUTS_DOWN,
    Line::Tells(Sign::Free),
    Line::Until(Sign::Told, 1),
];

static IS_LEFT: [Line; 2] = [
    Line::SubmitsMany(0, 1, Work::Nothing),
    Line::Tells(Sign::Told),
];

// Some turns after the second caller begins, the first one shuts the pool down.
static RACES: [Line; 4] = [
    Line::Until(Sign::Told, 1),
    Line::Spins,
    SHUTS_DOWN,
    Line::Until(Sign::Told, 2),
];

static IS_RACED: [Line; 3] = [
    Line::Tells(Sign::Told),
    Line::SubmitsMany(0, 1, Work::Nothing),
    Line::Tells(Sign::Told),
];

// The first caller's job holds a worker until its second job runs. The second caller's slot is given up at the shutdown, and reserved anew at
// once, before the thread that was made for it has looked.
static GIVES_UP: [Line; 8] = [
    Line::SubmitsMany(0, 1, Work::Meets(2)),
    Line::Tells(Sign::Told),
    Line::Until(Sign::Asked, 2),
    Line::SubmitsMany(1, 1, Work::Nothing),
    SHUTS_DOWN,
    Line::Tells(Sign::Free),
    Line::Until(Sign::Told, 2),
    AWAITS,
];

static STARTS_ANEW: [Line; 4] = [
    Line::Until(Sign::Told, 1),
    Line::SubmitsMany(2, 1, Work::Nothing),
    Line::Makes(Call::StartOne(true)),
    Line::Tells(Sign::Told),
];

// Each way to hear of the end. In the last one nobody waits: the terminated hook tells of it.
static ENDS: [[Line; 1]; 3] = [[AWAITS], [Line::Polls], [Line::Until(Sign::Ended, 1)]];

// What the first caller does once the pool is left to nobody.
const REMOVES: Line = Line::Makes(Call::Remove(0));

const CANCELS: Line = Line::Makes(Call::Cancel(0, false));

const PURGES: Line = Line::Makes(Call::Purge);

const SETS_CORE: Line = Line::Makes(Call::Core(1));

// A pool's core size, what becomes of its first worker, and of its second, how many jobs it has, what the first caller does once the pool
// is left to nobody, and how many jobs run in the end.
type Tale = (u32, Making, Making, u32, Lines, u32);

// The first worker comes when the pool is shut down. At core size 1 the jobs that are queued then are run by another worker, also where that
// one is made at the second try; at core size 0 they wait for a caller.
static TALES: [Tale; 13] = [
    (0, Making::Refused, Making::Made, 3, &[SETS_CORE], 3),
    (0, Making::Refused, Making::Made, 1, &[REMOVES], 0),
    (0, Making::NoThread, Making::Made, 1, &[CANCELS, PURGES], 0),
    (0, Making::Made, Making::Made, 2, &[], 2),
    (1, Making::Made, Making::Made, 2, &[], 1),
    (1, Making::Refused, Making::Made, 2, &[], 1),
    (1, Making::NoThread, Making::Made, 2, &[], 1),
    (1, Making::Made, Making::Refused, 3, &[], 2),
    (1, Making::Refused, Making::NoThread, 3, &[], 2),
    (1, Making::NoThread, Making::Refused, 4, &[], 3),
    (1, Making::Made, Making::Made, 1, &[], 0),
    (1, Making::Refused, Making::Made, 1, &[], 0),
    (1, Making::NoThread, Making::Made, 1, &[], 0),
];

impl Plan {
    /// The plan of this sort, and of this seed.
    pub fn of(sort: Sort, seed: u64) -> Plan {
        match sort {
            Sort::Chance => Plan::by_chance(seed),
            Sort::Tally => Plan {
                keeps: false,
                ..Plan::by_chance(seed)
            },
            Sort::Lives => lives(seed),
            Sort::Meeting => meeting(seed),
            Sort::Left => left(seed),
            Sort::Race => Plan {
                end: end(seed),
                ..Plan::plain(seed, 1, &RACES, &IS_RACED)
            },
            Sort::Anew => anew(seed),
        }
    }
}

fn end(seed: u64) -> Lines {
    &ENDS[(seed % 3) as usize]
}

fn lives(seed: u64) -> Plan {
    let mut luck = Luck::new(seed, 5);
    let plan = Plan::by_chance(seed);
    Plan {
        settings: Config {
            keep: 1,
            core_timeout: true,
            ..plan.settings
        },
        keeps: seed % 2 == 0,
        refusals: 1 + luck.below(3),
        chance: Some(16 + luck.below(48)),
        ..plan
    }
}

fn meeting(seed: u64) -> Plan {
    let jobs = 1 << (seed % 4);
    let lines = &MEETINGS[(seed % 4) as usize];
    Plan {
        settings: Config::fixed(jobs),
        run: Some(jobs),
        ..Plan::plain(seed, jobs, lines, &[])
    }
}

fn left(seed: u64) -> Plan {
    let at = (seed % 13) as usize;
    let (core, first, second, jobs, way, run) = TALES[at];
    let plan = Plan::plain(seed, jobs, &LEAVES, &IS_LEFT);
    Plan {
        settings: Config::fixed(1).core(core),
        makings: (first, second),
        halts: 1,
        way,
        end: end(seed),
        // A life's callers can't set the core size, as the first tale has it.
        owned: at == 0 || plan.owned,
        run: Some(run),
        ..plan
    }
}

fn anew(seed: u64) -> Plan {
    Plan {
        settings: Config::fixed(2).policy(Policy::Discard),
        halts: 2,
        owned: true,
        run: Some(2),
        ..Plan::plain(seed, 3, &GIVES_UP, &STARTS_ANEW)
    }
}
