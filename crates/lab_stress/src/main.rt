//! `lab_stress rehearse SEED`: lets a few pools of most sorts live, and prints what is the same each time.
//! `lab_stress stress POOLS [SEED]`: lets so many pools live by chance, 1 being the usual seed, and prints what became of their jobs.
//! `lab_stress tally POOLS [SEED]`: the same of pools that keep no record.
//! `lab_stress lives POOLS [SEED]`: the same of pools whose workers come and go and whose factories refuse, with a record and without.
//! `lab_stress reuse POOLS`: lets so many pools give up a slot that is reserved anew at once.
//! `lab_stress left POOLS`: lets so many pools be shut down and left to nobody, and a submission race with the shutdown in so many more.
//! The status is 1 where a pool came to what it must not come to, and 2 for any other command line.
#![tactic(auto)]

mod accounts;
mod callers;
mod calls;
mod chores;
mod lives;
mod luck;
mod mishaps;
mod owned;
mod plans;
mod tales;
mod users;

use accounts::Totals;
use lives::live;
use plans::Plan;
use std::alloc::Global;
use std::process::ExitCode;
use std::time::Clock;
use std::{env, io};
use tales::Sort;
use tp_pool::Runtime;

const USAGE: &str =
    "usage: lab_stress rehearse SEED | stress POOLS [SEED] | tally POOLS [SEED] | lives POOLS [SEED] | reuse POOLS | left POOLS";

// A sort of pools, how many of them live, where that is not asked for, and what is so of them.
type Run = (Sort, Option<u32>, &'static str);

const LEFT: &str = ", which were shut down and left to nobody";

const RACED: &str = ", in which a submission raced with the shutdown";

const LEGAL: &str = ", each record legal, every job accounted for";

static REHEARSAL: &[Run] = &[
    (Sort::Chance, Some(8), LEGAL),
    (Sort::Meeting, Some(4), ", whose jobs ran all at once"),
    (Sort::Left, Some(39), LEFT),
    (Sort::Race, Some(12), RACED),
];

static STRESS: &[Run] = &[(Sort::Chance, None, LEGAL)];

static TALLY: &[Run] = &[(Sort::Tally, None, " that kept no record")];

static LIVING: &[Run] = &[(Sort::Lives, None, ", whose workers came and went")];

static REUSE: &[Run] = &[(Sort::Anew, None, ", in which a slot was reserved anew")];

static LEAVING: &[Run] = &[(Sort::Left, None, LEFT), (Sort::Race, None, RACED)];

// What is told behind each sum of what pools came to.
static TEXTS: [&str; 14] = [
    " jobs accounted for: ",
    " run, ",
    " run by their submitters, ",
    " back, ",
    " discarded, ",
    " cancelled\n",
    " steps, ",
    " tasks that came back at their second look, ",
    " workers asked for, ",
    " refused\npools that left tasks to nobody: ",
    " at core size 0, ",
    " whose worker was refused again, ",
    " for want of room, ",
    " without a record\n",
];

// The number that a word gives.
fn number(word: &String) -> Option<u32> {
    word.as_str().parse::<u32>().ok()
}

// The runs that these words ask for, the seed of their first pools, and how many pools. The program's own name is the first word.
fn chosen(words: &[String]) -> Option<(&'static [Run], u32, u32)> {
    let first = number(words.get(2)?)?;
    let seed = words.get(3).map_or(Some(1), number)?;
    match (words.get(1)?.as_str(), words.len()) {
        ("rehearse", 3) => Some((REHEARSAL, first, 0)),
        ("stress", 3 | 4) => Some((STRESS, seed, first)),
        ("tally", 3 | 4) => Some((TALLY, seed, first)),
        ("lives", 3 | 4) => Some((LIVING, seed, first)),
        ("reuse", 3) => Some((REUSE, seed, first)),
        ("left", 3) => Some((LEAVING, seed, first)),
        _ => None,
    }
}

// Has these pools live, the first ones by the plan of this seed, each next one by that of the next seed; whether all went well. What differs
// from schedule to schedule is printed only where as many live as are asked for.
fn carry_out<R: Runtime + Clock + Print>(
    rt: &R,
    alloc: Global,
    (runs, seed, asked): (&[Run], u32, u32),
) -> io::Result<bool> {
    for (sort, pools, what) in runs {
        let many = pools.unwrap_or(asked);
        let mut totals: Totals = [0; 14];
        for more in 0..many {
            let seed = u64::from(seed).wrapping_add(u64::from(more));
            match live(rt, alloc, Plan::of(*sort, seed)) {
                Ok(more) => for (sum, more) in totals.iter_mut().zip(&more) {
                    *sum = sum.saturating_add(*more);
                },
                Err(mishap) => {
                    println!(rt; "the pool of seed {seed}: {mishap}")?;
                    return Ok(false);
                }
            }
        }
        println!(rt; "{many} pools closed{what}")?;
        for (sum, text) in totals.iter().zip(&TEXTS) {
            if pools.is_none() {
                print!(rt; "{sum}{text}")?;
            }
        }
    }
    Ok(true)
}

fn main(rt: HostRuntime) -> io::Result<ExitCode> {
    let words = env::args(&rt)?.collect::<Vec<String>>(rt.alloc())?;
    let Some(chosen) = chosen(words.as_slice()) else {
        eprintln!(&rt; "{USAGE}")?;
        return Ok(ExitCode::from(2));
    };
    let well = carry_out(&rt, rt.alloc(), chosen)?;
    Ok(ExitCode::from(u8::from(!well)))
}
