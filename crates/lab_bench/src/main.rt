//! `lab_bench`: runs each measure once on a small structure and prints what is left in it; then the pool and
//! a textbook's run a few tasks.
//! `lab_bench time [TURNS]`: times so many turns, a million where no number is given, at each size.
//! `lab_bench cost [RUNS [COURSE]]`: compares the pool with a textbook's in so many runs of each, 7 where no
//! number is given, in all courses or in the one of this number, from 0.
//!
//! `lab_bench raw COURSE WORKERS SUBMITTERS TASKS TURNS RUNS`: prints each time of these pools in so many runs, by turns. A course is
//! `through`, `life`, `start` or `answer`. Each submitter has so many tasks, and each job passes so many turns of `spin_loop`.
//!
//! `lab_bench endless FARE TASKS`: has one pool without a record run so many tasks, `plain`, `futures`, `cancels`, `faults` or
//! `groups`, and tells how far it has come.
//!
//! The status is 1 where a pool did not run its tasks, and 2 for any other command line.
#![tactic(auto)]

mod comparisons;
mod courses;
mod endless;
mod errands;
mod hosts;
mod measures;
mod recorded;
mod reports;
mod textbook;
mod textbooks;
mod unmeasured;
mod watches;

use comparisons::{compared, rehearse_pools, told_raw};
use courses::{Course, Crowd};
use endless::{Fare, serves};
use reports::{rehearse, time};
use std::process::ExitCode;
use std::{env, io};

/// The turns that are timed where the command line gives no number.
const USUAL_TURNS: u32 = 1_000_000;

/// The runs of each pool where the command line gives no number.
const USUAL_RUNS: u32 = 7;

/// What the words of a command line ask for.
enum Choice {
    Rehearse,
    Time(u32),
    Cost(u32, Option<u32>),
    Raw(u32, Course),
    Endless(Fare, u32),
    Usage,
}

// The number that a word gives.
fn number(word: Option<&String>) -> Option<u32> {
    match word?.as_str().parse::<u32>() {
        Ok(number) => Some(number),
        Err(_) => None,
    }
}

// What a pool is given that serves on and on.
fn fare(word: &str) -> Option<Fare> {
    match word {
        "plain" => Some(Fare::Plain),
        "futures" => Some(Fare::Futures),
        "cancels" => Some(Fare::Cancels),
        "faults" => Some(Fare::Faults),
        "groups" => Some(Fare::Groups),
        "any" => Some(Fare::Any),
        _ => None,
    }
}

// The choice of these words, where the first is `endless`.
fn service(words: &[String]) -> Choice {
    let tasks = number(words.get(3));
    match (words.get(2), tasks, words.len()) {
        (Some(word), Some(tasks), 4) => match fare(word.as_str()) {
            Some(fare) => Choice::Endless(fare, tasks),
            None => Choice::Usage,
        },
        _ => Choice::Usage,
    }
}

// The course of these words, where the first is `raw`.
fn course(words: &[String]) -> Option<Course> {
    let crowd = Crowd {
        workers: number(words.get(3))?,
        submitters: number(words.get(4))?,
        tasks: number(words.get(5))?,
        turns: number(words.get(6))?,
    };
    match words.get(2)?.as_str() {
        "through" => Some(Course::Through(crowd)),
        "life" => Some(Course::Life(crowd)),
        "start" => Some(Course::Start(crowd.workers)),
        "answer" => Some(Course::Answer(crowd.workers, crowd.tasks)),
        _ => None,
    }
}

/// The choice of these words, the program's own name first.
fn chosen(words: &[String]) -> Choice {
    let Some(command) = words.get(1) else {
        return Choice::Rehearse;
    };
    let first = number(words.get(2));
    let second = number(words.get(3));
    match (command.as_str(), words.len(), first, second) {
        ("endless", _, _, _) => service(words),
        ("raw", 8, _, _) => match (course(words), number(words.get(7))) {
            (Some(course), Some(runs)) => Choice::Raw(runs, course),
            _ => Choice::Usage,
        },
        ("time", 2, None, None) => Choice::Time(USUAL_TURNS),
        ("time", 3, Some(turns), None) => Choice::Time(turns),
        ("cost", 2, None, None) => Choice::Cost(USUAL_RUNS, None),
        ("cost", 3, Some(runs), None) => Choice::Cost(runs, None),
        ("cost", 4, Some(runs), Some(course)) => Choice::Cost(runs, Some(course)),
        _ => Choice::Usage,
    }
}

fn main(rt: HostRuntime) -> io::Result<ExitCode> {
    let alloc = rt.alloc();
    let words = env::args(&rt)?.collect::<Vec<String>>(alloc)?;
    let well = match chosen(words.as_slice()) {
        Choice::Rehearse => {
            rehearse(&rt)?;
            rehearse_pools(rt, alloc)?
        }
        Choice::Time(turns) => {
            time(&rt, turns)?;
            true
        }
        Choice::Cost(runs, only) => compared(rt, alloc, runs, only)?,
        Choice::Raw(runs, course) => told_raw(rt, alloc, runs, course)?,
        Choice::Endless(fare, tasks) => serves(rt, alloc, fare, tasks)?,
        Choice::Usage => {
            eprintln!(&rt;
                "usage: lab_bench [time [TURNS] | cost [RUNS [COURSE]] | raw COURSE WORKERS SUBMITTERS TASKS TURNS RUNS | endless FARE TASKS]"
            )?;
            return Ok(ExitCode::from(2));
        }
    };
    Ok(ExitCode::from(if well { 0 } else { 1 }))
}
