//! What is printed of the pool beside a textbook's.

use crate::courses::{Course, Crowd, median, nanoseconds};
use crate::hosts::Host;
use crate::recorded::recorded;
use crate::textbooks::textbook;
use crate::unmeasured::Unmeasured;
use std::alloc::Global;
use std::io;
use std::time::Duration;
use tp_record::recorders::{Full, Tally};

// What a job takes that is not empty, in turns of `spin_loop`: some microseconds.
const SOME_TURNS: u32 = 400;

const ONE: Crowd = Crowd {
    workers: 1,
    submitters: 1,
    tasks: 100_000,
    turns: 0,
};

const TWO: Crowd = Crowd { workers: 2, ..ONE };

const FOUR: Crowd = Crowd { workers: 4, ..ONE };

const FOUR_OF_TWO: Crowd = Crowd {
    submitters: 2,
    tasks: 50_000,
    ..FOUR
};

const LONGER_OF_TWO: Crowd = Crowd {
    turns: SOME_TURNS,
    ..TWO
};

const LONGER_OF_FOUR: Crowd = Crowd {
    turns: SOME_TURNS,
    ..FOUR
};

/// What is compared, with the aim, where there is one: the textbook's time by the pool's, in hundredths.
const COURSES: [(Course, Option<u64>); 12] = [
    (Course::Through(ONE), Some(100)),
    (Course::Through(TWO), Some(130)),
    (Course::Through(FOUR), Some(400)),
    (Course::Through(FOUR_OF_TWO), Some(180)),
    (Course::Start(1), Some(100)),
    (Course::Start(4), Some(100)),
    (Course::Through(LONGER_OF_TWO), Some(100)),
    (Course::Through(LONGER_OF_FOUR), Some(100)),
    (Course::Life(ONE), None),
    (Course::Life(TWO), None),
    (Course::Life(FOUR), None),
    (Course::Life(FOUR_OF_TWO), None),
];

// A few tasks.
const FEW: Course = Course::Through(Crowd {
    workers: 2,
    submitters: 2,
    tasks: 50,
    turns: 0,
});

/// Lets both pools run a few tasks, and says so: the same text each time.
pub fn rehearse_pools<R: Host + Print>(rt: R, alloc: Global) -> io::Result<bool> {
    if let Err(unmeasured) = medians_of(rt, alloc, FEW, 1) {
        println!(&rt; "{unmeasured}")?;
        return Ok(false);
    }
    println!(&rt; "100 empty tasks: run by the pool and by a textbook's")?;
    Ok(true)
}

/// Compares the pool with the textbook's, by so many runs of each, by turns, in each course or in the one
/// of this number, from 0; whether all went well.
pub fn compared<R: Host + Print>(
    rt: R,
    alloc: Global,
    runs: u32,
    only: Option<u32>,
) -> io::Result<bool> {
    for (number, (course, aim)) in (0u32..).zip(COURSES) {
        if only.is_some_and(|only| only != number) {
            continue;
        }
        match medians_of(rt, alloc, course, runs) {
            Ok(medians) => tell(&rt, course, aim, &medians)?,
            Err(unmeasured) => {
                println!(&rt; "{unmeasured}")?;
                return Ok(false);
            }
        }
    }
    Ok(true)
}

// Prints the medians, and their ratio beside the aim.
fn tell<R: Print>(rt: &R, course: Course, aim: Option<u64>, medians: &Medians) -> io::Result<()> {
    match course {
        Course::Through(crowd) => tell_rates(rt, "", crowd, medians)?,
        Course::Life(crowd) => tell_rates(rt, "whole lives, ", crowd, medians)?,
        Course::Start(workers) => tell_start(rt, workers, medians)?,
        // It is told by each of its times.
        Course::Answer(..) => {}
    }
    let ratio = hundredths(medians.textbook, medians.recorded);
    let without = hundredths(medians.recorded, medians.tallied);
    print!(rt; "  {}.{:02} times", ratio / 100, ratio % 100)?;
    if let Some(aim) = aim {
        print!(rt; ", the aim is {}.{:02}", aim / 100, aim % 100)?;
    }
    println!(rt;
        "; without a record {}.{:02} times that",
        without / 100,
        without % 100
    )
}

// By how much the second is quicker, in hundredths.
fn hundredths(one: Duration, two: Duration) -> u64 {
    nanoseconds(one).saturating_mul(100) / nanoseconds(two).max(1)
}

fn tell_rates<R: Print>(rt: &R, what: &str, crowd: Crowd, medians: &Medians) -> io::Result<()> {
    println!(rt;
        "{what}{} workers, {} submitters, jobs of {} turns: {} thousand tasks a second, without a record {}, the textbook's {}",
        crowd.workers,
        crowd.submitters,
        crowd.turns,
        thousands(crowd, medians.recorded),
        thousands(crowd, medians.tallied),
        thousands(crowd, medians.textbook)
    )
}

fn tell_start<R: Print>(rt: &R, workers: u32, medians: &Medians) -> io::Result<()> {
    println!(rt;
        "{workers} idle workers: a task begins after {} ns, without a record after {}, the textbook's after {}",
        nanoseconds(medians.recorded),
        nanoseconds(medians.tallied),
        nanoseconds(medians.textbook)
    )
}

// Thousand tasks a second.
fn thousands(crowd: Crowd, time: Duration) -> u64 {
    u64::from(crowd.all_tasks()).saturating_mul(1_000_000) / nanoseconds(time).max(1)
}

/// The median times of a course.
#[derive(Clone, Copy)]
struct Medians {
    /// The textbook's pool.
    textbook: Duration,
    /// This one, with its record.
    recorded: Duration,
    /// This one, without a record.
    tallied: Duration,
}

// The median times of so many runs of each, by turns.
fn medians_of<R: Host>(
    rt: R,
    alloc: Global,
    course: Course,
    runs: u32,
) -> Result<Medians, Unmeasured> {
    let mut theirs = Vec::new(alloc);
    let mut ours = Vec::new(alloc);
    let mut bare = Vec::new(alloc);
    for _ in 0..runs {
        theirs.push(median(&mut textbook(rt, alloc, course)?)?)?;
        ours.push(median(&mut recorded::<Full, R>(rt, alloc, course)?)?)?;
        bare.push(median(&mut recorded::<Tally, R>(rt, alloc, course)?)?)?;
    }
    Ok(Medians {
        textbook: median(&mut theirs)?,
        recorded: median(&mut ours)?,
        tallied: median(&mut bare)?,
    })
}

/// Prints each time of a course, in nanoseconds, behind the name of its pool: of so many runs, by turns; whether all went well.
pub fn told_raw<R: Host + Print>(
    rt: R,
    alloc: Global,
    runs: u32,
    course: Course,
) -> io::Result<bool> {
    for _ in 0..runs {
        let all = [
            ("textbook", textbook(rt, alloc, course)),
            ("recorded", recorded::<Full, R>(rt, alloc, course)),
            ("tallied", recorded::<Tally, R>(rt, alloc, course)),
        ];
        for (name, times) in all {
            match times {
                Ok(times) => tell_times(&rt, name, &times)?,
                Err(unmeasured) => {
                    println!(&rt; "{unmeasured}")?;
                    return Ok(false);
                }
            }
        }
    }
    Ok(true)
}

fn tell_times<R: Print>(rt: &R, name: &str, times: &[Duration]) -> io::Result<()> {
    for time in times {
        println!(rt; "{name} {}", nanoseconds(*time))?;
    }
    Ok(())
}
