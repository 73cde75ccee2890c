//! What is printed of the measures.

use crate::measures::{Measure, Size};
use std::io;
use std::rt::Clock;
use std::time::Duration;

/// The sizes at which all is measured, in entries.
const SIZES: [u32; 3] = [100, 10_000, 65_535];

/// How often each measure is made at each size; the least time is printed.
const ROUNDS: u32 = 9;

/// Runs each measure with few turns on a small structure and prints what is left in it: the same
/// text each time.
pub fn rehearse<R: Clock + AllocGlobal + Print>(rt: &R) -> io::Result<()> {
    for measure in Measure::ALL {
        let size = Size {
            entries: 100,
            turns: 1_000,
        };
        let found = measure.measured(rt, size)?;
        println!(rt; "{}: {} entries left", measure.name(), found.left)?;
    }
    Ok(())
}

/// Times so many turns of each measure at each size, and prints the time of one turn, and how often it
/// is that of a turn at the smallest size.
pub fn time<R: Clock + AllocGlobal + Print>(rt: &R, turns: u32) -> io::Result<()> {
    for measure in Measure::ALL {
        println!(rt; "{}, {turns} turns, the least of {ROUNDS}", measure.name())?;
        let mut smallest = None;
        for entries in SIZES {
            let tenths = tenths_of_a_turn(rt, measure, Size { entries, turns })?;
            let base = *smallest.get_or_insert(tenths);
            let percent = tenths.saturating_mul(100) / base.max(1);
            println!(rt;
                "  {entries} entries: {}.{} ns a turn, {}.{:02} times",
                tenths / 10,
                tenths % 10,
                percent / 100,
                percent % 100
            )?;
        }
    }
    Ok(())
}

/// The time of one turn, in tenths of nanoseconds: the least over all rounds.
fn tenths_of_a_turn<R: Clock + AllocGlobal>(
    rt: &R,
    measure: Measure,
    size: Size,
) -> io::Result<u64> {
    let mut least = Duration::MAX;
    for _ in 0..ROUNDS {
        let elapsed = measure.measured(rt, size)?.elapsed;
        if elapsed < least {
            least = elapsed;
        }
    }
    let nanoseconds = u64::try_from(least.as_nanos()).unwrap_or(u64::MAX);
    Ok(nanoseconds.saturating_mul(10) / u64::from(size.turns.max(1)))
}
