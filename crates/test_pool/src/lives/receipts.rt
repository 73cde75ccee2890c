//! A pass's receipts beside a record's own entries.

use crate::compare::same;
use std::alloc::{AllocError, Global};
use std::test::Fail;
use tp_book::laws::same_steps;
use tp_record::entries::{Ask, Did, Entry};
use tp_record::packed::Packed;

/// An entry of a pass.
#[derive(Clone, Copy)]
enum Step {
    /// A tick to this moment, by the pass of this number.
    Tick(u32, u64),
    /// A keep-alive of so many ticks, by the pass of this number.
    Keep(u32, u64),
}

const FIRST: Step = Step::Tick(0, 1);

const SECOND: Step = Step::Tick(0, 2);

const OTHER: Step = Step::Tick(1, 1);

const LATER: Step = Step::Tick(1, 3);

const RECORD: [Step; 5] = [FIRST, OTHER, SECOND, SECOND, LATER];

/// The second entry with another ask, and with another moment.
const CHANGED: Step = Step::Keep(0, 2);

const MOVED: Step = Step::Tick(0, 3);

/// A pass, its receipts, and whether they are its own entries.
static RECEIPTS: [(u32, &[Step], bool); 10] = [
    (0, &[FIRST, SECOND, SECOND], true),
    (1, &[OTHER, LATER], true),
    (2, &[], true),
    (0, &[FIRST, SECOND, CHANGED], false),
    (0, &[FIRST, MOVED, SECOND], false),
    // One entry is left out: one of two that are equal, and the first.
    (0, &[FIRST, SECOND], false),
    (0, &[SECOND, SECOND], false),
    // One entry is doubled, and two are exchanged.
    (0, &[FIRST, FIRST, SECOND, SECOND], false),
    (0, &[SECOND, FIRST, SECOND], false),
    // This pass made no entry.
    (2, &[FIRST], false),
];

/// The entry of a step.
fn entry(step: Step) -> Packed {
    match step {
        Step::Tick(by, now) => Packed::pack(Entry {
            by,
            ask: Ask::Tick(now),
            did: Did::Tick(now),
        }),
        Step::Keep(by, keep) => Packed::pack(Entry {
            by,
            ask: Ask::Keep(keep),
            did: Did::Keep(keep),
        }),
    }
}

/// The entries of these steps.
fn entries(alloc: Global, steps: &[Step]) -> Result<Vec<Packed>, AllocError> {
    let mut entries = Vec::new(alloc);
    for step in steps {
        entries.push(entry(*step))?;
    }
    Ok(entries)
}

#[test]
fn same_steps_in_the_same_order(rt: HostRuntime) -> Result<(), Fail> {
    let record = entries(rt.alloc(), &RECORD)?;
    for (at, (by, steps, are_its_own)) in RECEIPTS.iter().enumerate() {
        let receipts = entries(rt.alloc(), steps)?;
        same(&rt, at, &same_steps(&record, *by, &receipts), are_its_own);
    }
    Ok(())
}
