//! What is told of a closed pool, by what keeps its record.
ghost use Rattle.std.specs.Prelude.{ℕ, ◌≡◌, ◌+◌, ◌≤◌, ◌↔◌, List, IsTrue, IsSome, IfSome, length};
ghost use Rattle.tp_types.specs.Config.{IsConfig};
ghost use Rattle.tp_types.specs.declared.configs.Config.{Config as ConfigOf};
ghost use Rattle.tp_record.specs.State.{state, counts as counts_of};
ghost use Rattle.tp_record.specs.declared.entries.Entry.{Entry as EntryOf};
ghost use Rattle.tp_machine.specs.Seen.{At, config_of};
ghost use Rattle.tp_book.specs.Reports.{IsOwn, TellsCount, TellsRecord, fates_of};

use crate::laws::same_steps;
use tp_machine::machine::Machine;
use tp_machine::machine::releases::Keeper;
use tp_record::packed::Packed;
use tp_record::recorders::{Full, Recorder, Tally};
use tp_types::states::Counts;

/// The record and the counters of a closed pool.
#[derive(Drop)]
pub struct Report {
    /// The record, packed, the oldest entry first: `Packed::unpack` gives each entry.
    pub entries: Vec<Packed>,
    /// The twelve counters at its end.
    pub counts: Counts,
}

/// What is left of a closed pool that kept no record.
#[derive(Clone, Copy, Debug, PartialEq, Eq, Drop)]
pub struct TallyReport {
    /// How many steps were made: the sum of all passes' shares.
    pub steps: u64,
    /// The twelve counters at its end. Released tasks are counted in them.
    pub counts: Counts,
    /// How many tasks have no fate.
    pub unended: u32,
}

/// What keeps a pool's record, and tells of it once the pool is closed.
pub trait Reporter: Keeper {
    ghost use Rattle.std.specs.Prelude.{List};
    ghost use Rattle.tp_types.specs.declared.configs.Config.{Config};
    ghost use Rattle.tp_record.specs.declared.entries.Entry.{Entry};

    /// What is told.
    type Report: Drop;

    /// It tells this of a pool with these settings and this history.
    ghost told: { Config → List Entry → Self.Report → Type 0 };

    /// Whether these receipts are the entries of the pass of this number. Where no record is kept there are none to compare.
    fn agrees<P>(machine: &Machine<P, Self>, by: u32, receipts: &[Packed]) -> bool
        ensures { (h : List EntryOf) (rs : List ℕ) → At Self.tells machine.now h rs → (IsTrue result ↔ IsOwn Self.RECEIPTS h by receipts.now) };

    /// What is told of the machine that is here, which made so many steps and has these counters. It takes no memory.
    // (The machine is lent in an option, and not handed over: the kit has no proof of an impl that is given one.)
    fn report<P: Drop>(
        machine: &mut Option<Machine<P, Self>>,
        steps: u64,
        counts: Counts,
    ) -> Self::Report
        requires here { IsSome machine.old }
        requires counted { fates_of counts ≤ counts.submitted }
        ensures { IfSome machine.old (λ m. (h : List EntryOf) (rs : List ℕ) → At Self.tells m h rs → steps ≡ length h →
            counts ≡ counts_of (state (config_of m) h) → told (config_of m) h result) };

    /// The law of a pool's limit: no less than the least that settings may name.
    fn law_limit()
        ensures { (c : ConfigOf) → IsConfig c → (limit : ℕ) × (64 ≤ limit) × (Self.terms c ≡ record c { record_limit = limit }) };
}

/// The record, with its counters.
impl Reporter for Full {
    ghost use Rattle.tp_book.specs.Reports.{TellsRecord};

    type Report = Report;

    ghost told = { TellsRecord };

    fn agrees<P>(machine: &Machine<P, Full>, by: u32, receipts: &[Packed]) -> bool {
        same_steps(machine.entries(), by, receipts)
    }

    fn report<P: Drop>(machine: &mut Option<Machine<P, Full>>, steps: u64, counts: Counts) -> Report
        requires here { IsSome machine.old }
        requires counted { fates_of counts ≤ counts.submitted }
        ensures { IfSome machine.old (λ m. (h : List EntryOf) (rs : List ℕ) → At ⟦<Full as Recorder>⟧.tells m h rs → steps ≡ length h →
            counts ≡ counts_of (state (config_of m) h) → TellsRecord (config_of m) h result) }
    {
        let _ = steps;
        let Some(machine) = machine.take() else {
            unreachable!()
        };
        let entries = machine.into_entries();
        Report { entries, counts }
    }

    fn law_limit() {}
}

/// How many steps were made, the counters, and how many tasks have no fate.
impl Reporter for Tally {
    ghost use Rattle.tp_book.specs.Reports.{TellsCount};

    type Report = TallyReport;

    ghost told = { TellsCount };

    fn agrees<P>(_machine: &Machine<P, Tally>, _by: u32, _receipts: &[Packed]) -> bool {
        true
    }

    fn report<P: Drop>(
        machine: &mut Option<Machine<P, Tally>>,
        steps: u64,
        counts: Counts,
    ) -> TallyReport
        requires here { IsSome machine.old }
        requires counted { fates_of counts ≤ counts.submitted }
        ensures { IfSome machine.old (λ m. (h : List EntryOf) (rs : List ℕ) → At ⟦<Tally as Recorder>⟧.tells m h rs → steps ≡ length h →
            counts ≡ counts_of (state (config_of m) h) → TellsCount (config_of m) h result) }
    {
        let _ = machine;
        TallyReport {
            steps,
            counts,
            unended: unended(&counts),
        }
    }

    fn law_limit() {}
}

// How many tasks have no fate by these counters.
fn unended(counts: &Counts) -> u32
    requires { fates_of counts.now ≤ counts.now.submitted }
    ensures { result + fates_of counts.now ≡ counts.now.submitted }
{
    let ran = counts.run + counts.caller;
    let left = counts.rejected + counts.discarded + counts.handedback;
    counts.submitted - ran - left - counts.removed - counts.cancelled
}
