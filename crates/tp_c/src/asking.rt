//! Asks as plain numbers, as they come from C: here, and nowhere else, are they turned into the project's enum.

ghost use Rattle.std.specs.Prelude.{ℕ, ◌≡◌, ◌≢◌, Bool, IfSome, IfNone, pos};
ghost use Rattle.tp_types.specs.declared.configs.Verdict.{Verdict as VerdictOf};
ghost use Rattle.tp_types.specs.declared.tasks.Kind.{Kind as KindOf};
ghost use Rattle.tp_record.specs.Effects.{Outcome as OutcomeOf};
ghost use Rattle.tp_text.specs.Fits.{Fits32, FitsKind, FitsOutcome};
ghost use Rattle.tp_c.specs.Asks.{AsksNothing, kind_numbers, numbers_of, of_one, outcome_numbers, ruling, switch};

use tp_record::entries::Ask;
use tp_types::configs::Verdict;
use tp_types::ids::{SlotId, TaskId};
use tp_types::tasks::{Kind, Outcome};

/// What is asked, as numbers: which ask it is, and its arguments, with 0 for each that it does not have.
#[derive(Clone, Copy, Debug, PartialEq, Eq)]
pub struct Asking {
    /// Which ask it is, 1 to 27.
    pub what: u32,
    /// A task, a slot, a kind, a size, a group, or ticks.
    pub first: u64,
    /// A group, a verdict, or whether an outcome is a fault.
    pub second: u64,
    /// A priority, a value, or a fault's code.
    pub value: i64,
}

fn small(number: u64) -> Option<u32>
    ensures some { IfSome result (λ n. n ≡ number) }
    ensures none { IfNone result ((n : ℕ) → Fits32 n → n ≢ number) }
{
    u32::try_from(number).ok()
}

fn code(number: i64) -> Option<u32>
    ensures some { IfSome result (λ n. pos n ≡ number) }
    ensures none { IfNone result ((n : ℕ) → Fits32 n → pos n ≢ number) }
{
    u32::try_from(number).ok()
}

fn verdict(number: u64) -> Option<Verdict>
    ensures some { IfSome result (λ v. ruling v ≡ number) }
    ensures none { IfNone result ((v : VerdictOf) → ruling v ≢ number) }
{
    match number {
        0 => Some(Verdict::Abort),
        1 => Some(Verdict::CallerRuns),
        2 => Some(Verdict::Discard),
        3 => Some(Verdict::DiscardOldest),
        _ => None,
    }
}

fn flag(number: u64) -> Option<bool>
    ensures some { IfSome result (λ on. switch on ≡ number) }
    ensures none { IfNone result ((on : Bool) → switch on ≢ number) }
{
    match number {
        0 => Some(false),
        1 => Some(true),
        _ => None,
    }
}

fn kind(first: u64, second: u64) -> Option<Kind>
    ensures some { IfSome result (λ k. kind_numbers k ≡ (first, second)) }
    ensures none { IfNone result ((k : KindOf) → FitsKind k → kind_numbers k ≢ (first, second)) }
{
    match (first, second) {
        (0, 0) => Some(Kind::Plain),
        (1, 0) => Some(Kind::Future),
        (2, group) => Some(Kind::Group(small(group)?)),
        _ => None,
    }
}

fn outcome(second: u64, value: i64) -> Option<Outcome>
    ensures some { IfSome result (λ o. outcome_numbers o ≡ (second, value)) }
    ensures none { IfNone result ((o : OutcomeOf) → FitsOutcome o → outcome_numbers o ≢ (second, value)) }
{
    match second {
        0 => Some(Ok(value)),
        1 => Some(Err(code(value)?)),
        _ => None,
    }
}

impl Asking {
    /// The first argument, where it is the only one.
    fn lone(self) -> Option<u64>
        ensures some { IfSome result (λ n. of_one self.what n ≡ self) }
        ensures none { IfNone result ((n : ℕ) → of_one self.what n ≢ self) }
    {
        if self.second != 0 {
            return None;
        }
        if self.value != 0 {
            return None;
        }
        Some(self.first)
    }

    /// The same, where it has 32 bits.
    fn size(self) -> Option<u32>
        ensures some { IfSome result (λ n. of_one self.what n ≡ self) }
        ensures none { IfNone result ((n : ℕ) → Fits32 n → of_one self.what n ≢ self) }
    {
        small(self.lone()?)
    }

    /// An ask that has no arguments, where there are none.
    fn bare(self, ask: Ask) -> Option<Ask>
        ensures some { IfSome result (λ a. (a ≡ ask) × (of_one self.what 0 ≡ self)) }
        ensures none { IfNone result (of_one self.what 0 ≢ self) }
    {
        match self.lone()? {
            0 => Some(ask),
            _ => None,
        }
    }

    /// A refused task, with a verdict.
    fn judged(self) -> Option<Ask>
        requires { self.what ≡ 6 }
        ensures some { IfSome result (λ a. numbers_of a ≡ self) }
        ensures none { IfNone result (AsksNothing self) }
    {
        if self.value != 0 {
            return None;
        }
        Some(Ask::Verdict(TaskId(small(self.first)?), verdict(self.second)?))
    }

    /// A task, and whether its cancel flag is to be set.
    fn cancelled(self) -> Option<Ask>
        requires { self.what ≡ 20 }
        ensures some { IfSome result (λ a. numbers_of a ≡ self) }
        ensures none { IfNone result (AsksNothing self) }
    {
        if self.value != 0 {
            return None;
        }
        Some(Ask::Cancel(TaskId(small(self.first)?), flag(self.second)?))
    }

    /// The ask of these numbers. None only where they are those of no ask.
    pub fn ask(self) -> Option<Ask>
        ensures some { IfSome result (λ a. numbers_of a ≡ self) }
        ensures none { IfNone result (AsksNothing self) }
    {
        Some(match self.what {
            1 => Ask::Submit(kind(self.first, self.second)?, code(self.value)?),
            2 => Ask::Look(TaskId(self.size()?)),
            3 => Ask::Offer(TaskId(self.size()?)),
            4 => Ask::Second(TaskId(self.size()?)),
            5 => Ask::Grow(TaskId(self.size()?)),
            6 => return self.judged(),
            7 => Ask::CallerEnd(
                TaskId(small(self.first)?),
                outcome(self.second, self.value)?,
            ),
            8 => Ask::Open(SlotId(self.lone()? as usize)),
            9 => Ask::Fail(SlotId(self.lone()? as usize)),
            10 => Ask::Take(SlotId(self.lone()? as usize)),
            11 => Ask::Begin(SlotId(self.lone()? as usize)),
            12 => Ask::End(
                SlotId(self.first as usize),
                outcome(self.second, self.value)?,
            ),
            13 => Ask::Leave(SlotId(self.lone()? as usize)),
            14 => self.bare(Ask::Shutdown)?,
            15 => self.bare(Ask::Stop)?,
            16 => self.bare(Ask::Tidy)?,
            17 => self.bare(Ask::Ended)?,
            18 => Ask::Remove(TaskId(self.size()?)),
            19 => self.bare(Ask::Purge)?,
            20 => return self.cancelled(),
            21 => Ask::TakeDone(self.size()?),
            22 => Ask::Core(self.size()?),
            23 => Ask::Maximum(self.size()?),
            24 => Ask::Keep(self.lone()?),
            25 => Ask::CoreTimeout(flag(self.lone()?)?),
            26 => Ask::Tick(self.lone()?),
            27 => self.bare(Ask::Prestart)?,
            _ => return None,
        })
    }
}
