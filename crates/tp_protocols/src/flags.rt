//! The flag by which a running job hears of its cancelling.
ghost use Rattle.std.specs.Prelude.{false, None, Some, ◌≡◌, ◌≢◌, ◌↔◌, ◌⊎◌, IsTrue, IsSome, IfErr};

use std::alloc::Global;
use std::sync::Arc;
use std::sync::atomic::{AtomicBool, Ordering};
use tp_types::refusals::PoolError;

/// A flag in place of a Java thread's interrupt status. It is set when its job's task is cancelled with the
/// flag asked for, or when the pool is stopped while the task is in a slot. It wakes no thread: a job hears
/// of it where it looks.
#[derive(Drop)]
pub struct CancelFlag {
    word: Arc<AtomicBool>,
    // Whether it may be shared.
    shares: bool,
}

impl CancelFlag {
    /// A flag that is not set. NoMemory (4) where there is no memory for it.
    pub fn new(alloc: Global) -> Result<CancelFlag, PoolError>
        ensures { IfErr result (λ e. e ≡ PoolError.NoMemory) }
    {
        match Arc::new(alloc, AtomicBool::new(false)) {
            Ok(word) => Ok(CancelFlag { word, shares: true }),
            Err(_) => Err(PoolError::NoMemory),
        }
    }

    /// One more hold of the same flag, so that one thread may set it while another looks. A job may keep it after its end:
    /// then it hears of no other task's cancel, since its worker takes another flag for the next job. NoMemory (4) where
    /// there was no memory for that one, or no more holds can be counted; the flag stays as it is.
    pub fn share(&self) -> Result<CancelFlag, PoolError>
        ensures { IfErr result (λ e. e ≡ PoolError.NoMemory) }
    {
        if !self.shares {
            return Err(PoolError::NoMemory);
        }
        match Arc::try_clone(&self.word) {
            Ok(word) => Ok(CancelFlag { word, shares: true }),
            Err(_) => Err(PoolError::NoMemory),
        }
    }

    /// Sets the flag, in all its holds and for good, as `Thread.interrupt`.
    pub fn set(&self) {
        self.word.store(true, Ordering::SeqCst);
    }

    /// Whether the flag is set, without waiting, as `Thread.isInterrupted`. A look does not clear it.
    pub fn is_set(&self) -> bool {
        self.word.load(Ordering::SeqCst)
    }
}

// Both holds of a new flag: the pool's, which sets it, and the job's, which looks at it. NoMemory (4).
fn both(alloc: Global) -> Result<(CancelFlag, CancelFlag), PoolError>
    ensures { IfErr result (λ e. e ≡ PoolError.NoMemory) }
{
    let kept = CancelFlag::new(alloc)?;
    let lent = kept.share()?;
    Ok((kept, lent))
}

// What a slot's flag is to the next job.
#[derive(Clone, Copy)]
enum Renewal {
    // It serves that job as it is.
    Stays,
    // It serves that job once it is cleared.
    Clears,
    // A job kept a hold of it, so another one serves.
    Changes,
}

// A flag that is set tells its own job alone; and one of which a job kept a hold serves no other job.
#[inline(always)]
fn renewal_of(holds: usize, is_set: bool) -> Renewal
    ensures changes { result ≡ Renewal.Changes ↔ holds ≢ 2 }
    ensures stays { result ≡ Renewal.Stays ↔ (holds ≡ 2) × (is_set ≡ false) }
{
    match (holds, is_set) {
        (2, false) => Renewal::Stays,
        (2, true) => Renewal::Clears,
        _ => Renewal::Changes,
    }
}

/// A slot's flag, as the slot's worker has it. It serves one job after another, and the pool has one hold of it, too. A job
/// may share it and keep what it shared. So the memory for another one is taken before a job may share this one.
#[derive(Drop)]
pub struct SlotFlag {
    // The job's hold.
    lent: CancelFlag,
    // Both holds of the flag that serves after this one, the pool's first.
    next: Option<(CancelFlag, CancelFlag)>,
}

impl SlotFlag {
    /// A flag that is not set, with the pool's hold of it. NoMemory (4) where there is no memory for it.
    pub fn new(alloc: Global) -> Result<(SlotFlag, CancelFlag), PoolError>
        ensures { IfErr result (λ e. e ≡ PoolError.NoMemory) }
    {
        let (kept, lent) = both(alloc)?;
        let mut flag = SlotFlag { lent, next: None };
        flag.prepare(alloc);
        Ok((flag, kept))
    }

    /// The job's hold.
    #[inline(always)]
    pub fn lent(&self) -> &CancelFlag
        ensures { result.now ≡ self.now.lent }
    {
        &self.lent
    }

    /// Makes it a flag for the next job, once a job has ended: it is not set, and no earlier job has a hold of it. Where that is
    /// another flag, the pool's hold of it comes back, to be put in the place of the one that the pool has. The pool sets no
    /// flag meanwhile, since the slot has no task.
    #[inline(always)]
    pub fn renew(&mut self, alloc: Global) -> Option<CancelFlag> {
        let found = renewal_of(Arc::strong_count(&self.lent.word), self.lent.is_set());
        match found {
            Renewal::Stays if self.next.is_some() => None,
            _ => self.change(found, alloc),
        }
    }

    // A flag of which a job kept a hold gives way to the next one, where there is one.
    #[cold]
    #[inline(never)]
    fn change(&mut self, found: Renewal, alloc: Global) -> Option<CancelFlag>
        ensures changes { (n : CancelFlag × CancelFlag) → found ≡ Renewal.Changes → self.old.next ≡ Some n → (result ≡ Some n.0) × (self.new.lent.word ≡ n.1.word) }
        ensures stays { (found ≢ Renewal.Changes) ⊎ (self.old.next ≡ None) → (result ≡ None) × (self.new.lent.word ≡ self.old.lent.word) }
        ensures shares { IsTrue self.new.lent.shares ↔ IsSome self.new.next }
    {
        let mut kept = None;
        match found {
            Renewal::Stays => {}
            Renewal::Clears => self.lent.word.store(false, Ordering::SeqCst),
            Renewal::Changes => {
                if let Some((theirs, lent)) = self.next.take() {
                    self.lent = lent;
                    kept = Some(theirs);
                }
            }
        }
        self.prepare(alloc);
        kept
    }

    // Takes the memory for the next flag, where there is any. Only then a job may share this one.
    fn prepare(&mut self, alloc: Global)
        ensures same { self.new.lent.word ≡ self.old.lent.word }
        ensures shares { IsTrue self.new.lent.shares ↔ IsSome self.new.next }
    {
        if self.next.is_none() {
            self.next = both(alloc).ok();
        }
        self.lent.shares = self.next.is_some();
    }
}
