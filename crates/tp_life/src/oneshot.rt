//! A channel for one value, from a job to whoever asked for it.

use std::alloc::{AllocError, Global};
use std::sync::{Arc, Mutex, OnceLock, Wait};

// Where the value lies between the two ends.
type Cell<T> = Arc<OnceLock<Mutex<Option<T>>>>;

/// The end that sends. A closure that is a job keeps it.
#[derive(Drop)]
pub struct Sender<T> {
    cell: Cell<T>,
}

/// The end that receives.
#[derive(Drop)]
pub struct Receiver<T> {
    cell: Cell<T>,
}

/// Both ends of a channel.
pub fn oneshot<T: Drop>(alloc: Global) -> Result<(Sender<T>, Receiver<T>), AllocError> {
    let ours = Arc::new(alloc, OnceLock::new())?;
    let theirs = Arc::try_clone(&ours)?;
    Ok((Sender { cell: theirs }, Receiver { cell: ours }))
}

impl<T: Drop> Sender<T> {
    /// Sends the value, without a wait. A value that was sent before stays, and this one comes back.
    pub fn send(&self, value: T) -> Result<(), T> {
        match self.cell.try_set(Mutex::new(Some(value))) {
            Ok(_) => Ok(()),
            Err(cell) => match cell.into_inner() {
                Some(value) => Err(value),
                None => Ok(()),
            },
        }
    }
}

impl<T: Drop> Receiver<T> {
    /// Takes the value, where it was sent, and not taken yet.
    pub fn take<R: Wait>(&self, rt: &R) -> Option<T> {
        self.cell.get()?.lock(rt).take()
    }
}
