//! Whole lives of pools, most of which have no tasks; and what stands beside a pool: flags, receipts, interfaces and the lock.

mod closing;
mod flags;
mod interfaces;
mod lock;
mod memory;
mod receipts;
mod rooms;
mod settings;
mod sharing;
mod stranded;
mod unstaffed;
mod waits;
