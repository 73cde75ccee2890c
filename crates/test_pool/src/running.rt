//! Pools that run their callers' jobs.

mod admissions;
mod boxes;
mod ends;
mod faults;
mod forgets;
mod futures;
mod handing;
mod meetings;
mod memory;
mod outside;
mod sizes;
mod stops;
mod waking;
