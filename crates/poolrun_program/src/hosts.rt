//! The host that the program runs on.

use crate::journals::Disk;
use std::rt::Files;
use std::sync::Wait;
use std::thread::Threads;
use std::time::Clock;

/// A host with files, the standard input, threads that wait, and a clock.
pub trait Host: Files + Input + Threads + Wait + Clock + Disk + Copy + Send + 'static {}

impl<H: Files + Input + Threads + Wait + Clock + Disk + Copy + Send + 'static> Host for H {}
