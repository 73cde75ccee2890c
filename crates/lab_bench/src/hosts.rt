//! The host of the measures.

use std::sync::Wait;
use std::thread::Threads;
use std::time::Clock;

/// A host with threads that wait, and a clock.
pub trait Host: Threads + Wait + Clock + Copy + Send + Sync + 'static {}

impl<R: Threads + Wait + Clock + Copy + Send + Sync + 'static> Host for R {}
