//! Tests of running pools: their lives and settings, the jobs that they run, and the futures above them. `harness` plays the tests' lines.
#![tactic(auto)]

#[cfg(test)]
mod compare;
#[cfg(test)]
mod harness;
#[cfg(test)]
mod lives;
#[cfg(test)]
mod running;
#[cfg(test)]
mod serving;
