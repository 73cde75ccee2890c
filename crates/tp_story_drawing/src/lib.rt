//! A record as a picture.
#![tactic(auto)]

pub mod drawings;
pub mod pictures;
pub mod scales;
pub mod svg;
