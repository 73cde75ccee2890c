//! What is told of texts that are refused, of steps that are refused, and of records with a flaw.

mod compare;
mod flaws;
mod hostile;
mod reasons;
mod steps;
