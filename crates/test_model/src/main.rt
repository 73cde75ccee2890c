//! `test_model`: plays the texts of `data/`, worked scenarios, records and plays of the machine, and prints how many rows each file has.
//! A row that is not as its text says ends the program, which prints what is seen beside what is wanted, and the row's title.
//!
//! The worked rows of `proofs/` are records with what the step gives at each front, computed by the checker: a wrong definition fails
//! the check at the row that shows it. The rows of the specification stand in `proofs/Worked`. Records of our own, for what no such
//! row shows, stand in `proofs/Further`: a model that was written apart, in another language, computed them first.
//!
//! The tests are of what no text says: readers, writers and memory that fail, texts that are cut or changed, long runs, files of jobs,
//! and the plain programs. They stand in this crate, above the crates that they test: the code of a crate with tests is proved twice,
//! and this one has little else.
#![tactic(auto)]

#[cfg(test)]
mod asked;
mod auditors;
#[cfg(test)]
mod audits;
#[cfg(test)]
mod compare;
mod endings;
#[cfg(test)]
mod forms;
#[cfg(test)]
mod judged;
#[cfg(test)]
mod known;
#[cfg(test)]
mod lines;
mod machine;
mod neighbours;
#[cfg(test)]
mod plain;
mod records;
mod rows;
#[cfg(test)]
mod runs;
mod scenarios;
#[cfg(test)]
mod streams;
#[cfg(test)]
mod tallied;
#[cfg(test)]
mod wanting;

use std::alloc::Global;
use std::fs;
use test_rows::play_rows;

/// What the rows of a file are.
#[derive(Clone, Copy)]
enum Form {
    /// Scenarios that are played to their ends.
    Scenario,
    /// Scenarios of which only what is written is compared: those that are refused for their pools, and a long one.
    Told,
    /// Lines, each of which ends its scenario so.
    Lines,
    /// Lines, each of which ends its file of jobs so.
    JobLines,
    /// Records.
    Record,
    /// Plays of the machine.
    Play,
}

/// The files of rows.
const FILES: [(&str, Form); 16] = [
    ("growing.txt", Form::Scenario),
    ("refusing.txt", Form::Scenario),
    ("working.txt", Form::Scenario),
    ("ending.txt", Form::Scenario),
    ("cancelling.txt", Form::Scenario),
    ("documents.txt", Form::Scenario),
    ("refused.txt", Form::Told),
    ("retried.txt", Form::Told),
    ("lines.txt", Form::Lines),
    ("job-lines.txt", Form::JobLines),
    ("records.txt", Form::Record),
    ("submitters.txt", Form::Play),
    ("workers.txt", Form::Play),
    ("controllers.txt", Form::Play),
    ("priorities.txt", Form::Play),
    ("many.txt", Form::Play),
];

/// Plays the text of a row.
fn play(rt: &impl Print, alloc: Global, form: Form, text: &str) -> anyhow::Result<()> {
    match form {
        Form::Scenario => scenarios::plays(rt, alloc, text),
        Form::Told => {
            let (scenario, output) = rows::parts(text);
            scenarios::tells(rt, alloc, scenario, output)
        }
        Form::Lines => endings::end_each(rt, alloc, false, text),
        Form::JobLines => endings::end_each(rt, alloc, true, text),
        Form::Record => records::judges(rt, alloc, text),
        Form::Play => machine::plays::plays(rt, alloc, text),
    }
}

fn main(rt: HostRuntime) -> anyhow::Result<()> {
    let alloc = rt.alloc();
    for (path, form) in &FILES {
        let text = fs::read_to_string(&rt, *path)?;
        let play_row = |_: &str, row: &str| play(&rt, alloc, *form, row);
        play_rows(&rt, path, text.as_str(), &play_row)?;
    }
    Ok(())
}
