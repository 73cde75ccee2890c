//! `poolrun steps FILE`: runs a scenario of atomic steps of one pool and prints its record, the
//! refusals, each task's fate, the run state and the counters. `poolrun threads FILE`: runs a file of jobs
//! by threads and prints its pool's record. `poolrun audit FILE`: judges a record. `poolrun explore FILE`: tells all that may
//! become of the tasks of callers.
//!
//! The status is 0 where the run went to its end, the record is legal or the interleavings are as they were wished, 1 where it was
//! refused (its refusal is the last line of the output), the record has a flaw or the wish is not met, and 2 for a bad command line or a
//! request for help, whose text goes to the standard error. `--version` is printed on the standard
//! output, with status 0. Where a text is refused, a record has a flaw, a file can't be opened or read, or
//! the standard output fails, the standard error says why.
#![tactic(auto)]

use poolrun_program::program::{Terminal, program, without_memory, without_words};
use std::alloc::Alloc;
use std::env::{self, Env};
use std::io::IsTerminal;
use std::process::ExitCode;

/// Whether the variable `NO_COLOR` is set, and not empty: its user wants no colours.
fn forbids_colours<R: Env + Alloc>(rt: &R) -> bool {
    match env::var(rt, "NO_COLOR") {
        Ok(value) => !value.is_empty(),
        Err(_) => false,
    }
}

fn main(rt: HostRuntime) -> ExitCode {
    let alloc = rt.alloc();
    let mut out = rt.stdout();
    let mut errors = rt.stderr();
    let mut progress = rt.stderr();
    let terminal = Terminal {
        is_one: errors.is_terminal(),
        forbids_colours: forbids_colours(&rt),
    };
    let status = match env::args(&rt) {
        Ok(words) => match words.collect::<Vec<String>>(alloc) {
            Ok(words) => program(
                &rt,
                alloc,
                words.as_slice(),
                &mut out,
                &mut errors,
                &mut progress,
                terminal,
            ),
            Err(_) => without_memory(&mut out),
        },
        Err(reason) => without_words(&reason, &mut out, &mut errors),
    };
    ExitCode::from(status)
}
