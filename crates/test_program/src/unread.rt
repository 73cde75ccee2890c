//! Readers that fail, bytes that no editor writes, colours, words that are no text, and texts beyond their greatest length.

use crate::calls::{Called, call, words_of};
use poolrun_choices::choices::chosen;
use poolrun_program::hosts::Host;
use poolrun_program::program::{run_reader, without_words};
use std::alloc::Global;
use std::fs;
use std::io::{self, ErrorKind, Read};
use std::process::Abort;
use std::test::Fail;
use tp_messages::messages::UNADORNED;
use tp_text::watched::WatchedWriter;

/// Whether a text has this part.
fn has(text: &[u8], part: &str) -> bool {
    match str::from_utf8(text) {
        Ok(text) => text.contains(part),
        Err(_) => false,
    }
}

/// Calls a command by this line, where its text is what this reader gives. The status is 99 for a bad line.
fn call_reading<H: Host, R: Read + Drop>(
    rt: H,
    alloc: Global,
    line: &str,
    reader: R,
) -> Result<Called, Fail> {
    let words = words_of(alloc, line)?;
    let mut out = Vec::new(alloc);
    let mut errors = Vec::new(alloc);
    let status = match chosen(alloc, words.as_slice()) {
        Ok(chosen) => {
            let writer = &mut WatchedWriter::new(&mut out);
            let choice = &chosen.choice;
            run_reader(rt, alloc, choice, reader, writer, &mut errors, UNADORNED)
        }
        Err(_) => 99,
    };
    Ok(Called {
        status,
        out,
        errors,
    })
}

/// Gives these bytes, and then fails.
#[derive(Drop)]
struct Broken<'a>(&'a [u8]);

impl Read for Broken<'_> {
    fn read(&mut self, buf: &mut [u8]) -> io::Result<usize> {
        if self.0.is_empty() {
            return Err(ErrorKind::ConnectionReset.into());
        }
        self.0.read(buf)
    }
}

const LINES: [&str; 7] = [
    "steps -",
    "steps --explain --strict -",
    "steps --record -",
    "steps --record --explain --strict -",
    "audit -",
    "audit --any-length -",
    "explore -",
];

/// What a reader gave before it fails: nothing, a scenario's first line, a record's.
const BEGUN: [&str; 3] = ["", "pool 1 1 unbounded keep 0 abort\n", "tprecord 1\n"];

/// Calls the program by this command line with readers that fail. Record texts of any length are read line by line, so that a wrong
/// first line is told before the reader fails.
fn tells_unread<H: Abort + Host>(rt: H, alloc: Global, line: &str) -> Result<(), Fail> {
    for begun in BEGUN {
        if line == "audit --any-length -" && begun.starts_with("pool") {
            continue;
        }
        let unread = call_reading(rt, alloc, line, Broken(begun.as_bytes()))?;
        assert!(rt;
            unread.status == 1
                && has(&unread.out, "refused 25 ReadFailed\n")
                && has(&unread.errors, "poolrun: standard input: "),
            "{line}: {unread:?}"
        );
    }
    Ok(())
}

#[test]
fn tells_why_a_reader_fails(rt: HostRuntime) -> Result<(), Fail> {
    for line in LINES {
        tells_unread(rt, rt.alloc(), line)?;
    }
    Ok(())
}

/// Texts that no editor writes.
const HOSTILE: [&[u8]; 14] = [
    b"\x01\x02\xEF\xBF\xBD",
    b"\xEF\xBB\xBFpool 1 1 unbounded keep 0 abort\nexecute 5\n",
    b"\n",
    b"\0",
    b"\xFF\xFE\n",
    b"pool\n",
    b"pool 1 1 unbounded keep 0 abort\n\xF0\x9F\x92\xA9\n",
    b"pool 1 1 unbounded keep 0 abort\nend 18446744073709551616\n",
    b"tprecord 1\npool 0 0 handoff keep 0 abort\n",
    b"tprecord 1\npool 0 0 priority keep 0 abort\n",
    b"tprecord 2\npool 0 0 priority keep 0 abort\n",
    b"tprecord 2\npool 1 1 priority keep 0 abort\n1 submit t0 plain prio 4294967296 queue\nend 1\n",
    b"tprecord 1\npool 1 1 unbounded keep 0 abort limit 64\n1 open w18446744073709551615 live\nend 1\n",
    b"tprecord 1\npool 1 1 unbounded keep 0 abort limit 64\n1 tick 18446744073709551615\nend 1\nend 1\n",
];

#[test]
fn ends_with_a_refusal_of_a_hostile_text(rt: HostRuntime) -> Result<(), Fail> {
    for line in LINES {
        for text in HOSTILE {
            let refused = call_reading(rt, rt.alloc(), line, text)?;
            assert!(rt;
                refused.status == 1 && !refused.errors.is_empty(),
                "{line}: {text:?}: {refused:?}"
            );
        }
    }
    Ok(())
}

#[test]
fn audits_a_record_of_any_length(rt: HostRuntime) -> Result<(), Fail> {
    let alloc = rt.alloc();
    let mut record = String::from_str(
        alloc,
        "tprecord 1\npool 1 1 unbounded keep 0 abort limit 1048576\n",
    )?;
    for number in 1..=60_000u32 {
        let line = format!(in alloc; "{number} tick 18446744073709551615\n")?;
        record.push_str(line.as_str())?;
    }
    record.push_str("end 60000\n")?;
    let long = call_reading(rt, alloc, "audit --any-length -", record.as_bytes())?;
    assert!(rt;
        long.status == 0 && has(&long.out, "legal 60000\n"),
        "{long:?}"
    );
    let whole = call_reading(rt, alloc, "audit a.txt", record.as_bytes())?;
    let errors =
        "poolrun: a.txt: the text has more than 1,048,576 bytes, which `poolrun audit --any-length` takes\n";
    assert!(rt;
        whole.status == 1
            && whole.out.as_slice() == b"refused 25 ReadFailed\n".as_slice()
            && whole.errors.as_slice() == errors.as_bytes(),
        "{whole:?}"
    );
    Ok(())
}

/// The standard input has its name in a message.
#[test]
fn names_the_standard_input(rt: HostRuntime) -> Result<(), Fail> {
    let text = b"pool 1 1 unbounded keep 0 abort\nsub\n";
    let refused = call_reading(rt, rt.alloc(), "steps --record -", text.as_slice())?;
    assert!(rt;
        refused.status == 1 && has(&refused.errors, " --> standard input:2:1\n"),
        "{refused:?}"
    );
    Ok(())
}

const RED: &str = "\u{1b}[1;31merror\u{1b}[0m";

/// Where the flag for colours may stand, and what a message begins with then.
const COLOURS: [(&str, &str); 4] = [
    ("steps coloured.txt", "error: "),
    ("--color always steps coloured.txt", RED),
    ("steps --color always coloured.txt", RED),
    ("steps --color never coloured.txt", "error: "),
];

#[test]
fn has_colours_where_they_are_wanted(rt: HostRuntime) -> Result<(), Fail> {
    fs::write(&rt, "coloured.txt", b"pool\n")?;
    for (line, start) in COLOURS {
        let refused = call(&rt, rt.alloc(), line, usize::MAX)?;
        assert!(rt;
            refused.status == 1 && refused.errors.starts_with(start.as_bytes()),
            "{line}: {refused:?}"
        );
    }
    fs::remove_file(&rt, "coloured.txt")?;
    Ok(())
}

/// Why the words of a command line can't be had, the status, the output, and a part of what is told.
const WITHOUT_WORDS: [(ErrorKind, u8, &str, &str); 2] = [
    (
        ErrorKind::InvalidData,
        2,
        "",
        "poolrun: a word of the command line is not UTF-8 text",
    ),
    (ErrorKind::OutOfMemory, 1, "refused 4 NoMemory\n", ""),
];

#[test]
fn refuses_words_that_are_no_text(rt: HostRuntime) {
    for (reason, wanted, output, part) in WITHOUT_WORDS {
        let mut out = Vec::new(rt.alloc());
        let mut errors = Vec::new(rt.alloc());
        let status = without_words(&reason.into(), &mut out, &mut errors);
        let is_so = status == wanted && out.as_slice() == output.as_bytes() && has(&errors, part);
        assert!(rt; is_so, "{reason:?}: {status}");
    }
}

/// A job behind so many lines of comments, each of 64 bytes.
fn long_jobs(alloc: Global, comments: usize) -> Result<String, Fail> {
    let mut text = String::from_str(alloc, "pool 1 1 unbounded keep 0 abort\n")?;
    for _ in 0..comments {
        text.push_str("# a comment of a file of jobs that is longer than is usual here\n")?;
    }
    text.push_str("execute 5\n")?;
    Ok(text)
}

/// A line that reads long jobs, its status, and parts of what it prints and tells.
const LONG: [(&str, u8, &str, &str); 2] = [
    (
        "threads --tally --any-length long-jobs.txt",
        0,
        "state terminated\ncounts submitted=1 run=1 ",
        "",
    ),
    (
        "threads --tally long-jobs.txt",
        1,
        "refused 25 ReadFailed\n",
        "which `poolrun threads --any-length` takes\n",
    ),
];

#[test]
fn reads_long_jobs_where_it_is_asked_to(rt: HostRuntime) -> Result<(), Fail> {
    let text = long_jobs(rt.alloc(), 16_500)?;
    fs::write(&rt, "long-jobs.txt", text.as_bytes())?;
    for (line, status, out, errors) in LONG {
        let called = call(&rt, rt.alloc(), line, usize::MAX)?;
        let is_so = called.status == status && has(&called.out, out) && has(&called.errors, errors);
        assert!(rt; is_so, "{line}: {called:?}");
    }
    fs::remove_file(&rt, "long-jobs.txt")?;
    Ok(())
}
