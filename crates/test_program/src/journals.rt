//! Journals of runs, by a writer that waits and one that fails.

use poolrun_program::texts::run_text;
use std::alloc::Global;
use std::io::{self, ErrorKind, Write};
use std::sync::atomic::{AtomicBool, Ordering};
use std::sync::{Arc, Wait};
use std::test::Fail;
use std::thread::{Threads, sleep};
use std::time::{Clock, Duration};
use tp_journal::endings::{JournalEnd, Wish};
use tp_journal::writers::Cut;
use tp_text::watched::WatchedWriter;
use tp_types::refusals::PoolError;

const JOBS: &str = "pool 1 1 unbounded keep 0 abort
execute 5
submit 6
";

/// How many bytes come before the first entry of their record.
const HEAD: usize = 43;

/// For how many milliseconds a writer waits at a shut door.
const AT_MOST: usize = 10_000;

/// A writer that waits at its door before it takes bytes, and fails where it has no room for them.
#[derive(Drop)]
struct Guarded {
    host: HostRuntime,
    is_open: Arc<AtomicBool>,
    room: usize,
    taken: Vec<u8>,
}

impl Write for Guarded {
    fn write(&mut self, buf: &[u8]) -> io::Result<usize> {
        for _ in 0..AT_MOST {
            if self.is_open.load(Ordering::SeqCst) {
                break;
            }
            sleep(&self.host, Duration::from_millis(1));
        }
        if self.room < buf.len() {
            return Err(ErrorKind::StorageFull.into());
        }
        self.room -= buf.len();
        self.taken.write(buf)
    }

    fn flush(&mut self) -> io::Result<()> {
        Ok(())
    }
}

/// Runs the jobs with a journal by this writer: the text of their record, and what became of the journal.
fn run_with<R: Threads + Wait + Clock + Copy + Send + 'static, V: Write + Send + Drop + 'static>(
    rt: R,
    alloc: Global,
    writer: V,
    patience: Duration,
) -> Result<(Vec<u8>, Option<JournalEnd<V>>), Fail> {
    let wish = Some(Wish {
        writer,
        every: Duration::from_millis(1),
        patience,
    });
    let mut text = Vec::new(alloc);
    let mut ended = None;
    let out = &mut WatchedWriter::new(&mut text);
    run_text(rt, alloc, JOBS.as_bytes(), out, wish, &mut ended, &mut None)?;
    Ok((text, ended))
}

/// How many bytes a writer has room for, and how many of the record's text it took: all of it, or those before the write that failed.
const ROWS: [(usize, Option<usize>); 3] = [
    (usize::MAX, None),
    (HEAD + 5, Some(HEAD)),
    (HEAD - 1, Some(0)),
];

/// The writer took just so many bytes of this text, and what is told of it says so.
fn took(ended: Option<JournalEnd<Guarded>>, text: &[u8], count: Option<usize>) -> bool {
    match (ended, count) {
        (Some(JournalEnd::Whole(writer)), None) => writer.taken.as_slice() == text,
        (Some(JournalEnd::Cut(cut)), Some(count)) => {
            let Cut { error, writer } = cut;
            let has_failed = error == PoolError::WriteFailed && writer.failure().is_some();
            let writer = writer.into_writer();
            has_failed && Some(writer.taken.as_slice()) == text.get(..count)
        }
        _ => false,
    }
}

/// A journal is the text of the record, or as much of it as its writer took: the run is the same.
#[test]
fn journal_is_the_record(rt: HostRuntime) -> Result<(), Fail> {
    let door = Arc::new(rt.alloc(), AtomicBool::new(true))?;
    for (room, count) in ROWS {
        let writer = Guarded {
            host: rt,
            is_open: Arc::try_clone(&door)?,
            room,
            taken: Vec::new(rt.alloc()),
        };
        let (text, ended) = run_with(rt, rt.alloc(), writer, Duration::from_secs(60))?;
        assert!(&rt; took(ended, text.as_slice(), count), "room {room}");
    }
    Ok(())
}

/// A run leaves a journal whose writer takes nothing.
#[test]
fn leaves_a_writer_that_waits(rt: HostRuntime) -> Result<(), Fail> {
    let door = Arc::new(rt.alloc(), AtomicBool::new(false))?;
    let writer = Guarded {
        host: rt,
        is_open: Arc::try_clone(&door)?,
        room: usize::MAX,
        taken: Vec::new(rt.alloc()),
    };
    let (text, ended) = run_with(rt, rt.alloc(), writer, Duration::from_millis(5))?;
    let is_left = matches!(ended, Some(JournalEnd::Left)) && HEAD < text.len();
    assert!(&rt; is_left, "{} bytes", text.len());
    door.store(true, Ordering::SeqCst);
    Ok(())
}
