//! The journal of a run: where it is written, and what is told of its end.

use std::alloc::{AllocError, Global};
use std::fs::{self, File};
use std::io::{self, Write};
use tp_journal::endings::{JournalEnd, Wish};
use tp_journal::writers::Cut;

/// A host whose files any of its threads can make and write. `Files` lets the thread alone that it was handed to.
pub trait Disk {
    /// A file that is written.
    type Written: Write + Send + Drop + 'static;

    /// The file at a path, made anew.
    fn create(&self, path: &str) -> io::Result<Self::Written>;
}

impl Disk for HostRuntime {
    type Written = File;

    fn create(&self, path: &str) -> io::Result<File> {
        fs::create(self, path)
    }
}

/// A file that is made when the first text is written to it, by the journal's thread: who opens a pipe that nobody reads waits, and
/// the pool must not.
#[derive(Drop)]
pub struct JournalFile<D: Disk + Copy> {
    disk: D,
    path: String,
    file: Option<D::Written>,
}

impl<D: Disk + Copy> Write for JournalFile<D> {
    fn write(&mut self, buf: &[u8]) -> io::Result<usize> {
        if self.file.is_none() {
            self.file = Some(self.disk.create(self.path.as_str())?);
        }
        match &mut self.file {
            Some(file) => file.write(buf),
            None => Ok(0),
        }
    }

    fn flush(&mut self) -> io::Result<()> {
        match &mut self.file {
            Some(file) => file.flush(),
            None => Ok(()),
        }
    }
}

/// The journal that is wanted at this path, if there is one.
pub fn journal_at<D: Disk + Copy>(
    disk: D,
    alloc: Global,
    path: Option<&str>,
) -> Result<Option<Wish<JournalFile<D>>>, AllocError> {
    let Some(path) = path else {
        return Ok(None);
    };
    let writer = JournalFile {
        disk,
        path: String::from_str(alloc, path)?,
        file: None,
    };
    Ok(Some(Wish::new(writer)))
}

/// Tells why a journal is cut off.
fn tell_cut<W: Write, E: Write>(errors: &mut E, path: &str, cut: &Cut<W>) {
    let entries = cut.writer.entries();
    let _ = match cut.writer.failure() {
        Some(reason) => writeln!(
            errors,
            "poolrun: {path}: {reason}; the journal is cut off behind entry {entries}"
        ),
        None => {
            let refusal = cut.error;
            writeln!(
                errors,
                "poolrun: {path}: the journal is cut off behind entry {entries}, by refusal {refusal}"
            )
        }
    };
}

/// Tells what became of a journal that is not whole.
pub fn tell_journal<W: Write, E: Write>(
    errors: &mut E,
    path: Option<&str>,
    ended: &Option<JournalEnd<W>>,
) {
    let (Some(path), Some(ended)) = (path, ended) else {
        return;
    };
    match ended {
        JournalEnd::Whole(_) => (),
        JournalEnd::Cut(cut) => tell_cut(errors, path, cut),
        JournalEnd::Left => {
            let _ = writeln!(
                errors,
                "poolrun: {path}: the journal waits to be written, and is cut off"
            );
        }
    }
}
