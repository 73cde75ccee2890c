//! A reader and a writer that keep why they failed.
//!
//! The library's contracts do not tell when a call fails. So contracts on 25 and 26 say that the count of failures is one higher, or
//! that too many bytes came. The fields are private, so that nothing but a call that fails changes the count. Of the reader's own
//! `read` it is proved only that a failure is counted; tests show that it fails only where the reader below does.
ghost use Rattle.std.specs.Prelude.{◌≡◌, ◌≢◌, ◌+◌, ◌%◌, ◌^◌, None, IfOk, IfErr, OnOk, OnErr};
ghost use Rattle.std.specs.Io.{ReadsAtMost, WritesAtMost};
ghost use Rattle.std.specs.Io.KnownBytes.{Appends, Keeps, ReadConsumes, WriteAppends};
ghost use Rattle.std.specs.IoError.{error_kind};
ghost use Rattle.tp_text.specs.Watching.{FailsOnce};

use std::io::{self, ErrorKind, Read, Write};

/// How often a reader or a writer failed, and why it failed first.
#[derive(Drop)]
pub struct Failures {
    /// How often, modulo 2^64.
    count: u64,
    /// The system's reason for the first time; None where it has not failed.
    first: Option<io::Error>,
}

impl Failures {
    fn none() -> Failures
        ensures count { result.count ≡ 0 }
        ensures first { result.first ≡ None }
    {
        Failures {
            count: 0,
            first: None,
        }
    }

    /// Notes a failure, and gives an error of the same kind.
    fn note(&mut self, error: io::Error) -> io::Error
        ensures once { FailsOnce self.old self.new }
        ensures kind { error_kind result ≡ error_kind error }
    {
        let again = io::Error::from(error.kind());
        self.count = self.count.wrapping_add(1);
        if self.first.is_none() {
            self.first = Some(error);
        }
        again
    }
}

/// A reader that keeps why it failed, and how many bytes it gave.
#[derive(Drop)]
pub struct WatchedReader<R> {
    inner: R,
    /// How many bytes it gave, modulo 2^64.
    given: u64,
    failures: Failures,
}

impl<R> WatchedReader<R> {
    /// A reader that has not failed, and gave nothing so far.
    pub fn new(inner: R) -> WatchedReader<R>
        ensures inner { result.inner ≡ inner }
        ensures given { result.given ≡ 0 }
        ensures count { result.failures.count ≡ 0 }
        ensures first { result.failures.first ≡ None }
    {
        WatchedReader {
            inner,
            given: 0,
            failures: Failures::none(),
        }
    }

    /// Why it failed first; None where it did not.
    pub fn failure(&self) -> Option<&io::Error> {
        self.failures.first.as_ref()
    }
}

impl<R: Read> Read for WatchedReader<R> {
    ghost use Rattle.tp_text.specs.Watching.{FailsOnce};

    ghost remaining = { λ r. R.remaining r.inner };

    /// Reads, and counts what is given. A failure is kept, and its answer is an error of the same kind.
    fn read(&mut self, buf: &mut [u8]) -> io::Result<usize>
        ensures bound { ReadsAtMost result buf.new }
        ensures bytes { ReadConsumes (R.remaining self.old.inner) (R.remaining self.new.inner) result buf.new }
        ensures given { IfOk result (λ n. self.new.given ≡ (self.old.given + n) % 2 ^ 64) }
        ensures nothing_given { OnErr result (self.new.given ≡ self.old.given) }
        ensures well { OnOk result (self.new.failures ≡ self.old.failures) }
        ensures failed { OnErr result (FailsOnce self.old.failures self.new.failures) }
    {
        match self.inner.read(buf) {
            Ok(count) => {
                self.given = self.given.wrapping_add(count as u64);
                Ok(count)
            }
            Err(error) => Err(self.failures.note(error)),
        }
    }
}

/// A writer that keeps why it failed.
#[derive(Drop)]
pub struct WatchedWriter<W> {
    inner: W,
    failures: Failures,
}

impl<W> WatchedWriter<W> {
    /// A writer that has not failed.
    pub fn new(inner: W) -> WatchedWriter<W>
        ensures inner { result.inner ≡ inner }
        ensures count { result.failures.count ≡ 0 }
        ensures first { result.failures.first ≡ None }
    {
        WatchedWriter {
            inner,
            failures: Failures::none(),
        }
    }

    /// Why it failed first; None where it did not.
    pub fn failure(&self) -> Option<&io::Error> {
        self.failures.first.as_ref()
    }
}

impl<W: Write> Write for WatchedWriter<W> {
    ghost use Rattle.tp_text.specs.Watching.{FailsOnce};

    ghost contents = { λ w. W.contents w.inner };

    /// Writes, and keeps a failure. An interruption is none: whoever writes tries again.
    fn write(&mut self, buf: &[u8]) -> io::Result<usize>
        ensures bound { WritesAtMost result buf.now }
        ensures bytes { WriteAppends (W.contents self.old.inner) (W.contents self.new.inner) result buf.now }
        ensures well { OnOk result (self.new.failures ≡ self.old.failures) }
        ensures interrupted { IfErr result (λ e. error_kind e ≡ ErrorKind.Interrupted → self.new.failures ≡ self.old.failures) }
        ensures failed { IfErr result (λ e. error_kind e ≢ ErrorKind.Interrupted → FailsOnce self.old.failures self.new.failures) }
    {
        match self.inner.write(buf) {
            Ok(count) => Ok(count),
            Err(error) if error.kind() == ErrorKind::Interrupted => Err(error),
            Err(error) => Err(self.failures.note(error)),
        }
    }

    /// Flushes, and keeps a failure.
    fn flush(&mut self) -> io::Result<()>
        ensures bytes { Keeps (W.contents self.old.inner) (W.contents self.new.inner) }
        ensures well { OnOk result (self.new.failures ≡ self.old.failures) }
        ensures failed { OnErr result (FailsOnce self.old.failures self.new.failures) }
    {
        match self.inner.flush() {
            Ok(()) => Ok(()),
            Err(error) => Err(self.failures.note(error)),
        }
    }

    /// Writes all of it, and keeps a failure.
    fn write_all(&mut self, buf: &[u8]) -> io::Result<()>
        ensures bytes { OnOk result (Appends (W.contents self.old.inner) (W.contents self.new.inner) buf.now) }
        ensures well { OnOk result (self.new.failures ≡ self.old.failures) }
        ensures failed { OnErr result (FailsOnce self.old.failures self.new.failures) }
    {
        match self.inner.write_all(buf) {
            Ok(()) => Ok(()),
            Err(error) => Err(self.failures.note(error)),
        }
    }
}
