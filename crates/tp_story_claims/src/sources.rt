//! The entries of a record, drawn one after another: two records are read side by side, where a `Taker` is told all of one.

ghost use Rattle.std.specs.Prelude.{◌+◌, ◌<◌, ◌^◌};
ghost use Rattle.tp_types.specs.Config.{IsConfig};
ghost use Rattle.std.specs.Prelude.{IfOk};

use std::alloc::Global;
use std::io::Read;
use tp_record::entries::Entry;
use tp_text::lines::next_line;
use tp_text::watched::WatchedReader;
use tp_text_record::reading::RefusedLine;
use tp_text_record::records::{BodyLine, read_body_line, read_pool_line};
use tp_text_record::versions::{Version, version_of};
use tp_types::configs::Config;
use tp_types::refusals::PoolError;

/// What gives the entries of a record, the oldest first.
pub trait Source {
    ghost use Rattle.std.specs.Prelude.{◌++◌, List, IfOk};
    ghost use Rattle.tp_record.specs.declared.entries.Entry.{Entry as Told};
    ghost use Rattle.tp_story_claims.specs.Listed.{listed};

    /// It gave these entries so far.
    ghost gave: { Self → List Told → Type 0 };

    /// The next entry; None where the record ends, or is cut off. Refused as `answer_question` refuses a text.
    fn next(&mut self) -> Result<Option<Entry>, PoolError>
        ensures { IfOk result (λ o. (es : List Told) → gave self.old es → gave self.new (es ++ listed o)) };
}

/// No line of a record has more bytes.
const LONGEST_LINE: usize = 256;

/// A text of more pieces is too long.
const MAX_PIECES: u64 = 1 << 51;

/// From this many entries on, the next line may have no number of 32 bits.
const TOO_MANY: u32 = u32::MAX - 4;

/// A record's text that is read line by line, in pieces of 4,096 bytes.
#[derive(Drop)]
pub struct RecordText<'a, R> {
    alloc: Global,
    reader: &'a mut WatchedReader<R>,
    /// What was read and not yet taken begins at this place of the buffer.
    at: usize,
    buffer: Vec<u8>,
    version: Version,
    entries: u32,
    is_over: bool,
    refused: Option<RefusedLine>,
}

impl<'a, R: Read> RecordText<'a, R> {
    /// A text of which nothing was read.
    pub fn new(alloc: Global, reader: &'a mut WatchedReader<R>) -> RecordText<'a, R> {
        RecordText {
            alloc,
            reader,
            at: 0,
            buffer: Vec::new(alloc),
            version: Version::Two,
            entries: 0,
            is_over: false,
            refused: None,
        }
    }

    /// The reader, which keeps why it failed.
    pub fn reader(&self) -> &WatchedReader<R> {
        self.reader
    }

    /// The line for which the text is refused, where there was memory for it.
    pub fn refused(&self) -> &Option<RefusedLine> {
        &self.refused
    }

    /// Behind how many entries the record is cut off; None where it has its last line.
    pub fn cut_off(&self) -> Option<u32> {
        if self.is_over {
            None
        } else {
            Some(self.entries)
        }
    }

    /// What was read and not yet taken.
    fn left(&self) -> &[u8] {
        self.buffer.get(self.at..).unwrap_or(&[])
    }

    /// Reads one more piece. The answer says whether there was one.
    fn read_piece(&mut self) -> Result<bool, PoolError> {
        let mut piece = [0u8; 4_096];
        let count = match self.reader.read(&mut piece) {
            Ok(count) => count,
            Err(_) => return Err(PoolError::ReadFailed),
        };
        let mut text = Vec::new(self.alloc);
        text.extend_from_slice(self.left())?;
        text.extend_from_slice(&piece[..count])?;
        self.buffer = text;
        self.at = 0;
        Ok(count > 0)
    }

    /// Reads on until a whole line stands in the buffer. The answer says whether there is one.
    fn has_line(&mut self, number: u32) -> Result<bool, PoolError> {
        for _ in 0..MAX_PIECES {
            if next_line(self.left()).is_some() {
                return Ok(true);
            }
            if self.left().len() > LONGEST_LINE {
                return Err(self.refuse(number));
            }
            if !self.read_piece()? {
                return Ok(false);
            }
        }
        Err(PoolError::ReadFailed)
    }

    /// The next line, and how many bytes it takes with its line feed. Call it where there is one.
    fn line(&self) -> (&[u8], usize) {
        match next_line(self.left()) {
            Some((line, _)) => (line, line.len().saturating_add(1)),
            None => (&[], 0),
        }
    }

    /// Goes on behind so many bytes.
    fn skip(&mut self, bytes: usize) {
        self.at = self.at.saturating_add(bytes);
    }

    /// The next line, or what was read of it; None where there is no memory for it.
    fn shown(&self) -> Option<RefusedLine> {
        let left = self.left();
        let (line, is_ended) = match next_line(left) {
            Some((line, _)) => (line, true),
            None => (left, false),
        };
        let bytes = Vec::from_slice(self.alloc, line).ok()?;
        Some(RefusedLine {
            bytes,
            is_ended,
            is_behind_end: self.is_over,
        })
    }

    /// Refuses the line with this number, and keeps it.
    fn refuse(&mut self, number: u32) -> PoolError {
        self.refused = self.shown();
        PoolError::BadEntry(number)
    }

    /// Reads the text's first line, which says its form.
    fn read_version(&mut self) -> Result<(), PoolError> {
        if !self.has_line(1)? {
            return Err(self.refuse(1));
        }
        let (line, bytes) = self.line();
        let Some(version) = version_of(line) else {
            return Err(self.refuse(1));
        };
        self.version = version;
        self.skip(bytes);
        Ok(())
    }

    /// The settings of the record's pool, which stand in the text's first two lines. Refused as `answer_question` refuses a text.
    pub fn open(&mut self) -> Result<Config, PoolError>
        ensures { IfOk result (λ c. IsConfig c) }
    {
        self.read_version()?;
        if !self.has_line(2)? {
            return Err(self.refuse(2));
        }
        let (line, bytes) = self.line();
        let Some(config) = read_pool_line(self.version, line) else {
            return Err(self.refuse(2));
        };
        match config.check() {
            Ok(()) => {
                self.skip(bytes);
                Ok(config)
            }
            Err(refusal) => {
                let _ = self.refuse(2);
                Err(refusal)
            }
        }
    }

    /// What the text's end says: nothing may be left behind the record's last line.
    fn finish(&mut self, number: u32) -> Result<Option<Entry>, PoolError> {
        if self.is_over && !self.left().is_empty() {
            return Err(self.refuse(number));
        }
        Ok(None)
    }

    /// The entry in the next line; None where it is the last line, or there is none.
    fn read_entry(&mut self) -> Result<Option<Entry>, PoolError> {
        let before = self.entries;
        if before >= TOO_MANY {
            return Err(PoolError::ReadFailed);
        }
        let number = if self.is_over { before + 4 } else { before + 3 };
        if !self.has_line(number)? {
            return self.finish(number);
        }
        let (line, bytes) = self.line();
        let read = read_body_line(self.version, line, before);
        match read {
            Some(BodyLine::Entry(entry)) if !self.is_over => {
                self.entries = before + 1;
                self.skip(bytes);
                Ok(Some(entry))
            }
            Some(BodyLine::End) if !self.is_over => {
                self.is_over = true;
                self.skip(bytes);
                Ok(None)
            }
            _ => Err(self.refuse(number)),
        }
    }
}

impl<R: Read> Source for RecordText<'_, R> {
    ghost gave = { λ s es. Unit {0} };

    fn next(&mut self) -> Result<Option<Entry>, PoolError> {
        match self.read_entry() {
            // Behind the last line there may be more, which no record has.
            Ok(None) if self.is_over => self.read_entry(),
            other => other,
        }
    }
}
