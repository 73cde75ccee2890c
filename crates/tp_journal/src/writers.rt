//! The text of a record, written entry by entry.
ghost use Rattle.std.specs.Prelude.{◌≡◌, ◌⊎◌, ◌+◌, ◌<◌, ◌^◌, ◌++◌, List, ℕ, Option, [], None, suc, length, reverse, IfOk, IfErr, IsOkUnless, IsSome, OnOk};
ghost use Rattle.std.specs.List.{flat_map};
ghost use Rattle.std.specs.Io.KnownBytes.{Appends};
ghost use Rattle.tp_types.specs.declared.configs.Config.{Config as Settings};
ghost use Rattle.tp_record.specs.declared.entries.Entry.{Entry as Told};
ghost use Rattle.tp_glance.specs.Word.{IsFrontOf};
ghost use Rattle.tp_text.specs.Lines.{ended};
ghost use Rattle.tp_text_record.specs.declared.versions.Version.{Version};
ghost use Rattle.tp_text_record.specs.ReadRecord.{head};
ghost use Rattle.tp_text_record.specs.RecordText.{end_line, entry_texts, record_text as text_of};
ghost use Rattle.tp_journal.specs.Journals.{HasWritten, IsJournalOf};

use std::alloc::Global;
use std::io::{self, Write};
use tp_record::entries::Entry;
use tp_record::packed::{Packed, unpacked};
use tp_text::entries::write_entry;
use tp_text_record::writing::record_text;
use tp_types::configs::Config;
use tp_types::refusals::PoolError;

/// The last line of a record without entries.
const NO_ENTRIES: &str = "end 0\n";

/// A writer of a record's text, with how many of its entries, and how many bytes, were written. Each call writes whole lines, and flushes.
///
/// A call that is refused with NoMemory (4) wrote nothing, and may be made again. Once the writer has failed, the text may end within a
/// line: `failure` says why, and each call is refused with WriteFailed (26).
#[derive(Drop)]
pub struct RecordWriter<W> {
    writer: W,
    entries: usize,
    bytes: usize,
    failure: Option<io::Error>,
}

/// A record's text that is cut off.
#[derive(Drop)]
pub struct Cut<W> {
    /// Why it is.
    pub error: PoolError,
    /// Its writer, with how many entries were written.
    pub writer: RecordWriter<W>,
}

/// The first two lines of the text of a record of a pool with these settings: all but the last one of a record without entries.
/// NoMemory (4).
pub fn head_of(alloc: Global, config: &Config) -> Result<Vec<u8>, PoolError>
    ensures text { IfOk result (λ text. text.items ≡ head Version.Two config.now) }
    ensures refused { IsOkUnless result PoolError.NoMemory }
{
    match record_text(alloc, config, &[]) {
        Ok(mut text) => {
            text.truncate(text.len() - NO_ENTRIES.len());
            Ok(text)
        }
        Err(refusal) => Err(refusal),
    }
}

// The lines of these entries, of which so many stand before.
fn lines_of(alloc: Global, before: usize, entries: &[Entry]) -> Result<Vec<u8>, PoolError>
    requires { before + length entries.now < 2 ^ 64 }
    ensures text { IfOk result (λ text. text.items ≡ flat_map ended (entry_texts (suc before) entries.now)) }
    ensures refused { IsOkUnless result PoolError.NoMemory }
{
    let mut text = String::new(alloc);
    for (i, entry) in entries.iter().enumerate() {
        write_entry(&mut text, before + i + 1, entry)?;
    }
    Ok(text.into_bytes())
}

// The last line of the text of a record of so many entries.
fn end_of(alloc: Global, entries: usize) -> Result<Vec<u8>, PoolError>
    ensures text { IfOk result (λ text. text.items ≡ ended (end_line entries)) }
    ensures refused { IsOkUnless result PoolError.NoMemory }
{
    let mut text = String::new(alloc);
    write!(text, "end {entries}\n")?;
    Ok(text.into_bytes())
}

// Writes all of a text, and flushes.
fn put<W: Write>(writer: &mut W, text: &[u8]) -> io::Result<()>
    ensures { OnOk result (Appends (W.contents writer.old) (W.contents writer.new) text.now) }
{
    writer.write_all(text)?;
    writer.flush()
}

impl<W: Write> RecordWriter<W> {
    /// It writes to this writer. Nothing is written so far.
    pub fn new(writer: W) -> RecordWriter<W>
        ensures { result ≡ record { writer = writer; entries = 0; bytes = 0; failure = None } }
    {
        RecordWriter {
            writer,
            entries: 0,
            bytes: 0,
            failure: None,
        }
    }

    /// How many entries were written.
    pub fn entries(&self) -> usize
        ensures { result ≡ self.now.entries }
    {
        self.entries
    }

    /// Why the writer failed; None where it did not.
    pub fn failure(&self) -> Option<&io::Error> {
        self.failure.as_ref()
    }

    /// The writer, handed back.
    pub fn into_writer(self) -> W
        ensures { result ≡ self.writer }
    {
        let RecordWriter {
            writer,
            entries: _,
            bytes: _,
            failure: _,
        } = self;
        writer
    }

    // Writes a text. WriteFailed (26) where the writer fails, which keeps why, or has failed before.
    fn write(&mut self, text: &[u8]) -> Result<(), PoolError>
        ensures written { OnOk result (Appends (W.contents self.old.writer) (W.contents self.new.writer) text.now) }
        ensures sound { OnOk result (self.old.failure ≡ None) }
        ensures failed { IfErr result (λ e. (e ≡ PoolError.WriteFailed) × IsSome self.new.failure) }
        ensures same { (self.new.entries ≡ self.old.entries) × (self.new.bytes ≡ self.old.bytes) }
    {
        if self.failure.is_some() {
            return Err(PoolError::WriteFailed);
        }
        match put(&mut self.writer, text) {
            Ok(()) => Ok(()),
            Err(reason) => {
                self.failure = Some(reason);
                Err(PoolError::WriteFailed)
            }
        }
    }

    /// Writes the lines that come before the first entry, which `head_of` gives. WriteFailed (26).
    pub fn begin(&mut self, text: &[u8]) -> Result<(), PoolError>
        requires none { self.old.entries ≡ 0 }
        ensures begun { OnOk result ((c : Settings) → text.now ≡ head Version.Two c → HasWritten W.contents (W.contents self.old.writer) c [] self.new) }
        ensures refused { IfErr result (λ e. (e ≡ PoolError.WriteFailed) × IsSome self.new.failure) }
    {
        match self.write(text) {
            Ok(()) => {
                self.bytes = text.len();
                Ok(())
            }
            Err(refusal) => Err(refusal),
        }
    }

    /// Writes the lines of the next entries, the oldest first. NoMemory (4) with nothing written, or WriteFailed (26); BookFull (5), with
    /// nothing written, where there are too many to count.
    pub fn add(&mut self, alloc: Global, entries: &[Entry]) -> Result<(), PoolError>
        ensures added { OnOk result ((before : Option (List ℕ)) (c : Settings) (es : List Told) → HasWritten W.contents before c es self.old → HasWritten W.contents before c (es ++ entries.now) self.new) }
        ensures sound { OnOk result (self.old.failure ≡ None) }
        ensures refused { IfErr result (λ e. (((e ≡ PoolError.NoMemory) ⊎ (e ≡ PoolError.BookFull)) × (self.new ≡ self.old)) ⊎ ((e ≡ PoolError.WriteFailed) × IsSome self.new.failure)) }
    {
        let Some(count) = self.entries.checked_add(entries.len()) else {
            return Err(PoolError::BookFull);
        };
        let text = match lines_of(alloc, self.entries, entries) {
            Ok(text) => text,
            Err(refusal) => return Err(refusal),
        };
        let Some(bytes) = self.bytes.checked_add(text.len()) else {
            return Err(PoolError::BookFull);
        };
        match self.write(text.as_slice()) {
            Ok(()) => {
                self.entries = count;
                self.bytes = bytes;
                Ok(())
            }
            Err(refusal) => Err(refusal),
        }
    }

    // Writes the last line. NoMemory (4) with nothing written, or WriteFailed (26).
    fn end(&mut self, alloc: Global) -> Result<(), PoolError>
        ensures whole { OnOk result ((before : Option (List ℕ)) (c : Settings) (es : List Told) → HasWritten W.contents before c es self.old → Appends before (W.contents self.new.writer) (text_of Version.Two c es)) }
        ensures refused { IfErr result (λ e. ((e ≡ PoolError.NoMemory) × (self.new ≡ self.old)) ⊎ ((e ≡ PoolError.WriteFailed) × IsSome self.new.failure)) }
    {
        let text = match end_of(alloc, self.entries) {
            Ok(text) => text,
            Err(refusal) => return Err(refusal),
        };
        self.write(text.as_slice())
    }

    // Writes those of a record's entries that are missing, and the last line, as `finish`.
    fn write_rest(&mut self, alloc: Global, entries: &[Packed]) -> Result<(), PoolError>
        ensures whole { OnOk result ((before : Option (List ℕ)) (c : Settings) (known : List Told) → IsJournalOf W.contents before c known self.old → IsFrontOf known (reverse entries.now) → Appends before (W.contents self.new.writer) (text_of Version.Two c entries.now)) }
        ensures refused { IfErr result (λ e. (e ≡ PoolError.NoMemory) ⊎ (e ≡ PoolError.BookFull) ⊎ ((e ≡ PoolError.TornRecord) × (length entries.now < self.old.entries)) ⊎ ((e ≡ PoolError.WriteFailed) × IsSome self.new.failure)) }
    {
        let Some(rest) = entries.get(self.entries..) else {
            return Err(PoolError::TornRecord);
        };
        let Ok(rest) = unpacked(alloc, rest) else {
            return Err(PoolError::NoMemory);
        };
        match self.add(alloc, rest.as_slice()) {
            Ok(()) => self.end(alloc),
            Err(refusal) => Err(refusal),
        }
    }

    /// Writes those of a record's entries that are missing, and the last line, which says how many they are, and hands the writer back.
    /// The text is then that of the whole record, where what was written before is the text of a front of it.
    ///
    /// NoMemory (4), behind which it may be called again, or WriteFailed (26). TornRecord (22) where the record has fewer entries than were
    /// written. BookFull (5) does not come.
    pub fn finish(self, alloc: Global, entries: &[Packed]) -> Result<W, Cut<W>>
        ensures whole { IfOk result (λ w. (before : Option (List ℕ)) (c : Settings) (known : List Told) → IsJournalOf W.contents before c known self → IsFrontOf known (reverse entries.now) → Appends before (W.contents w) (text_of Version.Two c entries.now)) }
        ensures refused { IfErr result (λ cut. (cut.error ≡ PoolError.NoMemory) ⊎ (cut.error ≡ PoolError.BookFull) ⊎ ((cut.error ≡ PoolError.TornRecord) × (length entries.now < self.entries)) ⊎ ((cut.error ≡ PoolError.WriteFailed) × IsSome cut.writer.failure)) }
    {
        let mut writer = self;
        match writer.write_rest(alloc, entries) {
            Ok(()) => Ok(writer.into_writer()),
            Err(error) => Err(Cut { error, writer }),
        }
    }

    // Writes what is missing of the text of a whole record, as `finish_by`.
    fn write_text_rest(&mut self, text: &[u8]) -> Result<(), PoolError>
        ensures whole { OnOk result ((before : Option (List ℕ)) (c : Settings) (known es : List Told) → IsJournalOf W.contents before c known self.old → IsFrontOf known (reverse es) → text.now ≡ text_of Version.Two c es → Appends before (W.contents self.new.writer) text.now) }
        ensures refused { IfErr result (λ e. ((e ≡ PoolError.TornRecord) × (length text.now < self.old.bytes)) ⊎ ((e ≡ PoolError.WriteFailed) × IsSome self.new.failure)) }
    {
        match text.get(self.bytes..) {
            Some(rest) => self.write(rest),
            None => Err(PoolError::TornRecord),
        }
    }

    /// As `finish`, where the text of the whole record is there already, so that no line is made twice.
    ///
    /// WriteFailed (26), or TornRecord (22) where the text has fewer bytes than were written.
    pub fn finish_by(self, text: &[u8]) -> Result<W, Cut<W>>
        ensures whole { IfOk result (λ w. (before : Option (List ℕ)) (c : Settings) (known es : List Told) → IsJournalOf W.contents before c known self → IsFrontOf known (reverse es) → text.now ≡ text_of Version.Two c es → Appends before (W.contents w) text.now) }
        ensures refused { IfErr result (λ cut. ((cut.error ≡ PoolError.TornRecord) × (length text.now < self.bytes)) ⊎ ((cut.error ≡ PoolError.WriteFailed) × IsSome cut.writer.failure)) }
    {
        let mut writer = self;
        match writer.write_text_rest(text) {
            Ok(()) => Ok(writer.into_writer()),
            Err(error) => Err(Cut { error, writer }),
        }
    }
}
