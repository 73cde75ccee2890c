//! Record texts: the configuration of a pool and the entries of its record, read line by line.
ghost use Rattle.std.specs.Prelude.{◌≡◌, ◌≤◌, ◌<◌, ◌+◌, ◌^◌, length};
ghost use Rattle.tp_text.specs.Fits.{Fits32};
ghost use Rattle.tp_text.specs.Reads.{ReadsAs};
ghost use Rattle.tp_text_record.specs.RecordText.{FitsConfig, HasPoolLine, end_line, pool_line};
ghost use Rattle.tp_text_record.specs.ReadRecord.{FitsBody, ReadsRecord, body_text};

use crate::entries::read_entry;
use crate::reading::{Taker, read_whole};
use crate::versions::{Version, suits_queue};
use std::alloc::Global;
use tp_record::entries::Entry;
use tp_text::numbers::number;
use tp_text::pools::pool_of;
use tp_text::words::behind;
use tp_types::configs::Config;
use tp_types::limits::DEFAULT_RECORD_LIMIT;
use tp_types::refusals::PoolError;

/// What a record text says.
#[derive(Debug, PartialEq, Eq, Drop)]
pub struct Record {
    /// The form of the text.
    pub version: Version,
    /// The configuration with which the pool was made.
    pub config: Config,
    /// The entries of its record, oldest first.
    pub entries: Vec<Entry>,
}

/// What a line says behind the pool line.
#[derive(Clone, Copy, Debug, PartialEq, Eq)]
pub enum BodyLine {
    /// The next entry.
    Entry(Entry),
    /// The record ends.
    End,
}

/// The configuration that a text is the written pool line of.
fn written_pool(text: &str) -> Option<Config>
    ensures { ReadsAs pool_line HasPoolLine text.now result }
{
    let pool = pool_of(text)?;
    if pool.limit == Some(DEFAULT_RECORD_LIMIT) {
        return None;
    }
    Some(pool.config())
}

/// The configuration that a line is the written pool line of in some form.
fn any_pool_line(line: &[u8]) -> Option<Config>
    ensures { ReadsAs pool_line HasPoolLine line.now result }
{
    written_pool(str::from_utf8(line).ok()?)
}

/// The configuration that a line is the written pool line of in this form: without a limit where it is
/// 4,096. Its settings may be some that no pool can have.
pub fn read_pool_line(version: Version, line: &[u8]) -> Option<Config>
    ensures { ReadsAs pool_line (FitsConfig version) line.now result }
{
    let config = any_pool_line(line)?;
    if suits_queue(version, config.queue) {
        Some(config)
    } else {
        None
    }
}

/// How many entries the last line of a record text says.
fn ending(text: &str) -> Option<u32>
    ensures { ReadsAs end_line Fits32 text.now result }
{
    number(behind(text, "end")?)
}

/// How many entries a line says that ends a record text, as `end 5`.
pub fn read_end_line(line: &[u8]) -> Option<u32>
    ensures { ReadsAs end_line Fits32 line.now result }
{
    ending(str::from_utf8(line).ok()?)
}

/// What a line says behind the pool line and so many entries: the next entry, or that there are no
/// more. Only the number of the entries is handed in, so an auditor that takes one entry at a time holds none.
pub fn read_body_line(version: Version, line: &[u8], before: u32) -> Option<BodyLine>
    requires { before + 1 < 2 ^ 32 }
    ensures { ReadsAs (body_text before) (FitsBody version) line.now result }
{
    if let Some((number, entry)) = read_entry(version, line) {
        return (number == before + 1).then_some(BodyLine::Entry(entry));
    }
    (read_end_line(line)? == before).then_some(BodyLine::End)
}

impl Taker for Record {
    type Question = ();

    ghost about = { λ _ r v c. (r.version ≡ v) × (r.config ≡ c) };

    ghost took = { λ r es. r.entries.items ≡ es };

    fn new(
        alloc: Global,
        _question: &(),
        version: Version,
        config: &Config,
    ) -> Result<Record, PoolError> {
        Ok(Record {
            version,
            config: *config,
            entries: Vec::new(alloc),
        })
    }

    fn take(&mut self, entry: &Entry) -> Result<(), PoolError> {
        match self.entries.push(*entry) {
            Ok(()) => Ok(()),
            Err(_) => Err(PoolError::NoMemory),
        }
    }
}

/// The record that a text says. Else its refusal: that of a configuration that no pool can have
/// (1 `BadSizes`, 2 `BadCapacity`, 3 `BadLimit`, 11 `KeepZero`) where all is good up to the pool
/// line, 24 `BadEntry` with the number of the first wrong line, or 4 `NoMemory`. A line is wrong that
/// can't stand in its place in the text of any record in the form that it says; where the `end` is missing, it is the line
/// after the last.
pub fn read_record(alloc: Global, text: &[u8]) -> Result<Record, PoolError>
    requires { length text.now ≤ 1048576 }
    ensures { ReadsRecord text.now result }
{
    match read_whole::<Record>(alloc, &(), text) {
        Ok(body) => Ok(body.taker),
        Err(refusal) => Err(refusal),
    }
}
