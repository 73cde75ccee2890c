//! Record texts, written.
ghost use Rattle.std.specs.Prelude.{◌≡◌, ◌++◌, IfOk, IsOkUnless, OnOk, string_bytes};
ghost use Rattle.tp_text_record.specs.declared.versions.Version.{Version};
ghost use Rattle.tp_text_record.specs.RecordText.{record_text as text_of};

use crate::heads::Head;
use std::alloc::{AllocError, Global};
use tp_record::entries::Entry;
use tp_text::entries::write_entry;
use tp_types::configs::Config;
use tp_types::refusals::PoolError;

/// Writes the text of a record behind what is written. Where room is missing, some of it may be
/// written.
fn write_record(text: &mut String, config: &Config, entries: &[Entry]) -> Result<(), AllocError>
    ensures { OnOk result (string_bytes text.new ≡ string_bytes text.old ++ text_of Version.Two config.now entries.now) }
{
    write!(text, "{}", Head(config))?;
    for (i, entry) in entries.iter().enumerate() {
        write_entry(text, i + 1, entry)?;
    }
    let count = entries.len();
    write!(text, "end {count}\n")
}

/// The text of a record in the second form: the configuration's pool line, with a limit only where it is not
/// 4,096, a line for each entry, oldest first, and the line that says how many they are. Want of memory
/// is 4 `NoMemory`. The text is made in memory, and not piece by piece into a writer: a writer of pieces can't say which one failed,
/// and a run that is refused keeps its text.
pub fn record_text(alloc: Global, config: &Config, entries: &[Entry]) -> Result<Vec<u8>, PoolError>
    ensures text { IfOk result (λ text. text.items ≡ text_of Version.Two config.now entries.now) }
    ensures only_memory { IsOkUnless result PoolError.NoMemory }
{
    let mut text = String::new(alloc);
    match write_record(&mut text, config, entries) {
        Ok(()) => Ok(text.into_bytes()),
        Err(_) => Err(PoolError::NoMemory),
    }
}
