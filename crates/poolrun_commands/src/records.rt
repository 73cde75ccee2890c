//! The record of a play.

ghost use Rattle.std.specs.Prelude.{◌≡◌, ◌⊎◌, ◌++◌, [], List, Err, IfErr, IsOkUnless, OnOk, Some};
ghost use Rattle.std.specs.Option.{option_to_list};
ghost use Rattle.std.specs.Result.{result_ok};
ghost use Rattle.std.specs.Io.KnownBytes.{Appends};
ghost use Rattle.tp_types.specs.declared.configs.Config.{Config as Settings};
ghost use Rattle.tp_text.specs.Watching.{TellsWriter, sink};
ghost use Rattle.tp_text_record.specs.declared.versions.Version.{Version};
ghost use Rattle.tp_text_record.specs.RecordText.{record_text};
ghost use Rattle.tp_scenario.specs.Plays.{Answered as Answer, entries_in};
ghost use Rattle.poolrun_commands.specs.Records.{IsRecordOf};

use std::alloc::{AllocError, Global};
use std::io::Write;
use tp_record::entries::Entry;
use tp_scenario::listeners::{Answered, Listener};
use tp_text::watched::WatchedWriter;
use tp_text::writing::write_text;
use tp_text_record::writing::record_text;
use tp_types::configs::Config;
use tp_types::refusals::PoolError;

/// Puts the entry behind the others, where the answer is one.
fn keep(entries: &mut Vec<Entry>, answered: &Answered) -> Result<(), AllocError>
    ensures { OnOk result (entries.new.items ≡ entries.old.items ++ option_to_list (result_ok answered.now)) }
{
    match answered {
        Ok(entry) => {
            entries.push(*entry)?;
            Ok(())
        }
        Err(_) => Ok(()),
    }
}

/// Keeps the record of a play.
#[derive(Debug, Drop)]
pub struct Recording {
    /// The settings of its pool, once the play has begun.
    pub config: Option<Config>,
    /// The entries so far.
    pub entries: Vec<Entry>,
}

impl Listener for Recording {
    ghost heard = { λ r c xs. IsRecordOf r c xs };

    fn begin(&mut self, config: &Config) -> Result<(), AllocError> {
        self.config = Some(*config);
        self.entries.clear();
        Ok(())
    }

    fn hear(&mut self, _number: u32, _line: &[u8], answered: &Answered) -> Result<(), AllocError> {
        keep(&mut self.entries, answered)
    }
}

impl Recording {
    /// One that has heard nothing.
    pub fn new(alloc: Global) -> Recording {
        Recording {
            config: None,
            entries: Vec::new(alloc),
        }
    }

    /// Writes the text of the record at once; nothing where no play has begun. Want of memory is NoMemory (4), and nothing is written
    /// then. WriteFailed (26) comes just where the writer fails now, which keeps why.
    pub fn write<W: Write>(
        &self,
        alloc: Global,
        out: &mut WatchedWriter<W>,
    ) -> Result<(), PoolError>
        ensures written { OnOk result ((c : Settings) (xs : List Answer) → IsRecordOf self.now c xs
            → Appends (W.contents (sink out.old)) (W.contents (sink out.new)) (record_text Version.Two c (entries_in xs))) }
        ensures unwritten { result ≡ Err PoolError.NoMemory → out.new ≡ out.old }
        ensures refused { IfErr result (λ e. (e ≡ PoolError.NoMemory) ⊎ (e ≡ PoolError.WriteFailed)) }
        ensures tells { TellsWriter out.old result out.new }
    {
        let Some(config) = &self.config else {
            return Ok(());
        };
        let text = match record_text(alloc, config, self.entries.as_slice()) {
            Ok(text) => text,
            Err(refusal) => return Err(refusal),
        };
        write_text(out, text.as_slice())
    }
}
