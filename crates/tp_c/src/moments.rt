//! The pool after an entry of its record: bytes in, bytes out.

ghost use Rattle.std.specs.Prelude.{List, ℕ};
ghost use Rattle.tp_c.specs.declared.statuses.Status.{Status as Ending};
ghost use Rattle.tp_c.specs.Rooms.{IsLaid};

use crate::rooms::lay;
use crate::statuses::Status;
use crate::texts::refuse;
use std::alloc::Global;
use tp_audit_plain::summary::Flaw;
use tp_record::entries::Entry;
use tp_story::fronts::Front;
use tp_story_words::fronts::write_front;
use tp_text_record::reading::{Taker, read_whole};
use tp_text_record::versions::Version;
use tp_types::configs::Config;
use tp_types::limits::MAX_TEXT_BYTES;
use tp_types::refusals::PoolError;

/// The entry's number that stands for the end of the record.
pub const THE_END: u64 = u64::MAX;

/// Takes a record's entries as far as the one that is asked for, up to the first flaw.
#[derive(Drop)]
struct Following {
    front: Front,
    flaw: Option<usize>,
}

impl Taker for Following {
    type Question = Option<u64>;

    ghost about = { λ q f v c. Unit {0} };

    ghost took = { λ f es. Unit {0} };

    fn new(
        alloc: Global,
        question: &Option<u64>,
        _version: Version,
        config: &Config,
    ) -> Result<Following, PoolError> {
        match Front::new(alloc, config, *question) {
            Ok(front) => Ok(Following { front, flaw: None }),
            Err(_) => Err(PoolError::NoMemory),
        }
    }

    fn take(&mut self, entry: &Entry) -> Result<(), PoolError> {
        if self.flaw.is_some() {
            return Ok(());
        }
        match self.front.tell(entry) {
            Ok(()) => Ok(()),
            Err(Flaw::At(number)) => {
                self.flaw = Some(number);
                Ok(())
            }
            Err(Flaw::NoMemory) => Err(PoolError::NoMemory),
        }
    }
}

/// What is told of a record: what the pool was like, or the line of the first flaw.
fn lines_of(
    alloc: Global,
    text: &[u8],
    entry: Option<u64>,
) -> Result<(Vec<u8>, Status), PoolError> {
    if MAX_TEXT_BYTES < text.len() {
        return Err(PoolError::ReadFailed);
    }
    let following = read_whole::<Following>(alloc, &entry, text)?.taker;
    if let Some(number) = following.flaw {
        let line = format!(in alloc; "flaw {number}\n")?;
        return Ok((line.into_bytes(), Status::Flaw));
    }
    if !following.front.has_entry() {
        return Err(PoolError::NotThere);
    }
    let mut lines = Vec::new(alloc);
    match write_front(alloc, &mut lines, &following.front) {
        Ok(()) => Ok((lines, Status::Done)),
        Err(_) => Err(PoolError::NoMemory),
    }
}

/// Tells what the pool was like after the entry of this number, or after the last for THE_END, of the record that a text is the text of,
/// and lays that into the room. The answer is 0, Flaw (32), the number of the refusal, which is NotThere (8) where the record has no such
/// entry, or TooSmall (33), where nothing was laid; `needed` is the length of what was to be laid.
#[unsafe(no_mangle)]
pub extern "C" fn zk_core_now(
    alloc: Global,
    text: &[u8],
    entry: u64,
    room: &mut [u8],
    needed: &mut usize,
) -> u32
    ensures { (out : List ℕ) × (ending : Ending) × IsLaid out ending room.old room.new needed.new result }
{
    let until = if entry == THE_END { None } else { Some(entry) };
    match lines_of(alloc, text, until) {
        Ok((lines, status)) => lay(lines.as_slice(), status, room, needed),
        Err(error) => refuse(&[], error, room, needed),
    }
}
