//! Texts read whole.

ghost use Rattle.std.specs.Prelude.{◌≡◌, ◌⊎◌, ◌≤◌, length, IfOk, IfErr, IfSome};
ghost use Rattle.tp_text.specs.Watching.{TellsReader, source};

use crate::watched::WatchedReader;
use std::alloc::Global;
use std::io::Read;
use tp_types::limits::MAX_TEXT_BYTES;
use tp_types::refusals::PoolError;

/// Reads all that a reader gives, at most 1,048,576 bytes. 25 `ReadFailed` comes just where the reader
/// fails now, which keeps why, or gives more; 4 `NoMemory` where the text finds no room.
pub fn read_text<R: Read>(
    alloc: Global,
    reader: &mut WatchedReader<R>,
) -> Result<Vec<u8>, PoolError>
    ensures short { IfOk result (λ text. length text.items ≤ 1048576) }
    ensures whole { IfOk result (λ text. IfSome (R.remaining (source reader.old)) (λ xs. text.items ≡ xs)) }
    ensures refused { IfErr result (λ e. (e ≡ PoolError.ReadFailed) ⊎ (e ≡ PoolError.NoMemory)) }
    ensures unread { TellsReader reader.old result reader.new }
{
    let mut text = Vec::new(alloc);
    let mut piece = [0u8; 4_096];
    while text.len() <= MAX_TEXT_BYTES {
        match reader.read(&mut piece) {
            Ok(0) => return Ok(text),
            Ok(count) => {
                text.extend_from_slice(&piece[..count])
                    .map_err(|_| PoolError::NoMemory)?;
            }
            Err(_) => return Err(PoolError::ReadFailed),
        }
    }
    Err(PoolError::ReadFailed)
}
