//! A recorder that keeps its entries, and one that counts them.

ghost use Rattle.std.specs.Prelude.{◌≡◌};

use crate::calls::{Call, Said, Tested};
use std::alloc::{AllocError, Global};
use std::mem;
use tp_record::entries::{Ask, Did, Entry};
use tp_record::packed::{Packed, unpacked};
use tp_record::recorders::{Full, Recorder, Tally};
use tp_text::numbers::long_number;

fn tick(moment: u64) -> Entry
    ensures { result ≡ record { by = 1; ask = Ask.Tick moment; did = Did.Tick moment } }
{
    Entry {
        by: 1,
        ask: Ask::Tick(moment),
        did: Did::Tick(moment),
    }
}

/// Notes a tick where there is room for it. The answer says whether there was.
fn note<R: Recorder>(recorder: &mut R, moment: u64) -> bool {
    if recorder.room() == 0 {
        return false;
    }
    recorder.note(tick(moment));
    true
}

/// Makes a call of any recorder.
fn answer<R: Recorder>(recorder: &mut R, call: &Call<'_>) -> Said {
    match call.name {
        "room" => call.says(&recorder.room()),
        "len" => call.says(&recorder.len()),
        "tick" => call.says(&note(recorder, long_number(call.first)?)),
        _ => None,
    }
}

impl Tested for Tally {
    fn answer(&mut self, call: &Call<'_>) -> Said {
        answer(self, call)
    }
}

/// A recorder that keeps its entries, and those that it gave at its end.
#[derive(Drop)]
pub struct Kept(pub Full, pub Vec<Packed>);

/// The entry at this place.
fn entry(alloc: Global, packed: &[Packed], at: usize) -> Result<Option<Entry>, AllocError> {
    Ok(unpacked(alloc, packed)?.get(at).copied())
}

impl Tested for Kept {
    fn answer(&mut self, call: &Call<'_>) -> Said {
        match call.name {
            "entry" => call.says(&entry(call.alloc, self.0.entries(), call.size()?)),
            "given" => call.says(&entry(call.alloc, &self.1, call.size()?)),
            "end" => {
                let ended = mem::replace(&mut self.0, Full::new(call.alloc, 0).ok()?);
                self.1 = ended.into_entries();
                call.says(&self.1.len())
            }
            _ => answer(&mut self.0, call),
        }
    }
}
