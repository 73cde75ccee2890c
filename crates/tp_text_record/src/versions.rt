//! The two forms of record texts.
ghost use Rattle.std.specs.Prelude.{◌≡◌, ◌↔◌, IsTrue};
ghost use Rattle.tp_text.specs.Reads.{Any, ReadsAs};
ghost use Rattle.tp_text_record.specs.EntryFits.{Suits, stated_priority as priority_of};
ghost use Rattle.tp_text_record.specs.RecordText.{SuitsQueue, header};

use tp_record::entries::Did;
use tp_types::configs::QueueKind;

/// The form of a record text, as its first line says it.
#[derive(Clone, Copy, Debug, PartialEq, Eq)]
pub enum Version {
    /// `tprecord 1`: of a pool whose queue does not go by priority, and of tasks of priority 0 alone.
    One,
    /// `tprecord 2`: of any pool and any tasks. It is the one that is written.
    Two,
}

/// The form that a record text's first line says.
pub fn version_of(line: &[u8]) -> Option<Version>
    ensures { ReadsAs header Any line.now result }
{
    if line == b"tprecord 2".as_slice() {
        return Some(Version::Two);
    }
    if line == b"tprecord 1".as_slice() {
        return Some(Version::One);
    }
    None
}

/// The priority that an answer says, or 0.
fn stated_priority(did: Did) -> u32
    ensures { result ≡ priority_of did }
{
    match did {
        Did::Submit(_, _, priority, _) => priority,
        _ => 0,
    }
}

/// Whether a form has a line for this answer.
pub fn suits(version: Version, did: Did) -> bool
    ensures { IsTrue result ↔ Suits version did }
{
    match version {
        Version::One => stated_priority(did) == 0,
        Version::Two => true,
    }
}

/// Whether a form has a pool line with this queue.
pub fn suits_queue(version: Version, queue: QueueKind) -> bool
    ensures { IsTrue result ↔ SuitsQueue version queue }
{
    match version {
        Version::One => !queue.is_ranked(),
        Version::Two => true,
    }
}
