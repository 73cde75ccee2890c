//! Laws of what is owed: each accepted task, slot and rank of the pool needs so many more entries at
//! most, and the record keeps room for them all. So every step that is owed can be taken.
//!
//! Of the settings the laws ask no more than a limit of at least 64 entries: so they hold of a pool
//! without a record too.

ghost use Rattle.tp_laws.specs.Room.{RoomIsEnough, OwedFalls, EntriesLower, NeverShortOfRoom, RoomChangesNoAnswer};

/// After every legal history the entries so far and those that are owed fit the record's limit.
pub fn room_is_enough()
    ensures { RoomIsEnough }
{}

/// Each step that does what is owed lowers it by one entry at least: as an answer, whatever the room,
/// and as an entry of a legal record.
pub fn owed_falls()
    ensures answer { OwedFalls }
    ensures entry { EntriesLower }
{}

/// A step that is owed is never refused for want of room, and the room changes no answer to an ask for
/// it.
pub fn never_short_of_room()
    ensures never { NeverShortOfRoom }
    ensures answer { RoomChangesNoAnswer }
{}
