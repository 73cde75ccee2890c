//! JSON, an object a line: what comes of a scenario (`steps --json`), or the record of a pool that ran jobs (`threads --json`).

ghost use Rattle.std.specs.Prelude.{◌≤◌, length, IfOk};
ghost use Rattle.poolrun_commands.specs.Steps.{IsPassed};

use crate::listings::Listing;
use crate::refusals::Refusals;
use crate::statuses::finish;
use crate::steps::passes;
use crate::telling::tell_refusal;
use crate::texts::text_or_status;
use poolrun_choices::choices::Playing;
use std::alloc::{AllocError, Global};
use std::io::{Read, Write};
use tp_audit::tables::Tables;
use tp_audit_plain::summary::Summary;
use tp_messages::messages::Style;
use tp_messages::mistakes::Kind;
use tp_record::entries::Entry;
use tp_scenario::listeners::{Answered, Both, Listener};
use tp_scenario::play::play;
use tp_scenario::step::Refusal;
use tp_story_words::objects::{CountMembers, entry_members};
use tp_text::asks::ShownAsk;
use tp_text::watched::{WatchedReader, WatchedWriter};
use tp_text::writing::write_text;
use tp_text_record::reading::{Ending, Taker, read_stream};
use tp_text_record::versions::Version;
use tp_types::configs::Config;
use tp_types::refusals::PoolError;
use tp_types::tasks::Fate;

/// Writes the object of an entry, by the tables before it, as `{"number":1,"by":0,"did":"tidy"}`.
pub(crate) fn write_object(
    alloc: Global,
    text: &mut String,
    tables: &Tables,
    entry: &Entry,
) -> Result<(), AllocError> {
    let number = u64::from(tables.steps) + 1;
    let members = entry_members(alloc, entry)?;
    let members = members.as_str();
    write!(text, "{{\"number\":{number},{members}}}\n")
}

/// Writes the object of a refusal, as `{"refused":7,"name":"UnknownSlot","ask":"take w3"}`.
fn write_refusal(text: &mut String, refusal: &Refusal) -> Result<(), AllocError> {
    let number = refusal.error.number();
    let name = refusal.error.name();
    let ask = ShownAsk::of_entry(refusal.ask);
    write!(
        text,
        "{{\"refused\":{number},\"name\":\"{name}\",\"ask\":\"{ask}\"}}\n"
    )
}

/// Writes the object of a task, with its fate where it has one, as `{"task":0,"fate":"run"}`.
fn write_task(text: &mut String, t: usize, fate: Option<Fate>) -> Result<(), AllocError> {
    match fate {
        Some(fate) => {
            let fate = fate.name();
            write!(text, "{{\"task\":{t},\"fate\":\"{fate}\"}}\n")
        }
        None => write!(text, "{{\"task\":{t},\"fate\":null}}\n"),
    }
}

/// Writes an object for each task, and one for the run state and the counters.
fn write_end(text: &mut String, summary: &Summary) -> Result<(), AllocError> {
    for (t, fate) in summary.fates.iter().enumerate() {
        write_task(text, t, *fate)?;
    }
    let state = summary.state.name();
    let counts = CountMembers(&summary.counts);
    write!(text, "{{\"state\":\"{state}\",{counts}}}\n")
}

/// The objects of the entries that were taken, and those for each task and for the run state and the counters.
fn ended(listing: Listing) -> Result<String, PoolError> {
    let Listing {
        auditor,
        mut text,
        ..
    } = listing;
    match auditor.finish() {
        Ok(summary) => {
            write_end(&mut text, &summary)?;
            Ok(text)
        }
        Err(_) => Err(PoolError::NoMemory),
    }
}

/// The objects of a record's whole text, of any length: one for each entry, for each task, and for the end. The first wrong line is 24
/// (`BadEntry`).
pub fn record_objects(alloc: Global, text: &[u8]) -> Result<String, PoolError> {
    let mut refused = None;
    let mut reader = WatchedReader::new(text);
    let body = read_stream::<&[u8], Listing>(alloc, &(), Ending::Whole, &mut reader, &mut refused)?;
    ended(body.taker)
}

/// The objects of a play, written as its steps are answered; None until it begins.
#[derive(Drop)]
struct PlayObjects {
    alloc: Global,
    listing: Option<Listing>,
}

impl Listener for PlayObjects {
    ghost heard = { λ _ _ _. Unit {0} };

    fn begin(&mut self, config: &Config) -> Result<(), AllocError> {
        match Listing::new(self.alloc, &(), Version::Two, config) {
            Ok(listing) => {
                self.listing = Some(listing);
                Ok(())
            }
            Err(_) => Err(AllocError),
        }
    }

    fn hear(&mut self, _number: u32, _line: &[u8], answered: &Answered) -> Result<(), AllocError> {
        let Some(listing) = &mut self.listing else {
            return Ok(());
        };
        match answered {
            Ok(entry) => match listing.take(entry) {
                Ok(()) => Ok(()),
                Err(_) => Err(AllocError),
            },
            Err(refusal) => write_refusal(&mut listing.text, refusal),
        }
    }
}

impl PlayObjects {
    /// The text of a play that ended so. Where a line behind the pool line is bad, it has no objects of its end. A refusal before the play
    /// began, and want of memory, have no text.
    fn text(self, ending: Result<(), PoolError>) -> Result<String, PoolError> {
        let PlayObjects { alloc, listing } = self;
        let Some(listing) = listing else {
            ending?;
            return Ok(String::new(alloc));
        };
        match ending {
            Ok(()) => ended(listing),
            Err(PoolError::BadLine(_)) => Ok(listing.text),
            Err(refusal) => Err(refusal),
        }
    }
}

/// Plays a scenario, and writes the objects of its steps to `out`. The answer says whether a refused step is let pass.
fn play_as_json<W: Write, E: Write>(
    alloc: Global,
    playing: Playing,
    text: &[u8],
    out: &mut WatchedWriter<W>,
    errors: &mut E,
) -> Result<bool, PoolError>
    requires { length text.now ≤ 1048576 }
    ensures passed { IfOk result (IsPassed playing.is_strict text.now) }
{
    let mut heard = Both {
        one: PlayObjects {
            alloc,
            listing: None,
        },
        other: Refusals::new(alloc, playing.explains),
    };
    let played = play(alloc, text, &mut heard);
    let ending = played.ending;
    let Both {
        one: objects,
        other: refusals,
    } = heard;
    refusals.write(errors);
    let objects = match objects.text(ending) {
        Ok(objects) => objects,
        Err(refusal) => return Err(refusal),
    };
    if let Err(refusal) = write_text(out, objects.as_bytes()) {
        return Err(refusal);
    }
    match ending {
        Ok(()) => Ok(passes(playing, &refusals)),
        Err(refusal) => Err(refusal),
    }
}

/// Plays the scenario that a reader of this name gives, as `poolrun steps --json`, and gives the status of the program. Its last object
/// is that of the run state and the counters; a refusal of the whole run has its line in place of it. What is wrong with a text that is
/// refused goes to `errors`.
pub fn run_objects<R: Read, W: Write, E: Write>(
    alloc: Global,
    playing: Playing,
    name: &str,
    reader: &mut WatchedReader<R>,
    out: &mut WatchedWriter<W>,
    errors: &mut E,
    style: Style,
) -> u8
    ensures few { result ≤ 1 }
{
    let text = match text_or_status(alloc, Kind::Scenario, name, reader, out, errors) {
        Ok(text) => text,
        Err(status) => return status,
    };
    let text = text.as_slice();
    let outcome = play_as_json(alloc, playing, text, out, errors);
    let status = finish(out, &outcome);
    if let Err(refusal) = outcome {
        tell_refusal(alloc, errors, Kind::Scenario, name, text, refusal, style);
    }
    status
}
