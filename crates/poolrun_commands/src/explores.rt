//! The command `explore`: all interleavings of callers are walked.

ghost use Rattle.std.specs.Prelude.{◌≡◌, ◌<◌, ◌≤◌, [], true, false, Some, None, Ok, length, map, string_bytes, IfOk, IfSome};
ghost use Rattle.tp_text.specs.Watching.{sink, source};
ghost use Rattle.tp_explore.specs.Moves.{is_fit};
ghost use Rattle.tp_explore_text.specs.Explored.{FindsEnd, IsExplored};
ghost use Rattle.tp_explore_text.specs.declared.files.Named.{Named};
ghost use Rattle.poolrun_commands.specs.Explores.{Explores, IsFound, IsTold, IsToldOf, LooksForParts};
ghost use Rattle.poolrun_commands.specs.Status.{Ends};

use crate::progress::ProgressLine;
use crate::records::Recording;
use crate::statuses::finish;
use crate::telling::tell_refusal;
use crate::texts::text_or_status;
use poolrun_choices::choices::{Exploring, Wish};
use std::alloc::Global;
use std::fmt;
use std::io::{Read, Write};
use tp_explore_text::explored::{Explored, end_with, explore_named};
use tp_explore_text::files::{Named, read_plan};
use tp_explore_text::parts::is_part;
use tp_explore_text::pictures::{MOST_DRAWN, dot_text};
use tp_explore_text::texts::{ends_text, json_text, witness_text};
use tp_explore_walk::systems::Watch;
use tp_messages::messages::Style;
use tp_messages::mistakes::Kind;
use tp_scenario::play::play;
use tp_text::watched::{WatchedReader, WatchedWriter};
use tp_text::writing::write_text;
use tp_types::limits::MAX_TEXT_BYTES;
use tp_types::refusals::PoolError;

/// How many states are walked between two looks at the progress: some half of a second.
const BETWEEN: usize = 32_768;

/// How far a walk is.
#[derive(Clone, Copy)]
struct Walked<'a> {
    name: &'a str,
    walked: usize,
    known: usize,
}

impl fmt::Display for Walked<'_> {
    fn fmt<W: fmt::Write>(&self, f: &mut fmt::Formatter<W>) -> fmt::Result {
        let Walked {
            name,
            walked,
            known,
        } = *self;
        write!(f, "{name}: {walked} states are walked, {known} are known")
    }
}

/// A walk that is told of on a terminal.
#[derive(Drop)]
struct ToldWalk<'a, 'n, E> {
    line: ProgressLine<'a, E>,
    name: &'n str,
    is_seen: bool,
}

impl<E: Write> Watch for ToldWalk<'_, '_, E> {
    fn walked(&mut self, walked: usize, known: usize) {
        if self.is_seen && walked > 0 && walked % BETWEEN == 0 {
            let name = self.name;
            self.line.tell(&Walked {
                name,
                walked,
                known,
            });
        }
    }
}

/// How the text of a file of callers is read. The contract of `run_explore` is told over this trait, of the plan that `says` gives to
/// this very text. That the words of a file mean what its page says is tested.
pub trait Reading {
    ghost use Rattle.std.specs.Prelude.{◌≡◌, true, ℕ, List, IfOk};
    ghost use Rattle.tp_explore.specs.Moves.{is_fit};
    ghost use Rattle.tp_explore_text.specs.declared.files.Named.{Named};

    /// That a text says a plan.
    ghost says: { List ℕ → Named → Type 0 };

    /// The plan that a text says, as `read_plan` refuses it.
    fn plan_of(&self, alloc: Global, text: &[u8]) -> Result<Named, PoolError>
        ensures says { IfOk result (λ named. says text.now named) }
        ensures fit { IfOk result (λ named. is_fit named.exploration.plan ≡ true) };
}

/// The reading of this program's files.
#[derive(Clone, Copy, Debug)]
pub struct Callers;

impl Reading for Callers {
    ghost says = { λ text named. is_fit named.exploration.plan ≡ true };

    fn plan_of(&self, alloc: Global, text: &[u8]) -> Result<Named, PoolError> {
        read_plan(alloc, text)
    }
}

/// What is printed, and whether it is as it was wished.
#[derive(Drop)]
struct Told {
    text: Vec<u8>,
    is_so: bool,
}

/// This text is printed, as it was wished.
fn so(text: String) -> Told
    ensures so { result.is_so ≡ true }
    ensures text { result.text.items ≡ string_bytes text }
{
    Told {
        text: text.into_bytes(),
        is_so: true,
    }
}

/// Nothing is printed, since it is not as it was wished.
fn not_so(alloc: Global) -> Told
    ensures so { result.is_so ≡ false }
    ensures text { result.text.items ≡ [] }
{
    Told {
        text: Vec::new(alloc),
        is_so: false,
    }
}

/// The record of a shortest interleaving to the state at this place. None where its scenario is longer than a text may be.
fn record_to(alloc: Global, explored: &Explored, place: usize) -> Result<Option<Vec<u8>>, PoolError>
    requires explored { IsExplored explored.now }
    requires within { place < length explored.now.graph.states.items }
{
    let scenario = witness_text(alloc, explored, place)?;
    let text = scenario.as_bytes();
    if text.len() > MAX_TEXT_BYTES {
        return Ok(None);
    }
    let mut recording = Recording::new(alloc);
    let played = play(alloc, text, &mut recording);
    played.ending?;
    let mut record = Vec::new(alloc);
    recording.write(alloc, &mut WatchedWriter::new(&mut record))?;
    Ok(Some(record))
}

/// The place of the state in which the interleavings end on this line, counted from 1. Where there is no such end, `errors` is told.
fn place_on<E: Write>(explored: &Explored, line: usize, name: &str, errors: &mut E) -> Option<usize>
    requires { IsExplored explored.now }
    ensures { IfSome result (λ place. place < length explored.now.graph.states.items) }
{
    match explored.ends.get(line.wrapping_sub(1)) {
        Some(end) => Some(end.place),
        None => {
            let ends = explored.ends.len();
            let _ = writeln!(
                errors,
                "poolrun: {name}: there is no end {line}: the ends are 1 to {ends}"
            );
            None
        }
    }
}

/// The scenario of a shortest interleaving to the end on this line, counted from 1.
fn witness_on<E: Write>(
    alloc: Global,
    explored: &Explored,
    line: usize,
    name: &str,
    errors: &mut E,
) -> Result<Told, PoolError>
    requires { IsExplored explored.now }
    ensures { IfOk result (λ told. told.is_so ≡ false → told.text.items ≡ []) }
{
    match place_on(explored, line, name, errors) {
        Some(place) => Ok(so(witness_text(alloc, explored, place)?)),
        None => Ok(not_so(alloc)),
    }
}

/// The record of a shortest interleaving to the end on this line, counted from 1.
fn record_on<E: Write>(
    alloc: Global,
    explored: &Explored,
    line: usize,
    name: &str,
    errors: &mut E,
) -> Result<Told, PoolError>
    requires { IsExplored explored.now }
    ensures { IfOk result (λ told. told.is_so ≡ false → told.text.items ≡ []) }
{
    let Some(place) = place_on(explored, line, name, errors) else {
        return Ok(not_so(alloc));
    };
    match record_to(alloc, explored, place)? {
        Some(text) => Ok(Told { text, is_so: true }),
        None => {
            let _ = writeln!(
                errors,
                "poolrun: {name}: the scenario to end {line}, which --witness prints, has more than 1,048,576 bytes"
            );
            Ok(not_so(alloc))
        }
    }
}

/// The scenario of a shortest interleaving to an end with all these parts. None where no end has them.
fn witness_with(
    alloc: Global,
    explored: &Explored,
    parts: &[String],
) -> Result<Option<String>, PoolError>
    requires { IsExplored explored.now }
    ensures some { IfOk result (λ o. IfSome o (λ _. IsFound explored.now (map string_bytes parts.now))) }
    ensures none { (result ≡ Ok None) → FindsEnd explored.now (map string_bytes parts.now) None }
{
    match end_with(alloc, explored, parts)? {
        Some(place) => Ok(Some(witness_text(alloc, explored, place)?)),
        None => Ok(None),
    }
}

/// Some end has these parts.
fn found<E: Write>(
    alloc: Global,
    explored: &Explored,
    parts: &Vec<String>,
    name: &str,
    errors: &mut E,
) -> Result<Told, PoolError>
    requires { IsExplored explored.now }
    ensures { IfOk result (λ told. IsTold explored.now (Wish.Find parts.now) told.text.items told.is_so) }
{
    match witness_with(alloc, explored, parts)? {
        Some(scenario) => Ok(so(scenario)),
        None => {
            let _ = writeln!(errors, "poolrun: {name}: no end has what --find says");
            Ok(not_so(alloc))
        }
    }
}

/// No end has these parts.
fn never_found<E: Write>(
    alloc: Global,
    explored: &Explored,
    parts: &Vec<String>,
    name: &str,
    errors: &mut E,
) -> Result<Told, PoolError>
    requires { IsExplored explored.now }
    ensures { IfOk result (λ told. IsTold explored.now (Wish.Never parts.now) told.text.items told.is_so) }
{
    match witness_with(alloc, explored, parts)? {
        None => Ok(so(String::new(alloc))),
        Some(scenario) => {
            let _ = writeln!(
                errors,
                "poolrun: {name}: an end has what --never says: the scenario leads to it"
            );
            Ok(Told {
                text: scenario.into_bytes(),
                is_so: false,
            })
        }
    }
}

/// The graph of states, where they are not too many to be drawn.
fn drawn<E: Write>(
    alloc: Global,
    explored: &Explored,
    name: &str,
    errors: &mut E,
) -> Result<Told, PoolError>
    requires { IsExplored explored.now }
    ensures { IfOk result (λ told. told.is_so ≡ false → told.text.items ≡ []) }
{
    let states = explored.graph.states.len();
    if states <= MOST_DRAWN {
        return Ok(so(dot_text(alloc, explored)?));
    }
    let _ = writeln!(
        errors,
        "poolrun: {name}: {states} states are too many for a picture, which has {MOST_DRAWN} at most: take calls out"
    );
    Ok(not_so(alloc))
}

/// What is told of what was explored.
fn told_of<E: Write>(
    alloc: Global,
    explored: &Explored,
    wish: &Wish,
    name: &str,
    errors: &mut E,
) -> Result<Told, PoolError>
    requires { IsExplored explored.now }
    ensures { IfOk result (λ told. IsTold explored.now wish.now told.text.items told.is_so) }
{
    match wish {
        Wish::Ends => Ok(so(ends_text(alloc, explored)?)),
        Wish::Json => Ok(so(json_text(alloc, explored)?)),
        Wish::Dot => drawn(alloc, explored, name, errors),
        Wish::Witness(line) => witness_on(alloc, explored, *line, name, errors),
        Wish::Record(line) => record_on(alloc, explored, *line, name, errors),
        Wish::Find(parts) => found(alloc, explored, parts, name, errors),
        Wish::Never(parts) => never_found(alloc, explored, parts, name, errors),
    }
}

/// The first of the parts that are looked for which no end of these callers could have.
fn strange_part<'a>(
    alloc: Global,
    named: &Named,
    wish: &'a Wish,
) -> Result<Option<&'a str>, PoolError>
    ensures { IfOk result (λ part. IfSome part (λ _. LooksForParts wish.now)) }
{
    let parts = match wish {
        Wish::Find(parts) | Wish::Never(parts) => parts.as_slice(),
        _ => return Ok(None),
    };
    for part in parts {
        if !is_part(alloc, named, part.as_str())? {
            return Ok(Some(part.as_str()));
        }
    }
    Ok(None)
}

/// Walks all interleavings of a plan, and tells what is wished. Nothing is printed where more states are reached than may be kept.
fn told_of_plan<E: Write>(
    alloc: Global,
    exploring: &Exploring,
    named: Named,
    name: &str,
    errors: &mut E,
    style: Style,
) -> Result<Told, PoolError>
    requires { is_fit named.exploration.plan ≡ true }
    ensures { IfOk result (λ told. IsToldOf named exploring.now told.text.items told.is_so) }
{
    let most = exploring.most;
    let mut walk = ToldWalk {
        line: ProgressLine::new(&mut *errors),
        name,
        is_seen: style.shows_progress,
    };
    let explored = explore_named(alloc, named, most, &mut walk);
    walk.line.clear();
    match explored? {
        Some(explored) => told_of(alloc, &explored, &exploring.wish, name, errors),
        None => {
            let _ = writeln!(
                errors,
                "poolrun: {name}: more than {most} states are reached: nothing is told. Take calls out, or set a greater --most"
            );
            Ok(not_so(alloc))
        }
    }
}

/// What is told of the callers of a plan, unless a part is looked for that no end could have.
fn told_of_named<E: Write>(
    alloc: Global,
    exploring: &Exploring,
    named: Named,
    name: &str,
    errors: &mut E,
    style: Style,
) -> Result<Told, PoolError>
    requires { is_fit named.exploration.plan ≡ true }
    ensures { IfOk result (λ told. IsToldOf named exploring.now told.text.items told.is_so) }
{
    let Some(part) = strange_part(alloc, &named, &exploring.wish)? else {
        return told_of_plan(alloc, exploring, named, name, errors, style);
    };
    let _ = writeln!(
        errors,
        "poolrun: {name}: no end can have '{part}': a part is a task's name and its fate, as 'a run 1' or 'b rejected', or a run state"
    );
    Ok(not_so(alloc))
}

/// What is told of a text of callers.
fn told_of_text<P: Reading, E: Write>(
    alloc: Global,
    reading: &P,
    exploring: &Exploring,
    name: &str,
    text: &[u8],
    errors: &mut E,
    style: Style,
) -> Result<Told, PoolError>
    ensures { IfOk result (λ told. (named : Named) × P.says text.now named × IsToldOf named exploring.now told.text.items told.is_so) }
{
    let named = reading.plan_of(alloc, text)?;
    told_of_named(alloc, exploring, named, name, errors, style)
}

/// Explores a text of callers, and prints what is wished. The answer says whether it is as it was wished.
fn explore_text<P: Reading, W: Write, E: Write>(
    alloc: Global,
    reading: &P,
    exploring: &Exploring,
    name: &str,
    text: &[u8],
    out: &mut WatchedWriter<W>,
    errors: &mut E,
    style: Style,
) -> Result<bool, PoolError>
    ensures { Explores P.says exploring.now (Some text.now) (W.contents (sink out.old)) (W.contents (sink out.new)) result }
{
    let told = match told_of_text(alloc, reading, exploring, name, text, errors, style) {
        Ok(told) => told,
        Err(refusal) => return Err(refusal),
    };
    match write_text(out, told.text.as_slice()) {
        Ok(()) => Ok(told.is_so),
        Err(refusal) => Err(refusal),
    }
}

/// Explores the callers that a reader of this name gives, as `poolrun explore`, and gives the status of the program. What is wrong with
/// a text that is refused, and why a status is 1, goes to `errors`.
pub fn run_explore<P: Reading, R: Read, W: Write, E: Write>(
    alloc: Global,
    reading: &P,
    exploring: &Exploring,
    name: &str,
    reader: &mut WatchedReader<R>,
    out: &mut WatchedWriter<W>,
    errors: &mut E,
    style: Style,
) -> u8
    ensures few { result ≤ 1 }
    ensures explores { Ends W.contents (λ r behind. Explores P.says exploring.now (R.remaining (source reader.old))
        (W.contents (sink out.old)) (W.contents (sink behind)) r) result out.new }
{
    let text = match text_or_status(alloc, Kind::Callers, name, reader, out, errors) {
        Ok(text) => text,
        Err(status) => return status,
    };
    let text = text.as_slice();
    let outcome = explore_text(alloc, reading, exploring, name, text, out, errors, style);
    let status = finish(out, &outcome);
    if let Err(refusal) = outcome {
        tell_refusal(alloc, errors, Kind::Callers, name, text, refusal, style);
    }
    status
}
