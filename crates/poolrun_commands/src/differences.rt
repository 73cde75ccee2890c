//! The command `diff`: two records are set side by side.

ghost use Rattle.std.specs.Prelude.{◌≡◌, ◌≤◌, true, IfOk, IsOkUnless};
ghost use Rattle.std.specs.Io.KnownBytes.{Appends};
ghost use Rattle.tp_types.specs.Config.{IsConfig};
ghost use Rattle.tp_story_claims.specs.Endings.{AreFatesOf};
ghost use Rattle.tp_text.specs.Watching.{sink, source};
ghost use Rattle.tp_text_record.specs.Reading.{OfReader};
ghost use Rattle.poolrun_commands.specs.Differences.{Says, SetsFates};
ghost use Rattle.poolrun_commands.specs.Status.{Ends};

use crate::questions::tell_notes;
use crate::statuses::finish;
use crate::telling::{tell_cut, tell_flaw, tell_refused};
use std::alloc::Global;
use std::io::{Read, Write};
use tp_audit_causes::flaws::flaw_text;
use tp_messages::messages::Style;
use tp_story::fronts::Front;
use tp_story_claims::differences::{Meeting, RefusedRecord, Side, follow, parting_text};
use tp_story_claims::endings::{ended_otherwise, fates_in, otherwise_text};
use tp_story_claims::sources::RecordText;
use tp_story_questions::questions::Notes;
use tp_story_words::forms::Form;
use tp_text::watched::{WatchedReader, WatchedWriter};
use tp_text::writing::write_text;
use tp_types::configs::Config;
use tp_types::refusals::PoolError;
use tp_types::tasks::Fate;

/// What is told of two records, and whether they are the same.
#[derive(Drop)]
pub struct Told {
    /// What is written, in whole lines.
    pub text: Vec<u8>,
    /// Whether there is no difference.
    pub is_same: bool,
}

/// What became of the tasks of a record that a reader of this name gives. A flaw, a refusal, and where it is cut off goes to `errors`.
fn fates_of<R: Read, E: Write>(
    alloc: Global,
    name: &str,
    reader: &mut WatchedReader<R>,
    errors: &mut E,
    style: Style,
) -> Result<Option<Vec<Option<Fate>>>, PoolError>
    ensures { IfOk result (λ f. OfReader (R.remaining (source reader.old)) (λ text. AreFatesOf text f)) }
{
    let mut notes = Notes::none();
    let fates = fates_in(alloc, reader, &mut notes);
    if let Err(refusal) = &fates {
        let line = &notes.refused;
        tell_refused(alloc, errors, name, reader, line, *refusal, style);
    }
    tell_notes(errors, name, &notes);
    fates
}

/// What is told of the tasks that ended otherwise in two records; nothing where one of them has a flaw.
fn told_of(
    alloc: Global,
    first: &Option<Vec<Option<Fate>>>,
    second: &Option<Vec<Option<Fate>>>,
    form: Form,
) -> Result<Told, PoolError>
    ensures { IfOk result (λ t. Says form first.now second.now t.text.items t.is_same) }
{
    let (Some(first), Some(second)) = (first, second) else {
        return Ok(Told {
            text: Vec::new(alloc),
            is_same: false,
        });
    };
    let found = ended_otherwise(alloc, first.as_slice(), second.as_slice())?;
    let text = otherwise_text(alloc, found.as_slice(), form)?;
    Ok(Told {
        text,
        is_same: found.is_empty(),
    })
}

/// Writes what is told of two records. The answer says whether there is no difference; WriteFailed (26).
fn write_told<W: Write>(out: &mut WatchedWriter<W>, told: &Told) -> Result<bool, PoolError>
    ensures written { IfOk result (λ same. (same ≡ told.now.is_same) × Appends (W.contents (sink out.old)) (W.contents (sink out.new)) told.now.text.items) }
    ensures only_writing { IsOkUnless result PoolError.WriteFailed }
{
    match write_text(out, told.text.as_slice()) {
        Ok(()) => Ok(told.is_same),
        Err(refusal) => Err(refusal),
    }
}

/// Tells which tasks ended otherwise in the records that two readers of these names give, as `poolrun diff --fates`, and gives the
/// status of the program: 0 where there is none. What is wrong goes to `errors`.
fn run_fates<R: Read, S: Read, W: Write, E: Write>(
    alloc: Global,
    form: Form,
    names: (&str, &str),
    first: &mut WatchedReader<R>,
    second: &mut WatchedReader<S>,
    out: &mut WatchedWriter<W>,
    errors: &mut E,
    style: Style,
) -> u8
    ensures few { result ≤ 1 }
    ensures sets { Ends W.contents (SetsFates R.remaining S.remaining W.contents form first.old second.old out.old) result out.new }
{
    let one = match fates_of(alloc, names.0, first, errors, style) {
        Ok(fates) => fates,
        Err(refusal) => return finish(out, &Err(refusal)),
    };
    let other = match fates_of(alloc, names.1, second, errors, style) {
        Ok(fates) => fates,
        Err(refusal) => return finish(out, &Err(refusal)),
    };
    let told = match told_of(alloc, &one, &other, form) {
        Ok(told) => told,
        Err(refusal) => return finish(out, &Err(refusal)),
    };
    let outcome = write_told(out, &told);
    finish(out, &outcome)
}

/// A record that is read beside another one, and its name.
#[derive(Drop)]
struct Beside<'a, 'n, R> {
    name: &'n str,
    text: RecordText<'a, R>,
}

impl<R: Read> Beside<'_, '_, R> {
    /// Tells why it is refused.
    fn tell_refused<E: Write>(
        &self,
        alloc: Global,
        refusal: PoolError,
        errors: &mut E,
        style: Style,
    ) {
        let (reader, line) = (self.text.reader(), self.text.refused());
        tell_refused(alloc, errors, self.name, reader, line, refusal, style);
    }

    /// Tells where it is cut off.
    fn tell_cut<E: Write>(&self, errors: &mut E) {
        if let Some(entries) = self.text.cut_off() {
            tell_cut(errors, self.name, entries);
        }
    }
}

/// What is told of two records of one pool that go on so. Where one is cut off, and why an entry is a flaw, goes to `errors`.
fn told_at<R: Read, S: Read, E: Write>(
    alloc: Global,
    config: &Config,
    front: &Front,
    meeting: Meeting,
    first: &Beside<'_, '_, R>,
    second: &Beside<'_, '_, S>,
    form: Form,
    errors: &mut E,
) -> Result<Told, PoolError> {
    let mut told = Told {
        text: Vec::new(alloc),
        is_same: false,
    };
    match meeting {
        Meeting::Same => {
            first.tell_cut(errors);
            second.tell_cut(errors);
            told.is_same = true;
        }
        Meeting::Flawed(number, entry) => {
            if let Ok(why) = flaw_text(alloc, front.auditor(), config, number, &entry) {
                tell_flaw(errors, first.name, why.as_str());
            }
        }
        Meeting::Parted(one, other) => {
            if one.is_none() {
                first.tell_cut(errors);
            }
            if other.is_none() {
                second.tell_cut(errors);
            }
            told.text = parting_text(alloc, front, one, other, form)?;
        }
    }
    Ok(told)
}

/// Tells where two records of one pool part.
fn parting_told<R: Read, S: Read, E: Write>(
    alloc: Global,
    config: &Config,
    first: &mut Beside<'_, '_, R>,
    second: &mut Beside<'_, '_, S>,
    form: Form,
    errors: &mut E,
) -> Result<Told, RefusedRecord>
    requires { IsConfig config.now }
{
    let Ok(mut front) = Front::new(alloc, config, None) else {
        return Err((Side::First, PoolError::NoMemory));
    };
    let meeting = follow(&mut front, &mut first.text, &mut second.text)?;
    told_at(alloc, config, &front, meeting, first, second, form, errors).map_err(|refusal| (
        Side::First,
        refusal,
    ))
}

/// Tells where two records part; pools of other settings have no entry in common.
fn told_beside<R: Read, S: Read, E: Write>(
    alloc: Global,
    first: &mut Beside<'_, '_, R>,
    second: &mut Beside<'_, '_, S>,
    form: Form,
    errors: &mut E,
) -> Result<Told, RefusedRecord> {
    let config = match first.text.open() {
        Ok(config) => config,
        Err(refusal) => return Err((Side::First, refusal)),
    };
    let other = match second.text.open() {
        Ok(other) => other,
        Err(refusal) => return Err((Side::Second, refusal)),
    };
    if config == other {
        return parting_told(alloc, &config, first, second, form, errors);
    }
    let name = second.name;
    let _ = writeln!(
        errors,
        "poolrun: {name}: the pool was made with other settings: line 2 differs"
    );
    Ok(Told {
        text: Vec::new(alloc),
        is_same: false,
    })
}

/// Tells where the records part that two readers of these names give, as `poolrun diff`, and gives the status of the program: 0 where
/// they are the same. What is wrong goes to `errors`.
fn run_parting<R: Read, S: Read, W: Write, E: Write>(
    alloc: Global,
    form: Form,
    names: (&str, &str),
    first: &mut WatchedReader<R>,
    second: &mut WatchedReader<S>,
    out: &mut WatchedWriter<W>,
    errors: &mut E,
    style: Style,
) -> u8
    ensures { result ≤ 1 }
{
    let mut first = Beside {
        name: names.0,
        text: RecordText::new(alloc, first),
    };
    let mut second = Beside {
        name: names.1,
        text: RecordText::new(alloc, second),
    };
    match told_beside(alloc, &mut first, &mut second, form, errors) {
        Ok(told) => {
            let outcome = write_told(out, &told);
            finish(out, &outcome)
        }
        Err((side, refusal)) => {
            match side {
                Side::First => first.tell_refused(alloc, refusal, errors, style),
                Side::Second => second.tell_refused(alloc, refusal, errors, style),
            }
            finish(out, &Err(refusal))
        }
    }
}

/// Tells where the records part that two readers of these names give, or with `by_fates` which tasks ended otherwise, as `poolrun
/// diff`, and gives the status of the program: 0 where there is no difference. What is wrong goes to `errors`.
pub fn run_diff<R: Read, S: Read, W: Write, E: Write>(
    alloc: Global,
    by_fates: bool,
    form: Form,
    names: (&str, &str),
    first: &mut WatchedReader<R>,
    second: &mut WatchedReader<S>,
    out: &mut WatchedWriter<W>,
    errors: &mut E,
    style: Style,
) -> u8
    ensures few { result ≤ 1 }
    ensures fates { by_fates ≡ true → Ends W.contents (SetsFates R.remaining S.remaining W.contents form first.old second.old out.old) result out.new }
{
    if by_fates {
        run_fates(alloc, form, names, first, second, out, errors, style)
    } else {
        run_parting(alloc, form, names, first, second, out, errors, style)
    }
}
