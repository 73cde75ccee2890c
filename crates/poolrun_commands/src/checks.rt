//! The command `check`: claims are held against a record.

ghost use Rattle.std.specs.Prelude.{◌≡◌, length, IfOk};
ghost use Rattle.poolrun_commands.specs.Checks.{Checks};
ghost use Rattle.poolrun_commands.specs.Status.{Ends};

use crate::questions::run_question;
use crate::statuses::finish;
use std::alloc::Global;
use std::io::{Read, Write};
use tp_messages::messages::Style;
use tp_story_claims::checks::Checking;
use tp_story_claims::claims::Claim;
use tp_story_claims::parsing::{Mistake, read_claim};
use tp_story_words::forms::Form;
use tp_text::watched::{WatchedReader, WatchedWriter};
use tp_types::refusals::PoolError;

/// Why there are no claims.
enum Unclaimed {
    /// There is no memory for them.
    NoMemory,
    /// Words are no claim.
    Mistaken,
}

/// Tells what is wrong with words that are no claim, with a mark under the place.
fn tell_mistake<E: Write>(errors: &mut E, claim: &str, mistake: Mistake) {
    let Mistake { column, wanted } = mistake;
    let before = column.saturating_sub(1);
    let _ = writeln!(
        errors,
        "error: no claim: column {column}: wanted is {wanted}\n  | {claim}\n  | {:<before$}^",
        ""
    );
}

/// The claims that these words make, one for each. What is wrong with words that make none goes to `errors`.
fn claims_of<E: Write>(
    alloc: Global,
    words: &[String],
    errors: &mut E,
) -> Result<Vec<Claim>, Unclaimed>
    ensures { IfOk result (λ claims. length claims.items ≡ length words.now) }
{
    let mut claims = Vec::new(alloc);
    for word in words {
        match read_claim(word.as_str()) {
            Ok(claim) => {
                if claims.push(claim).is_err() {
                    return Err(Unclaimed::NoMemory);
                }
            }
            Err(mistake) => tell_mistake(errors, word.as_str(), mistake),
        }
    }
    if claims.len() != words.len() {
        return Err(Unclaimed::Mistaken);
    }
    Ok(claims)
}

/// Holds claims against the record that a reader of this name gives, as `poolrun check`, and gives the status of the program: 0 where
/// the record is legal and each claim holds of it, 2 where some word is no claim. What is wrong goes to `errors`.
pub fn run_check<R: Read, W: Write, E: Write>(
    alloc: Global,
    words: &[String],
    form: Form,
    name: &str,
    reader: &mut WatchedReader<R>,
    out: &mut WatchedWriter<W>,
    errors: &mut E,
    style: Style,
) -> u8
    ensures { Checks R.remaining W.contents (length words.now) form reader.old reader.new out.old result out.new }
{
    match claims_of(alloc, words, errors) {
        Ok(claims) => {
            run_question::<R, W, E, Checking>(
                alloc, name, &claims, form, reader, out, errors, style,
            )
        }
        Err(Unclaimed::NoMemory) => finish(out, &Err(PoolError::NoMemory)),
        Err(Unclaimed::Mistaken) => 2,
    }
}
