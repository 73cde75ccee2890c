//! Messages, in the form of a compiler's.

use crate::forms::POOL_SUMMARY;
use crate::mistakes::{Finding, Kind, Mistake};
use crate::shown::Shown;
use crate::wordings::{Wanted, Wording};
use std::io::{self, Write};

/// How many bytes of a line are shown before the marked ones, and how many in all.
const BEFORE: usize = 60;

const SHOWN: usize = 120;

/// What stands for bytes that are not shown.
const CUT_BEFORE: &str = ".. ";

/// How many forms a line may have at most, if they are told.
const FORMS: usize = 12;

/// How that is written which is told beside the output.
#[derive(Clone, Copy)]
pub struct Style {
    /// A message has the colours of a terminal.
    pub has_colours: bool,
    /// How far a long command is, a line says that goes again, as on a terminal.
    pub shows_progress: bool,
}

/// A message as it is, and no progress.
pub const UNADORNED: Style = Style {
    has_colours: false,
    shows_progress: false,
};

/// What a message begins with, what stands before a mark, and what ends a coloured line.
struct Colours {
    head: &'static str,
    bar: &'static str,
    end: &'static str,
}

const PLAIN: Colours = Colours {
    head: "error: ",
    bar: " | ",
    end: "\n",
};

const COLOURED: Colours = Colours {
    head: "\u{1b}[1;31merror\u{1b}[0m\u{1b}[1m: ",
    bar: " | \u{1b}[1;31m",
    end: "\u{1b}[0m\n",
};

impl Style {
    fn colours(self) -> &'static Colours {
        if self.has_colours { &COLOURED } else { &PLAIN }
    }
}

const POWERS: [u32; 6] = [10, 100, 1_000, 10_000, 100_000, 1_000_000];

/// How many digits the number of a line has: a text has 1,048,576 lines at most.
fn digits(number: u32) -> usize {
    let mut digits = 1usize;
    for power in POWERS {
        if power <= number {
            digits = digits.saturating_add(1);
        }
    }
    digits
}

/// How many of a line's first bytes are not shown.
fn hidden(finding: &Finding<'_>) -> usize {
    finding.start.saturating_sub(BEFORE)
}

/// The bytes of a line that are shown.
fn shown<'a>(finding: &Finding<'a>) -> &'a [u8] {
    let rest = finding.line.bytes.get(hidden(finding)..).unwrap_or(b"");
    rest.get(..SHOWN).unwrap_or(rest)
}

/// Writes the line with its number.
fn write_line<W: Write>(out: &mut W, finding: &Finding<'_>) -> io::Result<()> {
    let number = finding.line.number;
    let margin = digits(number);
    let hidden = hidden(finding);
    let bytes = shown(finding);
    let end = hidden.saturating_add(bytes.len());
    let before = if hidden > 0 { CUT_BEFORE } else { "" };
    let behind = if end < finding.line.bytes.len() {
        " .."
    } else {
        ""
    };
    let shown = Shown(bytes);
    writeln!(out, "{:margin$} |\n{number} | {before}{shown}{behind}", "")
}

/// Writes a mark under the line, and how the mistake is mended.
fn write_mark<W: Write>(out: &mut W, finding: &Finding<'_>, colours: &Colours) -> io::Result<()> {
    let margin = digits(finding.line.number);
    let hidden = hidden(finding);
    let bytes = shown(finding);
    let start = finding.start.saturating_sub(hidden);
    let (before, rest) = bytes.split_at_checked(start).unwrap_or((bytes, b""));
    let marked = rest.get(..finding.width).unwrap_or(rest);
    // A word that is missing would stand behind the line's end.
    let behind = start.saturating_sub(bytes.len());
    let places = Shown(before).places().saturating_add(behind);
    let indent = if hidden > 0 {
        places.saturating_add(CUT_BEFORE.len())
    } else {
        places
    };
    let width = Shown(marked).places().max(1);
    let advice = finding.mistake.advice();
    let (bar, end) = (colours.bar, colours.end);
    write!(
        out,
        "{:margin$}{bar}{:indent$}{:^<width$}{advice}{end}",
        "", "", ""
    )
}

/// Writes a note under the line, behind these words.
fn write_note<W: Write>(out: &mut W, margin: usize, head: &str, note: &str) -> io::Result<()> {
    writeln!(out, "{:margin$} = {head}{note}", "")
}

/// Writes what a pool line says.
fn write_pool_summary<W: Write>(out: &mut W, margin: usize) -> io::Result<()> {
    for line in POOL_SUMMARY {
        write_note(out, margin, "", line)?;
    }
    Ok(())
}

/// Writes what is wanted in place of a word, if something is.
fn write_wanted<W: Write>(out: &mut W, margin: usize, wording: &Wording<'_>) -> io::Result<()> {
    if wording.wants_nothing() {
        return Ok(());
    }
    let wanted = Wanted(&*wording);
    writeln!(out, "{:margin$} = expected: {wanted}", "")
}

/// Writes what each wanted word stands for that does not stand for itself.
fn write_legends<W: Write>(out: &mut W, margin: usize, wording: &Wording<'_>) -> io::Result<()> {
    for number in 0..wording.forms.len() {
        if let Some(legend) = wording.legend(number) {
            write_note(out, margin, "", legend)?;
        }
    }
    Ok(())
}

/// Writes the forms that the line may have.
fn write_forms<W: Write>(out: &mut W, margin: usize, wording: &Wording<'_>) -> io::Result<()> {
    if wording.is_of_pool() {
        return write_pool_summary(out, margin);
    }
    if wording.fitting == 0 || wording.forms.len() > FORMS {
        return Ok(());
    }
    for form in wording.forms {
        if wording.tells(form) {
            write_note(out, margin, "form: ", form)?;
        }
    }
    Ok(())
}

/// Writes what stands under the line.
fn write_notes<W: Write>(out: &mut W, finding: &Finding<'_>) -> io::Result<()> {
    let margin = digits(finding.line.number);
    match &finding.mistake {
        Mistake::Words(wording) => {
            write_wanted(out, margin, wording)?;
            write_legends(out, margin, wording)?;
            write_forms(out, margin, wording)
        }
        Mistake::Empty(Kind::Record) => Ok(()),
        Mistake::Empty(_) | Mistake::NoPoolLine | Mistake::EarlyLine(_) => {
            write_pool_summary(out, margin)
        }
        _ => Ok(()),
    }
}

/// Writes what is wrong with the text at a path: the mistake, its place, the line, and how it is mended.
pub fn write_message<W: Write>(
    out: &mut W,
    path: &str,
    finding: &Finding<'_>,
    style: Style,
) -> io::Result<()> {
    let colours = style.colours();
    let (head, end) = (colours.head, colours.end);
    let sentence = finding.mistake.sentence();
    let number = finding.line.number;
    let margin = digits(number);
    let column = finding.start.saturating_add(1);
    write!(
        out,
        "{head}{sentence}{end}{:margin$}--> {path}:{number}:{column}\n",
        ""
    )?;
    write_line(out, finding)?;
    write_mark(out, finding, colours)?;
    write_notes(out, finding)
}
