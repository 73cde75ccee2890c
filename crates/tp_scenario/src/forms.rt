//! What a line is, by the form of lines that stand behind a pool line.

use tp_text::pools::PoolLine;

/// A form of lines: each line of it has one text. Scenarios and files of jobs both begin with a pool line, skip the same lines, count
/// them alike and name the first bad one. So their reading is proved once, over this trait, and a third form needs its text alone.
pub trait LineForm: Drop {
    ghost use Rattle.std.specs.Prelude.{ℕ, List};
    ghost use Rattle.tp_text.specs.Reads.{ReadsAs};

    // the text of a line, without its end
    ghost text_of: { Self → List ℕ };

    // its numbers are in the range of their types
    ghost fits: { Self → Type 0 };

    /// The line of this text, if it is one.
    fn of_text(text: &str) -> Option<Self>
        ensures { ReadsAs text_of fits text.now result };
}

/// What a line is, behind the pool line.
#[derive(Debug, PartialEq, Eq, Drop)]
pub enum LineRead<L> {
    /// Empty, or a comment: it is counted and nothing else.
    Skipped,
    /// A line of the form.
    Says(L),
    /// None of these.
    Bad,
}

/// What a line is, up to the pool line.
#[derive(Clone, Copy, Debug, PartialEq, Eq)]
pub enum PoolRead {
    /// Empty, or a comment: it is counted and nothing else.
    Skipped,
    /// The pool line.
    Pool(PoolLine),
    /// None of these.
    Bad,
}
