//! Record texts, read line by line. One reading takes the lines of a whole text, or those of a stream.
ghost use Rattle.std.specs.Prelude.{◌≡◌, ◌⊎◌, ◌≤◌, ◌<◌, ◌+◌, ◌^◌, ◌++◌, ◌∷◌, List, ℕ, [], suc, length, IfOk, IfErr, IfSome, OnOk, IsOkUnless, true, false};
ghost use Rattle.std.specs.List.{flat_map};
ghost use Rattle.tp_types.specs.declared.configs.Config.{Config as Settings};
ghost use Rattle.tp_types.specs.Config.{checked};
ghost use Rattle.tp_text.specs.Lines.{HasNoLineFeed, IsLines, ended};
ghost use Rattle.tp_text.specs.Watching.{TellsReader, source};
ghost use Rattle.tp_text_record.specs.ReadRecord.{IsRefusedText, IsWrongAt};
ghost use Rattle.tp_text_record.specs.RecordText.{FitsConfig, header, pool_line};
ghost use Rattle.tp_text_record.specs.Reading.{AreTooMany, EndsSo, HasRead, HasStreamed, IsRead, IsRefusedBy, IsTaken, OfReader, RefusesLine, StopsAt};

use crate::records::{BodyLine, read_body_line, read_pool_line};
use crate::versions::{Version, version_of};
use std::alloc::Global;
use std::io::Read;
use std::mem;
use tp_record::entries::Entry;
use tp_text::lines::next_line;
use tp_text::watched::WatchedReader;
use tp_types::configs::Config;
use tp_types::refusals::PoolError;

/// From this many entries on, the next line may have no number of 32 bits.
const TOO_MANY: u32 = u32::MAX - 4;

/// No line of a record has more bytes, so a longer one is refused before its end.
const LONGEST_LINE: usize = 256;

/// A stream of more pieces is too long.
const MAX_PIECES: u64 = 1 << 51;

/// What takes the entries of a record text, each as it is read: a list of them, or the auditor. The auditor lets pass what stands
/// behind the first flaw, so that the text is read to its end.
pub trait Taker: Sized {
    ghost use Rattle.std.specs.Prelude.{◌≡◌, List, [], ◌∷◌, ◌++◌, IfOk, OnOk, IsOkUnless};
    ghost use Rattle.tp_types.specs.Config.{IsConfig};
    ghost use Rattle.tp_types.specs.declared.configs.Config.{Config as Settings};
    ghost use Rattle.tp_record.specs.declared.entries.Entry.{Entry as Told};
    ghost use Rattle.tp_text_record.specs.declared.versions.Version.{Version as Form};

    /// What it is asked of the record.
    type Question;

    /// It is asked this, the text is of this form, and the pool was made with this configuration.
    ghost about: { Self.Question → Self → Form → Settings → Type 0 };

    /// It took these entries, the oldest first.
    ghost took: { Self → List Told → Type 0 };

    /// One that took none, of the text of a pool that was made with `config`. Want of memory is NoMemory (4).
    fn new(
        alloc: Global,
        question: &Self::Question,
        version: Version,
        config: &Config,
    ) -> Result<Self, PoolError>
        requires { IsConfig config.now }
        ensures none { IfOk result (λ t. took t []) }
        ensures about { IfOk result (λ t. about question.now t version config.now) }
        ensures refused { IsOkUnless result PoolError.NoMemory };

    /// Takes the next entry. Want of memory is NoMemory (4).
    fn take(&mut self, entry: &Entry) -> Result<(), PoolError>
        requires { (es : List Told) × took self.old es }
        ensures took { OnOk result ((es : List Told) → took self.old es → took self.new (es ++ entry.now ∷ [])) }
        ensures about { (q : Self.Question) (v : Form) (c : Settings) → about q self.old v c → about q self.new v c }
        ensures refused { IsOkUnless result PoolError.NoMemory };
}

/// Where a text may end.
#[derive(Clone, Copy, Debug, PartialEq, Eq)]
pub enum Ending {
    /// Behind the record's last line.
    Whole,
    /// There, or anywhere between the pool line and it: the text may be cut off.
    Anywhere,
}

/// What was read behind a pool line.
#[derive(Drop)]
pub struct Body<T> {
    /// The form of the text.
    pub version: Version,
    /// What took the entries.
    pub taker: T,
    /// How many they are.
    pub entries: u32,
    /// Whether the record is over.
    pub is_over: bool,
}

/// How far a record's text was read.
#[derive(Drop)]
pub enum Reading<T> {
    /// Not at all.
    Start,
    /// To its first line, which says this form.
    Formed(Version),
    /// To its pool line, and beyond.
    Opened(Body<T>),
}

impl<T: Taker + Drop> Body<T> {
    /// The body behind the pool line of this configuration: BadSizes (1), BadCapacity (2), BadLimit (3), KeepZero (11),
    /// NoMemory (4).
    fn new(
        alloc: Global,
        question: &T::Question,
        version: Version,
        config: &Config,
    ) -> Result<Body<T>, PoolError>
        ensures read { IfOk result (λ b. FitsConfig version config.now → HasRead (T.about question.now) T.took b (header version ∷ pool_line config.now ∷ [])) }
        ensures refused { IfErr result (λ e. (checked config.now ≡ Err e) ⊎ (e ≡ PoolError.NoMemory)) }
    {
        if let Err(refusal) = config.check() {
            return Err(refusal);
        }
        let taker = match T::new(alloc, question, version, config) {
            Ok(taker) => taker,
            Err(refusal) => return Err(refusal),
        };
        Ok(Body {
            version,
            taker,
            entries: 0,
            is_over: false,
        })
    }

    /// The number of the next line. ReadFailed (25) where no line has it.
    fn next_number(&self) -> Result<u32, PoolError>
        ensures number { IfOk result (λ n. (q : T.Question) (lines : List (List ℕ)) → HasRead (T.about q) T.took self.now lines → n ≡ suc (length lines)) }
        ensures few { OnOk result (self.now.entries + 4 < 2 ^ 32) }
        ensures many { IfErr result (λ e. (e ≡ PoolError.ReadFailed) × ((q : T.Question) (lines : List (List ℕ)) → HasRead (T.about q) T.took self.now lines → AreTooMany lines)) }
    {
        if self.entries >= TOO_MANY {
            return Err(PoolError::ReadFailed);
        }
        if self.is_over {
            Ok(self.entries + 4)
        } else {
            Ok(self.entries + 3)
        }
    }

    /// The body, at the text's end, as `Reading::finish` gives it.
    fn finish(self, left: &[u8], ending: Ending) -> Result<Body<T>, PoolError>
        requires { HasNoLineFeed left.now }
        ensures taken { IfOk result (λ b. (q : T.Question) (text : List ℕ) (lines : List (List ℕ)) → HasRead (T.about q) T.took self lines → IsLines text lines left.now → IsTaken (T.about q) T.took b text) }
        ensures ends { IfOk result (λ b. EndsSo ending b.is_over) }
        ensures refused { IfErr result (λ e. (q : T.Question) (text : List ℕ) (lines : List (List ℕ)) → HasRead (T.about q) T.took self lines → IsLines text lines left.now
            → ((e ≡ PoolError.ReadFailed) × AreTooMany lines) ⊎ IsWrongAt text e) }
    {
        if ending == Ending::Anywhere && !self.is_over {
            return Ok(self);
        }
        let number = match self.next_number() {
            Ok(number) => number,
            Err(refusal) => return Err(refusal),
        };
        if self.is_over && left.is_empty() {
            Ok(self)
        } else {
            Err(PoolError::BadEntry(number))
        }
    }

    /// Takes the next line.
    fn take(&mut self, line: &[u8]) -> Result<(), PoolError>
        requires { (q : T.Question) × (lines : List (List ℕ)) × HasRead (T.about q) T.took self.old lines }
        ensures read { OnOk result ((q : T.Question) (lines : List (List ℕ)) → HasRead (T.about q) T.took self.old lines → HasRead (T.about q) T.took self.new (lines ++ line.now ∷ [])) }
        ensures refused { IfErr result (λ e. (q : T.Question) (lines : List (List ℕ)) → HasRead (T.about q) T.took self.old lines → RefusesLine lines line.now e) }
    {
        let number = match self.next_number() {
            Ok(number) => number,
            Err(refusal) => return Err(refusal),
        };
        if self.is_over {
            return Err(PoolError::BadEntry(number));
        }
        match read_body_line(self.version, line, self.entries) {
            Some(BodyLine::Entry(entry)) => {
                if let Err(refusal) = self.taker.take(&entry) {
                    return Err(refusal);
                }
                self.entries += 1;
                Ok(())
            }
            Some(BodyLine::End) => {
                self.is_over = true;
                Ok(())
            }
            None => Err(PoolError::BadEntry(number)),
        }
    }
}

impl<T> Reading<T> {
    /// Whether the record is over.
    fn is_over(&self) -> bool {
        match self {
            Reading::Opened(body) => body.is_over,
            _ => false,
        }
    }
}

impl<T: Taker + Drop> Reading<T> {
    /// The number of the next line. ReadFailed (25) where no line has it.
    fn next_number(&self) -> Result<u32, PoolError>
        ensures number { IfOk result (λ n. (q : T.Question) (lines : List (List ℕ)) → IsRead (T.about q) T.took self.now lines → n ≡ suc (length lines)) }
        ensures many { IfErr result (λ e. (e ≡ PoolError.ReadFailed) × ((q : T.Question) (lines : List (List ℕ)) → IsRead (T.about q) T.took self.now lines → AreTooMany lines)) }
    {
        match self {
            Reading::Start => Ok(1),
            Reading::Formed(_) => Ok(2),
            Reading::Opened(body) => body.next_number(),
        }
    }

    /// Takes the next line. Refused is a configuration that no pool can have (1, 2, 3, 11), a line that is wrong there (24), and
    /// want of memory (4); and a line that has no number (25).
    fn take(&mut self, alloc: Global, question: &T::Question, line: &[u8]) -> Result<(), PoolError>
        requires { (lines : List (List ℕ)) × IsRead (T.about question.now) T.took self.old lines }
        ensures read { OnOk result ((lines : List (List ℕ)) → IsRead (T.about question.now) T.took self.old lines → IsRead (T.about question.now) T.took self.new (lines ++ line.now ∷ [])) }
        ensures refused { IfErr result (λ e. (lines : List (List ℕ)) → IsRead (T.about question.now) T.took self.old lines → RefusesLine lines line.now e) }
    {
        match self {
            Reading::Start => match version_of(line) {
                Some(version) => {
                    *self = Reading::Formed(version);
                    Ok(())
                }
                None => Err(PoolError::BadEntry(1)),
            },
            Reading::Formed(version) => {
                let version = *version;
                let Some(config) = read_pool_line(version, line) else {
                    return Err(PoolError::BadEntry(2));
                };
                match Body::new(alloc, question, version, &config) {
                    Ok(body) => {
                        *self = Reading::Opened(body);
                        Ok(())
                    }
                    Err(refusal) => Err(refusal),
                }
            }
            Reading::Opened(body) => body.take(line),
        }
    }

    /// Takes all whole lines of a text, and gives what is left behind them. Else it gives the refusal of a line, and the text from
    /// that line on.
    fn take_lines<'a>(
        &mut self,
        alloc: Global,
        question: &T::Question,
        text: &'a [u8],
    ) -> Result<&'a [u8], (PoolError, &'a [u8])>
        requires { (lines : List (List ℕ)) × IsRead (T.about question.now) T.took self.old lines }
        ensures read { IfOk result (λ rest. (lines : List (List ℕ)) → IsRead (T.about question.now) T.took self.old lines
            → (more : List (List ℕ)) × IsLines text.now more rest.now × IsRead (T.about question.now) T.took self.new (lines ++ more)) }
        ensures refused { IfErr result (λ r. (lines : List (List ℕ)) → IsRead (T.about question.now) T.took self.old lines → StopsAt lines text.now r.1.now r.0) }
    {
        let mut rest = text;
        while let Some((line, behind)) = next_line(rest) {
            if let Err(refusal) = self.take(alloc, question, line) {
                return Err((refusal, rest));
            }
            rest = behind;
        }
        Ok(rest)
    }

    /// What was read, at the text's end, where this is left behind the last line feed. BadEntry (24) where the text may not end
    /// there: its pool line is missing, something is left behind the record's last line, or that line is missing where it may not.
    fn finish(self, left: &[u8], ending: Ending) -> Result<Body<T>, PoolError>
        requires { HasNoLineFeed left.now }
        ensures taken { IfOk result (λ b. (q : T.Question) (text : List ℕ) (lines : List (List ℕ)) → IsRead (T.about q) T.took self lines → IsLines text lines left.now → IsTaken (T.about q) T.took b text) }
        ensures ends { IfOk result (λ b. EndsSo ending b.is_over) }
        ensures refused { IfErr result (λ e. (q : T.Question) (text : List ℕ) (lines : List (List ℕ)) → IsRead (T.about q) T.took self lines → IsLines text lines left.now
            → ((e ≡ PoolError.ReadFailed) × AreTooMany lines) ⊎ IsWrongAt text e) }
    {
        match self {
            Reading::Start => Err(PoolError::BadEntry(1)),
            Reading::Formed(_) => Err(PoolError::BadEntry(2)),
            Reading::Opened(body) => body.finish(left, ending),
        }
    }
}

/// Reads a text whole, at most 1,048,576 bytes. Refused is a configuration that no pool can have (1, 2, 3, 11) where all is good up
/// to the pool line, and else the first wrong line (24), counted from 1; 4 `NoMemory` comes where the taker finds no memory.
pub fn read_whole<T: Taker + Drop>(
    alloc: Global,
    question: &T::Question,
    text: &[u8],
) -> Result<Body<T>, PoolError>
    requires { length text.now ≤ 1048576 }
    ensures taken { IfOk result (λ b. IsTaken (T.about question.now) T.took b text.now) }
    ensures over { IfOk result (λ b. b.is_over ≡ true) }
    ensures refused { IfErr result (IsRefusedText text.now) }
{
    let mut reading = Reading::<T>::Start;
    match reading.take_lines(alloc, question, text) {
        Ok(left) => reading.finish(left, Ending::Whole),
        Err((refusal, _)) => Err(refusal),
    }
}

/// A line for which a text is refused.
#[derive(Debug, PartialEq, Eq, Drop)]
pub struct RefusedLine {
    /// What stands in it, without its line feed; of a line that has none as much as was read.
    pub bytes: Vec<u8>,
    /// Whether it has a line feed at its end.
    pub is_ended: bool,
    /// Whether the record ends before it.
    pub is_behind_end: bool,
}

/// A stream of text, as far as it was read.
#[derive(Drop)]
pub struct Stream<T> {
    /// Its whole lines.
    pub reading: Reading<T>,
    /// What was read of its next line.
    pub left: Vec<u8>,
}

impl<T> Stream<T> {
    /// The next line, with which this text begins; None where there is no memory for it.
    fn shown(&self, alloc: Global, text: &[u8]) -> Option<RefusedLine> {
        let (line, is_ended) = match next_line(text) {
            Some((line, _)) => (line, true),
            None => (text, false),
        };
        let bytes = Vec::from_slice(alloc, line).ok()?;
        Some(RefusedLine {
            bytes,
            is_ended,
            is_behind_end: self.reading.is_over(),
        })
    }
}

impl<T: Taker + Drop> Stream<T> {
    /// A stream of which nothing was read.
    fn new(alloc: Global) -> Stream<T>
        ensures { (q : T.Question) → HasStreamed (T.about q) T.took result [] }
    {
        Stream {
            reading: Reading::Start,
            left: Vec::new(alloc),
        }
    }

    /// Takes the next piece. A line of more than 256 bytes is refused before its end, since no record has one.
    fn take(
        &mut self,
        alloc: Global,
        question: &T::Question,
        piece: &[u8],
        refused: &mut Option<RefusedLine>,
    ) -> Result<(), PoolError>
        requires { (bytes : List ℕ) × HasStreamed (T.about question.now) T.took self.old bytes }
        ensures read { OnOk result ((bytes : List ℕ) → HasStreamed (T.about question.now) T.took self.old bytes → HasStreamed (T.about question.now) T.took self.new (bytes ++ piece.now)) }
        ensures refused { IfErr result (λ e. (bytes later : List ℕ) → HasStreamed (T.about question.now) T.took self.old bytes → IsRefusedBy (bytes ++ piece.now) later e) }
    {
        let mut text = mem::replace(&mut self.left, Vec::new(alloc));
        if text.extend_from_slice(piece).is_err() {
            return Err(PoolError::NoMemory);
        }
        match self.reading.take_lines(alloc, question, text.as_slice()) {
            Ok(rest) => self.keep(alloc, rest, refused),
            Err((refusal, rest)) => {
                *refused = self.shown(alloc, rest);
                Err(refusal)
            }
        }
    }

    /// Keeps what was read of the next line.
    fn keep(
        &mut self,
        alloc: Global,
        rest: &[u8],
        refused: &mut Option<RefusedLine>,
    ) -> Result<(), PoolError>
        requires empty { self.old.left.items ≡ [] }
        requires single { HasNoLineFeed rest.now }
        ensures kept { OnOk result ((q : T.Question) (bytes : List ℕ) (lines : List (List ℕ)) → IsRead (T.about q) T.took self.old.reading lines → IsLines bytes lines rest.now → HasStreamed (T.about q) T.took self.new bytes) }
        ensures refused { IfErr result (λ e. (q : T.Question) (bytes later : List ℕ) (lines : List (List ℕ)) → IsRead (T.about q) T.took self.old.reading lines → IsLines bytes lines rest.now → IsRefusedBy bytes later e) }
    {
        if rest.len() <= LONGEST_LINE {
            return match self.left.extend_from_slice(rest) {
                Ok(()) => Ok(()),
                Err(_) => Err(PoolError::NoMemory),
            };
        }
        *refused = self.shown(alloc, rest);
        match self.reading.next_number() {
            Ok(number) => Err(PoolError::BadEntry(number)),
            Err(refusal) => Err(refusal),
        }
    }

    /// What was read, at the stream's end.
    fn finish(
        self,
        alloc: Global,
        ending: Ending,
        refused: &mut Option<RefusedLine>,
    ) -> Result<Body<T>, PoolError>
        requires { (q : T.Question) × (bytes : List ℕ) × HasStreamed (T.about q) T.took self bytes }
        ensures taken { IfOk result (λ b. (q : T.Question) (bytes : List ℕ) → HasStreamed (T.about q) T.took self bytes → IsTaken (T.about q) T.took b bytes) }
        ensures ends { IfOk result (λ b. EndsSo ending b.is_over) }
        ensures refused { IfErr result (λ e. (q : T.Question) (bytes : List ℕ) → HasStreamed (T.about q) T.took self bytes → IsRefusedBy bytes [] e) }
    {
        let line = self.shown(alloc, self.left.as_slice());
        let Stream { reading, left } = self;
        match reading.finish(left.as_slice(), ending) {
            Ok(body) => Ok(body),
            Err(refusal) => {
                *refused = line;
                Err(refusal)
            }
        }
    }
}

/// Reads a stream line by line, in pieces of 4,096 bytes, to an end such as it may have. Refused as `read_whole`, and the refused line is
/// kept, where there is memory for it. 25 `ReadFailed` comes just where the reader fails now, which keeps why, or gives more lines than
/// have numbers.
pub fn read_stream<R: Read, T: Taker + Drop>(
    alloc: Global,
    question: &T::Question,
    ending: Ending,
    reader: &mut WatchedReader<R>,
    refused: &mut Option<RefusedLine>,
) -> Result<Body<T>, PoolError>
    ensures taken { IfOk result (λ b. OfReader (R.remaining (source reader.old)) (IsTaken (T.about question.now) T.took b)) }
    ensures ends { IfOk result (λ b. EndsSo ending b.is_over) }
    ensures refused { IfErr result (λ e. (e ≡ PoolError.ReadFailed) ⊎ OfReader (R.remaining (source reader.old)) (λ text. IsRefusedText text e)) }
    ensures tells_reader { TellsReader reader.old result reader.new }
{
    let mut stream = Stream::<T>::new(alloc);
    let mut piece = [0u8; 4_096];
    for _ in 0..MAX_PIECES {
        let count = match reader.read(&mut piece) {
            Ok(count) => count,
            Err(_) => return Err(PoolError::ReadFailed),
        };
        if count == 0 {
            return stream.finish(alloc, ending, refused);
        }
        if let Err(refusal) = stream.take(alloc, question, &piece[..count], refused) {
            return Err(refusal);
        }
    }
    Err(PoolError::ReadFailed)
}
