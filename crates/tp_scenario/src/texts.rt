//! A text that begins with a pool line: what it says, line by line.

ghost use Rattle.std.specs.Prelude.{◌≡◌, ◌+◌, ◌≤◌, ◌<◌, ◌^◌, List, length, Ok, Err, IfOk, IfErr};
ghost use Rattle.tp_text.specs.declared.pools.PoolLine.{PoolLine};
ghost use Rattle.tp_text.specs.Pools.{FitsPool, pool_text};
ghost use Rattle.tp_scenario.specs.PoolText.{IsPoolText, LinesSaid, LinesSayFrom, ReadsLine, ReadsPoolLine};
ghost use Rattle.tp_scenario.specs.Read.{said_by};

use crate::forms::{LineForm, LineRead, PoolRead};
use std::alloc::{AllocError, Global};
use tp_text::lines::{clean_text, is_skipped, next_line};
use tp_text::pools::{PoolLine, pool_of};

/// A pool, and what the lines behind its line say.
#[derive(Debug, Drop)]
pub struct PoolText<L> {
    /// The pool line.
    pub pool: PoolLine,
    /// What its lines say, up to the first bad line.
    pub lines: Vec<L>,
    /// The number of the first bad line behind the pool line, where there is one. Lines count from 1.
    pub bad: Option<u32>,
}

/// What a line is, behind the pool line.
#[inline(always)]
pub fn read_line<L: LineForm>(line: &[u8]) -> LineRead<L>
    ensures { ReadsLine L.text_of L.fits line.now result }
{
    if is_skipped(line) {
        return LineRead::Skipped;
    }
    let Some(text) = clean_text(line) else {
        return LineRead::Bad;
    };
    match L::of_text(text) {
        Some(line) => LineRead::Says(line),
        None => LineRead::Bad,
    }
}

/// What a line is, up to the pool line.
pub fn read_pool_line(line: &[u8]) -> PoolRead
    ensures { ReadsPoolLine line.now result }
{
    if is_skipped(line) {
        return PoolRead::Skipped;
    }
    let Some(text) = clean_text(line) else {
        return PoolRead::Bad;
    };
    match pool_of(text) {
        Some(pool) => PoolRead::Pool(pool),
        None => PoolRead::Bad,
    }
}

/// What the lines of a text say up to its first bad line, and the number of that line, where there is
/// one. The first line has the number `first`.
#[inline(never)]
fn said<L: LineForm>(
    alloc: Global,
    first: u32,
    text: &[u8],
) -> Result<(Vec<L>, Option<u32>), AllocError>
    requires { first + length text.now < 2 ^ 32 }
    ensures { IfOk result (λ r. LinesSayFrom L.text_of L.fits first text.now (r.0.items, r.1)) }
{
    let mut lines = Vec::new(alloc);
    let mut rest = text;
    let mut number = first;
    while let Some((line, behind)) = next_line(rest) {
        match read_line::<L>(line) {
            LineRead::Skipped => {}
            LineRead::Says(line) => lines.push(line)?,
            LineRead::Bad => return Ok((lines, Some(number))),
        }
        rest = behind;
        number += 1;
    }
    if rest.is_empty() {
        Ok((lines, None))
    } else {
        Ok((lines, Some(number)))
    }
}

/// The number of the first bad line of a text, where there is one. The first line has the number `first`.
#[cold]
#[inline(never)]
pub fn first_bad<L: LineForm>(first: u32, text: &[u8]) -> Option<u32>
    requires { first + length text.now < 2 ^ 32 }
    ensures { (lines : List L) × LinesSayFrom L.text_of L.fits first text.now (lines, result) }
{
    let mut rest = text;
    let mut number = first;
    while let Some((line, behind)) = next_line(rest) {
        match read_line::<L>(line) {
            LineRead::Bad => return Some(number),
            _ => {}
        }
        rest = behind;
        number += 1;
    }
    if rest.is_empty() { None } else { Some(number) }
}

/// The pool line of a text, the number of the line behind it, and what stands there; or the number of the bad line before any pool
/// line. Where no line is left for the pool, the line after the last is bad.
pub fn opening<L: LineForm>(text: &[u8]) -> Result<(PoolLine, u32, &[u8]), u32>
    requires { length text.now < 4294967295 }
    ensures few { IfOk result (λ o. o.1 + length o.2.now < 2 ^ 32) }
    ensures pool { IfOk result (λ o. (said : LinesSaid L) → LinesSayFrom L.text_of L.fits o.1 o.2.now said → IsPoolText L.text_of L.fits text.now (Ok (o.0, said))) }
    ensures bad { IfErr result (λ k. IsPoolText L.text_of L.fits text.now (Err k)) }
{
    let mut rest = text;
    let mut number = 1;
    while let Some((line, behind)) = next_line(rest) {
        match read_pool_line(line) {
            PoolRead::Skipped => {}
            PoolRead::Pool(pool) => return Ok((pool, number + 1, behind)),
            PoolRead::Bad => return Err(number),
        }
        rest = behind;
        number += 1;
    }
    Err(number)
}

/// What a text says: its pool and its lines, or the number of the bad line before any pool line. Where
/// no line is left for the pool, the line after the last is bad.
pub fn read_pool_text<L: LineForm>(
    alloc: Global,
    text: &[u8],
) -> Result<Result<PoolText<L>, u32>, AllocError>
    requires { length text.now < 4294967295 }
    ensures { IfOk result (λ r. IsPoolText L.text_of L.fits text.now (said_by r)) }
{
    match opening::<L>(text) {
        Ok((pool, first, behind)) => {
            let (lines, bad) = said::<L>(alloc, first, behind)?;
            Ok(Ok(PoolText { pool, lines, bad }))
        }
        Err(line) => Ok(Err(line)),
    }
}

/// The law that no text is that of two pool lines.
pub fn one_pool()
    ensures { (p q : PoolLine) → FitsPool p → FitsPool q → pool_text p ≡ pool_text q → p ≡ q }
{}
