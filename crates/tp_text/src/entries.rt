//! The line of an entry.
ghost use Rattle.std.specs.Prelude.{◌≡◌, ◌++◌, OnOk, string_bytes};
ghost use Rattle.std.specs.Fmt.{decimal};
ghost use Rattle.tp_text.specs.EntryLine.{behind, did_words, entry_line, pass_words};

use crate::answers::{
    write_begin, write_caller_end, write_cancel, write_core_timeout, write_end, write_fail,
    write_grow, write_leave, write_look, write_offer, write_open, write_prestart, write_remove,
    write_second, write_submit, write_take, write_verdict,
};
use crate::pieces::{numbered, text};
use std::alloc::AllocError;
use tp_record::entries::{Did, Entry};
use tp_types::ids::TaskId;

/// What was done, each word behind a space.
fn write_did(line: &mut String, did: Did) -> Result<(), AllocError>
    ensures { OnOk result (string_bytes line.new ≡ string_bytes line.old ++ behind (did_words did)) }
{
    match did {
        Did::Submit(task, kind, priority, looked) => {
            write_submit(line, task, kind, priority, looked)
        }
        Did::Look(task, looked) => write_look(line, task, looked),
        Did::Offer(task, offered) => write_offer(line, task, offered),
        Did::Second(task, seconded) => write_second(line, task, seconded),
        Did::Grow(task, grown) => write_grow(line, task, grown),
        Did::Verdict(task, verdict, ruled) => write_verdict(line, task, verdict, ruled),
        Did::CallerEnd(task, outcome) => write_caller_end(line, task, outcome),
        Did::Open(slot, opened) => write_open(line, slot, opened),
        Did::Fail(slot, failed) => write_fail(line, slot, failed),
        Did::Take(slot, took) => write_take(line, slot, took),
        Did::Begin(slot, started) => write_begin(line, slot, started),
        Did::End(slot, task, outcome) => write_end(line, slot, task, outcome),
        Did::Leave(slot, reserved) => write_leave(line, slot, reserved),
        Did::Shutdown => text(line, " shutdown"),
        Did::Stop(drained) => numbered(line, " stop drained ", drained),
        Did::Tidy => text(line, " tidy"),
        Did::Ended => text(line, " ended"),
        Did::Remove(task, effect) => write_remove(line, task, effect),
        Did::Purge(gone) => numbered(line, " purge ", gone),
        Did::Cancel(task, flag, effect) => write_cancel(line, task, flag, effect),
        Did::TakeDone(group, TaskId(task)) => {
            numbered(line, " takedone ", group)?;
            numbered(line, " t", task)
        }
        Did::Core(core, more) => {
            numbered(line, " core ", core)?;
            numbered(line, " add ", more)
        }
        Did::Maximum(maximum) => numbered(line, " max ", maximum),
        Did::Keep(keep) => numbered(line, " keep ", keep),
        Did::CoreTimeout(on) => write_core_timeout(line, on),
        Did::Tick(now) => numbered(line, " tick ", now),
        Did::Prestart(reserved) => write_prestart(line, reserved),
    }
}

/// The number of an entry, and its pass where that is not 0.
#[inline(always)]
fn write_place(line: &mut String, number: usize, by: u32) -> Result<(), AllocError>
    ensures { OnOk result (string_bytes line.new ≡ string_bytes line.old ++ (decimal number ++ behind (pass_words by))) }
{
    numbered(line, "", number)?;
    if by == 0 {
        return Ok(());
    }
    numbered(line, " p", by)
}

/// Writes the line of an entry that has this number in its record behind what is written, as `3 p1 take w0 held t0`. The pass is
/// left out where it is 0. Where room is missing, some of the line may be written.
#[inline(always)]
pub fn write_entry(line: &mut String, number: usize, entry: &Entry) -> Result<(), AllocError>
    ensures { OnOk result (string_bytes line.new ≡ string_bytes line.old ++ entry_line number entry.now) }
{
    write_place(line, number, entry.by)?;
    write_did(line, entry.did)?;
    text(line, "\n")
}
