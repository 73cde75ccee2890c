//! Sleepers, and whom a step wakes.

use crate::calls::{Call, Said, Tested};
use std::alloc::{AllocError, Global};
use tp_text::numbers::{index, number};
use tp_text_record::entries::read_entry;
use tp_text_record::versions::Version;
use tp_types::ids::SlotId;
use tp_types::states::RunState;
use tp_waking::calls::Calls;
use tp_waking::sleepers::Sleepers;
use tp_waking::waking::Waking;

impl Tested for Sleepers {
    fn answer(&mut self, call: &Call<'_>) -> Said {
        match call.name {
            "list" => call.says(&self.list(call.slot()?)),
            "wake" => call.says(&self.call(call.slot()?)),
            "wakeone" => call.says(&self.call_one()),
            // Which one is woken is no promise.
            "wakesone" => call.says(&self.call_one().is_some()),
            "wakeall" => call.says(&self.call_all()),
            "settle" => call.says(&self.settle(call.first == "waits")),
            "endsearch" => call.says(&self.end_search(call.slot()?)),
            "rest" => call.says(&self.rest(call.slot()?)),
            "searching" => call.says(&self.searching()),
            _ => None,
        }
    }
}

/// The sleepers of a pool with three live workers, and what else is so once a step is made.
#[derive(Drop)]
pub struct Pool {
    waking: Waking,
    state: RunState,
    queued: u32,
    longest: Option<SlotId>,
}

/// Who is woken.
fn names(alloc: Global, calls: &Calls) -> Result<String, AllocError> {
    let mut text = String::from_str(alloc, "wakes")?;
    if let Some(w) = calls.worker {
        write!(text, " worker {}", w.0)?;
    }
    for (is_woken, name) in [
        (calls.is_nobody(), " nobody"),
        (calls.everyone, " everyone"),
        (calls.waiters.end, " end"),
        (calls.waiters.results, " results"),
        (calls.waiters.steps, " steps"),
    ] {
        if is_woken {
            text.push_str(name)?;
        }
    }
    Ok(text)
}

impl Pool {
    /// A pool of three slots, in which nobody sleeps.
    pub fn new(alloc: Global) -> Result<Pool, AllocError> {
        Ok(Pool {
            waking: Waking::new(alloc, 3)?,
            state: RunState::Running,
            queued: 0,
            longest: None,
        })
    }

    /// The step of the entry that this line is of is accepted.
    fn follow(&mut self, line: &str) -> Option<()> {
        let (_, entry) = read_entry(Version::Two, line.as_bytes())?;
        let (state, queued, longest) = (self.state, self.queued, self.longest);
        self.waking
            .follow(&entry.ask, &entry.did, state, 3, queued, longest);
        Some(())
    }
}

impl Tested for Pool {
    fn answer(&mut self, call: &Call<'_>) -> Said {
        match (call.name, call.first) {
            ("queued", many) => self.queued = number(many)?,
            ("longest", w) => self.longest = index(w).map(SlotId),
            ("shutdown", _) => self.state = RunState::Shutdown,
            ("sleep", _) => {
                for w in 0..3 {
                    self.waking.took(SlotId(w), true, 0);
                }
            }
            ("take", _) => self.waking.took(call.slot()?, false, self.queued),
            ("await", "end") => self.waking.await_end(),
            ("await", "result") => self.waking.await_result(),
            ("await", "step") => self.waking.await_step(),
            _ => self.follow(call.line)?,
        }
        Some(names(call.alloc, &self.waking.release()))
    }
}
