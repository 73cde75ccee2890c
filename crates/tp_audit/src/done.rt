//! The completed tasks of groups, by group.

ghost use Rattle.std.specs.Prelude.{ℕ, ◌≡◌, ◌==◌, ◌++◌, ◌∷◌, [], drop, slice_get, OnOk, OnErr, if◌then◌else◌};

use indexmap::IndexMap;
use std::alloc::{AllocError, Global};
use std::collections::VecDeque;

/// The completed tasks of groups that are not handed out: of each group, in the order of their completion. No step asks for the
/// order over all groups.
#[derive(Drop)]
pub struct Done {
    alloc: Global,
    groups: IndexMap<u32, VecDeque<u32>>,
}

impl Done {
    ghost use Rattle.tp_audit.specs.Done.{done_in};

    /// None is completed.
    pub fn new(alloc: Global) -> Done
        ensures { (g : ℕ) → done_in result g ≡ [] }
    {
        Done {
            alloc,
            groups: IndexMap::new(alloc),
        }
    }

    /// The task of this group that was completed first.
    pub fn first(&self, group: u32) -> Option<u32>
        ensures { result ≡ slice_get (done_in self.now group) 0 }
    {
        match self.groups.get(&group) {
            Some(tasks) => tasks.front().copied(),
            None => None,
        }
    }

    /// Task `t` of this group is completed. Where memory is refused nothing has changed.
    pub fn push(&mut self, group: u32, t: u32) -> Result<(), AllocError>
        ensures done { OnOk result ((g : ℕ) → done_in self.new g ≡ (if group == g then done_in self.old g ++ t ∷ [] else done_in self.old g)) }
        ensures err { OnErr result ((g : ℕ) → done_in self.new g ≡ done_in self.old g) }
    {
        if let Some(tasks) = self.groups.get_mut(&group) {
            return match tasks.push_back(t) {
                Ok(()) => Ok(()),
                Err(_) => Err(AllocError),
            };
        }
        let mut tasks = VecDeque::new(self.alloc);
        if tasks.push_back(t).is_err() {
            return Err(AllocError);
        }
        match self.groups.insert(group, tasks) {
            Ok(_) => Ok(()),
            Err(_) => Err(AllocError),
        }
    }

    /// Hands out the task of this group that was completed first.
    pub fn hand_out(&mut self, group: u32)
        ensures { (g : ℕ) → done_in self.new g ≡ (if g == group then drop 1 (done_in self.old g) else done_in self.old g) }
    {
        if let Some(tasks) = self.groups.get_mut(&group) {
            tasks.pop_front();
        }
    }
}
