//! A state for each slot number, and the list of those who sleep.

ghost use Rattle.std.specs.Prelude.{◌≡◌, ◌+◌, ◌<◌, ◌≤◌, ℕ, List, set, length, vec_capacity};
ghost use Rattle.tp_waking.specs.Rests.{searching};
ghost use Rattle.tp_waking.specs.Tied.{IsTied, rest_of, rests_of, state_at};

/// Where a worker is, as far as waking it goes; one that sleeps has its index in the list.
#[derive(Clone, Copy, Debug, PartialEq, Eq)]
pub enum SleepState {
    Away,
    Listed(usize),
    Marked,
}

/// The worker of slot `w` sleeps from now on.
pub fn put_on(states: &mut Vec<SleepState>, listed: &mut Vec<usize>, w: usize)
    requires state { w < length states.old.items }
    requires away { state_at states.old.items w ≡ SleepState.Away }
    requires tied { IsTied states.old.items listed.old.items }
    requires room { length states.old.items ≤ vec_capacity listed.old }
    ensures tied { IsTied states.new.items listed.new.items }
    ensures rests { rests_of states.new.items
        ≡ set (rests_of states.old.items) w (rest_of (SleepState.Listed (length listed.old.items))) }
    ensures marks { searching (rests_of states.new.items) ≡ searching (rests_of states.old.items) }
    ensures states { length states.new.items ≡ length states.old.items }
    ensures room { vec_capacity listed.new ≡ vec_capacity listed.old }
{
    states[w] = SleepState::Listed(listed.len());
    listed.push_reserved(w);
}

/// The worker of slot `w`, which is listed at this index, is woken. The last of the list takes its index.
pub fn take_off(states: &mut Vec<SleepState>, listed: &mut Vec<usize>, w: usize, index: usize)
    requires state { state_at states.old.items w ≡ SleepState.Listed index }
    requires tied { IsTied states.old.items listed.old.items }
    ensures tied { IsTied states.new.items listed.new.items }
    ensures rests { rests_of states.new.items ≡ set (rests_of states.old.items) w (rest_of SleepState.Marked) }
    ensures marks { searching (rests_of states.new.items)
        ≡ searching (rests_of states.old.items) + 1 }
    ensures states { length states.new.items ≡ length states.old.items }
    ensures room { vec_capacity listed.new ≡ vec_capacity listed.old }
{
    let Some(last) = listed.pop() else {
        unreachable!()
    };
    if last == w {
        states[w] = SleepState::Marked;
        return;
    }
    listed[index] = last;
    states[last] = SleepState::Listed(index);
    states[w] = SleepState::Marked;
}

/// The worker of slot `w`, which was woken, looks for no task any more.
pub fn unmark(states: &mut Vec<SleepState>, w: usize)
    requires state { state_at states.old.items w ≡ SleepState.Marked }
    ensures tied { (listed : List ℕ) → IsTied states.old.items listed → IsTied states.new.items listed }
    ensures rests { rests_of states.new.items ≡ set (rests_of states.old.items) w (rest_of SleepState.Away) }
    ensures marks { searching (rests_of states.new.items) + 1
        ≡ searching (rests_of states.old.items) }
    ensures states { length states.new.items ≡ length states.old.items }
{
    states[w] = SleepState::Away;
}
