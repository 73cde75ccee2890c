//! Changes of the settings, of the moment and of the run state, by which idle workers wake.

ghost use Rattle.std.specs.Prelude.{ℕ, ◌≡◌, ◌≤◌, [], max, IsOk, OnOk, OnErr, ◌↔◌};
ghost use Rattle.tp_types.specs.declared.configs.Config.{Config};
ghost use Rattle.tp_types.specs.RunState.{state_rank};
ghost use Rattle.tp_record.specs.State.{State};
ghost use Rattle.tp_slots.specs.Table.{woken_row};
ghost use Rattle.tp_laws.specs.View.{View};
ghost use Rattle.tp_machine_state.specs.Shows.{Views, Shows};
ghost use Rattle.tp_machine_state.specs.Tied.{IsTied};

use crate::parts::Parts;
use std::alloc::AllocError;
use tp_types::states::RunState;

impl<P> Parts<P> {
    /// The core size in workers is another.
    pub fn set_core(&mut self, core: u32)
        requires within { core ≤ self.old.maximum }
        ensures views { (v : View) → Views self.old v → Views self.new (record v { core = core }) }
        ensures tied { (c : Config) (n : ℕ) → IsTied c n self.old → IsTied c n self.new }
        ensures rest { self.new ≡ record self.old { core = core } }
    {
        self.core = core;
    }

    /// Makes room for so many slots, before the maximum is raised. An error is want of memory, refusal 4, which comes only where
    /// there is room for fewer, and changes nothing. Either way the same states are shown.
    pub fn make_places(&mut self, maximum: u32) -> Result<(), AllocError>
        ensures ok { OnOk result (self.new ≡ record self.old { slots = record self.old.slots { places = max self.old.slots.places maximum } }) }
        ensures err { OnErr result (self.new ≡ self.old) }
        ensures room_enough { maximum ≤ self.old.slots.places → IsOk result }
        ensures same { (s : State) → Shows self.old s ↔ Shows self.new s }
        ensures tied { (c : Config) (n : ℕ) → IsTied c n self.old → IsTied c n self.new }
    {
        self.slots.grow_to(maximum as usize)
    }

    /// The maximum size in workers is another, for which there are places.
    pub fn set_maximum(&mut self, maximum: u32)
        requires least { 1 ≤ maximum }
        requires within { self.old.core ≤ maximum }
        requires places { maximum ≤ self.old.slots.places }
        ensures views { (v : View) → Views self.old v → Views self.new (record v { maximum = maximum }) }
        ensures tied { (c : Config) (n : ℕ) → IsTied c n self.old → IsTied c n self.new }
        ensures rest { self.new ≡ record self.old { maximum = maximum } }
    {
        self.maximum = maximum;
    }

    /// The keep-alive in ticks is another.
    pub fn set_keep(&mut self, keep: u64)
        ensures views { (v : View) → Views self.old v → Views self.new (record v { keep = keep }) }
        ensures tied { (c : Config) (n : ℕ) → IsTied c n self.old → IsTied c n self.new }
        ensures rest { self.new ≡ record self.old { keep = keep } }
    {
        self.keep = keep;
    }

    /// Core workers time out from now on, or do not.
    pub fn set_core_timeout(&mut self, on: bool)
        ensures views { (v : View) → Views self.old v → Views self.new (record v { core_timeout = on }) }
        ensures tied { (c : Config) (n : ℕ) → IsTied c n self.old → IsTied c n self.new }
        ensures rest { self.new ≡ record self.old { core_timeout = on } }
    {
        self.core_timeout = on;
    }

    /// It is this moment, in ticks.
    pub fn set_moment(&mut self, moment: u64)
        ensures views { (v : View) → Views self.old v → Views self.new (record v { now = moment }) }
        ensures tied { (c : Config) (n : ℕ) → IsTied c n self.old → IsTied c n self.new }
        ensures rest { self.new ≡ record self.old { moment = moment } }
    {
        self.moment = moment;
    }

    /// The pool comes to this run state, unless it has come further.
    pub fn reach(&mut self, state: RunState)
        ensures views { (v : View) → Views self.old v → Views self.new (record v { rank = max (state_rank state) v.rank }) }
        ensures tied { (c : Config) (n : ℕ) → IsTied c n self.old → IsTied c n self.new }
        ensures rest { self.new ≡ record self.old { state = self.new.state } }
    {
        if self.state.rank() < state.rank() {
            self.state = state;
        }
    }

    /// All idle workers work from now on, as a shutdown interrupts them.
    pub fn wake_all(&mut self)
        ensures views { (v : View) → Views self.old v → Views self.new (record v { slots = λ w. woken_row (v.slots w); idling = [] }) }
        ensures tied { (c : Config) (n : ℕ) → IsTied c n self.old → IsTied c n self.new }
        ensures rest { self.new ≡ record self.old { slots = self.new.slots } }
    {
        self.slots.wake_all();
    }
}
