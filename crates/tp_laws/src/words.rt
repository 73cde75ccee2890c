//! The words of the rules agree with the working tables: what `specs/Words` of `tp_record` says of a
//! record, each thing by itself, is what the tables and the state say, at every legal record. So a
//! table that is wrong can't agree with its words.

ghost use Rattle.std.specs.Prelude.{◌≡◌, ◌↔◌, ◌<◌, ◌≤◌, ◌||◌, ◌&&◌, not, false, List, ℕ, Option, Some, None, length, is_some, nat_lt};
ghost use Rattle.tp_types.specs.declared.configs.Config.{Config};
ghost use Rattle.tp_types.specs.declared.tasks.Fate.{Fate};
ghost use Rattle.tp_types.specs.declared.tasks.Place.TheVariants as at;
ghost use Rattle.tp_record.specs.declared.entries.Entry.{Entry};
ghost use Rattle.tp_record.specs.declared.rows.SlotRow.{SlotRow};
ghost use Rattle.tp_record.specs.Fields.{submitted, kind, priority, is_cancelled, now, place, outcome, owes_second, retries, queue, is_queued_place, task_row, is_slot, slot_row, is_live, is_live_stage, idling, live, largest};
ghost use Rattle.tp_record.specs.State.{state, fate_of, is_fate, counts};
ghost use Rattle.tp_record.specs.Step.{Legal, done_of};
ghost use Rattle.tp_record.specs.Words.{submissions, is_submitted, kind_of, priority_of, was_cancelled, moment, waits_in_queue, in_slot, is_held_in, is_taken_in, is_running_in, with_submitter, is_at_caller, is_gone, waiting_line, slot_for, is_slot_now, is_live_now, is_busy, idle_since, is_dying, is_at_take, live_slots, largest_live, has_fate, begun, is_begun, is_waiting, done_in_group, counters, owes_look, retry_count, body_outcome};
ghost use Rattle.tp_laws.specs.Seats.{slot_of, seat_of};
ghost use Rattle.tp_laws.specs.IdleLine.{idle_line};
ghost use Rattle.tp_laws.specs.Agrees.{submitter_of, is_caller_place, is_gone_place, is_running_place, is_waiting_place, is_held_at, is_taken_at, is_running_at, idle_of, is_dying_stage, is_busy_row, is_taking_row};

/// The submissions are counted alike, and the submitted tasks are those with a smaller number. Kinds,
/// priority numbers, cancels and the moment are read alike.
pub fn tasks_agree()
    ensures submissions { (h : List Entry) → submissions h ≡ submitted h }
    ensures submitted { (c : Config) (h : List Entry) (t : ℕ) → Legal c h →
        is_submitted h t ≡ nat_lt t (submitted h) }
    ensures kind { (h : List Entry) (t : ℕ) → kind_of h t ≡ kind h t }
    ensures priority { (h : List Entry) (t : ℕ) → priority_of h t ≡ priority h t }
    ensures cancelled { (c : Config) (h : List Entry) (t : ℕ) → Legal c h →
        was_cancelled h t ≡ is_cancelled h t }
    ensures moment { (h : List Entry) → moment h ≡ now h }
{}

/// Second looks, retries and the outcomes of bodies are read alike.
pub fn task_fields_agree()
    ensures second { (c : Config) (h : List Entry) (t : ℕ) → Legal c h →
        owes_look h t ≡ owes_second h t }
    ensures retries { (c : Config) (h : List Entry) (t : ℕ) → Legal c h →
        retry_count h t ≡ retries h t }
    ensures outcome { (c : Config) (h : List Entry) (t : ℕ) → Legal c h →
        body_outcome h t ≡ outcome h t }
{}

/// Each place has its words: queued, in a slot and there held, taken or running, with its submitter
/// (to look, to be offered, to grow or refused), at its caller, gone.
pub fn places_agree()
    ensures queued { (c : Config) (h : List Entry) (t : ℕ) → Legal c h →
        waits_in_queue h t ≡ is_queued_place (place h t) }
    ensures slot { (c : Config) (h : List Entry) (t : ℕ) → Legal c h →
        in_slot h t ≡ slot_of (place h t) }
    ensures held { (c : Config) (h : List Entry) (w t : ℕ) → Legal c h →
        is_held_in h w t ≡ is_held_at w (place h t) }
    ensures taken { (c : Config) (h : List Entry) (w t : ℕ) → Legal c h →
        is_taken_in h w t ≡ is_taken_at w (place h t) }
    ensures running { (c : Config) (h : List Entry) (w t : ℕ) → Legal c h →
        is_running_in h w t ≡ is_running_at w (place h t) }
    ensures submitter { (c : Config) (h : List Entry) (t : ℕ) → Legal c h →
        with_submitter h t ≡ submitter_of (place h t) }
    ensures caller { (c : Config) (h : List Entry) (t : ℕ) → Legal c h →
        is_at_caller h t ≡ is_caller_place (place h t) }
    ensures gone { (c : Config) (h : List Entry) (t : ℕ) → Legal c h → t < submitted h →
        is_gone h t ≡ is_gone_place (place h t) }
{}

/// A task that was never submitted is in no place, in all the words; its row says gone. No step rests
/// on that row: Step asks for the number first, and answers UnknownTask (6).
pub fn unsubmitted_is_nowhere()
    ensures queued { (c : Config) (h : List Entry) (t : ℕ) → Legal c h → submitted h ≤ t →
        waits_in_queue h t ≡ false }
    ensures slot { (c : Config) (h : List Entry) (t : ℕ) → Legal c h → submitted h ≤ t →
        in_slot h t ≡ None }
    ensures submitter { (c : Config) (h : List Entry) (t : ℕ) → Legal c h → submitted h ≤ t →
        with_submitter h t ≡ None }
    ensures caller { (c : Config) (h : List Entry) (t : ℕ) → Legal c h → submitted h ≤ t →
        is_at_caller h t ≡ false }
    ensures gone { (c : Config) (h : List Entry) (t : ℕ) → Legal c h → submitted h ≤ t →
        is_gone h t ≡ false }
    ensures row { (c : Config) (h : List Entry) (t : ℕ) → Legal c h → submitted h ≤ t →
        place h t ≡ at.Gone }
{}

/// The queue is the line of the tasks that were put in it, in the order of these entries, without
/// those that a later entry took out; a priority queue goes by their priority numbers.
pub fn queue_agrees()
    ensures { (c : Config) (h : List Entry) → Legal c h → waiting_line c h ≡ queue c h }
{}

/// The slots are those with a reservation that no later entry freed. A slot's row names just the task
/// that is in it, also where the slot is reserved. A reserved slot is for what its stage says; the
/// others are live, and busy, idle since some moment, dying, or about to take. The idle ones are in the
/// order in which they took nothing.
pub fn slots_agree()
    ensures slots { (h : List Entry) (w : ℕ) → is_slot_now h w ≡ is_slot h w }
    ensures seat { (c : Config) (h : List Entry) (w t : ℕ) → Legal c h →
        in_slot h t ≡ Some w ↔ seat_of (slot_row h w) ≡ Some t }
    ensures reserved { (c : Config) (h : List Entry) (w : ℕ) (r : SlotRow) → Legal c h →
        slot_row h w ≡ Some r → is_live_stage r.stage ≡ false → slot_for h w ≡ Some r.stage }
    ensures live { (c : Config) (h : List Entry) (w : ℕ) → Legal c h →
        is_live_now h w ≡ is_live (slot_row h w) }
    ensures busy { (c : Config) (h : List Entry) (w : ℕ) → Legal c h →
        is_busy h w ≡ is_busy_row (slot_row h w) }
    ensures idle { (h : List Entry) (w : ℕ) (r : SlotRow) → slot_row h w ≡ Some r →
        idle_since h w ≡ idle_of r.stage }
    ensures order { (c : Config) (h : List Entry) → Legal c h → idle_line h ≡ idling h }
    ensures dying { (h : List Entry) (w : ℕ) (r : SlotRow) → slot_row h w ≡ Some r →
        is_dying h w ≡ is_dying_stage r.stage }
    ensures taking { (c : Config) (h : List Entry) (w : ℕ) → Legal c h →
        is_at_take h w ≡ is_taking_row (slot_row h w) }
    ensures count { (c : Config) (h : List Entry) → Legal c h → live_slots h ≡ live h }
    ensures largest { (c : Config) (h : List Entry) → Legal c h → largest_live h ≡ largest h }
{}

/// A task has a fate in words exactly where its row says so.
pub fn fates_agree()
    ensures { (c : Config) (h : List Entry) (f : Fate) (t : ℕ) → Legal c h →
        has_fate f h t ≡ is_fate f (fate_of (task_row h t)) }
{}

/// A task is begun at most once. It was begun exactly where it runs, in a slot or at its caller, or
/// has an outcome. A task waits where it was not begun, is not gone and was not cancelled.
pub fn begun_agrees()
    ensures once { (c : Config) (h : List Entry) (t : ℕ) → Legal c h → length (begun h t) ≤ 1 }
    ensures begun { (c : Config) (h : List Entry) (t : ℕ) → Legal c h →
        is_begun h t ≡ (is_running_place (place h t) || is_caller_place (place h t) || is_some (outcome h t)) }
    ensures waiting { (c : Config) (h : List Entry) (t : ℕ) → Legal c h →
        is_waiting h t ≡ (nat_lt t (submitted h) && is_waiting_place (place h t) && not (is_cancelled h t)) }
{}

/// The done tasks of a group are its completions, in their order, without as many of the first as
/// were taken.
pub fn done_agrees()
    ensures { (c : Config) (h : List Entry) (g : ℕ) → Legal c h →
        done_in_group g h ≡ done_of (state c h) g }
{}

/// The twelve counters count in words what the state counts.
pub fn counters_agree()
    ensures { (c : Config) (h : List Entry) → Legal c h → counters h ≡ counts (state c h) }
{}
