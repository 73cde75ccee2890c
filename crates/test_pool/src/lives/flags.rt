//! A cancel flag that several hold, and the flags of tasks that their callers run.

use crate::compare::same;
use std::alloc::Global;
use std::test::Fail;
use tp_pool_holds::flags::Flags;
use tp_protocols::flags::{CancelFlag, SlotFlag};
use tp_types::ids::TaskId;

#[test]
fn all_holds_see_a_flag_set(rt: HostRuntime) -> Result<(), Fail> {
    let flag = CancelFlag::new(rt.alloc())?;
    let held = flag.share()?;
    let other = CancelFlag::new(rt.alloc())?;
    let before = (flag.is_set(), held.is_set());
    flag.set();
    let after = (flag.is_set(), held.is_set());
    let seen = (before, after, other.is_set());
    same(&rt, 0, &seen, &((false, false), (true, true), false));
    Ok(())
}

// A slot's flag as its worker finds it for the next job: whether it is another one, whether it is set, and whether it is set once the
// pool sets its own hold.
fn renewed(flag: &mut SlotFlag, kept: &mut CancelFlag, alloc: Global) -> (bool, bool, bool) {
    let other = flag.renew(alloc);
    let changes = other.is_some();
    if let Some(theirs) = other {
        *kept = theirs;
    }
    let before = flag.lent().is_set();
    kept.set();
    (changes, before, flag.lent().is_set())
}

// A job may share its flag and keep that hold after its end.
#[test]
fn flag_serves_again_where_no_job_kept_it(rt: HostRuntime) -> Result<(), Fail> {
    let (mut flag, mut kept) = SlotFlag::new(rt.alloc())?;
    let fresh = renewed(&mut flag, &mut kept, rt.alloc());
    let again = renewed(&mut flag, &mut kept, rt.alloc());
    same(
        &rt,
        0,
        &(fresh, again),
        &((false, false, true), (false, false, true)),
    );
    let third = flag.lent().share()?;
    let shared = renewed(&mut flag, &mut kept, rt.alloc());
    same(
        &rt,
        1,
        &(shared, third.is_set()),
        &((true, false, true), true),
    );
    let alone = renewed(&mut flag, &mut kept, rt.alloc());
    same(&rt, 2, &alone, &(false, false, true));
    Ok(())
}

// Where a caller is with its task.
#[derive(Clone, Copy)]
enum Phase {
    Idle,
    Submitted,
    Runs,
}

// Whether this task has a flag that was no other task's: such a one is not set. It is set then.
fn has_its_own(flags: &Flags, t: TaskId) -> bool {
    let fresh = match flags.at_caller(t) {
        Some(flag) => !flag.is_set(),
        None => false,
    };
    flags.set_at_caller(t);
    fresh
}

// The next move of a caller among five, and whether it lacked a flag of its own. `next` is the flag for its next task, where there was memory for
// one.
fn moved(flags: &mut Flags, t: TaskId, phase: Phase, next: Option<CancelFlag>) -> (Phase, bool) {
    match phase {
        Phase::Idle => (Phase::Submitted, flags.reserve(5).is_err()),
        Phase::Submitted => {
            flags.begin_at_caller(t);
            if let Some(flag) = next {
                flags.add_ready(flag);
            }
            (Phase::Runs, !has_its_own(flags, t))
        }
        Phase::Runs => {
            flags.end_at_caller(t);
            (Phase::Idle, false)
        }
    }
}

// Five callers submit, run and end their tasks in a random order: how often one lacked a flag, and how often one ran a task.
fn lacking(alloc: Global, flags: &mut Flags) -> (u32, u32) {
    let mut phases = [Phase::Idle; 5];
    let (mut chance, mut lacked, mut ran) = (1u64, 0u32, 0u32);
    for _ in 0..20_000u32 {
        chance = chance
            .wrapping_mul(6_364_136_223_846_793_005)
            .wrapping_add(1_442_695_040_888_963_407);
        let at = (chance >> 33u32) % 5;
        let next = if (chance >> 60u32) < 4 {
            None
        } else {
            CancelFlag::new(alloc).ok()
        };
        if let Some(phase) = phases.get_mut(at as usize) {
            let (then, lacks) = moved(flags, TaskId(at as u32), *phase, next);
            lacked = lacked.wrapping_add(u32::from(lacks));
            ran = ran.wrapping_add(u32::from(matches!(then, Phase::Runs)));
            *phase = then;
        }
    }
    (lacked, ran)
}

// A caller that has to run its own task finds a flag for it, since its submission reserved one.
#[test]
fn five_callers_have_a_flag_each(rt: HostRuntime) -> Result<(), Fail> {
    let mut flags = Flags::new(rt.alloc(), 1)?;
    let (lacked, ran) = lacking(rt.alloc(), &mut flags);
    same(&rt, 0, &(lacked, ran > 5_000), &(0, true));
    Ok(())
}
