//! Lists that grow where there is memory.

ghost use Rattle.std.specs.Prelude.{◌≡◌, [], ◌∷◌, ◌++◌, Some, IfOk, OnOk, IsOkUnless};
ghost use Rattle.tp_record.specs.Lists as lists;

use std::alloc::Global;
use tp_types::refusals::PoolError;

/// Puts `x` at the end.
pub fn push<T: Drop>(list: &mut Vec<T>, x: T) -> Result<(), PoolError>
    ensures items { OnOk result (list.new.items ≡ list.old.items ++ x ∷ []) }
    ensures refused { IsOkUnless result PoolError.NoMemory }
{
    match list.push(x) {
        Ok(()) => Ok(()),
        Err(_) => Err(PoolError::NoMemory),
    }
}

/// Drops each `x` of a list of tasks.
pub fn drop_task(list: &mut Vec<u32>, x: u32)
    ensures { list.new.items ≡ lists.without x list.old.items }
{
    list.retain(|y| *y != x);
}

/// Drops each `x` of a list of slots.
pub fn drop_slot(list: &mut Vec<usize>, x: usize)
    ensures { list.new.items ≡ lists.without x list.old.items }
{
    list.retain(|y| *y != x);
}

/// Puts task `x` at the end, and nowhere else.
pub fn put_task_at_end(list: &mut Vec<u32>, x: u32) -> Result<(), PoolError>
    ensures items { OnOk result (list.new.items ≡ lists.at_end (Some x) list.old.items) }
    ensures refused { IsOkUnless result PoolError.NoMemory }
{
    drop_task(list, x);
    push(list, x)
}

/// Puts slot `x` at the end, and nowhere else.
pub fn put_slot_at_end(list: &mut Vec<usize>, x: usize) -> Result<(), PoolError>
    ensures items { OnOk result (list.new.items ≡ lists.at_end (Some x) list.old.items) }
    ensures refused { IsOkUnless result PoolError.NoMemory }
{
    drop_slot(list, x);
    push(list, x)
}

/// An empty list with room for `count` elements.
pub fn with_room<T>(alloc: Global, count: usize) -> Result<Vec<T>, PoolError>
    ensures items { IfOk result (λ v. v.items ≡ []) }
    ensures refused { IsOkUnless result PoolError.NoMemory }
{
    match Vec::with_capacity(alloc, count) {
        Ok(list) => Ok(list),
        Err(_) => Err(PoolError::NoMemory),
    }
}

/// A copy of a list.
pub fn copy_of<T: Copy>(alloc: Global, list: &[T]) -> Result<Vec<T>, PoolError>
    ensures items { IfOk result (λ v. v.items ≡ list.now) }
    ensures refused { IsOkUnless result PoolError.NoMemory }
{
    let mut copy = with_room(alloc, list.len())?;
    for x in list {
        push(&mut copy, *x)?;
    }
    Ok(copy)
}
