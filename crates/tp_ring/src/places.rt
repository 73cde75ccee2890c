//! The places of a ring: dead ones are taken out, and one is found by its number.

ghost use Rattle.std.specs.Prelude.{◌≡◌, ◌<◌, ◌+◌, ℕ, false, length, drop, slice_get, IfSome, IfNone, Some, if◌then◌else◌};
ghost use Rattle.tp_ring.specs.Line.{without_place};
ghost use Rattle.tp_ring.specs.Ring.{living, Rises, FrontLives, number_at};
ghost use Rattle.tp_ring.specs.Split.{IsSplit};

use crate::items::Item;
use circular_buffer::HeapCircularBuffer;

/// Takes out the dead places in front.
#[inline(always)]
pub(crate) fn trim<T: Copy>(ring: &mut HeapCircularBuffer<Item<T>>)
    ensures living { living ring.new.items ≡ living ring.old.items }
    ensures rises { (next : ℕ) → Rises 0 ring.old.items next → Rises 0 ring.new.items next }
    ensures front { FrontLives ring.new.items }
    ensures capacity { ring.new.capacity ≡ ring.old.capacity }
{
    while let Some(item) = ring.front() {
        if item.live {
            return;
        }
        ring.pop_front();
    }
}

/// Takes out all dead places, without memory.
#[cold]
#[inline(never)]
pub(crate) fn compact<T: Copy>(ring: &mut HeapCircularBuffer<Item<T>>)
    ensures living { living ring.new.items ≡ living ring.old.items }
    ensures full { length ring.new.items ≡ length (living ring.old.items) }
    ensures rises { (next : ℕ) → Rises 0 ring.old.items next → Rises 0 ring.new.items next }
    ensures front { FrontLives ring.new.items }
    ensures capacity { ring.new.capacity ≡ ring.old.capacity }
{
    for _i in 0..ring.len() {
        if let Some(item) = ring.pop_front() {
            if item.live {
                ring.push_back(item);
            }
        }
    }
}

/// Makes a free place, where fewer live than there are places.
#[inline(always)]
pub(crate) fn make_place<T: Copy>(ring: &mut HeapCircularBuffer<Item<T>>)
    requires some { length (living ring.old.items) < ring.old.capacity }
    requires front { FrontLives ring.old.items }
    ensures living { living ring.new.items ≡ living ring.old.items }
    ensures free { length ring.new.items < ring.new.capacity }
    ensures rises { (next : ℕ) → Rises 0 ring.old.items next → Rises 0 ring.new.items next }
    ensures front { FrontLives ring.new.items }
    ensures capacity { ring.new.capacity ≡ ring.old.capacity }
{
    if ring.len() < ring.capacity() {
        return;
    }
    compact(ring);
}

/// The index of the first place with this number or a greater one: the numbers rise.
pub(crate) fn lower_bound<T: Copy>(ring: &HeapCircularBuffer<Item<T>>, number: u64) -> usize
    requires { (next : ℕ) × Rises 0 ring.now.items next }
    ensures { IsSplit ring.now.items number result }
{
    let mut low = 0;
    let mut high = ring.len();
    while low < high {
        let middle = low + (high - low) / 2;
        let Some(item) = ring.get(middle) else {
            return low;
        };
        if item.number < number {
            low = middle + 1;
        } else {
            high = middle;
        }
    }
    low
}

/// The index of the item with this number, if there is one: the numbers rise.
pub(crate) fn find<T: Copy>(ring: &HeapCircularBuffer<Item<T>>, number: u64) -> Option<usize>
    requires { (next : ℕ) × Rises 0 ring.now.items next }
    ensures found { IfSome result (λ i. (i < length ring.now.items) × (number_at ring.now.items i ≡ number)) }
    ensures absent { IfNone result (without_place number (living ring.now.items) ≡ living ring.now.items) }
{
    let at = lower_bound(ring, number);
    match ring.get(at) {
        Some(item) if item.number == number => Some(at),
        _ => None,
    }
}

/// Marks the place dead, and says whether one waited there.
pub(crate) fn kill<T: Copy>(ring: &mut HeapCircularBuffer<Item<T>>, at: usize) -> bool
    requires rises { (next : ℕ) × Rises 0 ring.old.items next }
    requires within { at < length ring.old.items }
    ensures living { living ring.new.items ≡ without_place (number_at ring.old.items at) (living ring.old.items) }
    ensures waited { length (living ring.old.items) ≡ length (living ring.new.items) + (if result then 1 else 0) }
    ensures rises { (next : ℕ) → Rises 0 ring.old.items next → Rises 0 ring.new.items next }
    ensures capacity { ring.new.capacity ≡ ring.old.capacity }
{
    let Some(item) = ring.get_mut(at) else {
        return false;
    };
    let waited = item.live;
    item.live = false;
    waited
}

/// Who waits first from this index on.
pub(crate) fn first_live<T: Copy>(
    ring: &HeapCircularBuffer<Item<T>>,
    from: usize,
) -> Option<(T, u64)>
    ensures { result ≡ slice_get (living (drop from ring.now.items)) 0 }
{
    for i in from..ring.len() {
        if let Some(item) = ring.get(i) {
            if item.live {
                return Some((item.id, item.number));
            }
        }
    }
    None
}
