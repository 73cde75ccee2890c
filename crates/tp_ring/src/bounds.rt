//! Where an item falls in a ranking, by binary search: the keys rise.

ghost use Rattle.std.specs.Prelude.{ℕ, ◌≡◌, ◌≤◌, ◌^◌, nat_le, nat_lt, length, take, drop, filter};
ghost use Rattle.tp_ring.specs.Line.{Ordered};
ghost use Rattle.tp_ring.specs.Ranks.{key};
ghost use Rattle.tp_ring.specs.Ranking.{keyed, NumbersWithin};
ghost use Rattle.std.specs.VecDeque.{deque_len};

use crate::items::Ranked;
use std::alloc::Global;
use std::collections::VecDeque;

/// The index behind all whose rank is not greater.
pub(crate) fn behind_rank<T: Copy>(items: &VecDeque<Ranked<T>, Global>, rank: u32) -> usize
    requires rises { (next : ℕ) × Ordered 0 (keyed items.now.items) next }
    requires numbers { NumbersWithin (2 ^ 64) items.now.items }
    ensures within { result ≤ deque_len items.now }
    ensures before { take result items.now.items ≡ filter (λ x. nat_le x.rank rank) items.now.items }
    ensures behind { drop result items.now.items ≡ filter (λ x. nat_lt rank x.rank) items.now.items }
{
    items.partition_point(|item| item.rank <= rank)
}

/// The index of the first at this rank and number, or behind them.
pub(crate) fn first_at<T: Copy>(
    items: &VecDeque<Ranked<T>, Global>,
    rank: u32,
    number: u64,
) -> usize
    requires { (next : ℕ) × Ordered 0 (keyed items.now.items) next }
    ensures { drop result items.now.items ≡ filter (λ x. nat_le (key rank number) (key x.rank x.number)) items.now.items }
{
    items.partition_point(|item| item.is_before(rank, number))
}
