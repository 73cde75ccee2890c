//! What a ring and a ranking hold.

ghost use Rattle.std.specs.Prelude.{◌≡◌, ◌==◌, ◌&&◌, nat_lt};
ghost use Rattle.tp_ring.specs.Ranks.{key};

/// One place of a ring. Its fields stand from the widest to the narrowest, so that a task's place takes 16 bytes.
#[derive(Clone, Copy)]
pub struct Item<T> {
    /// The place number: how many offers were accepted before.
    pub number: u64,
    /// Who waits here, or waited.
    pub id: T,
    /// Whether it still waits. A dead item is passed over until its place is given up.
    pub live: bool,
}

/// One place of a ranking.
#[derive(Clone, Copy)]
pub struct Ranked<T> {
    /// Who waits here.
    pub id: T,
    /// Its rank.
    pub rank: u32,
    /// The place number: how many offers were accepted before.
    pub number: u64,
}

impl<T: Copy> Ranked<T> {
    /// Whether it comes before this rank and number.
    pub fn is_before(self, rank: u32, number: u64) -> bool
        ensures { result ≡ nat_lt (key self.rank self.number) (key rank number) }
    {
        self.rank < rank || (self.rank == rank && self.number < number)
    }

    /// Whether these are its rank and number.
    pub fn is_at(&self, rank: u32, number: u64) -> bool
        ensures { result ≡ (self.now.rank == rank && self.now.number == number) }
    {
        self.rank == rank && self.number == number
    }
}
