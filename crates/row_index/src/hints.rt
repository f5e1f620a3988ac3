//! Hints of where rows stand.
ghost use Rattle.std.specs.Prelude.{◌≡◌, ◌≤◌, ◌+◌, ◌*◌};
ghost use Rattle.std.specs.Bool.{OnTrue, OnFalse};

use crate::key::Key;
use std::alloc::Global;
use std::marker::Model;

/// No place: no slot is so far back.
const NOWHERE: u32 = u32::MAX;

/// The least spots that memory is taken for: fewer are soon shared, and save little.
const FEWEST: usize = 16;

/// Where rows were put, which is found without hashing. A hint may be old, or that of another row:
/// whoever takes one looks at the slot there first. So a wrong one costs no more than time, and nothing
/// is promised of hints but how much memory they take: contracts see the number of spots.
///
/// Each key has two spots. The first goes by one number alone: many IDs are counted up over all owners,
/// and rows that are the only one of their owner have the ID 0. The second goes by both numbers, for
/// IDs that each owner counts for itself.
#[derive(Drop)]
pub(crate) struct Hints {
    spots: Vec<u32>,
}

impl Model for Hints {
    ghost use Rattle.std.specs.Prelude.{ℕ, length};

    ghost Value = { ℕ };

    ghost view = { λ h. length h.spots.items };
}

impl Hints {
    pub(crate) fn new(alloc: Global) -> Hints
        ensures { result ≡ 0 }
    {
        Hints {
            spots: Vec::new(alloc),
        }
    }

    /// The hint at the key's first spot.
    #[inline]
    pub(crate) fn first(&self, key: Key) -> usize {
        self.at(first_spot(key))
    }

    /// The hint at its second spot.
    #[inline]
    pub(crate) fn second(&self, key: Key) -> usize {
        self.at(second_spot(key, self.spots.len()))
    }

    pub(crate) fn note_first(&mut self, key: Key, place: usize)
        ensures { self.new ≡ self.old }
    {
        self.put(first_spot(key), place);
    }

    pub(crate) fn note_second(&mut self, key: Key, place: usize)
        ensures { self.new ≡ self.old }
    {
        let spot = second_spot(key, self.spots.len());
        self.put(spot, place);
    }

    /// Takes memory for twice the spots, unless a quarter of them is left over by so many slots, and
    /// answers whether it did. Where memory is refused there are as many as before.
    pub(crate) fn widen(&mut self, slots: usize) -> bool
        ensures widened { OnTrue result (self.new ≤ 4 * slots + 16) }
        ensures same { OnFalse result (self.new ≡ self.old) }
    {
        let spots = self.spots.len();
        if slots <= spots - spots / 4 {
            return false;
        }
        let more = spots.saturating_mul(2).max(FEWEST);
        self.spots.resize(more, NOWHERE).is_ok()
    }

    /// Whether many more spots are left over than suit so many slots.
    pub(crate) fn is_wide(&self, slots: usize) -> bool
        ensures { OnFalse result (self.now ≤ 4 * slots + 16) }
    {
        self.spots.len() > slots.saturating_mul(4).saturating_add(FEWEST)
    }

    /// Forgets all hints, and leaves no more spots than suit so many slots: what this costs is in
    /// proportion to these. It takes no memory.
    pub(crate) fn begin(&mut self, slots: usize)
        ensures { self.new ≤ 4 * slots + 16 }
    {
        let suits = slots.saturating_mul(2).checked_next_power_of_two();
        self.spots.truncate(suits.unwrap_or(usize::MAX).max(FEWEST));
        self.spots.fill(NOWHERE);
    }

    // The number of spots is a power of two, so that this counts round among them.
    #[inline]
    fn at(&self, spot: usize) -> usize {
        match self.spots.get(spot & self.spots.len().wrapping_sub(1)) {
            Some(place) => *place as usize,
            None => NOWHERE as usize,
        }
    }

    fn put(&mut self, spot: usize, place: usize)
        ensures { self.new ≡ self.old }
    {
        let spot = spot & self.spots.len().wrapping_sub(1);
        if let Some(noted) = self.spots.get_mut(spot) {
            *noted = place.min(NOWHERE as usize) as u32;
        }
    }
}

#[inline]
fn first_spot(key: Key) -> usize {
    if key.id == 0 {
        key.owner as usize
    } else {
        key.id as usize
    }
}

// Owners that are counted up are spread by the golden section, which keeps them apart however many
// there are.
#[inline]
fn second_spot(key: Key, spots: usize) -> usize {
    let spread = key.owner.wrapping_mul(0x9E37_79B1) as usize;
    (spread.wrapping_mul(spots) >> 32).wrapping_add(key.id as usize)
}
