//! Hints of where the rows of servers stand.
ghost use Rattle.std.specs.Prelude.{◌≡◌, ◌<◌};

use crate::servers::Server;
use std::alloc::Global;
use std::marker::Model;

/// No place: no row is so far back.
const NOWHERE: u32 = u32::MAX;

/// So many spots there are at most. Servers are counted up from 1, so that few share one.
const MOST_SPOTS: usize = 4_096;

/// Where rows of servers were put, by their numbers. A hint may be old, or that of another row: whoever takes
/// one looks at the row there first. So a wrong one costs no more than time, and nothing is promised of hints but how
/// much memory they take: contracts see the number of spots.
#[derive(Drop)]
pub(crate) struct Places {
    spots: Vec<u32>,
}

impl Model for Places {
    ghost use Rattle.std.specs.Prelude.{ℕ, ◌≤◌, length};
    ghost use Rattle.link_table.specs.declared.places.TheConstants.{MOST_SPOTS};

    ghost Value = { ℕ };

    ghost view = { λ p. length p.spots.items };

    ghost invariant = { λ p. length p.spots.items ≤ MOST_SPOTS };
}

impl Places {
    pub(crate) fn new(alloc: Global) -> Places
        ensures { result ≡ 0 }
    {
        Places {
            spots: Vec::new(alloc),
        }
    }

    /// Where the row of this number may stand.
    #[inline]
    pub(crate) fn get(&self, number: u32) -> usize {
        match self.spots.get(spot(number)) {
            Some(place) => *place as usize,
            None => NOWHERE as usize,
        }
    }

    /// Notes where a new row stands. Where memory for its spot is refused, nothing is noted.
    pub(crate) fn note(&mut self, number: u32, place: usize) {
        let spot = spot(number);
        if spot < self.spots.len() || self.spots.resize(spot + 1, NOWHERE).is_ok() {
            self.put(spot, place);
        }
    }

    /// Notes where rows stand once some of them went. It takes no memory.
    pub(crate) fn note_all(&mut self, rows: &[Server]) {
        for (place, row) in rows.iter().enumerate() {
            self.put(spot(row.number), place);
        }
    }

    fn put(&mut self, spot: usize, place: usize)
        ensures { self.new ≡ self.old }
    {
        if let Some(noted) = self.spots.get_mut(spot) {
            *noted = place.min(NOWHERE as usize) as u32;
        }
    }
}

fn spot(number: u32) -> usize
    ensures { result < MOST_SPOTS }
{
    number as usize % MOST_SPOTS
}
