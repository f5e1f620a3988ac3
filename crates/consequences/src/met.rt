//! Pairs of a type and a count that were met.
ghost use Rattle.std.specs.Prelude.{◌≡◌};
ghost use Rattle.consequences.specs.Met.{meeting, none_met, was_met};

/// How many pairs are remembered.
const MOST_MET: usize = 8;

/// The number of no type: no subscription has it.
const NO_TYPE: u16 = u16::MAX;

/// The last eight different pairs of a type and a count that were met.
#[derive(Drop)]
pub(crate) struct MetPairs {
    pairs: [(u16, u32); MOST_MET],
    // The place of the one that was met first, which the next one takes.
    next: usize,
}

impl MetPairs {
    /// None were met.
    pub(crate) fn none() -> MetPairs
        ensures { result ≡ none_met }
    {
        MetPairs {
            pairs: [(NO_TYPE, 0); MOST_MET],
            next: 0,
        }
    }

    /// A pair is met. Whether it is one of those that were met last.
    pub(crate) fn meet(&mut self, dtype: u16, count: u32) -> bool
        ensures again { result ≡ was_met dtype count self.old }
        ensures new { self.new ≡ meeting dtype count self.old }
    {
        if self.has(dtype, count) {
            return true;
        }
        let place = self.next % MOST_MET;
        self.pairs[place] = (dtype, count);
        self.next = place + 1;
        false
    }

    fn has(&self, dtype: u16, count: u32) -> bool
        ensures { result ≡ was_met dtype count self.now }
    {
        self.pairs
            .iter()
            .any(|met| met.0 == dtype && met.1 == count)
    }
}
