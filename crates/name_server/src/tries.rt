//! When it is connected again.
ghost use Rattle.std.specs.Prelude.{◌≡◌, ◌*◌, min};
ghost use Rattle.name_server.specs.Tries.{gap_after};

use std::marker::Model;

/// The longest gap between two tries, in seconds.
pub const LONGEST_GAP: u64 = 32;

/// Where a connection stood for so many seconds, the gaps begin anew.
pub const CALM: u64 = 60;

/// How many seconds nobody connects after a connection is lost, or can't be made: 1, 2, 4 and so on.
#[derive(Debug, Drop)]
pub struct Tries {
    // The next gap.
    gap: u64,
}

impl Model for Tries {
    ghost use Rattle.std.specs.Prelude.{ℕ, ◌≤◌};
    ghost use Rattle.name_server.specs.declared.tries.TheConstants.{LONGEST_GAP};

    ghost Value = { ℕ };

    ghost view = { λ t. t.gap };

    ghost invariant = { λ t. t.gap ≤ LONGEST_GAP };
}

impl Tries {
    /// Nothing was lost yet.
    pub fn new() -> Tries
        ensures { result ≡ 1 }
    {
        Tries { gap: 1 }
    }

    /// A connection is lost that stood for so many seconds, or 0 where none could be made. How many seconds pass until the next try.
    pub fn lost(&mut self, stood: u64) -> u64
        ensures gap { result ≡ gap_after stood self.old }
        ensures next { self.new ≡ min (2 * result) LONGEST_GAP }
    {
        let gap = if stood >= CALM { 1 } else { self.gap };
        self.gap = (2 * gap).min(LONGEST_GAP);
        gap
    }
}
