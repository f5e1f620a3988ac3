//! The first number that the gateway gives out.
ghost use Rattle.std.specs.Prelude.{◌≡◌, ◌<◌, ◌≤◌};
ghost use Rattle.gateway_state.specs.declared.config.TheConstants.{LAST_FIRST};
ghost use Rattle.serve_state.specs.First.{first_of};

use decimal_text::read_u32;
use gateway_state::LAST_FIRST;
use std::marker::Model;

/// The first number of each kind that the gateway gives out, from 1 to 4,294,967,294.
#[derive(Clone, Copy, Debug, PartialEq, Eq)]
pub struct FirstNumber {
    number: u32,
}

impl Model for FirstNumber {
    ghost use Rattle.std.specs.Prelude.{ℕ, ◌<◌, ◌≤◌};
    ghost use Rattle.gateway_state.specs.declared.config.TheConstants.{LAST_FIRST};

    ghost Value = { ℕ };

    ghost view = { λ f. f.number };

    ghost invariant = { λ f. (0 < f.number) × (f.number ≤ LAST_FIRST) };

    ghost inverse = { λ n. record { number = n } };
}

impl FirstNumber {
    /// The number where nothing else is said.
    pub fn usual() -> FirstNumber
        ensures { result ≡ 1 }
    {
        FirstNumber { number: 1 }
    }

    /// The number that decimal digits write; `None` where it isn't from 1 to 4,294,967,294, or they are none.
    pub fn read(digits: &[u8]) -> Option<FirstNumber>
        ensures { result ≡ first_of digits.now }
    {
        match read_u32(digits) {
            Some(number) if number >= 1 && number <= LAST_FIRST => Some(FirstNumber { number }),
            _ => None,
        }
    }

    /// It is a number that may be the first.
    pub fn number(self) -> u32
        ensures same { result ≡ self }
        ensures lowest { 0 < result }
        ensures highest { result ≤ LAST_FIRST }
    {
        self.number
    }
}
