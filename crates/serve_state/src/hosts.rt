//! How many clients a host may have.
ghost use Rattle.std.specs.Prelude.{◌≡◌};
ghost use Rattle.serve_state.specs.Hosts.{seats_of};

use crate::scale::CLIENTS;
use decimal_text::read_u32;

/// How many clients of one host may be connected at once.
#[derive(Clone, Copy, Debug, PartialEq, Eq)]
pub struct HostSeats {
    pub number: u32,
}

impl HostSeats {
    /// The number that decimal digits write; `None` where it isn't from 1 to 1,024, or they are none.
    pub fn read(digits: &[u8]) -> Option<HostSeats>
        ensures { result ≡ seats_of digits.now }
    {
        match read_u32(digits) {
            Some(number) if number >= 1 && number <= CLIENTS => Some(HostSeats { number }),
            _ => None,
        }
    }
}
