//! How much may wait for a client.
ghost use Rattle.std.specs.Prelude.{◌≡◌};
ghost use Rattle.serve_state.specs.Most.{is_passed, most_of, why_shut};

use crate::cut::Cut;
use decimal_text::read_u32;
use gateway_state::Dest;

/// How many bytes a MiB has.
const MIB: u64 = 1_048_576;

/// How many MiB may wait for a client.
#[derive(Clone, Copy, Debug, PartialEq, Eq)]
pub struct MostWaiting {
    pub mib: u32,
}

impl MostWaiting {
    /// The number that decimal digits write; `None` where it is 0, or they are none.
    pub fn read(digits: &[u8]) -> Option<MostWaiting>
        ensures { result ≡ most_of digits.now }
    {
        match read_u32(digits) {
            Some(mib) if mib > 0 => Some(MostWaiting { mib }),
            _ => None,
        }
    }

    /// Why a connection is to be shut whose writer may wait for the peer, by whether it must end, how many bytes
    /// wait for it, and how many messages may; `None` where it goes on.
    pub fn why_shut(self, dest: Dest, must_end: bool, bytes: u64, messages: u32) -> Option<Cut>
        ensures { result ≡ why_shut self dest must_end bytes messages }
    {
        if must_end {
            return Some(Cut::TooSlow(messages));
        }
        match dest {
            Dest::Session(_) if self.is_passed(bytes) => Some(Cut::TooMuch(self.mib)),
            Dest::Session(_) | Dest::Upstream(_) => None,
        }
    }

    fn is_passed(self, bytes: u64) -> bool
        ensures { result ≡ is_passed self bytes }
    {
        bytes > u64::from(self.mib) * MIB
    }
}
