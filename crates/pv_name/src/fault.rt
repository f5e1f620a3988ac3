//! Why bytes are no name.

use std::alloc::AllocError;
use std::error::Error;
use std::fmt;

/// Why bytes are no name, host or group. The first that applies is told.
#[derive(Clone, Copy, Debug, PartialEq, Eq)]
pub enum NameFault {
    /// There are no bytes.
    Empty,
    /// There are more bytes than the limit.
    TooLong,
    /// The byte at this place, counted from 0, is the first that is no printable ASCII character
    /// or is a blank.
    BadByte(usize),
    /// The bytes are fine, but the allocator had no memory for them.
    OutOfMemory,
}

impl fmt::Display for NameFault {
    fn fmt<W: fmt::Write>(&self, f: &mut fmt::Formatter<W>) -> fmt::Result {
        match self {
            NameFault::Empty => f.write_str("empty"),
            NameFault::TooLong => f.write_str("too long"),
            NameFault::BadByte(place) => write!(f, "bad byte at {place}"),
            NameFault::OutOfMemory => f.write_str("out of memory"),
        }
    }
}

impl Error for NameFault {}

impl From<AllocError> for NameFault {
    ghost use Rattle.std.specs.Prelude.{◌≡◌};
    ghost use Rattle.pv_name.specs.declared.fault.NameFault.TheVariants.{OutOfMemory};

    ghost from_gives = { λ _ fault. fault ≡ OutOfMemory };

    fn from(_e: AllocError) -> NameFault {
        NameFault::OutOfMemory
    }
}
