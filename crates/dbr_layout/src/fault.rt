//! Why a payload isn't read or laid out.
use std::alloc::{AllocError, AllocFailed};
use std::error::Error;
use std::fmt;

/// Why a payload isn't read or laid out.
#[derive(Clone, Copy, Debug, PartialEq, Eq, Hash)]
pub enum LayoutFault {
    /// The type isn't served, or no conversion to it is.
    BadType,
    /// The bytes don't hold as many elements as they are said to.
    Short,
    /// The type needs properties of the variable, and none of its base were given.
    NoProperties,
    /// The payload would be larger than `MAX_PAYLOAD`.
    TooLarge,
    /// The payload is fine, but the allocator had no memory for it.
    OutOfMemory,
}

impl fmt::Display for LayoutFault {
    fn fmt<W: fmt::Write>(&self, f: &mut fmt::Formatter<W>) -> fmt::Result {
        f.write_str(match self {
            LayoutFault::BadType => "type not served",
            LayoutFault::Short => "too short for its elements",
            LayoutFault::NoProperties => "no properties are there",
            LayoutFault::TooLarge => "larger than a payload may be",
            LayoutFault::OutOfMemory => "out of memory",
        })
    }
}

impl Error for LayoutFault {}

impl From<AllocError> for LayoutFault {
    ghost use Rattle.std.specs.Prelude.{◌≡◌};
    ghost use Rattle.dbr_layout.specs.declared.fault.LayoutFault.TheVariants.{OutOfMemory};

    ghost from_gives = { λ _ fault. fault ≡ OutOfMemory };

    fn from(_e: AllocError) -> LayoutFault {
        LayoutFault::OutOfMemory
    }
}

impl<T: Drop> From<AllocFailed<T>> for LayoutFault {
    ghost use Rattle.std.specs.Prelude.{◌≡◌};
    ghost use Rattle.dbr_layout.specs.declared.fault.LayoutFault.TheVariants.{OutOfMemory};

    ghost from_gives = { λ _ fault. fault ≡ OutOfMemory };

    fn from(_e: AllocFailed<T>) -> LayoutFault {
        LayoutFault::OutOfMemory
    }
}
