//! Why a file is not read.
ghost use Rattle.std.specs.Prelude.{◌≡◌};
ghost use Rattle.access_file.specs.Fault.{fault_at};

use std::alloc::{AllocError, AllocFailed};
use std::error::Error;
use std::fmt;

/// Why an access security file is not read.
#[derive(Clone, Copy, Debug, PartialEq, Eq)]
pub enum AccessFault {
    /// The line of the first fault, counted from 1, and what is wrong there.
    At(usize, AccessCause),
    /// The allocator had no memory.
    OutOfMemory,
}

impl fmt::Display for AccessFault {
    ghost use Rattle.std.specs.Prelude.{Some};
    ghost use Rattle.access_file.specs.Fault.{fault_text};

    ghost output = { λ fault. Some (fault_text fault) };

    fn fmt<W: fmt::Write>(&self, f: &mut fmt::Formatter<W>) -> fmt::Result {
        match self {
            AccessFault::At(line, cause) => write!(f, "line {line}: {cause}"),
            AccessFault::OutOfMemory => f.write_str("out of memory"),
        }
    }
}

impl Error for AccessFault {}

/// What is wrong in a file.
#[derive(Clone, Copy, Debug, PartialEq, Eq)]
pub enum AccessCause {
    /// A character that stands in no word, outside quotes and comments.
    BadByte,
    /// Quotes that don't end in their line.
    Unclosed,
    /// Something else must stand here.
    Unexpected,
    /// The text ends inside a definition.
    Unfinished,
    /// A word that is no keyword, or none that may stand here.
    UnknownWord,
    /// CALC or INPA to INPU: a rule that goes by values, which aren't looked at.
    Calculated,
    /// METHOD, AUTHORITY or PROTOCOL: a rule that goes by how a client connects.
    Unserved,
    /// A name has 1 to 127 printable characters and no blank.
    BadName,
    /// A level is 0 or 1.
    BadLevel,
    /// A right is NONE, READ or WRITE, and what follows it TRAPWRITE or NOTRAPWRITE.
    BadRight,
    /// A rule speaks of a group of users that isn't defined above it.
    NoUsers,
    /// A rule speaks of a group of hosts that isn't defined above it.
    NoHosts,
    /// A group is defined again.
    Twice,
    /// There are more groups of a kind, rules or names than a file may have.
    TooMany,
}

impl fmt::Display for AccessCause {
    ghost use Rattle.std.specs.Prelude.{Some};
    ghost use Rattle.access_file.specs.Fault.{cause_text};

    ghost output = { λ cause. Some (cause_text cause) };

    fn fmt<W: fmt::Write>(&self, f: &mut fmt::Formatter<W>) -> fmt::Result {
        f.write_str(match self {
            AccessCause::BadByte => "BadByte",
            AccessCause::Unclosed => "Unclosed",
            AccessCause::Unexpected => "Unexpected",
            AccessCause::Unfinished => "Unfinished",
            AccessCause::UnknownWord => "UnknownWord",
            AccessCause::Calculated => "Calculated",
            AccessCause::Unserved => "Unserved",
            AccessCause::BadName => "BadName",
            AccessCause::BadLevel => "BadLevel",
            AccessCause::BadRight => "BadRight",
            AccessCause::NoUsers => "NoUsers",
            AccessCause::NoHosts => "NoHosts",
            AccessCause::Twice => "Twice",
            AccessCause::TooMany => "TooMany",
        })
    }
}

/// Why a token is not taken.
#[derive(Clone, Copy)]
pub(crate) enum TokenFault {
    Cause(AccessCause),
    OutOfMemory,
}

impl TokenFault {
    /// The fault of the file that has this one in the line, counted from 1.
    pub(crate) fn at(self, line: usize) -> AccessFault
        ensures { result ≡ fault_at line self }
    {
        match self {
            TokenFault::Cause(cause) => AccessFault::At(line, cause),
            TokenFault::OutOfMemory => AccessFault::OutOfMemory,
        }
    }
}

impl From<AccessCause> for TokenFault {
    ghost use Rattle.std.specs.Prelude.{◌≡◌};
    ghost use Rattle.access_file.specs.declared.fault.TokenFault.TheVariants.{Cause};

    ghost from_gives = { λ cause fault. fault ≡ Cause cause };

    fn from(cause: AccessCause) -> TokenFault {
        TokenFault::Cause(cause)
    }
}

impl From<AllocError> for TokenFault {
    ghost use Rattle.std.specs.Prelude.{◌≡◌};
    ghost use Rattle.access_file.specs.declared.fault.TokenFault.TheVariants.{OutOfMemory};

    ghost from_gives = { λ _ fault. fault ≡ OutOfMemory };

    fn from(_e: AllocError) -> TokenFault {
        TokenFault::OutOfMemory
    }
}

impl<T: Drop> From<AllocFailed<T>> for TokenFault {
    ghost use Rattle.std.specs.Prelude.{◌≡◌};
    ghost use Rattle.access_file.specs.declared.fault.TokenFault.TheVariants.{OutOfMemory};

    ghost from_gives = { λ _ fault. fault ≡ OutOfMemory };

    fn from(_e: AllocFailed<T>) -> TokenFault {
        TokenFault::OutOfMemory
    }
}
