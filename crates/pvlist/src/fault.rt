//! Why a pattern or a file is not read.
ghost use Rattle.std.specs.Prelude.{◌≡◌};
ghost use Rattle.pvlist.specs.Fault.{fault_at};

use std::alloc::{AllocError, AllocFailed};
use std::error::Error;
use std::fmt;

/// Why a pattern is not translated.
#[derive(Clone, Copy, Debug, PartialEq, Eq)]
pub enum TranslateFault {
    /// A bracket is not closed, a backslash stands at the end or before a letter or a digit, or
    /// a character outside brackets is no printable ASCII character, or is a blank.
    BadPattern,
    /// The allocator had no memory.
    OutOfMemory,
}

impl fmt::Display for TranslateFault {
    ghost use Rattle.std.specs.Prelude.{Some};
    ghost use Rattle.pvlist.specs.Cause.{pattern_fault_text};

    ghost output = { λ fault. Some (pattern_fault_text fault) };

    fn fmt<W: fmt::Write>(&self, f: &mut fmt::Formatter<W>) -> fmt::Result {
        match self {
            TranslateFault::BadPattern => f.write_str("bad pattern"),
            TranslateFault::OutOfMemory => f.write_str("out of memory"),
        }
    }
}

impl Error for TranslateFault {}

impl From<AllocError> for TranslateFault {
    ghost use Rattle.std.specs.Prelude.{◌≡◌};
    ghost use Rattle.pvlist.specs.declared.fault.TranslateFault.TheVariants.{OutOfMemory};

    ghost from_gives = { λ _ fault. fault ≡ OutOfMemory };

    fn from(_e: AllocError) -> TranslateFault {
        TranslateFault::OutOfMemory
    }
}

/// Why a rule file or a group file is not read.
#[derive(Clone, Copy, Debug, PartialEq, Eq)]
pub enum RuleFault {
    /// The first faulty line, counted from 1, and what is wrong with it.
    At(usize, RuleCause),
    /// The allocator had no memory.
    OutOfMemory,
}

impl fmt::Display for RuleFault {
    ghost use Rattle.std.specs.Prelude.{Some};
    ghost use Rattle.pvlist.specs.Cause.{fault_text};

    ghost output = { λ fault. Some (fault_text fault) };

    fn fmt<W: fmt::Write>(&self, f: &mut fmt::Formatter<W>) -> fmt::Result {
        match self {
            RuleFault::At(line, cause) => write!(f, "line {line}: {cause}"),
            RuleFault::OutOfMemory => f.write_str("out of memory"),
        }
    }
}

impl Error for RuleFault {}

impl From<AllocError> for RuleFault {
    ghost use Rattle.std.specs.Prelude.{◌≡◌};
    ghost use Rattle.pvlist.specs.declared.fault.RuleFault.TheVariants.{OutOfMemory};

    ghost from_gives = { λ _ fault. fault ≡ OutOfMemory };

    fn from(_e: AllocError) -> RuleFault {
        RuleFault::OutOfMemory
    }
}

/// What is wrong with a line, in the order in which a line is tested.
#[derive(Clone, Copy, Debug, PartialEq, Eq)]
pub enum RuleCause {
    /// The line is longer than a line may be.
    LineTooLong,
    /// The line begins as an order line, and gives no order.
    BadOrder,
    /// The second word is none of ALLOW, ALIAS and DENY.
    NoVerb,
    /// There are more rows than a file may have, or lines of groups.
    TooManyLines,
    /// After DENY, FROM has no host, or a host is none.
    BadFrom,
    /// A group or a level is none, or a word follows them; in a group file, a line is none.
    BadGroup,
    /// The pattern is not translated, or is no regular expression then.
    BadPattern,
    /// The real name of an alias is missing or is none, or refers to a group that the pattern
    /// lacks.
    BadReference,
}

impl fmt::Display for RuleCause {
    ghost use Rattle.std.specs.Prelude.{Some};
    ghost use Rattle.pvlist.specs.Cause.{cause_text};

    ghost output = { λ cause. Some (cause_text cause) };

    fn fmt<W: fmt::Write>(&self, f: &mut fmt::Formatter<W>) -> fmt::Result {
        f.write_str(match self {
            RuleCause::LineTooLong => "LineTooLong",
            RuleCause::BadOrder => "BadOrder",
            RuleCause::NoVerb => "NoVerb",
            RuleCause::TooManyLines => "TooManyLines",
            RuleCause::BadFrom => "BadFrom",
            RuleCause::BadGroup => "BadGroup",
            RuleCause::BadPattern => "BadPattern",
            RuleCause::BadReference => "BadReference",
        })
    }
}

/// Why a line is not read.
#[derive(Clone, Copy, Debug, PartialEq, Eq)]
pub(crate) enum RuleLineFault {
    Cause(RuleCause),
    OutOfMemory,
}

impl RuleLineFault {
    /// The fault of the file whose line of this number, counted from 1, has this one.
    pub(crate) fn at(self, line: usize) -> RuleFault
        ensures { result ≡ fault_at line self }
    {
        match self {
            RuleLineFault::Cause(cause) => RuleFault::At(line, cause),
            RuleLineFault::OutOfMemory => RuleFault::OutOfMemory,
        }
    }
}

impl From<RuleCause> for RuleLineFault {
    ghost use Rattle.std.specs.Prelude.{◌≡◌};
    ghost use Rattle.pvlist.specs.declared.fault.RuleLineFault.TheVariants.{Cause};

    ghost from_gives = { λ cause fault. fault ≡ Cause cause };

    fn from(cause: RuleCause) -> RuleLineFault {
        RuleLineFault::Cause(cause)
    }
}

impl From<AllocError> for RuleLineFault {
    ghost use Rattle.std.specs.Prelude.{◌≡◌};
    ghost use Rattle.pvlist.specs.declared.fault.RuleLineFault.TheVariants.{OutOfMemory};

    ghost from_gives = { λ _ fault. fault ≡ OutOfMemory };

    fn from(_e: AllocError) -> RuleLineFault {
        RuleLineFault::OutOfMemory
    }
}

impl<T: Drop> From<AllocFailed<T>> for RuleLineFault {
    ghost use Rattle.std.specs.Prelude.{◌≡◌};
    ghost use Rattle.pvlist.specs.declared.fault.RuleLineFault.TheVariants.{OutOfMemory};

    ghost from_gives = { λ _ fault. fault ≡ OutOfMemory };

    fn from(_e: AllocFailed<T>) -> RuleLineFault {
        RuleLineFault::OutOfMemory
    }
}

impl From<TranslateFault> for RuleLineFault {
    ghost use Rattle.std.specs.Prelude.{◌≡◌};
    ghost use Rattle.pvlist.specs.Fault.{of_translation};

    ghost from_gives = { λ given fault. fault ≡ of_translation given };

    fn from(fault: TranslateFault) -> RuleLineFault {
        match fault {
            TranslateFault::BadPattern => RuleLineFault::Cause(RuleCause::BadPattern),
            TranslateFault::OutOfMemory => RuleLineFault::OutOfMemory,
        }
    }
}
