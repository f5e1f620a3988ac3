//! Why an edit is refused.

use access_file::{AccessCause, AccessFault};
use pvlist::{RuleCause, RuleFault};
use std::error::Error;
use std::fmt;

/// Why an edit is refused. The desk is as before.
#[derive(Clone, Copy, Debug, PartialEq, Eq)]
pub enum DeskFault {
    /// The first faulty line of the rule file, counted from 1, and what is wrong with it.
    Rules(usize, RuleCause),
    /// The same of the group file, where the rule file has no fault.
    Groups(usize, RuleCause),
    /// The first fault of the access security file, where the others have none.
    Access(usize, AccessCause),
    /// The allocator had no memory.
    OutOfMemory,
}

impl fmt::Display for DeskFault {
    ghost use Rattle.std.specs.Prelude.{Some};
    ghost use Rattle.rule_desk.specs.Fault.{fault_text};

    ghost output = { λ fault. Some (fault_text fault) };

    fn fmt<W: fmt::Write>(&self, f: &mut fmt::Formatter<W>) -> fmt::Result {
        match self {
            DeskFault::Rules(line, cause) => write!(f, "{}", RuleFault::At(*line, *cause)),
            DeskFault::Groups(line, cause) => write!(f, "groups {}", RuleFault::At(*line, *cause)),
            DeskFault::Access(line, cause) => write!(
                f,
                "access {}",
                AccessFault::At(*line, *cause)
            ),
            DeskFault::OutOfMemory => write!(f, "{}", RuleFault::OutOfMemory),
        }
    }
}

impl Error for DeskFault {}
