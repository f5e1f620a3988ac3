//! Why a gateway refuses a call.
use std::error::Error;
use std::fmt;

/// Why a step was refused. Each leaves the gateway failed for good.
#[derive(Clone, Copy, Debug, PartialEq, Eq)]
pub enum StepFault {
    /// Memory was refused.
    OutOfMemory,
    /// The step would give out a number past the last one.
    NumbersUsedUp,
    /// An earlier step was refused.
    Failed,
}

impl fmt::Display for StepFault {
    fn fmt<W: fmt::Write>(&self, f: &mut fmt::Formatter<W>) -> fmt::Result {
        f.write_str(match self {
            StepFault::OutOfMemory => "out of memory",
            StepFault::NumbersUsedUp => "the numbers are used up",
            StepFault::Failed => "an earlier step was refused",
        })
    }
}

impl Error for StepFault {}

/// Why a question isn't answered. Nothing changed.
#[derive(Clone, Copy, Debug, PartialEq, Eq)]
pub enum AskFault {
    /// Memory was refused.
    OutOfMemory,
    /// An earlier step was refused.
    Failed,
}

/// An earlier step was refused, so the gateway answers nothing.
#[derive(Clone, Copy, Debug, PartialEq, Eq)]
pub struct Failed;

impl fmt::Display for Failed {
    fn fmt<W: fmt::Write>(&self, f: &mut fmt::Formatter<W>) -> fmt::Result {
        f.write_str("an earlier step was refused")
    }
}

impl Error for Failed {}
