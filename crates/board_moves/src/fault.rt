//! Why a board did not do what it was asked to.
use gateway_calls::StepFault;

/// Why a board did not do what it was asked to.
#[derive(Clone, Copy, Debug, PartialEq, Eq)]
pub enum BoardFault {
    /// Memory was refused, and nothing changed.
    OutOfMemory,
    /// The connection is attached already.
    Attached,
    /// The event is none of the desk's: a connection's messages come through its ring, and are sent on by
    /// the board itself.
    NotHere,
    /// The engine refused the step, and has failed for good; or it had failed before.
    Step(StepFault),
}
