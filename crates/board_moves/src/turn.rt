//! What a turn came to.

/// What a turn of the board came to.
#[derive(Clone, Copy, Debug, PartialEq, Eq)]
pub enum Turn {
    /// A round moved something.
    Moved,
    /// It is closed.
    Closed,
    /// A round met a fault: the gateway has failed.
    Failed,
}
