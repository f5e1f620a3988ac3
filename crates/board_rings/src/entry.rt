//! The entries of a history.
use crate::Inbound;
use gateway_state::{Dest, Event};

/// How many messages one entry sends on at most.
pub const MOST_SENT: usize = 64;

/// One thing that a board did. No value of it is made: histories are in proofs alone.
#[derive(Drop)]
pub enum Entry {
    /// An item of a connection was received, and its event performed.
    Pumped(Dest, Inbound),
    /// An event was handed in at the desk, and performed.
    Desked(Event),
    /// So many of the oldest messages for a connection, or all, were taken and sent on.
    Sent(Dest, usize),
    /// A connection got its rings.
    Attached(Dest),
    /// A connection's rings were taken off.
    Retired(Dest),
}
