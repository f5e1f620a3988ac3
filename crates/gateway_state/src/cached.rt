//! The last messages of variables.
use crate::last_value::LastValue;

/// The last messages that a link's subscriptions brought.
#[derive(Drop)]
pub struct LastMessage {
    /// The link's server.
    pub server: u32,
    /// The link's CID.
    pub cid: u32,
    /// What they say.
    pub held: LastValue,
}
