//! What comes from a peer.
use ca_header::Message;

/// What a connection's reader hands to the board.
#[derive(Debug, Drop)]
pub enum Inbound {
    /// A whole message of the peer.
    Message(Message),
    /// The peer's stream has ended, or can't be read on. Nothing follows.
    Gone,
}
