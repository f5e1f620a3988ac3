//! Connections that stand.
use crate::event::Dest;
use fanout::Outbox;

/// A connection that stands, and what waits for it.
#[derive(Drop)]
pub struct Connection {
    pub dest: Dest,
    pub outbox: Outbox,
}
