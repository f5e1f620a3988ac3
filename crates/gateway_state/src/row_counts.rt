//! How much the gateway keeps.

/// How many rows of each kind there are.
#[derive(Clone, Copy, Debug, PartialEq, Eq)]
pub struct RowCounts {
    /// Sessions of clients.
    pub sessions: usize,
    /// Channels of clients.
    pub channels: usize,
    /// Subscriptions of clients.
    pub subs: usize,
    /// Reads that wait for a value.
    pub reads: usize,
    /// Servers.
    pub servers: usize,
    /// Links: variables that a server was asked for a channel to.
    pub links: usize,
    /// Writes that wait for what their server says.
    pub writes: usize,
    /// Searches that are remembered.
    pub searches: usize,
}
