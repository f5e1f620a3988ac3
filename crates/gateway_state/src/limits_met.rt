//! How often limits were met, and how much of them is used.

/// A limit at which the rows refuse something, or hold it back.
#[derive(Clone, Copy)]
pub enum RowLimit {
    Names,
    Channels,
    Subs,
    Reads,
    Writes,
    Links,
    Sessions,
    Servers,
    Held,
}

/// How often each limit was met since the start, each number up to its type's last value. It is for
/// whoever watches a gateway, and nothing that a gateway does depends on it.
#[derive(Clone, Copy, Debug, PartialEq, Eq)]
pub struct LimitsMet {
    /// A name that was looked for in vain wasn't remembered, since as many are as may be.
    pub names: u64,
    /// A client was refused one more channel.
    pub channels: u64,
    /// A client was refused one more subscription.
    pub subs: u64,
    /// A client was refused one more read that waits.
    pub reads: u64,
    /// A client was refused one more write that waits.
    pub writes: u64,
    /// A variable that a server has got no link.
    pub links: u64,
    /// A client was refused.
    pub sessions: u64,
    /// A server was refused.
    pub servers: u64,
    /// An update was held back, since as many messages wait for its client as may wait with updates.
    pub held: u64,
    /// An outbox was full when one more message came, and its connection was marked to end.
    pub full: u64,
}

impl LimitsMet {
    /// No limit was met.
    pub const NONE: LimitsMet = LimitsMet {
        names: 0,
        channels: 0,
        subs: 0,
        reads: 0,
        writes: 0,
        links: 0,
        sessions: 0,
        servers: 0,
        held: 0,
        full: 0,
    };

    /// One of them was met once more.
    pub fn meet(&mut self, limit: RowLimit) {
        match limit {
            RowLimit::Names => raise(&mut self.names),
            RowLimit::Channels => raise(&mut self.channels),
            RowLimit::Subs => raise(&mut self.subs),
            RowLimit::Reads => raise(&mut self.reads),
            RowLimit::Writes => raise(&mut self.writes),
            RowLimit::Links => raise(&mut self.links),
            RowLimit::Sessions => raise(&mut self.sessions),
            RowLimit::Servers => raise(&mut self.servers),
            RowLimit::Held => raise(&mut self.held),
        }
    }
}

fn raise(count: &mut u64) {
    *count = count.saturating_add(1);
}

/// The most that one peer has: of all sessions the greatest number of channels, subscriptions, reads and
/// writes that wait, and of all connections the greatest number of messages that wait.
#[derive(Clone, Copy, Debug, PartialEq, Eq)]
pub struct Fullest {
    pub channels: u64,
    pub subs: u64,
    pub reads: u64,
    pub writes: u64,
    /// Of all connections, clients' and servers'.
    pub messages: u64,
}

impl Fullest {
    /// Nobody has anything.
    pub const NONE: Fullest = Fullest {
        channels: 0,
        subs: 0,
        reads: 0,
        writes: 0,
        messages: 0,
    };
}
