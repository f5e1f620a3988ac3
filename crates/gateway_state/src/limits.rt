//! Numbers that the gateway sets for its peers, and how much it takes on.
ghost use Rattle.std.specs.Prelude.{◌≡◌};
ghost use Rattle.gateway_state.specs.Connections.{most_for};
ghost use Rattle.gateway_state.specs.Gateway.{usual_limits};

use crate::event::Dest;
use channel_table::{CHANNEL_LIMIT, READ_LIMIT, SESSION_LIMIT, SUB_LIMIT};
use fanout::OUTBOX_LIMIT;
use link_table::{LINK_LIMIT, SERVER_LIMIT, WRITE_LIMIT};

/// The lowest minor version that a client may speak.
pub const LOWEST_MINOR: u32 = 9;

/// The lowest minor version of a server that is asked for its native count by the count 0.
pub const UPDATE_MINOR: u32 = 13;

/// How many searches are remembered at most, unless it is said otherwise.
pub const SEARCH_LIMIT: usize = 4_096;

/// How many messages an outbox holds at most that takes updates.
pub const UPDATE_LIMIT: usize = 4_096;

/// How many bytes an outbox holds at most that takes updates, unless it is said otherwise: any number.
pub const UPDATE_BYTES: u64 = 0xFFFF_FFFF_FFFF_FFFF;

/// How much the gateway takes on at most, and what it does where it is full. It can be told anew at any
/// time: nothing that stands goes at that.
#[derive(Clone, Copy, Debug, PartialEq, Eq)]
pub struct Limits {
    /// Sessions of clients.
    pub sessions: usize,
    /// Servers.
    pub servers: usize,
    /// Links: variables that a server was asked for a channel to.
    pub links: usize,
    /// Searches that are remembered.
    pub searches: usize,
    /// Of these, how many of one host, where room is made.
    pub share: usize,
    /// Channels of a session.
    pub channels: usize,
    /// Subscriptions of a session.
    pub subs: usize,
    /// Reads of a session that wait for a value.
    pub reads: usize,
    /// Writes of a session that wait for what their server says.
    pub writes: usize,
    /// Messages that wait for a session: it must end where one more would wait. As many may wait for a server, where
    /// these are more than usual.
    pub messages: u32,
    /// Bytes that wait for a session: it is given updates while fewer wait.
    pub update_bytes: u64,
    /// Whether an old search goes where one more is remembered: the oldest of its own host where that has
    /// its share, else the oldest of all where there are as many as may be. So does a search whose host
    /// opens a channel on its name. Otherwise no search is remembered that has no room, and none goes.
    pub makes_room: bool,
    /// Whether a number that was given out comes again once nothing has it: after the last number the first
    /// one follows, and numbers that rows have are passed over. Else no number follows the last one.
    pub reuses_numbers: bool,
    /// Whether a request on a number that was given out, and that names no channel of the client, is passed
    /// over. Else it is refused, as one on a number that never was.
    pub passes_over_gone: bool,
    /// Whether a subscription whose channel may not be read is told so, by an update with 368 and no value: as it
    /// is made, and each time its channel may be read no longer.
    pub tells_unreadable: bool,
    /// Whether a search that a client makes on its connection is remembered, and answered where the name's
    /// variable is connected. Else it isn't understood.
    pub answers_searches: bool,
    /// Whether, from then on, a client's host is the address that its connection comes from, whatever HOST_NAME
    /// says.
    pub checks_hosts: bool,
}

impl Limits {
    /// What holds where nothing else is said.
    pub fn usual() -> Limits
        ensures { result ≡ usual_limits }
    {
        Limits {
            sessions: SESSION_LIMIT,
            servers: SERVER_LIMIT,
            links: LINK_LIMIT,
            searches: SEARCH_LIMIT,
            share: SEARCH_LIMIT,
            channels: CHANNEL_LIMIT,
            subs: SUB_LIMIT,
            reads: READ_LIMIT,
            writes: WRITE_LIMIT,
            messages: OUTBOX_LIMIT as u32,
            update_bytes: UPDATE_BYTES,
            makes_room: false,
            reuses_numbers: false,
            passes_over_gone: false,
            tells_unreadable: false,
            answers_searches: false,
            checks_hosts: false,
        }
    }

    /// How many messages may wait for a connection at most: for a server as many as for a session, and no fewer than
    /// an outbox usually holds. What one client's end sends to a server is in proportion to its subscriptions.
    pub fn most_for(&self, dest: Dest) -> u32
        ensures { result ≡ most_for self.now dest }
    {
        match dest {
            Dest::Session(_) => self.messages,
            Dest::Upstream(_) => self.messages.max(OUTBOX_LIMIT as u32),
        }
    }
}
