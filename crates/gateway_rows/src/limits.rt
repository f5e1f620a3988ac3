//! How often limits were met, how much of them is used, and which searches had no answer. No contract sees it:
//! it is for whoever watches a gateway, and nothing that a gateway does depends on it.
ghost use Rattle.std.specs.Prelude.{◌≡◌};

use crate::state::Known;
use gateway_state::{Connection, Dest, Fullest, LimitsMet, RowLimit, UnansweredSince};
use pv_name::Name;
use std::alloc::{AllocError, Global};

impl Known {
    /// Notes that a limit was met. Nothing changes that contracts see.
    pub fn meet(&mut self, limit: RowLimit)
        ensures same { self.new ≡ self.old }
    {
        self.met.meet(limit);
    }

    /// Notes that a subscription of a session that is owed an update got none, where that is since too many
    /// messages wait for the session.
    pub fn note_held(&mut self, number: u32)
        ensures same { self.new ≡ self.old }
    {
        if !self.takes_updates(number) {
            self.meet(RowLimit::Held);
        }
    }

    /// How often each limit was met.
    pub fn limits_met(&self) -> LimitsMet {
        let mut met = self.met;
        met.full = self.connections.full();
        met
    }

    /// Notes that a client's search on its connection had no answer. Nothing changes that contracts see.
    pub fn note_unanswered(&mut self, session: u32, cid: u32, name: &Name)
        ensures same { self.new ≡ self.old }
    {
        self.unanswered.note(session, cid, name);
    }

    /// How many searches on connections had no answer so far.
    pub fn unanswered_count(&self) -> u64 {
        self.unanswered.count()
    }

    /// The searches on connections that had no answer, behind the first so many, as far as they are known.
    pub fn unanswered_since(
        &self,
        alloc: Global,
        seen: u64,
    ) -> Result<UnansweredSince, AllocError> {
        self.unanswered.since(alloc, seen)
    }

    /// The most that one client or server has. It looks at each connection once, and finds nothing where
    /// memory for that is refused.
    pub fn fullest(&self) -> Fullest {
        let mut most = Fullest::NONE;
        if let Ok(connections) = self.connections.rows(self.alloc) {
            for connection in &connections {
                self.raise(&mut most, connection);
            }
        }
        most
    }

    fn raise(&self, most: &mut Fullest, connection: &Connection) {
        most.messages = most.messages.max(connection.outbox.len() as u64);
        if let Dest::Session(number) = connection.dest {
            let clients = &self.clients;
            most.channels = most.channels.max(clients.channel_count(number) as u64);
            most.subs = most.subs.max(clients.sub_count(number) as u64);
            most.reads = most.reads.max(clients.read_count(number) as u64);
            most.writes = most.writes.max(self.upstream.writes(number) as u64);
        }
    }
}
