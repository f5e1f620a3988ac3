//! Connections: what is said to them, and what waits for them.
ghost use Rattle.std.specs.Prelude.{◌≡◌, take, OnOk, IfOk};
ghost use Rattle.rows.specs.Rows.{change_first};
ghost use Rattle.gateway_state.specs.Asked.{acts, must_end, queued, queued_bytes, is_open};
ghost use Rattle.gateway_state.specs.Clients.{no_channel, read_refused};
ghost use Rattle.gateway_state.specs.Connections.{given, is_to, marked_now, outbox_of, relieved};
ghost use Rattle.gateway_state.specs.Subscribing.{request_refused, unreadable_told};
ghost use Rattle.gateway_state.specs.Telling.{asked, told};

use crate::lists::{Picker, any, find, place_of};
use crate::state::PlainRows;
use ca_header::{Header, write_head};
use ca_message::codes::{ECA_BADCHID, ECA_NORDACCESS};
use ca_message::commands::NO_CHANNEL;
use ca_message::{ToClient, ToServer};
use channel_table::{ClientSub, WaitingRead};
use fanout::{AppendFault, Out};
use gateway_state::{Connection, Dest};
use link_table::Counter;
use std::alloc::{AllocError, Global};

/// The connection to or from there.
#[derive(Clone, Copy)]
pub struct ConnectionTo {
    pub dest: Dest,
}

impl Picker<Connection> for ConnectionTo {
    ghost picks = { λ key. is_to key.dest };

    fn picks(&self, row: &Connection) -> bool {
        row.dest == self.dest
    }
}

/// Gives a message to a connection where at most so many may wait, if it stands and isn't marked.
#[tactic(auto, using(rows::proofs::RowLemmas::set_is_change_first, rows::proofs::RowLemmas::change_first_none))]
fn give(rows: &mut Vec<Connection>, most: u32, dest: Dest, out: Out) -> Result<(), AllocError>
    ensures { OnOk result (rows.new.items ≡ change_first (is_to dest) (given most out) rows.old.items) }
{
    if let Some(place) = place_of(rows, ConnectionTo { dest }) {
        let row = &mut rows[place];
        match row.outbox.append_within(most, out) {
            Ok(()) | Err(AppendFault::Marked(_)) => Ok(()),
            Err(AppendFault::OutOfMemory(_)) => Err(AllocError),
        }
    } else {
        Ok(())
    }
}

/// Marks a connection to end.
#[tactic(auto, using(rows::proofs::RowLemmas::set_is_change_first, rows::proofs::RowLemmas::change_first_none))]
pub fn mark(rows: &mut Vec<Connection>, dest: Dest)
    ensures { rows.new.items ≡ change_first (is_to dest) marked_now rows.old.items }
{
    if let Some(place) = place_of(rows, ConnectionTo { dest }) {
        let row = &mut rows[place];
        row.outbox.mark();
    }
}

/// Takes the oldest messages of an outbox, in order.
#[tactic(auto, using(rows::proofs::RowLemmas::set_is_change_first, rows::proofs::RowLemmas::change_first_none, rows::proofs::RowLemmas::find_is_there, rows::proofs::RowLemmas::find_none))]
pub fn take(
    rows: &mut Vec<Connection>,
    alloc: Global,
    dest: Dest,
    count: usize,
) -> Result<Vec<Out>, AllocError>
    ensures ok { OnOk result (rows.new.items ≡ change_first (is_to dest) (relieved count) rows.old.items) }
    ensures found { IfOk result (λ outs. outs.items ≡ take count (outbox_of dest rows.old.items).messages) }
{
    if let Some(place) = place_of(rows, ConnectionTo { dest }) {
        let row = &mut rows[place];
        row.outbox.take(alloc, count)
    } else {
        Ok(Vec::new(alloc))
    }
}

impl PlainRows {
    /// Whether a connection stands.
    pub fn is_open(&self, dest: Dest) -> bool
        ensures { result ≡ is_open self.now dest }
    {
        any(&self.connections, ConnectionTo { dest })
    }

    /// Whether a connection stands and must end.
    pub fn must_end(&self, dest: Dest) -> bool
        ensures { result ≡ must_end self.now dest }
    {
        match find(&self.connections, ConnectionTo { dest }) {
            Some(connection) => connection.outbox.marked(),
            None => false,
        }
    }

    /// How many messages wait for a connection, 0 where it doesn't stand.
    pub fn queued(&self, dest: Dest) -> usize
        ensures { result ≡ queued self.now dest }
    {
        match find(&self.connections, ConnectionTo { dest }) {
            Some(connection) => connection.outbox.len(),
            None => 0,
        }
    }

    /// How many bytes wait for a connection, 0 where it doesn't stand.
    pub fn queued_bytes(&self, dest: Dest) -> u64
        ensures { result ≡ queued_bytes self.now dest }
    {
        match find(&self.connections, ConnectionTo { dest }) {
            Some(connection) => connection.outbox.bytes(),
            None => 0,
        }
    }

    /// Whether a message from the connection has an effect.
    pub fn acts(&self, dest: Dest) -> bool
        ensures { result ≡ acts self.now dest }
    {
        self.is_open(dest) && !self.must_end(dest)
    }

    /// Tells a client something.
    #[tactic(auto, unfolding(gateway_state::specs::Telling::sent, gateway_state::specs::Telling::outgoing))]
    pub fn tell(&mut self, number: u32, said: ToClient) -> Result<(), AllocError>
        ensures { OnOk result (self.new ≡ told number said self.old) }
    {
        let payload = said.payload(self.alloc)?;
        let head = write_head(&said.head());
        let out = Out { head, payload };
        let dest = Dest::Session(number);
        give(&mut self.connections, self.limits.most_for(dest), dest, out)
    }

    /// Tells a subscription that its channel may not be read.
    pub fn tell_unreadable(&mut self, sub: &ClientSub) -> Result<(), AllocError>
        ensures { OnOk result (self.new ≡ unreadable_told self.old sub.now) }
    {
        let said = ToClient::UpdateRefused {
            id: sub.id,
            dtype: sub.dtype,
            code: ECA_NORDACCESS,
        };
        self.tell(sub.session, said)
    }

    /// Asks a server for something.
    #[tactic(auto, unfolding(gateway_state::specs::Telling::sent, gateway_state::specs::Telling::outgoing_upstream))]
    pub fn ask(&mut self, number: u32, said: ToServer<'_>) -> Result<(), AllocError>
        ensures { OnOk result (self.new ≡ asked number said.entry self.old) }
    {
        let payload = said.payload(self.alloc)?;
        let head = write_head(&said.head());
        let out = Out { head, payload };
        let dest = Dest::Upstream(number);
        give(&mut self.connections, self.limits.most_for(dest), dest, out)
    }

    /// Refuses a client's request about a channel, by the ID that the client gave it.
    pub fn refuse(
        &mut self,
        number: u32,
        cid: u32,
        code: u32,
        head: &Header,
    ) -> Result<(), AllocError>
        ensures { OnOk result (self.new ≡ request_refused number cid code head.now self.old) }
    {
        let request = *head;
        self.tell(number, ToClient::Error { cid, code, request })
    }

    /// Refuses a client's request on no channel of its own, or passes it over: where that is wanted, and
    /// the number that the request names was given out.
    pub fn refuse_channel(&mut self, number: u32, head: &Header) -> Result<(), AllocError>
        ensures { OnOk result (self.new ≡ no_channel self.old number head.now) }
    {
        let first = self.config.first;
        let was_given_out = self.numbers.gave_out(Counter::Sid, first, head.p1);
        if self.limits.passes_over_gone && was_given_out {
            Ok(())
        } else {
            self.refuse(number, NO_CHANNEL, ECA_BADCHID, head)
        }
    }

    /// Tells a client that its read is refused.
    pub fn refuse_read(&mut self, read: WaitingRead, code: u32) -> Result<(), AllocError>
        ensures { OnOk result (self.new ≡ read_refused read.session read.ioid read.dtype read.count code self.old) }
    {
        let said = ToClient::ReadNotifyRefused {
            ioid: read.ioid,
            dtype: read.dtype,
            count: read.count,
            code,
        };
        self.tell(read.session, said)
    }
}
