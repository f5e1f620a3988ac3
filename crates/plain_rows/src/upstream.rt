//! Rows towards servers, and their keys: servers, links, waiting writes, and what variables told last.
ghost use Rattle.std.specs.Prelude.{◌≡◌, ◌==◌, IfOk, IsOk, OnOk};
ghost use Rattle.rows.specs.Rows.{change_first};
ghost use Rattle.link_table.specs.Links.{has_id, has_subscription, is_link, is_of, with_state, with_subscription};
ghost use Rattle.link_table.specs.Numbers.{is_of_cid};
ghost use Rattle.link_table.specs.Servers.{is_server, with_minor};
ghost use Rattle.link_table.specs.Writes.{is_write, is_write_of, is_write_on, is_write_to};
ghost use Rattle.dbr_layout.specs.View.{shown};
ghost use Rattle.value_cache.specs.Message.{TellsProperties};
ghost use Rattle.gateway_state.specs.CachedRows.{is_cached_of, without_told};
ghost use Rattle.gateway_state.specs.Servers.{held_with, with_held, without_link};

use crate::lists::{Picker, place_of, remove};
use crate::state::PlainRows;
use bytes::Bytes;
use gateway_state::{LastMessage, LastValue};
use link_table::{LinkRow, LinkState, Server, Subject, Subscription, Subscriptions, WaitingWrite};
use std::alloc::AllocError;

// Servers

/// The server of this number.
#[derive(Clone, Copy)]
pub struct ServerNumbered {
    pub number: u32,
}

impl Picker<Server> for ServerNumbered {
    ghost picks = { λ key. is_server key.number };

    fn picks(&self, row: &Server) -> bool {
        row.number == self.number
    }
}

/// The server said this minor version.
#[tactic(auto, using(rows::proofs::RowLemmas::set_is_change_first, rows::proofs::RowLemmas::change_first_none))]
pub fn put_minor(rows: &mut Vec<Server>, number: u32, minor: u32)
    ensures { rows.new.items ≡ change_first (is_server number) (with_minor minor) rows.old.items }
{
    if let Some(place) = place_of(rows, ServerNumbered { number }) {
        let row = &mut rows[place];
        row.minor = minor;
    }
}

// Links

/// The server's link of this ID.
#[derive(Clone, Copy)]
pub struct LinkAt {
    pub server: u32,
    pub cid: u32,
}

impl Picker<LinkRow> for LinkAt {
    ghost picks = { λ key. is_link key.server key.cid };

    fn picks(&self, row: &LinkRow) -> bool {
        row.server == self.server && row.cid == self.cid
    }
}

/// The link of this ID, whichever its server is.
#[derive(Clone, Copy)]
pub(crate) struct LinkNumbered {
    pub cid: u32,
}

impl Picker<LinkRow> for LinkNumbered {
    ghost picks = { λ key. is_of_cid key.cid };

    fn picks(&self, row: &LinkRow) -> bool {
        row.cid == self.cid
    }
}

/// The links of a server.
#[derive(Clone, Copy)]
pub struct LinksOf {
    pub server: u32,
}

impl Picker<LinkRow> for LinksOf {
    ghost picks = { λ key. is_of key.server };

    fn picks(&self, row: &LinkRow) -> bool {
        row.server == self.server
    }
}

/// The server's link of which a present subscription has this ID.
#[derive(Clone, Copy)]
pub struct LinkSubscribed {
    pub server: u32,
    pub id: u32,
}

impl Picker<LinkRow> for LinkSubscribed {
    ghost picks = { λ key. has_subscription key.server key.id };

    fn picks(&self, row: &LinkRow) -> bool {
        let Subscriptions { values, properties } = row.subscriptions;
        row.server == self.server && (has_id(values, self.id) || has_id(properties, self.id))
    }
}

/// Whether it is a subscription of this ID.
fn has_id(subscription: Option<Subscription>, id: u32) -> bool
    ensures { result ≡ has_id id subscription }
{
    match subscription {
        Some(subscription) => subscription.id == id,
        None => false,
    }
}

/// The same link once more.
pub fn copy_link(link: &LinkRow) -> Result<LinkRow, AllocError>
    ensures { IfOk result (λ copy. copy ≡ link.now) }
{
    Ok(LinkRow {
        cid: link.cid,
        server: link.server,
        name: link.name.copy()?,
        state: link.state,
        rights: link.rights,
        subscriptions: link.subscriptions,
    })
}

/// The link has come so far, and has these access rights.
#[tactic(auto, using(rows::proofs::RowLemmas::set_is_change_first, rows::proofs::RowLemmas::change_first_none))]
pub fn put_state(rows: &mut Vec<LinkRow>, server: u32, cid: u32, state: LinkState, rights: u32)
    ensures { rows.new.items ≡ change_first (is_link server cid) (with_state state rights) rows.old.items }
{
    if let Some(place) = place_of(rows, LinkAt { server, cid }) {
        let row = &mut rows[place];
        row.state = state;
        row.rights = rights;
    }
}

/// The link has this subscription on a subject, or none.
#[tactic(auto, using(rows::proofs::RowLemmas::set_is_change_first, rows::proofs::RowLemmas::change_first_none))]
pub fn put_subscription(
    rows: &mut Vec<LinkRow>,
    subject: Subject,
    server: u32,
    cid: u32,
    subscription: Option<Subscription>,
)
    ensures { rows.new.items ≡ change_first (is_link server cid) (with_subscription subject subscription) rows.old.items }
{
    if let Some(place) = place_of(rows, LinkAt { server, cid }) {
        let row = &mut rows[place];
        match subject {
            Subject::Values => row.subscriptions.values = subscription,
            Subject::Properties => row.subscriptions.properties = subscription,
        }
    }
}

// Waiting writes

/// The write to a server of this ID.
#[derive(Clone, Copy)]
pub struct WriteAt {
    pub server: u32,
    pub id: u32,
}

impl Picker<WaitingWrite> for WriteAt {
    ghost picks = { λ key. is_write key.server key.id };

    fn picks(&self, row: &WaitingWrite) -> bool {
        row.server == self.server && row.id == self.id
    }
}

/// The waiting writes of a session.
#[derive(Clone, Copy)]
pub struct WritesOf {
    pub session: u32,
}

impl Picker<WaitingWrite> for WritesOf {
    ghost picks = { λ key. is_write_of key.session };

    fn picks(&self, row: &WaitingWrite) -> bool {
        row.session == self.session
    }
}

/// The waiting writes on a channel.
#[derive(Clone, Copy)]
pub(crate) struct WritesOn {
    pub session: u32,
    pub sid: u32,
}

impl Picker<WaitingWrite> for WritesOn {
    ghost picks = { λ key. is_write_on key.session key.sid };

    fn picks(&self, row: &WaitingWrite) -> bool {
        row.session == self.session && row.sid == self.sid
    }
}

/// The waiting writes to a server.
#[derive(Clone, Copy)]
pub struct WritesTo {
    pub server: u32,
}

impl Picker<WaitingWrite> for WritesTo {
    ghost picks = { λ key. is_write_to key.server };

    fn picks(&self, row: &WaitingWrite) -> bool {
        row.server == self.server
    }
}

// What variables told last

/// What a link was told last.
#[derive(Clone, Copy)]
pub struct MessageOf {
    pub cid: u32,
}

impl Picker<LastMessage> for MessageOf {
    ghost picks = { λ key. is_cached_of key.cid };

    fn picks(&self, row: &LastMessage) -> bool {
        row.cid == self.cid
    }
}

/// What the links of a server were told last.
#[derive(Clone, Copy)]
pub struct MessagesBy {
    pub server: u32,
}

impl Picker<LastMessage> for MessagesBy {
    ghost picks = { λ key row. row.server == key.server };

    fn picks(&self, row: &LastMessage) -> bool {
        row.server == self.server
    }
}

/// A link's properties are forgotten, its value isn't.
#[tactic(auto, using(rows::proofs::RowLemmas::set_is_change_first, rows::proofs::RowLemmas::change_first_none))]
pub fn drop_properties(rows: &mut Vec<LastMessage>, cid: u32)
    ensures { rows.new.items ≡ change_first (is_cached_of cid) without_told rows.old.items }
{
    if let Some(place) = place_of(rows, MessageOf { cid }) {
        let row = &mut rows[place];
        row.held.drop_properties();
    }
}

/// What a server told of a subject is held in place of what it told of that subject before.
fn hold(
    held: &mut LastValue,
    subject: Subject,
    dtype: u16,
    count: u32,
    payload: Bytes,
    asked_with: u32,
)
    requires value { subject ≡ Subject.Values → IsOk (shown dtype count payload) }
    requires properties { subject ≡ Subject.Properties → TellsProperties dtype payload }
    ensures { held.new ≡ held_with subject dtype count payload asked_with held.old }
{
    match subject {
        Subject::Values => held.put(dtype, count, payload, asked_with),
        Subject::Properties => held.put_properties(dtype, payload),
    }
}

impl PlainRows {
    /// Keeps what a link was told of a subject, in a row of its own where it was told nothing yet.
    #[tactic(auto, using(crate::proofs::PutRows::set_is_put_row, crate::proofs::PutRows::put_row_none))]
    pub fn put_told(
        &mut self,
        subject: Subject,
        server: u32,
        cid: u32,
        dtype: u16,
        count: u32,
        payload: Bytes,
        asked_with: u32,
    ) -> Result<(), AllocError>
        requires value { subject ≡ Subject.Values → IsOk (shown dtype count payload) }
        requires properties { subject ≡ Subject.Properties → TellsProperties dtype payload }
        ensures { OnOk result (self.new ≡ with_held server cid (held_with subject dtype count payload asked_with) self.old) }
    {
        if let Some(place) = place_of(&self.cache, MessageOf { cid }) {
            let row = &mut self.cache[place];
            hold(&mut row.held, subject, dtype, count, payload, asked_with);
            return Ok(());
        }
        let mut held = LastValue::empty();
        hold(&mut held, subject, dtype, count, payload, asked_with);
        self.cache.push(LastMessage { server, cid, held })?;
        Ok(())
    }

    /// Removes a link and what it was told last.
    pub fn remove_link(&mut self, server: u32, cid: u32)
        ensures { self.new ≡ without_link server cid self.old }
    {
        remove(&mut self.cache, MessageOf { cid });
        remove(&mut self.links, LinkAt { server, cid });
    }
}
