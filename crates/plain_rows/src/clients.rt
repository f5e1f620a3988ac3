//! Rows of clients, and their keys: sessions, channels, subscriptions and waiting reads.
ghost use Rattle.std.specs.Prelude.{◌≡◌};
ghost use Rattle.rows.specs.Rows.{change_first, remove_first};
ghost use Rattle.named_rows.specs.Channels.{is_channel, is_channel_of, with_reach_and_rights};
ghost use Rattle.named_rows.specs.Reads.{is_read_of, is_read_on, same_read};
ghost use Rattle.channel_table.specs.Sessions.{is_numbered};
ghost use Rattle.named_rows.specs.Subs.{is_sub, is_sub_of, is_sub_on, with_owed};
ghost use Rattle.gateway_state.specs.Clients.{called, fixed, renamed, without_channel};
ghost use Rattle.gateway_state.specs.Subscribing.{with_pause};
ghost use Rattle.gateway_state.specs.Updates.{owed_to, owed_to_all};

use crate::lists::{Picker, place_of, remove};
use crate::state::PlainRows;
use crate::upstream::WritesOn;
use channel_table::{Channel, ClientSub, Reach, Session, User, WaitingRead};
use pv_name::Host;

// Sessions

/// The session of this number.
#[derive(Clone, Copy)]
pub struct SessionNumbered {
    pub number: u32,
}

impl Picker<Session> for SessionNumbered {
    ghost picks = { λ key. is_numbered key.number };

    fn picks(&self, row: &Session) -> bool {
        row.number == self.number
    }
}

/// The session's host can no longer change.
#[tactic(auto, using(rows::proofs::RowLemmas::set_is_change_first, rows::proofs::RowLemmas::change_first_none))]
pub fn fix_host(rows: &mut Vec<Session>, number: u32)
    ensures { rows.new.items ≡ change_first (is_numbered number) fixed rows.old.items }
{
    if let Some(place) = place_of(rows, SessionNumbered { number }) {
        let row = &mut rows[place];
        row.host_fixed = true;
    }
}

/// The session has another host, unless it is fixed.
#[tactic(auto, using(rows::proofs::RowLemmas::set_is_change_first, rows::proofs::RowLemmas::change_first_none))]
pub fn name_host(rows: &mut Vec<Session>, number: u32, host: Host, checks_hosts: bool)
    ensures { rows.new.items ≡ change_first (is_numbered number) (renamed checks_hosts host) rows.old.items }
{
    if let Some(place) = place_of(rows, SessionNumbered { number }) {
        let row = &mut rows[place];
        if !(row.host_fixed || checks_hosts) {
            row.host = host;
        }
    }
}

/// The session has another user, unless its host is fixed.
#[tactic(auto, using(rows::proofs::RowLemmas::set_is_change_first, rows::proofs::RowLemmas::change_first_none))]
pub fn name_user(rows: &mut Vec<Session>, number: u32, user: User)
    ensures { rows.new.items ≡ change_first (is_numbered number) (called user) rows.old.items }
{
    if let Some(place) = place_of(rows, SessionNumbered { number }) {
        let row = &mut rows[place];
        if !row.host_fixed {
            row.user = user;
        }
    }
}

/// The session wants no updates for now, or wants them again.
#[tactic(auto, using(rows::proofs::RowLemmas::set_is_change_first, rows::proofs::RowLemmas::change_first_none))]
pub fn pause(rows: &mut Vec<Session>, number: u32, paused: bool)
    ensures { rows.new.items ≡ change_first (is_numbered number) (with_pause paused) rows.old.items }
{
    if let Some(place) = place_of(rows, SessionNumbered { number }) {
        let row = &mut rows[place];
        row.paused = paused;
    }
}

// Channels

/// The session's channel of this ID.
#[derive(Clone, Copy)]
pub(crate) struct ChannelAt {
    pub session: u32,
    pub sid: u32,
}

impl Picker<Channel> for ChannelAt {
    ghost picks = { λ key. is_channel key.session key.sid };

    fn picks(&self, row: &Channel) -> bool {
        row.session == self.session && row.sid == self.sid
    }
}

/// The channels of a session.
#[derive(Clone, Copy)]
pub struct ChannelsOf {
    pub session: u32,
}

impl Picker<Channel> for ChannelsOf {
    ghost picks = { λ key. is_channel_of key.session };

    fn picks(&self, row: &Channel) -> bool {
        row.session == self.session
    }
}

/// The channel has this reach, and its client was told of these rights.
#[tactic(auto, using(rows::proofs::RowLemmas::set_is_change_first, rows::proofs::RowLemmas::change_first_none))]
pub fn put_channel(rows: &mut Vec<Channel>, session: u32, sid: u32, reach: Reach, rights: u32)
    ensures { rows.new.items ≡
        change_first (is_channel session sid) (with_reach_and_rights reach rights) rows.old.items }
{
    if let Some(place) = place_of(rows, ChannelAt { session, sid }) {
        let row = &mut rows[place];
        row.reach = reach;
        row.rights_told = rights;
    }
}

// Subscriptions

/// The session's subscription of this ID.
#[derive(Clone, Copy)]
pub struct SubAt {
    pub session: u32,
    pub id: u32,
}

impl Picker<ClientSub> for SubAt {
    ghost picks = { λ key. is_sub key.session key.id };

    fn picks(&self, row: &ClientSub) -> bool {
        row.session == self.session && row.id == self.id
    }
}

/// The subscriptions of a session.
#[derive(Clone, Copy)]
pub struct SubsOf {
    pub session: u32,
}

impl Picker<ClientSub> for SubsOf {
    ghost picks = { λ key. is_sub_of key.session };

    fn picks(&self, row: &ClientSub) -> bool {
        row.session == self.session
    }
}

/// The subscriptions on a channel.
#[derive(Clone, Copy)]
pub(crate) struct SubsOn {
    pub session: u32,
    pub sid: u32,
}

impl Picker<ClientSub> for SubsOn {
    ghost picks = { λ key. is_sub_on key.session key.sid };

    fn picks(&self, row: &ClientSub) -> bool {
        row.session == self.session && row.sid == self.sid
    }
}

/// The subscription is owed an update, or no longer.
#[tactic(auto, using(rows::proofs::RowLemmas::set_is_change_first, rows::proofs::RowLemmas::change_first_none))]
pub fn put_owed(rows: &mut Vec<ClientSub>, session: u32, id: u32, owed: bool)
    ensures { rows.new.items ≡ change_first (is_sub session id) (with_owed owed) rows.old.items }
{
    if let Some(place) = place_of(rows, SubAt { session, id }) {
        let row = &mut rows[place];
        row.owed = owed;
    }
}

// Waiting reads

/// The reads that are equal to this one.
#[derive(Clone, Copy)]
pub(crate) struct ReadLike {
    pub read: WaitingRead,
}

impl Picker<WaitingRead> for ReadLike {
    ghost picks = { λ key. same_read key.read };

    fn picks(&self, row: &WaitingRead) -> bool {
        self.read == *row
    }
}

/// The waiting reads of a session.
#[derive(Clone, Copy)]
pub struct ReadsOf {
    pub session: u32,
}

impl Picker<WaitingRead> for ReadsOf {
    ghost picks = { λ key. is_read_of key.session };

    fn picks(&self, row: &WaitingRead) -> bool {
        row.session == self.session
    }
}

/// The waiting reads on a channel.
#[derive(Clone, Copy)]
pub(crate) struct ReadsOn {
    pub session: u32,
    pub sid: u32,
}

impl Picker<WaitingRead> for ReadsOn {
    ghost picks = { λ key. is_read_on key.session key.sid };

    fn picks(&self, row: &WaitingRead) -> bool {
        row.session == self.session && row.sid == self.sid
    }
}

/// Removes a read, the first of those that are equal.
#[tactic(auto, using(rows::proofs::RowLemmas::remove_is_remove_first, rows::proofs::RowLemmas::remove_first_none))]
pub fn remove_read(rows: &mut Vec<WaitingRead>, read: WaitingRead)
    ensures { rows.new.items ≡ remove_first (same_read read) rows.old.items }
{
    if let Some(place) = place_of(rows, ReadLike { read }) {
        rows.remove(place);
    }
}

impl PlainRows {
    /// A channel goes with its subscriptions, waiting reads and waiting writes.
    pub fn remove_channel(&mut self, session: u32, sid: u32)
        ensures { self.new ≡ without_channel session sid self.old }
    {
        remove(&mut self.channels, ChannelAt { session, sid });
        remove(&mut self.subs, SubsOn { session, sid });
        remove(&mut self.reads, ReadsOn { session, sid });
        remove(&mut self.writes, WritesOn { session, sid });
    }

    fn owe(&mut self, sub: &ClientSub)
        ensures { self.new ≡ owed_to self.old sub.now }
    {
        put_owed(&mut self.subs, sub.session, sub.id, true);
    }

    /// Notes that each of these is owed an update.
    pub fn owe_all(&mut self, subs: &[ClientSub])
        ensures { self.new ≡ owed_to_all self.old subs.now }
    {
        for sub in subs {
            self.owe(sub);
        }
    }
}
