//! Rows of channels.
ghost use Rattle.std.specs.Prelude.{◌≡◌, ◌-◌, [], ◌∷◌, ◌++◌, false, length, map, slice_get, refl, IfOk, IsTrue, OnOk, OnErr};
ghost use Rattle.std.specs.List.{list_any, filter, find, count_by};
ghost use Rattle.std.specs.Option.{option_copied};
ghost use Rattle.rows.specs.Rows.{change_first};
ghost use Rattle.named_rows.specs.Channels.{count_on_each, is_channel, is_not_channel, is_channel_of, is_on, is_on_any, with_reach_and_rights};
ghost use Rattle.named_rows.specs.Indexes.{channel_key, channel_keys_on, IsApart};

use crate::keys::key_of;
use crate::named_rows::{Changing, KeyedRow, Named, NamedRows};
use pv_name::Name;
use row_index::Key;
use std::alloc::{AllocError, Global};
use std::marker::Model;

/// How far accepted reads on a channel went.
#[derive(Clone, Copy, Debug, PartialEq, Eq)]
pub struct Reach {
    /// The most elements that one of them asked for, 0 where there was none.
    pub count: u32,
    /// Whether one of them needs the properties of the variable.
    pub props: bool,
}

/// A client's channel.
#[derive(Debug, Drop)]
pub struct Channel {
    /// The number of its session.
    pub session: u32,
    /// The ID that the gateway gave it.
    pub sid: u32,
    /// The ID that the client gave it.
    pub cid: u32,
    /// The name that the client asked for.
    pub asked: Name,
    /// The name of the process variable that this leads to.
    pub real: Name,
    /// How far its accepted reads went.
    pub reach: Reach,
    /// The access rights that the client was last told.
    pub rights_told: u32,
}

impl KeyedRow for Channel {
    ghost key = { channel_key };

    fn key(&self) -> Key {
        key_of(self.session, self.sid)
    }
}

impl Named for Channel {
    ghost name = { λ channel. channel.real };

    fn name(&self) -> &Name {
        &self.real
    }
}

impl Changing for Channel {
    /// The reach and the rights last told.
    type Change = (Reach, u32);

    ghost changed = { λ change. with_reach_and_rights change.0 change.1 };

    fn put(&mut self, change: (Reach, u32)) {
        (self.reach, self.rights_told) = change;
    }

    ghost keeps_key = { λ change row. refl };
}

/// All channels, found by their IDs and by their real names.
#[derive(Drop)]
pub struct Channels {
    rows: NamedRows<Channel>,
}

impl Model for Channels {
    ghost use Rattle.std.specs.Prelude.{List};
    ghost use Rattle.named_rows.specs.declared.channels.Channel.{Channel};
    ghost use Rattle.named_rows.specs.Indexes.{AreChannelsListed};

    ghost Value = { List Channel };

    ghost view = { λ c. c.rows.rows };

    ghost invariant = { λ c. AreChannelsListed c.rows };
}

impl Channels {
    pub fn new(alloc: Global) -> Channels
        ensures { result ≡ [] }
    {
        Channels {
            rows: NamedRows::new(alloc),
        }
    }

    /// Does nothing. Its contract is a law: no two channels have the same IDs.
    pub fn are_apart(&self)
        ensures { IsApart channel_key self.now }
    {
        self.rows.are_apart();
    }

    pub fn len(&self) -> usize
        ensures { result ≡ length self.now }
    {
        self.rows.len()
    }

    pub fn all(&self, alloc: Global) -> Result<Vec<&Channel>, AllocError>
        ensures { IfOk result (λ rows. map (λ row. row.now) rows.items ≡ self.now) }
    {
        self.rows.all(alloc)
    }

    pub fn get(&self, session: u32, sid: u32) -> Option<&Channel>
        ensures { option_copied result ≡ find (is_channel session sid) self.now }
    {
        self.rows.get(key_of(session, sid))
    }

    pub fn contains(&self, session: u32, sid: u32) -> bool
        ensures { result ≡ list_any (is_channel session sid) self.now }
    {
        self.rows.contains(key_of(session, sid))
    }

    pub fn count_of(&self, session: u32) -> usize
        ensures { result ≡ count_by (is_channel_of session) self.now }
    {
        self.rows.count_of(session)
    }

    pub fn nth_of(&self, session: u32, n: usize) -> Option<&Channel>
        ensures { option_copied result ≡ slice_get (filter (is_channel_of session) self.now) n }
    {
        self.rows.nth_of(session, n)
    }

    /// The session's last channel.
    pub fn last_of(&self, session: u32) -> Option<&Channel>
        ensures { option_copied result ≡
            slice_get (filter (is_channel_of session) self.now) (count_by (is_channel_of session) self.now - 1) }
    {
        self.nth_of(session, self.count_of(session).saturating_sub(1))
    }

    pub fn is_used(&self, name: &Name) -> bool
        ensures { result ≡ list_any (is_on name.now) self.now }
    {
        self.count_on(name) > 0
    }

    pub fn count_on(&self, name: &Name) -> usize
        ensures { result ≡ length (filter (is_on name.now) self.now) }
    {
        self.rows.count_on(name)
    }

    pub fn nth_on(&self, name: &Name, n: usize) -> Option<&Channel>
        ensures { option_copied result ≡ slice_get (filter (is_on name.now) self.now) n }
    {
        self.rows.are_apart();
        self.rows.nth_on(name, n)
    }

    /// The keys of the channels on these names, those of one name after the other.
    pub fn keys_on_each(&self, alloc: Global, names: &[Name]) -> Result<Vec<Key>, AllocError>
        ensures keys { IfOk result (λ keys. keys.items ≡ channel_keys_on names.now self.now) }
        ensures count { IfOk result (λ keys. length keys.items ≡ count_on_each names.now self.now) }
    {
        self.rows.keys_on_each(alloc, names)
    }

    /// The channels on any of these names, each once, in the order of adding. These are their keys.
    pub fn on_any(
        &self,
        alloc: Global,
        names: &[Name],
        keys: &[Key],
    ) -> Result<Vec<&Channel>, AllocError>
        requires theirs { keys.now ≡ channel_keys_on names.now self.now }
        ensures { IfOk result (λ rows. map (λ row. row.now) rows.items ≡ filter (is_on_any names.now) self.now) }
    {
        let _ = names;
        self.rows.are_apart();
        self.rows.in_order(alloc, keys)
    }

    /// Adds a channel. At an error it is let go, and the others are as before.
    pub(crate) fn add(&mut self, channel: Channel) -> Result<(), AllocError>
        requires new { list_any (is_channel channel.session channel.sid) self.old ≡ false }
        ensures ok { OnOk result (self.new ≡ self.old ++ channel ∷ []) }
        ensures err { OnErr result (self.new ≡ self.old) }
    {
        self.rows.add_named(channel)
    }

    /// Whether it would change nothing to put this reach and these rights: no such channel stands, or it has
    /// them.
    #[tactic(auto, using(crate::proofs::Unchanged::unchanged_found, crate::proofs::Unchanged::unchanged_absent))]
    pub fn has(&self, session: u32, sid: u32, reach: Reach, rights: u32) -> bool
        ensures { IsTrue result → change_first (is_channel session sid) (with_reach_and_rights reach rights) self.now ≡ self.now }
    {
        match self.get(session, sid) {
            Some(channel) => channel.reach == reach && channel.rights_told == rights,
            None => true,
        }
    }

    pub(crate) fn put(&mut self, session: u32, sid: u32, reach: Reach, rights: u32)
        ensures { self.new ≡
            change_first (is_channel session sid) (with_reach_and_rights reach rights) self.old }
    {
        self.rows.put(key_of(session, sid), (reach, rights));
    }

    pub(crate) fn remove(&mut self, session: u32, sid: u32)
        ensures { self.new ≡ filter (is_not_channel session sid) self.old }
    {
        self.rows.are_apart();
        self.rows.remove_named(key_of(session, sid));
    }
}
