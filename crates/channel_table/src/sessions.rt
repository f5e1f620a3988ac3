//! Rows of sessions.
ghost use Rattle.std.specs.Prelude.{◌≡◌, [], ◌∷◌, ◌++◌, false, length, OnOk, OnErr};
ghost use Rattle.std.specs.List.{list_any, filter, find};
ghost use Rattle.std.specs.Option.{option_copied};
ghost use Rattle.rows.specs.Rows.{change_first};
ghost use Rattle.row_index.specs.Rows.{has_key};
ghost use Rattle.named_rows.specs.Indexes.{changed_by};
ghost use Rattle.channel_table.specs.Sessions.{is_numbered, is_not_numbered, nth_by_number, with_host_and_pause, with_user};

use crate::numbers::Numbers;
use crate::user::User;
use pv_name::Host;
use row_index::{Key, RowMap};
use std::alloc::{AllocError, Global};
use std::marker::Model;

/// A client's connection.
#[derive(Debug, Drop)]
pub struct Session {
    /// The number that the caller gave it.
    pub number: u32,
    /// The text of the address that its connection comes from. It never changes.
    pub peer: Host,
    /// The host that it counts as: its peer, or what the client said.
    pub host: Host,
    /// What the client said that its user is called.
    pub user: User,
    /// Whether the host stays as it is, since the client asked for a channel.
    pub host_fixed: bool,
    /// Whether the client wants no updates for now.
    pub paused: bool,
}

/// All sessions, found by their numbers, which stand beside them in rising order.
#[derive(Drop)]
pub(crate) struct Sessions {
    rows: RowMap<Session>,
    numbers: Numbers,
}

impl Model for Sessions {
    ghost use Rattle.std.specs.Prelude.{List, map};
    ghost use Rattle.row_index.specs.Rows.{row_of};
    ghost use Rattle.channel_table.specs.declared.sessions.Session.{Session};
    ghost use Rattle.channel_table.specs.SessionIndex.{IsSessionIndex};

    ghost Value = { List Session };

    ghost view = { λ s. map row_of s.rows };

    ghost invariant = { λ s. IsSessionIndex s.rows s.numbers };
}

impl Sessions {
    pub(crate) fn new(alloc: Global) -> Sessions
        ensures { result ≡ [] }
    {
        Sessions {
            rows: RowMap::new(alloc),
            numbers: Numbers::new(alloc),
        }
    }

    pub(crate) fn len(&self) -> usize
        ensures { result ≡ length self.now }
    {
        self.rows.len()
    }

    pub(crate) fn get(&self, number: u32) -> Option<&Session>
        ensures { option_copied result ≡ find (is_numbered number) self.now }
    {
        let key = Key {
            owner: number,
            id: 0,
        };
        self.rows.get(key)
    }

    pub(crate) fn contains(&self, number: u32) -> bool
        ensures { result ≡ list_any (is_numbered number) self.now }
    {
        let key = Key {
            owner: number,
            id: 0,
        };
        self.rows.contains(key)
    }

    /// The nth session by rising number, counted from 0.
    pub(crate) fn nth(&self, n: usize) -> Option<&Session>
        ensures { option_copied result ≡ nth_by_number n self.now }
    {
        let number = self.numbers.get(n)?;
        self.get(number)
    }

    /// Adds a session. At an error it is let go, and the others are as before.
    pub(crate) fn add(&mut self, session: Session) -> Result<(), AllocError>
        requires new { list_any (is_numbered session.number) self.old ≡ false }
        ensures ok { OnOk result (self.new ≡ self.old ++ session ∷ []) }
        ensures err { OnErr result (self.new ≡ self.old) }
    {
        let number = session.number;
        let key = Key {
            owner: session.number,
            id: 0,
        };
        self.numbers.add(number)?;
        match self.rows.add(key, session) {
            Ok(()) => Ok(()),
            Err(e) => {
                self.numbers.remove(number);
                Err(e)
            }
        }
    }

    pub(crate) fn put(&mut self, number: u32, host: Host, host_fixed: bool, paused: bool)
        ensures { self.new ≡
            change_first (is_numbered number) (with_host_and_pause host host_fixed paused) self.old }
    {
        let key = Key {
            owner: number,
            id: 0,
        };
        put(&mut self.rows, key, host, host_fixed, paused);
    }

    pub(crate) fn put_user(&mut self, number: u32, user: User)
        ensures { self.new ≡ change_first (is_numbered number) (with_user user) self.old }
    {
        let key = Key {
            owner: number,
            id: 0,
        };
        put_user(&mut self.rows, key, user);
    }

    pub(crate) fn remove(&mut self, number: u32)
        ensures { self.new ≡ filter (is_not_numbered number) self.old }
    {
        let key = Key {
            owner: number,
            id: 0,
        };
        self.rows.remove(key);
        self.numbers.remove(number);
    }
}

fn put(rows: &mut RowMap<Session>, key: Key, host: Host, host_fixed: bool, paused: bool)
    ensures { rows.new ≡ change_first (has_key key) (changed_by (with_host_and_pause host host_fixed paused)) rows.old }
{
    if let Some(row) = rows.get_mut(key) {
        row.host = host;
        row.host_fixed = host_fixed;
        row.paused = paused;
    }
}

fn put_user(rows: &mut RowMap<Session>, key: Key, user: User)
    ensures { rows.new ≡ change_first (has_key key) (changed_by (with_user user)) rows.old }
{
    if let Some(row) = rows.get_mut(key) {
        row.user = user;
    }
}
