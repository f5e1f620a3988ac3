//! Waiting writes, found by their IDs, and by the sessions that they are of.
ghost use Rattle.std.specs.Prelude.{◌≡◌, [], ◌∷◌, ◌++◌, length, true, false, OnOk, OnErr, IfSome, IsNone};
ghost use Rattle.std.specs.List.{filter, find, count_by, list_any};
ghost use Rattle.std.specs.Option.{option_copied};
ghost use Rattle.link_table.specs.Writes.{is_write, is_write_of, is_write_on, is_write_to, is_not_write, is_not_write_of, is_not_write_on, is_not_write_to};
ghost use Rattle.link_table.specs.WriteIndex.{leads_to};

use row_index::{Key, OwnerKeys, RowMap};
use std::alloc::{AllocError, Global};
use std::marker::Model;

/// A client's write that a server was told of and hasn't acknowledged.
#[derive(Clone, Copy, Debug, PartialEq, Eq)]
pub struct WaitingWrite {
    /// The number of its server.
    pub server: u32,
    /// The gateway's ID of it, by which the server acknowledges it.
    pub id: u32,
    /// The number of the client's session.
    pub session: u32,
    /// The gateway's ID of the client's channel.
    pub sid: u32,
    /// The DBR type of what was written.
    pub dtype: u16,
    /// How many elements were written.
    pub count: u32,
    /// The ID that the client gave it.
    pub ioid: u32,
}

/// Writes in the order of adding, each under its server and its ID there. No two have both alike.
#[derive(Drop)]
pub(crate) struct Writes {
    rows: RowMap<WaitingWrite>,
    /// The keys of each session's writes.
    by_session: OwnerKeys,
}

impl Model for Writes {
    ghost use Rattle.std.specs.Prelude.{List, map};
    ghost use Rattle.link_table.specs.declared.writes.WaitingWrite.{WaitingWrite};
    ghost use Rattle.row_index.specs.Rows.{row_of};
    ghost use Rattle.link_table.specs.WriteIndex.{AreListed};

    ghost Value = { List WaitingWrite };

    ghost view = { λ s. map row_of s.rows };

    ghost invariant = { λ s. AreListed s.rows s.by_session };
}

impl Writes {
    /// No write. This takes no memory.
    pub(crate) fn new(alloc: Global) -> Writes
        ensures { result ≡ [] }
    {
        Writes {
            rows: RowMap::new(alloc),
            by_session: OwnerKeys::new(alloc),
        }
    }

    pub(crate) fn get(&self, server: u32, id: u32) -> Option<&WaitingWrite>
        ensures { option_copied result ≡ find (is_write server id) self.now }
    {
        self.rows.get(Key { owner: server, id })
    }

    /// How many writes of the session there are.
    pub(crate) fn count(&self, session: u32) -> usize
        ensures { result ≡ count_by (is_write_of session) self.now }
    {
        self.by_session.of(session).len()
    }

    /// How many writes to the server there are.
    pub(crate) fn count_to(&self, server: u32) -> usize
        ensures { result ≡ length (filter (is_write_to server) self.now) }
    {
        self.rows.count_of(server)
    }

    /// How many writes wait.
    pub(crate) fn len(&self) -> usize
        ensures { result ≡ length self.now }
    {
        self.rows.len()
    }

    /// Adds a write. At an error none is added.
    pub(crate) fn add(&mut self, write: WaitingWrite) -> Result<(), AllocError>
        requires { list_any (is_write write.server write.id) self.old ≡ false }
        ensures ok { OnOk result (self.new ≡ self.old ++ write ∷ []) }
        ensures err { OnErr result (self.new ≡ self.old) }
    {
        let key = Key {
            owner: write.server,
            id: write.id,
        };
        self.rows.add(key, write)?;
        match self.by_session.add(write.session, key) {
            Ok(()) => Ok(()),
            Err(refused) => {
                self.rows.remove(key);
                Err(refused)
            }
        }
    }

    pub(crate) fn remove(&mut self, server: u32, id: u32)
        ensures { self.new ≡ filter (is_not_write server id) self.old }
    {
        let key = Key { owner: server, id };
        let Some(write) = self.rows.get(key) else {
            return;
        };
        self.by_session.remove(write.session, key);
        self.rows.remove(key);
    }

    /// Removes all writes on the session's channel of this ID.
    pub(crate) fn remove_on(&mut self, session: u32, sid: u32)
        ensures { self.new ≡ filter (is_not_write_on session sid) self.old }
    {
        while let Some(key) = self.one_on(session, sid) {
            self.remove(key.owner, key.id);
        }
    }

    /// Removes all writes of the session.
    pub(crate) fn remove_of(&mut self, session: u32)
        ensures { self.new ≡ filter (is_not_write_of session) self.old }
    {
        while let Some(key) = self.one_of(session) {
            self.remove(key.owner, key.id);
        }
    }

    /// Removes all writes to the server.
    pub(crate) fn remove_to(&mut self, server: u32)
        ensures { self.new ≡ filter (is_not_write_to server) self.old }
    {
        while let Some(id) = self.last_to(server) {
            self.remove(server, id);
        }
    }

    // The key of a write on the session's channel of this ID.
    fn one_on(&self, session: u32, sid: u32) -> Option<Key>
        ensures found { IfSome result (λ key. list_any (is_write key.owner key.id) self.now ≡ true) }
        ensures alone { IfSome result (λ key. list_any (is_not_write_on session sid) (filter (is_write key.owner key.id) self.now) ≡ false) }
        ensures none { IsNone result → list_any (is_write_on session sid) self.now ≡ false }
    {
        let keys = self.by_session.of(session);
        match first_on(&self.rows, keys, session, sid) {
            Some(key) => Some(key),
            None => None,
        }
    }

    // The key of a write of the session.
    fn one_of(&self, session: u32) -> Option<Key>
        ensures found { IfSome result (λ key. list_any (is_write key.owner key.id) self.now ≡ true) }
        ensures alone { IfSome result (λ key. list_any (is_not_write_of session) (filter (is_write key.owner key.id) self.now) ≡ false) }
        ensures none { IsNone result → list_any (is_write_of session) self.now ≡ false }
    {
        match self.by_session.of(session).first() {
            Some(key) => Some(*key),
            None => None,
        }
    }

    // The ID of the write to the server that was added last.
    fn last_to(&self, server: u32) -> Option<u32>
        ensures found { IfSome result (λ id. list_any (is_write server id) self.now ≡ true) }
        ensures none { IsNone result → list_any (is_write_to server) self.now ≡ false }
    {
        let count = self.rows.count_of(server);
        if count == 0 {
            return None;
        }
        match self.rows.of(server, count - 1) {
            Some(write) => Some(write.id),
            None => None,
        }
    }
}

// The first of these keys under which a write on the session's channel of this ID stands.
fn first_on(rows: &RowMap<WaitingWrite>, keys: &[Key], session: u32, sid: u32) -> Option<Key>
    ensures { result ≡ find (leads_to (is_write_on session sid) rows.now) keys.now }
{
    for key in keys {
        if is_on(rows, *key, session, sid) {
            return Some(*key);
        }
    }
    None
}

// Whether a write on the session's channel of this ID stands under the key.
fn is_on(rows: &RowMap<WaitingWrite>, key: Key, session: u32, sid: u32) -> bool
    ensures { result ≡ leads_to (is_write_on session sid) rows.now key }
{
    match rows.get(key) {
        Some(write) => write.session == session && write.sid == sid,
        None => false,
    }
}
