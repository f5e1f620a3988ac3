//! Rows of waiting reads.
ghost use Rattle.std.specs.Prelude.{◌≡◌, ℕ, List, [], ◌∷◌, ◌++◌, false, length, map, slice_get, IfOk, OnOk, OnErr};
ghost use Rattle.std.specs.List.{filter, find, count_by, list_any};
ghost use Rattle.std.specs.Option.{option_map};
ghost use Rattle.row_index.specs.Lists.{is_key, of, AddsTo, RemovesFrom, SameLists};
ghost use Rattle.row_index.specs.Pieces.{joined};
ghost use Rattle.named_rows.specs.Indexes.{is_at, is_kept, is_kept_like, is_kept_on, is_not_kept, read_home, read_in, read_key, reads_in, row_at, rows_at, IsApart, IsUnlistedBySid};
ghost use Rattle.named_rows.specs.Reads.{is_read_of};

use crate::keys::key_of;
use crate::named_rows::{KeyedRow, NamedRows};
use pv_name::Name;
use row_index::{Key, OwnerKeys, Sequence};
use std::alloc::{AllocError, Global};
use std::marker::Model;

/// A read that a client waits for.
#[derive(Clone, Copy, Debug, PartialEq, Eq)]
pub struct WaitingRead {
    /// The number of its session.
    pub session: u32,
    /// The gateway's ID of its channel.
    pub sid: u32,
    /// The DBR type that the value is wanted in.
    pub dtype: u16,
    /// How many elements are wanted, 0 for as many as there are.
    pub count: u32,
    /// The ID that the client gave it.
    pub ioid: u32,
}

/// A waiting read with an ID of its own in its session, since equal reads may stand together.
#[derive(Clone, Copy)]
pub struct KeptRead {
    pub id: u32,
    pub read: WaitingRead,
}

impl KeyedRow for KeptRead {
    ghost key = { read_key };

    fn key(&self) -> Key {
        key_of(self.read.session, self.id)
    }
}

/// All waiting reads, found by their sessions, by the real names that they wait for, and by the gateway's
/// IDs of their channels.
#[derive(Drop)]
pub struct Reads {
    rows: NamedRows<KeptRead>,
    by_sid: OwnerKeys,
}

impl Model for Reads {
    ghost use Rattle.named_rows.specs.Indexes.{AreBySid, ReadRows, read_home, read_key};

    ghost Value = { ReadRows };

    ghost view = { λ r. r.rows };

    ghost invariant = { λ r. AreBySid read_key read_home r.rows.rows r.by_sid };
}

impl Reads {
    pub fn new(alloc: Global) -> Reads
        ensures rows { result.rows ≡ [] }
        ensures on { (name : List ℕ) → of result.on name ≡ [] }
    {
        Reads {
            rows: NamedRows::new(alloc),
            by_sid: OwnerKeys::new(alloc),
        }
    }

    /// Does nothing. Its contract is a law: no two reads of a session have the same ID.
    pub fn are_apart(&self)
        ensures { IsApart read_key self.now.rows }
    {
        self.rows.are_apart();
    }

    pub fn len(&self) -> usize
        ensures { result ≡ length (reads_in self.now) }
    {
        self.rows.len()
    }

    pub fn all(&self, alloc: Global) -> Result<Vec<WaitingRead>, AllocError>
        ensures { IfOk result (λ reads. reads.items ≡ reads_in self.now) }
    {
        let rows = self.rows.all(alloc)?;
        copied(&rows, alloc)
    }

    pub fn count_of(&self, session: u32) -> usize
        ensures { result ≡ count_by (is_read_of session) (reads_in self.now) }
    {
        self.rows.count_of(session)
    }

    pub fn nth_of(&self, session: u32, n: usize) -> Option<WaitingRead>
        ensures { result ≡ slice_get (filter (is_read_of session) (reads_in self.now)) n }
    {
        match self.rows.nth_of(session, n) {
            Some(row) => Some(row.read),
            None => None,
        }
    }

    pub fn count_on(&self, name: &Name) -> usize
        ensures { result ≡ length (of self.now.on name.now) }
    {
        self.rows.count_on(name)
    }

    pub fn nth_on(&self, name: &Name, n: usize) -> Option<WaitingRead>
        ensures { result ≡ option_map read_in (row_at read_key self.now.rows (slice_get (of self.now.on name.now) n)) }
    {
        match self.rows.nth_on(name, n) {
            Some(row) => Some(row.read),
            None => None,
        }
    }

    /// The reads that wait for a real name.
    pub fn all_on(&self, name: &Name, alloc: Global) -> Result<Vec<WaitingRead>, AllocError>
        ensures { IfOk result (λ reads. reads.items ≡ map read_in (rows_at read_key self.now.rows (of self.now.on name.now))) }
    {
        let (pieces, last) = self.rows.keys_on(name);
        let mut reads = Vec::new(alloc);
        add_pieces(&self.rows, pieces, &mut reads)?;
        add_at(&self.rows, last, &mut reads)?;
        Ok(reads)
    }

    /// The first read on a channel. No other is looked at than those that name its ID.
    pub fn first_on(&self, session: u32, sid: u32) -> Option<KeptRead>
        ensures { result ≡ find (is_kept_on session sid) self.now.rows }
    {
        self.rows.are_apart();
        first_on(&self.rows, self.by_sid.of(sid), session, sid)
    }

    /// The first read that is equal to this one. No other is looked at than those that name its channel's ID.
    pub fn first_like(&self, read: &WaitingRead) -> Option<KeptRead>
        ensures { result ≡ find (is_kept_like read.now) self.now.rows }
    {
        self.rows.are_apart();
        first_like(&self.rows, self.by_sid.of(read.sid), read)
    }

    /// An ID that no read of the session has: one more than the last one's, where that is free. There is
    /// none where all are taken.
    pub fn free_id(&self, session: u32) -> Result<u32, AllocError>
        ensures { IfOk result (λ id. list_any (is_kept (record { owner = session; id = id })) self.now.rows ≡ false) }
    {
        let next = self.next_id(session);
        if self.contains(session, next) {
            self.any_free_id(session)
        } else {
            Ok(next)
        }
    }

    // One more than the ID of the session's last read, and 0 behind the type's last.
    fn next_id(&self, session: u32) -> u32 {
        let last = self.rows.count_of(session).saturating_sub(1);
        match self.rows.nth_of(session, last) {
            Some(row) => row.id.wrapping_add(1),
            None => 0,
        }
    }

    fn any_free_id(&self, session: u32) -> Result<u32, AllocError>
        ensures { IfOk result (λ id. list_any (is_kept (record { owner = session; id = id })) self.now.rows ≡ false) }
    {
        for id in 0..=u32::MAX {
            if !self.contains(session, id) {
                return Ok(id);
            }
        }
        Err(AllocError)
    }

    fn contains(&self, session: u32, id: u32) -> bool
        ensures { result ≡ list_any (is_kept (record { owner = session; id = id })) self.now.rows }
    {
        self.rows.contains(key_of(session, id))
    }

    /// Adds a read that waits for this real name, under an ID that is free. At an error nothing changes.
    pub fn add(&mut self, name: &Name, row: KeptRead) -> Result<(), AllocError>
        requires new { list_any (is_kept (read_key row)) self.old.rows ≡ false }
        requires unlisted { length (filter (is_key (read_key row)) (of self.old.on name.now)) ≡ 0 }
        ensures ok_rows { OnOk result (self.new.rows ≡ self.old.rows ++ row ∷ []) }
        ensures ok_on { OnOk result (AddsTo name.now (read_key row) self.old.on self.new.on) }
        ensures err_rows { OnErr result (self.new.rows ≡ self.old.rows) }
        ensures err_on { OnErr result (SameLists self.old.on self.new.on) }
    {
        self.by_sid.add(row.read.sid, row.key())?;
        match self.rows.add(name, row) {
            Ok(()) => Ok(()),
            Err(e) => {
                self.by_sid.remove(row.read.sid, row.key());
                Err(e)
            }
        }
    }

    /// Removes a read that waits for this real name.
    pub fn remove(&mut self, name: &Name, row: KeptRead)
        ensures rows { self.new.rows ≡ filter (is_not_kept (read_key row)) self.old.rows }
        ensures on { RemovesFrom name.now (read_key row) self.old.on self.new.on }
    {
        self.rows.are_apart();
        let key = row.key();
        unlist(&self.rows, &mut self.by_sid, key);
        self.rows.remove(name, key);
    }
}

/// Takes the read of a key off the list of its channel's ID.
fn unlist(rows: &NamedRows<KeptRead>, by_sid: &mut OwnerKeys, key: Key)
    ensures { IsUnlistedBySid read_home (find (is_at read_key key) rows.now.rows) key by_sid.old by_sid.new }
{
    if let Some(row) = rows.get(key) {
        by_sid.remove(row.read.sid, key);
    }
}

/// The reads of these rows.
fn copied(rows: &[&KeptRead], alloc: Global) -> Result<Vec<WaitingRead>, AllocError>
    ensures { IfOk result (λ reads. reads.items ≡ map (λ row. row.now.read) rows.now) }
{
    let mut reads = Vec::new(alloc);
    for row in rows {
        reads.push(row.read)?;
    }
    Ok(reads)
}

/// Adds the reads under the keys of these pieces to a list.
#[tactic(auto, using(crate::proofs::Joined::read_joined))]
fn add_pieces(
    rows: &NamedRows<KeptRead>,
    pieces: &[Sequence<Key>],
    reads: &mut Vec<WaitingRead>,
) -> Result<(), AllocError>
    ensures added { OnOk result (reads.new.items ≡ reads.old.items ++ map read_in (rows_at read_key rows.now.rows (joined pieces.now))) }
{
    for piece in pieces {
        add_at(rows, piece.as_slice(), reads)?;
    }
    Ok(())
}

/// Adds the reads under these keys to a list.
fn add_at(
    rows: &NamedRows<KeptRead>,
    keys: &[Key],
    reads: &mut Vec<WaitingRead>,
) -> Result<(), AllocError>
    ensures added { OnOk result (reads.new.items ≡ reads.old.items ++ map read_in (rows_at read_key rows.now.rows keys.now)) }
{
    for key in keys {
        if let Some(row) = rows.get(*key) {
            reads.push(row.read)?;
        }
    }
    Ok(())
}

/// The first of these rows that is on a channel.
fn first_on(rows: &NamedRows<KeptRead>, keys: &[Key], session: u32, sid: u32) -> Option<KeptRead>
    ensures { result ≡ find (is_kept_on session sid) (rows_at read_key rows.now.rows keys.now) }
{
    keys.iter()
        .filter_map(|key| rows.get(*key).copied())
        .find(|row| row.read.session == session && row.read.sid == sid)
}

/// The first of these rows that is equal to this one.
fn first_like(rows: &NamedRows<KeptRead>, keys: &[Key], read: &WaitingRead) -> Option<KeptRead>
    ensures { result ≡ find (is_kept_like read.now) (rows_at read_key rows.now.rows keys.now) }
{
    keys.iter()
        .filter_map(|key| rows.get(*key).copied())
        .find(|row| *read == row.read)
}
