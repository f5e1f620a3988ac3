//! Rows of clients' subscriptions.
ghost use Rattle.std.specs.Prelude.{◌≡◌, ℕ, List, [], ◌∷◌, ◌++◌, false, length, map, slice_get, refl, IfOk, IfSome, OnOk, OnErr};
ghost use Rattle.std.specs.List.{filter, find, count_by, list_any};
ghost use Rattle.std.specs.Option.{option_copied};
ghost use Rattle.rows.specs.Rows.{change_first};
ghost use Rattle.row_index.specs.Lists.{is_key, of, AddsTo, RemovesFrom, SameLists};
ghost use Rattle.row_index.specs.Pieces.{joined};
ghost use Rattle.named_rows.specs.Indexes.{is_at, sub_home, sub_key, rows_at, IsApart, IsUnlistedBySid};
ghost use Rattle.named_rows.specs.Subs.{is_sub, is_not_sub, is_sub_of, is_sub_on, with_owed};
ghost use Rattle.named_rows.specs.Demand.{all_exchanged, exchanged_on};

use crate::asks;
use crate::keys::key_of;
use crate::named_rows::{Changing, KeyedRow, NamedRows};
use crate::sub_list::SubList;
use mask_merge::Tally;
use pv_name::Name;
use row_index::{Key, OwnerKeys, Sequence};
use std::alloc::{AllocError, Global};
use std::marker::Model;

/// A client's subscription to the updates of a channel.
#[derive(Clone, Copy, Debug, PartialEq, Eq)]
pub struct ClientSub {
    /// The number of its session.
    pub session: u32,
    /// The ID that the client gave it.
    pub id: u32,
    /// The gateway's ID of its channel.
    pub sid: u32,
    /// The DBR type that updates are wanted in.
    pub dtype: u16,
    /// How many elements are wanted, 0 for as many as there are.
    pub count: u32,
    /// The events that it asks for.
    pub mask: u16,
    /// Whether an update is owed.
    pub owed: bool,
}

impl KeyedRow for ClientSub {
    ghost key = { sub_key };

    fn key(&self) -> Key {
        key_of(self.session, self.id)
    }
}

impl Changing for ClientSub {
    /// Whether an update is owed.
    type Change = bool;

    ghost changed = { with_owed };

    fn put(&mut self, change: bool) {
        self.owed = change;
    }

    ghost keeps_key = { λ owed row. refl };
}

/// All subscriptions, found by their IDs, by the real names that they lead to, and by the gateway's IDs
/// of their channels.
#[derive(Drop)]
pub struct Subs {
    rows: NamedRows<ClientSub>,
    by_sid: OwnerKeys,
}

impl Model for Subs {
    ghost use Rattle.named_rows.specs.Indexes.{AreBySid, SubRows, sub_home, sub_key};

    ghost Value = { SubRows };

    ghost view = { λ s. s.rows };

    ghost invariant = { λ s. AreBySid sub_key sub_home s.rows.rows s.by_sid };
}

impl Subs {
    pub fn new(alloc: Global) -> Subs
        ensures rows { result.rows ≡ [] }
        ensures on { (name : List ℕ) → of result.on name ≡ [] }
    {
        Subs {
            rows: NamedRows::new(alloc),
            by_sid: OwnerKeys::new(alloc),
        }
    }

    /// Does nothing. Its contract is a law: no two subscriptions have the same IDs.
    pub fn are_apart(&self)
        ensures { IsApart sub_key self.now.rows }
    {
        self.rows.are_apart();
    }

    pub fn len(&self) -> usize
        ensures { result ≡ length self.now.rows }
    {
        self.rows.len()
    }

    pub fn all(&self, alloc: Global) -> Result<Vec<&ClientSub>, AllocError>
        ensures { IfOk result (λ rows. map (λ row. row.now) rows.items ≡ self.now.rows) }
    {
        self.rows.all(alloc)
    }

    pub fn get(&self, session: u32, id: u32) -> Option<&ClientSub>
        ensures { option_copied result ≡ find (is_sub session id) self.now.rows }
    {
        self.rows.get(key_of(session, id))
    }

    pub fn count_of(&self, session: u32) -> usize
        ensures { result ≡ count_by (is_sub_of session) self.now.rows }
    {
        self.rows.count_of(session)
    }

    pub fn nth_of(&self, session: u32, n: usize) -> Option<&ClientSub>
        ensures { option_copied result ≡ slice_get (filter (is_sub_of session) self.now.rows) n }
    {
        self.rows.nth_of(session, n)
    }

    pub fn count_on(&self, name: &Name) -> usize
        ensures { result ≡ length (of self.now.on name.now) }
    {
        self.rows.count_on(name)
    }

    /// The subscriptions that lead to a real name. One takes no memory.
    pub fn on(&self, name: &Name, alloc: Global) -> Result<SubList, AllocError>
        ensures listed { IfOk result (λ subs. subs ≡ rows_at sub_key self.now.rows (of self.now.on name.now)) }
    {
        let (pieces, last) = self.rows.keys_on(name);
        listed(&self.rows, pieces, last, alloc)
    }

    /// The first subscription on a channel. No other is looked at than those that name its ID.
    pub fn first_on(&self, session: u32, sid: u32) -> Option<ClientSub>
        ensures { result ≡ find (is_sub_on session sid) self.now.rows }
    {
        self.rows.are_apart();
        first(&self.rows, self.by_sid.of(sid), session, sid)
    }

    /// The subscriptions on a channel, in the order of adding. No other is looked at than those that name its ID.
    pub fn all_on(
        &self,
        alloc: Global,
        session: u32,
        sid: u32,
    ) -> Result<Vec<ClientSub>, AllocError>
        ensures { IfOk result (λ subs. subs.items ≡ filter (is_sub_on session sid) self.now.rows) }
    {
        self.rows.are_apart();
        let subs = passing(&self.rows, self.by_sid.of(sid), alloc, session, sid)?;
        Ok(subs)
    }

    /// What the subscriptions on a channel ask for, in the tally of its name: its client may read now,
    /// or may no longer. No other is looked at than those that name the channel's ID.
    pub(crate) fn exchange_on(
        &self,
        tally: &mut Tally,
        session: u32,
        sid: u32,
        before: bool,
        after: bool,
    )
        ensures { tally.new ≡ all_exchanged before after session sid self.now.rows tally.old }
    {
        self.rows.are_apart();
        let keys = self.by_sid.of(sid);
        exchange_all(tally, &self.rows, keys, session, sid, before, after);
    }

    /// Adds a subscription that leads to this real name. At an error nothing changes.
    pub(crate) fn add(&mut self, name: &Name, sub: ClientSub) -> Result<(), AllocError>
        requires new { list_any (is_sub sub.session sub.id) self.old.rows ≡ false }
        requires unlisted { length (filter (is_key (sub_key sub)) (of self.old.on name.now)) ≡ 0 }
        ensures ok_rows { OnOk result (self.new.rows ≡ self.old.rows ++ sub ∷ []) }
        ensures ok_on { OnOk result (AddsTo name.now (sub_key sub) self.old.on self.new.on) }
        ensures err_rows { OnErr result (self.new.rows ≡ self.old.rows) }
        ensures err_on { OnErr result (SameLists self.old.on self.new.on) }
    {
        self.by_sid.add(sub.sid, sub.key())?;
        match self.rows.add(name, sub) {
            Ok(()) => Ok(()),
            Err(e) => {
                self.by_sid.remove(sub.sid, sub.key());
                Err(e)
            }
        }
    }

    pub fn put(&mut self, session: u32, id: u32, owed: bool)
        ensures rows { self.new.rows ≡ change_first (is_sub session id) (with_owed owed) self.old.rows }
        ensures on { self.new.on ≡ self.old.on }
    {
        self.rows.put(key_of(session, id), owed);
    }

    /// Removes a subscription that leads to this real name.
    pub(crate) fn remove(&mut self, name: &Name, session: u32, id: u32)
        ensures rows { self.new.rows ≡ filter (is_not_sub session id) self.old.rows }
        ensures on { RemovesFrom name.now (record { owner = session; id = id }) self.old.on self.new.on }
    {
        self.rows.are_apart();
        let key = key_of(session, id);
        unlist(&self.rows, &mut self.by_sid, key);
        self.rows.remove(name, key);
    }
}

/// Takes the subscription of a key off the list of its channel's ID.
fn unlist(rows: &NamedRows<ClientSub>, by_sid: &mut OwnerKeys, key: Key)
    ensures { IsUnlistedBySid sub_home (find (is_at sub_key key) rows.now.rows) key by_sid.old by_sid.new }
{
    if let Some(sub) = rows.get(key) {
        by_sid.remove(sub.sid, key);
    }
}

/// The subscriptions under the keys of these pieces and under those behind them.
fn listed(
    rows: &NamedRows<ClientSub>,
    pieces: &[Sequence<Key>],
    last: &[Key],
    alloc: Global,
) -> Result<SubList, AllocError>
    ensures listed { IfOk result (λ subs. subs ≡ rows_at sub_key rows.now.rows (joined pieces.now ++ last.now)) }
{
    if pieces.is_empty() {
        if let Some(sub) = single_at(rows, last) {
            return Ok(SubList::single(sub));
        }
    }
    Ok(SubList::many(many_at(rows, pieces, last, alloc)?))
}

/// The row of the key, where it is the only one.
fn single_at(rows: &NamedRows<ClientSub>, keys: &[Key]) -> Option<ClientSub>
    ensures { IfSome result (λ sub. rows_at sub_key rows.now.rows keys.now ≡ sub ∷ []) }
{
    match keys {
        [key] => rows.get(*key).copied(),
        _ => None,
    }
}

/// All of them, in a list that takes memory.
fn many_at(
    rows: &NamedRows<ClientSub>,
    pieces: &[Sequence<Key>],
    last: &[Key],
    alloc: Global,
) -> Result<Vec<ClientSub>, AllocError>
    ensures listed { IfOk result (λ subs. subs.items ≡ rows_at sub_key rows.now.rows (joined pieces.now ++ last.now)) }
{
    let mut subs = Vec::new(alloc);
    list_pieces(rows, pieces, &mut subs)?;
    list_at(rows, last, &mut subs)?;
    Ok(subs)
}

/// Adds the subscriptions under the keys of these pieces to a list.
#[tactic(auto, using(crate::proofs::Joined::first_joined))]
fn list_pieces(
    rows: &NamedRows<ClientSub>,
    pieces: &[Sequence<Key>],
    subs: &mut Vec<ClientSub>,
) -> Result<(), AllocError>
    ensures listed { OnOk result (subs.new.items ≡ subs.old.items ++ rows_at sub_key rows.now.rows (joined pieces.now)) }
{
    for piece in pieces {
        list_at(rows, piece.as_slice(), subs)?;
    }
    Ok(())
}

/// Adds the subscriptions under these keys to a list.
fn list_at(
    rows: &NamedRows<ClientSub>,
    keys: &[Key],
    subs: &mut Vec<ClientSub>,
) -> Result<(), AllocError>
    ensures listed { OnOk result (subs.new.items ≡ subs.old.items ++ rows_at sub_key rows.now.rows keys.now) }
{
    subs.reserve(keys.len())?;
    for key in keys {
        if let Some(sub) = rows.get(*key) {
            subs.push(*sub)?;
        }
    }
    Ok(())
}

/// The first of these rows that is on a channel.
fn first(rows: &NamedRows<ClientSub>, keys: &[Key], session: u32, sid: u32) -> Option<ClientSub>
    ensures { result ≡ find (is_sub_on session sid) (rows_at sub_key rows.now.rows keys.now) }
{
    keys.iter()
        .filter_map(|key| rows.get(*key).copied())
        .find(|row| row.session == session && row.sid == sid)
}

/// Those of these rows that are on a channel.
fn passing(
    rows: &NamedRows<ClientSub>,
    keys: &[Key],
    alloc: Global,
    session: u32,
    sid: u32,
) -> Result<Vec<ClientSub>, AllocError>
    ensures { IfOk result (λ subs. subs.items ≡ filter (is_sub_on session sid) (rows_at sub_key rows.now.rows keys.now)) }
{
    let mut subs = Vec::new(alloc);
    for key in keys {
        if let Some(sub) = rows.get(*key) {
            if sub.session == session && sub.sid == sid {
                subs.push(*sub)?;
            }
        }
    }
    Ok(subs)
}

/// Of these rows those on a channel ask for something else.
fn exchange_all(
    tally: &mut Tally,
    rows: &NamedRows<ClientSub>,
    keys: &[Key],
    session: u32,
    sid: u32,
    before: bool,
    after: bool,
)
    ensures { tally.new ≡ all_exchanged before after session sid (rows_at sub_key rows.now.rows keys.now) tally.old }
{
    for key in keys {
        if let Some(sub) = rows.get(*key) {
            exchange(tally, sub, session, sid, before, after);
        }
    }
}

/// A row asks for something else, if it is on a channel.
fn exchange(tally: &mut Tally, sub: &ClientSub, session: u32, sid: u32, before: bool, after: bool)
    ensures { tally.new ≡ exchanged_on before after session sid sub.now tally.old }
{
    if sub.session == session && sub.sid == sid {
        tally.exchange(asks::of_sub(before, sub), asks::of_sub(after, sub));
    }
}
