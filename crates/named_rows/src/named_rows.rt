//! Rows under their keys, and the lists of these keys by names.
ghost use Rattle.std.specs.Prelude.{◌≡◌, ℕ, List, [], ◌∷◌, ◌++◌, false, length, map, slice_get, IfOk, OnOk, OnErr};
ghost use Rattle.std.specs.List.{filter, find, flat_map, count_by, list_any};
ghost use Rattle.std.specs.Option.{option_copied};
ghost use Rattle.rows.specs.Rows.{change_first};
ghost use Rattle.row_index.specs.declared.key.Key.{Key as RowKey};
ghost use Rattle.row_index.specs.Lists.{is_key, of, AddsTo, RemovesFrom, SameLists};
ghost use Rattle.row_index.specs.Pieces.{joined};
ghost use Rattle.row_index.specs.Rows.{has_key, lacks_key, value_at};
ghost use Rattle.named_rows.specs.Indexes.{changed_by, is_at, is_not_at, is_one_of, is_owned, row_at, IsApart, IsListedOn, IsUnlisted, IsUnlistedOn};

use pv_name::Name;
use row_index::{Key, NameKeys, RowMap, Sequence};
use std::alloc::{AllocError, Global};
use std::marker::Model;

/// A row, which is found by its key.
pub(crate) trait KeyedRow: Drop {
    ghost key: { Self → RowKey };

    fn key(&self) -> Key
        ensures { result ≡ key self.now };
}

/// A row that has the name under which its key is listed.
pub(crate) trait Named: KeyedRow {
    ghost name: { Self → List ℕ };

    fn name(&self) -> &Name
        ensures { result.now ≡ name self.now };
}

/// A row of which something is written anew that is no part of its key.
pub(crate) trait Changing: KeyedRow {
    /// What is written.
    type Change: Copy;

    ghost changed: { Self.Change → Self → Self };

    fn put(&mut self, change: Self::Change)
        ensures { self.new ≡ changed change self.old };

    ghost keeps_key: { (change : Self.Change) (row : Self) → Self.key (changed change row) ≡ Self.key row };
}

/// Rows in the order of adding, found by their keys, and by the names under which these are listed.
#[derive(Drop)]
pub(crate) struct NamedRows<T: KeyedRow> {
    rows: RowMap<T>,
    on: NameKeys,
}

impl<T: KeyedRow> Model for NamedRows<T> {
    ghost use Rattle.std.specs.Prelude.{map};
    ghost use Rattle.row_index.specs.Rows.{row_of};
    ghost use Rattle.named_rows.specs.Indexes.{IsUnderKeys, ListedRows};

    ghost Value = { ListedRows T };

    ghost view = { λ r. record { rows = map row_of r.rows; on = r.on } };

    ghost invariant = { λ r. IsUnderKeys T.key r.rows };
}

impl<T: KeyedRow> NamedRows<T> {
    pub(crate) fn new(alloc: Global) -> NamedRows<T>
        ensures rows { result.rows ≡ [] }
        ensures on { (name : List ℕ) → of result.on name ≡ [] }
    {
        NamedRows {
            rows: RowMap::new(alloc),
            on: NameKeys::new(alloc),
        }
    }

    /// Does nothing. Its contract is a law: no two rows have the same key.
    pub(crate) fn are_apart(&self)
        ensures { IsApart T.key self.now.rows }
    {
        self.rows.has_keys_apart();
    }

    pub(crate) fn len(&self) -> usize
        ensures { result ≡ length self.now.rows }
    {
        self.rows.len()
    }

    pub(crate) fn all(&self, alloc: Global) -> Result<Vec<&T>, AllocError>
        ensures { IfOk result (λ rows. map (λ row. row.now) rows.items ≡ self.now.rows) }
    {
        self.rows.rows(alloc)
    }

    #[inline]
    pub(crate) fn get(&self, key: Key) -> Option<&T>
        ensures { option_copied result ≡ find (is_at T.key key) self.now.rows }
    {
        self.rows.get(key)
    }

    #[inline]
    pub(crate) fn contains(&self, key: Key) -> bool
        ensures { result ≡ list_any (is_at T.key key) self.now.rows }
    {
        self.rows.contains(key)
    }

    pub(crate) fn count_of(&self, owner: u32) -> usize
        ensures { result ≡ count_by (is_owned T.key owner) self.now.rows }
    {
        self.rows.count_of(owner)
    }

    pub(crate) fn nth_of(&self, owner: u32, n: usize) -> Option<&T>
        ensures { option_copied result ≡ slice_get (filter (is_owned T.key owner) self.now.rows) n }
    {
        self.rows.of(owner, n)
    }

    /// How many keys are listed under a name.
    pub(crate) fn count_on(&self, name: &Name) -> usize
        ensures { result ≡ length (of self.now.on name.now) }
    {
        self.on.count(name)
    }

    /// The keys that are listed under a name: those of some pieces, and those behind them.
    pub(crate) fn keys_on(&self, name: &Name) -> (&[Sequence<Key>], &[Key])
        ensures { joined result.0.now ++ result.1.now ≡ of self.now.on name.now }
    {
        self.on.of(name)
    }

    /// The keys that are listed under these names, those of one name after the other.
    pub(crate) fn keys_on_each(&self, alloc: Global, names: &[Name]) -> Result<Vec<Key>, AllocError>
        ensures { IfOk result (λ keys. keys.items ≡ flat_map (of self.now.on) names.now) }
    {
        let mut keys = Vec::new(alloc);
        for name in names {
            let (pieces, last) = self.on.of(name);
            add_keys(&mut keys, pieces, last)?;
        }
        Ok(keys)
    }

    /// The rows of these keys, each once, in the order of adding.
    pub(crate) fn in_order(&self, alloc: Global, keys: &[Key]) -> Result<Vec<&T>, AllocError>
        ensures { IfOk result (λ rows. map (λ row. row.now) rows.items ≡ filter (is_one_of T.key keys.now) self.now.rows) }
    {
        self.rows.in_order(alloc, keys)
    }

    /// The row of the nth key under a name, counted from 0.
    pub(crate) fn nth_on(&self, name: &Name, n: usize) -> Option<&T>
        ensures { option_copied result ≡ row_at T.key self.now.rows (slice_get (of self.now.on name.now) n) }
    {
        match self.on.nth(name, n) {
            Some(key) => self.rows.get(key),
            None => None,
        }
    }

    /// Adds a row, whose key is listed under this name. At an error it is let go, and nothing changes.
    pub(crate) fn add(&mut self, name: &Name, row: T) -> Result<(), AllocError>
        requires new { list_any (is_at T.key (T.key row)) self.old.rows ≡ false }
        requires unlisted { length (filter (is_key (T.key row)) (of self.old.on name.now)) ≡ 0 }
        ensures ok_rows { OnOk result (self.new.rows ≡ self.old.rows ++ row ∷ []) }
        ensures ok_on { OnOk result (AddsTo name.now (T.key row) self.old.on self.new.on) }
        ensures err_rows { OnErr result (self.new.rows ≡ self.old.rows) }
        ensures err_on { OnErr result (SameLists self.old.on self.new.on) }
    {
        let key = row.key();
        self.rows.add(key, row)?;
        let listed = self.on.add_new(name, key);
        keep_if(listed, &mut self.rows, key)
    }

    /// Removes the row of a key, which is listed under this name.
    pub(crate) fn remove(&mut self, name: &Name, key: Key)
        ensures rows { self.new.rows ≡ filter (is_not_at T.key key) self.old.rows }
        ensures on { RemovesFrom name.now key self.old.on self.new.on }
    {
        self.on.remove(name, key, &self.rows);
        self.rows.remove(key);
    }
}

impl<T: Named> NamedRows<T> {
    /// Adds a row, whose key is listed under its own name. At an error it is let go, and nothing changes.
    pub(crate) fn add_named(&mut self, row: T) -> Result<(), AllocError>
        requires new { list_any (is_at T.key (T.key row)) self.old.rows ≡ false }
        requires unlisted { length (filter (is_key (T.key row)) (of self.old.on (T.name row))) ≡ 0 }
        ensures ok_rows { OnOk result (self.new.rows ≡ self.old.rows ++ row ∷ []) }
        ensures ok_on { OnOk result (AddsTo (T.name row) (T.key row) self.old.on self.new.on) }
        ensures err_rows { OnErr result (self.new.rows ≡ self.old.rows) }
        ensures err_on { OnErr result (SameLists self.old.on self.new.on) }
    {
        let key = row.key();
        self.rows.add(key, row)?;
        let listed = list(&self.rows, &mut self.on, key);
        keep_if(listed, &mut self.rows, key)
    }

    /// Removes the row of a key, which is listed under the row's own name.
    pub(crate) fn remove_named(&mut self, key: Key)
        ensures rows { self.new.rows ≡ filter (is_not_at T.key key) self.old.rows }
        ensures on { IsUnlistedOn T.name (find (is_at T.key key) self.old.rows) key self.old.on self.new.on }
    {
        unlist(&self.rows, &mut self.on, key);
        self.rows.remove(key);
    }
}

impl<T: Changing> NamedRows<T> {
    /// Changes the row of a key, if there is one.
    pub(crate) fn put(&mut self, key: Key, change: T::Change)
        ensures rows { self.new.rows ≡ change_first (is_at T.key key) (T.changed change) self.old.rows }
        ensures on { self.new.on ≡ self.old.on }
    {
        put(&mut self.rows, key, change);
    }
}

/// Adds the keys of some pieces and those behind them to a list.
fn add_keys(keys: &mut Vec<Key>, pieces: &[Sequence<Key>], last: &[Key]) -> Result<(), AllocError>
    ensures { OnOk result (keys.new.items ≡ keys.old.items ++ (joined pieces.now ++ last.now)) }
{
    add_pieces(keys, pieces)?;
    add_all(keys, last)
}

fn add_pieces(keys: &mut Vec<Key>, pieces: &[Sequence<Key>]) -> Result<(), AllocError>
    ensures { OnOk result (keys.new.items ≡ keys.old.items ++ joined pieces.now) }
{
    for piece in pieces {
        add_all(keys, piece.as_slice())?;
    }
    Ok(())
}

fn add_all(keys: &mut Vec<Key>, more: &[Key]) -> Result<(), AllocError>
    ensures { OnOk result (keys.new.items ≡ keys.old.items ++ more.now) }
{
    keys.extend_from_slice(more)
}

/// Takes the row of a key out again, unless the key was listed.
fn keep_if<T: KeyedRow>(
    listed: Result<(), AllocError>,
    rows: &mut RowMap<T>,
    key: Key,
) -> Result<(), AllocError>
    ensures same { result ≡ listed }
    ensures ok { OnOk listed (rows.new ≡ rows.old) }
    ensures err { OnErr listed (rows.new ≡ filter (lacks_key key) rows.old) }
{
    if listed.is_err() {
        rows.remove(key);
    }
    listed
}

/// Lists a row that stands under its own name. It isn't listed yet.
fn list<T: Named>(rows: &RowMap<T>, on: &mut NameKeys, key: Key) -> Result<(), AllocError>
    requires new { IsUnlisted T.name (value_at key rows.now) key on.old }
    ensures ok { OnOk result (IsListedOn T.name (value_at key rows.now) key on.old on.new) }
    ensures err { OnErr result (SameLists on.old on.new) }
{
    match rows.get(key) {
        Some(row) => on.add_new(row.name(), key),
        None => Ok(()),
    }
}

/// Takes a row off the list of its own name.
fn unlist<T: Named>(rows: &RowMap<T>, on: &mut NameKeys, key: Key)
    ensures { IsUnlistedOn T.name (value_at key rows.now) key on.old on.new }
{
    if let Some(row) = rows.get(key) {
        on.remove(row.name(), key, rows);
    }
}

fn put<T: Changing>(rows: &mut RowMap<T>, key: Key, change: T::Change)
    ensures { rows.new ≡ change_first (has_key key) (changed_by (T.changed change)) rows.old }
{
    if let Some(row) = rows.get_mut(key) {
        row.put(change);
    }
}
