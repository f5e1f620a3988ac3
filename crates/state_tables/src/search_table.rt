//! Searches in the order in which they came, found by their texts.
ghost use Rattle.std.specs.Prelude.{◌≡◌, ◌∷◌, ◌++◌, [], false, length, map, option_map, slice_get, IfOk, OnOk, OnErr};
ghost use Rattle.std.specs.List.{filter, find, list_any};
ghost use Rattle.std.specs.Option.{option_copied};
ghost use Rattle.rows.specs.Rows.{change_first};
ghost use Rattle.row_index.specs.declared.key.Key.{Key as RowKey};
ghost use Rattle.row_index.specs.Rows.{has_key, lacks_key, value_at};
ghost use Rattle.named_rows.specs.Indexes.{changed_by, is_at, is_not_at, IsApart};
ghost use Rattle.state_tables.specs.Kept.{all_aged, aged_at, grown_old, is_by_found, is_fresh_row, is_led, is_owned, is_sought, kept_key, key_in, made_again, search_in, serial_key, KeepsListsOf, ListsFound, UnlistsFound};

use crate::kept::{KeptSearch, key_of};
use crate::search_lists::SearchLists;
use gateway_state::RememberedSearch;
use pv_name::{Host, Name};
use row_index::{Key, RowMap};
use std::alloc::{AllocError, Global};
use std::marker::Model;

/// Searches in the order in which they came. Each has a number of its own, by which it is found where it
/// is listed by its name, its host or its real name, so that no others are walked for one that is found or
/// goes.
#[derive(Drop)]
pub(crate) struct SearchTable {
    rows: RowMap<KeptSearch>,
    lists: SearchLists,
    /// Where a free number is looked for first.
    next: u32,
    alloc: Global,
}

impl Model for SearchTable {
    ghost use Rattle.std.specs.Prelude.{List, map};
    ghost use Rattle.row_index.specs.Rows.{row_of};
    ghost use Rattle.named_rows.specs.Indexes.{IsUnderKeys};
    ghost use Rattle.state_tables.specs.Kept.{kept_key, AreInLists};
    ghost use Rattle.state_tables.specs.declared.kept.KeptSearch.{KeptSearch as Row};

    ghost Value = { List Row };

    ghost view = { λ t. map row_of t.rows };

    ghost invariant = { λ t. IsUnderKeys kept_key t.rows × AreInLists (map row_of t.rows) t.lists };
}

impl SearchTable {
    /// No search. This takes no memory.
    pub(crate) fn new(alloc: Global) -> SearchTable
        ensures { result ≡ [] }
    {
        SearchTable {
            rows: RowMap::new(alloc),
            lists: SearchLists::new(alloc),
            next: 0,
            alloc,
        }
    }

    pub(crate) fn len(&self) -> usize
        ensures { result ≡ length self.now }
    {
        self.rows.len()
    }

    /// Does nothing. Its contract is a law: no two searches have the same number.
    pub(crate) fn are_apart(&self)
        ensures { IsApart kept_key self.now }
    {
        self.rows.has_keys_apart();
    }

    pub(crate) fn get(&self, key: Key) -> Option<&KeptSearch>
        ensures { option_copied result ≡ find (is_at kept_key key) self.now }
    {
        self.rows.get(key)
    }

    /// The key of the host's search for the name.
    pub(crate) fn sought(&self, host: &Host, name: &Name) -> Option<Key>
        ensures { result ≡ key_in (find (is_sought host.now name.now) self.now) }
    {
        self.rows.has_keys_apart();
        sought(&self.rows, self.lists.names.of(name), host)
    }

    /// The key of the oldest search of a host, whose text is in lower case.
    pub(crate) fn oldest_of(&self, owner: &Name) -> Option<Key>
        ensures { result ≡ key_in (find (is_owned owner.now) self.now) }
    {
        first_of(self.lists.hosts.of(owner))
    }

    /// How many searches the host made.
    pub(crate) fn count_of(&self, owner: &Name) -> usize
        ensures { result ≡ length (filter (is_owned owner.now) self.now) }
    {
        self.lists.hosts.of(owner).len()
    }

    /// The key of the oldest search of all.
    pub(crate) fn oldest(&self) -> Option<Key>
        ensures { result ≡ key_in (slice_get self.now 0) }
    {
        match self.rows.of(0, 0) {
            Some(kept) => Some(kept.key()),
            None => None,
        }
    }

    /// Whether a search leads to this real name.
    pub(crate) fn leads_to(&self, name: &Name) -> bool
        ensures { result ≡ list_any (is_led name.now) self.now }
    {
        !self.lists.reals.of(name).is_empty()
    }

    /// The keys of all, in order.
    pub(crate) fn keys(&self, alloc: Global) -> Result<Vec<Key>, AllocError>
        ensures { IfOk result (λ keys. keys.items ≡ map kept_key self.now) }
    {
        let rows = self.rows.rows(alloc)?;
        keys_of(&rows, alloc)
    }

    /// All searches, in order.
    pub(crate) fn rows(&self, alloc: Global) -> Result<Vec<&KeptSearch>, AllocError>
        ensures { IfOk result (λ rows. map (λ row. row.now) rows.items ≡ self.now) }
    {
        self.rows.rows(alloc)
    }

    /// A number that no search has. Where so many looks find none it is refused as if memory were short,
    /// which doesn't happen: more numbers are looked at than there are searches.
    pub(crate) fn free(&self) -> Result<u32, AllocError>
        ensures { IfOk result (λ serial. list_any (is_at kept_key (serial_key serial)) self.now ≡ false) }
    {
        let mut serial = self.next;
        for _ in 0..=self.rows.len() {
            if !self.has(serial) {
                return Ok(serial);
            }
            serial = serial.wrapping_add(1);
        }
        Err(AllocError)
    }

    // Whether a search has this number.
    fn has(&self, serial: u32) -> bool
        ensures { result ≡ list_any (is_at kept_key (serial_key serial)) self.now }
    {
        self.rows.contains(key_of(serial))
    }

    /// Adds a search under a number that is free. At an error nothing changes.
    pub(crate) fn add(&mut self, kept: KeptSearch) -> Result<(), AllocError>
        requires new { list_any (is_at kept_key (kept_key kept)) self.old ≡ false }
        ensures ok { OnOk result (self.new ≡ self.old ++ kept ∷ []) }
        ensures err { OnErr result (self.new ≡ self.old) }
    {
        let key = kept.key();
        self.rows.add(key, kept)?;
        match list(&self.rows, &mut self.lists, key) {
            Ok(()) => {
                self.next = key.id.wrapping_add(1);
                Ok(())
            }
            Err(e) => {
                self.rows.remove(key);
                Err(e)
            }
        }
    }

    /// Takes out the search of a key. This takes no memory.
    pub(crate) fn take(&mut self, key: Key) -> Option<RememberedSearch>
        ensures taken { result ≡ search_in (find (is_at kept_key key) self.old) }
        ensures rows { self.new ≡ filter (is_not_at kept_key key) self.old }
    {
        self.rows.has_keys_apart();
        unlist(&self.rows, &mut self.lists, key);
        taken(&mut self.rows, key)
    }

    /// The search of a key is made again.
    pub(crate) fn make_again(&mut self, key: Key)
        ensures { self.new ≡ change_first (is_at kept_key key) made_again self.old }
    {
        make_again(&mut self.rows, key);
    }

    /// Time passed since the search of a key was made.
    fn grow_old(&mut self, key: Key)
        ensures { self.new ≡ change_first (is_at kept_key key) grown_old self.old }
    {
        grow_old(&mut self.rows, key);
    }

    /// Takes out those searches of these keys that are stale; the others are so from now on.
    pub(crate) fn age(&mut self, keys: &[Key])
        ensures { self.new ≡ all_aged keys.now self.old }
    {
        for key in keys {
            self.age_one(*key);
        }
    }

    // The same of one key.
    fn age_one(&mut self, key: Key)
        ensures { self.new ≡ aged_at self.old key }
    {
        match self.is_fresh(key) {
            Some(true) => self.grow_old(key),
            Some(false) => {
                self.take(key);
            }
            None => {}
        }
    }

    // Whether the search of a key is fresh, where there is one.
    fn is_fresh(&self, key: Key) -> Option<bool>
        ensures { result ≡ option_map is_fresh_row (find (is_at kept_key key) self.now) }
    {
        match self.get(key) {
            Some(kept) => Some(kept.is_fresh()),
            None => None,
        }
    }

    /// Forgets all of them.
    pub(crate) fn clear(&mut self)
        ensures { self.new ≡ [] }
    {
        *self = SearchTable::new(self.alloc);
    }
}

/// The first of these keys whose search is by the host.
fn sought(rows: &RowMap<KeptSearch>, keys: &[Key], host: &Host) -> Option<Key>
    ensures { result ≡ find (λ (key : RowKey). is_by_found host.now (value_at key rows.now)) keys.now }
{
    for key in keys {
        if is_by_at(rows, *key, host) {
            return Some(*key);
        }
    }
    None
}

fn first_of(keys: &[Key]) -> Option<Key>
    ensures { result ≡ slice_get keys.now 0 }
{
    keys.first().copied()
}

fn is_by_at(rows: &RowMap<KeptSearch>, key: Key, host: &Host) -> bool
    ensures { result ≡ is_by_found host.now (value_at key rows.now) }
{
    match rows.get(key) {
        Some(kept) => kept.is_by(host),
        None => false,
    }
}

fn keys_of(rows: &[&KeptSearch], alloc: Global) -> Result<Vec<Key>, AllocError>
    ensures { IfOk result (λ keys. keys.items ≡ map (λ row. kept_key row.now) rows.now) }
{
    let mut keys = Vec::new(alloc);
    for row in rows {
        keys.push(row.key())?;
    }
    Ok(keys)
}

/// Lists the search of a key.
fn list(rows: &RowMap<KeptSearch>, lists: &mut SearchLists, key: Key) -> Result<(), AllocError>
    ensures ok { OnOk result (ListsFound (value_at key rows.now) lists.old lists.new) }
    ensures err { OnErr result (KeepsListsOf (value_at key rows.now) lists.old lists.new) }
{
    match rows.get(key) {
        Some(kept) => lists.add(kept),
        None => Ok(()),
    }
}

/// Takes the search of a key off its lists.
fn unlist(rows: &RowMap<KeptSearch>, lists: &mut SearchLists, key: Key)
    ensures { UnlistsFound (value_at key rows.now) lists.old lists.new }
{
    if let Some(kept) = rows.get(key) {
        lists.remove(kept);
    }
}

/// Takes out the search of a key, with its row.
#[tactic(auto, using(crate::proofs::SearchRows::gone_alike))]
fn taken(rows: &mut RowMap<KeptSearch>, key: Key) -> Option<RememberedSearch>
    ensures taken { result ≡ search_in (value_at key rows.old) }
    ensures rows { rows.new ≡ filter (lacks_key key) rows.old }
{
    let search = match rows.get_mut(key) {
        Some(kept) => kept.search.take(),
        None => None,
    };
    rows.remove(key);
    search
}

#[tactic(auto, using(crate::proofs::ConnectionRows::written_is_changed, crate::proofs::ConnectionRows::unfound_unchanged))]
fn make_again(rows: &mut RowMap<KeptSearch>, key: Key)
    ensures { rows.new ≡ change_first (has_key key) (changed_by made_again) rows.old }
{
    if let Some(kept) = rows.get_mut(key) {
        kept.make_again();
    }
}

#[tactic(auto, using(crate::proofs::ConnectionRows::written_is_changed, crate::proofs::ConnectionRows::unfound_unchanged))]
fn grow_old(rows: &mut RowMap<KeptSearch>, key: Key)
    ensures { rows.new ≡ change_first (has_key key) (changed_by grown_old) rows.old }
{
    if let Some(kept) = rows.get_mut(key) {
        kept.grow_old();
    }
}
