//! Lists of keys by names, any of which goes at little cost.
ghost use Rattle.std.specs.Prelude.{◌≡◌, ◌≤◌, ◌+◌, ◌*◌, ◌++◌, ℕ, List, [], None, OnOk, OnErr, bytes_eq, length, slice_get, if◌then◌else◌};
ghost use Rattle.std.specs.List.{filter};
ghost use Rattle.indexmap.specs.IndexMap.{get, index_map_len};
ghost use Rattle.row_index.specs.Lists.{is_key, of, AddsTo, RemovesFrom, SameLists};
ghost use Rattle.row_index.specs.Pieces.{joined};

use crate::apart_keys::ApartKeys;
use crate::key::Key;
use crate::name_hints::NameHints;
use crate::pieces;
use crate::row_map::RowMap;
use crate::sequence::Sequence;
use indexmap::IndexMap;
use pv_name::Name;
use std::alloc::{AllocError, Global};
use std::marker::Model;

/// Lists of keys, each under a name, in the order of adding. A key stands once under a name, and goes at
/// little cost however many stand there. A name with no key takes no memory but a hint's.
#[derive(Drop)]
pub struct NameKeys {
    lists: IndexMap<Name, ApartKeys>,
    hints: NameHints,
    alloc: Global,
}

impl Model for NameKeys {
    ghost use Rattle.std.specs.Prelude.{ℕ, List};
    ghost use Rattle.std.specs.Prelude.{bytes_eq};
    ghost use Rattle.row_index.specs.declared.key.Key.{Key as RowKey};
    ghost use Rattle.row_index.specs.Lists.{IsKept};

    ghost Value = { List (List ℕ × List RowKey) };

    ghost view = { λ l. l.lists.entries };

    ghost invariant = { λ l. IsKept bytes_eq l.lists.entries l.hints };
}

impl NameKeys {
    /// No key. This takes no memory.
    pub fn new(alloc: Global) -> NameKeys
        ensures { (name : List ℕ) → of result name ≡ [] }
    {
        NameKeys {
            lists: IndexMap::new(alloc),
            hints: NameHints::new(alloc),
            alloc,
        }
    }

    /// How many keys are under this name.
    pub fn count(&self, name: &Name) -> usize
        ensures { result ≡ length (of self.now name.now) }
    {
        match self.hints.find(&self.lists, name) {
            Some(keys) => keys.len(),
            None => 0,
        }
    }

    /// The keys under this name, in the order of adding: those of some pieces, and those behind them.
    pub fn of(&self, name: &Name) -> (&[Sequence<Key>], &[Key])
        ensures { joined result.0.now ++ result.1.now ≡ of self.now name.now }
    {
        match self.hints.find(&self.lists, name) {
            Some(keys) => keys.parts(),
            None => (&[], &[]),
        }
    }

    /// The nth key under this name, counted from 0.
    pub fn nth(&self, name: &Name, n: usize) -> Option<Key>
        ensures { result ≡ slice_get (of self.now name.now) n }
    {
        let (pieces, last) = self.of(name);
        pieces::nth(pieces, last, n)
    }

    /// Adds a key under this name, as its last. It doesn't stand there. At an error nothing changes.
    pub fn add_new(&mut self, name: &Name, key: Key) -> Result<(), AllocError>
        requires new { length (filter (is_key key) (of self.old name.now)) ≡ 0 }
        ensures ok { OnOk result (AddsTo name.now key self.old self.new) }
        ensures err { OnErr result (SameLists self.old self.new) }
    {
        match self.lists.get_mut(name) {
            Some(keys) => {
                keys.push(self.alloc, key)?;
                Ok(())
            }
            None => self.add_first(name, key),
        }
    }

    // Adds the first key under this name.
    fn add_first(&mut self, name: &Name, key: Key) -> Result<(), AllocError>
        requires { of self.old name.now ≡ [] }
        ensures ok { OnOk result (AddsTo name.now key self.old self.new) }
        ensures err { OnErr result (SameLists self.old self.new) }
    {
        let Ok(copy) = name.copy() else {
            return Err(AllocError);
        };
        let mut keys = ApartKeys::new();
        keys.push(self.alloc, key)?;
        match self.lists.insert(copy, keys) {
            Ok(_) => {
                self.hints.note_last(&self.lists);
                Ok(())
            }
            Err(_) => Err(AllocError),
        }
    }

    /// Removes a key under this name, if it stands there. This takes no memory. It moves no more than some hundred
    /// others, and needs no walk where the keys were added as their IDs or owners rise, or as the rows were that
    /// stand under them; nothing else is taken from the rows.
    pub fn remove<V>(&mut self, name: &Name, key: Key, rows: &RowMap<V>)
        ensures { RemovesFrom name.now key self.old self.new }
    {
        let Some(keys) = self.lists.get_mut(name) else {
            return;
        };
        keys.remove(self.alloc, key, rows);
        if keys.is_empty() {
            forget(&mut self.lists, &mut self.hints, name);
        }
    }
}

// Takes out a list, with its name. The last one stands in its place then.
fn forget(lists: &mut IndexMap<Name, ApartKeys>, hints: &mut NameHints, name: &Name)
    ensures lists { (n : List ℕ) → get bytes_eq lists.new n ≡ (if bytes_eq name.now n then None else get bytes_eq lists.old n) }
    ensures hints { hints.old ≤ 4 * index_map_len lists.old + 16 → hints.new ≤ 4 * index_map_len lists.new + 16 }
{
    if let Some((place, _, _)) = lists.swap_remove_full(name) {
        hints.note(lists, place);
    }
}
