//! Lists of keys by names.
ghost use Rattle.std.specs.Prelude.{◌≡◌, ◌≤◌, ◌+◌, ◌*◌, ℕ, List, [], None, IsTrue, OnOk, OnErr, bytes_eq, length, if◌then◌else◌};
ghost use Rattle.std.specs.List.{filter};
ghost use Rattle.indexmap.specs.IndexMap.{get, index_map_len};
ghost use Rattle.row_index.specs.Lists.{is_key, of, AddsTo, RemovesFrom, SameLists};

use crate::key::Key;
use crate::key_list::KeyList;
use crate::name_hints::NameHints;
use indexmap::IndexMap;
use pv_name::Name;
use std::alloc::{AllocError, Global};
use std::marker::Model;

/// Lists of keys, each under a name, in the order of adding. A name with no key takes no memory but a
/// hint's.
#[derive(Drop)]
pub struct NameLists {
    lists: IndexMap<Name, KeyList>,
    hints: NameHints,
    alloc: Global,
}

impl Model for NameLists {
    ghost use Rattle.std.specs.Prelude.{ℕ, List};
    ghost use Rattle.std.specs.Prelude.{bytes_eq};
    ghost use Rattle.row_index.specs.declared.key.Key.{Key as RowKey};
    ghost use Rattle.row_index.specs.Lists.{IsKept};

    ghost Value = { List (List ℕ × List RowKey) };

    ghost view = { λ l. l.lists.entries };

    ghost invariant = { λ l. IsKept bytes_eq l.lists.entries l.hints };
}

impl NameLists {
    /// No key. This takes no memory.
    pub fn new(alloc: Global) -> NameLists
        ensures { (name : List ℕ) → of result name ≡ [] }
    {
        NameLists {
            lists: IndexMap::new(alloc),
            hints: NameHints::new(alloc),
            alloc,
        }
    }

    /// The keys under this name, in the order of adding.
    pub fn of(&self, name: &Name) -> &[Key]
        ensures { result.now ≡ of self.now name.now }
    {
        match self.hints.find(&self.lists, name) {
            Some(keys) => keys.as_slice(),
            None => &[],
        }
    }

    /// Adds a key under this name, as its last. At an error nothing changes.
    pub fn add(&mut self, name: &Name, key: Key) -> Result<(), AllocError>
        ensures ok { OnOk result (AddsTo name.now key self.old self.new) }
        ensures err { OnErr result (SameLists self.old self.new) }
    {
        self.put(name, key, false)
    }

    /// The same of a key that doesn't stand under this name, so that none that does is looked at.
    pub fn add_new(&mut self, name: &Name, key: Key) -> Result<(), AllocError>
        requires new { length (filter (is_key key) (of self.old name.now)) ≡ 0 }
        ensures ok { OnOk result (AddsTo name.now key self.old self.new) }
        ensures err { OnErr result (SameLists self.old self.new) }
    {
        self.put(name, key, true)
    }

    fn put(&mut self, name: &Name, key: Key, is_new: bool) -> Result<(), AllocError>
        requires new { IsTrue is_new → length (filter (is_key key) (of self.old name.now)) ≡ 0 }
        ensures ok { OnOk result (AddsTo name.now key self.old self.new) }
        ensures err { OnErr result (SameLists self.old self.new) }
    {
        match self.lists.get_mut(name) {
            Some(keys) => {
                keys.push(self.alloc, key, is_new)?;
                Ok(())
            }
            None => self.add_first(name, key),
        }
    }

    // Adds the first key under this name.
    fn add_first(&mut self, name: &Name, key: Key) -> Result<(), AllocError>
        requires { of self.old name.now ≡ [] }
        ensures ok { OnOk result (AddsTo name.now key self.old self.new) }
        ensures err { OnErr result (SameLists self.old self.new) }
    {
        let Ok(copy) = name.copy() else {
            return Err(AllocError);
        };
        let mut keys = KeyList::new();
        keys.push(self.alloc, key, false)?;
        match self.lists.insert(copy, keys) {
            Ok(_) => {
                self.hints.note_last(&self.lists);
                Ok(())
            }
            Err(_) => Err(AllocError),
        }
    }

    /// Removes a key under this name, if it stands there. This takes no memory. The first one and the last, and where
    /// IDs or owners rise with adding any, goes without a walk.
    pub fn remove(&mut self, name: &Name, key: Key)
        ensures { RemovesFrom name.now key self.old self.new }
    {
        let Some(keys) = self.lists.get_mut(name) else {
            return;
        };
        keys.remove(key);
        if keys.is_empty() {
            forget(&mut self.lists, &mut self.hints, name);
        }
    }
}

// Takes out a list, with its name. The last one stands in its place then.
fn forget(lists: &mut IndexMap<Name, KeyList>, hints: &mut NameHints, name: &Name)
    ensures lists { (n : List ℕ) → get bytes_eq lists.new n ≡ (if bytes_eq name.now n then None else get bytes_eq lists.old n) }
    ensures hints { hints.old ≤ 4 * index_map_len lists.old + 16 → hints.new ≤ 4 * index_map_len lists.new + 16 }
{
    if let Some((place, _, _)) = lists.swap_remove_full(name) {
        hints.note(lists, place);
    }
}
