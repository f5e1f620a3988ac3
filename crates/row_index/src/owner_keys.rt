//! Lists of keys by owners.
ghost use Rattle.std.specs.Prelude.{◌≡◌, ℕ, [], None, OnOk, OnErr, nat_eq, if◌then◌else◌};
ghost use Rattle.indexmap.specs.IndexMap.{get};
ghost use Rattle.row_index.specs.Lists.{of_owner, AddsToOwner, RemovesFromOwner, SameOwnerLists};

use crate::key::Key;
use crate::key_list::KeyList;
use indexmap::IndexMap;
use std::alloc::{AllocError, Global};
use std::marker::Model;

/// The keys of each owner, by its number, in the order of adding. An owner without a key takes no memory.
#[derive(Drop)]
pub struct OwnerKeys {
    lists: IndexMap<u32, KeyList>,
    alloc: Global,
}

impl Model for OwnerKeys {
    ghost use Rattle.std.specs.Prelude.{ℕ, List, nat_eq};
    ghost use Rattle.row_index.specs.declared.key.Key.{Key as RowKey};
    ghost use Rattle.row_index.specs.Lists.{HasNoEmptyList};

    ghost Value = { List (ℕ × List RowKey) };

    ghost view = { λ l. l.lists.entries };

    ghost invariant = { λ l. HasNoEmptyList nat_eq l.lists.entries };
}

impl OwnerKeys {
    /// No key. This takes no memory.
    pub fn new(alloc: Global) -> OwnerKeys
        ensures { (owner : ℕ) → of_owner result owner ≡ [] }
    {
        OwnerKeys {
            lists: IndexMap::new(alloc),
            alloc,
        }
    }

    /// The keys of this owner, in the order of adding.
    pub fn of(&self, owner: u32) -> &[Key]
        ensures { result.now ≡ of_owner self.now owner }
    {
        match self.lists.get(&owner) {
            Some(keys) => keys.as_slice(),
            None => &[],
        }
    }

    /// Adds a key to those of this owner, as its last. At an error nothing changes.
    pub fn add(&mut self, owner: u32, key: Key) -> Result<(), AllocError>
        ensures ok { OnOk result (AddsToOwner owner key self.old self.new) }
        ensures err { OnErr result (SameOwnerLists self.old self.new) }
    {
        match self.lists.get_mut(&owner) {
            Some(keys) => {
                keys.push(self.alloc, key, false)?;
                Ok(())
            }
            None => self.add_first(owner, key),
        }
    }

    // Adds the first key of this owner.
    fn add_first(&mut self, owner: u32, key: Key) -> Result<(), AllocError>
        requires { of_owner self.old owner ≡ [] }
        ensures ok { OnOk result (AddsToOwner owner key self.old self.new) }
        ensures err { OnErr result (SameOwnerLists self.old self.new) }
    {
        let mut keys = KeyList::new();
        keys.push(self.alloc, key, false)?;
        match self.lists.insert(owner, keys) {
            Ok(_) => Ok(()),
            Err(_) => Err(AllocError),
        }
    }

    /// Removes a key of this owner, if it stands there. This takes no memory. The first one and the last,
    /// and where IDs or owners rise with adding any, goes without a walk.
    pub fn remove(&mut self, owner: u32, key: Key)
        ensures { RemovesFromOwner owner key self.old self.new }
    {
        let Some(keys) = self.lists.get_mut(&owner) else {
            return;
        };
        keys.remove(key);
        if keys.is_empty() {
            forget(&mut self.lists, owner);
        }
    }
}

// Takes out an owner's list.
fn forget(lists: &mut IndexMap<u32, KeyList>, owner: u32)
    ensures { (o : ℕ) → get nat_eq lists.new o ≡ (if nat_eq owner o then None else get nat_eq lists.old o) }
{
    lists.swap_remove(&owner);
}
