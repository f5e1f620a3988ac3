//! Lists of IDs by owners.
ghost use Rattle.std.specs.Prelude.{◌≡◌, ◌≤◌, ◌+◌, ◌*◌, max, ℕ, [], None, OnOk, OnErr, nat_eq, length, if◌then◌else◌};
ghost use Rattle.std.specs.List.{filter};
ghost use Rattle.std.specs.Option.{option_copied};
ghost use Rattle.indexmap.specs.IndexMap.{get, index_map_len};
ghost use Rattle.row_index.specs.Lists.{of_owner, is_id, is_not_id, AddsToOwner, SameOwnerLists, Changes};

use crate::hints::Hints;
use crate::id_list::IdList;
use crate::key::Key;
use indexmap::IndexMap;
use std::alloc::{AllocError, Global};
use std::marker::Model;

/// The IDs of each owner, by its number, in the order of adding. An owner without one takes no memory.
#[derive(Drop)]
pub(crate) struct OwnerIds {
    lists: IndexMap<u32, IdList>,
    hints: Hints,
    alloc: Global,
}

impl Model for OwnerIds {
    ghost use Rattle.std.specs.Prelude.{ℕ, List, nat_eq};
    ghost use Rattle.row_index.specs.Lists.{IsKept};

    ghost Value = { List (ℕ × List ℕ) };

    ghost view = { λ l. l.lists.entries };

    ghost invariant = { λ l. IsKept nat_eq l.lists.entries l.hints };
}

impl OwnerIds {
    /// No ID. This takes no memory.
    pub(crate) fn new(alloc: Global) -> OwnerIds
        ensures { (owner : ℕ) → of_owner result owner ≡ [] }
    {
        OwnerIds {
            lists: IndexMap::new(alloc),
            hints: Hints::new(alloc),
            alloc,
        }
    }

    /// The IDs of this owner, in the order of adding.
    pub(crate) fn of(&self, owner: u32) -> &[u32]
        ensures { result.now ≡ of_owner self.now owner }
    {
        match found(&self.lists, &self.hints, owner) {
            Some(ids) => ids.as_slice(),
            None => &[],
        }
    }

    /// Adds an ID to those of this owner, as its last. At an error nothing changes.
    pub(crate) fn add(&mut self, owner: u32, id: u32) -> Result<(), AllocError>
        ensures ok { OnOk result (AddsToOwner owner id self.old self.new) }
        ensures err { OnErr result (SameOwnerLists self.old self.new) }
    {
        match self.lists.get_mut(&owner) {
            Some(ids) => {
                ids.push(self.alloc, id)?;
                Ok(())
            }
            None => self.add_first(owner, id),
        }
    }

    // Adds the first ID of this owner.
    fn add_first(&mut self, owner: u32, id: u32) -> Result<(), AllocError>
        requires { of_owner self.old owner ≡ [] }
        ensures ok { OnOk result (AddsToOwner owner id self.old self.new) }
        ensures err { OnErr result (SameOwnerLists self.old self.new) }
    {
        let mut ids = IdList::new();
        ids.push(self.alloc, id)?;
        match self.lists.insert(owner, ids) {
            Ok(_) => {
                note_last(&mut self.hints, &self.lists);
                Ok(())
            }
            Err(_) => Err(AllocError),
        }
    }

    /// Removes an ID that the owner has once at most. The one that was added last, and where IDs rise
    /// any, goes without a walk.
    pub(crate) fn remove(&mut self, owner: u32, id: u32)
        requires { length (filter (is_id id) (of_owner self.old owner)) ≤ 1 }
        ensures { Changes nat_eq owner (filter (is_not_id id)) self.old self.new }
    {
        let Some(ids) = self.lists.get_mut(&owner) else {
            return;
        };
        ids.remove(id);
        if ids.is_empty() {
            forget(&mut self.lists, &mut self.hints, owner);
        }
    }
}

// What is listed under an owner, mostly found by a hint.
fn found<'a>(lists: &'a IndexMap<u32, IdList>, hints: &Hints, owner: u32) -> Option<&'a IdList>
    ensures { option_copied result ≡ get nat_eq lists.now owner }
{
    match lists.get_index(hints.first(alone(owner))) {
        Some((known, ids)) if *known == owner => Some(ids),
        _ => lists.get(&owner),
    }
}

// The key whose first spot goes by the owner.
fn alone(owner: u32) -> Key {
    Key { owner, id: 0 }
}

// Notes where the owner stands that this place has now, if any.
fn note(hints: &mut Hints, lists: &IndexMap<u32, IdList>, place: usize)
    ensures { hints.new ≡ hints.old }
{
    if let Some((owner, _)) = lists.get_index(place) {
        hints.note_first(alone(*owner), place);
    }
}

// Notes where the last owner stands, and where all others do if there are more spots now.
fn note_last(hints: &mut Hints, lists: &IndexMap<u32, IdList>)
    ensures { hints.new ≤ max hints.old (4 * index_map_len lists.now + 16) }
{
    if hints.widen(lists.len()) {
        note_all(hints, lists);
    } else {
        note(hints, lists, lists.len().saturating_sub(1));
    }
}

// Notes where all owners stand.
fn note_all(hints: &mut Hints, lists: &IndexMap<u32, IdList>)
    ensures { hints.new ≤ 4 * index_map_len lists.now + 16 }
{
    hints.begin(lists.len());
    for place in 0..lists.len() {
        note(hints, lists, place);
    }
}

// Notes where the owner stands that this place has now, and where all do if too many spots are left over.
fn note_moved(hints: &mut Hints, lists: &IndexMap<u32, IdList>, place: usize)
    ensures { hints.new ≤ 4 * index_map_len lists.now + 16 }
{
    if hints.is_wide(lists.len()) {
        note_all(hints, lists);
    } else {
        note(hints, lists, place);
    }
}

// Takes out an owner's list. The last one stands in its place then.
fn forget(lists: &mut IndexMap<u32, IdList>, hints: &mut Hints, owner: u32)
    ensures lists { (o : ℕ) → get nat_eq lists.new o ≡ (if nat_eq owner o then None else get nat_eq lists.old o) }
    ensures hints { hints.old ≤ 4 * index_map_len lists.old + 16 → hints.new ≤ 4 * index_map_len lists.new + 16 }
{
    if let Some((place, _, _)) = lists.swap_remove_full(&owner) {
        note_moved(hints, lists, place);
    }
}
