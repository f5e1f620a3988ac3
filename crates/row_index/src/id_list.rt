//! IDs in the order of adding.
ghost use Rattle.std.specs.Prelude.{◌≡◌, ◌==◌, ◌≤◌, [], ◌∷◌, ◌++◌, IsTrue, OnOk, OnErr, IfOk, IfSome, length, slice_get, Some};
ghost use Rattle.std.specs.List.{filter};
ghost use Rattle.row_index.specs.HeldIds.{ids_in};
ghost use Rattle.row_index.specs.Lists.{is_id, is_not_id};

use crate::sequence::Sequence;
use std::alloc::{AllocError, Global};
use std::marker::Model;
use std::slice;

/// IDs in the order of adding. One alone takes no block of memory of its own.
#[derive(Drop)]
pub(crate) struct IdList {
    held: Ids,
}

#[derive(Drop)]
enum Ids {
    Nothing,
    Single(u32),
    Many(Box<Sequence<u32>>),
}

impl Model for IdList {
    ghost use Rattle.std.specs.Prelude.{ℕ, List};
    ghost use Rattle.row_index.specs.HeldIds.{ids_in};

    ghost Value = { List ℕ };

    ghost view = { λ l. ids_in l.held };
}

impl IdList {
    pub(crate) fn new() -> IdList
        ensures { result ≡ [] }
    {
        IdList { held: Ids::Nothing }
    }

    pub(crate) fn as_slice(&self) -> &[u32]
        ensures { result.now ≡ self.now }
    {
        match &self.held {
            Ids::Nothing => &[],
            Ids::Single(id) => slice::from_ref(id),
            Ids::Many(ids) => ids.as_slice(),
        }
    }

    pub(crate) fn is_empty(&self) -> bool
        ensures { result ≡ length self.now == 0 }
    {
        self.as_slice().is_empty()
    }

    pub(crate) fn push(&mut self, alloc: Global, id: u32) -> Result<(), AllocError>
        ensures ok { OnOk result (self.new ≡ self.old ++ id ∷ []) }
        ensures err { OnErr result (self.new ≡ self.old) }
    {
        match &mut self.held {
            Ids::Nothing => {
                self.held = Ids::Single(id);
                Ok(())
            }
            Ids::Single(first) => {
                self.held = both(alloc, *first, id)?;
                Ok(())
            }
            Ids::Many(ids) => ids.push(id),
        }
    }

    /// Takes out an ID that stands there once at most. The one that was added last, and where IDs
    /// rise any, goes without a walk.
    pub(crate) fn remove(&mut self, id: u32)
        requires { length (filter (is_id id) self.old) ≤ 1 }
        ensures { self.new ≡ filter (is_not_id id) self.old }
    {
        match &mut self.held {
            Ids::Nothing => {}
            Ids::Single(only) => self.held = unless(*only, id),
            Ids::Many(ids) => remove_id(ids, id),
        }
    }
}

fn both(alloc: Global, first: u32, second: u32) -> Result<Ids, AllocError>
    ensures { IfOk result (λ ids. ids_in ids ≡ first ∷ second ∷ []) }
{
    let ids = Sequence::of_two(alloc, first, second)?;
    Ok(Ids::Many(Box::new(alloc, ids)?))
}

// The only ID, unless it is this one.
fn unless(only: u32, id: u32) -> Ids
    ensures { ids_in result ≡ filter (is_not_id id) (only ∷ []) }
{
    if only == id {
        Ids::Nothing
    } else {
        Ids::Single(only)
    }
}

fn remove_id(ids: &mut Sequence<u32>, id: u32)
    requires { length (filter (is_id id) ids.old) ≤ 1 }
    ensures { ids.new ≡ filter (is_not_id id) ids.old }
{
    match place_of(ids.as_slice(), id) {
        Some(place) => ids.remove(place),
        None => ids.remove_all(id),
    }
}

// A place of an ID: the last, or what a search finds among IDs that rise, or else a walk.
fn place_of(ids: &[u32], id: u32) -> Option<usize>
    ensures { IfSome result (λ place. slice_get ids.now place ≡ Some id) }
{
    let last = ids.len().saturating_sub(1);
    if is_at(ids, last, id) {
        return Some(last);
    }
    let among = among_rising(ids, id);
    if is_at(ids, among, id) {
        Some(among)
    } else {
        walked(ids, id)
    }
}

fn among_rising(ids: &[u32], id: u32) -> usize {
    match ids.binary_search(&id) {
        Ok(place) => place,
        Err(place) => place,
    }
}

fn walked(ids: &[u32], id: u32) -> Option<usize>
    ensures { IfSome result (λ place. slice_get ids.now place ≡ Some id) }
{
    match ids.iter().position(|other| *other == id) {
        Some(place) if is_at(ids, place, id) => Some(place),
        _ => None,
    }
}

fn is_at(ids: &[u32], place: usize, id: u32) -> bool
    ensures { IsTrue result → slice_get ids.now place ≡ Some id }
{
    match ids.get(place) {
        Some(other) => *other == id,
        None => false,
    }
}
