//! Lists that give up their first ones.
ghost use Rattle.std.specs.Prelude.{◌≡◌, ◌<◌, ◌≤◌, ◌*◌, suc, [], ◌∷◌, ◌++◌, IfOk, OnOk, OnErr, length, take, drop};
ghost use Rattle.std.specs.List.{filter};
ghost use Rattle.row_index.specs.Lists.{is_key, is_not_id, is_not_key};

use crate::key::Key;
use crate::places::place_in;
use std::alloc::{AllocError, Global};
use std::marker::Model;

/// A list in the order of adding. The first one goes without moving the others; at most half of the
/// memory is for such as went.
#[derive(Drop)]
pub struct Sequence<X> {
    items: Vec<X>,
    gone: usize,
}

impl<X> Model for Sequence<X> {
    ghost use Rattle.std.specs.Prelude.{◌≤◌, ◌*◌, List, length, drop};

    ghost Value = { List X };

    ghost view = { λ l. drop l.gone l.items.items };

    ghost invariant = { λ l. 2 * l.gone ≤ length l.items.items };
}

impl<X: Copy> Sequence<X> {
    pub(crate) fn new(alloc: Global) -> Sequence<X>
        ensures { result ≡ [] }
    {
        Sequence {
            items: Vec::new(alloc),
            gone: 0,
        }
    }

    pub(crate) fn of_two(alloc: Global, first: X, second: X) -> Result<Sequence<X>, AllocError>
        ensures { IfOk result (λ list. list ≡ first ∷ second ∷ []) }
    {
        let mut list = Sequence::new(alloc);
        list.push(first)?;
        list.push(second)?;
        Ok(list)
    }

    /// The list.
    pub fn as_slice(&self) -> &[X]
        ensures { result.now ≡ self.now }
    {
        &self.items[self.gone..]
    }

    pub(crate) fn push(&mut self, one: X) -> Result<(), AllocError>
        ensures ok { OnOk result (self.new ≡ self.old ++ one ∷ []) }
        ensures err { OnErr result (self.new ≡ self.old) }
    {
        self.items.push(one)?;
        Ok(())
    }

    /// Adds these as the last ones.
    pub(crate) fn extend(&mut self, more: &[X]) -> Result<(), AllocError>
        ensures ok { OnOk result (self.new ≡ self.old ++ more.now) }
        ensures err { OnErr result (self.new ≡ self.old) }
    {
        self.items.extend_from_slice(more)?;
        Ok(())
    }

    /// Takes out the one at this place. Those behind it move, but where it is the first.
    pub(crate) fn remove(&mut self, place: usize)
        requires { place < length self.old }
        ensures { self.new ≡ take place self.old ++ drop (suc place) self.old }
    {
        if place == 0 {
            self.gone += 1;
        } else {
            self.items.remove(self.gone + place);
        }
        tighten(&mut self.items, &mut self.gone);
    }
}

impl Sequence<Key> {
    /// Takes out a key wherever it stands. This walks all.
    pub(crate) fn remove_all(&mut self, key: Key)
        ensures { self.new ≡ filter (is_not_key key) self.old }
    {
        squeeze(&mut self.items, self.gone);
        self.gone = 0;
        keep_other_keys(&mut self.items, key);
    }

    /// Takes out a key that stands there once at most. Those behind it move, but where it is the first.
    pub(crate) fn remove_only(&mut self, key: Key)
        requires once { length (filter (is_key key) self.old) ≤ 1 }
        ensures { self.new ≡ filter (is_not_key key) self.old }
    {
        match place_in(self.as_slice(), key) {
            Some(place) => self.remove(place),
            None => self.remove_all(key),
        }
    }
}

impl Sequence<u32> {
    /// Takes out an ID wherever it stands. This walks all.
    pub(crate) fn remove_all(&mut self, id: u32)
        ensures { self.new ≡ filter (is_not_id id) self.old }
    {
        squeeze(&mut self.items, self.gone);
        self.gone = 0;
        keep_other_ids(&mut self.items, id);
    }
}

// Gives back the memory of those that went, once they are more than half.
fn tighten<X: Copy>(items: &mut Vec<X>, gone: &mut usize)
    requires { gone.old ≤ length items.old.items }
    ensures same { drop gone.new items.new.items ≡ drop gone.old items.old.items }
    ensures few { 2 * gone.new ≤ length items.new.items }
{
    if *gone > items.len() / 2 {
        squeeze(items, *gone);
        *gone = 0;
    }
}

// Takes the first ones out.
fn squeeze<X: Copy>(items: &mut Vec<X>, gone: usize)
    requires { gone ≤ length items.old.items }
    ensures { items.new.items ≡ drop gone items.old.items }
{
    items.rotate_left(gone);
    items.truncate(items.len() - gone);
}

fn keep_other_keys(keys: &mut Vec<Key>, key: Key)
    ensures { keys.new.items ≡ filter (is_not_key key) keys.old.items }
{
    keys.retain(|other| *other != key);
}

fn keep_other_ids(ids: &mut Vec<u32>, id: u32)
    ensures { ids.new.items ≡ filter (is_not_id id) ids.old.items }
{
    ids.retain(|other| *other != id);
}
