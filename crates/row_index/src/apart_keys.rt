//! Keys in the order of adding, each of them once.
ghost use Rattle.std.specs.Prelude.{◌≡◌, ◌==◌, [], ◌∷◌, ◌++◌, IfOk, OnOk, OnErr, length};
ghost use Rattle.std.specs.List.{filter};
ghost use Rattle.row_index.specs.HeldApart.{held_in};
ghost use Rattle.row_index.specs.Lists.{is_key, is_not_key};
ghost use Rattle.row_index.specs.Pieces.{joined};

use crate::key::Key;
use crate::pieces::MOST;
use crate::row_map::RowMap;
use crate::sequence::Sequence;
use crate::tall_keys::TallKeys;
use std::alloc::{AllocError, Global};
use std::marker::Model;
use std::{mem, slice};

/// Keys in the order of adding, each of them once. However many there are, one goes at little cost. One
/// alone takes no block of memory of its own.
#[derive(Drop)]
pub(crate) struct ApartKeys {
    held: Held,
}

#[derive(Drop)]
enum Held {
    Nothing,
    Single(Key),
    Many(Box<Sequence<Key>>),
    Tall(Box<TallKeys>),
}

impl Model for ApartKeys {
    ghost use Rattle.std.specs.Prelude.{List};
    ghost use Rattle.row_index.specs.declared.key.Key.{Key as RowKey};
    ghost use Rattle.row_index.specs.HeldApart.{held_in};
    ghost use Rattle.row_index.specs.KeyLists.{AreApart};

    ghost Value = { List RowKey };

    ghost view = { λ l. held_in l.held };

    ghost invariant = { λ l. AreApart (held_in l.held) };
}

impl ApartKeys {
    pub(crate) fn new() -> ApartKeys
        ensures { result ≡ [] }
    {
        ApartKeys {
            held: Held::Nothing,
        }
    }

    pub(crate) fn len(&self) -> usize
        ensures { result ≡ length self.now }
    {
        match &self.held {
            Held::Nothing => 0,
            Held::Single(_) => 1,
            Held::Many(keys) => keys.as_slice().len(),
            Held::Tall(keys) => keys.len(),
        }
    }

    pub(crate) fn is_empty(&self) -> bool
        ensures { result ≡ length self.now == 0 }
    {
        self.len() == 0
    }

    /// The keys: those of some pieces, and those behind them.
    pub(crate) fn parts(&self) -> (&[Sequence<Key>], &[Key])
        ensures { joined result.0.now ++ result.1.now ≡ self.now }
    {
        match &self.held {
            Held::Nothing => (&[], &[]),
            Held::Single(key) => (&[], slice::from_ref(key)),
            Held::Many(keys) => (&[], keys.as_slice()),
            Held::Tall(keys) => keys.parts(),
        }
    }

    /// Adds a key that doesn't stand there.
    pub(crate) fn push(&mut self, alloc: Global, key: Key) -> Result<(), AllocError>
        requires new { length (filter (is_key key) self.old) ≡ 0 }
        ensures ok { OnOk result (self.new ≡ self.old ++ key ∷ []) }
        ensures err { OnErr result (self.new ≡ self.old) }
    {
        push(&mut self.held, alloc, key)
    }

    /// Removes a key, if it stands there. The rows show where to search for it.
    pub(crate) fn remove<V>(&mut self, alloc: Global, key: Key, rows: &RowMap<V>)
        ensures { self.new ≡ filter (is_not_key key) self.old }
    {
        match &mut self.held {
            Held::Nothing => {}
            Held::Single(only) => self.held = unless(*only, key),
            Held::Many(keys) => keys.remove_only(key),
            Held::Tall(keys) => keys.remove(alloc, key, rows),
        }
    }
}

// Adds a key, as the last one of those that are held.
fn push(held: &mut Held, alloc: Global, key: Key) -> Result<(), AllocError>
    ensures ok { OnOk result (held_in held.new ≡ held_in held.old ++ key ∷ []) }
    ensures err { OnErr result (held_in held.new ≡ held_in held.old) }
{
    grow(held, alloc)?;
    match held {
        Held::Nothing => {
            *held = Held::Single(key);
            Ok(())
        }
        Held::Single(first) => {
            *held = both(alloc, *first, key)?;
            Ok(())
        }
        Held::Many(keys) => keys.push(key),
        Held::Tall(keys) => keys.push(alloc, key),
    }
}

// Keys stand in pieces once they are many.
fn grow(held: &mut Held, alloc: Global) -> Result<(), AllocError>
    ensures { held_in held.new ≡ held_in held.old }
{
    if let Held::Many(keys) = held {
        if keys.as_slice().len() >= MOST {
            let mut tall = Box::new(alloc, TallKeys::new(alloc))?;
            tall.begin(mem::replace(&mut **keys, Sequence::new(alloc)));
            *held = Held::Tall(tall);
        }
    }
    Ok(())
}

// Two keys, which take a block of memory.
fn both(alloc: Global, first: Key, second: Key) -> Result<Held, AllocError>
    ensures { IfOk result (λ held. held_in held ≡ first ∷ second ∷ []) }
{
    let keys = Sequence::of_two(alloc, first, second)?;
    Ok(Held::Many(Box::new(alloc, keys)?))
}

// The only key, unless it is this one.
fn unless(only: Key, key: Key) -> Held
    ensures { held_in result ≡ filter (is_not_key key) (only ∷ []) }
{
    if only == key {
        Held::Nothing
    } else {
        Held::Single(only)
    }
}
