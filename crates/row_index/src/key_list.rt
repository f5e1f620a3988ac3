//! Keys in the order of adding.
ghost use Rattle.std.specs.Prelude.{◌≡◌, ◌==◌, [], ◌∷◌, ◌++◌, IsTrue, OnOk, OnErr, IfOk, length};
ghost use Rattle.std.specs.List.{filter};
ghost use Rattle.row_index.specs.HeldKeys.{keys_in};
ghost use Rattle.row_index.specs.Lists.{is_key, is_not_key};

use crate::key::Key;
use crate::long_keys::LongKeys;
use std::alloc::{AllocError, Global};
use std::marker::Model;
use std::slice;

/// Keys in the order of adding. Most lists have one, which takes no block of memory of its own.
#[derive(Drop)]
pub(crate) struct KeyList {
    held: Keys,
}

#[derive(Drop)]
enum Keys {
    Nothing,
    Single(Key),
    Many(Box<LongKeys>),
}

impl Model for KeyList {
    ghost use Rattle.std.specs.Prelude.{List};
    ghost use Rattle.row_index.specs.declared.key.Key.{Key as RowKey};
    ghost use Rattle.row_index.specs.HeldKeys.{keys_in};

    ghost Value = { List RowKey };

    ghost view = { λ l. keys_in l.held };
}

impl KeyList {
    pub(crate) fn new() -> KeyList
        ensures { result ≡ [] }
    {
        KeyList {
            held: Keys::Nothing,
        }
    }

    pub(crate) fn as_slice(&self) -> &[Key]
        ensures { result.now ≡ self.now }
    {
        match &self.held {
            Keys::Nothing => &[],
            Keys::Single(key) => slice::from_ref(key),
            Keys::Many(keys) => keys.as_slice(),
        }
    }

    pub(crate) fn is_empty(&self) -> bool
        ensures { result ≡ length self.now == 0 }
    {
        self.as_slice().is_empty()
    }

    /// Adds a key, which isn't looked for where the caller says that it is new.
    pub(crate) fn push(&mut self, alloc: Global, key: Key, is_new: bool) -> Result<(), AllocError>
        requires new { IsTrue is_new → length (filter (is_key key) self.old) ≡ 0 }
        ensures ok { OnOk result (self.new ≡ self.old ++ key ∷ []) }
        ensures err { OnErr result (self.new ≡ self.old) }
    {
        match &mut self.held {
            Keys::Nothing => {
                self.held = Keys::Single(key);
                Ok(())
            }
            Keys::Single(first) => {
                self.held = both(alloc, *first, key)?;
                Ok(())
            }
            Keys::Many(keys) => keys.push(key, is_new),
        }
    }

    pub(crate) fn remove(&mut self, key: Key)
        ensures { self.new ≡ filter (is_not_key key) self.old }
    {
        match &mut self.held {
            Keys::Nothing => {}
            Keys::Single(only) => self.held = unless(*only, key),
            Keys::Many(keys) => keys.remove(key),
        }
    }
}

fn both(alloc: Global, first: Key, second: Key) -> Result<Keys, AllocError>
    ensures { IfOk result (λ keys. keys_in keys ≡ first ∷ second ∷ []) }
{
    let keys = LongKeys::of_two(alloc, first, second)?;
    Ok(Keys::Many(Box::new(alloc, keys)?))
}

// The only key, unless it is this one.
fn unless(only: Key, key: Key) -> Keys
    ensures { keys_in result ≡ filter (is_not_key key) (only ∷ []) }
{
    if only == key {
        Keys::Nothing
    } else {
        Keys::Single(only)
    }
}
