//! Two keys and more in the order of adding.
ghost use Rattle.std.specs.Prelude.{◌≡◌, ◌≤◌, suc, [], ◌∷◌, ◌++◌, All, IsTrue, OnOk, OnErr, IfOk, IfSome, length, slice_get, take, drop, Some};
ghost use Rattle.std.specs.List.{filter};
ghost use Rattle.row_index.specs.KeyLists.{AreApart, IsUpTo};
ghost use Rattle.row_index.specs.Lists.{is_key, is_not_key};

use crate::key::Key;
use crate::places::place_in;
use crate::sequence::Sequence;
use std::alloc::{AllocError, Global};
use std::marker::Model;

/// Keys in the order of adding, for lists that had two of them. As long as each stands there once, one
/// goes without a walk where it is at an end, and where the IDs or the owners rise.
#[derive(Drop)]
pub(crate) struct LongKeys {
    keys: Sequence<Key>,
    top: Key,
    /// The top without the last key, which is the one that goes soonest.
    under: Key,
    apart: bool,
}

impl Model for LongKeys {
    ghost use Rattle.std.specs.Prelude.{List};
    ghost use Rattle.row_index.specs.declared.key.Key.{Key as RowKey};
    ghost use Rattle.row_index.specs.KeyLists.{AreKnown};

    ghost Value = { List RowKey };

    ghost view = { λ l. l.keys };

    ghost invariant = { λ l. AreKnown l.top l.under l.apart l.keys };
}

impl LongKeys {
    fn new(alloc: Global) -> LongKeys
        ensures { result ≡ [] }
    {
        let none = Key { owner: 0, id: 0 };
        LongKeys {
            keys: Sequence::new(alloc),
            top: none,
            under: none,
            apart: true,
        }
    }

    pub(crate) fn of_two(alloc: Global, first: Key, second: Key) -> Result<LongKeys, AllocError>
        ensures { IfOk result (λ keys. keys ≡ first ∷ second ∷ []) }
    {
        let mut keys = LongKeys::new(alloc);
        keys.push(first, false)?;
        keys.push(second, false)?;
        Ok(keys)
    }

    pub(crate) fn as_slice(&self) -> &[Key]
        ensures { result.now ≡ self.now }
    {
        self.keys.as_slice()
    }

    /// Adds a key, which isn't looked for where the caller says that it is new.
    pub(crate) fn push(&mut self, key: Key, is_new: bool) -> Result<(), AllocError>
        requires new { IsTrue is_new → length (filter (is_key key) self.old) ≡ 0 }
        ensures ok { OnOk result (self.new ≡ self.old ++ key ∷ []) }
        ensures err { OnErr result (self.new ≡ self.old) }
    {
        let apart = self.stays_apart(key, is_new);
        self.keys.push(key)?;
        self.apart = apart;
        self.under = self.top;
        self.top = raised(self.top, key);
        Ok(())
    }

    pub(crate) fn remove(&mut self, key: Key)
        ensures { self.new ≡ filter (is_not_key key) self.old }
    {
        match self.place_of(key) {
            Some(place) => {
                let top = self.top_without(place);
                self.keys.remove(place);
                self.top = top;
            }
            None => self.keys.remove_all(key),
        }
    }

    // Whether all are known to be apart with this one.
    #[tactic(auto, using(crate::proofs::Known::apart_more))]
    fn stays_apart(&self, key: Key, is_new: bool) -> bool
        requires { IsTrue is_new → length (filter (is_key key) self.now) ≡ 0 }
        ensures { IsTrue result → AreApart (self.now ++ key ∷ []) }
    {
        self.apart && self.is_surely_new(key, is_new)
    }

    // Whether a key is new: it is said to be, or seen.
    fn is_surely_new(&self, key: Key, said: bool) -> bool
        requires { IsTrue said → length (filter (is_key key) self.now) ≡ 0 }
        ensures { IsTrue result → length (filter (is_key key) self.now) ≡ 0 }
    {
        said || self.is_new(key)
    }

    // Whether a key is new. Where its owner or its ID is, no key is looked at.
    fn is_new(&self, key: Key) -> bool
        ensures { IsTrue result → length (filter (is_key key) self.now) ≡ 0 }
    {
        key.owner > self.top.owner || key.id > self.top.id || !self.keys.as_slice().contains(&key)
    }

    // What no key is greater than once the one at this place is gone.
    fn top_without(&self, place: usize) -> Key
        ensures { All (IsUpTo result) (take place self.now ++ drop (suc place) self.now) }
    {
        if self.is_last(place) {
            self.under
        } else {
            self.top
        }
    }

    fn is_last(&self, place: usize) -> bool
        ensures { IsTrue result → suc place ≡ length self.now }
    {
        let len = self.keys.as_slice().len();
        place < len && len - place == 1
    }

    // The place of a key, if all keys are known to stand there once.
    fn place_of(&self, key: Key) -> Option<usize>
        ensures { IfSome result (λ place. (slice_get self.now place ≡ Some key) × (length (filter (is_key key) self.now) ≤ 1)) }
    {
        if self.apart {
            place_in(self.keys.as_slice(), key)
        } else {
            None
        }
    }
}

// The top, once a key is there that may be greater.
fn raised(top: Key, key: Key) -> Key
    ensures { IsUpTo result top × IsUpTo result key }
{
    Key {
        owner: top.owner.max(key.owner),
        id: top.id.max(key.id),
    }
}
