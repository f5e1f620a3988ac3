//! Rows by their keys.
ghost use Rattle.std.specs.Prelude.{◌≡◌, [], ◌∷◌, ◌++◌, None, is_some, IsTrue, IfOk, OnOk, OnErr, ◌↔◌, length, map, slice_get};
ghost use Rattle.std.specs.List.{filter, find, count_by};
ghost use Rattle.std.specs.Option.{option_copied, option_copied_mut};
ghost use Rattle.std.specs.Borrow.{sem};
ghost use Rattle.row_index.specs.Rows.{has_key, has_one_of, lacks_key, is_owned_by, value_at, row_of, HasKeysApart};

use crate::key::Key;
use crate::owner_ids::OwnerIds;
use crate::slots::Slots;
use std::alloc::{AllocError, Global};
use std::marker::Model;

/// Rows, each under a key of its own, in the order of adding.
#[derive(Drop)]
pub struct RowMap<V> {
    rows: Slots<V>,
    owners: OwnerIds,
}

impl<V> Model for RowMap<V> {
    ghost use Rattle.std.specs.Prelude.{List};
    ghost use Rattle.row_index.specs.declared.key.Key.{Key as RowKey};
    ghost use Rattle.std.specs.Prelude.{◌≡◌, ℕ, map};
    ghost use Rattle.std.specs.List.{filter};
    ghost use Rattle.row_index.specs.Lists.{of_owner};
    ghost use Rattle.row_index.specs.Rows.{is_owned_by, id_of};

    ghost Value = { List (RowKey × V) };

    ghost view = { λ m. m.rows };

    ghost invariant = { λ m. (owner : ℕ) → of_owner m.owners owner ≡ map id_of (filter (is_owned_by owner) m.rows) };
}

impl<V> RowMap<V> {
    ghost use Rattle.row_index.specs.RowLends.{lends_value};

    /// No row. This takes no memory.
    pub fn new(alloc: Global) -> RowMap<V>
        ensures { result ≡ [] }
    {
        RowMap {
            rows: Slots::new(alloc),
            owners: OwnerIds::new(alloc),
        }
    }

    /// How many rows there are.
    pub fn len(&self) -> usize
        ensures { result ≡ length self.now }
    {
        self.rows.len()
    }

    /// The row under this key, if there is one.
    #[inline]
    pub fn get(&self, key: Key) -> Option<&V>
        ensures { option_copied result ≡ value_at key self.now }
    {
        self.rows.get(key)
    }

    // Rows that were added later have higher places: a guide for searches, of which nothing is promised.
    pub(crate) fn place(&self, key: Key) -> usize {
        self.rows.place(key).unwrap_or(0)
    }

    /// Whether there is a row under this key.
    #[inline]
    pub fn contains(&self, key: Key) -> bool
        ensures { result ≡ is_some (value_at key self.now) }
    {
        self.get(key).is_some()
    }

    /// The row under this key for writing, if there is one.
    #[inline]
    pub fn get_mut(&mut self, key: Key) -> Option<&mut V>
        ensures* writes_back { sem 𝓛 (lends_value V.row self.entry key result) }
        ensures value { option_copied_mut result ≡ value_at key self.old }
    {
        self.rows.get_mut(key)
    }

    /// Adds a row. At an error no row is added, and this one is let go.
    pub fn add(&mut self, key: Key, value: V) -> Result<(), AllocError>
    where
        V: Drop,
        requires new { value_at key self.old ≡ None }
        ensures ok { OnOk result (self.new ≡ self.old ++ (key, value) ∷ []) }
        ensures err { OnErr result (self.new ≡ self.old) }
    {
        self.rows.add(key, value)?;
        match self.owners.add(key.owner, key.id) {
            Ok(()) => Ok(()),
            Err(e) => {
                self.rows.remove(key);
                Err(e)
            }
        }
    }

    /// Removes the row under this key, if there is one. This takes no memory.
    pub fn remove(&mut self, key: Key)
    where
        V: Drop,
        ensures { self.new ≡ filter (lacks_key key) self.old }
    {
        self.rows.has_keys_apart();
        self.rows.remove(key);
        self.owners.remove(key.owner, key.id);
    }

    /// How many rows an owner has.
    pub fn count_of(&self, owner: u32) -> usize
        ensures { result ≡ count_by (is_owned_by owner) self.now }
    {
        self.owners.of(owner).len()
    }

    /// The owner's row of this place in the order of adding, counted from 0.
    pub fn of(&self, owner: u32, n: usize) -> Option<&V>
        ensures { option_copied result ≡ slice_get (map row_of (filter (is_owned_by owner) self.now)) n }
    {
        self.rows.has_keys_apart();
        let id = *self.owners.of(owner).get(n)?;
        self.rows.get(Key { owner, id })
    }

    /// The row of this place among all, in the order of adding, counted from 0. This walks the rows
    /// before it.
    pub fn row(&self, n: usize) -> Option<&V>
        ensures { option_copied result ≡ slice_get (map row_of self.now) n }
    {
        self.rows.row(n)
    }

    /// All rows, in the order of adding.
    pub fn rows(&self, alloc: Global) -> Result<Vec<&V>, AllocError>
        ensures { IfOk result (λ rows. map (λ row. row.now) rows.items ≡ map row_of self.now) }
    {
        self.rows.rows(alloc)
    }

    /// The rows under these keys, each once, in the order of adding.
    pub fn in_order(&self, alloc: Global, keys: &[Key]) -> Result<Vec<&V>, AllocError>
        ensures { IfOk result (λ rows. map (λ row. row.now) rows.items ≡ map row_of (filter (has_one_of keys.now) self.now)) }
    {
        self.rows.in_order(alloc, keys)
    }

    /// Does nothing. Its contract is a law: no two rows have the same key.
    pub fn has_keys_apart(&self)
        ensures { HasKeysApart self.now }
    {
        self.rows.has_keys_apart();
    }
}
