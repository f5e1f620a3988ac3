//! Rows that are found by their keys, and keys that are found by a name or by an owner.
//!
//! - A [`RowMap`] has its rows in the order of adding, each under a [`Key`] of its own: whose the row
//!   is, and its ID there. `get`, `get_mut` and `contains` find a row by its key, `count_of` and `of`
//!   the rows of one owner, and `row` and `rows` any of all of them. Finding a row, adding one, and the
//!   n-th of an owner cost the same however many there are; `remove` may walk the IDs of the one owner.
//!   `in_order` gives the rows under several keys, each once, in the order of adding, and looks at no others.
//! - A [`NameLists`] has a list of keys for each name, in the order of adding. A name with no key takes
//!   no memory. A key that goes moves those behind it.
//! - A [`NameKeys`] is the same for keys that each stand once under their name, of which any goes at little
//!   cost: more than 256 keys stand in pieces of at most so many, and a key that goes moves those of its piece.
//!   Two pieces next to each other become one where both together have at most 128 keys, so that n keys stand in at
//!   most some n / 64 pieces. What finds the n-th key counts along the pieces.
//! - An [`OwnerKeys`] has such a list for each owner, by its number: the keys of rows that an owner has
//!   and that stand under the keys of others.
//! - [`NameHints`] beside a map by names spare it most of its hashing. Nothing is promised of them but that
//!   what they find is what the map has, and how many spots they take.
//!
//! What goes leaves room behind, of which invariants say how much: slots are at most twice the rows and one, of
//! a list at most half went, and spots for hints are at most four for each slot, or list, and 16. For names, whose
//! map stands elsewhere, the clauses of `note` and `note_last` say it. No piece is empty.
//!
//! `add` may be refused memory, and then changes nothing. `remove` takes none. A contract sees a
//! `RowMap` as the list of its entries, each a key and a value (`specs/Rows.antt`), `NameLists` by the
//! list that each name has, so `NameKeys`, and `OwnerKeys` by that of each owner (`of` and `of_owner` in
//! `specs/Lists.antt`).
//!
//! ```
//! let mut rows = RowMap::new(rt.alloc());
//! let key = Key { owner: 1, id: 11 };
//! rows.add(key, "first")?;
//! rows.add(Key { owner: 2, id: 11 }, "second")?;
//! assert_eq!(rt; rows.get(key).copied(), Some("first"));
//! rows.remove(key);
//! assert_eq!(rt; rows.of(2, 0).copied(), Some("second"));
//! assert_eq!(rt; rows.count_of(1), 0);
//! ```
#![tactic(auto)]

mod apart_keys;
mod hints;
mod id_list;
mod key;
mod key_list;
mod long_keys;
mod name_hints;
mod name_keys;
mod name_lists;
mod owner_ids;
mod owner_keys;
mod pieces;
mod places;
mod row_map;
mod sequence;
mod slot;
mod slots;
mod tall_keys;

pub use key::Key;
pub use name_hints::NameHints;
pub use name_keys::NameKeys;
pub use name_lists::NameLists;
pub use owner_keys::OwnerKeys;
pub use row_map::RowMap;
pub use sequence::Sequence;
