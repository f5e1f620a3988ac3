//! Many keys in the order of adding.
ghost use Rattle.std.specs.Prelude.{◌≡◌, ◌≤◌, [], ◌∷◌, ◌++◌, OnOk, OnErr, length};
ghost use Rattle.std.specs.List.{filter};
ghost use Rattle.row_index.specs.Lists.{is_key, is_not_key};
ghost use Rattle.row_index.specs.Pieces.{joined, HasNoEmptyPiece};

use crate::key::Key;
use crate::pieces;
use crate::pieces::{MOST, Part};
use crate::row_map::RowMap;
use crate::sequence::Sequence;
use std::alloc::{AllocError, Global};
use std::marker::Model;
use std::mem;

/// Keys in the order of adding, in pieces, so that one that goes moves those of its piece alone.
#[derive(Drop)]
pub(crate) struct TallKeys {
    pieces: Vec<Sequence<Key>>,
    last: Sequence<Key>,
    len: usize,
}

impl Model for TallKeys {
    ghost use Rattle.std.specs.Prelude.{◌++◌, List};
    ghost use Rattle.row_index.specs.declared.key.Key.{Key as RowKey};
    ghost use Rattle.row_index.specs.Pieces.{joined, AreKept};

    ghost Value = { List RowKey };

    ghost view = { λ l. joined l.pieces.items ++ l.last };

    ghost invariant = { λ l. AreKept l.len l.pieces.items l.last };
}

impl TallKeys {
    pub(crate) fn new(alloc: Global) -> TallKeys
        ensures { result ≡ [] }
    {
        TallKeys {
            pieces: Vec::new(alloc),
            last: Sequence::new(alloc),
            len: 0,
        }
    }

    /// Begins with these keys.
    pub(crate) fn begin(&mut self, keys: Sequence<Key>)
        ensures { self.new ≡ keys }
    {
        self.pieces.clear();
        self.len = keys.as_slice().len();
        self.last = keys;
    }

    pub(crate) fn len(&self) -> usize
        ensures { result ≡ length self.now }
    {
        self.len
    }

    /// The pieces that are full or were, and the keys behind them.
    pub(crate) fn parts(&self) -> (&[Sequence<Key>], &[Key])
        ensures { joined result.0.now ++ result.1.now ≡ self.now }
    {
        (self.pieces.as_slice(), self.last.as_slice())
    }

    /// Adds a key.
    pub(crate) fn push(&mut self, alloc: Global, key: Key) -> Result<(), AllocError>
        ensures ok { OnOk result (self.new ≡ self.old ++ key ∷ []) }
        ensures err { OnErr result (self.new ≡ self.old) }
    {
        let Some(len) = self.len.checked_add(1) else {
            return Err(AllocError);
        };
        if self.last.as_slice().len() >= MOST {
            close(alloc, &mut self.pieces, &mut self.last)?;
        }
        self.last.push(key)?;
        self.len = len;
        Ok(())
    }

    /// Removes a key that stands there once at most. The rows show where to search for it.
    pub(crate) fn remove<V>(&mut self, alloc: Global, key: Key, rows: &RowMap<V>)
        requires once { length (filter (is_key key) self.old) ≤ 1 }
        ensures { self.new ≡ filter (is_not_key key) self.old }
    {
        match pieces::part_of(&self.pieces, self.last.as_slice(), key, rows) {
            Part::Last => {
                self.last.remove_only(key);
                self.len -= 1;
            }
            Part::Piece(n) => {
                pieces::remove_at(alloc, &mut self.pieces, n, key);
                self.len -= 1;
            }
            Part::Nowhere => {}
        }
    }
}

// The last keys become a piece.
#[tactic(auto, using(crate::proofs::InPieces::joined_more, crate::proofs::InPieces::filled_more))]
fn close(
    alloc: Global,
    pieces: &mut Vec<Sequence<Key>>,
    last: &mut Sequence<Key>,
) -> Result<(), AllocError>
    requires { 1 ≤ length last.old }
    ensures same { joined pieces.new.items ++ last.new ≡ joined pieces.old.items ++ last.old }
    ensures filled { HasNoEmptyPiece pieces.old.items → HasNoEmptyPiece pieces.new.items }
{
    let piece = mem::replace(last, Sequence::new(alloc));
    match pieces.push(piece) {
        Ok(()) => Ok(()),
        Err(failed) => {
            *last = failed.value;
            Err(AllocError)
        }
    }
}
