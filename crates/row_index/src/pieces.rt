//! Keys in pieces, which are lists one behind another.
ghost use Rattle.std.specs.Prelude.{◌≡◌, ◌<◌, ◌≤◌, ◌+◌, ◌++◌, true, false, IfSome, IfNone, IsTrue, length, slice_get};
ghost use Rattle.std.specs.List.{filter, list_any, remove};
ghost use Rattle.row_index.specs.Lists.{is_key, is_not_key};
ghost use Rattle.row_index.specs.Pieces.{joined, has_at, HasNoEmptyPiece, StandsIn};

use crate::key::Key;
use crate::places::searched;
use crate::row_map::RowMap;
use crate::sequence::Sequence;
use std::alloc::Global;
use std::mem;

/// So many keys stand in a piece at most.
pub(crate) const MOST: usize = 256;

/// Where a key stands.
#[derive(Clone, Copy)]
pub(crate) enum Part {
    /// Among the last ones.
    Last,
    /// In the piece of this place.
    Piece(usize),
    /// In neither.
    Nowhere,
}

/// The nth key of some pieces and then the last keys, counted from 0.
#[tactic(auto, using(crate::proofs::InPieces::nth_here, crate::proofs::InPieces::nth_later))]
pub(crate) fn nth(pieces: &[Sequence<Key>], last: &[Key], n: usize) -> Option<Key>
    ensures { result ≡ slice_get (joined pieces.now ++ last.now) n }
{
    let mut left = n;
    for piece in pieces {
        let keys = piece.as_slice();
        if left < keys.len() {
            return key_at(keys, left);
        }
        left -= keys.len();
    }
    key_at(last, left)
}

// The key at a place, counted from 0.
fn key_at(keys: &[Key], n: usize) -> Option<Key>
    ensures { result ≡ slice_get keys.now n }
{
    keys.get(n).copied()
}

/// Where a key stands: what searches find, or else a walk. The rows show where to search.
pub(crate) fn part_of<V>(pieces: &[Sequence<Key>], last: &[Key], key: Key, rows: &RowMap<V>) -> Part
    ensures { StandsIn result key pieces.now last.now }
{
    if is_found(last, key) {
        return Part::Last;
    }
    if let Some(n) = searched_piece(pieces, key, rows) {
        return Part::Piece(n);
    }
    walked(pieces, last, key)
}

// The same by a walk over all.
#[tactic(auto, using(crate::proofs::InPieces::in_neither))]
fn walked(pieces: &[Sequence<Key>], last: &[Key], key: Key) -> Part
    ensures { StandsIn result key pieces.now last.now }
{
    if last.contains(&key) {
        return Part::Last;
    }
    match walked_piece(pieces, key) {
        Some(n) => Part::Piece(n),
        None => Part::Nowhere,
    }
}

// A piece that has the key: the one where a search ends among IDs that rise, among owners, or among places of
// rows.
fn searched_piece<V>(pieces: &[Sequence<Key>], key: Key, rows: &RowMap<V>) -> Option<usize>
    ensures { IfSome result (λ n. has_at key n pieces.now ≡ true) }
{
    let by_id = by_id(pieces, key);
    if is_found_at(pieces, by_id, key) {
        return Some(by_id);
    }
    let by_owner = by_owner(pieces, key);
    if is_found_at(pieces, by_owner, key) {
        return Some(by_owner);
    }
    let by_place = by_place(pieces, key, rows);
    if has(pieces, by_place, key) {
        Some(by_place)
    } else {
        None
    }
}

// A piece that has the key, if one does.
#[tactic(auto, using(crate::proofs::InPieces::walked_on))]
fn walked_piece(pieces: &[Sequence<Key>], key: Key) -> Option<usize>
    ensures some { IfSome result (λ n. has_at key n pieces.now ≡ true) }
    ensures none { IfNone result (list_any (is_key key) (joined pieces.now) ≡ false) }
{
    for n in 0..pieces.len() {
        if has(pieces, n, key) {
            return Some(n);
        }
    }
    None
}

// Whether the nth piece has the key.
fn has(pieces: &[Sequence<Key>], n: usize, key: Key) -> bool
    ensures { result ≡ has_at key n pieces.now }
{
    match pieces.get(n) {
        Some(piece) => piece.as_slice().contains(&key),
        None => false,
    }
}

// Whether a search finds the key in the nth piece.
fn is_found_at(pieces: &[Sequence<Key>], n: usize, key: Key) -> bool
    ensures { IsTrue result → has_at key n pieces.now ≡ true }
{
    match pieces.get(n) {
        Some(piece) => is_found(piece.as_slice(), key),
        None => false,
    }
}

// Whether a search finds the key.
#[tactic(auto, using(crate::proofs::InPieces::any_at))]
fn is_found(keys: &[Key], key: Key) -> bool
    ensures { IsTrue result → list_any (is_key key) keys.now ≡ true }
{
    searched(keys, key).is_some()
}

// Where a piece stands that may have the key: the last one whose first key has no higher ID.
fn by_id(pieces: &[Sequence<Key>], key: Key) -> usize {
    match pieces.binary_search_by_key(&(key.id, key.owner), |piece| first_by_id(piece)) {
        Ok(n) => n,
        Err(n) => n.saturating_sub(1),
    }
}

// The same by owners.
fn by_owner(pieces: &[Sequence<Key>], key: Key) -> usize {
    match pieces.binary_search_by_key(&(key.owner, key.id), |piece| first_by_owner(piece)) {
        Ok(n) => n,
        Err(n) => n.saturating_sub(1),
    }
}

// The same by places of rows: those of keys that were listed as their rows were added rise along the keys.
fn by_place<V>(pieces: &[Sequence<Key>], key: Key, rows: &RowMap<V>) -> usize {
    let place = rows.place(key);
    match pieces.binary_search_by_key(&place, |piece| first_place(piece, rows)) {
        Ok(n) => n,
        Err(n) => n.saturating_sub(1),
    }
}

// What pieces are compared by where IDs rise, and then owners.
fn first_by_id(piece: &Sequence<Key>) -> (u32, u32) {
    match piece.as_slice().first() {
        Some(key) => (key.id, key.owner),
        None => (0, 0),
    }
}

// The same where owners rise, and then IDs.
fn first_by_owner(piece: &Sequence<Key>) -> (u32, u32) {
    match piece.as_slice().first() {
        Some(key) => (key.owner, key.id),
        None => (0, 0),
    }
}

// Where the row of a piece's first key stands.
fn first_place<V>(piece: &Sequence<Key>, rows: &RowMap<V>) -> usize {
    match piece.as_slice().first() {
        Some(key) => rows.place(*key),
        None => 0,
    }
}

/// Removes a key that stands there once at most from the piece that has it. Those behind it in its piece
/// move, and those of its neighbour where both become one.
pub(crate) fn remove_at(alloc: Global, pieces: &mut Vec<Sequence<Key>>, n: usize, key: Key)
    requires there { has_at key n pieces.old.items ≡ true }
    requires once { length (filter (is_key key) (joined pieces.old.items)) ≤ 1 }
    ensures gone { joined pieces.new.items ≡ filter (is_not_key key) (joined pieces.old.items) }
    ensures filled { HasNoEmptyPiece pieces.old.items → HasNoEmptyPiece pieces.new.items }
{
    pieces[n].remove_only(key);
    drop_empty(pieces, n);
    merge(alloc, pieces, n);
    merge(alloc, pieces, n.saturating_sub(1));
}

// Takes a piece out that has no key left: where no other one is empty, none is then.
fn drop_empty(pieces: &mut Vec<Sequence<Key>>, n: usize)
    ensures same { joined pieces.new.items ≡ joined pieces.old.items }
    ensures filled { HasNoEmptyPiece (remove pieces.old.items n) → HasNoEmptyPiece pieces.new.items }
{
    let Some(piece) = pieces.get(n) else {
        return;
    };
    if piece.as_slice().is_empty() {
        pieces.remove(n);
    }
}

// A piece and the next become one where both have few keys, so that there are never many more pieces than
// keys ask for. Where memory is refused they stay two.
fn merge(alloc: Global, pieces: &mut Vec<Sequence<Key>>, n: usize)
    ensures same { joined pieces.new.items ≡ joined pieces.old.items }
    ensures filled { HasNoEmptyPiece pieces.old.items → HasNoEmptyPiece pieces.new.items }
{
    if !are_sparse(pieces, n) {
        return;
    }
    let next = mem::replace(&mut pieces[n + 1], Sequence::new(alloc));
    match pieces[n].extend(next.as_slice()) {
        Ok(()) => {
            pieces.remove(n + 1);
        }
        Err(_) => pieces[n + 1] = next,
    }
}

// Whether there is a next piece, and both have at most half of the keys that one may have.
fn are_sparse(pieces: &[Sequence<Key>], n: usize) -> bool
    ensures { IsTrue result → n + 1 < length pieces.now }
{
    if n >= pieces.len() || pieces.len() - n <= 1 {
        return false;
    }
    let (some, more) = (pieces[n].as_slice().len(), pieces[n + 1].as_slice().len());
    some.saturating_add(more) <= MOST / 2
}
