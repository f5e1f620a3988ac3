//! Places of keys in a list.
ghost use Rattle.std.specs.Prelude.{◌≡◌, IsTrue, IfSome, Some, slice_get};

use crate::key::Key;

/// A place of a key: what a search finds, or else a walk.
pub(crate) fn place_in(keys: &[Key], key: Key) -> Option<usize>
    ensures { IfSome result (λ place. slice_get keys.now place ≡ Some key) }
{
    match searched(keys, key) {
        Some(place) => Some(place),
        None => walked(keys, key),
    }
}

/// A place of a key at an end, among IDs that rise, or among owners that rise. Nothing is walked, and a key
/// that stands elsewhere isn't found.
pub(crate) fn searched(keys: &[Key], key: Key) -> Option<usize>
    ensures { IfSome result (λ place. slice_get keys.now place ≡ Some key) }
{
    let last = keys.len().saturating_sub(1);
    if is_at(keys, 0, key) {
        return Some(0);
    }
    if is_at(keys, last, key) {
        return Some(last);
    }
    let by_id = by_id(keys, key.id);
    if is_at(keys, by_id, key) {
        return Some(by_id);
    }
    let by_owner = by_owner(keys, key.owner);
    if is_at(keys, by_owner, key) {
        Some(by_owner)
    } else {
        None
    }
}

// The first place of a key.
fn walked(keys: &[Key], key: Key) -> Option<usize>
    ensures { IfSome result (λ place. slice_get keys.now place ≡ Some key) }
{
    match keys.iter().position(|other| *other == key) {
        Some(place) if is_at(keys, place, key) => Some(place),
        _ => None,
    }
}

// Where a key of this ID stands if IDs rise.
fn by_id(keys: &[Key], id: u32) -> usize {
    match keys.binary_search_by_key(&id, |other| other.id) {
        Ok(place) => place,
        Err(place) => place,
    }
}

// Where a key of this owner stands if owners rise.
fn by_owner(keys: &[Key], owner: u32) -> usize {
    match keys.binary_search_by_key(&owner, |other| other.owner) {
        Ok(place) => place,
        Err(place) => place,
    }
}

// Whether the key stands at this place.
fn is_at(keys: &[Key], place: usize, key: Key) -> bool
    ensures { IsTrue result → slice_get keys.now place ≡ Some key }
{
    match keys.get(place) {
        Some(other) => *other == key,
        None => false,
    }
}
