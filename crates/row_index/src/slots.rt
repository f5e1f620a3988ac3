//! Rows in slots, with the place of each.
ghost use Rattle.std.specs.Prelude.{◌≡◌, ◌+◌, ◌*◌, ◌<◌, ◌≤◌, max, [], ◌∷◌, ◌++◌, Some, None, if◌then◌else◌, IfOk, OnOk, OnErr, length, map, filter_map, slice_get};
ghost use Rattle.std.specs.Bool.{OnTrue};
ghost use Rattle.std.specs.List.{filter};
ghost use Rattle.std.specs.Option.{option_copied, option_copied_mut};
ghost use Rattle.std.specs.Borrow.{sem};
ghost use Rattle.indexmap.specs.IndexMap.{get, index_map_len, spare};
ghost use Rattle.row_index.specs.declared.key.Key.{Key as RowKey};
ghost use Rattle.row_index.specs.Rows.{same_key, has_one_of, lacks_key, value_at, row_of, HasKeysApart};
ghost use Rattle.row_index.specs.Slots.{is_full, filled, place_of, places_of, value_there, Agrees};

use crate::hints::Hints;
use crate::key::Key;
use crate::slot::Slot;
use indexmap::IndexMap;
use std::alloc::{AllocError, Global};
use std::marker::Model;

/// Rows in the order of adding. A row that goes leaves its slot empty, so that no other row moves; at
/// least half of the slots have a row, so that walking them costs what there is. A row is looked up by a
/// hint of its place if the slot there has the key, and else by `places`, where the key is hashed.
#[derive(Drop)]
pub(crate) struct Slots<V> {
    slots: Vec<Slot<V>>,
    places: IndexMap<Key, usize>,
    hints: Hints,
}

impl<V> Model for Slots<V> {
    ghost use Rattle.std.specs.Prelude.{List};
    ghost use Rattle.row_index.specs.declared.key.Key.{Key as RowKey};
    ghost use Rattle.row_index.specs.Slots.{filled, IsBounded};

    ghost Value = { List (RowKey × V) };

    ghost view = { λ s. filled s.slots.items };

    ghost invariant = { λ s. IsBounded s.slots.items s.places.entries s.hints };
}

impl<V> Slots<V> {
    ghost use Rattle.row_index.specs.SlotsLends.{lends_value};

    pub(crate) fn new(alloc: Global) -> Slots<V>
        ensures { result ≡ [] }
    {
        Slots {
            slots: Vec::new(alloc),
            places: IndexMap::new(alloc),
            hints: Hints::new(alloc),
        }
    }

    pub(crate) fn len(&self) -> usize
        ensures { result ≡ length self.now }
    {
        self.places.len()
    }

    #[inline]
    pub(crate) fn get(&self, key: Key) -> Option<&V>
        ensures { option_copied result ≡ value_at key self.now }
    {
        match find_place(&self.slots, &self.places, &self.hints, key) {
            Some(place) => self.slots[place].value(),
            None => None,
        }
    }

    /// The place of a row among the slots, where there is one: rows that were added later have higher ones.
    pub(crate) fn place(&self, key: Key) -> Option<usize> {
        find_place(&self.slots, &self.places, &self.hints, key)
    }

    #[inline]
    pub(crate) fn get_mut(&mut self, key: Key) -> Option<&mut V>
        ensures* writes_back { sem 𝓛 (lends_value V.row self.entry key result) }
        ensures value { option_copied_mut result ≡ value_at key self.old }
    {
        match find_place(&self.slots, &self.places, &self.hints, key) {
            Some(place) => self.slots[place].value_mut(),
            None => None,
        }
    }

    pub(crate) fn add(&mut self, key: Key, value: V) -> Result<(), AllocError>
    where
        V: Drop,
        requires new { value_at key self.old ≡ None }
        ensures ok { OnOk result (self.new ≡ self.old ++ (key, value) ∷ []) }
        ensures err { OnErr result (self.new ≡ self.old) }
    {
        self.places.reserve(1)?;
        let place = self.slots.len();
        self.slots.push(Slot::Full(key, value))?;
        put_place(&mut self.places, key, place);
        note_new(&mut self.hints, &self.slots, key, place);
        Ok(())
    }

    pub(crate) fn remove(&mut self, key: Key)
    where
        V: Drop,
        ensures { self.new ≡ filter (lacks_key key) self.old }
    {
        take_out(&mut self.slots, &mut self.places, key);
        if self.slots.len() / 2 > self.places.len() {
            squeeze(&mut self.slots, &mut self.places);
            note_all(&mut self.hints, &self.slots);
        }
    }

    pub(crate) fn row(&self, n: usize) -> Option<&V>
        ensures { option_copied result ≡ slice_get (map row_of self.now) n }
    {
        let mut left = n;
        for slot in &self.slots {
            if let Some(value) = slot.value() {
                if left == 0 {
                    return Some(value);
                }
                left -= 1;
            }
        }
        None
    }

    pub(crate) fn rows(&self, alloc: Global) -> Result<Vec<&V>, AllocError>
        ensures { IfOk result (λ rows. map (λ row. row.now) rows.items ≡ map row_of self.now) }
    {
        let mut rows = Vec::new(alloc);
        for slot in &self.slots {
            if let Some(value) = slot.value() {
                rows.push(value)?;
            }
        }
        Ok(rows)
    }

    /// The rows under these keys, each once, in the order of adding, which is that of their places.
    pub(crate) fn in_order(&self, alloc: Global, keys: &[Key]) -> Result<Vec<&V>, AllocError>
        ensures { IfOk result (λ rows. map (λ row. row.now) rows.items ≡ map row_of (filter (has_one_of keys.now) self.now)) }
    {
        let mut places = places_of(&self.slots, &self.places, &self.hints, alloc, keys)?;
        places.sort_unstable();
        places.dedup();
        values_at(&self.slots, alloc, &places)
    }

    pub(crate) fn has_keys_apart(&self)
        ensures { HasKeysApart self.now }
    {
        let _ = &self.slots;
    }
}

// The place of a row, mostly by the first hint.
#[inline]
fn find_place<V>(
    slots: &[Slot<V>],
    places: &IndexMap<Key, usize>,
    hints: &Hints,
    key: Key,
) -> Option<usize>
    requires agree { Agrees slots.now places.now.entries }
    ensures { result ≡ place_of key slots.now }
{
    let first = hints.first(key);
    if stands_at(slots, key, first) {
        return Some(first);
    }
    find_further(slots, places, hints, key)
}

// The same without the first hint: a function of its own, so that it doesn't stand wherever a row is
// looked up.
#[inline(never)]
fn find_further<V>(
    slots: &[Slot<V>],
    places: &IndexMap<Key, usize>,
    hints: &Hints,
    key: Key,
) -> Option<usize>
    requires agree { Agrees slots.now places.now.entries }
    ensures { result ≡ place_of key slots.now }
{
    let second = hints.second(key);
    if stands_at(slots, key, second) {
        return Some(second);
    }
    places.get(&key).copied()
}

// Whether the row of this key is in that slot.
#[inline]
fn stands_at<V>(slots: &[Slot<V>], key: Key, place: usize) -> bool
    requires apart { HasKeysApart (filled slots.now) }
    ensures { OnTrue result (place_of key slots.now ≡ Some place) }
{
    match slots.get(place) {
        Some(slot) => slot.has_key(key),
        None => false,
    }
}

// The places of the rows under these keys, in the order of the keys.
fn places_of<V>(
    slots: &[Slot<V>],
    places: &IndexMap<Key, usize>,
    hints: &Hints,
    alloc: Global,
    keys: &[Key],
) -> Result<Vec<usize>, AllocError>
    requires agree { Agrees slots.now places.now.entries }
    ensures { IfOk result (λ found. found.items ≡ places_of keys.now slots.now) }
{
    let mut found = Vec::new(alloc);
    for key in keys {
        if let Some(place) = find_place(slots, places, hints, *key) {
            found.push(place)?;
        }
    }
    Ok(found)
}

// The rows at these places.
fn values_at<'a, V>(
    slots: &'a [Slot<V>],
    alloc: Global,
    places: &[usize],
) -> Result<Vec<&'a V>, AllocError>
    ensures { IfOk result (λ values. map (λ value. value.now) values.items ≡ filter_map (value_there slots.now) places.now) }
{
    let mut values = Vec::new(alloc);
    for place in places {
        if let Some(value) = value_there(slots, *place) {
            values.push(value)?;
        }
    }
    Ok(values)
}

fn value_there<V>(slots: &[Slot<V>], place: usize) -> Option<&V>
    ensures { option_copied result ≡ value_there slots.now place }
{
    match slots.get(place) {
        Some(slot) => slot.value(),
        None => None,
    }
}

// Empties the slot of a row.
fn take_out<V: Drop>(slots: &mut Vec<Slot<V>>, places: &mut IndexMap<Key, usize>, key: Key)
    requires agree { Agrees slots.old.items places.old.entries }
    ensures rows { filled slots.new.items ≡ filter (lacks_key key) (filled slots.old.items) }
    ensures agree { Agrees slots.new.items places.new.entries }
    ensures count { length slots.new.items ≡ length slots.old.items }
{
    if let Some(place) = places.swap_remove(&key) {
        slots[place] = Slot::Empty;
    }
}

// Notes the place of a new key. Since there is room for it, no memory is taken.
fn put_place(places: &mut IndexMap<Key, usize>, key: Key, place: usize)
    requires room { 0 < spare places.old }
    requires new { get same_key places.old key ≡ None }
    ensures found { (q : RowKey) → get same_key places.new q ≡ (if same_key key q then Some place else get same_key places.old q) }
    ensures count { index_map_len places.new ≡ index_map_len places.old + 1 }
    ensures room { spare places.old ≤ spare places.new + 1 }
{
    places.insert(key, place).unwrap();
}

// Takes the empty slots away.
fn squeeze<V: Drop>(slots: &mut Vec<Slot<V>>, places: &mut IndexMap<Key, usize>)
    requires agree { Agrees slots.old.items places.old.entries }
    ensures rows { filled slots.new.items ≡ filled slots.old.items }
    ensures tight { length slots.new.items ≡ length (filled slots.new.items) }
    ensures agree { Agrees slots.new.items places.new.entries }
{
    keep_full(slots);
    renew(slots, places);
}

fn keep_full<V: Drop>(slots: &mut Vec<Slot<V>>)
    ensures { slots.new.items ≡ filter is_full slots.old.items }
{
    slots.retain(|slot| slot.is_full());
}

// Finds the places of all rows anew. Since there is room for them, no memory is taken.
fn renew<V>(slots: &[Slot<V>], places: &mut IndexMap<Key, usize>)
    requires apart { HasKeysApart (filled slots.now) }
    requires room { length slots.now ≤ index_map_len places.old + spare places.old }
    ensures { Agrees slots.now places.new.entries }
{
    places.clear();
    for (place, slot) in slots.iter().enumerate() {
        match slot {
            Slot::Full(key, _) => put_place(places, *key, place),
            Slot::Empty => {}
        }
    }
}

// Notes where a new row stands, and where all others do if there are more spots now.
fn note_new<V>(hints: &mut Hints, slots: &[Slot<V>], key: Key, place: usize)
    ensures { hints.new ≤ max hints.old (4 * length slots.now + 16) }
{
    if hints.widen(slots.len()) {
        note_all(hints, slots);
    } else {
        note(hints, slots, key, place);
    }
}

// Notes where all rows stand.
fn note_all<V>(hints: &mut Hints, slots: &[Slot<V>])
    ensures { hints.new ≤ 4 * length slots.now + 16 }
{
    hints.begin(slots.len());
    for (place, slot) in slots.iter().enumerate() {
        if let Slot::Full(key, _) = slot {
            note(hints, slots, *key, place);
        }
    }
}

// Notes where a row stands: at the first spot of its key, unless a row that has not gone is noted there.
fn note<V>(hints: &mut Hints, slots: &[Slot<V>], key: Key, place: usize)
    ensures { hints.new ≡ hints.old }
{
    match slots.get(hints.first(key)) {
        Some(slot) if slot.is_full() => hints.note_second(key, place),
        _ => hints.note_first(key, place),
    }
}
