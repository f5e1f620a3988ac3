//! Hints of where names stand in a map.
ghost use Rattle.std.specs.Prelude.{◌≡◌, ◌<◌, ◌≤◌, ◌+◌, ◌*◌, max, bytes_eq, length};
ghost use Rattle.std.specs.Bool.{OnTrue, OnFalse};
ghost use Rattle.std.specs.Option.{option_copied};
ghost use Rattle.indexmap.specs.IndexMap.{get, index_map_len};

use indexmap::IndexMap;
use pv_name::Name;
use std::alloc::Global;
use std::marker::Model;

/// No place: no entry is so far back.
const NOWHERE: u32 = u32::MAX;

/// The least spots that memory is taken for.
const FEWEST: usize = 16;

/// An odd number whose products spread what differs in few bits.
const SPREAD: u64 = 0x9E37_79B9_7F4A_7C15;

/// Where names were put: a look-up that finds its name there is spared the map's own hashing and probing.
/// Each name has two spots. A hint may be old, or that of another name: whoever takes one looks at the entry
/// there first. So a wrong one costs no more than time, and nothing is promised of hints but how much memory
/// they take: contracts see the number of spots.
#[derive(Drop)]
pub struct NameHints {
    spots: Vec<u32>,
}

impl Model for NameHints {
    ghost use Rattle.std.specs.Prelude.{ℕ, length};

    ghost Value = { ℕ };

    ghost view = { λ h. length h.spots.items };
}

impl NameHints {
    /// No hint. This takes no memory.
    pub fn new(alloc: Global) -> NameHints
        ensures { result ≡ 0 }
    {
        NameHints {
            spots: Vec::new(alloc),
        }
    }

    /// What a map has under a name, mostly found by a hint.
    #[inline]
    pub fn find<'a, V>(&self, map: &'a IndexMap<Name, V>, name: &Name) -> Option<&'a V>
        ensures { option_copied result ≡ get bytes_eq map.now name.now }
    {
        if map.is_empty() {
            return None;
        }
        let mix = mixed(name.text().as_bytes());
        match map.get_index(self.at(mix)) {
            Some((found, value)) if found == name => Some(value),
            _ => self.find_further(map, name, mix),
        }
    }

    // The same without the first spot.
    #[inline(never)]
    fn find_further<'a, V>(
        &self,
        map: &'a IndexMap<Name, V>,
        name: &Name,
        mix: usize,
    ) -> Option<&'a V>
        ensures { option_copied result ≡ get bytes_eq map.now name.now }
    {
        match map.get_index(self.at(second(mix))) {
            Some((found, value)) if found == name => Some(value),
            _ => map.get(name),
        }
    }

    // The number of spots is a power of two, so that this counts round among them.
    #[inline]
    fn at(&self, mix: usize) -> usize {
        match self.spots.get(mix & self.spots.len().wrapping_sub(1)) {
            Some(place) => *place as usize,
            None => NOWHERE as usize,
        }
    }

    /// Notes where the name stands that this place has now, if any, and where all others do if too many spots
    /// are left over. This takes no memory.
    pub fn note<V>(&mut self, map: &IndexMap<Name, V>, place: usize)
        ensures { self.new ≤ 4 * index_map_len map.now + 16 }
    {
        if self.is_wide(map.len()) {
            self.note_all(map);
        } else {
            self.note_at(map, place);
        }
    }

    /// Notes where the last name stands, and where all others do if there are more spots now. Where memory
    /// is refused for these there are as many as before.
    pub fn note_last<V>(&mut self, map: &IndexMap<Name, V>)
        ensures { self.new ≤ max self.old (4 * index_map_len map.now + 16) }
    {
        if self.widen(map.len()) {
            self.note_all(map);
        } else {
            self.note_at(map, map.len().saturating_sub(1));
        }
    }

    // Notes where all names stand.
    fn note_all<V>(&mut self, map: &IndexMap<Name, V>)
        ensures { self.new ≤ 4 * index_map_len map.now + 16 }
    {
        self.begin(map.len());
        for place in 0..map.len() {
            self.note_at(map, place);
        }
    }

    // Notes where the name of this place stands: at its first spot, unless a place that has a name is noted
    // there.
    fn note_at<V>(&mut self, map: &IndexMap<Name, V>, place: usize)
        ensures { self.new ≡ self.old }
    {
        let Some((name, _)) = map.get_index(place) else {
            return;
        };
        let mix = mixed(name.text().as_bytes());
        let taken = self.at(mix);
        if taken < map.len() && taken != place {
            self.put(second(mix), place);
        } else {
            self.put(mix, place);
        }
    }

    fn put(&mut self, mix: usize, place: usize)
        ensures { self.new ≡ self.old }
    {
        let spot = mix & self.spots.len().wrapping_sub(1);
        if let Some(noted) = self.spots.get_mut(spot) {
            *noted = place.min(NOWHERE as usize) as u32;
        }
    }

    // Takes memory for twice the spots, unless half of them are left over by so many names, and answers
    // whether it did.
    fn widen(&mut self, names: usize) -> bool
        ensures widened { OnTrue result (self.new ≤ 4 * names + 16) }
        ensures same { OnFalse result (self.new ≡ self.old) }
    {
        let spots = self.spots.len();
        if names <= spots / 2 {
            return false;
        }
        let more = spots.saturating_mul(2).max(FEWEST);
        self.spots.resize(more, NOWHERE).is_ok()
    }

    // Whether many more spots are left over than suit so many names.
    fn is_wide(&self, names: usize) -> bool
        ensures { OnFalse result (self.now ≤ 4 * names + 16) }
    {
        self.spots.len() > names.saturating_mul(4).saturating_add(FEWEST)
    }

    // Forgets all hints, and leaves no more spots than suit so many names. It takes no memory.
    fn begin(&mut self, names: usize)
        ensures { self.new ≤ 4 * names + 16 }
    {
        let suits = names.saturating_mul(2).checked_next_power_of_two();
        self.spots.truncate(suits.unwrap_or(usize::MAX).max(FEWEST));
        self.spots.fill(NOWHERE);
    }
}

// Other bits of a mix, for the second spot.
#[inline]
fn second(mix: usize) -> usize {
    mix >> 16 ^ mix << 3
}

// All bytes of a name, mixed into one number: eight at a time, the last eight perhaps in part again. What
// differs in the last bytes alone differs in the high bits of a product, so the last is spread once more.
#[inline]
fn mixed(bytes: &[u8]) -> usize {
    let len = bytes.len();
    if len < 8 {
        return spread(short(bytes, len)) as usize;
    }
    let mut mix = len as u64;
    for chunk in bytes.chunks_exact(8) {
        mix = spread(mix ^ eight(chunk));
    }
    spread(spread(mix ^ eight(&bytes[len - 8..]))) as usize
}

#[inline]
fn spread(mix: u64) -> u64 {
    let mix = mix.wrapping_mul(SPREAD);
    mix ^ mix >> 32
}

#[inline]
fn eight(bytes: &[u8]) -> u64 {
    match bytes.try_into() {
        Ok(eight) => u64::from_le_bytes(eight),
        Err(_) => 0,
    }
}

#[inline]
fn four(bytes: &[u8]) -> u64 {
    match bytes.try_into() {
        Ok(four) => u64::from(u32::from_le_bytes(four)),
        Err(_) => 0,
    }
}

// Fewer than eight bytes as a number: the first four and the last four, or all three.
#[inline]
fn short(bytes: &[u8], len: usize) -> u64
    requires { (len ≡ length bytes.now) × (len < 8) }
{
    if len >= 4 {
        four(&bytes[..4]) << 32 | four(&bytes[len - 4..])
    } else {
        bytes
            .iter()
            .fold(0, |few: u64, byte| few << 8 | u64::from(*byte))
    }
}
