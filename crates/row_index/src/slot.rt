//! A slot.
ghost use Rattle.std.specs.Prelude.{◌≡◌};
ghost use Rattle.std.specs.Borrow.{sem};
ghost use Rattle.std.specs.Option.{option_copied, option_copied_mut};

use crate::key::Key;

/// A slot, with a row under its key or empty.
#[derive(Drop)]
pub(crate) enum Slot<V> {
    Empty,
    Full(Key, V),
}

impl<V> Slot<V> {
    ghost use Rattle.row_index.specs.SlotLends.{lends_value_in};
    ghost use Rattle.row_index.specs.Slots.{is_full, slot_has_key, value_in};

    pub(crate) fn is_full(&self) -> bool
        ensures { result ≡ is_full self.now }
    {
        match self {
            Slot::Full(..) => true,
            Slot::Empty => false,
        }
    }

    #[inline]
    pub(crate) fn has_key(&self, key: Key) -> bool
        ensures { result ≡ slot_has_key key self.now }
    {
        match self {
            Slot::Full(found, _) => *found == key,
            Slot::Empty => false,
        }
    }

    #[inline]
    pub(crate) fn value(&self) -> Option<&V>
        ensures { option_copied result ≡ value_in self.now }
    {
        match self {
            Slot::Full(_, value) => Some(value),
            Slot::Empty => None,
        }
    }

    #[inline]
    pub(crate) fn value_mut(&mut self) -> Option<&mut V>
        ensures* writes_back { sem 𝓛 (lends_value_in V.row self.entry result) }
        ensures value { option_copied_mut result ≡ value_in self.old }
    {
        match self {
            Slot::Full(_, value) => Some(value),
            Slot::Empty => None,
        }
    }
}
