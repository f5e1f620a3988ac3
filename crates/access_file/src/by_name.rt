//! Values by their names.
ghost use Rattle.std.specs.Prelude.{◌≡◌, [], bytes_eq, is_some, length, OnOk, OnErr};
ghost use Rattle.std.specs.List.{slice_get};
ghost use Rattle.std.specs.Map.{lookup};
ghost use Rattle.std.specs.Option.{option_copied, option_map};
ghost use Rattle.access_file.specs.Named.{put, value_in};

use indexmap::IndexMap;
use std::alloc::{AllocError, Global};
use std::marker::Model;

/// Values, each under a name of its own, in the order of adding. One is found by a hash of its name.
/// A contract sees the list of names with their values.
#[derive(Drop)]
pub(crate) struct ByName<V> {
    values: IndexMap<String, V>,
}

impl<V> Model for ByName<V> {
    ghost use Rattle.std.specs.Prelude.{ℕ, List};
    ghost use Rattle.access_file.specs.Named.{by_bytes};

    ghost Value = { List (List ℕ × V) };

    ghost view = { λ n. by_bytes n.values.entries };
}

impl<V> ByName<V> {
    /// No value. This takes no memory.
    pub(crate) fn new(alloc: Global) -> ByName<V>
        ensures { result ≡ [] }
    {
        ByName {
            values: IndexMap::new(alloc),
        }
    }

    #[tactic(auto, using(crate::proofs::NamedLemmas::length_by_bytes))]
    pub(crate) fn len(&self) -> usize
        ensures { result ≡ length self.now }
    {
        self.values.len()
    }

    #[tactic(auto, using(crate::proofs::NamedLemmas::lookup_by_bytes))]
    pub(crate) fn get(&self, name: &str) -> Option<&V>
        ensures { option_copied result ≡ lookup (bytes_eq name.now) self.now }
    {
        self.values.get(name)
    }

    /// The value that was added so many places behind the first.
    #[tactic(auto, using(crate::proofs::NamedLemmas::at_by_bytes))]
    pub(crate) fn at(&self, place: usize) -> Option<&V>
        ensures { option_copied result ≡ option_map value_in (slice_get self.now place) }
    {
        match self.values.get_index(place) {
            Some((_, value)) => Some(value),
            None => None,
        }
    }

    pub(crate) fn contains(&self, name: &str) -> bool
        ensures { result ≡ is_some (lookup (bytes_eq name.now) self.now) }
    {
        self.get(name).is_some()
    }

    /// Adds a value as the last one, or puts it in the place of the one that is there by this name. An error changes
    /// nothing.
    #[tactic(auto, using(crate::proofs::NamedLemmas::put_by_bytes))]
    pub(crate) fn put(&mut self, alloc: Global, name: &str, value: V) -> Result<(), AllocError>
    where
        V: Drop,
        ensures ok { OnOk result (self.new ≡ put self.old name.now value) }
        ensures err { OnErr result (self.new ≡ self.old) }
    {
        let name = String::from_str(alloc, name)?;
        match self.values.insert(name, value) {
            Ok(_) => Ok(()),
            Err(_) => Err(AllocError),
        }
    }
}
