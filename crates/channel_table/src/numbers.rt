//! Numbers in rising order.
ghost use Rattle.std.specs.Prelude.{◌≡◌, [], IfSome, IfOk, IfErr, OnOk, OnErr, slice_get};
ghost use Rattle.std.specs.List.{count_by, filter};
ghost use Rattle.channel_table.specs.Numbers.{is_lower, is_not_number, with_number, IsRising, StandsAt, GoesTo};

use std::alloc::{AllocError, Global};
use std::marker::Model;

/// Numbers in rising order, each once.
#[derive(Drop)]
pub(crate) struct Numbers {
    numbers: Vec<u32>,
}

impl Model for Numbers {
    ghost use Rattle.std.specs.Prelude.{ℕ, List};
    ghost use Rattle.channel_table.specs.Numbers.{IsRising};

    ghost Value = { List ℕ };

    ghost view = { λ n. n.numbers.items };

    ghost invariant = { λ n. IsRising n.numbers.items };
}

impl Numbers {
    /// No number. This takes no memory.
    pub(crate) fn new(alloc: Global) -> Numbers
        ensures { result ≡ [] }
    {
        Numbers {
            numbers: Vec::new(alloc),
        }
    }

    /// The nth number, counted from 0: as many are lower.
    pub(crate) fn get(&self, n: usize) -> Option<u32>
        ensures nth { result ≡ slice_get self.now n }
        ensures lower { IfSome result (λ number. count_by (is_lower number) self.now ≡ n) }
    {
        self.numbers.get(n).copied()
    }

    /// Adds a number. At an error nothing changes.
    pub(crate) fn add(&mut self, number: u32) -> Result<(), AllocError>
        ensures ok { OnOk result (self.new ≡ with_number number self.old) }
        ensures err { OnErr result (self.new ≡ self.old) }
    {
        match place_of(&self.numbers, number) {
            Ok(_) => Ok(()),
            Err(place) => {
                self.numbers.insert(place, number)?;
                Ok(())
            }
        }
    }

    /// Removes a number, if it is there. This takes no memory.
    pub(crate) fn remove(&mut self, number: u32)
        ensures { self.new ≡ filter (is_not_number number) self.old }
    {
        if let Ok(place) = place_of(&self.numbers, number) {
            self.numbers.remove(place);
        }
    }
}

/// Where a number stands among those that rise, or where it would go.
fn place_of(numbers: &[u32], number: u32) -> Result<usize, usize>
    requires { IsRising numbers.now }
    ensures ok { IfOk result (StandsAt number numbers.now) }
    ensures err { IfErr result (GoesTo number numbers.now) }
{
    numbers.binary_search(&number)
}
