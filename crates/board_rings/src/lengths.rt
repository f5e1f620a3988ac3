//! The lengths of the messages that are on their way to a writer.
ghost use Rattle.std.specs.Prelude.{◌≡◌, ◌^◌, ◌<◌, ◌≤◌, [], ◌∷◌, ◌++◌, length, drop, IfOk};
ghost use Rattle.board_rings.specs.OnTheWay.{last_of, total_of};

use crate::attachment::RING_SIZE;
use std::alloc::{AllocError, Global};
use std::collections::VecDeque;
use std::marker::Model;

/// The lengths of the messages that are on their way, oldest first: a ring full of them at most.
#[derive(Drop)]
pub(crate) struct Lengths {
    lens: VecDeque<u128>,
    /// Their sum.
    bytes: u128,
}

impl Model for Lengths {
    ghost use Rattle.std.specs.Prelude.{ℕ, List};
    ghost use Rattle.std.specs.VecDeque.{deque_capacity};
    ghost use Rattle.board_rings.specs.OnTheWay.{CountsLengths};

    ghost Value = { List ℕ };

    ghost view = { λ l. l.lens.items };

    ghost invariant = { λ l. CountsLengths l.lens.items l.bytes (deque_capacity l.lens) };
}

impl Lengths {
    /// Nothing is on its way. This takes the memory for a ring full.
    pub(crate) fn new(alloc: Global) -> Result<Lengths, AllocError>
        ensures { IfOk result (λ lengths. lengths ≡ []) }
    {
        let lens = VecDeque::with_capacity(alloc, RING_SIZE)?;
        Ok(Lengths { lens, bytes: 0 })
    }

    /// Their sum.
    pub(crate) fn bytes(&self) -> u128
        ensures { result ≡ total_of self.now }
    {
        self.bytes
    }

    /// Puts one last.
    pub(crate) fn push(&mut self, len: u128)
        requires room { length self.old < RING_SIZE }
        requires short { len ≤ 2 ^ 65 }
        ensures { self.new ≡ self.old ++ len ∷ [] }
    {
        self.lens.push_back_reserved(len);
        self.bytes += len;
    }

    /// Takes the first off, where there is one.
    fn drop_first(&mut self)
        ensures { self.new ≡ drop 1 self.old }
    {
        if let Some(len) = self.lens.pop_front() {
            self.bytes -= len;
        }
    }

    /// Keeps the last so many.
    pub(crate) fn keep_last(&mut self, count: usize)
        ensures { self.new ≡ last_of count self.old }
    {
        let gone = self.lens.len().saturating_sub(count);
        for _ in 0..gone {
            self.drop_first();
        }
    }
}
