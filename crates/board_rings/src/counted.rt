//! The ends of a ring, each with a count of its looks.
//!
//! An end knows what it last saw of the other one: by that alone it could say for ever that nothing came, or that no
//! place is free. So each call by which it may learn more raises its count, and who answers that nothing is there has
//! to show that the count has risen. These calls alone raise it, and each of them looks; no clause says so of them.
ghost use Rattle.std.specs.Prelude.{◌≡◌, ◌+◌, ◌<◌, ◌≤◌, [], ◌∷◌, ◌++◌, length, IfOk, IfErr, IsOk, OnOk, OnErr};
ghost use mathlib.Core.List.{IsPrefix};
ghost use Rattle.rtrb.specs.Ring.{sent, received, known_free, known_items, SameConsumer, SameProducer, ConsumerLooked, ProducerLooked};

use crate::looks::LookCount;
use rtrb::{Consumer, PopError, Producer, PushError};

/// The end that pushes.
#[derive(Drop)]
pub(crate) struct CountedProducer<T> {
    pub(crate) end: Producer<T>,
    looks: LookCount,
}

impl<T> CountedProducer<T> {
    /// It didn't look yet.
    pub(crate) fn new(end: Producer<T>) -> CountedProducer<T>
        ensures end { result.end ≡ end }
        ensures looks { result.looks ≡ 0 }
    {
        CountedProducer {
            end,
            looks: LookCount::none(),
        }
    }

    /// Pushes an item, or hands it back where no place is free.
    pub(crate) fn push(&mut self, item: T) -> Result<(), PushError<T>>
        ensures ring { SameProducer self.old.end self.new.end }
        ensures ok { OnOk result ((sent self.new.end ≡ sent self.old.end ++ item ∷ []) × (known_free self.old.end ≤ known_free self.new.end + 1)) }
        ensures full { IfErr result (λ e. (e ≡ PushError.Full item) × (sent self.new.end ≡ sent self.old.end) × (known_free self.new.end ≡ 0)) }
        ensures succeeds { 0 < known_free self.old.end → IsOk result }
        ensures looked { self.new.looks ≡ self.old.looks + 1 }
    {
        self.looks.count();
        self.end.push(item)
    }

    /// How many places are free.
    pub(crate) fn slots(&mut self) -> usize
        ensures seen { ProducerLooked self.old.end self.new.end }
        ensures value { result ≡ known_free self.new.end }
        ensures looked { self.new.looks ≡ self.old.looks + 1 }
    {
        self.looks.count();
        self.end.slots()
    }

    /// Gives up the end.
    pub(crate) fn into_end(self) -> Producer<T>
        ensures { result ≡ self.end }
    {
        let CountedProducer { end, looks: _ } = self;
        end
    }
}

/// The end that pops.
#[derive(Drop)]
pub(crate) struct CountedConsumer<T> {
    pub(crate) end: Consumer<T>,
    looks: LookCount,
}

impl<T> CountedConsumer<T> {
    /// It didn't look yet.
    pub(crate) fn new(end: Consumer<T>) -> CountedConsumer<T>
        ensures end { result.end ≡ end }
        ensures looks { result.looks ≡ 0 }
    {
        CountedConsumer {
            end,
            looks: LookCount::none(),
        }
    }

    /// Pops the oldest item, where there is one.
    pub(crate) fn pop(&mut self) -> Result<T, PopError>
        ensures ring { SameConsumer self.old.end self.new.end }
        ensures ok { IfOk result (λ x. (received self.new.end ≡ received self.old.end ++ x ∷ []) × IsPrefix (known_items self.old.end) (x ∷ known_items self.new.end)) }
        ensures empty { OnErr result ((received self.new.end ≡ received self.old.end) × (known_items self.new.end ≡ [])) }
        ensures succeeds { 0 < length (known_items self.old.end) → IsOk result }
        ensures looked { self.new.looks ≡ self.old.looks + 1 }
    {
        self.looks.count();
        self.end.pop()
    }

    /// How many items are there.
    pub(crate) fn slots(&mut self) -> usize
        ensures seen { ConsumerLooked self.old.end self.new.end }
        ensures value { result ≡ length (known_items self.new.end) }
        ensures looked { self.new.looks ≡ self.old.looks + 1 }
    {
        self.looks.count();
        self.end.slots()
    }

    /// Gives up the end.
    pub(crate) fn into_end(self) -> Consumer<T>
        ensures { result ≡ self.end }
    {
        let CountedConsumer { end, looks: _ } = self;
        end
    }
}
