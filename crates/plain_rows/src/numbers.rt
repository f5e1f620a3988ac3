//! The numbers that are given out, and why a change of the rows is refused.
ghost use Rattle.std.specs.Prelude.{◌≡◌, ◌+◌, ◌≤◌, ◌&&◌, ◌||◌, nat_le, nat_lt, false};
ghost use Rattle.link_table.specs.Counters.{all_at, are_over, began_again, begins_again, counter_of, given_out};
ghost use Rattle.link_table.specs.declared.counter.TheConstants.{LAST_NUMBER};
ghost use Rattle.plain_rows.specs.declared.numbers.PlainRefusal.TheVariants.{OutOfMemory};

use link_table::{Counter, LAST_NUMBER, begins_again};
use std::alloc::AllocError;
use std::marker::Model;

/// Why a change of the rows was refused. What it leaves is half done.
#[derive(Clone, Copy)]
pub enum PlainRefusal {
    /// Memory was refused.
    OutOfMemory,
    /// It would give out a number past the last one.
    NumbersUsedUp,
}

impl From<AllocError> for PlainRefusal {
    ghost from_gives = { λ _ refusal. refusal ≡ OutOfMemory };

    fn from(_refused: AllocError) -> PlainRefusal {
        PlainRefusal::OutOfMemory
    }
}

/// The next number of a counter, and whether it began again at the first.
#[derive(Clone, Copy)]
struct Next {
    number: u32,
    again: bool,
}

/// The next number of each counter.
#[derive(Drop)]
pub struct PlainNumbers {
    sid: Next,
    cid: Next,
    subscription: Next,
    write: Next,
}

impl Model for PlainNumbers {
    ghost use Rattle.link_table.specs.Counters.{AreBounded};
    ghost use Rattle.link_table.specs.LinkRows.{Counters};

    ghost Value = { Counters };

    ghost view = { λ n. record {
      sid = n.sid.number;
      cid = n.cid.number;
      subscription = n.subscription.number;
      write = n.write.number;
      again = record { sid = n.sid.again; cid = n.cid.again; subscription = n.subscription.again; write = n.write.again };
    } };

    ghost invariant = { λ n. AreBounded (record {
      sid = n.sid.number;
      cid = n.cid.number;
      subscription = n.subscription.number;
      write = n.write.number;
      again = record { sid = n.sid.again; cid = n.cid.again; subscription = n.subscription.again; write = n.write.again };
    }) };
}

impl PlainNumbers {
    /// Each number is given out from `first` on.
    pub(crate) fn new(first: u32) -> PlainNumbers
        ensures { result ≡ all_at first }
    {
        let next = Next {
            number: first,
            again: false,
        };
        PlainNumbers {
            sid: next,
            cid: next,
            subscription: next,
            write: next,
        }
    }

    /// No number past the last one was given out, whatever was done: this call does nothing.
    pub(crate) fn are_in_range(&self)
        ensures { are_over self.now ≡ false }
    {
        let _ = &self.sid;
    }

    fn of(&self, counter: Counter) -> Next
        ensures { (result.number ≡ counter_of counter self.now) × (result.again ≡ began_again counter self.now) }
    {
        match counter {
            Counter::Sid => self.sid,
            Counter::Cid => self.cid,
            Counter::Subscription => self.subscription,
            Counter::Write => self.write,
        }
    }

    /// Where a counter stands: one behind the number that it gave out last.
    pub fn next(&self, counter: Counter) -> u32
        ensures { result ≡ counter_of counter self.now }
    {
        self.of(counter).number
    }

    /// Whether a counter went past the last number, and began again at the first.
    pub(crate) fn began_again(&self, counter: Counter) -> bool
        ensures { result ≡ began_again counter self.now }
    {
        self.of(counter).again
    }

    /// Whether a counter gave out the number, of those that it gives out from `first` on.
    pub(crate) fn gave_out(&self, counter: Counter, first: u32, number: u32) -> bool
        ensures { result ≡ (nat_le first number && (nat_lt number (counter_of counter self.now) || began_again counter self.now && nat_le number LAST_NUMBER)) }
    {
        let next = self.of(counter);
        first <= number && (number < next.number || next.again && number <= LAST_NUMBER)
    }

    /// A number of a counter is given out: it goes on behind that.
    pub(crate) fn give(&mut self, counter: Counter, reuses: bool, number: u32)
        requires { number ≤ LAST_NUMBER }
        ensures { self.new ≡ given_out counter reuses number self.old }
    {
        match counter {
            Counter::Sid => self.sid = behind(self.sid, reuses, number),
            Counter::Cid => self.cid = behind(self.cid, reuses, number),
            Counter::Subscription => self.subscription = behind(self.subscription, reuses, number),
            Counter::Write => self.write = behind(self.write, reuses, number),
        }
    }
}

/// Where a counter goes on behind a number. Whether it began again for it is noted.
fn behind(next: Next, reuses: bool, number: u32) -> Next
    requires { number ≤ LAST_NUMBER }
    ensures { (result.number ≡ number + 1) × (result.again ≡ (next.again || begins_again reuses next.number)) }
{
    Next {
        number: number + 1,
        again: next.again || begins_again(reuses, next.number),
    }
}
