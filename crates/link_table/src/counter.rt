//! The numbers that the gateway gives out to its servers and clients.
ghost use Rattle.std.specs.Prelude.{◌≡◌, ◌+◌, ◌≤◌, ◌||◌, false};
ghost use Rattle.link_table.specs.Counters.{all_at, are_over, began_again, begins_again, counter_of, given_out, turned};
ghost use Rattle.link_table.specs.Numbers.{fitting};

use std::marker::Model;

/// The last number that is given out.
pub const LAST_NUMBER: u32 = 0xFFFF_FFFE;

/// What a number is given out for. Each has a counter of its own.
#[derive(Clone, Copy, Debug, PartialEq, Eq)]
pub enum Counter {
    /// A channel of a client: the gateway's ID of it.
    Sid,
    /// A link: the gateway's ID of its channel on the server.
    Cid,
    /// A data subscription of a link.
    Subscription,
    /// A write that a server acknowledges.
    Write,
}

/// The next number of each counter, and whether it began again at the first.
#[derive(Debug, Drop)]
pub(crate) struct NextNumbers {
    sid: u32,
    cid: u32,
    subscription: u32,
    write: u32,
    sid_again: bool,
    cid_again: bool,
    subscription_again: bool,
    write_again: bool,
}

impl Model for NextNumbers {
    ghost use Rattle.link_table.specs.LinkRows.{Counters};

    ghost Value = { Counters };

    ghost use Rattle.link_table.specs.Counters.{AreBounded};

    ghost view = { λ n. record {
      sid = n.sid;
      cid = n.cid;
      subscription = n.subscription;
      write = n.write;
      again = record { sid = n.sid_again; cid = n.cid_again; subscription = n.subscription_again; write = n.write_again };
    } };

    ghost invariant = { λ n. AreBounded (record {
      sid = n.sid;
      cid = n.cid;
      subscription = n.subscription;
      write = n.write;
      again = record { sid = n.sid_again; cid = n.cid_again; subscription = n.subscription_again; write = n.write_again };
    }) };
}

impl NextNumbers {
    pub(crate) fn new(first: u32) -> NextNumbers
        ensures { result ≡ all_at first }
    {
        NextNumbers {
            sid: first,
            cid: first,
            subscription: first,
            write: first,
            sid_again: false,
            cid_again: false,
            subscription_again: false,
            write_again: false,
        }
    }

    /// No number past the last one was given out, whatever was done: this call does nothing.
    pub(crate) fn are_in_range(&self)
        ensures { are_over self.now ≡ false }
    {
        let _ = &self.sid;
    }

    /// Where the counter stands.
    pub(crate) fn next(&self, counter: Counter) -> u32
        ensures { result ≡ counter_of counter self.now }
    {
        match counter {
            Counter::Sid => self.sid,
            Counter::Cid => self.cid,
            Counter::Subscription => self.subscription,
            Counter::Write => self.write,
        }
    }

    pub(crate) fn began_again(&self, counter: Counter) -> bool
        ensures { result ≡ began_again counter self.now }
    {
        match counter {
            Counter::Sid => self.sid_again,
            Counter::Cid => self.cid_again,
            Counter::Subscription => self.subscription_again,
            Counter::Write => self.write_again,
        }
    }

    /// A number is given out: the counter goes on behind it.
    pub(crate) fn give(&mut self, counter: Counter, reuses: bool, number: u32)
        requires { number ≤ LAST_NUMBER }
        ensures { self.new ≡ given_out counter reuses number self.old }
    {
        match counter {
            Counter::Sid => go_on(&mut self.sid, &mut self.sid_again, reuses, number),
            Counter::Cid => go_on(&mut self.cid, &mut self.cid_again, reuses, number),
            Counter::Subscription => {
                let again = &mut self.subscription_again;
                go_on(&mut self.subscription, again, reuses, number);
            }
            Counter::Write => go_on(&mut self.write, &mut self.write_again, reuses, number),
        }
    }
}

// The counter goes on behind a number. Whether it began again for it is noted.
fn go_on(next: &mut u32, again: &mut bool, reuses: bool, number: u32)
    requires { number ≤ LAST_NUMBER }
    ensures { (next.new ≡ number + 1) × (again.new ≡ (again.old || begins_again reuses next.old)) }
{
    *again = *again || begins_again(reuses, *next);
    *next = number + 1;
}

/// Whether a counter that stands here goes on at the first number: where it gave out the last one, and numbers
/// come again.
pub fn begins_again(reuses: bool, next: u32) -> bool
    ensures { result ≡ begins_again reuses next }
{
    reuses && next == LAST_NUMBER + 1
}

/// Where a counter that stands here goes on.
pub fn turned(reuses: bool, first: u32, next: u32) -> u32
    ensures { result ≡ turned reuses first next }
{
    if begins_again(reuses, next) {
        first
    } else {
        next
    }
}

/// The number, if it can be given out.
pub fn fitting(number: u32) -> Option<u32>
    ensures { result ≡ fitting number }
{
    if number > LAST_NUMBER {
        None
    } else {
        Some(number)
    }
}
