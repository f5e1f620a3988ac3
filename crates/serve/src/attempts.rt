//! Which servers that were found are connected to, and in which order.
use pv_name::NoMemory;
use server_book::Address;
use std::alloc::{AllocError, Global};
use std::collections::{HashSet, VecDeque};

/// So many connections to servers that were found are being made at once.
const MOST_MADE: usize = 32;

/// So many of them at most to servers whose last attempt failed. A host that is switched off says nothing, so its attempts last
/// longest: it leaves room for servers that were never tried.
const MOST_MADE_AGAIN: usize = 16;

/// So many at most to servers that were never tried, while others wait: stale entries of a name server may never end.
const MOST_MADE_FIRST: usize = 24;

/// Of so many addresses it is known that the last attempt failed.
const FAILED_LIMIT: usize = 16_384;

/// So many seconds a server has that was never tried, or was connected the last time: the system asks it twice meanwhile.
const FIRST_PATIENCE: u64 = 2;

/// So many seconds one has whose last attempt failed. What names it may be forged.
const PATIENCE: u64 = 5;

/// The server of this number is to be connected to, and has so many seconds for that.
#[derive(Clone, Copy)]
pub struct Attempt {
    pub number: u32,
    pub patience: u64,
}

/// A connection that is being made.
#[derive(Clone, Copy)]
struct Made {
    number: u32,
    is_again: bool,
}

/// The servers that wait to be connected to, and the connections that are being made.
#[derive(Drop)]
pub struct Attempts {
    // Each was never tried, or was connected the last time.
    first: VecDeque<u32>,
    // Of each the last attempt failed.
    again: VecDeque<u32>,
    made: Vec<Made>,
    failed: HashSet<Address>,
}

impl Attempts {
    /// None. It takes no memory.
    pub fn new(alloc: Global) -> Attempts {
        Attempts {
            first: VecDeque::new(alloc),
            again: VecDeque::new(alloc),
            made: Vec::new(alloc),
            failed: HashSet::new(alloc),
        }
    }

    /// The server of this number and address waits to be connected to, unless it does already or is being connected to.
    pub fn put(&mut self, number: u32, address: Address) -> Result<(), NoMemory> {
        if self.has(number) {
            return Ok(());
        }
        let put = if self.failed.contains(&address) {
            self.again.push_back(number)
        } else {
            self.first.push_back(number)
        };
        match put {
            Ok(()) => Ok(()),
            Err(_) => Err(AllocError),
        }
    }

    /// The next one, where another connection may be made. It counts as being made then.
    pub fn take(&mut self) -> Option<Attempt> {
        // Where memory is refused it is tried once others are over.
        if self.made.len() >= MOST_MADE || self.made.reserve(1).is_err() {
            return None;
        }
        let (number, is_again) = self.next()?;
        let _ = self.made.push(Made { number, is_again });
        let patience = if is_again { PATIENCE } else { FIRST_PATIENCE };
        Some(Attempt { number, patience })
    }

    // One that was never tried comes first, but where many are being made and others wait. Whether it is another.
    fn next(&mut self) -> Option<(u32, bool)> {
        let again = self.made_again();
        let is_full = self.made.len().saturating_sub(again) >= MOST_MADE_FIRST;
        let is_again = again < MOST_MADE_AGAIN && (is_full || self.first.is_empty());
        if is_again {
            if let Some(number) = self.again.pop_front() {
                return Some((number, true));
            }
        }
        Some((self.first.pop_front()?, false))
    }

    // Whether it waits or is being connected to.
    fn has(&self, number: u32) -> bool {
        let mut waiting = self.first.iter().chain(self.again.iter());
        waiting.any(|waits| *waits == number) || self.made.iter().any(|made| made.number == number)
    }

    /// The connection stands, whoever had it made.
    pub fn connected(&mut self, number: u32, address: Address) {
        self.end(number);
        self.failed.remove(&address);
    }

    /// The connection couldn't be made. Where too many are known of which that is so, or memory is refused, it is forgotten.
    pub fn failed(&mut self, number: u32, address: Address) {
        self.end(number);
        if self.failed.len() >= FAILED_LIMIT {
            self.failed.clear();
        }
        let _ = self.failed.insert(address);
    }

    fn end(&mut self, number: u32) {
        self.made.retain(|made| made.number != number);
    }

    fn made_again(&self) -> usize {
        self.made.iter().filter(|made| made.is_again).count()
    }
}
