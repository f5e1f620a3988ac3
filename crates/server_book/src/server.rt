//! Servers, and what happens to one.
ghost use Rattle.std.specs.Prelude.{◌≡◌, IfOk, OnOk, OnErr};
ghost use Rattle.server_book.specs.Names.{AreApart};
ghost use Rattle.server_book.specs.Servers.{can_retry, connected, counted, failed, fixed, forgotten, handed_out, held_until, idle_after, is_connecting, is_idle, lost, may_leave, newcomer, newly_waiting, retried, stands, with_name};

use crate::NoMemory;
use crate::address::Address;
use crate::waiting::WaitingNames;
use pv_name::Name;
use std::alloc::Global;
use std::mem;

/// A look is 32 milliseconds long, and so many of them are taken for a second.
pub const LOOKS_OF_SECOND: u64 = 32;

/// After the first failure a server is held off for a second, and after each further one in a row twice as long, up to 2 ^ 8
/// seconds.
pub const MOST_DOUBLINGS: u32 = 8;

/// What is held off beyond the last look that can be counted is held off until that look.
pub const LAST_LOOK: u64 = 0xFFFF_FFFF_FFFF_FFFF;

/// How a server stands.
#[derive(Clone, Copy, Debug, PartialEq, Eq)]
pub enum Standing {
    /// A connection to it is being made.
    Connecting,
    /// The connection stands.
    Stands,
    /// No connection is made before this look.
    HeldOff(u64),
}

/// What is known of a server.
#[derive(Drop)]
pub struct KnownServer {
    pub address: Address,
    /// It is known for good, and not found by search.
    pub is_fixed: bool,
    pub standing: Standing,
    /// How often in a row its connection failed or was lost; 8 where it was more often.
    pub failures: u32,
    /// The names that were found on it and wait for its connection.
    pub waiting: WaitingNames,
    /// At how many looks in a row it had no link, as far as this matters.
    pub idle: u32,
}

impl KnownServer {
    /// A server that is connecting, for which no name waits.
    pub(crate) fn new(alloc: Global, address: Address, is_fixed: bool) -> KnownServer
        ensures { result ≡ newcomer address is_fixed }
    {
        KnownServer {
            address,
            is_fixed,
            standing: Standing::Connecting,
            failures: 0,
            waiting: WaitingNames::new(alloc),
            idle: 0,
        }
    }

    pub fn stands(&self) -> bool
        ensures { result ≡ stands self.now.standing }
    {
        matches!(self.standing, Standing::Stands)
    }

    pub fn is_connecting(&self) -> bool
        ensures { result ≡ is_connecting self.now.standing }
    {
        matches!(self.standing, Standing::Connecting)
    }

    /// Whether it is held off no longer.
    pub fn can_retry(&self, look: u64) -> bool
        ensures { result ≡ can_retry look self.now }
    {
        match self.standing {
            Standing::HeldOff(until) => until <= look,
            _ => false,
        }
    }

    /// It is known for good from now on.
    pub(crate) fn fix(&mut self)
        ensures { self.new ≡ fixed self.old }
    {
        self.is_fixed = true;
    }

    /// A name that was found on it waits for its connection, which is being made. How many names wait more than before. At an
    /// error nothing changes.
    pub(crate) fn wait(&mut self, name: &Name) -> Result<usize, NoMemory>
        ensures more { IfOk result (λ more. more ≡ newly_waiting name.now self.old) }
        ensures ok { OnOk result (self.new ≡ with_name name.now self.old) }
        ensures err { OnErr result (self.new ≡ self.old) }
    {
        let is_new = self.waiting.add(name)?;
        self.standing = Standing::Connecting;
        if is_new { Ok(1) } else { Ok(0) }
    }

    /// Its connection stands, if it was being made. The names that waited for it.
    pub(crate) fn connect(&mut self, alloc: Global) -> Vec<Name>
        ensures names { result.items ≡ handed_out self.old }
        ensures once { AreApart result.items }
        ensures new { self.new ≡ connected self.old }
    {
        match self.standing {
            Standing::Connecting => {
                let waiting = mem::replace(&mut self.waiting, WaitingNames::new(alloc));
                self.standing = Standing::Stands;
                self.failures = 0;
                self.idle = 0;
                waiting.into_names()
            }
            _ => Vec::new(alloc),
        }
    }

    /// Its connection couldn't be made. How many names are forgotten.
    pub(crate) fn fail(&mut self, alloc: Global, look: u64) -> usize
        ensures count { result ≡ forgotten self.old }
        ensures new { self.new ≡ failed look self.old }
    {
        match self.standing {
            Standing::Connecting => {
                let waiting = mem::replace(&mut self.waiting, WaitingNames::new(alloc));
                self.standing = Standing::HeldOff(held_until(look, self.failures));
                self.failures = self.failures.saturating_add(1).min(MOST_DOUBLINGS);
                waiting.len()
            }
            _ => 0,
        }
    }

    /// Its connection, which stood, ended.
    pub(crate) fn lose(&mut self, look: u64)
        ensures { self.new ≡ lost look self.old }
    {
        match self.standing {
            Standing::Stands => {
                self.standing = Standing::HeldOff(held_until(look, self.failures));
                self.failures = self.failures.saturating_add(1).min(MOST_DOUBLINGS);
            }
            _ => {}
        }
    }

    /// Whether it is held off no longer. Its connection is being made then.
    pub(crate) fn retry(&mut self, look: u64) -> bool
        ensures answer { result ≡ can_retry look self.old }
        ensures new { self.new ≡ retried look self.old }
    {
        let can_retry = self.can_retry(look);
        if can_retry {
            self.standing = Standing::Connecting;
        }
        can_retry
    }

    /// A look at how many links it has. Whether it is to be closed.
    pub(crate) fn count(&mut self, links: usize, limit: u32) -> bool
        ensures answer { result ≡ is_idle links limit self.old }
        ensures new { self.new ≡ counted links limit self.old }
    {
        match self.standing {
            Standing::Stands => {
                self.idle = idle_after(self.idle, links, limit);
                !self.is_fixed && links == 0 && self.idle >= limit
            }
            _ => false,
        }
    }

    /// Whether its number can be free: it was found by search, and has no connection.
    pub(crate) fn may_leave(&self) -> bool
        ensures { result ≡ may_leave self.now }
    {
        match self.standing {
            Standing::HeldOff(_) => !self.is_fixed,
            _ => false,
        }
    }
}

/// The look until which a server is held off whose connection failed now, after so many failures in a row.
fn held_until(look: u64, failures: u32) -> u64
    ensures { result ≡ held_until look failures }
{
    let seconds = 1u64 << failures.min(MOST_DOUBLINGS);
    look.saturating_add(seconds * LOOKS_OF_SECOND)
}

/// At how many looks in a row there was no link, after one more look. More than the limit aren't counted.
fn idle_after(idle: u32, links: usize, limit: u32) -> u32
    ensures { result ≡ idle_after idle links limit }
{
    if links == 0 {
        idle.saturating_add(1).min(limit)
    } else {
        0
    }
}
