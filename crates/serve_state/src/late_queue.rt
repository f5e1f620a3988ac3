//! Searches that wait to be kept until they can be answered, by hosts: one host's flood holds no other up.
ghost use Rattle.std.specs.Prelude.{◌≡◌, ◌<◌, slice_get, None, IfOk, OnOk, OnErr};
ghost use Rattle.std.specs.List.{position};
ghost use Rattle.serve_state.specs.LateQueue.{after_take, at_host, at_place, count_of, has_room, is_host, joined, next_search, no_searches, with_search};

use crate::late::{LATE_OF_HOST, LateSearch};
use pv_name::NoMemory;
use std::alloc::{AllocError, Global};
use std::collections::VecDeque;
use std::marker::Model;

/// Of so many hosts some wait at most.
const LATE_HOSTS: usize = 1_024;

/// So many wait at most.
const LATE_IN_ALL: usize = 16_384;

/// The searches of one host that wait, in the order in which they are taken.
#[derive(Drop)]
struct HostSearches<A> {
    host: u128,
    rows: VecDeque<LateSearch<A>>,
}

impl<A> Model for HostSearches<A> {
    ghost use Rattle.serve_state.specs.LateQueue.{HostState};

    ghost Value = { HostState };

    ghost view = { λ s. record { host = s.host; rows = s.rows.items } };
}

impl<A: Drop> HostSearches<A> {
    // One more waits behind the others, where it has room. Whether it has. At an error nothing changes.
    fn join(&mut self, search: LateSearch<A>) -> Result<bool, NoMemory>
        ensures room { IfOk result (λ room. room ≡ has_room self.old) }
        ensures ok { OnOk result (self.new ≡ joined search self.old) }
        ensures err { OnErr result (self.new ≡ self.old) }
    {
        if self.rows.len() >= LATE_OF_HOST {
            return Ok(false);
        }
        if self.rows.push_back(search).is_err() {
            return Err(AllocError);
        }
        Ok(true)
    }
}

/// Searches that wait to be kept. One of each host is taken in turn.
#[derive(Drop)]
pub struct LateQueue<A> {
    // Of each of these some wait, in the order in which it is their turn.
    hosts: VecDeque<HostSearches<A>>,
    // So many more may wait.
    room: usize,
    alloc: Global,
}

impl<A> Model for LateQueue<A> {
    ghost use Rattle.serve_state.specs.LateQueue.{QueueState};

    ghost Value = { QueueState };

    ghost view = { λ q. record { hosts = q.hosts.items; room = q.room } };
}

impl<A: Drop> LateQueue<A> {
    /// None. It takes no memory.
    pub fn new(alloc: Global) -> LateQueue<A>
        ensures { result ≡ no_searches }
    {
        LateQueue {
            hosts: VecDeque::new(alloc),
            room: LATE_IN_ALL,
            alloc,
        }
    }

    /// How many wait.
    pub fn len(&self) -> usize
        ensures { result ≡ count_of self.now }
    {
        LATE_IN_ALL.saturating_sub(self.room)
    }

    /// One more waits, behind the others of its host. Where 1,024 of that wait, or 16,384 in all, or some of 1,024 other hosts
    /// and none of its own, it is dropped. At an error nothing changes.
    pub fn add(&mut self, search: LateSearch<A>) -> Result<(), NoMemory>
        ensures ok { OnOk result (self.new ≡ with_search search self.old) }
        ensures err { OnErr result (self.new ≡ self.old) }
    {
        if self.room == 0 {
            return Ok(());
        }
        match place_of(&self.hosts, search.host) {
            Some(place) => self.join(place, search),
            None => self.add_host(search),
        }
    }

    // One more of the host at this place.
    fn join(&mut self, place: usize, search: LateSearch<A>) -> Result<(), NoMemory>
        requires room { 0 < self.old.room }
        ensures ok { OnOk result (self.new ≡ at_host search self.old place (slice_get self.old.hosts place)) }
        ensures err { OnErr result (self.new ≡ self.old) }
    {
        let Some(of_host) = self.hosts.get_mut(place) else {
            return Ok(());
        };
        if of_host.join(search)? {
            self.room -= 1;
        }
        Ok(())
    }

    // The first one of a host.
    fn add_host(&mut self, search: LateSearch<A>) -> Result<(), NoMemory>
        requires room { 0 < self.old.room }
        ensures ok { OnOk result (self.new ≡ at_place search self.old None) }
        ensures err { OnErr result (self.new ≡ self.old) }
    {
        if self.hosts.len() >= LATE_HOSTS {
            return Ok(());
        }
        let host = search.host;
        let mut rows = VecDeque::new(self.alloc);
        if rows.push_back(search).is_err() {
            return Err(AllocError);
        }
        if self.hosts.push_back(HostSearches { host, rows }).is_err() {
            return Err(AllocError);
        }
        self.room -= 1;
        Ok(())
    }

    /// Takes the first search of the host whose turn it is, which comes behind all others then.
    pub fn take(&mut self) -> Option<LateSearch<A>>
        ensures search { result ≡ next_search self.old.hosts }
        ensures new { self.new ≡ after_take self.old }
    {
        let mut of_host = self.hosts.pop_front()?;
        let search = of_host.rows.pop_front()?;
        self.room = self.room.saturating_add(1).min(LATE_IN_ALL);
        if !of_host.rows.is_empty() {
            // There is room, as a host was taken out.
            if let Err(_) = self.hosts.push_back(of_host) {
                unreachable!();
            }
        }
        Some(search)
    }
}

fn place_of<A: Drop>(hosts: &VecDeque<HostSearches<A>>, host: u128) -> Option<usize>
    ensures { result ≡ position (is_host host) hosts.now.items }
{
    hosts.iter().position(|of_host| of_host.host == host)
}
