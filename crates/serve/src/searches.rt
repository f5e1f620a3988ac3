//! What isn't heard at once of clients' datagrams: of each host one part is heard in turn.
use crate::datagrams::{SearchDatagram, hear_part};
use crate::hub::{AsHub, Hub};
use crate::machine::System;
use crate::pace::Pace;
use pv_name::NoMemory;
use serve_state::Notice;
use std::alloc::{AllocError, Global};
use std::collections::VecDeque;

/// The datagrams that wait have at most so many bytes. What comes then is lost, as what a socket has no room for.
const MOST_BYTES: usize = 8_388_608;

/// Those of one host have at most so many.
const MOST_BYTES_OF_HOST: usize = 1_048_576;

/// Of so many hosts some wait at most.
const MOST_HOSTS: usize = 1_024;

/// The datagrams of one host that wait.
#[derive(Drop)]
struct OfHost {
    host: u128,
    bytes: usize,
    waiting: VecDeque<SearchDatagram>,
}

/// The datagrams that wait, by hosts, in the order in which it is their turn.
#[derive(Drop)]
pub struct WaitingDatagrams {
    hosts: VecDeque<OfHost>,
    bytes: usize,
    // A part is being heard.
    is_heard: bool,
    pub end: bool,
}

impl WaitingDatagrams {
    /// None. It takes no memory.
    pub fn new(alloc: Global) -> WaitingDatagrams {
        WaitingDatagrams {
            hosts: VecDeque::new(alloc),
            bytes: 0,
            is_heard: false,
            end: false,
        }
    }

    // The next one of the host whose turn it is. What else waits of that host comes behind all others.
    fn take(&mut self) -> Option<SearchDatagram> {
        let mut of_host = self.hosts.pop_front()?;
        let search = of_host.waiting.pop_front()?;
        of_host.bytes = of_host.bytes.saturating_sub(search.len());
        self.bytes = self.bytes.saturating_sub(search.len());
        self.is_heard = true;
        if !of_host.waiting.is_empty() {
            let _ = self.hosts.push_back(of_host);
        }
        Some(search)
    }

    // Whether some wait, or one is being heard.
    fn has_any(&self) -> bool {
        self.is_heard || !self.hosts.is_empty()
    }

    // Puts one behind the others of its host. Where too much waits, it is lost.
    fn add(&mut self, alloc: Global, search: SearchDatagram) -> Result<(), NoMemory> {
        let (host, len) = (search.host(), search.len());
        if self.place_of(host) >= MOST_HOSTS || self.bytes.saturating_add(len) > MOST_BYTES {
            return Ok(());
        }
        let place = self.place_for(alloc, host)?;
        let Some(of_host) = self.hosts.get_mut(place) else {
            return Ok(());
        };
        if of_host.bytes.saturating_add(len) > MOST_BYTES_OF_HOST {
            return Ok(());
        }
        if of_host.waiting.push_back(search).is_err() {
            return Err(AllocError);
        }
        of_host.bytes = of_host.bytes.saturating_add(len);
        self.bytes = self.bytes.saturating_add(len);
        Ok(())
    }

    // Puts what is left of one that was taken before the others of its host, however much waits.
    fn put_back(&mut self, alloc: Global, search: SearchDatagram) -> Result<(), NoMemory> {
        let len = search.len();
        let place = self.place_for(alloc, search.host())?;
        let Some(of_host) = self.hosts.get_mut(place) else {
            return Ok(());
        };
        if of_host.waiting.push_front(search).is_err() {
            return Err(AllocError);
        }
        of_host.bytes = of_host.bytes.saturating_add(len);
        self.bytes = self.bytes.saturating_add(len);
        Ok(())
    }

    // Where the host stands. One that stood nowhere stands behind all then.
    fn place_for(&mut self, alloc: Global, host: u128) -> Result<usize, NoMemory> {
        let place = self.place_of(host);
        if place >= self.hosts.len() {
            let of_host = OfHost {
                host,
                bytes: 0,
                waiting: VecDeque::new(alloc),
            };
            if self.hosts.push_back(of_host).is_err() {
                return Err(AllocError);
            }
        }
        Ok(place)
    }

    // Where the host stands, or else behind all.
    fn place_of(&self, host: u128) -> usize {
        for place in 0..self.hosts.len() {
            if self.hosts[place].host == host {
                return place;
            }
        }
        self.hosts.len()
    }
}

/// Whether some wait, or one is being heard.
pub fn has_waiting<R: System>(rt: R, hub: &Hub) -> bool {
    hub.searches.lock(&rt).has_any()
}

/// Has a datagram heard, or the rest of it, once it is its host's turn.
pub fn put_search<R: System>(rt: R, hub: &Hub, search: SearchDatagram) {
    let added = hub.searches.lock(&rt).add(hub.alloc, search);
    match added {
        Ok(()) => hub.searched.notify_all(),
        Err(_) => hub.tell(&rt, Notice::OutOfMemory),
    }
}

/// Hears what waits, a part of each host in turn, until the gateway closes.
pub fn hear_searches<R: System, H: AsHub>(rt: R, hub: &H) {
    let mut pace = Pace::begin(rt);
    for _ in rt.forever() {
        let Some(next) = next_search(rt, hub.hub()) else {
            return;
        };
        if let Some(search) = next {
            if let Some(left) = hear_part(rt, hub, search) {
                put_back(rt, hub.hub(), left);
            }
        }
        pace.rest(rt);
    }
}

fn put_back<R: System>(rt: R, hub: &Hub, search: SearchDatagram) {
    let put = hub.searches.lock(&rt).put_back(hub.alloc, search);
    if put.is_err() {
        hub.tell(&rt, Notice::OutOfMemory);
    }
}

// The next one, once one waits. None where the gateway ends.
fn next_search<R: System>(rt: R, hub: &Hub) -> Option<Option<SearchDatagram>> {
    let mut searches = hub.searches.lock(&rt);
    searches.is_heard = false;
    let mut searches = hub.searched.wait_while(&rt, searches, |searches| {
        !searches.end && searches.hosts.is_empty()
    });
    if searches.end {
        return None;
    }
    Some(searches.take())
}
