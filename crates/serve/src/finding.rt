//! How servers are found by search: where, by which asks, and what comes for whoever finds them.
use crate::upstreams::{Upstream, Upstreams};
use pv_name::{Name, NoMemory};
use server_book::{Address, Net as HostNet, host_number};
use std::alloc::{AllocError, Global};
use std::collections::VecDeque;
use std::mem::replace;
use std::net::{IpAddr, Ipv4Addr, Ipv6Addr, SocketAddr};
use std::sync::{Condvar, Mutex, Wait};

/// So many bytes a header has.
const HEAD_SIZE: usize = 16;

/// So many replies wait to be heard.
const TOLD_LIMIT: usize = 16_384;

/// For so many things that come of the connection to each server there is room from the start. No more come of one before whoever
/// finds servers has another one made.
const CAME_OF_SERVER: usize = 4;

/// Where servers are searched for, and where they may be.
#[derive(Drop)]
pub struct Discovery {
    /// Searches are sent to these, besides to the servers of the command line: where they are is known.
    pub targets: Vec<Upstream>,
    /// Servers may be in these nets, or anywhere if there is none.
    pub nets: Vec<HostNet>,
    /// Beacons of servers are heard, too.
    pub hears_beacons: bool,
    /// A server that was found, and has had no link for so many seconds, is left.
    pub idle: u32,
}

impl Discovery {
    /// Whether all servers are asked by IPv4: as searches are sent, or where none is, as clients are served.
    pub fn is_ipv4(&self, listen: SocketAddr) -> bool {
        for target in &self.targets {
            if let Some(address) = target.address {
                return address.is_ipv4();
            }
        }
        listen.is_ipv4()
    }
}

/// By this the gateway knows its own asks, which come back to it where they are broadcast: they come from this port, and their
/// VERSION has this sequence number.
#[derive(Clone, Copy)]
pub struct OwnAsks {
    pub port: u16,
    pub sequence: u32,
    /// The CID of the first ask.
    pub first_cid: u32,
}

impl OwnAsks {
    /// The text of a datagram that asks, with the number.
    pub fn mark(&self, alloc: Global, text: &[u8]) -> Result<Vec<u8>, NoMemory> {
        let mut marked = Vec::new(alloc);
        marked.extend_from_slice(self.head().as_slice())?;
        if let Some(searches) = text.get(HEAD_SIZE..) {
            marked.extend_from_slice(searches)?;
        }
        Ok(marked)
    }

    /// Whether the gateway sent this datagram.
    pub fn is_own(&self, datagram: &[u8], from: &SocketAddr) -> bool {
        match datagram.get(..HEAD_SIZE) {
            Some(head) => from.port() == self.port && head == self.head().as_slice(),
            None => false,
        }
    }

    // The header of VERSION: no payload, that there is a sequence number, the minor version, and the number.
    fn head(&self) -> [u8; HEAD_SIZE] {
        let [a, b, c, d] = self.sequence.to_be_bytes();
        [0, 0, 0, 0, 0, 1, 0, 13, a, b, c, d, 0, 0, 0, 0]
    }
}

/// A server says that it has a name.
#[derive(Drop)]
pub struct Told {
    pub cid: u32,
    pub name: Name,
    pub address: Address,
}

/// What came of the connection to a server.
#[derive(Clone, Copy)]
pub enum Came {
    Connected,
    Failed,
    Lost,
}

/// What came for whoever finds servers.
#[derive(Drop)]
pub struct FinderInbox {
    told: Vec<Told>,
    came: VecDeque<(u32, Came)>,
    // A name server is connected.
    name_server_came: bool,
    pub end: bool,
}

impl FinderInbox {
    fn new(alloc: Global, servers: u32) -> Result<FinderInbox, NoMemory> {
        let room = (servers as usize).saturating_mul(CAME_OF_SERVER);
        Ok(FinderInbox {
            told: Vec::new(alloc),
            came: VecDeque::with_capacity(alloc, room)?,
            name_server_came: false,
            end: false,
        })
    }

    pub fn is_empty(&self) -> bool {
        !self.end && !self.name_server_came && self.told.is_empty() && self.came.is_empty()
    }

    /// The replies that weren't heard yet.
    pub fn take_told(&mut self, alloc: Global) -> Vec<Told> {
        replace(&mut self.told, Vec::new(alloc))
    }

    /// What came first of the connection to a server, and its number.
    pub fn take_came(&mut self) -> Option<(u32, Came)> {
        self.came.pop_front()
    }

    /// Whether name servers came since it was asked last.
    pub fn take_name_server(&mut self) -> bool {
        replace(&mut self.name_server_came, false)
    }

    // Where too many wait, or memory is refused, the reply is lost: the name is asked for again.
    fn tell(&mut self, told: Told) {
        if self.told.len() < TOLD_LIMIT {
            let _ = self.told.push(told);
        }
    }

    fn note(&mut self, number: u32, came: Came) -> Result<(), NoMemory> {
        match self.came.push_back((number, came)) {
            Ok(()) => Ok(()),
            Err(_) => Err(AllocError),
        }
    }
}

/// What threads share by which servers are found.
#[derive(Drop)]
pub struct Finding {
    /// Searches are sent to these.
    pub targets: Upstreams,
    /// Servers may be in these nets, or anywhere if there is none.
    pub nets: Vec<HostNet>,
    pub hears_beacons: bool,
    pub idle: u32,
    pub own: OwnAsks,
    pub inbox: Mutex<FinderInbox>,
    /// Something came.
    pub came: Condvar,
}

impl Finding {
    /// Nothing came yet. There may be so many servers.
    pub fn new(
        alloc: Global,
        discovery: Discovery,
        own: OwnAsks,
        servers: u32,
    ) -> Result<Finding, NoMemory> {
        let Discovery {
            targets,
            nets,
            hears_beacons,
            idle,
        } = discovery;
        Ok(Finding {
            targets: Upstreams::new(alloc, targets)?,
            nets,
            hears_beacons,
            idle,
            own,
            inbox: Mutex::new(FinderInbox::new(alloc, servers)?),
            came: Condvar::new(),
        })
    }

    /// A server says that it has a name. Whoever finds servers isn't woken yet.
    pub fn tell<R: Wait>(&self, rt: &R, told: Told) {
        self.inbox.lock(rt).tell(told);
    }

    /// Something came of the connection to the server of this number.
    pub fn note<R: Wait>(&self, rt: &R, number: u32, came: Came) -> Result<(), NoMemory> {
        let noted = self.inbox.lock(rt).note(number, came);
        self.came.notify_all();
        noted
    }

    /// A name server is connected.
    pub fn note_name_server<R: Wait>(&self, rt: &R) {
        self.inbox.lock(rt).name_server_came = true;
        self.came.notify_all();
    }

    /// Whoever finds servers is to end.
    pub fn end<R: Wait>(&self, rt: &R) {
        self.inbox.lock(rt).end = true;
        self.came.notify_all();
    }
}

/// An address as books have it.
pub fn address_of(ip: IpAddr, port: u16) -> Address {
    Address {
        host: host_number(ip),
        port,
    }
}

/// An address as sockets have it.
pub fn socket_address(address: Address) -> SocketAddr {
    let ip = match u32::try_from(address.host ^ 0xFFFF_0000_0000) {
        Ok(bits) => IpAddr::V4(Ipv4Addr::from_bits(bits)),
        Err(_) => IpAddr::V6(Ipv6Addr::from_bits(address.host)),
    };
    SocketAddr::new(ip, address.port)
}
