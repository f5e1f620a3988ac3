//! The sockets on which clients are served, and through which servers are asked.
use crate::addresses::Addresses;
use crate::finding::Discovery;
use crate::machine::{System, bound_sends, widen_receives};
use ca_header::{Frame, Frames, PLAIN_LEN};
use ca_message::commands::CA_PROTO_SEARCH;
use pv_name::NoMemory;
use std::alloc::Global;
use std::io;
use std::io::ErrorKind;
use std::net::{
    IpAddr, Ipv4Addr, Ipv6Addr, Net, Shutdown, SocketAddr, TcpListener, TcpStream, UdpSocket,
};
use std::os::fd::OwnedFd;

/// Where the port stands in a reply to a search, behind its command and its size.
const PORT_AT: usize = 4;

/// A socket for datagrams, with a second handle, by which it is shut.
#[derive(Drop)]
pub struct Datagrams {
    pub socket: UdpSocket,
    pub door: TcpStream,
}

impl Datagrams {
    fn shut(&self) {
        let _ = self.door.shutdown(Shutdown::Both);
    }
}

/// The sockets on an address at which clients find the gateway. To a broadcast one nobody connects, but searches come there.
#[derive(Drop)]
pub struct Entrance {
    pub address: SocketAddr,
    pub listener: TcpListener,
    /// By this handle it is shut.
    pub listener_door: TcpStream,
    pub datagrams: Datagrams,
    /// It is at a broadcast address. What is sent from there leaves from the first address of an interface, at which maybe
    /// nobody listens.
    is_broadcast: bool,
}

impl Entrance {
    fn shut(&self) {
        let _ = self.listener_door.shutdown(Shutdown::Both);
        self.datagrams.shut();
    }
}

/// Who sent a datagram, and the place of the entrance to which it came.
#[derive(Clone, Copy, PartialEq, Eq)]
pub struct Sender {
    pub address: SocketAddr,
    pub entrance: usize,
}

/// The sockets on LISTEN and on further addresses, and the one through which servers are asked, where that is another one.
#[derive(Drop)]
pub struct Sockets {
    pub first: Entrance,
    pub more: Vec<Entrance>,
    /// On a site. So replies aren't lost where clients search for more than a socket keeps.
    pub own_asks: Option<Datagrams>,
}

impl Sockets {
    /// How many addresses there are at which clients find the gateway.
    pub fn count(&self) -> usize {
        self.more.len().saturating_add(1)
    }

    /// That of this place, LISTEN's being 0.
    pub fn entrance(&self, place: usize) -> &Entrance {
        let found = match place.checked_sub(1) {
            Some(place) => self.more.get(place),
            None => None,
        };
        found.unwrap_or(&self.first)
    }

    /// Through this one servers are asked.
    pub fn asks(&self) -> &UdpSocket {
        match &self.own_asks {
            Some(own) => &own.socket,
            None => &self.first.datagrams.socket,
        }
    }

    /// The place of the entrance from which is sent what is said at this one. For a broadcast address that is the one with the
    /// same port that is nearest to it, where there is one: clients connect to where a reply comes from.
    pub fn speaker(&self, place: usize) -> usize {
        let heard = self.entrance(place);
        if !heard.is_broadcast {
            return place;
        }
        let mut nearest = (place, 0u32);
        for at in 0..self.count() {
            let other = self.entrance(at);
            let is_one = !other.is_broadcast && other.address.port() == heard.address.port();
            let bits = alike(heard.address.ip(), other.address.ip()).saturating_add(1);
            if is_one && bits > nearest.1 {
                nearest = (at, bits);
            }
        }
        nearest.0
    }

    /// Sends a client replies to searches, from where these came to and with the port of that.
    pub fn reply(&self, alloc: Global, to: Sender, text: &[u8]) -> Result<(), NoMemory> {
        let entrance = self.entrance(self.speaker(to.entrance));
        let socket = &entrance.datagrams.socket;
        let port = entrance.address.port();
        if port == self.first.address.port() {
            let _ = socket.send_to(text, to.address);
        } else {
            let own = with_port(alloc, text, port)?;
            let _ = socket.send_to(own.as_slice(), to.address);
        }
        Ok(())
    }

    pub fn shut(&self) {
        self.first.shut();
        for entrance in &self.more {
            entrance.shut();
        }
        if let Some(own) = &self.own_asks {
            own.shut();
        }
    }
}

// With how many bits that are alike two addresses of IPv4 begin.
fn alike(one: IpAddr, other: IpAddr) -> u32 {
    match (one, other) {
        (IpAddr::V4(one), IpAddr::V4(other)) => (one.to_bits() ^ other.to_bits()).leading_zeros(),
        _ => 0,
    }
}

// The same replies, which say that names are served at this port.
fn with_port(alloc: Global, text: &[u8], port: u16) -> Result<Vec<u8>, NoMemory> {
    let mut own = Vec::new(alloc);
    own.extend_from_slice(text)?;
    let mut frames = Frames::new(text);
    let mut place = 0usize;
    for _ in 0..text.len() {
        let Frame::Message(head, payload) = frames.next() else {
            break;
        };
        if head.command == CA_PROTO_SEARCH {
            put_port(&mut own, place, port);
        }
        place = place
            .saturating_add(PLAIN_LEN)
            .saturating_add(payload.len());
    }
    Ok(own)
}

// Into the message at this place.
fn put_port(text: &mut Vec<u8>, place: usize, port: u16) {
    let [high, low] = port.to_be_bytes();
    let first = place.saturating_add(PORT_AT);
    let second = first.saturating_add(1);
    if first < second && second < text.len() {
        text[first] = high;
        text[second] = low;
    }
}

/// Opens them. On a site the buffers of sockets suit one, and servers are asked through a socket of its own. So they are where they
/// are searched for, and then from any address of the machine, since they need not be in LISTEN's net.
pub fn open_sockets<R: System + Net<Listener = TcpListener, Stream = TcpStream>>(
    rt: R,
    alloc: Global,
    addresses: &Addresses,
    site: bool,
) -> io::Result<Sockets> {
    let first = open_entrance(rt, addresses.listen, addresses, site)?;
    let mut more = Vec::new(alloc);
    for listen in &addresses.more {
        more.push(open_entrance(rt, *listen, addresses, site)?)?;
    }
    let own_asks = match &addresses.discovery {
        Some(discovery) => Some(open_searches(rt, discovery, addresses.listen)?),
        None if site => {
            let mut own = first.address;
            own.set_port(0);
            Some(open_datagrams(rt, own)?)
        }
        None => None,
    };
    Ok(Sockets {
        first,
        more,
        own_asks,
    })
}

fn open_entrance<R: System + Net<Listener = TcpListener, Stream = TcpStream>>(
    rt: R,
    listen: SocketAddr,
    addresses: &Addresses,
    site: bool,
) -> io::Result<Entrance> {
    let listener: TcpListener = TcpListener::bind(&rt, listen)?;
    let address = listener.local_addr()?;
    let listener_door = TcpStream::from(OwnedFd::from(listener.try_clone()?));
    let datagrams = open_datagrams(rt, address)?;
    if !addresses.beacons.is_empty() {
        datagrams.socket.set_broadcast(true)?;
    }
    if site {
        bound_sends(&listener);
        widen_receives(&datagrams.socket);
    }
    Ok(Entrance {
        address,
        listener,
        listener_door,
        datagrams,
        is_broadcast: is_broadcast(&rt, address),
    })
}

/// Whether it is the address of an interface's broadcasts: the system refuses one as a peer, unless it was asked for.
pub fn is_broadcast<R: Net>(rt: &R, address: SocketAddr) -> bool {
    let any = SocketAddr::new(IpAddr::V4(Ipv4Addr::UNSPECIFIED), 0);
    let Ok(socket) = UdpSocket::bind(rt, any) else {
        return false;
    };
    match socket.connect(address) {
        Ok(()) => false,
        Err(fault) => fault.kind() == ErrorKind::PermissionDenied,
    }
}

// All addresses that are searched at are of one family, or where there is none UPSTREAMs are of LISTEN's.
fn open_searches<R: System + Net<Listener = TcpListener, Stream = TcpStream>>(
    rt: R,
    discovery: &Discovery,
    listen: SocketAddr,
) -> io::Result<Datagrams> {
    let any = if discovery.is_ipv4(listen) {
        IpAddr::V4(Ipv4Addr::UNSPECIFIED)
    } else {
        IpAddr::V6(Ipv6Addr::UNSPECIFIED)
    };
    let own = open_datagrams(rt, SocketAddr::new(any, 0))?;
    own.socket.set_broadcast(true)?;
    widen_receives(&own.socket);
    Ok(own)
}

fn open_datagrams<R: System + Net<Listener = TcpListener, Stream = TcpStream>>(
    rt: R,
    address: SocketAddr,
) -> io::Result<Datagrams> {
    let socket = UdpSocket::bind(&rt, address)?;
    let door = TcpStream::from(OwnedFd::from(socket.try_clone()?));
    Ok(Datagrams { socket, door })
}
