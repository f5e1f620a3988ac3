//! Beacons of servers: where one comes that is new, names are asked for sooner that no server had.
use crate::asker::milliseconds;
use crate::finding::{Finding, address_of};
use crate::hub::{AsHub, Hub};
use crate::machine::System;
use ca_header::{Frame, Frames, Header};
use pv_name::NoMemory;
use serve_state::Notice;
use server_book::{Address, is_believed};
use std::alloc::{AllocError, Global};
use std::collections::HashMap;
use std::net::{IpAddr, Ipv4Addr, Net, SocketAddr, TcpListener, TcpStream, UdpSocket};
use std::sync::Arc;
use std::time::Duration;
use std::{io, thread};

/// The command of a beacon, and that by which a repeater says that it sends them on.
const RSRV_IS_UP: u16 = 13;

const REPEATER_CONFIRM: u16 = 17;

/// The port at which beacons are heard on each host, by its repeater.
const REPEATER_PORT: u16 = 5065;

/// The port of a server that names none.
const SERVER_PORT: u16 = 5064;

/// How many milliseconds pass before the repeater is asked again, whatever was the case.
const REQUEST_GAP: u64 = 60_000;

/// After so many without an answer nobody is there.
const PATIENCE: u64 = 1_000;

/// For at most so many milliseconds it waits for a datagram.
const PAUSE: u64 = 500;

/// Of so many servers the last beacon is known.
const HEARD_LIMIT: usize = 16_384;

/// What is heard of a datagram at most.
const HEARD_SIZE: usize = 1_024;

/// Who sends beacons on.
#[derive(Clone, Copy, PartialEq, Eq)]
enum Source {
    /// The repeater was asked at this time, or never, and hasn't answered.
    Asked(Option<u64>),
    /// It was asked at this time, and nobody is there, but its port is taken.
    Silent(u64),
    /// It was asked at this time, and answered.
    Repeater(u64),
    /// Nobody: they are heard at its port since this time. Other programs of the host take it for a repeater's, and wait in vain for
    /// what one sends on, so the port is let go now and then.
    OwnPort(u64),
}

/// Where beacons are heard, and the ID of the last one of each server.
#[derive(Drop)]
struct Ear {
    socket: UdpSocket,
    source: Source,
    heard: HashMap<Address, u32>,
}

impl Ear {
    // Whether the beacon of this ID is that of a server that is new, or began anew. Where there are too many, those that are known
    // are forgotten.
    fn is_news(&mut self, address: Address, id: u32) -> Result<bool, NoMemory> {
        let is_news = match self.heard.get(&address) {
            Some(last) => id < *last,
            None => true,
        };
        if self.heard.len() >= HEARD_LIMIT {
            self.heard.clear();
        }
        match self.heard.insert(address, id) {
            Ok(_) => Ok(is_news),
            Err(_) => Err(AllocError),
        }
    }
}

/// Hears beacons until the gateway closes.
pub fn hear_beacons<R: System + Net<Listener = TcpListener, Stream = TcpStream>, H: AsHub + Drop>(
    rt: R,
    hub: Arc<H, Global>,
) {
    let shared: &H = &hub;
    let Ok(socket) = open_own_ear(rt) else {
        return;
    };
    let mut ear = Ear {
        socket,
        source: Source::Asked(None),
        heard: HashMap::new(shared.hub().alloc),
    };
    let mut piece = [0u8; HEARD_SIZE];
    let mut now = 0u64;
    for _ in rt.forever() {
        now = milliseconds(rt, now);
        find_source(rt, &mut ear, now);
        let received = ear.socket.recv_from(&mut piece[..]);
        if shared.hub().is_closing(&rt) {
            return;
        }
        match received {
            Ok((count, from)) => {
                let datagram = piece.get(..count).unwrap_or(&[]);
                if hear(rt, shared.hub(), &mut ear, datagram, from).is_err() {
                    shared.hub().tell(&rt, Notice::OutOfMemory);
                }
            }
            Err(_) => thread::sleep(&rt, Duration::from_millis(1)),
        }
    }
}

// One to which the repeater sends on.
fn open_own_ear<R: System + Net<Listener = TcpListener, Stream = TcpStream>>(
    rt: R,
) -> io::Result<UdpSocket> {
    open_ear(rt, SocketAddr::new(IpAddr::V4(Ipv4Addr::LOCALHOST), 0))
}

fn open_ear<R: System + Net<Listener = TcpListener, Stream = TcpStream>>(
    rt: R,
    address: SocketAddr,
) -> io::Result<UdpSocket> {
    let socket = UdpSocket::bind(&rt, address)?;
    socket.set_read_timeout(Some(Duration::from_millis(PAUSE)))?;
    Ok(socket)
}

// Asks the repeater to send beacons on, until it says that it does, and hears them in its place where nobody is there.
fn find_source<R: System + Net<Listener = TcpListener, Stream = TcpStream>>(
    rt: R,
    ear: &mut Ear,
    now: u64,
) {
    let source = ear.source;
    match source {
        Source::Asked(None) => ask_repeater(ear, now),
        Source::Asked(Some(asked)) if now.saturating_sub(asked) >= PATIENCE => {
            take_port(rt, ear, asked)
        }
        Source::Silent(asked) | Source::Repeater(asked)
            if now.saturating_sub(asked) >= REQUEST_GAP => { ask_repeater(ear, now) }
        Source::OwnPort(taken) if now.saturating_sub(taken) >= REQUEST_GAP => {
            leave_port(rt, ear, now)
        }
        Source::Asked(Some(_)) | Source::Silent(_) | Source::Repeater(_) | Source::OwnPort(_) => (),
    }
}

// A datagram without a byte asks it.
fn ask_repeater(ear: &mut Ear, now: u64) {
    let repeater = SocketAddr::new(IpAddr::V4(Ipv4Addr::LOCALHOST), REPEATER_PORT);
    let _ = ear.socket.send_to(b"", repeater);
    ear.source = Source::Asked(Some(now));
}

fn take_port<R: System + Net<Listener = TcpListener, Stream = TcpStream>>(
    rt: R,
    ear: &mut Ear,
    asked: u64,
) {
    let any = SocketAddr::new(IpAddr::V4(Ipv4Addr::UNSPECIFIED), REPEATER_PORT);
    match open_ear(rt, any) {
        Ok(socket) => {
            ear.socket = socket;
            ear.source = Source::OwnPort(asked);
        }
        Err(_) => ear.source = Source::Silent(asked),
    }
}

// Until the repeater had time to answer, the port is anybody's. Where no other can be opened, it stays.
fn leave_port<R: System + Net<Listener = TcpListener, Stream = TcpStream>>(
    rt: R,
    ear: &mut Ear,
    now: u64,
) {
    match open_own_ear(rt) {
        Ok(socket) => {
            ear.socket = socket;
            ask_repeater(ear, now);
        }
        Err(_) => ear.source = Source::OwnPort(now),
    }
}

fn hear<R: System>(
    rt: R,
    hub: &Hub,
    ear: &mut Ear,
    datagram: &[u8],
    from: SocketAddr,
) -> Result<(), NoMemory> {
    let Some(finding) = &hub.finding else {
        return Ok(());
    };
    let mut frames = Frames::new(datagram);
    for _ in 0..datagram.len() {
        let Frame::Message(head, _) = frames.next() else {
            break;
        };
        match head.command {
            REPEATER_CONFIRM => note_repeater(ear),
            RSRV_IS_UP => hear_beacon(rt, hub, finding, ear, &head, from)?,
            _ => (),
        }
    }
    Ok(())
}

// The repeater answered what it was asked.
fn note_repeater(ear: &mut Ear) {
    let source = ear.source;
    match source {
        Source::Asked(Some(asked)) | Source::Silent(asked) => ear.source = Source::Repeater(asked),
        Source::Asked(None) | Source::Repeater(_) | Source::OwnPort(_) => (),
    }
}

// The server is where the beacon says, or where it came from.
fn hear_beacon<R: System>(
    rt: R,
    hub: &Hub,
    finding: &Finding,
    ear: &mut Ear,
    head: &Header,
    from: SocketAddr,
) -> Result<(), NoMemory> {
    let ip = if head.p2 == 0 {
        from.ip()
    } else {
        IpAddr::V4(Ipv4Addr::from_bits(head.p2))
    };
    let port = match u16::try_from(head.count) {
        Ok(0) | Err(_) => SERVER_PORT,
        Ok(port) => port,
    };
    let address = address_of(ip, port);
    let own = address_of(hub.listen.ip(), hub.listen.port());
    let nets = finding.nets.as_slice();
    let is_server = is_believed(address.host, address, nets, own) && !hub.is_own(address);
    if is_server && ear.is_news(address, head.p1)? {
        hub.seek_sooner(&rt);
    }
    Ok(())
}
