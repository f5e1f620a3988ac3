//! Clients that connect.
use crate::hub::{Arrival, AsHub, Hub};
use crate::line::WatchedStream;
use crate::machine::System;
use crate::workers::start_workers;
use gateway_core::{Dest, Event};
use pv_name::Host;
use serve_state::{Notice, RosterRefusal, is_kept_back};
use std::alloc::Global;
use std::fmt::Write;
use std::net::{IpAddr, Shutdown, SocketAddr, TcpStream};
use std::os::fd::AsRawFd;
use std::thread;
use std::thread::Scope;
use std::time::Duration;

/// How many milliseconds pass after no connection could be accepted.
const PAUSE: u64 = 20;

/// Accepts clients at the entrance of this place, and hands each on at once: the system keeps few that wait to be accepted, and forgets the
/// others half.
pub fn accept_clients<R: System, H: AsHub>(rt: R, hub: &H, place: usize) {
    for _ in rt.forever() {
        let accepted = hub.hub().sockets.entrance(place).listener.accept();
        if hub.hub().is_closing(&rt) {
            return;
        }
        match accepted {
            Ok((stream, peer)) => arrive(rt, hub.hub(), stream, peer),
            Err(_) => thread::sleep(&rt, Duration::from_millis(PAUSE)),
        }
    }
}

fn arrive<R: System>(rt: R, hub: &Hub, stream: TcpStream, peer: SocketAddr) {
    if is_spare(hub, &stream) {
        let _ = stream.shutdown(Shutdown::Both);
        hub.tell(
            &rt,
            Notice::ClientRefused(peer, "no descriptors are free but those kept for upstreams"),
        );
        return;
    }
    hand_on(rt, hub, Arrival { stream, peer });
}

// Whether its descriptor is one of those that are kept for servers.
fn is_spare(hub: &Hub, stream: &TcpStream) -> bool {
    let servers = hub.servers_kept();
    match u64::try_from(stream.as_raw_fd()) {
        Ok(descriptor) => is_kept_back(descriptor, hub.most_files, servers),
        Err(_) => false,
    }
}

fn hand_on<R: System>(rt: R, hub: &Hub, arrival: Arrival) {
    let added = hub.arrivals.lock(&rt).waiting.push_back(arrival);
    match added {
        Ok(()) => hub.arrived.notify_all(),
        Err(_) => hub.tell(&rt, Notice::OutOfMemory),
    }
}

/// Greets the clients that were accepted, in order, and starts the workers of each.
pub fn greet_clients<'x, 's: 'x, E: 's, R: System + 's, H: AsHub + Sync + 's>(
    rt: R,
    scope: &'x Scope<'s, E>,
    hub: &'s H,
) {
    for _ in rt.forever() {
        let Some(Arrival { stream, peer }) = next_arrival(rt, hub.hub()) else {
            return;
        };
        greet(rt, &*scope, &*hub, stream, peer);
    }
}

// The next client to greet. None where the gateway closes.
fn next_arrival<R: System>(rt: R, hub: &Hub) -> Option<Arrival> {
    let arrivals = hub.arrivals.lock(&rt);
    let mut arrivals = hub.arrived.wait_while(&rt, arrivals, |arrivals| {
        !arrivals.end && arrivals.waiting.is_empty()
    });
    if arrivals.end {
        return None;
    }
    arrivals.waiting.pop_front()
}

fn greet<'x, 's: 'x, E: 's, R: System + 's, H: AsHub + Sync + 's>(
    rt: R,
    scope: &'x Scope<'s, E>,
    hub: &'s H,
    stream: TcpStream,
    peer: SocketAddr,
) {
    let _ = stream.set_nodelay(true);
    let (Ok(host), Ok(line)) = (
        host_of(hub.hub(), &peer),
        WatchedStream::new(hub.hub().alloc, stream),
    ) else {
        hub.hub().tell(&rt, Notice::OutOfMemory);
        return;
    };
    let Ok(own) = line.share() else {
        hub.hub().tell(&rt, Notice::OutOfMemory);
        return;
    };
    let admitted = admit(rt, hub.hub(), own, peer);
    let number = match admitted {
        Ok(number) => number,
        Err(refusal) => {
            let _ = line.stream.shutdown(Shutdown::Both);
            tell_of(rt, hub.hub(), peer, refusal);
            return;
        }
    };
    hub.hub().tell(&rt, Notice::ClientConnected(number, peer));
    let _ = hub.gate().desk(&rt, Event::Opened(number, host));
    start_workers(rt, &*scope, &*hub, Dest::Session(number), &line);
}

fn admit<R: System>(
    rt: R,
    hub: &Hub,
    line: WatchedStream,
    peer: SocketAddr,
) -> Result<u32, RosterRefusal> {
    let mut roster = hub.roster.lock(&rt);
    match hub.options.clients_of_host {
        Some(seats) => {
            roster.admit_client_of_host(line, peer, host_number(&peer), seats.number as usize)
        }
        None => roster.admit_client(line, peer),
    }
}

/// The number of the host: an IPv4 address is that of IPv6 that stands for it.
pub fn host_number(peer: &SocketAddr) -> u128 {
    match peer.ip() {
        IpAddr::V4(ip) => ip.to_ipv6_mapped().to_bits(),
        IpAddr::V6(ip) => ip.to_bits(),
    }
}

fn tell_of<R: System>(rt: R, hub: &Hub, peer: SocketAddr, refusal: RosterRefusal) {
    match refusal {
        RosterRefusal::Full => {
            count_refused(rt, hub);
            tell_full(rt, hub, peer);
        }
        RosterRefusal::HostFull => hub.tell(
            &rt,
            Notice::ClientRefused(peer, "as many clients of its host are connected as may be"),
        ),
        RosterRefusal::OutOfMemory => hub.tell(&rt, Notice::ClientRefused(peer, "out of memory")),
        RosterRefusal::Closing | RosterRefusal::Held => (),
    }
}

// As many clients as may be are connected.
fn tell_full<R: System>(rt: R, hub: &Hub, peer: SocketAddr) {
    let mut why = String::new(hub.alloc);
    let clients = hub.options.scale.clients;
    if write!(why, "{clients} clients are connected").is_ok() {
        hub.tell(&rt, Notice::ClientRefused(peer, why.as_str()));
    }
}

fn count_refused<R: System>(rt: R, hub: &Hub) {
    let mut refused = hub.refused.lock(&rt);
    *refused = refused.saturating_add(1);
}

/// The host that has this address. Where hosts are checked, one of IPv4 that came over IPv6 is written as what it
/// is, so that files need list it once.
pub fn host_of(hub: &Hub, peer: &SocketAddr) -> Result<Host, ()> {
    let ip = if hub.options.scale.checks_hosts {
        peer.ip().to_canonical()
    } else {
        peer.ip()
    };
    host_at(hub.alloc, ip)
}

/// The host at this address, as a text.
pub fn host_at(alloc: Global, ip: IpAddr) -> Result<Host, ()> {
    let mut text = String::new(alloc);
    if write!(text, "{ip}").is_err() {
        return Err(());
    }
    Host::read(alloc, text.as_bytes()).map_err(|_| ())
}
