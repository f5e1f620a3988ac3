//! Connections to servers.
use crate::finding::{Came, address_of};
use crate::hub::{AsHub, Hub};
use crate::line::{Watched, WatchedStream};
use crate::machine::System;
use crate::upstreams::look_up;
use crate::workers::{RULES_STACK_SIZE, STACK_SIZE};
use gateway_core::Dest;
use serve_state::{Cut, Notice, RosterRefusal, Try};
use std::alloc::Global;
use std::net::{Net, Shutdown, SocketAddr, TcpListener, TcpStream};
use std::sync::Arc;
use std::thread;
use std::thread::{Builder, Threads};
use std::time::Duration;

/// So many seconds a server of the command line has for its connection.
const PATIENCE: u64 = 5;

/// So many connections to servers of the command line are made at once, where all of them are to be connected to; as many again
/// to those that are named by hosts.
const MOST_MADE: usize = 32;

/// So many times it is looked whether a connection that was ended is gone.
const LOOKS: u32 = 2_000;

/// How many milliseconds pass between two of these looks, and between two whether another connection may be made.
const PAUSE: u64 = 5;

/// Connects to all servers of the command line, one after the other where many can't be reached. Those that are named by hosts come
/// last, and hold none of the others up: the system may take long to look a host up.
pub fn connect_all<
    R: System + Threads + Net<Listener = TcpListener, Stream = TcpStream> + 'static,
    H: AsHub + Send + Sync + Drop + 'static,
>(rt: R, hub: &Arc<H, Global>, tried: Try) {
    connect_those(rt, hub, tried, false);
    connect_those(rt, hub, tried, true);
}

// Connects to those that are named by hosts, or to the others.
fn connect_those<
    R: System + Threads + Net<Listener = TcpListener, Stream = TcpStream> + 'static,
    H: AsHub + Send + Sync + Drop + 'static,
>(rt: R, hub: &Arc<H, Global>, tried: Try, is_named: bool) {
    for number in 1..=hub.hub().server_count() {
        if is_named_by_host(hub.hub(), number) != is_named {
            continue;
        }
        if !has_room(rt, hub.hub(), is_named) {
            return;
        }
        connect(rt, hub, number, tried);
    }
}

/// Connects again to all servers of the command line that are lost; to those that are named by hosts from behind this number on, as
/// far as there is room. The number of the last of these.
pub fn connect_again<
    R: System + Threads + Net<Listener = TcpListener, Stream = TcpStream> + 'static,
    H: AsHub + Send + Sync + Drop + 'static,
>(rt: R, hub: &Arc<H, Global>, last: u32) -> u32 {
    connect_those(rt, hub, Try::Repeated, false);
    let count = hub.hub().server_count();
    let mut last = last;
    for _ in 0..count {
        let next = if last < count {
            last.saturating_add(1)
        } else {
            1
        };
        if is_named_by_host(hub.hub(), next) {
            if made(rt, hub.hub(), true) >= MOST_MADE {
                return last;
            }
            connect(rt, hub, next, Try::Repeated);
        }
        last = next;
    }
    last
}

fn is_named_by_host(hub: &Hub, number: u32) -> bool {
    hub.servers.word(number).is_some()
}

// Waits until another connection may be made, to one that is named by its host or to another one. False where the gateway closes.
fn has_room<R: System>(rt: R, hub: &Hub, is_named: bool) -> bool {
    for _ in rt.forever() {
        if hub.is_closing(&rt) {
            return false;
        }
        if made(rt, hub, is_named) < MOST_MADE {
            return true;
        }
        thread::sleep(&rt, Duration::from_millis(PAUSE));
    }
    false
}

// How many connections to such servers of the command line are being made.
fn made<R: System>(rt: R, hub: &Hub, is_named: bool) -> usize {
    let mut count = 0usize;
    for row in hub.roster.lock(&rt).rows() {
        if let Dest::Upstream(number) = row.dest() {
            let is_one = number <= hub.server_count() && is_named_by_host(hub, number) == is_named;
            if is_one && row.link().is_none() {
                count = count.saturating_add(1);
            }
        }
    }
    count
}

/// Connects to the server of this number, in a thread of its own that nobody waits for. It does nothing where
/// there is no such server, or its connection stands or is being made; but one that was asked whether it is there and
/// hasn't said anything since is ended first, where somebody ordered this. That it can't be reached is told to who
/// ordered it, and else once until it is connected.
pub fn connect<
    R: System + Threads + Net<Listener = TcpListener, Stream = TcpStream> + 'static,
    H: AsHub + Send + Sync + Drop + 'static,
>(rt: R, hub: &Arc<H, Global>, number: u32, tried: Try) {
    let Some(peer) = hub.hub().servers.told(&rt, number) else {
        return;
    };
    match begin(rt, hub.hub(), number, peer) {
        Ok(()) => (),
        Err(RosterRefusal::Held) if tried == Try::Ordered => {
            replace(rt, hub, number, peer);
            return;
        }
        Err(_) => return,
    }
    let started = match Arc::try_clone(hub) {
        Ok(hub) => Builder::new()
            .stack_size(stack_size(hub.hub(), number))
            .spawn(
                &rt,
                move || reach(rt, hub.hub(), number, peer, tried, PATIENCE),
            )
            .is_ok(),
        Err(_) => false,
    };
    if !started {
        fail(rt, hub.hub(), number, peer, tried);
    }
}

// The system needs more to look a host up.
fn stack_size(hub: &Hub, number: u32) -> usize {
    match hub.servers.word(number) {
        Some(_) => RULES_STACK_SIZE,
        None => STACK_SIZE,
    }
}

fn begin<R: System>(rt: R, hub: &Hub, number: u32, peer: SocketAddr) -> Result<(), RosterRefusal> {
    hub.roster.lock(&rt).begin_server(number, peer)
}

// Ends the connection to a server that was asked whether it is there and hasn't said anything since, and connects to it
// once it is gone, in a thread of its own. Any other connection goes on.
fn replace<
    R: System + Threads + Net<Listener = TcpListener, Stream = TcpStream> + 'static,
    H: AsHub + Send + Sync + Drop + 'static,
>(rt: R, hub: &Arc<H, Global>, number: u32, peer: SocketAddr) {
    let dest = Dest::Upstream(number);
    let Some(line) = line_of(rt, hub.hub(), dest) else {
        return;
    };
    let watched: &Watched = &line.watched;
    if !watched.is_probed(rt) {
        return;
    }
    hub.hub().cut(&rt, dest, Cut::Replaced);
    let _ = line.stream.shutdown(Shutdown::Both);
    drop(line);
    let Ok(again) = Arc::try_clone(hub) else {
        return;
    };
    let size = stack_size(hub.hub(), number);
    let started = Builder::new().stack_size(size).spawn(
        &rt,
        move || reach_once_gone(rt, again.hub(), number, peer),
    );
    if started.is_err() {
        hub.hub().tell(&rt, Notice::OutOfMemory);
    }
}

// The connection, where it is made.
fn line_of<R: System>(rt: R, hub: &Hub, dest: Dest) -> Option<WatchedStream> {
    let roster = hub.roster.lock(&rt);
    for row in roster.rows() {
        if row.dest() == dest {
            return match row.link() {
                Some(line) => line.share().ok(),
                None => None,
            };
        }
    }
    None
}

// The row of the connection that was ended goes once all that it led to is performed.
fn reach_once_gone<R: System + Net<Listener = TcpListener, Stream = TcpStream>>(
    rt: R,
    hub: &Hub,
    number: u32,
    peer: SocketAddr,
) {
    for _ in 0..LOOKS {
        match begin(rt, hub, number, peer) {
            Ok(()) => {
                reach(rt, hub, number, peer, Try::Ordered, PATIENCE);
                return;
            }
            Err(RosterRefusal::Held) => thread::sleep(&rt, Duration::from_millis(PAUSE)),
            Err(_) => return,
        }
    }
}

/// Connects to a server that was found by search, which has so many seconds for that, in a thread of its own that nobody waits for.
pub fn connect_found<
    R: System + Threads + Net<Listener = TcpListener, Stream = TcpStream> + 'static,
    H: AsHub + Send + Sync + Drop + 'static,
>(rt: R, hub: &Arc<H, Global>, number: u32, peer: SocketAddr, patience: u64) {
    if begin(rt, hub.hub(), number, peer).is_err() {
        hub.hub().note_server(&rt, number, Came::Failed);
        return;
    }
    let started = match Arc::try_clone(hub) {
        Ok(hub) => Builder::new()
            .stack_size(stack_size(hub.hub(), number))
            .spawn(
                &rt,
                move || reach(rt, hub.hub(), number, peer, Try::Repeated, patience),
            )
            .is_ok(),
        Err(_) => false,
    };
    if !started {
        fail(rt, hub.hub(), number, peer, Try::Repeated);
    }
}

/// Whether the connection leads to an address on which clients are served, where that is each one of the machine too: no reply
/// tells which these are.
pub fn is_own_door(hub: &Hub, peer: SocketAddr, stream: &TcpStream) -> bool {
    if hub.is_own(address_of(peer.ip(), peer.port())) {
        return true;
    }
    if !is_served(hub, peer.port()) {
        return false;
    }
    match stream.local_addr() {
        Ok(own) => own.ip() == peer.ip() || peer.ip().is_loopback(),
        Err(_) => true,
    }
}

fn reach<R: System + Net<Listener = TcpListener, Stream = TcpStream>>(
    rt: R,
    hub: &Hub,
    number: u32,
    peer: SocketAddr,
    tried: Try,
    patience: u64,
) {
    let Some(peer) = looked_up(rt, hub, number, peer) else {
        fail(rt, hub, number, peer, tried);
        return;
    };
    let patience = Duration::from_secs(patience);
    match TcpStream::connect_timeout(&rt, &peer, patience) {
        Ok(stream) if !is_own_door(hub, peer, &stream) => {
            take(rt, hub, number, peer, tried, stream)
        }
        _ => fail(rt, hub, number, peer, tried),
    }
}

// Where the server is, which is looked up anew where the command line names its host; the row has the address then. None where
// it isn't known.
fn looked_up<R: System + Net<Listener = TcpListener, Stream = TcpStream>>(
    rt: R,
    hub: &Hub,
    number: u32,
    peer: SocketAddr,
) -> Option<SocketAddr> {
    let word = match hub.servers.word(number) {
        Some(word) => word,
        None => return Some(peer),
    };
    let Some(found) = look_up(&rt, word, hub.listen.is_ipv4()) else {
        return hub.servers.at(&rt, number);
    };
    if found != peer {
        hub.servers.move_to(&rt, number, found);
        let mut roster = hub.roster.lock(&rt);
        roster.remove(Dest::Upstream(number));
        roster.begin_server(number, found).ok()?;
    }
    Some(found)
}

// Whether clients are served at this port of each address of the machine.
fn is_served(hub: &Hub, port: u16) -> bool {
    for place in 0..hub.sockets.count() {
        let own = hub.sockets.entrance(place).address;
        if own.ip().is_unspecified() && own.port() == port {
            return true;
        }
    }
    false
}

// The connection is made.
fn take<R: System>(rt: R, hub: &Hub, number: u32, peer: SocketAddr, tried: Try, stream: TcpStream) {
    let _ = stream.set_nodelay(true);
    match WatchedStream::new(hub.alloc, stream) {
        Ok(line) => {
            hub.roster.lock(&rt).connected(Dest::Upstream(number), line);
            hub.changed.notify_all();
        }
        Err(_) => fail(rt, hub, number, peer, tried),
    }
}

// While its row stands nobody else tries it, so that what was told is known before the next try.
fn fail<R: System>(rt: R, hub: &Hub, number: u32, peer: SocketAddr, tried: Try) {
    let is_news = hub.outages.lock(&rt).fail(number, tried);
    hub.roster.lock(&rt).remove(Dest::Upstream(number));
    hub.note_server(&rt, number, Came::Failed);
    let notice = match (is_news, hub.is_found(number)) {
        (true, true) => Notice::FoundUnreached(number, peer),
        (true, false) => Notice::ServerUnreached(number, peer),
        (false, _) => Notice::ServerStillUnreached(number, peer),
    };
    hub.tell(&rt, notice);
}
