//! Name servers: names are asked of them over TCP as others are by datagrams, and what they reply is heard as datagrams are.
use crate::asker::milliseconds;
use crate::datagrams::take_replies;
use crate::finding::{Finding, address_of};
use crate::hub::{AsHub, HOST, Hub, Stream, USER};
use crate::link::read_once;
use crate::machine::System;
use crate::servers::is_own_door;
use crate::upstreams::{Upstream, Upstreams, look_up};
use crate::workers::STACK_SIZE;
use name_server::{StreamFault, StreamReplies, Tries, WaitingText, echo, greeting, searches_in};
use pv_name::{Name, NoMemory};
use serve_state::{Cut, Notice};
use std::alloc::{AllocError, Global};
use std::io::{ErrorKind, Write};
use std::net::{IpAddr, Ipv4Addr, Net, Shutdown, SocketAddr, TcpListener, TcpStream};
use std::sync::{Arc, Condvar, Mutex, Wait};
use std::thread;
use std::thread::{Builder, Threads};
use std::time::Duration;

/// In so many seconds a connection is made, or can't be, and something is taken that is written.
const PATIENCE: u64 = 5;

/// One that says nothing for so many seconds is asked whether it is there, where nothing else is said of servers.
const ALIVE: u32 = 30;

/// How many bytes are read at once.
const PIECE: usize = 4_096;

/// What waits to be written to a name server.
#[derive(Drop)]
struct NameServerInbox {
    // The number of the connection that stands, from 1 on; 0 where none does, and then nothing waits.
    connection: u64,
    text: WaitingText,
}

impl NameServerInbox {
    fn is_idle(&self) -> bool {
        self.connection > 0 && self.text.is_empty()
    }

    // What can't be kept is dropped: its names are asked for again.
    fn add(&mut self, text: &[u8]) {
        if self.connection > 0 {
            let _ = self.text.add(text);
        }
    }
}

/// What those share who ask a name server, write to it, and hear it.
#[derive(Drop)]
struct NameServer {
    inbox: Mutex<NameServerInbox>,
    came: Condvar,
}

impl NameServer {
    fn new(alloc: Global) -> NameServer {
        NameServer {
            inbox: Mutex::new(NameServerInbox {
                connection: 0,
                text: WaitingText::new(alloc),
            }),
            came: Condvar::new(),
        }
    }

    // A connection stands, on which this is said first.
    fn begin<R: Wait>(&self, rt: &R, connection: u64, text: &[u8]) {
        {
            let mut inbox = self.inbox.lock(rt);
            inbox.connection = connection;
            inbox.add(text);
        }
        self.came.notify_all();
    }

    fn add<R: Wait>(&self, rt: &R, text: &[u8]) {
        self.inbox.lock(rt).add(text);
        self.came.notify_all();
    }

    // No connection stands.
    fn end<R: Wait>(&self, rt: &R, alloc: Global) {
        {
            let mut inbox = self.inbox.lock(rt);
            inbox.connection = 0;
            inbox.text = WaitingText::new(alloc);
        }
        self.came.notify_all();
    }

    // What is to be written next on a connection. None where it stands no more.
    fn next<R: Wait>(&self, rt: &R, alloc: Global, connection: u64) -> Option<Vec<u8>> {
        let inbox = self.inbox.lock(rt);
        let mut inbox = self.came.wait_while(rt, inbox, |inbox| inbox.is_idle());
        if inbox.connection == connection {
            Some(inbox.text.take(alloc))
        } else {
            None
        }
    }
}

/// All name servers.
#[derive(Drop)]
pub struct NameServers {
    places: Upstreams,
    servers: Vec<NameServer>,
}

impl NameServers {
    /// Of these, the first of which has number 1. None is connected.
    pub fn new(alloc: Global, places: Vec<Upstream>) -> Result<NameServers, NoMemory> {
        let mut servers = Vec::new(alloc);
        for _ in 0..places.len() {
            servers.push(NameServer::new(alloc))?;
        }
        Ok(NameServers {
            places: Upstreams::new(alloc, places)?,
            servers,
        })
    }

    /// How many there are.
    pub fn count(&self) -> u32 {
        self.places.count()
    }

    /// Asks all that are connected for the names that a datagram asks for.
    pub fn ask<R: Wait>(&self, rt: &R, datagram: &[u8]) {
        let searches = searches_in(datagram);
        for server in &self.servers {
            server.add(rt, searches);
        }
    }

    fn at(&self, number: u32) -> Option<&NameServer> {
        let place = number.checked_sub(1)?;
        self.servers.get(place as usize)
    }
}

/// What was told last of a name server: so an outage is told once.
#[derive(Clone, Copy)]
enum LastTold {
    /// Nothing, or that it is connected.
    Up,
    /// That it is lost, or can't be reached.
    Down,
    /// The same, and it said nothing on its last connection.
    Mute,
}

/// What whoever keeps the connection to a name server knows.
#[derive(Drop)]
struct NameServerKeeper {
    number: u32,
    // Where it is, as far as is known.
    peer: SocketAddr,
    // So many connections were made.
    connections: u64,
    tries: Tries,
    last_told: LastTold,
    // Something was heard on this connection.
    is_heard: bool,
}

impl NameServerKeeper {
    fn new(number: u32) -> NameServerKeeper {
        NameServerKeeper {
            number,
            peer: SocketAddr::new(IpAddr::V4(Ipv4Addr::UNSPECIFIED), 0),
            connections: 0,
            tries: Tries::new(),
            last_told: LastTold::Up,
            is_heard: false,
        }
    }

    // A connection is made.
    fn connect<R: System>(&mut self, rt: R, hub: &Hub) {
        self.connections = self.connections.saturating_add(1);
        self.is_heard = false;
        if !matches!(self.last_told, LastTold::Mute) {
            self.last_told = LastTold::Up;
            hub.tell(&rt, Notice::NameServerConnected(self.number, self.peer));
        }
    }

    // It said something.
    fn hear<R: System>(&mut self, rt: R, hub: &Hub) {
        self.is_heard = true;
        if matches!(self.last_told, LastTold::Mute) {
            self.last_told = LastTold::Up;
            hub.tell(&rt, Notice::NameServerConnected(self.number, self.peer));
        }
    }

    // No connection can be made.
    fn fail<R: System>(&mut self, rt: R, hub: &Hub) {
        if matches!(self.last_told, LastTold::Up) {
            self.last_told = LastTold::Down;
            hub.tell(&rt, Notice::NameServerUnreached(self.number, self.peer));
        }
    }

    // The connection is lost, or cut off for a reason.
    fn lose<R: System>(&mut self, rt: R, hub: &Hub, why: Option<Cut>) {
        if matches!(self.last_told, LastTold::Mute) {
            return;
        }
        self.last_told = if self.is_heard {
            LastTold::Down
        } else {
            LastTold::Mute
        };
        let notice = match why {
            Some(why) => Notice::NameServerCut(self.number, self.peer, why),
            None => Notice::NameServerLost(self.number, self.peer),
        };
        hub.tell(&rt, notice);
    }
}

/// Connects to the name server of this number again and again, and hears it, until the gateway closes.
pub fn keep_name_server<
    R: System + Threads + Net<Listener = TcpListener, Stream = TcpStream> + 'static,
    H: AsHub + Send + Sync + Drop + 'static,
>(rt: R, hub: Arc<H, Global>, number: u32) {
    let mut keeper = NameServerKeeper::new(number);
    for _ in rt.forever() {
        let stood = keep_once(rt, &hub, &mut keeper);
        if hub.hub().is_closing(&rt) {
            return;
        }
        let gap = keeper.tries.lost(stood);
        thread::sleep(&rt, Duration::from_secs(gap));
    }
}

// Makes a connection, and answers how many seconds it stood: 0 where it can't be made.
fn keep_once<
    R: System + Threads + Net<Listener = TcpListener, Stream = TcpStream> + 'static,
    H: AsHub + Send + Sync + Drop + 'static,
>(rt: R, hub: &Arc<H, Global>, keeper: &mut NameServerKeeper) -> u64 {
    let shared: &H = hub;
    let Some(stream) = reach(rt, shared.hub(), keeper) else {
        keeper.fail(rt, shared.hub());
        return 0;
    };
    keeper.connect(rt, shared.hub());
    let began = milliseconds(rt, 0);
    let why = converse(rt, hub, keeper, stream);
    if !shared.hub().is_closing(&rt) {
        keeper.lose(rt, shared.hub(), why);
    }
    milliseconds(rt, began).saturating_sub(began) / 1_000
}

// None too where it would lead to the gateway itself.
fn reach<R: System + Net<Listener = TcpListener, Stream = TcpStream>>(
    rt: R,
    hub: &Hub,
    keeper: &mut NameServerKeeper,
) -> Option<TcpStream> {
    keeper.peer = looked_up(rt, hub, keeper.number)?;
    if hub.is_own(address_of(keeper.peer.ip(), keeper.peer.port())) {
        return None;
    }
    let patience = Duration::from_secs(PATIENCE);
    let stream: TcpStream = TcpStream::connect_timeout(&rt, &keeper.peer, patience).ok()?;
    if is_own_door(hub, keeper.peer, &stream) {
        return None;
    }
    Some(stream)
}

// Where it is, which is looked up anew where the command line names its host.
fn looked_up<R: System + Net<Listener = TcpListener, Stream = TcpStream>>(
    rt: R,
    hub: &Hub,
    number: u32,
) -> Option<SocketAddr> {
    let places = &hub.name_servers.places;
    if let Some(word) = places.word(number) {
        if let Some(found) = look_up(&rt, word, hub.listen.is_ipv4()) {
            places.move_to(&rt, number, found);
            return Some(found);
        }
    }
    places.at(&rt, number)
}

// Asks and hears it until the connection ends: why it is cut off, if it is.
fn converse<
    R: System + Threads + Net<Listener = TcpListener, Stream = TcpStream> + 'static,
    H: AsHub + Send + Sync + Drop + 'static,
>(rt: R, hub: &Arc<H, Global>, keeper: &mut NameServerKeeper, stream: TcpStream) -> Option<Cut> {
    let shared: &H = hub;
    let finding = shared.hub().finding.as_ref()?;
    let server = shared.hub().name_servers.at(keeper.number)?;
    let alloc = shared.hub().alloc;
    let _ = stream.set_nodelay(true);
    let _ = stream.set_write_timeout(Some(Duration::from_secs(PATIENCE)));
    let (Ok(text), Ok(stream)) = (first_text(alloc), Arc::new(alloc, stream)) else {
        return Some(Cut::OutOfMemory);
    };
    server.begin(&rt, keeper.connections, text.as_slice());
    let why = if start_writer(rt, hub, keeper, &stream) {
        finding.note_name_server(&rt);
        hear_until_end(rt, shared.hub(), finding, server, keeper, &stream)
    } else {
        Some(Cut::OutOfMemory)
    };
    server.end(&rt, alloc);
    let _ = stream.shutdown(Shutdown::Both);
    why
}

// What is said first: who the gateway is, as servers are told.
fn first_text(alloc: Global) -> Result<Vec<u8>, NoMemory> {
    match (
        Name::read(alloc, USER.as_bytes()),
        Name::read(alloc, HOST.as_bytes()),
    ) {
        (Ok(user), Ok(host)) => greeting(alloc, &user, &host),
        _ => Err(AllocError),
    }
}

fn start_writer<
    R: System + Threads + Net<Listener = TcpListener, Stream = TcpStream> + 'static,
    H: AsHub + Send + Sync + Drop + 'static,
>(rt: R, hub: &Arc<H, Global>, keeper: &NameServerKeeper, stream: &Stream) -> bool {
    let (number, connection) = (keeper.number, keeper.connections);
    let writing: Result<Stream, _> = Arc::try_clone(stream);
    match (Arc::try_clone(hub), writing) {
        (Ok(hub), Ok(writing)) => Builder::new()
            .stack_size(STACK_SIZE)
            .spawn(
                &rt,
                move || write_until_end(rt, hub.hub(), number, connection, &writing),
            )
            .is_ok(),
        _ => false,
    }
}

// Writes what waits, as long as the connection stands. One that doesn't read is left.
fn write_until_end<R: System>(rt: R, hub: &Hub, number: u32, connection: u64, stream: &TcpStream) {
    let Some(server) = hub.name_servers.at(number) else {
        return;
    };
    for _ in rt.forever() {
        let Some(text) = server.next(&rt, hub.alloc, connection) else {
            return;
        };
        let mut writing: &TcpStream = stream;
        if writing.write_all(text.as_slice()).is_err() {
            let _ = stream.shutdown(Shutdown::Both);
            return;
        }
    }
}

// Hears replies until the connection ends. One that says nothing for long is asked whether it is there, and cut off where it says
// nothing for as long again.
fn hear_until_end<R: System>(
    rt: R,
    hub: &Hub,
    finding: &Finding,
    server: &NameServer,
    keeper: &mut NameServerKeeper,
    stream: &TcpStream,
) -> Option<Cut> {
    let alive = patience(hub);
    let pause = Duration::from_secs(u64::from(alive));
    stream.set_read_timeout(Some(pause)).ok()?;
    let mut replies = StreamReplies::new(hub.alloc);
    let mut piece = [0u8; PIECE];
    let mut is_asked = false;
    for _ in rt.forever() {
        match read_once(stream, &mut piece[..]) {
            Ok(0) => return None,
            Ok(count) => {
                is_asked = false;
                let heard = replies.hear(hub.alloc, piece.get(..count).unwrap_or(&[]));
                match heard {
                    Ok(found) => {
                        keeper.hear(rt, hub);
                        take_replies(rt, hub, finding, found, keeper.peer);
                    }
                    Err(fault) => return Some(why_cut(fault)),
                }
            }
            Err(fault) if fault.kind() != ErrorKind::WouldBlock => return None,
            Err(_) if is_asked => return Some(Cut::Unanswering(alive)),
            Err(_) => {
                is_asked = true;
                server.add(&rt, echo().as_slice());
            }
        }
    }
    None
}

// For so many seconds it may say nothing.
fn patience(hub: &Hub) -> u32 {
    match hub.options.alive {
        Some(patience) => patience.seconds,
        None => ALIVE,
    }
}

fn why_cut(fault: StreamFault) -> Cut {
    match fault {
        StreamFault::OutOfMemory => Cut::OutOfMemory,
        StreamFault::NoAnswers => Cut::NoAnswers,
    }
}
