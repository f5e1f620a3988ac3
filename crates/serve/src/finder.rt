//! Servers that are found by search: which are connected to, and which names wait for that.
use crate::asker::milliseconds;
use crate::attempts::{Attempt, Attempts};
use crate::finding::{Came, Told, address_of, socket_address};
use crate::hub::{AsHub, Hub};
use crate::late::note_found;
use crate::machine::System;
use crate::pace::Pace;
use crate::servers::connect_found;
use crate::status;
use crate::watcher::shut;
use gateway_core::{Dest, Event};
use pv_name::{Name, NoMemory};
use serve_state::{Clashes, Cut, Notice};
use server_book::{Address, Heard, LAST_LOOK, LOOKS_OF_SECOND, ServerBook, Standing};
use std::alloc::Global;
use std::collections::HashMap;
use std::net::{Net, SocketAddr, TcpListener, TcpStream};
use std::sync::{Arc, CondvarTimeouts};
use std::thread::Threads;
use std::time::Duration;

/// How many milliseconds a look of the book has.
const LOOK: u64 = 32;

/// Of so many asks it is known who answered first.
const FIRST_LIMIT: usize = 65_536;

/// How many milliseconds pass between two looks at servers that can't be reached.
const PAUSE: u64 = 1_000;

/// How many milliseconds pass at least between two times that servers which came have all names asked for anew.
const MINUTE: u64 = 60_000;

/// An hour, in milliseconds.
const HOUR: u64 = 3_600_000;

/// A server that couldn't be reached is forgotten so many looks after it is held off no longer.
const FORGOTTEN_AFTER: u64 = 300 * LOOKS_OF_SECOND;

/// What whoever finds servers knows.
#[derive(Drop)]
struct Finder {
    book: ServerBook,
    // So many servers are known for good, and so many may be known.
    fixed: u32,
    most: u32,
    // A server that has had no link at so many looks in a row, a second apart, is left.
    idle: u32,
    // Which are to be connected to.
    attempts: Attempts,
    // Who answered an ask first, of those that the book took.
    firsts: HashMap<u32, Address>,
    clashes: Clashes,
    // The hour in which it was told that there are as many servers as may be.
    told_full: Option<u64>,
    // A server or a name server came, since all names were asked for anew at this time.
    has_come: bool,
    hurried: Option<u64>,
    // When it was looked at last which servers can't be reached, and in which look room was made for others.
    looked: u64,
    emptied: u64,
    // The time, in milliseconds of the system's clock.
    now: u64,
}

impl Finder {
    fn new(hub: &Hub) -> Result<Finder, NoMemory> {
        let most = hub.options.scale.servers;
        let idle = match &hub.finding {
            Some(finding) => finding.idle,
            None => u32::MAX,
        };
        let mut book = ServerBook::new(hub.alloc, most, idle)?;
        for number in 1..=hub.server_count() {
            if let Some(address) = hub.servers.first_at(number) {
                book.fix(address_of(address.ip(), address.port()))?;
            }
        }
        Ok(Finder {
            book,
            fixed: hub.server_count(),
            most,
            idle,
            attempts: Attempts::new(hub.alloc),
            firsts: HashMap::new(hub.alloc),
            clashes: Clashes::new(hub.alloc),
            told_full: None,
            has_come: false,
            hurried: None,
            looked: 0,
            emptied: 0,
            now: 0,
        })
    }

    fn look(&self) -> u64 {
        self.now / LOOK
    }

    // The other server that answered this ask before.
    fn other_first(&self, cid: u32, address: Address) -> Option<Address> {
        match self.firsts.get(&cid) {
            Some(first) if *first != address => Some(*first),
            _ => None,
        }
    }

    // The book took an answer to this ask. Where memory is refused, it isn't noted.
    fn note_first(&mut self, cid: u32, address: Address) {
        if self.firsts.len() >= FIRST_LIMIT {
            self.firsts.clear();
        }
        let _ = self.firsts.insert(cid, address);
    }

    // The server of this number is to be connected to.
    fn put(&mut self, number: u32) -> Result<(), NoMemory> {
        let address = match self.book.server(number) {
            Some(server) => server.address,
            None => return Ok(()),
        };
        let put = self.attempts.put(number, address);
        if put.is_err() {
            let look = self.look();
            self.book.failed(number, look);
        }
        put
    }

    // The connection to the server of this number couldn't be made.
    fn failed(&mut self, number: u32) {
        if let Some(server) = self.book.server(number) {
            self.attempts.failed(number, server.address);
        }
        let look = self.look();
        self.book.failed(number, look);
    }

    // The names that waited for the connection, which stands, whoever had it made.
    fn connected(&mut self, number: u32) -> Vec<Name> {
        self.has_come = true;
        if let Some(server) = self.book.server(number) {
            self.attempts.connected(number, server.address);
        }
        self.book.retry(number, LAST_LOOK);
        self.book.connected(number)
    }

    // Whether all names are to be asked for anew, since servers came.
    fn hurries(&mut self) -> bool {
        let rests = match self.hurried {
            Some(last) => self.now.saturating_sub(last) < MINUTE,
            None => false,
        };
        if rests || !self.has_come {
            return false;
        }
        self.has_come = false;
        self.hurried = Some(self.now);
        true
    }

    // Whether the server of this number is connected.
    fn stands(&self, number: u32) -> bool {
        match self.book.server(number) {
            Some(server) => matches!(server.standing, Standing::Stands),
            None => false,
        }
    }

    // Whether the server of this number is held off no longer since so many looks.
    fn is_over(&self, number: u32, after: u64) -> bool {
        match self.book.server(number) {
            Some(server) => match server.standing {
                Standing::HeldOff(until) => until.saturating_add(after) <= self.look(),
                Standing::Connecting | Standing::Stands => false,
            },
            None => false,
        }
    }
}

/// Finds servers until the gateway closes.
pub fn find_servers<
    R: System + Threads + Net<Listener = TcpListener, Stream = TcpStream> + 'static,
    H: AsHub + Send + Sync + Drop + 'static,
>(rt: R, hub: Arc<H, Global>) {
    let Ok(mut finder) = Finder::new(hub.hub()) else {
        hub.hub().tell(&rt, Notice::OutOfMemory);
        hub.end(&rt, status::FAILED);
        return;
    };
    for _ in rt.forever() {
        let Some(told) = next_told(rt, hub.hub(), &mut finder) else {
            return;
        };
        finder.now = milliseconds(rt, finder.now);
        let shared: &H = &hub;
        note_all(rt, shared, &mut finder);
        hear_all(rt, shared, &mut finder, told);
        connect_some(rt, &hub, &mut finder);
        look_around(rt, shared, &mut finder);
    }
}

// The replies that came, once anything did or time passed. None where the gateway ends.
fn next_told<R: System>(rt: R, hub: &Hub, finder: &mut Finder) -> Option<Vec<Told>> {
    let finding = hub.finding.as_ref()?;
    let inbox = finding.inbox.lock(&rt);
    let pause = Duration::from_millis(PAUSE);
    let (mut inbox, _) = finding
        .came
        .wait_timeout_while(&rt, inbox, pause, |inbox| inbox.is_empty());
    if inbox.end {
        return None;
    }
    finder.has_come |= inbox.take_name_server();
    Some(inbox.take_told(hub.alloc))
}

// Takes in what came of connections. The names that waited for one are handed to the gate one after the other.
fn note_all<R: System, H: AsHub>(rt: R, hub: &H, finder: &mut Finder) {
    let mut pace = Pace::begin(rt);
    for _ in rt.forever() {
        let Some((number, came)) = next_came(rt, hub.hub()) else {
            return;
        };
        note(rt, hub, finder, &mut pace, number, came);
    }
}

fn next_came<R: System>(rt: R, hub: &Hub) -> Option<(u32, Came)> {
    let finding = hub.finding.as_ref()?;
    finding.inbox.lock(&rt).take_came()
}

fn note<R: System, H: AsHub>(
    rt: R,
    hub: &H,
    finder: &mut Finder,
    pace: &mut Pace,
    number: u32,
    came: Came,
) {
    match came {
        Came::Connected => {
            for name in finder.connected(number) {
                hand_in(rt, hub, name, number);
                pace.rest(rt);
            }
        }
        Came::Failed => finder.failed(number),
        Came::Lost => {
            let look = finder.look();
            finder.book.lost(number, look)
        }
    }
}

fn hear_all<R: System, H: AsHub>(rt: R, hub: &H, finder: &mut Finder, told: Vec<Told>) {
    let mut pace = Pace::begin(rt);
    for told in told {
        if hear(rt, hub, finder, told).is_err() {
            hub.hub().tell(&rt, Notice::OutOfMemory);
        }
        pace.rest(rt);
    }
}

// A name is found on a server that stands.
fn hand_in<R: System, H: AsHub>(rt: R, hub: &H, name: Name, number: u32) {
    let mut names = Vec::new(hub.hub().alloc);
    let is_noted = match name.copy() {
        Ok(again) => names.push(again).is_ok(),
        Err(_) => false,
    };
    let _ = hub.gate().desk(&rt, Event::Found(name, number));
    if is_noted {
        note_found(rt, hub.hub(), names.as_slice());
        hub.hub().note_found(&rt, names, number);
    }
}

// The first that answers an ask has the name, where that is missing still; but one that is held off, or for which no name more
// waits, hides no other.
fn hear<R: System, H: AsHub>(
    rt: R,
    hub: &H,
    finder: &mut Finder,
    told: Told,
) -> Result<(), NoMemory> {
    if let Some(first) = finder.other_first(told.cid, told.address) {
        tell_of_two(rt, hub.hub(), finder, &told, first);
        return Ok(());
    }
    if !matches!(hub.gate().is_missing(&rt, &told.name), Ok(true)) {
        return Ok(());
    }
    let heard = hear_of(rt, hub.hub(), finder, &told)?;
    if is_taken(heard) {
        finder.note_first(told.cid, told.address);
    }
    match heard {
        Heard::Find(number) => hand_in(rt, hub, told.name, number),
        Heard::Connect(number) => finder.put(number)?,
        Heard::Full => tell_full(rt, hub.hub(), finder),
        Heard::Waits(_) | Heard::HeldOff | Heard::Dropped => (),
    }
    Ok(())
}

// Whether the name is found, or waits.
fn is_taken(heard: Heard) -> bool {
    match heard {
        Heard::Find(_) | Heard::Connect(_) | Heard::Waits(_) => true,
        Heard::Full | Heard::HeldOff | Heard::Dropped => false,
    }
}

// Where there is no number, servers that can't be reached make room, once a look.
fn hear_of<R: System>(
    rt: R,
    hub: &Hub,
    finder: &mut Finder,
    told: &Told,
) -> Result<Heard, NoMemory> {
    let look = finder.look();
    let Some(address) = known_as(rt, hub, finder, told.address) else {
        return Ok(Heard::Dropped);
    };
    let heard = finder.book.heard(address, &told.name, look)?;
    if heard != Heard::Full || finder.emptied == look {
        return Ok(heard);
    }
    finder.emptied = look;
    forget(rt, hub, finder, 0);
    finder.book.heard(address, &told.name, look)
}

// Two servers have a name: that is told once.
fn tell_of_two<R: System>(rt: R, hub: &Hub, finder: &mut Finder, told: &Told, first: Address) {
    let hour = finder.now / HOUR;
    let is_news = match told.name.copy() {
        Ok(again) => finder.clashes.tell(again, hour),
        Err(fault) => Err(fault),
    };
    if matches!(is_news, Ok(true)) {
        let (one, other) = (socket_address(first), socket_address(told.address));
        hub.tell(&rt, Notice::NameAtTwo(told.name.text(), one, other));
    }
}

// That is told once an hour.
fn tell_full<R: System>(rt: R, hub: &Hub, finder: &mut Finder) {
    let hour = finder.now / HOUR;
    if finder.told_full != Some(hour) {
        finder.told_full = Some(hour);
        hub.tell(&rt, Notice::ServersFull(finder.most));
    }
}

// Begins connections, as many as are made at once.
fn connect_some<
    R: System + Threads + Net<Listener = TcpListener, Stream = TcpStream> + 'static,
    H: AsHub + Send + Sync + Drop + 'static,
>(rt: R, hub: &Arc<H, Global>, finder: &mut Finder) {
    for _ in rt.forever() {
        let Some(attempt) = finder.attempts.take() else {
            return;
        };
        let Attempt { number, patience } = attempt;
        match peer_of(rt, hub.hub(), finder, number) {
            Some(peer) => connect_found(rt, hub, number, peer, patience),
            None => finder.failed(number),
        }
    }
}

// Where the server is: one of the command line may have moved since the book knows it.
fn peer_of<R: System>(rt: R, hub: &Hub, finder: &Finder, number: u32) -> Option<SocketAddr> {
    if number <= finder.fixed {
        return hub.servers.told(&rt, number);
    }
    let server = finder.book.server(number)?;
    Some(socket_address(server.address))
}

// The address under which the book has the server that is here. One of the command line that moved stays there under its first
// one: a server that is at that now isn't known.
fn known_as<R: System>(rt: R, hub: &Hub, finder: &Finder, address: Address) -> Option<Address> {
    if let Some(number) = hub.servers.number_of(&rt, &socket_address(address)) {
        let server = finder.book.server(number)?;
        return Some(server.address);
    }
    match finder.book.number_of(address) {
        Some(number) if number <= finder.fixed => None,
        _ => Some(address),
    }
}

// Once a second leaves servers that nobody needs, and forgets those that can't be reached, so that others have their numbers.
fn look_around<R: System, H: AsHub>(rt: R, hub: &H, finder: &mut Finder) {
    if finder.hurries() {
        hub.hub().ask(&rt);
    }
    if finder.now.saturating_sub(finder.looked) >= PAUSE {
        finder.looked = finder.now;
        leave_idle(rt, hub, finder);
        forget(rt, hub.hub(), finder, FORGOTTEN_AFTER);
    }
}

// Ends connections to servers that were found and have had no link for long. What is lost with one is found again.
fn leave_idle<R: System, H: AsHub>(rt: R, hub: &H, finder: &mut Finder) {
    for number in finder.fixed.saturating_add(1)..=finder.most {
        if !finder.stands(number) {
            continue;
        }
        let Ok(links) = hub.gate().link_count_of(&rt, number) else {
            return;
        };
        if finder.book.look(number, links) {
            let dest = Dest::Upstream(number);
            hub.hub().leave_server(&rt, number);
            hub.hub().cut(&rt, dest, Cut::Idle(finder.idle));
            shut(rt, hub.hub(), dest);
        }
    }
}

fn forget<R: System>(rt: R, hub: &Hub, finder: &mut Finder, after: u64) {
    for number in finder.fixed.saturating_add(1)..=finder.most {
        if finder.is_over(number, after) && finder.book.free(number) {
            hub.forget_server(&rt, number);
        }
    }
}
