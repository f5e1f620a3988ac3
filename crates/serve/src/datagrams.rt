//! Datagrams: clients' searches, and servers' replies to asks.
use crate::asker::milliseconds;
use crate::clients::{host_number, host_of};
use crate::finding::{Finding, Told, address_of};
use crate::hub::{AsHub, Hub, Wish};
use crate::late::{keep_late, note_found};
use crate::machine::System;
use crate::pace::Pace;
use crate::searches::{has_waiting, put_search};
use crate::sockets::Sender;
use ask_schedule::AtOnce;
use gateway_core::{AskFault, Event};
use pv_name::{Host, Name, NoMemory};
use pv_search::{Datagram, Reply, SearchAnswer, first_part, read_found, read_replies};
use serve_state::{Clashes, Notice};
use server_book::{Address, is_believed};
use std::net::{IpAddr, Ipv4Addr, SocketAddr};
use std::thread;
use std::time::Duration;

/// A datagram has fewer bytes.
pub const DATAGRAM_SIZE: usize = 65_536;

/// The most bytes that a datagram is sent with.
const SENT_SIZE: usize = 65_507;

/// How many searches of a datagram are handed to the gate at once.
const PART: usize = 16;

/// How many milliseconds a look has. A full datagram of libca has as many parts as are heard of a host at once in one.
const LOOK: u64 = 32;

/// So many bytes a datagram that waits takes besides its own, or a few more.
const BESIDE: usize = 256;

/// An hour, in milliseconds.
const HOUR: u64 = 3_600_000;

/// How much whoever receives hears at once.
#[derive(Drop)]
struct Turns {
    at_once: AtOnce,
    pace: Pace,
}

/// Receives datagrams at the entrance of this place into the buffer, and hands each in. It sends nothing but a client's reply.
pub fn receive<R: System, H: AsHub>(rt: R, hub: &H, place: usize, buffer: Vec<u8>) {
    let mut buffer = buffer;
    let mut clashes = Clashes::new(hub.hub().alloc);
    let mut turns = Turns {
        at_once: AtOnce::new(hub.hub().alloc),
        pace: Pace::begin(rt),
    };
    for _ in rt.forever() {
        let entrance = hub.hub().sockets.entrance(place);
        let received = entrance.datagrams.socket.recv_from(&mut buffer);
        if hub.hub().is_closing(&rt) {
            return;
        }
        match received {
            Ok((count, from)) => {
                let datagram = &buffer[..count];
                if is_own(hub.hub(), datagram, &from) {
                    continue;
                }
                match hub.hub().servers.number_of(&rt, &from) {
                    Some(server) => hear_server(rt, hub, &mut clashes, datagram, server),
                    None if hub.hub().is_ignored(&from) => (),
                    None => {
                        let from = Sender {
                            address: from,
                            entrance: place,
                        };
                        hear_client(rt, hub, &mut turns, datagram, from)
                    }
                }
            }
            Err(_) => thread::sleep(&rt, Duration::from_millis(1)),
        }
    }
}

fn is_own(hub: &Hub, datagram: &[u8], from: &SocketAddr) -> bool {
    match &hub.finding {
        Some(finding) => finding.own.is_own(datagram, from),
        None => false,
    }
}

/// Receives servers' replies into the buffer, where they are asked through a socket of its own. Nobody else is heard there.
pub fn receive_replies<R: System, H: AsHub>(rt: R, hub: &H, buffer: Vec<u8>) {
    let mut buffer = buffer;
    let mut clashes = Clashes::new(hub.hub().alloc);
    for _ in rt.forever() {
        let received = hub.hub().sockets.asks().recv_from(&mut buffer);
        if hub.hub().is_closing(&rt) {
            return;
        }
        match received {
            Ok((count, from)) => {
                let datagram = &buffer[..count];
                if let Some(finding) = &hub.hub().finding {
                    hear_replies(rt, hub.hub(), finding, datagram, from);
                } else if let Some(server) = hub.hub().servers.number_of(&rt, &from) {
                    hear_server(rt, hub, &mut clashes, datagram, server);
                }
            }
            Err(_) => thread::sleep(&rt, Duration::from_millis(1)),
        }
    }
}

fn hear_replies<R: System>(rt: R, hub: &Hub, finding: &Finding, datagram: &[u8], from: SocketAddr) {
    match read_replies(hub.alloc, datagram) {
        Ok(replies) => take_replies(rt, hub, finding, replies, from),
        Err(_) => hub.tell(&rt, Notice::OutOfMemory),
    }
}

/// What is believed of replies goes to whoever finds servers.
pub fn take_replies<R: System>(
    rt: R,
    hub: &Hub,
    finding: &Finding,
    replies: Vec<Reply>,
    from: SocketAddr,
) {
    for reply in replies {
        let ip = match reply.host {
            Some(bits) => IpAddr::V4(Ipv4Addr::from_bits(bits)),
            None => from.ip(),
        };
        let address = address_of(ip, reply.port);
        if !is_heard(rt, hub, finding, host_number(&from), address) {
            continue;
        }
        let cid = reply.cid;
        if let Some(name) = asked_name(rt, hub, cid) {
            finding.tell(&rt, Told { cid, name, address });
        }
    }
    finding.came.notify_all();
}

// Whether a reply from this host counts which says that a server is at this address. The servers of the command line may be anywhere.
fn is_heard<R: System>(
    rt: R,
    hub: &Hub,
    finding: &Finding,
    source: u128,
    address: Address,
) -> bool {
    let own = address_of(hub.listen.ip(), hub.listen.port());
    let nets = finding.nets.as_slice();
    if is_believed(source, address, nets, own) && !hub.is_own(address) {
        return true;
    }
    source == address.host && hub.servers.has(&rt, address)
}

fn asked_name<R: System>(rt: R, hub: &Hub, cid: u32) -> Option<Name> {
    let asked = hub.asked.lock(&rt);
    asked.find(cid)?.copy().ok()
}

fn hear_server<R: System, H: AsHub>(
    rt: R,
    hub: &H,
    clashes: &mut Clashes,
    datagram: &[u8],
    server: u32,
) {
    let Ok(cids) = read_found(hub.hub().alloc, datagram) else {
        hub.hub().tell(&rt, Notice::OutOfMemory);
        return;
    };
    let mut names = Vec::new(hub.hub().alloc);
    for cid in cids.as_slice() {
        let (name, other) = asked_under(rt, hub.hub(), *cid, server);
        if let Some(name) = name {
            if let Some(other) = other {
                tell_clash(rt, hub.hub(), clashes, &name, other, server);
            }
            note_name(&mut names, &name);
            let _ = hub.gate().desk(&rt, Event::Found(name, server));
        }
    }
    note_found(rt, hub.hub(), names.as_slice());
    hub.hub().note_found(&rt, names, server);
}

// Where memory is refused, it isn't noted.
fn note_name(names: &mut Vec<Name>, name: &Name) {
    if let Ok(again) = name.copy() {
        let _ = names.push(again);
    }
}

// The name that was asked for under the CID, and the other server that answered that ask before this one.
fn asked_under<R: System>(rt: R, hub: &Hub, cid: u32, server: u32) -> (Option<Name>, Option<u32>) {
    let mut asked = hub.asked.lock(&rt);
    let other = asked.hear(cid, server);
    let name = match asked.find(cid) {
        Some(name) => name.copy().ok(),
        None => None,
    };
    (name, other)
}

// Two servers have a name: that is told once.
fn tell_clash<R: System>(
    rt: R,
    hub: &Hub,
    clashes: &mut Clashes,
    name: &Name,
    first: u32,
    other: u32,
) {
    let hour = milliseconds(rt, 0) / HOUR;
    let is_news = match name.copy() {
        Ok(again) => clashes.tell(again, hour),
        Err(fault) => Err(fault),
    };
    if matches!(is_news, Ok(true)) {
        hub.tell(&rt, Notice::NameOfTwo(name.text(), first, other));
    }
}

// What isn't heard at once of a client's datagram waits, and so do those that come behind it: so each host's are heard in the
// order in which they came, and the socket is emptied meanwhile.
fn hear_client<R: System, H: AsHub>(
    rt: R,
    hub: &H,
    turns: &mut Turns,
    datagram: &[u8],
    from: Sender,
) {
    let Ok(search) = SearchDatagram::new(hub.hub(), datagram, from) else {
        hub.hub().tell(&rt, Notice::OutOfMemory);
        return;
    };
    if has_waiting(rt, hub.hub()) {
        put_search(rt, hub.hub(), search);
    } else if let Some(left) = hear_at_once(rt, hub, turns, search) {
        put_search(rt, hub.hub(), left);
    }
}

// Hears the first parts, as long as the host has some left in this look, and gives the datagram back where there is more.
fn hear_at_once<R: System, H: AsHub>(
    rt: R,
    hub: &H,
    turns: &mut Turns,
    search: SearchDatagram,
) -> Option<SearchDatagram> {
    let mut search = search;
    for _ in rt.forever() {
        let look = milliseconds(rt, 0) / LOOK;
        if !matches!(turns.at_once.hear(look, search.host()), Ok(true)) {
            break;
        }
        search = hear_part(rt, hub, search)?;
        turns.pace.rest(rt);
    }
    Some(search)
}

/// A client's datagram, of which some is heard already.
#[derive(Drop)]
pub struct SearchDatagram {
    host: Host,
    text: Vec<u8>,
    // So many bytes of it were heard.
    heard: usize,
    // So many names were remembered before its first part.
    before: usize,
    sought: Sought,
}

impl SearchDatagram {
    fn new(hub: &Hub, datagram: &[u8], from: Sender) -> Result<SearchDatagram, ()> {
        let mut text = Vec::new(hub.alloc);
        if text.extend_from_slice(datagram).is_err() {
            return Err(());
        }
        Ok(SearchDatagram {
            host: host_of(hub, &from.address)?,
            text,
            heard: 0,
            before: 0,
            sought: Sought {
                from,
                reply: Datagram::new(hub.alloc),
                missing: Vec::new(hub.alloc),
                has_others: false,
            },
        })
    }

    /// The number of the host that it came from.
    pub fn host(&self) -> u128 {
        host_number(&self.sought.from.address)
    }

    /// How many bytes it takes.
    pub fn len(&self) -> usize {
        self.text.len().saturating_add(BESIDE)
    }
}

/// What a client's datagram came to so far.
#[derive(Drop)]
struct Sought {
    from: Sender,
    reply: Datagram,
    // The names that were asked for and are missing.
    missing: Vec<Wish>,
    // Whether others were asked for.
    has_others: bool,
}

/// Hears the next part, and gives the datagram back where there is another one. Behind the last one the reply is sent,
/// and what is missing is asked for. Behind the last whole message there is none, whatever bytes are left.
pub fn hear_part<R: System, H: AsHub>(
    rt: R,
    hub: &H,
    search: SearchDatagram,
) -> Option<SearchDatagram> {
    let SearchDatagram {
        host,
        text,
        heard,
        before,
        mut sought,
    } = search;
    let rest = text.get(heard..).unwrap_or(&[]);
    let len = first_part(rest, PART);
    let is_last = first_part(&rest[len..], PART) == 0;
    let before = if heard == 0 {
        remembered(rt, hub)
    } else {
        before
    };
    match hand_part(rt, hub, &host, &rest[..len], &mut sought) {
        Ok(()) => (),
        Err(AskFault::OutOfMemory) => {
            hub.hub().tell(&rt, Notice::OutOfMemory);
            return None;
        }
        Err(AskFault::Failed) => return None,
    }
    if is_last {
        finish(rt, hub, before, sought);
        return None;
    }
    Some(SearchDatagram {
        host,
        text,
        heard: heard.saturating_add(len),
        before,
        sought,
    })
}

// Hands a part to the gate.
fn hand_part<R: System, H: AsHub>(
    rt: R,
    hub: &H,
    host: &Host,
    part: &[u8],
    sought: &mut Sought,
) -> Result<(), AskFault> {
    if part.is_empty() {
        return Ok(());
    }
    let answer = hub.gate().search(&rt, host, part)?;
    if add_reply(hub.hub(), sought, &answer.reply).is_err() {
        return Err(AskFault::OutOfMemory);
    }
    remember(rt, hub, host, &answer, sought);
    keep_late(rt, hub.hub(), part, &answer, sought.from);
    Ok(())
}

// `before` names were remembered before the datagram.
fn finish<R: System, H: AsHub>(rt: R, hub: &H, before: usize, sought: Sought) {
    send_reply(hub.hub(), &sought);
    if !hub.hub().options.back_off {
        hub.hub().ask(&rt);
        return;
    }
    // Where a name leads to another one, that is among all that are asked for.
    let has_new = sought.has_others && remembered(rt, hub) > before;
    hub.hub().seek(&rt, sought.missing, has_new);
}

// What is said of one part more stands behind what is said already, where a datagram holds both.
fn add_reply(hub: &Hub, sought: &mut Sought, more: &Datagram) -> Result<(), NoMemory> {
    let together = sought
        .reply
        .as_slice()
        .len()
        .saturating_add(more.as_slice().len());
    if together > SENT_SIZE {
        send_reply(hub, sought);
        sought.reply = Datagram::new(hub.alloc);
    }
    sought.reply.join(more)
}

fn send_reply(hub: &Hub, sought: &Sought) {
    let reply = sought.reply.as_slice();
    if !reply.is_empty() {
        let _ = hub.sockets.reply(hub.alloc, sought.from, reply);
    }
}

fn remember<R: System, H: AsHub>(
    rt: R,
    hub: &H,
    host: &Host,
    answer: &SearchAnswer,
    sought: &mut Sought,
) {
    for name in answer.asked.as_slice() {
        match (host.copy(), name.copy()) {
            (Ok(host), Ok(name)) => {
                let _ = hub.gate().desk(&rt, Event::Search(host, name));
            }
            _ => {
                hub.hub().tell(&rt, Notice::OutOfMemory);
                return;
            }
        }
        if hub.hub().options.back_off {
            note_missing(rt, hub, name, sought);
        }
    }
}

fn note_missing<R: System, H: AsHub>(rt: R, hub: &H, name: &Name, sought: &mut Sought) {
    if !matches!(hub.gate().is_missing(&rt, name), Ok(true)) {
        sought.has_others = true;
        return;
    }
    let host = host_number(&sought.from.address);
    let is_noted = match name.copy() {
        Ok(name) => sought.missing.push(Wish { host, name }).is_ok(),
        Err(_) => false,
    };
    if !is_noted {
        sought.has_others = true;
    }
}

// How many searched names are remembered. Only who backs off asks for it.
fn remembered<R: System, H: AsHub>(rt: R, hub: &H) -> usize {
    if !hub.hub().options.back_off {
        return 0;
    }
    match hub.gate().row_counts(&rt) {
        Ok(rows) => rows.searches,
        Err(_) => 0,
    }
}
