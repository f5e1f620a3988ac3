//! Searches that can't be answered when they come, and are answered once they can be: so one search is enough.
use crate::asker::milliseconds;
use crate::clients::{host_number, host_of};
use crate::hub::{AsHub, Hub};
use crate::machine::System;
use crate::pace::Pace;
use crate::seekers::peer_of;
use crate::sockets::Sender;
use ca_header::{Frame, Frames};
use ca_message::NameText;
use ca_message::commands::CA_PROTO_SEARCH;
use gateway_core::Event;
use pv_name::{Name, NoMemory};
use pv_search::{NameAsk, SearchAnswer, ask_datagram, read_found};
use serve_state::{Late, LateQueue, LateSearch, Notice};
use std::alloc::{AllocError, Global};
use std::collections::HashSet;
use std::mem::replace;
use std::net::SocketAddr;
use std::sync::CondvarTimeouts;
use std::time::Duration;

/// So many searches are asked of the gate at once.
const PART: usize = 16;

/// So many parts are asked one after the other; then what came meanwhile is looked at.
const RUN_LIMIT: usize = 32;

/// So many searches are taken in at once, for the same reason: one that comes in beside 4,096 takes some 40 microseconds.
const TAKEN: usize = 256;

/// So many for names that no server had, while rounds are quick: else those for names that one had wait for them.
const FEW_TAKEN: usize = 16;

/// How many milliseconds pass between two rounds over few searches that wait, after a server told of a name.
const QUICK: u64 = 4;

/// One millisecond more for each so many searches.
const MORE: u64 = 128;

/// For so many milliseconds after that the rounds are quick.
const QUICK_FOR: u64 = 512;

/// How many milliseconds pass between two rounds at other times.
const SLOW: u64 = 256;

/// So many names that servers told of wait to be noted.
const FOUND_LIMIT: usize = 16_384;

/// Of so many names it is known that a server had them.
const KNOWN_LIMIT: usize = 65_536;

/// Who searched, and where the answer goes.
#[derive(Clone, Copy, PartialEq, Eq)]
pub enum Seeker {
    /// The sender of a datagram.
    Datagram(Sender),
    /// The client of this number, on its connection from this address.
    Connection(u32, SocketAddr),
}

impl Seeker {
    pub fn address(&self) -> SocketAddr {
        match self {
            Seeker::Datagram(sender) => sender.address,
            Seeker::Connection(_, peer) => *peer,
        }
    }

    /// Its search, made now.
    pub fn search<R: System>(self, rt: R, cid: u32, name: Name) -> LateSearch<Seeker> {
        let address = self.address();
        LateSearch {
            from: self,
            host: host_number(&address),
            port: address.port(),
            cid,
            name,
            since: milliseconds(rt, 0),
        }
    }
}

type PeerSearch = LateSearch<Seeker>;

/// What is wanted of whoever answers late.
#[derive(Drop)]
pub struct LateInbox {
    /// Searches that couldn't be answered.
    waiting: LateQueue<Seeker>,
    /// Names that a server told of, which may be connected soon.
    found: Vec<Name>,
    /// A server told of a name.
    has_found: bool,
    pub end: bool,
}

impl LateInbox {
    pub fn new(alloc: Global) -> LateInbox {
        LateInbox {
            waiting: LateQueue::new(alloc),
            found: Vec::new(alloc),
            has_found: false,
            end: false,
        }
    }

    // Whether it may rest a while: it isn't to end, and little came.
    fn has_room(&self) -> bool {
        !self.end && self.waiting.len() < TAKEN && self.found.len() < TAKEN
    }

    fn put_all(&mut self, searches: Vec<PeerSearch>) {
        for search in searches {
            if self.waiting.add(search).is_err() {
                return;
            }
        }
    }

    fn note_all(&mut self, names: &[Name]) -> Result<(), NoMemory> {
        self.has_found = true;
        for name in names {
            if self.found.len() < FOUND_LIMIT {
                self.found.push(name.copy()?)?;
            }
        }
        Ok(())
    }
}

/// Keeps the searches of this part of a datagram that the answer doesn't answer, where late answers are given.
pub fn keep_late<R: System>(rt: R, hub: &Hub, part: &[u8], answer: &SearchAnswer, from: Sender) {
    if !hub.options.late || answer.asked.as_slice().is_empty() {
        return;
    }
    match unanswered(rt, hub, part, answer, from) {
        Ok(searches) => keep_seekers(rt, hub, searches),
        Err(_) => hub.tell(&rt, Notice::OutOfMemory),
    }
}

/// Keeps these searches to be answered once they can be, where late answers are given.
pub fn keep_seekers<R: System>(rt: R, hub: &Hub, searches: Vec<LateSearch<Seeker>>) {
    if !hub.options.late || searches.is_empty() {
        return;
    }
    {
        hub.late.lock(&rt).put_all(searches);
    }
    hub.late_came.notify_all();
}

fn unanswered<R: System>(
    rt: R,
    hub: &Hub,
    part: &[u8],
    answer: &SearchAnswer,
    from: Sender,
) -> Result<Vec<PeerSearch>, NoMemory> {
    let found = read_found(hub.alloc, answer.reply.as_slice())?;
    let mut searches = Vec::new(hub.alloc);
    if found.len() >= answer.asked.as_slice().len() {
        return Ok(searches);
    }
    let mut frames = Frames::new(part);
    for _ in 0..part.len() {
        let Frame::Message(head, payload) = frames.next() else {
            break;
        };
        if head.command != CA_PROTO_SEARCH || found.contains(&head.p1) {
            continue;
        }
        if let Ok(name) = NameText::read(payload) {
            let name = name.to_name(hub.alloc)?;
            searches.push(Seeker::Datagram(from).search(rt, head.p1, name))?;
        }
    }
    Ok(searches)
}

/// A server told of these names: what waits for them may be answered soon.
pub fn note_found<R: System>(rt: R, hub: &Hub, names: &[Name]) {
    if !hub.options.late {
        return;
    }
    let noted = hub.late.lock(&rt).note_all(names);
    if noted.is_err() {
        hub.tell(&rt, Notice::OutOfMemory);
    }
    hub.late_came.notify_all();
}

/// Searches that wait, and how far the round over them is.
#[derive(Drop)]
struct WaitingSearches {
    // Not taken in yet.
    came: LateQueue<Seeker>,
    late: Late<Seeker>,
    // The round goes on at this place. It begins at the first one.
    place: usize,
    // When it goes on, in milliseconds of the system's clock.
    next: u64,
}

impl WaitingSearches {
    fn new(alloc: Global) -> WaitingSearches {
        WaitingSearches {
            came: LateQueue::new(alloc),
            late: Late::new(alloc),
            place: 0,
            next: 0,
        }
    }

    fn is_empty(&self) -> bool {
        self.came.len() == 0 && self.late.len() == 0
    }

    fn take_some(&mut self, most: usize) -> Result<(), NoMemory> {
        for _ in 0..most {
            match self.came.take() {
                Some(search) => self.late.add(search)?,
                None => break,
            }
        }
        Ok(())
    }

    fn quick(&self) -> u64 {
        QUICK + self.late.len() as u64 / MORE
    }

    // A server told of a name.
    fn hurry(&mut self, now: u64) {
        self.next = self.next.min(now.saturating_add(self.quick()));
    }

    // The round is over.
    fn rest(&mut self, now: u64, is_quick: bool) {
        let gap = if is_quick { self.quick() } else { SLOW };
        self.place = 0;
        self.next = now.saturating_add(gap);
    }
}

/// What whoever answers late knows. Searches for names that a server had don't wait behind others, of which there may be many
/// that nobody answers.
#[derive(Drop)]
struct LateKeeper {
    known: WaitingSearches,
    others: WaitingSearches,
    // Names that a server had.
    found: HashSet<Name>,
    // The time, in milliseconds of the system's clock.
    now: u64,
    // Until then rounds are quick.
    quick_until: u64,
}

impl LateKeeper {
    fn new(alloc: Global) -> LateKeeper {
        LateKeeper {
            known: WaitingSearches::new(alloc),
            others: WaitingSearches::new(alloc),
            found: HashSet::new(alloc),
            now: 0,
            quick_until: 0,
        }
    }

    fn is_idle(&self) -> bool {
        self.known.is_empty() && self.others.is_empty()
    }

    fn is_quick(&self) -> bool {
        self.now < self.quick_until
    }

    // How many milliseconds it may wait.
    fn left(&self) -> u64 {
        if self.known.came.len() > 0 || self.others.came.len() > 0 {
            return 1;
        }
        let next = self.known.next.min(self.others.next);
        next.saturating_sub(self.now).max(1)
    }

    // Where there are too many, it forgets those that it knows.
    fn note(&mut self, name: Name) -> Result<(), NoMemory> {
        if self.found.len() >= KNOWN_LIMIT {
            self.found.clear();
        }
        match self.found.insert(name) {
            Ok(_) => Ok(()),
            Err(_) => Err(AllocError),
        }
    }

    fn take_in(&mut self, inbox: LateInbox) -> Result<(), NoMemory> {
        let LateInbox {
            mut waiting,
            found,
            has_found,
            end: _,
        } = inbox;
        if has_found {
            self.quick_until = self.now.saturating_add(QUICK_FOR);
            self.known.hurry(self.now);
            self.others.hurry(self.now);
        }
        for name in found {
            self.note(name)?;
        }
        for _ in 0..waiting.len() {
            let Some(search) = waiting.take() else {
                break;
            };
            if self.found.contains(&search.name) {
                self.known.came.add(search)?;
            } else {
                self.others.came.add(search)?;
            }
        }
        self.known.take_some(TAKEN)?;
        let most = if self.is_quick() { FEW_TAKEN } else { TAKEN };
        self.others.take_some(most)
    }
}

/// Answers searches that were kept, once what they look for is connected, until the gateway closes.
pub fn answer_late<R: System, H: AsHub>(rt: R, hub: &H) {
    let mut keeper = LateKeeper::new(hub.hub().alloc);
    for _ in rt.forever() {
        let Some(inbox) = next_inbox(rt, hub.hub(), &keeper) else {
            return;
        };
        keeper.now = milliseconds(rt, keeper.now);
        let done = match keeper.take_in(inbox) {
            Ok(()) => go_on(rt, hub, &mut keeper),
            Err(fault) => Err(fault),
        };
        if done.is_err() {
            hub.hub().tell(&rt, Notice::OutOfMemory);
        }
    }
}

// What came, once something is to be done. None where the gateway ends.
fn next_inbox<R: System>(rt: R, hub: &Hub, keeper: &LateKeeper) -> Option<LateInbox> {
    let inbox = hub.late.lock(&rt);
    let mut inbox = if keeper.is_idle() {
        hub.late_came.wait_while(&rt, inbox, |inbox| {
            inbox.waiting.len() == 0 && inbox.has_room()
        })
    } else {
        let pause = Duration::from_millis(keeper.left());
        let is_quick = keeper.is_quick();
        let (inbox, _) = hub
            .late_came
            .wait_timeout_while(&rt, inbox, pause, |inbox| {
                inbox.has_room() && (is_quick || !inbox.has_found)
            });
        inbox
    };
    if inbox.end {
        return None;
    }
    Some(replace(&mut *inbox, LateInbox::new(hub.alloc)))
}

// Goes on with each round that is due.
fn go_on<R: System, H: AsHub>(rt: R, hub: &H, keeper: &mut LateKeeper) -> Result<(), NoMemory> {
    let (now, is_quick) = (keeper.now, keeper.is_quick());
    answer_some(rt, hub, &mut keeper.known, now, is_quick)?;
    answer_some(rt, hub, &mut keeper.others, now, is_quick)
}

/// Searches that stand together and came from one address.
#[derive(Drop)]
struct Run {
    from: Seeker,
    asks: Vec<NameAsk>,
}

// The searches from this place on, as many as came from one address and are asked of the gate at once.
fn run_at(alloc: Global, late: &Late<Seeker>, place: usize) -> Result<Option<Run>, NoMemory> {
    let Some(first) = late.get(place) else {
        return Ok(None);
    };
    let mut run = Run {
        from: first.from,
        asks: Vec::new(alloc),
    };
    for at in place..late.len() {
        let Some(row) = late.get(at) else {
            break;
        };
        if row.from != run.from || run.asks.len() >= PART {
            break;
        }
        run.asks.push(NameAsk {
            name: row.name.copy()?,
            cid: row.cid,
        })?;
    }
    Ok(Some(run))
}

// A part of a round over all searches that wait, where it is due.
fn answer_some<R: System, H: AsHub>(
    rt: R,
    hub: &H,
    waiting: &mut WaitingSearches,
    now: u64,
    is_quick: bool,
) -> Result<(), NoMemory> {
    if now < waiting.next {
        return Ok(());
    }
    if waiting.place == 0 {
        waiting.late.expire(now);
    }
    let mut pace = Pace::begin(rt);
    for _ in 0..RUN_LIMIT {
        let Some(run) = run_at(hub.hub().alloc, &waiting.late, waiting.place)? else {
            waiting.rest(milliseconds(rt, now), is_quick);
            return Ok(());
        };
        let before = waiting.late.len();
        let asked = answer_run(rt, hub, &mut waiting.late, &run)?;
        let answered = before.saturating_sub(waiting.late.len());
        waiting.place = waiting.place.saturating_add(asked.saturating_sub(answered));
        pace.rest(rt);
    }
    Ok(())
}

// Sends what can be answered of them, and answers how many were asked of the gate: at least one.
fn answer_run<R: System, H: AsHub>(
    rt: R,
    hub: &H,
    late: &mut Late<Seeker>,
    run: &Run,
) -> Result<usize, NoMemory> {
    let alloc = hub.hub().alloc;
    let datagram = ask_datagram(alloc, run.asks.as_slice())?;
    let asked = datagram.asked.max(1);
    let address = run.from.address();
    let Ok(host) = host_of(hub.hub(), &address) else {
        return Ok(asked);
    };
    let Ok(answer) = hub.gate().search(&rt, &host, datagram.text.as_slice()) else {
        return Ok(asked);
    };
    let reply = answer.reply.as_slice();
    if !reply.is_empty() {
        let found = read_found(alloc, reply)?;
        match run.from {
            Seeker::Datagram(sender) => hub.hub().sockets.reply(alloc, sender, reply)?,
            Seeker::Connection(session, peer) => {
                // Another client may have the number meanwhile.
                if peer_of(rt, hub.hub(), session) == Some(peer) {
                    seek_again(rt, hub, session, run, &found)?;
                }
            }
        }
        late.answered(host_number(&address), address.port(), found.as_slice());
    }
    Ok(asked)
}

// Makes the searches of a client again that can be answered now: the core answers them by the client's own rules.
fn seek_again<R: System, H: AsHub>(
    rt: R,
    hub: &H,
    session: u32,
    run: &Run,
    found: &[u32],
) -> Result<(), NoMemory> {
    for ask in &run.asks {
        if found.contains(&ask.cid) {
            let name = ask.name.copy()?;
            let _ = hub.gate().desk(&rt, Event::Seek(session, ask.cid, name));
        }
    }
    Ok(())
}
