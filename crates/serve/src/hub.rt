//! What all threads share.
use crate::beacons::Beacons;
use crate::clients::host_number;
use crate::finding::{Came, Finding, address_of};
use crate::late::LateInbox;
use crate::line::WatchedStream;
use crate::logging::LogBook;
use crate::machine::System;
use crate::name_servers::NameServers;
use crate::searches::WaitingDatagrams;
use crate::sockets::Sockets;
use crate::upstreams::Upstreams;
use gate_board::Gate;
use gateway_core::Dest;
use gateway_state::Limits;
use log::Level;
use pv_name::Name;
use serve_state::{
    Cut, FirstNumber, HostSeats, MostInAll, MostWaiting, Notice, Outages, Patience, Roster, Scale,
    Seconds, SentAsks,
};
use server_book::{Address, Net as HostNet};
use std::alloc::Global;
use std::collections::VecDeque;
use std::mem::replace;
use std::net::{Shutdown, SocketAddr, TcpStream};
use std::sync::{Arc, Condvar, Mutex, Wait};

/// What servers hear of the gateway: the name of its user, and of its host.
pub const USER: &str = "pvgate";

pub const HOST: &str = "gw";

/// A connection's socket.
pub type Stream = Arc<TcpStream, Global>;

/// The rows of connections, each with its peer.
pub type PeerRows = Roster<WatchedStream, SocketAddr>;

/// What a command line may say of how it serves.
#[derive(Clone, Copy)]
pub struct Options {
    /// A client for whom more waits is cut off.
    pub most_waiting: MostWaiting,
    /// Where more waits for all clients together, those for whom most does are cut off.
    pub most_in_all: Option<MostInAll>,
    /// So often lost servers are connected to again.
    pub reconnect: Option<Seconds>,
    /// So often it is forgotten which names clients looked for.
    pub sweep: Option<Seconds>,
    /// Whoever connects to this address is told of the gateway.
    pub status: Option<SocketAddr>,
    /// What has this level or a graver one is logged.
    pub log: Level,
    /// So many clients of one host may be connected at once.
    pub clients_of_host: Option<HostSeats>,
    /// A rule file without a byte is refused when it is read again.
    pub refuse_empty: bool,
    /// Names are asked for at looks that get rarer.
    pub back_off: bool,
    /// So many clients, servers and remembered names there may be.
    pub scale: Scale,
    /// A server that says nothing for so long is asked whether it is there, and a silent connection ends.
    pub alive: Option<Patience>,
    /// So often what nobody searched for meanwhile is forgotten.
    pub forget: Option<Seconds>,
    /// Searches that can't be answered at once are answered once they can be.
    pub late: bool,
    /// The first number of each kind that is given out.
    pub first: FirstNumber,
}

/// So many names that clients sought wait for the asker. Where there are more, it looks for all. Of those that servers told of
/// so many wait, too.
const MOST_SOUGHT: usize = 16_384;

/// A name that a client of this host sought.
#[derive(Drop)]
pub struct Wish {
    pub host: u128,
    pub name: Name,
}

/// What is wanted of the asker, and what it is told.
#[derive(Drop)]
pub struct Wanted {
    /// It is to be found out which names are to be asked for.
    pub asks: bool,
    /// Each name is to be asked for as if nobody had asked for it yet.
    pub soon: bool,
    /// Each name that was asked for often is to be asked for sooner. Nobody is woken for that.
    pub sooner: bool,
    /// A server that was found by search is lost.
    pub lost: bool,
    /// Names that clients sought, and that are missing.
    pub wishes: Vec<Wish>,
    /// Names that a server said it has. Nobody is woken for them.
    pub found: Vec<Name>,
    pub end: bool,
}

impl Wanted {
    fn nothing(alloc: Global) -> Wanted {
        Wanted {
            asks: false,
            soon: false,
            sooner: false,
            lost: false,
            wishes: Vec::new(alloc),
            found: Vec::new(alloc),
            end: false,
        }
    }

    pub fn is_nothing(&self) -> bool {
        !self.asks && !self.soon && !self.end && self.wishes.is_empty()
    }

    /// What was wanted; from now on nothing is.
    pub fn take(&mut self, alloc: Global) -> Wanted {
        replace(self, Wanted::nothing(alloc))
    }

    fn seek(&mut self, wishes: Vec<Wish>) {
        for wish in wishes {
            if self.wishes.len() >= MOST_SOUGHT {
                self.asks = true;
                return;
            }
            if self.wishes.push(wish).is_err() {
                self.asks = true;
            }
        }
    }

    fn note_found(&mut self, names: Vec<Name>) {
        for name in names {
            if self.found.len() >= MOST_SOUGHT || self.found.push(name).is_err() {
                return;
            }
        }
    }
}

/// A client that was accepted, and isn't greeted yet.
#[derive(Drop)]
pub struct Arrival {
    pub stream: TcpStream,
    pub peer: SocketAddr,
}

/// The clients that wait to be greeted.
#[derive(Drop)]
pub struct Arrivals {
    pub waiting: VecDeque<Arrival>,
    pub end: bool,
}

/// What all threads share besides the gate. Of its locks a thread holds one at a time.
#[derive(Drop)]
pub struct Hub {
    pub alloc: Global,
    pub sockets: Sockets,
    /// LISTEN, on which clients are served, where it isn't the only such address too.
    pub listen: SocketAddr,
    /// Searches by datagrams from these nets aren't heard.
    pub ignored: Vec<HostNet>,
    pub servers: Upstreams,
    /// How other servers are found, where they are searched for.
    pub finding: Option<Finding>,
    /// Where they are searched for over TCP.
    pub name_servers: NameServers,
    /// How beacons are sent, where they are.
    pub beacons: Option<Beacons>,
    pub options: Options,
    /// How many descriptors the process may have.
    pub most_files: u64,
    pub book: Arc<LogBook, Global>,
    pub roster: Mutex<PeerRows>,
    /// A row has to be looked at.
    pub changed: Condvar,
    pub arrivals: Mutex<Arrivals>,
    pub arrived: Condvar,
    pub wanted: Mutex<Wanted>,
    pub asker: Condvar,
    pub asked: Mutex<SentAsks>,
    pub outages: Mutex<Outages>,
    /// Searches that may be answered later.
    pub late: Mutex<LateInbox>,
    pub late_came: Condvar,
    /// Datagrams of clients of which more is to be heard.
    pub searches: Mutex<WaitingDatagrams>,
    pub searched: Condvar,
    /// How many edits of the rules were taken.
    pub edits: Mutex<u64>,
    /// How many clients were refused, since as many as can be were connected.
    pub refused: Mutex<u64>,
    /// How many clients were cut off, since more waited for all than may.
    pub cut_in_all: Mutex<u64>,
}

impl Hub {
    pub fn new(
        alloc: Global,
        sockets: Sockets,
        ignored: Vec<HostNet>,
        servers: Upstreams,
        finding: Option<Finding>,
        name_servers: NameServers,
        beacons: Option<Beacons>,
        options: Options,
        most_files: u64,
        book: Arc<LogBook, Global>,
    ) -> Hub {
        let asked = match &finding {
            Some(finding) => SentAsks::beginning(alloc, finding.own.first_cid),
            None => SentAsks::new(alloc),
        };
        Hub {
            alloc,
            listen: sockets.first.address,
            sockets,
            ignored,
            servers,
            finding,
            name_servers,
            beacons,
            options,
            most_files,
            book,
            roster: Mutex::new(Roster::new(alloc, options.scale.clients)),
            changed: Condvar::new(),
            arrivals: Mutex::new(Arrivals {
                waiting: VecDeque::new(alloc),
                end: false,
            }),
            arrived: Condvar::new(),
            wanted: Mutex::new(Wanted::nothing(alloc)),
            asker: Condvar::new(),
            asked: Mutex::new(asked),
            outages: Mutex::new(Outages::new()),
            late: Mutex::new(LateInbox::new(alloc)),
            late_came: Condvar::new(),
            searches: Mutex::new(WaitingDatagrams::new(alloc)),
            searched: Condvar::new(),
            edits: Mutex::new(0),
            refused: Mutex::new(0),
            cut_in_all: Mutex::new(0),
        }
    }

    /// How many servers there are.
    pub fn server_count(&self) -> u32 {
        self.servers.count()
    }

    /// The limits that hold.
    pub fn limits(&self) -> Limits {
        self.options.scale.limits()
    }

    /// Has the servers asked for all names that are wanted.
    pub fn ask<R: Wait>(&self, rt: &R) {
        {
            let mut wanted = self.wanted.lock(rt);
            wanted.asks = true;
            wanted.soon = true;
        }
        self.asker.notify_all();
    }

    /// Has missing names asked for sooner, since a server came that may have them.
    pub fn seek_sooner<R: Wait>(&self, rt: &R) {
        self.wanted.lock(rt).sooner = true;
    }

    /// Has missing names asked for, since a server that was found by search is lost.
    pub fn seek_lost<R: Wait>(&self, rt: &R) {
        {
            let mut wanted = self.wanted.lock(rt);
            wanted.asks = true;
            wanted.lost = true;
        }
        self.asker.notify_all();
    }

    /// Has these names asked for, and those that may be wanted from now on, where there are others. Only who backs
    /// off looks for it.
    pub fn seek<R: Wait>(&self, rt: &R, wishes: Vec<Wish>, has_others: bool) {
        if !self.options.back_off || (wishes.is_empty() && !has_others) {
            return;
        }
        {
            let mut wanted = self.wanted.lock(rt);
            wanted.asks |= has_others;
            wanted.seek(wishes);
        }
        self.asker.notify_all();
    }

    /// Tells that the server of this number has these names: who sends beacons, and the asker, if it backs off.
    pub fn note_found<R: Wait>(&self, rt: &R, names: Vec<Name>, number: u32) {
        if names.is_empty() {
            return;
        }
        if let Some(beacons) = &self.beacons {
            beacons.note_names(rt, names.as_slice(), number);
        }
        if self.options.back_off {
            self.wanted.lock(rt).note_found(names);
        }
    }

    /// Logs it. Nobody who calls this holds a lock.
    pub fn tell<R: System>(&self, rt: &R, notice: Notice<'_>) {
        self.book.tell(rt, notice);
    }

    pub fn is_closing<R: Wait>(&self, rt: &R) -> bool {
        self.roster.lock(rt).is_closing()
    }

    /// Shuts each socket and wakes each thread, so that all end.
    pub fn shut<R: Wait>(&self, rt: &R) {
        {
            let roster = self.roster.lock(rt);
            for row in roster.rows() {
                if let Some(line) = row.link() {
                    let _ = line.stream.shutdown(Shutdown::Both);
                }
            }
        }
        self.sockets.shut();
        self.arrivals.lock(rt).end = true;
        self.arrived.notify_all();
        self.wanted.lock(rt).end = true;
        self.asker.notify_all();
        self.late.lock(rt).end = true;
        self.late_came.notify_all();
        if let Some(finding) = &self.finding {
            finding.end(rt);
        }
        if let Some(beacons) = &self.beacons {
            beacons.end(rt);
        }
        self.searches.lock(rt).end = true;
        self.searched.notify_all();
        self.changed.notify_all();
    }

    /// Whether clients are served there.
    pub fn is_own(&self, address: Address) -> bool {
        for place in 0..self.sockets.count() {
            let own = self.sockets.entrance(place).address;
            if address_of(own.ip(), own.port()) == address {
                return true;
            }
        }
        false
    }

    /// Whether searches from there aren't heard.
    pub fn is_ignored(&self, from: &SocketAddr) -> bool {
        let host = host_number(from);
        self.ignored.iter().any(|net| net.has(host))
    }

    /// The number of a server that was found by search.
    pub fn is_found(&self, number: u32) -> bool {
        self.finding.is_some() && number > self.server_count()
    }

    /// For how many servers descriptors are kept back. Where servers are searched for, that is half of them all at most.
    pub fn servers_kept(&self) -> u32 {
        match &self.finding {
            Some(_) => {
                let half = u32::try_from(self.most_files / 2).unwrap_or(u32::MAX);
                self.options
                    .scale
                    .servers
                    .min(half)
                    .saturating_add(self.name_servers.count())
            }
            None => self.server_count(),
        }
    }

    /// What came of the connection to a server, for whoever finds servers.
    pub fn note_server<R: System>(&self, rt: &R, number: u32, came: Came) {
        if let Some(finding) = &self.finding {
            if finding.note(rt, number, came).is_err() {
                self.tell(rt, Notice::OutOfMemory);
            }
        }
    }

    /// The server of this number is connected.
    pub fn note_connected<R: System>(&self, rt: &R, number: u32) {
        if let Some(beacons) = &self.beacons {
            beacons.note_connected(rt, number);
        }
        self.note_server(rt, number, Came::Connected);
    }

    /// The server of this number is lost, and its names are looked for.
    pub fn note_lost<R: Wait>(&self, rt: &R, number: u32) {
        if let Some(beacons) = &self.beacons {
            beacons.note_lost(rt, number);
        }
    }

    /// The server of this number is left, as nobody wants its names.
    pub fn leave_server<R: Wait>(&self, rt: &R, number: u32) {
        if let Some(beacons) = &self.beacons {
            beacons.leave(rt, number);
        }
    }

    /// The server of this number is forgotten.
    pub fn forget_server<R: Wait>(&self, rt: &R, number: u32) {
        self.outages.lock(rt).end(number);
        if let Some(beacons) = &self.beacons {
            beacons.forget(rt, number);
        }
    }

    /// A worker of the connection has ended.
    pub fn left<R: Wait>(&self, rt: &R, dest: Dest) {
        let was_last = self.roster.lock(rt).left(dest);
        if was_last {
            self.changed.notify_all();
        }
    }

    pub fn cut<R: Wait>(&self, rt: &R, dest: Dest, why: Cut) {
        self.roster.lock(rt).cut(dest, why);
    }
}

/// What lends the gate and the hub. All that starts threads is written for whatever does: so it need not know
/// that the two, with all that they have, may be shared.
pub trait AsHub {
    fn gate(&self) -> &Gate;

    fn hub(&self) -> &Hub;

    /// Has the program end with this status, unless it is ending already.
    final fn end<R: Wait>(&self, rt: &R, status: u8)
    where
        Self: Sized,
    {
        self.hub().roster.lock(rt).close(status);
        self.gate().close(rt);
    }
}

/// What lends a gate.
pub trait AsGate {
    fn lent(&self) -> &Gate;
}

impl AsGate for Gate {
    fn lent(&self) -> &Gate {
        self
    }
}

/// What lends all else.
pub trait AsRest {
    fn lent(&self) -> &Hub;
}

impl AsRest for Hub {
    fn lent(&self) -> &Hub {
        self
    }
}

/// A gate that is served, and what its threads share besides.
#[derive(Drop)]
pub struct Served<G, P> {
    pub gate: G,
    pub rest: P,
}

impl<G: AsGate, P: AsRest> AsHub for Served<G, P> {
    fn gate(&self) -> &Gate {
        self.gate.lent()
    }

    fn hub(&self) -> &Hub {
        self.rest.lent()
    }
}
