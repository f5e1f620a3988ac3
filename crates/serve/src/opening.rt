//! From the command line to a gateway that serves.
use crate::addresses::Addresses;
use crate::asker::{ask_servers, milliseconds};
use crate::beacons::{Beacons, send_beacons};
use crate::clients::{accept_clients, greet_clients};
use crate::datagrams::{DATAGRAM_SIZE, receive, receive_replies};
use crate::fault::ServeFault;
use crate::finding::{Discovery, Finding, OwnAsks};
use crate::hub::{AsGate, AsHub, AsRest, HOST, Hub, Options, Served, USER};
use crate::keeper::keep_rows;
use crate::late::answer_late;
use crate::logging::{LogBook, Teller, write_lines};
use crate::machine::{Machine, System};
use crate::name_servers::NameServers;
use crate::orders::{Orders, read_orders};
use crate::repeating::{repeat_orders, repeats};
use crate::reports::tell_reports;
use crate::rules::{PolicyDesk, RulePaths, When, read_policy, read_texts};
use crate::searches::hear_searches;
use crate::searching::{start_connecting, start_searching};
use crate::seekers::hear_seekers;
use crate::sockets::{Sockets, open_sockets};
use crate::status;
use crate::upstreams::Upstreams;
use crate::watcher::watch;
use crate::workers::{RULES_STACK_SIZE, STACK_SIZE};
use gate_board::{Board, Gate};
use gateway_core::{Config, Engine, Event, Policy};
use pv_name::Name;
use serve_state::{FirstNumber, Notice};
use session_worker::{CoreEnd, serve_core};
use std::alloc::Global;
use std::fmt::Write;
use std::mem::forget;
use std::net::{Net, SocketAddr, TcpListener, TcpStream};
use std::sync::Arc;
use std::thread::{Builder, Scope, Threads, scope_env};
use std::{io, thread};

/// Serves clients on an address, from servers, until it is told to end on standard input. Returns the status that the
/// program ends with.
///
/// The rule files are read first and then tested, and the address is opened last; then `listening ADDR` is
/// printed. Where the files are refused the line that says so is printed.
pub fn open<
    R: Machine + System + Threads + Net<Listener = TcpListener, Stream = TcpStream> + 'static,
>(
    rt: R,
    alloc: Global,
    addresses: Addresses,
    files: RulePaths,
    options: Options,
) -> Result<u8, ServeFault> {
    let mut desk = PolicyDesk::new(alloc, files.syntax);
    let teller = Teller::AtStart(options.log);
    let texts = read_texts(&rt, alloc, &files, When::AtStart, teller)?;
    let checks_hosts = options.scale.checks_hosts;
    let policy = read_policy(&rt, alloc, &mut desk, &texts, checks_hosts, teller)?;
    let site = options.scale.site;
    let sockets = open_sockets(rt, alloc, &addresses, site).map_err(ServeFault::Listen)?;
    let reports = open_reports(rt, options.status).map_err(ServeFault::Reports)?;
    let gate = gate(alloc, sockets.first.address.port(), options.first, policy)?;
    let Ok(book) = Arc::new(alloc, LogBook::new(alloc, options.log)) else {
        return Err(ServeFault::OutOfMemory);
    };
    start_log(rt, &book)?;
    let rest = rest(rt, alloc, addresses, sockets, options, book)?;
    tell_addresses(&rt, &rest)?;
    serve(rt, alloc, gate, rest, reports, Orders { desk, files })
}

// All that threads share besides the gate.
fn rest<R: Machine + System>(
    rt: R,
    alloc: Global,
    addresses: Addresses,
    sockets: Sockets,
    options: Options,
    book: Arc<LogBook, Global>,
) -> Result<Hub, ServeFault> {
    let Addresses {
        listen: _,
        more: _,
        ignored,
        servers,
        discovery,
        name_servers,
        beacons,
    } = addresses;
    let finding = match discovery {
        Some(discovery) => Some(begin_finding(rt, alloc, &sockets, discovery, options)?),
        None => None,
    };
    let beacons = if beacons.is_empty() {
        None
    } else {
        Some(Beacons::new(alloc, beacons, options.scale.servers)?)
    };
    Ok(Hub::new(
        alloc,
        sockets,
        ignored,
        Upstreams::new(alloc, servers)?,
        finding,
        NameServers::new(alloc, name_servers)?,
        beacons,
        options,
        rt.most_files(),
        book,
    ))
}

fn begin_finding<R: Machine + System>(
    rt: R,
    alloc: Global,
    sockets: &Sockets,
    discovery: Discovery,
    options: Options,
) -> Result<Finding, ServeFault> {
    let own = OwnAsks {
        port: sockets
            .asks()
            .local_addr()
            .map_err(ServeFault::Listen)?
            .port(),
        sequence: draw(rt),
        first_cid: draw(rt),
    };
    Ok(Finding::new(alloc, discovery, own, options.scale.servers)?)
}

// A number that is hard to foresee.
fn draw<R: Machine + System>(rt: R) -> u32 {
    match rt.draw() {
        Some(number) => number,
        None => u32::try_from(milliseconds(rt, 0) % 0x1_0000_0000).unwrap_or(0),
    }
}

// Prints where it listens.
fn tell_addresses<R: Machine>(rt: &R, rest: &Hub) -> Result<(), ServeFault> {
    for place in 0..rest.sockets.count() {
        tell_address(rt, rest.alloc, rest.sockets.entrance(place).address)?;
    }
    Ok(())
}

fn tell_address<R: Machine>(rt: &R, alloc: Global, address: SocketAddr) -> Result<(), ServeFault> {
    let mut line = String::new(alloc);
    if write!(line, "listening {address}").is_err() {
        return Err(ServeFault::OutOfMemory);
    }
    match rt.print_line(line.as_str()) {
        Ok(()) => Ok(()),
        Err(_) => Err(ServeFault::Output),
    }
}

// Serves a gate until it is closed or fails.
fn serve<
    R: Machine + System + Threads + Net<Listener = TcpListener, Stream = TcpStream> + 'static,
    G: AsGate + Send + Sync + Drop + 'static,
    P: AsRest + Send + Sync + Drop + 'static,
>(
    rt: R,
    alloc: Global,
    gate: G,
    rest: P,
    reports: Option<TcpListener>,
    orders: Orders,
) -> Result<u8, ServeFault> {
    let Ok(hub) = Arc::new(alloc, Served { gate, rest }) else {
        return Err(ServeFault::OutOfMemory);
    };
    let _ = hub.gate().desk(&rt, Event::Limit(hub.hub().limits()));
    tell_watching(rt, hub.hub());
    start_connecting(rt, &hub)?;
    start_orders(rt, &hub, orders)?;
    start_reports(rt, &hub, reports)?;
    start_searching(rt, &hub)?;
    let mut buffer = Vec::new(alloc);
    buffer.resize(DATAGRAM_SIZE, 0u8)?;
    let shared: &Served<G, P> = &hub;
    let ended = run(rt, shared, buffer);
    hub.hub().book.finish(&rt);
    // The process ends now, with whatever waits for clients.
    forget(hub);
    Ok(ended)
}

// Whether it is watched that connections stand.
fn tell_watching<R: System>(rt: R, hub: &Hub) {
    match hub.options.alive {
        Some(patience) => hub.tell(&rt, Notice::Watching(patience.seconds)),
        None => hub.tell(&rt, Notice::NotWatching),
    }
}

// The thread that writes the log. Nobody waits for it but for a moment at the end.
fn start_log<R: System + Threads + 'static>(
    rt: R,
    book: &Arc<LogBook, Global>,
) -> Result<(), ServeFault> {
    let again = Arc::try_clone(book)?;
    let writing = Builder::new()
        .stack_size(STACK_SIZE)
        .spawn(&rt, move || write_lines(rt, again));
    match writing {
        Ok(_) => Ok(()),
        Err(_) => Err(ServeFault::OutOfMemory),
    }
}

// The threads that perform orders, written and repeated. Nobody waits for them.
fn start_orders<
    R: Machine + System + Threads + Net<Listener = TcpListener, Stream = TcpStream> + 'static,
    H: AsHub + Send + Sync + Drop + 'static,
>(rt: R, hub: &Arc<H, Global>, orders: Orders) -> Result<(), ServeFault> {
    let again = Arc::try_clone(hub)?;
    let reading = Builder::new()
        .stack_size(RULES_STACK_SIZE)
        .spawn(&rt, move || read_orders(rt, again, orders));
    if reading.is_err() {
        return Err(ServeFault::OutOfMemory);
    }
    if !repeats(hub.hub()) {
        return Ok(());
    }
    let again = Arc::try_clone(hub)?;
    let repeating = Builder::new()
        .stack_size(RULES_STACK_SIZE)
        .spawn(&rt, move || repeat_orders(rt, again));
    match repeating {
        Ok(_) => Ok(()),
        Err(_) => Err(ServeFault::OutOfMemory),
    }
}

// The thread that tells of the gateway, where it is to. Nobody waits for it.
fn start_reports<R: System + Threads + 'static, H: AsHub + Send + Sync + Drop + 'static>(
    rt: R,
    hub: &Arc<H, Global>,
    reports: Option<TcpListener>,
) -> Result<(), ServeFault> {
    let Some(listener) = reports else {
        return Ok(());
    };
    if let Ok(address) = listener.local_addr() {
        hub.hub().tell(&rt, Notice::ReportsAt(address));
    }
    let again = Arc::try_clone(hub)?;
    let telling = Builder::new()
        .stack_size(STACK_SIZE)
        .spawn(&rt, move || tell_reports(rt, again, listener));
    match telling {
        Ok(_) => Ok(()),
        Err(_) => Err(ServeFault::OutOfMemory),
    }
}

// All threads but those that nobody waits for, until the gate is closed or fails.
fn run<R: System + Threads, H: AsHub + Sync>(rt: R, hub: &H, buffer: Vec<u8>) -> u8 {
    thread::scope(scope_env(), &rt, |scope| {
        let others = start_others(rt, &*scope, &*hub, buffer);
        let keeper = Builder::new()
            .stack_size(RULES_STACK_SIZE)
            .spawn_scoped(scope, move || keep_rows(rt, scope, hub));
        let greeter = Builder::new()
            .stack_size(RULES_STACK_SIZE)
            .spawn_scoped(scope, move || greet_clients(rt, scope, hub));
        if !others || keeper.is_err() || greeter.is_err() {
            hub.hub().tell(&rt, Notice::OutOfMemory);
            hub.end(&rt, status::FAILED);
        }
        perform_rounds(rt, hub);
    });
    hub.hub()
        .roster
        .lock(&rt)
        .status()
        .unwrap_or(status::FAILED)
}

// The threads that start no others. False where one can't be made.
fn start_others<'x, 's: 'x, E: 's, R: System + 's, H: AsHub + Sync + 's>(
    rt: R,
    scope: &'x Scope<'s, E>,
    hub: &'s H,
    buffer: Vec<u8>,
) -> bool {
    let entrances = start_entrance(rt, &*scope, &*hub, 0, buffer) && start_more(rt, &*scope, &*hub);
    let searcher = Builder::new()
        .stack_size(RULES_STACK_SIZE)
        .spawn_scoped(&*scope, move || hear_searches(rt, hub));
    let asker = Builder::new()
        .stack_size(RULES_STACK_SIZE)
        .spawn_scoped(&*scope, move || ask_servers(rt, hub));
    let watcher = Builder::new()
        .stack_size(STACK_SIZE)
        .spawn_scoped(&*scope, move || watch(rt, hub));
    let hears_replies = hub.hub().sockets.own_asks.is_none() || start_replies(rt, &*scope, &*hub);
    let is_late = start_late(rt, &*scope, &*hub);
    let sends_beacons = hub.hub().beacons.is_none()
        || Builder::new()
            .stack_size(STACK_SIZE)
            .spawn_scoped(&*scope, move || send_beacons(rt, hub))
            .is_ok();
    entrances
        && searcher.is_ok()
        && asker.is_ok()
        && watcher.is_ok()
        && hears_replies
        && is_late
        && sends_beacons
}

// Those that see to searches which couldn't be answered when they came.
fn start_late<'x, 's: 'x, E: 's, R: System + 's, H: AsHub + Sync + 's>(
    rt: R,
    scope: &'x Scope<'s, E>,
    hub: &'s H,
) -> bool {
    let answers = !hub.hub().options.late
        || Builder::new()
            .stack_size(RULES_STACK_SIZE)
            .spawn_scoped(&*scope, move || answer_late(rt, hub))
            .is_ok();
    let hears_seekers = !hub.hub().limits().answers_searches
        || Builder::new()
            .stack_size(RULES_STACK_SIZE)
            .spawn_scoped(&*scope, move || hear_seekers(rt, hub))
            .is_ok();
    answers && hears_seekers
}

// The two threads that serve at an entrance.
fn start_entrance<'x, 's: 'x, E: 's, R: System + 's, H: AsHub + Sync + 's>(
    rt: R,
    scope: &'x Scope<'s, E>,
    hub: &'s H,
    place: usize,
    buffer: Vec<u8>,
) -> bool {
    let acceptor = Builder::new()
        .stack_size(STACK_SIZE)
        .spawn_scoped(&*scope, move || accept_clients(rt, hub, place));
    let receiver = Builder::new()
        .stack_size(RULES_STACK_SIZE)
        .spawn_scoped(&*scope, move || receive(rt, hub, place, buffer));
    acceptor.is_ok() && receiver.is_ok()
}

// Those of all entrances but LISTEN.
fn start_more<'x, 's: 'x, E: 's, R: System + 's, H: AsHub + Sync + 's>(
    rt: R,
    scope: &'x Scope<'s, E>,
    hub: &'s H,
) -> bool {
    for place in 1..hub.hub().sockets.count() {
        let mut buffer = Vec::new(hub.hub().alloc);
        if buffer.resize(DATAGRAM_SIZE, 0u8).is_err()
            || !start_entrance(rt, &*scope, &*hub, place, buffer)
        {
            return false;
        }
    }
    true
}

// The thread that hears servers on the socket through which they are asked.
fn start_replies<'x, 's: 'x, E: 's, R: System + 's, H: AsHub + Sync + 's>(
    rt: R,
    scope: &'x Scope<'s, E>,
    hub: &'s H,
) -> bool {
    let mut buffer = Vec::new(hub.hub().alloc);
    if buffer.resize(DATAGRAM_SIZE, 0u8).is_err() {
        return false;
    }
    Builder::new()
        .stack_size(RULES_STACK_SIZE)
        .spawn_scoped(scope, move || receive_replies(rt, hub, buffer))
        .is_ok()
}

// Moves the board until the gate is closed or fails, and then has all threads end.
fn perform_rounds<R: System, H: AsHub>(rt: R, hub: &H) {
    match serve_core(&rt, hub.gate()) {
        CoreEnd::Closed => hub.hub().tell(&rt, Notice::Closing),
        CoreEnd::GateFailed => {
            hub.hub().tell(&rt, Notice::Failed);
            hub.end(&rt, status::FAILED);
        }
    }
    hub.hub().shut(&rt);
}

fn gate(alloc: Global, port: u16, first: FirstNumber, policy: Policy) -> Result<Gate, ServeFault> {
    let (Ok(client_name), Ok(host_name)) = (
        Name::read(alloc, USER.as_bytes()),
        Name::read(alloc, HOST.as_bytes()),
    ) else {
        return Err(ServeFault::OutOfMemory);
    };
    let config = Config {
        client_name,
        host_name,
        port,
        first: first.number(),
    };
    let engine = Engine::new(alloc, config, policy)?;
    Ok(Gate::new(Board::new(alloc, engine)))
}

fn open_reports<R: System + Net<Listener = TcpListener, Stream = TcpStream>>(
    rt: R,
    address: Option<SocketAddr>,
) -> io::Result<Option<TcpListener>> {
    match address {
        Some(address) => Ok(Some(TcpListener::bind(&rt, address)?)),
        None => Ok(None),
    }
}
