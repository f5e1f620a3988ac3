//! The two workers of a connection.
use crate::hub::AsHub;
use crate::line::WatchedStream;
use crate::link::SocketLink;
use crate::machine::System;
use ca_header::FrameFault;
use gate_board::{Inlet, Outlet};
use gateway_core::{Dest, Event};
use serve_state::Cut;
use session_worker::{InEnd, OutEnd, drop_rest, serve_in, serve_out};
use std::net::{Shutdown, TcpStream};
use std::thread::{Builder, Scope};

/// How many bytes of stack a worker has, and each other thread that runs no rules.
pub const STACK_SIZE: usize = 256 * 1024;

/// How many bytes of stack a thread has that reads rules, or may run them on a name. The deepest patterns that a line
/// has room for need more than a worker's.
pub const RULES_STACK_SIZE: usize = 8 * 1024 * 1024;

/// Attaches a connection that was handed in as opened, and starts its workers. Where that fails it is handed
/// in as lost, and its socket is shut.
pub fn start_workers<'x, 's: 'x, E: 's, R: System + 's, H: AsHub + Sync + 's>(
    rt: R,
    scope: &'x Scope<'s, E>,
    hub: &'s H,
    dest: Dest,
    line: &WatchedStream,
) -> bool {
    if let Ok((inlet, outlet)) = hub.gate().attach(&rt, dest) {
        let mut started = 0;
        if let Ok(reading) = line.share() {
            if start_reader(rt, &*scope, &*hub, dest, SocketLink::new(reading), inlet) {
                started += 1;
            }
        }
        if let Ok(writing) = line.share() {
            if start_writer(rt, &*scope, &*hub, dest, SocketLink::new(writing), outlet) {
                started += 1;
            }
        }
        if started == 2 {
            return true;
        }
        give_up(rt, hub, dest, &line.stream, 2 - started);
        return false;
    }
    give_up(rt, hub, dest, &line.stream, 2);
    false
}

fn start_reader<'x, 's: 'x, E: 's, R: System + 's, H: AsHub + Sync + 's>(
    rt: R,
    scope: &'x Scope<'s, E>,
    hub: &'s H,
    dest: Dest,
    link: SocketLink,
    inlet: Inlet,
) -> bool {
    Builder::new()
        .stack_size(STACK_SIZE)
        .spawn_scoped(&*scope, move || read_from(rt, hub, dest, link, inlet))
        .is_ok()
}

fn start_writer<'x, 's: 'x, E: 's, R: System + 's, H: AsHub + Sync + 's>(
    rt: R,
    scope: &'x Scope<'s, E>,
    hub: &'s H,
    dest: Dest,
    link: SocketLink,
    outlet: Outlet,
) -> bool {
    Builder::new()
        .stack_size(STACK_SIZE)
        .spawn_scoped(&*scope, move || write_to(rt, hub, dest, link, outlet))
        .is_ok()
}

// So many workers were not started.
fn give_up<R: System, H: AsHub>(rt: R, hub: &H, dest: Dest, stream: &TcpStream, missing: u8) {
    hub.hub().cut(&rt, dest, Cut::OutOfMemory);
    let _ = stream.shutdown(Shutdown::Both);
    let _ = hub.gate().desk(&rt, lost(dest));
    for _ in 0..missing {
        hub.hub().left(&rt, dest);
    }
}

/// The connection is gone.
pub fn lost(dest: Dest) -> Event {
    match dest {
        Dest::Session(number) => Event::Lost(number),
        Dest::Upstream(number) => Event::UpLost(number),
    }
}

fn read_from<R: System, H: AsHub>(rt: R, hub: &H, dest: Dest, link: SocketLink, inlet: Inlet) {
    let mut link = link;
    let mut inlet = inlet;
    let end = serve_in(
        &rt,
        hub.hub().alloc,
        &mut link,
        &mut inlet,
        hub.gate(),
        dest,
    );
    match end {
        InEnd::Framing(FrameFault::Misaligned) => hub.hub().cut(&rt, dest, Cut::Misaligned),
        InEnd::Framing(FrameFault::TooLarge) => hub.hub().cut(&rt, dest, Cut::TooLarge),
        InEnd::OutOfMemory => hub.hub().cut(&rt, dest, Cut::OutOfMemory),
        InEnd::Closed | InEnd::ReadFault | InEnd::GateFailed => (),
    }
    if matches!(dest, Dest::Session(_)) && link.versions().is_too_old() {
        hub.hub().cut(&rt, dest, Cut::TooOld);
    }
    // A client that only stopped sending still gets what waits for it.
    if end != InEnd::Closed {
        let _ = link.stream().shutdown(Shutdown::Both);
    }
    hub.hub().left(&rt, dest);
}

fn write_to<R: System, H: AsHub>(rt: R, hub: &H, dest: Dest, link: SocketLink, outlet: Outlet) {
    let mut link = link;
    let mut outlet = outlet;
    let end = serve_out(&rt, &mut link, &mut outlet, hub.gate(), dest);
    if matches!(hub.gate().must_end(&rt, dest), Ok(true)) {
        let messages = hub.hub().limits().most_for(dest);
        hub.hub().cut(&rt, dest, Cut::TooSlow(messages));
    }
    let _ = link.stream().shutdown(Shutdown::Both);
    // Its reader may wait until this is read, which nobody does any more.
    if matches!(end, OutEnd::WriteFault(_)) {
        drop_rest(&rt, &mut outlet, hub.gate(), dest);
    }
    hub.hub().left(&rt, dest);
}
