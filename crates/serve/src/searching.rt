//! The threads by which servers are found and connected to, outside those that the gateway waits for.
use crate::fault::ServeFault;
use crate::finder::find_servers;
use crate::hearing::hear_beacons;
use crate::hub::AsHub;
use crate::lookups::look_up_targets;
use crate::machine::System;
use crate::name_servers::keep_name_server;
use crate::servers::connect_all;
use crate::workers::{RULES_STACK_SIZE, STACK_SIZE};
use serve_state::Try;
use std::alloc::Global;
use std::net::{Net, TcpListener, TcpStream};
use std::sync::Arc;
use std::thread::{Builder, Threads};

/// The thread that connects to the servers of the command line, where there are any. Nobody waits for it.
pub fn start_connecting<
    R: System + Threads + Net<Listener = TcpListener, Stream = TcpStream> + 'static,
    H: AsHub + Send + Sync + Drop + 'static,
>(rt: R, hub: &Arc<H, Global>) -> Result<(), ServeFault> {
    if hub.hub().server_count() == 0 {
        return Ok(());
    }
    let again = Arc::try_clone(hub)?;
    let connecting = Builder::new()
        .stack_size(STACK_SIZE)
        .spawn(&rt, move || connect_all(rt, &again, Try::Ordered));
    match connecting {
        Ok(_) => Ok(()),
        Err(_) => Err(ServeFault::OutOfMemory),
    }
}

/// Those that find others, where these are searched for. Nobody waits for them.
pub fn start_searching<
    R: System + Threads + Net<Listener = TcpListener, Stream = TcpStream> + 'static,
    H: AsHub + Send + Sync + Drop + 'static,
>(rt: R, hub: &Arc<H, Global>) -> Result<(), ServeFault> {
    start_finder(rt, hub)?;
    start_name_servers(rt, hub)?;
    start_hearing(rt, hub)?;
    start_lookups(rt, hub)
}

// The thread that finds servers, where it is to. Nobody waits for it.
fn start_finder<
    R: System + Threads + Net<Listener = TcpListener, Stream = TcpStream> + 'static,
    H: AsHub + Send + Sync + Drop + 'static,
>(rt: R, hub: &Arc<H, Global>) -> Result<(), ServeFault> {
    if hub.hub().finding.is_none() {
        return Ok(());
    }
    let again = Arc::try_clone(hub)?;
    let finding = Builder::new()
        .stack_size(RULES_STACK_SIZE)
        .spawn(&rt, move || find_servers(rt, again));
    match finding {
        Ok(_) => Ok(()),
        Err(_) => Err(ServeFault::OutOfMemory),
    }
}

// A thread for each name server, which starts another one for each connection. Nobody waits for them. The system needs more than
// others to look a host up.
fn start_name_servers<
    R: System + Threads + Net<Listener = TcpListener, Stream = TcpStream> + 'static,
    H: AsHub + Send + Sync + Drop + 'static,
>(rt: R, hub: &Arc<H, Global>) -> Result<(), ServeFault> {
    for number in 1..=hub.hub().name_servers.count() {
        let again = Arc::try_clone(hub)?;
        let keeping = Builder::new()
            .stack_size(RULES_STACK_SIZE)
            .spawn(&rt, move || keep_name_server(rt, again, number));
        if keeping.is_err() {
            return Err(ServeFault::OutOfMemory);
        }
    }
    Ok(())
}

// The thread that hears servers' beacons, where it is to. Nobody waits for it.
fn start_hearing<
    R: System + Threads + Net<Listener = TcpListener, Stream = TcpStream> + 'static,
    H: AsHub + Send + Sync + Drop + 'static,
>(rt: R, hub: &Arc<H, Global>) -> Result<(), ServeFault> {
    match &hub.hub().finding {
        Some(finding) if finding.hears_beacons => (),
        _ => return Ok(()),
    }
    let again = Arc::try_clone(hub)?;
    let hearing = Builder::new()
        .stack_size(STACK_SIZE)
        .spawn(&rt, move || hear_beacons(rt, again));
    match hearing {
        Ok(_) => Ok(()),
        Err(_) => Err(ServeFault::OutOfMemory),
    }
}

// The thread that looks up hosts at which servers are searched for, where any is named. Nobody waits for it.
fn start_lookups<
    R: System + Threads + Net<Listener = TcpListener, Stream = TcpStream> + 'static,
    H: AsHub + Send + Sync + Drop + 'static,
>(rt: R, hub: &Arc<H, Global>) -> Result<(), ServeFault> {
    match &hub.hub().finding {
        Some(finding) if finding.targets.has_words() => (),
        _ => return Ok(()),
    }
    let again = Arc::try_clone(hub)?;
    let looking = Builder::new()
        .stack_size(RULES_STACK_SIZE)
        .spawn(&rt, move || look_up_targets(rt, again));
    match looking {
        Ok(_) => Ok(()),
        Err(_) => Err(ServeFault::OutOfMemory),
    }
}
