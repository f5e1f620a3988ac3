//! What the gateway tells of itself, on an address of its own.
use crate::hub::{AsHub, Hub};
use crate::machine::System;
use crate::watcher::dest_at;
use gateway_core::Dest;
use serve_state::{InAllReport, Report, ServerReport};
use std::alloc::{AllocError, Global};
use std::io::Write;
use std::net::{Shutdown, TcpListener, TcpStream};
use std::sync::Arc;
use std::thread;
use std::time::Duration;

/// How many milliseconds pass after no connection could be accepted.
const PAUSE: u64 = 20;

/// Tells each who connects one line, one after the other, and hangs up. What they send is not read.
pub fn tell_reports<R: System, H: AsHub + Drop>(rt: R, hub: Arc<H, Global>, listener: TcpListener) {
    let shared: &H = &hub;
    for _ in rt.forever() {
        match listener.accept() {
            Ok((stream, _)) => tell_report(rt, shared, &stream),
            Err(_) => thread::sleep(&rt, Duration::from_millis(PAUSE)),
        }
    }
}

// The line is shorter than what a socket that is new takes at once: nobody is waited for.
fn tell_report<R: System, H: AsHub>(rt: R, hub: &H, stream: &TcpStream) {
    if let Some(line) = report_line(rt, hub) {
        let mut stream: &TcpStream = stream;
        let _ = stream.write_all(line.as_bytes());
    }
    let _ = stream.shutdown(Shutdown::Both);
}

// None where the gateway has failed, or memory is refused.
fn report_line<R: System, H: AsHub>(rt: R, hub: &H) -> Option<String> {
    let rows = hub.gate().row_counts(&rt).ok()?;
    let traffic = hub.gate().traffic(&rt);
    let servers = server_reports(rt, hub.hub()).ok()?;
    let edits = *hub.hub().edits.lock(&rt);
    let waiting = waiting_now(rt, hub);
    let report = Report {
        servers: servers.as_slice(),
        found: found_count(rt, hub.hub()),
        rows,
        edits,
        received: traffic.received,
        sent: traffic.sent,
        largest_outbox: waiting.largest,
        fullest: hub.gate().fullest(&rt),
        limits: hub.hub().limits(),
        met: hub.gate().limits_met(&rt),
        refused: *hub.hub().refused.lock(&rt),
        in_all: in_all(rt, hub.hub(), waiting.in_all),
    };
    report.line(hub.hub().alloc).ok()
}

fn server_reports<R: System>(rt: R, hub: &Hub) -> Result<Vec<ServerReport>, AllocError> {
    let mut reports = Vec::new(hub.alloc);
    for number in 1..=hub.server_count() {
        if let Some(address) = hub.servers.told(&rt, number) {
            reports.push(ServerReport {
                number,
                address,
                connected: is_connected(rt, hub, number),
            })?;
        }
    }
    Ok(reports)
}

fn is_connected<R: System>(rt: R, hub: &Hub, number: u32) -> bool {
    let dest = Dest::Upstream(number);
    let roster = hub.roster.lock(&rt);
    for row in roster.rows() {
        if row.dest() == dest {
            return row.link().is_some();
        }
    }
    false
}

// How many servers that were found by search are connected. None where none is searched for.
fn found_count<R: System>(rt: R, hub: &Hub) -> Option<u32> {
    let _ = hub.finding.as_ref()?;
    let mut count = 0u32;
    for row in hub.roster.lock(&rt).rows() {
        if let Dest::Upstream(number) = row.dest() {
            if hub.is_found(number) && row.link().is_some() {
                count = count.saturating_add(1);
            }
        }
    }
    Some(count)
}

/// How many bytes wait now.
#[derive(Clone, Copy)]
struct WaitingNow {
    /// For the connection for which most wait.
    largest: u64,
    /// For all clients together.
    in_all: u64,
}

fn waiting_now<R: System, H: AsHub>(rt: R, hub: &H) -> WaitingNow {
    let mut now = WaitingNow {
        largest: 0,
        in_all: 0,
    };
    let mut place = 0usize;
    for _ in rt.forever() {
        let Some(dest) = dest_at(rt, hub.hub(), place) else {
            return now;
        };
        let bytes = hub.gate().waiting_bytes(&rt, dest).unwrap_or(0);
        now.largest = now.largest.max(bytes);
        if let Dest::Session(_) = dest {
            now.in_all = now.in_all.saturating_add(bytes);
        }
        place = place.saturating_add(1);
    }
    unreachable!()
}

// None where as much may wait for all clients together as does.
fn in_all<R: System>(rt: R, hub: &Hub, bytes: u64) -> Option<InAllReport> {
    let most = hub.options.most_in_all?;
    Some(InAllReport {
        most,
        bytes,
        cut: *hub.cut_in_all.lock(&rt),
    })
}
