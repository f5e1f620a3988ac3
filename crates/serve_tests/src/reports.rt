//! Calls on what a gateway tells of itself.
//!
//! - `report`: the line of a gateway that has two servers, one of which is connected, and tells of servers that were found and of
//!   what waits for all clients; `report-short`: that of one that has no server and tells of neither.
use crate::words::{REFUSED, Told};
use gateway_state::{Fullest, Limits, LimitsMet, RowCounts};
use serve_state::{InAllReport, MostInAll, Report, ServerReport};
use std::alloc::Global;
use std::fmt;
use std::net::{IpAddr, Ipv4Addr, SocketAddr};

const ROWS: RowCounts = RowCounts {
    sessions: 1,
    channels: 2,
    subs: 3,
    reads: 4,
    servers: 5,
    links: 6,
    writes: 7,
    searches: 8,
};

const FULLEST: Fullest = Fullest {
    channels: 11,
    subs: 12,
    reads: 13,
    writes: 14,
    messages: 15,
};

const MET: LimitsMet = LimitsMet {
    names: 21,
    channels: 22,
    subs: 23,
    reads: 24,
    writes: 25,
    links: 26,
    sessions: 27,
    servers: 28,
    held: 29,
    full: 30,
};

pub(crate) fn call(alloc: Global, verb: &str, told: &mut Told) {
    let servers = [server(1, 5_064, true), server(2, 5_065, false)];
    let short = Report {
        servers: &[],
        found: None,
        rows: ROWS,
        edits: 41,
        received: 42,
        sent: 43,
        largest_outbox: 44,
        fullest: FULLEST,
        limits: Limits::usual(),
        met: MET,
        refused: 45,
        in_all: None,
    };
    if verb == "report-short" {
        return show(short.line(alloc), told);
    }
    let whole = Report {
        servers: servers.as_slice(),
        found: Some(46),
        in_all: Some(InAllReport {
            most: MostInAll { mib: 2 },
            bytes: 47,
            cut: 48,
        }),
        ..short
    };
    show(whole.line(alloc), told);
}

fn server(number: u32, port: u16, connected: bool) -> ServerReport {
    let host = IpAddr::V4(Ipv4Addr::new(10, 0, 0, 9));
    ServerReport {
        number,
        address: SocketAddr::new(host, port),
        connected,
    }
}

fn show(line: Result<String, fmt::Error>, told: &mut Told) {
    match line {
        Ok(line) => told.word(&line),
        Err(_) => told.line(&REFUSED),
    }
}
