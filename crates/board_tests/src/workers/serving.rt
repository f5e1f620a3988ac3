//! A round of a client, the gateway and a server, over links in memory.
use crate::workers::meeting::{Ended, PacedBytes, PacedConnection, connect, serve_two, until};
use crate::workers::paced::Count;
use crate::workers::stand::{GREETING, Lends, bytes, digits, gate};
use gate_board::Gate;
use gateway_core::{Dest, Event};
use pv_name::{Host, Name};
use session_worker::{CoreEnd, InEnd, OutEnd, serve_core};
use std::alloc::Global;
use std::rt::Clock;
use std::sync::Wait;
use std::test::Fail;
use std::thread;
use std::thread::{Threads, join};
use std::time::Duration;

/// How often it is looked, and how long it is slept between two looks.
const LOOKS: u32 = 10_000;

const PAUSE_MILLIS: u64 = 1;

/// Who looks for the variable, and how.
#[derive(Drop)]
struct Searcher {
    name: Name,
    host: Host,
    datagram: Vec<u8>,
    served: Count,
}

// Whether a name is to be asked for.
fn is_asked<R: Wait>(rt: &R, gate: &Gate) -> bool {
    match gate.asks(rt) {
        Ok(names) => !names.is_empty(),
        Err(_) => false,
    }
}

// Whether the search is answered.
fn is_served<R: Wait>(rt: &R, gate: &Gate, host: &Host, datagram: &[u8]) -> bool {
    match gate.search(rt, host, datagram) {
        Ok(answer) => !answer.reply.as_slice().is_empty(),
        Err(_) => false,
    }
}

fn waits_for_ask<R: Wait + Clock>(rt: &R, gate: &Gate) -> bool {
    for _ in 0..LOOKS {
        if is_asked(rt, gate) {
            return true;
        }
        thread::sleep(rt, Duration::from_millis(PAUSE_MILLIS));
    }
    false
}

fn waits_for_answer<R: Wait + Clock>(rt: &R, gate: &Gate, host: &Host, datagram: &[u8]) -> bool {
    for _ in 0..LOOKS {
        if is_served(rt, gate, host, datagram) {
            return true;
        }
        thread::sleep(rt, Duration::from_millis(PAUSE_MILLIS));
    }
    false
}

// Says which server has the variable once it is asked for, and tells where it is served. False where that
// never came.
fn find<R: Wait + Clock>(rt: &R, gate: &Gate, search: Searcher) -> bool {
    if !waits_for_ask(rt, gate) {
        return false;
    }
    let Searcher {
        name,
        host,
        datagram,
        served,
    } = search;
    if gate.desk(rt, Event::Found(name, 1)).is_err() {
        return false;
    }
    let found = waits_for_answer(rt, gate, &host, datagram.as_slice());
    served.add(1);
    found
}

// Serves a client and a server at once, beside a core and one that looks for the variable.
fn serve_all<R: Threads + Wait + Clock + Send + Sync + Drop, G: Lends + Sync>(
    rt: &R,
    alloc: Global,
    gate: &G,
    client: PacedConnection<R>,
    server: PacedConnection<R>,
    search: Searcher,
) -> (CoreEnd, (bool, (Ended<R>, Ended<R>))) {
    join(
        rt,
        || serve_core(rt, gate.gate()),
        move || {
            let ends = join(
                rt,
                move || find(rt, gate.gate(), search),
                move || serve_two(rt, alloc, gate, client, server),
            );
            gate.gate().close(rt);
            ends
        },
    )
}

// What the client says: it creates its channel, again once it is served, and reads it.
const CREATE: &str = "0012000800000000000000070000000D5431000000000000";

const READ: &str = "000F0000000500010000000100000021";
// What it gets: that the variable isn't there, and then its channel and the value.
const NOT_THERE: &str = "001A0000000000000000000700000000";

const THERE: &str = "0016000000000000000000070000000300120000000500010000000700000001";

const VALUE: &str = "000F00080005000100000001000000210000002A00000000";
// What the server says: its version, its channel, and a value.
const VERSION: &str = "000000000000000D0000000000000000";

const CREATED: &str = "0016000000000000000000010000000300120000000500010000000100000065";

const UPDATE: &str = "00010010001300010000000100000001000000003B9ACA00000000000000002A";
// What it gets: who the gateway is, its channel, and its subscription, which ends with the client.
const NAMES: &str =
    "001400080000000000000000000000007076676174650000001500080000000000000000000000006777000000000000";

const CREATE_THERE: &str = "0012000800000000000000010000000D5431000000000000";

const SUBSCRIBE: &str = "0001001000130000000000650000000100000000000000000000000000050000";

const CANCEL: &str = "00020000001300000000006500000001";

fn client_pace(alloc: Global, heard: &Count, served: &Count) -> Result<PacedBytes, Fail> {
    Ok(PacedBytes {
        input: bytes(alloc, &format!(in alloc; "{CREATE}{CREATE}{READ}")?)?,
        piece: 8,
        reads: vec![in alloc;
            until(3, served, 1)?,
            until(6, heard, 64)?,
            until(8, heard, 88)?,
        ]?,
        writes: Vec::new(alloc),
    })
}

fn server_pace(alloc: Global, heard: &Count) -> Result<PacedBytes, Fail> {
    Ok(PacedBytes {
        input: bytes(alloc, &format!(in alloc; "{VERSION}{CREATED}{UPDATE}")?)?,
        piece: 8,
        reads: vec![in alloc;
            until(2, heard, 88)?,
            until(6, heard, 120)?,
            until(10, heard, 136)?,
        ]?,
        writes: Vec::new(alloc),
    })
}

fn search_of_t1(alloc: Global, served: &Count) -> Result<Searcher, Fail> {
    let datagram = "000600080005000D00000011000000115431000000000000";
    Ok(Searcher {
        name: Name::read(alloc, b"T1")?,
        host: Host::read(alloc, b"10.0.0.5")?,
        datagram: bytes(alloc, &format!(in alloc; "{VERSION}{datagram}")?)?,
        served: served.again()?,
    })
}

/// A client's variable is found at a server, connected, and read: each message goes through a reader, the
/// core and a writer, in threads of their own.
#[test]
fn serve_round(rt: HostRuntime) -> Result<(), Fail> {
    let alloc = rt.alloc();
    let gate = gate(alloc, 1)?;
    let heard = Count::new(alloc)?;
    let heard_there = Count::new(alloc)?;
    let served = Count::new(alloc)?;
    let server = server_pace(alloc, &heard_there)?;
    let server = connect(rt, alloc, &gate, Dest::Upstream(1), server, &heard_there)?;
    let client = client_pace(alloc, &heard, &served)?;
    let client = connect(rt, alloc, &gate, Dest::Session(1), client, &heard)?;
    let search = search_of_t1(alloc, &served)?;
    let (core, (found, (client, server))) = serve_all(&rt, alloc, &gate, client, server, search);
    assert_eq!(rt; (core, found), (CoreEnd::Closed, true));
    assert_eq!(rt;
        (client.read, client.wrote),
        (InEnd::Closed, OutEnd::Closed)
    );
    assert_eq!(rt;
        (server.read, server.wrote),
        (InEnd::Closed, OutEnd::Closed)
    );
    let told = digits(alloc, client.writing.output())?;
    let wanted = format!(in alloc; "{GREETING}{NOT_THERE}{THERE}{VALUE}")?;
    assert_eq!(rt; told.as_str(), wanted.as_str());
    let told = digits(alloc, server.writing.output())?;
    let wanted = format!(in alloc; "{VERSION}{NAMES}{CREATE_THERE}{SUBSCRIBE}{CANCEL}")?;
    assert_eq!(rt; told.as_str(), wanted.as_str());
    Ok(())
}
