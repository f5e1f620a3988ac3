//! Workers of two clients, where memory is refused to one of their calls, or to a turn.
//!
//! What a client has by then is the first of its messages, each whole: all of them where its reader and the gate go
//! on. In an ordinary run nothing is refused; `.ci/refused_tests.py` refuses each allocation in turn.
use crate::boards::told::Told;
use crate::workers::faulty::{CLIENT, ITEMS, OTHER, SMALL, TwoClients, said, told, two_clients};
use gate_board::Turn;
use session_worker::{InEnd, MemoryLink, OutEnd, serve_in};
use std::alloc::Global;
use std::process::Abort;
use std::sync::Wait;
use std::test::Fail;

/// How much is told without taking memory.
const ROOM: usize = 4_096;

/// Where a client's messages end: the greeting, and then what it said.
const ENDS: [usize; 5] = [0, 16, 32, 56, 112];

/// How a client's workers ended.
#[derive(Clone, Copy, Debug)]
struct WorkersEnd {
    read: InEnd,
    written: OutEnd,
}

// Has both greeted, reads what they say, and has it performed: how the readers end, and whether the gate goes on.
fn hear<R: Wait>(
    rt: &R,
    alloc: Global,
    clients: &mut TwoClients,
    link: &mut MemoryLink,
    other: &mut MemoryLink,
) -> (InEnd, InEnd, bool) {
    let mut goes_on = clients.gate.turn(rt) == Turn::Moved;
    let end = serve_in(rt, alloc, link, &mut clients.inlet, &clients.gate, CLIENT);
    let other_end = serve_in(
        rt,
        alloc,
        other,
        &mut clients.other_inlet,
        &clients.gate,
        OTHER,
    );
    for _ in 0..ITEMS {
        goes_on &= clients.gate.turn(rt) == Turn::Moved;
    }
    (end, other_end, goes_on)
}

// Whether a client may have these bytes of those that it would get, where its workers ended so.
fn is_served(goes_on: bool, ends: WorkersEnd, output: &[u8], wanted: &[u8]) -> bool {
    let is_beginning = wanted.starts_with(output) && ENDS.contains(&output.len());
    let is_heard = match ends.read {
        InEnd::Closed => output == wanted,
        InEnd::OutOfMemory => is_beginning,
        _ => false,
    };
    match ends.written {
        OutEnd::Closed => goes_on && is_heard,
        OutEnd::GateFailed => !goes_on && is_beginning,
        OutEnd::WriteFault(count) => wanted.starts_with(output) && count == output.len() as u128,
    }
}

fn tell(goes_on: bool, ends: WorkersEnd, output: &[u8], wanted: &[u8], told: &mut Told) {
    if !goes_on || ends.read != InEnd::Closed || ends.written != OutEnd::Closed {
        told.line(&"refused worker as it must be");
    }
    if is_served(goes_on, ends, output, wanted) {
        told.line(&"served as it must be");
    } else {
        told.debug(&(goes_on, ends, output));
    }
}

fn serve_both<R: Wait>(rt: &R, alloc: Global, seen: &mut Told) -> Result<(), Fail> {
    let said = said(alloc, SMALL, 40)?;
    let wanted = told(alloc, &said)?;
    let mut clients = two_clients(rt, alloc)?;
    let mut link = MemoryLink::new(alloc, said.to_vec(alloc)?, 7);
    let mut other = MemoryLink::new(alloc, said, 1_000);
    let (read, other_read, goes_on) = hear(rt, alloc, &mut clients, &mut link, &mut other);
    let mut sink = MemoryLink::new(alloc, Vec::new(alloc), 7);
    let mut other_sink = MemoryLink::new(alloc, Vec::new(alloc), 1_000);
    let (written, other_written) = clients.tell(rt, &mut sink, &mut other_sink);
    let ends = WorkersEnd { read, written };
    tell(goes_on, ends, sink.output(), &wanted, seen);
    let other_ends = WorkersEnd {
        read: other_read,
        written: other_written,
    };
    tell(goes_on, other_ends, other_sink.output(), &wanted, seen);
    Ok(())
}

/// Whichever allocation is refused, what either client has is the first of its messages; it has all of them where
/// its workers and the gate went on.
#[test]
fn refused_memory_ends_a_worker_or_the_gate(rt: HostRuntime) -> Result<(), Fail> {
    let mut seen = Told::with_room(rt.alloc(), ROOM);
    serve_both(&rt, rt.alloc(), &mut seen)?;
    assert!(rt; seen.is_whole, "the test itself was refused memory");
    assert_eq!(rt;
        seen.text.as_str(),
        "served as it must be\nserved as it must be\n"
    );
    Ok(())
}
