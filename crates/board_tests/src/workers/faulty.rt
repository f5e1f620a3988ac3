//! Links of whose calls one fails, and what another client has of it.
use crate::workers::stand::{GREETING, attach, bytes, gate};
use gate_board::{Gate, Inlet, Outlet, Turn};
use gateway_core::Dest;
use session_worker::{InEnd, Link, MemoryLink, OutEnd, serve_in, serve_out};
use std::alloc::Global;
use std::process::Abort;
use std::sync::Wait;
use std::test::Fail;

pub(super) const CLIENT: Dest = Dest::Session(1);

pub(super) const OTHER: Dest = Dest::Session(2);

/// How many items a client hands over: three messages, and that it is gone.
pub(super) const ITEMS: usize = 4;

/// What a client says: three ECHO messages, of which the second has 8 bytes of payload, and the third many.
/// It gets the same, behind the greeting.
const ONE: &str = "00170000000000000000000100000000";

const TWO: &str = "001700080000000000000002000000001122334455667788";

/// The third with 40 bytes, and with 20,000, which is more than a writer holds.
pub(super) const SMALL: &str = "00170028000000000000000300000000";

const LARGE: &str = "00174E20000000000000000300000000";

/// Where the first message and the second end.
const FIRST_END: usize = 16;

const SECOND_END: usize = 40;

/// More calls than any of these links gets.
const MOST_CALLS: usize = 1_000;

pub(super) fn said(alloc: Global, third: &str, size: usize) -> Result<Vec<u8>, Fail> {
    let payload = "5A".repeat(alloc, size)?;
    bytes(alloc, &format!(in alloc; "{ONE}{TWO}{third}{payload}")?)
}

// How many bytes of what a client says are whole messages, of the first so many.
fn whole(all: usize, came: usize) -> usize {
    if came >= all {
        all
    } else if came >= SECOND_END {
        SECOND_END
    } else if came >= FIRST_END {
        FIRST_END
    } else {
        0
    }
}

// What a client gets: the greeting, and then what it said.
pub(super) fn told(alloc: Global, said: &[u8]) -> Result<Vec<u8>, Fail> {
    let mut told = bytes(alloc, GREETING)?;
    told.extend_from_slice(said)?;
    Ok(told)
}

/// A gate with two clients.
#[derive(Drop)]
pub(super) struct TwoClients {
    pub(super) gate: Gate,
    pub(super) inlet: Inlet,
    outlet: Outlet,
    pub(super) other_inlet: Inlet,
    other_outlet: Outlet,
}

pub(super) fn two_clients<R: Wait>(rt: &R, alloc: Global) -> Result<TwoClients, Fail> {
    let gate = gate(alloc, 1)?;
    let (inlet, outlet) = attach(rt, alloc, &gate, CLIENT)?;
    let (other_inlet, other_outlet) = attach(rt, alloc, &gate, OTHER)?;
    Ok(TwoClients {
        gate,
        inlet,
        outlet,
        other_inlet,
        other_outlet,
    })
}

impl TwoClients {
    // Has both greeted, reads what they say, the other's by a link without a fault, and has it performed.
    fn hear<R: Wait>(
        &mut self,
        rt: &R,
        alloc: Global,
        link: &mut MemoryLink,
        said: Vec<u8>,
    ) -> (InEnd, bool) {
        let mut other = MemoryLink::new(alloc, said, 1_000);
        let mut goes_on = self.gate.turn(rt) == Turn::Moved;
        let end = serve_in(rt, alloc, link, &mut self.inlet, &self.gate, CLIENT);
        let other_end = serve_in(
            rt,
            alloc,
            &mut other,
            &mut self.other_inlet,
            &self.gate,
            OTHER,
        );
        goes_on &= other_end == InEnd::Closed;
        for _ in 0..ITEMS {
            goes_on &= self.gate.turn(rt) == Turn::Moved;
        }
        (end, goes_on)
    }

    // Writes to both what they get.
    pub(super) fn tell<R: Wait>(
        &mut self,
        rt: &R,
        link: &mut MemoryLink,
        other: &mut MemoryLink,
    ) -> (OutEnd, OutEnd) {
        let end = serve_out(rt, link, &mut self.outlet, &self.gate, CLIENT);
        (
            end,
            serve_out(rt, other, &mut self.other_outlet, &self.gate, OTHER),
        )
    }
}

// A link of which this read fails: false where the stream ended before it.
fn read_fails<R: Wait + Abort>(
    rt: &R,
    alloc: Global,
    said: &[u8],
    piece: usize,
    call: usize,
) -> Result<bool, Fail> {
    let mut clients = two_clients(rt, alloc)?;
    let mut link = MemoryLink::new(alloc, said.to_vec(alloc)?, piece).failing_at(call as u64);
    let (end, goes_on) = clients.hear(rt, alloc, &mut link, said.to_vec(alloc)?);
    assert!(rt; goes_on);
    let mut sink = MemoryLink::new(alloc, Vec::new(alloc), piece);
    let mut other = MemoryLink::new(alloc, Vec::new(alloc), piece);
    assert_eq!(rt;
        clients.tell(rt, &mut sink, &mut other),
        (OutEnd::Closed, OutEnd::Closed)
    );
    let came = call.saturating_mul(piece);
    let is_fault = end == InEnd::ReadFault;
    assert_eq!(rt;
        (end, link.faults()),
        if is_fault {
            (InEnd::ReadFault, 1)
        } else {
            (InEnd::Closed, 0)
        }
    );
    assert!(rt; is_fault || came > said.len());
    let heard = said.get(..whole(said.len(), came)).ok_or("whole messages")?;
    assert_eq!(rt;
        sink.output(),
        told(alloc, heard)?.as_slice(),
        "read {call} of {piece} bytes"
    );
    assert_eq!(rt;
        other.output(),
        told(alloc, said)?.as_slice(),
        "read {call} of {piece} bytes"
    );
    Ok(is_fault)
}

// A link of which this write fails: false where all was written before it.
fn write_fails<R: Wait + Abort>(
    rt: &R,
    alloc: Global,
    said: &[u8],
    piece: usize,
    call: usize,
) -> Result<bool, Fail> {
    let mut clients = two_clients(rt, alloc)?;
    let mut link = MemoryLink::new(alloc, said.to_vec(alloc)?, piece);
    let (end, goes_on) = clients.hear(rt, alloc, &mut link, said.to_vec(alloc)?);
    assert_eq!(rt; (end, goes_on), (InEnd::Closed, true));
    let mut sink = MemoryLink::new(alloc, Vec::new(alloc), piece).failing_at(call as u64);
    let mut other = MemoryLink::new(alloc, Vec::new(alloc), piece);
    let (end, other_end) = clients.tell(rt, &mut sink, &mut other);
    let wanted = told(alloc, said)?;
    let written = sink.output().len();
    let is_fault = end != OutEnd::Closed;
    assert_eq!(rt;
        (end, sink.faults()),
        if is_fault {
            (OutEnd::WriteFault(written as u128), 1)
        } else {
            (OutEnd::Closed, 0)
        }
    );
    assert!(rt; is_fault || written == wanted.len());
    assert!(rt;
        wanted.starts_with(sink.output()),
        "write {call} of {piece} bytes"
    );
    assert_eq!(rt;
        (other_end, other.output()),
        (OutEnd::Closed, wanted.as_slice()),
        "write {call} of {piece} bytes"
    );
    Ok(is_fault)
}

fn each_read_fails<R: Wait + Abort>(
    rt: &R,
    alloc: Global,
    said: &[u8],
    piece: usize,
) -> Result<(), Fail> {
    for call in 0..MOST_CALLS {
        if !read_fails(rt, alloc, said, piece, call)? {
            return Ok(());
        }
    }
    Err("it never ends".into())
}

fn each_write_fails<R: Wait + Abort>(
    rt: &R,
    alloc: Global,
    said: &[u8],
    piece: usize,
) -> Result<(), Fail> {
    for call in 0..MOST_CALLS {
        if !write_fails(rt, alloc, said, piece, call)? {
            return Ok(());
        }
    }
    Err("it never ends".into())
}

/// Whichever read fails, the whole messages before it are answered, and the client is gone. Another client
/// has all of its answers.
#[test]
fn a_read_that_fails_ends_one_client(rt: HostRuntime) -> Result<(), Fail> {
    let small = said(rt.alloc(), SMALL, 40)?;
    let large = said(rt.alloc(), LARGE, 20_000)?;
    each_read_fails(&rt, rt.alloc(), small.as_slice(), 1)?;
    each_read_fails(&rt, rt.alloc(), small.as_slice(), 7)?;
    each_read_fails(&rt, rt.alloc(), small.as_slice(), 24)?;
    each_read_fails(&rt, rt.alloc(), large.as_slice(), 4_096)
}

/// Whichever write fails, the bytes before it are written, and so many are told. Another client has all of
/// its answers.
#[test]
fn a_write_that_fails_ends_one_client(rt: HostRuntime) -> Result<(), Fail> {
    let small = said(rt.alloc(), SMALL, 40)?;
    let large = said(rt.alloc(), LARGE, 20_000)?;
    each_write_fails(&rt, rt.alloc(), small.as_slice(), 1)?;
    each_write_fails(&rt, rt.alloc(), small.as_slice(), 7)?;
    each_write_fails(&rt, rt.alloc(), small.as_slice(), 24)?;
    each_write_fails(&rt, rt.alloc(), large.as_slice(), 4_096)
}
