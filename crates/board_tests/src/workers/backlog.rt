//! What clients said before the core begins.
use crate::workers::faulty::told;
use crate::workers::stand::{Lends, attach, gate};
use gate_board::{Gate, Outlet};
use gateway_core::Dest;
use session_worker::{CoreEnd, InEnd, MemoryLink, OutEnd, serve_core, serve_in, serve_out};
use std::alloc::Global;
use std::sync::Wait;
use std::test::Fail;
use std::thread::{Threads, join};

/// How many messages each of two clients says: with their answers more than the core moves under one lock,
/// and fewer than a ring has places.
const MANY: u8 = 200;

/// A client that has said all, and what it is written.
#[derive(Drop)]
struct Client {
    dest: Dest,
    outlet: Outlet,
    link: MemoryLink,
}

// ECHO messages of a client, each with a number of its own.
fn echoes(alloc: Global, client: u8) -> Result<Vec<u8>, Fail> {
    let mut said = Vec::new(alloc);
    for number in 0..MANY {
        said.extend_from_slice(&[0, 23, 0, 0, 0, 0, 0, 0, 0, 0, client, number, 0, 0, 0, 0])?;
    }
    Ok(said)
}

// Opens a client, and has all that it says handed over, and that it is gone.
fn heard_out<R: Wait>(
    rt: &R,
    alloc: Global,
    gate: &Gate,
    dest: Dest,
    said: Vec<u8>,
) -> Result<Client, Fail> {
    let (mut inlet, outlet) = attach(rt, alloc, gate, dest)?;
    let mut source = MemoryLink::new(alloc, said, 1_000);
    match serve_in(rt, alloc, &mut source, &mut inlet, gate, dest) {
        InEnd::Closed => Ok(Client {
            dest,
            outlet,
            link: MemoryLink::new(alloc, Vec::new(alloc), 1_000),
        }),
        _ => Err("it is handed over".into()),
    }
}

impl Client {
    // Writes to it what it gets.
    fn tell<R: Wait>(&mut self, rt: &R, gate: &Gate) -> OutEnd {
        serve_out(rt, &mut self.link, &mut self.outlet, gate, self.dest)
    }
}

// Begins the core, and beside it writes to one client and then to the other. Then the gate is closed.
fn begin_the_core<R: Threads + Wait + Sync, G: Lends + Sync>(
    rt: &R,
    gate: &G,
    one: &mut Client,
    other: &mut Client,
) -> (CoreEnd, (OutEnd, OutEnd)) {
    join(
        rt,
        || serve_core(rt, gate.gate()),
        || {
            let end = one.tell(rt, gate.gate());
            let other_end = other.tell(rt, gate.gate());
            gate.gate().close(rt);
            (end, other_end)
        },
    )
}

/// What two clients said before the core began is performed, and each gets all of its answers, in order. The
/// core ends where the gate is closed.
#[test]
fn a_backlog_is_performed_in_order(rt: HostRuntime) -> Result<(), Fail> {
    let alloc = rt.alloc();
    let gate = gate(alloc, 1)?;
    let said = echoes(alloc, 1)?;
    let said_there = echoes(alloc, 2)?;
    let mut one = heard_out(&rt, alloc, &gate, Dest::Session(1), said.to_vec(alloc)?)?;
    let mut other = heard_out(
        &rt,
        alloc,
        &gate,
        Dest::Session(2),
        said_there.to_vec(alloc)?,
    )?;
    let (core, ends) = begin_the_core(&rt, &gate, &mut one, &mut other);
    assert_eq!(rt; core, CoreEnd::Closed);
    assert_eq!(rt; ends, (OutEnd::Closed, OutEnd::Closed));
    assert_eq!(rt; one.link.output(), told(alloc, &said)?.as_slice());
    assert_eq!(rt; other.link.output(), told(alloc, &said_there)?.as_slice());
    Ok(())
}
