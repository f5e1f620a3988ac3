//! An edit of the rules learns where the names of all channels lead before anything follows, so that the rules are run
//! once for all of them. What it answers is the same without; but it looks at the rows of clients more often.
use crate::scripts::engine::{TriedEngine, found, opened, want};
use bytes::Bytes;
use ca_header::{Header, Message};
use gateway_core::{Config, Engine, Event, Policy, StepFault};
use pv_name::Name;
use std::alloc::Global;

/// That the server made the gateway's channel, and that it may be read and written.
const MADE: Header = Header {
    command: 18,
    dtype: 5,
    p1: 1,
    p2: 101,
    count: 1,
    size: 0,
};

const RIGHTS: Header = Header {
    command: 22,
    dtype: 0,
    p1: 1,
    p2: 3,
    count: 0,
    size: 0,
};

const T1: &[u8; 8] = b"T1\0\0\0\0\0\0";

fn made(alloc: Global) -> Option<TriedEngine> {
    let config = Config {
        client_name: Name::read(alloc, b"pvgate").ok()?,
        host_name: Name::read(alloc, b"gw").ok()?,
        port: 5064,
        first: 1,
    };
    let engine = Engine::new(alloc, config, Policy::open_to_all(alloc)).ok()?;
    Some(TriedEngine { engine })
}

fn server_says(head: Header) -> Option<Event> {
    let payload = Bytes::new();
    Some(Event::Server(1, Message { head, payload }))
}

/// What is told where a client wants T1, which a server is found to have, and then opens two channels on it.
fn open_two(alloc: Global, engine: &mut TriedEngine) -> [Option<Option<StepFault>>; 8] {
    [
        engine.step(Some(Event::UpOpened(1))),
        engine.step(opened(alloc)),
        engine.step(want(alloc, T1)),
        engine.step(found(alloc, b"T1")),
        engine.step(server_says(RIGHTS)),
        engine.step(server_says(MADE)),
        engine.step(want(alloc, T1)),
        engine.step(want(alloc, T1)),
    ]
}

/// The same, and how often the rows of clients are looked at by an edit behind it.
fn looks_of_edit(alloc: Global) -> Option<([Option<Option<StepFault>>; 8], u64)> {
    let mut engine = made(alloc)?;
    let steps = open_two(alloc, &mut engine);
    let before = engine.visited();
    engine.step(Some(Event::Edit(Policy::open_to_all(alloc))))?;
    Some((steps, engine.visited().saturating_sub(before)))
}

/// Each of two channels is looked at with its session to learn where its name leads, and again for what its client is
/// owed.
#[test]
fn an_edit_learns_where_names_lead_before_it_follows(rt: HostRuntime) {
    let done = Some(None);
    assert_eq!(rt; looks_of_edit(rt.alloc()), Some(([done; 8], 8)));
}
