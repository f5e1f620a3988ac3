//! Searches on clients' connections that wait for an answer: whoever makes them again is told of them.
use crate::scripts::engine::{TriedEngine, opened};
use bytes::Bytes;
use ca_header::{Header, Message};
use gateway_core::{Config, Engine, Event, Limits, Policy, StepFault};
use pv_name::Name;
use std::alloc::Global;
use std::fmt::Write;

/// An engine that answers searches on connections.
fn made(alloc: Global) -> Option<TriedEngine> {
    let config = Config {
        client_name: Name::read(alloc, b"pvgate").ok()?,
        host_name: Name::read(alloc, b"gw").ok()?,
        port: 5064,
        first: 1,
    };
    let limits = Limits {
        answers_searches: true,
        ..Limits::usual()
    };
    let engine = Engine::with_limits(alloc, config, Policy::open_to_all(alloc), limits).ok()?;
    Some(TriedEngine { engine })
}

/// The client searches for the name under the CID.
fn sought(alloc: Global, cid: u32, name: &[u8; 8]) -> Option<Event> {
    let payload = Bytes::copy_from_slice(alloc, name).ok()?;
    let head = Header {
        command: 6,
        dtype: 5,
        p1: cid,
        p2: cid,
        count: 13,
        size: 8,
    };
    Some(Event::Client(1, Message { head, payload }))
}

/// What is told where a client searches for T1 and for T2, which no server is known to have.
fn seek_both(alloc: Global, engine: &mut TriedEngine) -> [Option<Option<StepFault>>; 3] {
    [
        engine.step(opened(alloc)),
        engine.step(sought(alloc, 17, b"T1\0\0\0\0\0\0")),
        engine.step(sought(alloc, 18, b"T2\0\0\0\0\0\0")),
    ]
}

/// The searches that had no answer behind the first so many, and how many had none, are written behind a text.
fn write_unanswered(alloc: Global, engine: &TriedEngine, seen: u64, text: &mut String) -> bool {
    let Ok(since) = engine.engine.unanswered_since(alloc, seen) else {
        return false;
    };
    let mut is_whole = true;
    for search in &since.searches {
        let (session, cid, name) = (search.session, search.cid, search.name.text());
        is_whole &= write!(text, "s{session} {cid} {name}, ").is_ok();
    }
    is_whole
        & writeln!(
            text,
            "{} of {}",
            since.count,
            engine.engine.unanswered_count()
        )
        .is_ok()
}

/// What is told of both searches, behind none, one and both of them.
fn told(alloc: Global, text: &mut String) -> Option<[Option<Option<StepFault>>; 3]> {
    let mut engine = made(alloc)?;
    let steps = seek_both(alloc, &mut engine);
    let mut is_whole = true;
    for seen in 0..3 {
        is_whole &= write_unanswered(alloc, &engine, seen, text);
    }
    if is_whole { Some(steps) } else { None }
}

#[test]
fn knows_the_searches_that_wait_for_an_answer(rt: HostRuntime) {
    let mut text = String::new(rt.alloc());
    assert_eq!(rt; told(rt.alloc(), &mut text), Some([Some(None); 3]));
    let wanted = "s1 17 T1, s1 18 T2, 2 of 2\ns1 18 T2, 2 of 2\n2 of 2\n";
    assert_eq!(rt; text.as_str(), wanted);
}
