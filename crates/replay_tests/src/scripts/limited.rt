//! Limits that hold from the start, on both gateways.
use crate::scripts::used_up::part;
use gateway_core::{Config, Engine, Limits, Policy};
use plain_gate::PlainGate;
use pv_name::Name;
use replay::play;
use std::alloc::Global;
use std::process::Abort;

/// One client, one server and one remembered name. The second of each is refused.
const ONE_OF_EACH: &str = "open s1 10.0.0.5
> s1 000000000000000d0000000000000000
open s2 10.0.0.6
open u1
> u1 000000000000000d0000000000000000
> u1 001400080000000000000000000000007076676174650000
> u1 001500080000000000000000000000006777000000000000
open u2
search h1 000600080005000d00000011000000116100000000000000
> reply -
search h1 000600080005000d00000011000000116200000000000000
> reply -
asks
> asks a
";

fn one_of_each() -> Limits {
    Limits {
        sessions: 1,
        servers: 1,
        searches: 1,
        ..Limits::usual()
    }
}

/// The status of a script on an engine with these limits, where there is memory for one.
fn ended(alloc: Global, limits: Limits, script: &[u8], out: &mut Vec<u8>) -> Option<u8> {
    let config = Config {
        client_name: Name::read(alloc, b"pvgate").ok()?,
        host_name: Name::read(alloc, b"gw").ok()?,
        port: 5064,
        first: 1,
    };
    let engine = Engine::with_limits(alloc, config, Policy::open_to_all(alloc), limits).ok()?;
    Some(play(alloc, engine, script, out))
}

/// The same on the plain gateway.
fn plain_ended(alloc: Global, limits: Limits, script: &[u8], out: &mut Vec<u8>) -> Option<u8> {
    let config = Config {
        client_name: Name::read(alloc, b"pvgate").ok()?,
        host_name: Name::read(alloc, b"gw").ok()?,
        port: 5064,
        first: 1,
    };
    let gate = PlainGate::with_limits(alloc, config, Policy::open_to_all(alloc), limits).ok()?;
    Some(play(alloc, gate, script, out))
}

/// Asserts that a story comes out as it is told, on both gateways.
fn tells(rt: &impl Abort, alloc: Global, limits: Limits, story: &str) {
    let mut script = Vec::new(alloc);
    let mut printed = Vec::new(alloc);
    let mut out = Vec::new(alloc);
    let mut plain_out = Vec::new(alloc);
    let is_whole = part(story, &mut script, &mut printed);
    assert!(rt; is_whole);
    assert_eq!(rt; ended(alloc, limits, &script, &mut out), Some(0));
    assert_eq!(rt; out.as_slice(), printed.as_slice());
    assert_eq!(rt;
        plain_ended(alloc, limits, &script, &mut plain_out),
        Some(0)
    );
    assert_eq!(rt; plain_out.as_slice(), printed.as_slice());
}

#[test]
fn limits_hold_from_the_start(rt: HostRuntime) {
    tells(&rt, rt.alloc(), one_of_each(), ONE_OF_EACH);
}
