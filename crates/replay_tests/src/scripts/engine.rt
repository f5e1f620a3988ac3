//! What the engine answers once its numbers are used up: one whose first number is its last can make one
//! link and no second.
use bytes::Bytes;
use ca_header::{Header, Message};
use gateway_core::{Config, Dest, Engine, Event, Failed, Policy, StepFault};
use pv_name::{Host, Name};
use std::alloc::Global;
use std::marker::Model;

/// CREATE_CHAN of a name in 8 bytes.
const CREATE: Header = Header {
    command: 18,
    dtype: 0,
    p1: 7,
    p2: 13,
    count: 0,
    size: 8,
};

/// An engine whose contract isn't followed: the test looks at what it answers.
#[derive(Drop)]
pub(crate) struct TriedEngine {
    pub(crate) engine: Engine,
}

impl Model for TriedEngine {
    ghost Value = { Unit {0} };

    ghost view = { λ _. tt };
}

impl TriedEngine {
    /// What the event is refused with, where there is memory for it.
    pub(crate) fn step(&mut self, event: Option<Event>) -> Option<Option<StepFault>> {
        Some(self.engine.step(event?).err())
    }

    fn refusal(&mut self) -> Option<Failed> {
        self.engine.is_open(Dest::Session(1)).err()
    }

    pub(crate) fn visited(&mut self) -> u64 {
        self.engine.visited()
    }
}

/// An engine that has one number of each kind left.
pub(crate) fn last_numbers(alloc: Global) -> Option<Engine> {
    let config = Config {
        client_name: Name::read(alloc, b"pvgate").ok()?,
        host_name: Name::read(alloc, b"gw").ok()?,
        port: 5064,
        first: 0xFFFF_FFFE,
    };
    Engine::new(alloc, config, Policy::open_to_all(alloc)).ok()
}

fn made(alloc: Global) -> Option<TriedEngine> {
    let engine = last_numbers(alloc)?;
    Some(TriedEngine { engine })
}

/// A client connects.
pub(crate) fn opened(alloc: Global) -> Option<Event> {
    Some(Event::Opened(1, Host::read(alloc, b"10.0.0.5").ok()?))
}

/// The client wants a channel on a variable.
pub(crate) fn want(alloc: Global, name: &[u8; 8]) -> Option<Event> {
    let payload = Bytes::copy_from_slice(alloc, name).ok()?;
    let head = CREATE;
    Some(Event::Client(1, Message { head, payload }))
}

/// The server has a variable.
pub(crate) fn found(alloc: Global, name: &[u8]) -> Option<Event> {
    Some(Event::Found(Name::read(alloc, name).ok()?, 1))
}

/// What is told where a client wants T1 and T2 of a server that has both, and of a step after that.
fn link_both(alloc: Global, engine: &mut TriedEngine) -> [Option<Option<StepFault>>; 7] {
    [
        engine.step(Some(Event::UpOpened(1))),
        engine.step(opened(alloc)),
        engine.step(want(alloc, b"T1\0\0\0\0\0\0")),
        engine.step(want(alloc, b"T2\0\0\0\0\0\0")),
        engine.step(found(alloc, b"T1")),
        engine.step(found(alloc, b"T2")),
        engine.step(Some(Event::Sweep)),
    ]
}

/// The same, and what a question is told then; nothing where there is no memory for an engine.
fn told(alloc: Global) -> Option<([Option<Option<StepFault>>; 7], Option<Failed>)> {
    let mut engine = made(alloc)?;
    let steps = link_both(alloc, &mut engine);
    Some((steps, engine.refusal()))
}

#[test]
fn tells_used_up_numbers_once_and_is_failed_from_then_on(rt: HostRuntime) {
    let done = Some(None);
    let used_up = Some(Some(StepFault::NumbersUsedUp));
    let failed = Some(Some(StepFault::Failed));
    let steps = [done, done, done, done, done, used_up, failed];
    assert_eq!(rt; told(rt.alloc()), Some((steps, Some(Failed))));
}
