//! Calls of the gate.
use bytes::Bytes;
use ca_header::{Header, Message};
use gate_board::{Gate, Inbound, Inlet, Outlet, Turn};
use gateway_core::{Dest, Event, Limits};
use pv_name::{Host, Name};
use std::alloc::Global;
use std::sync::Wait;
use std::test::Fail;

/// The client whose rings are there, and whom nobody serves.
pub(crate) const THIRD: Dest = Dest::Session(3);

/// A call.
#[derive(Clone, Copy)]
pub(crate) enum Call {
    /// A connection is opened, given rings that are let go, lost, or its ends are taken off.
    Open(Dest),
    Attach(Dest),
    Lose(u32),
    Retire(Dest),
    /// Searches on connections are answered from here on.
    Answer,
    /// A name is searched for, and found at the server 1; the latter fails.
    Search(&'static [u8]),
    Find(&'static [u8]),
    FailToFind(&'static [u8]),
    /// A round, or a batch, which moves something.
    Turn,
    Batch,
    /// The third client offers an ECHO, or puts so many, or its end.
    Offer,
    Put(u32),
    PutEnd,
    Wake,
    Close,
}

impl Call {
    /// Whether it answers as it must.
    pub(crate) fn make<R: Wait>(
        self,
        rt: &R,
        alloc: Global,
        gate: &Gate,
        third: &mut Inlet,
    ) -> bool {
        match self {
            Call::Open(dest) => open(rt, alloc, gate, dest),
            Call::Attach(dest) => gate.attach(rt, dest).is_ok(),
            Call::Lose(number) => gate.desk(rt, Event::Lost(number)).is_ok(),
            Call::Retire(dest) => gate.retire(rt, dest).is_some(),
            Call::Answer => answer(rt, gate),
            Call::Search(name) => search(rt, alloc, gate, name),
            Call::Find(name) => find(rt, alloc, gate, name),
            Call::FailToFind(name) => !find(rt, alloc, gate, name),
            Call::Turn => gate.turn(rt) == Turn::Moved,
            Call::Batch => gate.batch(rt) == Turn::Moved,
            Call::Offer => third.offer(echo()).is_ok(),
            Call::Put(count) => put(rt, gate, third, count),
            Call::PutEnd => gate.put(rt, third, Inbound::Gone).is_ok(),
            Call::Wake => gate.wake(rt),
            Call::Close => close(rt, gate),
        }
    }
}

fn open<R: Wait>(rt: &R, alloc: Global, gate: &Gate, dest: Dest) -> bool {
    match dest {
        Dest::Session(number) => match Host::read(alloc, b"10.0.0.5") {
            Ok(host) => gate.desk(rt, Event::Opened(number, host)).is_ok(),
            Err(_) => false,
        },
        Dest::Upstream(number) => gate.desk(rt, Event::UpOpened(number)).is_ok(),
    }
}

fn answer<R: Wait>(rt: &R, gate: &Gate) -> bool {
    let limits = Limits {
        answers_searches: true,
        ..Limits::usual()
    };
    gate.desk(rt, Event::Limit(limits)).is_ok()
}

fn search<R: Wait>(rt: &R, alloc: Global, gate: &Gate, name: &[u8]) -> bool {
    match (Host::read(alloc, b"10.0.0.5"), Name::read(alloc, name)) {
        (Ok(host), Ok(name)) => gate.desk(rt, Event::Search(host, name)).is_ok(),
        _ => false,
    }
}

fn find<R: Wait>(rt: &R, alloc: Global, gate: &Gate, name: &[u8]) -> bool {
    match Name::read(alloc, name) {
        Ok(name) => gate.desk(rt, Event::Found(name, 1)).is_ok(),
        Err(_) => false,
    }
}

fn echo() -> Inbound {
    Inbound::Message(Message {
        head: Header {
            command: 23,
            dtype: 0,
            p1: 1,
            p2: 0,
            count: 0,
            size: 0,
        },
        payload: Bytes::new(),
    })
}

fn put<R: Wait>(rt: &R, gate: &Gate, inlet: &mut Inlet, count: u32) -> bool {
    for _ in 0..count {
        if gate.put(rt, inlet, echo()).is_err() {
            return false;
        }
    }
    true
}

fn close<R: Wait>(rt: &R, gate: &Gate) -> bool {
    gate.close(rt);
    true
}

/// Opens a connection, and gives it rings.
pub(crate) fn connect<R: Wait>(
    rt: &R,
    alloc: Global,
    gate: &Gate,
    dest: Dest,
) -> Result<(Inlet, Outlet), Fail> {
    if !open(rt, alloc, gate, dest) {
        return Err("it is opened".into());
    }
    Ok(gate.attach(rt, dest)?)
}
