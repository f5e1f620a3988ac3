//! Sessions that are served at once.
use crate::workers::paced::{Count, PacedLink, Until};
use crate::workers::stand::{GREETING, Lends, attach, bytes, digits, gate};
use gate_board::{Gate, Inlet, Outlet};
use gateway_core::Dest;
use session_worker::{CoreEnd, InEnd, MemoryLink, OutEnd, serve_core, serve_in, serve_out};
use std::alloc::Global;
use std::rt::Clock;
use std::sync::Wait;
use std::test::Fail;
use std::thread::{Threads, join};

/// What a connection's workers are given.
#[derive(Drop)]
pub(crate) struct PacedConnection<R> {
    pub(crate) dest: Dest,
    pub(crate) reading: PacedLink<R>,
    pub(crate) writing: PacedLink<R>,
    pub(crate) inlet: Inlet,
    pub(crate) outlet: Outlet,
}

/// Why they ended, and the link that was written to.
#[derive(Drop)]
pub(crate) struct Ended<R> {
    pub(crate) read: InEnd,
    pub(crate) wrote: OutEnd,
    pub(crate) writing: PacedLink<R>,
}

/// Serves a connection by two threads.
pub(crate) fn serve_both_ways<R: Threads + Wait + Clock + Send + Sync + Drop, G: Lends + Sync>(
    rt: &R,
    alloc: Global,
    gate: &G,
    connection: PacedConnection<R>,
) -> Ended<R> {
    let PacedConnection {
        dest,
        mut reading,
        mut writing,
        mut inlet,
        mut outlet,
    } = connection;
    let (read, (wrote, writing)) = join(
        rt,
        move || serve_in(rt, alloc, &mut reading, &mut inlet, gate.gate(), dest),
        move || {
            let wrote = serve_out(rt, &mut writing, &mut outlet, gate.gate(), dest);
            (wrote, writing)
        },
    );
    Ended {
        read,
        wrote,
        writing,
    }
}

/// Serves two connections at once.
pub(crate) fn serve_two<R: Threads + Wait + Clock + Send + Sync + Drop, G: Lends + Sync>(
    rt: &R,
    alloc: Global,
    gate: &G,
    one: PacedConnection<R>,
    other: PacedConnection<R>,
) -> (Ended<R>, Ended<R>) {
    join(
        rt,
        move || serve_both_ways(rt, alloc, gate, one),
        move || serve_both_ways(rt, alloc, gate, other),
    )
}

// The same, beside a core, which is closed at the end.
fn serve_two_with_a_core<R: Threads + Wait + Clock + Send + Sync + Drop, G: Lends + Sync>(
    rt: &R,
    alloc: Global,
    gate: &G,
    one: PacedConnection<R>,
    other: PacedConnection<R>,
) -> (CoreEnd, (Ended<R>, Ended<R>)) {
    join(
        rt,
        || serve_core(rt, gate.gate()),
        move || {
            let ends = serve_two(rt, alloc, gate, one, other);
            gate.gate().close(rt);
            ends
        },
    )
}

/// How a connection is paced: its bytes, in pieces of so many, and what its reads and writes wait for.
#[derive(Drop)]
pub(crate) struct PacedBytes {
    pub(crate) input: Vec<u8>,
    pub(crate) piece: usize,
    pub(crate) reads: Vec<Until>,
    pub(crate) writes: Vec<Until>,
}

/// Opens and attaches a connection, with links of this pace. What it is written is counted.
pub(crate) fn connect<R: Wait + Copy + Drop>(
    rt: R,
    alloc: Global,
    gate: &Gate,
    dest: Dest,
    pace: PacedBytes,
    heard: &Count,
) -> Result<PacedConnection<R>, Fail> {
    let PacedBytes {
        input,
        piece,
        reads,
        writes,
    } = pace;
    let (inlet, outlet) = attach(&rt, alloc, gate, dest)?;
    let none = Vec::new(alloc);
    let source = MemoryLink::new(alloc, input, piece);
    let sink = MemoryLink::new(alloc, none, usize::MAX);
    Ok(PacedConnection {
        dest,
        reading: PacedLink::new(rt, source, reads, heard.again()?),
        writing: PacedLink::new(rt, sink, writes, heard.again()?),
        inlet,
        outlet,
    })
}

/// A wait of the call with this number.
pub(crate) fn until(call: usize, count: &Count, wanted: u64) -> Result<Until, Fail> {
    Ok(Until {
        call,
        count: count.again()?,
        wanted,
    })
}

const ONE: &str = "00170000000000000000000100000000";

const TWO: &str = "00170000000000000000000200000000";

const THREE: &str = "00170000000000000000000300000000";

/// A session sends its second message only once another session was answered. So each is served while the
/// other waits.
#[test]
fn two_sessions_meet(rt: HostRuntime) -> Result<(), Fail> {
    let alloc = rt.alloc();
    let gate = gate(alloc, 1)?;
    let heard = Count::new(alloc)?;
    let heard_there = Count::new(alloc)?;
    let here = PacedBytes {
        input: bytes(alloc, &format!(in alloc; "{ONE}{TWO}")?)?,
        piece: 16,
        reads: vec![in alloc; until(1, &heard_there, 32)?, until(2, &heard, 48)?]?,
        writes: Vec::new(alloc),
    };
    let there = PacedBytes {
        input: bytes(alloc, THREE)?,
        piece: 16,
        reads: vec![in alloc; until(1, &heard_there, 32)?]?,
        writes: Vec::new(alloc),
    };
    let one = connect(rt, alloc, &gate, Dest::Session(1), here, &heard)?;
    let other = connect(rt, alloc, &gate, Dest::Session(2), there, &heard_there)?;
    let (core, (one, other)) = serve_two_with_a_core(&rt, alloc, &gate, one, other);
    assert_eq!(rt; core, CoreEnd::Closed);
    assert_eq!(rt; (one.read, one.wrote), (InEnd::Closed, OutEnd::Closed));
    assert_eq!(rt; (other.read, other.wrote), (InEnd::Closed, OutEnd::Closed));
    let told = digits(alloc, one.writing.output())?;
    assert_eq!(rt;
        told.as_str(),
        format!(in alloc; "{GREETING}{ONE}{TWO}")?.as_str()
    );
    let told = digits(alloc, other.writing.output())?;
    assert_eq!(rt;
        told.as_str(),
        format!(in alloc; "{GREETING}{THREE}")?.as_str()
    );
    Ok(())
}

/// How many messages each of two clients sends: more than a ring has places.
const MANY: usize = 300;
/// How many bytes the greeting and as many answers have.
const ALL: u64 = 16 * 301;

/// A client is read slowly: nothing is written to it before another, who sends as much, got all of its
/// answers. So it keeps nobody waiting, and gets all of its own at the end.
#[test]
fn a_client_that_is_read_slowly_keeps_no_other_waiting(rt: HostRuntime) -> Result<(), Fail> {
    let alloc = rt.alloc();
    let gate = gate(alloc, 1)?;
    let heard = Count::new(alloc)?;
    let heard_there = Count::new(alloc)?;
    let text = ONE.repeat(alloc, MANY)?;
    let slow = PacedBytes {
        input: bytes(alloc, text.as_str())?,
        piece: 8_000,
        reads: vec![in alloc; until(1, &heard, ALL)?]?,
        writes: vec![in alloc; until(0, &heard_there, ALL)?]?,
    };
    let quick = PacedBytes {
        input: bytes(alloc, text.as_str())?,
        piece: 8_000,
        reads: vec![in alloc; until(1, &heard_there, ALL)?]?,
        writes: Vec::new(alloc),
    };
    let one = connect(rt, alloc, &gate, Dest::Session(1), slow, &heard)?;
    let other = connect(rt, alloc, &gate, Dest::Session(2), quick, &heard_there)?;
    let (core, (one, other)) = serve_two_with_a_core(&rt, alloc, &gate, one, other);
    assert_eq!(rt; core, CoreEnd::Closed);
    assert_eq!(rt; (one.read, one.wrote), (InEnd::Closed, OutEnd::Closed));
    assert_eq!(rt; (other.read, other.wrote), (InEnd::Closed, OutEnd::Closed));
    let wanted = format!(in alloc; "{GREETING}{text}")?;
    assert_eq!(rt;
        digits(alloc, one.writing.output())?.as_str(),
        wanted.as_str()
    );
    assert_eq!(rt;
        digits(alloc, other.writing.output())?.as_str(),
        wanted.as_str()
    );
    Ok(())
}
