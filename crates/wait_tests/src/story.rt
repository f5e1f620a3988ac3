//! What a story says, and how it is told.
ghost use Rattle.gateway_state.specs.declared.config.TheConstants.{LAST_FIRST};
ghost use Rattle.std.specs.Prelude.{◌<◌, ◌≤◌};

use crate::calls::{THIRD, connect};
use crate::links::{PacedLink, Piece};
use crate::movers::Mover;
use crate::signs::{Count, END, Signs};
use crate::steps::{Step, Walker};
use gate_board::{Board, Gate, Inlet, Outlet};
use gateway_core::{Config, Dest, Engine, Policy};
use pv_name::Name;
use session_worker::{CoreEnd, InEnd, OutEnd, serve_in, serve_out};
use std::alloc::Global;
use std::process::Abort;
use std::rt::Clock;
use std::sync::Wait;
use std::test::Fail;
use std::thread::{Threads, join};
use std::time::CpuClock;

/// The step at which all links go on to their end.
pub(crate) const LAST: u64 = 100;

/// A connection that is served: what it says, and which of its reads and writes wait until which step.
#[derive(Clone, Copy)]
pub(crate) struct Served {
    pub(crate) dest: Dest,
    pub(crate) says: &'static [Piece],
    pub(crate) reads: &'static [(usize, u64)],
    pub(crate) writes: &'static [(usize, u64)],
}

/// A gateway whose numbers begin with the first, two connections that are served, what a third client says, who moves
/// the board, and what is done beside them. Then the gate is closed, and all go on to their end, which is told last.
#[derive(Clone, Copy)]
pub(crate) struct Story {
    pub(crate) first: First,
    pub(crate) one: Served,
    pub(crate) other: Served,
    pub(crate) third: &'static [Piece],
    pub(crate) mover: Mover,
    pub(crate) steps: &'static [Step],
    pub(crate) ends: Ends,
}

/// Which number is the first that the gateway gives out: 1, or the last but one.
#[derive(Clone, Copy)]
pub(crate) enum First {
    One,
    LastButOne,
}

/// How a connection's workers ended.
pub(crate) type Workers = (InEnd, OutEnd);

/// Both came to their ends, where the client was lost or had to end.
pub(crate) const ENDED: Workers = (InEnd::Closed, OutEnd::Closed);

/// The writer waited until the gate was closed.
pub(crate) const STOPPED: Workers = (InEnd::Closed, OutEnd::GateFailed);

/// Either waited at the gate until it stopped.
pub(crate) const TOLD: Workers = (InEnd::GateFailed, OutEnd::GateFailed);

/// How the workers of both ended, and the core.
pub(crate) type Ends = (Workers, Workers, Option<CoreEnd>);

// How the workers of both ended, and the core, and the number of the step that didn't come as it must.
type Told = ((Workers, Workers), (Option<CoreEnd>, Option<usize>));

/// A gate, what is counted beside it, and the story that is told.
#[derive(Drop)]
struct Stand {
    gate: Gate,
    signs: Signs,
    story: Story,
}

/// One of both connections.
#[derive(Clone, Copy)]
enum Place {
    One,
    Other,
}

impl Stand {
    fn served(&self, place: Place) -> Served {
        match place {
            Place::One => self.story.one,
            Place::Other => self.story.other,
        }
    }

    fn heard(&self, place: Place) -> &Count {
        match place {
            Place::One => &self.signs.one,
            Place::Other => &self.signs.other,
        }
    }
}

// What lends a stand. What starts threads is written for whatever does: so it need not know that a gate, with all that
// it has, may be shared.
trait Lends {
    fn stand(&self) -> &Stand;
}

impl Lends for Stand {
    fn stand(&self) -> &Stand {
        self
    }
}

// A board for a new engine that admits every name, and whose numbers begin with this one.
fn board(alloc: Global, first: u32) -> Result<Board, Fail>
    requires lowest { 0 < first }
    requires highest { first ≤ LAST_FIRST }
{
    let config = Config {
        client_name: Name::read(alloc, b"pvgate")?,
        host_name: Name::read(alloc, b"gw")?,
        port: 5064,
        first,
    };
    let engine = Engine::new(alloc, config, Policy::open_to_all(alloc))?;
    Ok(Board::new(alloc, engine))
}

fn read_all<R: Wait + Clock>(
    rt: &R,
    alloc: Global,
    stand: &Stand,
    place: Place,
    inlet: &mut Inlet,
) -> InEnd {
    let served = stand.served(place);
    let heard = stand.heard(place);
    let mut link = PacedLink::new(rt, &stand.signs, heard, served.says, served.reads);
    let end = serve_in(rt, alloc, &mut link, inlet, &stand.gate, served.dest);
    heard.add(END);
    end
}

fn write_all<R: Wait + Clock>(rt: &R, stand: &Stand, place: Place, outlet: &mut Outlet) -> OutEnd {
    let served = stand.served(place);
    let heard = stand.heard(place);
    let mut link = PacedLink::new(rt, &stand.signs, heard, &[], served.writes);
    let end = serve_out(rt, &mut link, outlet, &stand.gate, served.dest);
    heard.add(END);
    end
}

// Takes the steps; then the gate is closed, and all go on to their end.
fn walk<R: Wait + Clock + CpuClock>(
    rt: &R,
    alloc: Global,
    stand: &Stand,
    inlet: &mut Inlet,
) -> Option<usize> {
    let walker = Walker {
        rt,
        alloc,
        gate: &stand.gate,
        signs: &stand.signs,
        third: stand.story.third,
    };
    let missed = walker.take_all(stand.story.steps, inlet);
    stand.gate.close(rt);
    stand.signs.core.add(1);
    stand.signs.steps.add(LAST);
    missed
}

fn move_board<R: Wait + Clock>(rt: &R, alloc: Global, stand: &Stand) -> Option<CoreEnd> {
    stand.story.mover.work(rt, alloc, &stand.gate, &stand.signs)
}

fn serve<R: Threads + Wait + Clock + Sync, G: Lends + Sync>(
    rt: &R,
    alloc: Global,
    lends: &G,
    place: Place,
    mut inlet: Inlet,
    mut outlet: Outlet,
) -> Workers {
    join(
        rt,
        move || read_all(rt, alloc, lends.stand(), place, &mut inlet),
        move || write_all(rt, lends.stand(), place, &mut outlet),
    )
}

fn serve_both<R: Threads + Wait + Clock + Sync, G: Lends + Sync>(
    rt: &R,
    alloc: Global,
    lends: &G,
    one: (Inlet, Outlet),
    other: (Inlet, Outlet),
) -> (Workers, Workers) {
    join(
        rt,
        move || serve(rt, alloc, lends, Place::One, one.0, one.1),
        move || serve(rt, alloc, lends, Place::Other, other.0, other.1),
    )
}

fn move_beside<R: Threads + Wait + Clock + CpuClock + Sync, G: Lends + Sync>(
    rt: &R,
    alloc: Global,
    lends: &G,
    inlet: &mut Inlet,
) -> (Option<CoreEnd>, Option<usize>) {
    join(
        rt,
        || move_board(rt, alloc, lends.stand()),
        || walk(rt, alloc, lends.stand(), inlet),
    )
}

fn act<R: Threads + Wait + Clock + CpuClock + Sync, G: Lends + Sync>(
    rt: &R,
    alloc: Global,
    lends: &G,
    one: (Inlet, Outlet),
    other: (Inlet, Outlet),
    inlet: &mut Inlet,
) -> Told {
    join(
        rt,
        move || serve_both(rt, alloc, lends, one, other),
        || move_beside(rt, alloc, lends, inlet),
    )
}

// The same over a stand. It does nothing else, so that little is known where it has to be shown that a stand may be
// shared.
fn act_on<R: Threads + Wait + Clock + CpuClock + Sync>(
    rt: &R,
    alloc: Global,
    stand: &Stand,
    one: (Inlet, Outlet),
    other: (Inlet, Outlet),
    inlet: &mut Inlet,
) -> Told {
    act(rt, alloc, stand, one, other, inlet)
}

fn tell_at<R: Threads + Wait + Clock + CpuClock + Sync>(
    rt: &R,
    alloc: Global,
    stand: &Stand,
) -> Result<Told, Fail> {
    let one = connect(rt, alloc, &stand.gate, stand.story.one.dest)?;
    let other = connect(rt, alloc, &stand.gate, stand.story.other.dest)?;
    let (mut inlet, _outlet) = stand.gate.attach(rt, THIRD)?;
    Ok(act_on(rt, alloc, stand, one, other, &mut inlet))
}

fn tell<R: Threads + Wait + Clock + CpuClock + Sync>(
    rt: &R,
    alloc: Global,
    story: Story,
) -> Result<Told, Fail> {
    let board = match story.first {
        First::One => board(alloc, 1)?,
        First::LastButOne => board(alloc, 0xFFFF_FFFE)?,
    };
    let stand = Stand {
        gate: Gate::new(board),
        signs: Signs::new(),
        story,
    };
    tell_at(rt, alloc, &stand)
}

/// Asserts that a story comes out as it is told.
pub(crate) fn tells<R: Abort + Threads + Wait + Clock + CpuClock + Sync>(
    rt: &R,
    alloc: Global,
    story: Story,
) -> Result<(), Fail> {
    let ((one, other), (core, missed)) = tell(rt, alloc, story)?;
    assert_eq!(rt; ((one, other, core), missed), (story.ends, None));
    Ok(())
}
