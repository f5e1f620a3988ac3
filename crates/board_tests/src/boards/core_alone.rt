//! A reader's worker, the gate, and the core that comes late.
use crate::boards::tell::board;
use gate_board::{Arrears, Board, Gate, Inlet, Outlet, Turn};
use gateway_core::{Dest, Event};
use pv_name::Host;
use session_worker::{CoreEnd, InEnd, MemoryLink, serve_core, serve_in};
use std::alloc::Global;
use std::test::Fail;

const CLIENT: Dest = Dest::Session(1);

/// The length of a message without a payload.
const PLAIN: usize = 16;

/// A client's message without a payload: its command, and its count.
fn plain(alloc: Global, command: u8, count: u8) -> Result<Vec<u8>, Fail> {
    let mut bytes = Vec::from_array(alloc, [0u8; PLAIN])?;
    bytes[1] = command;
    bytes[7] = count;
    Ok(bytes)
}

/// A board where the client stands, with its rings.
fn served(alloc: Global) -> Result<(Board, Inlet, Outlet), Fail> {
    let mut board = board(alloc)?;
    board.desk(Event::Opened(1, Host::read(alloc, b"10.0.0.5")?))?;
    let (inlet, outlet) = board.attach(CLIENT)?;
    Ok((board, inlet, outlet))
}

/// With no core nothing that a reader hands over is performed; each turn performs one item of it.
#[test]
fn the_core_alone_moves_items(rt: HostRuntime) -> Result<(), Fail> {
    let alloc = rt.alloc();
    let version = plain(alloc, 0, 8)?;
    let (board, mut inlet, mut outlet) = served(alloc)?;
    let mut link = MemoryLink::new(alloc, version, 5);
    let gate = Gate::new(board);
    let end = serve_in(&rt, alloc, &mut link, &mut inlet, &gate, CLIENT);
    assert_eq!(rt; end, InEnd::Closed);
    assert_eq!(rt; gate.must_end(&rt, CLIENT), Ok(false));
    assert_eq!(rt; gate.waiting_bytes(&rt, CLIENT), Ok(16));
    assert_eq!(rt; gate.turn(&rt), Turn::Moved);
    assert_eq!(rt; gate.must_end(&rt, CLIENT), Ok(true));
    assert_eq!(rt;
        gate.arrears(&rt, CLIENT),
        Ok(Arrears {
            must_end: true,
            waiting: 16
        })
    );
    assert_eq!(rt; minor_of_next(&mut outlet), Some(13));
    assert_eq!(rt; gate.turn(&rt), Turn::Moved);
    assert_eq!(rt; gate.is_open(&rt, CLIENT), Ok(false));
    gate.close(&rt);
    assert_eq!(rt; gate.turn(&rt), Turn::Closed);
    assert_eq!(rt; serve_core(&rt, &gate), CoreEnd::Closed);
    Ok(())
}

/// The minor version that the next message says, where it is a VERSION.
fn minor_of_next(outlet: &mut Outlet) -> Option<u8> {
    outlet.next()?.head.as_slice().get(7).copied()
}
