//! Both ends of a connection's rings, once the connection is retired.
ghost use Rattle.std.specs.Prelude.{◌≡◌, Some};
ghost use Rattle.board_rings.specs.Attachments.{rings_of};
ghost use Rattle.board_moves.specs.Answers.{KeepsRings};

use crate::workers::stand::{board, echo};
use gate_board::laws::{left_in, left_out};
use gate_board::{Board, BoardFault, Inlet, Outlet};
use gateway_core::{Dest, Event};
use pv_name::Host;
use std::test::Fail;

const CLIENT: Dest = Dest::Session(1);

// Offers three items, has one performed and what it brings sent out, and takes one message.
fn move_some(
    board: &mut Board,
    dest: Dest,
    inlet: &mut Inlet,
    outlet: &mut Outlet,
) -> Result<bool, BoardFault>
    ensures rings { KeepsRings board.old.attachments board.new.attachments }
    ensures inlet { inlet.new.ring ≡ inlet.old.ring }
    ensures outlet { outlet.new.ring ≡ outlet.old.ring }
{
    let first = inlet.offer(echo(1)).is_ok();
    let second = inlet.offer(echo(2)).is_ok();
    let third = inlet.offer(echo(3)).is_ok();
    let pumped = board.pump(dest)?;
    let sent = board.send_out(dest)?;
    let taken = outlet.next().is_some();
    Ok(first && second && third && pumped && sent == 2 && taken)
}

// How much lies in the ring in and in the ring out of a connection that is retired.
pub(crate) fn left_between(
    board: &mut Board,
    dest: Dest,
    inlet: &mut Inlet,
    outlet: &mut Outlet,
) -> Option<(usize, usize)>
    requires { rings_of dest board.old.attachments ≡ Some (inlet.old.ring, outlet.old.ring) }
{
    let mut ends = match board.retire(dest) {
        Some(ends) => ends,
        None => return None,
    };
    let inside = left_in(inlet, &mut ends);
    Some((inside, left_out(outlet, &mut ends)))
}

// Attaches a connection, moves some items, and retires it.
fn left_after_moves(board: &mut Board, dest: Dest) -> Result<Option<(usize, usize)>, BoardFault> {
    let (mut inlet, mut outlet) = match board.attach(dest) {
        Ok(ends) => ends,
        Err(fault) => return Err(fault),
    };
    if !move_some(board, dest, &mut inlet, &mut outlet)? {
        return Ok(None);
    }
    Ok(left_between(board, dest, &mut inlet, &mut outlet))
}

/// What went in at one end is what came out at the other, and then what lies between: of three items one
/// was performed, and of the greeting and its answer one was taken.
#[test]
fn what_lies_between_the_ends_is_counted(rt: HostRuntime) -> Result<(), Fail> {
    let mut board = board(rt.alloc(), 1)?;
    board.desk(Event::Opened(1, Host::read(rt.alloc(), b"10.0.0.5")?))?;
    assert_eq!(rt; left_after_moves(&mut board, CLIENT), Ok(Some((2, 1))));
    Ok(())
}
