//! From a connection to the board.
ghost use Rattle.std.specs.Prelude.{◌≡◌, ◌++◌, [], ◌∷◌, ◌<◌, ◌≤◌, length, true, IsTrue, IsFalse};
ghost use Rattle.board_rings.specs.declared.attachment.TheConstants.{RING_SIZE};
ghost use Rattle.std.specs.Io.KnownBytes.{Keeps};
ghost use Rattle.ca_header.specs.Reading.{front_at};
ghost use Rattle.ca_header.specs.Spelling.{IsBytes};
ghost use Rattle.ca_header.specs.declared.reading.Front.{Front};
ghost use Rattle.session_worker.specs.Serving.{IsHeard, IsOffered, IsServedIn, Stops};

use crate::Link;
use board_rings::{Inbound, Inlet};
use ca_header::{FrameFault, Intake, IntakeFault};
use gate_board::Gate;
use gateway_state::Dest;
use std::alloc::Global;
use std::sync::Wait;

/// How many bytes are read at once, at most.
const PIECE_SIZE: usize = 16_384;

/// Behind a message whose payload has so many bytes or more, nothing is read until the board has received all: a
/// ring full of the longest would take 4 GiB, and who is held may fill it.
const LONG_PAYLOAD: usize = 65_536;

/// Why a reader ended.
#[derive(Clone, Copy, Debug, PartialEq, Eq)]
pub enum InEnd {
    /// The stream has ended. Less than a message may be left of it.
    Closed,
    /// A call of the link failed.
    ReadFault,
    /// What follows the last whole message is no message.
    Framing(FrameFault),
    /// The gate is closed, or the engine has failed.
    GateFailed,
    /// Memory was refused.
    OutOfMemory,
}

// What a piece came to.
#[derive(Clone, Copy)]
enum HeardPiece {
    // Its messages were offered, and more may come.
    More,
    End(InEnd),
}

// Offers an item, and waits for a place where there is none. False where nothing is moved any more. An end goes by
// the gate, which says to the board that it comes: the ring may have a place for it behind items that are held.
fn hand_over<R: Wait>(rt: &R, inlet: &mut Inlet, gate: &Gate, item: Inbound) -> bool
    ensures some { IsTrue result → inlet.new.offered ≡ inlet.old.offered ++ item ∷ [] }
    ensures none { IsFalse result → inlet.new.offered ≡ inlet.old.offered }
    ensures stopped { IsFalse result → inlet.old.stops < inlet.new.stops }
    ensures told { inlet.old.stops ≤ inlet.new.stops }
    ensures ring { inlet.new.ring ≡ inlet.old.ring }
{
    if matches!(item, Inbound::Gone) {
        return gate.put(rt, inlet, item).is_ok();
    }
    match inlet.offer(item) {
        Ok(()) => true,
        Err(back) => gate.put(rt, inlet, back).is_ok(),
    }
}

// Behind a long message it waits until the board has received all. False where nothing is moved any more.
fn clear_behind<R: Wait>(rt: &R, inlet: &mut Inlet, gate: &Gate, is_long: bool) -> bool
    ensures clear { is_long ≡ true → IsTrue result → inlet.new.free ≡ RING_SIZE }
    ensures offered { inlet.new.offered ≡ inlet.old.offered }
    ensures stopped { IsFalse result → inlet.old.stops < inlet.new.stops }
    ensures told { inlet.old.stops ≤ inlet.new.stops }
    ensures ring { inlet.new.ring ≡ inlet.old.ring }
{
    if is_long {
        return gate.clear(rt, inlet);
    }
    true
}

// Offers the whole messages of what is held.
fn offer_whole<R: Wait>(rt: &R, intake: &mut Intake, inlet: &mut Inlet, gate: &Gate) -> HeardPiece
    requires { IsBytes intake.old }
    ensures offered { IsOffered result intake.old intake.new inlet.old.offered inlet.new.offered inlet.old.stops inlet.new.stops }
    ensures told { inlet.old.stops ≤ inlet.new.stops }
    ensures ring { inlet.new.ring ≡ inlet.old.ring }
{
    for _ in rt.forever() {
        let message = match intake.take() {
            Ok(Some(message)) => message,
            Ok(None) => return HeardPiece::More,
            Err(IntakeFault::Faulted(fault)) => return HeardPiece::End(InEnd::Framing(fault)),
            Err(IntakeFault::OutOfMemory) => return HeardPiece::End(InEnd::OutOfMemory),
        };
        let is_long = message.payload.len() >= LONG_PAYLOAD;
        if !hand_over(rt, inlet, gate, Inbound::Message(message)) {
            return HeardPiece::End(InEnd::GateFailed);
        }
        if !clear_behind(rt, inlet, gate, is_long) {
            return HeardPiece::End(InEnd::GateFailed);
        }
    }
    unreachable!()
}

// Puts a piece behind what is held, which has no fault. False where memory was refused.
fn hold(intake: &mut Intake, piece: &[u8]) -> bool
    ensures fits { IsBytes piece.now }
    ensures held { IsTrue result → intake.new ≡ intake.old ++ piece.now }
{
    intake.feed(piece).is_ok()
}

// Reads a piece, offers the messages that it makes whole, and wakes the gate.
fn hear<L: Link, R: Wait>(
    rt: &R,
    link: &mut L,
    intake: &mut Intake,
    inlet: &mut Inlet,
    gate: &Gate,
    buffer: &mut [u8],
) -> HeardPiece
    requires bytes { IsBytes intake.old }
    requires partial { front_at intake.old ≡ Front.Partial }
    requires room { 0 < length buffer.old }
    ensures heard { IsHeard result
        (record { unread = L.unread link.old; failed = L.failed link.old; offered = inlet.old.offered; stops = inlet.old.stops })
        (record { unread = L.unread link.new; failed = L.failed link.new; offered = inlet.new.offered; stops = inlet.new.stops }) intake.old intake.new }
    ensures kept { Keeps (L.written link.old) (L.written link.new) }
    ensures ring { inlet.new.ring ≡ inlet.old.ring }
    ensures room { length buffer.new ≡ length buffer.old }
{
    let count = match link.read_piece(buffer) {
        Ok(0) => return HeardPiece::End(InEnd::Closed),
        Ok(count) => count,
        Err(_) => return HeardPiece::End(InEnd::ReadFault),
    };
    if !hold(intake, &buffer[..count]) {
        return HeardPiece::End(InEnd::OutOfMemory);
    }
    match offer_whole(rt, intake, inlet, gate) {
        HeardPiece::More if gate.wake_for(rt, inlet) => HeardPiece::More,
        HeardPiece::More => HeardPiece::End(InEnd::GateFailed),
        HeardPiece::End(end) => HeardPiece::End(end),
    }
}

// Reads pieces until the reader has to end.
fn hear_all<L: Link, R: Wait>(
    rt: &R,
    alloc: Global,
    link: &mut L,
    inlet: &mut Inlet,
    gate: &Gate,
) -> InEnd
    ensures stops { Stops result
        (record { unread = L.unread link.old; failed = L.failed link.old; offered = inlet.old.offered; stops = inlet.old.stops })
        (record { unread = L.unread link.new; failed = L.failed link.new; offered = inlet.new.offered; stops = inlet.new.stops }) [] }
    ensures kept { Keeps (L.written link.old) (L.written link.new) }
    ensures ring { inlet.new.ring ≡ inlet.old.ring }
{
    let mut intake = Intake::new(alloc);
    let mut buffer = [0u8; PIECE_SIZE];
    for _ in rt.forever() {
        match hear(rt, link, &mut intake, inlet, gate, &mut buffer) {
            HeardPiece::More => (),
            HeardPiece::End(end) => return end,
        }
    }
    unreachable!()
}

/// Reads a connection to its end, and offers each whole message to the board, in order, and after the last
/// that the connection is gone. The gate is woken after each piece, and at the end. It waits where the link
/// does, where the ring has no place, and behind a long message until the board has received it.
///
/// At `OutOfMemory` and `GateFailed` only the first of the messages that were read may be offered. At
/// `GateFailed` it isn't offered that the connection is gone: the gate said that nothing is moved any more.
pub fn serve_in<L: Link, R: Wait>(
    rt: &R,
    alloc: Global,
    link: &mut L,
    inlet: &mut Inlet,
    gate: &Gate,
    _dest: Dest,
) -> InEnd
    ensures served { IsServedIn result
        (record { unread = L.unread link.old; failed = L.failed link.old; offered = inlet.old.offered; stops = inlet.old.stops })
        (record { unread = L.unread link.new; failed = L.failed link.new; offered = inlet.new.offered; stops = inlet.new.stops }) }
    ensures kept { Keeps (L.written link.old) (L.written link.new) }
    ensures ring { inlet.new.ring ≡ inlet.old.ring }
{
    let end = match hear_all(rt, alloc, link, inlet, gate) {
        InEnd::GateFailed => return InEnd::GateFailed,
        end => end,
    };
    if !hand_over(rt, inlet, gate, Inbound::Gone) {
        return InEnd::GateFailed;
    }
    gate.wake(rt);
    end
}
