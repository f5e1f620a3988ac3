//! From the board to a connection.
ghost use Rattle.std.specs.Prelude.{◌≡◌, ◌++◌, [], is_ok, OnOk};
ghost use Rattle.std.specs.Io.KnownBytes.{Keeps};
ghost use Rattle.session_worker.specs.Writing.{IsWritten};
ghost use Rattle.session_worker.specs.Sending.{IsDropped, IsServedOut, IsTold, Sends, Takes, text_of};

use crate::{Link, LinkFault, OutBuffer};
use board_rings::{Outlet, RING_SIZE};
use fanout::Out;
use gate_board::{Gate, Taken};
use gateway_state::Dest;
use std::sync::Wait;

/// Why a writer ended.
#[derive(Clone, Copy, Debug, PartialEq, Eq)]
pub enum OutEnd {
    /// Nothing comes any more for the connection.
    Closed,
    /// A call of the link failed. So many bytes were written before, up to the type's last value.
    WriteFault(u128),
    /// The gate is closed, or the engine has failed.
    GateFailed,
}

// Puts a message's text into the buffer: its header, and then its payload.
fn put_out<L: Link>(link: &mut L, buffer: &mut OutBuffer, out: &Out) -> Result<(), LinkFault>
    ensures written { IsWritten (is_ok result) (buffer.old.held ++ text_of out.now) buffer.new.held
        (record { written = L.written link.old; failed = L.failed link.old; count = buffer.old.count })
        (record { written = L.written link.new; failed = L.failed link.new; count = buffer.new.count }) }
    ensures kept { Keeps (L.unread link.old) (L.unread link.new) }
{
    match buffer.put(link, out.head.as_slice()) {
        Ok(()) => (),
        Err(fault) => return Err(fault),
    }
    buffer.put(link, out.payload.as_slice())
}

// Takes the messages that are there, a ring full of them at most, and puts them into the buffer.
fn put_waiting<L: Link>(
    link: &mut L,
    buffer: &mut OutBuffer,
    outlet: &mut Outlet,
) -> Result<(), LinkFault>
    ensures sent { Sends (is_ok result)
        (record { written = L.written link.old; failed = L.failed link.old; taken = outlet.old.taken; buffer = buffer.old })
        (record { written = L.written link.new; failed = L.failed link.new; taken = outlet.new.taken; buffer = buffer.new }) }
    ensures kept { Keeps (L.unread link.old) (L.unread link.new) }
    ensures ring { outlet.new.ring ≡ outlet.old.ring }
    ensures told { (outlet.new.stops ≡ outlet.old.stops) × (outlet.new.ends ≡ outlet.old.ends) }
{
    for _ in 0..RING_SIZE {
        let out = match outlet.next() {
            Some(out) => out,
            None => return Ok(()),
        };
        match put_out(link, buffer, &out) {
            Ok(()) => (),
            Err(fault) => return Err(fault),
        }
    }
    Ok(())
}

// Takes the messages that are there, and writes all that was taken.
fn write_waiting<L: Link>(
    link: &mut L,
    buffer: &mut OutBuffer,
    outlet: &mut Outlet,
) -> Result<(), LinkFault>
    ensures sent { Sends (is_ok result)
        (record { written = L.written link.old; failed = L.failed link.old; taken = outlet.old.taken; buffer = buffer.old })
        (record { written = L.written link.new; failed = L.failed link.new; taken = outlet.new.taken; buffer = buffer.new }) }
    ensures none { OnOk result (buffer.new.held ≡ []) }
    ensures kept { Keeps (L.unread link.old) (L.unread link.new) }
    ensures ring { outlet.new.ring ≡ outlet.old.ring }
    ensures told { (outlet.new.stops ≡ outlet.old.stops) × (outlet.new.ends ≡ outlet.old.ends) }
{
    match put_waiting(link, buffer, outlet) {
        Ok(()) => (),
        Err(fault) => return Err(fault),
    }
    buffer.flush(link)
}

// Waits for the next message.
fn wait_for_out<R: Wait>(rt: &R, outlet: &mut Outlet, gate: &Gate, dest: Dest) -> Taken
    ensures taken { Takes result outlet.old.taken outlet.new.taken }
    ensures told { IsTold dest result outlet.old outlet.new }
    ensures ring { outlet.new.ring ≡ outlet.old.ring }
{
    gate.take(rt, outlet, dest)
}

/// Takes each message for a connection, and writes it: its header, and then its payload. What is there at
/// once is gathered and written at once. It waits where the link does, or where no message is there; then
/// all that was taken is written.
///
/// At `Closed` and `GateFailed` each message that was taken is written whole, and the gate said of this connection that
/// its messages come to an end, or that nothing is moved any more. At `WriteFault` the first of
/// their bytes are written, so many as it says.
pub fn serve_out<L: Link, R: Wait>(
    rt: &R,
    link: &mut L,
    outlet: &mut Outlet,
    gate: &Gate,
    dest: Dest,
) -> OutEnd
    ensures served { IsServedOut dest result
        (record { written = L.written link.old; failed = L.failed link.old; taken = outlet.old.taken; stops = outlet.old.stops; ends = outlet.old.ends })
        (record { written = L.written link.new; failed = L.failed link.new; taken = outlet.new.taken; stops = outlet.new.stops; ends = outlet.new.ends }) }
    ensures kept { Keeps (L.unread link.old) (L.unread link.new) }
    ensures ring { outlet.new.ring ≡ outlet.old.ring }
{
    let mut buffer = OutBuffer::new();
    for _ in rt.forever() {
        match write_waiting(link, &mut buffer, outlet) {
            Ok(()) => (),
            Err(_) => return OutEnd::WriteFault(buffer.written()),
        }
        let out = match wait_for_out(rt, outlet, gate, dest) {
            Taken::Item(out) => out,
            Taken::Closed => return OutEnd::Closed,
            Taken::Stopped => return OutEnd::GateFailed,
        };
        match put_out(link, &mut buffer, &out) {
            Ok(()) => (),
            Err(_) => return OutEnd::WriteFault(buffer.written()),
        }
    }
    unreachable!()
}

/// Takes what comes for a connection that can't be written any more, and drops it, until nothing comes. A connection
/// for which too much waits is held, and its end behind what is held isn't heard: so what nobody will read has to go.
pub fn drop_rest<R: Wait>(rt: &R, outlet: &mut Outlet, gate: &Gate, dest: Dest)
    ensures dropped { IsDropped dest outlet.old outlet.new }
{
    for _ in rt.forever() {
        match wait_for_out(rt, outlet, gate, dest) {
            Taken::Item(out) => drop(out),
            Taken::Closed => return,
            Taken::Stopped => return,
        }
    }
    unreachable!()
}
