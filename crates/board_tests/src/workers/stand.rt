//! Gates with connections.
ghost use Rattle.gateway_state.specs.declared.config.TheConstants.{LAST_FIRST};
ghost use Rattle.std.specs.Prelude.{◌<◌, ◌≤◌};

use bytes::Bytes;
use ca_header::{Header, Message};
use gate_board::{Board, Gate, Inbound, Inlet, Outlet};
use gateway_core::{Config, Dest, Engine, Event, Policy};
use pv_name::{Host, Name};
use std::alloc::Global;
use std::sync::Wait;
use std::test::Fail;

/// The VERSION that greets a client, as it stands in the stream.
pub(crate) const GREETING: &str = "000000000000000D0000000000000000";

/// A board for a new engine that admits every name, and whose numbers begin with this one.
pub(crate) fn board(alloc: Global, first: u32) -> Result<Board, Fail>
    requires lowest { 0 < first }
    requires highest { first ≤ LAST_FIRST }
{
    let config = Config {
        client_name: Name::read(alloc, b"pvgate")?,
        host_name: Name::read(alloc, b"gw")?,
        port: 5064,
        first,
    };
    let engine = Engine::new(alloc, config, Policy::open_to_all(alloc))?;
    Ok(Board::new(alloc, engine))
}

/// A gate for such a board.
pub(crate) fn gate(alloc: Global, first: u32) -> Result<Gate, Fail>
    requires lowest { 0 < first }
    requires highest { first ≤ LAST_FIRST }
{
    Ok(Gate::new(board(alloc, first)?))
}

/// What lends a gate. What starts threads is written for whatever does: so it need not know that a gate, with
/// all that it has, may be shared.
pub(crate) trait Lends {
    fn gate(&self) -> &Gate;
}

impl Lends for Gate {
    fn gate(&self) -> &Gate {
        self
    }
}

/// Opens a connection and gives it rings.
pub(crate) fn attach<R: Wait>(
    rt: &R,
    alloc: Global,
    gate: &Gate,
    dest: Dest,
) -> Result<(Inlet, Outlet), Fail> {
    let event = match dest {
        Dest::Session(number) => Event::Opened(number, Host::read(alloc, b"10.0.0.5")?),
        Dest::Upstream(number) => Event::UpOpened(number),
    };
    gate.desk(rt, event)?;
    Ok(gate.attach(rt, dest)?)
}

/// An ECHO message whose first number is this one.
pub(crate) fn echo(p1: u32) -> Inbound {
    Inbound::Message(Message {
        head: Header {
            command: 23,
            dtype: 0,
            p1,
            p2: 0,
            count: 0,
            size: 0,
        },
        payload: Bytes::new(),
    })
}

/// Whether it is that ECHO message.
pub(crate) fn is_echo(item: &Inbound, number: u32) -> bool {
    match item {
        Inbound::Message(message) => message.head.command == 23 && message.head.p1 == number,
        Inbound::Gone => false,
    }
}

/// The bytes that stand in a text as hexadecimal digits.
pub(crate) fn bytes(alloc: Global, text: &str) -> Result<Vec<u8>, Fail> {
    Ok(hex::decode(alloc, text)?)
}

/// The digits of bytes, as large letters.
pub(crate) fn digits(alloc: Global, bytes: &[u8]) -> Result<String, Fail> {
    Ok(hex::encode_upper(alloc, bytes)?)
}
