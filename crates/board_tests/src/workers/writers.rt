//! A writer to its end, and to a fault of its link.
use crate::workers::stand::{GREETING, attach, digits, echo, gate};
use gate_board::{Gate, Inbound, Inlet, Turn};
use gateway_core::Dest;
use session_worker::{Link, MemoryLink, OUT_BUFFER_SIZE, OutBuffer, OutEnd, serve_out};
use std::sync::Wait;
use std::test::Fail;

const CLIENT: Dest = Dest::Session(1);

const ONE: &str = "00170000000000000000000100000000";

const TWO: &str = "00170000000000000000000200000000";

// Has two messages answered, and then the client lost.
fn answer_two<R: Wait>(rt: &R, gate: &Gate, inlet: &mut Inlet) -> bool {
    let offered = inlet.offer(echo(1)).is_ok() && inlet.offer(echo(2)).is_ok();
    let answered = gate.turn(rt) == Turn::Moved && gate.turn(rt) == Turn::Moved;
    let gone = inlet.offer(Inbound::Gone).is_ok() && gate.turn(rt) == Turn::Moved;
    offered && answered && gone
}

/// What is there at once is written by one call, though the second would fail; then the writer ends.
#[test]
fn a_writer_writes_all_at_once_and_ends(rt: HostRuntime) -> Result<(), Fail> {
    let alloc = rt.alloc();
    let gate = gate(alloc, 1)?;
    let (mut inlet, mut outlet) = attach(&rt, alloc, &gate, CLIENT)?;
    assert!(rt; answer_two(&rt, &gate, &mut inlet));
    let mut link = MemoryLink::new(alloc, Vec::new(alloc), 1_000).failing_at(1);
    assert_eq!(rt;
        serve_out(&rt, &mut link, &mut outlet, &gate, CLIENT),
        OutEnd::Closed
    );
    let wanted = format!(in alloc; "{GREETING}{ONE}{TWO}")?;
    assert_eq!(rt; digits(alloc, link.output())?.as_str(), wanted.as_str());
    Ok(())
}

/// A link that takes ten bytes and then fails was written the first ten of the text.
#[test]
fn a_writer_ends_at_a_fault(rt: HostRuntime) -> Result<(), Fail> {
    let alloc = rt.alloc();
    let gate = gate(alloc, 1)?;
    let (mut inlet, mut outlet) = attach(&rt, alloc, &gate, CLIENT)?;
    assert!(rt; answer_two(&rt, &gate, &mut inlet));
    let mut link = MemoryLink::new(alloc, Vec::new(alloc), 10).failing_at(1);
    let end = serve_out(&rt, &mut link, &mut outlet, &gate, CLIENT);
    assert_eq!(rt; end, OutEnd::WriteFault(10));
    assert_eq!(rt; link.faults(), 1);
    let wanted = GREETING.get(..20).ok_or("a greeting")?;
    assert_eq!(rt; digits(alloc, link.output())?.as_str(), wanted);
    Ok(())
}

/// A writer of a gate that was closed writes what is there, and ends.
#[test]
fn a_writer_ends_at_a_closed_gate(rt: HostRuntime) -> Result<(), Fail> {
    let alloc = rt.alloc();
    let gate = gate(alloc, 1)?;
    let (_inlet, mut outlet) = attach(&rt, alloc, &gate, CLIENT)?;
    assert_eq!(rt; gate.turn(&rt), Turn::Moved);
    gate.close(&rt);
    let mut link = MemoryLink::new(alloc, Vec::new(alloc), 7);
    assert_eq!(rt;
        serve_out(&rt, &mut link, &mut outlet, &gate, CLIENT),
        OutEnd::GateFailed
    );
    assert_eq!(rt; digits(alloc, link.output())?.as_str(), GREETING);
    Ok(())
}

/// Bytes are gathered until they fill the buffer; more than it can hold are written at once, behind those
/// that it held.
#[test]
fn a_buffer_gathers_bytes_in_order(rt: HostRuntime) -> Result<(), Fail> {
    let alloc = rt.alloc();
    let mut link = MemoryLink::new(alloc, Vec::new(alloc), usize::MAX);
    let mut buffer = OutBuffer::new();
    let large = Vec::from_array(alloc, [7u8; OUT_BUFFER_SIZE + 1])?;
    assert!(rt; buffer.put(&mut link, &[1, 2, 3]).is_ok());
    assert_eq!(rt; (link.output().len(), buffer.written()), (0, 0));
    assert!(rt; buffer.put(&mut link, large.as_slice()).is_ok());
    assert!(rt; buffer.put(&mut link, &[4, 5]).is_ok());
    assert_eq!(rt; link.output().len(), OUT_BUFFER_SIZE + 4);
    assert!(rt; buffer.flush(&mut link).is_ok());
    assert!(rt; link.output().starts_with(&[1, 2, 3, 7]));
    assert!(rt; link.output().ends_with(&[7, 4, 5]));
    assert_eq!(rt; link.output().len(), OUT_BUFFER_SIZE + 6);
    assert_eq!(rt; buffer.written(), OUT_BUFFER_SIZE as u128 + 6);
    Ok(())
}
