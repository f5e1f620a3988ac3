//! The calls of a gate, where they answer at once and where they wait.
use crate::workers::stand::{Lends, attach, bytes, echo, gate, is_echo};
use gate_board::{BoardFault, Gate, Inbound, Inlet, Outlet, Taken, Turn};
use gateway_core::{Dest, Event, Failed};
use pv_name::{Host, Name};
use session_worker::{CoreEnd, serve_core};
use std::rt::Clock;
use std::sync::Wait;
use std::test::Fail;
use std::thread;
use std::thread::{Threads, join};
use std::time::Duration;

const CLIENT: Dest = Dest::Session(1);

/// How long a round comes late.
const WHILE_MILLIS: u64 = 50;

// The command of the message that was taken.
fn command_of(taken: &Taken) -> Option<u8> {
    match taken {
        Taken::Item(out) => out.head.as_slice().get(1).copied(),
        Taken::Closed => None,
        Taken::Stopped => None,
    }
}

// Offers ECHO messages until one comes back, which is answered.
fn fill(inlet: &mut Inlet) -> u32 {
    for number in 0..1_000 {
        if inlet.offer(echo(number)).is_err() {
            return number;
        }
    }
    1_000
}

// Whether a message is given back, and is the one that was put.
fn gives_back<R: Wait>(rt: &R, gate: &Gate, inlet: &mut Inlet, number: u32) -> bool {
    match gate.put(rt, inlet, echo(number)) {
        Ok(()) => false,
        Err(item) => is_echo(&item, number),
    }
}

/// Where there is room, and where a message is there, a gate without a core answers at once, and also once
/// it is closed.
#[test]
fn room_and_messages_are_used_at_once(rt: HostRuntime) -> Result<(), Fail> {
    let gate = gate(rt.alloc(), 1)?;
    let (mut inlet, mut outlet) = attach(&rt, rt.alloc(), &gate, CLIENT)?;
    assert!(rt; gate.put(&rt, &mut inlet, echo(1)).is_ok());
    assert_eq!(rt; gate.turn(&rt), Turn::Moved);
    assert_eq!(rt; command_of(&gate.take(&rt, &mut outlet, CLIENT)), Some(0));
    gate.close(&rt);
    assert_eq!(rt; command_of(&gate.take(&rt, &mut outlet, CLIENT)), Some(23));
    assert!(rt; gate.put(&rt, &mut inlet, echo(2)).is_ok());
    Ok(())
}

// Puts a message where there is no room. Another thread has a round performed once the first try has woken
// the gate.
fn put_beside_a_turn<R: Threads + Wait + Sync, G: Lends + Sync>(
    rt: &R,
    gate: &G,
    inlet: &mut Inlet,
) -> (Turn, bool) {
    let seen = gate.gate().pause(rt, u64::MAX);
    join(
        rt,
        || {
            gate.gate().pause(rt, seen);
            gate.gate().turn(rt)
        },
        || gate.gate().put(rt, inlet, echo(256)).is_ok(),
    )
}

/// A full ring's reader waits until a round has made room.
#[test]
fn a_put_waits_for_room(rt: HostRuntime) -> Result<(), Fail> {
    let gate = gate(rt.alloc(), 1)?;
    let (mut inlet, _outlet) = attach(&rt, rt.alloc(), &gate, CLIENT)?;
    assert_eq!(rt; fill(&mut inlet), 256);
    assert_eq!(rt;
        put_beside_a_turn(&rt, &gate, &mut inlet),
        (Turn::Moved, true)
    );
    Ok(())
}

// Takes a message where there is none yet. Another thread has a round performed a while later.
fn take_beside_a_turn<R: Threads + Wait + Clock + Sync, G: Lends + Sync>(
    rt: &R,
    gate: &G,
    outlet: &mut Outlet,
) -> (Turn, Option<u8>) {
    join(
        rt,
        || {
            thread::sleep(rt, Duration::from_millis(WHILE_MILLIS));
            gate.gate().turn(rt)
        },
        || command_of(&gate.gate().take(rt, outlet, CLIENT)),
    )
}

/// An empty ring's writer waits until a round has brought a message.
#[test]
fn a_take_waits_for_a_message(rt: HostRuntime) -> Result<(), Fail> {
    let gate = gate(rt.alloc(), 1)?;
    let (_inlet, mut outlet) = attach(&rt, rt.alloc(), &gate, CLIENT)?;
    assert_eq!(rt;
        take_beside_a_turn(&rt, &gate, &mut outlet),
        (Turn::Moved, Some(0))
    );
    Ok(())
}

fn put_beside_a_close<R: Threads + Wait + Sync, G: Lends + Sync>(
    rt: &R,
    gate: &G,
    inlet: &mut Inlet,
) -> bool {
    let seen = gate.gate().pause(rt, u64::MAX);
    let (_closed, back) = join(
        rt,
        || {
            gate.gate().pause(rt, seen);
            gate.gate().close(rt)
        },
        || gives_back(rt, gate.gate(), inlet, 256),
    );
    back
}

/// A gate that is closed gives back what has no room, also to one who waits already; it brings nothing.
#[test]
fn a_closed_gate_stops_both(rt: HostRuntime) -> Result<(), Fail> {
    let gate = gate(rt.alloc(), 1)?;
    let (mut inlet, mut outlet) = attach(&rt, rt.alloc(), &gate, CLIENT)?;
    assert_eq!(rt; fill(&mut inlet), 256);
    assert!(rt; put_beside_a_close(&rt, &gate, &mut inlet));
    assert!(rt; gives_back(&rt, &gate, &mut inlet, 257));
    assert!(rt; matches!(gate.take(&rt, &mut outlet, CLIENT), Taken::Stopped));
    assert!(rt; !gate.wake(&rt));
    assert_eq!(rt; gate.turn(&rt), Turn::Closed);
    assert_eq!(rt; serve_core(&rt, &gate), CoreEnd::Closed);
    Ok(())
}

/// A gate whose engine has failed, here for want of numbers, does the same.
#[test]
fn a_failed_gate_stops_both(rt: HostRuntime) -> Result<(), Fail> {
    let alloc = rt.alloc();
    let gate = gate(alloc, 0xFFFF_FFFE)?;
    let (mut inlet, mut outlet) = attach(&rt, alloc, &gate, CLIENT)?;
    assert_eq!(rt; fill(&mut inlet), 256);
    gate.desk(&rt, Event::UpOpened(1))?;
    gate.desk(
        &rt,
        Event::Search(Host::read(alloc, b"10.0.0.5")?, Name::read(alloc, b"T1")?),
    )?;
    gate.desk(
        &rt,
        Event::Search(Host::read(alloc, b"10.0.0.5")?, Name::read(alloc, b"T2")?),
    )?;
    gate.desk(&rt, Event::Found(Name::read(alloc, b"T1")?, 1))?;
    assert!(rt;
        gate.desk(&rt, Event::Found(Name::read(alloc, b"T2")?, 1))
            .is_err()
    );
    assert!(rt; gives_back(&rt, &gate, &mut inlet, 256));
    assert!(rt; matches!(gate.take(&rt, &mut outlet, CLIENT), Taken::Stopped));
    assert!(rt; !gate.wake(&rt));
    assert_eq!(rt; gate.is_open(&rt, CLIENT), Err(Failed));
    assert_eq!(rt; gate.turn(&rt), Turn::Failed);
    assert_eq!(rt; serve_core(&rt, &gate), CoreEnd::GateFailed);
    Ok(())
}

/// Nothing comes any more for who doesn't stand, or must end.
#[test]
fn a_take_is_closed_at_the_end(rt: HostRuntime) -> Result<(), Fail> {
    let gate = gate(rt.alloc(), 1)?;
    let (mut inlet, mut outlet) = attach(&rt, rt.alloc(), &gate, CLIENT)?;
    assert!(rt; inlet.offer(Inbound::Gone).is_ok());
    assert_eq!(rt; gate.turn(&rt), Turn::Moved);
    assert!(rt; matches!(gate.take(&rt, &mut outlet, CLIENT), Taken::Closed));
    assert!(rt; matches!(gate.take(&rt, &mut outlet, Dest::Session(2)), Taken::Closed));
    Ok(())
}

/// What is handed in at the desk is performed, and what is asked is answered.
#[test]
fn the_desk_and_the_questions_are_the_boards(rt: HostRuntime) -> Result<(), Fail> {
    let alloc = rt.alloc();
    let gate = gate(alloc, 1)?;
    assert_eq!(rt; gate.is_open(&rt, CLIENT), Ok(false));
    gate.desk(&rt, Event::Opened(1, Host::read(alloc, b"10.0.0.5")?))?;
    assert_eq!(rt; gate.is_open(&rt, CLIENT), Ok(true));
    assert_eq!(rt; gate.must_end(&rt, CLIENT), Ok(false));
    assert_eq!(rt;
        gate.desk(&rt, Event::Drain(CLIENT, 1)),
        Err(BoardFault::NotHere)
    );
    let host = Host::read(alloc, b"10.0.0.5")?;
    let datagram = bytes(alloc, "000600080005000D00000011000000115431000000000000")?;
    let answer = gate.search(&rt, &host, datagram.as_slice())?;
    assert_eq!(rt;
        (answer.reply.as_slice().len(), answer.asked.as_slice().len()),
        (0, 1)
    );
    assert_eq!(rt; gate.asks(&rt)?.len(), 0);
    gate.desk(&rt, Event::Search(host, Name::read(alloc, b"T1")?))?;
    assert_eq!(rt; gate.asks(&rt)?.len(), 1);
    Ok(())
}

/// Rings are given once and taken back once, and each call that wakes is counted.
#[test]
fn rings_are_given_once_and_wakes_are_counted(rt: HostRuntime) -> Result<(), Fail> {
    let gate = gate(rt.alloc(), 1)?;
    let start = gate.pause(&rt, u64::MAX);
    let (mut inlet, _outlet) = gate.attach(&rt, CLIENT)?;
    assert!(rt; matches!(gate.attach(&rt, CLIENT), Err(BoardFault::Attached)));
    assert!(rt; gate.wake(&rt));
    assert_eq!(rt; gate.pause(&rt, start), start.wrapping_add(3));
    assert!(rt; inlet.offer(echo(1)).is_ok());
    assert!(rt; gate.retire(&rt, CLIENT).is_some());
    assert!(rt; gate.retire(&rt, CLIENT).is_none());
    Ok(())
}
