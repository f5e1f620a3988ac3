//! What clients send, and how connections end.
use crate::stories::tell::tells;
use std::test::Fail;

#[test]
fn answers_a_client(rt: HostRuntime) -> Result<(), Fail> {
    tells(
        &rt,
        rt.alloc(),
        b"open s1 10.0.0.5
> s1 000000000000000d0000000000000000
client s1 0017000000000000
client s1 0000000000000000
> s1 00170000000000000000000000000000
client s1 00030000000500010000000100000007
> s1 000b002800000000ffffffff0000008e0003000000050001000000010000000772657175657374206e6f7420756e64657273746f6f640000
lost s1
",
    )
}

// Comments, empty lines, a session that stands, no bytes, and bytes for a session that doesn't stand.
#[test]
fn passes_over_lines_that_do_nothing(rt: HostRuntime) -> Result<(), Fail> {
    tells(
        &rt,
        rt.alloc(),
        b"# one client \xff
open s1 10.0.0.5
> s1 000000000000000d0000000000000000

open s1 10.0.0.6
client s1 -
client s2 00170000000000000000000000000000
client s1 0017FFFF0000000000000000000000000000000000000000
> s1 00170000000000000000000000000000
",
    )
}

#[test]
fn takes_a_message_in_pieces(rt: HostRuntime) -> Result<(), Fail> {
    tells(
        &rt,
        rt.alloc(),
        b"open s1 h
> s1 000000000000000d0000000000000000
client s1 00
client s1 -
client s1 170000000000000000000000000000
> s1 00170000000000000000000000000000
client s1 001700000000000000000000000000",
    )
}

// A second opening of a connection that stands changes nothing: what came of a message is kept.
#[test]
fn keeps_a_part_of_a_message_when_opened_again(rt: HostRuntime) -> Result<(), Fail> {
    tells(
        &rt,
        rt.alloc(),
        b"open s1 h
> s1 000000000000000d0000000000000000
open u1
> u1 000000000000000d0000000000000000
> u1 001400080000000000000000000000007076676174650000
> u1 001500080000000000000000000000006777000000000000
client s1 00170000000000
server u1 000000000000000d00
open s1 h
open u1
client s1 000000000000000000
> s1 00170000000000000000000000000000
server u1 00000000000000
hold s1
client s1 00
open s1 h
client s1 170000000000000000000000000000
flow s1
> s1 00170000000000000000000000000000
",
    )
}

// Two faults of one session give one line. The messages before a fault are answered.
#[test]
fn cuts_off_clients_whose_bytes_are_no_messages(rt: HostRuntime) -> Result<(), Fail> {
    tells(
        &rt,
        rt.alloc(),
        b"! uncut
open s1 h
> s1 000000000000000d0000000000000000
client s1 00170005000000000000000000000000
> shut s1 misaligned
client s1 00170000000000000000000000000000
open s1 h
> s1 000000000000000d0000000000000000
client s1 0017ffff000000050000000000000000
> shut s1 misaligned
client s1 00170000000000000000000000000000
open s1 h
> s1 000000000000000d0000000000000000
client s1 0017ffff0000000000000000000000000100000800000000
> shut s1 toolarge
client s1 00170000000000000000000000000000
open s1 h
> s1 000000000000000d0000000000000000
client s1 0017ffff000000000000000000000000fffffff800000000
> shut s1 toolarge
client s1 00170000000000000000000000000000
open s1 h
> s1 000000000000000d0000000000000000
client s1 0017ffff000000000000000000000000ffffffff00000000
> shut s1 misaligned
client s1 00170000000000000000000000000000
open s1 h
> s1 000000000000000d0000000000000000
client s1 0000000000000008000000000000000000170005000000000000000000000000
> shut s1 misaligned
client s1 00170000000000000000000000000000
open s1 h
> s1 000000000000000d0000000000000000
client s1 0017000000000000000000000000000000170005000000000000000000000000
> s1 00170000000000000000000000000000
> shut s1 misaligned
hold s1
open s1 h
client s1 0017000000000000000000000000000000170005000000000000000000000000
> shut s1 misaligned
",
    )
}

#[test]
fn ends_clients_of_an_old_version(rt: HostRuntime) -> Result<(), Fail> {
    tells(
        &rt,
        rt.alloc(),
        b"open s1 10.0.0.5
> s1 000000000000000d0000000000000000
client s1 0000000000000008000000000000000000170000000000000000000000000000
> end s1
client s1 00170000000000000000000000000000
",
    )
}

#[test]
fn keeps_messages_back_while_a_client_is_held(rt: HostRuntime) -> Result<(), Fail> {
    tells(
        &rt,
        rt.alloc(),
        b"hold s1
open s1 h
client s1 00170000000000000000000000000000
open s2 h
> s2 000000000000000d0000000000000000
drain s1 1
> s1 000000000000000d0000000000000000
drain u1 3
flow s1
> s1 00170000000000000000000000000000
lost s2
hold s1
lost s1
open s1 h
drain s1 18446744073709551615
> s1 000000000000000d0000000000000000
",
    )
}

#[test]
fn stops_at_the_first_bad_line(rt: HostRuntime) -> Result<(), Fail> {
    tells(
        &rt,
        rt.alloc(),
        b"! status 2
open s1 h
> s1 000000000000000d0000000000000000
# \xff

sweep u1
> line 4: bad
lost s2
sweep u1
open s2 h",
    )?;
    tells(
        &rt,
        rt.alloc(),
        b"! status 2
open s1 h
> s1 000000000000000d0000000000000000
lost
> line 2: bad",
    )
}

#[test]
fn serves_clients_from_version_9_on(rt: HostRuntime) -> Result<(), Fail> {
    tells(
        &rt,
        rt.alloc(),
        b"@connected
client s1 00000000000000090000000000000000
client s1 00170000000000000000000000000000
> s1 00170000000000000000000000000000
client s1 00000000000000080000000000000000
> end s1
",
    )
}

// The largest payload is waited for: what comes is a part of it, and no message.
#[test]
fn waits_for_the_largest_payload(rt: HostRuntime) -> Result<(), Fail> {
    tells(
        &rt,
        rt.alloc(),
        b"! uncut
open s1 h
> s1 000000000000000d0000000000000000
client s1 0017ffff0000000000000000000000000100000000000000
client s1 00170005000000000000000000000000
client s1 0017ffff0000000000000000000000000100000800000000
lost s1
open s1 h
> s1 000000000000000d0000000000000000
client s1 00170000000000000000000000000000
> s1 00170000000000000000000000000000
",
    )
}

// 127 letters, and the ECHO behind them.
#[test]
fn takes_the_longest_host_name(rt: HostRuntime) -> Result<(), Fail> {
    tells(
        &rt,
        rt.alloc(),
        b"@connected
! uncut
client s1 00150080000000000000000000000000[127 from 0:68]0000170000000000000000000000000000
> s1 00170000000000000000000000000000
",
    )
}

// The loss of the server is a message more than the outboxes of both clients take.
#[test]
fn ends_all_clients_that_a_line_marks(rt: HostRuntime) -> Result<(), Fail> {
    tells(
        &rt,
        rt.alloc(),
        b"@served
! uncut
open s2 10.0.0.6
> s2 000000000000000d0000000000000000
client s2 0012000800000000000000070000000d5431000000000000
> s2 00160000000000000000000700000003
> s2 00120000000500010000000700000002
hold s1
hold s2
client s1 [16384 from 0:00170000000000000000000000000000]
client s2 [16384 from 0:00170000000000000000000000000000]
lost u1
> end s1
> end s2
",
    )
}
