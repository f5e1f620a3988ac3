//! Searches by datagram.
use crate::stories::tell::tells;
use std::test::Fail;

// VERSION, searches for T1 and U, and the beginning of another: T1 is connected, and U is asked for
// from then on.
#[test]
fn replies_to_searches(rt: HostRuntime) -> Result<(), Fail> {
    tells(
        &rt,
        rt.alloc(),
        b"@served
search 10.0.0.9 000000000000000d0000000000000000000600080005000d00000011000000115431000000000000000600080005000d00000013000000135500000000000000000600080005
> reply 000000000000000d00000000000000000006000813c80000ffffffff00000011000d000000000000
asks
> asks U
sweep
asks
> asks
search 10.0.0.9 -
> reply -
",
    )
}

// A name that no server has gets no reply, and is remembered once for a host. What stands before a
// framing fault is read.
#[test]
fn remembers_names_that_are_searched_for(rt: HostRuntime) -> Result<(), Fail> {
    tells(
        &rt,
        rt.alloc(),
        b"@connected
search lab7 000600080005000d00000011000000115431000000000000
> reply -
search LAB7 000600080005000d00000012000000125431000000000000000600050005000d00000013000000135500000000000000
> reply -
asks
> asks T1
found T1 u1
> u1 0012000800000000000000010000000d5431000000000000
search lab7 000600080005000d00000011000000115431000000000000
> reply -
server u1 00120000000500010000000100000065
search lab7 000600080005000d00000011000000115431000000000000
> reply 000000000000000d00000000000000000006000813c80000ffffffff00000011000d000000000000
sweep
> u1 000c0000000000000000006500000001
",
    )
}

// T1 is whole with the 40th byte, and U with the 64th. What is cut is neither replied to nor
// remembered.
#[test]
fn reads_a_datagram_that_is_cut_as_far_as_it_is_whole(rt: HostRuntime) -> Result<(), Fail> {
    tells(
        &rt,
        rt.alloc(),
        b"@served
search 10.0.0.9 000000000000000d00000000000000
> reply -
search 10.0.0.9 000000000000000d0000000000000000
> reply -
search 10.0.0.9 000000000000000d0000000000000000000600080005000d000000110000001154310000000000
> reply -
search 10.0.0.9 000000000000000d0000000000000000000600080005000d00000011000000115431000000000000
> reply 000000000000000d00000000000000000006000813c80000ffffffff00000011000d000000000000
search 10.0.0.9 000000000000000d0000000000000000000600080005000d00000011000000115431000000000000000600080005000d000000130000001355000000000000
> reply 000000000000000d00000000000000000006000813c80000ffffffff00000011000d000000000000
asks
> asks
search 10.0.0.9 000000000000000d0000000000000000000600080005000d00000011000000115431000000000000000600080005000d00000013000000135500000000000000
> reply 000000000000000d00000000000000000006000813c80000ffffffff00000011000d000000000000
asks
> asks U
",
    )
}

// The server has a channel that the gateway can't use. T1 is not asked for again, at no server,
// until the link is gone.
#[test]
fn replies_to_no_search_for_a_variable_that_cannot_be_used(rt: HostRuntime) -> Result<(), Fail> {
    tells(
        &rt,
        rt.alloc(),
        b"@linked
open u2
> u2 000000000000000d0000000000000000
> u2 001400080000000000000000000000007076676174650000
> u2 001500080000000000000000000000006777000000000000
server u1 00160000000000000000000100000003
server u1 00120000000700010000000100000065
> u1 000c0000000000000000006500000001
search 10.0.0.9 000600080005000d00000011000000115431000000000000
> reply -
asks
> asks
found T1 u2
server u1 001b0000000000000000000100000000
asks
> asks T1
found T1 u2
> u2 0012000800000000000000020000000d5431000000000000
",
    )
}

// Two datagrams of 64 KiB for a name that no server has leave one row: else the names of the last
// one would find no place.
#[test]
fn replies_to_each_of_many_searches_and_remembers_a_name_once(rt: HostRuntime) -> Result<(), Fail> {
    tells(
        &rt,
        rt.alloc(),
        b"@served
! uncut
search 10.0.0.9 000000000000000d0000000000000000[2730 from 1:000600080005000d{x8}{x8}5431000000000000]
> reply 000000000000000d0000000000000000[2730 from 1:0006000813c80000ffffffff{x8}000d000000000000]
asks
> asks
search 10.0.0.9 000000000000000d0000000000000000[2730 from 1:000600080005000d{x8}{x8}5500000000000000]
> reply -
search 10.0.0.9 000000000000000d0000000000000000[2730 from 1:000600080005000d{x8}{x8}5500000000000000]
> reply -
search 10.0.0.9 [300 from 0:000600080005000d{x8}{x8}{t4}00000000]
> reply -
asks
> asks[300 from 0: {d4}] U
",
    )
}

// Of 1,500 names 900 can't be read: they have no NUL, a blank or no byte. T1 has a server.
#[test]
fn passes_over_names_that_cannot_be_read(rt: HostRuntime) -> Result<(), Fail> {
    tells(
        &rt,
        rt.alloc(),
        b"@served
! uncut
search 10.0.0.9 [300 from 0:000600080005000d{x8}00000000{t4}00000000000600080005000d0000000000000000{t4}{t4}000600080005000d{x8}000000005431000000000000000600080005000d0000000000000000{t4}20310000000600080005000d00000000000000000000000000000000]
> reply 000000000000000d0000000000000000[300 from 0:0006000813c80000ffffffff{x8}000d000000000000]
asks
> asks[300 from 0: {d4}]
",
    )
}

// Of what is searched for T1 has a server, D is denied, and U is asked for from then on. That D was
// not remembered is seen once nothing is denied. T1 is denied at one host.
#[test]
fn replies_to_searches_for_names_that_are_admitted(rt: HostRuntime) -> Result<(), Fail> {
    tells(
        &rt,
        rt.alloc(),
        b"@served
edit 2 0
.* ALLOW
D DENY
search 10.0.0.9 000000000000000d0000000000000000000600080005000d00000011000000115431000000000000000600080005000d00000012000000124400000000000000000600080005000d00000013000000135500000000000000000600080005
> reply 000000000000000d00000000000000000006000813c80000ffffffff00000011000d000000000000
asks
> asks U
edit 2 0
.* ALLOW
T1 DENY FROM 10.0.0.9
asks
> asks U
search 10.0.0.9 000600080005000d00000011000000115431000000000000
> reply -
search 10.0.0.8 000600080005000d00000011000000115431000000000000
> reply 000000000000000d00000000000000000006000813c80000ffffffff00000011000d000000000000
",
    )
}

// P leads to T1, which has a server, and Q to U, then to W. Names are remembered as they were asked
// for, so that without rules they are asked for themselves.
#[test]
fn replies_to_searches_by_what_a_name_leads_to(rt: HostRuntime) -> Result<(), Fail> {
    tells(
        &rt,
        rt.alloc(),
        b"@served
edit 3 0
.* ALLOW
P ALIAS T1
Q ALIAS U
search 10.0.0.9 000600080005000d00000011000000115000000000000000000600080005000d00000012000000125100000000000000
> reply 000000000000000d00000000000000000006000813c80000ffffffff00000011000d000000000000
asks
> asks U
found U u1
> u1 0012000800000000000000020000000d5500000000000000
edit 3 0
.* ALLOW
P ALIAS T1
Q ALIAS W
asks
> asks W
edit 0 0
asks
> asks P Q
search 10.0.0.9 000600080005000d00000011000000115000000000000000
> reply -
",
    )
}

// A search on a client's connection isn't understood, unless it is said that it is answered: then T1, which is
// connected, has an answer, and U is asked for. A name that can't be read isn't understood either way.
#[test]
fn answers_searches_on_connections(rt: HostRuntime) -> Result<(), Fail> {
    tells(
        &rt,
        rt.alloc(),
        b"@served
client s1 000600080005000d00000011000000115431000000000000
> s1 000b002800000000ffffffff0000008e000600080005000d000000110000001172657175657374206e6f7420756e64657273746f6f640000
asks
> asks
limit answers-searches 1
client s1 000600080005000d00000011000000115431000000000000
> s1 0006000813c80000ffffffff00000011000d000000000000
client s1 000600080005000d00000013000000995500000000000000
asks
> asks U
client s1 000600080005000d00000014000000145431545454545454
> s1 000b002800000000ffffffff0000008e000600080005000d000000140000001472657175657374206e6f7420756e64657273746f6f640000
client s1 000600000005000d0000001500000015
> s1 000b002800000000ffffffff0000008e000600000005000d000000150000001572657175657374206e6f7420756e64657273746f6f640000
sweep
asks
> asks
limit answers-searches 0
client s1 000600080005000d00000011000000115431000000000000
> s1 000b002800000000ffffffff0000008e000600080005000d000000110000001172657175657374206e6f7420756e64657273746f6f640000
",
    )
}

// Nothing is heard of a name that isn't connected yet. Once it is, who searches for it again is answered. It is wanted
// as long as the search is remembered: with the sweep its channel goes.
#[test]
fn answers_a_search_on_a_connection_once_its_name_is_connected(
    rt: HostRuntime,
) -> Result<(), Fail> {
    tells(
        &rt,
        rt.alloc(),
        b"@connected
limit answers-searches 1
client s1 000600080005000d00000011000000115431000000000000
asks
> asks T1
found T1 u1
> u1 0012000800000000000000010000000d5431000000000000
client s1 000600080005000d00000011000000115431000000000000
server u1 00120000000500010000000100000065
client s1 000600080005000d00000011000000115431000000000000
> s1 0006000813c80000ffffffff00000011000d000000000000
sweep
> u1 000c0000000000000000006500000001
client s1 000600080005000d00000011000000115431000000000000
asks
> asks T1
",
    )
}

// Whoever makes a search again says whose it is. That of a client that isn't there has no answer.
#[test]
fn makes_a_search_again_for_its_client(rt: HostRuntime) -> Result<(), Fail> {
    tells(
        &rt,
        rt.alloc(),
        b"@served
seek s1 17 T1
> s1 0006000813c80000ffffffff00000011000d000000000000
seek s1 18 U
asks
> asks U
seek s9 19 T1
sweep
seek s9 19 U
asks
> asks
",
    )
}
