//! Messages to clients and to servers, and values that are written.
use crate::tell::tells;
use std::test::Fail;

#[test]
fn to_clients(rt: HostRuntime) -> Result<(), Fail> {
    tells(
        &rt,
        rt.alloc(),
        "\
client-version
> 00000000 0000000d 00000000 00000000
client-echo 0
> 0017 00*14
client-echo 8: 7468652073616d65
> 00170008 00000000 00000000 00000000 74686520 73616d65
client-update 49 5 1: 0000002a 00000000
> 00010008 00050001 00000001 00000031 0000002a 00000000
client-update 49 5 0
> 00010000 00050000 00000001 00000031
client-cancelled 1 49 5 3
> 00010000 00050003 00000001 00000031
client-cleared 1 7
> 000c0000 00000000 00000001 00000007
client-value 33 5 1: 0000002a 00000000
> 000f0008 00050001 00000001 00000021 0000002a 00000000
client-no-value 81 5 21 176
> 000f0000 00050015 000000b0 00000051
client-created 7 1 5 1
> 00120000 00050001 00000007 00000001
client-written 68 5 1 160
> 00130000 00050001 000000a0 00000044
client-not-created 7
> 001a0000 00000000 00000007 00000000
client-rights 7 3
> 00160000 00000000 00000007 00000003
client-disconnected 7
> 001b0000 00000000 00000007 00000000
client-served 17 5064
> 00060008 13c80000 ffffffff 00000011 000d0000 00000000
",
    )
}

#[test]
fn errors(rt: HostRuntime) -> Result<(), Fail> {
    tells(
        &rt,
        rt.alloc(),
        "\
client-error 4294967295 142 3 5 1 7 1 0
> 000b0028 00000000 ffffffff 0000008e 00030000 00050001 00000001 00000007 72657175 65737420 6e6f7420 756e6465 7273746f 6f640000
# The NUL behind the text ends at a multiple of 8.
client-error 4294967295 410 15 5 9 4 1 0
> 000b0020 00000000 ffffffff 0000019a 000f0000 00050001 00000009 00000004 756e6b6e 6f776e20 6368616e 6e656c00
client-error 7 176 4 5 1 69 2 8
> 000b0028 00000000 00000007 000000b0 00040008 00050002 00000001 00000045 62616420 656c656d 656e7420 636f756e 74000000 00000000
# The header of a large request has 24 bytes here too.
client-error 4294967295 142 1 5 0 0 0 65536
> 000b0030 00000000 ffffffff 0000008e 0001ffff 00050000 00000000 00000000 00010000 00000000 72657175 65737420 6e6f7420 756e6465 7273746f 6f640000
",
    )
}

#[test]
fn to_servers(rt: HostRuntime) -> Result<(), Fail> {
    tells(
        &rt,
        rt.alloc(),
        "\
server-version
> 00000000 0000000d 00000000 00000000
server-user: 70766761746500
> 00140008 00000000 00000000 00000000 70766761 74650000
server-host: 677700
> 00150008 00000000 00000000 00000000 67770000 00000000
server-create 1: 543100
> 00120008 00000000 00000001 0000000d 54310000 00000000
# Eight bytes of name have their NUL in the next eight.
server-create 2: 544553544e414d4500
> 00120010 00000000 00000002 0000000d 54455354 4e414d45 00000000 00000000
server-subscribe 101 1 19 0 5
> 00010010 00130000 00000065 00000001 00000000 00000000 00000000 00050000
server-cancel 101 1 19 0
> 00020000 00130000 00000065 00000001
server-write 101 0 1 1: 3132000000000000
> 00040028 00000001 00000065 00000000 3132 00*38
server-clear 101 1
> 000c0000 00000000 00000065 00000001
server-echo
> 0017 00*14
",
    )
}

// Zero bytes stand for the value: those before it in its type, or one, and their padding.
#[test]
fn refused_updates(rt: HostRuntime) -> Result<(), Fail> {
    tells(
        &rt,
        rt.alloc(),
        "\
client-no-update 49 5 376
> 00010008 00050000 00000178 00000031 00000000 00000000
client-no-update 49 20 376
> 00010010 00140000 00000178 00000031 00*16
client-no-update 49 99 376
> 00010008 00630000 00000178 00000031 00000000 00000000
",
    )
}

#[test]
fn read_back(rt: HostRuntime) -> Result<(), Fail> {
    tells(
        &rt,
        rt.alloc(),
        "\
reread-server-create 1: 543100
> CreateChannel cid 1 minor 13 name 5431
reread-client-rights 1 2
> AccessRights cid 1 rights 2
",
    )
}

#[test]
fn subscriptions_read_back(rt: HostRuntime) -> Result<(), Fail> {
    tells(
        &rt,
        rt.alloc(),
        "\
reread-server-subscribe 101 1 19 0 258
> EventAdd sid 101 id 1 dtype 19 count 0 mask 258
reread-client-update 49 5 1: 0000002a 00000000
> EventAdd id 49 status 1 dtype 5 count 1 value 0000002a 00000000
",
    )
}

/// The example at the head of `ca_message`.
#[test]
fn a_request_is_sent_and_read(rt: HostRuntime) -> Result<(), Fail> {
    tells(
        &rt,
        rt.alloc(),
        "\
reread-server-clear 5 7
> ClearChannel sid 5 cid 7
",
    )
}

#[test]
fn handed_on(rt: HostRuntime) -> Result<(), Fail> {
    tells(
        &rt,
        rt.alloc(),
        "\
# The elements alone, whatever stands behind them.
server-write-notify 101 5 1 20 1: 00000007 00000000
> 00130008 00050001 00000065 00000001 00000007 00000000
server-write-notify 101 5 1 20 1: 00000007 ffffffff
> 00130008 00050001 00000065 00000001 00000007 00000000
server-write-notify 101 4 3 20 1: 010203 ffffffffff ffffffffffffffff
> 00130008 00040003 00000065 00000001 01020300 00000000
server-write-notify 101 1 4 20 1: 0001000200030004
> 00130008 00010004 00000065 00000001 00010002 00030004
server-write-notify 101 6 2 20 1: 4045000000000000 4046000000000000
> 00130010 00060002 00000065 00000001 40450000 00000000 40460000 00000000
# A single STRING up to its NUL, however long its payload is.
server-write-notify 101 0 1 20 1: 414243
> 00130028 00000001 00000065 00000001 414243 00*37
server-write-notify 101 0 1 20 1: 4142430000ff00ff
> 00130028 00000001 00000065 00000001 414243 00*37
server-write-notify 101 0 1 20 1: 41424300 58*36
> 00130028 00000001 00000065 00000001 414243 00*37
",
    )
}

// A payload that is already what is handed on is handed on itself.
#[test]
fn handed_on_without_a_copy(rt: HostRuntime) -> Result<(), Fail> {
    tells(
        &rt,
        rt.alloc(),
        "\
hand-on 101 5 1 20: 00000007 00000000
> shared 00000007 00000000
hand-on 101 6 2 20: 4045000000000000 4046000000000000
> shared 40450000 00000000 40460000 00000000
hand-on 101 4 3 20: 01020300 00000000
> shared 01020300 00000000
hand-on 101 0 2 20: 58*80
> shared 58*80
hand-on 101 0 1 20: 58*40
> shared 58*40
hand-on 101 0 1 20: 414243 00*37
> shared 414243 00*37
# Padding that isn't zero, too little of it, and too much; bytes behind a text.
hand-on 101 5 1 20: 00000007 00000001
> copied 00000007 00000000
hand-on 101 5 1 20: 00000007
> copied 00000007 00000000
hand-on 101 5 1 20: 00000007 00000000 00000000 00000000
> copied 00000007 00000000
hand-on 101 0 1 20: 414243 00 58 00*35
> copied 414243 00*37
hand-on 101 0 1 20: 414243 00*5
> copied 414243 00*37
hand-on 101 5 3 2: 00000007 00000000
> BadCount 176
",
    )
}

// Forty bytes of text need no NUL, and of more than one STRING all bytes are handed on.
#[test]
fn long_texts(rt: HostRuntime) -> Result<(), Fail> {
    tells(
        &rt,
        rt.alloc(),
        "\
server-write 1 0 1 1: 58*48
> 00040028 00000001 00000001 00000000 58*40
server-write 1 0 2 2: 585858 00 58*76
> 00040050 00000002 00000001 00000000 58585800 58*76
",
    )
}

#[test]
fn refused_values(rt: HostRuntime) -> Result<(), Fail> {
    tells(
        &rt,
        rt.alloc(),
        "\
# Types with an alarm or a time stamp, GR, CTRL, and none; the count is tested after the type.
server-write 1 7 1 2: 58*48
> BadType 114
server-write 1 14 1 2: 58*48
> BadType 114
server-write 1 21 1 2: 58*48
> BadType 114
server-write 1 34 0 2: 58*48
> BadType 114
server-write 1 65535 3 2: 58*48
> BadType 114
server-write 1 5 0 2: 58*48
> BadCount 176
server-write 1 5 3 2: 58*48
> BadCount 176
server-write 1 5 4294967295 2: 58*48
> BadCount 176
server-write 1 5 1 2: 58*3
> Short 176
server-write 1 6 2 2: 58*15
> Short 176
server-write 1 0 1 2
> Short 176
server-write 1 0 2 2: 58*48
> Short 176
",
    )
}
