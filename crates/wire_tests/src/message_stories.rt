//! Messages of clients and servers that are read.
use crate::tell::tells;
use std::test::Fail;

#[test]
fn requests(rt: HostRuntime) -> Result<(), Fail> {
    tells(
        &rt,
        rt.alloc(),
        "\
request: 0000 0000 0005 0008 00000000 00000000
> Version minor 8
request: 0000 0008 0000 000d 00000000 00000000 756e726561642121
> Version minor 13
request: 000c 0000 0000 0000 00000001 00000007
> ClearChannel sid 1 cid 7
request: 000f 0000 0005 0015 00000001 00000051
> ReadNotify sid 1 ioid 81 dtype 5 count 21
request: 0012 0008 0000 0000 00000007 0000000d 5431000000000000
> CreateChannel cid 7 minor 13 name 5431
# A value comes with its padding, whatever that holds, and may be too short for its count.
request: 0004 0008 0000 0001 00000001 00000042 31320000000000ff
> Write sid 1 dtype 0 count 1 value 31320000 000000ff
request: 0013 0000 0005 0002 00000001 00000043
> WriteNotify sid 1 ioid 67 dtype 5 count 2 value
request: 0014 0008 0000 0000 00000000 00000000 7076676174650000
> ClientName name 70766761 7465
request: 0015 0008 0000 0000 00000000 00000000 6c61623700000000
> HostName name 6c616237
request: 0017 ffff 0000 0000 00000000 00000000 00000000 00000000
> Echo
",
    )
}

#[test]
fn subscription_requests(rt: HostRuntime) -> Result<(), Fail> {
    tells(
        &rt,
        rt.alloc(),
        "\
request: 0001 0010 0005 0001 00000001 00000031 000000000000000000000000 0005 0000
> EventAdd sid 1 id 49 dtype 5 count 1 mask 5
# Of the payload only the mask is read, and it need not name an event.
request: 0001 0010 0005 0001 00000001 00000031 3f8000003f8000003f800000 0000 ffff
> EventAdd sid 1 id 49 dtype 5 count 1 mask 0
request: 0001 0018 0005 0003 00000001 00000031 000000000000000000000000 0102 0000 ffffffffffffffff
> EventAdd sid 1 id 49 dtype 5 count 3 mask 258
request: 0002 0000 0005 0003 00000001 00000031
> EventCancel sid 1 id 49 dtype 5 count 3
request: 0008 0000 0000 0000 00000000 00000000
> EventsOff
request: 0009 0000 0000 0000 00000000 00000000
> EventsOn
",
    )
}

// The mask and the two bytes behind it are owed.
#[test]
fn short_subscription_requests(rt: HostRuntime) -> Result<(), Fail> {
    tells(
        &rt,
        rt.alloc(),
        "\
request: 0001 0000 0005 0001 00000001 00000031
> refused Short
request: 0001 0008 0005 0001 00000001 00000031 0000000000000005
> refused Short
request: 0001 0010 0005 0001 00000001 00000031 000000000000000000000000 0005
> refused Short
request: 0001 0010 0005 0001 00000001 00000031 000000000000000000000000 0005 00
> refused Short
",
    )
}

#[test]
fn refused_requests(rt: HostRuntime) -> Result<(), Fail> {
    tells(
        &rt,
        rt.alloc(),
        "\
# SEARCH is no request on a circuit, and READ is obsolete.
request: 0006 0000 0005 000d 00000001 00000001
> refused Unknown
request: 0003 0000 0005 0001 00000001 00000007
> refused Unknown
request: 0016 0000 0000 0000 00000001 00000003
> refused Unknown
# A name without a NUL, none at all, one with a blank, and none before the NUL.
request: 0012 0008 0000 0000 00000007 0000000d 5431543154315431
> refused NoNul
request: 0012 0000 0000 0000 00000007 0000000d
> refused NoNul
request: 0012 0008 0000 0000 00000007 0000000d 5420310000000000
> refused BadName
request: 0012 0008 0000 0000 00000007 0000000d 0054310000000000
> refused BadName
request: 0014 0008 0000 0000 00000000 00000000 ff00000000000000
> refused BadName
request: 0015 0008 0000 0000 00000000 00000000 6c61623721212121
> refused NoNul
",
    )
}

#[test]
fn replies(rt: HostRuntime) -> Result<(), Fail> {
    tells(
        &rt,
        rt.alloc(),
        "\
reply: 0000 0000 0000 000d 00000000 00000000
> Version minor 13
reply: 0016 0000 0000 0000 00000001 00000003
> AccessRights cid 1 rights 3
# Only the low two bits are rights.
reply: 0016 0000 0000 0000 00000001 fffffffd
> AccessRights cid 1 rights 1
reply: 0012 0000 0005 0001 00000001 00000065
> CreateChannel cid 1 sid 101 dtype 5 count 1
reply: 0012 ffff 0005 0000 00000001 00000065 00000000 003ffffd
> CreateChannel cid 1 sid 101 dtype 5 count 4194301
reply: 0012 0000 0007 0001 00000001 00000065
> CreateChannel cid 1 sid 101 dtype 7 count 1
reply: 0013 0000 0005 0001 00000001 00000043
> WriteNotify ioid 67 status 1
reply: 001a 0000 0000 0000 00000007 00000000
> CreateChannelFail cid 7
reply: 001b 0000 0000 0000 00000007 00000000
> ServerDisconnect cid 7
# A server that couldn't read the value.
reply: 0001 0000 0013 0000 00000098 00000001
> EventAdd id 1 status 152 dtype 19 count 0 value
",
    )
}

#[test]
fn update(rt: HostRuntime) -> Result<(), Fail> {
    tells(
        &rt,
        rt.alloc(),
        "\
reply: 0001 0010 0013 0001 00000001 00000002 0000 0000 3b9aca00 00000000 0000002a
> EventAdd id 2 status 1 dtype 19 count 1 value 00000000 3b9aca00 00000000 0000002a
",
    )
}

#[test]
fn refused_replies(rt: HostRuntime) -> Result<(), Fail> {
    tells(
        &rt,
        rt.alloc(),
        "\
reply: 0002 0000 0000 0000 00000000 00000000
> refused Unknown
reply: 000b 0000 0000 0000 00000000 00000000
> refused Unknown
reply: 0017 0000 0000 0000 00000000 00000000
> refused Unknown
reply: 0100 0000 0000 0000 00000000 00000000
> refused Unknown
",
    )
}

// A name outlives the message that it was borrowed from.
#[test]
fn texts_of_their_own(rt: HostRuntime) -> Result<(), Fail> {
    tells(
        &rt,
        rt.alloc(),
        "\
name: 543100 72657374
> 5431
> T1 true
host: 6465736b3100
> 6465736b 31
> desk1
",
    )
}

#[test]
fn error_texts(rt: HostRuntime) -> Result<(), Fail> {
    tells(
        &rt,
        rt.alloc(),
        r#"error-text 1
> ""
error-text 48
> "limit reached"
error-text 72
> "value too large"
error-text 114
> "type not served"
error-text 142
> "request not understood"
error-text 152
> ""
error-text 160
> ""
error-text 176
> "bad element count"
error-text 330
> "bad event mask"
error-text 368
> ""
error-text 376
> "no write access"
error-text 410
> "unknown channel"
error-text 0
> ""
error-text 141
> ""
error-text 4294967295
> """#,
    )
}
