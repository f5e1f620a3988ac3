//! What a gateway that finds servers by search knows of them.
use crate::tell::tells;
use std::test::Fail;

// T1 is 5431; a, b and c are 61 to 63. 10.0.1.20 is 167772436, and 10.0.1.21 is 167772437.
#[test]
fn names_wait_for_a_server(rt: HostRuntime) -> Result<(), Fail> {
    tells(
        &rt,
        rt.alloc(),
        "\
book-heard 100 167772436 5081: 5431
> Connect(1)
book-heard 101 167772436 5081: 61
> Waits(1)
book-heard 102 167772436 5081: 5431
> Waits(1)
book-connected 1
> names T1 a
book-connected 1
> names
book-heard 103 167772436 5081: 62
> Find(1)
# Of two servers of one host each has a number, and so has one of another host at the same port.
book-heard 100 167772436 5081: 5431
> Connect(1)
book-heard 100 167772436 5082: 5431
> Connect(2)
book-heard 100 167772437 5081: 5431
> Connect(3)
book-heard 100 167772437 5082: 5431
> Full
book-heard 101 167772436 5082: 61
> Waits(2)
book-connected 2
> names T1 a
book-connected 4
> names
book-connected 0
> names
",
    )
}

#[test]
fn a_server_is_held_off_for_longer_each_time(rt: HostRuntime) -> Result<(), Fail> {
    tells(
        &rt,
        rt.alloc(),
        "\
book-heard 100 167772436 5081: 5431
> Connect(1)
book-heard 100 167772436 5081: 61
> Waits(1)
book-failed 1 110
> HeldOff(142) 0
book-failed 1 110
> HeldOff(142) 0
book-heard 141 167772436 5081: 5431
> HeldOff
book-retry 1 141
> false
book-heard 142 167772436 5081: 5431
> Connect(1)
book-failed 1 150
> HeldOff(214) 0
book-retry 1 214
> true
book-retry 1 214
> false
book-failed 1 300
> HeldOff(428) 0
book-retry 1 428
> true
book-connected 1
> names
book-failed 1 430
> Stands 0
book-lost 1 500
> HeldOff(532) 0
book-lost 1 501
> HeldOff(532) 0
book-free 1
> true
book-free 1
> false
book-heard 502 167772436 5081: 5431
> Connect(1)
# Looks may come as late as they like: the longest time is 256 seconds.
book-fix 167772436 5081
> Some(1)
book-failed 1 0
> HeldOff(32) 0
book-retry 1 32
> true
book-failed 1 0
> HeldOff(64) 0
book-retry 1 64
> true
book-failed 1 0
> HeldOff(128) 0
book-retry 1 128
> true
book-failed 1 0
> HeldOff(256) 0
book-retry 1 256
> true
book-failed 1 0
> HeldOff(512) 0
book-retry 1 512
> true
book-failed 1 0
> HeldOff(1024) 0
book-retry 1 1024
> true
book-failed 1 0
> HeldOff(2048) 0
book-retry 1 2048
> true
book-failed 1 0
> HeldOff(4096) 0
book-retry 1 4096
> true
book-failed 1 0
> HeldOff(8192) 0
book-retry 1 8192
> true
book-failed 1 0
> HeldOff(8192) 0
",
    )
}

#[test]
fn servers_without_links_are_closed(rt: HostRuntime) -> Result<(), Fail> {
    tells(
        &rt,
        rt.alloc(),
        "\
book-fix 167772436 5081
> Some(1)
book-fix 167772437 5081
> Some(2)
book-fix 167772436 5081
> Some(1)
book-heard 1 167772437 5082: 5431
> Connect(3)
book-fix 167772437 5083
> None
book-links 3 0
> false
book-connected 3
> names T1
book-links 3 0
> false
book-links 3 1
> false
book-links 3 0
> false
book-links 3 0
> true
book-links 3 0
> true
book-free 3
> false
book-lost 3 100
> HeldOff(132) 0
book-links 3 0
> false
book-free 3
> true
book-lost 3 100
> free 0
book-connected 1
> names
book-links 1 0
> false
book-links 1 0
> false
book-links 1 0
> false
book-lost 1 100
> HeldOff(132) 0
book-free 1
> false
book-heard 131 167772436 5081: 5431
> HeldOff
book-heard 132 167772436 5081: 5431
> Connect(1)
",
    )
}

// 10.0.0.0/8, 10.0.0.1/8, 10.0.0.1/32, 10.0.0.0/33, 10.0.0.0, 10.0.0.0/+8, 2001:db8::/32, ::/0, ::1/127, 10.0.0/8.
#[test]
fn nets_are_read(rt: HostRuntime) -> Result<(), Fail> {
    tells(
        &rt,
        rt.alloc(),
        "\
net: 31302e302e302e302f38
> 281470849515520 24
net: 31302e302e302e312f38
> bits are set behind those of the net
net: 31302e302e302e312f3332
> 281470849515521 0
net: 31302e302e302e302f3333
> more bits than the address has
net: 31302e302e302e30
> not an address, `/` and a number of bits
net: 31302e302e302e302f2b38
> not an address, `/` and a number of bits
net: 323030313a6462383a3a2f3332
> 42540766411282592856903984951653826560 96
net: 3a3a2f30
> 0 128
net: 3a3a312f313237
> bits are set behind those of the net
net: 31302e302e302f38
> not an address, `/` and a number of bits
",
    )
}

// With 10.0.1.0/24. A source of 10.0.1.7 is 167772423; 10.0.2.1 is 167772673; 255.255.255.255 is 4294967295; 224.0.0.1 is
// 3758096385; 10.0.0.1 is 167772161.
#[test]
fn replies_are_believed(rt: HostRuntime) -> Result<(), Fail> {
    tells(
        &rt,
        rt.alloc(),
        "\
believed 167772423 167772436 5081: 31302e302e312e302f3234
> true true
believed 167772673 167772436 5081: 31302e302e312e302f3234
> false true
believed 167772423 167772673 5081: 31302e302e312e302f3234
> false true
believed 167772423 167772436 0: 31302e302e312e302f3234
> false false
believed 167772423 0 5081: 302e302e302e302f30
> false false
believed 167772423 4294967295 5081: 302e302e302e302f30
> false false
believed 167772423 3758096385 5081: 302e302e302e302f30
> false false
believed 167772423 167772161 5064: 302e302e302e302f30
> false false
believed 167772423 167772161 5065: 302e302e302e302f30
> true true
",
    )
}
