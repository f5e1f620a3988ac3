//! Headers that are written and read, and messages of bytes that come at once or in pieces.
use crate::tell::tells;
use std::test::Fail;

#[test]
fn headers_are_written_and_read(rt: HostRuntime) -> Result<(), Fail> {
    tells(
        &rt,
        rt.alloc(),
        "\
# A plain header has the size and the count in two bytes each, at 2 and at 6.
write 1 19 101 16909060 20 16
> 00010010 00130014 00000065 01020304
read: 00010010 00130014 00000065 01020304 09
> 1 19 101 16909060 20 16 16
read: 00010010 00130014 00000065 010203
> need more
# An extended header has them in four bytes each, behind the others.
write 1 19 101 16909060 4194301 16777216
> 0001ffff 00130000 00000065 01020304 01000000 003ffffd
# It is extended from the mark on.
write 1 19 101 16909060 65534 65534
> 0001fffe 0013fffe 00000065 01020304
write 1 19 101 16909060 0 65535
> 0001ffff 00130000 00000065 01020304 0000ffff 00000000
write 1 19 101 16909060 0 65536
> 0001ffff 00130000 00000065 01020304 00010000 00000000
write 1 19 101 16909060 65535 0
> 0001ffff 00130000 00000065 01020304 00000000 0000ffff
write 1 19 101 16909060 65536 0
> 0001ffff 00130000 00000065 01020304 00000000 00010000
# An extended header of any size is read.
read: 0017ffff 00*20
> 23 0 0 0 0 0 24
read: 0017ffff 00*19
> need more
write 23 0 0 0 0 0
> 0017 00*14
# A size that is no multiple of eight is refused.
read: 00000005 00*12
> misaligned
# The mark with a count is a plain header of size 65535.
read: 0000ffff 00000005 00*8
> misaligned
# Payloads are taken up to the limit.
reread 23 0 0 0 0 65528
> 23 0 0 0 0 65528 16
reread 23 0 0 0 0 65536
> 23 0 0 0 0 65536 24
reread 23 0 0 0 0 16777208
> 23 0 0 0 0 16777208 24
reread 23 0 0 0 0 16777216
> 23 0 0 0 0 16777216 24
reread 23 0 0 0 0 16777217
> misaligned
reread 23 0 0 0 0 16777224
> too large
reread 23 0 0 0 0 4294967288
> too large
reread 23 0 0 0 0 4294967295
> misaligned
# Sizes are padded to the next multiple of eight.
pad 0
> 0
pad 1
> 8
pad 8
> 8
pad 9
> 16
pad 16777209
> 16777216
pad 16777216
> 16777216
",
    )
}

#[test]
fn messages_are_cut_from_bytes(rt: HostRuntime) -> Result<(), Fail> {
    tells(
        &rt,
        rt.alloc(),
        "\
# A message without a payload, one with eight bytes, and half a header.
frames: 00000000 0000000d 00*8 00060008 0005000d 00000011 00000011 54310000 00000000 00060008 0005000d
> 0 0 0 0 13 0 with
> 6 5 17 17 13 8 with 54310000 00000000
>2 rest 00060008 0005000d
# A fault stays.
frames: 00000000 0000000d 00*8 00060009 0005000d 00000011 00000011 54310000 00000000 00060008 0005000d
> 0 0 0 0 13 0 with
>2 a payload's size is no multiple of 8
",
    )
}

#[test]
fn messages_are_taken_from_a_stream(rt: HostRuntime) -> Result<(), Fail> {
    tells(
        &rt,
        rt.alloc(),
        "\
# The example at the head of the crate.
feed: 0017 00*14
take
> 23 0 0 0 0 0 with
# A message may be cut anywhere.
cut 0 15: 0017 00*14
>16 none; 23 0 0 0 0 0 with; none
cut 16 16: 0017 00*14
> 23 0 0 0 0 0 with; none; none
# Payloads are taken in order.
feed: 00170008 00*12 01*8
feed: 00170008 00*12 02*8
feed: 00170008 00*12 03*8
take
> 23 0 0 0 0 8 with 01010101 01010101
take
> 23 0 0 0 0 8 with 02020202 02020202
take
> 23 0 0 0 0 8 with 03030303 03030303
take
> none
# The largest payload is waited for.
feed: 0017ffff 00*12 01000000 00000000
take
> none
feed: 07*65536
take
> none
# A large payload comes byte by byte.
feed: 0017ffff 00*12 00100000 00000000
drip: 07*1048576
> none 1048576 times
take
> 23 0 0 0 0 1048576 with 07*1048576
# A fault comes after the messages before it, and then for good.
feed: 0017 00*14
feed: 00170005 00*12
feed: 0017 00*14
take
> 23 0 0 0 0 0 with
take
> a payload's size is no multiple of 8
feed: 00
> a payload's size is no multiple of 8
take
> a payload's size is no multiple of 8
feed: 00
> a payload's size is no multiple of 8
# So does a payload that is too large, and then even no bytes are taken.
feed: 0017ffff 00*12 01000008 00000000
take
> a payload's size is above 16777216
feed
> a payload's size is above 16777216
take
> a payload's size is above 16777216
feed
> a payload's size is above 16777216
# Memory may be refused.
refusals
> out of memory
",
    )
}
