//! Payloads from outside and worked out by hand.
use crate::tell::tells;
use std::test::Fail;

// A LONG of 42 with its time stamp, as a server sends it; two LONGs with a major alarm; and so on.
#[test]
fn views_show_the_parts(rt: HostRuntime) -> Result<(), Fail> {
    tells(
        &rt,
        rt.alloc(),
        "\
view 19 1: 00000000 3b9aca00 00000000 0000002a
> Time Long 1 1 9 alarm 0 0 stamp 1000000000 0
> elements 0000002a
view 19 2: 0003fffe 3b9aca00 00000005 00000001 fffffffe 00000000
> Time Long 2 2 9 alarm 3 -2 stamp 1000000000 5
> elements 00000001 fffffffe
# Neither status nor stamp are in a plain view, and no stamp in one of the form `Sts`.
view 5 3: 00000000 3b9aca00 00000000 0000002a
> Plain Long 3 3 9 alarm 0 0 stamp 0 0
> elements 00000000 3b9aca00 00000000
# The bytes that hold nothing may be anything.
view 11 3: 00010002 ee010203
> Sts Char 3 3 9 alarm 1 2 stamp 0 0
> elements 010203
# Other types are refused, and missing elements are.
of 35 0: 00000000 3b9aca00 00000000 0000002a
> type not served
of 65535 9
> type not served
of 21 0: 00000000 3b9aca00 00000000 0000002a
of 34 9
> too short for its elements
of 19 0: 00000000 3b9aca00 00000000
of 19 0: 00000000 3b9aca00 000000
> too short for its elements
of 19 1: 00000000 3b9aca00 00000000 000000
> too short for its elements
of 19 2: 00000000 3b9aca00 00000000 0000002a
> too short for its elements
of 5 4: 00000000 3b9aca00 00000000 0000002a
of 5 5: 00000000 3b9aca00 00000000 0000002a
> too short for its elements
of 5 4294967295: 00000000 3b9aca00 00000000 0000002a
> too short for its elements
of 5 1073741824: 00000000 3b9aca00 00000000 0000002a
> too short for its elements
of 18 1: 00000000 3b9aca00 00000000 0000002a
of 18 2: 00000000 3b9aca00 00000000 0000002a
> too short for its elements
of 20 0: 00000000 3b9aca00 00000000 0000002a
of 20 1: 00000000 3b9aca00 00000000 0000002a
> too short for its elements
of 0 1: 00000000 3b9aca00 00000000 0000002a
> too short for its elements
",
    )
}

#[test]
fn values_are_laid_out_under_other_types(rt: HostRuntime) -> Result<(), Fail> {
    tells(
        &rt,
        rt.alloc(),
        "\
# A LONG of 42 with its time stamp. As text it is the example at the head of the crate.
of 19 1: 00000000 3b9aca00 00000000 0000002a
as 0 1
> 40 bytes 3432 00*38
as 19 0
> 16 bytes 00000000 3b9aca00 00000000 0000002a
as 5 1
> 8 bytes 0000002a 00000000
as 5 3
> 16 bytes 0000002a 00*12
# Two LONGs, 1 and -2, with an alarm.
of 19 2: 0003fffe 3b9aca00 00000005 00000001 fffffffe 00000000
as 19 0
> 24 bytes 0003fffe 3b9aca00 00000005 00000001 fffffffe 00000000
as 19 1
> 16 bytes 0003fffe 3b9aca00 00000005 00000001
as 5 0
> 8 bytes 00000001 fffffffe
# CHARs of 1, 2 and 3 with an alarm and a time stamp.
of 18 3: 00010002 3b9aca00 00000005 00000001 0203
as 18 0
> 24 bytes 00010002 3b9aca00 00000005 00000001 02030000 00000000
as 15 0
> 24 bytes 00010002 3b9aca00 00000005 00000001 00020003 00000000
as 11 0
> 8 bytes 00010002 00010203
as 4 2
> 8 bytes 01020000 00000000
as 1 5
> 16 bytes 00010002 0003 00*10
# CHARs have no sign.
of 4 2: 7fff
as 1 0
> 8 bytes 007f00ff 00000000
of 4 2: 80ff
as 5 0
> 8 bytes 00000080 000000ff
of 4 1: ff
as 0 1
> 40 bytes 323535 00*37
# SHORTs have one.
of 1 1: 8000
as 5 1
> 8 bytes ffff8000 00000000
as 0 1
> 40 bytes 2d333237 3638 00*34
as 8 1
> 8 bytes 00000000 80000000
of 1 1: 7fff
as 5 1
> 8 bytes 00007fff 00000000
# ENUMs have none.
of 3 1: ffff
as 5 1
> 8 bytes 0000ffff 00000000
as 0 1
> no properties are there
describe 31: 00*422
as 0 1
> 40 bytes 36353533 35 00*35
of 3 0
as 17 0
> 16 bytes 00*16
# LONGs as texts: -7, the least, the greatest, -1, and two of them, 1 and 2.
of 5 1: fffffff9
as 0 0
> 40 bytes 2d37 00*38
as 0 5
> 200 bytes 2d37 00*198
of 5 1: 80000000
as 0 1
> 40 bytes 2d323134 37343833 363438 00*29
of 5 1: 7fffffff
as 0 1
> 40 bytes 32313437 34383336 3437 00*30
of 5 1: ffffffff
as 0 1
> 40 bytes 2d31 00*38
of 5 2: 00000001 00000002
as 0 0
> 80 bytes 31000000 00000000 00000000 00000000 00000000 00000000 00000000 00000000 00000000 00000000 32 00*39
# A text is given whole, with what stands behind its end.
of 0 1: 00*39 32
as 0 0
> 40 bytes 00000000 00000000 00000000 00000000 00000000 00000000 00000000 00000000 00000000 00000032
# Floating-point numbers are given bit by bit.
of 2 1: 7fc00001
as 2 0
> 8 bytes 7fc00001 00000000
of 6 1: 0003fffe 3b9aca00
as 6 0
> 8 bytes 0003fffe 3b9aca00
# No elements, and one that isn't there.
of 5 0
as 19 0
> 16 bytes 00*16
as 0 0
> 0 bytes
as 0 1
> 40 bytes 00*40
",
    )
}

#[test]
fn other_types_and_large_payloads_are_refused(rt: HostRuntime) -> Result<(), Fail> {
    tells(
        &rt,
        rt.alloc(),
        "\
of 19 1: 00000000 3b9aca00 00000000 0000002a
as 6 1
> type not served
as 1 4294967295
> type not served
as 22 1
> type not served
as 27 1
> type not served
as 31 1
> type not served
as 35 1
> type not served
as 65535 1
> type not served
as 5 4194305
> larger than a payload may be
as 5 4294967295
> larger than a payload may be
as 19 262141
> 1048576 bytes 00000000 3b9aca00 00000000 0000002a 00*1048560
as 19 4194302
> larger than a payload may be
as 0 26214
> 1048560 bytes 3432 00*1048558
as 0 419431
> larger than a payload may be
",
    )
}
