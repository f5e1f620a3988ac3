//! Intakes and outboxes that grow by small pieces, so that many of their calls take memory.
use crate::tell::tells;
use std::test::Fail;

#[test]
fn an_intake_grows(rt: HostRuntime) -> Result<(), Fail> {
    tells(
        &rt,
        rt.alloc(),
        "\
feed: 00170008
feed: 00*12 01*8
feed: 00170010 00*12 02*16
take
> 23 0 0 0 0 8 with 01010101 01010101
feed: 00170018 00*12 03*24
feed: 00170020 00*12 04*32
take
> 23 0 0 0 0 16 with 02*16
take
> 23 0 0 0 0 24 with 03*24
feed: 00170100 00*12 05*256
feed: 00170200 00*12 06*512
take
> 23 0 0 0 0 32 with 04*32
take
> 23 0 0 0 0 256 with 05*256
feed: 0017
take
> 23 0 0 0 0 512 with 06*512
take
> none
feed: 0008 00*12 07*8
take
> 23 0 0 0 0 8 with 07070707 07070707
take
> none
",
    )
}

#[test]
fn an_outbox_grows(rt: HostRuntime) -> Result<(), Fail> {
    tells(
        &rt,
        rt.alloc(),
        "\
append 40 23 0 1 0 0 0
front
> 00170000 00000000 00000001 00000000
empty 3
>3 00170000 00000000 00000001 00000000
append 100 23 0 1 0 0 0
length
> 136 wait
empty 100
>100 00170000 00000000 00000001 00000000
empty 100
>36 00170000 00000000 00000001 00000000
length
> 0 wait
",
    )
}
