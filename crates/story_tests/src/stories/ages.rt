//! What is forgotten and given up as time passes, and servers that are asked whether they are there.
use crate::stories::tell::tells;
use std::test::Fail;

// The second age forgets b, and the third a.
#[test]
fn what_is_not_searched_for_again_is_forgotten(rt: HostRuntime) -> Result<(), Fail> {
    tells(
        &rt,
        rt.alloc(),
        b"search h 000600080005000d00000011000000116100000000000000
> reply -
search h 000600080005000d00000011000000116200000000000000
> reply -
age
asks
> asks a b
search h 000600080005000d00000011000000116100000000000000
> reply -
age
asks
> asks a
age
asks
> asks
",
    )
}

// Between the two ages the client asks again, so that T1 is wanted, and missing again. What comes late for the
// first link is returned. A channel that was made is kept.
#[test]
fn a_channel_that_a_server_owes_since_before_the_last_age_is_given_up(
    rt: HostRuntime,
) -> Result<(), Fail> {
    tells(
        &rt,
        rt.alloc(),
        b"@linked
age
found T1 u1
client s1 0012000800000000000000080000000d5431000000000000
> s1 001a0000000000000000000800000000
age
asks
> asks T1
server u1 00120000000500010000000100000065
> u1 000c0000000000000000006500000001
found T1 u1
> u1 0012000800000000000000020000000d5431000000000000
client s1 0012000800000000000000080000000d5431000000000000
> s1 001a0000000000000000000800000000
age
server u1 00120000000500010000000200000066
client s1 0012000800000000000000080000000d5431000000000000
> s1 00160000000000000000000800000000
> s1 00120000000500010000000800000001
age
age
asks
> asks
",
    )
}

// They were asked for after the age before. A read that needs none waits on.
#[test]
fn reads_that_wait_for_properties_fail_at_the_second_age(rt: HostRuntime) -> Result<(), Fail> {
    tells(
        &rt,
        rt.alloc(),
        b"@served
client s1 000f0000001a00010000000100000021
> u1 0001001000130000000000650000000100000000000000000000000000050000
> u1 0001001000210001000000650000000200000000000000000000000000080000
client s1 000f0000000500010000000100000022
age
age
> s1 000f0000001a00010000009800000021
client s1 000f0000001a00010000000100000023
age
> s1 000f0000001a00010000009800000023
",
    )
}

#[test]
fn properties_that_were_told_are_given_up_no_more(rt: HostRuntime) -> Result<(), Fail> {
    tells(
        &rt,
        rt.alloc(),
        b"@served
client s1 000f0000001a00010000000100000021
> u1 0001001000130000000000650000000100000000000000000000000000050000
> u1 0001001000210001000000650000000200000000000000000000000000080000
server u1 00010030002100010000000100000002000000000000000000000000000000000000000000000000000000000000000000000000000000000000000000000000
age
age
read s1 1 26 1
> waits
server u1 00010010001300010000000100000001000000003b9aca00000000000000002a
> s1 000f0028001a000100000001000000210000000000000000000000000000000000000000000000000000000000000000000000000000002a
",
    )
}

// Its answer says nothing. A server that isn't there is asked nothing.
#[test]
fn a_server_is_asked_whether_it_is_there(rt: HostRuntime) -> Result<(), Fail> {
    tells(
        &rt,
        rt.alloc(),
        b"@connected
probe 1
> u1 00170000000000000000000000000000
server u1 00170000000000000000000000000000
probe 2
probe 4294967295
",
    )
}
