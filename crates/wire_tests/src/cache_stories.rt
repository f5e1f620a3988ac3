//! A message of three elements, and what is told and answered from it. It is three LONGs, 1, -2 and 3, with status 7
//! and severity 1. The next one is a LONG of 42, later and without an alarm.
use crate::tell::tells;
use std::test::Fail;

#[test]
fn the_example_at_the_head_of_the_crate_is_answered(rt: HostRuntime) -> Result<(), Fail> {
    tells(
        &rt,
        rt.alloc(),
        "\
# The example at the head of the crate.
hold 19 1 1: 00000000 3b9aca00 00000000 0000002a
ask 5 0
> 1 in 0000002a 00000000
",
    )
}

#[test]
fn reads_are_answered_from_what_is_held(rt: HostRuntime) -> Result<(), Fail> {
    tells(
        &rt,
        rt.alloc(),
        "\
# Reads are answered from what is held.
ask 5 1
> none
hold 19 3 3: 00070001 3b9aca00 00000005 00000001 fffffffe 00000003
ask 5 0
> 3 in 00000001 fffffffe 00000003 00000000
ask 5 1
> 1 in 00000001 00000000
ask 5 3
> 3 in 00000001 fffffffe 00000003 00000000
ask 5 5
> 5 in 00000001 fffffffe 00000003 00*12
ask 19 0
> 3 in 00070001 3b9aca00 00000005 00000001 fffffffe 00000003
ask 26 1
> none
ask 5 4194305
> none
hold 19 1 1: 00000000 3b9aca01 00000000 0000002a
ask 19 0
> 1 in 00000000 3b9aca01 00000000 0000002a
forget
ask 19 0
> none
",
    )
}

#[test]
fn as_many_are_covered_as_were_asked_for(rt: HostRuntime) -> Result<(), Fail> {
    tells(
        &rt,
        rt.alloc(),
        "\
# As many are covered as were asked for.
covers 5 0
> false
hold 19 3 10: 00070001 3b9aca00 00000005 00000001 fffffffe 00000003
covers 5 10
> true
covers 5 11
> false
hold 19 1 5: 00000000 3b9aca01 00000000 0000002a
covers 5 5
> true
covers 5 6
> false
forget
covers 5 1
> false
",
    )
}

#[test]
fn another_alarm_has_another_status_or_severity(rt: HostRuntime) -> Result<(), Fail> {
    tells(
        &rt,
        rt.alloc(),
        "\
# Another alarm has another status or another severity.
alarm 19 2: 00070001 3b9aca00 00000005 00000001 fffffffe 00000003
> true
hold 19 3 3: 00070001 3b9aca00 00000005 00000001 fffffffe 00000003
alarm 19 2: 00070001 3b9aca00 00000005 00000001 fffffffe 00000003
> false
alarm 19 0: 00060001 00000000 00000000
> true
alarm 19 0: 00070002 00000000 00000000
> true
hold 19 1 3: 00000000 3b9aca01 00000000 0000002a
alarm 19 2: 00070001 3b9aca00 00000005 00000001 fffffffe 00000003
> true
",
    )
}

#[test]
fn an_encoding_is_kept_once_until_the_next_value(rt: HostRuntime) -> Result<(), Fail> {
    tells(
        &rt,
        rt.alloc(),
        "\
# An encoding is kept once, until the next value.
hold 19 1 1: 00000000 3b9aca00 00000000 0000002a
keep 5 1
> 1
ask 5 1
> 1 in 0000002a 00000000
keep 5 1
> 1
hold 19 1 1: 00000000 3b9aca01 00000000 0000002b
ask 5 1
> 1 in 0000002b 00000000
keep 26 1
> 0
keep 5 0
> 1
ask 5 0
> 1 in 0000002b 00000000
",
    )
}

#[test]
fn all_who_ask_for_a_kept_encoding_share_it(rt: HostRuntime) -> Result<(), Fail> {
    tells(
        &rt,
        rt.alloc(),
        "\
# All who ask for an encoding that is kept share it, until the next value.
hold 19 1 1: 00000000 3b9aca00 00000000 0000002a
shares 5 1
> false
keep 5 1
> 1
shares 5 1
> true
shares 5 1
> true
shares 12 1
> false
hold 19 1 1: 00000000 3b9aca01 00000000 0000002b
shares 5 1
> false
",
    )
}

#[test]
fn a_message_that_is_its_own_answer_is_shared_as_it_came(rt: HostRuntime) -> Result<(), Fail> {
    tells(
        &rt,
        rt.alloc(),
        "\
# A message that is its own answer is shared as it came, in each form without properties.
hold 19 1 1: 00000000 3b9aca00 00000000 0000002a
shares 19 1
> true
shares 19 0
> true
ask 19 0
> 1 in 00000000 3b9aca00 00000000 0000002a
shares 19 2
> false
shares 12 1
> false
hold 12 2 2: 00070001 0000002a 0000002b 00000000
shares 12 0
> true
hold 5 1 1: 0000002a 00000000
shares 5 1
> true
ask 5 1
> 1 in 0000002a 00000000
",
    )
}

#[test]
fn one_whose_padding_is_not_zero_or_is_missing_is_not_shared(rt: HostRuntime) -> Result<(), Fail> {
    tells(
        &rt,
        rt.alloc(),
        "\
# One whose padding isn't zero, or is missing, isn't shared as it came. Bytes behind the padding don't matter.
hold 15 1 1: 00000000 3b9aca00 00000000 eeee0007
shares 15 1
> false
ask 15 1
> 1 in 00000000 3b9aca00 00000000 00000007
hold 5 1 1: 0000002a 00000001
shares 5 1
> false
ask 5 1
> 1 in 0000002a 00000000
hold 5 1 1: 0000002a
shares 5 1
> false
hold 5 1 1: 0000002a 00*4 eeeeeeee
shares 5 1
> true
ask 5 1
> 1 in 0000002a 00000000
",
    )
}

#[test]
fn elements_are_shared_under_their_plain_type(rt: HostRuntime) -> Result<(), Fail> {
    tells(
        &rt,
        rt.alloc(),
        "\
# A message's elements are shared under their plain type, where the bytes behind them are zero.
hold 19 1 1: 00000000 3b9aca00 00000000 0000002a 00*8
shares 5 1
> true
shares 5 0
> true
ask 5 0
> 1 in 0000002a 00000000
ask 19 0
> 1 in 00000000 3b9aca00 00000000 0000002a
shares 5 2
> false
shares 12 1
> false
hold 33 1 1: 00070001 00*40 0000002a 00*8
shares 5 1
> true
ask 5 1
> 1 in 0000002a 00000000
",
    )
}

#[test]
fn where_the_bytes_behind_them_are_not_zero_the_padding_given_is(
    rt: HostRuntime,
) -> Result<(), Fail> {
    tells(
        &rt,
        rt.alloc(),
        "\
# Where the bytes behind its elements aren't zero, the padding of what is given is.
hold 19 1 1: 00000000 3b9aca00 00000000 0000002a 00000000 ee000000
shares 5 1
> true
hold 19 1 1: 00000000 3b9aca00 00000000 0000002a 000000ee 00000000
shares 5 1
> false
ask 5 1
> 1 in 0000002a 00000000
shares 19 1
> true
",
    )
}

#[test]
fn of_nine_encodings_the_first_one_goes(rt: HostRuntime) -> Result<(), Fail> {
    tells(
        &rt,
        rt.alloc(),
        "\
# Of nine encodings the first one goes, and is kept as the last one again.
hold 19 1 9: 00000000 3b9aca01 00000000 0000002b
keep 5 1
> 1
keep 5 2
> 2
keep 5 3
> 3
keep 5 4
> 4
keep 5 5
> 5
keep 5 6
> 6
keep 5 7
> 7
keep 12 1
> 8
keep 19 1
> 8
keep 19 1
> 8
ask 5 1
> 1 in 0000002b 00000000
ask 5 2
> 2 in 0000002b 00000000
ask 12 1
> 1 in 00000000 0000002b
keep 6 1
> 8
keep 5 1
> 8
forget
ask 5 2
> none
keep 5 2
> 0
",
    )
}

// An encoding is large from 65,536 bytes on, its padding counted.
#[test]
fn one_large_encoding_stays(rt: HostRuntime) -> Result<(), Fail> {
    tells(
        &rt,
        rt.alloc(),
        "\
# A large message that is its own answer is shared too.
hold 19 16384 16384: 00000000 3b9aca00 00000000 00*65544
shares 19 0
> true
shares 5 0
> true
# Large encodings go where there are several, and others stay.
hold 19 16384 16384: 00000000 3b9aca00 00000000 00*65544
keep 12 16383
> 1
keep 5 1
> 2
thin
> 2
shares 12 16383
> true
keep 12 16380
> 3
keep 5 16382
> 4
thin
> 4
keep 19 16383
> 5
thin
> 3
shares 5 1
> true
shares 12 16383
> false
shares 5 16382
> true
thin
> 3
forget
thin
> 0
",
    )
}
