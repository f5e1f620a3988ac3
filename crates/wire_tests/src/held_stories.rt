//! Properties beside a value, and what is told and answered from both.
use crate::tell::tells;
use std::test::Fail;

#[test]
fn what_needs_properties_is_covered_once_they_are_there(rt: HostRuntime) -> Result<(), Fail> {
    tells(
        &rt,
        rt.alloc(),
        "\
# What needs properties is covered once they are there, and what needs none at once.
covers 33 1
> false
hold 19 1 2: 000000003b9aca00000000050000002a
covers 33 1
> false
covers 26 2
> false
covers 21 2
> true
covers 5 2
> true
covers 35 2
> true
ask 33 1
> none
keep 33 1
> 0
describe-held 33: 000700086d41 00*9 64000000000000005a000000500000000a000000050000006400000000
covers 33 2
> true
covers 33 3
> false
covers 26 0
> true
covers 5 2
> true
covers 22 1
> true
covers 34 1
> true
ask 33 1
> 1 in 00000000 6d410000 00000000 00000064 00000000 0000005a 00000050 0000000a 00000005 00000064 00000000 0000002a
ask 26 0
> 1 in 00000000 6d410000 00000000 00000064 00000000 0000005a 00000050 0000000a 00000005 0000002a
ask 33 2
> 2 in 00000000 6d410000 00000000 00000064 00000000 0000005a 00000050 0000000a 00000005 00000064 00000000 0000002a 00000000 00000000
ask 22 1
> none
",
    )
}

#[test]
fn properties_come_before_the_value_stay_beside_it_and_go_without_it(
    rt: HostRuntime,
) -> Result<(), Fail> {
    tells(
        &rt,
        rt.alloc(),
        "\
# Properties may come before the value, stay beside it, and go without it.
describe-held 33: 000700086d41 00*9 64000000000000005a000000500000000a000000050000006400000000
covers 33 0
> false
ask 33 1
> none
hold 19 1 1: 000000003b9aca00000000050000002a
ask 26 1
> 1 in 00000000 6d410000 00000000 00000064 00000000 0000005a 00000050 0000000a 00000005 0000002a
forget
ask 26 1
> none
covers 26 1
> false
hold 19 1 1: 000100023b9aca00000000050000002b
ask 26 1
> 1 in 00010002 6d410000 00000000 00000064 00000000 0000005a 00000050 0000000a 00000005 0000002b
forget-properties
ask 26 1
> none
covers 26 1
> false
ask 5 1
> 1 in 0000002b 00000000
covers 5 1
> true
forget-properties
",
    )
}

#[test]
fn no_encoding_is_left_after_either_message(rt: HostRuntime) -> Result<(), Fail> {
    tells(
        &rt,
        rt.alloc(),
        "\
# No encoding is left after either message.
hold 19 1 1: 000000003b9aca00000000050000002a
describe-held 33: 000700086d41 00*9 64000000000000005a000000500000000a000000050000006400000000
keep 33 1
> 1
keep 5 1
> 2
shares 33 1
> true
shares 5 1
> true
keep 33 1
> 2
describe-held 33: 0007000841 00*10 0100000001000000010000000100000001000000010000000100000001
shares 33 1
> false
shares 5 1
> false
ask 33 1
> 1 in 00000000 41000000 00000000 00000001 00000001 00000001 00000001 00000001 00000001 00000001 00000001 0000002a
keep 33 1
> 1
keep 26 1
> 2
keep 22 1
> 2
hold 19 1 1: 000100023b9aca00000000050000002b
ask 33 1
> 1 in 00010002 41000000 00000000 00000001 00000001 00000001 00000001 00000001 00000001 00000001 00000001 0000002b
keep 33 1
> 1
forget-properties
shares 33 1
> none
keep 33 1
> 0
keep 12 1
> 1
shares 12 1
> true
describe-held 33: 000700086d41 00*9 64000000000000005a000000500000000a000000050000006400000000
shares 12 1
> false
keep 12 1
> 1
forget
shares 12 1
> none
keep 12 1
> 0
",
    )
}

#[test]
fn properties_of_another_base_are_none(rt: HostRuntime) -> Result<(), Fail> {
    tells(
        &rt,
        rt.alloc(),
        "\
# Properties of another base are none, and the value of a message that tells them is nobody's.
hold 19 1 1: 000000003b9aca00000000050000002a
describe-held 34: 000700080003ffff560000000000000011111111111111112222222222222222333333333333333344444444444444445555555555555555666666666666666677777777777777778888888888888888
covers 33 1
> false
ask 33 1
> none
covers 5 1
> true
describe-held 33: 000700086d41 00*9 64000000000000005a000000500000000a00000005000000640000000000000007
covers 33 1
> true
ask 33 1
> 1 in 00000000 6d410000 00000000 00000064 00000000 0000005a 00000050 0000000a 00000005 00000064 00000000 0000002a
",
    )
}

#[test]
fn a_message_that_tells_none_leaves_those_before(rt: HostRuntime) -> Result<(), Fail> {
    tells(
        &rt,
        rt.alloc(),
        "\
# A message that tells none leaves those before.
hold 19 1 1: 000000003b9aca00000000050000002a
describe-held 33: 000700086d41 00*9 64000000000000005a000000500000000a000000050000006400000000
describe-held 26: 000700086d41 00*9 64000000000000005a000000500000000a00000005
> tells no properties
describe-held 33: 000700086d41 00*9 64000000000000005a000000500000000a0000000500000064000000
> tells no properties
describe-held 19: 000700086d41 00*9 64000000000000005a000000500000000a000000050000006400000000
> tells no properties
describe-held 35: 000700086d41 00*9 64000000000000005a000000500000000a000000050000006400000000
> tells no properties
ask 33 1
> 1 in 00000000 6d410000 00000000 00000064 00000000 0000005a 00000050 0000000a 00000005 00000064 00000000 0000002a
",
    )
}

#[test]
fn states_have_texts_once_these_are_told(rt: HostRuntime) -> Result<(), Fail> {
    tells(
        &rt,
        rt.alloc(),
        "\
# States have texts once these are told.
hold 17 2 2: 000000003b9aca0000000005eeee00010002
covers 0 1
> false
covers 14 1
> false
covers 5 1
> true
covers 17 1
> true
ask 0 1
> none
describe-held 31: 0007000800024f4646 00*23 4f4e 00*388
covers 0 1
> true
covers 28 2
> true
ask 0 0
> 2 in 4f4e0000 00000000 00000000 00000000 00000000 00000000 00000000 00000000 00000000 00000000 32 00*39
ask 7 1
> 1 in 00000000 4f4e 00*42
keep 0 0
> 1
shares 0 0
> true
describe-held 31: 0007000800034f4646 00*23 4f4e 00*24 4f5554 00*361
shares 0 0
> false
ask 0 0
> 2 in 4f4e0000 00000000 00000000 00000000 00000000 00000000 00000000 00000000 00000000 00000000 4f5554 00*37
",
    )
}
