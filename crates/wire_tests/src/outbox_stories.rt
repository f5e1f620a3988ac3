//! Outboxes that are filled and emptied.
use crate::tell::tells;
use std::test::Fail;

#[test]
fn messages_wait_and_leave(rt: HostRuntime) -> Result<(), Fail> {
    tells(
        &rt,
        rt.alloc(),
        "\
# The example at the head of the crate.
append 1 23 0 0 0 0 0
front
> 0017 00*14
length
> 0 wait
# Messages leave in the order in which they came.
append 1 23 0 10 0 0 0
append 1 23 0 11 0 0 0
append 1 23 0 12 0 0 0
length
> 3 wait
bytes
> 48
front
> 00170000 00000000 0000000a 00000000
bytes
> 32
empty 5
> 00170000 00000000 0000000b 00000000
> 00170000 00000000 0000000c 00000000
length
> 0 wait
bytes
> 0
front
> none
# A marked outbox takes no message, and keeps its own.
append 3 23 0 10 0 0 0
mark
append 1 23 0 7 0 0 0
> back 00170000 00000000 00000007 00000000
length
> 3 marked
# The message that finds it full marks it.
append 16384 23 0 1 0 0 0
length
> 16384 wait
append 1 23 0 2 0 0 0
> back 00170000 00000000 00000002 00000000
length
> 16384 marked
",
    )
}
