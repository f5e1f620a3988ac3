//! The lines of the log that wait to be written, and those of standard input.
use crate::tell::tells;

#[test]
fn lines_of_the_log_are_written_in_order(rt: HostRuntime) {
    tells(
        &rt,
        rt.alloc(),
        "\
idle
> true
next
> nothing
log 1: upstream 1 lost
log 2: closing
idle
> false
next
> upstream 1 lost
next
> closing
next
> nothing
# In a second 50 lines of a kind are kept. How many weren't is told before the next one.
log-many 7 1 49
> 49
log 7: the fiftieth
log 7: one more
> TooMany
log 8: of another kind
second
next
> dropped 1
log 7: of another second
log-many 7 1 50
> 49
next
> x
second
next
> dropped 1
next
> x
",
    );
}

#[test]
fn so_many_lines_of_the_log_wait(rt: HostRuntime) {
    tells(
        &rt,
        rt.alloc(),
        "\
log 255: first
log-many 0 1 1024
> 1023
log 99: one more
> Full
next
> first
log 99: in its place
log 99: one more
> Full
second
next
> dropped 3
next
> x
# Together they have 262144 bytes.
log 1: first
log-many 2 16384 16
> 15
log 9: x
log-many 10 16378 1
> 1
log 9: one more
> Full
next
> first
log 9: ninth
log 9: x
> Full
",
    );
}

#[test]
fn orders_are_heard_in_pieces(rt: HostRuntime) {
    tells(
        &rt,
        rt.alloc(),
        "\
end
> none
hear: ask|
> Order(Ask)
hear: swe
hear: ep
end
> Order(Sweep)
hear: |reload|qu
> Order(Sweep)
> Order(Reload)
hear: it|
> Order(Quit)
hear: connect 12|connect x|Ask||connect 3
> Order(Connect(12))
> NoOrder
> NoOrder
> NoOrder
end
> Order(Connect(3))
# A line of more than 1024 bytes is none.
hear-long 1024
end
> NoOrder
hear-long 1000
hear: ask|ask|
> NoOrder
> Order(Ask)
",
    );
}
