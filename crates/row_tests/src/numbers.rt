//! The numbers that are given out, and those that are passed over.
use crate::link_rows::tells;

#[test]
fn each_counter_gives_its_own_numbers(rt: HostRuntime) {
    tells(
        &rt,
        rt.alloc(),
        "\
empty from 1
give sid
> 1
give sid
> 2
give cid
> 1
give subscription
> 1
give write
> 1
give sid
> 3
",
    );
}

#[test]
fn numbers_come_again_behind_the_last(rt: HostRuntime) {
    tells(
        &rt,
        rt.alloc(),
        "\
empty from 4294967293
again cid 0 5
> 4294967293
again cid 0 5
> 4294967294
again cid 0 5
> 5
again cid 0 5
> 6
give cid
> 7
again sid 0 9
> 4294967293
again sid 0 9
> 4294967294
again sid 0 9
> 9
",
    );
}

#[test]
fn numbers_that_links_have_are_passed_over(rt: HostRuntime) {
    tells(
        &rt,
        rt.alloc(),
        "\
empty from 4294967294
add servers 1 2
add links 1 5 6
add links 2 8 8
again cid 0 5
> 4294967294
again cid 0 5
> 7
again cid 0 5
> 9
remove link 1 6
again cid 0 5
> 10
",
    );
}

// An ID is had by a subscription to values or to properties, and only of the same server.
#[test]
fn numbers_that_subscriptions_have_are_passed_over(rt: HostRuntime) {
    tells(
        &rt,
        rt.alloc(),
        "\
empty from 4294967294
add servers 1 2
add links 1 1 2
add links 2 3 3
put sub 1 1 5 1 1 1
put props 1 2 6 1 1 1
put sub 2 3 7 1 1 1
again subscription 1 5
> 4294967294
again subscription 1 5
> 7
again subscription 2 5
> 8
put none 1 1
put sub 1 1 9 1 1 1
again subscription 1 5
> 10
",
    );
}

#[test]
fn numbers_that_writes_have_are_passed_over(rt: HostRuntime) {
    tells(
        &rt,
        rt.alloc(),
        "\
empty from 4294967294
add servers 1 2
add writes 1 5 6 3 7
add writes 2 8 8 3 7
again write 1 5
> 4294967294
again write 1 5
> 7
again write 1 5
> 8
again write 2 5
> 9
",
    );
}

// The first number is the last one too, and is had.
#[test]
fn no_number_is_given_out_where_all_are_had(rt: HostRuntime) {
    tells(
        &rt,
        rt.alloc(),
        "\
empty from 4294967294
add servers 1 1
again write 1 4294967294
> 4294967294
add writes 1 4294967294 4294967294 3 7
again write 1 4294967294
> none
again write 1 4294967294
> none
remove write 1 4294967294
again write 1 4294967294
> 4294967294
again cid 0 4294967295
> 4294967294
again cid 0 4294967295
> none
",
    );
}

#[test]
fn numbers_are_used_up_past_the_last(rt: HostRuntime) {
    tells(
        &rt,
        rt.alloc(),
        "\
empty from 4294967294
give cid
> 4294967294
give cid
> none
give cid
> none
give write
> 4294967294
",
    );
}
