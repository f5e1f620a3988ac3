//! Tables of links that are filled and emptied.
use crate::link_rows::tells;

#[test]
fn a_link_is_found_by_id_name_and_place(rt: HostRuntime) {
    tells(
        &rt,
        rt.alloc(),
        "\
count links
> 2
all links
> 2
find cid 1 2
> 2
find cid 2 2
> none
find cid 1 3
> none
find name T2
> 2
find name t2
> none
find place 0
> 1
find place 1
> 2
find place 2
> none
",
    );
}

#[test]
fn a_server_keeps_the_minor_version_that_it_said(rt: HostRuntime) {
    tells(
        &rt,
        rt.alloc(),
        "\
show server 1
> Some(0)
put server 1 13
put server 2 9
show server 1
> Some(13)
show server 2
> None
",
    );
}

#[test]
fn a_link_keeps_its_state_and_its_rights(rt: HostRuntime) {
    tells(
        &rt,
        rt.alloc(),
        "\
put link 1 2 101 5 1 3
put unusable 2 1 3
show link 1 2
> Some((Connected { sid: 101, dtype: 5, count: 1 }, 3, None, None))
show link 1 1
> Some((Creating, 0, None, None))
put unusable 1 1 2
show link 1 1
> Some((Unusable, 2, None, None))
",
    );
}

#[test]
fn a_link_is_found_by_its_present_subscription(rt: HostRuntime) {
    tells(
        &rt,
        rt.alloc(),
        "\
put sub 1 2 7 5 1 0
find sub 1 7
> 2
find sub 2 7
> none
find sub 1 8
> none
show link 1 2
> Some((Creating, 0, Some(Subscription { id: 7, mask: 5, count: 1, sent: 0 }), None))
put none 1 2
find sub 1 7
> none
put sub 1 3 7 5 1 0
> Missing
",
    );
}

// The subscriptions to values and to properties come and go apart, and each leads to the link.
#[test]
fn a_link_is_found_by_either_of_its_subscriptions(rt: HostRuntime) {
    tells(
        &rt,
        rt.alloc(),
        "\
put props 1 2 8 8 1 1
find sub 1 8
> 2
put sub 1 2 7 5 1 0
find sub 1 7
> 2
find sub 1 8
> 2
put sub 1 1 8 5 1 0
show link 1 1
> Some((Creating, 0, None, None))
put none 1 2
find sub 1 7
> none
show link 1 2
> Some((Creating, 0, None, Some(Subscription { id: 8, mask: 8, count: 1, sent: 1 })))
put props 1 2 9 8 1 1
find sub 1 8
> none
find sub 1 9
> 2
put sub 1 2 8 5 1 0
put again 1 2 1 4 4
find sub 1 8
> 2
put unlisted 1 2
find sub 1 9
> none
show link 1 2
> Some((Creating, 0, Some(Subscription { id: 8, mask: 1, count: 4, sent: 4 }), None))
put props 1 1 9 8 1 1
remove link 1 2
find sub 1 8
> none
find sub 1 9
> 1
",
    );
}

#[test]
fn a_server_goes_with_its_links(rt: HostRuntime) {
    tells(
        &rt,
        rt.alloc(),
        "\
find of 1 1
> 2
find of 1 2
> none
remove link 1 1
remove link 1 1
count links
> 1
count of 1
> 1
count of 2
> 0
find place 0
> 2
find of 1 0
> 2
remove server 2
count links
> 1
remove server 1
count links
> 0
show server 1
> None
add links 1 3 3
> Missing
",
    );
}

#[test]
fn no_row_is_added_past_its_limit(rt: HostRuntime) {
    tells(
        &rt,
        rt.alloc(),
        "\
add servers 2 16
add servers 17 17
> Full
add links 1 3 65536
count links
> 65536
add links 1 65537 65537
> Full
count links
> 65536
find place 65535
> 65536
",
    );
}

#[test]
fn a_write_waits_until_it_is_removed(rt: HostRuntime) {
    tells(
        &rt,
        rt.alloc(),
        "\
add writes 1 1 1 1 2
add writes 1 2 2 1 3
add writes 1 3 3 1 2
count writes 1
> 3
count writes 2
> 0
show write 1 2
> Some(WaitingWrite { server: 1, id: 2, session: 1, sid: 3, dtype: 5, count: 1, ioid: 43 })
show write 2 2
> None
show write 1 43
> None
remove write 1 1
remove write 2 3
show write 1 1
> None
remove writes 1 2
remove writes 2 3
show write 1 3
> None
count writes 1
> 1
remove server 2
count writes 1
> 1
remove server 1
count writes 1
> 0
",
    );
}

#[test]
fn no_more_than_256_writes_of_a_session_wait(rt: HostRuntime) {
    tells(
        &rt,
        rt.alloc(),
        "\
add writes 1 1 256 1 2
add writes 1 257 257 1 2
> Full
add writes 2 257 257 1 2
> Missing
add writes 1 257 257 2 2
count writes 1
> 256
remove write 1 1
add writes 1 258 258 1 2
remove session 1
count writes 1
> 0
count writes 2
> 1
",
    );
}

#[test]
fn links_for_several_names_come_in_the_order_of_adding(rt: HostRuntime) {
    tells(
        &rt,
        rt.alloc(),
        "\
add links 1 3 6
named 5 1
> 1
> 5
named 4 4
> 4
remove link 1 3
add links 1 3 3
named 3 6
> 6
> 3
named 9 2
> 2
named 9 8
",
    );
}

#[test]
fn links_are_found_while_others_come_and_go(rt: HostRuntime) {
    tells(
        &rt,
        rt.alloc(),
        "\
add servers 2 2
add links 2 3 202
put sub 2 100 9 5 1 0
put sub 1 2 9 5 1 0
remove server 2
count links
> 2
find sub 2 9
> none
find sub 1 9
> 2
find name T100
> none
add servers 2 2
add links 2 300 303
remove link 1 1
add links 1 400 400
find place 0
> 2
find place 1
> 300
find place 5
> 400
find place 6
> none
find name T303
> 303
find cid 2 302
> 302
put sub 1 2 10 5 1 0
find sub 1 9
> none
find sub 1 10
> 2
",
    );
}

/// The example at the head of the crate.
#[test]
fn a_link_names_a_server(rt: HostRuntime) {
    tells(
        &rt,
        rt.alloc(),
        "\
empty from 1
give cid
> 1
add links 1 1 1
> Missing
",
    );
}
