//! Tables of links, their subscriptions and writes, of which most go.
use crate::link_rows::tells;

#[test]
fn few_subscriptions_are_left_of_many(rt: HostRuntime) {
    tells(
        &rt,
        rt.alloc(),
        "\
add links 1 3 60
each sub 1 1 60
each props 1 1 60
find sub 1 1001
> 1
find sub 1 1060
> 60
find sub 1 5030
> 30
each none 1 2 59
each unlisted 1 1 57
find sub 1 1001
> 1
find sub 1 1030
> none
find sub 1 1060
> 60
find sub 1 5030
> none
find sub 1 5058
> 58
show link 1 30
> Some((Creating, 0, None, None))
show link 1 60
> Some((Creating, 0, Some(Subscription { id: 1060, mask: 5, count: 1, sent: 0 }), Some(Subscription { id: 5060, mask: 5, count: 1, sent: 0 })))
put sub 1 30 1030 5 2 0
find sub 1 1030
> 30
each sub 1 2 20
find sub 1 1015
> 15
put sub 1 16 7 5 1 0
find sub 1 1016
> none
find sub 1 7
> 16
remove link 1 60
find sub 1 1060
> none
find sub 1 5060
> none
find sub 1 5059
> 59
add servers 2 2
add links 2 100 102
each sub 2 100 102
find sub 2 1101
> 101
find sub 1 1101
> none
put sub 2 100 1015 5 1 0
find sub 2 1015
> 100
find sub 2 1100
> none
find sub 1 1015
> 15
remove server 1
find sub 1 1015
> none
find sub 2 1015
> 100
count links
> 3
",
    );
}

#[test]
fn few_links_are_left_of_many(rt: HostRuntime) {
    tells(
        &rt,
        rt.alloc(),
        "\
add servers 2 2
add links 1 100 299
add links 2 300 499
add links 1 500 599
each link 1 101 298
each link 2 301 498
each link 1 501 598
count links
> 8
find place 0
> 1
find place 1
> 2
find place 2
> 100
find place 3
> 299
find place 4
> 300
find place 5
> 499
find place 6
> 500
find place 7
> 599
find place 8
> none
find of 1 3
> 299
find of 1 4
> 500
find of 2 1
> 499
find of 2 2
> none
find name T499
> 499
find name T498
> none
find cid 1 599
> 599
named 599 100
> 100
> 599
add links 2 101 101
find name T101
> 101
find cid 2 101
> 101
find cid 1 101
> none
find place 8
> 101
remove server 2
count links
> 6
find place 4
> 500
find name T300
> none
find name T101
> none
all links
> 6
each link 1 1 599
count links
> 0
find place 0
> none
add links 1 3 3
find name T3
> 3
",
    );
}

// Their IDs don't rise, nor do those of their sessions.
#[test]
fn few_writes_are_left_of_many(rt: HostRuntime) {
    tells(
        &rt,
        rt.alloc(),
        "\
add servers 2 2
add writes 2 500 549 1 2
add writes 1 100 149 2 2
add writes 2 300 349 1 3
add writes 1 700 749 1 2
add writes 2 10 59 2 3
count writes 1
> 150
count writes 2
> 100
each write 2 301 349
count writes 1
> 101
remove writes 1 2
count writes 1
> 1
show write 2 300
> Some(WaitingWrite { server: 2, id: 300, session: 1, sid: 3, dtype: 5, count: 1, ioid: 43 })
show write 1 700
> None
show write 2 500
> None
remove writes 2 3
count writes 2
> 50
show write 2 10
> None
add writes 1 700 701 1 2
add writes 2 700 700 2 2
remove server 2
count writes 1
> 2
count writes 2
> 50
show write 2 300
> None
each write 1 101 149
count writes 2
> 1
remove session 1
count writes 1
> 0
show write 1 100
> Some(WaitingWrite { server: 1, id: 100, session: 2, sid: 2, dtype: 5, count: 1, ioid: 43 })
show write 1 701
> None
",
    );
}
