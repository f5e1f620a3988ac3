//! Searches that couldn't be answered when they were made.
use crate::tell::tells;

#[test]
fn searches_wait_to_be_answered(rt: HostRuntime) {
    tells(
        &rt,
        rt.alloc(),
        "\
late-at 0
> none
late 100 1 11 1000: T1
late 100 2 11 1001: T2
late 200 1 11 1002: T1
lates
> 3
late-at 0
> T1 101 100 1 11 1000
late-at 1
> T2 102 100 2 11 1001
late-at 2
> T1 201 200 1 11 1002
late-at 3
> none
# A search that is made again is kept once, as the latest.
late 100 1 11 1000: T1
late 100 1 12 1001: T2
late 100 1 11 2000: T3
lates
> 2
late-at 0
> T2 101 100 1 12 1001
late-at 1
> T3 101 100 1 11 2000
# Those go that a reply to their address answers.
late 100 1 11 1000: T1
late 100 1 12 1000: T2
late 100 1 13 1000: T3
late 100 2 11 1000: T1
late 200 1 11 1000: T1
answered 100 1 13 11
lates
> 3
late-at 0
> T2 101 100 1 12 1000
late-at 1
> T1 102 100 2 11 1000
late-at 2
> T1 201 200 1 11 1000
# A search is kept for five seconds.
late 100 1 11 1000: T1
late 100 1 12 1001: T2
expire 5999
lates
> 2
expire 6000
lates
> 1
late-at 0
> T2 101 100 1 12 1001
",
    );
}

#[test]
fn of_many_searches_the_oldest_go(rt: HostRuntime) {
    tells(
        &rt,
        rt.alloc(),
        "\
late 200 1 1 0: T1
late-many 100 1 1024
lates
> 1025
late-many 100 1025 1026
lates
> 1025
late-at 0
> T1 201 200 1 1 0
late-at 1
> N3 101 100 1 3 0
late-at 1024
> N1026 101 100 1 1026 0
# They are 4096 in all.
late-many 100 1 1000
late-many 200 1 1000
late-many 300 1 1000
late-many 400 1 1000
late-many 500 1 96
lates
> 4096
late 600 1 7 0: T1
lates
> 4096
late-at 0
> N2 101 100 1 2 0
late-at 4095
> T1 601 600 1 7 0
",
    );
}

#[test]
fn hosts_take_turns(rt: HostRuntime) {
    tells(
        &rt,
        rt.alloc(),
        "\
take-late
> none
wait-many 100 1 3
wait 200 1 7 0: T1
wait 300 1 8 0: T2
wait 200 1 9 0: T3
waiting
> 6
take-late
> N1 101 100 1 1 0
take-late
> T1 201 200 1 7 0
take-late
> T2 301 300 1 8 0
take-late
> N2 101 100 1 2 0
take-late
> T3 201 200 1 9 0
# Who waits already has his turn before who comes.
wait-many 100 1 2
take-late
> N1 101 100 1 1 0
wait 200 1 7 0: T1
take-late
> N2 101 100 1 2 0
take-late
> T1 201 200 1 7 0
take-late
> none
waiting
> 0
",
    );
}

#[test]
fn of_a_host_so_many_searches_wait(rt: HostRuntime) {
    tells(
        &rt,
        rt.alloc(),
        "\
wait-many 100 1 1025
waiting
> 1024
wait 200 1 7 0: T1
waiting
> 1025
take-many 2
> T1 201 200 1 7 0
take-many 1023
> N1024 101 100 1 1024 0
take-late
> none
",
    );
}
