//! Which numbers connections get, and when they are free.
use crate::tell::tells;

#[test]
fn a_client_gets_the_least_number_that_is_free(rt: HostRuntime) {
    tells(
        &rt,
        rt.alloc(),
        "\
admit 51 91
> 1
admit 52 92
> 2
admit 53 93
> 3
admit 54 94
> Full
left: s2
> false
left: s2
> true
left: s9
> false
ended 0
> Some(1)
ended 2
> None
admit 54 94
> Full
remove: s2
> Session(2) Some(52) 92 None
remove: s2
> none
admit 54 94
> 2
rows
> Session(1) Some(51) 91 None
> Session(3) Some(53) 93 None
> Session(2) Some(54) 94 None
cut 7: s3
cut 8: s3
remove: s3
> Session(3) Some(53) 93 Some(TooMuch(7))
close 4
> Some(4)
close 5
> Some(4)
admit 55 95
> Closing
",
    );
}

#[test]
fn a_host_has_so_many_seats(rt: HostRuntime) {
    tells(
        &rt,
        rt.alloc(),
        "\
admit-of 100 1 51 91
> 1
admit-of 100 1 52 92
> HostFull
admit-of 200 1 52 92
> 2
admit 53 93
> 3
admit-of 300 1 54 94
> Full
admit-of 100 2 54 94
> Full
remove: s1
> Session(1) Some(51) 91 None
admit-of 200 2 54 94
> 1
admit-of 200 2 55 95
> HostFull
rows
> Session(2) Some(52) 92 None
> Session(3) Some(53) 93 None
> Session(1) Some(54) 94 None
close 0
> Some(0)
admit-of 400 1 56 96
> Full
remove: s3
> Session(3) Some(53) 93 None
admit-of 400 1 56 96
> Closing
",
    );
}

#[test]
fn a_server_has_one_connection(rt: HostRuntime) {
    tells(
        &rt,
        rt.alloc(),
        "\
begin-server 1 91
begin-server 1 92
> Held
begin-server 7 97
reached
> None
made 57: u7
rows
> Upstream(1) None 91 None
> Upstream(7) Some(57) 97 None
reached
> Some(1)
reached
> None
left: u7
> false
left: u7
> true
begin-server 7 98
> Held
remove: u7
> Upstream(7) Some(57) 97 None
begin-server 7 98
close 4
> Some(4)
made 51: u1
begin-server 2 92
> Closing
rows
> Upstream(1) None 91 None
> Upstream(7) None 98 None
",
    );
}

#[test]
fn an_outage_is_told_once(rt: HostRuntime) {
    tells(
        &rt,
        rt.alloc(),
        "\
fail 1
> true
fail 1
> false
fail-ordered 1
> true
fail 2
> true
back 1
fail 1
> true
fail 1024
> true
fail 1024
> false
",
    );
}
