//! Tables of clients' rows that are as full as they may be.
use crate::client_rows::tells;

#[test]
fn the_row_past_each_limit_is_refused(rt: HostRuntime) {
    tells(
        &rt,
        rt.alloc(),
        "session 0-1023\nchannel 1 0-4095",
        "\
session 1024
> full
channel 1 4096
> full
channel 2 4096
read 1 9 0-255
read 1 9 256
> full
read 2 4096 0
sub 1 11 0-8191
sub 1 12 8192
> full
sub 2 4096 7
count 1
> 4096 8192 256
count 2
> 1 1 1
",
    );
}

#[test]
fn the_row_past_a_limit_that_is_told_is_refused(rt: HostRuntime) {
    tells(
        &rt,
        rt.alloc(),
        "session 1\nchannel 1 11\nsub 1 11 5\nread 1 11 8",
        "\
within 1 session 2
> full
within 2 session 2
within 0 channel 2 21
> full
within 1 channel 2 21
within 1 channel 1 12
> full
within 1 channel 3 31
> missing
within 1 sub 1 11 6
> full
within 2 sub 1 11 6
within 1 sub 2 21 6
within 0 sub 2 22 7
> missing
within 1 read 1 11 8
> full
within 2 read 1 11 8
within 1 read 2 21 9
within 1 read 2 22 9
> missing
count 1
> 1 2 2
count 2
> 1 1 1
show
> session 1 10.0.0.5
> session 2 10.0.0.5
> channel 1 11 A:SP reach 0 rights 3
> channel 2 21 A:SP reach 0 rights 3
> sub 1 11 5 owed
> sub 1 11 6 owed
> sub 2 21 6 owed
> read 1 11 8
> read 1 11 8
> read 2 21 9
",
    );
}
