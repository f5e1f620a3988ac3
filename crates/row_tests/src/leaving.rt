//! Tables of clients' rows of which most go, from the front, from the middle and from the end.
use crate::client_rows::tells;

// Neither their IDs nor their sessions rise.
#[test]
fn channels_that_came_in_no_order_go(rt: HostRuntime) {
    tells(
        &rt,
        rt.alloc(),
        "\
session 1-3
channel 3 900-999
channel 1 500-599
channel 2 700-799
channel 1 100-199
channel 3 200-299
channel 2 300-399
channel 1 800-899
channel 3 400-499
",
        "\
count 1
> 300 0 0
leave 1 501-598
leave 2 700-798
leave 3 901-999
leave 2 301-398
leave 1 101-199
leave 3 200-298
leave 1 801-899
leave 3 401-499
on A:SP
> true 10 0 0
> channel 3 900 A:SP reach 0 rights 3
> channel 1 500 A:SP reach 0 rights 3
> channel 1 599 A:SP reach 0 rights 3
> channel 2 799 A:SP reach 0 rights 3
> channel 1 100 A:SP reach 0 rights 3
> channel 3 299 A:SP reach 0 rights 3
> channel 2 300 A:SP reach 0 rights 3
> channel 2 399 A:SP reach 0 rights 3
> channel 1 800 A:SP reach 0 rights 3
> channel 3 400 A:SP reach 0 rights 3
any B:SP A:SP
> channel 3 900 A:SP reach 0 rights 3
> channel 1 500 A:SP reach 0 rights 3
> channel 1 599 A:SP reach 0 rights 3
> channel 2 799 A:SP reach 0 rights 3
> channel 1 100 A:SP reach 0 rights 3
> channel 3 299 A:SP reach 0 rights 3
> channel 2 300 A:SP reach 0 rights 3
> channel 2 399 A:SP reach 0 rights 3
> channel 1 800 A:SP reach 0 rights 3
> channel 3 400 A:SP reach 0 rights 3
find channel 2 399
> channel 2 399 A:SP reach 0 rights 3
find channel 2 398
> none
leave 1 599-800
of 1
> channel 1 500 A:SP reach 0 rights 3
> channel 1 100 A:SP reach 0 rights 3
channel 1 600
on A:SP
> true 9 0 0
> channel 3 900 A:SP reach 0 rights 3
> channel 1 500 A:SP reach 0 rights 3
> channel 2 799 A:SP reach 0 rights 3
> channel 1 100 A:SP reach 0 rights 3
> channel 3 299 A:SP reach 0 rights 3
> channel 2 300 A:SP reach 0 rights 3
> channel 2 399 A:SP reach 0 rights 3
> channel 3 400 A:SP reach 0 rights 3
> channel 1 600 A:SP reach 0 rights 3
",
    );
}

#[test]
fn channels_between_others_go(rt: HostRuntime) {
    tells(
        &rt,
        rt.alloc(),
        "\
session 1
channel 1 1000-2279
",
        "\
leave 1 1256-1511
count 1
> 1024 0 0
leave 1 1000-1199
leave 1 1512-1711
count 1
> 624 0 0
channel 1 3000-3099
leave 1 1768-2270
leave 1 3001-3098
leave 1 1201-1766
on A:SP
> true 13 0 0
> channel 1 1200 A:SP reach 0 rights 3
> channel 1 1767 A:SP reach 0 rights 3
> channel 1 2271 A:SP reach 0 rights 3
> channel 1 2272 A:SP reach 0 rights 3
> channel 1 2273 A:SP reach 0 rights 3
> channel 1 2274 A:SP reach 0 rights 3
> channel 1 2275 A:SP reach 0 rights 3
> channel 1 2276 A:SP reach 0 rights 3
> channel 1 2277 A:SP reach 0 rights 3
> channel 1 2278 A:SP reach 0 rights 3
> channel 1 2279 A:SP reach 0 rights 3
> channel 1 3000 A:SP reach 0 rights 3
> channel 1 3099 A:SP reach 0 rights 3
any A:SP A:SP
> channel 1 1200 A:SP reach 0 rights 3
> channel 1 1767 A:SP reach 0 rights 3
> channel 1 2271 A:SP reach 0 rights 3
> channel 1 2272 A:SP reach 0 rights 3
> channel 1 2273 A:SP reach 0 rights 3
> channel 1 2274 A:SP reach 0 rights 3
> channel 1 2275 A:SP reach 0 rights 3
> channel 1 2276 A:SP reach 0 rights 3
> channel 1 2277 A:SP reach 0 rights 3
> channel 1 2278 A:SP reach 0 rights 3
> channel 1 2279 A:SP reach 0 rights 3
> channel 1 3000 A:SP reach 0 rights 3
> channel 1 3099 A:SP reach 0 rights 3
find channel 1 1767
> channel 1 1767 A:SP reach 0 rights 3
find channel 1 1766
> none
channel 1 4000-4299
leave 1 4001-4298
leave 1 1767-3000
on A:SP
> true 4 0 0
> channel 1 1200 A:SP reach 0 rights 3
> channel 1 3099 A:SP reach 0 rights 3
> channel 1 4000 A:SP reach 0 rights 3
> channel 1 4299 A:SP reach 0 rights 3
remove session 1
on A:SP
> false 0 0 0
session 1
channel 1 11
on A:SP
> true 1 0 0
> channel 1 11 A:SP reach 0 rights 3
",
    );
}

#[test]
fn few_reads_are_left_of_many(rt: HostRuntime) {
    tells(
        &rt,
        rt.alloc(),
        "\
session 1-2
channel 1 11
channel 2 21
read 1 11 0-199
read 2 21 0-199
",
        "\
count 1
> 1 0 200
unread 1 11 1-198
unread 2 21 2-197
reads A:SP
> read 1 11 0
> read 1 11 199
> read 2 21 0
> read 2 21 1
> read 2 21 198
> read 2 21 199
read 1 11 500
unread 1 11 0
unread 2 21 198
on A:SP
> true 2 0 5
> channel 1 11 A:SP reach 0 rights 3
> channel 2 21 A:SP reach 0 rights 3
> read 1 11 199
> read 2 21 0
> read 2 21 1
> read 2 21 199
> read 1 11 500
read 1 11 600-799
unread 1 11 600-798
remove channel 2 21
reads A:SP
> read 1 11 199
> read 1 11 500
> read 1 11 799
count 1
> 1 0 3
count 2
> 0 0 0
",
    );
}

// Those of either session are on channels of one ID.
#[test]
fn few_subscriptions_are_left_of_many(rt: HostRuntime) {
    tells(
        &rt,
        rt.alloc(),
        "\
session 1-2
channel 1 11
channel 2 11
sub 2 11 0-149
sub 1 11 300-449
sub 2 11 500-649
sub 1 11 0-149
",
        "\
count 1
> 1 300 0
unsub 1 301-448
unsub 2 1-148
unsub 2 501-648
unsub 1 1-148
on A:SP
> true 2 8 0
> channel 1 11 A:SP reach 0 rights 3
> channel 2 11 A:SP reach 0 rights 3
> sub 2 11 0 owed
> sub 2 11 149 owed
> sub 1 11 300 owed
> sub 1 11 449 owed
> sub 2 11 500 owed
> sub 2 11 649 owed
> sub 1 11 0 owed
> sub 1 11 149 owed
want A:SP 8
> want 5 8
put channel 1 11 0 2
want A:SP 8
> want 5 8
put channel 2 11 0 2
want A:SP 8
> none
remove channel 2 11
of 1
> channel 1 11 A:SP reach 0 rights 2
> sub 1 11 300 owed
> sub 1 11 449 owed
> sub 1 11 0 owed
> sub 1 11 149 owed
",
    );
}

#[test]
fn few_sessions_are_left_of_many(rt: HostRuntime) {
    tells(
        &rt,
        rt.alloc(),
        "\
session 0-199
channel 198 11
",
        "\
end 3-197
show
> session 0 10.0.0.5
> session 1 10.0.0.5
> session 2 10.0.0.5
> session 198 10.0.0.5
> session 199 10.0.0.5
> channel 198 11 A:SP reach 0 rights 3
find session 197
> none
session 150
session 3
put session 199 desk1
channel 3 12
end 0-2
end 150
end 198
show
> session 3 10.0.0.5
> session 199 desk1 from 10.0.0.5 fixed paused
> channel 3 12 A:SP reach 0 rights 3
session 300-399
session 2
end 3-398
show
> session 2 10.0.0.5
> session 399 10.0.0.5
find session 3
> none
",
    );
}

#[test]
fn a_read_may_be_kept_past_the_limit(rt: HostRuntime) {
    tells(
        &rt,
        rt.alloc(),
        "\
session 1
channel 1 11
read 1 11 0-255
",
        "\
read 1 11 256
> full
kept 1 11 256-257
count 1
> 1 0 258
kept 1 12 5
> not kept
kept 2 11 5
> not kept
count 1
> 1 0 258
read 1 11 258
> full
unread 1 11 0-2
read 1 11 258
read 1 11 259
> full
unread 1 11 3-255
reads A:SP
> read 1 11 256
> read 1 11 257
> read 1 11 258
kept 1 11 256
remove read 1 11 256
reads A:SP
> read 1 11 257
> read 1 11 258
> read 1 11 256
",
    );
}
