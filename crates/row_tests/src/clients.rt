//! Tables of clients' rows that are filled and emptied.
use crate::client_rows::tells;

// Sessions 1 and 2, of which 1 has channels 11 and 12 and 2 has channel 21, each with a subscription
// and a read.
const TWO_CLIENTS: &str = "\
session 1-2
channel 1 11-12
channel 2 21
sub 1 11 5
sub 1 12 6
sub 2 21 5
read 1 11 11
read 1 12 12
read 2 21 21
";

#[test]
fn a_row_that_is_added_is_found(rt: HostRuntime) {
    tells(
        &rt,
        rt.alloc(),
        TWO_CLIENTS,
        "\
find session 2
> session 2 10.0.0.5
find session 3
> none
find channel 1 12
> channel 1 12 A:SP reach 0 rights 3
find channel 2 12
> none
find sub 2 5
> sub 2 21 5 owed
find sub 2 6
> none
count 1
> 2 2 2
count 2
> 1 1 1
count 3
> 0 0 0
show
> session 1 10.0.0.5
> session 2 10.0.0.5
> channel 1 11 A:SP reach 0 rights 3
> channel 1 12 A:SP reach 0 rights 3
> channel 2 21 A:SP reach 0 rights 3
> sub 1 11 5 owed
> sub 1 12 6 owed
> sub 2 21 5 owed
> read 1 11 11
> read 1 12 12
> read 2 21 21
",
    );
}

// Each look counts, also one that finds nothing, and a list of rows as many times as it has rows. Adding
// looks at sessions, channels and subscriptions for whether they stand.
#[test]
fn each_look_at_a_row_is_counted(rt: HostRuntime) {
    tells(
        &rt,
        rt.alloc(),
        TWO_CLIENTS,
        "\
visits
> 8
find session 2
> session 2 10.0.0.5
find sub 2 6
> none
visits
> 10
put session 2 10.0.0.6
put channel 2 21 3 1
put sub 9 9
visits
> 13
remove sub 2 5
count 2
> 1 0 1
visits
> 13
of 2
> channel 2 21 A:SP reach 3 rights 1
visits
> 16
on A:SP
> true 3 2 3
> channel 1 11 A:SP reach 0 rights 3
> channel 1 12 A:SP reach 0 rights 3
> channel 2 21 A:SP reach 3 rights 1
> sub 1 11 5 owed
> sub 1 12 6 owed
> read 1 11 11
> read 1 12 12
> read 2 21 21
visits
> 26
show
> session 1 10.0.0.5
> session 2 10.0.0.6 from 10.0.0.5 fixed paused
> channel 1 11 A:SP reach 0 rights 3
> channel 1 12 A:SP reach 0 rights 3
> channel 2 21 A:SP reach 3 rights 1
> sub 1 11 5 owed
> sub 1 12 6 owed
> read 1 11 11
> read 1 12 12
> read 2 21 21
visits
> 44
",
    );
}

#[test]
fn channels_on_several_variables_come_in_the_order_of_adding(rt: HostRuntime) {
    tells(
        &rt,
        rt.alloc(),
        TWO_CLIENTS,
        "\
channel 1 50
channel 2 22
visits
> 10
any B:SP A:SP
> channel 1 11 A:SP reach 0 rights 3
> channel 1 12 A:SP reach 0 rights 3
> channel 2 21 A:SP reach 0 rights 3
> channel 1 50 B:SP reach 0 rights 3
> channel 2 22 A:SP reach 0 rights 3
visits
> 15
remove channel 1 11
any A:SP A:SP
> channel 1 12 A:SP reach 0 rights 3
> channel 2 21 A:SP reach 0 rights 3
> channel 2 22 A:SP reach 0 rights 3
visits
> 21
any C:SP B:SP
> channel 1 50 B:SP reach 0 rights 3
any C:SP D:SP
",
    );
}

#[test]
fn a_row_that_is_put_is_changed(rt: HostRuntime) {
    tells(
        &rt,
        rt.alloc(),
        TWO_CLIENTS,
        "\
put session 2 desk1
put session 3 desk2
put user 1 anna
put user 2 ben
put user 2 carl
put user 3 dora
put channel 1 12 20 1
put channel 2 12 30 1
put sub 1 5
put sub 2 6
show
> session 1 10.0.0.5 user anna
> session 2 desk1 user carl from 10.0.0.5 fixed paused
> channel 1 11 A:SP reach 0 rights 3
> channel 1 12 A:SP reach 20 rights 1
> channel 2 21 A:SP reach 0 rights 3
> sub 1 11 5
> sub 1 12 6 owed
> sub 2 21 5 owed
> read 1 11 11
> read 1 12 12
> read 2 21 21
",
    );
}

#[test]
fn a_subscription_leaves_its_session_alone(rt: HostRuntime) {
    tells(
        &rt,
        rt.alloc(),
        TWO_CLIENTS,
        "\
remove sub 1 5
remove sub 2 6
find sub 2 5
> sub 2 21 5 owed
count 1
> 2 1 2
count 2
> 1 1 1
",
    );
}

#[test]
fn a_session_leaves_with_all_its_rows(rt: HostRuntime) {
    tells(
        &rt,
        rt.alloc(),
        TWO_CLIENTS,
        "\
remove session 1
show
> session 2 10.0.0.5
> channel 2 21 A:SP reach 0 rights 3
> sub 2 21 5 owed
> read 2 21 21
",
    );
}

#[test]
fn sessions_are_found_by_rising_number(rt: HostRuntime) {
    tells(
        &rt,
        rt.alloc(),
        "",
        "\
session 9
session 3
session 1023
show
> session 3 10.0.0.5
> session 9 10.0.0.5
> session 1023 10.0.0.5
remove session 3
session 1
show
> session 1 10.0.0.5
> session 9 10.0.0.5
> session 1023 10.0.0.5",
    );
}

#[test]
fn a_channel_leaves_with_its_subscriptions_and_reads(rt: HostRuntime) {
    tells(
        &rt,
        rt.alloc(),
        TWO_CLIENTS,
        "\
remove channel 1 11
show
> session 1 10.0.0.5
> session 2 10.0.0.5
> channel 1 12 A:SP reach 0 rights 3
> channel 2 21 A:SP reach 0 rights 3
> sub 1 12 6 owed
> sub 2 21 5 owed
> read 1 12 12
> read 2 21 21
",
    );
}

#[test]
fn channels_of_several_sessions_may_have_the_same_id(rt: HostRuntime) {
    tells(
        &rt,
        rt.alloc(),
        "\
session 1-3
channel 3 11
channel 1 11-12
channel 2 11
sub 1 12 1
sub 2 11 1
sub 3 11 1
sub 1 11 2
sub 2 11 2
sub 1 11 3
read 2 11 7
read 1 11 7
read 1 12 7
read 3 11 7
read 1 11 8
",
        "\
remove sub 1 2
remove read 1 11 7
remove channel 2 11
show
> session 1 10.0.0.5
> session 2 10.0.0.5
> session 3 10.0.0.5
> channel 3 11 A:SP reach 0 rights 3
> channel 1 11 A:SP reach 0 rights 3
> channel 1 12 A:SP reach 0 rights 3
> sub 1 12 1 owed
> sub 3 11 1 owed
> sub 1 11 3 owed
> read 1 12 7
> read 3 11 7
> read 1 11 8
channel 2 11
sub 2 11 3
remove channel 1 11
remove channel 1 12
remove channel 3 11
on A:SP
> true 1 1 0
> channel 2 11 A:SP reach 0 rights 3
> sub 2 11 3 owed
remove session 2
on A:SP
> false 0 0 0
",
    );
}

#[test]
fn the_first_of_equal_reads_leaves(rt: HostRuntime) {
    tells(
        &rt,
        rt.alloc(),
        "session 1\nchannel 1 11",
        "\
read 1 11 11-12
read 1 11 11
remove read 1 11 11
remove read 1 11 99
show
> session 1 10.0.0.5
> channel 1 11 A:SP reach 0 rights 3
> read 1 11 12
> read 1 11 11
",
    );
}

#[test]
fn equal_reads_stand_together(rt: HostRuntime) {
    tells(
        &rt,
        rt.alloc(),
        "session 1-2\nchannel 1 11\nchannel 2 21\nchannel 2 60",
        "\
read 1 11 5
read 2 21 5
read 1 11 5
read 2 60 5
read 1 11 5
on A:SP
> true 2 0 4
> channel 1 11 A:SP reach 0 rights 3
> channel 2 21 A:SP reach 0 rights 3
> read 1 11 5
> read 2 21 5
> read 1 11 5
> read 1 11 5
remove read 1 11 5
read 1 11 5
remove read 1 11 5
count 1
> 1 0 2
on A:SP
> true 2 0 3
> channel 1 11 A:SP reach 0 rights 3
> channel 2 21 A:SP reach 0 rights 3
> read 2 21 5
> read 1 11 5
> read 1 11 5
remove channel 1 11
count 1
> 0 0 0
show
> session 1 10.0.0.5
> session 2 10.0.0.5
> channel 2 21 A:SP reach 0 rights 3
> channel 2 60 B:SP reach 0 rights 3
> read 2 21 5
> read 2 60 5
",
    );
}

#[test]
fn a_row_without_its_session_or_channel_is_refused(rt: HostRuntime) {
    tells(
        &rt,
        rt.alloc(),
        TWO_CLIENTS,
        "\
channel 3 31
> missing
sub 2 11 1
> missing
read 2 11 1
> missing
",
    );
}

#[test]
fn rows_are_found_by_the_variable_that_they_are_on(rt: HostRuntime) {
    tells(
        &rt,
        rt.alloc(),
        TWO_CLIENTS,
        "\
channel 2 51
sub 2 51 7-8
read 2 51 71
sub 1 12 9
on B:SP
> true 1 2 1
> channel 2 51 B:SP reach 0 rights 3
> sub 2 51 7 owed
> sub 2 51 8 owed
> read 2 51 71
reads A:SP
> read 1 11 11
> read 1 12 12
> read 2 21 21
on C:SP
> false 0 0 0
remove channel 2 51
on B:SP
> false 0 0 0
remove sub 1 6
remove channel 1 11
on A:SP
> true 2 2 2
> channel 1 12 A:SP reach 0 rights 3
> channel 2 21 A:SP reach 0 rights 3
> sub 2 21 5 owed
> sub 1 12 9 owed
> read 1 12 12
> read 2 21 21
of 1
> channel 1 12 A:SP reach 0 rights 3
> sub 1 12 9 owed
remove session 1
on A:SP
> true 1 1 1
> channel 2 21 A:SP reach 0 rights 3
> sub 2 21 5 owed
> read 2 21 21
",
    );
}

#[test]
fn rows_stay_in_their_order_while_others_come_and_go(rt: HostRuntime) {
    tells(
        &rt,
        rt.alloc(),
        "session 1-2\nchannel 1 200-299\nchannel 2 20\nchannel 2 60\nsub 2 60 3\nsub 2 20 4",
        "\
remove session 1
session 1
channel 1 300-399
remove session 1
session 1
channel 1 10
channel 2 61
sub 1 10 1
show
> session 1 10.0.0.5
> session 2 10.0.0.5
> channel 2 20 A:SP reach 0 rights 3
> channel 2 60 B:SP reach 0 rights 3
> channel 1 10 A:SP reach 0 rights 3
> channel 2 61 B:SP reach 0 rights 3
> sub 2 60 3 owed
> sub 2 20 4 owed
> sub 1 10 1 owed
on B:SP
> true 2 1 0
> channel 2 60 B:SP reach 0 rights 3
> channel 2 61 B:SP reach 0 rights 3
> sub 2 60 3 owed
of 2
> channel 2 20 A:SP reach 0 rights 3
> channel 2 60 B:SP reach 0 rights 3
> channel 2 61 B:SP reach 0 rights 3
> sub 2 60 3 owed
> sub 2 20 4 owed
find channel 1 250
> none
find channel 1 10
> channel 1 10 A:SP reach 0 rights 3
",
    );
}

/// The example at the head of the crate.
#[test]
fn a_read_names_a_channel(rt: HostRuntime) {
    tells(&rt, rt.alloc(), "session 1", "read 1 11 9\n> missing");
}
