//! What the readers of a variable want and need of it together, as rows come, go and change.
use crate::client_rows::tells;

/// What readers want goes by the rights that their clients were last told.
#[test]
fn what_is_wanted_follows_the_rows(rt: HostRuntime) {
    tells(
        &rt,
        rt.alloc(),
        "\
session 1
channel 1 11
channel 1 12
",
        "\
want A:SP 8
> none
sub 1 11 1
sub 1 12 2
want A:SP 8
> want 5 8
put channel 1 12 20 3
want A:SP 8
> want 5 20
put channel 1 12 20 2
want A:SP 8
> want 5 8
put channel 1 11 0 2
want A:SP 8
> none
put channel 1 11 0 1
put channel 1 12 20 1
want A:SP 8
> want 5 20
remove channel 1 12
want A:SP 8
> want 5 8
want B:SP 8
> none
remove sub 1 1
want A:SP 8
> none
visits
> 10
want A:SP 8
> none
visits
> 10
",
    );
}

/// Of channels on one variable, and of such as have the same ID, each has rights of its own.
#[test]
fn what_is_wanted_follows_the_rights_of_each_channel(rt: HostRuntime) {
    tells(
        &rt,
        rt.alloc(),
        "\
session 1-2
channel 1 11-12
channel 2 11
typed 1 11 1 20 7
sub 1 12 2
sub 2 11 1
",
        "\
want A:SP 8
> want 7 8
put channel 2 11 0 2
want A:SP 8
> want 7 8
put channel 1 11 0 2
want A:SP 8
> want 5 8
put channel 2 11 0 3
put channel 1 12 0 2
want A:SP 8
> want 5 8
put channel 2 11 0 0
want A:SP 8
> none
put channel 1 11 0 1
remove channel 2 11
want A:SP 8
> want 7 8
remove channel 1 11
want A:SP 8
> none
put channel 1 12 0 3
want A:SP 8
> want 5 8
",
    );
}

/// A type that has properties needs them, one of texts where the elements are states, and so does who
/// asks for what comes with a change of them: as long as the client was last told that it may read.
#[test]
fn who_needs_properties_follows_the_rows(rt: HostRuntime) {
    tells(
        &rt,
        rt.alloc(),
        "\
session 1
channel 1 11-12
channel 1 60
",
        "\
props A:SP states
> false
typed 1 11 1 20 7
props A:SP states
> false
typed 1 11 2 34 5
props A:SP
> true
props B:SP
> false
remove sub 1 2
props A:SP
> false
typed 1 12 3 7 5
props A:SP
> false
props A:SP states
> true
typed 1 11 4 20 8
props A:SP
> true
put channel 1 11 0 2
props A:SP
> false
props A:SP states
> true
put channel 1 11 0 1
props A:SP
> true
remove channel 1 11
props A:SP
> false
remove sub 1 3
props A:SP states
> false
visits
> 10
",
    );
}

/// A channel needs properties once an accepted read on it did.
#[test]
fn a_channel_whose_read_needs_properties_needs_them(rt: HostRuntime) {
    tells(
        &rt,
        rt.alloc(),
        "session 1\nchannel 1 11",
        "\
put channel 1 11 3 3
props A:SP states
> false
put channel 1 11 3 3 props
props A:SP
> true
find channel 1 11
> channel 1 11 A:SP reach 3 with props rights 3
put channel 1 11 3 2 props
props A:SP
> false
put channel 1 11 3 1 props
props A:SP
> true
want A:SP 8
> want 5 3
remove session 1
props A:SP
> false
",
    );
}
