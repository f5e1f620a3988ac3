//! Tables of clients' rows with many on one variable.
use crate::client_rows::tells;

// Session 3 has rows far apart among those of session 1.
#[test]
fn few_rows_are_left_of_many_on_a_variable(rt: HostRuntime) {
    tells(
        &rt,
        rt.alloc(),
        "\
session 1-3
channel 3 31
channel 1 100-399
channel 3 32
channel 1 400-899
channel 3 33
channel 2 21
sub 3 31 1
sub 1 100 0-299
sub 3 33 2
sub 1 101 300-799
sub 3 32 3
read 1 100 0-99
read 3 31 1
read 1 101 100-254
",
        "\
count 1
> 800 800 255
remove channel 1 100
count 1
> 799 500 155
sub 1 899 0-19
remove channel 1 101
count 1
> 798 20 0
remove channel 2 21
remove session 1
on A:SP
> true 3 3 1
> channel 3 31 A:SP reach 0 rights 3
> channel 3 32 A:SP reach 0 rights 3
> channel 3 33 A:SP reach 0 rights 3
> sub 3 31 1 owed
> sub 3 33 2 owed
> sub 3 32 3 owed
> read 3 31 1
channel 2 22
sub 2 22 9
remove session 3
on A:SP
> true 1 1 0
> channel 2 22 A:SP reach 0 rights 3
> sub 2 22 9 owed
remove channel 2 22
on A:SP
> false 0 0 0
",
    );
}

// Rows in many pieces of a list: whole pieces go, and then most of each that is left.
#[test]
fn rows_go_from_all_places_among_thousands_on_a_variable(rt: HostRuntime) {
    tells(
        &rt,
        rt.alloc(),
        "\
session 1-2
channel 2 21
channel 1 100-1299
channel 2 22
channel 1 1300-2599
channel 2 23
",
        "\
count 1
> 2500 0 0
leave 1 600-1199
count 1
> 1900 0 0
leave 1 101-599
leave 1 1201-1298
leave 1 1301-2598
on A:SP
> true 8 0 0
> channel 2 21 A:SP reach 0 rights 3
> channel 1 100 A:SP reach 0 rights 3
> channel 1 1200 A:SP reach 0 rights 3
> channel 1 1299 A:SP reach 0 rights 3
> channel 2 22 A:SP reach 0 rights 3
> channel 1 1300 A:SP reach 0 rights 3
> channel 1 2599 A:SP reach 0 rights 3
> channel 2 23 A:SP reach 0 rights 3
channel 1 700
leave 1 100
leave 1 2599
on A:SP
> true 7 0 0
> channel 2 21 A:SP reach 0 rights 3
> channel 1 1200 A:SP reach 0 rights 3
> channel 1 1299 A:SP reach 0 rights 3
> channel 2 22 A:SP reach 0 rights 3
> channel 1 1300 A:SP reach 0 rights 3
> channel 2 23 A:SP reach 0 rights 3
> channel 1 700 A:SP reach 0 rights 3
",
    );
}
