//! Tables of clients' rows on many variables.
use crate::client_rows::tells;

#[test]
fn names_of_any_length_are_told_apart(rt: HostRuntime) {
    tells(
        &rt,
        rt.alloc(),
        "\
session 1
named 1 T 1
named 1 TT 2
named 1 TTT 3
named 1 TTTT 4
named 1 TTTTT 5
named 1 TTTTTTT 7
named 1 TTTTTTTT 8
named 1 TTTTTTTTT 9
named 1 TTTTTTTTTTTTTTT 15
named 1 TTTTTTTTTTTTTTTT 16
named 1 TTTTTTTTTTTTTTTTT 17
named 1 SR:C01-MG:BPM12:X-I 20
named 1 SR:C02-MG:BPM12:X-I 21
named 1 SR:C01-MG:BPM13:X-I 22
named 1 SR:C01-MG:BPM12:X-J 23
named 1 BR:C01-MG:BPM12:X-I 24
named 1 SR:C01-MG:BPM12:X- 25
",
        "\
on T
> true 1 0 0
> channel 1 1 T reach 0 rights 3
on TT
> true 1 0 0
> channel 1 2 TT reach 0 rights 3
on TTT
> true 1 0 0
> channel 1 3 TTT reach 0 rights 3
on TTTT
> true 1 0 0
> channel 1 4 TTTT reach 0 rights 3
on TTTTT
> true 1 0 0
> channel 1 5 TTTTT reach 0 rights 3
on TTTTTTT
> true 1 0 0
> channel 1 7 TTTTTTT reach 0 rights 3
on TTTTTTTT
> true 1 0 0
> channel 1 8 TTTTTTTT reach 0 rights 3
on TTTTTTTTT
> true 1 0 0
> channel 1 9 TTTTTTTTT reach 0 rights 3
on TTTTTTTTTTTTTTT
> true 1 0 0
> channel 1 15 TTTTTTTTTTTTTTT reach 0 rights 3
on TTTTTTTTTTTTTTTT
> true 1 0 0
> channel 1 16 TTTTTTTTTTTTTTTT reach 0 rights 3
on TTTTTTTTTTTTTTTTT
> true 1 0 0
> channel 1 17 TTTTTTTTTTTTTTTTT reach 0 rights 3
on SR:C01-MG:BPM12:X-I
> true 1 0 0
> channel 1 20 SR:C01-MG:BPM12:X-I reach 0 rights 3
on SR:C02-MG:BPM12:X-I
> true 1 0 0
> channel 1 21 SR:C02-MG:BPM12:X-I reach 0 rights 3
on SR:C01-MG:BPM13:X-I
> true 1 0 0
> channel 1 22 SR:C01-MG:BPM13:X-I reach 0 rights 3
on SR:C01-MG:BPM12:X-J
> true 1 0 0
> channel 1 23 SR:C01-MG:BPM12:X-J reach 0 rights 3
on BR:C01-MG:BPM12:X-I
> true 1 0 0
> channel 1 24 BR:C01-MG:BPM12:X-I reach 0 rights 3
on SR:C01-MG:BPM12:X-
> true 1 0 0
> channel 1 25 SR:C01-MG:BPM12:X- reach 0 rights 3
on TTTTTT
> false 0 0 0
on TTTTTTTTTTTTTTTTTT
> false 0 0 0
on SR:C01-MG:BPM12:X
> false 0 0 0
on sr:C01-MG:BPM12:X-I
> false 0 0 0
remove channel 1 1
on T
> false 0 0 0
remove channel 1 8
on TTTTTTTT
> false 0 0 0
remove channel 1 16
on TTTTTTTTTTTTTTTT
> false 0 0 0
remove channel 1 20
on SR:C01-MG:BPM12:X-I
> false 0 0 0
remove channel 1 23
on SR:C01-MG:BPM12:X-J
> false 0 0 0
on TT
> true 1 0 0
> channel 1 2 TT reach 0 rights 3
on TTTTTTTTT
> true 1 0 0
> channel 1 9 TTTTTTTTT reach 0 rights 3
on TTTTTTTTTTTTTTTTT
> true 1 0 0
> channel 1 17 TTTTTTTTTTTTTTTTT reach 0 rights 3
on SR:C02-MG:BPM12:X-I
> true 1 0 0
> channel 1 21 SR:C02-MG:BPM12:X-I reach 0 rights 3
on SR:C01-MG:BPM12:X-
> true 1 0 0
> channel 1 25 SR:C01-MG:BPM12:X- reach 0 rights 3
named 1 TTTTTTTT 30
any TTTTTTTT TTTTTTT
> channel 1 7 TTTTTTT reach 0 rights 3
> channel 1 30 TTTTTTTT reach 0 rights 3
",
    );
}

#[test]
fn few_variables_are_left_of_many(rt: HostRuntime) {
    tells(
        &rt,
        rt.alloc(),
        "\
session 1-2
named 1 SR:C*-MG:BPM:X-I 100-499
",
        "\
count 1
> 400 0 0
on SR:C100-MG:BPM:X-I
> true 1 0 0
> channel 1 100 SR:C100-MG:BPM:X-I reach 0 rights 3
on SR:C499-MG:BPM:X-I
> true 1 0 0
> channel 1 499 SR:C499-MG:BPM:X-I reach 0 rights 3
sub 1 250 1
read 1 300 7
leave 1 101-249
leave 1 251-299
leave 1 301-498
count 1
> 4 1 1
on SR:C101-MG:BPM:X-I
> false 0 0 0
on SR:C498-MG:BPM:X-I
> false 0 0 0
on SR:C250-MG:BPM:X-I
> true 1 1 0
> channel 1 250 SR:C250-MG:BPM:X-I reach 0 rights 3
> sub 1 250 1 owed
on SR:C300-MG:BPM:X-I
> true 1 0 1
> channel 1 300 SR:C300-MG:BPM:X-I reach 0 rights 3
> read 1 300 7
want SR:C250-MG:BPM:X-I 8
> want 5 8
want SR:C300-MG:BPM:X-I 8
> none
named 2 SR:C*-MG:BPM:X-I 101-160
on SR:C101-MG:BPM:X-I
> true 1 0 0
> channel 2 101 SR:C101-MG:BPM:X-I reach 0 rights 3
named 2 SR:C300-MG:BPM:X-I 700
any SR:C300-MG:BPM:X-I SR:C160-MG:BPM:X-I
> channel 1 300 SR:C300-MG:BPM:X-I reach 0 rights 3
> channel 2 160 SR:C160-MG:BPM:X-I reach 0 rights 3
> channel 2 700 SR:C300-MG:BPM:X-I reach 0 rights 3
end 1
on SR:C250-MG:BPM:X-I
> false 0 0 0
on SR:C300-MG:BPM:X-I
> true 1 0 0
> channel 2 700 SR:C300-MG:BPM:X-I reach 0 rights 3
leave 2 101-160
leave 2 700
on SR:C160-MG:BPM:X-I
> false 0 0 0
on SR:C300-MG:BPM:X-I
> false 0 0 0
show
> session 2 10.0.0.5
",
    );
}
