//! Which names are asked for first, where hosts look for many.
use crate::tell::tells;
use std::test::Fail;

#[test]
fn a_host_has_four_parts_heard_in_a_look(rt: HostRuntime) -> Result<(), Fail> {
    tells(
        &rt,
        rt.alloc(),
        "\
at-once 0 1
> true
at-once 0 1
> true
at-once 0 1
> true
at-once 0 2
> true
at-once 0 1
> true
at-once 0 1
> false
at-once 0 2
> true
at-once 1 1
> true
at-once 1 2
> true
# Eight are heard of all hosts together.
at-once 3 1
> true
at-once 3 1
> true
at-once 3 1
> true
at-once 3 2
> true
at-once 3 2
> true
at-once 3 2
> true
at-once 3 3
> true
at-once 3 4
> true
at-once 3 1
> false
at-once 3 5
> false
at-once 4 5
> true
# Another look need not be the next one, and need not be later.
at-once 7 1
> true
at-once 7 1
> true
at-once 7 1
> true
at-once 7 1
> true
at-once 7 1
> false
at-once 7 1
> false
at-once 6 1
> true
at-once 7 1
> true
",
    )
}

// a, b, c, d, e, f, g and z are 61 to 67, and 7a.
#[test]
fn hosts_take_turns(rt: HostRuntime) -> Result<(), Fail> {
    tells(
        &rt,
        rt.alloc(),
        "\
waits 1
> false
come 1: 61
> 1
come 1: 62
> 2
come 1: 63
> 3
# A host that comes later waits for one name of each other, or for two where a lap is half over.
come 1: 61
> 1
come 1: 62
> 2
come 1: 63
> 3
come 2: 7a
> 4
waits 2
> true
welcome 2
> welcome a z
waits 2
> false
waits 1
> true
welcome 9
> welcome b c
welcome 9
> welcome
# After the last one was taken, laps go on from there.
come 1: 61
> 1
come 1: 62
> 2
welcome 2
> welcome a b
come 2: 63
> 1
come 1: 64
> 2
come 2: 65
> 3
come 1: 66
> 4
welcome 9
> welcome c d e f
# A lap that has begun is not begun anew.
come 1: 61
> 1
come 2: 62
> 2
come 1: 63
> 3
welcome 1
> welcome a
come 3: 7a
> 3
welcome 3
> welcome b c z
",
    )
}

#[test]
fn the_last_name_goes(rt: HostRuntime) -> Result<(), Fail> {
    tells(
        &rt,
        rt.alloc(),
        "\
come 1: 61
> 1
come 1: 62
> 2
come 1: 63
> 3
come 1: 64
> 4
come 1: 65
> 5
come 1: 66
> 6
come 1: 67
> 6
come 2: 7a
> 6
welcome 9
> welcome a z b c d e
# What went is forgotten of its host.
come 1: 61
> 1
come 2: 62
> 2
come 3: 63
> 3
come 4: 64
> 4
come 5: 65
> 5
come 6: 66
> 6
come 7: 67
> 6
waits 7
> false
waits 6
> true
welcome 0
> welcome
welcome 3
> welcome a b c
come 7: 67
> 4
welcome 9
> welcome d e f g
",
    )
}

// Drawn calls, and what model/newcomers.py works out for them.
#[test]
fn drawn_names_take_turns(rt: HostRuntime) -> Result<(), Fail> {
    tells(
        &rt,
        rt.alloc(),
        "\
come 1: 6130
> 1
come 2: 6231
> 2
come 1: 6132
> 3
waits 1
> true
welcome 3
> welcome a0 b1 a2
welcome 0
> welcome
come 1: 6135
> 1
come 1: 6136
> 2
waits 1
> true
come 1: 6137
> 3
come 1: 6138
> 4
welcome 1
> welcome a5
welcome 1
> welcome a6
come 2: 623131
> 3
welcome 3
> welcome a7 b11 a8
come 1: 613133
> 1
welcome 2
> welcome a13
come 3: 633135
> 1
come 1: 613136
> 2
come 2: 623137
> 3
come 3: 633138
> 4
come 2: 623139
> 5
come 3: 633230
> 6
welcome 2
> welcome c15 a16
waits 3
> true
come 1: 613232
> 5
come 2: 623233
> 6
come 1: 613234
> 6
welcome 3
> welcome b17 c18 b19
come 1: 613236
> 4
welcome 1
> welcome a22
come 3: 633238
> 4
welcome 0
> welcome
welcome 1
> welcome c20
come 2: 623331
> 4
come 1: 613332
> 5
come 3: 633333
> 6
welcome 3
> welcome b23 a26 c28
come 3: 633335
> 4
come 3: 633336
> 5
waits 1
> true
come 3: 633337
> 6
welcome 2
> welcome b31 a32
waits 3
> true
come 1: 613339
> 5
welcome 2
> welcome c33 a39
come 3: 633431
> 4
come 1: 613432
> 5
come 1: 613433
> 6
come 1: 613434
> 6
come 2: 623435
> 6
come 1: 613436
> 6
come 1: 613437
> 6
welcome 1
> welcome c35
come 1: 613439
> 6
come 1: 613530
> 6
come 3: 633531
> 6
come 1: 613532
> 6
come 3: 633533
> 6
come 1: 613534
> 6
come 1: 613535
> 6
come 1: 613536
> 6
come 1: 613537
> 6
welcome 2
> welcome a42 b45
come 1: 613539
> 5
",
    )
}
