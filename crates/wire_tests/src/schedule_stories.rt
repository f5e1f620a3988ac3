//! Which names are asked for, and when.
use crate::tell::tells;
use std::test::Fail;

// T1 is 5431; a, b, c and d are 61 to 64.
#[test]
fn gaps_double(rt: HostRuntime) -> Result<(), Fail> {
    tells(
        &rt,
        rt.alloc(),
        "\
plan: 5431
> New 1
look 100 4
> asks T1
look 100 4
> asks
look 101 4
> asks T1
look 102 4
> asks
look 103 4
> asks T1
look 106 4
> asks
look 107 4
> asks T1
look 115 4
> asks T1
look 130 4
> asks
look 131 4
> asks T1
# A look that comes late asks all the same, and counts from there.
plan: 5431
> New 1
look 100 4
> asks T1
look 500 4
> asks T1
look 501 4
> asks
look 502 4
> asks T1
",
    )
}

#[test]
fn so_many_are_asked_for_at_a_look(rt: HostRuntime) -> Result<(), Fail> {
    tells(
        &rt,
        rt.alloc(),
        "\
plan: 61
> New 1
plan: 62
> New 2
plan: 63
> New 3
plan: 64
> Full 3
plan: 61
> Known 3
look 100 2
> asks a b
look 101 2
> asks c a
look 102 2
> asks b c
look 102 0
> asks
look 103 9
> asks a
# A new name goes before those that wait.
plan: 61
> New 1
look 100 1
> asks a
plan: 62
> New 2
look 105 1
> asks b
look 105 1
> asks a
",
    )
}

#[test]
fn names_go_and_are_hurried(rt: HostRuntime) -> Result<(), Fail> {
    tells(
        &rt,
        rt.alloc(),
        "\
plan: 61
> New 1
plan: 62
> New 2
look 100 9
> asks a b
unplan: 61
> 1
unplan: 61
> 1
look 200 9
> asks b
plan: 61
> New 2
look 201 9
> asks a
# After six tries a is due 32 looks on. Hurried to two tries, it is due four looks on.
plan: 61
> New 1
look 0 1
> asks a
look 1 1
> asks a
look 3 1
> asks a
look 7 1
> asks a
look 15 1
> asks a
look 31 1
> asks a
sooner 40 2
> 1
look 43 1
> asks
look 44 1
> asks a
look 47 1
> asks
look 48 1
> asks a
",
    )
}
