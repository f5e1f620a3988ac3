//! The names that servers were asked for, and those that two servers answered.
use crate::tell::tells;

#[test]
fn a_name_is_found_by_the_cid_of_its_ask(rt: HostRuntime) {
    tells(
        &rt,
        rt.alloc(),
        "\
find 1
> none
ask: T1
> 1
ask: T2
> 2
ask: T1
> 3
find 1
> T1
find 2
> T2
find 3
> T1
find 4
> none
find 0
> none
answer 2 5
> None
answer 2 6
> Some(5)
answer 2 5
> None
answer 4 5
> None
# After the last CID the first follows.
begin 4294967295
ask: T1
> 4294967295
ask: T2
> 1
find 4294967295
> T1
find 1
> T2
begin 0
ask: T3
> 1
",
    );
}

#[test]
fn of_many_asks_the_oldest_go(rt: HostRuntime) {
    tells(
        &rt,
        rt.alloc(),
        "\
ask-many 1 65536
> 65536
find 1
> N1
ask-many 65537 65540
> 65540
find 4
> none
find 5
> N5
find 65540
> N65540
answer 4 7
> None
answer 5 7
> None
answer 5 8
> Some(7)
",
    );
}

#[test]
fn a_clash_is_told_once(rt: HostRuntime) {
    tells(
        &rt,
        rt.alloc(),
        "\
clash 5: T1
> true
clash 5: T2
> true
clash 5: T1
> false
clash 6: T1
> false
# In an hour 64 are told of.
clash-many 5 1 64
> 64
clash 5: T1
> false
clash 6: N64
> false
clash 6: T1
> true
# Of 4096 it is known that they were told of.
clash 4: T1
> true
clash-many 5 1 4095
> 4095
clash 100: T1
> false
clash 100: T2
> true
clash 100: N1
> false
clash 100: T1
> true
clash 100: N1
> true
",
    );
}
