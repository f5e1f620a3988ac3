//! What is said to a name server, and heard of it.
use crate::tell::tells;

#[test]
fn a_name_server_is_greeted(rt: HostRuntime) {
    tells(
        &rt,
        rt.alloc(),
        "\
greeting: pvgate gw
> 000000000000000d0000000000000000001400080000000000000000000000007076676174650000\
001500080000000000000000000000006777000000000000
greeting: operator1 lab7.site
> 000000000000000d0000000000000000001400100000000000000000000000006f70657261746f723100000000000000\
001500100000000000000000000000006c6162372e7369746500000000000000
",
    );
}

// Two replies, of the sender and of 10.0.1.20, which is 167772436. Between them VERSION, ECHO, a reply of a server of version 7
// and one that tells no port.
#[test]
fn replies_are_heard_in_pieces(rt: HostRuntime) {
    tells(
        &rt,
        rt.alloc(),
        "\
reply: 0006000813c80000ffffffff00000011000d000000000000
> 17 sender 5064
reply: 0006000013c90000
reply: 0a00011400000012000000000000000d0000000000000000
> 18 167772436 5065
reply: 0006000013c90000ffffffff000000130006000013ca0000ffffffff00000014
> 19 sender 5065
> 20 sender 5066
drip 1 47: 0006000813c80000ffffffff00000011000d000000000000\
000000000000000d0000000000000000001700000000000000000000000000000006000813c80000ffffffff000000130007000000000000\
0006000000000000ffffffff000000140006000013c900000a00011400000012
>47 17 sender 5064; 18 167772436 5065
# What no name server sends isn't heard, and what came before is held.
reply: 0006
reply: 0007000000000000000000000000
> no name server sends this
reply: 000013c80000ffffffff00000015
> 21 sender 5064
",
    );
}

#[test]
fn a_text_waits_as_a_whole_or_not_at_all(rt: HostRuntime) {
    tells(
        &rt,
        rt.alloc(),
        "\
empty
> true
take
> nothing
put: first
put: , second
empty
> false
take
> 13 66697273742c207365636f6e64
empty
> true
# So many bytes wait at most.
put-long 131071
put: xy
> full
put: y
put: z
> full
take
> 131072 7878787878787878787878787878787878787878787878787878787878787878
put-long 131073
> full
put-long 131072
take
> 131072 7878787878787878787878787878787878787878787878787878787878787878
",
    );
}
