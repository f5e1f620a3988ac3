//! Numbers that come again: a gateway that has one number of each kind, and gives it out once nothing has it.
use crate::scripts::used_up::{ends, fails};

/// A client writes twice. The first write is answered, and its number is given out again.
const TWO_WRITES: &str = "limit reuses-numbers 1
found T1 u1
> u1 0012000800000000fffffffe0000000d5431000000000000
server u1 0016000000000000fffffffe00000003
server u1 0012000000050001fffffffe00000065
client s1 0012000800000000000000070000000d5431000000000000
> s1 00160000000000000000000700000003
> s1 001200000005000100000007fffffffe
client s1 0013000800050001fffffffe000000430000000700000000
> u1 001300080005000100000065fffffffe0000000700000000
server u1 001300000005000100000001fffffffe
> s1 00130000000500010000000100000043
client s1 0013000800050001fffffffe000000440000000800000000
> u1 001300080005000100000065fffffffe0000000800000000
server u1 001300000005000100000001fffffffe
> s1 00130000000500010000000100000044
";

/// A write that waits keeps its number, and there is no other.
const WRITE_WAITS: &str = "limit reuses-numbers 1
found T1 u1
> u1 0012000800000000fffffffe0000000d5431000000000000
server u1 0016000000000000fffffffe00000003
server u1 0012000000050001fffffffe00000065
client s1 0012000800000000000000070000000d5431000000000000
> s1 00160000000000000000000700000003
> s1 001200000005000100000007fffffffe
client s1 0013000800050001fffffffe000000430000000700000000
> u1 001300080005000100000065fffffffe0000000700000000
client s1 0013000800050001fffffffe000000440000000800000000
> failed
asks
lost s1
";

/// A channel that was cleared leaves its number to the next. Another session has numbers of its own.
const CHANNELS: &str = "limit reuses-numbers 1
open s2 10.0.0.6
> s2 000000000000000d0000000000000000
found T1 u1
> u1 0012000800000000fffffffe0000000d5431000000000000
server u1 0012000000050014fffffffe00000065
client s1 0012000800000000000000070000000d5431000000000000
> s1 00160000000000000000000700000000
> s1 001200000005001400000007fffffffe
client s2 0012000800000000000000070000000d5431000000000000
> s2 00160000000000000000000700000000
> s2 001200000005001400000007fffffffe
client s1 000c000000000000fffffffe00000007
> s1 000c000000000000fffffffe00000007
client s1 0012000800000000000000080000000d5431000000000000
> s1 00160000000000000000000800000000
> s1 001200000005001400000008fffffffe
";

/// A session can't have two channels under its only number.
const TWO_CHANNELS: &str = "limit reuses-numbers 1
found T1 u1
> u1 0012000800000000fffffffe0000000d5431000000000000
server u1 0012000000050014fffffffe00000065
client s1 0012000800000000000000070000000d5431000000000000
> s1 00160000000000000000000700000000
> s1 001200000005001400000007fffffffe
client s1 0012000800000000000000070000000d5431000000000000
> failed
asks
lost s1
";

/// It reads three elements and then ten, for which the gateway subscribes anew: the subscription that it gives up
/// for that leaves its number.
const TWO_SUBSCRIPTIONS: &str = "limit reuses-numbers 1
found T1 u1
> u1 0012000800000000fffffffe0000000d5431000000000000
server u1 0012000000050014fffffffe00000065
server u1 0016000000000000fffffffe00000001
client s1 0012000800000000000000070000000d5431000000000000
> s1 00160000000000000000000700000001
> s1 001200000005001400000007fffffffe
client s1 000f000000050003fffffffe00000021
> u1 000100100013000300000065fffffffe00000000000000000000000000050000
client s1 000f00000005000afffffffe00000022
> u1 000200000013000300000065fffffffe
> u1 000100100013000a00000065fffffffe00000000000000000000000000050000
";

/// The server answers for a link that goes, and another name is linked under its number.
const TWO_LINKS: &str = "limit reuses-numbers 1
client s1 0012000800000000000000080000000d5432000000000000
> s1 001a0000000000000000000800000000
found T1 u1
> u1 0012000800000000fffffffe0000000d5431000000000000
server u1 001a000000000000fffffffe00000000
found T2 u1
> u1 0012000800000000fffffffe0000000d5432000000000000
";

/// A number that comes again was given out: requests on it are passed over where that is wanted.
const ONE_GONE: &str = "limit passes-over-gone 1
limit reuses-numbers 1
open s2 10.0.0.6
> s2 000000000000000d0000000000000000
found T1 u1
> u1 0012000800000000fffffffe0000000d5431000000000000
server u1 0016000000000000fffffffe00000003
server u1 0012000000050001fffffffe00000065
client s1 0012000800000000000000070000000d5431000000000000
> s1 00160000000000000000000700000003
> s1 001200000005000100000007fffffffe
client s2 0012000800000000000000070000000d5431000000000000
> s2 00160000000000000000000700000003
> s2 001200000005000100000007fffffffe
client s1 000c000000000000fffffffe00000007
> s1 000c000000000000fffffffe00000007
client s1 000f000000050001fffffffe00000021
client s1 000f000000050001fffffffd00000021
> s1 000b002000000000ffffffff0000019a000f000000050001fffffffd00000021756e6b6e6f776e206368616e6e656c00
";

#[test]
fn gives_out_the_number_of_a_write_that_ended(rt: HostRuntime) {
    ends(&rt, rt.alloc(), TWO_WRITES, 0);
}

#[test]
fn gives_out_no_number_of_a_write_that_waits(rt: HostRuntime) {
    fails(&rt, rt.alloc(), WRITE_WAITS);
}

#[test]
fn gives_out_the_number_of_a_channel_that_was_cleared(rt: HostRuntime) {
    ends(&rt, rt.alloc(), CHANNELS, 0);
}

#[test]
fn gives_out_no_number_of_a_channel_that_stands(rt: HostRuntime) {
    fails(&rt, rt.alloc(), TWO_CHANNELS);
}

#[test]
fn gives_out_the_number_of_a_subscription_that_it_gave_up(rt: HostRuntime) {
    ends(&rt, rt.alloc(), TWO_SUBSCRIPTIONS, 0);
}

#[test]
fn gives_out_the_number_of_a_link_that_is_gone(rt: HostRuntime) {
    ends(&rt, rt.alloc(), TWO_LINKS, 0);
}

#[test]
fn knows_that_a_number_came_again(rt: HostRuntime) {
    ends(&rt, rt.alloc(), ONE_GONE, 0);
}
