//! Numbers that are used up or gone, and reads that are counted.
use crate::scripts::engine::last_numbers;
use replay::counted::Counted;
use replay::play;
use std::alloc::Global;
use std::io::Read;
use std::process::Abort;

#[test]
fn a_counted_reader_fails_after_its_last_read(rt: HostRuntime) {
    let mut reader = Counted::new(b"abc".as_slice(), 2);
    let mut buf = [0; 1];
    for place in 0..4 {
        let read = reader.read(&mut buf).ok();
        assert_eq!(rt; read, if place < 2 { Some(1) } else { None });
    }
}

/// A client and a server of version 13 connect, and the client wants a channel on T1. Lines that are
/// printed stand behind `> `.
const WANTED: &str = "open s1 10.0.0.5
> s1 000000000000000d0000000000000000
open u1
> u1 000000000000000d0000000000000000
> u1 001400080000000000000000000000007076676174650000
> u1 001500080000000000000000000000006777000000000000
server u1 000000000000000d0000000000000000
client s1 0012000800000000000000070000000d5431000000000000
> s1 001a0000000000000000000700000000
";

/// It wants one on T2 too, and the server has both.
const TWO_LINKS: &str = "client s1 0012000800000000000000080000000d5432000000000000
> s1 001a0000000000000000000800000000
found T1 u1
> u1 0012000800000000fffffffe0000000d5431000000000000
found T2 u1
> failed
asks
lost s1
";

/// It wants two channels.
const TWO_CHANNELS: &str = "found T1 u1
> u1 0012000800000000fffffffe0000000d5431000000000000
server u1 0012000000050014fffffffe00000065
client s1 0012000800000000000000070000000d5431000000000000
> s1 00160000000000000000000700000000
> s1 001200000005001400000007fffffffe
client s1 0012000800000000000000070000000d5431000000000000
> failed
asks
lost s1
";

/// It reads three elements and then ten, for which the gateway subscribes anew.
const TWO_SUBSCRIPTIONS: &str = "found T1 u1
> u1 0012000800000000fffffffe0000000d5431000000000000
server u1 0012000000050014fffffffe00000065
server u1 0016000000000000fffffffe00000001
client s1 0012000800000000000000070000000d5431000000000000
> s1 00160000000000000000000700000001
> s1 001200000005001400000007fffffffe
client s1 000f000000050003fffffffe00000021
> u1 000100100013000300000065fffffffe00000000000000000000000000050000
client s1 000f00000005000afffffffe00000022
> failed
asks
lost s1
";

/// It reads a LONG with its limits, for which the gateway subscribes to values and to properties.
const TWO_SUBJECTS: &str = "found T1 u1
> u1 0012000800000000fffffffe0000000d5431000000000000
server u1 0012000000050014fffffffe00000065
server u1 0016000000000000fffffffe00000001
client s1 0012000800000000000000070000000d5431000000000000
> s1 00160000000000000000000700000001
> s1 001200000005001400000007fffffffe
client s1 000f000000210003fffffffe00000021
> failed
asks
lost s1
";

/// It writes twice. The first write is answered, and its number isn't given out again.
const TWO_WRITES: &str = "found T1 u1
> u1 0012000800000000fffffffe0000000d5431000000000000
server u1 0016000000000000fffffffe00000003
server u1 0012000000050001fffffffe00000065
client s1 0012000800000000000000070000000d5431000000000000
> s1 00160000000000000000000700000003
> s1 001200000005000100000007fffffffe
client s1 0013000800050001fffffffe000000430000000700000000
> u1 001300080005000100000065fffffffe0000000700000000
server u1 001300000005000100000001fffffffe
> s1 00130000000500010000000100000043
client s1 0013000800050001fffffffe000000440000000800000000
> failed
asks
lost s1
";

/// The only number of a channel was given out, and none before or after it. Requests on what is gone are
/// passed over.
const ONE_GONE: &str = "limit passes-over-gone 1
found T1 u1
> u1 0012000800000000fffffffe0000000d5431000000000000
server u1 0016000000000000fffffffe00000003
server u1 0012000000050001fffffffe00000065
client s1 0012000800000000000000070000000d5431000000000000
> s1 00160000000000000000000700000003
> s1 001200000005000100000007fffffffe
client s1 000c000000000000fffffffe00000007
> s1 000c000000000000fffffffe00000007
client s1 000f000000050001fffffffd00000021
> s1 000b002000000000ffffffff0000019a000f000000050001fffffffd00000021756e6b6e6f776e206368616e6e656c00
client s1 000f000000050001fffffffe00000021
client s1 000f000000050001ffffffff00000021
> s1 000b002000000000ffffffff0000019a000f000000050001ffffffff00000021756e6b6e6f776e206368616e6e656c00
";

/// Parts a story into its script and what is printed.
pub(crate) fn part(text: &str, script: &mut Vec<u8>, printed: &mut Vec<u8>) -> bool {
    let mut is_whole = true;
    for line in text.lines() {
        is_whole &= match line.strip_prefix("> ") {
            Some(line) => add(line, printed),
            None => add(line, script),
        };
    }
    is_whole
}

fn add(line: &str, text: &mut Vec<u8>) -> bool {
    text.extend_from_slice(line.as_bytes()).is_ok() && text.push(b'\n').is_ok()
}

/// The status of a script on a gateway that has one number of each kind left, where there is memory for
/// one.
fn ended(alloc: Global, script: &[u8], out: &mut Vec<u8>) -> Option<u8> {
    let engine = last_numbers(alloc)?;
    Some(play(alloc, engine, script, out))
}

/// Asserts that a story comes out as it is told, and ends with this status.
pub(crate) fn ends(rt: &impl Abort, alloc: Global, story: &str, status: u8) {
    let mut script = Vec::new(alloc);
    let mut printed = Vec::new(alloc);
    let mut out = Vec::new(alloc);
    let is_whole = part(WANTED, &mut script, &mut printed) & part(story, &mut script, &mut printed);
    assert_eq!(rt; ended(alloc, script.as_slice(), &mut out), Some(status));
    assert_eq!(rt; out.as_slice(), printed.as_slice());
    assert!(rt; is_whole);
}

/// The same with the status of a gateway that failed.
pub(crate) fn fails(rt: &impl Abort, alloc: Global, story: &str) {
    ends(rt, alloc, story, 4);
}

#[test]
fn fails_when_its_links_are_used_up(rt: HostRuntime) {
    fails(&rt, rt.alloc(), TWO_LINKS);
}

#[test]
fn fails_when_its_channels_are_used_up(rt: HostRuntime) {
    fails(&rt, rt.alloc(), TWO_CHANNELS);
}

#[test]
fn fails_when_its_subscriptions_are_used_up(rt: HostRuntime) {
    fails(&rt, rt.alloc(), TWO_SUBSCRIPTIONS);
}

#[test]
fn fails_when_no_number_is_left_for_properties(rt: HostRuntime) {
    fails(&rt, rt.alloc(), TWO_SUBJECTS);
}

#[test]
fn fails_when_its_write_ids_are_used_up(rt: HostRuntime) {
    fails(&rt, rt.alloc(), TWO_WRITES);
}

#[test]
fn knows_the_numbers_that_it_gave_out(rt: HostRuntime) {
    ends(&rt, rt.alloc(), ONE_GONE, 0);
}

/// The example at the head of `replay`.
#[test]
fn an_engine_greets_a_client(rt: HostRuntime) {
    let mut out = Vec::new(rt.alloc());
    let status = ended(rt.alloc(), b"open s1 10.0.0.5\n", &mut out);
    assert_eq!(rt; status, Some(0));
    let version = b"s1 000000000000000d0000000000000000\n";
    assert_eq!(rt; out.as_slice(), version.as_slice());
}
