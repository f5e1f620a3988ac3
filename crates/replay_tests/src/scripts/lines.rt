//! Which lines a script has, and what they ask for.
//!
//! A table has lines of a script, and behind `> ` what the line before is read as, in the words of
//! `Debug`. The lines without an answer are bad.
use replay_text::{Line, LineFault, read_line};
use std::alloc::Global;
use std::fmt::Write;
use std::process::Abort;

/// Asserts that the lines of a table are read as it says.
fn reads(rt: &impl Abort, alloc: Global, table: &[u8]) {
    let mut told = String::new(alloc);
    let mut wanted = Vec::new(alloc);
    let mut is_whole = true;
    for line in table.split(|b| *b == b'\n') {
        is_whole &= match line.strip_prefix(b"> ") {
            Some(want) => wanted.extend_from_slice(want).is_ok() & wanted.push(b'\n').is_ok(),
            None => tell(alloc, line, &mut told),
        };
    }
    assert_eq!(rt; told.as_bytes(), wanted.as_slice());
    assert!(rt; is_whole);
}

/// Tells what a line asks for, and nothing of one that is bad.
fn tell(alloc: Global, line: &[u8], told: &mut String) -> bool {
    match read_line(alloc, line) {
        Err(LineFault::Bad) => true,
        reading => writeln!(told, "{reading:?}").is_ok(),
    }
}

#[test]
fn each_command_is_read(rt: HostRuntime) {
    reads(
        &rt,
        rt.alloc(),
        b"
> Ok(Skipped)
#
> Ok(Skipped)
# open  s1\xc3\xa9\r
> Ok(Skipped)
open s1 10.0.0.5
> Ok(OpenSession(1, Host { text: \"10.0.0.5\" }))
lost s0
> Ok(Lost(Session(0)))
lost u1
> Ok(Lost(Upstream(1)))
client s1 -
> Ok(Client(1, Piece { bytes: [] }))
client s1 0017fFFf
> Ok(Client(1, Piece { bytes: [0, 23, 255, 255] }))
hold s1
> Ok(Hold(Session(1)))
hold u1
> Ok(Hold(Upstream(1)))
flow u4294967295
> Ok(Flow(Upstream(4294967295)))
flow s00000000000000000000000007
> Ok(Flow(Session(7)))
drain s1 0
> Ok(Drain(Session(1), 0))
drain u1 0003
> Ok(Drain(Upstream(1), 3))
drain s1 18446744073709551615
> Ok(Drain(Session(1), 18446744073709551615))",
    );
}

#[test]
fn each_command_about_servers_is_read(rt: HostRuntime) {
    reads(
        &rt,
        rt.alloc(),
        b"open u1
> Ok(OpenServer(1))
open u04294967295
> Ok(OpenServer(4294967295))
server u1 -
> Ok(Server(1, Piece { bytes: [] }))
server u0 0017fFFf
> Ok(Server(0, Piece { bytes: [0, 23, 255, 255] }))
found T1 u1
> Ok(Found(Name { text: \"T1\" }, 1))
found ~!# u4294967295
> Ok(Found(Name { text: \"~!#\" }, 4294967295))
sweep
> Ok(Sweep)
edit 0 0
> Ok(Edit { rules: 0, groups: 0, access: 0 })
edit 18446744073709551615 007
> Ok(Edit { rules: 18446744073709551615, groups: 7, access: 0 })
edit 1 2 0
> Ok(Edit { rules: 1, groups: 2, access: 0 })
edit 1 02 18446744073709551615
> Ok(Edit { rules: 1, groups: 2, access: 18446744073709551615 })
asks
> Ok(Asks)
read s1 2 5 3
> Ok(Read { session: 1, sid: 2, dtype: 5, count: 3 })
read s0 4294967295 65535 4294967295
> Ok(Read { session: 0, sid: 4294967295, dtype: 65535, count: 4294967295 })
read s1 0 0 000
> Ok(Read { session: 1, sid: 0, dtype: 0, count: 0 })
sub T1
> Ok(Subscription(Name { text: \"T1\" }))
sub -
> Ok(Subscription(Name { text: \"-\" }))
props T1
> Ok(Properties(Name { text: \"T1\" }))
props props
> Ok(Properties(Name { text: \"props\" }))
rights s1 2
> Ok(Rights { session: 1, sid: 2 })
rights s0 04294967295
> Ok(Rights { session: 0, sid: 4294967295 })",
    );
}

#[test]
fn each_command_of_upkeep_is_read(rt: HostRuntime) {
    reads(
        &rt,
        rt.alloc(),
        b"age
> Ok(Age)
probe 1
> Ok(Probe(1))
probe 04294967295
> Ok(Probe(4294967295))
seek s1 17 T1
> Ok(Seek(1, 17, Name { text: \"T1\" }))
limit sessions 0
> Ok(Limit(Sessions(0)))
limit servers 1024
> Ok(Limit(Servers(1024)))
limit links 007
> Ok(Limit(Links(7)))
limit searches 65536
> Ok(Limit(Searches(65536)))
limit share 4096
> Ok(Limit(Share(4096)))
limit channels 3
> Ok(Limit(Channels(3)))
limit subscriptions 2
> Ok(Limit(Subscriptions(2)))
limit reads 1
> Ok(Limit(Reads(1)))
limit writes 18446744073709551615
> Ok(Limit(Writes(18446744073709551615)))
limit messages 4294967295
> Ok(Limit(Messages(4294967295)))
limit update-bytes 18446744073709551615
> Ok(Limit(UpdateBytes(18446744073709551615)))
limit makes-room 1
> Ok(Limit(MakesRoom(true)))
limit makes-room 0
> Ok(Limit(MakesRoom(false)))
limit reuses-numbers 1
> Ok(Limit(ReusesNumbers(true)))
limit passes-over-gone 0
> Ok(Limit(PassesOverGone(false)))
limit tells-unreadable 1
> Ok(Limit(TellsUnreadable(true)))
limit answers-searches 1
> Ok(Limit(AnswersSearches(true)))
limit checks-hosts 1
> Ok(Limit(ChecksHosts(true)))
limit checks-hosts 0
> Ok(Limit(ChecksHosts(false)))",
    );
}

#[test]
fn upkeep_that_stands_for_nothing_is_bad(rt: HostRuntime) {
    reads(
        &rt,
        rt.alloc(),
        b"age\x20
age 1
Age
probe
probe\x20
probe u1
probe 1 2
probe +1
probe 4294967296
seek
seek s1
seek s1 17
seek s1 17\x20
seek u1 17 T1
seek s1 T1 17
seek s1 4294967296 T1
seek s1 17 T1 1
limit
limit sessions
limit sessions\x20
limit  sessions 1
limit sessions 1\x20
limit sessions 1 2
limit Sessions 1
limit session 1
limit subs 1
limit update_bytes 1
limit sessions -1
limit sessions +1
limit sessions 18446744073709551616
limit messages 4294967296
limit update-bytes 18446744073709551616
limit makes-room
limit makes-room 2
limit makes-room 01
limit makes-room true
limit checks-hosts
limit checks_hosts 1
limit tells-unreadable -
limits sessions 1",
    );
}

#[test]
fn lines_of_no_command_are_bad(rt: HostRuntime) {
    reads(
        &rt,
        rt.alloc(),
        b"\x20
\r
 # x
 lost s1
Lost s1
lost\ts1
\xff
close s1
search h 00 00
edit0 0
Sweep
ask
prop",
    );
}

#[test]
fn a_wrong_number_of_words_is_bad(rt: HostRuntime) {
    reads(
        &rt,
        rt.alloc(),
        b"open
open s1
open s1\x20
open s1 h\x20
open s1  h
open  s1 h
open s1 h i
lost
lost\x20
lost s1\x20
lost s1 s2
client s1
client s1\x20
client s1 00 00
hold s1 s2
drain s1",
    );
}

#[test]
fn a_wrong_number_of_words_about_servers_is_bad(rt: HostRuntime) {
    reads(
        &rt,
        rt.alloc(),
        b"open u1\x20
open u1 h
server
server u1
server u1\x20
server u1 00 00
found
found T1
found T1\x20
found T1  u1
found T1 u1\x20
found T1 u1 u2
sweep\x20
sweep s1
edit
edit 1
edit 1\x20
edit 1  1
edit 1 1\x20
edit 1 1  1
edit 1 1 1\x20
edit 1 1 1 1
asks\x20
asks T1
read s1 2 5
read s1 2 5\x20
read s1 2  5 3
read s1 2 5 3\x20
read s1 2 5 3 4
sub
sub\x20
sub T1 T2
props
props\x20
props T1 T2
rights s1
rights s1\x20
rights s1 2 3",
    );
}

// Names have 33 to 126 and at most 255 bytes, and numbers fit their types.
#[test]
fn words_about_servers_that_stand_for_nothing_are_bad(rt: HostRuntime) {
    reads(
        &rt,
        rt.alloc(),
        b"open u
open U1
open u+1
open u4294967296
open u1\r
server s1 00
server 1 00
server u1 0
server u1 0g
server u4294967296 00
found T\x7f u1
found T\xc3\xa4 u1
found T1 s1
found T1 1
found T1 u1\r
sweep\r
edit 0 0\r
edit -1 0
edit 0 +1
edit 0 18446744073709551616
edit 0 0 0\r
edit 0 0 -
edit 0 0 +1
edit 0 0 18446744073709551616
asks\r
read u1 2 5 3
read s1 4294967296 5 3
read s1 2 65536 3
read s1 2 5 4294967296
read s1 +2 5 3
read s1 2 -5 3
read s1 2 5 3\r
sub T1\r
props T1\r
rights u1 2
rights s1 x
rights s1 4294967296
sub TTTTTTTTTTTTTTTTTTTTTTTTTTTTTTTTTTTTTTTTTTTTTTTTTTTTTTTTTTTTTTTTTTTTTTTTTTTTTTTTTTTTTTTTTTTTTTTTTTTTTTTTTTTTTTTTTTTTTTTTTTTTTTTTTTTTTTTTTTTTTTTTTTTTTTTTTTTTTTTTTTTTTTTTTTTTTTTTTTTTTTTTTTTTTTTTTTTTTTTTTTTTTTTTTTTTTTTTTTTTTTTTTTTTTTTTTTTTTTTTTTTTTTTTTTTTTTT
> Ok(Subscription(Name { text: \"TTTTTTTTTTTTTTTTTTTTTTTTTTTTTTTTTTTTTTTTTTTTTTTTTTTTTTTTTTTTTTTTTTTTTTTTTTTTTTTTTTTTTTTTTTTTTTTTTTTTTTTTTTTTTTTTTTTTTTTTTTTTTTTTTTTTTTTTTTTTTTTTTTTTTTTTTTTTTTTTTTTTTTTTTTTTTTTTTTTTTTTTTTTTTTTTTTTTTTTTTTTTTTTTTTTTTTTTTTTTTTTTTTTTTTTTTTTTTTTTTTTTTTTTTTTTTTT\" }))
sub TTTTTTTTTTTTTTTTTTTTTTTTTTTTTTTTTTTTTTTTTTTTTTTTTTTTTTTTTTTTTTTTTTTTTTTTTTTTTTTTTTTTTTTTTTTTTTTTTTTTTTTTTTTTTTTTTTTTTTTTTTTTTTTTTTTTTTTTTTTTTTTTTTTTTTTTTTTTTTTTTTTTTTTTTTTTTTTTTTTTTTTTTTTTTTTTTTTTTTTTTTTTTTTTTTTTTTTTTTTTTTTTTTTTTTTTTTTTTTTTTTTTTTTTTTTTTTTT",
    );
}

#[test]
fn words_that_stand_for_nothing_are_bad(rt: HostRuntime) {
    reads(
        &rt,
        rt.alloc(),
        b"open s1 h\r
open s1 h\x7f
open s1 \xc3\xa4
open s1 h\xff
open s4294967296 h
lost s
lost 1
lost S1
lost s+1
lost s-1
lost s1x
lost s1\r
lost s4294967296
client u1 00
client s1 0
client s1 001
client s1 0g
client s1 --
client s1 00\r
client s1 \xff\xff
drain s1 +1
drain s1 -
drain s1 18446744073709551616",
    );
}

/// Whether a message of so many bytes is a line of a script, and one with half a byte more is bad.
fn is_read_whole(alloc: Global, len: usize, line: &mut Vec<u8>) -> bool {
    let is_whole = match read_line(alloc, line.as_slice()) {
        Ok(Line::Client(1, bytes)) => {
            bytes.as_slice().len() == len && bytes.as_slice().iter().all(|b| *b == 0x77)
        }
        _ => false,
    };
    let is_longer = line.push(b'7').is_ok();
    is_whole && is_longer && read_line(alloc, line.as_slice()).err() == Some(LineFault::Bad)
}

#[test]
fn a_long_line_is_read(rt: HostRuntime) {
    let mut line = Vec::new(rt.alloc());
    let is_there = line.extend_from_slice(b"client s1 ").is_ok();
    let is_long = line.resize(10 + 2_097_152, b'7').is_ok();
    assert!(rt; is_there && is_long);
    assert!(rt; is_read_whole(rt.alloc(), 1_048_576, &mut line));
}
