//! The lines that a replay prints.
use access_file::AccessCause;
use bytes::Bytes;
use gateway_state::{Dest, Reading, Sub};
use pv_name::Name;
use pvlist::RuleCause;
use replay_text::{
    Line, read_line, write_asks, write_end, write_message, write_props, write_reading,
    write_refused, write_refused_access, write_refused_groups, write_rights, write_subscription,
};
use std::alloc::Global;
use std::io;
use std::io::Write;
use std::process::Abort;

/// Asserts that these bytes were written, and that no write failed.
fn is_written(rt: &impl Abort, is_whole: bool, out: &[u8], want: &[u8]) {
    assert_eq!(rt; (is_whole, out), (true, want));
}

/// Answers a line that loses a connection.
fn lost(alloc: Global, line: &[u8], out: &mut Vec<u8>) -> bool {
    match read_line(alloc, line) {
        Ok(Line::Lost(dest)) => write_end(out, dest).is_ok(),
        Ok(_) => true,
        Err(_) => false,
    }
}

/// The example at the head of `replay_text`.
#[test]
fn a_line_is_read_and_answered(rt: HostRuntime) {
    let mut out = Vec::new(rt.alloc());
    let is_lost = lost(rt.alloc(), b"lost s1", &mut out);
    is_written(&rt, is_lost, &out, b"end s1\n");
    let is_swept = lost(rt.alloc(), b"sweep", &mut out);
    is_written(&rt, is_swept, &out, b"end s1\n");
}

#[test]
fn a_message_is_a_line_of_digits(rt: HostRuntime) {
    let mut out = Vec::new(rt.alloc());
    let first = write_message(&mut out, Dest::Session(1), b"\x00\x17\x0a\xff", b"");
    let second = write_message(&mut out, Dest::Upstream(4294967295), b"\x00\x01", b"Go");
    let is_whole = first.is_ok() & second.is_ok();
    is_written(&rt, is_whole, &out, b"s1 00170aff\nu4294967295 0001476f\n");
}

#[test]
fn a_long_payload_is_written_whole(rt: HostRuntime) {
    let payload = [0xabu8; 1040];
    let mut out = Vec::new(rt.alloc());
    let written = write_message(&mut out, Dest::Session(2), b"", &payload);
    assert!(rt; written.is_ok());
    assert_eq!(rt; out.len(), 3 + 2 * 1040 + 1);
    let mut digits = out.iter().skip(3).take(2080);
    assert!(rt; digits.all(|b| *b == b'a' || *b == b'b'));
}

/// The names, each with the line that asks for it and those before.
fn ask(alloc: Global, texts: &[&[u8]], out: &mut Vec<u8>) -> bool {
    let mut names = Vec::new(alloc);
    let mut is_whole = write_asks(out, &names).is_ok();
    for text in texts {
        is_whole &= match Name::read(alloc, text) {
            Ok(name) => names.push(name).is_ok(),
            Err(_) => false,
        };
        is_whole &= write_asks(out, &names).is_ok();
    }
    is_whole
}

#[test]
fn names_are_asked_for_in_a_line(rt: HostRuntime) {
    let mut out = Vec::new(rt.alloc());
    let is_whole = ask(rt.alloc(), &[b"!~", b"T1"], &mut out);
    is_written(&rt, is_whole, &out, b"asks\nasks !~\nasks !~ T1\n");
}

#[test]
fn what_a_read_is_answered_is_a_line(rt: HostRuntime) {
    let mut out = Vec::new(rt.alloc());
    let mut is_whole = true;
    for reading in [
        Reading::Value(4294967295, Bytes::from_static(b"\x00\x2a\xff")),
        Reading::Value(0, Bytes::new()),
        Reading::Refused(368),
        Reading::Waits,
        Reading::NoChannel,
    ] {
        is_whole &= write_reading(&mut out, &reading).is_ok();
    }
    let want = b"value 4294967295 002aff\nvalue 0 -\nrefused 368\nwaits\nno channel\n";
    is_written(&rt, is_whole, &out, want);
}

#[test]
fn subscriptions_and_rights_are_lines(rt: HostRuntime) {
    let mut out = Vec::new(rt.alloc());
    let subscription = Sub {
        id: 4294967294,
        mask: 5,
        count: 20,
    };
    let mut is_whole = true;
    for told in [Some(subscription), None] {
        is_whole &= write_subscription(&mut out, told).is_ok();
    }
    for id in [Some(4294967294), None] {
        is_whole &= write_props(&mut out, id).is_ok();
    }
    for rights in [Some(3), Some(0), None] {
        is_whole &= write_rights(&mut out, rights).is_ok();
    }
    let want = b"sub 4294967294 5 20
sub -
props 4294967294
props -
rights 3
rights 0
rights -
";
    is_written(&rt, is_whole, &out, want);
}

#[test]
fn a_refused_edit_is_a_line(rt: HostRuntime) {
    let mut out = Vec::new(rt.alloc());
    let rules = write_refused(&mut out, 3, RuleCause::NoVerb);
    let groups = write_refused_groups(&mut out, 18446744073709551615, RuleCause::BadGroup);
    let access = write_refused_access(&mut out, 12, AccessCause::Calculated);
    let is_whole = rules.is_ok() & groups.is_ok() & access.is_ok();
    let want = b"refused line 3: NoVerb
refused groups line 18446744073709551615: BadGroup
refused access line 12: Calculated
";
    is_written(&rt, is_whole, &out, want);
}

/// Takes so many bytes, and then fails.
#[derive(Drop)]
struct Short(usize);

impl Write for Short {
    fn write(&mut self, buf: &[u8]) -> io::Result<usize> {
        if self.0 == 0 {
            return Err(io::Error::from(io::ErrorKind::BrokenPipe));
        }
        let taken = buf.len().min(self.0);
        self.0 -= taken;
        Ok(taken)
    }

    fn flush(&mut self) -> io::Result<()> {
        Ok(())
    }
}

#[test]
fn a_write_that_fails_is_told(rt: HostRuntime) {
    // `s1 0017`, a byte of payload and the line's end
    for room in 0..=10usize {
        let written = write_message(&mut Short(room), Dest::Session(1), b"\x00\x17", b"\x01");
        assert_eq!(rt; written.is_ok(), room == 10, "{room}");
    }
}
