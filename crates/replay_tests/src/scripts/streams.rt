//! Readers and writers that fail, and much that is read.
//!
//! A reader gives a text, so many bytes at a time, and then ends or fails; a writer takes so many bytes
//! and then fails, or fails when it is flushed.
use replay::{replay, status};
use std::alloc::Global;
use std::io;
use std::io::{ErrorKind, Read, Write};
use std::process::Abort;

const VERSION: &[u8] = b"s1 000000000000000d0000000000000000\n";

/// Gives its bytes, at most `step` at a time, and then ends, or fails with an error of this kind.
#[derive(Drop)]
struct SteppedBytes<'a> {
    text: &'a [u8],
    step: usize,
    fault: Option<ErrorKind>,
}

impl<'a> Read for SteppedBytes<'a> {
    fn read(&mut self, buf: &mut [u8]) -> io::Result<usize> {
        let len = self.step.min(buf.len()).min(self.text.len());
        if let (0, Some(kind)) = (len, self.fault) {
            return Err(io::Error::from(kind));
        }
        let (front, rest) = self.text.split_at(len);
        buf[..len].copy_from_slice(front);
        self.text = rest;
        Ok(len)
    }
}

/// Takes so many bytes, and then fails. It may fail when it is flushed.
#[derive(Drop)]
struct Sink {
    room: usize,
    is_stuck: bool,
    taken: Vec<u8>,
}

impl Write for Sink {
    fn write(&mut self, buf: &[u8]) -> io::Result<usize> {
        if self.room == 0 {
            return Err(io::Error::from(ErrorKind::BrokenPipe));
        }
        let (front, _) = buf.split_at(buf.len().min(self.room));
        self.taken.extend_from_slice(front)?;
        self.room = self.room.saturating_sub(front.len());
        Ok(front.len())
    }

    fn flush(&mut self) -> io::Result<()> {
        if self.is_stuck {
            return Err(io::Error::from(ErrorKind::BrokenPipe));
        }
        Ok(())
    }
}

/// How a script is read, and how what it prints is taken.
#[derive(Clone, Copy)]
struct Streams<'a> {
    text: &'a [u8],
    step: usize,
    fault: Option<ErrorKind>,
    room: usize,
    is_stuck: bool,
}

/// Streams that don't fail.
fn script(text: &[u8]) -> Streams<'_> {
    Streams {
        text,
        step: usize::MAX,
        fault: None,
        room: usize::MAX,
        is_stuck: false,
    }
}

/// Asserts that a replay over these streams ends with this status, and that this is taken.
fn ends(rt: &impl Abort, alloc: Global, streams: Streams<'_>, status: u8, output: &[u8]) {
    let source = SteppedBytes {
        text: streams.text,
        step: streams.step,
        fault: streams.fault,
    };
    let mut sink = Sink {
        room: streams.room,
        is_stuck: streams.is_stuck,
        taken: Vec::new(alloc),
    };
    let ended = replay(alloc, source, &mut sink);
    assert_eq!(rt; (ended, sink.taken.as_slice()), (status, output));
}

/// The example at the head of `replay`.
#[test]
fn greets_a_client(rt: HostRuntime) {
    let script = b"open s1 10.0.0.5\n".as_slice();
    let mut out = Vec::new(rt.alloc());
    let status = replay(rt.alloc(), script, &mut out);
    assert_eq!(rt; status, status::GOOD);
    assert_eq!(rt; out.as_slice(), VERSION);
}

#[test]
fn says_so_when_a_stream_fails(rt: HostRuntime) {
    let broken = Streams {
        step: 1,
        fault: Some(ErrorKind::BrokenPipe),
        ..script(b"open s1 h\nswe")
    };
    ends(&rt, rt.alloc(), broken, 3, VERSION);
    for room in 0..=VERSION.len() {
        let narrow = Streams {
            room,
            ..script(b"open s1 h\n")
        };
        let status = if room < VERSION.len() { 3 } else { 0 };
        ends(&rt, rt.alloc(), narrow, status, &VERSION[..room]);
    }
}

#[test]
fn says_so_when_a_flush_fails(rt: HostRuntime) {
    let cases: [(&[u8], &[u8]); 3] = [(b"", b""), (b"open s1 h\n", b""), (b"open s1 h\nlost", b"")];
    for (text, output) in cases {
        let stuck = Streams {
            is_stuck: true,
            ..script(text)
        };
        ends(&rt, rt.alloc(), stuck, 3, output);
    }
}

#[test]
fn tells_a_stream_that_fails_from_want_of_memory(rt: HostRuntime) {
    let cases = [
        (ErrorKind::OutOfMemory, 4),
        (ErrorKind::Other, 3),
        (ErrorKind::PermissionDenied, 3),
        (ErrorKind::UnexpectedEof, 3),
    ];
    for (kind, status) in cases {
        let failing = Streams {
            fault: Some(kind),
            ..script(b"")
        };
        ends(&rt, rt.alloc(), failing, status, b"");
    }
}

/// So many comments, and a line that is bad.
fn comments(alloc: Global, count: u32) -> Option<Vec<u8>> {
    let mut script = Vec::new(alloc);
    for _ in 0..count {
        script.extend_from_slice(b"#\n").ok()?;
    }
    script.extend_from_slice(b"lost\n").ok()?;
    Some(script)
}

// More lines than a number of 16 bits counts. The last one is bad.
#[test]
fn performs_as_many_lines_as_a_script_has(rt: HostRuntime) {
    let text = comments(rt.alloc(), 70_000);
    match &text {
        Some(text) => ends(&rt, rt.alloc(), script(text), 2, b"line 70001: bad\n"),
        None => assert!(rt; false),
    }
}
