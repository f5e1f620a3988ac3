//! A script that a person types.
use replay::replay;
use std::alloc::Global;
use std::cell::Cell;
use std::io;
use std::io::{Read, Write};

/// Gives a script line by line, as a person types it. Before each line, and before the end, so many
/// lines have to be out.
#[derive(Drop)]
struct Typist<'a> {
    lines: &'a [(usize, &'a [u8])],
    next: usize,
    out: &'a Cell<usize>,
}

impl<'a> Read for Typist<'a> {
    fn read(&mut self, buf: &mut [u8]) -> io::Result<usize> {
        let Some(line) = self.lines.get(self.next) else {
            return Ok(0);
        };
        let (wanted, text) = *line;
        if self.out.get() != wanted || text.len() > buf.len() {
            return Err(io::Error::from(io::ErrorKind::WouldBlock));
        }
        self.next = self.next.saturating_add(1);
        buf[..text.len()].copy_from_slice(text);
        Ok(text.len())
    }
}

/// Counts the lines that were written when it is flushed.
#[derive(Drop)]
struct Printer<'a> {
    written: usize,
    out: &'a Cell<usize>,
}

impl<'a> Write for Printer<'a> {
    fn write(&mut self, buf: &[u8]) -> io::Result<usize> {
        let lines = buf.iter().filter(|b| **b == b'\n').count();
        self.written = self.written.saturating_add(lines);
        Ok(buf.len())
    }

    fn flush(&mut self) -> io::Result<()> {
        self.out.set(self.written);
        Ok(())
    }
}

#[test]
fn prints_before_it_waits(rt: HostRuntime) {
    let out = Cell::new(0);
    let lines: [(usize, &[u8]); 10] = [
        (0, b"open s1 h\n"),
        (1, b"client s1 00170000000000000000000000000000\n"),
        (2, b"client s1 00170000000000000000000000000000\nopen "),
        (3, b"s2 h"),
        (3, b"\n"),
        (4, b"asks\nasks\nas"),
        (6, b"ks\nedit 1 1\n"),
        (7, b".* ALLOW\nops RE"),
        (7, b"AD\nasks"),
        (7, b""),
    ];
    let typist = Typist {
        lines: &lines,
        next: 0,
        out: &out,
    };
    let mut printer = Printer {
        written: 0,
        out: &out,
    };
    assert_eq!(rt; replay(rt.alloc(), typist, &mut printer), 0);
    assert_eq!(rt; out.get(), 8);
}

/// The status of a script that is there at once, and how many lines are out at its end.
fn printed(alloc: Global, script: &[u8]) -> (u8, usize) {
    let out = Cell::new(0);
    let mut printer = Printer {
        written: 0,
        out: &out,
    };
    let status = replay(alloc, script, &mut printer);
    (status, out.get())
}

// Behind a bad line nothing is read, so what it prints is out only where that is done at the end.
#[test]
fn all_is_out_at_the_end(rt: HostRuntime) {
    assert_eq!(rt; printed(rt.alloc(), b"asks\nasks\n"), (0, 2));
    assert_eq!(rt; printed(rt.alloc(), b"asks\nlost\n"), (2, 2));
    assert_eq!(rt; printed(rt.alloc(), b"lost"), (2, 1));
}
