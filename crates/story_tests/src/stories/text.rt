//! Bytes that are put together.
use std::alloc::Global;
use std::io::Write;
use std::str;

/// Bytes that are put together, with what was refused noted.
#[derive(Drop)]
pub(crate) struct Text {
    pub(crate) bytes: Vec<u8>,
    /// Memory was never refused, and each repetition could be read.
    pub(crate) is_whole: bool,
}

impl Text {
    pub(crate) fn new(alloc: Global) -> Text {
        Text {
            bytes: Vec::new(alloc),
            is_whole: true,
        }
    }

    pub(crate) fn add(&mut self, bytes: &[u8]) {
        let added = self.bytes.extend_from_slice(bytes);
        self.is_whole &= added.is_ok();
    }

    /// A line more, behind the end of the last one.
    pub(crate) fn add_line(&mut self, line: &[u8]) {
        if !self.bytes.is_empty() {
            self.add(b"\n");
        }
        self.add(line);
    }

    /// A text with its repetitions written out.
    pub(crate) fn write_out(&mut self, text: &[u8]) {
        for part in text.split(|b| *b == b'[') {
            match parted(part, b']') {
                Some((repetition, rest)) => {
                    self.repeat(repetition);
                    self.add(rest);
                }
                None => self.add(part),
            }
        }
    }

    /// Writes what stands between brackets, as `256 from 1:TEXT`.
    fn repeat(&mut self, repetition: &[u8]) {
        let Some((head, text)) = parted(repetition, b':') else {
            self.is_whole = false;
            return;
        };
        match numbers(head) {
            Some((count, first)) => for number in (first..u32::MAX).take(count) {
                self.fill(text, number);
            },
            None => self.is_whole = false,
        }
    }

    /// Writes the text with the number in its places.
    fn fill(&mut self, text: &[u8], number: u32) {
        for part in text.split(|b| *b == b'{') {
            match parted(part, b'}') {
                Some((place, rest)) => {
                    self.write_number(place, number);
                    self.add(rest);
                }
                None => self.add(part),
            }
        }
    }

    fn write_number(&mut self, place: &[u8], number: u32) {
        let written = match place {
            b"d" => write!(self.bytes, "{number}").is_ok(),
            b"d4" => write!(self.bytes, "{number:04}").is_ok(),
            b"x6" => write!(self.bytes, "{number:06x}").is_ok(),
            b"x8" => write!(self.bytes, "{number:08x}").is_ok(),
            b"t4" => self.write_digits(number),
            _ => false,
        };
        self.is_whole &= written;
    }

    /// Writes the last four digits as the hexadecimal digits of their characters.
    fn write_digits(&mut self, number: u32) -> bool {
        let mut written = true;
        for unit in [1000, 100, 10, 1] {
            written &= write!(self.bytes, "3{}", number / unit % 10).is_ok();
        }
        written
    }
}

/// The two numbers of a repetition, as `256 from 1`: how often, and from where on.
fn numbers(head: &[u8]) -> Option<(usize, u32)> {
    let (count, first) = str::from_utf8(head).ok()?.split_once(" from ")?;
    Some((count.parse().ok()?, first.parse().ok()?))
}

/// What stands before and behind the first such byte.
fn parted(bytes: &[u8], at: u8) -> Option<(&[u8], &[u8])> {
    let mut parts = bytes.splitn(2, |b| *b == at);
    let first = parts.next()?;
    Some((first, parts.next()?))
}
