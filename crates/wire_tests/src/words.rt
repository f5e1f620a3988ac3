//! The words of a line as it is read, and the words of the answers that are told.
use std::alloc::Global;
use std::fmt::{Debug, Display, Write};
use std::test::Fail;

/// So many equal bytes at the end are told as their number.
const LONG_RUN: usize = 9;

/// What is called, the first word of a line.
pub(crate) fn verb(line: &str) -> &str {
    line.split([' ', ':'].as_slice()).next().unwrap_or("")
}

/// What is called with: numbers, and behind a colon bytes. Numbers that aren't there are 0.
#[derive(Drop)]
pub(crate) struct Call {
    pub(crate) alloc: Global,
    pub(crate) numbers: Vec<u32>,
    pub(crate) bytes: Vec<u8>,
}

impl Call {
    pub(crate) fn new(alloc: Global) -> Call {
        Call {
            alloc,
            numbers: Vec::new(alloc),
            bytes: Vec::new(alloc),
        }
    }

    pub(crate) fn read(&mut self, line: &str) -> Result<(), Fail> {
        self.numbers.clear();
        self.bytes.clear();
        let (front, back) = line.split_once(':').unwrap_or((line, ""));
        for word in front.split(' ').skip(1) {
            self.numbers.push(word.parse()?)?;
        }
        for word in back.split(' ') {
            read_bytes(self.alloc, word, &mut self.bytes)?;
        }
        Ok(())
    }

    pub(crate) fn number(&self, place: usize) -> u32 {
        match self.numbers.get(place) {
            Some(number) => *number,
            None => 0,
        }
    }

    pub(crate) fn short(&self, place: usize) -> u16 {
        self.number(place).min(65_535) as u16
    }
}

/// Reads hexadecimal digits, as often as is said behind `*`, or once.
fn read_bytes(alloc: Global, word: &str, bytes: &mut Vec<u8>) -> Result<(), Fail> {
    let (digits, times) = word.split_once('*').unwrap_or((word, "1"));
    let times: u32 = times.parse()?;
    let piece = hex::decode(alloc, digits)?;
    for _ in 0..times {
        bytes.extend_from_slice(&piece)?;
    }
    Ok(())
}

/// What is told: lines of words, each with a blank before it.
#[derive(Drop)]
pub(crate) struct Told {
    pub(crate) text: String,
    /// Memory was never refused.
    pub(crate) is_whole: bool,
}

impl Told {
    pub(crate) fn new(alloc: Global) -> Told {
        Told {
            text: String::new(alloc),
            is_whole: true,
        }
    }

    /// Told into memory that is taken beforehand, so that telling so much takes none.
    pub(crate) fn with_room(alloc: Global, room: usize) -> Told {
        match String::with_capacity(alloc, room) {
            Ok(text) => Told {
                text,
                is_whole: true,
            },
            Err(_) => Told {
                text: String::new(alloc),
                is_whole: false,
            },
        }
    }

    /// What was told elsewhere.
    pub(crate) fn add(&mut self, other: &Told) {
        let written = write!(self.text, "{}", other.text);
        self.is_whole &= written.is_ok() && other.is_whole;
    }

    pub(crate) fn word<T: Display>(&mut self, value: &T) {
        let written = write!(self.text, " {value}");
        self.is_whole &= written.is_ok();
    }

    pub(crate) fn name<T: Debug>(&mut self, value: &T) {
        let written = write!(self.text, " {value:?}");
        self.is_whole &= written.is_ok();
    }

    /// A value behind its name.
    pub(crate) fn field<T: Display>(&mut self, name: &str, value: &T) {
        self.word(&name);
        self.word(value);
    }

    /// Bytes behind their name.
    pub(crate) fn field_bytes(&mut self, name: &str, bytes: &[u8]) {
        self.word(&name);
        self.groups(bytes);
    }

    pub(crate) fn end(&mut self) {
        let written = self.text.push('\n');
        self.is_whole &= written.is_ok();
    }

    pub(crate) fn line<T: Display>(&mut self, value: &T) {
        self.word(value);
        self.end();
    }

    /// Bytes, and the end of the line.
    pub(crate) fn bytes(&mut self, bytes: &[u8]) {
        self.groups(bytes);
        self.end();
    }

    /// Bytes in groups of four.
    fn groups(&mut self, bytes: &[u8]) {
        let run = last_run(bytes);
        let front = bytes.len().saturating_sub(run);
        for (place, byte) in bytes.iter().enumerate().take(front) {
            let blank = if place % 4 == 0 { " " } else { "" };
            let written = write!(self.text, "{blank}{byte:02x}");
            self.is_whole &= written.is_ok();
        }
        if let Some(byte) = bytes.get(front) {
            let written = write!(self.text, " {byte:02x}*{run}");
            self.is_whole &= written.is_ok();
        }
    }
}

/// How many bytes at the end are as the last one; none where these are few.
fn last_run(bytes: &[u8]) -> usize {
    let mut run = 0usize;
    for byte in bytes.iter().rev() {
        if Some(byte) != bytes.last() {
            break;
        }
        run = run.saturating_add(1);
    }
    if run < LONG_RUN { 0 } else { run }
}
