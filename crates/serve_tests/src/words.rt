//! The words of a line as it is read, and the words of the answers that are told.
use pv_name::Name;
use std::alloc::Global;
use std::fmt::{Debug, Display, Write};

/// What is told where a call was refused memory.
pub(crate) const REFUSED: &str = "out of memory";

/// What is called: a word, then numbers, and behind a colon a text. Numbers that aren't there are 0.
#[derive(Clone, Copy)]
pub(crate) struct Call<'a> {
    pub(crate) verb: &'a str,
    pub(crate) numbers: [u64; 4],
    pub(crate) text: &'a str,
}

impl<'a> Call<'a> {
    pub(crate) fn read(line: &'a str) -> Call<'a> {
        let (front, text) = line.split_once(": ").unwrap_or((line, ""));
        let mut words = front.split(' ');
        let verb = words.next().unwrap_or("");
        let mut numbers = [0; 4];
        for (place, word) in numbers.iter_mut().zip(words) {
            *place = word.parse().unwrap_or(0);
        }
        Call {
            verb,
            numbers,
            text,
        }
    }

    /// The number at this place as one of 32 bits.
    pub(crate) fn number(&self, place: usize) -> u32 {
        match self.numbers.get(place) {
            Some(number) => (*number).min(0xFFFF_FFFF) as u32,
            None => 0,
        }
    }
}

/// The name `N1`, or with another number; none where memory is refused.
pub(crate) fn numbered(alloc: Global, number: u64) -> Option<Name> {
    let mut text = String::new(alloc);
    match write!(text, "N{number}") {
        Ok(()) => Name::read(alloc, text.as_bytes()).ok(),
        Err(_) => None,
    }
}

/// What is told: lines of words, each with a blank before it.
#[derive(Drop)]
pub(crate) struct Told {
    pub(crate) text: String,
    /// Memory was never refused.
    pub(crate) is_whole: bool,
}

impl Told {
    /// Told into memory that is taken beforehand, so that telling so much takes none.
    pub(crate) fn with_room(alloc: Global, room: usize) -> Told {
        match String::with_capacity(alloc, room) {
            Ok(text) => Told {
                text,
                is_whole: true,
            },
            Err(_) => Told {
                text: String::new(alloc),
                is_whole: false,
            },
        }
    }

    /// What was told elsewhere.
    pub(crate) fn add(&mut self, other: &Told) {
        let written = write!(self.text, "{}", other.text);
        self.is_whole &= written.is_ok() && other.is_whole;
    }

    pub(crate) fn word<T: Display>(&mut self, value: &T) {
        let written = write!(self.text, " {value}");
        self.is_whole &= written.is_ok();
    }

    pub(crate) fn name<T: Debug>(&mut self, value: &T) {
        let written = write!(self.text, " {value:?}");
        self.is_whole &= written.is_ok();
    }

    pub(crate) fn end(&mut self) {
        let written = self.text.push('\n');
        self.is_whole &= written.is_ok();
    }

    pub(crate) fn line<T: Display>(&mut self, value: &T) {
        self.word(value);
        self.end();
    }

    pub(crate) fn name_line<T: Debug>(&mut self, value: &T) {
        self.name(value);
        self.end();
    }

    /// Bytes as hexadecimal digits, and the end of the line.
    pub(crate) fn bytes(&mut self, bytes: &[u8]) {
        self.word(&"");
        for byte in bytes {
            let written = write!(self.text, "{byte:02x}");
            self.is_whole &= written.is_ok();
        }
        self.end();
    }
}
