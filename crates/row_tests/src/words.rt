//! The words of a line as it is read, and the words of the answers that are told.
use std::alloc::Global;
use std::fmt::{Debug, Display, Write};

/// What is called: two words, and then numbers. Numbers that aren't there are 0.
#[derive(Drop)]
pub(crate) struct Call<'a> {
    pub(crate) verb: &'a str,
    pub(crate) what: &'a str,
    /// The third word, also where it is no number.
    pub(crate) text: &'a str,
    pub(crate) numbers: [u32; 6],
}

impl<'a> Call<'a> {
    pub(crate) fn read(line: &'a str) -> Call<'a> {
        let mut words = line.split(' ');
        let verb = words.next().unwrap_or("");
        let what = words.next().unwrap_or("");
        let mut numbers = [0; 6];
        for (place, word) in numbers.iter_mut().zip(words) {
            *place = word.parse().unwrap_or(0);
        }
        let text = line.split(' ').nth(2).unwrap_or("");
        Call {
            verb,
            what,
            text,
            numbers,
        }
    }
}

/// What is told: lines of words, each with a blank before it.
#[derive(Drop)]
pub(crate) struct Told {
    pub(crate) text: String,
    /// Memory was never refused.
    pub(crate) is_whole: bool,
}

impl Told {
    /// Told into memory that is taken beforehand, so that telling so much takes none.
    pub(crate) fn with_room(alloc: Global, room: usize) -> Told {
        match String::with_capacity(alloc, room) {
            Ok(text) => Told {
                text,
                is_whole: true,
            },
            Err(_) => Told {
                text: String::new(alloc),
                is_whole: false,
            },
        }
    }

    /// What was told elsewhere.
    pub(crate) fn add(&mut self, other: &Told) {
        let written = write!(self.text, "{}", other.text);
        self.is_whole &= written.is_ok() && other.is_whole;
    }

    pub(crate) fn word<T: Display>(&mut self, value: &T) {
        let written = write!(self.text, " {value}");
        self.is_whole &= written.is_ok();
    }

    pub(crate) fn name<T: Debug>(&mut self, value: &T) {
        let written = write!(self.text, " {value:?}");
        self.is_whole &= written.is_ok();
    }

    pub(crate) fn end(&mut self) {
        let written = self.text.push('\n');
        self.is_whole &= written.is_ok();
    }

    pub(crate) fn line<T: Display>(&mut self, value: &T) {
        self.word(value);
        self.end();
    }
}
