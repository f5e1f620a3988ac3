//! Texts with repetitions and numbers of characters in them, and what is told.
use std::alloc::{AllocError, Global};
use std::fmt::{Display, Write};

/// What is told. The functions that make the calls return no error: what they tell would show one, and
/// each way out of a function is dear to prove.
#[derive(Drop)]
pub(crate) struct Told {
    pub(crate) text: String,
    /// Memory was never refused, and each repetition could be written out.
    pub(crate) is_whole: bool,
}

impl Told {
    pub(crate) fn new(alloc: Global) -> Told {
        Told {
            text: String::new(alloc),
            is_whole: true,
        }
    }

    /// Told into memory that is taken beforehand, so that telling so much takes none.
    pub(crate) fn with_room(alloc: Global, room: usize) -> Told {
        match String::with_capacity(alloc, room) {
            Ok(text) => Told {
                text,
                is_whole: true,
            },
            Err(_) => Told {
                text: String::new(alloc),
                is_whole: false,
            },
        }
    }

    /// What was told elsewhere.
    pub(crate) fn add(&mut self, other: &Told) {
        self.put(&other.text);
        self.is_whole &= other.is_whole;
    }

    /// What became of a write to the text.
    pub(crate) fn keep(&mut self, written: Result<(), AllocError>) {
        self.is_whole &= written.is_ok();
    }

    pub(crate) fn put<T: Display>(&mut self, value: &T) {
        let written = write!(self.text, "{value}");
        self.keep(written);
    }

    pub(crate) fn line<T: Display>(&mut self, value: &T) {
        let written = writeln!(self.text, "{value}");
        self.keep(written);
    }

    /// A text with what stands between `«` and `»` written out.
    pub(crate) fn write_out(&mut self, text: &str) {
        for part in text.split('«') {
            match part.split_once('»') {
                Some((repetition, rest)) => {
                    self.repeat(repetition);
                    self.put(&rest);
                }
                None => self.put(&part),
            }
        }
    }

    /// Writes `63*x`, with the end of a line for each `¶`, and for each `№` how often it was written by then; or
    /// the character with a number in two hexadecimal digits.
    fn repeat(&mut self, repetition: &str) {
        match repetition.split_once('*') {
            Some((times, word)) => match times.parse() {
                Ok(times) => self.write_times(times, word),
                Err(_) => self.is_whole = false,
            },
            None => match u8::from_str_radix(repetition, 16) {
                Ok(number) => self.put(&char::from(number)),
                Err(_) => self.is_whole = false,
            },
        }
    }

    fn write_times(&mut self, times: u32, word: &str) {
        for time in 1..=times {
            self.write_lines(word, time);
        }
    }

    fn write_lines(&mut self, text: &str, time: u32) {
        for letter in text.chars() {
            match letter {
                '¶' => self.put(&'\n'),
                '№' => self.put(&time),
                _ => self.put(&letter),
            }
        }
    }

    pub(crate) fn write_line(&mut self, text: &str) {
        self.write_out(text);
        self.put(&'\n');
    }
}

/// What stands before and behind the first blank.
pub(crate) fn two_words(text: &str) -> (&str, &str) {
    text.split_once(' ').unwrap_or((text, ""))
}
