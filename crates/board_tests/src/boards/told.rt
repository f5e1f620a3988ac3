//! The lines that a story's calls answer.
use std::alloc::Global;
use std::fmt::{Debug, Display, Write};

#[derive(Drop)]
pub(crate) struct Told {
    pub(crate) text: String,
    /// Memory was never refused.
    pub(crate) is_whole: bool,
}

impl Told {
    pub(crate) fn new(alloc: Global) -> Told {
        Told {
            text: String::new(alloc),
            is_whole: true,
        }
    }

    /// Told into memory that is taken beforehand, so that telling so much takes none.
    pub(crate) fn with_room(alloc: Global, room: usize) -> Told {
        match String::with_capacity(alloc, room) {
            Ok(text) => Told {
                text,
                is_whole: true,
            },
            Err(_) => Told {
                text: String::new(alloc),
                is_whole: false,
            },
        }
    }

    pub(crate) fn put<T: Display>(&mut self, value: &T) {
        let written = write!(self.text, "{value}");
        self.is_whole &= written.is_ok();
    }

    pub(crate) fn line<T: Display>(&mut self, value: &T) {
        let written = writeln!(self.text, "{value}");
        self.is_whole &= written.is_ok();
    }

    /// A value in the words of `Debug`.
    pub(crate) fn debug<T: Debug>(&mut self, value: &T) {
        let written = writeln!(self.text, "{value:?}");
        self.is_whole &= written.is_ok();
    }
}
