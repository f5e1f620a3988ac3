//! A file that somebody may be writing.
ghost use Rattle.std.specs.Prelude.{◌≡◌, None};
ghost use Rattle.serve_state.specs.Steady.{after_reading, agrees, reading_of};

use crate::file_text::FileText;
use std::marker::Model;

/// So many readings are made at most.
pub const READINGS: u32 = 50;

/// What a reading tells.
#[derive(Drop)]
pub enum FileReading {
    /// Two readings agree, and it was not written between them: this is the file's text.
    Steady(FileText),
    /// It is to be read again, after a pause.
    Again,
    /// It was read as often as it is to be, and no two readings one after the other agree.
    Unsteady,
}

/// The last reading of a file, and how many may follow.
#[derive(Drop)]
pub struct Steady {
    last: Option<FileText>,
    left: u32,
}

impl Model for Steady {
    ghost use Rattle.serve_state.specs.Steady.{SteadyState};

    ghost Value = { SteadyState };

    ghost view = { λ s. record { last = s.last; left = s.left } };
}

impl Steady {
    /// Nothing was read.
    pub fn new() -> Steady
        ensures { result ≡ record { last = None; left = 50 } }
    {
        Steady {
            last: None,
            left: READINGS,
        }
    }

    /// The file was read, and has this text.
    pub fn read(&mut self, text: FileText) -> FileReading
        ensures reading { result ≡ reading_of text self.old }
        ensures new { self.new ≡ after_reading text self.old }
    {
        if self.agrees(&text) {
            return FileReading::Steady(text);
        }
        self.last = Some(text);
        self.left = self.left.saturating_sub(1);
        if self.left == 0 {
            FileReading::Unsteady
        } else {
            FileReading::Again
        }
    }

    fn agrees(&self, text: &FileText) -> bool
        ensures { result ≡ agrees text.now self.now }
    {
        match &self.last {
            Some(last) => last.is_same(text),
            None => false,
        }
    }
}
