//! What is read of a file.
ghost use Rattle.std.specs.Prelude.{◌≡◌, string_bytes};
ghost use Rattle.serve_state.specs.FileText.{same_text};

use std::marker::Model;

/// What was read of a file.
#[derive(Drop)]
pub struct FileText {
    text: String,
    // When it was last written, in nanoseconds.
    stamp: u128,
}

impl Model for FileText {
    ghost use Rattle.std.specs.Prelude.{string_bytes};
    ghost use Rattle.serve_state.specs.FileText.{TextState};

    ghost Value = { TextState };

    ghost view = { λ t. record { text = string_bytes t.text; stamp = t.stamp } };
}

impl FileText {
    /// The text of a file that was last written so many nanoseconds after some moment.
    pub fn new(text: String, stamp: u128) -> FileText
        ensures { result ≡ record { text = string_bytes text; stamp = stamp } }
    {
        FileText { text, stamp }
    }

    pub fn into_text(self) -> String
        ensures { string_bytes result ≡ self.text }
    {
        let FileText { text, stamp: _ } = self;
        text
    }

    pub(crate) fn is_same(&self, other: &FileText) -> bool
        ensures { result ≡ same_text self.now other.now }
    {
        self.stamp == other.stamp && self.text.as_bytes() == other.text.as_bytes()
    }
}
