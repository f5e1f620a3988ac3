//! What a script asks for next.
ghost use Rattle.std.specs.Prelude.{◌≡◌, None, option_copied};
ghost use Rattle.replay.specs.Editing.{texts_of};
ghost use Rattle.replay.specs.Script.{text_file};

use replay_text::Line;
use rule_desk::PolicyTexts;
use std::marker::Model;

/// A line of a script, and the files that follow it.
#[derive(Drop)]
pub struct ScriptEntry {
    pub line: Line,
    pub files: EditFiles,
}

/// The rule file, the group file and the access security file of an edit. Other lines have none of them.
#[derive(Drop)]
pub struct EditFiles {
    pub rules: File,
    pub groups: File,
    pub access: File,
}

impl EditFiles {
    /// Their texts.
    pub fn texts(&self) -> PolicyTexts<'_>
        ensures { result ≡ texts_of self.now }
    {
        PolicyTexts {
            rules: self.rules.text(),
            groups: self.groups.text(),
            access: self.access.text(),
        }
    }
}

/// A file that may be there, as text. A contract sees its bytes.
#[derive(Drop)]
pub struct File {
    text: Option<String>,
}

impl Model for File {
    ghost use Rattle.std.specs.Prelude.{List, Option, ℕ, option_map, string_bytes};

    ghost Value = { Option (List ℕ) };

    ghost view = { λ f. option_map string_bytes f.text };
}

impl File {
    /// There is none.
    pub fn none() -> File
        ensures { result ≡ None }
    {
        File { text: None }
    }

    /// The file of these bytes, nothing where they are no UTF-8.
    pub fn read(bytes: Vec<u8>) -> Option<File>
        ensures { result ≡ text_file bytes.items }
    {
        match String::from_utf8(bytes) {
            Ok(text) => Some(File { text: Some(text) }),
            Err(_) => None,
        }
    }

    /// Its text, nothing where there is no file.
    pub fn text(&self) -> Option<&str>
        ensures { option_copied result ≡ self.now }
    {
        match &self.text {
            Some(text) => Some(text.as_str()),
            None => None,
        }
    }
}
