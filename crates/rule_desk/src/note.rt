//! What is noted of a rule file.
ghost use Rattle.std.specs.Prelude.{◌≡◌, option_map};
ghost use Rattle.rule_desk.specs.Note.{noted_line};

use pvlist::{Syntax, first_bare_group};
use std::fmt;

/// The note that a rule file may be meant in the plain syntax.
#[derive(Clone, Copy, Debug, PartialEq, Eq)]
pub struct Note {
    /// The first row that may be, by the number of its line, counted from 1.
    pub line: usize,
}

impl Note {
    /// The note on the text of a rule file that is read in the syntax, where there is one: in the
    /// escaped syntax, of its first row with a `(`, `)` or `|` outside brackets that no backslash
    /// stands before. It takes no memory.
    pub fn of(rules: &str, syntax: Syntax) -> Option<Note>
        ensures { option_map (λ note. note.line) result ≡ noted_line syntax rules.now }
    {
        match syntax {
            Syntax::Escaped => Some(Note {
                line: first_bare_group(rules)?,
            }),
            Syntax::Plain => None,
        }
    }
}

impl fmt::Display for Note {
    ghost use Rattle.std.specs.Prelude.{Some};
    ghost use Rattle.rule_desk.specs.Note.{note_text};

    ghost output = { λ note. Some (note_text note) };

    fn fmt<W: fmt::Write>(&self, f: &mut fmt::Formatter<W>) -> fmt::Result {
        write!(
            f,
            "note: line {}: ( ) | stand for themselves here; --plain-groups reads them as groups",
            self.line
        )
    }
}
