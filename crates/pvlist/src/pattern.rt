//! Patterns of rows.
ghost use Rattle.std.specs.Prelude.{◌≡◌, false, is_some, IsTrue, IfOk};
ghost use Rattle.regex.specs.Patterns.{find_str, default_config};
ghost use Rattle.regex.specs.Strings.{regex_config, regex_pattern, IsReadFromSource};

use crate::clues::Clues;
use pv_name::Name;
use regex::Regex;
use std::alloc::{AllocError, Global};
use std::marker::Model;

/// The pattern of a row as a regular expression, which matches whole names. Beside it stand bytes that
/// each name has that it matches. A contract sees the regular expression.
#[derive(Drop)]
pub struct Pattern {
    regex: Regex,
    clues: Clues,
}

impl Model for Pattern {
    ghost use Rattle.pvlist.specs.Clues.{AreClues};
    ghost use Rattle.regex.specs.contracts.Regex.{the_row};
    ghost use Rattle.regex.specs.declared.string.regex.Regex.{Regex as Read};

    ghost Value = { Read };

    ghost coded = { the_row.coded };

    ghost view = { λ p. p.regex };

    ghost invariant = { λ p. AreClues p.regex p.clues };
}

impl Pattern {
    pub(crate) fn new(alloc: Global, regex: Regex) -> Result<Pattern, AllocError>
        requires config { regex_config regex ≡ default_config }
        requires read { IsReadFromSource regex }
        ensures { IfOk result (λ pattern. pattern ≡ regex) }
    {
        let clues = Clues::of(alloc, &regex)?;
        Ok(Pattern { regex, clues })
    }

    /// It matches whole names.
    pub fn regex(&self) -> &Regex
        ensures { result.now ≡ self.now }
    {
        &self.regex
    }

    /// Whether the bytes of the name tell that the pattern doesn't match it, so that the regular
    /// expression need not be tried. Where they don't tell, it may match or not.
    pub fn passes_over(&self, name: &Name) -> bool
        ensures { IsTrue result → is_some (find_str (regex_pattern self.now) name.now 0) ≡ false }
    {
        !self.clues.are_in(name.text().as_bytes())
    }
}
