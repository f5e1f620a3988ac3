//! How one character is written in a regular expression.
ghost use Rattle.std.specs.Prelude.{◌≡◌, ◌++◌, string_bytes, OnOk};
ghost use Rattle.pvlist.specs.Syntax.{is_grouping};
ghost use Rattle.pvlist.specs.Writing.{written, outside_brackets, after_backslash, in_bracket};

use crate::syntax::Syntax;
use std::alloc::AllocError;

/// What groups and alternatives are made with.
const GROUPING: [char; 3] = ['(', ')', '|'];

/// What a regular expression gives a meaning to and a pattern does not.
const NO_SIGNS: [char; 3] = ['{', '}', ']'];

/// What has to be escaped where a pattern has it after a backslash.
const SIGNS: [char; 11] = ['\\', '.', '+', '*', '?', '[', ']', '{', '}', '^', '$'];

/// What a regular expression gives a meaning to in a bracket.
const BRACKET_SIGNS: [char; 7] = ['\\', '[', ']', '^', '-', '&', '~'];

/// How a character is written in a regular expression.
#[derive(Clone, Copy, Debug, PartialEq, Eq)]
pub(crate) enum Writing {
    /// As it is.
    Bare,
    /// After a backslash.
    Escaped,
}

impl Writing {
    /// How a character of a pattern is written that stands outside brackets, where it may.
    pub(crate) fn outside_brackets(syntax: Syntax, c: char) -> Option<Writing>
        ensures { result ≡ outside_brackets syntax c }
    {
        if !c.is_ascii_graphic() {
            return None;
        }
        if NO_SIGNS.contains(&c) || (is_grouping(c) && !syntax.has_bare_groups()) {
            return Some(Writing::Escaped);
        }
        Some(Writing::Bare)
    }

    /// How a character is written that a pattern has after a backslash, where it may.
    pub(crate) fn after_backslash(syntax: Syntax, c: char) -> Option<Writing>
        ensures { result ≡ after_backslash syntax c }
    {
        if !c.is_ascii_graphic() || c.is_ascii_alphanumeric() {
            return None;
        }
        if SIGNS.contains(&c) || (is_grouping(c) && syntax.has_bare_groups()) {
            return Some(Writing::Escaped);
        }
        Some(Writing::Bare)
    }

    /// How a character is written that stands for itself in a bracket, or is an end of a range.
    pub(crate) fn in_bracket(c: char) -> Writing
        ensures { result ≡ in_bracket c }
    {
        if BRACKET_SIGNS.contains(&c) {
            return Writing::Escaped;
        }
        Writing::Bare
    }
}

fn is_grouping(c: char) -> bool
    ensures { result ≡ is_grouping c }
{
    GROUPING.contains(&c)
}

/// Writes the character at the end.
pub(crate) fn put(text: &mut String, writing: Writing, c: char) -> Result<(), AllocError>
    ensures { OnOk result (string_bytes text.new ≡ string_bytes text.old ++ written writing c) }
{
    match writing {
        Writing::Bare => text.push(c),
        Writing::Escaped => {
            text.push('\\')?;
            text.push(c)
        }
    }
}
