//! Brackets.
ghost use Rattle.std.specs.Prelude.{◌≡◌, ◌≤◌, ◌∷◌, ◌++◌, length, position, string_bytes, OnOk, IfOk};
ghost use Rattle.pvlist.specs.Translation.{is_closing, literal, members};

use crate::writing::{Writing, put};
use std::alloc::AllocError;

/// The place of the first closing bracket.
pub(crate) fn closing_place(pattern: &[char]) -> Option<usize>
    ensures { result ≡ position is_closing pattern.now }
{
    pattern.iter().position(|c| *c == ']')
}

/// Writes at the end what stands inside a bracket.
pub(crate) fn put_members(text: &mut String, inside: &[char]) -> Result<(), AllocError>
    ensures { OnOk result (string_bytes text.new ≡ string_bytes text.old ++ members inside.now) }
{
    let mut rest = inside;
    while let [c, more @ ..] = rest {
        rest = put_member(text, *c, more)?;
    }
    Ok(())
}

// Writes the character, with the range that it begins, if it does, and gives what is left.
fn put_member<'a>(text: &mut String, c: char, rest: &'a [char]) -> Result<&'a [char], AllocError>
    ensures ok { IfOk result (λ left.
        string_bytes text.old ++ members (c ∷ rest.now) ≡ string_bytes text.new ++ members left.now) }
    ensures shorter { IfOk result (λ left. length left.now ≤ length rest.now) }
{
    put_literal(text, c)?;
    match rest {
        [dash, end, left @ ..] if *dash == '-' => {
            text.push('-')?;
            put_literal(text, *end)?;
            Ok(left)
        }
        _ => Ok(rest),
    }
}

// Writes a character that stands for itself.
fn put_literal(text: &mut String, c: char) -> Result<(), AllocError>
    ensures { OnOk result (string_bytes text.new ≡ string_bytes text.old ++ literal c) }
{
    put(text, Writing::in_bracket(c), c)
}
