//! The translation of a pattern into the text of a regular expression.
ghost use Rattle.std.specs.Prelude.{◌≡◌, ℕ, Bool, ◌+◌, ◌≤◌, ◌∷◌, if◌then◌else◌, length, chars, Some, None, string_bytes, IfOk, IfErr, OnOk};
ghost use Rattle.pvlist.specs.Captures.{group_count, groups_outside, count_outside, count_escaped, count_bracket, count_opened, opens_group};
ghost use Rattle.pvlist.specs.Syntax.{opens_bare, opens_escaped};
ghost use Rattle.pvlist.specs.Translation.{followed, outside, escaped, bracket, opened, translation};

use crate::bracket::{closing_place, put_members};
use crate::fault::TranslateFault;
use crate::syntax::Syntax;
use crate::writing::{Writing, put};
use std::alloc::{AllocError, Global};

/// The text of the regular expression that a pattern of the escaped syntax stands for. It matches
/// whole names.
///
/// A pattern that is none may be refused for want of memory too.
pub fn translate(alloc: Global, pattern: &str) -> Result<String, TranslateFault>
    ensures ok { IfOk result (λ text. translation Syntax.Escaped pattern.now ≡ Some (string_bytes text)) }
    ensures bad { IfErr result (λ fault. fault ≡ TranslateFault.BadPattern → translation Syntax.Escaped pattern.now ≡ None) }
{
    translate_as(alloc, pattern, Syntax::Escaped)
}

/// The same for a pattern of the syntax.
pub fn translate_as(alloc: Global, pattern: &str, syntax: Syntax) -> Result<String, TranslateFault>
    ensures ok { IfOk result (λ text. translation syntax pattern.now ≡ Some (string_bytes text)) }
    ensures bad { IfErr result (λ fault. fault ≡ TranslateFault.BadPattern → translation syntax pattern.now ≡ None) }
{
    Ok(translate_counted(alloc, pattern, syntax)?.text)
}

/// The translation of a pattern.
#[derive(Drop)]
pub(crate) struct Translated {
    /// The text of a regular expression.
    pub(crate) text: String,
    /// How many groups the pattern has.
    pub(crate) groups: usize,
}

/// The translation of a pattern, if it is one.
pub(crate) fn translate_counted(
    alloc: Global,
    pattern: &str,
    syntax: Syntax,
) -> Result<Translated, TranslateFault>
    ensures ok { IfOk result (λ found. translation syntax pattern.now ≡ Some (string_bytes found.text)) }
    ensures groups { IfOk result (λ found. found.groups ≡ group_count syntax pattern.now) }
    ensures bad { IfErr result (λ fault. fault ≡ TranslateFault.BadPattern → translation syntax pattern.now ≡ None) }
{
    let chars = chars_of(alloc, pattern)?;
    let mut text = String::from_str(alloc, "^(?:")?;
    let groups = put_pattern(&mut text, &chars, syntax)?;
    text.push_str(")$")?;
    Ok(Translated { text, groups })
}

fn chars_of(alloc: Global, text: &str) -> Result<Vec<char>, AllocError>
    ensures { IfOk result (λ all. all.items ≡ chars text.now) }
{
    text.chars().collect(alloc)
}

// Writes at the end what the pattern stands for, and counts its groups.
fn put_pattern(text: &mut String, pattern: &[char], syntax: Syntax) -> Result<usize, TranslateFault>
    ensures ok { OnOk result (followed (string_bytes text.old) (outside syntax pattern.now) ≡ Some (string_bytes text.new)) }
    ensures groups { IfOk result (λ count. count ≡ groups_outside syntax pattern.now) }
    ensures bad { IfErr result (λ fault. fault ≡ TranslateFault.BadPattern → outside syntax pattern.now ≡ None) }
{
    let mut groups = 0;
    let mut rest = pattern;
    while let [c, more @ ..] = rest {
        if opens_group(syntax, *c, more) {
            groups += 1;
        }
        rest = put_piece(text, syntax, *c, more)?;
    }
    Ok(groups)
}

// Whether a group begins with the character.
fn opens_group(syntax: Syntax, c: char, rest: &[char]) -> bool
    ensures { result ≡ opens_group syntax c rest.now }
{
    if syntax.has_bare_groups() {
        return c == '(';
    }
    match rest {
        [next, ..] => c == '\\' && *next == '(',
        [] => false,
    }
}

// Writes the piece of a pattern that the character begins, and gives what is left of the pattern.
fn put_piece<'a>(
    text: &mut String,
    syntax: Syntax,
    c: char,
    rest: &'a [char],
) -> Result<&'a [char], TranslateFault>
    ensures ok { IfOk result (λ left.
        followed (string_bytes text.old) (outside syntax (c ∷ rest.now)) ≡ followed (string_bytes text.new) (outside syntax left.now)) }
    ensures bad { IfErr result (λ fault. fault ≡ TranslateFault.BadPattern → outside syntax (c ∷ rest.now) ≡ None) }
    ensures groups { IfOk result (λ left. groups_outside syntax (c ∷ rest.now) ≡ (if opens_group syntax c rest.now then 1 else 0) + groups_outside syntax left.now) }
    ensures shorter { IfOk result (λ left. length left.now ≤ length rest.now) }
{
    if c == '\\' {
        return put_escaped(text, syntax, rest);
    }
    if c == '[' {
        return put_bracket(text, rest);
    }
    let writing = Writing::outside_brackets(syntax, c).ok_or(TranslateFault::BadPattern)?;
    put(text, writing, c)?;
    Ok(rest)
}

// The same for what begins with a backslash.
fn put_escaped<'a>(
    text: &mut String,
    syntax: Syntax,
    rest: &'a [char],
) -> Result<&'a [char], TranslateFault>
    ensures ok { IfOk result (λ left.
        followed (string_bytes text.old) (escaped syntax rest.now) ≡ followed (string_bytes text.new) (outside syntax left.now)) }
    ensures bad { IfErr result (λ fault. fault ≡ TranslateFault.BadPattern → escaped syntax rest.now ≡ None) }
    ensures groups { IfOk result (λ left. count_escaped (opens_bare syntax) (opens_escaped syntax) rest.now ≡ (if opens_group syntax 92 rest.now then 1 else 0) + groups_outside syntax left.now) }
    ensures shorter { IfOk result (λ left. length left.now ≤ length rest.now) }
{
    let [c, left @ ..] = rest else {
        return Err(TranslateFault::BadPattern);
    };
    let writing = Writing::after_backslash(syntax, *c).ok_or(TranslateFault::BadPattern)?;
    put(text, writing, *c)?;
    Ok(left)
}

// The same for a bracket, in each syntax.
fn put_bracket<'a>(text: &mut String, rest: &'a [char]) -> Result<&'a [char], TranslateFault>
    ensures ok { (syntax : Syntax) → IfOk result (λ left.
        followed (string_bytes text.old) (bracket syntax rest.now) ≡ followed (string_bytes text.new) (outside syntax left.now)) }
    ensures bad { (syntax : Syntax) → IfErr result (λ fault. fault ≡ TranslateFault.BadPattern → bracket syntax rest.now ≡ None) }
    ensures groups { (bare escaped : ℕ → Bool) → IfOk result (λ left. count_bracket bare escaped rest.now ≡ count_outside bare escaped left.now) }
    ensures shorter { IfOk result (λ left. length left.now ≤ length rest.now) }
{
    match rest {
        [] => Err(TranslateFault::BadPattern),
        [mark, more @ ..] if *mark == '^' => put_inside(text, "[^", more),
        _ => put_inside(text, "[", rest),
    }
}

// The same for what follows the start of a bracket, which is written as `start`. The first
// character stands for itself, a closing bracket too.
fn put_inside<'a>(
    text: &mut String,
    start: &str,
    rest: &'a [char],
) -> Result<&'a [char], TranslateFault>
    ensures ok { (syntax : Syntax) → IfOk result (λ left.
        followed (string_bytes text.old) (opened syntax start.now rest.now) ≡ followed (string_bytes text.new) (outside syntax left.now)) }
    ensures bad { (syntax : Syntax) → IfErr result (λ fault. fault ≡ TranslateFault.BadPattern → opened syntax start.now rest.now ≡ None) }
    ensures groups { (bare escaped : ℕ → Bool) → IfOk result (λ left. count_opened bare escaped rest.now ≡ count_outside bare escaped left.now) }
    ensures shorter { IfOk result (λ left. length left.now ≤ length rest.now) }
{
    let [_, more @ ..] = rest else {
        return Err(TranslateFault::BadPattern);
    };
    let Some(end) = closing_place(more) else {
        return Err(TranslateFault::BadPattern);
    };
    text.push_str(start)?;
    put_members(text, &rest[..end + 1])?;
    text.push(']')?;
    Ok(&more[end + 1..])
}
