//! Rows whose patterns are written as if a group began without a backslash.
ghost use Rattle.std.specs.Prelude.{◌≡◌, ◌≤◌, false, length, position};
ghost use Rattle.pvlist.specs.BareGroups.{first_bare_group, is_bare_row, has_bare_group, bare_count};
ghost use Rattle.pvlist.specs.Captures.{count_escaped, count_bracket, count_opened};
ghost use Rattle.pvlist.specs.Syntax.{is_grouping};
ghost use Rattle.pvlist.specs.Translation.{is_closing};
ghost use Rattle.pvlist.specs.Words.{words};

use crate::keyword::Keyword;
use crate::words::RuleWords;

/// The number of the first row of a rule file, counted from 1, whose pattern has `(`, `)` or `|`
/// outside brackets with no backslash before it as an escape: in the escaped syntax they stand for
/// themselves there. The row may be faulty. It takes no memory.
pub fn first_bare_group(text: &str) -> Option<usize>
    ensures { result ≡ first_bare_group text.now }
{
    let mut number = 0;
    for line in text.lines() {
        number += 1;
        if is_bare_row(line) {
            return Some(number);
        }
    }
    None
}

fn is_bare_row(line: &str) -> bool
    ensures { result ≡ is_bare_row (words line.now) }
{
    let mut words = RuleWords::new(line);
    let Some(pattern) = words.next() else {
        return false;
    };
    let Some(verb) = words.next() else {
        return false;
    };
    Keyword::read(verb).is_some() && has_bare_group(pattern.as_bytes())
}

fn has_bare_group(pattern: &[u8]) -> bool
    ensures { result ≡ has_bare_group pattern.now }
{
    let mut rest = pattern;
    while let [byte, more @ ..] = rest {
        rest = match *byte {
            b'(' | b')' | b'|' => return true,
            b'\\' => behind_escaped(more),
            b'[' => behind_bracket(more),
            _ => more,
        };
    }
    false
}

// What follows the character that is escaped.
fn behind_escaped(rest: &[u8]) -> &[u8]
    ensures bare { count_escaped is_grouping (λ _. false) rest.now ≡ bare_count result.now }
    ensures shorter { length result.now ≤ length rest.now }
{
    match rest {
        [_, left @ ..] => left,
        [] => rest,
    }
}

// What follows the bracket that was opened.
fn behind_bracket(rest: &[u8]) -> &[u8]
    ensures bare { count_bracket is_grouping (λ _. false) rest.now ≡ bare_count result.now }
    ensures shorter { length result.now ≤ length rest.now }
{
    match rest {
        [b'^', inside @ ..] => behind_inside(inside),
        _ => behind_inside(rest),
    }
}

// The same after the start of a bracket, whose first character doesn't close it.
fn behind_inside(rest: &[u8]) -> &[u8]
    ensures bare { count_opened is_grouping (λ _. false) rest.now ≡ bare_count result.now }
    ensures shorter { length result.now ≤ length rest.now }
{
    let [_, more @ ..] = rest else {
        return rest;
    };
    match closing_place(more) {
        Some(end) => &more[end + 1..],
        None => &[],
    }
}

fn closing_place(rest: &[u8]) -> Option<usize>
    ensures { result ≡ position is_closing rest.now }
{
    rest.iter().position(|byte| *byte == b']')
}
