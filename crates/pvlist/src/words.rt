//! The words of a line.
ghost use Rattle.std.specs.Prelude.{◌≡◌, ◌∷◌, [], position, drop, Some, IfSome, IfNone, option_map};
ghost use Rattle.pvlist.specs.Words.{uncommented, words, between_commas, next_word};
ghost use Rattle.pvlist.specs.Separators.{is_separator, parts};

use std::marker::Model;

/// The words of a line, one after another. A contract sees those that are left.
#[derive(Drop)]
pub(crate) struct RuleWords<'a> {
    rest: Option<&'a str>,
    // Whether commas part words, as blanks do.
    commas: bool,
}

impl<'a> Model for RuleWords<'a> {
    ghost use Rattle.std.specs.Prelude.{ℕ, List, option_map};
    ghost use Rattle.pvlist.specs.Separators.{words_left};

    ghost Value = { List (List ℕ) };

    ghost view = { λ w. words_left w.commas (option_map (λ text. text.now) w.rest) };
}

impl<'a> RuleWords<'a> {
    /// All words of the line, which blanks part.
    pub(crate) fn new(line: &'a str) -> Self
        ensures { result ≡ words line.now }
    {
        RuleWords {
            rest: Some(without_comment(line)),
            commas: false,
        }
    }

    /// The words that are left, which commas part too.
    pub(crate) fn between_commas(self) -> Self
        ensures { result ≡ between_commas self.entry }
    {
        RuleWords {
            rest: self.rest,
            commas: true,
        }
    }

    /// Takes the first word.
    pub(crate) fn next(&mut self) -> Option<&'a str>
        ensures some { IfSome result (λ word. self.old ≡ word.now ∷ self.new) }
        ensures none { IfNone result (self.old ≡ []) }
        ensures end { IfNone result (self.new ≡ []) }
        ensures first { option_map (λ word. word.now) result ≡ next_word self.old }
        ensures rest { self.new ≡ drop 1 self.old }
    {
        while let Some(text) = self.rest {
            let (part, rest) = split_part(text, self.commas);
            self.rest = rest;
            if !part.is_empty() {
                return Some(part);
            }
        }
        None
    }
}

fn without_comment(line: &str) -> &str
    ensures { result.now ≡ uncommented line.now }
{
    match line.split_once('#') {
        Some((front, _)) => front,
        None => line,
    }
}

// What stands before the first separator, and what follows that.
fn split_part(text: &str, commas: bool) -> (&str, Option<&str>)
    ensures { parts commas (Some text.now) ≡ result.0.now ∷ parts commas (option_map (λ rest. rest.now) result.1) }
{
    match separator_place(text.as_bytes(), commas) {
        Some(end) => (&text[..end], Some(&text[end + 1..])),
        None => (text, None),
    }
}

fn separator_place(text: &[u8], commas: bool) -> Option<usize>
    ensures { result ≡ position (is_separator commas) text.now }
{
    text.iter().position(|b| is_separator(*b, commas))
}

fn is_separator(byte: u8, commas: bool) -> bool
    ensures { result ≡ is_separator commas byte }
{
    byte == b' ' || byte == b'\t' || (commas && byte == b',')
}
