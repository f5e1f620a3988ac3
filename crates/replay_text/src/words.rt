//! The words of a line.
ghost use Rattle.std.specs.Prelude.{◌≡◌, ◌∷◌, option_copied, option_map, position};
ghost use Rattle.std.specs.List.{slice_split};
ghost use Rattle.replay_text.specs.Words.{is_blank, words_of, first, after_first, no_word, one_word, two_words, four_words};

use std::marker::Model;

/// The words that are left of a line. One blank stands between two words, so a word is empty where
/// two blanks meet. A contract sees them as the list of their bytes.
#[derive(Debug, Drop)]
pub struct Words<'a> {
    // What follows the last word that was taken and its blank; None after the line's last word.
    rest: Option<&'a [u8]>,
}

impl<'a> Model for Words<'a> {
    ghost use Rattle.std.specs.Prelude.{List, ℕ, option_copied};
    ghost use Rattle.replay_text.specs.Words.{words_of};

    ghost Value = { List (List ℕ) };

    ghost view = { λ w. words_of (option_copied w.rest) };
}

impl<'a> Words<'a> {
    /// All words of a line.
    pub fn new(line: &'a [u8]) -> Self
        ensures { result ≡ slice_split is_blank line.entry.now }
    {
        Words { rest: Some(line) }
    }

    /// Takes the first word, if there is one.
    pub fn take_first(&mut self) -> Option<&'a [u8]>
        ensures word { option_copied result ≡ first self.old }
        ensures rest { self.new ≡ after_first self.old }
    {
        let (word, rest) = cut(self.rest?);
        self.rest = rest;
        Some(word)
    }

    /// Asks that no word is left.
    pub fn none(self) -> Option<()>
        ensures { result ≡ no_word self.entry }
    {
        match self.rest {
            Some(_) => None,
            None => Some(()),
        }
    }

    /// The one word that is left.
    pub fn one(mut self) -> Option<&'a [u8]>
        ensures { option_copied result ≡ one_word self.entry }
    {
        let word = self.take_first()?;
        self.none()?;
        Some(word)
    }

    /// The two words that are left.
    pub fn two(mut self) -> Option<(&'a [u8], &'a [u8])>
        ensures { option_map (λ words. (words.0.now, words.1.now)) result ≡ two_words self.entry }
    {
        let first = self.take_first()?;
        Some((first, self.one()?))
    }

    /// The four words that are left, two and two.
    pub fn four(mut self) -> Option<((&'a [u8], &'a [u8]), (&'a [u8], &'a [u8]))>
        ensures { option_map (λ words. ((words.0.0.now, words.0.1.now), (words.1.0.now, words.1.1.now))) result ≡ four_words self.entry }
    {
        let first = self.take_first()?;
        let second = self.take_first()?;
        Some(((first, second), self.two()?))
    }
}

/// The first word, and what follows its blank where there is one.
fn cut(line: &[u8]) -> (&[u8], Option<&[u8]>)
    ensures { slice_split is_blank line.now ≡ result.0.now ∷ words_of (option_copied result.1) }
{
    match first_blank(line) {
        Some(blank) => (&line[..blank], Some(&line[blank + 1..])),
        None => (line, None),
    }
}

/// The place of the first blank.
fn first_blank(line: &[u8]) -> Option<usize>
    ensures { result ≡ position is_blank line.now }
{
    line.iter().position(|b| *b == b' ')
}
