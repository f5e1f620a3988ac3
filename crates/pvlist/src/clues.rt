//! What the bytes of a name tell of whether a pattern may match it, before its regular expression is tried.
ghost use Rattle.std.specs.Prelude.{◌≡◌, IfOk, IfSome};
ghost use Rattle.regex.specs.Patterns.{default_config};
ghost use Rattle.regex.specs.Strings.{regex_config, IsReadFromSource};
ghost use Rattle.regex_hir.specs.Meaning.{meaning};
ghost use Rattle.pvlist.specs.Clues.{stands_in, is_there, has_one, has_clues, AreClues, AreCluesOf};

use regex::Regex;
use regex_extract::{Needles, is_anchored_end, is_anchored_start, prefixes, required, suffixes};
use regex_hir::Hir;
use regex_syntax::{Config, ErrorKind, parse};
use std::alloc::{AllocError, Global};

/// Where a pattern may choose among more texts than this, they are not compared.
const MOST_TEXTS: usize = 16;

/// Texts of which a name has one that a pattern matches: at its start, at its end, and anywhere. Where
/// none are known, every name is as good as another.
#[derive(Drop)]
pub(crate) struct Clues {
    pub(crate) starts: Option<Needles>,
    pub(crate) ends: Option<Needles>,
    pub(crate) inside: Option<Needles>,
}

/// Where in a name a text stands.
#[derive(Clone, Copy)]
enum TextPlace {
    Start,
    End,
    Anywhere,
}

impl Clues {
    /// Those of a regular expression.
    pub(crate) fn of(alloc: Global, regex: &Regex) -> Result<Clues, AllocError>
        requires config { regex_config regex.now ≡ default_config }
        requires read { IsReadFromSource regex.now }
        ensures { IfOk result (AreClues regex.now) }
    {
        match parse(alloc, regex.as_str(), &Config::default()) {
            Ok(parsed) => clues_of(alloc, &parsed.hir),
            Err(error) => match error.kind {
                ErrorKind::OutOfMemory => Err(AllocError),
                _ => Ok(Clues::unknown()),
            },
        }
    }

    fn unknown() -> Clues
        ensures { result ≡ record { starts = None; ends = None; inside = None } }
    {
        Clues {
            starts: None,
            ends: None,
            inside: None,
        }
    }

    /// Whether the name has what is known of those that the pattern matches.
    pub(crate) fn are_in(&self, name: &[u8]) -> bool
        ensures { result ≡ has_clues self.now name.now }
    {
        has_one(TextPlace::Start, &self.starts, name)
            && has_one(TextPlace::End, &self.ends, name)
            && has_one(TextPlace::Anywhere, &self.inside, name)
    }
}

/// Those of a tree that matches whole names; of another nothing is told.
fn clues_of(alloc: Global, tree: &Hir) -> Result<Clues, AllocError>
    ensures { IfOk result (AreCluesOf (meaning tree.now)) }
{
    if !is_anchored_start(tree) || !is_anchored_end(tree) {
        return Ok(Clues::unknown());
    }
    Ok(Clues {
        starts: few(prefixes(alloc, tree)?),
        ends: few(suffixes(alloc, tree)?),
        inside: few(required(alloc, tree)?),
    })
}

fn few(texts: Option<Needles>) -> Option<Needles>
    ensures { IfSome result (λ kept. texts ≡ Some kept) }
{
    match texts {
        Some(texts) if texts.len() <= MOST_TEXTS => Some(texts),
        _ => None,
    }
}

// Whether one of the texts stands at the place.
fn has_one(place: TextPlace, texts: &Option<Needles>, name: &[u8]) -> bool
    ensures { result ≡ has_one place texts.now name.now }
{
    let Some(texts) = texts else {
        return true;
    };
    for text in texts {
        if is_there(place, name, text) {
            return true;
        }
    }
    false
}

fn is_there(place: TextPlace, name: &[u8], text: &[u8]) -> bool
    ensures { result ≡ is_there place name.now text.now }
{
    match place {
        TextPlace::Start => name.starts_with(text),
        TextPlace::End => name.ends_with(text),
        TextPlace::Anywhere => stands_in(name, text),
    }
}

fn stands_in(name: &[u8], text: &[u8]) -> bool
    ensures { result ≡ stands_in name.now text.now }
{
    let mut rest = name;
    while let [_, more @ ..] = rest {
        if rest.starts_with(text) {
            return true;
        }
        rest = more;
    }
    false
}
