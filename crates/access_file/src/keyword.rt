//! Keywords. They are in upper case.
ghost use Rattle.std.specs.Prelude.{◌≡◌};
ghost use Rattle.access_file.specs.Keywords.{kind_of, party_of, is_rule, no_keyword, is_calculated, is_input, is_unserved, right_of, recording_of};

use crate::fault::AccessCause;
use crate::place::{Kind, Party};
use crate::rule::Right;

/// What the keyword defines.
pub(crate) fn kind_of(word: &[u8]) -> Option<Kind>
    ensures { result ≡ kind_of word.now }
{
    if word == b"ASG".as_slice() {
        return Some(Kind::Rules);
    }
    match party_of(word) {
        Some(party) => Some(Kind::List(party)),
        None => None,
    }
}

/// Whom the keyword is about.
pub(crate) fn party_of(word: &[u8]) -> Option<Party>
    ensures { result ≡ party_of word.now }
{
    if word == b"UAG".as_slice() {
        return Some(Party::Users);
    }
    if word == b"HAG".as_slice() {
        return Some(Party::Hosts);
    }
    None
}

pub(crate) fn is_rule(word: &[u8]) -> bool
    ensures { result ≡ is_rule word.now }
{
    word == b"RULE".as_slice()
}

/// Why the word is none of the keywords that may stand here.
pub(crate) fn no_keyword(word: &[u8]) -> AccessCause
    ensures { result ≡ no_keyword word.now }
{
    if is_calculated(word) {
        AccessCause::Calculated
    } else if is_unserved(word) {
        AccessCause::Unserved
    } else {
        AccessCause::UnknownWord
    }
}

fn is_calculated(word: &[u8]) -> bool
    ensures { result ≡ is_calculated word.now }
{
    word == b"CALC".as_slice() || is_input(word)
}

fn is_input(word: &[u8]) -> bool
    ensures { result ≡ is_input word.now }
{
    word.len() == 4 && &word[..3] == b"INP".as_slice() && word[3] >= b'A' && word[3] <= b'U'
}

fn is_unserved(word: &[u8]) -> bool
    ensures { result ≡ is_unserved word.now }
{
    word == b"METHOD".as_slice()
        || word == b"AUTHORITY".as_slice()
        || word == b"PROTOCOL".as_slice()
}

pub(crate) fn right_of(word: &[u8]) -> Option<Right>
    ensures { result ≡ right_of word.now }
{
    if word == b"NONE".as_slice() {
        return Some(Right::None);
    }
    if word == b"READ".as_slice() {
        return Some(Right::Read);
    }
    if word == b"WRITE".as_slice() {
        return Some(Right::Write);
    }
    None
}

/// Whether writes are recorded.
pub(crate) fn recording_of(word: &[u8]) -> Option<bool>
    ensures { result ≡ recording_of word.now }
{
    if word == b"TRAPWRITE".as_slice() {
        return Some(true);
    }
    if word == b"NOTRAPWRITE".as_slice() {
        return Some(false);
    }
    None
}
