//! The real name of an alias.
ghost use Rattle.std.specs.Prelude.{◌≡◌, ◌∷◌, string_bytes, option_map, Some, IfOk, IfErr};
ghost use Rattle.pvlist.specs.Fault.{Lacks};
ghost use Rattle.pvlist.specs.RealText.{is_reference, is_real_text, real_text_of};

use crate::fault::{RuleCause, RuleLineFault};
use crate::words::RuleWords;
use std::alloc::Global;
use std::marker::Model;

/// What an alias leads to, with its references `\1` to `\9` as they were written. A contract sees
/// its bytes.
#[derive(Debug, Drop)]
pub struct RealText {
    text: String,
}

impl Model for RealText {
    ghost use Rattle.std.specs.Prelude.{ℕ, List, string_bytes};

    ghost Value = { List ℕ };

    ghost view = { λ r. string_bytes r.text };
}

impl RealText {
    /// What was written. It takes no memory.
    pub fn text(&self) -> &str
        ensures { result.now ≡ self.now }
    {
        self.text.as_str()
    }
}

/// The real name that is the word, where the pattern has so many groups.
pub(crate) fn read_real_text(
    alloc: Global,
    groups: usize,
    word: Option<&str>,
) -> Result<RealText, RuleLineFault>
    ensures ok { IfOk result (λ real. real_text_of groups (option_map (λ w. w.now) word.entry) ≡ Some real) }
    ensures bad { IfErr result (Lacks RuleCause.BadReference (real_text_of groups (option_map (λ w. w.now) word.entry))) }
{
    let word = word.ok_or(RuleCause::BadReference)?;
    if !is_real_text(groups, word.as_bytes()) {
        return Err(RuleLineFault::Cause(RuleCause::BadReference));
    }
    Ok(RealText {
        text: String::from_str(alloc, word)?,
    })
}

fn is_real_text(groups: usize, text: &[u8]) -> bool
    ensures { result ≡ is_real_text groups text.now }
{
    let mut rest = text;
    while let [byte, more @ ..] = rest {
        rest = match (*byte, more) {
            (b'\\', [digit, left @ ..]) if is_reference(groups, *digit) => left,
            (byte, _) if byte != b'\\' && byte.is_ascii_graphic() => more,
            _ => return false,
        };
    }
    true
}

// Whether the digit is the number of one of so many groups.
fn is_reference(groups: usize, digit: u8) -> bool
    ensures { result ≡ is_reference groups digit }
{
    (b'1'..=b'9').contains(&digit) && usize::from(digit - b'0') <= groups
}
