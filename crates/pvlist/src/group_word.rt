//! Groups and levels at the end of rows.
ghost use Rattle.std.specs.Prelude.{◌≡◌, Some, IfOk, IfErr};
ghost use Rattle.pvlist.specs.Fault.{Lacks};
ghost use Rattle.pvlist.specs.RuleLine.{security_of, group_word, level_behind};

use crate::fault::{RuleCause, RuleLineFault};
use crate::row::Security;
use crate::words::RuleWords;
use access_file::Level;
use pv_name::{Group, NameFault};
use std::alloc::Global;

/// The group and the level at the end of a row.
pub(crate) fn read_security(alloc: Global, mut words: RuleWords) -> Result<Security, RuleLineFault>
    ensures ok { IfOk result (λ security. security_of words.entry ≡ Some security) }
    ensures err { IfErr result (Lacks RuleCause.BadGroup (security_of words.entry)) }
{
    let Some(word) = words.next() else {
        return Ok(Security {
            group: None,
            level: Level::One,
        });
    };
    let level = level_behind(words).ok_or(RuleCause::BadGroup)?;
    let group = read_group_word(alloc, word)?;
    Ok(Security {
        group: Some(group),
        level,
    })
}

/// The group that the word is.
pub(crate) fn read_group_word(alloc: Global, word: &str) -> Result<Group, RuleLineFault>
    ensures ok { IfOk result (λ group. group_word word.now ≡ Some group) }
    ensures err { IfErr result (Lacks RuleCause.BadGroup (group_word word.now)) }
{
    match Group::read(alloc, word.as_bytes()) {
        Ok(group) => Ok(group),
        Err(NameFault::OutOfMemory) => Err(RuleLineFault::OutOfMemory),
        Err(_) => Err(RuleLineFault::Cause(RuleCause::BadGroup)),
    }
}

// The level that stands behind a group, where nothing else does.
fn level_behind(mut words: RuleWords) -> Option<Level>
    ensures { result ≡ level_behind words.entry }
{
    let Some(word) = words.next() else {
        return Some(Level::One);
    };
    match words.next() {
        Some(_) => None,
        None => Level::read(word.as_bytes()),
    }
}
