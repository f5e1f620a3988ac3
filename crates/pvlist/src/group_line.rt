//! Lines of group files.
ghost use Rattle.std.specs.Prelude.{◌≡◌, false, Ok, IfOk, IfErr};
ghost use Rattle.pvlist.specs.GroupFile.{group_entry, group_words_entry, only_right, Says, IsFaultOf, HasRoom};

use crate::fault::{RuleCause, RuleLineFault};
use crate::group_word::read_group_word;
use crate::groups::{GroupLine, GroupRight};
use crate::keyword::read_right;
use crate::line::LINE_LIMIT;
use crate::words::RuleWords;
use std::alloc::Global;

/// Reads a line of a group file, of which none is taken but a blank one where the file is full.
pub(crate) fn read_group_line(
    alloc: Global,
    line: &str,
    full: bool,
) -> Result<Option<GroupLine>, RuleLineFault>
    ensures ok { IfOk result (Says line.now) }
    ensures room { IfOk result (HasRoom full) }
    ensures err { IfErr result (IsFaultOf (group_entry full line.now)) }
{
    if line.len() > LINE_LIMIT {
        return Err(RuleLineFault::Cause(RuleCause::LineTooLong));
    }
    read_group_words(alloc, RuleWords::new(line), full)
}

fn read_group_words(
    alloc: Global,
    mut words: RuleWords,
    full: bool,
) -> Result<Option<GroupLine>, RuleLineFault>
    ensures ok { IfOk result (λ line. group_words_entry false words.entry ≡ Ok line) }
    ensures room { IfOk result (HasRoom full) }
    ensures err { IfErr result (IsFaultOf (group_words_entry full words.entry)) }
{
    let Some(group) = words.next() else {
        return Ok(None);
    };
    if full {
        return Err(RuleLineFault::Cause(RuleCause::TooManyLines));
    }
    let right = only_right(words).ok_or(RuleCause::BadGroup)?;
    let group = read_group_word(alloc, group)?;
    Ok(Some(GroupLine { group, right }))
}

// The right, where nothing follows it.
fn only_right(mut words: RuleWords) -> Option<GroupRight>
    ensures { result ≡ only_right words.entry }
{
    let word = words.next()?;
    match words.next() {
        Some(_) => None,
        None => read_right(word),
    }
}
