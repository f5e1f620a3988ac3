//! Lines of rule files.
ghost use Rattle.std.specs.Prelude.{false, IfOk, IfErr};
ghost use Rattle.pvlist.specs.Words.{words, first_word};
ghost use Rattle.pvlist.specs.RuleLine.{entry, words_entry, IsItem, IsItemOf, IsFaultOf, HasRoom};

use crate::fault::{RuleCause, RuleLineFault};
use crate::keyword::{Keyword, is_order_line, read_order};
use crate::row::Row;
use crate::rules::Order;
use crate::syntax::Syntax;
use crate::words::RuleWords;
use std::alloc::Global;

/// How many bytes a line has at most, without its end.
pub const LINE_LIMIT: usize = 1_024;

/// How many rows a rule file has at most, and how many lines that aren't blank a group file.
pub const ROW_LIMIT: usize = 4_096;

/// What a line of a rule file says.
#[derive(Drop)]
pub(crate) enum Item {
    Nothing,
    Order(Order),
    Row(Row),
}

/// Reads a line of a rule file, which takes no row where the file is full.
pub(crate) fn read_line(
    alloc: Global,
    line: &str,
    syntax: Syntax,
    full: bool,
) -> Result<Item, RuleLineFault>
    ensures ok { IfOk result (IsItem syntax line.now) }
    ensures room { IfOk result (HasRoom full) }
    ensures err { IfErr result (IsFaultOf syntax (first_word (words line.now)) (entry syntax full line.now)) }
{
    if line.len() > LINE_LIMIT {
        return Err(RuleLineFault::Cause(RuleCause::LineTooLong));
    }
    read_words(alloc, RuleWords::new(line), syntax, full)
}

fn read_words(
    alloc: Global,
    mut words: RuleWords,
    syntax: Syntax,
    full: bool,
) -> Result<Item, RuleLineFault>
    ensures ok { IfOk result (IsItemOf syntax (first_word words.entry) (words_entry syntax false words.entry)) }
    ensures room { IfOk result (HasRoom full) }
    ensures err { IfErr result (IsFaultOf syntax (first_word words.entry) (words_entry syntax full words.entry)) }
{
    let Some(first) = words.next() else {
        return Ok(Item::Nothing);
    };
    let Some(second) = words.next() else {
        return Err(RuleLineFault::Cause(RuleCause::NoVerb));
    };
    if is_order_line(first, second) {
        let order = read_order(words.between_commas()).ok_or(RuleCause::BadOrder)?;
        return Ok(Item::Order(order));
    }
    let keyword = Keyword::read(second).ok_or(RuleCause::NoVerb)?;
    if full {
        return Err(RuleLineFault::Cause(RuleCause::TooManyLines));
    }
    let row = Row::read(alloc, first, syntax, keyword, words)?;
    Ok(Item::Row(row))
}
