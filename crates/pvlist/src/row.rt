//! Rows of rules.
ghost use Rattle.std.specs.Prelude.{IfOk, IfErr};
ghost use Rattle.pvlist.specs.declared.keyword.Keyword.TheVariants.{Allow, Alias, Deny};
ghost use Rattle.pvlist.specs.RuleLine.{row_entry, IsRow, IsFaultOf};

use crate::compiled::Compiled;
use crate::fault::RuleLineFault;
use crate::group_word::read_security;
use crate::host_words::read_hosts;
use crate::hosts::Hosts;
use crate::keyword::Keyword;
use crate::pattern::Pattern;
use crate::real_text::{RealText, read_real_text};
use crate::syntax::Syntax;
use crate::words::RuleWords;
use access_file::Level;
use pv_name::Group;
use std::alloc::Global;

/// A row of the rules: which names it speaks of, and what it does with them.
#[derive(Drop)]
pub struct Row {
    pub pattern: Pattern,
    pub verb: Verb,
}

/// The access security group of a row, and the level of its variables.
#[derive(Debug, Drop)]
pub struct Security {
    pub group: Option<Group>,
    /// 1 where the row has none.
    pub level: Level,
}

/// What a row does with a name that it matches.
#[derive(Drop)]
pub enum Verb {
    /// The name leads to itself, with the rights of the group.
    Allow(Security),
    /// The name leads to another, with the rights of the group.
    Alias(RealText, Security),
    /// The name is refused.
    Deny(Hosts),
}

impl Row {
    /// Reads a row from its pattern, which is of the syntax, its keyword and the words that follow.
    pub(crate) fn read(
        alloc: Global,
        pattern: &str,
        syntax: Syntax,
        keyword: Keyword,
        words: RuleWords,
    ) -> Result<Row, RuleLineFault>
        ensures ok { IfOk result (IsRow syntax pattern.now (row_entry syntax pattern.now keyword words.entry)) }
        ensures err { IfErr result (IsFaultOf syntax pattern.now (row_entry syntax pattern.now keyword words.entry)) }
    {
        match keyword {
            Keyword::Allow => Row::read_allow(alloc, pattern, syntax, words),
            Keyword::Alias => Row::read_alias(alloc, pattern, syntax, words),
            Keyword::Deny => Row::read_deny(alloc, pattern, syntax, words),
        }
    }

    fn read_allow(
        alloc: Global,
        pattern: &str,
        syntax: Syntax,
        words: RuleWords,
    ) -> Result<Row, RuleLineFault>
        ensures ok { IfOk result (IsRow syntax pattern.now (row_entry syntax pattern.now Allow words.entry)) }
        ensures err { IfErr result (IsFaultOf syntax pattern.now (row_entry syntax pattern.now Allow words.entry)) }
    {
        let security = read_security(alloc, words)?;
        let compiled = Compiled::new(alloc, pattern, syntax)?;
        Ok(Row {
            pattern: compiled.pattern,
            verb: Verb::Allow(security),
        })
    }

    fn read_alias(
        alloc: Global,
        pattern: &str,
        syntax: Syntax,
        mut words: RuleWords,
    ) -> Result<Row, RuleLineFault>
        ensures ok { IfOk result (IsRow syntax pattern.now (row_entry syntax pattern.now Alias words.entry)) }
        ensures err { IfErr result (IsFaultOf syntax pattern.now (row_entry syntax pattern.now Alias words.entry)) }
    {
        let real = words.next();
        let security = read_security(alloc, words)?;
        let compiled = Compiled::new(alloc, pattern, syntax)?;
        let real = read_real_text(alloc, compiled.groups, real)?;
        Ok(Row {
            pattern: compiled.pattern,
            verb: Verb::Alias(real, security),
        })
    }

    fn read_deny(
        alloc: Global,
        pattern: &str,
        syntax: Syntax,
        words: RuleWords,
    ) -> Result<Row, RuleLineFault>
        ensures ok { IfOk result (IsRow syntax pattern.now (row_entry syntax pattern.now Deny words.entry)) }
        ensures err { IfErr result (IsFaultOf syntax pattern.now (row_entry syntax pattern.now Deny words.entry)) }
    {
        let hosts = read_hosts(alloc, words.between_commas())?;
        let compiled = Compiled::new(alloc, pattern, syntax)?;
        Ok(Row {
            pattern: compiled.pattern,
            verb: Verb::Deny(hosts),
        })
    }
}
