//! The regular expressions of patterns.
ghost use Rattle.std.specs.Prelude.{◌≡◌, IfOk, IfErr};
ghost use Rattle.pvlist.specs.Captures.{group_count};
ghost use Rattle.pvlist.specs.Compiled.{IsCompiled};
ghost use Rattle.pvlist.specs.RuleLine.{IsPatternFault};

use crate::fault::{RuleCause, RuleLineFault};
use crate::pattern::Pattern;
use crate::syntax::Syntax;
use crate::translation::translate_counted;
use regex::Regex;
use std::alloc::Global;

/// A pattern as a regular expression.
#[derive(Drop)]
pub(crate) struct Compiled {
    pub(crate) pattern: Pattern,
    /// How many groups the pattern has.
    pub(crate) groups: usize,
}

impl Compiled {
    pub(crate) fn new(
        alloc: Global,
        pattern: &str,
        syntax: Syntax,
    ) -> Result<Compiled, RuleLineFault>
        ensures ok { IfOk result (λ compiled. IsCompiled syntax pattern.now compiled.pattern) }
        ensures groups { IfOk result (λ compiled. compiled.groups ≡ group_count syntax pattern.now) }
        ensures err { IfErr result (IsPatternFault syntax pattern.now) }
    {
        let translated = translate_counted(alloc, pattern, syntax)?;
        match Regex::new(alloc, translated.text.as_str()) {
            Ok(regex) => Ok(Compiled {
                pattern: Pattern::new(alloc, regex)?,
                groups: translated.groups,
            }),
            Err(regex::Error::OutOfMemory) => Err(RuleLineFault::OutOfMemory),
            Err(_) => Err(RuleLineFault::Cause(RuleCause::BadPattern)),
        }
    }
}
