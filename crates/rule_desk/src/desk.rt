//! The desk.
ghost use Rattle.std.specs.Prelude.{◌≡◌, ◌+◌, ◌-◌, ◌^◌, min, option_copied, IfOk, IfErr, OnOk, OnErr};
ghost use Rattle.rule_desk.specs.Edit.{AreRulesOf, AreGroupsOf, IsAccessOf, IsPolicyOf, IsDeskFault, IsRulesFault, IsGroupsFault, IsAccessFault};
ghost use Rattle.rule_desk.specs.Texts.{without_access};

use crate::fault::DeskFault;
use crate::policy::{BoxedAccess, Policy};
use crate::texts::PolicyTexts;
use access_file::{Access, AccessFault, HostNames};
use pvlist::{Groups, RuleFault, Rules, Syntax};
use std::alloc::{AllocError, Global};
use std::marker::Model;

/// Where a policy is edited. A contract sees how many edits were accepted, and the syntax of rule
/// files.
#[derive(Drop)]
pub struct Desk {
    alloc: Global,
    edits: u64,
    syntax: Syntax,
}

impl Model for Desk {
    ghost use Rattle.rule_desk.specs.DeskState.{DeskState};

    ghost Value = { DeskState };

    ghost view = { λ d. record { edits = d.edits; syntax = d.syntax } };
}

impl Desk {
    /// No edit was accepted yet, and patterns are of the escaped syntax. It takes no memory.
    pub fn new(alloc: Global) -> Desk
        ensures { result ≡ record { edits = 0; syntax = Syntax.Escaped } }
    {
        Desk::with_syntax(alloc, Syntax::Escaped)
    }

    /// The same where patterns are of the syntax. It takes no memory.
    pub fn with_syntax(alloc: Global, syntax: Syntax) -> Desk
        ensures { result ≡ record { edits = 0; syntax = syntax } }
    {
        Desk {
            alloc,
            edits: 0,
            syntax,
        }
    }

    /// How many edits were accepted, up to the greatest number that fits.
    pub fn edits(&self) -> u64
        ensures { result ≡ self.now.edits }
    {
        self.edits
    }

    /// In which syntax the patterns of rule files are.
    pub fn syntax(&self) -> Syntax
        ensures { result ≡ self.now.syntax }
    {
        self.syntax
    }

    /// The policy of a rule file and a group file. Without a rule file each name leads to itself, and
    /// without a group file no group has a line, whatever the edit before had.
    pub fn edit<'t>(
        &mut self,
        rules: Option<&'t str>,
        groups: Option<&'t str>,
    ) -> Result<Policy, DeskFault>
        ensures ok { IfOk result (IsPolicyOf self.old.syntax (without_access (option_copied rules.entry) (option_copied groups.entry))) }
        ensures counted { OnOk result (self.new ≡ record self.old { edits = min (self.old.edits + 1) (2 ^ 64 - 1) }) }
        ensures err { IfErr result (IsDeskFault self.old.syntax (without_access (option_copied rules.entry) (option_copied groups.entry))) }
        ensures kept { OnErr result (self.new ≡ self.old) }
    {
        self.read(&PolicyTexts {
            rules,
            groups,
            access: None,
        })
    }

    /// The policy of all three files, in which no host has a name. Without an access security file all may do what the group file says.
    /// Nothing is taken over from the edit before.
    pub fn read(&mut self, texts: &PolicyTexts<'_>) -> Result<Policy, DeskFault>
        ensures ok { IfOk result (IsPolicyOf self.old.syntax texts.now) }
        ensures counted { OnOk result (self.new ≡ record self.old { edits = min (self.old.edits + 1) (2 ^ 64 - 1) }) }
        ensures err { IfErr result (IsDeskFault self.old.syntax texts.now) }
        ensures kept { OnErr result (self.new ≡ self.old) }
    {
        let rules = read_rules(self.alloc, self.syntax, texts.rules)?;
        let groups = read_groups(self.alloc, texts.groups)?;
        let access = read_access(self.alloc, texts.access)?;
        self.edits = self.edits.saturating_add(1);
        Ok(Policy {
            rules,
            groups,
            access,
            names: HostNames::new(self.alloc),
        })
    }
}

fn read_rules(alloc: Global, syntax: Syntax, text: Option<&str>) -> Result<Rules, DeskFault>
    ensures ok { IfOk result (AreRulesOf syntax (option_copied text.entry)) }
    ensures err { IfErr result (IsRulesFault syntax (option_copied text.entry)) }
{
    let Some(text) = text else {
        return Ok(Rules::open_to_all(alloc));
    };
    match Rules::read_as(alloc, text, syntax) {
        Ok(rules) => Ok(rules),
        Err(RuleFault::At(line, cause)) => Err(DeskFault::Rules(line, cause)),
        Err(RuleFault::OutOfMemory) => Err(DeskFault::OutOfMemory),
    }
}

fn read_groups(alloc: Global, text: Option<&str>) -> Result<Groups, DeskFault>
    ensures ok { IfOk result (AreGroupsOf (option_copied text.entry)) }
    ensures err { IfErr result (IsGroupsFault (option_copied text.entry)) }
{
    let Some(text) = text else {
        return Ok(Groups::none(alloc));
    };
    match Groups::read(alloc, text) {
        Ok(groups) => Ok(groups),
        Err(RuleFault::At(line, cause)) => Err(DeskFault::Groups(line, cause)),
        Err(RuleFault::OutOfMemory) => Err(DeskFault::OutOfMemory),
    }
}

fn read_access(alloc: Global, text: Option<&str>) -> Result<Option<BoxedAccess>, DeskFault>
    ensures ok { IfOk result (IsAccessOf (option_copied text.entry)) }
    ensures err { IfErr result (IsAccessFault (option_copied text.entry)) }
{
    let Some(text) = text else {
        return Ok(None);
    };
    let access = match Access::read(alloc, text) {
        Ok(access) => access,
        Err(AccessFault::At(line, cause)) => return Err(DeskFault::Access(line, cause)),
        Err(AccessFault::OutOfMemory) => return Err(DeskFault::OutOfMemory),
    };
    match BoxedAccess::new(alloc, access) {
        Ok(access) => Ok(Some(access)),
        Err(AllocError) => Err(DeskFault::OutOfMemory),
    }
}
