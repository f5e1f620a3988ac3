//! Rows that names are tried on.
ghost use Rattle.std.specs.Prelude.{◌≡◌, ◌&&◌, IfOk};
ghost use Rattle.pvlist.specs.Ruling.{matches};
ghost use Rattle.pv_alias.specs.RealName.{real_name};
ghost use Rattle.pv_alias.specs.Resolution.{is_grant, lead_by};
ghost use Rattle.regex.specs.Strings.{matcher_pattern, regex_pattern};

use crate::NoMemory;
use crate::lead::Lead;
use crate::real_name::real_name;
use pv_name::Name;
use pvlist::{RealText, Row, Verb};
use regex::{Matcher, Regex};
use std::alloc::Global;
use std::marker::Model;

/// A row, and the matcher of its pattern: made when a name is first tried on the row, and kept. A
/// contract sees the row.
#[derive(Drop)]
pub(crate) struct Tried<'r> {
    row: &'r Row,
    matcher: Option<Box<Matcher<'r>>>,
}

impl<'r> Model for Tried<'r> {
    ghost use Rattle.pvlist.specs.contracts.row.Row.{the_row};
    ghost use Rattle.pvlist.specs.declared.row.Row.{Row};
    ghost use Rattle.regex.specs.Strings.{matcher_pattern, regex_pattern};
    ghost use Rattle.std.specs.Prelude.{◌≡◌, IfSome};

    ghost Value = { Row };

    ghost coded = { the_row.coded };

    ghost view = { λ t. t.row.now };

    ghost invariant = { λ t. IfSome t.matcher (λ m. matcher_pattern m.value ≡ regex_pattern t.row.now.pattern) };
}

impl<'r> Tried<'r> {
    /// No name was tried on the row yet. It takes no memory.
    pub(crate) fn new(row: &'r Row) -> Tried<'r>
        ensures { result ≡ row.now }
    {
        Tried { row, matcher: None }
    }

    /// What the row does with a name that it matches.
    pub(crate) fn verb(&self) -> &'r Verb
        ensures { result.now ≡ self.now.verb }
    {
        &self.row.verb
    }

    /// Whether the row's pattern matches the name.
    pub(crate) fn matches(&mut self, alloc: Global, name: &Name) -> Result<bool, NoMemory>
        ensures found { IfOk result (λ found. found ≡ matches self.old name.now) }
        ensures same { self.new ≡ self.old }
    {
        if self.row.pattern.passes_over(name) {
            return Ok(false);
        }
        self.is_match(alloc, name)
    }

    /// The same by the regular expression.
    fn is_match(&mut self, alloc: Global, name: &Name) -> Result<bool, NoMemory>
        ensures found { IfOk result (λ found. found ≡ matches self.old name.now) }
        ensures same { self.new ≡ self.old }
    {
        if let Some(matcher) = &mut self.matcher {
            return Ok(matcher.is_match(name.text()));
        }
        let mut matcher = new_matcher(alloc, self.row.pattern.regex())?;
        let found = matcher.is_match(name.text());
        self.matcher = Some(matcher);
        Ok(found)
    }

    /// Whether the row is an ALLOW or ALIAS row that matches the name.
    pub(crate) fn decides(&mut self, alloc: Global, name: &Name) -> Result<bool, NoMemory>
        ensures yes { IfOk result (λ yes. yes ≡ (is_grant self.old.verb && matches self.old name.now)) }
        ensures same { self.new ≡ self.old }
    {
        Ok(is_grant(&self.row.verb) && self.matches(alloc, name)?)
    }

    /// Where the row leads if it matches the name.
    pub(crate) fn lead(&mut self, alloc: Global, name: &Name) -> Result<Option<Lead>, NoMemory>
        ensures lead { IfOk result (λ lead. lead ≡ lead_by name.now self.old) }
        ensures same { self.new ≡ self.old }
    {
        match self.verb() {
            Verb::Allow(security) => Ok(Some(Lead::to_itself(name, security)?)),
            Verb::Alias(real, security) => match self.real_name(alloc, real, name)? {
                Some(real) => Ok(Some(Lead::to_real(real, security)?)),
                None => Ok(None),
            },
            Verb::Deny(_) => Ok(None),
        }
    }

    /// What the real text makes of a name that the row's pattern matches; `None` where that is no name.
    fn real_name(
        &mut self,
        alloc: Global,
        real: &RealText,
        name: &Name,
    ) -> Result<Option<Name>, NoMemory>
        ensures found { IfOk result (λ found. found ≡ real_name name.now self.old.pattern real.now) }
        ensures same { self.new ≡ self.old }
    {
        if let Some(matcher) = &mut self.matcher {
            return real_name(alloc, matcher, real, name);
        }
        let mut matcher = new_matcher(alloc, self.row.pattern.regex())?;
        let found = real_name(alloc, &mut matcher, real, name)?;
        self.matcher = Some(matcher);
        Ok(found)
    }
}

/// A matcher, which is large: so it has memory of its own, and a function that isn't inlined.
#[inline(never)]
fn new_matcher<'r>(alloc: Global, regex: &'r Regex) -> Result<Box<Matcher<'r>>, NoMemory>
    ensures { IfOk result (λ matcher. matcher_pattern matcher.value ≡ regex_pattern regex.now) }
{
    let matcher = regex.matcher(alloc)?;
    Ok(Box::new(alloc, matcher)?)
}

/// Whether the verb is ALLOW or ALIAS.
fn is_grant(verb: &Verb) -> bool
    ensures { result ≡ is_grant verb.now }
{
    match verb {
        Verb::Allow(_) | Verb::Alias(_, _) => true,
        Verb::Deny(_) => false,
    }
}
