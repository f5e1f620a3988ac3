//! Calls on rule files and group files.
//!
//! - `translate PATTERN`: the pattern as a regular expression;
//! - `read TEXT`: how many rows a rule file has, and its order; or its fault. Its rows are those of
//!   the policy from then on;
//! - `bare TEXT`: the number of a rule file's first row with a `(`, `)` or `|` that no backslash
//!   stands before, outside brackets; `-` where there is none;
//! - `rows`: the rows of the policy, each with its regular expression and what it does;
//! - `tried NAME`: the numbers of the rows whose regular expression has to be tried on the name, counted
//!   from 1; the others' patterns pass it over by its bytes;
//! - `groups-read TEXT`: the same of a group file, answered only by its fault;
//! - `bits`: the rights of a group by their words, as numbers.
use crate::words::Told;
use access_file::Level;
use pv_name::{Group, Name};
use pvlist::{
    GroupRight, Groups, Row, RuleFault, Rules, Security, Syntax, TranslateFault, Verb,
    first_bare_group, translate, translate_as,
};
use rule_desk::Policy;
use std::alloc::Global;
use std::fmt::Write;

pub(crate) fn call(
    alloc: Global,
    syntax: Syntax,
    policy: &mut Policy,
    verb: &str,
    text: &str,
    told: &mut Told,
) {
    match verb {
        "translate" => match translated(alloc, syntax, text) {
            Ok(text) => told.line(&text),
            Err(fault) => told.line(&fault),
        },
        "read" => read(rules(alloc, syntax, text), policy, told),
        "bare" => match first_bare_group(text) {
            Some(line) => told.line(&line),
            None => told.line(&'-'),
        },
        "groups-read" => read_groups(Groups::read(alloc, text), policy, told),
        "rows" => rows(policy.rules.rows(), told),
        "tried" => match Name::read(alloc, text.as_bytes()) {
            Ok(name) => tried(policy.rules.rows(), &name, told),
            Err(fault) => told.line(&fault),
        },
        _ => bits(told),
    }
}

fn translated(alloc: Global, syntax: Syntax, text: &str) -> Result<String, TranslateFault> {
    match syntax {
        Syntax::Escaped => translate(alloc, text),
        Syntax::Plain => translate_as(alloc, text, syntax),
    }
}

fn rules(alloc: Global, syntax: Syntax, text: &str) -> Result<Rules, RuleFault> {
    match syntax {
        Syntax::Escaped => Rules::read(alloc, text),
        Syntax::Plain => Rules::read_as(alloc, text, syntax),
    }
}

fn read(read: Result<Rules, RuleFault>, policy: &mut Policy, told: &mut Told) {
    match read {
        Ok(rules) => {
            let (rows, order) = (rules.rows().len(), rules.order());
            let written = writeln!(told.text, "{rows} rows, {order}");
            told.keep(written);
            policy.rules = rules;
        }
        Err(fault) => told.line(&fault),
    }
}

fn read_groups(read: Result<Groups, RuleFault>, policy: &mut Policy, told: &mut Told) {
    match read {
        Ok(groups) => policy.groups = groups,
        Err(fault) => told.line(&fault),
    }
}

pub(crate) fn rows(rows: &[Row], told: &mut Told) {
    for row in rows {
        told.put(&row.pattern.regex().as_str());
        verb(&row.verb, told);
    }
}

fn tried(rows: &[Row], name: &Name, told: &mut Told) {
    for (place, row) in rows.iter().enumerate() {
        if !row.pattern.passes_over(name) {
            told.put(&(place + 1));
            told.put(&' ');
        }
    }
    told.put(&"of ");
    told.line(&rows.len());
}

fn verb(verb: &Verb, told: &mut Told) {
    match verb {
        Verb::Allow(security) => {
            told.put(&" allow ");
            told_security(security, told);
        }
        Verb::Alias(real, security) => {
            let written = write!(told.text, " alias {} ", real.text());
            told.keep(written);
            told_security(security, told);
        }
        Verb::Deny(hosts) => {
            told.put(&" deny");
            for host in hosts.as_slice() {
                told.put(&' ');
                told.put(&host.text());
            }
            told.put(&'\n');
        }
    }
}

/// A group, and the level behind it where that is 0.
fn told_security(security: &Security, told: &mut Told) {
    told.put(&group_text(&security.group));
    told.line(match security.level {
        Level::Zero => &" 0",
        Level::One => &"",
    });
}

/// A group, or `-` where there is none.
pub(crate) fn group_text(group: &Option<Group>) -> &str {
    match group {
        Some(group) => group.text(),
        None => "-",
    }
}

fn bits(told: &mut Told) {
    let (none, read) = (GroupRight::None.bits(), GroupRight::Read.bits());
    let written = writeln!(told.text, "{none} {read} {}", GroupRight::Write.bits());
    told.keep(written);
}
