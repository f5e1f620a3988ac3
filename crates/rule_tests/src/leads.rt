//! Calls on where names lead under the policy, and on the rights of groups.
//!
//! - `lead HOST NAME, HOST NAME ..`: for each the real name and its group, `-` where there is none; or
//!   `refused`; or `two answers`, where all asked of one resolver and each asked alone differ;
//! - `rights GROUP`: the rights in the group file, and those that hold; of `-`, those without a group.
use crate::files::group_text;
use crate::words::{Told, two_words};
use pv_alias::{Lead, NoMemory, Resolver, group_rights, resolve_known};
use pv_name::{Group, Host, Name, NameFault};
use pvlist::Groups;
use rule_desk::Policy;
use std::alloc::Global;
use std::fmt::Write;

/// What is told where memory was refused.
const REFUSED: &str = "out of memory";

pub(crate) fn call(alloc: Global, policy: &Policy, verb: &str, text: &str, told: &mut Told) {
    match (verb, text) {
        ("lead", _) => leads(alloc, policy, text, told),
        (_, "-") => told.line(&group_rights(&policy.groups, None)),
        _ => match Group::read(alloc, text.as_bytes()) {
            Ok(group) => rights(&policy.groups, &group, told),
            Err(fault) => told.line(&fault),
        },
    }
}

fn leads(alloc: Global, policy: &Policy, text: &str, told: &mut Told) {
    let rules = &policy.rules;
    let Ok(mut resolver) = Resolver::new(alloc, rules) else {
        return told.line(&REFUSED);
    };
    for (place, asked) in text.split(", ").enumerate() {
        if place > 0 {
            told.put(&", ");
        }
        match asked_in(alloc, asked) {
            Ok((host, name)) => {
                let names = policy.names.of(&host);
                let alone = lead(alloc, resolve_known(alloc, rules, &host, names, &name));
                let among_others = lead(alloc, resolver.resolve_known(&host, names, &name));
                put_same(&alone, &among_others, told);
            }
            Err(fault) => told.put(&fault),
        }
    }
    told.put(&'\n');
}

/// A host and a name.
fn asked_in(alloc: Global, text: &str) -> Result<(Host, Name), NameFault> {
    let (host, name) = two_words(text);
    let host = Host::read(alloc, host.as_bytes())?;
    Ok((host, Name::read(alloc, name.as_bytes())?))
}

fn lead(alloc: Global, lead: Result<Option<Lead>, NoMemory>) -> Told {
    let mut told = Told::new(alloc);
    match lead {
        Ok(Some(lead)) => {
            let (real, group) = (lead.real.text(), group_text(&lead.group));
            let written = write!(told.text, "{real} {group}");
            told.keep(written);
        }
        Ok(None) => told.put(&"refused"),
        Err(_) => told.put(&REFUSED),
    }
    told
}

fn put_same(alone: &Told, among_others: &Told, told: &mut Told) {
    told.is_whole &= alone.is_whole && among_others.is_whole;
    if alone.text.as_str() == among_others.text.as_str() {
        told.put(&alone.text.as_str());
    } else if alone.text.as_str() == REFUSED || among_others.text.as_str() == REFUSED {
        told.put(&REFUSED);
    } else {
        told.put(&"two answers");
    }
}

pub(crate) fn rights(groups: &Groups, group: &Group, told: &mut Told) {
    match groups.rights(group) {
        Some(rights) => told.put(&rights),
        None => told.put(&"none"),
    }
    told.put(&' ');
    told.line(&group_rights(groups, Some(group)));
}
