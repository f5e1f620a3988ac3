//! Calls on names, hosts and groups.
//!
//! - `name TEXT`: the text as a name, as a host and as a group, each read and then copied, or why it
//!   is none; and whether it is a name, and a host;
//! - `same HOST HOST`: whether these are the same, from either side;
//! - `listed HOST HOST`: whether a list of the first has the second.
use crate::words::{Told, two_words};
use pv_name::{Group, Host, Name, NameFault, is_host, is_name, same_host};
use pvlist::Hosts;
use std::alloc::Global;
use std::fmt::Write;

pub(crate) fn call(alloc: Global, verb: &str, text: &str, told: &mut Told) {
    match verb {
        "name" => {
            name(Name::read(alloc, text.as_bytes()), told);
            host(Host::read(alloc, text.as_bytes()), told);
            group(Group::read(alloc, text.as_bytes()), told);
            let (name, host) = (is_name(text.as_bytes()), is_host(text.as_bytes()));
            let written = writeln!(told.text, "{name} {host}");
            told.keep(written);
        }
        "same" => match two_hosts(alloc, text) {
            Ok((first, second)) => same(&first, &second, told),
            Err(fault) => told.line(&fault),
        },
        _ => match two_hosts(alloc, text) {
            Ok((first, second)) => listed(alloc, first, &second, told),
            Err(fault) => told.line(&fault),
        },
    }
}

fn two_hosts(alloc: Global, text: &str) -> Result<(Host, Host), NameFault> {
    let (first, second) = two_words(text);
    let first = Host::read(alloc, first.as_bytes())?;
    Ok((first, Host::read(alloc, second.as_bytes())?))
}

fn name(read: Result<Name, NameFault>, told: &mut Told) {
    match read {
        Ok(name) => match name.copy() {
            Ok(copy) => tell(name.text(), copy.text(), copy == name, told),
            Err(_) => told.line(&NameFault::OutOfMemory),
        },
        Err(fault) => told.line(&fault),
    }
}

fn host(read: Result<Host, NameFault>, told: &mut Told) {
    match read {
        Ok(host) => match host.copy() {
            Ok(copy) => tell(host.text(), copy.text(), true, told),
            Err(_) => told.line(&NameFault::OutOfMemory),
        },
        Err(fault) => told.line(&fault),
    }
}

fn group(read: Result<Group, NameFault>, told: &mut Told) {
    match read {
        Ok(group) => match group.copy() {
            Ok(copy) => tell(group.text(), copy.text(), copy == group, told),
            Err(_) => told.line(&NameFault::OutOfMemory),
        },
        Err(fault) => told.line(&fault),
    }
}

/// Tells what was read, and its copy.
fn tell(text: &str, copy: &str, is_equal: bool, told: &mut Told) {
    let equal = if is_equal { "" } else { " otherwise" };
    let written = writeln!(told.text, "{text} {copy}{equal}");
    told.keep(written);
}

fn same(first: &Host, second: &Host, told: &mut Told) {
    let (here, there) = (same_host(first, second), same_host(second, first));
    let written = writeln!(told.text, "{here} {there}");
    told.keep(written);
}

fn listed(alloc: Global, listed: Host, host: &Host, told: &mut Told) {
    let mut hosts = Vec::new(alloc);
    told.is_whole &= hosts.push(listed).is_ok();
    let hosts = Hosts::new(hosts);
    let written = writeln!(
        told.text,
        "{} of {}",
        hosts.contains(host),
        hosts.as_slice().len()
    );
    told.keep(written);
}
