//! Names of hosts in rule files, where a client's host is its address: whoever connects from an address of a named host
//! counts as that host.
mod known;
mod listed;
mod look_ups;

use crate::host_names::known::Outcome;
use crate::host_names::listed::ListedHosts;
use crate::host_names::look_ups::look_up_all;
use crate::logging::Teller;
use crate::machine::System;
use access_file::{HostName, HostNames};
use gateway_core::Policy;
pub use known::KnownHosts;
use pv_name::{Host, NoMemory};
use serve_state::Notice;
use std::alloc::Global;
use std::cmp::Ordering;
use std::mem::replace;
use std::net::{Net, TcpListener, TcpStream};
use std::thread::Threads;

/// Has the policy know who the hosts are that its files name: the system is asked for the addresses of each name. One
/// that it doesn't answer for has those that it had the last time, so that what is denied stays so; where it had none
/// nobody counts as it. Both are told. At an error what was known the last time stays.
pub fn know_hosts<R: System + Threads + Net<Listener = TcpListener, Stream = TcpStream> + 'static>(
    rt: R,
    alloc: Global,
    policy: &mut Policy,
    last: &mut KnownHosts,
    teller: Teller<'_>,
) -> Result<(), NoMemory> {
    let mut listed = ListedHosts::of(alloc, policy)?;
    let mut found = look_up_all(rt, alloc, &listed.names)?;
    let late = keep_last(rt, &listed.names, &mut found, last, teller)?;
    let mut rows = replace(&mut listed.written, Vec::new(alloc));
    for name in &listed.names {
        found.push_rows(name, &mut rows)?;
    }
    policy.names = host_names(alloc, &mut rows)?;
    *last = found;
    if late > 0 {
        teller.tell(&rt, Notice::HostsUnanswered(late));
    }
    Ok(())
}

// Gives the names that weren't found what was known of them. How many of them weren't answered in time; the others are told.
fn keep_last<R: System>(
    rt: R,
    names: &[Host],
    found: &mut KnownHosts,
    last: &KnownHosts,
    teller: Teller<'_>,
) -> Result<usize, NoMemory> {
    let mut late = 0usize;
    for name in names {
        match found.keep(name, last)? {
            Outcome::Found => (),
            Outcome::Late => late = late.saturating_add(1),
            Outcome::Kept => teller.tell(&rt, Notice::HostKept(name.text())),
            Outcome::Unknown => teller.tell(&rt, Notice::HostUnknown(name.text())),
        }
    }
    Ok(late)
}

// The rows as the policy has them, each once. Those of an address stand behind one another: `HostNames::of` gives all from the
// first to the last of them, and these are walked for each rule that speaks of hosts.
fn host_names(alloc: Global, rows: &mut Vec<HostName>) -> Result<HostNames, NoMemory> {
    rows.sort_unstable_by(|a, b| by_address(a, b));
    let mut names = HostNames::new(alloc);
    let mut before: Option<&HostName> = None;
    for row in rows.as_slice() {
        if !is_row(before, row) {
            names.add(row.address.copy()?, row.name.copy()?)?;
        }
        before = Some(row);
    }
    Ok(names)
}

fn is_row(before: Option<&HostName>, row: &HostName) -> bool {
    match before {
        Some(before) => by_address(before, row) == Ordering::Equal,
        None => false,
    }
}

fn by_address(a: &HostName, b: &HostName) -> Ordering {
    match a.address.text().as_bytes().cmp(b.address.text().as_bytes()) {
        Ordering::Equal => a.name.text().as_bytes().cmp(b.name.text().as_bytes()),
        other => other,
    }
}
