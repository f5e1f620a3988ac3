//! Which row of a rule file decides.
ghost use Rattle.std.specs.Prelude.{◌≡◌, ◌&&◌, ◌∷◌, [], option_copied, IfOk};
ghost use Rattle.std.specs.List.{list_any};
ghost use Rattle.access_file.specs.HostNames.{hosts_of, names_of};
ghost use Rattle.pvlist.specs.Hosts.{lists_host};
ghost use Rattle.pvlist.specs.Ruling.{matches};
ghost use Rattle.pv_alias.specs.Resolution.{resolution, is_refused, refuses, matching, deciding, is_grant};

use crate::NoMemory;
use crate::lead::Lead;
use crate::tried::Tried;
use access_file::HostName;
use pv_name::{Host, Name, same_host};
use pvlist::{Hosts, Order, Row, Rules, Verb};
use std::alloc::Global;

/// Where the name leads that a client on this host asks for; `None` where the rules refuse it.
/// Where the rules are open each name leads to itself.
#[tactic(auto, unfolding(access_file::specs::HostNames::hosts_of))]
pub fn resolve(
    alloc: Global,
    rules: &Rules,
    host: &Host,
    name: &Name,
) -> Result<Option<Lead>, NoMemory>
    ensures { IfOk result (λ lead. lead ≡ resolution rules.now (host.now ∷ []) name.now) }
{
    resolve_known(alloc, rules, host, &[], name)
}

/// The same where the host has names by these rows.
#[tactic(auto, unfolding(crate::specs::Resolution::resolution))]
pub fn resolve_known(
    alloc: Global,
    rules: &Rules,
    host: &Host,
    names: &[HostName],
    name: &Name,
) -> Result<Option<Lead>, NoMemory>
    ensures { IfOk result (λ lead. lead ≡ resolution rules.now (hosts_of names.now host.now) name.now) }
{
    if rules.is_open() {
        return Ok(Some(Lead::to_open(name)?));
    }
    let order = rules.order();
    if is_refused(alloc, order, rules.rows(), host, names, name)? {
        return Ok(None);
    }
    match deciding(alloc, rules.rows(), name)? {
        Some(row) => Tried::new(row).lead(alloc, name),
        None => Ok(None),
    }
}

/// Whether a row that matches the name refuses it to the host.
fn is_refused(
    alloc: Global,
    order: Order,
    rows: &[Row],
    host: &Host,
    names: &[HostName],
    name: &Name,
) -> Result<bool, NoMemory>
    ensures { IfOk result
        (λ refused. refused ≡ is_refused order (hosts_of names.now host.now) (matching rows.now name.now)) }
{
    for row in rows {
        if refuses(order, &row.verb, host, names) && Tried::new(row).matches(alloc, name)? {
            return Ok(true);
        }
    }
    Ok(false)
}

/// Whether a row with this verb refuses a name that it matches to the host.
pub(crate) fn refuses(order: Order, verb: &Verb, host: &Host, names: &[HostName]) -> bool
    ensures { result ≡ refuses order (hosts_of names.now host.now) verb.now }
{
    match (order, verb) {
        (Order::AllowDeny, Verb::Deny(hosts)) => lists_any(hosts, host, names)
            || hosts.as_slice().is_empty(),
        (Order::DenyAllow, Verb::Deny(hosts)) => lists_any(hosts, host, names),
        (_, Verb::Allow(_) | Verb::Alias(_, _)) => false,
    }
}

/// Whether the host is listed, or one of the names that the rows give it.
#[tactic(auto, unfolding(access_file::specs::HostNames::hosts_of))]
fn lists_any(listed: &Hosts, host: &Host, names: &[HostName]) -> bool
    ensures { result ≡ list_any (lists_host listed.now) (hosts_of names.now host.now) }
{
    listed.contains(host) || lists_name_of(listed, host, names)
}

/// The same of the names alone.
fn lists_name_of(listed: &Hosts, host: &Host, names: &[HostName]) -> bool
    ensures { result ≡ list_any (lists_host listed.now) (names_of names.now host.now) }
{
    for row in names {
        if same_host(&row.address, host) && listed.contains(&row.name) {
            return true;
        }
    }
    false
}

/// The last ALLOW or ALIAS row that matches the name.
#[tactic(auto, using(crate::proofs::RowLemmas::deciding_from_last))]
fn deciding<'a>(alloc: Global, rows: &'a [Row], name: &Name) -> Result<Option<&'a Row>, NoMemory>
    ensures { IfOk result (λ row. option_copied row ≡ deciding (matching rows.now name.now)) }
{
    let mut rest = rows;
    while let Some((row, before)) = rest.split_last() {
        if decides(alloc, row, name)? {
            return Ok(Some(row));
        }
        rest = before;
    }
    Ok(None)
}

/// Whether the row is an ALLOW or ALIAS row that matches the name.
fn decides(alloc: Global, row: &Row, name: &Name) -> Result<bool, NoMemory>
    ensures { IfOk result (λ yes. yes ≡ (is_grant row.now.verb && matches row.now name.now)) }
{
    Tried::new(row).decides(alloc, name)
}
