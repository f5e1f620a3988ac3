//! Hosts at the end of rows that deny.
ghost use Rattle.std.specs.Prelude.{◌≡◌, ◌∷◌, Some, IfOk, IfErr};
ghost use Rattle.pvlist.specs.Fault.{Lacks};
ghost use Rattle.pvlist.specs.RuleLine.{host_word, hosts_among, hosts_of};

use crate::fault::{RuleCause, RuleLineFault};
use crate::hosts::Hosts;
use crate::keyword::is_keyword;
use crate::words::RuleWords;
use pv_name::{Host, NameFault};
use std::alloc::Global;

/// The hosts of a row that denies.
pub(crate) fn read_hosts(alloc: Global, mut words: RuleWords) -> Result<Hosts, RuleLineFault>
    ensures ok { IfOk result (λ hosts. hosts_of words.entry ≡ Some hosts) }
    ensures err { IfErr result (Lacks RuleCause.BadFrom (hosts_of words.entry)) }
{
    let Some(first) = words.next() else {
        return Ok(Hosts::new(Vec::new(alloc)));
    };
    if !is_keyword(first, "FROM") {
        return read_listed(alloc, first, words);
    }
    let Some(first) = words.next() else {
        return Err(RuleLineFault::Cause(RuleCause::BadFrom));
    };
    read_listed(alloc, first, words)
}

// The hosts that are the first word and the others.
fn read_listed(alloc: Global, first: &str, mut words: RuleWords) -> Result<Hosts, RuleLineFault>
    ensures ok { IfOk result (λ hosts. hosts_among (first.now ∷ words.entry) ≡ Some hosts) }
    ensures err { IfErr result (Lacks RuleCause.BadFrom (hosts_among (first.now ∷ words.entry))) }
{
    let mut hosts = Vec::new(alloc);
    hosts.push(read_host(alloc, first)?)?;
    while let Some(word) = words.next() {
        hosts.push(read_host(alloc, word)?)?;
    }
    Ok(Hosts::new(hosts))
}

fn read_host(alloc: Global, word: &str) -> Result<Host, RuleLineFault>
    ensures ok { IfOk result (λ host. host_word word.now ≡ Some host) }
    ensures err { IfErr result (Lacks RuleCause.BadFrom (host_word word.now)) }
{
    match Host::read(alloc, word.as_bytes()) {
        Ok(host) => Ok(host),
        Err(NameFault::OutOfMemory) => Err(RuleLineFault::OutOfMemory),
        Err(_) => Err(RuleLineFault::Cause(RuleCause::BadFrom)),
    }
}
