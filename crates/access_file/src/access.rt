//! Files of access security.
ghost use Rattle.std.specs.Prelude.{◌≡◌, ◌<◌, ◌∷◌, [], Ok, IfOk, IfErr};
ghost use Rattle.std.specs.List.{list_any};
ghost use Rattle.std.specs.Option.{option_copied};
ghost use Rattle.access_file.specs.Groups.{granted, granted_by, rules_of, applies, speaks_to_users, speaks_to_hosts, is_user_in, is_host_in, listed_hosts};
ghost use Rattle.access_file.specs.File.{access_of, line_after, IsFaultOf};
ghost use Rattle.access_file.specs.HostNames.{hosts_of};

use crate::by_name::ByName;
use crate::fault::AccessFault;
use crate::host_names::HostName;
use crate::names::ListedNames;
use crate::reading::TextReading;
use crate::rule::{Grant, GroupRules, Level, Rule};
use pv_name::{Group, Host};
use std::alloc::Global;
use std::marker::Model;

/// The group whose rules hold where the group asked about is not defined, and where a variable has no group.
pub const DEFAULT_GROUP: &str = "DEFAULT";

/// What a file says: groups of users, groups of hosts, and security groups with their rules. A
/// contract sees them as `AccessGroups`.
#[derive(Drop)]
pub struct Access {
    users: ByName<ListedNames>,
    hosts: ByName<ListedNames>,
    groups: ByName<GroupRules>,
}

impl Model for Access {
    ghost use Rattle.access_file.specs.Groups.{AccessGroups};

    ghost Value = { AccessGroups };

    ghost view = { λ a. record { users = a.users; hosts = a.hosts; groups = a.groups } };
}

impl Access {
    /// Reads a file. Of one with faults the first is told, with its line, counted from 1, and nothing
    /// of it holds.
    pub fn read(alloc: Global, text: &str) -> Result<Access, AccessFault>
        ensures ok { IfOk result (λ access. access_of text.now ≡ Ok access) }
        ensures err { IfErr result (IsFaultOf (access_of text.now)) }
    {
        let mut reading = TextReading::new(alloc);
        let mut line = 1;
        for byte in text.as_bytes() {
            if let Err(fault) = reading.take(alloc, *byte) {
                return Err(fault.at(line));
            }
            line = line_after(line, *byte);
        }
        match reading.end(alloc) {
            Ok(reader) => Ok(Access {
                users: reader.users,
                hosts: reader.hosts,
                groups: reader.groups,
            }),
            Err(fault) => Err(fault.at(line)),
        }
    }

    /// What the user may do on the host with fields of this level, by the rules of the group, or of
    /// DEFAULT where there is no such group. What a user is called may be any bytes. It takes no memory.
    #[tactic(auto, unfolding(crate::specs::HostNames::hosts_of))]
    pub fn grant(&self, user: &[u8], host: &Host, group: &str, level: Level) -> Grant
        ensures { result ≡ granted self.now user.now (host.now ∷ []) group.now level }
    {
        self.grant_known(user, host, &[], group, level)
    }

    /// The same where the host has names by these rows. It takes no memory.
    pub fn grant_known(
        &self,
        user: &[u8],
        host: &Host,
        rows: &[HostName],
        group: &str,
        level: Level,
    ) -> Grant
        ensures { result ≡ granted self.now user.now (hosts_of rows.now host.now) group.now level }
    {
        match self.rules_of(group) {
            Some(rules) => self.grant_by(rules.as_slice(), user, host, rows, level),
            None => Grant::none(),
        }
    }

    /// What the group of hosts of this number lists, counted from 0 in the order of the file; none where
    /// there are no more groups. It takes no memory.
    pub fn listed_hosts(&self, number: usize) -> Option<&[Group]>
        ensures { option_copied result ≡ listed_hosts self.now number }
    {
        match self.hosts.at(number) {
            Some(listed) => Some(listed.as_slice()),
            None => None,
        }
    }

    fn rules_of(&self, group: &str) -> Option<&GroupRules>
        ensures { option_copied result ≡ rules_of self.now.groups group.now }
    {
        match self.groups.get(group) {
            Some(rules) => Some(rules),
            None => self.groups.get(DEFAULT_GROUP),
        }
    }

    // The greatest of what the rules grant that apply, the first of equal ones. Whom a rule speaks to is asked only where
    // it would grant more.
    #[tactic(auto, using(crate::proofs::GrantLemmas::passed_over))]
    fn grant_by(
        &self,
        rules: &[Rule],
        user: &[u8],
        host: &Host,
        rows: &[HostName],
        level: Level,
    ) -> Grant
        ensures { result ≡ granted_by self.now user.now (hosts_of rows.now host.now) level rules.now }
    {
        let mut best = Grant::none();
        for rule in rules {
            if best.is_below(rule.grant) && self.applies(rule, user, host, rows, level) {
                best = rule.grant;
            }
        }
        best
    }

    fn applies(
        &self,
        rule: &Rule,
        user: &[u8],
        host: &Host,
        rows: &[HostName],
        level: Level,
    ) -> bool
        ensures { result ≡ applies self.now user.now (hosts_of rows.now host.now) level rule.now }
    {
        rule.level.covers(level)
            && self.speaks_to_user(&rule.users, user)
            && self.speaks_to_host(&rule.hosts, host, rows)
    }

    fn speaks_to_user(&self, groups: &ListedNames, user: &[u8]) -> bool
        ensures { result ≡ speaks_to_users self.now user.now groups.now }
    {
        groups.is_empty() || self.is_user_in_any(groups.as_slice(), user)
    }

    fn speaks_to_host(&self, groups: &ListedNames, host: &Host, rows: &[HostName]) -> bool
        ensures { result ≡ speaks_to_hosts self.now (hosts_of rows.now host.now) groups.now }
    {
        groups.is_empty() || self.is_host_in_any(groups.as_slice(), host, rows)
    }

    fn is_user_in_any(&self, groups: &[Group], user: &[u8]) -> bool
        ensures { result ≡ list_any (is_user_in self.now user.now) groups.now }
    {
        for group in groups {
            if self.is_user_in(group, user) {
                return true;
            }
        }
        false
    }

    fn is_host_in_any(&self, groups: &[Group], host: &Host, rows: &[HostName]) -> bool
        ensures { result ≡ list_any (is_host_in self.now (hosts_of rows.now host.now)) groups.now }
    {
        for group in groups {
            if self.is_host_in(group, host, rows) {
                return true;
            }
        }
        false
    }

    fn is_user_in(&self, group: &Group, user: &[u8]) -> bool
        ensures { result ≡ is_user_in self.now user.now group.now }
    {
        match self.users.get(group.text()) {
            Some(names) => names.contains(user),
            None => false,
        }
    }

    fn is_host_in(&self, group: &Group, host: &Host, rows: &[HostName]) -> bool
        ensures { result ≡ is_host_in self.now (hosts_of rows.now host.now) group.now }
    {
        match self.hosts.get(group.text()) {
            Some(listed) => listed.contains_any(host, rows),
            None => false,
        }
    }
}

// The line in which the next byte stands.
fn line_after(line: usize, byte: u8) -> usize
    requires { line < usize.MAX }
    ensures { result ≡ line_after line byte }
{
    if byte == b'\n' { line + 1 } else { line }
}
