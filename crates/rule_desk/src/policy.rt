//! Policies.
ghost use Rattle.std.specs.Prelude.{◌≡◌, IfOk};
ghost use Rattle.access_file.specs.HostNames.{hosts_of};
ghost use Rattle.rule_desk.specs.Granting.{granting, group_or_default, led, rights_by};
ghost use Rattle.rule_desk.specs.Policy.{counts_as, open_policy};

use access_file::{Access, DEFAULT_GROUP, HostName, HostNames};
use pv_alias::{Lead, group_rights};
use pv_name::{Group, Host};
use pvlist::{Groups, Rules};
use std::alloc::{AllocError, Global};
use std::marker::Model;

/// What an access security file says, in a box: a policy is moved with each event. A contract sees what it says.
#[derive(Drop)]
pub struct BoxedAccess {
    file: Box<Access>,
}

impl Model for BoxedAccess {
    ghost use Rattle.access_file.specs.Groups.{AccessGroups};

    ghost Value = { AccessGroups };

    ghost view = { λ b. b.file.value };
}

impl BoxedAccess {
    /// The error is that memory was refused.
    pub fn new(alloc: Global, file: Access) -> Result<BoxedAccess, AllocError>
        ensures { IfOk result (λ boxed. boxed ≡ file) }
    {
        match Box::new(alloc, file) {
            Ok(file) => Ok(BoxedAccess { file }),
            Err(_) => Err(AllocError),
        }
    }

    /// What it says.
    pub fn file(&self) -> &Access
        ensures { result.now ≡ self.now }
    {
        &self.file
    }
}

/// What a gateway admits: where names lead, which rights groups have, and perhaps who may do what.
#[derive(Drop)]
pub struct Policy {
    pub rules: Rules,
    pub groups: Groups,
    /// What an access security file says: where there is one it decides in the place of `groups`.
    pub access: Option<BoxedAccess>,
    /// Names of hosts: rules and files that list one speak of the clients at its address, too.
    pub names: HostNames,
}

impl Policy {
    /// Each name leads to itself, and all may read and write. It takes no memory.
    pub fn open_to_all(alloc: Global) -> Policy
        ensures { result ≡ open_policy }
    {
        Policy {
            rules: Rules::open_to_all(alloc),
            groups: Groups::none(alloc),
            access: None,
            names: HostNames::new(alloc),
        }
    }

    /// A lead that the rules give, with what the user on the host may do there: that is said only where there
    /// is an access security file. The host counts as each of its names, too. It takes no memory.
    pub fn led(&self, lead: Option<Lead>, user: &[u8], host: &Host) -> Option<Lead>
        ensures { result ≡ led self.now.access user.now (counts_as self.now host.now) lead }
    {
        match &self.access {
            Some(access) => match lead {
                Some(lead) => {
                    let names = self.names.of(host);
                    Some(granting(access.file(), user, host, names, lead))
                }
                None => None,
            },
            None => lead,
        }
    }

    /// The rights of a lead, bit 0 to read and bit 1 to write. It takes no memory.
    pub fn rights(&self, lead: &Lead) -> u32
        ensures { result ≡ rights_by self.now.groups lead.now.group lead.now.grant }
    {
        match lead.grant {
            Some(grant) => grant.right.bits(),
            None => group_rights(&self.groups, lead.group.as_ref()),
        }
    }
}

fn granting(access: &Access, user: &[u8], host: &Host, names: &[HostName], mut lead: Lead) -> Lead
    ensures { result ≡ granting access.now user.now (hosts_of names.now host.now) lead }
{
    let group = group_or_default(&lead.group);
    let grant = access.grant_known(user, host, names, group, lead.level);
    lead.grant = Some(grant);
    lead
}

fn group_or_default(group: &Option<Group>) -> &str
    ensures { result.now ≡ group_or_default group.now }
{
    match group {
        Some(group) => group.text(),
        None => DEFAULT_GROUP,
    }
}
