//! The hosts that rule files list.
use crate::clients::host_at;
use access_file::{Access, HostName};
use gateway_core::Policy;
use pv_name::{Host, NoMemory, same_host};
use pvlist::{Rules, Verb};
use std::alloc::{AllocError, Global};
use std::collections::HashSet;
use std::net::IpAddr;

/// Hosts, each once, in the order of their first mention.
#[derive(Drop)]
pub struct ListedHosts {
    alloc: Global,
    /// Those that are no addresses.
    pub names: Vec<Host>,
    /// Addresses that are listed in another way than that in which a client's is written, which stands beside them.
    pub written: Vec<HostName>,
    // All of them in lower case: hosts are compared without regard to case.
    known: HashSet<String>,
}

impl ListedHosts {
    fn new(alloc: Global) -> ListedHosts {
        ListedHosts {
            alloc,
            names: Vec::new(alloc),
            written: Vec::new(alloc),
            known: HashSet::new(alloc),
        }
    }

    /// Those of a policy. The first are those to which names are denied: they are the first to be looked up, too.
    pub fn of(alloc: Global, policy: &Policy) -> Result<ListedHosts, NoMemory> {
        let mut listed = ListedHosts::new(alloc);
        listed.add_rules(&policy.rules)?;
        if let Some(access) = &policy.access {
            listed.add_groups(access.file())?;
        }
        Ok(listed)
    }

    // Those to which rules deny names.
    fn add_rules(&mut self, rules: &Rules) -> Result<(), NoMemory> {
        for row in rules.rows() {
            if let Verb::Deny(hosts) = &row.verb {
                for host in hosts.as_slice() {
                    self.add(host.text())?;
                }
            }
        }
        Ok(())
    }

    // Those that the groups of hosts of an access file list.
    fn add_groups(&mut self, access: &Access) -> Result<(), NoMemory> {
        for number in 0..usize::MAX {
            let Some(listed) = access.listed_hosts(number) else {
                break;
            };
            for host in listed {
                self.add(host.text())?;
            }
        }
        Ok(())
    }

    fn add(&mut self, text: &str) -> Result<(), NoMemory> {
        let lower = text.to_ascii_lowercase(self.alloc)?;
        if self.known.contains(&lower) {
            return Ok(());
        }
        let Ok(_) = self.known.insert(lower) else {
            return Err(AllocError);
        };
        let host = Host::read(self.alloc, text.as_bytes()).map_err(|_| AllocError)?;
        match text.parse::<IpAddr>() {
            Ok(ip) => self.add_address(host, ip),
            Err(_) => {
                self.names.push(host)?;
                Ok(())
            }
        }
    }

    // The address of a client is written as `host_of` does.
    fn add_address(&mut self, name: Host, ip: IpAddr) -> Result<(), NoMemory> {
        let address = host_at(self.alloc, ip.to_canonical()).map_err(|_| AllocError)?;
        if !same_host(&address, &name) {
            self.written.push(HostName { address, name })?;
        }
        Ok(())
    }
}
