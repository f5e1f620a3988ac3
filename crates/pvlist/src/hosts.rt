//! Hosts of a row.
ghost use Rattle.std.specs.Prelude.{◌≡◌};
ghost use Rattle.pvlist.specs.Hosts.{lists_host};

use pv_name::{Host, same_host};
use std::marker::Model;

/// The hosts to which a row denies a name. None are listed where it denies the name to all. A
/// contract sees the list of their texts.
#[derive(Debug, Drop)]
pub struct Hosts {
    hosts: Vec<Host>,
}

impl Model for Hosts {
    ghost use Rattle.std.specs.Prelude.{ℕ, List};

    ghost Value = { List (List ℕ) };

    ghost view = { λ h. h.hosts.items };
}

impl Hosts {
    /// These hosts. It takes no memory.
    pub fn new(hosts: Vec<Host>) -> Hosts
        ensures { result ≡ hosts.items }
    {
        Hosts { hosts }
    }

    /// The hosts, in the order in which they are listed. It takes no memory.
    pub fn as_slice(&self) -> &[Host]
        ensures { result.now ≡ self.now }
    {
        self.hosts.as_slice()
    }

    /// Whether the host is listed, in upper case or lower case letters.
    pub fn contains(&self, host: &Host) -> bool
        ensures { result ≡ lists_host self.now host.now }
    {
        self.hosts.iter().any(|listed| same_host(listed, host))
    }
}
