//! Lists of names.
ghost use Rattle.std.specs.Prelude.{◌≡◌, ◌==◌, ◌∷◌, ◌++◌, [], bytes_eq, length, IfOk, OnOk};
ghost use Rattle.std.specs.List.{list_any};
ghost use Rattle.pv_name.specs.Host.{same_host};
ghost use Rattle.access_file.specs.Groups.{is_listed, is_host_listed};
ghost use Rattle.access_file.specs.HostNames.{hosts_of, names_of};

use crate::by_name::ByName;
use crate::folded::folded;
use crate::host_names::HostName;
use pv_name::{Group, HOST_LIMIT, Host, same_host};
use std::alloc::{AllocError, Global};
use std::marker::Model;
use std::{mem, str};

/// Names in the order of the file: users or hosts, or groups of them. Each is a word, as
/// [`pv_name::Group`] reads it. A contract sees the list of their bytes.
#[derive(Drop)]
pub(crate) struct ListedNames {
    names: Vec<Group>,
    // The same names, found by a hash, however many there are; and in lower case, as hosts are compared.
    found: ByName<()>,
    found_hosts: ByName<()>,
}

impl Model for ListedNames {
    ghost use Rattle.std.specs.Prelude.{ℕ, List};

    ghost Value = { List (List ℕ) };

    ghost use Rattle.std.specs.Prelude.{map};
    ghost use Rattle.pv_name.specs.Host.{lowercase};
    ghost use Rattle.access_file.specs.Named.{Finds};

    ghost view = { λ n. n.names.items };

    ghost invariant = { λ n. Finds n.names.items n.found × Finds (map lowercase n.names.items) n.found_hosts };
}

impl ListedNames {
    /// No name. This takes no memory.
    pub(crate) fn new(alloc: Global) -> ListedNames
        ensures { result ≡ [] }
    {
        ListedNames {
            names: Vec::new(alloc),
            found: ByName::new(alloc),
            found_hosts: ByName::new(alloc),
        }
    }

    pub(crate) fn as_slice(&self) -> &[Group]
        ensures { result.now ≡ self.now }
    {
        self.names.as_slice()
    }

    pub(crate) fn is_empty(&self) -> bool
        ensures { result ≡ length self.now == 0 }
    {
        self.names.is_empty()
    }

    /// Whether the name is listed, byte by byte.
    pub(crate) fn contains(&self, name: &[u8]) -> bool
        ensures { result ≡ is_listed self.now name.now }
    {
        match str::from_utf8(name) {
            Ok(text) => self.found.contains(text),
            Err(_) => self.lists(name),
        }
    }

    // The same of bytes that are no text.
    fn lists(&self, name: &[u8]) -> bool
        ensures { result ≡ is_listed self.now name.now }
    {
        self.names.iter().any(|listed| is_same(listed, name))
    }

    /// Whether the host is listed, in upper case or lower case letters.
    #[tactic(auto, using(crate::proofs::NamedLemmas::host_is_found))]
    pub(crate) fn contains_host(&self, host: &Host) -> bool
        ensures { result ≡ is_host_listed self.now host.now }
    {
        let mut room = [0; HOST_LIMIT];
        match folded(host, &mut room) {
            Some(text) => self.found_hosts.contains(text),
            None => self.lists_host(host),
        }
    }

    // The same of a host that can't be written in lower case.
    fn lists_host(&self, host: &Host) -> bool
        ensures { result ≡ is_host_listed self.now host.now }
    {
        self.names.iter().any(|listed| is_same_host(listed, host))
    }

    /// Whether the host is listed, or one of the names that the rows give it.
    #[tactic(auto, unfolding(crate::specs::HostNames::hosts_of))]
    pub(crate) fn contains_any(&self, host: &Host, rows: &[HostName]) -> bool
        ensures { result ≡ list_any (is_host_listed self.now) (hosts_of rows.now host.now) }
    {
        self.contains_host(host) || self.contains_name_of(host, rows)
    }

    // The same of the names alone.
    fn contains_name_of(&self, host: &Host, rows: &[HostName]) -> bool
        ensures { result ≡ list_any (is_host_listed self.now) (names_of rows.now host.now) }
    {
        for row in rows {
            if same_host(&row.address, host) && self.contains_host(&row.name) {
                return true;
            }
        }
        false
    }

    /// Lists a name behind the others. At an error no name is listed any longer.
    pub(crate) fn push(&mut self, alloc: Global, name: Group) -> Result<(), AllocError>
        ensures { OnOk result (self.new ≡ self.old ++ name ∷ []) }
    {
        let listed = mem::replace(self, ListedNames::new(alloc));
        *self = listed.with(alloc, name)?;
        Ok(())
    }

    fn with(self, alloc: Global, name: Group) -> Result<ListedNames, AllocError>
        ensures { IfOk result (λ listed. listed ≡ self ++ name ∷ []) }
    {
        let ListedNames {
            mut names,
            mut found,
            mut found_hosts,
        } = self;
        found.put(alloc, name.text(), ())?;
        let folded = name.text().to_ascii_lowercase(alloc)?;
        found_hosts.put(alloc, &folded, ())?;
        names.push(name)?;
        Ok(ListedNames {
            names,
            found,
            found_hosts,
        })
    }
}

fn is_same(listed: &Group, name: &[u8]) -> bool
    ensures { result ≡ bytes_eq listed.now name.now }
{
    listed.text().as_bytes() == name
}

fn is_same_host(listed: &Group, host: &Host) -> bool
    ensures { result ≡ same_host listed.now host.now }
{
    listed
        .text()
        .as_bytes()
        .eq_ignore_ascii_case(host.text().as_bytes())
}
