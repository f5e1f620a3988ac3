//! Where hosts were found.
use access_file::HostName;
use pv_name::{Host, NoMemory};
use std::alloc::{AllocError, Global};
use std::collections::HashMap;

/// What is known of a name once it was looked up.
#[derive(Clone, Copy, PartialEq, Eq)]
pub enum Outcome {
    /// It has these addresses.
    Found,
    /// It wasn't found, and has those of the last time.
    Kept,
    /// It wasn't found, and never was.
    Unknown,
    /// There was no answer in time. It has those of the last time, if any.
    Late,
}

/// The addresses of hosts, by their names: none of one that wasn't found.
#[derive(Drop)]
pub struct KnownHosts {
    alloc: Global,
    // By names in lower case: hosts are compared without regard to case.
    addresses: HashMap<String, Vec<Host>>,
}

impl KnownHosts {
    /// Nothing is known. This takes no memory.
    pub fn new(alloc: Global) -> KnownHosts {
        KnownHosts {
            alloc,
            addresses: HashMap::new(alloc),
        }
    }

    fn key(&self, name: &Host) -> Result<String, NoMemory> {
        name.text().to_ascii_lowercase(self.alloc)
    }

    /// Adds a row for each address of the name.
    pub fn push_rows(&self, name: &Host, rows: &mut Vec<HostName>) -> Result<(), NoMemory> {
        let key = self.key(name)?;
        let Some(addresses) = self.addresses.get(&key) else {
            return Ok(());
        };
        for address in addresses.as_slice() {
            rows.push(row_of(address, name)?)?;
        }
        Ok(())
    }

    // The addresses of the name, none where none are known.
    fn copy_of(&self, name: &Host) -> Result<Vec<Host>, NoMemory> {
        let key = self.key(name)?;
        match self.addresses.get(&key) {
            Some(addresses) => copy_all(self.alloc, addresses.as_slice()),
            None => Ok(Vec::new(self.alloc)),
        }
    }

    /// The name has these addresses.
    pub fn put(&mut self, name: &Host, addresses: Vec<Host>) -> Result<(), NoMemory> {
        let key = self.key(name)?;
        match self.addresses.insert(key, addresses) {
            Ok(_) => Ok(()),
            Err(_) => Err(AllocError),
        }
    }

    /// Gives the name the addresses that it had the last time, where none was found now.
    pub fn keep(&mut self, name: &Host, last: &KnownHosts) -> Result<Outcome, NoMemory> {
        let key = self.key(name)?;
        let (is_answered, is_found) = match self.addresses.get(&key) {
            Some(addresses) => (true, !addresses.is_empty()),
            None => (false, false),
        };
        if is_found {
            return Ok(Outcome::Found);
        }
        let kept = last.copy_of(name)?;
        let is_known = !kept.is_empty();
        self.put(name, kept)?;
        Ok(unfound(is_answered, is_known))
    }
}

// Of a name that wasn't found.
fn unfound(is_answered: bool, is_known: bool) -> Outcome {
    match (is_answered, is_known) {
        (false, _) => Outcome::Late,
        (true, true) => Outcome::Kept,
        (true, false) => Outcome::Unknown,
    }
}

fn row_of(address: &Host, name: &Host) -> Result<HostName, NoMemory> {
    let address = address.copy()?;
    let name = name.copy()?;
    Ok(HostName { address, name })
}

/// The same hosts again.
pub fn copy_all(alloc: Global, hosts: &[Host]) -> Result<Vec<Host>, NoMemory> {
    let mut copy = Vec::new(alloc);
    for host in hosts {
        copy.push(host.copy()?)?;
    }
    Ok(copy)
}
