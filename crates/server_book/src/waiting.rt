//! Names that wait for a connection.
ghost use Rattle.std.specs.Prelude.{◌≡◌, [], length, not, IfOk, OnOk, OnErr};
ghost use Rattle.server_book.specs.Names.{AreApart, is_among, with_once};

use crate::NoMemory;
use pv_name::Name;
use std::alloc::{AllocError, Global};
use std::marker::Model;

/// Names that wait for a server's connection, in order and each once.
#[derive(Drop)]
pub struct WaitingNames {
    names: Vec<Name>,
}

impl Model for WaitingNames {
    ghost use Rattle.std.specs.Prelude.{ℕ, List};
    ghost use Rattle.server_book.specs.Names.{AreApart};

    ghost Value = { List (List ℕ) };

    ghost view = { λ w. w.names.items };

    ghost invariant = { λ w. AreApart w.names.items };
}

impl WaitingNames {
    /// None. This takes no memory.
    pub(crate) fn new(alloc: Global) -> WaitingNames
        ensures { result ≡ [] }
    {
        WaitingNames {
            names: Vec::new(alloc),
        }
    }

    pub fn len(&self) -> usize
        ensures { result ≡ length self.now }
    {
        self.names.len()
    }

    pub fn has(&self, name: &Name) -> bool
        ensures { result ≡ is_among self.now name.now }
    {
        self.names.contains(name)
    }

    /// The names. Each is there once.
    pub fn names(&self) -> &[Name]
        ensures names { result.now ≡ self.now }
        ensures once { AreApart result.now }
    {
        self.names.as_slice()
    }

    /// The name waits from now on. Whether it didn't before. At an error nothing changes.
    pub(crate) fn add(&mut self, name: &Name) -> Result<bool, NoMemory>
        ensures new { IfOk result (λ new. new ≡ not (is_among self.old name.now)) }
        ensures ok { OnOk result (self.new ≡ with_once name.now self.old) }
        ensures err { OnErr result (self.new ≡ self.old) }
    {
        if self.names.contains(name) {
            return Ok(false);
        }
        let name = name.copy()?;
        match self.names.push(name) {
            Ok(()) => Ok(true),
            Err(_) => Err(AllocError),
        }
    }

    /// The names themselves.
    pub(crate) fn into_names(self) -> Vec<Name>
        ensures names { result.items ≡ self }
        ensures once { AreApart result.items }
    {
        self.names
    }
}
