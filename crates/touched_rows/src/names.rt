//! Several variables.
ghost use Rattle.std.specs.Prelude.{◌≡◌, [], ◌∷◌, ◌++◌, IfOk, OnOk};

use pv_name::Name;
use std::alloc::{AllocError, Global};
use std::marker::Model;

/// The names of variables, in the order in which they were pushed. A name may stand here more than once.
#[derive(Drop)]
pub struct TouchedNames {
    names: Vec<Name>,
}

impl Model for TouchedNames {
    ghost use Rattle.std.specs.Prelude.{ℕ, List};

    ghost Value = { List (List ℕ) };

    ghost view = { λ n. n.names.items };
}

impl TouchedNames {
    /// No name. This takes no memory.
    pub fn new(alloc: Global) -> TouchedNames
        ensures { result ≡ [] }
    {
        TouchedNames {
            names: Vec::new(alloc),
        }
    }

    /// Copies of these names.
    pub fn copied(alloc: Global, names: &[Name]) -> Result<TouchedNames, AllocError>
        ensures { IfOk result (λ copies. copies ≡ names.now) }
    {
        let mut copies = TouchedNames::new(alloc);
        for name in names {
            copies.push(name.copy()?)?;
        }
        Ok(copies)
    }

    /// Adds a name, as the last.
    pub fn push(&mut self, name: Name) -> Result<(), AllocError>
        ensures { OnOk result (self.new ≡ self.old ++ name ∷ []) }
    {
        self.names.push(name)?;
        Ok(())
    }

    /// It takes no memory.
    pub fn as_slice(&self) -> &[Name]
        ensures { result.now ≡ self.now }
    {
        self.names.as_slice()
    }
}
