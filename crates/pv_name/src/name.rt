//! Names of process variables.
ghost use Rattle.std.specs.Prelude.{◌≡◌, ◌↔◌, bytes_eq, IsTrue, IfOk};
ghost use Rattle.std.specs.Cmp.{partial_equiv_from_equiv};
ghost use Rattle.std.specs.Cmp.Lexicographic.{nat_list_eq_equiv};
ghost use Rattle.std.specs.Cmp.Rules.{hashing};
ghost use Rattle.std.specs.Hash as fed;
ghost use Rattle.std.proofs.Common.{rules};
ghost use Rattle.pv_name.specs.Word.{reading, Reads};
ghost use Rattle.pv_name.specs.Name.{IsName, is_name};

use crate::NoMemory;
use crate::fault::NameFault;
use crate::word::word;
use std::alloc::Global;
use std::hash::{Hash, Hasher};
use std::marker::Model;
use std::sync::ArcStr;

/// The most bytes that the name of a process variable has.
pub const NAME_LIMIT: usize = 255;

/// The name of a process variable. Its copies share one text.
#[derive(Debug, Drop)]
pub struct Name {
    text: ArcStr,
}

impl Model for Name {
    ghost use Rattle.std.specs.Prelude.{ℕ, List};
    ghost use Rattle.std.specs.Arc.{arc_str_bytes};
    ghost use Rattle.pv_name.specs.Name.{IsName};

    ghost Value = { List ℕ };

    ghost view = { λ n. arc_str_bytes n.text };

    ghost invariant = { λ n. IsName (arc_str_bytes n.text) };
}

impl Name {
    /// Reads a name from all of the bytes. Bytes that are none are refused as such, with memory or
    /// without.
    pub fn read(alloc: Global, bytes: &[u8]) -> Result<Self, NameFault>
        ensures { Reads result (reading NAME_LIMIT bytes.now) }
    {
        let text = word(NAME_LIMIT, bytes)?;
        Ok(Name {
            text: ArcStr::from_str(alloc, text)?,
        })
    }

    /// The same name again. It takes no memory, and fails only where so many copies stand that they can't be
    /// counted.
    pub fn copy(&self) -> Result<Self, NoMemory>
        ensures { IfOk result (λ copy. copy ≡ self.now) }
    {
        Ok(Name {
            text: self.text.clone()?,
        })
    }

    /// What was read.
    pub fn text(&self) -> &str
        ensures text { result.now ≡ self.now }
        ensures name { IsName self.now }
    {
        self.text.as_str()
    }
}

impl PartialEq for Name {
    ghost eq = { bytes_eq };

    ghost laws = { partial_equiv_from_equiv nat_list_eq_equiv };

    fn eq(&self, other: &Name) -> bool {
        self.text() == other.text()
    }
}

impl Eq for Name {
    ghost laws = { nat_list_eq_equiv };
}

impl Hash for Name {
    ghost hash_input = { fed.slice fed.u8 };

    ghost respects_eq = { Prim.search (hashing, rules) };

    fn hash<H: Hasher>(&self, state: &mut H) {
        self.text.as_bytes().hash(state);
    }
}

/// Whether the bytes are the name of a process variable.
pub fn is_name(bytes: &[u8]) -> bool
    ensures test { result ≡ is_name bytes.now }
    ensures name { IsTrue result ↔ IsName bytes.now }
{
    word(NAME_LIMIT, bytes).is_ok()
}
