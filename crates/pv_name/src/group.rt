//! Names of groups.
ghost use Rattle.std.specs.Prelude.{◌≡◌, bytes_eq, IfOk};
ghost use Rattle.std.specs.Cmp.{partial_equiv_from_equiv};
ghost use Rattle.std.specs.Cmp.Lexicographic.{nat_list_eq_equiv};
ghost use Rattle.pv_name.specs.Word.{reading, Reads};
ghost use Rattle.pv_name.specs.Group.{IsGroup};

use crate::NoMemory;
use crate::fault::NameFault;
use crate::word::word;
use std::alloc::Global;
use std::marker::Model;

/// The most bytes that the name of a group has.
pub const GROUP_LIMIT: usize = 127;

/// The name of a group, which a rule file gives channels and a group file gives rights.
#[derive(Debug, Drop)]
pub struct Group {
    text: String,
}

impl Model for Group {
    ghost use Rattle.std.specs.Prelude.{ℕ, List, string_bytes};
    ghost use Rattle.pv_name.specs.Group.{IsGroup};

    ghost Value = { List ℕ };

    ghost view = { λ g. string_bytes g.text };

    ghost invariant = { λ g. IsGroup (string_bytes g.text) };
}

impl Group {
    /// Reads a group from all of the bytes. Bytes that are none are refused as such, with memory or
    /// without.
    pub fn read(alloc: Global, bytes: &[u8]) -> Result<Self, NameFault>
        ensures { Reads result (reading GROUP_LIMIT bytes.now) }
    {
        let text = word(GROUP_LIMIT, bytes)?;
        Ok(Group {
            text: String::from_str(alloc, text)?,
        })
    }

    /// The same group again, from the allocator that this one came from.
    pub fn copy(&self) -> Result<Self, NoMemory>
        ensures { IfOk result (λ copy. copy ≡ self.now) }
    {
        Ok(Group {
            text: self.text.clone()?,
        })
    }

    /// What was read.
    pub fn text(&self) -> &str
        ensures text { result.now ≡ self.now }
        ensures group { IsGroup self.now }
    {
        self.text.as_str()
    }
}

impl PartialEq for Group {
    ghost eq = { bytes_eq };

    ghost laws = { partial_equiv_from_equiv nat_list_eq_equiv };

    fn eq(&self, other: &Group) -> bool {
        self.text() == other.text()
    }
}

impl Eq for Group {
    ghost laws = { nat_list_eq_equiv };
}
