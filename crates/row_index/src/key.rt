//! Keys of rows.
ghost use Rattle.std.specs.Prelude.{◌+◌, ◌*◌, ◌^◌};
ghost use Rattle.std.specs.Hash as fed;
ghost use Rattle.std.specs.Cmp.Rules.{hashing};
ghost use Rattle.std.proofs.Common.{rules};

use std::hash::{Hash, Hasher};

/// The numbers under which a row is found.
#[derive(Clone, Copy, Debug, PartialEq, Eq)]
pub struct Key {
    /// Whose it is: the number of a session or of a server.
    pub owner: u32,
    /// Its ID there.
    pub id: u32,
}

impl Hash for Key {
    ghost hash_input = { λ key. fed.u64 (key.owner * 2 ^ 32 + key.id) };

    ghost respects_eq = { Prim.search (hashing, rules) };

    // Both numbers are fed as one, which costs half as much.
    fn hash<H: Hasher>(&self, state: &mut H) {
        state.write_u64(self.owner as u64 * 0x1_0000_0000 + self.id as u64);
    }
}
