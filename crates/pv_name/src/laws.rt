//! Laws of names, hosts and groups. Each is a call that does nothing, and its contract is the law.
ghost use Rattle.std.specs.Prelude.{◌≡◌, ℕ, ◌≤◌, ◌↔◌, IsTrue};
ghost use Rattle.std.specs.Char.{is_ascii_graphic};
ghost use Rattle.pv_name.specs.declared.group.TheConstants.{GROUP_LIMIT};
ghost use Rattle.pv_name.specs.declared.host.TheConstants.{HOST_LIMIT};
ghost use Rattle.pv_name.specs.declared.name.TheConstants.{NAME_LIMIT};

/// The numbers of names: how many bytes there are at most, and which may be in one.
pub fn numbers_are_these()
    ensures name { NAME_LIMIT ≡ 255 }
    ensures host { HOST_LIMIT ≡ 127 }
    ensures group { GROUP_LIMIT ≡ 127 }
    ensures printable { (b : ℕ) → IsTrue (is_ascii_graphic b) ↔ ((33 ≤ b) × (b ≤ 126)) }
{}
