//! The rights of groups.
ghost use Rattle.std.specs.Prelude.{◌≡◌, option_copied};
ghost use Rattle.pv_alias.specs.Rights.{group_rights};

use pv_name::Group;
use pvlist::Groups;

/// What those may do whom no line of a group file concerns: read and write.
const READ_AND_WRITE: u32 = 3;

/// The rights of a group, bit 0 to read and bit 1 to write: those of its last line in the group
/// file. Without a line, and without a group, both. It takes no memory.
#[tactic(auto, unfolding(crate::specs::Rights::group_rights))]
pub fn group_rights(groups: &Groups, group: Option<&Group>) -> u32
    ensures { result ≡ group_rights groups.now (option_copied group.entry) }
{
    match group {
        Some(group) => groups.rights(group).unwrap_or(READ_AND_WRITE),
        None => READ_AND_WRITE,
    }
}
