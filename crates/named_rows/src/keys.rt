//! Keys of rows.
ghost use Rattle.std.specs.Prelude.{◌≡◌};

use row_index::Key;

/// The key of a session's row that has this ID.
pub(crate) fn key_of(session: u32, id: u32) -> Key
    ensures { result ≡ record { owner = session; id = id } }
{
    Key { owner: session, id }
}
