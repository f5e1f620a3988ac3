//! What access rights let a client do.
ghost use Rattle.std.specs.Prelude.{◌≡◌};
ghost use Rattle.gateway_state.specs.Writing.{may_write};

use ca_message::commands::CA_PROTO_ACCESS_RIGHT_WRITE;

// Whether they let it read is asked where it is counted.
pub use channel_table::may_read;

/// Whether the rights let a client write.
pub fn may_write(rights: u32) -> bool
    ensures { result ≡ may_write rights }
{
    rights & CA_PROTO_ACCESS_RIGHT_WRITE == CA_PROTO_ACCESS_RIGHT_WRITE
}
