//! The numbers of the crate.
ghost use Rattle.std.specs.Prelude.{◌≡◌};

use crate::share::{HELD_BYTES, HELD_CLIENT_BYTES, HELD_MESSAGES, RING_BYTES};

/// How many bytes are on their way to a connection at most before the last messages, and how much waits for a server
/// at most before those whose requests reach it are held, and for a client before it is.
pub fn numbers_are_these()
    ensures ring_bytes { RING_BYTES ≡ 262_144 }
    ensures held_messages { HELD_MESSAGES ≡ 8_192 }
    ensures held_bytes { HELD_BYTES ≡ 16_777_216 }
    ensures held_client_bytes { HELD_CLIENT_BYTES ≡ 33_554_432 }
{}
