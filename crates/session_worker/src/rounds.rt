//! What moves the board.
ghost use Rattle.std.specs.Prelude.{◌≡◌};
ghost use Rattle.gate_board.specs.Locked.{IsBatched};

use gate_board::{Gate, Turn};
use std::sync::Wait;

/// Why no more batches are performed.
#[derive(Clone, Copy, Debug, PartialEq, Eq)]
pub enum CoreEnd {
    /// The gate is closed.
    Closed,
    /// The engine has failed.
    GateFailed,
}

/// Performs the board's batches, and waits where one moves nothing or leaves nothing. It ends where the gate is closed
/// or the engine has failed, as its last batch said.
pub fn serve_core<R: Wait>(rt: &R, gate: &Gate) -> CoreEnd
    ensures closed { result ≡ CoreEnd.Closed → IsBatched Turn.Closed }
    ensures failed { result ≡ CoreEnd.GateFailed → IsBatched Turn.Failed }
{
    for _ in rt.forever() {
        match gate.batch(rt) {
            Turn::Moved => (),
            Turn::Closed => return CoreEnd::Closed,
            Turn::Failed => return CoreEnd::GateFailed,
        }
    }
    unreachable!()
}
