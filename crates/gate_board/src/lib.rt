//! The gateway between threads: a board with the engine and every connection's rings, and a lock round it.
//!
//! A connection's reader offers what comes from its peer into a ring ([`Inlet`]), its writer takes what
//! goes to the peer out of another ([`Outlet`]); neither waits for the other, nor for the engine. The
//! [`Board`] has the other ends of both, and alone moves items between rings and engine (`board_moves`).
//!
//! [`Gate`] is the board under a lock, with a mark that it is closed, a count of wakes, and a seat to wait
//! on for each connection. Each call locks, makes one call of what stands under the lock
//! (`board_moves::Kept`, whose methods have the board's clauses), unlocks and notifies; `put`, `clear`, `take`,
//! `turn` and `batch` try, and wait between two tries.
#![tactic(auto)]

mod gate;

pub use board_moves::{BoardFault, Traffic, Turn};
pub use board_rings::{Ends, Inbound, Inlet, Outlet, RING_SIZE, laws};
pub use gate::{Arrears, GateOver, Taken};
use gateway_core::Engine;

/// The board of the gateway's engine.
pub type Board = board_moves::BoardOver<Engine>;

/// The gate of that board.
pub type Gate = GateOver<Engine>;
