//! A board: a gateway, the rings of every connection, and what moves items between them.
//!
//! A connection's reader offers what comes from its peer into a ring, its writer takes what goes to the
//! peer out of another ([`board_rings`]). The [`BoardOver`] has the other ends of both. It alone moves items
//! between rings and gateway, each as one event:
//!
//! - [`BoardOver::attach`] gives a connection its rings, [`BoardOver::retire`] takes the board's ends off;
//! - [`BoardOver::pump`] receives one item and performs its event, [`BoardOver::send_out`] takes messages of the
//!   connection and pushes them, [`BoardOver::round`] does both for all connections in order, and
//!   [`BoardOver::batch`] does that several times;
//! - [`BoardOver::desk`] performs an event that comes through no ring.
//!
//! Whatever was called, the board has a history (`board_rings`): its rows are those of a run of the
//! events of the history's entries, and what went through each ring is what the history says. A pump that
//! moves nothing looked into the ring and saw nothing; a send-out that moves nothing found no message, or looked into the
//! ring and found no place, or too many bytes on their way.
//!
//! [`KeptBoard`] is what a gate has under its lock: a board, a mark that it is closed, a count of wakes, and whether
//! nothing is to be moved before the next.
//! [`News`] says whom moves concern, for those that wait, and counts what went through: whoever is to be told after a
//! call is noted in it, or was before.
//!
//! All of it stands on any `gateway_calls::GatewayCalls`, so that its proofs never read the engine.
#![tactic(auto)]

mod batches;
mod board;
mod fault;
mod free_rounds;
mod held;
mod kept;
pub mod laws;
mod moves;
mod news;
mod rounds;
mod share;
mod turn;

pub use board::BoardOver;
pub use fault::BoardFault;
pub use kept::KeptBoard;
pub use news::{News, SEAT_WORDS, SEATS, Traffic, seat_of};
pub use share::{HELD_BYTES, HELD_CLIENT_BYTES, HELD_MESSAGES, RING_BYTES};
pub use turn::Turn;
