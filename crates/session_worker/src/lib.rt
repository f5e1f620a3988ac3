//! The workers of a connection, and the one that moves the board.
//!
//! A connection is a [`Link`]: bytes that are read, and bytes that are written, in pieces. Each worker is
//! one call, which a thread makes and which ends by itself; it says why by an enum of its own.
//!
//! - [`serve_in`] reads a link to its end. It hands each whole message over to the board by the
//!   connection's [`Inlet`](gate_board::Inlet), in order, each once, and then that the connection is gone.
//! - [`serve_out`] takes what goes to the peer by the connection's [`Outlet`](gate_board::Outlet), and
//!   writes it whole and in order; what is there at once is written at once. Where that failed [`drop_rest`] takes the
//!   rest, so that who is held until it is taken is heard to its end.
//! - [`serve_core`] has the [`Gate`](gate_board::Gate) perform its batches until it is closed or fails.
//!
//! The first two wait at the gate where their ring is full or empty. [`MemoryLink`] is a link over bytes in
//! memory, for tests: there the contracts say which bytes were read and written.
//!
//! ```
//! let mut link = MemoryLink::new(rt.alloc(), bytes, 7);
//! let end = serve_in(&rt, rt.alloc(), &mut link, &mut inlet, &gate, Dest::Session(1));
//! assert_eq!(rt; end, InEnd::Closed);
//! ```
//!
//! The bytes of a connection, both ways, as its workers read and write them.
//!
//! A [`Link`] gives and takes bytes in pieces, as a socket does, and counts its calls that failed.
//! [`MemoryLink`] is one over bytes in memory, for tests: its contracts say which bytes were read and
//! written, and which of its calls fails. An [`OutBuffer`] gathers what goes to a link into few writes, and its
//! contracts say that the link is written just those bytes, in order, and which part of them where it fails.
//!
//! ```
//! let mut link = MemoryLink::new(rt.alloc(), bytes, 7).failing_at(3);
//! let mut buffer = [0u8; 64];
//! let count = link.read_piece(&mut buffer)?;
//! ```
#![tactic(auto)]

mod link;
mod memory;
mod out_buffer;
mod reader;
mod rounds;
mod writer;

pub use link::{Link, LinkFault};
pub use memory::MemoryLink;
pub use out_buffer::{OUT_BUFFER_SIZE, OutBuffer};
pub use reader::{InEnd, serve_in};
pub use rounds::{CoreEnd, serve_core};
pub use writer::{OutEnd, drop_rest, serve_out};
