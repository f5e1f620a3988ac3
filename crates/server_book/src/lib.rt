//! What a gateway that finds servers by search knows of them, and which replies it believes. Time is counted in looks, which the
//! caller counts.
//!
//! - [`ServerBook::fix`] takes a server that is known for good. [`ServerBook::heard`] says what is to be done about a name that a
//!   server says it has: it is found there, it waits for the server's connection, or it doesn't.
//! - [`ServerBook::connected`] gives the names that waited. [`ServerBook::failed`] and [`ServerBook::lost`] hold the server off,
//!   for longer after each failure in a row; [`ServerBook::retry`] says when that is over.
//! - [`ServerBook::look`] says which server is to be closed, as it has no links. [`ServerBook::free`] lets its number go.
//! - [`is_believed`] says whether a reply counts, and [`Net::read`] reads a net in which servers may be.
//!
//! A call that is refused memory changes nothing. What a book does is said over the whole list of its seats, of which that of the
//! number n is the nth (`specs/Books.antt`). No two servers have the same address; one that stands, is connecting or is known for
//! good keeps its number and its address; and a name that waits is handed out with the connection (`laws`). A server is found by
//! its number and by its address without a walk; a new one looks for the least free number.
#![tactic(auto)]

pub use address::Address;
pub use book::{MOST_WAITING, MOST_WAITING_FOR_SERVER, ServerBook};
pub use heard::Heard;
pub use nets::{Net, NetFault, host_number, is_believed};
pub use server::{KnownServer, LAST_LOOK, LOOKS_OF_SECOND, MOST_DOUBLINGS, Standing};
pub use waiting::WaitingNames;

mod address;
mod book;
mod heard;
pub mod laws;
mod nets;
mod seats;
mod server;
mod waiting;

/// The error of a call that fails only where memory runs out.
pub type NoMemory = std::alloc::AllocError;
