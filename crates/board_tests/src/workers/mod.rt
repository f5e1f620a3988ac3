//! Workers, the core and the gate between them, in threads where it matters.
//!
//! - `stand`: a gate with connections, and bytes that are written as hexadecimal text; `paced`: a link in
//!   memory that waits for another's.
//! - `meeting`: sessions that are served at once, each by threads of its own.
//! - `backlog`: clients that have said all before the core begins.
//! - `serving`: a round of a client, the gateway and a server.
//! - `gates`: each call of a gate, and `put` and `take` where they wait or are stopped.
//! - `writers`: a writer to its end, and to a fault, and the buffer that it writes by.
//! - `faulty`: each read and each write of a link fails in turn, beside a client whose link has no fault.
//! - `refused`: memory is refused to a worker, or to a turn of the gate.
//! - `rings`: what both ends of a ring say of what lies between.
//!
//! A new test gets a gate from `stand`, and does what it has to in functions that are generic over the
//! runtime: threads are joined there.
mod backlog;
mod faulty;
mod gates;
mod meeting;
mod paced;
mod refused;
pub(crate) mod rings;
mod serving;
pub(crate) mod stand;
mod writers;
