//! Searches for names by datagrams (Channel Access Protocol Specification 4.13, "Searching").
//!
//! - [`answer`] takes a client's datagram, the TCP port at which names are served, and a test of which
//!   these are. It gives the datagram to send back, which is empty where no name passes, and the names
//!   that were asked for.
//! - [`first_part`] cuts a part off a client's datagram that has a few of its searches, and
//!   [`Datagram::join`] makes one reply of the replies to parts. So nobody waits until a long datagram is
//!   answered as a whole.
//! - [`ask_text`] is the datagram that asks servers for a name, and [`ask_datagram`] one that asks for
//!   several, as many as fit.
//! - [`read_search`] reads one search, which may come on a client's connection as well.
//! - [`read_found`] gives the CIDs of the replies in a server's datagram, and [`read_replies`] also where
//!   each says that the server is.
//!
//! A datagram is framed as a stream is; other messages, names that can't be read, and what follows the
//! last whole message are passed over. It is read in one way (`laws::datagrams_are_read_in_one_way`),
//! and what is asked for and replied to is read back (`laws::searches_are_read_back`,
//! `laws::several_searches_are_read_back`, `laws::replies_are_read_back`). Parts are answered as the whole
//! is (`laws::parts_are_answered_as_the_whole`). The calls fail only where memory is refused, or where the
//! test says so.
//!
//! ```
//! let name = Name::read(rt.alloc(), b"T1")?;
//! let asked = ask_text(rt.alloc(), &name, 17)?;
//! let answer = answer(rt.alloc(), &asked, 5064, |name| Ok(name.text() == "T1"))?;
//! let found = read_found(rt.alloc(), answer.reply.as_slice())?;
//! assert_eq!(rt; found.as_slice(), [17].as_slice());
//! ```
#![tactic(auto)]

pub use answering::{Names, SearchAnswer, answer};
pub use asking::{DONT_REPLY, ask_text};
pub use asks::{ASK_LIMIT, AskDatagram, NameAsk, ask_datagram};
pub use ca_message::commands::SENDER_ADDRESS;
pub use datagram::Datagram;
pub use found::read_found;
pub use parts::first_part;
pub use replies::{Reply, read_replies};
pub use search::{SearchRequest, read_search};

mod answering;
mod asking;
mod asks;
mod datagram;
mod found;
pub mod laws;
mod message;
mod parts;
mod replies;
mod reply;
mod search;

/// The error of a call that fails only where memory runs out.
pub type NoMemory = std::alloc::AllocError;
