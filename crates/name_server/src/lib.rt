//! What is said to name servers, and heard of them, over TCP (Channel Access Protocol Specification 4.13, "Searching").
//!
//! - [`greeting`] comes first on a connection, then what [`searches_in`] a datagram that asks; [`echo`] asks whether somebody
//!   is there.
//! - [`StreamReplies`] hears replies from a stream that comes in pieces of any length, and refuses one that is none of a name
//!   server's. It holds less than a message.
//! - [`WaitingText`] is what waits to be written, up to a limit.
//! - [`Tries`] says how long nobody connects again.
//!
//! However a stream is cut into pieces, what is heard are the replies of its messages
//! (`laws::replies_are_heard_in_any_pieces`).
//!
//! ```
//! let mut stream = StreamReplies::new(rt.alloc());
//! let replies = stream.hear(rt.alloc(), b"")?;
//! assert_eq!(rt; replies.len(), 0);
//! ```
#![tactic(auto)]

pub use greetings::{echo, greeting, searches_in};
pub use stream_replies::{PAYLOAD_LIMIT, StreamFault, StreamReplies};
pub use tries::{CALM, LONGEST_GAP, Tries};
pub use waiting_text::{NotKept, WAITING_LIMIT, WaitingText};

mod greetings;
pub mod laws;
mod stream_replies;
mod tries;
mod waiting_text;

/// The error of a call that fails only where memory runs out.
pub type NoMemory = std::alloc::AllocError;
