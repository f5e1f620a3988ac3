//! The messages that wait for one connection, and the mark that it must end.
//!
//! - [`Outbox::append`] puts a message last. A full outbox is marked instead, a marked one takes no
//!   more, and a message that isn't taken comes back ([`AppendFault`]).
//! - [`Outbox::take_front`] and [`Outbox::take`] take messages, oldest first.
//! - [`Outbox::mark`] marks the connection to end, and nothing takes the mark off.
//! - [`Outbox::bytes`] tells how many bytes wait: it keeps a count, and looks at no message.
//!
//! A contract sees an `Outbox` as the list of its messages and the mark. Want of memory changes nothing
//! but what it says; the limit is in `laws::numbers_are_these`.
//!
//! ```
//! let head = write_head(&Header {
//!     command: 23,
//!     dtype: 0,
//!     p1: 0,
//!     p2: 0,
//!     count: 0,
//!     size: 0,
//! });
//! let mut outbox = Outbox::new(rt.alloc());
//! let echo = Out {
//!     head,
//!     payload: Bytes::new(),
//! };
//! assert!(rt; outbox.append(echo).is_ok());
//! let first = outbox.take_front().ok_or("a message")?;
//! assert_eq!(rt; first.head.as_slice().len(), 16);
//! assert_eq!(rt; outbox.len(), 0);
//! ```
#![tactic(auto)]

pub mod laws;
mod outbox;

pub use outbox::{AppendFault, OUTBOX_LIMIT, Out, Outbox};
