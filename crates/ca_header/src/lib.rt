//! The headers of Channel Access messages, and how bytes are cut into messages (Channel Access
//! Protocol Specification 4.13, "Message Header").
//!
//! - [`write_head`] gives the bytes of a header: 16, or 24 where its size or its count needs them.
//! - [`read_head`] reads the header that bytes begin with, or says that more bytes are needed, or
//!   what is wrong with it. [`pad8`] is the size of a payload with its padding.
//! - [`Frames`] gives the messages of bytes that are there as a whole, as a datagram is.
//! - [`Intake`] is fed a stream in pieces of any length, and gives its messages. It alone takes
//!   memory; where that is refused, nothing changes.
//!
//! What is written is read back, whatever follows it (`laws::canonical_header_is_read`). Every stream
//! has one framing into messages and an end (`laws::every_stream_has_a_framing`,
//! `laws::framing_is_unique`), and that is what `Frames` and `Intake` give
//! (`laws::frames_are_the_framing`, `laws::intake_is_the_framing`). A fault is final.
//!
//! ```
//! let head = Header {
//!     command: 23,
//!     dtype: 0,
//!     p1: 0,
//!     p2: 0,
//!     count: 0,
//!     size: 0,
//! };
//! let mut intake = Intake::new(rt.alloc());
//! intake.feed(write_head(&head).as_slice())?;
//! let message = intake.take()?.ok_or("a message")?;
//! assert_eq!(rt; message.head, head);
//! ```
#![tactic(auto)]

pub use frames::{Frame, Frames};
pub use header::{
    ALIGNMENT, EXTENDED_LEN, EXTENDED_MARK, Header, MAX_PAYLOAD, Message, PLAIN_LEN, pad8,
};
pub use intake::{Intake, IntakeFault};
pub use reading::{FrameFault, Head, read_head};
pub use writing::{HeadBytes, write_head};

mod frames;
mod header;
mod intake;
pub mod laws;
mod reading;
mod writing;
