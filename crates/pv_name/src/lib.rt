//! What process variables, hosts and groups are called. Each is a word: printable ASCII characters
//! other than the blank, 1 to 255 of them in a name and 1 to 127 in a host or a group.
//!
//! - [`Name::read`], [`Host::read`] and [`Group::read`] make a word of bytes, or say why these are
//!   none: the first of the faults of [`NameFault`], whether or not memory is there.
//! - [`is_name`] and [`is_host`] test bytes, and take no memory.
//! - `text` gives what was read, and `copy` the same word again.
//! - [`same_host`] tells whether two hosts differ at most in the case of ASCII letters. Names and
//!   groups are compared byte by byte.
//!
//! A word is read exactly where the bytes are one, and it is these bytes (`reading` and `Reads` in
//! `specs/Word.antt`). A contract sees a `Name`, a `Host` or a `Group` as the list of its bytes.
//!
//! ```
//! let name = Name::read(rt.alloc(), b"LAB7:T1")?;
//! assert_eq!(rt; name.text(), "LAB7:T1");
//! let with_blank = Name::read(rt.alloc(), b"LAB7 T1");
//! assert_eq!(rt; with_blank.err(), Some(NameFault::BadByte(4)));
//! ```
#![tactic(auto)]

mod fault;
mod group;
mod host;
pub mod laws;
mod name;
mod word;

pub use fault::NameFault;
pub use group::{GROUP_LIMIT, Group};
pub use host::{HOST_LIMIT, Host, is_host, same_host};
pub use name::{NAME_LIMIT, Name, is_name};

/// The error of a call that fails only where memory runs out.
pub type NoMemory = std::alloc::AllocError;
