//! The values of DBR types (Channel Access Protocol Specification 4.13, "Payload Data Types"): how they
//! are laid out in a payload, and how elements of one type are given as those of another.
//!
//! - [`Dbr::of`] is the type with a number: where its elements begin, how many bytes each has, and the
//!   size of a payload with so many ([`Dbr::offset`], [`Dbr::element`], [`Dbr::size_of`]).
//! - [`View::new`] looks at a payload and shows its alarm, its time stamp and its elements. It takes
//!   no memory.
//! - [`Props::of`] are the properties of the variable that a view of a CTRL type shows: units, limits
//!   and precision, or the texts of states.
//! - [`Converted::write`] lays what a view shows out under a type, with the properties that the type
//!   [`needs`], and [`converts`] tells whether there is a conversion: none changes a FLOAT or a DOUBLE.
//! - [`own_part`] is the part of a payload that is already what would be written of it.
//! - [`has_properties_by`], [`is_text_by`] and [`is_state_by`] tell of the number of any type, served
//!   or not, what it needs beside a value: properties, or texts where elements are states.
//!
//! All types of the plain, STS, TIME, GR and CTRL forms are served. What is laid out is shown again, whatever bytes follow
//! (`laws::layouts_read_back`, `laws::views_write_back`). Offsets and element sizes are the tables of
//! `specs/Dbr.antt`, the conversions those of `specs/Conversion.antt`, the texts of states those of
//! `specs/States.antt`.
//!
//! ```
//! // A LONG of 42 with its time stamp, as a server sends it, is given as text.
//! let payload = *b"\0\0\0\0\x3B\x9A\xCA\0\0\0\0\0\0\0\0\x2A";
//! let view = View::new(19, 1, &payload)?;
//! let text = Converted::write(rt.alloc(), &view, None, 0, 1)?;
//! assert!(rt; text.as_slice().starts_with(b"42\0"));
//! assert_eq!(rt; text.as_slice().len(), 40);
//! ```
#![tactic(auto)]

pub use conversion::converts;
pub use converted::Converted;
pub use dbr::{ALIGNMENT, Base, Dbr, Form, MAX_PAYLOAD};
pub use fault::LayoutFault;
pub use need::{has_properties_by, is_state_by, is_text_by, needs};
pub use own_layout::own_part;
pub use props::Props;
pub use view::{Stamp, View};

mod conversion;
mod converted;
mod dbr;
mod fault;
mod fields;
pub mod laws;
mod need;
mod own_layout;
mod props;
mod sized;
mod states;
mod view;
