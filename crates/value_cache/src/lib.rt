//! The last value of a variable and its properties, and what reads are answered from them.
//!
//! - [`Cached::put`] holds a message as it came, in place of the value before, with the count that was
//!   asked for when it came; [`Cached::drop_value`] forgets it.
//! - [`Cached::put_properties`] holds the properties that a message tells, beside the value;
//!   [`Cached::drop_properties`] forgets them.
//! - [`Cached::covers`] tells whether a read of so many elements of a type can be answered,
//!   [`Cached::answer`] gives the value under another type, and [`Cached::alarm_differs`] tells whether a
//!   new message's alarm is another.
//! - [`Cached::keep`] keeps what is answered under a type and a count until the next message, so that
//!   all readers of these share one payload; [`Cached::kept`] tells how many are kept, at most eight.
//!   Where a part of a message's payload is already what is answered, it is shared, and nothing is laid out.
//!
//! Each answer is what the value shows under that type and count, with the properties that are held,
//! whatever is kept (`answer` and `given` in `specs/Held.antt`). A message gives itself back under its
//! own type (`laws::messages_are_given_back`). Only `answer` and `keep` take memory. A contract sees a
//! `Cached` as the value and the properties, each if it is held, and as the types and counts whose
//! encodings are kept (`Keeping` in `specs/Kept.antt`).
//!
//! ```
//! // A LONG of 42 with its time stamp is held, and read as a plain LONG.
//! let message = b"\0\0\0\0\x3B\x9A\xCA\0\0\0\0\0\0\0\0\x2A";
//! let payload = Bytes::copy_from_slice(rt.alloc(), message)?;
//! View::new(19, 1, &payload)?;
//! let mut cached = Cached::empty();
//! cached.put(19, 1, payload, 1);
//! let (count, value) = cached.answer(rt.alloc(), 5, 0)?.ok_or("a value")?;
//! assert_eq!(rt; count, 1);
//! assert_eq!(rt; value.as_slice(), b"\0\0\0\x2A\0\0\0\0".as_slice());
//! ```
#![tactic(auto)]

pub use cached::Cached;
pub use encodings::MOST_KEPT;

mod cached;
mod encodings;
pub mod laws;
