//! Numbers as decimal digits write them, in scripts and on the command line: one digit or more, and nothing else, so no
//! sign and no blank. What doesn't fit the number's bits is no number.
//!
//! ```
//! assert_eq!(rt; decimal_text::read_u16(b"0042"), Some(42));
//! assert_eq!(rt; decimal_text::read_u16(b"65536"), None);
//! assert_eq!(rt; decimal_text::read_u16(b"+1"), None);
//! ```
#![tactic(auto)]

mod number;

pub use number::{read_u16, read_u32, read_u64};
