//! What is worked out of values alone, by whichever body of the gateway: types and counts, how far a
//! link has come, rights, why something is refused, what a server is asked for, and what its updates
//! are.
//!
//! Each function answers the definition of `gateway_state` that its clause names. It is handed all that
//! it looks at, at most one row: nothing here knows a table, an index or a list of rows. The engine's
//! crates and `plain_gate` both call these, so what the two have in common ends here.
#![tactic(auto)]

mod interest;
mod links;
mod numbers;
mod reads;
mod refusals;
mod rights;
mod types;
mod updates;

pub use interest::{is_for, property_want, sent_for, type_for};
pub use links::{ConnectedVariable, connected, is_connected, is_creating, is_usable, native_in};
pub use numbers::is_older;
pub use reads::{cached_as, reach_with};
pub use refusals::{read_refusal, value_refusal};
pub use rights::{may_read, may_write};
pub use types::{meant_count, time_of};
pub use updates::{asks_for, fails_without, is_concerned, is_heard, subject_of};
