//! The rows that lead to real names: channels, and the subscriptions and waiting reads on them, each list
//! in the order of adding; and what they ask for of each name, counted. They decide nothing about what they
//! keep: `channel_table` ties them together, and holds their limits.
//!
//! - [`Channels`], [`Subs`] and [`Reads`] find a row by its IDs, give those of a session or of a real name one
//!   by one, and tell how many there are. A read stands under an ID that it is given here, since equal reads
//!   may stand together.
//! - [`Demand`] has a tally for each real name that a row leads to. `counted_rows` adds, changes and removes
//!   channels and subscriptions together with what they ask for.
//!
//! Rows are kept under their IDs, their keys in lists by real name, those of subscriptions and reads in lists by
//! the gateway's IDs of their channels too, so that a look-up costs the same beside many rows as beside few. A
//! removal may still walk the IDs of its own session; of the keys of the same name it moves some hundred at most.
#![tactic(auto)]

mod asks;
mod channels;
pub mod counted_rows;
mod demand;
mod keys;
mod named_rows;
mod reads;
mod sub_list;
mod subs;

pub use asks::{READ_RIGHT, may_read, own_ask, reach_ask};
pub use channels::{Channel, Channels, Reach};
pub use demand::Demand;
pub use reads::{KeptRead, Reads, WaitingRead};
pub use sub_list::SubList;
pub use subs::{ClientSub, Subs};
