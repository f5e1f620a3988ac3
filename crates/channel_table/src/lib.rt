//! The rows of clients: their sessions, their channels, their subscriptions, and the reads that wait
//! for a value. The [`Table`] keeps what it is given, and decides nothing about it.
//!
//! - `add_session`, `add_channel`, `add_sub` and `add_read` put a row last. They refuse one whose
//!   session or channel doesn't stand, and one past its limit ([`TableFault`]). `add_session_within` and the
//!   like take the limit from their caller.
//! - `session`, `channel` and `sub` find a row by its IDs; `channels`, `subs` and `reads` are all rows
//!   in the order of adding, `subs_to` the subscriptions to a real name, `reads_for` the reads that wait
//!   for one, and `channel_count` and the like count those of a session.
//! - `nth_session` gives the sessions one by one, by rising number.
//! - `nth_channel_of`, `nth_sub_of` and `nth_read_of` give the rows of a session one by one, and `channel_on` and
//!   `read_on` those of a real name: of the channels on it, and of what waits on these. `channels_on_any` gives the
//!   channels on several real names, each once, in the order of adding.
//! - `want_on` tells what the subscriptions to a real name and the channels on it want together, and
//!   `props_on` whether any of them needs the properties of the variable.
//! - `put_session`, `put_user`, `put_channel` and `put_sub` change a row that stands.
//! - `remove_session` and `remove_channel` take the rows that name theirs along.
//!
//! Whoever looks at a row, or changes one, hands in the table's [`Visits`], which count it: a list of
//! rows as many times as it has rows. So a contract above can say how many rows an event looks at.
//! Adding, removing and counting rows look at none.
//!
//! The rows below sessions stand in `named_rows`, with what is asked for of each real name; the numbers of
//! sessions stand in rising order beside them. A channel that goes, or whose rights change, finds what hangs
//! on it by its ID, and looks at no row beside.
//!
//! A contract sees a `Table` as four lists. Each call changes the rows that it names alone, a refused
//! one none, and a limit refuses exactly where it is reached; limits are in `laws::numbers_are_these`.
//!
//! ```
//! let (mut table, mut visits) = Table::new(rt.alloc());
//! table.add_session(Session {
//!     number: 1,
//!     peer: Host::read(rt.alloc(), b"10.0.0.5")?,
//!     host: Host::read(rt.alloc(), b"10.0.0.5")?,
//!     user: User::none(rt.alloc()),
//!     host_fixed: false,
//!     paused: false,
//! })?;
//! let waiting = WaitingRead {
//!     session: 1,
//!     sid: 11,
//!     dtype: 5,
//!     count: 1,
//!     ioid: 9,
//! };
//! assert_eq!(rt; table.add_read(waiting), Err(TableFault::Missing));
//! assert!(rt; table.channel(&mut visits, 1, 11).is_none());
//! assert_eq!(rt; visits.visited(), 1);
//! ```
#![tactic(auto)]

mod brand;
pub mod laws;
mod numbers;
mod sessions;
mod table;
mod user;
mod visits;

pub use named_rows::{
    Channel, ClientSub, READ_RIGHT, Reach, SubList, WaitingRead, may_read, own_ask, reach_ask,
};
pub use sessions::Session;
pub use table::{CHANNEL_LIMIT, READ_LIMIT, SESSION_LIMIT, SUB_LIMIT, Table, TableFault};
pub use user::User;
pub use visits::Visits;
