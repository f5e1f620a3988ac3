//! The servers that the gateway is connected to, its links (each the gateway's own channel on a server,
//! for one process variable), the writes of clients that a server hasn't acknowledged, and the numbers
//! that the gateway gives out. [`Links`] keeps what it is told to, and decides nothing about it.
//!
//! - `add_server`, `add_link` and `add_write` put a row last. They refuse a link or a write whose server
//!   doesn't stand, and a row past its limit ([`TableFault`]).
//! - `server`, `by_cid`, `by_name`, `by_sub` and `write` find a row, `link` and `links` give links in the
//!   order of adding, `link_of` those of one server, `writes` says how many writes of a session wait.
//! - `put_server`, `put_link` and `set_sub` change a row that stands, the last of them one of the two
//!   subscriptions of a link, by its [`Subject`]; `remove_server` takes its links and
//!   the writes to it along, `remove_writes` those on a channel of a client.
//! - `links_named` gives the links for several names, each once, in the order of adding.
//! - `new_cid`, `new_sub_id` and `new_write_id` give out the numbers of new rows, each one more than the one
//!   before. Where the caller lets numbers come again, a counter that gave out the last one goes on at the first,
//!   and passes over those that rows have; as long as it didn't begin again nothing is looked for. Channels of
//!   clients stand in another table: their caller looks where `next` and `turned` tell, and `give` notes it.
//!
//! Servers, links and writes are found by index: a call costs the rows that it names, however many others stand or
//! wait; the servers are walked for a new one, one that goes, its version, and a question for one that isn't there.
//! What goes with a server, a session or a channel is found among the rows of these. Removals take no memory.
//!
//! A contract sees `Links` as three lists and four counters, and whether each of these began again. Each
//! call changes what it names alone, a refused one nothing, and a limit refuses exactly where it is
//! reached; limits are in `laws::numbers_are_these`.
//!
//! ```
//! let mut links = Links::new(rt.alloc(), 1);
//! let cid = links.new_cid(false, 1).ok_or("a number")?;
//! let name = Name::read(rt.alloc(), b"T1")?;
//! assert_eq!(rt; links.add_link(1, cid, name), Err(TableFault::Missing));
//! ```
#![tactic(auto)]

mod counter;
pub mod laws;
mod link_set;
mod links;
mod places;
mod servers;
mod sub_leads;
mod table;
mod writes;

pub use counter::{Counter, LAST_NUMBER, begins_again, fitting, turned};
pub use links::{LinkRow, LinkState, Subject, Subscription, Subscriptions};
pub use servers::Server;
pub use table::{LINK_LIMIT, Links, SERVER_LIMIT, TableFault, WRITE_LIMIT};
pub use writes::WaitingWrite;
