//! What a client's message does by itself: the Channel Access requests, one module for each.
//!
//! `hear_client` takes the rows of the gateway with the count of looks at them, the number of a client's
//! connection and a message that came over it. It leaves the rows that `client_said` makes of the old ones: a
//! request has the effect that its command has, a message that is no request is refused or ignored. A read
//! that is accepted is only touched, and kept by who tells what follows if it has to wait (`with_touched`).
//! What follows for others, as owed updates, isn't told here; the call answers what was touched
//! (`request_touches`). What a search touches that goes, for whoever makes one go, is `left_touches`.
//! A refusal leaves the rows half done; it says that numbers are used up only where the request would
//! give out a number past the last one.
//!
//! And what a server's message does by itself, and what it does to find a variable at a server.
//!
//! `hear_server` takes the rows of the gateway, the number of a server's connection and a message
//! that came over it. It leaves the rows that `server_said` makes of the old ones: channels are made,
//! refused or dropped, rights are kept, and an update under a present subscription is kept as the
//! variable's value or as its properties; how a write ended is told to the client that waits for it. Whom an
//! update concerns is only touched: who tells what follows owes it to them (`with_touched`).
//! Any other message is ignored. `find_at` makes a link for a variable that is wanted and has none
//! (`found`). As time passes `give_up_properties` fails the reads that wait for properties that a server was
//! asked for long ago (`properties_given_up`). What follows for clients isn't told here; `hear_server` answers what was touched
//! (`reply_touches`). A refusal leaves the rows half done; it says that numbers are used up only where
//! the link would get a number past the last one.
#![tactic(auto)]

mod age;
mod channels;
mod clear_channel;
mod client;
mod client_name;
mod concern;
mod create_channel;
mod found;
mod host_name;
mod left;
mod pause;
mod read;
mod refusals;
mod search;
mod server;
mod subscribe;
mod unsubscribe;
mod update;
mod write;
mod write_reply;

pub use age::give_up_properties;
pub use client::hear_client;
pub use found::find_at;
pub use left::left_touches;
pub use search::seek;
pub use server::hear_server;
