//! The gateway over plain lists, to compare the engine with.
//!
//! `PlainGate` has the calls of `gateway_core::Engine` under the same clauses, and shares only types,
//! definitions and what is worked out of values alone (`gateway_values`) with it. It keeps all rows in
//! lists (`plain_rows`), finds each row from the front, and after each event makes all passes (channels,
//! withheld updates, links, reads, updates) over all rows; what is wanted of a variable it works out each
//! time from the list of its readers. So it is simple where the engine is quick: no index, no count beside
//! the rows, and nothing that says what an event touched. That both meet the same clauses is proved of
//! each by itself. What no clause says, as whether memory was refused, is seen by running both on the
//! same events and comparing.
//!
//! The layers: what an event does by itself (`opening`, `client`, `server`, `ages`); the passes; `step`, and
//! the gate itself.
#![tactic(auto)]

mod ages;
mod channels_pass;
mod client;
mod create_channel;
mod gate;
mod links_pass;
mod opening;
mod read;
mod reads_pass;
mod search;
mod server;
mod step;
mod subscribe;
mod update;
mod updates_pass;
mod write;

pub use gate::PlainGate;
