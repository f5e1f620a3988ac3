//! The gateway served to real clients: threads and sockets round a `gate_board::Gate`.
//!
//! [`open`] reads the rule files, makes the gateway and its sockets, and serves until it is told to end.
//! Its threads, and what each waits for:
//!
//! - the calling thread moves the board (`serve_core`);
//! - one accepts clients, one greets them and starts their workers, one receives datagrams, and one hears what is left of
//!   long ones, of each host a part in turn; where servers are asked through another socket, one receives their replies;
//! - one asks servers for names: it alone sends asks, as many in a datagram as fit, and rests after 64, or has a
//!   budget for each look;
//! - one keeps the connections: it starts the workers of a server that was reached, and takes the rows away of
//!   those that are lost;
//! - one looks now and then whether a connection must end whose writer waits for its peer, or too much waits
//!   for a client or for all of them, and, where it is to, whether whoever is connected is still there;
//! - where servers are searched for, one finds out which are to be connected to, and which names wait for that;
//! - one answers searches that couldn't be answered when they came, one hears of those that clients made on their connections,
//!   and one sends beacons, where they are to;
//! - two for each connection, which read and write;
//! - for each name server one that connects and hears it, and while it is connected one that writes to it: nobody waits for them;
//! - where servers' beacons are heard, one hears them, and where hosts at which servers are searched for are named, one looks
//!   them up anew: nobody waits for these;
//! - one reads the orders of standard input, one performs those that are to be repeated, where any is, one tells of
//!   the gateway, where it is to, one writes the log, one has all servers of the command line connected to at the start, and one
//!   for each connection to a server that is being made: these stand outside, and nobody waits for them, but for some moments at
//!   the end for the log's last lines.
#![tactic(auto)]

mod addresses;
mod asker;
mod asks;
mod attempts;
mod beacons;
mod clients;
mod datagrams;
mod fault;
mod finder;
mod finding;
mod hearing;
mod host_names;
mod hub;
mod keeper;
mod late;
mod line;
mod link;
mod logging;
mod lookups;
mod machine;
mod name_servers;
mod opening;
mod orders;
mod pace;
mod repeating;
mod reports;
mod rules;
mod searches;
mod searching;
mod seekers;
mod servers;
mod sockets;
mod upstreams;
mod watcher;
mod workers;

pub use addresses::Addresses;
pub use fault::ServeFault;
pub use finding::Discovery;
pub use hub::Options;
pub use log::Level;
pub use machine::{Machine, System};
pub use opening::open;
pub use rules::RulePaths;
pub use serve_state::{
    CLIENTS, FirstNumber, HostSeats, MOST_CLIENTS, MOST_NAMES, MOST_SERVERS, MostInAll,
    MostWaiting, Patience, SERVERS, Scale, Seconds, read_level, read_up_to,
};
pub use sockets::is_broadcast;
pub use upstreams::{Upstream, look_up, names_host};

/// What the exit statuses of the program mean.
pub mod status {
    /// It was told to end.
    pub const GOOD: u8 = 0;
    /// The rules are refused.
    pub const REFUSED: u8 = 1;
    /// A file, a standard stream or the address can't be opened, read or written.
    pub const STREAM_FAILED: u8 = 3;
    /// Memory ran out, or the gateway failed.
    pub const FAILED: u8 = 4;
}
