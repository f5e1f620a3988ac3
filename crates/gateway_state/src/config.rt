//! What the gateway is told at its start.

use pv_name::Name;

/// The highest number that may be the first one given out.
pub const LAST_FIRST: u32 = 0xFFFF_FFFE;

/// How the gateway names itself, and where it counts from.
#[derive(Debug, Drop)]
pub struct Config {
    /// The user name that it gives to servers.
    pub client_name: Name,
    /// The host name that it gives to servers.
    pub host_name: Name,
    /// The TCP port on which clients find it.
    pub port: u16,
    /// The first number that it gives out, from 1 to `LAST_FIRST`.
    pub first: u32,
}
