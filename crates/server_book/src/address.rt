//! Addresses of servers.

/// Where a server is: the number of its host, in which an IPv4 address is that of IPv6 that stands for it, and its TCP port.
#[derive(Clone, Copy, Debug, PartialEq, Eq, Hash)]
pub struct Address {
    pub host: u128,
    pub port: u16,
}
