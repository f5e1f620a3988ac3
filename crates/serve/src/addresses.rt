//! What a command line says of addresses.
use crate::finding::Discovery;
use crate::upstreams::Upstream;
use server_book::Net as HostNet;
use std::net::SocketAddr;

/// The addresses of a gateway, and of those that it speaks with.
#[derive(Drop)]
pub struct Addresses {
    /// Clients are served on this one.
    pub listen: SocketAddr,
    /// And on these; at a broadcast one searches alone are heard.
    pub more: Vec<SocketAddr>,
    /// Searches by datagrams from these nets aren't heard.
    pub ignored: Vec<HostNet>,
    /// Where servers are that are known for good.
    pub servers: Vec<Upstream>,
    /// How other servers are found, where they are searched for.
    pub discovery: Option<Discovery>,
    /// Names are asked of these name servers too.
    pub name_servers: Vec<Upstream>,
    /// Beacons are sent to these.
    pub beacons: Vec<SocketAddr>,
}
