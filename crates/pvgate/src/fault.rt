//! Why a program ends before it does its work.

use pv_name::NameFault;
use replay::status;
use server_book::NetFault;
use std::alloc::{AllocError, Global};
use std::io;
use std::net::SocketAddr;
use thiserror::Error;

/// Why a program ends before it does its work.
#[derive(Debug, Drop, Error)]
pub enum ProgramFault {
    #[error("the name is bad: {0}")]
    BadName(NameFault),
    #[error("the host is bad: {0}")]
    BadHost(NameFault),
    /// The path of a file that can't be read.
    #[error("{0}: {1}")]
    File(String, io::Error),
    /// An address that is none.
    #[error("the address is bad, as 127.0.0.1:5064 is good: {0}")]
    BadAddress(String),
    #[error("the host isn't known: {0}")]
    UnknownHost(String),
    /// A net that is none, and why.
    #[error("the net is bad, as 10.0.0.0/8 is good: {0}: {1}")]
    BadNet(String, NetFault),
    #[error("--from says where found servers are, and is nothing without --search or --name-server")]
    NetsAlone,
    #[error("--hear-beacons is nothing without --search or --name-server")]
    HearingAlone,
    #[error("--idle says when found servers are left, and is nothing without --search or --name-server")]
    IdleAlone,
    /// Nobody else is at LISTEN, or at an address of --listen.
    #[error("the UPSTREAM is the gateway itself: {0}")]
    UpstreamOfListen(String),
    #[error("the address of --search is the gateway's own: {0}")]
    SearchOfListen(String),
    #[error("the address of --name-server is the gateway's own: {0}")]
    NameServerOfListen(String),
    /// Clients take them for the gateway's where they come from its host.
    #[error("beacons go from an IPv4 LISTEN to IPv4 addresses: {0}")]
    BeaconsByIpv4(String),
    /// One socket asks all servers.
    #[error("with --search or --name-server all UPSTREAMs and addresses are IPv4, or all IPv6")]
    TwoFamilies,
    #[error("with --search or --name-server an UPSTREAM is named once: {0}")]
    UpstreamTwice(SocketAddr),
    /// A number of MiB that is none.
    #[error("the number of MiB is bad, as 256 is good: {0}")]
    BadMost(String),
    /// A number of seconds that is none.
    #[error("the number of seconds is bad, as 10 is good: {0}")]
    BadSeconds(String),
    /// A number of clients that is none.
    #[error("the number of clients is bad, as 64 is good: {0}")]
    BadSeats(String),
    /// A number of clients, servers or names that is none, and the highest one.
    #[error("the number is bad, as 1 to {1} are good: {0}")]
    BadNumber(String, u32),
    /// A level that is none.
    #[error("the level is bad, as info is good: {0}")]
    BadLevel(String),
    #[error("there are more than {0} upstreams")]
    TooManyUpstreams(u32),
    #[error("there are more than {0} name servers")]
    TooManyNameServers(u32),
    /// LISTEN can't be opened.
    #[error("the address can't be listened on: {0}")]
    Listen(io::Error),
    /// The address of --status can't be opened.
    #[error("the address of --status can't be listened on: {0}")]
    Reports(io::Error),
    #[error("standard output can't be written")]
    Output,
    #[error("out of memory")]
    OutOfMemory,
}

impl ProgramFault {
    /// The status that the program ends with.
    pub fn status(&self) -> u8 {
        match self {
            ProgramFault::BadName(_)
            | ProgramFault::BadHost(_)
            | ProgramFault::BadAddress(_)
            | ProgramFault::BadMost(_)
            | ProgramFault::BadNet(_, _)
            | ProgramFault::NetsAlone
            | ProgramFault::HearingAlone
            | ProgramFault::IdleAlone
            | ProgramFault::UpstreamOfListen(_)
            | ProgramFault::SearchOfListen(_)
            | ProgramFault::NameServerOfListen(_)
            | ProgramFault::BeaconsByIpv4(_)
            | ProgramFault::TwoFamilies
            | ProgramFault::UpstreamTwice(_)
            | ProgramFault::BadSeconds(_)
            | ProgramFault::BadLevel(_)
            | ProgramFault::BadSeats(_)
            | ProgramFault::BadNumber(_, _)
            | ProgramFault::TooManyUpstreams(_)
            | ProgramFault::TooManyNameServers(_) => status::BAD_INPUT,
            ProgramFault::File(_, _)
            | ProgramFault::UnknownHost(_)
            | ProgramFault::Listen(_)
            | ProgramFault::Reports(_)
            | ProgramFault::Output => status::STREAM_FAILED,
            ProgramFault::OutOfMemory => status::FAILED,
        }
    }

    pub fn name(fault: NameFault) -> ProgramFault {
        match fault {
            NameFault::OutOfMemory => ProgramFault::OutOfMemory,
            fault => ProgramFault::BadName(fault),
        }
    }

    pub fn host(fault: NameFault) -> ProgramFault {
        match fault {
            NameFault::OutOfMemory => ProgramFault::OutOfMemory,
            fault => ProgramFault::BadHost(fault),
        }
    }

    /// A file at the path can't be read.
    pub fn file(alloc: Global, path: &str, fault: io::Error) -> ProgramFault {
        if fault.kind() == io::ErrorKind::OutOfMemory {
            return ProgramFault::OutOfMemory;
        }
        match String::from_str(alloc, path) {
            Ok(path) => ProgramFault::File(path, fault),
            Err(_) => ProgramFault::OutOfMemory,
        }
    }
}

impl From<io::Error> for ProgramFault {
    fn from(fault: io::Error) -> ProgramFault {
        match fault.kind() {
            io::ErrorKind::OutOfMemory => ProgramFault::OutOfMemory,
            _ => ProgramFault::Output,
        }
    }
}

impl From<AllocError> for ProgramFault {
    fn from(_e: AllocError) -> ProgramFault {
        ProgramFault::OutOfMemory
    }
}
