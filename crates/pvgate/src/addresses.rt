//! The addresses of the command line of `serve`, and how servers are found.
use crate::arguments::Serve;
use crate::fault::ProgramFault;
use serve::{Discovery, Upstream, is_broadcast, look_up, names_host, read_up_to};
use server_book::Net as HostNet;
use std::alloc::Global;
use std::net::{IpAddr, Ipv4Addr, Net, SocketAddr};

/// How many name servers there may be.
const NAME_SERVERS: u32 = 16;

/// For how many seconds a server that was found is kept without a variable, where nothing else is said, and for how many at most.
const IDLE: u32 = 300;

const MOST_IDLE: u32 = 86_400;

/// Where the gateway itself is.
#[derive(Clone, Copy)]
pub struct Own<'a> {
    pub listen: SocketAddr,
    pub more: &'a [SocketAddr],
}

impl Own<'_> {
    fn is_ipv4(&self) -> bool {
        self.listen.is_ipv4()
    }

    fn has(&self, address: SocketAddr) -> bool {
        is_listen(address, self.listen) || self.has_more(address)
    }

    fn has_more(&self, address: SocketAddr) -> bool {
        self.more.iter().any(|listen| is_listen(address, *listen))
    }
}

/// Where servers are, of which there are at most so many. None is an address of `--listen`; that one is LISTEN itself is refused
/// where others are searched for, too, and else stays a server that can't be reached.
pub fn read_servers<R: Net>(
    rt: &R,
    alloc: Global,
    arguments: &Serve<'_>,
    own: Own<'_>,
    most: u32,
) -> Result<Vec<Upstream>, ProgramFault> {
    if arguments.upstreams.len() > most as usize {
        return Err(ProgramFault::TooManyUpstreams(most));
    }
    let mut servers = Vec::new(alloc);
    for text in arguments.upstreams.as_slice() {
        let is_one_of_many = finds_servers(arguments);
        let upstream = read_upstream(rt, alloc, *text, own.is_ipv4(), is_one_of_many)?;
        if let Some(address) = upstream.address {
            if own.has_more(address) || is_one_of_many && own.has(address) {
                return Err(ProgramFault::UpstreamOfListen(String::from_str(alloc, *text)?));
            }
        }
        servers
            .push(upstream)
            .map_err(|_| ProgramFault::OutOfMemory)?;
    }
    Ok(servers)
}

fn read_upstream<R: Net>(
    rt: &R,
    alloc: Global,
    text: &str,
    is_ipv4: bool,
    finds_servers: bool,
) -> Result<Upstream, ProgramFault> {
    if !names_host(text) {
        return Ok(Upstream {
            address: Some(read_address(alloc, text)?),
            word: None,
        });
    }
    // With nothing to find others by it is looked up when it is connected to.
    let address = if finds_servers {
        Some(read_host(rt, alloc, text, is_ipv4)?)
    } else {
        None
    };
    Ok(Upstream {
        address,
        word: Some(String::from_str(alloc, text)?),
    })
}

// The text, where it names a host.
fn word_of(alloc: Global, text: &str) -> Result<Option<String>, ProgramFault> {
    if names_host(text) {
        Ok(Some(String::from_str(alloc, text)?))
    } else {
        Ok(None)
    }
}

// An address, or that of a host of this family that is named.
fn read_host<R: Net>(
    rt: &R,
    alloc: Global,
    text: &str,
    is_ipv4: bool,
) -> Result<SocketAddr, ProgramFault> {
    if !names_host(text) {
        return read_address(alloc, text);
    }
    match look_up(rt, text, is_ipv4) {
        Some(address) => Ok(address),
        None => Err(ProgramFault::UnknownHost(String::from_str(alloc, text)?)),
    }
}

/// The further addresses on which clients are served.
pub fn read_more(alloc: Global, arguments: &Serve<'_>) -> Result<Vec<SocketAddr>, ProgramFault> {
    let mut more = Vec::new(alloc);
    for text in arguments.more.as_slice() {
        let address = read_address(alloc, *text)?;
        more.push(address).map_err(|_| ProgramFault::OutOfMemory)?;
    }
    Ok(more)
}

/// Where beacons are sent, from addresses that are IPv4, or aren't all.
pub fn read_beacons(
    alloc: Global,
    arguments: &Serve<'_>,
    is_ipv4: bool,
) -> Result<Vec<SocketAddr>, ProgramFault> {
    let mut beacons = Vec::new(alloc);
    for text in arguments.beacons.as_slice() {
        let address = read_address(alloc, *text)?;
        if address.port() == 0 || address.ip().is_unspecified() {
            return Err(ProgramFault::BadAddress(String::from_str(alloc, *text)?));
        }
        if !address.is_ipv4() || !is_ipv4 {
            return Err(ProgramFault::BeaconsByIpv4(String::from_str(alloc, *text)?));
        }
        beacons
            .push(address)
            .map_err(|_| ProgramFault::OutOfMemory)?;
    }
    Ok(beacons)
}

/// An address without a host's name.
pub fn read_address(alloc: Global, text: &str) -> Result<SocketAddr, ProgramFault> {
    match text.parse::<SocketAddr>() {
        Ok(address) => Ok(address),
        Err(_) => Err(ProgramFault::BadAddress(String::from_str(alloc, text)?)),
    }
}

/// Where servers are searched for, and where they may be.
pub fn read_discovery<R: Net>(
    rt: &R,
    alloc: Global,
    arguments: &Serve<'_>,
    own: Own<'_>,
) -> Result<Option<Discovery>, ProgramFault> {
    if !finds_servers(arguments) {
        check_alone(arguments)?;
    }
    let mut targets = Vec::new(alloc);
    for text in arguments.searches.as_slice() {
        let target = Upstream {
            address: Some(read_target(rt, alloc, *text, own)?),
            word: word_of(alloc, *text)?,
        };
        targets.push(target).map_err(|_| ProgramFault::OutOfMemory)?;
    }
    let nets = read_nets(alloc, arguments.nets.as_slice())?;
    let idle = read_idle(alloc, arguments.idle)?;
    if !finds_servers(arguments) {
        return Ok(None);
    }
    Ok(Some(Discovery {
        targets,
        nets,
        hears_beacons: arguments.hear_beacons,
        idle,
    }))
}

/// Whether servers are found that the command line doesn't name.
pub fn finds_servers(arguments: &Serve<'_>) -> bool {
    !arguments.searches.is_empty() || !arguments.name_servers.is_empty()
}

// What says how they are found is nothing where they aren't.
fn check_alone(arguments: &Serve<'_>) -> Result<(), ProgramFault> {
    if !arguments.nets.is_empty() {
        return Err(ProgramFault::NetsAlone);
    }
    if arguments.hear_beacons {
        return Err(ProgramFault::HearingAlone);
    }
    if arguments.idle.is_some() {
        return Err(ProgramFault::IdleAlone);
    }
    Ok(())
}

/// Where name servers are. A host that is named is looked up when it is connected to.
pub fn read_name_servers(
    alloc: Global,
    arguments: &Serve<'_>,
    own: Own<'_>,
) -> Result<Vec<Upstream>, ProgramFault> {
    if arguments.name_servers.len() > NAME_SERVERS as usize {
        return Err(ProgramFault::TooManyNameServers(NAME_SERVERS));
    }
    let mut servers = Vec::new(alloc);
    for text in arguments.name_servers.as_slice() {
        let server = if names_host(*text) {
            Upstream {
                address: None,
                word: Some(String::from_str(alloc, *text)?),
            }
        } else {
            Upstream {
                address: Some(read_name_server(alloc, *text, own)?),
                word: None,
            }
        };
        servers.push(server).map_err(|_| ProgramFault::OutOfMemory)?;
    }
    Ok(servers)
}

fn read_name_server(alloc: Global, text: &str, own: Own<'_>) -> Result<SocketAddr, ProgramFault> {
    let address = read_address(alloc, text)?;
    if is_nowhere(address) {
        return Err(ProgramFault::BadAddress(String::from_str(alloc, text)?));
    }
    if own.has(address) {
        return Err(ProgramFault::NameServerOfListen(String::from_str(alloc, text)?));
    }
    Ok(address)
}

// An address at which somebody else may hear searches, as at one of broadcasts at which the gateway hears clients too.
fn read_target<R: Net>(
    rt: &R,
    alloc: Global,
    text: &str,
    own: Own<'_>,
) -> Result<SocketAddr, ProgramFault> {
    let address = read_host(rt, alloc, text, own.is_ipv4())?;
    if is_nowhere(address) {
        return Err(ProgramFault::BadAddress(String::from_str(alloc, text)?));
    }
    if is_listen(address, own.listen) || own.has_more(address) && !is_broadcast(rt, address) {
        return Err(ProgramFault::SearchOfListen(String::from_str(alloc, text)?));
    }
    Ok(address)
}

// Nobody is there.
fn is_nowhere(address: SocketAddr) -> bool {
    address.port() == 0 || address.ip().is_unspecified()
}

// Whether the gateway itself is there, where it listens on this address.
fn is_listen(address: SocketAddr, listen: SocketAddr) -> bool {
    let localhost = IpAddr::V4(Ipv4Addr::LOCALHOST);
    let is_own = address.ip() == listen.ip()
        || listen.ip().is_unspecified() && address.ip() == localhost;
    is_own && address.port() == listen.port()
}

/// The nets that these texts write.
pub fn read_nets(alloc: Global, texts: &[&str]) -> Result<Vec<HostNet>, ProgramFault> {
    let mut nets = Vec::new(alloc);
    for text in texts {
        match HostNet::read(text.as_bytes()) {
            Ok(net) => nets.push(net).map_err(|_| ProgramFault::OutOfMemory)?,
            Err(fault) => return Err(ProgramFault::BadNet(String::from_str(alloc, *text)?, fault)),
        }
    }
    Ok(nets)
}

fn read_idle(alloc: Global, text: Option<&str>) -> Result<u32, ProgramFault> {
    let Some(text) = text else {
        return Ok(IDLE);
    };
    match read_up_to(MOST_IDLE, text.as_bytes()) {
        Some(seconds) => Ok(seconds),
        None => Err(ProgramFault::BadNumber(String::from_str(alloc, text)?, MOST_IDLE)),
    }
}

/// One socket asks all servers, and each has one number by its address.
pub fn check_servers(
    servers: &[Upstream],
    is_old: bool,
    discovery: &Discovery,
) -> Result<(), ProgramFault> {
    for target in &discovery.targets {
        if matches!(target.address, Some(address) if address.is_ipv4() != is_old) {
            return Err(ProgramFault::TwoFamilies);
        }
    }
    for place in 0..servers.len() {
        let Some(server) = servers[place].address else {
            continue;
        };
        if server.is_ipv4() != is_old {
            return Err(ProgramFault::TwoFamilies);
        }
        if is_one_at(servers.get(..place).unwrap_or(&[]), server) {
            return Err(ProgramFault::UpstreamTwice(server));
        }
    }
    Ok(())
}

// Whether one of these servers is at the address.
fn is_one_at(servers: &[Upstream], address: SocketAddr) -> bool {
    servers.iter().any(|other| match other.address {
        Some(other) => other.ip() == address.ip() && other.port() == address.port(),
        None => false,
    })
}
