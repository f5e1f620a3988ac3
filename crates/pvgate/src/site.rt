//! The program `serve`: what its command line says.
use crate::addresses::{
    Own, check_servers, finds_servers, read_address, read_beacons, read_discovery, read_more,
    read_name_servers, read_nets, read_servers,
};
use crate::arguments::Serve;
use crate::fault::ProgramFault;
use serve::{
    Addresses, CLIENTS, FirstNumber, HostSeats, Level, MOST_CLIENTS, MOST_NAMES, MOST_SERVERS,
    MostInAll, MostWaiting, Options, Patience, RulePaths, SERVERS, Scale, Seconds, ServeFault,
    read_level, read_up_to,
};
use std::alloc::{AllocError, Global};
use std::net::{Net, SocketAddr};

/// How many clients a host may have at a site, where nothing else is said.
const SITE_SEATS: &str = "256";

/// How many servers there may be at a site.
const SITE_SERVERS: &str = "1024";

/// How many names are remembered at a site.
const SITE_NAMES: &str = "65536";

/// After how many seconds of silence a site's servers are asked whether they are there: libca asks after as many.
const SITE_ALIVE: &str = "15";

/// After how many seconds a site's names are forgotten: libca looks for a name at least as often.
const SITE_FORGET: &str = "300";

/// How many MiB may wait for all clients of a site together: a quarter of a machine of 4 GB.
const SITE_IN_ALL: &str = "1024";

/// The highest number that may be the first.
const LAST_FIRST: u32 = 4_294_967_294;

/// What the command line says of a gateway: the addresses, the rule files, and how it serves.
#[derive(Drop)]
pub struct Site {
    pub addresses: Addresses,
    pub files: RulePaths,
    pub options: Options,
}

/// Reads the addresses, the numbers and the level of the command line.
pub fn read_site<R: Net>(
    rt: &R,
    alloc: Global,
    arguments: &Serve<'_>,
) -> Result<Site, ProgramFault> {
    let listen = read_address(alloc, arguments.listen)?;
    let more = read_more(alloc, arguments)?;
    let own = Own {
        listen,
        more: more.as_slice(),
    };
    let scale = read_scale(alloc, arguments)?;
    let servers = read_servers(rt, alloc, arguments, own, scale.servers)?;
    let options = read_options(alloc, arguments, scale)?;
    let files = read_paths(alloc, arguments)?;
    let discovery = read_discovery(rt, alloc, arguments, own)?;
    if let Some(discovery) = &discovery {
        check_servers(servers.as_slice(), discovery.is_ipv4(listen), discovery)?;
    }
    let name_servers = read_name_servers(alloc, arguments, own)?;
    let is_ipv4 = listen.is_ipv4() && more.iter().all(|address| address.is_ipv4());
    let addresses = Addresses {
        listen,
        more,
        ignored: read_nets(alloc, arguments.ignored.as_slice())?,
        servers,
        discovery,
        name_servers,
        beacons: read_beacons(alloc, arguments, is_ipv4)?,
    };
    Ok(Site {
        addresses,
        files,
        options,
    })
}

fn read_paths(alloc: Global, arguments: &Serve<'_>) -> Result<RulePaths, AllocError> {
    Ok(RulePaths {
        rules: copy(alloc, arguments.rules)?,
        groups: copy(alloc, arguments.groups)?,
        access: copy(alloc, arguments.access)?,
        syntax: arguments.syntax,
    })
}

fn read_options(
    alloc: Global,
    arguments: &Serve<'_>,
    scale: Scale,
) -> Result<Options, ProgramFault> {
    Ok(Options {
        most_waiting: read_most(alloc, arguments.most_waiting)?,
        most_in_all: read_in_all(
            alloc,
            at_site(arguments, arguments.most_in_all, SITE_IN_ALL),
        )?,
        reconnect: read_seconds(alloc, arguments.reconnect)?,
        sweep: read_seconds(alloc, arguments.sweep)?,
        status: read_status(alloc, arguments.status)?,
        log: read_log(alloc, arguments.log)?,
        clients_of_host: read_seats(
            alloc,
            at_site(arguments, arguments.clients_of_host, SITE_SEATS),
        )?,
        refuse_empty: arguments.site,
        back_off: arguments.back_off || arguments.site || finds_servers(arguments),
        scale,
        alive: read_alive(alloc, with_search(arguments, arguments.alive, SITE_ALIVE))?,
        forget: read_seconds(alloc, at_site(arguments, arguments.forget, SITE_FORGET))?,
        late: arguments.late || arguments.site,
        first: read_first(alloc, arguments.first)?,
    })
}

fn read_status(alloc: Global, text: Option<&str>) -> Result<Option<SocketAddr>, ProgramFault> {
    match text {
        Some(text) => Ok(Some(read_address(alloc, text)?)),
        None => Ok(None),
    }
}

fn read_most(alloc: Global, text: &str) -> Result<MostWaiting, ProgramFault> {
    match MostWaiting::read(text.as_bytes()) {
        Some(most) => Ok(most),
        None => Err(ProgramFault::BadMost(String::from_str(alloc, text)?)),
    }
}

fn read_in_all(alloc: Global, text: Option<&str>) -> Result<Option<MostInAll>, ProgramFault> {
    let Some(text) = text else {
        return Ok(None);
    };
    match MostInAll::read(text.as_bytes()) {
        Some(most) => Ok(Some(most)),
        None => Err(ProgramFault::BadMost(String::from_str(alloc, text)?)),
    }
}

/// Reads the first number that is given out.
pub fn read_first(alloc: Global, text: Option<&str>) -> Result<FirstNumber, ProgramFault> {
    let Some(text) = text else {
        return Ok(FirstNumber::usual());
    };
    match FirstNumber::read(text.as_bytes()) {
        Some(first) => Ok(first),
        None => Err(ProgramFault::BadNumber(String::from_str(alloc, text)?, LAST_FIRST)),
    }
}

fn read_seconds(alloc: Global, text: Option<&str>) -> Result<Option<Seconds>, ProgramFault> {
    let Some(text) = text else {
        return Ok(None);
    };
    match Seconds::read(text.as_bytes()) {
        Some(seconds) => Ok(Some(seconds)),
        None => Err(ProgramFault::BadSeconds(String::from_str(alloc, text)?)),
    }
}

// What is given, or what a site has where nothing is.
fn at_site<'a>(arguments: &Serve<'a>, given: Option<&'a str>, at_site: &'a str) -> Option<&'a str> {
    match given {
        None if arguments.site => Some(at_site),
        given => given,
    }
}

// The same where servers are searched for, too: there may be many, and ones that nobody knows.
fn with_search<'a>(
    arguments: &Serve<'a>,
    given: Option<&'a str>,
    at_site: &'a str,
) -> Option<&'a str> {
    match given {
        None if arguments.site || finds_servers(arguments) => Some(at_site),
        given => given,
    }
}

fn read_scale(alloc: Global, arguments: &Serve<'_>) -> Result<Scale, ProgramFault> {
    let servers = with_search(arguments, arguments.servers, SITE_SERVERS);
    let names = at_site(arguments, arguments.names, SITE_NAMES);
    Ok(Scale {
        clients: read_number(alloc, arguments.clients, MOST_CLIENTS)?.unwrap_or(CLIENTS),
        servers: read_number(alloc, servers, MOST_SERVERS)?.unwrap_or(SERVERS),
        names: read_number(alloc, names, MOST_NAMES)?,
        site: arguments.site,
        checks_hosts: arguments.check_host,
    })
}

fn read_number(alloc: Global, text: Option<&str>, most: u32) -> Result<Option<u32>, ProgramFault> {
    let Some(text) = text else {
        return Ok(None);
    };
    match read_up_to(most, text.as_bytes()) {
        Some(number) => Ok(Some(number)),
        None => Err(ProgramFault::BadNumber(String::from_str(alloc, text)?, most)),
    }
}

fn read_alive(alloc: Global, text: Option<&str>) -> Result<Option<Patience>, ProgramFault> {
    let Some(text) = text else {
        return Ok(None);
    };
    match Patience::read(text.as_bytes()) {
        Some(patience) => Ok(Some(patience)),
        None => Err(ProgramFault::BadSeconds(String::from_str(alloc, text)?)),
    }
}

fn read_seats(alloc: Global, text: Option<&str>) -> Result<Option<HostSeats>, ProgramFault> {
    let Some(text) = text else {
        return Ok(None);
    };
    match HostSeats::read(text.as_bytes()) {
        Some(seats) => Ok(Some(seats)),
        None => Err(ProgramFault::BadSeats(String::from_str(alloc, text)?)),
    }
}

fn read_log(alloc: Global, text: &str) -> Result<Level, ProgramFault> {
    match read_level(text.as_bytes()) {
        Some(level) => Ok(level),
        None => Err(ProgramFault::BadLevel(String::from_str(alloc, text)?)),
    }
}

fn copy(alloc: Global, text: Option<&str>) -> Result<Option<String>, AllocError> {
    match text {
        Some(text) => Ok(Some(String::from_str(alloc, text)?)),
        None => Ok(None),
    }
}

/// How the program ends where the gateway didn't begin to serve: with a status, or with a fault.
pub fn ended(fault: ServeFault) -> Result<u8, ProgramFault> {
    match fault {
        ServeFault::Refused(_) => Ok(serve::status::REFUSED),
        ServeFault::File(path, fault) => Err(ProgramFault::File(path, fault)),
        ServeFault::Listen(fault) => Err(ProgramFault::Listen(fault)),
        ServeFault::Reports(fault) => Err(ProgramFault::Reports(fault)),
        ServeFault::Output => Err(ProgramFault::Output),
        ServeFault::OutOfMemory => Err(ProgramFault::OutOfMemory),
    }
}
