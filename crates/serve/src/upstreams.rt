//! Where the servers of the command line are.
use crate::finding::address_of;
use pv_name::NoMemory;
use serve_state::{MOST_SERVERS, server_of};
use server_book::Address;
use std::alloc::Global;
use std::net::{IpAddr, Ipv4Addr, Net, SocketAddr, ToSocketAddrs};
use std::sync::{Mutex, Wait};

/// The most bytes of a host's name.
const NAME_SIZE: usize = 253;

/// What the command line says of where a server is.
#[derive(Drop)]
pub struct Upstream {
    /// Where it is, as far as is known.
    pub address: Option<SocketAddr>,
    /// Its host's name and its port, where it is named so: then the address may change.
    pub word: Option<String>,
}

/// Where all of them are.
#[derive(Drop)]
pub struct Upstreams {
    words: Vec<Option<String>>,
    // Where they were first.
    firsts: Vec<Option<SocketAddr>>,
    addresses: Mutex<Vec<Option<SocketAddr>>>,
    // Of each whether the last datagram to it couldn't be sent.
    unsent: Mutex<Vec<bool>>,
}

impl Upstreams {
    /// Of these, the first of which has number 1.
    pub fn new(alloc: Global, upstreams: Vec<Upstream>) -> Result<Upstreams, NoMemory> {
        let mut words = Vec::new(alloc);
        let mut firsts = Vec::new(alloc);
        let mut addresses = Vec::new(alloc);
        let mut unsent = Vec::new(alloc);
        for upstream in upstreams {
            unsent.push(false)?;
            words.push(upstream.word)?;
            firsts.push(upstream.address)?;
            addresses.push(upstream.address)?;
        }
        Ok(Upstreams {
            words,
            firsts,
            addresses: Mutex::new(addresses),
            unsent: Mutex::new(unsent),
        })
    }

    /// How many there are.
    pub fn count(&self) -> u32 {
        u32::try_from(self.words.len()).unwrap_or(MOST_SERVERS)
    }

    /// The host's name and the port of the server of this number, where it is named so.
    pub fn word(&self, number: u32) -> Option<&str> {
        let place = number.checked_sub(1)?;
        match self.words.get(place as usize)? {
            Some(word) => Some(word.as_str()),
            None => None,
        }
    }

    /// Whether any of them is named so.
    pub fn has_words(&self) -> bool {
        self.words.iter().any(|word| word.is_some())
    }

    /// Where the server of this number was first.
    pub fn first_at(&self, number: u32) -> Option<SocketAddr> {
        let place = number.checked_sub(1)?;
        *self.firsts.get(place as usize)?
    }

    /// Where the server of this number is, as far as is known.
    pub fn at<R: Wait>(&self, rt: &R, number: u32) -> Option<SocketAddr> {
        let place = number.checked_sub(1)?;
        let addresses = self.addresses.lock(rt);
        *addresses.get(place as usize)?
    }

    /// The same; of one that isn't known an address that nobody has.
    pub fn told<R: Wait>(&self, rt: &R, number: u32) -> Option<SocketAddr> {
        let place = number.checked_sub(1)?;
        let addresses = self.addresses.lock(rt);
        let address = addresses.get(place as usize)?;
        let nowhere = SocketAddr::new(IpAddr::V4(Ipv4Addr::UNSPECIFIED), 0);
        Some((*address).unwrap_or(nowhere))
    }

    /// From now on the server of this number is known to be here.
    pub fn move_to<R: Wait>(&self, rt: &R, number: u32, address: SocketAddr) {
        if let Some(place) = number.checked_sub(1) {
            let mut addresses = self.addresses.lock(rt);
            if let Some(known) = addresses.get_mut(place as usize) {
                *known = Some(address);
            }
        }
    }

    /// A datagram to the server of this number was sent, or couldn't be. Whether that is news.
    pub fn note_sent<R: Wait>(&self, rt: &R, number: u32, is_sent: bool) -> bool {
        let Some(place) = number.checked_sub(1) else {
            return false;
        };
        let mut unsent = self.unsent.lock(rt);
        match unsent.get_mut(place as usize) {
            Some(is_unsent) if *is_unsent == is_sent => {
                *is_unsent = !is_sent;
                true
            }
            _ => false,
        }
    }

    /// Whether one of them is here.
    pub fn has<R: Wait>(&self, rt: &R, address: Address) -> bool {
        let addresses = self.addresses.lock(rt);
        for known in addresses.as_slice() {
            if let Some(known) = known {
                if address_of(known.ip(), known.port()) == address {
                    return true;
                }
            }
        }
        false
    }

    /// The number of the server that is here.
    pub fn number_of<R: Wait>(&self, rt: &R, from: &SocketAddr) -> Option<u32> {
        let addresses = self.addresses.lock(rt);
        server_of(addresses.as_slice(), &Some(*from))
    }
}

/// Whether it is a host's name with a port, as ioc1.lab:5064, and no address.
pub fn names_host(word: &str) -> bool {
    let Some((host, port)) = word.rsplit_once(':') else {
        return false;
    };
    let is_port = matches!(port.parse::<u16>(), Ok(port) if port > 0);
    let bytes = host.as_bytes();
    let is_name = bytes.iter().all(|byte| byte.is_ascii_alphanumeric()
        || matches!(*byte, b'-' | b'.' | b'_'));
    is_port
        && is_name
        && bytes.len() <= NAME_SIZE
        && bytes.iter().any(|byte| byte.is_ascii_alphabetic())
}

/// The first address of this family that the system knows under a host's name, with the port.
pub fn look_up<R: Net>(rt: &R, word: &str, is_ipv4: bool) -> Option<SocketAddr> {
    for address in word.to_socket_addrs(rt).ok()? {
        if address.is_ipv4() == is_ipv4 {
            return Some(address);
        }
    }
    None
}
