//! Which replies of servers are believed.
ghost use Rattle.std.specs.Prelude.{◌≡◌, ◌↔◌, ℕ, ◌%◌, ◌<◌, ◌≤◌, ◌^◌, length, IfErr, IfOk, IfNone, IfSome, IsTrue};
ghost use Rattle.std.specs.List.{after_first, before_first, list_any, position};
ghost use Rattle.server_book.specs.Nets.{IsBits, IsFault, IsFaultOf, IsNet, IsNetOf, host_number, is_believed, is_in, is_in_one, is_one_host, is_slash, width_of};

use crate::address::Address;
use std::error::Error;
use std::net::IpAddr;
use std::{fmt, str};

/// What is added to the number of an IPv4 address.
const MAPPED: u128 = 0xFFFF_0000_0000;

/// Hosts whose numbers begin alike.
#[derive(Clone, Copy, Debug, PartialEq, Eq)]
pub struct Net {
    /// The number of its first host.
    pub first: u128,
    /// How many bits at the end of a number differ among its hosts, at most 128.
    pub free: u32,
}

/// Why a text is no net. The first that applies is told.
#[derive(Clone, Copy, Debug, PartialEq, Eq)]
pub enum NetFault {
    /// It isn't an address, a `/` and a number of 8 bits.
    NotANet,
    /// The number is above 32, or above 128 where the address is of IPv6.
    TooManyBits,
    /// In the address a bit is set behind as many as the number says.
    HostBits,
}

impl fmt::Display for NetFault {
    fn fmt<W: fmt::Write>(&self, f: &mut fmt::Formatter<W>) -> fmt::Result {
        f.write_str(match self {
            NetFault::NotANet => "not an address, `/` and a number of bits",
            NetFault::TooManyBits => "more bits than the address has",
            NetFault::HostBits => "bits are set behind those of the net",
        })
    }
}

impl Error for NetFault {}

impl Net {
    /// The net that a text as `10.0.0.0/8` or `2001:db8::/32` writes.
    pub fn read(text: &[u8]) -> Result<Net, NetFault>
        ensures ok { IfOk result (λ net. IsNet text.now net) }
        ensures err { IfErr result (λ fault. IsFault text.now fault) }
    {
        let (address, digits) = around_slash(text);
        let Ok(ip) = IpAddr::parse_ascii(address) else {
            return Err(NetFault::NotANet);
        };
        let Some(bits) = read_bits(digits) else {
            return Err(NetFault::NotANet);
        };
        net_of(ip, bits)
    }

    /// Whether the host of this number is one of them.
    pub fn has(&self, host: u128) -> bool
        ensures { result ≡ is_in host self.now }
    {
        let first = self.first;
        match size_of(self.free) {
            Some(size) => host / size == first / size,
            None => true,
        }
    }
}

/// The number of an address: an IPv4 address has that of IPv6 that stands for it.
pub fn host_number(ip: IpAddr) -> u128
    ensures { result ≡ host_number ip }
{
    match ip {
        IpAddr::V4(ip) => MAPPED + ip.to_bits() as u128,
        IpAddr::V6(ip) => ip.to_bits(),
    }
}

/// Whether a reply from `source` is believed which says that a server is at `address`, where servers may be in these nets alone, or
/// anywhere if none are given. `own` is where the gateway itself listens.
pub fn is_believed(source: u128, address: Address, nets: &[Net], own: Address) -> bool
    ensures { result ≡ is_believed source address nets.now own }
{
    is_in_one(source, nets)
        && is_in_one(address.host, nets)
        && is_one_host(address.host)
        && address.port != 0
        && address != own
}

/// Whether the host is in one of the nets. With none given each is.
fn is_in_one(host: u128, nets: &[Net]) -> bool
    ensures { result ≡ is_in_one host nets.now }
{
    nets.is_empty() || is_in_any(host, nets)
}

fn is_in_any(host: u128, nets: &[Net]) -> bool
    ensures { result ≡ list_any (is_in host) nets.now }
{
    nets.iter().any(|net| net.has(host))
}

/// Whether the number is that of one host: neither 0, nor all ones, nor multicast.
fn is_one_host(host: u128) -> bool
    ensures { result ≡ is_one_host host }
{
    let is_multicast = host >= 0xFFFF_E000_0000 && host < 0xFFFF_F000_0000
        || host >= 0xFF00_0000_0000_0000_0000_0000_0000_0000;
    host != 0 && host != MAPPED && host != 0xFFFF_FFFF_FFFF && !is_multicast
}

/// What stands before the first `/`, and what behind it.
fn around_slash(text: &[u8]) -> (&[u8], &[u8])
    ensures before { result.0.now ≡ before_first is_slash text.now }
    ensures after { result.1.now ≡ after_first is_slash text.now }
{
    match slash_place(text) {
        Some(place) => (&text[..place], &text[place + 1..]),
        None => (text, &[]),
    }
}

fn slash_place(text: &[u8]) -> Option<usize>
    ensures place { result ≡ position is_slash text.now }
    ensures within { IfSome result (λ place. place < length text.now) }
{
    text.iter().position(|byte| *byte == b'/')
}

/// The number that decimal digits write, and nothing else. `parse` would take a plus.
fn read_bits(digits: &[u8]) -> Option<u32>
    ensures some { IfSome result (λ bits. IsBits digits.now bits) }
    ensures none { IfNone result ((bits : ℕ) → ¬ (IsBits digits.now bits)) }
{
    if digits.starts_with(b"+") {
        return None;
    }
    match str::from_utf8(digits) {
        Ok(text) => text.parse().ok(),
        Err(_) => None,
    }
}

/// The net of an address of which so many bits count.
fn net_of(ip: IpAddr, bits: u32) -> Result<Net, NetFault>
    ensures ok { IfOk result (λ net. IsNetOf ip bits net) }
    ensures err { IfErr result (λ fault. IsFaultOf ip bits fault) }
{
    let width = width_of(ip);
    if bits > width {
        return Err(NetFault::TooManyBits);
    }
    let first = host_number(ip);
    let free = width - bits;
    if is_whole(first, free) {
        Ok(Net { first, free })
    } else {
        Err(NetFault::HostBits)
    }
}

/// Whether none of the last bits is set.
fn is_whole(first: u128, free: u32) -> bool
    ensures { IsTrue result ↔ (first % 2 ^ free ≡ 0) }
{
    match size_of(free) {
        Some(size) => first % size == 0,
        None => first == 0,
    }
}

/// How many bits an address has.
fn width_of(ip: IpAddr) -> u32
    ensures { result ≡ width_of ip }
{
    match ip {
        IpAddr::V4(_) => 32,
        IpAddr::V6(_) => 128,
    }
}

/// How many hosts differ in so many bits, where the number of them has 128 bits.
fn size_of(free: u32) -> Option<u128>
    ensures some { IfSome result (λ size. size ≡ 2 ^ free) }
    ensures none { IfNone result (2 ^ 128 ≤ 2 ^ free) }
{
    if free < 128 {
        Some(1u128 << free)
    } else {
        None
    }
}
