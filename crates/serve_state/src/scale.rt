//! How many clients, servers and remembered names there may be.
ghost use Rattle.std.specs.Prelude.{◌≡◌};
ghost use Rattle.serve_state.specs.Scale.{limits_for, limits_of, share_of, up_to};

use decimal_text::read_u32;
use gateway_state::Limits;

/// How many clients may be connected at once, where nothing else is said.
pub const CLIENTS: u32 = 1_024;

/// How many may be said at most.
pub const MOST_CLIENTS: u32 = 4_096;

/// How many servers there may be, where nothing else is said.
pub const SERVERS: u32 = 16;

/// How many may be said at most.
pub const MOST_SERVERS: u32 = 1_024;

/// How many names may be said at most that are remembered.
pub const MOST_NAMES: u32 = 1_048_576;

/// How many variables may be open upstream on a site.
const SITE_LINKS: usize = 262_144;

/// How many channels a client may have on a site, and how many subscriptions.
const SITE_CHANNELS: usize = 65_536;

/// How many reads of a client may wait on a site, and how many writes.
const SITE_WAITING: usize = 8_192;

/// How many messages may wait for a client on a site: what it is told as a server goes on which it has all its channels
/// and subscriptions, and more.
const SITE_MESSAGES: u32 = 262_144;

/// While fewer bytes wait for a client it is given updates on a site: so what a slow one is given is no older
/// than so many bytes, and what its socket holds.
const SITE_BYTES: u64 = 0x4_0000;

/// The share of one host in the names that are remembered: one of so many parts.
const SHARES: usize = 16;

/// But so many at least.
const LEAST_SHARE: usize = 256;

/// The number that decimal digits write; `None` where it isn't from 1 to `most`, or they are none.
pub fn read_up_to(most: u32, digits: &[u8]) -> Option<u32>
    ensures { result ≡ up_to most digits.now }
{
    match read_u32(digits) {
        Some(number) if number >= 1 && number <= most => Some(number),
        _ => None,
    }
}

/// How many clients, servers and remembered names there may be.
#[derive(Clone, Copy, Debug, PartialEq, Eq)]
pub struct Scale {
    pub clients: u32,
    pub servers: u32,
    /// So many searched names are remembered, and old ones go for new ones. `None`: as many as is usual, and none goes.
    pub names: Option<u32>,
    /// Whether all else is as a site wants it: more variables upstream, more channels and subscriptions of a client,
    /// more reads and writes that wait, updates held back by bytes, no fault for a request on what is gone, and an answer
    /// to who searches on a connection.
    pub site: bool,
    /// Whether a client's host is the address that its connection comes from, whatever it says.
    pub checks_hosts: bool,
}

impl Scale {
    /// The limits that the gateway is told.
    pub fn limits(self) -> Limits
        ensures { result ≡ limits_of self }
    {
        let mut limits = limits_for(self.site);
        limits.sessions = self.clients as usize;
        limits.servers = self.servers as usize;
        limits.checks_hosts = self.checks_hosts;
        if let Some(names) = self.names {
            limits.searches = names as usize;
            limits.share = share_of(names as usize);
            limits.makes_room = true;
        }
        limits
    }
}

// The limits of which no number is said, on a site or elsewhere.
fn limits_for(site: bool) -> Limits
    ensures { result ≡ limits_for site }
{
    let mut limits = Limits::usual();
    if site {
        limits.links = SITE_LINKS;
        limits.channels = SITE_CHANNELS;
        limits.subs = SITE_CHANNELS;
        limits.reads = SITE_WAITING;
        limits.writes = SITE_WAITING;
        limits.messages = SITE_MESSAGES;
        limits.update_bytes = SITE_BYTES;
        limits.passes_over_gone = true;
        limits.reuses_numbers = true;
        limits.tells_unreadable = true;
        limits.answers_searches = true;
    }
    limits
}

// How many of so many names may be of one host.
fn share_of(names: usize) -> usize
    ensures { result ≡ share_of names }
{
    (names / SHARES).max(LEAST_SHARE)
}
