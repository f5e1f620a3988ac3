//! When beacons are sent, by which clients know that a server came.
ghost use Rattle.std.specs.Prelude.{◌≡◌, ℕ, List};
ghost use Rattle.ca_header.specs.Header.{canonical_header};
ghost use Rattle.serve_state.specs.Beacons.{AreAnewApart, AreCounted, IsAnew, after_look, beacon_of, begun, gap_left, id_at, longer, minute_left, unsent, wait_of, wanting};

use ca_header::{HeadBytes, Header, write_head};
use std::marker::Model;

/// The command of a beacon.
const RSRV_IS_UP: u16 = 13;

/// The minor version of the protocol.
const MINOR_VERSION: u16 = 13;

/// How many milliseconds pass behind the first beacon.
const FIRST_GAP: u64 = 20;

/// How many pass behind one at most.
const MOST_GAP: u64 = 15_000;

/// How many pass at least between two times that the gaps begin anew.
const MINUTE: u64 = 60_000;

/// When beacons are sent, and under which IDs: at once, and then behind gaps of 20 milliseconds that double up to 15
/// seconds; and so again where a server came back, but not twice in a minute. It knows no clock: times are milliseconds
/// since any moment, and later ones are not less.
#[derive(Drop)]
pub struct Beacon {
    // The ID of the next one.
    id: u32,
    // When the last one was sent, and how long behind it the next one is due.
    last: u64,
    gap: u64,
    // The gaps are to begin anew, and did last at this time.
    wanted: bool,
    anew: Option<u64>,
}

impl Model for Beacon {
    ghost use Rattle.serve_state.specs.Beacons.{BeaconState};

    ghost Value = { BeaconState };

    ghost view = { λ b. record { id = b.id; last = b.last; gap = b.gap; wanted = b.wanted; anew = b.anew } };
}

impl Beacon {
    /// None was sent yet.
    pub fn new() -> Beacon
        ensures { result ≡ unsent }
    {
        Beacon {
            id: 0,
            last: 0,
            gap: 0,
            wanted: false,
            anew: None,
        }
    }

    /// A server came back.
    pub fn want(&mut self)
        ensures { self.new ≡ wanting self.old }
    {
        self.wanted = true;
    }

    /// How many milliseconds from now on nothing is to be done.
    pub fn wait(&self, now: u64) -> u64
        ensures { result ≡ wait_of now self.now }
    {
        let left = self.gap_left(now);
        if self.wanted {
            left.min(minute_left(now, self.anew))
        } else {
            left
        }
    }

    /// The ID of the beacon that is to be sent now, if one is. It counts as sent then.
    pub fn look(&mut self, now: u64) -> Option<u32>
        ensures id { result ≡ id_at now self.old }
        ensures new { self.new ≡ after_look now self.old }
    {
        self.begin(now);
        if self.gap_left(now) > 0 {
            return None;
        }
        let id = self.id;
        self.id = id.wrapping_add(1);
        self.last = now;
        self.gap = longer(self.gap);
        Some(id)
    }

    // Has the gaps begin anew, where it is time.
    fn begin(&mut self, now: u64)
        ensures { self.new ≡ begun now self.old }
    {
        if self.wanted && minute_left(now, self.anew) == 0 {
            self.gap = 0;
            self.wanted = false;
            self.anew = Some(now);
        }
    }

    fn gap_left(&self, now: u64) -> u64
        ensures { result ≡ gap_left now self.now }
    {
        self.gap.saturating_sub(now.saturating_sub(self.last))
    }
}

fn longer(gap: u64) -> u64
    ensures { result ≡ longer gap }
{
    if gap == 0 {
        FIRST_GAP
    } else if gap < MOST_GAP {
        (2 * gap).min(MOST_GAP)
    } else {
        MOST_GAP
    }
}

fn minute_left(now: u64, anew: Option<u64>) -> u64
    ensures { result ≡ minute_left now anew }
{
    match anew {
        Some(anew) => MINUTE.saturating_sub(now.saturating_sub(anew)),
        None => 0,
    }
}

/// The beacon of this ID, of a server that takes connections at this port.
pub fn beacon_text(port: u16, id: u32) -> HeadBytes
    ensures { result ≡ canonical_header (beacon_of port id) }
{
    write_head(&Header {
        command: RSRV_IS_UP,
        dtype: MINOR_VERSION,
        p1: id,
        p2: 0,
        count: u32::from(port),
        size: 0,
    })
}

/// Beacons have the IDs 0, 1, 2 and so on, and between them are gaps of 20, 40, 80 milliseconds and so on, up to 15
/// seconds. These begin anew where a server comes back, at most once a minute.
pub fn beacons_are_counted()
    ensures counted { (times : List ℕ) → AreCounted times }
    ensures anew { IsAnew }
    ensures apart { AreAnewApart }
{}
