//! The names that servers were asked for.
ghost use Rattle.std.specs.Prelude.{◌≡◌, ◌<◌, [], length, IfOk, IfSome, OnOk, OnErr, option_copied};
ghost use Rattle.serve_state.specs.Asks.{AskedState, age, first_cid, kept, name_under, other_server, place_under, with_answer, with_ask};

use pv_name::{Name, NoMemory};
use std::alloc::{AllocError, Global};
use std::collections::VecDeque;
use std::marker::Model;

/// How many asks are kept, the last ones.
pub const ASKED_LIMIT: usize = 65_536;

/// The CID after the last one is this one again.
const FIRST_CID: u32 = 1;

/// A name that servers were asked for, and the number of the one that answered first.
#[derive(Drop)]
struct SentAsk {
    name: Name,
    server: Option<u32>,
}

/// The last asks, each a name under a CID. CIDs rise from 1, and after the last 32-bit number come from 1
/// again.
#[derive(Drop)]
pub struct SentAsks {
    asks: VecDeque<SentAsk>,
    // The CID of the next ask.
    next: u32,
}

impl Model for SentAsks {
    ghost use Rattle.serve_state.specs.Asks.{AskedState};

    ghost Value = { AskedState };

    ghost view = { λ a. record { asks = a.asks.items; next = a.next } };
}

impl SentAsks {
    /// No asks yet. It takes no memory.
    pub fn new(alloc: Global) -> SentAsks
        ensures { result ≡ record { asks = []; next = 1 } }
    {
        SentAsks {
            asks: VecDeque::new(alloc),
            next: FIRST_CID,
        }
    }

    /// No asks yet, and the first one is under this CID, 1 where it is 0: whoever can't hear asks shouldn't know their CIDs. It takes
    /// no memory.
    pub fn beginning(alloc: Global, cid: u32) -> SentAsks
        ensures { result ≡ record { asks = []; next = first_cid cid } }
    {
        SentAsks {
            asks: VecDeque::new(alloc),
            next: if cid == 0 { FIRST_CID } else { cid },
        }
    }

    /// Keeps an ask for a name, and answers its CID. Where `ASKED_LIMIT` are kept the oldest goes, at an
    /// error too.
    pub fn add(&mut self, name: Name) -> Result<u32, NoMemory>
        ensures cid { IfOk result (λ cid. cid ≡ self.old.next) }
        ensures ok { OnOk result (self.new ≡ with_ask name self.old) }
        ensures err { OnErr result (self.new ≡ record self.old { asks = kept self.old.asks }) }
    {
        if self.asks.len() == ASKED_LIMIT {
            self.asks.pop_front();
        }
        if self.asks.push_back(SentAsk { name, server: None }).is_err() {
            return Err(AllocError);
        }
        let cid = self.next;
        self.next = cid.checked_add(1).unwrap_or(FIRST_CID);
        Ok(cid)
    }

    /// The name that was asked for under the CID, where that ask is kept.
    pub fn find(&self, cid: u32) -> Option<&Name>
        ensures { option_copied result ≡ name_under cid self.now }
    {
        let place = self.place_of(cid)?;
        match self.asks.get(place) {
            Some(ask) => Some(&ask.name),
            None => None,
        }
    }

    /// The server of this number answered the ask under the CID. The server that answered it before, where that is
    /// another one.
    pub fn hear(&mut self, cid: u32, server: u32) -> Option<u32>
        ensures other { result ≡ other_server cid server self.old }
        ensures new { self.new ≡ with_answer cid server self.old }
    {
        let place = self.place_of(cid)?;
        let ask = self.asks.get_mut(place)?;
        match ask.server {
            Some(first) if first != server => Some(first),
            Some(_) => None,
            None => {
                ask.server = Some(server);
                None
            }
        }
    }

    // The place of the ask under the CID.
    fn place_of(&self, cid: u32) -> Option<usize>
        ensures place { result ≡ place_under cid self.now }
    {
        if cid == 0 {
            return None;
        }
        let age = age(cid, self.next);
        if self.asks.len() < age {
            return None;
        }
        Some(self.asks.len() - age)
    }
}

// How many asks ago the CID was given out, 1 for the last one, were all of them kept.
fn age(cid: u32, next: u32) -> usize
    ensures { result ≡ age cid next }
{
    if cid < next {
        return (next - cid) as usize;
    }
    (u32::MAX - cid) as usize + next as usize
}
