//! Searches that clients make on their connections. The core answers those for what is connected. The names of the others
//! are asked for, and these searches are made again once they can be answered.
use crate::clients::host_number;
use crate::hub::{AsHub, Hub, Wish};
use crate::late::{Seeker, keep_seekers};
use crate::machine::System;
use gateway_core::Dest;
use gateway_state::SearchOn;
use pv_name::NoMemory;
use serve_state::Notice;
use std::net::SocketAddr;
use std::thread;
use std::time::Duration;

/// How many milliseconds pass after memory was refused.
const PAUSE: u64 = 20;

/// Hears of each search that the core couldn't answer, until the gateway closes.
pub fn hear_seekers<R: System, H: AsHub>(rt: R, hub: &H) {
    let mut seen = 0;
    for _ in rt.forever() {
        let Some(came) = hub.gate().next_unanswered(&rt, hub.hub().alloc, seen) else {
            return;
        };
        let heard = match came {
            Ok(came) => {
                seen = came.count;
                hear(rt, hub, came.searches)
            }
            Err(fault) => Err(fault),
        };
        if heard.is_err() {
            hub.hub().tell(&rt, Notice::OutOfMemory);
            thread::sleep(&rt, Duration::from_millis(PAUSE));
        }
    }
}

/// A search, and who made it.
#[derive(Drop)]
struct Sought {
    by: Seeker,
    search: SearchOn,
}

// Has these names asked for, and keeps the searches to be made again.
fn hear<R: System, H: AsHub>(rt: R, hub: &H, searches: Vec<SearchOn>) -> Result<(), NoMemory> {
    let alloc = hub.hub().alloc;
    let mut wishes = Vec::new(alloc);
    let mut has_others = false;
    let sought = with_seekers(rt, hub.hub(), searches)?;
    for Sought { by, search } in &sought {
        if matches!(hub.gate().is_missing(&rt, &search.name), Ok(true)) {
            wishes.push(Wish {
                host: host_number(&by.address()),
                name: search.name.copy()?,
            })?;
        } else {
            has_others = true;
        }
    }
    keep_sought(rt, hub.hub(), sought)?;
    if hub.hub().options.back_off {
        hub.hub().seek(&rt, wishes, has_others);
    } else {
        hub.hub().ask(&rt);
    }
    Ok(())
}

// Keeps them where late answers are given.
fn keep_sought<R: System>(rt: R, hub: &Hub, sought: Vec<Sought>) -> Result<(), NoMemory> {
    let mut searches = Vec::new(hub.alloc);
    for Sought { by, search } in sought {
        searches.push(by.search(rt, search.cid, search.name))?;
    }
    keep_seekers(rt, hub, searches);
    Ok(())
}

// The searches of clients that are there. Those that stand together are mostly of one.
fn with_seekers<R: System>(
    rt: R,
    hub: &Hub,
    searches: Vec<SearchOn>,
) -> Result<Vec<Sought>, NoMemory> {
    let mut sought = Vec::new(hub.alloc);
    let mut last: Option<(u32, Option<SocketAddr>)> = None;
    for search in searches {
        let peer = match last {
            Some((session, peer)) if session == search.session => peer,
            _ => peer_of(rt, hub, search.session),
        };
        last = Some((search.session, peer));
        if let Some(peer) = peer {
            let by = Seeker::Connection(search.session, peer);
            sought.push(Sought { by, search })?;
        }
    }
    Ok(sought)
}

/// Where the client of this number is connected from.
pub fn peer_of<R: System>(rt: R, hub: &Hub, session: u32) -> Option<SocketAddr> {
    let roster = hub.roster.lock(&rt);
    for row in roster.rows() {
        if row.dest() == Dest::Session(session) {
            return Some(*row.peer());
        }
    }
    None
}
