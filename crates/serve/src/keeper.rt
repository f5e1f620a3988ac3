//! What keeps the connections' rows.
use crate::finding::Came;
use crate::hub::{AsHub, Hub, PeerRows};
use crate::line::WatchedStream;
use crate::machine::System;
use crate::workers::start_workers;
use gateway_core::{Dest, Event};
use serve_state::{Cut, Notice};
use std::net::SocketAddr;
use std::thread;
use std::thread::Scope;
use std::time::Duration;

/// How many milliseconds pass before a connection is looked at again which the board hasn't lost yet.
const PAUSE: u64 = 5;

/// Starts the workers of servers that were reached, and takes the rows away of connections that are lost,
/// until the gateway closes.
pub fn keep_rows<'x, 's: 'x, E: 's, R: System + 's, H: AsHub + Sync + 's>(
    rt: R,
    scope: &'x Scope<'s, E>,
    hub: &'s H,
) {
    for _ in rt.forever() {
        if !is_needed(rt, hub.hub()) {
            return;
        }
        if let Some((number, peer, line)) = take_reached(rt, hub.hub()) {
            serve_server(rt, &*scope, &*hub, number, peer, line);
        }
        if !retire_ended(rt, hub) {
            thread::sleep(&rt, Duration::from_millis(PAUSE));
        }
    }
}

// Waits until there is something to do. False where the gateway closes.
fn is_needed<R: System>(rt: R, hub: &Hub) -> bool {
    let roster = hub.roster.lock(&rt);
    let roster = hub
        .changed
        .wait_while(&rt, roster, |roster| is_idle(roster));
    !roster.is_closing()
}

fn is_idle(roster: &PeerRows) -> bool {
    !roster.is_closing() && !roster.has_reached() && roster.ended_from(0).is_none()
}

// The number, the address and the connection of a server that was reached.
fn take_reached<R: System>(rt: R, hub: &Hub) -> Option<(u32, SocketAddr, WatchedStream)> {
    let (number, reached) = {
        let mut roster = hub.roster.lock(&rt);
        let place = roster.take_reached()?;
        let row = roster.rows().get(place)?;
        let link = row.link()?;
        let Dest::Upstream(number) = row.dest() else {
            return None;
        };
        let peer = *row.peer();
        match link.share() {
            Ok(line) => (number, Some((number, peer, line))),
            Err(_) => {
                // It never comes to stand, and can be connected to again.
                roster.remove(Dest::Upstream(number));
                (number, None)
            }
        }
    };
    if reached.is_none() {
        hub.note_server(&rt, number, Came::Failed);
    }
    reached
}

fn serve_server<'x, 's: 'x, E: 's, R: System + 's, H: AsHub + Sync + 's>(
    rt: R,
    scope: &'x Scope<'s, E>,
    hub: &'s H,
    number: u32,
    peer: SocketAddr,
    line: WatchedStream,
) {
    hub.hub().outages.lock(&rt).end(number);
    hub.hub().tell(&rt, Notice::ServerConnected(number, peer));
    let _ = hub.gate().desk(&rt, Event::UpOpened(number));
    start_workers(rt, &*scope, &*hub, Dest::Upstream(number), &line);
    hub.hub().note_connected(&rt, number);
    // Who connects to it again and again isn't there to write `ask`. Whoever finds servers has it asked by itself.
    let asks = hub.hub().options.reconnect.is_some() || hub.hub().options.back_off;
    if asks && !hub.hub().is_found(number) {
        hub.hub().ask(&rt);
    }
}

// Takes away each row whose workers have ended and whose loss was performed. False where the loss of one
// wasn't.
fn retire_ended<R: System, H: AsHub>(rt: R, hub: &H) -> bool {
    let mut place = 0;
    let mut is_done = true;
    for _ in rt.forever() {
        let Some(dest) = ended_at(rt, hub.hub(), &mut place) else {
            return is_done;
        };
        if matches!(hub.gate().is_open(&rt, dest), Ok(true)) {
            is_done = false;
            place = place.saturating_add(1);
        } else {
            retire(rt, hub, dest);
        }
    }
    unreachable!()
}

fn ended_at<R: System>(rt: R, hub: &Hub, place: &mut usize) -> Option<Dest> {
    let roster = hub.roster.lock(&rt);
    *place = roster.ended_from(*place)?;
    roster.rows().get(*place).map(|row| row.dest())
}

fn retire<R: System, H: AsHub>(rt: R, hub: &H, dest: Dest) {
    drop(hub.gate().retire(&rt, dest));
    if let Dest::Upstream(number) = dest {
        hub.hub().note_lost(&rt, number);
        seek_lost(rt, hub.hub(), number);
    }
    let removed = hub.hub().roster.lock(&rt).remove(dest);
    if let Dest::Upstream(number) = dest {
        hub.hub().note_server(&rt, number, Came::Lost);
    }
    if let Some(row) = removed {
        tell_of_end(rt, hub.hub(), dest, *row.peer(), row.cut());
    }
}

// The names of a server that is lost are looked for at the other ones. Where servers are found by search, names that none had
// before need not be asked for sooner.
fn seek_lost<R: System>(rt: R, hub: &Hub, number: u32) {
    if hub.is_found(number) {
        hub.seek_lost(&rt);
    } else if hub.options.back_off {
        hub.ask(&rt);
    }
}

fn tell_of_end<R: System>(rt: R, hub: &Hub, dest: Dest, peer: SocketAddr, cut: Option<Cut>) {
    match (dest, cut) {
        (Dest::Session(number), None) => hub.tell(&rt, Notice::ClientGone(number, peer)),
        (Dest::Session(number), Some(why)) => hub.tell(&rt, Notice::ClientCut(number, peer, why)),
        (Dest::Upstream(number), None) if hub.is_found(number) => {
            hub.tell(&rt, Notice::FoundLost(number, peer))
        }
        (Dest::Upstream(number), Some(why)) if hub.is_found(number) => {
            hub.tell(&rt, Notice::FoundCut(number, peer, why))
        }
        (Dest::Upstream(number), None) => hub.tell(&rt, Notice::ServerLost(number, peer)),
        (Dest::Upstream(number), Some(why)) => hub.tell(&rt, Notice::ServerCut(number, peer, why)),
    }
}
