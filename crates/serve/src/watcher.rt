//! What cuts off connections that must end while their writers wait for the peer.
use crate::hub::{AsHub, Hub};
use crate::line::{Watched, WatchedStream};
use crate::machine::System;
use gate_board::Arrears;
use gateway_core::{Dest, Event};
use serve_state::{
    Bound, Cut, LIMITS, Limit, LimitWatch, Notice, Patience, Rhythm, Verdict, WaitingBytes,
};
use std::net::{Shutdown, SocketAddr};
use std::sync::CondvarTimeouts;
use std::time::Duration;

/// How many milliseconds pass between two looks, four of which are a second.
const PAUSE: u64 = 250;

/// Looks at all connections again and again, until the gateway closes, and shuts those that must end and those
/// of clients for whom too much waits, alone or with all others. A writer finds the former itself, but not while it
/// waits for a peer that doesn't read; nobody else looks for the latter.
pub fn watch<R: System, H: AsHub>(rt: R, hub: &H) {
    let mut seconds = Rhythm::each_second();
    let mut watches = [
        LimitWatch::new(),
        LimitWatch::new(),
        LimitWatch::new(),
        LimitWatch::new(),
        LimitWatch::new(),
        LimitWatch::new(),
        LimitWatch::new(),
        LimitWatch::new(),
        LimitWatch::new(),
    ];
    let mut waiting = room_for_all(rt, hub.hub());
    for _ in rt.forever() {
        if !rests(rt, hub.hub()) {
            return;
        }
        look_at_all(rt, hub, &mut waiting);
        keep_in_all(rt, hub, &mut waiting);
        if let Some(patience) = hub.hub().options.alive {
            watch_all(rt, hub, patience);
        }
        tell_limits(rt, hub, &mut watches);
        if seconds.look() {
            hub.hub().book.end_second(&rt);
        }
    }
}

// Tells which limits were met since they were last told of.
fn tell_limits<R: System, H: AsHub>(rt: R, hub: &H, watches: &mut [LimitWatch; LIMITS]) {
    let met = hub.gate().limits_met(&rt);
    let refused = *hub.hub().refused.lock(&rt);
    let limits = hub.hub().limits();
    for place in 0..LIMITS {
        let limit = Limit::ALL[place];
        if let Some(times) = watches[place].look(limit.met(&met, refused)) {
            let most = limit.most(&limits);
            hub.hub()
                .tell(&rt, Notice::LimitMet(Bound { limit, most }, times));
        }
    }
}

/// Waits for a while. False where the gateway closes.
pub fn rests<R: System>(rt: R, hub: &Hub) -> bool {
    let roster = hub.roster.lock(&rt);
    let pause = Duration::from_millis(PAUSE);
    let (roster, _) = hub
        .changed
        .wait_timeout_while(&rt, roster, pause, |roster| !roster.is_closing());
    !roster.is_closing()
}

// A list with room for all clients, where it is watched what waits for all: so no look takes memory, which is short
// just where much waits.
fn room_for_all<R: System>(rt: R, hub: &Hub) -> Vec<WaitingBytes> {
    let mut waiting = Vec::new(hub.alloc);
    if hub.options.most_in_all.is_some() {
        let clients = hub.options.scale.clients as usize;
        if waiting.reserve(clients).is_err() {
            hub.tell(&rt, Notice::OutOfMemory);
        }
    }
    waiting
}

// Shuts those that must end, and lists the clients for whom something waits that go on.
fn look_at_all<R: System, H: AsHub>(rt: R, hub: &H, waiting: &mut Vec<WaitingBytes>) {
    waiting.clear();
    let mut place = 0usize;
    for _ in rt.forever() {
        let Some((dest, is_cut)) = row_at(rt, hub.hub(), place) else {
            return;
        };
        let Some(bytes) = look_at(rt, hub, dest) else {
            place = place.saturating_add(1);
            continue;
        };
        // What waits for one that is cut off goes with it.
        if !is_cut && bytes > 0 {
            list(hub.hub(), dest, bytes, waiting);
        }
        place = place.saturating_add(1);
    }
}

// Shuts a connection that must end. How many bytes wait for one that goes on; None too where the gateway failed.
fn look_at<R: System, H: AsHub>(rt: R, hub: &H, dest: Dest) -> Option<u64> {
    let Arrears { must_end, waiting } = hub.gate().arrears(&rt, dest).ok()?;
    let most = hub.hub().options.most_waiting;
    let messages = hub.hub().limits().most_for(dest);
    if let Some(why) = most.why_shut(dest, must_end, waiting, messages) {
        hub.hub().cut(&rt, dest, why);
        shut_for_good(rt, hub, dest);
        return None;
    }
    Some(waiting)
}

fn list(hub: &Hub, dest: Dest, bytes: u64, waiting: &mut Vec<WaitingBytes>) {
    if let Dest::Session(number) = dest {
        if hub.options.most_in_all.is_some() {
            // There is room, or there was no memory.
            let _ = waiting.push(WaitingBytes { number, bytes });
        }
    }
}

// Cuts off those for whom most waits, where more waits for all clients than may.
fn keep_in_all<R: System, H: AsHub>(rt: R, hub: &H, waiting: &mut Vec<WaitingBytes>) {
    let Some(most) = hub.hub().options.most_in_all else {
        return;
    };
    most.cut(waiting);
    for client in waiting.as_slice() {
        let dest = Dest::Session(client.number);
        hub.hub()
            .cut(&rt, dest, Cut::TooMuchInAll(client.bytes, most.mib));
        shut_for_good(rt, hub, dest);
        let mut cut = hub.hub().cut_in_all.lock(&rt);
        *cut = cut.saturating_add(1);
    }
}

// The connection whose row has this place, and whether it is cut off.
fn row_at<R: System>(rt: R, hub: &Hub, place: usize) -> Option<(Dest, bool)> {
    let roster = hub.roster.lock(&rt);
    roster
        .rows()
        .get(place)
        .map(|row| (row.dest(), row.cut().is_some()))
}

/// The connection whose row has this place.
pub fn dest_at<R: System>(rt: R, hub: &Hub, place: usize) -> Option<Dest> {
    let roster = hub.roster.lock(&rt);
    roster.rows().get(place).map(|row| row.dest())
}

/// Ends the socket of a connection, whose workers end by that.
pub fn shut<R: System>(rt: R, hub: &Hub, dest: Dest) {
    let roster = hub.roster.lock(&rt);
    for row in roster.rows() {
        if row.dest() == dest {
            if let Some(line) = row.link() {
                let _ = line.stream.shutdown(Shutdown::Both);
            }
        }
    }
}

// The same of one that is cut off. One that is held waits for places, and hears no end: so it isn't held any more.
fn shut_for_good<R: System, H: AsHub>(rt: R, hub: &H, dest: Dest) {
    shut(rt, hub.hub(), dest);
    hub.gate().note_end(&rt, dest);
}

// Takes a look at each connection, whether whoever it leads to is still there.
fn watch_all<R: System, H: AsHub>(rt: R, hub: &H, patience: Patience) {
    let mut place = 0usize;
    for _ in rt.forever() {
        let Some((dest, peer, line)) = next_line(rt, hub.hub(), &mut place) else {
            return;
        };
        let watched: &Watched = &line.watched;
        match watched.look(rt, dest, patience) {
            Verdict::Nothing => (),
            Verdict::Probe => probe(rt, hub, dest, peer),
            Verdict::Cut => {
                hub.hub().cut(&rt, dest, why_silent(dest, patience));
                let _ = line.stream.shutdown(Shutdown::Both);
                hub.gate().note_end(&rt, dest);
            }
        }
    }
}

// The first connection from this place on that is made; the place is behind it then.
fn next_line<R: System>(
    rt: R,
    hub: &Hub,
    place: &mut usize,
) -> Option<(Dest, SocketAddr, WatchedStream)> {
    let roster = hub.roster.lock(&rt);
    let rows = roster.rows();
    for _ in 0..rows.len() {
        let row = rows.get(*place)?;
        *place = place.saturating_add(1);
        if let Some(line) = row.link() {
            if let Ok(line) = line.share() {
                return Some((row.dest(), *row.peer(), line));
            }
        }
    }
    None
}

// Asks a server whether it is there.
fn probe<R: System, H: AsHub>(rt: R, hub: &H, dest: Dest, peer: SocketAddr) {
    if let Dest::Upstream(number) = dest {
        let _ = hub.gate().desk(&rt, Event::Probe(number));
        hub.hub().tell(&rt, Notice::ServerProbed(number, peer));
    }
}

fn why_silent(dest: Dest, patience: Patience) -> Cut {
    match dest {
        Dest::Session(_) => Cut::Silent(patience.seconds.saturating_mul(4)),
        Dest::Upstream(_) => Cut::Unanswering(patience.seconds),
    }
}
