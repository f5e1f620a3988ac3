//! Beacons, by which clients know that the gateway is there, and that servers came back.
use crate::asker::milliseconds;
use crate::hub::{AsHub, Hub};
use crate::machine::System;
use pv_name::{Name, NoMemory};
use serve_state::{Beacon, beacon_text};
use std::alloc::Global;
use std::collections::HashMap;
use std::net::SocketAddr;
use std::sync::{Condvar, CondvarTimeouts, Mutex, Wait};
use std::time::Duration;

/// Of so many names it is known where they were found last.
const NAME_LIMIT: usize = 65_536;

/// Those that were lost stand under this number, once the server's own is free for another one.
const NOWHERE: u32 = 0;

/// What is known of the server of a number.
#[derive(Clone, Copy)]
struct NamesOf {
    // Names were found there.
    has_some: bool,
    // It is lost, and they with it.
    is_lost: bool,
}

impl NamesOf {
    fn none() -> NamesOf {
        NamesOf {
            has_some: false,
            is_lost: false,
        }
    }
}

/// What came for whoever sends beacons.
#[derive(Drop)]
struct BeaconInbox {
    // That of the number n has the place n.
    servers: Vec<NamesOf>,
    // At which server each name was found last.
    names: HashMap<Name, u32>,
    // Names that were lost came back.
    came_back: bool,
    end: bool,
}

impl BeaconInbox {
    fn server(&self, number: u32) -> NamesOf {
        match self.servers.get(number as usize) {
            Some(server) => *server,
            None => NamesOf::none(),
        }
    }

    fn is_lost(&self, number: u32) -> bool {
        number == NOWHERE || self.server(number).is_lost
    }

    fn set(&mut self, number: u32, server: NamesOf) {
        if let Some(known) = self.servers.get_mut(number as usize) {
            *known = server;
        }
    }

    // Whether the name comes back by that: it was found at another server, which is lost. Where memory is refused, it isn't noted.
    fn find(&mut self, name: &Name, number: u32) -> bool {
        let is_back = match self.names.get(name) {
            Some(last) => *last != number && self.is_lost(*last),
            None => false,
        };
        if self.names.len() >= NAME_LIMIT {
            self.names.clear();
        }
        if let Ok(again) = name.copy() {
            let _ = self.names.insert(again, number);
        }
        is_back
    }

    // Whether names come back by that.
    fn connect(&mut self, number: u32) -> bool {
        let mut server = self.server(number);
        server.is_lost = false;
        self.set(number, server);
        server.has_some
    }

    fn lose(&mut self, number: u32) {
        let mut server = self.server(number);
        server.is_lost = server.has_some;
        self.set(number, server);
    }

    // Its names aren't lost: nobody wanted them.
    fn leave(&mut self, number: u32) {
        self.names.retain(|_, last| *last != number);
        self.set(number, NamesOf::none());
    }

    fn forget(&mut self, number: u32) {
        if self.server(number).has_some {
            self.names.retain(|_, last| {
                if *last == number {
                    *last = NOWHERE;
                }
                true
            });
        }
        self.set(number, NamesOf::none());
    }
}

/// What threads share by which beacons are sent.
#[derive(Drop)]
pub struct Beacons {
    targets: Vec<SocketAddr>,
    inbox: Mutex<BeaconInbox>,
    came: Condvar,
}

impl Beacons {
    /// To these addresses. There may be so many servers.
    pub fn new(alloc: Global, targets: Vec<SocketAddr>, servers: u32) -> Result<Beacons, NoMemory> {
        let mut known = Vec::new(alloc);
        known.resize((servers as usize).saturating_add(1), NamesOf::none())?;
        Ok(Beacons {
            targets,
            inbox: Mutex::new(BeaconInbox {
                servers: known,
                names: HashMap::new(alloc),
                came_back: false,
                end: false,
            }),
            came: Condvar::new(),
        })
    }

    /// These names were found at the server of this number.
    pub fn note_names<R: Wait>(&self, rt: &R, names: &[Name], number: u32) {
        {
            let mut inbox = self.inbox.lock(rt);
            let mut server = inbox.server(number);
            server.has_some = true;
            inbox.set(number, server);
            let mut is_back = false;
            for name in names {
                is_back |= inbox.find(name, number);
            }
            if !is_back {
                return;
            }
            inbox.came_back = true;
        }
        self.came.notify_all();
    }

    /// The server of this number is connected.
    pub fn note_connected<R: Wait>(&self, rt: &R, number: u32) {
        {
            let mut inbox = self.inbox.lock(rt);
            if !inbox.connect(number) {
                return;
            }
            inbox.came_back = true;
        }
        self.came.notify_all();
    }

    /// The server of this number is lost.
    pub fn note_lost<R: Wait>(&self, rt: &R, number: u32) {
        self.inbox.lock(rt).lose(number);
    }

    /// The server of this number is left, as nobody wants its names.
    pub fn leave<R: Wait>(&self, rt: &R, number: u32) {
        self.inbox.lock(rt).leave(number);
    }

    /// The number is another server's from now on.
    pub fn forget<R: Wait>(&self, rt: &R, number: u32) {
        self.inbox.lock(rt).forget(number);
    }

    /// Whoever sends beacons is to end.
    pub fn end<R: Wait>(&self, rt: &R) {
        self.inbox.lock(rt).end = true;
        self.came.notify_all();
    }
}

/// Sends beacons until the gateway closes.
pub fn send_beacons<R: System, H: AsHub>(rt: R, hub: &H) {
    let Some(beacons) = &hub.hub().beacons else {
        return;
    };
    let mut beacon = Beacon::new();
    let mut now = milliseconds(rt, 0);
    for _ in rt.forever() {
        if let Some(id) = beacon.look(now) {
            send_beacon(hub.hub(), beacons, id);
        }
        let Some(came_back) = next_back(rt, beacons, beacon.wait(now)) else {
            return;
        };
        if came_back {
            beacon.want();
        }
        now = milliseconds(rt, now);
    }
}

// Whether names came back, once some did or the pause is over. None where the gateway ends.
fn next_back<R: System>(rt: R, beacons: &Beacons, pause: u64) -> Option<bool> {
    let inbox = beacons.inbox.lock(&rt);
    let pause = Duration::from_millis(pause.max(1));
    let (mut inbox, _) = beacons
        .came
        .wait_timeout_while(&rt, inbox, pause, |inbox| !inbox.end && !inbox.came_back);
    if inbox.end {
        return None;
    }
    let came_back = inbox.came_back;
    inbox.came_back = false;
    Some(came_back)
}

// One for each address on which clients are served, which it comes from: so they know its host.
fn send_beacon(hub: &Hub, beacons: &Beacons, id: u32) {
    for place in 0..hub.sockets.count() {
        if hub.sockets.speaker(place) != place {
            continue;
        }
        let entrance = hub.sockets.entrance(place);
        let text = beacon_text(entrance.address.port(), id);
        for target in &beacons.targets {
            let _ = entrance.datagrams.socket.send_to(text.as_slice(), *target);
        }
    }
}
