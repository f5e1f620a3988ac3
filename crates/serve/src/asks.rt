//! Datagrams that ask servers for names.
use crate::hub::Hub;
use crate::machine::System;
use crate::upstreams::Upstreams;
use pv_name::{Name, NoMemory};
use pv_search::{NameAsk, ask_datagram};
use serve_state::Notice;
use std::alloc::Global;
use std::net::SocketAddr;
use std::thread;
use std::time::Duration;

/// After so many asks it rests for a millisecond, so that the replies find room. A datagram holds fewer.
const BURST: usize = 64;

/// Names that servers are to be asked for, each under its CID.
#[derive(Drop)]
pub struct Asks {
    waiting: Vec<NameAsk>,
    // These wait until somebody takes them up again.
    put_off: Vec<NameAsk>,
}

impl Asks {
    /// None. It takes no memory.
    pub fn new(alloc: Global) -> Asks {
        Asks {
            waiting: Vec::new(alloc),
            put_off: Vec::new(alloc),
        }
    }

    /// Whether there is none, put off ones too.
    pub fn is_empty(&self) -> bool {
        self.waiting.is_empty() && self.put_off.is_empty()
    }

    /// Puts off those that wait: others come before them. At an error none is put off.
    pub fn put_off(&mut self) -> Result<(), NoMemory> {
        self.put_off.append(&mut self.waiting)?;
        Ok(())
    }

    /// Has those that were put off wait again, behind the others, and answers how many these are.
    pub fn take_up(&mut self) -> Result<usize, NoMemory> {
        let count = self.put_off.len();
        self.waiting.append(&mut self.put_off)?;
        Ok(count)
    }

    /// Whether a datagram might hold more.
    pub fn is_short(&self) -> bool {
        self.waiting.len() < BURST
    }

    /// One name more, under the next CID.
    pub fn add<R: System>(&mut self, rt: R, hub: &Hub, name: Name) -> Result<(), NoMemory> {
        let again = name.copy()?;
        let cid = hub.asked.lock(&rt).add(again)?;
        self.waiting.push(NameAsk { name, cid })?;
        Ok(())
    }

    /// Sends each server one datagram, with as many of the names as it holds, from the first on, and each name server what it asks.
    /// Answers how many these are. They are asked for then.
    pub fn send<R: System>(&mut self, rt: R, hub: &Hub) -> Result<usize, NoMemory> {
        let datagram = ask_datagram(hub.alloc, self.waiting.as_slice())?;
        send_to_all(rt, hub, &hub.servers, datagram.text.as_slice());
        if let Some(finding) = &hub.finding {
            let marked = finding.own.mark(hub.alloc, datagram.text.as_slice())?;
            send_to_all(rt, hub, &finding.targets, marked.as_slice());
            hub.name_servers.ask(&rt, datagram.text.as_slice());
        }
        let asked = datagram.asked.min(self.waiting.len());
        drop(self.waiting.drain(..asked));
        Ok(asked)
    }
}

fn send_to_all<R: System>(rt: R, hub: &Hub, places: &Upstreams, text: &[u8]) {
    for number in 1..=places.count() {
        if let Some(address) = places.at(&rt, number) {
            let is_sent = hub.sockets.asks().send_to(text, address).is_ok();
            if places.note_sent(&rt, number, is_sent) {
                tell_sent(rt, hub, address, is_sent);
            }
        }
    }
}

// Once it ends nothing can be sent.
fn tell_sent<R: System>(rt: R, hub: &Hub, address: SocketAddr, is_sent: bool) {
    if is_sent {
        hub.tell(&rt, Notice::SentAgain(address));
    } else if !hub.is_closing(&rt) {
        hub.tell(&rt, Notice::Unsent(address));
    }
}

/// Asks each server for all of these names, in order.
pub fn ask_each<R: System>(rt: R, hub: &Hub, names: Vec<Name>) -> Result<(), NoMemory> {
    let mut asks = Asks::new(hub.alloc);
    let mut count = 0usize;
    for name in names {
        asks.add(rt, hub, name)?;
        if asks.waiting.len() < BURST {
            continue;
        }
        count = count.saturating_add(asks.send(rt, hub)?);
        if count >= BURST {
            if hub.is_closing(&rt) {
                return Ok(());
            }
            thread::sleep(&rt, Duration::from_millis(1));
            count = 0;
        }
    }
    send_rest(rt, hub, asks)
}

fn send_rest<R: System>(rt: R, hub: &Hub, asks: Asks) -> Result<(), NoMemory> {
    let mut asks = asks;
    for _ in rt.forever() {
        if asks.is_empty() {
            break;
        }
        asks.send(rt, hub)?;
    }
    Ok(())
}
