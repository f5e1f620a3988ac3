//! Hosts are looked up anew at which servers are searched for: what a name leads to may change.
use crate::hub::{AsHub, Hub};
use crate::machine::System;
use crate::upstreams::look_up;
use std::alloc::Global;
use std::net::{Net, TcpListener, TcpStream};
use std::sync::Arc;
use std::thread;
use std::time::Duration;

/// How many seconds pass between two times.
const GAP: u64 = 60;

/// Looks them up until the gateway closes. While one isn't known, searches are sent to where it was last.
pub fn look_up_targets<
    R: System + Net<Listener = TcpListener, Stream = TcpStream>,
    H: AsHub + Drop,
>(rt: R, hub: Arc<H, Global>) {
    for _ in rt.forever() {
        thread::sleep(&rt, Duration::from_secs(GAP));
        if hub.hub().is_closing(&rt) {
            return;
        }
        look_up_all(rt, hub.hub());
    }
}

fn look_up_all<R: System + Net<Listener = TcpListener, Stream = TcpStream>>(rt: R, hub: &Hub) {
    let Some(finding) = &hub.finding else {
        return;
    };
    let targets = &finding.targets;
    for number in 1..=targets.count() {
        if let Some(word) = targets.word(number) {
            if let Some(found) = look_up(&rt, word, hub.listen.is_ipv4()) {
                targets.move_to(&rt, number, found);
            }
        }
    }
}
