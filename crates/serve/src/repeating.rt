//! Orders that are performed again and again, without anybody writing them.
use crate::hub::{AsHub, Hub};
use crate::machine::System;
use crate::orders::{age, sweep};
use crate::servers::connect_again;
use crate::watcher::rests;
use serve_state::Rhythm;
use std::alloc::Global;
use std::net::{Net, TcpListener, TcpStream};
use std::sync::Arc;
use std::thread::Threads;

/// When each is due that is to be repeated.
#[derive(Drop)]
struct Rhythms {
    reconnect: Option<Rhythm>,
    sweep: Option<Rhythm>,
    forget: Option<Rhythm>,
    // The last server that was connected to by its host's name.
    last: u32,
}

/// Whether any order is to be repeated.
pub fn repeats(hub: &Hub) -> bool {
    hub.options.reconnect.is_some() || hub.options.sweep.is_some() || hub.options.forget.is_some()
}

/// Performs the orders that are to be repeated, each as often as it is to be, until the gateway closes.
pub fn repeat_orders<
    R: System + Threads + Net<Listener = TcpListener, Stream = TcpStream> + 'static,
    H: AsHub + Send + Sync + Drop + 'static,
>(rt: R, hub: Arc<H, Global>) {
    let options = hub.hub().options;
    let mut rhythms = Rhythms {
        reconnect: options.reconnect.map(Rhythm::every),
        sweep: options.sweep.map(Rhythm::every),
        forget: options.forget.map(Rhythm::every),
        last: 0,
    };
    perform_due(rt, &hub, &mut rhythms);
}

fn perform_due<
    R: System + Threads + Net<Listener = TcpListener, Stream = TcpStream> + 'static,
    H: AsHub + Send + Sync + Drop + 'static,
>(rt: R, hub: &Arc<H, Global>, rhythms: &mut Rhythms) {
    let shared: &H = hub;
    for _ in rt.forever() {
        if !rests(rt, hub.hub()) {
            return;
        }
        if is_due(&mut rhythms.reconnect) {
            rhythms.last = connect_again(rt, hub, rhythms.last);
        }
        if is_due(&mut rhythms.sweep) {
            sweep(rt, shared);
        }
        if is_due(&mut rhythms.forget) {
            age(rt, shared);
        }
    }
}

fn is_due(rhythm: &mut Option<Rhythm>) -> bool {
    match rhythm {
        Some(rhythm) => rhythm.look(),
        None => false,
    }
}
