//! Calls on searches that couldn't be answered when they were made. Where an answer goes is told as the sum of its host and port.
//!
//! - `late HOST PORT CID SINCE: NAME`: the search is kept;
//! - `late-many HOST FIRST LAST`: so are those of `N1` and so on with these numbers, which are their CIDs, from port 1;
//! - `expire NOW`: those go that are too old;
//! - `answered HOST PORT CID CID`: those go that a reply answers;
//! - `lates`: how many are kept; `late-at PLACE`: the one at this place;
//! - `wait HOST PORT CID SINCE: NAME`: the search waits to be kept;
//! - `wait-many HOST FIRST LAST`: so do those of `N1` and so on with these numbers, which are their CIDs, from port 1;
//! - `take-late`: the next one is taken; `take-many COUNT`: so many are, and the last one is told; `waiting`: how many wait.
use crate::words::{Call, REFUSED, Told, numbered};
use pv_name::Name;
use serve_state::{Late, LateQueue, LateSearch};
use std::alloc::Global;

pub(crate) fn call(alloc: Global, late: &mut Late<u64>, call: &Call<'_>, told: &mut Told) {
    match call.verb {
        "expire" => late.expire(call.numbers[0]),
        "answered" => late.answered(
            u128::from(call.numbers[0]),
            port(call),
            &[call.number(2), call.number(3)],
        ),
        "lates" => told.line(&late.len()),
        "late-at" => match late.get(call.number(0) as usize) {
            Some(search) => show(search, told),
            None => told.line(&"none"),
        },
        "late-many" => add_many(alloc, late, call, told),
        _ => match Name::read(alloc, call.text.as_bytes()) {
            Ok(name) => add(late, name, call, told),
            Err(fault) => told.line(&fault),
        },
    }
}

fn port(call: &Call<'_>) -> u16 {
    call.number(1).min(65_535) as u16
}

fn search(name: Name, host: u64, port: u16, cid: u32, since: u64) -> LateSearch<u64> {
    LateSearch {
        from: host.saturating_add(u64::from(port)),
        host: u128::from(host),
        port,
        cid,
        name,
        since,
    }
}

fn add(late: &mut Late<u64>, name: Name, call: &Call<'_>, told: &mut Told) {
    let [host, _, _, since] = call.numbers;
    if late
        .add(search(name, host, port(call), call.number(2), since))
        .is_err()
    {
        told.line(&REFUSED);
    }
}

fn add_many(alloc: Global, late: &mut Late<u64>, call: &Call<'_>, told: &mut Told) {
    for number in call.number(1)..=call.number(2) {
        told.is_whole &= add_numbered(alloc, late, call.numbers[0], number);
    }
}

fn add_numbered(alloc: Global, late: &mut Late<u64>, host: u64, number: u32) -> bool {
    match numbered(alloc, u64::from(number)) {
        Some(name) => late.add(search(name, host, 1, number, 0)).is_ok(),
        None => false,
    }
}

fn show(search: &LateSearch<u64>, told: &mut Told) {
    told.word(&search.name.text());
    told.word(&search.from);
    told.word(&search.host);
    told.word(&search.port);
    told.word(&search.cid);
    told.line(&search.since);
}

pub(crate) fn queue(alloc: Global, queue: &mut LateQueue<u64>, call: &Call<'_>, told: &mut Told) {
    match call.verb {
        "waiting" => told.line(&queue.len()),
        "take-late" => take(queue, 1, told),
        "take-many" => take(queue, call.number(0), told),
        "wait-many" => wait_many(alloc, queue, call, told),
        _ => match Name::read(alloc, call.text.as_bytes()) {
            Ok(name) => wait(queue, name, call, told),
            Err(fault) => told.line(&fault),
        },
    }
}

fn wait(queue: &mut LateQueue<u64>, name: Name, call: &Call<'_>, told: &mut Told) {
    let [host, _, _, since] = call.numbers;
    if queue
        .add(search(name, host, port(call), call.number(2), since))
        .is_err()
    {
        told.line(&REFUSED);
    }
}

fn wait_many(alloc: Global, queue: &mut LateQueue<u64>, call: &Call<'_>, told: &mut Told) {
    for number in call.number(1)..=call.number(2) {
        told.is_whole &= wait_numbered(alloc, queue, call.numbers[0], number);
    }
}

fn wait_numbered(alloc: Global, queue: &mut LateQueue<u64>, host: u64, number: u32) -> bool {
    match numbered(alloc, u64::from(number)) {
        Some(name) => queue.add(search(name, host, 1, number, 0)).is_ok(),
        None => false,
    }
}

fn take(queue: &mut LateQueue<u64>, count: u32, told: &mut Told) {
    for _ in 1..count {
        queue.take();
    }
    match queue.take() {
        Some(search) => show(&search, told),
        None => told.line(&"none"),
    }
}

/// The first searches. It takes no memory.
pub(crate) fn list(late: &Late<u64>, told: &mut Told) {
    for place in 0..8 {
        if let Some(search) = late.get(place) {
            show(search, told);
        }
    }
}
