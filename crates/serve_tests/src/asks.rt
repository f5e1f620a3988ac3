//! Calls on the names that servers were asked for, and on those that two servers answered.
//!
//! - `ask: NAME`: its CID; `ask-many FIRST LAST`: the same of the names `N1` and so on with these numbers: the last one's;
//! - `begin CID`: nothing was asked for, and the first ask is under this CID;
//! - `find CID`: the name that was asked for under it;
//! - `answer CID SERVER`: the server answers the ask: the one that answered before it;
//! - `clash HOUR: NAME`: whether it is told in this hour that two servers answered the name;
//! - `clash-many HOUR FIRST LAST`: of how many of these names it is told, 64 in each hour from this one on.
use crate::words::{Call, REFUSED, Told, numbered};
use pv_name::{Name, NoMemory};
use serve_state::{Clashes, SentAsks};
use std::alloc::Global;

/// How many names clash in an hour.
const HOURLY: u64 = 64;

pub(crate) fn call(alloc: Global, asks: &mut SentAsks, call: &Call<'_>, told: &mut Told) {
    let cid = call.number(0);
    match call.verb {
        "begin" => *asks = SentAsks::beginning(alloc, cid),
        "find" => match asks.find(cid) {
            Some(name) => told.line(&name.text()),
            None => told.line(&"none"),
        },
        "answer" => told.name_line(&asks.hear(cid, call.number(1))),
        "ask-many" => ask_many(alloc, asks, call, told),
        _ => match Name::read(alloc, call.text.as_bytes()) {
            Ok(name) => asked(asks.add(name), told),
            Err(fault) => told.line(&fault),
        },
    }
}

fn asked(cid: Result<u32, NoMemory>, told: &mut Told) {
    match cid {
        Ok(cid) => told.line(&cid),
        Err(_) => told.line(&REFUSED),
    }
}

fn ask_many(alloc: Global, asks: &mut SentAsks, call: &Call<'_>, told: &mut Told) {
    let mut last = 0;
    for number in call.numbers[0]..=call.numbers[1] {
        match ask_numbered(alloc, asks, number) {
            Some(cid) => last = cid,
            None => told.is_whole = false,
        }
    }
    told.line(&last);
}

fn ask_numbered(alloc: Global, asks: &mut SentAsks, number: u64) -> Option<u32> {
    match numbered(alloc, number) {
        Some(name) => asks.add(name).ok(),
        None => None,
    }
}

/// The first names that servers were asked for. It takes no memory.
pub(crate) fn list(asks: &SentAsks, told: &mut Told) {
    for cid in 1..=8 {
        match asks.find(cid) {
            Some(name) => told.word(&name.text()),
            None => told.word(&"none"),
        }
    }
    told.end();
}

pub(crate) fn clash(alloc: Global, clashes: &mut Clashes, call: &Call<'_>, told: &mut Told) {
    if call.verb == "clash-many" {
        return clash_many(alloc, clashes, call, told);
    }
    match Name::read(alloc, call.text.as_bytes()) {
        Ok(name) => match clashes.tell(name, call.numbers[0]) {
            Ok(is_told) => told.line(&is_told),
            Err(_) => told.line(&REFUSED),
        },
        Err(fault) => told.line(&fault),
    }
}

fn clash_many(alloc: Global, clashes: &mut Clashes, call: &Call<'_>, told: &mut Told) {
    let [hour, first, last, _] = call.numbers;
    let mut count = 0u32;
    for number in first..=last {
        let hour = hour.saturating_add(number.saturating_sub(first) / HOURLY);
        match clash_numbered(alloc, clashes, number, hour) {
            Some(true) => count = count.saturating_add(1),
            Some(false) => {}
            None => told.is_whole = false,
        }
    }
    told.line(&count);
}

fn clash_numbered(alloc: Global, clashes: &mut Clashes, number: u64, hour: u64) -> Option<bool> {
    match numbered(alloc, number) {
        Some(name) => clashes.tell(name, hour).ok(),
        None => None,
    }
}
