//! Calls on newcomers, of which at most six wait, and on what is heard at once.
//!
//! - `come HOST: NAME`: the host looks for the name;
//! - `welcome MOST`: the names that are taken;
//! - `waits HOST`: whether a name of the host waits;
//! - `at-once LOOK HOST`: whether one more part of the host's is heard in the look.
use crate::words::{Call, Told};
use ask_schedule::{AtOnce, Newcomers};
use pv_name::Name;

pub(crate) const LIMIT: usize = 6;

pub(crate) fn call(newcomers: &mut Newcomers, verb: &str, call: &Call, told: &mut Told) {
    match verb {
        "welcome" => welcome(newcomers, call, told),
        "waits" => told.line(&newcomers.has_of(call.number(0) as u128)),
        _ => match Name::read(call.alloc, &call.bytes) {
            Ok(name) => come(newcomers, call.number(0) as u128, name, told),
            Err(fault) => told.line(&fault),
        },
    }
}

pub(crate) fn hear(at_once: &mut AtOnce, call: &Call, told: &mut Told) {
    match at_once.hear(call.number(0) as u64, call.number(1) as u128) {
        Ok(may) => told.line(&may),
        Err(_) => told.line(&"out of memory"),
    }
}

fn come(newcomers: &mut Newcomers, host: u128, name: Name, told: &mut Told) {
    match newcomers.add(host, name) {
        Ok(()) => told.line(&newcomers.len()),
        Err(_) => told.line(&"out of memory"),
    }
}

fn welcome(newcomers: &mut Newcomers, call: &Call, told: &mut Told) {
    match newcomers.take(call.number(0) as usize) {
        Ok(names) => {
            told.word(&"welcome");
            for name in &names {
                told.word(&name.text());
            }
            told.end();
        }
        Err(_) => told.line(&"out of memory"),
    }
}
