//! Calls on a schedule of at most three names.
//!
//! - `plan: NAME`: the name is added;
//! - `look NOW MOST`: the names that are asked for at this look;
//! - `unplan: NAME`: the name goes;
//! - `sooner NOW TRIES`: all are asked for sooner.
use crate::words::{Call, Told};
use ask_schedule::Schedule;
use pv_name::Name;

pub(crate) const LIMIT: usize = 3;

pub(crate) fn call(schedule: &mut Schedule, verb: &str, call: &Call, told: &mut Told) {
    match verb {
        "look" => look(schedule, call, told),
        "sooner" => {
            schedule.soon(call.number(0) as u64, call.number(1));
            told.line(&schedule.len());
        }
        _ => match Name::read(call.alloc, &call.bytes) {
            Ok(name) => change(schedule, verb, &name, told),
            Err(fault) => told.line(&fault),
        },
    }
}

fn look(schedule: &mut Schedule, call: &Call, told: &mut Told) {
    match schedule.due(call.number(0) as u64, call.number(1) as usize) {
        Ok(names) => {
            told.word(&"asks");
            for name in &names {
                told.word(&name.text());
            }
            told.end();
        }
        Err(_) => told.line(&"out of memory"),
    }
}

fn change(schedule: &mut Schedule, verb: &str, name: &Name, told: &mut Told) {
    if verb == "unplan" {
        schedule.remove(name);
        told.line(&schedule.len());
        return;
    }
    match schedule.add(name) {
        Ok(added) => {
            told.name(&added);
            told.line(&schedule.len());
        }
        Err(_) => told.line(&"out of memory"),
    }
}
