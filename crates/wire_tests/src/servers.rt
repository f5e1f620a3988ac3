//! Calls on a book of at most three servers, of which one is closed after two looks without a link; on texts of nets; and on which
//! replies are believed. Hosts are IPv4 addresses as numbers.
//!
//! - `book-fix HOST PORT`: the server is known for good;
//! - `book-heard LOOK HOST PORT: NAME`: it says that it has the name;
//! - `book-connected NUMBER`: its connection stands: the names that waited;
//! - `book-failed NUMBER LOOK`, `book-lost NUMBER LOOK`: it couldn't be made, or ended: how the server stands, and how many
//!   names wait in all;
//! - `book-retry NUMBER LOOK`: whether it is connected to again;
//! - `book-links NUMBER LINKS`: whether it is to be closed, at a look at which it has so many;
//! - `book-free NUMBER`: whether the number is free then;
//! - `net: TEXT`: the number of the net's first host, and how many bits are free;
//! - `believed SOURCE HOST PORT: TEXT`: whether a reply is, with this net and with none. The gateway listens at 10.0.0.1:5064.
use crate::words::{Call, Told};
use pv_name::Name;
use server_book::{Address, Net, ServerBook, is_believed};
use std::alloc::Global;

/// Of IPv4 addresses as those of IPv6 that stand for them.
const MAPPED: u128 = 0xFFFF_0000_0000;

const OWN: u32 = 0x0A00_0001;

pub(crate) fn book(alloc: Global) -> Option<ServerBook> {
    ServerBook::new(alloc, 3, 2).ok()
}

pub(crate) fn call(book: &mut Option<ServerBook>, verb: &str, call: &Call, told: &mut Told) {
    match book {
        Some(book) => change(book, verb, call, told),
        None => told.line(&"out of memory"),
    }
}

fn change(book: &mut ServerBook, verb: &str, call: &Call, told: &mut Told) {
    let number = call.number(0);
    let look = call.number(1) as u64;
    match verb {
        "fix" => fix(book, address(call, 0), told),
        "heard" => heard(book, call, told),
        "connected" => {
            told.word(&"names");
            for name in &book.connected(number) {
                told.word(&name.text());
            }
            told.end();
        }
        "failed" => {
            book.failed(number, look);
            standing(book, number, told);
        }
        "lost" => {
            book.lost(number, look);
            standing(book, number, told);
        }
        "retry" => told.line(&book.retry(number, look)),
        "links" => told.line(&book.look(number, call.number(1) as usize)),
        _ => told.line(&book.free(number)),
    }
}

fn address(call: &Call, place: usize) -> Address {
    Address {
        host: MAPPED + call.number(place) as u128,
        port: call.short(place.saturating_add(1)),
    }
}

fn fix(book: &mut ServerBook, address: Address, told: &mut Told) {
    match book.fix(address) {
        Ok(number) => {
            told.name(&number);
            told.end();
        }
        Err(_) => told.line(&"out of memory"),
    }
}

fn heard(book: &mut ServerBook, call: &Call, told: &mut Told) {
    match Name::read(call.alloc, &call.bytes) {
        Ok(name) => match book.heard(address(call, 1), &name, call.number(0) as u64) {
            Ok(heard) => {
                told.name(&heard);
                told.end();
            }
            Err(_) => told.line(&"out of memory"),
        },
        Err(fault) => told.line(&fault),
    }
}

/// Tells how many names wait, and how each server stands.
pub(crate) fn list(book: &Option<ServerBook>, told: &mut Told) {
    if let Some(book) = book {
        for number in 1..=3 {
            standing(book, number, told);
        }
    }
    told.end();
}

fn standing(book: &ServerBook, number: u32, told: &mut Told) {
    match book.server(number) {
        Some(server) => told.name(&server.standing),
        None => told.word(&"free"),
    }
    told.line(&book.waiting());
}

pub(crate) fn net(call: &Call, told: &mut Told) {
    match Net::read(&call.bytes) {
        Ok(net) => {
            told.word(&net.first);
            told.line(&net.free);
        }
        Err(fault) => told.line(&fault),
    }
}

pub(crate) fn believe(call: &Call, told: &mut Told) {
    let own = Address {
        host: MAPPED + OWN as u128,
        port: 5064,
    };
    let source = MAPPED + call.number(0) as u128;
    match Net::read(&call.bytes) {
        Ok(net) => {
            told.word(&is_believed(source, address(call, 1), &[net], own));
            told.line(&is_believed(source, address(call, 1), &[], own));
        }
        Err(fault) => told.line(&fault),
    }
}
