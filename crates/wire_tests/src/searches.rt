//! Calls on datagrams. Only T1 is served, at port 5064.
//!
//! - `search CID: NAME`: the datagram that asks for the name;
//! - `answer: DATAGRAM`: the names that it asks for, and the datagram that is sent back, or `no reply`;
//! - `answer-cut FIRST LAST: DATAGRAM`: the same of each number of its bytes from the first to the last;
//! - `test FAILING: DATAGRAM`: a test that answers at each call but this one whether the name is the next
//!   of T1, D and U: how often it is asked, and how many bytes are sent back, or `failed`;
//! - `found: DATAGRAM`: the CIDs that it replies to;
//! - `replies: DATAGRAM`: the CIDs that it replies to by saying where their servers are: the host as a number, or `sender`, and
//!   the port.
use crate::words::{Call, Told};
use pv_name::Name;
use pv_search::{NoMemory, Reply, SearchAnswer, answer, ask_text, read_found, read_replies};
use std::alloc::{AllocError, Global};
use std::cell::Cell;

const PORT: u16 = 5064;

pub(crate) fn call(verb: &str, call: &Call, told: &mut Told) {
    match verb {
        "search" => ask(call, told),
        "answer" => tell_answer(t1_alone(call.alloc, &call.bytes), told),
        "answer-cut" => for len in call.number(0)..=call.number(1) {
            let (front, _) = call.bytes.split_at(call.bytes.len().min(len as usize));
            tell_answer(t1_alone(call.alloc, front), told);
        },
        "test" => test(call.alloc, call.number(0), &call.bytes, told),
        "replies" => match read_replies(call.alloc, &call.bytes) {
            Ok(replies) => tell_replies(&replies, told),
            Err(_) => told.line(&"out of memory"),
        },
        _ => found(call, told),
    }
}

fn ask(call: &Call, told: &mut Told) {
    match Name::read(call.alloc, &call.bytes) {
        Ok(name) => match ask_text(call.alloc, &name, call.number(0)) {
            Ok(text) => told.bytes(&text),
            Err(_) => told.line(&"out of memory"),
        },
        Err(fault) => told.line(&fault),
    }
}

pub(crate) fn t1_alone(alloc: Global, datagram: &[u8]) -> Result<SearchAnswer, NoMemory> {
    answer(alloc, datagram, PORT, |name| Ok(name.text() == "T1"))
}

fn tell_answer(answer: Result<SearchAnswer, NoMemory>, told: &mut Told) {
    match answer {
        Ok(answer) => {
            told.word(&"asks");
            for name in answer.asked.as_slice() {
                told.word(&name.text());
            }
            told.end();
            tell_reply(answer.reply.as_slice(), told);
        }
        Err(_) => told.line(&"out of memory"),
    }
}

pub(crate) fn tell_reply(reply: &[u8], told: &mut Told) {
    if reply.is_empty() {
        told.line(&"no reply");
    } else {
        told.bytes(reply);
    }
}

fn test(alloc: Global, failing: u32, datagram: &[u8], told: &mut Told) {
    let names = ["T1", "D", "U"];
    let calls = Cell::new(0u32);
    let answer = answer(alloc, datagram, PORT, |name| {
        let call = calls.get();
        calls.set(call.wrapping_add(1));
        if call == failing {
            return Err(AllocError);
        }
        let expected = names.get(call as usize);
        Ok(expected.is_some_and(|text| *text == name.text()))
    });
    told.word(&calls.get());
    match answer {
        Ok(answer) => told.line(&answer.reply.as_slice().len()),
        Err(_) if calls.get() > failing => told.line(&"failed"),
        Err(_) => told.line(&"out of memory"),
    }
}

fn found(call: &Call, told: &mut Told) {
    match read_found(call.alloc, &call.bytes) {
        Ok(cids) => {
            told.word(&"found");
            for cid in &cids {
                told.word(cid);
            }
            told.end();
        }
        Err(_) => told.line(&"out of memory"),
    }
}

fn tell_replies(replies: &[Reply], told: &mut Told) {
    told.word(&"replies");
    for reply in replies {
        told.word(&reply.cid);
        match reply.host {
            Some(host) => told.word(&host),
            None => told.word(&"sender"),
        }
        told.word(&reply.port);
    }
    told.end();
}
