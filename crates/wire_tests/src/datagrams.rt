//! Calls on datagrams that ask for several names, and on datagrams in parts. Only T1 is served, at port 5064.
//!
//! - `asks CID: NAMES`: the datagrams that ask for names, which end with a zero byte each, under CIDs from this one on;
//! - `asks-sizes CID: NAMES`: how many are in each, and how many bytes it has;
//! - `parts MOST: DATAGRAM`: how many bytes each part has;
//! - `answer-parts MOST: DATAGRAM`: the names that the parts ask for, and the one reply.
use crate::searches::{t1_alone, tell_reply};
use crate::words::{Call, Told};
use pv_name::Name;
use pv_search::{AskDatagram, Datagram, NameAsk, ask_datagram, first_part};
use std::alloc::Global;

pub(crate) fn call(verb: &str, call: &Call, told: &mut Told) {
    match verb {
        "asks" | "asks-sizes" => match read_asks(call) {
            Some(asks) => tell_asks(call.alloc, &asks, verb == "asks", told),
            None => told.line(&"out of memory"),
        },
        "parts" => tell_parts(call, told),
        _ => tell_answers(call, told),
    }
}

fn read_asks(call: &Call) -> Option<Vec<NameAsk>> {
    let mut asks = Vec::new(call.alloc);
    let mut cid = call.number(0);
    for text in call.bytes.split(|byte| *byte == 0) {
        if !text.is_empty() {
            let name = Name::read(call.alloc, text).ok()?;
            asks.push(NameAsk { name, cid }).ok()?;
            cid = cid.wrapping_add(1);
        }
    }
    Some(asks)
}

fn tell_datagram(datagram: &AskDatagram, in_full: bool, told: &mut Told) {
    let text = datagram.text.as_slice();
    if in_full {
        told.bytes(text);
    } else {
        told.word(&datagram.asked);
        told.line(&text.len());
    }
}

fn tell_asks(alloc: Global, asks: &[NameAsk], in_full: bool, told: &mut Told) {
    let mut left = asks;
    for _ in asks {
        if left.is_empty() {
            return;
        }
        let Ok(datagram) = ask_datagram(alloc, left) else {
            told.line(&"out of memory");
            return;
        };
        tell_datagram(&datagram, in_full, told);
        let (_, others) = left.split_at(datagram.asked.min(left.len()));
        left = others;
    }
}

fn tell_parts(call: &Call, told: &mut Told) {
    told.word(&"parts");
    let mut left = call.bytes.as_slice();
    for _ in &call.bytes {
        let len = first_part(left, call.number(0) as usize);
        if len == 0 {
            break;
        }
        told.word(&len);
        left = &left[len..];
    }
    told.end();
}

fn tell_answers(call: &Call, told: &mut Told) {
    told.word(&"asks");
    let mut left = call.bytes.as_slice();
    let mut reply = Datagram::new(call.alloc);
    for _ in &call.bytes {
        let len = first_part(left, call.number(0) as usize);
        if len == 0 {
            break;
        }
        if !tell_part(call.alloc, &left[..len], &mut reply, told) {
            told.line(&"out of memory");
            return;
        }
        left = &left[len..];
    }
    told.end();
    tell_reply(reply.as_slice(), told);
}

/// Tells what a part asks for, and joins its reply to the others. False where memory is refused.
fn tell_part(alloc: Global, part: &[u8], reply: &mut Datagram, told: &mut Told) -> bool {
    let Ok(answer) = t1_alone(alloc, part) else {
        return false;
    };
    for name in answer.asked.as_slice() {
        told.word(&name.text());
    }
    reply.join(&answer.reply).is_ok()
}
