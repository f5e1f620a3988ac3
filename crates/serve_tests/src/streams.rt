//! Calls on what is said to a name server and heard of it. Bytes are hexadecimal digits.
//!
//! - `greeting: USER HOST`: what is said first;
//! - `reply: BYTES`: the replies that are whole then, a line each: the CID, the host as a number, or `sender`, and the port;
//! - `drip FIRST LAST: BYTES`: the same on new streams, in pieces of so many bytes, for each number from the first to the last;
//! - `put: TEXT`, `put-long LENGTH`: the text, or one of so many letters, waits to be written;
//! - `take`: how many bytes waited, and the first ones, or `nothing`; `empty`: whether nothing waits.
use crate::words::{Call, REFUSED, Told};
use name_server::{NotKept, StreamFault, StreamReplies, WaitingText, greeting};
use pv_name::Name;
use pv_search::Reply;
use std::alloc::Global;

/// So much of a text that waited is told.
const SHOWN: usize = 32;

pub(crate) fn call(alloc: Global, stream: &mut StreamReplies, call: &Call<'_>, told: &mut Told) {
    match hex::decode(alloc, call.text) {
        Ok(bytes) if call.verb == "reply" => hear(alloc, stream, bytes.as_slice(), told),
        Ok(bytes) => for step in call.numbers[0]..=call.numbers[1] {
            drip(alloc, bytes.as_slice(), step as usize, told);
        },
        Err(_) => told.line(&REFUSED),
    }
}

/// Hears the bytes on a new stream, so many at a time.
fn drip(alloc: Global, bytes: &[u8], step: usize, told: &mut Told) {
    let mut stream = StreamReplies::new(alloc);
    if step > 0 {
        for piece in bytes.chunks(step) {
            hear(alloc, &mut stream, piece, told);
        }
    }
}

/// Hears a piece, and once more where that was refused memory, since nothing was heard then.
fn hear(alloc: Global, stream: &mut StreamReplies, piece: &[u8], told: &mut Told) {
    match stream.hear(alloc, piece) {
        Ok(replies) => show(&replies, told),
        Err(StreamFault::OutOfMemory) => {
            told.line(&"refused piece as it must be");
            again(alloc, stream, piece, told);
        }
        Err(fault) => told.line(&fault),
    }
}

fn again(alloc: Global, stream: &mut StreamReplies, piece: &[u8], told: &mut Told) {
    match stream.hear(alloc, piece) {
        Ok(replies) => show(&replies, told),
        Err(fault) => told.line(&fault),
    }
}

fn show(replies: &[Reply], told: &mut Told) {
    for reply in replies {
        told.word(&reply.cid);
        match reply.host {
            Some(host) => told.word(&host),
            None => told.word(&"sender"),
        }
        told.line(&reply.port);
    }
}

pub(crate) fn greet(alloc: Global, text: &str, told: &mut Told) {
    let (user, host) = text.split_once(' ').unwrap_or((text, ""));
    let user = Name::read(alloc, user.as_bytes());
    let host = Name::read(alloc, host.as_bytes());
    match (user, host) {
        (Ok(user), Ok(host)) => match greeting(alloc, &user, &host) {
            Ok(text) => told.bytes(&text),
            Err(_) => told.line(&REFUSED),
        },
        _ => told.line(&REFUSED),
    }
}

pub(crate) fn write(alloc: Global, waiting: &mut WaitingText, call: &Call<'_>, told: &mut Told) {
    match call.verb {
        "empty" => told.line(&waiting.is_empty()),
        "take" => taken(&waiting.take(alloc), told),
        "put-long" => {
            let mut text = Vec::new(alloc);
            for _ in 0..call.numbers[0] {
                told.is_whole &= text.push(b'x').is_ok();
            }
            kept(waiting.add(&text), told);
        }
        _ => kept(waiting.add(call.text.as_bytes()), told),
    }
}

fn kept(added: Result<(), NotKept>, told: &mut Told) {
    match added {
        Ok(()) => {}
        Err(NotKept::OutOfMemory) => told.line(&REFUSED),
        Err(NotKept::Full) => told.line(&"full"),
    }
}

fn taken(text: &[u8], told: &mut Told) {
    if text.is_empty() {
        return told.line(&"nothing");
    }
    let (front, _) = text.split_at(text.len().min(SHOWN));
    told.word(&text.len());
    told.bytes(front);
}
