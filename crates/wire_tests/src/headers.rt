//! Calls on headers and on bytes that are there as a whole. A header is told as its command, its type,
//! p1, p2, its count and its size.
//!
//! - `pad N`: the size with its padding;
//! - `write HEADER`: the bytes of the header;
//! - `read: BYTES`: the header that the bytes begin with, and how long it is;
//! - `reread HEADER`: what is read from the bytes that are written;
//! - `frames: BYTES`: the messages of the bytes, and twice what comes behind them.
use crate::words::{Call, Told};
use ca_header::{Frame, Frames, Head, Header, MAX_PAYLOAD, pad8, read_head, write_head};

pub(crate) fn call(verb: &str, call: &Call, told: &mut Told) {
    match verb {
        "pad" => told.line(&pad8(call.number(0).min(MAX_PAYLOAD))),
        "write" => told.bytes(write_head(&header(call, 0)).as_slice()),
        "read" => read(&call.bytes, told),
        "reread" => read(write_head(&header(call, 0)).as_slice(), told),
        _ => frames(&call.bytes, told),
    }
}

/// The header that the numbers of a call are, from one of them on.
pub(crate) fn header(call: &Call, first: usize) -> Header {
    let number = |place: usize| call.number(first.saturating_add(place));
    Header {
        command: number(0).min(65_535) as u16,
        dtype: number(1).min(65_535) as u16,
        p1: number(2),
        p2: number(3),
        count: number(4),
        size: number(5),
    }
}

pub(crate) fn tell_header(told: &mut Told, head: &Header) {
    told.word(&head.command);
    told.word(&head.dtype);
    for number in [head.p1, head.p2, head.count, head.size] {
        told.word(&number);
    }
}

fn read(bytes: &[u8], told: &mut Told) {
    match read_head(bytes) {
        Head::Need => told.line(&"need more"),
        Head::Got(head, len) => {
            tell_header(told, &head);
            told.line(&len);
        }
        Head::Misaligned => told.line(&"misaligned"),
        Head::TooLarge => told.line(&"too large"),
    }
}

fn frames(bytes: &[u8], told: &mut Told) {
    let mut frames = Frames::new(bytes);
    for _ in 0..=bytes.len() {
        if !frame(&frames.next(), told) {
            break;
        }
    }
    frame(&frames.next(), told);
}

/// Tells what comes next, and says whether it is a message.
fn frame(frame: &Frame, told: &mut Told) -> bool {
    match frame {
        Frame::Message(head, payload) => {
            tell_header(told, head);
            told.word(&"with");
            told.bytes(payload);
            true
        }
        Frame::Rest(rest) => {
            told.word(&"rest");
            told.bytes(rest);
            false
        }
        Frame::Fault(fault) => {
            told.line(fault);
            false
        }
    }
}
