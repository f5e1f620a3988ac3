//! Calls on an intake.
//!
//! - `feed: BYTES`: answered only if it is refused;
//! - `take`: the next message, `none`, or the fault;
//! - `drip: BYTES`: a look for a message before each byte, which is then fed; how often there was none
//!   is told last;
//! - `cut FIRST LAST: BYTES`: for each number of bytes from the first to the last, a new intake is fed
//!   as many, then the others, and then none, with a `take` after each piece;
//! - `refusals`: what is told where memory is refused.
use crate::headers::tell_header;
use crate::words::{Call, Told};
use ca_header::{Intake, IntakeFault};
use std::alloc::Global;

pub(crate) fn call(intake: &mut Intake, verb: &str, call: &Call, told: &mut Told) {
    match verb {
        "feed" => feed(intake, &call.bytes, told),
        "take" => take(intake, told),
        "drip" => drip(intake, &call.bytes, told),
        "cut" => {
            for place in call.number(0)..=call.number(1) {
                cut(call.alloc, place as usize, &call.bytes, told);
            }
        }
        _ => told.line(&IntakeFault::OutOfMemory),
    }
}

fn feed(intake: &mut Intake, piece: &[u8], told: &mut Told) {
    if let Err(fault) = intake.feed(piece) {
        told.line(&fault);
    }
}

fn take(intake: &mut Intake, told: &mut Told) {
    match intake.take() {
        Ok(Some(message)) => {
            tell_header(told, &message.head);
            told.word(&"with");
            told.bytes(message.payload.as_slice());
        }
        Ok(None) => told.line(&"none"),
        Err(fault) => told.line(&fault),
    }
}

fn drip(intake: &mut Intake, bytes: &[u8], told: &mut Told) {
    let mut none = 0u32;
    for byte in bytes {
        if matches!(&intake.take(), Ok(None)) {
            none = none.saturating_add(1);
        }
        feed(intake, &[*byte], told);
    }
    told.word(&"none");
    told.word(&none);
    told.line(&"times");
}

fn cut(alloc: Global, place: usize, bytes: &[u8], told: &mut Told) {
    let (front, rest) = bytes.split_at(place.min(bytes.len()));
    let mut intake = Intake::new(alloc);
    for piece in [front, rest, &[]] {
        feed(&mut intake, piece, told);
        take(&mut intake, told);
    }
}
