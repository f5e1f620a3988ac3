//! Calls on an outbox. A message is a header without a payload, told by its bytes.
//!
//! - `append COUNT HEADER`: so many of them, each by a call; those that are handed back are told;
//! - `mark`;
//! - `length`: how many wait, and whether the outbox is marked;
//! - `bytes`: how many bytes wait;
//! - `front`: the message that leaves, or `none`;
//! - `empty COUNT`: all that leave.
use crate::headers::header;
use crate::words::{Call, Told};
use bytes::Bytes;
use ca_header::{Header, write_head};
use fanout::{AppendFault, Out, Outbox};

pub(crate) fn call(outbox: &mut Outbox, verb: &str, call: &Call, told: &mut Told) {
    match verb {
        "append" => append(outbox, &header(call, 1), told),
        "mark" => outbox.mark(),
        "length" => {
            told.word(&outbox.len());
            told.line(if outbox.marked() { &"marked" } else { &"wait" });
        }
        "bytes" => told.line(&outbox.bytes()),
        "front" => match outbox.take_front() {
            Some(out) => told.bytes(out.head.as_slice()),
            None => told.line(&"none"),
        },
        _ => empty(outbox, call, told),
    }
}

fn append(outbox: &mut Outbox, head: &Header, told: &mut Told) {
    let head = write_head(head);
    let payload = Bytes::new();
    match outbox.append(Out { head, payload }) {
        Ok(()) => {}
        Err(AppendFault::Marked(back)) => {
            told.word(&"back");
            told.bytes(back.head.as_slice());
        }
        Err(AppendFault::OutOfMemory(_)) => told.line(&"out of memory"),
    }
}

fn empty(outbox: &mut Outbox, call: &Call, told: &mut Told) {
    match outbox.take(call.alloc, call.number(0) as usize) {
        Ok(outs) => for out in &outs {
            told.bytes(out.head.as_slice());
        },
        Err(_) => told.line(&"out of memory"),
    }
}
