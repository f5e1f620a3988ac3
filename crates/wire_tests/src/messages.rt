//! Calls on messages that are read, and on the texts and codes of messages.
//!
//! - `request: BYTES`, `reply: BYTES`: what a client asks for, or a server says, with these bytes, in the
//!   words of `readings`;
//! - `name: BYTES`, `host: BYTES`: the text in a payload, what it is on its own, and whether that is the
//!   same;
//! - `error-text CODE`.
use crate::readings::{tell_reply, tell_request};
use crate::words::{Call, Told};
use ca_header::{Head, Header, read_head};
use ca_message::{HostText, NameText, error_text, read_reply, read_request};
use std::alloc::Global;
use std::fmt::Debug;

pub(crate) fn call(verb: &str, call: &Call, told: &mut Told) {
    match verb {
        "request" => match parts(&call.bytes) {
            Some((head, payload)) => tell_request(&read_request(&head, payload), told),
            None => told.line(&"no header"),
        },
        "reply" => match parts(&call.bytes) {
            Some((head, payload)) => tell_reply(&read_reply(&head, payload), told),
            None => told.line(&"no header"),
        },
        "name" => match NameText::read(&call.bytes) {
            Ok(name) => tell_name(call.alloc, &name, told),
            Err(fault) => tell(&fault, told),
        },
        "host" => match HostText::read(&call.bytes) {
            Ok(host) => tell_host(call.alloc, &host, told),
            Err(fault) => tell(&fault, told),
        },
        _ => tell(&error_text(call.number(0)), told),
    }
}

/// A header and what follows it, in bytes that hold a whole message.
fn parts(bytes: &[u8]) -> Option<(Header, &[u8])> {
    match read_head(bytes) {
        Head::Got(head, len) => Some((head, bytes.get(len..)?)),
        _ => None,
    }
}

pub(crate) fn tell<T: Debug>(value: &T, told: &mut Told) {
    told.name(value);
    told.end();
}

fn tell_name(alloc: Global, name: &NameText<'_>, told: &mut Told) {
    told.bytes(name.as_slice());
    match name.to_name(alloc) {
        Ok(owned) => {
            told.word(&owned.text());
            told.line(&(NameText::from(&owned) == *name));
        }
        Err(_) => told.line(&"out of memory"),
    }
}

fn tell_host(alloc: Global, host: &HostText<'_>, told: &mut Told) {
    told.bytes(host.as_slice());
    match host.to_host(alloc) {
        Ok(owned) => told.line(&owned.text()),
        Err(_) => told.line(&"out of memory"),
    }
}
