//! Calls on messages that are sent to clients. They are told as they are sent; with `reread-` before the
//! call, as what a gateway reads in them.
//!
//! - `client-version`; `client-echo SIZE: PAYLOAD`; `client-error CID CODE HEADER`;
//! - `client-update ID TYPE COUNT: VALUE`, `client-value IOID TYPE COUNT: VALUE`,
//!   `client-no-update ID TYPE CODE`, `client-no-value IOID TYPE COUNT CODE`, `client-written IOID TYPE COUNT STATUS`;
//! - `client-cancelled SID ID TYPE COUNT`, `client-cleared SID CID`;
//! - `client-created CID SID TYPE COUNT`, `client-not-created CID`, `client-rights CID RIGHTS`,
//!   `client-disconnected CID`, `client-served CID PORT`.
use crate::headers::header;
use crate::readings::tell_reply;
use crate::words::{Call, Told};
use bytes::Bytes;
use ca_header::{Header, Message, write_head};
use ca_message::commands::CA_PROTO_ECHO;
use ca_message::{NoMemory, ToClient, read_reply};
use std::alloc::Global;

pub(crate) fn call(kind: &str, call: &Call, told: &mut Told) {
    match Bytes::copy_from_slice(call.alloc, &call.bytes) {
        Ok(value) => {
            let message = message(kind, call, value);
            tell_sent(
                call.alloc,
                &message.head(),
                message.payload(call.alloc),
                told,
            );
        }
        Err(_) => told.line(&"out of memory"),
    }
}

pub(crate) fn reread(kind: &str, call: &Call, told: &mut Told) {
    match Bytes::copy_from_slice(call.alloc, &call.bytes) {
        Ok(value) => {
            let message = message(kind, call, value);
            match message.payload(call.alloc) {
                Ok(payload) => tell_reply(&read_reply(&message.head(), payload.as_slice()), told),
                Err(_) => told.line(&"out of memory"),
            }
        }
        Err(_) => told.line(&"out of memory"),
    }
}

/// Tells all bytes of a message, as they are sent.
pub(crate) fn tell_sent(
    alloc: Global,
    head: &Header,
    payload: Result<Bytes, NoMemory>,
    told: &mut Told,
) {
    match payload {
        Ok(payload) => tell_both(alloc, write_head(head).as_slice(), payload.as_slice(), told),
        Err(_) => told.line(&"out of memory"),
    }
}

fn tell_both(alloc: Global, first: &[u8], second: &[u8], told: &mut Told) {
    let mut bytes = Vec::new(alloc);
    for part in [first, second] {
        if bytes.extend_from_slice(part).is_err() {
            told.line(&"out of memory");
        }
    }
    told.bytes(&bytes);
}

fn message(kind: &str, call: &Call, value: Bytes) -> ToClient {
    match kind {
        "echo" => echo(call.number(0), value),
        "update" => ToClient::Update {
            id: call.number(0),
            dtype: call.short(1),
            count: call.number(2),
            value,
        },
        "value" => ToClient::ReadNotify {
            ioid: call.number(0),
            dtype: call.short(1),
            count: call.number(2),
            value,
        },
        "version" => ToClient::Version,
        "error" => ToClient::Error {
            cid: call.number(0),
            code: call.number(1),
            request: header(call, 2),
        },
        "no-update" | "no-value" | "written" | "cancelled" => of_value(kind, call),
        _ => of_channel(kind, call),
    }
}

fn echo(size: u32, payload: Bytes) -> ToClient {
    let head = Header {
        command: CA_PROTO_ECHO,
        dtype: 0,
        p1: 0,
        p2: 0,
        count: 0,
        size,
    };
    ToClient::Echo(Message { head, payload })
}

fn of_value(kind: &str, call: &Call) -> ToClient {
    match kind {
        "no-update" => ToClient::UpdateRefused {
            id: call.number(0),
            dtype: call.short(1),
            code: call.number(2),
        },
        "no-value" => ToClient::ReadNotifyRefused {
            ioid: call.number(0),
            dtype: call.short(1),
            count: call.number(2),
            code: call.number(3),
        },
        "written" => ToClient::WriteNotify {
            ioid: call.number(0),
            dtype: call.short(1),
            count: call.number(2),
            status: call.number(3),
        },
        _ => ToClient::EventCancelled {
            sid: call.number(0),
            id: call.number(1),
            dtype: call.short(2),
            count: call.number(3),
        },
    }
}

fn of_channel(kind: &str, call: &Call) -> ToClient {
    match kind {
        "created" => ToClient::CreateChannel {
            cid: call.number(0),
            sid: call.number(1),
            dtype: call.short(2),
            count: call.number(3),
        },
        "not-created" => ToClient::CreateChannelFail {
            cid: call.number(0),
        },
        "served" => ToClient::Search {
            cid: call.number(0),
            port: call.short(1),
        },
        "cleared" => ToClient::ClearChannel {
            sid: call.number(0),
            cid: call.number(1),
        },
        "rights" => ToClient::AccessRights {
            cid: call.number(0),
            rights: call.number(1),
        },
        _ => ToClient::ServerDisconnect {
            cid: call.number(0),
        },
    }
}
