//! Calls on messages that are sent to servers. They are told as they are sent; with `reread-` before the
//! call, as what a gateway reads in them. Where a name or a value is refused, that is told.
//!
//! - `server-version`, `server-echo`, `server-user: NAME`, `server-host: NAME`, each name with its NUL;
//! - `server-create CID: NAME`, `server-clear SID CID`;
//! - `server-subscribe SID ID TYPE COUNT MASK`, `server-cancel SID ID TYPE COUNT`;
//! - `server-write SID TYPE COUNT NATIVE: VALUE`, `server-write-notify SID TYPE COUNT NATIVE IOID: VALUE`;
//! - `hand-on SID TYPE COUNT NATIVE: VALUE`: a client's WRITE with this payload, which may be shared:
//!   whether it is handed on itself (`shared`) or in a copy (`copied`), and the payload that is handed on.
use crate::messages::tell;
use crate::readings::tell_request;
use crate::to_clients::tell_sent;
use crate::words::{Call, Told};
use bytes::Bytes;
use ca_header::{Header, Message};
use ca_message::commands::CA_PROTO_WRITE;
use ca_message::{
    ClientRequest, NameText, ToServer, Write, WriteFault, WrittenValue, read_message, read_request,
};

pub(crate) fn call(kind: &str, call: &Call, told: &mut Told) {
    if let Some(message) = message(kind, call, told) {
        tell_sent(
            call.alloc,
            &message.head(),
            message.payload(call.alloc),
            told,
        );
    }
}

pub(crate) fn reread(kind: &str, call: &Call, told: &mut Told) {
    if let Some(message) = message(kind, call, told) {
        match message.payload(call.alloc) {
            Ok(payload) => tell_request(&read_request(&message.head(), payload.as_slice()), told),
            Err(_) => told.line(&"out of memory"),
        }
    }
}

fn message<'a>(kind: &str, call: &'a Call, told: &mut Told) -> Option<ToServer<'a>> {
    match kind {
        "version" => Some(ToServer::Version),
        "echo" => Some(ToServer::Echo),
        "subscribe" => Some(ToServer::EventAdd {
            sid: call.number(0),
            id: call.number(1),
            dtype: call.short(2),
            count: call.number(3),
            mask: call.short(4),
        }),
        "cancel" => Some(ToServer::EventCancel {
            sid: call.number(0),
            id: call.number(1),
            dtype: call.short(2),
            count: call.number(3),
        }),
        "clear" => Some(ToServer::ClearChannel {
            sid: call.number(0),
            cid: call.number(1),
        }),
        "write" | "write-notify" => with_value(kind, call, told),
        _ => with_name(kind, call, told),
    }
}

fn with_name<'a>(kind: &str, call: &'a Call, told: &mut Told) -> Option<ToServer<'a>> {
    match NameText::read(&call.bytes) {
        Ok(name) => Some(match kind {
            "user" => ToServer::ClientName(name),
            "host" => ToServer::HostName(name),
            _ => ToServer::CreateChannel {
                cid: call.number(0),
                name,
            },
        }),
        Err(fault) => {
            tell(&fault, told);
            None
        }
    }
}

fn with_value<'a>(kind: &str, call: &'a Call, told: &mut Told) -> Option<ToServer<'a>> {
    let (sid, ioid) = (call.number(0), call.number(4));
    match WrittenValue::read(call.short(1), call.number(2), call.number(3), &call.bytes) {
        Ok(value) => Some(match kind {
            "write" => ToServer::Write { sid, value },
            _ => ToServer::WriteNotify { sid, ioid, value },
        }),
        Err(fault) => {
            tell_refused(fault, told);
            None
        }
    }
}

fn tell_refused(fault: WriteFault, told: &mut Told) {
    told.name(&fault);
    told.line(&fault.code());
}

pub(crate) fn hand_on(call: &Call, told: &mut Told) {
    match Bytes::copy_from_slice(call.alloc, &call.bytes) {
        Ok(payload) => hand_on_write(&write_with(call, payload), call, told),
        Err(_) => told.line(&"out of memory"),
    }
}

fn write_with(call: &Call, payload: Bytes) -> Message {
    let head = Header {
        command: CA_PROTO_WRITE,
        dtype: call.short(1),
        p1: call.number(0),
        p2: 0,
        count: call.number(2),
        size: 0,
    };
    Message { head, payload }
}

fn hand_on_write(message: &Message, call: &Call, told: &mut Told) {
    match read_message(message) {
        Ok(ClientRequest::Write(write)) => hand_on_value(message, &write, call, told),
        _ => told.line(&"no write"),
    }
}

fn hand_on_value(message: &Message, write: &Write<'_>, call: &Call, told: &mut Told) {
    match WrittenValue::of(write.dtype, write.count, call.number(3), &write.value) {
        Ok(value) => tell_handed_on(
            &ToServer::Write {
                sid: write.sid,
                value,
            },
            &message.payload,
            call,
            told,
        ),
        Err(fault) => tell_refused(fault, told),
    }
}

fn tell_handed_on(message: &ToServer<'_>, payload: &Bytes, call: &Call, told: &mut Told) {
    match message.payload(call.alloc) {
        Ok(sent) => {
            told.word(&if payload.is_unique() {
                "copied"
            } else {
                "shared"
            });
            told.bytes(sent.as_slice());
        }
        Err(_) => told.line(&"out of memory"),
    }
}
