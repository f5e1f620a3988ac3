//! How a message that was read is told: what it is, its numbers, each behind its name, and last the
//! bytes of its name or value; or `refused` and why.
use crate::words::Told;
use ca_message::{ClientRequest, ReplyFault, RequestFault, ServerReply};
use std::fmt::Debug;

pub(crate) fn tell_request(read: &Result<ClientRequest<'_>, RequestFault>, told: &mut Told) {
    match read {
        Ok(request) => tell_asked(request, told),
        Err(fault) => tell_refused(fault, told),
    }
    told.end();
}

pub(crate) fn tell_reply(read: &Result<ServerReply<'_>, ReplyFault>, told: &mut Told) {
    match read {
        Ok(reply) => tell_said(reply, told),
        Err(fault) => tell_refused(fault, told),
    }
    told.end();
}

fn tell_refused<T: Debug>(fault: &T, told: &mut Told) {
    told.word(&"refused");
    told.name(fault);
}

fn tell_asked(request: &ClientRequest<'_>, told: &mut Told) {
    told.name(request);
    match request {
        ClientRequest::Version { minor } => told.field("minor", minor),
        ClientRequest::ClearChannel(clear) => {
            told.field("sid", &clear.sid);
            told.field("cid", &clear.cid);
        }
        ClientRequest::CreateChannel(create) => {
            told.field("cid", &create.cid);
            told.field("minor", &create.minor);
            told.field_bytes("name", create.name.as_slice());
        }
        ClientRequest::ClientName(name) => told.field_bytes("name", name.as_slice()),
        ClientRequest::HostName(host) => told.field_bytes("name", host.as_slice()),
        ClientRequest::EventsOff | ClientRequest::EventsOn | ClientRequest::Echo => {}
        _ => tell_asked_of_type(request, told),
    }
}

fn tell_asked_of_type(request: &ClientRequest<'_>, told: &mut Told) {
    match request {
        ClientRequest::EventAdd(add) => {
            told.field("sid", &add.sid);
            told.field("id", &add.id);
            tell_type(add.dtype, add.count, told);
            told.field("mask", &add.mask);
        }
        ClientRequest::EventCancel(cancel) => {
            told.field("sid", &cancel.sid);
            told.field("id", &cancel.id);
            tell_type(cancel.dtype, cancel.count, told);
        }
        ClientRequest::ReadNotify(read) => {
            told.field("sid", &read.sid);
            told.field("ioid", &read.ioid);
            tell_type(read.dtype, read.count, told);
        }
        _ => tell_asked_write(request, told),
    }
}

fn tell_asked_write(request: &ClientRequest<'_>, told: &mut Told) {
    match request {
        ClientRequest::Write(write) => {
            told.field("sid", &write.sid);
            tell_type(write.dtype, write.count, told);
            told.field_bytes("value", write.value.as_slice());
        }
        ClientRequest::WriteNotify(write) => {
            told.field("sid", &write.sid);
            told.field("ioid", &write.ioid);
            tell_type(write.dtype, write.count, told);
            told.field_bytes("value", write.value.as_slice());
        }
        _ => told.word(&"with fields that aren't told"),
    }
}

fn tell_type(dtype: u16, count: u32, told: &mut Told) {
    told.field("dtype", &dtype);
    told.field("count", &count);
}

fn tell_said(reply: &ServerReply<'_>, told: &mut Told) {
    told.name(reply);
    match reply {
        ServerReply::Version { minor } => told.field("minor", minor),
        ServerReply::CreateChannel {
            cid,
            sid,
            dtype,
            count,
        } => {
            told.field("cid", cid);
            told.field("sid", sid);
            tell_type(*dtype, *count, told);
        }
        ServerReply::WriteNotify { ioid, status } => {
            told.field("ioid", ioid);
            told.field("status", status);
        }
        ServerReply::AccessRights { cid, rights } => {
            told.field("cid", cid);
            told.field("rights", rights);
        }
        ServerReply::CreateChannelFail { cid } => told.field("cid", cid),
        ServerReply::ServerDisconnect { cid } => told.field("cid", cid),
        ServerReply::EventAdd {
            id,
            status,
            dtype,
            count,
            value,
        } => {
            told.field("id", id);
            told.field("status", status);
            tell_type(*dtype, *count, told);
            told.field_bytes("value", value.as_slice());
        }
    }
}
