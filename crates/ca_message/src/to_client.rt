//! What the gateway says to clients.
ghost use Rattle.std.specs.Prelude.{◌≡◌, ◌≤◌, length, IfOk, IsOk};
ghost use Rattle.ca_message.specs.Wire.{message, size_field};
ghost use Rattle.ca_message.specs.declared.codes.TheConstants.{ECA_NORMAL};
ghost use Rattle.ca_message.specs.ToClient.{bytes_before, client_head, client_payload, error_payload, no_value, spoken_version};
ghost use Rattle.dbr_layout.specs.Dbr.{dbr_of};

use crate::NoMemory;
use crate::codes::{ECA_NORMAL, error_text};
use crate::commands::{
    CA_PROTO_ACCESS_RIGHTS, CA_PROTO_CLEAR_CHANNEL, CA_PROTO_CREATE_CH_FAIL, CA_PROTO_CREATE_CHAN,
    CA_PROTO_ERROR, CA_PROTO_EVENT_ADD, CA_PROTO_READ_NOTIFY, CA_PROTO_SEARCH,
    CA_PROTO_SERVER_DISCONN, CA_PROTO_VERSION, CA_PROTO_WRITE_NOTIFY, MINOR_VERSION,
    SENDER_ADDRESS,
};
use crate::payload::{
    header, padded_len, size_of, size_of_len, size_of_nul_ended, write_nul_ended, write_padded,
};
use bytes::Bytes;
use ca_header::{Header, Message, write_head};
use dbr_layout::Dbr;
use std::alloc::Global;
use std::fmt;

/// How many bytes the payload of a SEARCH reply has.
const VERSION_LEN: u32 = 8;

/// A message to a client. Its wire form is its head, written canonically, and then its payload.
///
/// `sid` and `cid` are the gateway's and the client's ID of a channel, `id` is the client's ID of a
/// subscription, `ioid` its ID of a request, and `dtype` the number of a DBR type.
#[derive(Drop)]
pub enum ToClient {
    /// The gateway speaks minor version 13 of the protocol.
    Version,
    /// The client's own message, payload included.
    Echo(Message),
    /// The request was refused with this code. `cid` is the client's ID of the channel that the
    /// request is about, or `NO_CHANNEL`.
    Error {
        cid: u32,
        code: u32,
        request: Header,
    },
    /// An update of the subscription `id`: a value in this type, of so many elements. Its padding is
    /// part of it.
    Update {
        id: u32,
        dtype: u16,
        count: u32,
        value: Bytes,
    },
    /// The subscription `id` isn't told a value, for the reason that the code says: an update of no element, in
    /// whose place zero bytes stand.
    UpdateRefused {
        id: u32,
        dtype: u16,
        code: u32,
    },
    /// The client's subscription is given up. Type and count are those of the request to do so.
    EventCancelled {
        sid: u32,
        id: u32,
        dtype: u16,
        count: u32,
    },
    /// The client's channel is given up.
    ClearChannel {
        sid: u32,
        cid: u32,
    },
    /// The value that was asked for, in this type, of so many elements. Its padding is part of it.
    ReadNotify {
        ioid: u32,
        dtype: u16,
        count: u32,
        value: Bytes,
    },
    /// The value isn't had, for the reason that the code says. Type and count are those asked for.
    ReadNotifyRefused {
        ioid: u32,
        dtype: u16,
        count: u32,
        code: u32,
    },
    /// The name that is sought as `cid` is served here, at this TCP port.
    Search {
        cid: u32,
        port: u16,
    },
    /// The channel that was asked for as `cid` stands as `sid`, with this native type and count.
    CreateChannel {
        cid: u32,
        sid: u32,
        dtype: u16,
        count: u32,
    },
    /// The channel that was asked for isn't had.
    CreateChannelFail {
        cid: u32,
    },
    /// The write that was asked for is over: the value is written where `status` is `ECA_NORMAL`;
    /// else it is the server's status, or the code of the gateway's own refusal. Type and count are
    /// those of the request.
    WriteNotify {
        ioid: u32,
        dtype: u16,
        count: u32,
        status: u32,
    },
    /// What may be done with the channel: `CA_PROTO_ACCESS_RIGHT_READ` and
    /// `CA_PROTO_ACCESS_RIGHT_WRITE`, added up.
    AccessRights {
        cid: u32,
        rights: u32,
    },
    /// The channel is no longer there.
    ServerDisconnect {
        cid: u32,
    },
}

/// Prints the variant's name alone.
impl fmt::Debug for ToClient {
    fn fmt<W: fmt::Write>(&self, f: &mut fmt::Formatter<W>) -> fmt::Result {
        f.write_str(match self {
            ToClient::Version => "Version",
            ToClient::Echo(..) => "Echo",
            ToClient::Error { .. } => "Error",
            ToClient::Update { .. } => "Update",
            ToClient::UpdateRefused { .. } => "UpdateRefused",
            ToClient::EventCancelled { .. } => "EventCancelled",
            ToClient::ClearChannel { .. } => "ClearChannel",
            ToClient::ReadNotify { .. } => "ReadNotify",
            ToClient::ReadNotifyRefused { .. } => "ReadNotifyRefused",
            ToClient::Search { .. } => "Search",
            ToClient::CreateChannel { .. } => "CreateChannel",
            ToClient::CreateChannelFail { .. } => "CreateChannelFail",
            ToClient::WriteNotify { .. } => "WriteNotify",
            ToClient::AccessRights { .. } => "AccessRights",
            ToClient::ServerDisconnect { .. } => "ServerDisconnect",
        })
    }
}

impl ToClient {
    /// The header, whose size counts the payload's padding.
    pub fn head(&self) -> Header
        ensures { result ≡ client_head self.now }
    {
        match self {
            ToClient::Version => header(CA_PROTO_VERSION, 0, MINOR_VERSION, 0, 0),
            ToClient::Echo(message) => message.head,
            ToClient::Error { cid, code, request } => Header {
                size: error_size(request, *code),
                ..header(CA_PROTO_ERROR, 0, 0, *cid, *code)
            },
            ToClient::Update {
                id,
                dtype,
                count,
                value,
            } => value_header(CA_PROTO_EVENT_ADD, *dtype, *count, *id, value),
            ToClient::UpdateRefused { id, dtype, code } => Header {
                size: size_of_no_value(*dtype),
                ..header(CA_PROTO_EVENT_ADD, *dtype, 0, *code, *id)
            },
            // An EVENT_CANCEL is answered under the command of an EVENT_ADD.
            ToClient::EventCancelled {
                sid,
                id,
                dtype,
                count,
            } => header(CA_PROTO_EVENT_ADD, *dtype, *count, *sid, *id),
            ToClient::ClearChannel { sid, cid } => header(CA_PROTO_CLEAR_CHANNEL, 0, 0, *sid, *cid),
            ToClient::ReadNotify {
                ioid,
                dtype,
                count,
                value,
            } => value_header(CA_PROTO_READ_NOTIFY, *dtype, *count, *ioid, value),
            ToClient::ReadNotifyRefused {
                ioid,
                dtype,
                count,
                code,
            } => header(CA_PROTO_READ_NOTIFY, *dtype, *count, *code, *ioid),
            ToClient::Search { cid, port } => Header {
                size: VERSION_LEN,
                ..header(CA_PROTO_SEARCH, *port, 0, SENDER_ADDRESS, *cid)
            },
            ToClient::CreateChannel {
                cid,
                sid,
                dtype,
                count,
            } => header(CA_PROTO_CREATE_CHAN, *dtype, *count, *cid, *sid),
            ToClient::CreateChannelFail { cid } => header(CA_PROTO_CREATE_CH_FAIL, 0, 0, *cid, 0),
            ToClient::WriteNotify {
                ioid,
                dtype,
                count,
                status,
            } => header(CA_PROTO_WRITE_NOTIFY, *dtype, *count, *status, *ioid),
            ToClient::AccessRights { cid, rights } => {
                header(CA_PROTO_ACCESS_RIGHTS, 0, 0, *cid, *rights)
            }
            ToClient::ServerDisconnect { cid } => header(CA_PROTO_SERVER_DISCONN, 0, 0, *cid, 0),
        }
    }

    /// The payload, padded with zero bytes to a multiple of 8. An echo shares the payload of its
    /// message, and a reply or an update the bytes of its value.
    pub fn payload(&self, alloc: Global) -> Result<Bytes, NoMemory>
        ensures ok { IfOk result (λ payload. payload ≡ client_payload self.now) }
        // Where there is no payload, no memory is wanted.
        ensures none { length (client_payload self.now) ≡ 0 → IsOk result }
    {
        match self {
            ToClient::Echo(message) => message.payload.slice(..),
            ToClient::Error { code, request, .. } => error_payload(alloc, request, *code),
            ToClient::UpdateRefused { dtype, .. } => no_value(alloc, *dtype),
            ToClient::Search { .. } => spoken_version(alloc),
            ToClient::Update { value, .. } | ToClient::ReadNotify { value, .. } => value.slice(..),
            ToClient::Version
            | ToClient::EventCancelled { .. }
            | ToClient::ClearChannel { .. }
            | ToClient::ReadNotifyRefused { .. }
            | ToClient::CreateChannel { .. }
            | ToClient::CreateChannelFail { .. }
            | ToClient::WriteNotify { .. }
            | ToClient::AccessRights { .. }
            | ToClient::ServerDisconnect { .. } => Ok(Bytes::new()),
        }
    }
}

/// The header of a message that brings a value.
fn value_header(command: u16, dtype: u16, count: u32, id: u32, value: &Bytes) -> Header
    ensures { result ≡ (message command dtype count ECA_NORMAL id value.now).head }
{
    Header {
        size: size_of(value),
        ..header(command, dtype, count, ECA_NORMAL, id)
    }
}

// How many bytes stand for a value of this type that isn't told, without their padding.
#[tactic(auto, using(crate::proofs::NoValue::few_before))]
fn bytes_before(dtype: u16) -> u32
    ensures bytes { result ≡ bytes_before (dbr_of dtype) }
    ensures few { result ≤ 422 }
{
    match Dbr::of(dtype) {
        Some(dbr) => dbr.offset().max(1),
        None => 1,
    }
}

#[tactic(auto, using(crate::proofs::NoValue::length_no_value))]
fn size_of_no_value(dtype: u16) -> u32
    ensures { result ≡ size_field (no_value dtype) }
{
    size_of_len(padded_len(bytes_before(dtype) as usize))
}

fn no_value(alloc: Global, dtype: u16) -> Result<Bytes, NoMemory>
    ensures { IfOk result (λ payload. payload ≡ no_value dtype) }
{
    write_padded(alloc, &[], bytes_before(dtype) as usize)
}

fn spoken_version(alloc: Global) -> Result<Bytes, NoMemory>
    ensures { IfOk result (λ payload. payload ≡ spoken_version) }
{
    let minor = (MINOR_VERSION as u16).to_be_bytes();
    let payload = Vec::from_array(alloc, [minor[0], minor[1], 0, 0, 0, 0, 0, 0])?;
    Ok(Bytes::from_vec(payload)?)
}

fn error_size(request: &Header, code: u32) -> u32
    ensures { result ≡ size_field (error_payload request.now code) }
{
    size_of_nul_ended(write_head(request).as_slice(), error_text(code).as_bytes())
}

fn error_payload(alloc: Global, request: &Header, code: u32) -> Result<Bytes, NoMemory>
    ensures { IfOk result (λ payload. payload ≡ error_payload request.now code) }
{
    write_nul_ended(
        alloc,
        write_head(request).as_slice(),
        error_text(code).as_bytes(),
    )
}
