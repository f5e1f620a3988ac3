//! What the gateway says to servers.
ghost use Rattle.std.specs.Prelude.{◌≡◌, length, IfOk, IsOk};
ghost use Rattle.ca_message.specs.Padding.{nul_ended};
ghost use Rattle.ca_message.specs.Wire.{size_field};
ghost use Rattle.ca_message.specs.ToServer.{server_head, server_payload, event_payload};

use crate::NoMemory;
use crate::commands::{
    CA_PROTO_CLEAR_CHANNEL, CA_PROTO_CLIENT_NAME, CA_PROTO_CREATE_CHAN, CA_PROTO_ECHO,
    CA_PROTO_EVENT_ADD, CA_PROTO_EVENT_CANCEL, CA_PROTO_HOST_NAME, CA_PROTO_VERSION,
    CA_PROTO_WRITE, CA_PROTO_WRITE_NOTIFY, MINOR_VERSION,
};
use crate::payload::{EVENT_PAYLOAD_LEN, header, size_of_nul_ended, write_nul_ended};
use crate::text::NameText;
use crate::written::WrittenValue;
use bytes::Bytes;
use ca_header::Header;
use std::alloc::Global;
use std::fmt;

/// A message to a server. Its wire form is its head, written canonically, and then its payload.
///
/// `sid` and `cid` are the server's and the gateway's ID of a channel, `id` is the gateway's ID of
/// a subscription, `ioid` its ID of a write, and `dtype` the number of a DBR type.
#[derive(Drop)]
pub enum ToServer<'a> {
    /// The gateway speaks minor version 13 of the protocol.
    Version,
    /// The gateway's user is called so.
    ClientName(NameText<'a>),
    /// The gateway's host is called so.
    HostName(NameText<'a>),
    /// The gateway wants a channel on this variable, which it calls `cid`.
    CreateChannel {
        cid: u32,
        name: NameText<'a>,
    },
    /// The gateway wants updates of the channel, which it calls `id`: at the events of the mask, in
    /// this type, of so many elements; 0 stands for all.
    EventAdd {
        sid: u32,
        id: u32,
        dtype: u16,
        count: u32,
        mask: u16,
    },
    /// The gateway gives up the subscription that it asked for with these fields.
    EventCancel {
        sid: u32,
        id: u32,
        dtype: u16,
        count: u32,
    },
    /// The gateway writes the value, and wants no reply.
    Write {
        sid: u32,
        value: WrittenValue<'a>,
    },
    /// The gateway writes the value, and wants to be told of it under `ioid`.
    WriteNotify {
        sid: u32,
        ioid: u32,
        value: WrittenValue<'a>,
    },
    /// The gateway gives up the channel.
    ClearChannel {
        sid: u32,
        cid: u32,
    },
    /// The gateway asks whether the server is there; it answers with the same message.
    Echo,
}

/// Prints the variant's name alone.
impl<'a> fmt::Debug for ToServer<'a> {
    fn fmt<W: fmt::Write>(&self, f: &mut fmt::Formatter<W>) -> fmt::Result {
        f.write_str(match self {
            ToServer::Version => "Version",
            ToServer::ClientName(..) => "ClientName",
            ToServer::HostName(..) => "HostName",
            ToServer::CreateChannel { .. } => "CreateChannel",
            ToServer::EventAdd { .. } => "EventAdd",
            ToServer::EventCancel { .. } => "EventCancel",
            ToServer::Write { .. } => "Write",
            ToServer::WriteNotify { .. } => "WriteNotify",
            ToServer::ClearChannel { .. } => "ClearChannel",
            ToServer::Echo => "Echo",
        })
    }
}

impl<'a> ToServer<'a> {
    /// The header, whose size counts the payload's padding.
    pub fn head(&self) -> Header
        ensures { result ≡ server_head self.now }
    {
        match self {
            ToServer::Version => header(CA_PROTO_VERSION, 0, MINOR_VERSION, 0, 0),
            ToServer::ClientName(name) => Header {
                size: name_size(name),
                ..header(CA_PROTO_CLIENT_NAME, 0, 0, 0, 0)
            },
            ToServer::HostName(name) => Header {
                size: name_size(name),
                ..header(CA_PROTO_HOST_NAME, 0, 0, 0, 0)
            },
            ToServer::CreateChannel { cid, name } => Header {
                size: name_size(name),
                ..header(CA_PROTO_CREATE_CHAN, 0, 0, *cid, MINOR_VERSION)
            },
            ToServer::EventAdd {
                sid,
                id,
                dtype,
                count,
                ..
            } => Header {
                size: EVENT_PAYLOAD_LEN,
                ..header(CA_PROTO_EVENT_ADD, *dtype, *count, *sid, *id)
            },
            ToServer::EventCancel {
                sid,
                id,
                dtype,
                count,
            } => header(CA_PROTO_EVENT_CANCEL, *dtype, *count, *sid, *id),
            ToServer::Write { sid, value } => value.head(CA_PROTO_WRITE, *sid, 0),
            ToServer::WriteNotify { sid, ioid, value } => {
                value.head(CA_PROTO_WRITE_NOTIFY, *sid, *ioid)
            }
            ToServer::ClearChannel { sid, cid } => header(CA_PROTO_CLEAR_CHANNEL, 0, 0, *sid, *cid),
            ToServer::Echo => header(CA_PROTO_ECHO, 0, 0, 0, 0),
        }
    }

    /// The payload, padded with zero bytes to a multiple of 8.
    pub fn payload(&self, alloc: Global) -> Result<Bytes, NoMemory>
        ensures ok { IfOk result (λ payload. payload ≡ server_payload self.now) }
        // Where there is no payload, no memory is wanted.
        ensures none { length (server_payload self.now) ≡ 0 → IsOk result }
    {
        match self {
            ToServer::ClientName(name)
            | ToServer::HostName(name)
            | ToServer::CreateChannel { name, .. } => write_nul_ended(alloc, &[], name.as_slice()),
            ToServer::Write { value, .. } | ToServer::WriteNotify { value, .. } => {
                value.payload(alloc)
            }
            ToServer::EventAdd { mask, .. } => event_payload(alloc, *mask),
            ToServer::Version
            | ToServer::EventCancel { .. }
            | ToServer::ClearChannel { .. }
            | ToServer::Echo => Ok(Bytes::new()),
        }
    }
}

fn name_size(name: &NameText<'_>) -> u32
    ensures { result ≡ size_field (nul_ended name.now) }
{
    size_of_nul_ended(&[], name.as_slice())
}

fn event_payload(alloc: Global, mask: u16) -> Result<Bytes, NoMemory>
    ensures { IfOk result (λ payload. payload ≡ event_payload mask) }
{
    let mask = mask.to_be_bytes();
    let payload = [0, 0, 0, 0, 0, 0, 0, 0, 0, 0, 0, 0, mask[0], mask[1], 0, 0];
    Bytes::copy_from_slice(alloc, &payload)
}
