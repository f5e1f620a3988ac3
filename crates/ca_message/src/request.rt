//! What a client asks for.
ghost use Rattle.std.specs.Prelude.{◌≡◌};
ghost use Rattle.ca_message.specs.ClientRequest.{event_add_of, request_of};

use crate::commands::{
    CA_PROTO_CLEAR_CHANNEL, CA_PROTO_CLIENT_NAME, CA_PROTO_CREATE_CHAN, CA_PROTO_ECHO,
    CA_PROTO_EVENT_ADD, CA_PROTO_EVENT_CANCEL, CA_PROTO_EVENTS_OFF, CA_PROTO_EVENTS_ON,
    CA_PROTO_HOST_NAME, CA_PROTO_READ_NOTIFY, CA_PROTO_VERSION, CA_PROTO_WRITE,
    CA_PROTO_WRITE_NOTIFY,
};
use crate::payload::{EVENT_MASK_OFFSET, EVENT_PAYLOAD_LEN};
use crate::text::{HostText, NameText};
use crate::value::ValueBytes;
use ca_header::{Header, Message};
use std::fmt;

/// A message from a client, as it is meant. Its texts and values are slices of the payload.
#[derive(Drop)]
pub enum ClientRequest<'a> {
    /// The client speaks this minor version of the protocol.
    Version { minor: u32 },
    /// The client wants updates of a channel.
    EventAdd(EventAdd),
    /// The client gives up its subscription.
    EventCancel(EventCancel),
    /// The client writes a value, and wants no reply.
    Write(Write<'a>),
    /// The client wants no updates for now.
    EventsOff,
    /// The client wants updates again.
    EventsOn,
    /// The client gives up its channel.
    ClearChannel(ClearChannel),
    /// The client wants a value.
    ReadNotify(ReadNotify),
    /// The client wants a channel on a variable.
    CreateChannel(CreateChannel<'a>),
    /// The client writes a value, and wants to be told how that ended.
    WriteNotify(WriteNotify<'a>),
    /// The client's user is called so.
    ClientName(NameText<'a>),
    /// The client's host is called so.
    HostName(HostText<'a>),
    /// The client wants the same message back.
    Echo,
}

/// EVENT_ADD: updates that are wanted.
#[derive(Clone, Copy)]
pub struct EventAdd {
    /// The server's ID of the channel.
    pub sid: u32,
    /// The client's ID of the subscription.
    pub id: u32,
    /// The number of the DBR type that updates shall have.
    pub dtype: u16,
    /// How many elements they shall have; 0 stands for all.
    pub count: u32,
    /// The events that updates are wanted at. It need not name one.
    pub mask: u16,
}

/// EVENT_CANCEL: a subscription that is given up.
#[derive(Clone, Copy)]
pub struct EventCancel {
    /// The server's ID of the channel.
    pub sid: u32,
    /// The client's ID of the subscription.
    pub id: u32,
    /// The number of the DBR type, as the client says it.
    pub dtype: u16,
    /// How many elements, as the client says it.
    pub count: u32,
}

/// WRITE: a value that is written, without a reply.
#[derive(Drop)]
pub struct Write<'a> {
    /// The server's ID of the channel.
    pub sid: u32,
    /// The number of the value's DBR type.
    pub dtype: u16,
    /// How many elements it has.
    pub count: u32,
    /// The payload as it came; `WrittenValue::read` tells whether it may be handed on.
    pub value: ValueBytes<'a>,
}

/// CLEAR_CHANNEL: a channel that is given up.
#[derive(Clone, Copy)]
pub struct ClearChannel {
    /// The server's ID of the channel.
    pub sid: u32,
    /// The client's ID of it.
    pub cid: u32,
}

/// READ_NOTIFY: a value that is wanted.
#[derive(Clone, Copy)]
pub struct ReadNotify {
    /// The server's ID of the channel.
    pub sid: u32,
    /// The client's ID of the read.
    pub ioid: u32,
    /// The number of the DBR type that the value shall have.
    pub dtype: u16,
    /// How many elements it shall have; 0 stands for all.
    pub count: u32,
}

/// CREATE_CHAN: a channel that is wanted.
#[derive(Drop)]
pub struct CreateChannel<'a> {
    /// The client's ID of the channel.
    pub cid: u32,
    /// The minor version of the protocol that the client speaks.
    pub minor: u32,
    /// The variable's name.
    pub name: NameText<'a>,
}

/// WRITE_NOTIFY: a value that is written, with a reply.
#[derive(Drop)]
pub struct WriteNotify<'a> {
    /// The server's ID of the channel.
    pub sid: u32,
    /// The client's ID of the write.
    pub ioid: u32,
    /// The number of the value's DBR type.
    pub dtype: u16,
    /// How many elements it has.
    pub count: u32,
    /// The payload as it came; `WrittenValue::read` tells whether it may be handed on.
    pub value: ValueBytes<'a>,
}

/// Prints the variant's name alone.
impl<'a> fmt::Debug for ClientRequest<'a> {
    fn fmt<W: fmt::Write>(&self, f: &mut fmt::Formatter<W>) -> fmt::Result {
        f.write_str(match self {
            ClientRequest::Version { .. } => "Version",
            ClientRequest::EventAdd(..) => "EventAdd",
            ClientRequest::EventCancel(..) => "EventCancel",
            ClientRequest::Write(..) => "Write",
            ClientRequest::EventsOff => "EventsOff",
            ClientRequest::EventsOn => "EventsOn",
            ClientRequest::ClearChannel(..) => "ClearChannel",
            ClientRequest::ReadNotify(..) => "ReadNotify",
            ClientRequest::CreateChannel(..) => "CreateChannel",
            ClientRequest::WriteNotify(..) => "WriteNotify",
            ClientRequest::ClientName(..) => "ClientName",
            ClientRequest::HostName(..) => "HostName",
            ClientRequest::Echo => "Echo",
        })
    }
}

/// Why a message isn't a request. What follows from it depends on the command: a text that can't be
/// read is `NoNul` or `BadName` for CREATE_CHAN, CLIENT_NAME and HOST_NAME alike.
#[derive(Clone, Copy, Debug, PartialEq, Eq)]
pub enum RequestFault {
    /// A text is owed, and no byte of the payload is NUL.
    NoNul,
    /// The text before the NUL isn't a name, or not a host's where one is owed.
    BadName,
    /// The payload ends before the fields that the command owes.
    Short,
    /// The gateway doesn't serve the command.
    Unknown,
}

/// What a message from a client asks for. It takes no memory.
pub fn read_request<'a>(head: &Header, payload: &'a [u8]) -> Result<ClientRequest<'a>, RequestFault>
    ensures { result ≡ request_of head.now payload.now }
{
    read(head, ValueBytes::from(payload))
}

/// The same, of a message whose payload may be shared with who hands a written value on.
pub fn read_message<'a>(message: &'a Message) -> Result<ClientRequest<'a>, RequestFault>
    ensures { result ≡ request_of message.now.head message.now.payload }
{
    read(&message.head, ValueBytes::of_payload(&message.payload))
}

fn read<'a>(head: &Header, payload: ValueBytes<'a>) -> Result<ClientRequest<'a>, RequestFault>
    ensures { result ≡ request_of head.now payload.entry }
{
    match head.command {
        CA_PROTO_VERSION => Ok(ClientRequest::Version { minor: head.count }),
        CA_PROTO_EVENT_ADD => read_event_add(head, payload.as_slice()),
        CA_PROTO_EVENT_CANCEL => Ok(ClientRequest::EventCancel(EventCancel {
            sid: head.p1,
            id: head.p2,
            dtype: head.dtype,
            count: head.count,
        })),
        CA_PROTO_WRITE => Ok(ClientRequest::Write(Write {
            sid: head.p1,
            dtype: head.dtype,
            count: head.count,
            value: payload,
        })),
        CA_PROTO_EVENTS_OFF => Ok(ClientRequest::EventsOff),
        CA_PROTO_EVENTS_ON => Ok(ClientRequest::EventsOn),
        CA_PROTO_CLEAR_CHANNEL => Ok(ClientRequest::ClearChannel(ClearChannel {
            sid: head.p1,
            cid: head.p2,
        })),
        CA_PROTO_READ_NOTIFY => Ok(ClientRequest::ReadNotify(ReadNotify {
            sid: head.p1,
            ioid: head.p2,
            dtype: head.dtype,
            count: head.count,
        })),
        CA_PROTO_CREATE_CHAN => Ok(ClientRequest::CreateChannel(CreateChannel {
            cid: head.p1,
            minor: head.p2,
            name: NameText::read(payload.as_slice())?,
        })),
        CA_PROTO_WRITE_NOTIFY => Ok(ClientRequest::WriteNotify(WriteNotify {
            sid: head.p1,
            ioid: head.p2,
            dtype: head.dtype,
            count: head.count,
            value: payload,
        })),
        CA_PROTO_CLIENT_NAME => Ok(ClientRequest::ClientName(NameText::read(payload.as_slice())?)),
        CA_PROTO_HOST_NAME => Ok(ClientRequest::HostName(HostText::read(payload.as_slice())?)),
        CA_PROTO_ECHO => Ok(ClientRequest::Echo),
        _ => Err(RequestFault::Unknown),
    }
}

fn read_event_add<'a>(head: &Header, payload: &[u8]) -> Result<ClientRequest<'a>, RequestFault>
    ensures { result ≡ event_add_of head.now payload.now }
{
    if payload.len() < EVENT_PAYLOAD_LEN as usize {
        return Err(RequestFault::Short);
    }
    let mask = [payload[EVENT_MASK_OFFSET], payload[EVENT_MASK_OFFSET + 1]];
    Ok(ClientRequest::EventAdd(EventAdd {
        sid: head.p1,
        id: head.p2,
        dtype: head.dtype,
        count: head.count,
        mask: u16::from_be_bytes(mask),
    }))
}
