//! What a server says.
ghost use Rattle.std.specs.Prelude.{◌≡◌};
ghost use Rattle.ca_message.specs.ServerReply.{reply_of};

use crate::commands::{
    CA_PROTO_ACCESS_RIGHTS, CA_PROTO_CREATE_CH_FAIL, CA_PROTO_CREATE_CHAN, CA_PROTO_EVENT_ADD,
    CA_PROTO_SERVER_DISCONN, CA_PROTO_VERSION, CA_PROTO_WRITE_NOTIFY, READ_AND_WRITE,
};
use crate::value::ValueBytes;
use ca_header::Header;
use std::fmt;

/// A message from a server, as it is meant. A value is a slice of the payload.
///
/// `sid` and `cid` are the server's and the gateway's ID of a channel, `id` is the gateway's ID of
/// a subscription, `ioid` its ID of a write, and `dtype` the number of a DBR type.
#[derive(Drop)]
pub enum ServerReply<'a> {
    /// The server speaks this minor version of the protocol.
    Version {
        minor: u32,
    },
    /// An update of the subscription `id`: a value in this type, of so many elements. A `status`
    /// other than `ECA_NORMAL` says that there is none.
    EventAdd {
        id: u32,
        status: u32,
        dtype: u16,
        count: u32,
        value: ValueBytes<'a>,
    },
    /// The channel that was asked for as `cid` stands as `sid`, with this native type and count.
    CreateChannel {
        cid: u32,
        sid: u32,
        dtype: u16,
        count: u32,
    },
    /// The write that was asked for as `ioid` is over: the value is written where `status` is
    /// `ECA_NORMAL`.
    WriteNotify {
        ioid: u32,
        status: u32,
    },
    /// What may be done with the channel: `CA_PROTO_ACCESS_RIGHT_READ` and
    /// `CA_PROTO_ACCESS_RIGHT_WRITE`, added up.
    AccessRights {
        cid: u32,
        rights: u32,
    },
    /// The channel that was asked for isn't had.
    CreateChannelFail {
        cid: u32,
    },
    /// The server has dropped the channel.
    ServerDisconnect {
        cid: u32,
    },
}

/// Prints the variant's name alone.
impl<'a> fmt::Debug for ServerReply<'a> {
    fn fmt<W: fmt::Write>(&self, f: &mut fmt::Formatter<W>) -> fmt::Result {
        f.write_str(match self {
            ServerReply::Version { .. } => "Version",
            ServerReply::EventAdd { .. } => "EventAdd",
            ServerReply::CreateChannel { .. } => "CreateChannel",
            ServerReply::WriteNotify { .. } => "WriteNotify",
            ServerReply::AccessRights { .. } => "AccessRights",
            ServerReply::CreateChannelFail { .. } => "CreateChannelFail",
            ServerReply::ServerDisconnect { .. } => "ServerDisconnect",
        })
    }
}

/// Why a message isn't a reply.
#[derive(Clone, Copy, Debug, PartialEq, Eq)]
pub enum ReplyFault {
    /// The gateway doesn't know the command.
    Unknown,
}

/// What a message from a server says. It takes no memory.
pub fn read_reply<'a>(head: &Header, payload: &'a [u8]) -> Result<ServerReply<'a>, ReplyFault>
    ensures { result ≡ reply_of head.now payload.now }
{
    match head.command {
        CA_PROTO_VERSION => Ok(ServerReply::Version { minor: head.count }),
        CA_PROTO_EVENT_ADD => Ok(ServerReply::EventAdd {
            id: head.p2,
            status: head.p1,
            dtype: head.dtype,
            count: head.count,
            value: ValueBytes::from(payload),
        }),
        CA_PROTO_CREATE_CHAN => Ok(ServerReply::CreateChannel {
            cid: head.p1,
            sid: head.p2,
            dtype: head.dtype,
            count: head.count,
        }),
        CA_PROTO_WRITE_NOTIFY => {
            let (status, ioid) = (head.p1, head.p2);
            Ok(ServerReply::WriteNotify { ioid, status })
        }
        CA_PROTO_ACCESS_RIGHTS => Ok(ServerReply::AccessRights {
            cid: head.p1,
            rights: head.p2 & READ_AND_WRITE,
        }),
        CA_PROTO_CREATE_CH_FAIL => Ok(ServerReply::CreateChannelFail { cid: head.p1 }),
        CA_PROTO_SERVER_DISCONN => Ok(ServerReply::ServerDisconnect { cid: head.p1 }),
        _ => Err(ReplyFault::Unknown),
    }
}
