//! Where servers say that they have names.
ghost use Rattle.std.specs.Prelude.{◌≡◌, IfOk};
ghost use Rattle.pv_search.specs.Picked.{IsPicked};
ghost use Rattle.pv_search.specs.Replies.{host_in, is_reply, minor_in, reply_of};

use crate::NoMemory;
use ca_header::{Frame, Frames, Header};
use ca_message::commands::{CA_PROTO_SEARCH, SENDER_ADDRESS};
use std::alloc::Global;

/// The least minor version of a server whose replies say where it is.
const MINOR: u32 = 8;

/// A server has the name that was asked for under a CID.
#[derive(Clone, Copy, Debug, PartialEq, Eq)]
pub struct Reply {
    pub cid: u32,
    /// The IPv4 address of the server; none where it is that which the datagram came from.
    pub host: Option<u32>,
    /// The port of its TCP circuit.
    pub port: u16,
}

/// The replies in a datagram, in order, of servers that say where they are. All other messages are passed over.
pub fn read_replies(alloc: Global, datagram: &[u8]) -> Result<Vec<Reply>, NoMemory>
    ensures { IfOk result (λ replies. IsPicked reply_of datagram.now replies.items) }
{
    let mut replies = Vec::new(alloc);
    let mut frames = Frames::new(datagram);
    while let Frame::Message(head, payload) = frames.next() {
        if let Some(reply) = reply_in(&head, payload) {
            replies.push(reply)?;
        }
    }
    Ok(replies)
}

fn reply_in(head: &Header, payload: &[u8]) -> Option<Reply>
    ensures { result ≡ reply_of head.now payload.now }
{
    if !is_reply(head, payload) {
        return None;
    }
    Some(Reply {
        cid: head.p2,
        host: host_in(head.p1),
        port: head.dtype,
    })
}

fn is_reply(head: &Header, payload: &[u8]) -> bool
    ensures { result ≡ is_reply head.now payload.now }
{
    head.command == CA_PROTO_SEARCH && minor_in(payload) >= MINOR && head.dtype != 0
}

fn minor_in(payload: &[u8]) -> u32
    ensures { result ≡ minor_in payload.now }
{
    match (payload.get(0), payload.get(1)) {
        (Some(high), Some(low)) => u32::from(*high) * 256 + u32::from(*low),
        _ => 0,
    }
}

fn host_in(address: u32) -> Option<u32>
    ensures { result ≡ host_in address }
{
    if address == SENDER_ADDRESS {
        None
    } else {
        Some(address)
    }
}
