//! Replies from a stream that comes in pieces.
ghost use Rattle.std.specs.Prelude.{◌≡◌, ◌+◌, ◌<◌, [], ◌++◌, length, IfOk, IfErr, OnErr};
ghost use Rattle.ca_header.specs.Reading.{head_at};
ghost use Rattle.ca_header.specs.declared.header.TheConstants.{EXTENDED_LEN};
ghost use Rattle.name_server.specs.StreamReplies.{is_stream_reply, says_enough, stream_reply_of};
ghost use Rattle.name_server.specs.Streams.{IsHeard, IsNoStream, IsWholePart, len_of};
ghost use Rattle.pv_search.specs.Picked.{IsPicked};
ghost use Rattle.pv_search.specs.Replies.{host_in, minor_in};

use ca_header::{Frame, Frames, Head, Header, read_head};
use ca_message::commands::CA_PROTO_SEARCH;
use pv_search::{Reply, SENDER_ADDRESS};
use std::alloc::{AllocError, Global};
use std::error::Error;
use std::fmt;
use std::marker::Model;

/// The longest payload of a message that a name server sends. That of a reply has 8 bytes.
pub const PAYLOAD_LIMIT: u32 = 1_024;

/// The least minor version that a reply with a payload tells.
const MINOR: u32 = 8;

/// Why a piece isn't heard.
#[derive(Clone, Copy, Debug, PartialEq, Eq)]
pub enum StreamFault {
    OutOfMemory,
    /// A header says that its payload's size is no multiple of 8, or above [`PAYLOAD_LIMIT`].
    NoAnswers,
}

impl fmt::Display for StreamFault {
    fn fmt<W: fmt::Write>(&self, f: &mut fmt::Formatter<W>) -> fmt::Result {
        f.write_str(match self {
            StreamFault::OutOfMemory => "out of memory",
            StreamFault::NoAnswers => "no name server sends this",
        })
    }
}

impl Error for StreamFault {}

impl From<AllocError> for StreamFault {
    ghost use Rattle.std.specs.Prelude.{◌≡◌};
    ghost use Rattle.name_server.specs.declared.stream_replies.StreamFault.TheVariants.{OutOfMemory};

    ghost from_gives = { λ _ fault. fault ≡ OutOfMemory };

    fn from(_e: AllocError) -> StreamFault {
        StreamFault::OutOfMemory
    }
}

/// A stream of which each piece is heard when it comes. It holds less than a message.
#[derive(Debug, Drop)]
pub struct StreamReplies {
    held: Vec<u8>,
}

impl Model for StreamReplies {
    ghost use Rattle.std.specs.Prelude.{ℕ, ◌+◌, ◌<◌, List, length};
    ghost use Rattle.ca_header.specs.declared.header.TheConstants.{EXTENDED_LEN};
    ghost use Rattle.name_server.specs.declared.stream_replies.TheConstants.{PAYLOAD_LIMIT};

    ghost Value = { List ℕ };

    ghost view = { λ s. s.held.items };

    ghost invariant = { λ s. length s.held.items < EXTENDED_LEN + PAYLOAD_LIMIT };
}

impl StreamReplies {
    /// Nothing came yet.
    pub fn new(alloc: Global) -> StreamReplies
        ensures { result ≡ [] }
    {
        StreamReplies {
            held: Vec::new(alloc),
        }
    }

    /// Hears the next piece: the replies that are whole now, in order, of servers that say where they are. All other messages are
    /// passed over. At an error it is as it was.
    pub fn hear(&mut self, alloc: Global, piece: &[u8]) -> Result<Vec<Reply>, StreamFault>
        ensures ok { IfOk result (λ replies. IsHeard (self.old ++ piece.now) replies.items self.new) }
        ensures err { OnErr result (self.new ≡ self.old) }
        ensures no_answers { result ≡ Err StreamFault.NoAnswers → IsNoStream (self.old ++ piece.now) }
    {
        let mut bytes = copy_of(alloc, self.held.as_slice())?;
        bytes.extend_from_slice(piece)?;
        let heard = hear_bytes(alloc, bytes.as_slice())?;
        self.held = heard.left;
        Ok(heard.replies)
    }
}

/// What bytes come to.
#[derive(Drop)]
struct Heard {
    replies: Vec<Reply>,
    /// Less than a message.
    left: Vec<u8>,
}

fn hear_bytes(alloc: Global, bytes: &[u8]) -> Result<Heard, StreamFault>
    ensures heard { IfOk result (λ heard. IsHeard bytes.now heard.replies.items heard.left.items) }
    ensures short { IfOk result (λ heard. length heard.left.items < EXTENDED_LEN + PAYLOAD_LIMIT) }
    ensures no_answers { result ≡ Err StreamFault.NoAnswers → IsNoStream bytes.now }
{
    let len = whole_part(bytes)?;
    let replies = replies_in(alloc, bytes)?;
    let left = copy_of(alloc, &bytes[len..])?;
    Ok(Heard { replies, left })
}

fn replies_in(alloc: Global, bytes: &[u8]) -> Result<Vec<Reply>, AllocError>
    ensures { IfOk result (λ replies. IsPicked stream_reply_of bytes.now replies.items) }
{
    let mut replies = Vec::new(alloc);
    let mut frames = Frames::new(bytes);
    while let Frame::Message(head, payload) = frames.next() {
        if let Some(reply) = reply_in(&head, payload) {
            replies.push(reply)?;
        }
    }
    Ok(replies)
}

fn reply_in(head: &Header, payload: &[u8]) -> Option<Reply>
    ensures { result ≡ stream_reply_of head.now payload.now }
{
    if !is_reply(head, payload) {
        return None;
    }
    Some(Reply {
        cid: head.p2,
        host: host_in(head.p1),
        port: head.dtype,
    })
}

fn is_reply(head: &Header, payload: &[u8]) -> bool
    ensures { result ≡ is_stream_reply head.now payload.now }
{
    head.command == CA_PROTO_SEARCH && says_enough(payload) && head.dtype != 0
}

fn says_enough(payload: &[u8]) -> bool
    ensures { result ≡ says_enough payload.now }
{
    payload.len() == 0 || minor_in(payload) >= MINOR
}

fn minor_in(payload: &[u8]) -> u32
    ensures { result ≡ minor_in payload.now }
{
    match (payload.get(0), payload.get(1)) {
        (Some(high), Some(low)) => u32::from(*high) * 256 + u32::from(*low),
        _ => 0,
    }
}

fn host_in(address: u32) -> Option<u32>
    ensures { result ≡ host_in address }
{
    if address == SENDER_ADDRESS {
        None
    } else {
        Some(address)
    }
}

fn copy_of(alloc: Global, bytes: &[u8]) -> Result<Vec<u8>, AllocError>
    ensures { IfOk result (λ copy. copy.items ≡ bytes.now) }
{
    let mut copy = Vec::new(alloc);
    copy.extend_from_slice(bytes)?;
    Ok(copy)
}

// How many bytes the whole messages have that the bytes begin with.
fn whole_part(bytes: &[u8]) -> Result<usize, StreamFault>
    ensures ok { IfOk result (λ len. IsWholePart bytes.now len) }
    ensures err { IfErr result (λ fault. fault ≡ StreamFault.NoAnswers) }
    ensures no_answers { OnErr result (IsNoStream bytes.now) }
{
    let mut len = 0;
    while let Some(message) = message_len(&bytes[len..])? {
        len += message;
    }
    Ok(len)
}

// How many bytes the message has that the bytes begin with, if it is whole.
fn message_len(bytes: &[u8]) -> Result<Option<usize>, StreamFault>
    ensures { result ≡ len_of (head_at bytes.now) (length bytes.now) }
{
    match read_head(bytes) {
        Head::Got(head, len) if head.size <= PAYLOAD_LIMIT => {
            let message = len + head.size as usize;
            if message <= bytes.len() {
                Ok(Some(message))
            } else {
                Ok(None)
            }
        }
        Head::Need => Ok(None),
        Head::Got(..) | Head::Misaligned | Head::TooLarge => Err(StreamFault::NoAnswers),
    }
}
