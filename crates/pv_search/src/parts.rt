//! A client's datagram in parts, so that nobody waits until a long one is answered as a whole.
ghost use Rattle.std.specs.Prelude.{◌≡◌, ◌<◌, ◌≤◌, length};
ghost use Rattle.ca_header.specs.Reading.{front_at};
ghost use Rattle.pv_search.specs.Parts.{IsFirstPart};
ghost use Rattle.pv_search.specs.PartFront.{cut_of};

use ca_header::{Head, read_head};
use ca_message::commands::CA_PROTO_SEARCH;

/// The message at the front of some bytes.
#[derive(Clone, Copy)]
struct FrontMessage {
    /// How many bytes it has, its header counted.
    len: usize,
    is_search: bool,
}

/// That message, if it is whole.
fn front_message(bytes: &[u8]) -> Option<FrontMessage>
    ensures { result ≡ cut_of (front_at bytes.now) }
{
    let Head::Got(head, head_len) = read_head(bytes) else {
        return None;
    };
    let len = head_len + head.size as usize;
    if len > bytes.len() {
        return None;
    }
    let is_search = head.command == CA_PROTO_SEARCH;
    Some(FrontMessage { len, is_search })
}

/// How many bytes the first part of a datagram has: its first messages, as many as have at most `most`
/// searches among them. What follows the last whole message belongs to no part, so 0 bytes are left
/// to be answered where this says 0, unless `most` is 0.
pub fn first_part(datagram: &[u8], most: usize) -> usize
    ensures part { IsFirstPart datagram.now most result }
    ensures within { result ≤ length datagram.now }
{
    let mut len = 0;
    let mut searches = 0;
    while let Some(message) = front_message(&datagram[len..]) {
        if message.is_search {
            if searches == most {
                return len;
            }
            searches += 1;
        }
        len += message.len;
    }
    len
}
