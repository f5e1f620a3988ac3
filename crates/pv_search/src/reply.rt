//! How searches are replied to.
ghost use Rattle.std.specs.Prelude.{◌≡◌, ◌++◌, OnOk, IfOk};
ghost use Rattle.ca_header.specs.Header.{message_text};
ghost use Rattle.pv_search.specs.Reply.{found, search_reply};

use crate::NoMemory;
use crate::message::{add_message, add_version};
use ca_header::Header;
use ca_message::commands::{CA_PROTO_SEARCH, MINOR_VERSION, SENDER_ADDRESS};
use std::alloc::Global;

/// The datagram that says of each CID that its name is served at the TCP port. Where there is none,
/// nothing is said.
pub(crate) fn search_reply(alloc: Global, port: u16, cids: &[u32]) -> Result<Vec<u8>, NoMemory>
    ensures { IfOk result (λ reply. reply.items ≡ search_reply port cids.now) }
{
    let mut reply = Vec::new(alloc);
    if cids.is_empty() {
        return Ok(reply);
    }
    add_version(&mut reply)?;
    for cid in cids {
        add_found(&mut reply, port, *cid)?;
    }
    Ok(reply)
}

fn add_found(reply: &mut Vec<u8>, port: u16, cid: u32) -> Result<(), NoMemory>
    ensures { OnOk result (reply.new.items ≡ reply.old.items ++ message_text (found port cid)) }
{
    let minor = (MINOR_VERSION as u16).to_be_bytes();
    let payload = [minor[0], minor[1], 0, 0, 0, 0, 0, 0];
    let head = Header {
        command: CA_PROTO_SEARCH,
        dtype: port,
        p1: SENDER_ADDRESS,
        p2: cid,
        count: 0,
        size: 8,
    };
    add_message(reply, &head, &payload)
}
