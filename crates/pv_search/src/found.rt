//! What servers reply to a search.
ghost use Rattle.std.specs.Prelude.{◌≡◌, ℕ, List, IfOk};
ghost use Rattle.pv_search.specs.Picked.{IsPicked};
ghost use Rattle.pv_search.specs.Found.{found_cid};

use crate::NoMemory;
use ca_header::{Frame, Frames, Header};
use ca_message::commands::CA_PROTO_SEARCH;
use std::alloc::Global;

/// The CID that a reply to a search is for, whatever its payload.
fn cid_in(head: &Header) -> Option<u32>
    ensures { (payload : List ℕ) → result ≡ found_cid head.now payload }
{
    if head.command == CA_PROTO_SEARCH {
        Some(head.p2)
    } else {
        None
    }
}

/// The CIDs of the replies in a server's datagram, in order. All other messages are passed over.
pub fn read_found(alloc: Global, datagram: &[u8]) -> Result<Vec<u32>, NoMemory>
    ensures { IfOk result (λ cids. IsPicked found_cid datagram.now cids.items) }
{
    let mut cids = Vec::new(alloc);
    let mut frames = Frames::new(datagram);
    while let Frame::Message(head, _) = frames.next() {
        if let Some(cid) = cid_in(&head) {
            cids.push(cid)?;
        }
    }
    Ok(cids)
}
