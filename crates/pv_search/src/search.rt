//! What a client searches for.
ghost use Rattle.std.specs.Prelude.{◌≡◌, IfOk};
ghost use Rattle.pv_search.specs.Picked.{IsPicked};
ghost use Rattle.pv_search.specs.Search.{search_of};

use crate::NoMemory;
use ca_header::{Frame, Frames, Header};
use ca_message::NameText;
use ca_message::commands::CA_PROTO_SEARCH;
use std::alloc::Global;

/// A client's search for a name, which it calls `cid`. The name is a slice of the message's payload.
#[derive(Drop)]
pub struct SearchRequest<'a> {
    pub cid: u32,
    pub name: NameText<'a>,
}

/// The search that a client's message is; `None` of another message, and where its name can't be read. Neither
/// its type nor its count is looked at. It takes no memory.
pub fn read_search<'a>(head: &Header, payload: &'a [u8]) -> Option<SearchRequest<'a>>
    ensures { result ≡ search_of head.now payload.now }
{
    if head.command != CA_PROTO_SEARCH {
        return None;
    }
    match NameText::read(payload) {
        Ok(name) => Some(SearchRequest { cid: head.p1, name }),
        Err(_) => None,
    }
}

/// The searches of a datagram, in order. All other messages are passed over, and so is a search
/// whose name can't be read.
pub(crate) fn searches_in<'a>(
    alloc: Global,
    datagram: &'a [u8],
) -> Result<Vec<SearchRequest<'a>>, NoMemory>
    ensures { IfOk result (λ searches. IsPicked search_of datagram.now searches.items) }
{
    let mut searches = Vec::new(alloc);
    let mut frames = Frames::new(datagram);
    while let Frame::Message(head, payload) = frames.next() {
        if let Some(search) = read_search(&head, payload) {
            searches.push(search)?;
        }
    }
    Ok(searches)
}
