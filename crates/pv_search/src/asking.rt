//! How a name is searched for.
ghost use Rattle.std.specs.Prelude.{◌≡◌, ◌++◌, length, IfOk, OnOk};
ghost use Rattle.ca_header.specs.Header.{message_text};
ghost use Rattle.ca_message.specs.Padding.{nul_ended};
ghost use Rattle.ca_message.specs.Wire.{size_field};
ghost use Rattle.pv_search.specs.Ask.{ask, ask_text};

use crate::NoMemory;
use crate::message::{add_message, add_version};
use ca_header::{Header, pad8};
use ca_message::commands::{CA_PROTO_SEARCH, MINOR_VERSION};
use pv_name::Name;
use std::alloc::Global;

/// The type of a search that only a server with the name replies to.
pub const DONT_REPLY: u16 = 5;

/// A datagram that asks servers for the name: who has it replies to `cid`.
pub fn ask_text(alloc: Global, name: &Name, cid: u32) -> Result<Vec<u8>, NoMemory>
    ensures { IfOk result (λ text. text.items ≡ ask_text name.now cid) }
{
    let mut text = Vec::new(alloc);
    add_version(&mut text)?;
    add_ask(alloc, &mut text, name, cid)?;
    Ok(text)
}

/// Adds the search for the name.
pub(crate) fn add_ask(
    alloc: Global,
    text: &mut Vec<u8>,
    name: &Name,
    cid: u32,
) -> Result<(), NoMemory>
    ensures { OnOk result (text.new.items ≡ text.old.items ++ message_text (ask name.now cid)) }
{
    let payload = nul_ended(alloc, name)?;
    let head = Header {
        command: CA_PROTO_SEARCH,
        dtype: DONT_REPLY,
        p1: cid,
        p2: cid,
        count: MINOR_VERSION,
        size: padded_size(name),
    };
    add_message(text, &head, &payload)
}

/// The name, a NUL and padding.
#[tactic(auto, using(ca_message::proofs::NulEnded::filled_up))]
fn nul_ended(alloc: Global, name: &Name) -> Result<Vec<u8>, NoMemory>
    ensures { IfOk result (λ payload. payload.items ≡ nul_ended name.now) }
{
    let size = padded_size(name) as usize;
    let mut payload = Vec::with_capacity(alloc, size)?;
    payload.extend_from_slice(name.text().as_bytes())?;
    // The NUL and the padding are zero bytes alike.
    payload.resize(size, 0)?;
    Ok(payload)
}

/// How many bytes that has.
fn padded_size(name: &Name) -> u32
    ensures bytes { result ≡ length (nul_ended name.now) }
    ensures field { result ≡ size_field (nul_ended name.now) }
{
    let len = name.text().len() + 1;
    pad8(len as u32)
}
