//! How messages are put into a datagram.
ghost use Rattle.std.specs.Prelude.{◌≡◌, ◌++◌, OnOk};
ghost use Rattle.ca_header.specs.Header.{canonical_header, message_text};
ghost use Rattle.pv_search.specs.Version.{version};

use crate::NoMemory;
use ca_header::{Header, write_head};
use ca_message::commands::{CA_PROTO_VERSION, MINOR_VERSION};

/// Adds a message: its header and its payload, of which the header says the size.
pub(crate) fn add_message(text: &mut Vec<u8>, head: &Header, payload: &[u8]) -> Result<(), NoMemory>
    ensures { OnOk result (text.new.items ≡ text.old.items ++ (canonical_header head.now ++ payload.now)) }
{
    text.extend_from_slice(write_head(head).as_slice())?;
    text.extend_from_slice(payload)?;
    Ok(())
}

/// Adds the message that says which version this side speaks. It comes first in a datagram.
pub(crate) fn add_version(text: &mut Vec<u8>) -> Result<(), NoMemory>
    ensures { OnOk result (text.new.items ≡ text.old.items ++ message_text version) }
{
    let head = Header {
        command: CA_PROTO_VERSION,
        dtype: 0,
        p1: 0,
        p2: 0,
        count: MINOR_VERSION,
        size: 0,
    };
    add_message(text, &head, &[])
}
