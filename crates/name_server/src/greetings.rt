//! What is said to a name server.
ghost use Rattle.std.specs.Prelude.{◌≡◌, ℕ, List, ◌++◌, IfOk, OnOk};
ghost use Rattle.ca_header.specs.Header.{canonical_header, message_text};
ghost use Rattle.ca_message.specs.ToServer.{server_message};
ghost use Rattle.name_server.specs.Greeting.{echo_text, greeting_text};
ghost use Rattle.pv_search.specs.Version.{version};

use crate::NoMemory;
use ca_header::{HeadBytes, Header, PLAIN_LEN, write_head};
use ca_message::{NameText, ToServer};
use pv_name::Name;
use std::alloc::Global;

/// What comes first: the version that the gateway speaks, and what its user and its host are called.
pub fn greeting(alloc: Global, user: &Name, host: &Name) -> Result<Vec<u8>, NoMemory>
    ensures { IfOk result (λ text. text.items ≡ greeting_text user.now host.now) }
{
    let mut text = Vec::new(alloc);
    add(alloc, &mut text, &ToServer::Version)?;
    add(
        alloc,
        &mut text,
        &ToServer::ClientName(NameText::from(user)),
    )?;
    add(alloc, &mut text, &ToServer::HostName(NameText::from(host)))?;
    Ok(text)
}

fn add(alloc: Global, text: &mut Vec<u8>, message: &ToServer<'_>) -> Result<(), NoMemory>
    ensures { OnOk result (text.new.items ≡ text.old.items ++ message_text (server_message message.now)) }
{
    let payload = message.payload(alloc)?;
    add_parts(text, &message.head(), payload.as_slice())
}

fn add_parts(text: &mut Vec<u8>, head: &Header, payload: &[u8]) -> Result<(), NoMemory>
    ensures { OnOk result (text.new.items ≡ text.old.items ++ (canonical_header head.now ++ payload.now)) }
{
    text.extend_from_slice(write_head(head).as_slice())?;
    text.extend_from_slice(payload)?;
    Ok(())
}

/// What asks a name server whether it is there; it answers with the same.
pub fn echo() -> HeadBytes
    ensures { result ≡ echo_text }
{
    write_head(&ToServer::Echo.head())
}

/// The searches of a datagram that asks. The version in front of them was told already.
pub fn searches_in(datagram: &[u8]) -> &[u8]
    ensures { (searches : List ℕ) → datagram.now ≡ message_text version ++ searches → result.now ≡ searches }
{
    datagram.get(PLAIN_LEN..).unwrap_or(&[])
}
