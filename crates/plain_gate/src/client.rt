//! What a client's message does by itself.
ghost use Rattle.std.specs.Prelude.{◌≡◌, true, Ok, IsErrOf, OnOk};
ghost use Rattle.gateway_state.specs.Clients.{channel_cleared, client_named, host_named, versioned};
ghost use Rattle.gateway_state.specs.Numbers.{is_past_numbers};
ghost use Rattle.gateway_state.specs.Requests.{client_said, requested, unreadable};
ghost use Rattle.gateway_state.specs.Telling.{told};

use crate::create_channel::{create_channel, fail_creation};
use crate::read::hear_read;
use crate::search::{hear_search, search_in};
use crate::subscribe::{cancel_subscription, new_sub, refuse_short, subscribe_client};
use crate::write::{hear_write, hear_write_notify};
use ca_header::{Header, Message};
use ca_message::codes::ECA_INTERNAL;
use ca_message::commands::{
    CA_PROTO_CLIENT_NAME, CA_PROTO_CREATE_CHAN, CA_PROTO_EVENT_ADD, CA_PROTO_HOST_NAME, NO_CHANNEL,
};
use ca_message::{ClearChannel, ClientRequest, HostText, NameText, ToClient, read_request};
use channel_table::User;
use gateway_state::{Dest, LOWEST_MINOR};
use plain_rows::clients::{fix_host, name_host, name_user, pause};
use plain_rows::connections::mark;
use plain_rows::numbers::PlainRefusal;
use plain_rows::state::PlainRows;
use std::alloc::AllocError;

/// A client sent a message.
pub(crate) fn hear_client(
    rows: &mut PlainRows,
    number: u32,
    message: Message,
) -> Result<(), PlainRefusal>
    ensures ok { OnOk result (rows.new ≡ client_said rows.old number message) }
    ensures used_up { IsErrOf result PlainRefusal.NumbersUsedUp → is_past_numbers (client_said rows.old number message) ≡ true }
{
    if let Some(search) = search_in(rows, &message) {
        return Ok(hear_search(rows, number, &search)?);
    }
    match read_request(&message.head, &message.payload) {
        Ok(request) => hear_request(rows, number, request, &message),
        Err(_) => Ok(hear_unreadable(rows, number, &message.head)?),
    }
}

/// A client asked for something.
fn hear_request(
    rows: &mut PlainRows,
    number: u32,
    request: ClientRequest<'_>,
    message: &Message,
) -> Result<(), PlainRefusal>
    ensures ok { OnOk result (rows.new ≡ requested rows.old number message.now (Ok request.entry)) }
    ensures used_up { IsErrOf result PlainRefusal.NumbersUsedUp → is_past_numbers (requested rows.old number message.now (Ok request.entry)) ≡ true }
{
    let head = &message.head;
    match request {
        ClientRequest::Version { minor } => hear_version(rows, number, minor),
        ClientRequest::EventAdd(add) => subscribe_client(rows, new_sub(number, add), head)?,
        ClientRequest::EventCancel(cancel) => cancel_subscription(rows, number, cancel, head)?,
        ClientRequest::Write(write) => hear_write(rows, number, &write, head)?,
        ClientRequest::EventsOff => pause(&mut rows.sessions, number, true),
        ClientRequest::EventsOn => pause(&mut rows.sessions, number, false),
        ClientRequest::ClearChannel(clear) => clear_channel(rows, number, clear, head)?,
        ClientRequest::ReadNotify(read) => hear_read(rows, number, read, head)?,
        ClientRequest::CreateChannel(create) => create_channel(rows, number, &create)?,
        ClientRequest::WriteNotify(write) => hear_write_notify(rows, number, &write, head)?,
        ClientRequest::ClientName(name) => hear_client_name(rows, number, &name)?,
        ClientRequest::HostName(host) => hear_host_name(rows, number, &host)?,
        ClientRequest::Echo => echo(rows, number, message)?,
    }
    Ok(())
}

/// A client gets its own message back.
fn echo(rows: &mut PlainRows, number: u32, message: &Message) -> Result<(), AllocError>
    ensures { OnOk result (rows.new ≡ told number (ToClient.Echo message.now) rows.old) }
{
    let payload = message.payload.slice(..)?;
    let said = ToClient::Echo(Message {
        head: message.head,
        payload,
    });
    rows.tell(number, said)
}

/// A client said which minor version it speaks.
fn hear_version(rows: &mut PlainRows, number: u32, minor: u32)
    ensures { rows.new ≡ versioned rows.old number minor }
{
    if minor < LOWEST_MINOR {
        mark(&mut rows.connections, Dest::Session(number));
    }
}

/// A client said who uses it.
fn hear_client_name(
    rows: &mut PlainRows,
    number: u32,
    name: &NameText<'_>,
) -> Result<(), AllocError>
    ensures { OnOk result (rows.new ≡ client_named number name.now rows.old) }
{
    let user = User::new(rows.alloc, name.as_slice())?;
    name_user(&mut rows.sessions, number, user);
    Ok(())
}

/// A client said where it is.
fn hear_host_name(rows: &mut PlainRows, number: u32, host: &HostText<'_>) -> Result<(), AllocError>
    ensures { OnOk result (rows.new ≡ host_named number host.now rows.old) }
{
    let host = host.to_host(rows.alloc)?;
    name_host(&mut rows.sessions, number, host, rows.limits.checks_hosts);
    Ok(())
}

/// A client gives up a channel.
fn clear_channel(
    rows: &mut PlainRows,
    number: u32,
    clear: ClearChannel,
    head: &Header,
) -> Result<(), AllocError>
    ensures { OnOk result (rows.new ≡ channel_cleared number clear.sid clear.cid head.now rows.old) }
{
    let ClearChannel { sid, cid } = clear;
    if rows.channel_of(number, sid).is_none() {
        return rows.refuse_channel(number, head);
    }
    rows.remove_channel(number, sid);
    rows.tell(number, ToClient::ClearChannel { sid, cid })
}

/// A message that is no request: texts that can't be read are ignored, but a CREATE_CHAN fails;
/// a short EVENT_ADD is refused over its channel.
fn hear_unreadable(rows: &mut PlainRows, number: u32, head: &Header) -> Result<(), AllocError>
    ensures { OnOk result (rows.new ≡ unreadable rows.old number head.now) }
{
    if head.command == CA_PROTO_CREATE_CHAN {
        fix_host(&mut rows.sessions, number);
        fail_creation(rows, number, head.p1)
    } else if head.command == CA_PROTO_CLIENT_NAME || head.command == CA_PROTO_HOST_NAME {
        Ok(())
    } else if head.command == CA_PROTO_EVENT_ADD {
        refuse_short(rows, number, head)
    } else {
        rows.refuse(number, NO_CHANNEL, ECA_INTERNAL, head)
    }
}
