//! What clients ask for.
ghost use Rattle.std.specs.Prelude.{◌≡◌, true, Ok, OnOk, IfOk, IsErrOf};
ghost use Rattle.gateway_rows.specs.BrandedState.{Becomes};
ghost use Rattle.gateway_rows.specs.Looked.{Looked};
ghost use Rattle.gateway_state.specs.Numbers.{is_past_numbers};
ghost use Rattle.gateway_state.specs.Clients.{versioned};
ghost use Rattle.gateway_state.specs.Requests.{client_said, requested, unreadable};
ghost use Rattle.gateway_state.specs.Settled.{HasSidsApart, HasWriteIdsApart};
ghost use Rattle.gateway_state.specs.Telling.{told};
ghost use Rattle.gateway_state.specs.Told.{KnowRights};
ghost use Rattle.touched_rows.specs.declared.touched.Touched.TheVariants.{Nothing};
ghost use Rattle.touched_rows.specs.Touches.{client_touches, request_touches, with_touched};

use crate::clear_channel::clear_channel;
use crate::client_name::hear_client_name;
use crate::create_channel::{create_channel, fail_creation};
use crate::host_name::{fix_host, hear_host_name};
use crate::pause::{pause, resume};
use crate::read::{hear_read, new_read};
use crate::refusals::{refuse_short_subscription, refuse_unknown};
use crate::search::{hear_search, search_in};
use crate::subscribe::{new_sub, subscribe_client};
use crate::unsubscribe::cancel_subscription;
use crate::write::{hear_write, hear_write_notify};
use ca_header::{Header, Message};
use ca_message::commands::{
    CA_PROTO_CLIENT_NAME, CA_PROTO_CREATE_CHAN, CA_PROTO_EVENT_ADD, CA_PROTO_HOST_NAME,
};
use ca_message::{ClientRequest, ToClient, read_message};
use gateway_rows::{CountedRows, Known, RowsRefusal};
use gateway_state::{Dest, LOWEST_MINOR};
use std::alloc::AllocError;
use touched_rows::Touched;

/// A client sent a message. A read that is touched isn't kept yet.
#[tactic(auto, using(touched_rows::proofs::KeptLate::seek_keeps_none))]
pub fn hear_client(
    rows: &mut CountedRows,
    number: u32,
    message: Message,
) -> Result<Touched, RowsRefusal>
    requires order { HasSidsApart rows.old.state }
    requires ids { HasWriteIdsApart rows.old.state }
    requires told { KnowRights rows.old.state }
    ensures ok { IfOk result (λ touched. with_touched touched rows.new.state ≡ client_said rows.old.state number message) }
    ensures touched { IfOk result (λ touched. touched ≡ client_touches rows.old.state number message) }
    ensures used_up { IsErrOf result RowsRefusal.NumbersUsedUp → is_past_numbers (client_said rows.old.state number message) ≡ true }
    ensures looked { Looked 4 rows.old rows.new }
{
    if let Some(search) = search_in(&rows.known, &message) {
        return Ok(hear_search(rows, number, &search)?);
    }
    match read_message(&message) {
        Ok(request) => hear_request(rows, number, request, &message),
        Err(_) => {
            hear_unreadable(rows, number, &message.head)?;
            Ok(Touched::Nothing)
        }
    }
}

/// A client asked for something.
#[tactic(auto, using(touched_rows::proofs::KeptLate::sub_keeps_none, touched_rows::proofs::KeptLate::cancel_keeps_none, touched_rows::proofs::KeptLate::clear_keeps_none, touched_rows::proofs::KeptLate::create_keeps_none))]
fn hear_request(
    rows: &mut CountedRows,
    number: u32,
    request: ClientRequest<'_>,
    message: &Message,
) -> Result<Touched, RowsRefusal>
    requires order { HasSidsApart rows.old.state }
    requires ids { HasWriteIdsApart rows.old.state }
    requires told { KnowRights rows.old.state }
    ensures ok { IfOk result (λ touched. with_touched touched rows.new.state ≡ requested rows.old.state number message.now (Ok request.entry)) }
    ensures touched { IfOk result (λ touched. touched ≡ request_touches rows.old.state number (Ok request.entry)) }
    ensures used_up { IsErrOf result RowsRefusal.NumbersUsedUp → is_past_numbers (requested rows.old.state number message.now (Ok request.entry)) ≡ true }
    ensures looked { Looked 4 rows.old rows.new }
{
    let head = &message.head;
    Ok(match request {
        ClientRequest::Version { minor } => hear_version(&mut rows.known, number, minor),
        ClientRequest::EventAdd(add) => subscribe_client(rows, new_sub(number, add), head)?,
        ClientRequest::EventCancel(cancel) => cancel_subscription(rows, number, cancel, head)?,
        ClientRequest::Write(write) => hear_write(rows, number, &write, head)?,
        ClientRequest::EventsOff => pause(rows, number)?,
        ClientRequest::EventsOn => resume(rows, number)?,
        ClientRequest::ClearChannel(clear) => clear_channel(rows, number, clear, head)?,
        ClientRequest::ReadNotify(read) => hear_read(rows, new_read(number, read), head)?,
        ClientRequest::CreateChannel(create) => create_channel(rows, number, &create)?,
        ClientRequest::WriteNotify(write) => hear_write_notify(rows, number, &write, head)?,
        ClientRequest::ClientName(name) => hear_client_name(rows, number, &name)?,
        ClientRequest::HostName(host) => hear_host_name(rows, number, &host)?,
        ClientRequest::Echo => echo(&mut rows.known, number, message)?,
    })
}

/// A client gets its own message back.
fn echo(known: &mut Known, number: u32, message: &Message) -> Result<Touched, AllocError>
    ensures ok { OnOk result (known.new.state ≡ told number (ToClient.Echo message.now) known.old.state) }
    ensures touched { IfOk result (λ touched. touched ≡ Nothing) }
    ensures brand { known.new.brand ≡ known.old.brand }
{
    let payload = message.payload.slice(..)?;
    let said = ToClient::Echo(Message {
        head: message.head,
        payload,
    });
    known.tell(number, &said)?;
    Ok(Touched::Nothing)
}

/// A client said which minor version it speaks.
fn hear_version(known: &mut Known, number: u32, minor: u32) -> Touched
    ensures heard { Becomes (versioned known.old.state number minor) known.old known.new }
    ensures touched { result ≡ Nothing }
{
    if minor < LOWEST_MINOR {
        known.mark(Dest::Session(number));
    }
    Touched::Nothing
}

/// A message that is no request: texts that can't be read are ignored, but a CREATE_CHAN fails;
/// a short EVENT_ADD is refused over its channel.
fn hear_unreadable(rows: &mut CountedRows, number: u32, head: &Header) -> Result<(), AllocError>
    ensures ok { OnOk result (rows.new.state ≡ unreadable rows.old.state number head.now) }
    ensures looked { Looked 2 rows.old rows.new }
{
    if head.command == CA_PROTO_CREATE_CHAN {
        fix_host(rows, number)?;
        fail_creation(&mut rows.known, number, head.p1)
    } else if head.command == CA_PROTO_CLIENT_NAME || head.command == CA_PROTO_HOST_NAME {
        Ok(())
    } else if head.command == CA_PROTO_EVENT_ADD {
        refuse_short_subscription(rows, number, head)
    } else {
        refuse_unknown(&mut rows.known, number, head)
    }
}
