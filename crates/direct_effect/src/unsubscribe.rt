//! EVENT_CANCEL.
ghost use Rattle.std.specs.Prelude.{◌≡◌, OnOk, IfOk};
ghost use Rattle.gateway_rows.specs.BrandedState.{Becomes};
ghost use Rattle.gateway_rows.specs.Looked.{Looked, OnlyLooked};
ghost use Rattle.gateway_state.specs.Subscribing.{is_on_sid, sub_of, subscription_cancelled, without_sub};
ghost use Rattle.touched_rows.specs.Touches.{cancel_touches};

use crate::refusals::{refuse_channel, refuse_request};
use ca_header::Header;
use ca_message::codes::ECA_INTERNAL;
use ca_message::{EventCancel, ToClient};
use gateway_rows::{CountedRows, Known};
use std::alloc::AllocError;
use touched_rows::Touched;

/// Whether the session's subscription of an ID is on this channel.
fn is_sub_on(rows: &mut CountedRows, number: u32, id: u32, sid: u32) -> bool
    ensures found { result ≡ is_on_sid sid (sub_of rows.old.state number id) }
    ensures looked { OnlyLooked 1 rows.old rows.new }
{
    match rows.known.clients.sub(&mut rows.visits, number, id) {
        Some(sub) => sub.sid == sid,
        None => false,
    }
}

/// The session's subscription of an ID goes.
fn remove_sub(known: &mut Known, number: u32, id: u32)
    ensures { Becomes (without_sub number id known.old.state) known.old known.new }
{
    known.clients.remove_sub(number, id);
}

/// A client gives up a subscription, which must be on the channel that it names.
pub(crate) fn cancel_subscription(
    rows: &mut CountedRows,
    number: u32,
    cancel: EventCancel,
    head: &Header,
) -> Result<Touched, AllocError>
    ensures ok { OnOk result (rows.new.state ≡ subscription_cancelled number cancel.sid cancel.id cancel.dtype cancel.count head.now rows.old.state) }
    ensures touched { IfOk result (λ touched. touched ≡ cancel_touches rows.old.state number cancel.sid cancel.id) }
    ensures looked { Looked 2 rows.old rows.new }
{
    let EventCancel {
        sid,
        id,
        dtype,
        count,
    } = cancel;
    let Some(channel) = rows.known.channel_of(&mut rows.visits, number, sid) else {
        refuse_channel(&mut rows.known, number, head)?;
        return Ok(Touched::Nothing);
    };
    let cid = channel.cid;
    let name = channel.real.copy()?;
    if !is_sub_on(rows, number, id, sid) {
        refuse_request(&mut rows.known, number, cid, ECA_INTERNAL, head)?;
        return Ok(Touched::Nothing);
    }
    remove_sub(&mut rows.known, number, id);
    let said = ToClient::EventCancelled {
        sid,
        id,
        dtype,
        count,
    };
    rows.known.tell(number, &said)?;
    Ok(Touched::Interest(name))
}
