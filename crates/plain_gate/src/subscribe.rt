//! EVENT_ADD and EVENT_CANCEL.
ghost use Rattle.std.specs.Prelude.{◌≡◌, IfOk, OnOk};
ghost use Rattle.gateway_state.specs.Rights.{channel_of};
ghost use Rattle.gateway_state.specs.Subscribing.{is_on_sid, new_sub, short_subscription, sub_of, sub_verdict, subscription_asked, subscription_cancelled, subscription_refusal};
ghost use Rattle.gateway_state.specs.Updates.{is_unreadable};

use ca_header::Header;
use ca_message::codes::{ECA_ALLOCMEM, ECA_BADMASK, ECA_INTERNAL};
use ca_message::commands::NO_CHANNEL;
use ca_message::{EventAdd, EventCancel, ToClient};
use channel_table::ClientSub;
use gateway_state::{Native, SERVED_EVENTS, SubVerdict};
use gateway_values::{may_read, value_refusal};
use plain_rows::clients::{SubAt, SubsOf};
use plain_rows::lists::{count, find, remove};
use plain_rows::state::PlainRows;
use std::alloc::AllocError;

/// A new subscription, which is owed an update.
pub(crate) fn new_sub(session: u32, add: EventAdd) -> ClientSub
    ensures { result ≡ new_sub session add.sid add.id add.dtype add.count add.mask }
{
    ClientSub {
        session,
        id: add.id,
        sid: add.sid,
        dtype: add.dtype,
        count: add.count,
        mask: add.mask,
        owed: true,
    }
}

/// Why a subscription is refused, the first reason that applies.
fn subscription_refusal(rows: &PlainRows, sub: ClientSub, native: Native) -> Option<u32>
    ensures { result ≡ subscription_refusal rows.now sub native }
{
    let same = SubAt {
        session: sub.session,
        id: sub.id,
    };
    if find(&rows.subs, same).is_some() {
        return Some(ECA_INTERNAL);
    }
    let its = SubsOf {
        session: sub.session,
    };
    if let Some(code) = value_refusal(native, sub.dtype, sub.count) {
        return Some(code);
    }
    if sub.mask & SERVED_EVENTS == 0 {
        Some(ECA_BADMASK)
    } else if count(&rows.subs, its) >= rows.limits.subs {
        Some(ECA_ALLOCMEM)
    } else {
        None
    }
}

/// What becomes of an EVENT_ADD.
fn sub_verdict(rows: &PlainRows, sub: ClientSub) -> SubVerdict
    ensures { result ≡ sub_verdict rows.now sub }
{
    let Some(channel) = rows.channel_of(sub.session, sub.sid) else {
        return SubVerdict::NoChannel;
    };
    let Some(variable) = rows.connected(&channel.real) else {
        return SubVerdict::Ignored;
    };
    let cid = channel.cid;
    match subscription_refusal(rows, sub, variable.native) {
        None => SubVerdict::Accepted,
        Some(code) => SubVerdict::Refused { cid, code },
    }
}

/// Whether a subscription's channel may not be read.
fn is_unreadable(rows: &PlainRows, sub: ClientSub) -> Result<bool, AllocError>
    ensures { IfOk result (λ bars. bars ≡ is_unreadable rows.now (channel_of rows.now sub.session sub.sid)) }
{
    match rows.channel_of(sub.session, sub.sid) {
        Some(channel) => Ok(!may_read(rows.rights_of(channel)?)),
        None => Ok(false),
    }
}

/// A client wants updates.
pub(crate) fn subscribe_client(
    rows: &mut PlainRows,
    sub: ClientSub,
    head: &Header,
) -> Result<(), AllocError>
    ensures { OnOk result (rows.new ≡ subscription_asked sub head.now rows.old) }
{
    match sub_verdict(rows, sub) {
        SubVerdict::NoChannel => rows.refuse_channel(sub.session, head),
        SubVerdict::Ignored => Ok(()),
        SubVerdict::Refused { cid, code } => rows.refuse(sub.session, cid, code, head),
        SubVerdict::Accepted => {
            rows.subs.push(sub)?;
            if rows.limits.tells_unreadable && is_unreadable(rows, sub)? {
                rows.tell_unreadable(&sub)?;
            }
            Ok(())
        }
    }
}

/// An EVENT_ADD without all of its fields: the ERROR says which channel it names.
pub(crate) fn refuse_short(
    rows: &mut PlainRows,
    number: u32,
    head: &Header,
) -> Result<(), AllocError>
    ensures { OnOk result (rows.new ≡ short_subscription rows.old number head.now) }
{
    let cid = match rows.channel_of(number, head.p1) {
        Some(channel) => channel.cid,
        None => NO_CHANNEL,
    };
    rows.refuse(number, cid, ECA_INTERNAL, head)
}

/// Whether the session's subscription of an ID is on this channel.
fn is_sub_on(rows: &PlainRows, number: u32, id: u32, sid: u32) -> bool
    ensures { result ≡ is_on_sid sid (sub_of rows.now number id) }
{
    match find(
        &rows.subs,
        SubAt {
            session: number,
            id,
        },
    ) {
        Some(sub) => sub.sid == sid,
        None => false,
    }
}

/// A client gives up a subscription, which must be on the channel that it names.
pub(crate) fn cancel_subscription(
    rows: &mut PlainRows,
    number: u32,
    cancel: EventCancel,
    head: &Header,
) -> Result<(), AllocError>
    ensures { OnOk result (rows.new ≡ subscription_cancelled number cancel.sid cancel.id cancel.dtype cancel.count head.now rows.old) }
{
    let EventCancel {
        sid,
        id,
        dtype,
        count,
    } = cancel;
    let Some(channel) = rows.channel_of(number, sid) else {
        return rows.refuse_channel(number, head);
    };
    let cid = channel.cid;
    if !is_sub_on(rows, number, id, sid) {
        return rows.refuse(number, cid, ECA_INTERNAL, head);
    }
    remove(
        &mut rows.subs,
        SubAt {
            session: number,
            id,
        },
    );
    let said = ToClient::EventCancelled {
        sid,
        id,
        dtype,
        count,
    };
    rows.tell(number, said)
}
