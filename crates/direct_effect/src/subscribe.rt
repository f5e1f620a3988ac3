//! EVENT_ADD.
ghost use Rattle.std.specs.Prelude.{◌≡◌, false, OnOk, IfOk};
ghost use Rattle.channel_table.specs.ClientRows.{has_sub};
ghost use Rattle.gateway_rows.specs.Looked.{Looked, OnlyLooked};
ghost use Rattle.gateway_state.specs.Subscribing.{new_sub, subscription_asked, subscription_limit, subscription_refusal, with_sub};
ghost use Rattle.gateway_state.specs.Told.{KnowRights};
ghost use Rattle.touched_rows.specs.Touches.{sub_touches};

use crate::refusals::{refuse_channel, refuse_request};
use ca_header::Header;
use ca_message::EventAdd;
use ca_message::codes::{ECA_ALLOCMEM, ECA_BADMASK, ECA_INTERNAL};
use channel_table::{ClientSub, TableFault};
use gateway_rows::{CountedRows, Known};
use gateway_state::{Native, RowLimit, SERVED_EVENTS};
use gateway_values::{may_read, value_refusal};
use std::alloc::AllocError;
use touched_rows::Touched;

/// A new subscription, which is owed an update.
pub(crate) fn new_sub(session: u32, add: EventAdd) -> ClientSub
    ensures { result ≡ new_sub session add.sid add.id add.dtype add.count add.mask }
{
    ClientSub {
        session,
        id: add.id,
        sid: add.sid,
        dtype: add.dtype,
        count: add.count,
        mask: add.mask,
        owed: true,
    }
}

/// Why a subscription is refused though its updates could be had.
fn subscription_limit(known: &Known, number: u32, mask: u16) -> Option<u32>
    ensures { result ≡ subscription_limit known.now.state number mask }
{
    if mask & SERVED_EVENTS == 0 {
        Some(ECA_BADMASK)
    } else if known.clients.sub_count(number) >= known.limits.subs {
        Some(ECA_ALLOCMEM)
    } else {
        None
    }
}

/// Why a subscription is refused, the first reason that applies.
fn subscription_refusal(rows: &mut CountedRows, sub: ClientSub, native: Native) -> Option<u32>
    ensures found { result ≡ subscription_refusal rows.old.state sub native }
    ensures looked { OnlyLooked 1 rows.old rows.new }
{
    let ClientSub { session, id, .. } = sub;
    let present = rows.known.clients.sub(&mut rows.visits, session, id);
    if present.is_some() {
        return Some(ECA_INTERNAL);
    }
    match value_refusal(native, sub.dtype, sub.count) {
        Some(code) => Some(code),
        None => subscription_limit(&rows.known, session, sub.mask),
    }
}

/// Adds a subscription that is new. One that the table doesn't take is refused as for want of memory.
fn add_sub(known: &mut Known, sub: ClientSub) -> Result<(), AllocError>
    requires new { has_sub sub.session sub.id known.old.state.clients ≡ false }
    ensures ok { OnOk result (known.new.state ≡ with_sub sub known.old.state) }
    ensures brand { known.new.brand ≡ known.old.brand }
{
    match known.clients.add_sub_within(known.limits.subs, sub) {
        Ok(()) => Ok(()),
        Err(TableFault::OutOfMemory | TableFault::Missing | TableFault::Full) => Err(AllocError),
    }
}

/// A client wants updates. Its channel is looked up once, and so is the variable that this is on.
#[tactic(auto, using(gateway_state::proofs::KeptByClients::accepted_is_new))]
pub(crate) fn subscribe_client(
    rows: &mut CountedRows,
    sub: ClientSub,
    head: &Header,
) -> Result<Touched, AllocError>
    requires told { KnowRights rows.old.state }
    ensures ok { OnOk result (rows.new.state ≡ subscription_asked sub head.now rows.old.state) }
    ensures touched { IfOk result (λ touched. touched ≡ sub_touches rows.old.state sub) }
    ensures looked { Looked 4 rows.old rows.new }
{
    let ClientSub { session, sid, .. } = sub;
    let (name, cid, rights) = match rows.known.told_channel(&mut rows.visits, session, sid) {
        Some(channel) => (channel.real.copy()?, channel.cid, channel.rights_told),
        None => {
            refuse_channel(&mut rows.known, session, head)?;
            return Ok(Touched::Nothing);
        }
    };
    let native = match rows.known.connected(&name) {
        Some(variable) => variable.native,
        None => return Ok(Touched::Nothing),
    };
    if let Some(code) = subscription_refusal(rows, sub, native) {
        if code == ECA_ALLOCMEM {
            rows.known.meet(RowLimit::Subs);
        }
        refuse_request(&mut rows.known, session, cid, code, head)?;
        return Ok(Touched::Nothing);
    }
    add_sub(&mut rows.known, sub)?;
    if rows.known.limits.tells_unreadable && !may_read(rights) {
        rows.known.tell_unreadable(&sub)?;
    }
    Ok(Touched::Subscription(name, sub))
}
