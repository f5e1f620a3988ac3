//! WRITE and WRITE_NOTIFY.
ghost use Rattle.std.specs.Prelude.{◌≡◌, true, Some, OnOk, IfOk, IsErrOf};
ghost use Rattle.gateway_rows.specs.Looked.{Looked, OnlyLooked};
ghost use Rattle.gateway_state.specs.Gateway.{Gateway};
ghost use Rattle.gateway_state.specs.Numbers.{is_past_numbers};
ghost use Rattle.gateway_state.specs.Settled.{HasWriteIdsApart};
ghost use Rattle.gateway_state.specs.Told.{KnowRights, KnowsRights};
ghost use Rattle.gateway_state.specs.Writing.{new_write, next_write_id, with_write, write_answered, write_asked, write_handed_on, write_judged, write_notify_asked, write_verdict, write_verdict_over};
ghost use Rattle.touched_rows.specs.declared.touched.Touched.TheVariants.{Nothing};

use crate::refusals::{refuse_channel, refuse_request};
use ca_header::Header;
use ca_message::codes::{ECA_NOWTACCESS, ECA_PUTFAIL};
use ca_message::{ToClient, ToServer, ValueBytes, Write, WriteFault, WriteNotify, WrittenValue};
use channel_table::Channel;
use gateway_rows::{CountedRows, Known, RowsRefusal};
use gateway_state::{RowLimit, WriteVerdict};
use gateway_values::{ConnectedVariable, may_write};
use link_table::WaitingWrite;
use std::alloc::AllocError;
use touched_rows::Touched;

/// What a client writes: to which of its channels, and which type and how many elements it says.
#[derive(Clone, Copy, Debug, PartialEq, Eq)]
struct ClientWrite {
    session: u32,
    sid: u32,
    dtype: u16,
    count: u32,
}

/// A value that isn't fit to be handed on is refused first, then a write without the right.
fn judge<'a>(
    channel: &Channel,
    server: u32,
    sid: u32,
    value: Result<WrittenValue<'a>, WriteFault>,
) -> WriteVerdict<'a>
    ensures { (w : Gateway) → KnowsRights w channel.now → result ≡ write_judged w channel.now server sid value.entry }
{
    let cid = channel.cid;
    match value {
        Err(fault) => WriteVerdict::Refused {
            cid,
            code: fault.code(),
        },
        Ok(value) if may_write(channel.rights_told) => WriteVerdict::Accepted {
            server,
            sid,
            value,
        },
        Ok(_) => WriteVerdict::Refused {
            cid,
            code: ECA_NOWTACCESS,
        },
    }
}

/// What becomes of a write where the channel's variable is connected.
fn write_verdict_over<'a>(
    channel: &Channel,
    variable: &ConnectedVariable<'_>,
    write: ClientWrite,
    payload: &ValueBytes<'a>,
) -> WriteVerdict<'a>
    ensures { (w : Gateway) → KnowsRights w channel.now → result ≡ write_verdict_over w channel.now write.dtype write.count payload.now (Some variable.now) }
{
    let value = WrittenValue::of(write.dtype, write.count, variable.native.count, payload);
    judge(channel, variable.link.server, variable.sid, value)
}

/// What becomes of a write.
fn write_verdict<'a>(
    rows: &mut CountedRows,
    write: ClientWrite,
    payload: &ValueBytes<'a>,
) -> WriteVerdict<'a>
    requires told { KnowRights rows.old.state }
    ensures found { result ≡ write_verdict rows.old.state write.session write.sid write.dtype write.count payload.now }
    ensures looked { OnlyLooked 1 rows.old rows.new }
{
    let ClientWrite { session, sid, .. } = write;
    let Some(channel) = rows.known.told_channel(&mut rows.visits, session, sid) else {
        return WriteVerdict::NoChannel;
    };
    match rows.known.connected(&channel.real) {
        Some(variable) => write_verdict_over(channel, &variable, write, payload),
        None => WriteVerdict::Ignored,
    }
}

/// A client writes a value, and wants no reply.
pub(crate) fn hear_write(
    rows: &mut CountedRows,
    number: u32,
    write: &Write<'_>,
    head: &Header,
) -> Result<Touched, AllocError>
    requires told { KnowRights rows.old.state }
    ensures ok { OnOk result (rows.new.state ≡ write_asked number write.now.sid write.now.dtype write.now.count write.now.value head.now rows.old.state) }
    ensures touched { IfOk result (λ touched. touched ≡ Nothing) }
    ensures looked { Looked 1 rows.old rows.new }
{
    let its = ClientWrite {
        session: number,
        sid: write.sid,
        dtype: write.dtype,
        count: write.count,
    };
    match write_verdict(rows, its, &write.value) {
        WriteVerdict::NoChannel => refuse_channel(&mut rows.known, number, head)?,
        WriteVerdict::Ignored => {}
        WriteVerdict::Refused { cid, code } => {
            refuse_request(&mut rows.known, number, cid, code, head)?;
        }
        WriteVerdict::Accepted { server, sid, value } => {
            rows.known.ask(server, &ToServer::Write { sid, value })?;
        }
    }
    Ok(Touched::Nothing)
}

/// The client is told how its write ended.
fn answer_write(
    known: &mut Known,
    write: ClientWrite,
    ioid: u32,
    status: u32,
) -> Result<(), AllocError>
    ensures ok { OnOk result (known.new.state ≡ write_answered write.session ioid write.dtype write.count status known.old.state) }
    ensures brand { known.new.brand ≡ known.old.brand }
{
    let said = ToClient::WriteNotify {
        ioid,
        dtype: write.dtype,
        count: write.count,
        status,
    };
    known.tell(write.session, &said)
}

/// Notes that the write waits, under the next ID, which it gives.
#[tactic(auto, using(gateway_state::proofs::NewNumbers::write_is_new), unfolding(gateway_state::specs::Numbers::is_past_numbers))]
fn add_write(
    known: &mut Known,
    write: ClientWrite,
    ioid: u32,
    server: u32,
) -> Result<u32, RowsRefusal>
    requires ids { HasWriteIdsApart known.old.state }
    ensures ok { OnOk result (known.new.state ≡ with_write (new_write known.old.state server write.session write.sid write.dtype write.count ioid) known.old.state) }
    ensures id { IfOk result (λ id. id ≡ next_write_id known.old.state server) }
    ensures used_up { IsErrOf result RowsRefusal.NumbersUsedUp → is_past_numbers (with_write (new_write known.old.state server write.session write.sid write.dtype write.count ioid) known.old.state) ≡ true }
    ensures brand { known.new.brand ≡ known.old.brand }
{
    let (reuses, first) = (known.limits.reuses_numbers, known.config.first);
    let Some(id) = known.upstream.new_write_id(reuses, first, server) else {
        return Err(RowsRefusal::NumbersUsedUp);
    };
    let waiting = WaitingWrite {
        server,
        id,
        session: write.session,
        sid: write.sid,
        dtype: write.dtype,
        count: write.count,
        ioid,
    };
    match known
        .upstream
        .add_write_within(known.limits.writes, waiting)
    {
        Ok(()) => Ok(id),
        Err(_) => Err(RowsRefusal::OutOfMemory),
    }
}

/// Hands the write on, unless as many writes of the session wait as may.
#[tactic(auto, unfolding(gateway_state::specs::Numbers::is_past_numbers, gateway_state::specs::Telling::sent))]
fn hand_on(
    known: &mut Known,
    write: ClientWrite,
    ioid: u32,
    server: u32,
    sid: u32,
    value: WrittenValue<'_>,
) -> Result<(), RowsRefusal>
    requires ids { HasWriteIdsApart known.old.state }
    ensures ok { OnOk result (known.new.state ≡ write_handed_on write.session write.sid ioid write.dtype write.count server sid value.entry known.old.state) }
    ensures used_up { IsErrOf result RowsRefusal.NumbersUsedUp → is_past_numbers (write_handed_on write.session write.sid ioid write.dtype write.count server sid value.entry known.old.state) ≡ true }
    ensures brand { known.new.brand ≡ known.old.brand }
{
    if known.upstream.writes(write.session) >= known.limits.writes {
        known.meet(RowLimit::Writes);
        return Ok(answer_write(known, write, ioid, ECA_PUTFAIL)?);
    }
    let id = add_write(known, write, ioid, server)?;
    let said = ToServer::WriteNotify {
        sid,
        ioid: id,
        value,
    };
    Ok(known.ask(server, &said)?)
}

/// A client writes a value, and wants to be told how that ended.
pub(crate) fn hear_write_notify(
    rows: &mut CountedRows,
    number: u32,
    write: &WriteNotify<'_>,
    head: &Header,
) -> Result<Touched, RowsRefusal>
    requires told { KnowRights rows.old.state }
    requires ids { HasWriteIdsApart rows.old.state }
    ensures ok { OnOk result (rows.new.state ≡ write_notify_asked number write.now.sid write.now.ioid write.now.dtype write.now.count write.now.value head.now rows.old.state) }
    ensures touched { IfOk result (λ touched. touched ≡ Nothing) }
    ensures used_up { IsErrOf result RowsRefusal.NumbersUsedUp → is_past_numbers (write_notify_asked number write.now.sid write.now.ioid write.now.dtype write.now.count write.now.value head.now rows.old.state) ≡ true }
    ensures looked { Looked 1 rows.old rows.new }
{
    let ioid = write.ioid;
    let its = ClientWrite {
        session: number,
        sid: write.sid,
        dtype: write.dtype,
        count: write.count,
    };
    match write_verdict(rows, its, &write.value) {
        WriteVerdict::NoChannel => refuse_channel(&mut rows.known, number, head)?,
        WriteVerdict::Ignored => {}
        WriteVerdict::Refused { code, .. } => answer_write(&mut rows.known, its, ioid, code)?,
        WriteVerdict::Accepted { server, sid, value } => {
            hand_on(&mut rows.known, its, ioid, server, sid, value)?;
        }
    }
    Ok(Touched::Nothing)
}
