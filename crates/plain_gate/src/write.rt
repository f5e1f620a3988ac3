//! WRITE and WRITE_NOTIFY, from clients and from servers.
ghost use Rattle.std.specs.Prelude.{◌≡◌, true, IfOk, IsErrOf, OnOk};
ghost use Rattle.gateway_state.specs.Numbers.{is_past_numbers};
ghost use Rattle.gateway_state.specs.Writing.{new_write, next_write_id, with_write, write_answered, write_asked, write_ended, write_handed_on, write_judged, write_notify_asked, write_verdict};

use ca_header::Header;
use ca_message::codes::{ECA_NOWTACCESS, ECA_PUTFAIL};
use ca_message::{ToClient, ToServer, Write, WriteFault, WriteNotify, WrittenValue};
use channel_table::Channel;
use gateway_state::WriteVerdict;
use gateway_values::may_write;
use link_table::{Counter, WaitingWrite};
use plain_rows::lists::{count, find, remove};
use plain_rows::numbers::PlainRefusal;
use plain_rows::state::PlainRows;
use plain_rows::upstream::{WriteAt, WritesOf};
use std::alloc::AllocError;

/// What a client writes: to which of its channels, and which type and how many elements it says.
#[derive(Clone, Copy)]
struct ClientWrite {
    session: u32,
    sid: u32,
    dtype: u16,
    count: u32,
}

/// A value that isn't fit to be handed on is refused first, then a write without the right.
fn judge<'a>(
    rows: &PlainRows,
    channel: &Channel,
    server: u32,
    sid: u32,
    value: Result<WrittenValue<'a>, WriteFault>,
) -> Result<WriteVerdict<'a>, AllocError>
    ensures { IfOk result (λ verdict. verdict ≡ write_judged rows.now channel.now server sid value.entry) }
{
    let cid = channel.cid;
    match value {
        Err(fault) => Ok(WriteVerdict::Refused {
            cid,
            code: fault.code(),
        }),
        Ok(value) if may_write(rows.rights_of(channel)?) => {
            Ok(WriteVerdict::Accepted { server, sid, value })
        }
        Ok(_) => Ok(WriteVerdict::Refused {
            cid,
            code: ECA_NOWTACCESS,
        }),
    }
}

/// What becomes of a write.
fn write_verdict<'a>(
    rows: &PlainRows,
    write: ClientWrite,
    payload: &'a [u8],
) -> Result<WriteVerdict<'a>, AllocError>
    ensures { IfOk result (λ verdict. verdict ≡ write_verdict rows.now write.session write.sid write.dtype write.count payload.now) }
{
    let Some(channel) = rows.channel_of(write.session, write.sid) else {
        return Ok(WriteVerdict::NoChannel);
    };
    let Some(variable) = rows.connected(&channel.real) else {
        return Ok(WriteVerdict::Ignored);
    };
    let native = variable.native.count;
    let value = WrittenValue::read(write.dtype, write.count, native, payload);
    judge(rows, channel, variable.link.server, variable.sid, value)
}

/// A client writes a value, and wants no reply.
pub(crate) fn hear_write(
    rows: &mut PlainRows,
    number: u32,
    write: &Write<'_>,
    head: &Header,
) -> Result<(), AllocError>
    ensures { OnOk result (rows.new ≡ write_asked number write.now.sid write.now.dtype write.now.count write.now.value head.now rows.old) }
{
    let its = ClientWrite {
        session: number,
        sid: write.sid,
        dtype: write.dtype,
        count: write.count,
    };
    match write_verdict(rows, its, write.value.as_slice())? {
        WriteVerdict::NoChannel => rows.refuse_channel(number, head),
        WriteVerdict::Ignored => Ok(()),
        WriteVerdict::Refused { cid, code } => rows.refuse(number, cid, code, head),
        WriteVerdict::Accepted { server, sid, value } => {
            rows.ask(server, ToServer::Write { sid, value })
        }
    }
}

/// The client is told how its write ended.
fn answer_write(
    rows: &mut PlainRows,
    write: ClientWrite,
    ioid: u32,
    status: u32,
) -> Result<(), AllocError>
    ensures { OnOk result (rows.new ≡ write_answered write.session ioid write.dtype write.count status rows.old) }
{
    let said = ToClient::WriteNotify {
        ioid,
        dtype: write.dtype,
        count: write.count,
        status,
    };
    rows.tell(write.session, said)
}

/// Notes that the write waits, under the next ID, which it gives.
#[tactic(auto, unfolding(gateway_state::specs::Numbers::is_past_numbers))]
fn add_write(
    rows: &mut PlainRows,
    write: ClientWrite,
    ioid: u32,
    server: u32,
) -> Result<u32, PlainRefusal>
    ensures ok { OnOk result (rows.new ≡ with_write (new_write rows.old server write.session write.sid write.dtype write.count ioid) rows.old) }
    ensures id { IfOk result (λ id. id ≡ next_write_id rows.old server) }
    ensures used_up { IsErrOf result PlainRefusal.NumbersUsedUp → is_past_numbers (with_write (new_write rows.old server write.session write.sid write.dtype write.count ioid) rows.old) ≡ true }
{
    let Some(id) = rows.give_out(Counter::Write, server) else {
        return Err(PlainRefusal::NumbersUsedUp);
    };
    let waiting = WaitingWrite {
        server,
        id,
        session: write.session,
        sid: write.sid,
        dtype: write.dtype,
        count: write.count,
        ioid,
    };
    match rows.writes.push(waiting) {
        Ok(()) => Ok(id),
        Err(_) => Err(PlainRefusal::OutOfMemory),
    }
}

/// Hands the write on, unless as many writes of the session wait as may.
#[tactic(auto, unfolding(gateway_state::specs::Numbers::is_past_numbers, gateway_state::specs::Telling::sent))]
fn hand_on(
    rows: &mut PlainRows,
    write: ClientWrite,
    ioid: u32,
    server: u32,
    sid: u32,
    value: WrittenValue<'_>,
) -> Result<(), PlainRefusal>
    ensures ok { OnOk result (rows.new ≡ write_handed_on write.session write.sid ioid write.dtype write.count server sid value.entry rows.old) }
    ensures used_up { IsErrOf result PlainRefusal.NumbersUsedUp → is_past_numbers (write_handed_on write.session write.sid ioid write.dtype write.count server sid value.entry rows.old) ≡ true }
{
    let waiting = WritesOf {
        session: write.session,
    };
    if count(&rows.writes, waiting) >= rows.limits.writes {
        return Ok(answer_write(rows, write, ioid, ECA_PUTFAIL)?);
    }
    let id = add_write(rows, write, ioid, server)?;
    let said = ToServer::WriteNotify {
        sid,
        ioid: id,
        value,
    };
    Ok(rows.ask(server, said)?)
}

/// A client writes a value, and wants to be told how that ended.
pub(crate) fn hear_write_notify(
    rows: &mut PlainRows,
    number: u32,
    write: &WriteNotify<'_>,
    head: &Header,
) -> Result<(), PlainRefusal>
    ensures ok { OnOk result (rows.new ≡ write_notify_asked number write.now.sid write.now.ioid write.now.dtype write.now.count write.now.value head.now rows.old) }
    ensures used_up { IsErrOf result PlainRefusal.NumbersUsedUp → is_past_numbers (write_notify_asked number write.now.sid write.now.ioid write.now.dtype write.now.count write.now.value head.now rows.old) ≡ true }
{
    let ioid = write.ioid;
    let its = ClientWrite {
        session: number,
        sid: write.sid,
        dtype: write.dtype,
        count: write.count,
    };
    match write_verdict(rows, its, write.value.as_slice())? {
        WriteVerdict::NoChannel => Ok(rows.refuse_channel(number, head)?),
        WriteVerdict::Ignored => Ok(()),
        WriteVerdict::Refused { code, .. } => Ok(answer_write(rows, its, ioid, code)?),
        WriteVerdict::Accepted { server, sid, value } => {
            hand_on(rows, its, ioid, server, sid, value)
        }
    }
}

/// A server says how a write ended: the client that asked for it is told, under its own ID of it.
pub(crate) fn end_write(
    rows: &mut PlainRows,
    server: u32,
    id: u32,
    status: u32,
) -> Result<(), AllocError>
    ensures { OnOk result (rows.new ≡ write_ended rows.old server id status) }
{
    let Some(waiting) = find(&rows.writes, WriteAt { server, id }) else {
        return Ok(());
    };
    let ioid = waiting.ioid;
    let write = ClientWrite {
        session: waiting.session,
        sid: waiting.sid,
        dtype: waiting.dtype,
        count: waiting.count,
    };
    remove(&mut rows.writes, WriteAt { server, id });
    answer_write(rows, write, ioid, status)
}
