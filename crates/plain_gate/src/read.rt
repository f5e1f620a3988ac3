//! READ_NOTIFY.
ghost use Rattle.std.specs.Prelude.{◌≡◌, Some, IfOk, OnOk};
ghost use Rattle.gateway_state.specs.Answer.{cached_value};
ghost use Rattle.gateway_state.specs.Clients.{accepted, is_one_too_many, read_asked, read_verdict, verdict_over};

use ca_header::Header;
use ca_message::ReadNotify;
use ca_message::codes::ECA_GETFAIL;
use channel_table::{Channel, Reach, WaitingRead};
use gateway_state::ReadVerdict;
use gateway_values::{ConnectedVariable, reach_with, read_refusal};
use plain_rows::clients::{ReadsOf, put_channel};
use plain_rows::lists::count;
use plain_rows::state::PlainRows;
use std::alloc::AllocError;

/// Whether a read isn't covered, and as many reads of the session wait as may.
fn is_one_too_many(
    rows: &PlainRows,
    channel: &Channel,
    variable: &ConnectedVariable<'_>,
    read: WaitingRead,
) -> Result<bool, AllocError>
    ensures { IfOk result (λ too_many. too_many ≡ is_one_too_many rows.now channel.now.session (cached_value rows.now variable.now.link.cid variable.now.native.count read.dtype read.count)) }
{
    let waiting = ReadsOf {
        session: channel.session,
    };
    if count(&rows.reads, waiting) < rows.limits.reads {
        return Ok(false);
    }
    let native = variable.native.count;
    match rows.cached_value(variable.link.cid, native, read.dtype, read.count)? {
        Some(_) => Ok(false),
        None => Ok(true),
    }
}

fn read_verdict_over(
    rows: &PlainRows,
    channel: &Channel,
    variable: &ConnectedVariable<'_>,
    read: WaitingRead,
) -> Result<ReadVerdict, AllocError>
    ensures { IfOk result (λ verdict. verdict ≡ verdict_over rows.now channel.now read.dtype read.count (Some variable.now)) }
{
    let native = variable.native;
    let rights = rows.rights_of(channel)?;
    if let Some(code) = read_refusal(native, rights, read.dtype, read.count) {
        return Ok(ReadVerdict::Refused(code));
    }
    if is_one_too_many(rows, channel, variable, read)? {
        return Ok(ReadVerdict::Refused(ECA_GETFAIL));
    }
    Ok(ReadVerdict::Accepted {
        reach: reach_with(channel.reach, native, read.dtype, read.count),
        rights: channel.rights_told,
    })
}

/// What becomes of a read.
fn read_verdict(rows: &PlainRows, read: WaitingRead) -> Result<ReadVerdict, AllocError>
    ensures { IfOk result (λ verdict. verdict ≡ read_verdict rows.now read.session read.sid read.dtype read.count) }
{
    let Some(channel) = rows.channel_of(read.session, read.sid) else {
        return Ok(ReadVerdict::NoChannel);
    };
    match rows.connected(&channel.real) {
        Some(variable) => read_verdict_over(rows, channel, &variable, read),
        None => Ok(ReadVerdict::Ignored),
    }
}

fn accept_read(
    rows: &mut PlainRows,
    read: WaitingRead,
    reach: Reach,
    rights: u32,
) -> Result<(), AllocError>
    ensures { OnOk result (rows.new ≡ accepted read.session read.sid read.ioid read.dtype read.count reach rights rows.old) }
{
    put_channel(&mut rows.channels, read.session, read.sid, reach, rights);
    rows.reads.push(read)?;
    Ok(())
}

/// A client wants a value.
pub(crate) fn hear_read(
    rows: &mut PlainRows,
    number: u32,
    read: ReadNotify,
    head: &Header,
) -> Result<(), AllocError>
    ensures { OnOk result (rows.new ≡ read_asked number read.sid read.ioid read.dtype read.count head.now rows.old) }
{
    let read = WaitingRead {
        session: number,
        sid: read.sid,
        dtype: read.dtype,
        count: read.count,
        ioid: read.ioid,
    };
    match read_verdict(rows, read)? {
        ReadVerdict::NoChannel => rows.refuse_channel(number, head),
        ReadVerdict::Ignored => Ok(()),
        ReadVerdict::Refused(code) => rows.refuse_read(read, code),
        ReadVerdict::Accepted { reach, rights } => accept_read(rows, read, reach, rights),
    }
}
