//! READ_NOTIFY.
ghost use Rattle.std.specs.Prelude.{◌≡◌, Some, IsTrue, OnOk, IfOk};
ghost use Rattle.direct_effect.specs.Reaching.{HasReach};
ghost use Rattle.gateway_rows.specs.Looked.{Looked, OnlyLooked};
ghost use Rattle.gateway_state.specs.Answer.{cached_value};
ghost use Rattle.gateway_state.specs.Clients.{accepted, is_one_too_many, read_asked, read_refused, read_verdict, verdict_over};
ghost use Rattle.gateway_state.specs.Rights.{channel_of};
ghost use Rattle.gateway_state.specs.Told.{KnowRights, KnowsRights};
ghost use Rattle.touched_rows.specs.Touches.{accepted_touches, new_read, read_touches, with_read, with_touched};

use crate::refusals::refuse_channel;
use ca_header::Header;
use ca_message::codes::ECA_GETFAIL;
use ca_message::{ReadNotify, ToClient};
use channel_table::{Channel, Reach, WaitingRead};
use gateway_rows::{CountedRows, Known};
use gateway_state::{ReadVerdict, RowLimit};
use gateway_values::{ConnectedVariable, reach_with, read_refusal};
use std::alloc::AllocError;
use touched_rows::Touched;

/// What waits where a read does.
pub(crate) fn new_read(session: u32, read: ReadNotify) -> WaitingRead
    ensures { result ≡ new_read session read.sid read.ioid read.dtype read.count }
{
    WaitingRead {
        session,
        sid: read.sid,
        dtype: read.dtype,
        count: read.count,
        ioid: read.ioid,
    }
}

/// Whether a read isn't covered, and as many reads of the session wait as may.
fn is_one_too_many(
    known: &Known,
    channel: &Channel,
    variable: &ConnectedVariable<'_>,
    dtype: u16,
    count: u32,
) -> Result<bool, AllocError>
    ensures { IfOk result (λ too_many. too_many ≡ is_one_too_many known.now.state channel.now.session (cached_value known.now.state variable.now.link.cid variable.now.native.count dtype count)) }
{
    if known.clients.read_count(channel.session) < known.limits.reads {
        return Ok(false);
    }
    match known.cached_value(variable.link.cid, variable.native.count, dtype, count)? {
        Some(_) => Ok(false),
        None => Ok(true),
    }
}

/// What becomes of a read where the channel's variable is connected.
fn read_verdict_over(
    known: &Known,
    channel: &Channel,
    variable: &ConnectedVariable<'_>,
    dtype: u16,
    count: u32,
) -> Result<ReadVerdict, AllocError>
    requires told { KnowsRights known.now.state channel.now }
    ensures { IfOk result (λ verdict. verdict ≡ verdict_over known.now.state channel.now dtype count (Some variable.now)) }
{
    let native = variable.native;
    if let Some(code) = read_refusal(native, channel.rights_told, dtype, count) {
        return Ok(ReadVerdict::Refused(code));
    }
    if is_one_too_many(known, channel, variable, dtype, count)? {
        return Ok(ReadVerdict::Refused(ECA_GETFAIL));
    }
    Ok(ReadVerdict::Accepted {
        reach: reach_with(channel.reach, native, dtype, count),
        rights: channel.rights_told,
    })
}

/// What becomes of a read.
fn read_verdict(rows: &mut CountedRows, read: WaitingRead) -> Result<ReadVerdict, AllocError>
    requires told { KnowRights rows.old.state }
    ensures found { IfOk result (λ verdict. verdict ≡ read_verdict rows.old.state read.session read.sid read.dtype read.count) }
    ensures looked { OnlyLooked 1 rows.old rows.new }
{
    let WaitingRead {
        session,
        sid,
        dtype,
        count,
        ..
    } = read;
    let Some(channel) = rows.known.told_channel(&mut rows.visits, session, sid) else {
        return Ok(ReadVerdict::NoChannel);
    };
    match rows.known.connected(&channel.real) {
        Some(variable) => read_verdict_over(&rows.known, channel, &variable, dtype, count),
        None => Ok(ReadVerdict::Ignored),
    }
}

/// The client is told why its read is refused.
fn refuse_read(known: &mut Known, read: WaitingRead, code: u32) -> Result<(), AllocError>
    ensures ok { OnOk result (known.new.state ≡ read_refused read.session read.ioid read.dtype read.count code known.old.state) }
    ensures brand { known.new.brand ≡ known.old.brand }
{
    let said = ToClient::ReadNotifyRefused {
        ioid: read.ioid,
        dtype: read.dtype,
        count: read.count,
        code,
    };
    known.tell(read.session, &said)
}

/// Raises a channel's reach for a read that is accepted, which isn't kept yet, unless it is known to reach so far.
fn accept_read(
    rows: &mut CountedRows,
    read: WaitingRead,
    reach: Reach,
    rights: u32,
    is_reached: bool,
)
    requires reached { IsTrue is_reached → HasReach read.session read.sid reach rights rows.old.state }
    ensures ok { with_read read rows.new.state ≡ accepted read.session read.sid read.ioid read.dtype read.count reach rights rows.old.state }
    ensures looked { Looked 1 rows.old rows.new }
{
    if !is_reached {
        rows.known
            .clients
            .put_channel(&mut rows.visits, read.session, read.sid, reach, rights);
    }
}

/// A client wants a value. A read that is accepted is touched, and not kept yet.
#[tactic(auto, using(crate::proofs::Accepted::accepted_touches_it))]
pub(crate) fn hear_read(
    rows: &mut CountedRows,
    read: WaitingRead,
    head: &Header,
) -> Result<Touched, AllocError>
    requires told { KnowRights rows.old.state }
    ensures ok { IfOk result (λ touched. with_touched touched rows.new.state ≡ read_asked read.session read.sid read.ioid read.dtype read.count head.now rows.old.state) }
    ensures touched { IfOk result (λ touched. touched ≡ read_touches rows.old.state read) }
    ensures looked { Looked 3 rows.old rows.new }
{
    match read_verdict(rows, read)? {
        ReadVerdict::NoChannel => {
            refuse_channel(&mut rows.known, read.session, head)?;
            Ok(Touched::Nothing)
        }
        ReadVerdict::Ignored => Ok(Touched::Nothing),
        ReadVerdict::Refused(code) => {
            if code == ECA_GETFAIL {
                rows.known.meet(RowLimit::Reads);
            }
            refuse_read(&mut rows.known, read, code)?;
            Ok(Touched::Nothing)
        }
        ReadVerdict::Accepted { reach, rights } => {
            let (touched, is_reached) = accepted_touches(rows, read, reach, rights)?;
            accept_read(rows, read, reach, rights, is_reached);
            Ok(touched)
        }
    }
}

/// What a read touches that is accepted, and whether its channel has this reach and these rights already, as
/// after most reads.
#[tactic(auto, using(named_rows::proofs::Unchanged::unchanged_found))]
fn accepted_touches(
    rows: &mut CountedRows,
    read: WaitingRead,
    reach: Reach,
    rights: u32,
) -> Result<(Touched, bool), AllocError>
    ensures found { IfOk result (λ r. r.0 ≡ accepted_touches read (channel_of rows.old.state read.session read.sid)) }
    ensures reached { IfOk result (λ r. IsTrue r.1 → HasReach read.session read.sid reach rights rows.old.state) }
    ensures looked { OnlyLooked 1 rows.old rows.new }
{
    let WaitingRead { session, sid, .. } = read;
    match rows.known.channel_of(&mut rows.visits, session, sid) {
        Some(channel) => {
            let is_reached = channel.reach == reach && channel.rights_told == rights;
            Ok((Touched::Read(channel.real.copy()?, read), is_reached))
        }
        None => Ok((Touched::Nothing, false)),
    }
}
