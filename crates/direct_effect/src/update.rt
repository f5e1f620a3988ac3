//! Updates.
ghost use Rattle.std.specs.Prelude.{◌≡◌, ◌≤◌, ◌<◌, ◌+◌, ◌^◌, true, filter, fold, length, OnOk, IfOk};
ghost use Rattle.std.specs.List.{find};
ghost use Rattle.gateway_rows.specs.Looked.{LookedOn};
ghost use Rattle.link_table.specs.Links.{has_subscription};
ghost use Rattle.gateway_state.specs.Servers.{fails_without, held_with, is_heard, read_failed, updated, with_held};
ghost use Rattle.direct_effect.specs.Kept.{IsKeptAs, counted};
ghost use Rattle.direct_effect.specs.Looks.{failing_looks};
ghost use Rattle.touched_rows.specs.Touches.{update_touches, with_touched};

use crate::concern::{Arrival, concern_of};
use bytes::Bytes;
use ca_message::ToClient;
use ca_message::codes::{ECA_GETFAIL, ECA_NORMAL};
use channel_table::WaitingRead;
use dbr_layout::Dbr;
use gateway_rows::{CountedRows, Known};
use gateway_state::Native;
use gateway_values::{fails_without, native_in, subject_of};
use link_table::{LinkState, Subject};
use std::alloc::{AllocError, Global};
use touched_rows::Touched;

/// How many zero bytes are kept behind a copy: a plain value that is given as it stands in the payload is
/// filled up by them.
const FILLING: usize = 8;

/// A read can't be had.
fn fail_read(known: &mut Known, read: WaitingRead) -> Result<(), AllocError>
    ensures ok { OnOk result (known.new.state ≡ read_failed known.old.state read) }
    ensures brand { known.new.brand ≡ known.old.brand }
{
    known.clients.remove_read(&read);
    let said = ToClient::ReadNotifyRefused {
        ioid: read.ioid,
        dtype: read.dtype,
        count: read.count,
        code: ECA_GETFAIL,
    };
    known.tell(read.session, &said)
}

/// None of these reads can be had that fail without the subject.
pub(crate) fn fail_reads(
    known: &mut Known,
    reads: Vec<WaitingRead>,
    subject: Subject,
    native: Option<Native>,
) -> Result<(), AllocError>
    ensures ok { OnOk result (known.new.state ≡ fold read_failed known.old.state (filter (fails_without subject native) reads.items)) }
    ensures brand { known.new.brand ≡ known.old.brand }
{
    for read in &reads {
        if fails_without(subject, native, read) {
            fail_read(known, *read)?;
        }
    }
    Ok(())
}

/// How many bytes of a payload count: as far as so many elements of its type reach.
fn counted(dtype: u16, count: u32) -> usize
    ensures value { result ≡ counted dtype count }
    ensures fits { result < 2 ^ 40 }
{
    match Dbr::of(dtype) {
        Some(dbr) => dbr.offset() as usize + count as usize * dbr.element() as usize,
        None => 0,
    }
}

/// What may be kept for long of a payload: a copy of the bytes that count, with bytes behind them that nobody
/// is shown. The payload itself is a part of a block of up to twice the message in which that block began,
/// some 32 MiB, whatever counts of it: so it is let go, and a variable holds what counts and no more.
#[tactic(auto, using(crate::proofs::Longer::kept_with_more))]
fn to_keep(alloc: Global, payload: Bytes, dtype: u16, count: u32) -> Result<Bytes, AllocError>
    requires { counted dtype count ≤ length payload }
    ensures { IfOk result (λ kept. IsKeptAs dtype count payload kept) }
{
    let front = &payload[..counted(dtype, count)];
    let mut copy = Vec::with_capacity(alloc, front.len() + FILLING)?;
    copy.extend_from_slice(front)?;
    copy.extend_from_slice(&[0; FILLING])?;
    Ok(Bytes::from_vec(copy)?)
}

/// What is held of a link changes by an update that counts.
#[tactic(auto, using(crate::proofs::Longer::heard_as_kept, crate::proofs::Longer::heard_whole))]
fn keep(
    known: &mut Known,
    server: u32,
    cid: u32,
    arrival: Arrival,
    payload: Bytes,
) -> Result<(), AllocError>
    requires { is_heard arrival.subject arrival.native arrival.asked_with arrival.dtype arrival.count payload ≡ true }
    ensures ok { OnOk result (known.new.state ≡ with_held server cid (held_with arrival.subject arrival.dtype arrival.count payload arrival.asked_with) known.old.state) }
    ensures brand { known.new.brand ≡ known.old.brand }
{
    let kept = to_keep(known.alloc, payload, arrival.dtype, arrival.count)?;
    put(known, server, cid, arrival, kept)
}

/// The same by a payload that may be kept.
fn put(
    known: &mut Known,
    server: u32,
    cid: u32,
    arrival: Arrival,
    payload: Bytes,
) -> Result<(), AllocError>
    requires { is_heard arrival.subject arrival.native arrival.asked_with arrival.dtype arrival.count payload ≡ true }
    ensures ok { OnOk result (known.new.state ≡ with_held server cid (held_with arrival.subject arrival.dtype arrival.count payload arrival.asked_with) known.old.state) }
    ensures brand { known.new.brand ≡ known.old.brand }
{
    let Arrival {
        dtype,
        count,
        asked_with,
        ..
    } = arrival;
    match arrival.subject {
        Subject::Values => known
            .cache
            .put_value(server, cid, dtype, count, payload, asked_with),
        Subject::Properties => known.cache.put_properties(server, cid, dtype, payload),
    }
}

/// An update came under a subscription's ID. Those whom it concerns aren't owed it yet.
#[tactic(auto, using(crate::proofs::Failing::failing_are_waiting, crate::proofs::Concerned::owed_once_kept))]
pub(crate) fn update(
    rows: &mut CountedRows,
    server: u32,
    id: u32,
    status: u32,
    dtype: u16,
    count: u32,
    payload: Bytes,
) -> Result<Touched, AllocError>
    ensures ok { IfOk result (λ touched. with_touched touched rows.new.state ≡ updated rows.old.state server id status dtype count payload) }
    ensures touched { IfOk result (λ touched. touched ≡ update_touches rows.old.state server id status dtype count payload) }
    ensures looked { LookedOn rows.old rows.new }
    ensures bound { OnOk result (rows.new.count.looks ≤ rows.old.count.looks + failing_looks rows.old.state status (find (has_subscription server id) rows.old.state.upstream.links)) }
{
    let Some(link) = rows.known.upstream.by_sub(server, id) else {
        return Ok(Touched::Nothing);
    };
    let subject = subject_of(id, link);
    if status != ECA_NORMAL {
        let (name, native) = (link.name.copy()?, native_in(link.state));
        let reads = rows.reads_for(&name)?;
        fail_reads(&mut rows.known, reads, subject, native)?;
        return Ok(Touched::Nothing);
    }
    let LinkState::Connected { dtype: native, .. } = link.state else {
        return Ok(Touched::Nothing);
    };
    let Some(subscription) = link.subscriptions.at(subject) else {
        return Ok(Touched::Nothing);
    };
    let arrival = Arrival {
        subject,
        native,
        asked_with: subscription.count,
        dtype,
        count,
    };
    let name = link.name.copy()?;
    let (server, cid) = (link.server, link.cid);
    let Some(concern) = concern_of(&rows.known, cid, arrival, &payload) else {
        return Ok(Touched::Nothing);
    };
    keep(&mut rows.known, server, cid, arrival, payload)?;
    Ok(Touched::Value(name, concern))
}
