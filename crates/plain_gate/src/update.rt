//! Updates that servers send.
ghost use Rattle.std.specs.Prelude.{◌≡◌, ◌&&◌, filter, IfOk, OnOk};
ghost use Rattle.gateway_state.specs.Servers.{concerns, fails_without, has_other_alarm, read_failed, reads_failed, updated, waits_for};
ghost use Rattle.gateway_state.specs.Updates.{concerned};

use bytes::Bytes;
use ca_message::codes::{ECA_GETFAIL, ECA_NORMAL};
use channel_table::{ClientSub, WaitingRead};
use dbr_layout::View;
use gateway_state::Native;
use gateway_values::{asks_for, fails_without, is_concerned, is_heard, native_in, subject_of};
use link_table::{LinkRow, LinkState, Subject};
use mask_merge::PROPERTY_EVENT;
use plain_rows::clients::remove_read;
use plain_rows::lists::find;
use plain_rows::state::PlainRows;
use plain_rows::upstream::{LinkSubscribed, MessageOf};
use pv_name::Name;
use std::alloc::AllocError;

/// The reads that wait for a variable and fail without a subject, in the order of asking.
fn reads_without(
    rows: &PlainRows,
    subject: Subject,
    native: Option<Native>,
    name: &Name,
) -> Result<Vec<WaitingRead>, AllocError>
    ensures { IfOk result (λ reads. reads.items ≡ filter (λ read. waits_for rows.now name.now read && fails_without subject native read) rows.now.clients.reads) }
{
    let mut reads = Vec::new(rows.alloc);
    for read in &rows.reads {
        if rows.is_channel_on(name, read.session, read.sid)
            && fails_without(subject, native, read)
        {
            reads.push(*read)?;
        }
    }
    Ok(reads)
}

/// A read can't be had.
fn fail_read(rows: &mut PlainRows, read: WaitingRead) -> Result<(), AllocError>
    ensures { OnOk result (rows.new ≡ read_failed rows.old read) }
{
    remove_read(&mut rows.reads, read);
    rows.refuse_read(read, ECA_GETFAIL)
}

/// None of the reads that wait for a variable and fail without a subject can be had.
pub(crate) fn fail_reads(
    rows: &mut PlainRows,
    subject: Subject,
    native: Option<Native>,
    name: &Name,
) -> Result<(), AllocError>
    ensures { OnOk result (rows.new ≡ reads_failed (fails_without subject native) rows.old name.now) }
{
    let reads = reads_without(rows, subject, native, name)?;
    for read in &reads {
        fail_read(rows, *read)?;
    }
    Ok(())
}

/// Whether the alarm of an update differs from that of the value that is held of a link, or none is.
fn has_other_alarm(rows: &PlainRows, cid: u32, dtype: u16, count: u32, payload: &[u8]) -> bool
    ensures { result ≡ has_other_alarm rows.now cid dtype count payload.now }
{
    let Ok(view) = View::new(dtype, count, payload) else {
        return false;
    };
    match find(&rows.cache, MessageOf { cid }) {
        Some(last) => last.held.alarm_differs(&view),
        None => true,
    }
}

/// Whether an update concerns a subscription: a value by its events, properties one that asks for
/// theirs.
fn concerns(
    rows: &PlainRows,
    subject: Subject,
    cid: u32,
    dtype: u16,
    count: u32,
    payload: &[u8],
    sub: &ClientSub,
) -> bool
    ensures { result ≡ concerns subject rows.now cid dtype count payload.now sub.now }
{
    match subject {
        Subject::Values => is_concerned(has_other_alarm(rows, cid, dtype, count, payload), sub),
        Subject::Properties => asks_for(PROPERTY_EVENT, sub),
    }
}

/// The subscriptions to a variable that an update of it concerns.
fn concerned(
    rows: &PlainRows,
    subject: Subject,
    link: &LinkRow,
    dtype: u16,
    count: u32,
    payload: &[u8],
) -> Result<Vec<ClientSub>, AllocError>
    ensures { IfOk result (λ subs. subs.items ≡ concerned rows.now link.now.name (concerns subject rows.now link.now.cid dtype count payload.now)) }
{
    let mut subs = Vec::new(rows.alloc);
    for sub in &rows.subs {
        if rows.is_channel_on(&link.name, sub.session, sub.sid)
            && concerns(rows, subject, link.cid, dtype, count, payload, sub)
        {
            subs.push(*sub)?;
        }
    }
    Ok(subs)
}

/// An update came under a subscription's ID.
pub(crate) fn update(
    rows: &mut PlainRows,
    server: u32,
    id: u32,
    status: u32,
    dtype: u16,
    count: u32,
    payload: &Bytes,
) -> Result<(), AllocError>
    ensures { OnOk result (rows.new ≡ updated rows.old server id status dtype count payload.now) }
{
    let Some(link) = find(&rows.links, LinkSubscribed { server, id }) else {
        return Ok(());
    };
    let subject = subject_of(id, link);
    if status != ECA_NORMAL {
        let native = native_in(link.state);
        let name = link.name.copy()?;
        return fail_reads(rows, subject, native, &name);
    }
    let LinkState::Connected { dtype: native, .. } = link.state else {
        return Ok(());
    };
    let Some(subscription) = link.subscriptions.at(subject) else {
        return Ok(());
    };
    let asked_with = subscription.count;
    if !is_heard(subject, native, asked_with, dtype, count, payload) {
        return Ok(());
    }
    let (server, cid) = (link.server, link.cid);
    let owed = concerned(rows, subject, link, dtype, count, payload)?;
    rows.owe_all(&owed);
    let payload = payload.clone()?;
    rows.put_told(subject, server, cid, dtype, count, payload, asked_with)
}
