//! The passes over subscriptions: updates that are withheld from now on, and updates that are due.
ghost use Rattle.std.specs.Prelude.{◌≡◌, IfOk, OnOk};
ghost use Rattle.gateway_state.specs.Updates.{is_open_to, is_paused, takes_updates, is_withheld, update_notice, update_notices, update_over, update_told, updates_told, updates_withheld, withheld};
ghost use Rattle.gateway_state.specs.Variables.{connected};

use ca_message::ToClient;
use channel_table::ClientSub;
use gateway_state::{Dest, UPDATE_LIMIT, UpdateNotice};
use gateway_values::may_read;
use plain_rows::clients::{SessionNumbered, put_owed};
use plain_rows::lists::find;
use plain_rows::state::PlainRows;
use pv_name::Name;
use std::alloc::AllocError;
use std::collections::VecDeque;

/// Whether a subscription's channel may not be read, and nothing is owed to it yet.
fn is_withheld(rows: &PlainRows, sub: &ClientSub) -> Result<bool, AllocError>
    ensures { IfOk result (λ answer. answer ≡ is_withheld rows.now sub.now) }
{
    match rows.channel_of(sub.session, sub.sid) {
        Some(channel) => Ok(!sub.owed && !may_read(rows.rights_of(channel)?)),
        None => Ok(false),
    }
}

fn withheld(rows: &PlainRows) -> Result<Vec<ClientSub>, AllocError>
    ensures { IfOk result (λ subs. subs.items ≡ withheld rows.now) }
{
    let mut subs = Vec::new(rows.alloc);
    for sub in &rows.subs {
        if is_withheld(rows, sub)? {
            subs.push(*sub)?;
        }
    }
    Ok(subs)
}

/// Owes the latest value to subscriptions whose channels may not be read.
pub(crate) fn withhold_updates(rows: &mut PlainRows) -> Result<(), AllocError>
    ensures { OnOk result (rows.new ≡ updates_withheld rows.old) }
{
    let subs = withheld(rows)?;
    rows.owe_all(&subs);
    Ok(())
}

fn is_paused(rows: &PlainRows, number: u32) -> bool
    ensures { result ≡ is_paused rows.now number }
{
    match find(&rows.sessions, SessionNumbered { number }) {
        Some(session) => session.paused,
        None => false,
    }
}

/// Whether a session's outbox takes updates.
fn takes_updates(rows: &PlainRows, number: u32) -> bool
    ensures { result ≡ takes_updates rows.now number }
{
    let dest = Dest::Session(number);
    !rows.must_end(dest)
        && rows.queued(dest) < UPDATE_LIMIT
        && rows.queued_bytes(dest) < rows.limits.update_bytes
}

/// Whether a subscription's session takes updates now.
fn is_open_to(rows: &PlainRows, sub: &ClientSub) -> bool
    ensures { result ≡ is_open_to rows.now sub.now }
{
    !is_paused(rows, sub.session) && takes_updates(rows, sub.session)
}

fn update_over(
    rows: &PlainRows,
    sub: &ClientSub,
    name: &Name,
) -> Result<Option<UpdateNotice>, AllocError>
    ensures { IfOk result (λ notice. notice ≡ update_over rows.now sub.now (connected rows.now name.now)) }
{
    let Some(variable) = rows.connected(name) else {
        return Ok(None);
    };
    let native = variable.native.count;
    match rows.cached_value(variable.link.cid, native, sub.dtype, sub.count)? {
        Some(given) => Ok(Some(UpdateNotice {
            session: sub.session,
            id: sub.id,
            dtype: sub.dtype,
            count: given.count,
            payload: given.payload,
        })),
        None => Ok(None),
    }
}

/// The update that is due to a subscription.
#[tactic(auto, unfolding(gateway_state::specs::Updates::update_notice))]
fn update_notice(rows: &PlainRows, sub: &ClientSub) -> Result<Option<UpdateNotice>, AllocError>
    ensures { IfOk result (λ notice. notice ≡ update_notice rows.now sub.now) }
{
    if !(sub.owed && is_open_to(rows, sub)) {
        return Ok(None);
    }
    let Some(channel) = rows.channel_of(sub.session, sub.sid) else {
        return Ok(None);
    };
    if may_read(rows.rights_of(channel)?) {
        update_over(rows, sub, &channel.real)
    } else {
        Ok(None)
    }
}

fn update_notices(rows: &PlainRows) -> Result<VecDeque<UpdateNotice>, AllocError>
    ensures { IfOk result (λ notices. notices.items ≡ update_notices rows.now) }
{
    let mut notices = VecDeque::new(rows.alloc);
    for sub in &rows.subs {
        if let Some(notice) = update_notice(rows, sub)? {
            notices.push_back(notice)?;
        }
    }
    Ok(notices)
}

/// Gives an update, as long as those given before it leave room for it.
fn tell_update(rows: &mut PlainRows, notice: UpdateNotice) -> Result<(), AllocError>
    ensures { OnOk result (rows.new ≡ update_told rows.old notice) }
{
    if !takes_updates(rows, notice.session) {
        return Ok(());
    }
    put_owed(&mut rows.subs, notice.session, notice.id, false);
    let said = ToClient::Update {
        id: notice.id,
        dtype: notice.dtype,
        count: notice.count,
        value: notice.payload,
    };
    rows.tell(notice.session, said)
}

/// Gives the updates that are due.
pub(crate) fn tell_updates(rows: &mut PlainRows) -> Result<(), AllocError>
    ensures { OnOk result (rows.new ≡ updates_told rows.old) }
{
    let mut notices = update_notices(rows)?;
    while let Some(notice) = notices.pop_front() {
        tell_update(rows, notice)?;
    }
    Ok(())
}
