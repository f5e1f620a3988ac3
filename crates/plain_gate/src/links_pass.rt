//! The pass over links: what servers are owed about them.
ghost use Rattle.std.specs.Prelude.{◌≡◌, ◌++◌, true, fold, IfOk, IsErrOf, OnOk};
ghost use Rattle.gateway_state.specs.Notices.{dropped, forgotten, interest_notices, link_notices, link_notices_of, link_told, links_told, subject_notices, subscribed_to};
ghost use Rattle.gateway_state.specs.Numbers.{is_past_numbers};

use ca_message::ToServer;
use gateway_state::LinkNotice;
use gateway_values::{is_for, sent_for, type_for};
use link_table::{Counter, LinkRow, LinkState, Subject, Subscription};
use mask_merge::Want;
use plain_rows::lists::remove;
use plain_rows::numbers::PlainRefusal;
use plain_rows::state::PlainRows;
use plain_rows::upstream::{MessageOf, drop_properties, put_subscription};
use std::alloc::AllocError;

/// What a server is owed about a subject of a connected link: its subscription is exchanged where
/// something else is wanted.
fn add_subject_notices(
    rows: &PlainRows,
    notices: &mut Vec<LinkNotice>,
    subject: Subject,
    link: &LinkRow,
    sid: u32,
    dtype: u16,
    native: u32,
) -> Result<(), AllocError>
    ensures { OnOk result (notices.new.items ≡ notices.old.items ++ subject_notices subject rows.now link.now sid dtype native) }
{
    let (server, cid) = (link.server, link.cid);
    let want = rows.wanted_for(subject, &link.name, dtype, native)?;
    let present = link.subscriptions.at(subject);
    if is_for(want, present) {
        return Ok(());
    }
    let dtype = type_for(subject, dtype);
    if let Some(subscription) = present {
        notices.push(LinkNotice::Cancelled {
            subject,
            server,
            cid,
            sid,
            dtype,
            subscription,
        })?;
    }
    let notice = match want {
        None => LinkNotice::Unread { subject, cid },
        Some(want) => LinkNotice::Subscribed {
            subject,
            server,
            cid,
            sid,
            dtype,
            want,
            sent: sent_for(subject, rows.minor_of(server), native, want.count),
        },
    };
    notices.push(notice)?;
    Ok(())
}

/// What a server is owed because of what the readers of a connected link's variable want, values first.
fn add_interest_notices(
    rows: &PlainRows,
    notices: &mut Vec<LinkNotice>,
    link: &LinkRow,
) -> Result<(), AllocError>
    ensures { OnOk result (notices.new.items ≡ notices.old.items ++ interest_notices rows.now link.now link.now.state) }
{
    let LinkState::Connected { sid, dtype, count } = link.state else {
        return Ok(());
    };
    add_subject_notices(rows, notices, Subject::Values, link, sid, dtype, count)?;
    add_subject_notices(rows, notices, Subject::Properties, link, sid, dtype, count)
}

fn add_link_notices(
    rows: &PlainRows,
    notices: &mut Vec<LinkNotice>,
    link: &LinkRow,
) -> Result<(), AllocError>
    ensures { OnOk result (notices.new.items ≡ notices.old.items ++ link_notices_of rows.now link.now) }
{
    add_interest_notices(rows, notices, link)?;
    if !rows.is_wanted(&link.name) {
        notices.push(LinkNotice::Dropped {
            server: link.server,
            cid: link.cid,
            state: link.state,
        })?;
    }
    Ok(())
}

fn link_notices(rows: &PlainRows) -> Result<Vec<LinkNotice>, AllocError>
    ensures { IfOk result (λ notices. notices.items ≡ link_notices rows.now) }
{
    let mut notices = Vec::new(rows.alloc);
    for link in &rows.links {
        add_link_notices(rows, &mut notices, link)?;
    }
    Ok(notices)
}

#[tactic(auto, unfolding(gateway_state::specs::Telling::sent, gateway_state::specs::Numbers::is_past_numbers))]
fn subscribe(
    rows: &mut PlainRows,
    subject: Subject,
    server: u32,
    cid: u32,
    sid: u32,
    dtype: u16,
    want: Want,
    sent: u32,
) -> Result<(), PlainRefusal>
    ensures ok { OnOk result (rows.new ≡ subscribed_to subject server cid sid dtype want sent rows.old) }
    ensures used_up { IsErrOf result PlainRefusal.NumbersUsedUp → is_past_numbers (subscribed_to subject server cid sid dtype want sent rows.old) ≡ true }
{
    let Some(id) = rows.give_out(Counter::Subscription, server) else {
        return Err(PlainRefusal::NumbersUsedUp);
    };
    let Want { mask, count } = want;
    let subscription = Subscription {
        id,
        mask,
        count,
        sent,
    };
    put_subscription(&mut rows.links, subject, server, cid, Some(subscription));
    let said = ToServer::EventAdd {
        sid,
        id,
        dtype,
        count: sent,
        mask,
    };
    rows.ask(server, said)?;
    Ok(())
}

/// What a link was told of a subject last goes.
fn forget(rows: &mut PlainRows, subject: Subject, cid: u32)
    ensures { rows.new ≡ forgotten subject cid rows.old }
{
    match subject {
        Subject::Values => remove(&mut rows.cache, MessageOf { cid }),
        Subject::Properties => drop_properties(&mut rows.cache, cid),
    }
}

fn drop_link(
    rows: &mut PlainRows,
    server: u32,
    cid: u32,
    state: LinkState,
) -> Result<(), AllocError>
    ensures { OnOk result (rows.new ≡ dropped server cid state rows.old) }
{
    rows.remove_link(server, cid);
    match state {
        LinkState::Creating | LinkState::Unusable => Ok(()),
        LinkState::Connected { sid, .. } => {
            rows.ask(server, ToServer::ClearChannel { sid, cid })
        }
    }
}

fn tell_link(rows: &mut PlainRows, notice: LinkNotice) -> Result<(), PlainRefusal>
    ensures ok { OnOk result (rows.new ≡ link_told rows.old notice) }
    ensures used_up { IsErrOf result PlainRefusal.NumbersUsedUp → is_past_numbers (link_told rows.old notice) ≡ true }
{
    match notice {
        LinkNotice::Cancelled {
            subject,
            server,
            cid,
            sid,
            dtype,
            subscription,
        } => {
            put_subscription(&mut rows.links, subject, server, cid, None);
            let said = ToServer::EventCancel {
                sid,
                id: subscription.id,
                dtype,
                count: subscription.sent,
            };
            Ok(rows.ask(server, said)?)
        }
        LinkNotice::Unread { subject, cid } => {
            forget(rows, subject, cid);
            Ok(())
        }
        LinkNotice::Subscribed {
            subject,
            server,
            cid,
            sid,
            dtype,
            want,
            sent,
        } => subscribe(rows, subject, server, cid, sid, dtype, want, sent),
        LinkNotice::Dropped { server, cid, state } => Ok(drop_link(rows, server, cid, state)?),
    }
}

fn tell_each(rows: &mut PlainRows, notices: &[LinkNotice]) -> Result<(), PlainRefusal>
    ensures ok { OnOk result (rows.new ≡ fold link_told rows.old notices.now) }
    ensures used_up { IsErrOf result PlainRefusal.NumbersUsedUp → is_past_numbers (fold link_told rows.old notices.now) ≡ true }
{
    for notice in notices {
        tell_link(rows, *notice)?;
    }
    Ok(())
}

/// Asks servers for what is wanted of each variable, and drops links that are no longer wanted.
pub(crate) fn tell_links(rows: &mut PlainRows) -> Result<(), PlainRefusal>
    ensures ok { OnOk result (rows.new ≡ links_told rows.old) }
    ensures used_up { IsErrOf result PlainRefusal.NumbersUsedUp → is_past_numbers (links_told rows.old) ≡ true }
{
    let notices = link_notices(rows)?;
    tell_each(rows, &notices)
}
