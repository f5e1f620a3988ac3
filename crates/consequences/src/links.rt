//! What servers are owed about links.
ghost use Rattle.std.specs.Prelude.{◌≡◌, ◌++◌, map, filter, true, false, fold, OnOk, IfOk, IfSome, IsErrOf};
ghost use Rattle.std.specs.List.{list_any};
ghost use Rattle.link_table.specs.Links.{has_other_sub};
ghost use Rattle.gateway_state.specs.Interest.{wanted_for};
ghost use Rattle.gateway_state.specs.Numbers.{is_past_numbers};
ghost use Rattle.gateway_state.specs.Notices.{dropped, interest_notices, link_notices, link_notices_of, link_told, links_told, subject_notices, subscribed_to, with_subscription_of};
ghost use Rattle.gateway_state.specs.Settled.{AreNumbersApart};
ghost use Rattle.gateway_state.specs.Told.{KnowRights};
ghost use Rattle.gateway_state.specs.Variables.{link_of};
ghost use Rattle.touched_rows.specs.Touched.{interest_notices_over, interest_told, is_link_among, link_notices_among, link_notices_over, link_told_on, links_told_among};
ghost use Rattle.touched_rows.specs.Touches.{AreReady};

use ca_message::ToServer;
use gateway_rows::{Known, RowsRefusal};
use gateway_state::{LinkNotice, Native};
use gateway_values::{is_for, sent_for, type_for};
use link_table::{LinkRow, LinkState, Subject, Subscription, TableFault};
use mask_merge::Want;
use pv_name::Name;
use std::alloc::AllocError;
use touched_rows::TouchedNames;

/// What the server of a connected link is owed about a subject of which so much is wanted.
fn add_subject_notices(
    known: &Known,
    notices: &mut Vec<LinkNotice>,
    subject: Subject,
    want: Option<Want>,
    link: &LinkRow,
    sid: u32,
    native: Native,
) -> Result<(), AllocError>
    requires wanted { want ≡ wanted_for subject known.now.state link.now.name native.dtype native.count }
    ensures { OnOk result (notices.new.items ≡ notices.old.items ++ subject_notices subject known.now.state link.now sid native.dtype native.count) }
{
    let (server, cid) = (link.server, link.cid);
    let present = link.subscriptions.at(subject);
    if is_for(want, present) {
        return Ok(());
    }
    let dtype = type_for(subject, native.dtype);
    if let Some(subscription) = present {
        notices.push(LinkNotice::Cancelled {
            subject,
            server,
            cid,
            sid,
            dtype,
            subscription,
        })?;
    }
    let notice = match want {
        None => LinkNotice::Unread { subject, cid },
        Some(want) => LinkNotice::Subscribed {
            subject,
            server,
            cid,
            sid,
            dtype,
            want,
            sent: sent_for(subject, known.minor_of(server), native.count, want.count),
        },
    };
    notices.push(notice)?;
    Ok(())
}

/// What a server is owed because of what the readers of a link's variable want.
fn add_interest_notices(
    known: &Known,
    notices: &mut Vec<LinkNotice>,
    link: &LinkRow,
) -> Result<(), AllocError>
    requires told { KnowRights known.now.state }
    ensures { OnOk result (notices.new.items ≡ notices.old.items ++ interest_notices known.now.state link.now link.now.state) }
{
    let LinkState::Connected { sid, dtype, count } = link.state else {
        return Ok(());
    };
    let native = Native { dtype, count };
    let (values, properties) = known.wanted(&link.name, dtype, count);
    add_subject_notices(known, notices, Subject::Values, values, link, sid, native)?;
    add_subject_notices(
        known,
        notices,
        Subject::Properties,
        properties,
        link,
        sid,
        native,
    )
}

fn add_link_notices(
    known: &Known,
    notices: &mut Vec<LinkNotice>,
    link: &LinkRow,
) -> Result<(), AllocError>
    requires told { KnowRights known.now.state }
    ensures { OnOk result (notices.new.items ≡ notices.old.items ++ link_notices_of known.now.state link.now) }
{
    add_interest_notices(known, notices, link)?;
    if !known.is_wanted(&link.name) {
        notices.push(LinkNotice::Dropped {
            server: link.server,
            cid: link.cid,
            state: link.state,
        })?;
    }
    Ok(())
}

fn link_notices(known: &Known) -> Result<Vec<LinkNotice>, AllocError>
    requires told { KnowRights known.now.state }
    ensures { IfOk result (λ notices. notices.items ≡ link_notices known.now.state) }
{
    let mut notices = Vec::new(known.alloc);
    for link in known.upstream.links(known.alloc)? {
        add_link_notices(known, &mut notices, link)?;
    }
    Ok(notices)
}

/// Keeps a link's present subscription for a subject, or that it has none. Where there is no such link
/// there is nothing to keep.
#[tactic(auto, using(rows::proofs::RowLemmas::change_first_absent))]
fn set_subscription(
    known: &mut Known,
    subject: Subject,
    server: u32,
    cid: u32,
    subscription: Option<Subscription>,
) -> Result<(), AllocError>
    requires new { IfSome subscription (λ s. list_any (has_other_sub server cid subject s.id) known.old.state.upstream.links ≡ false) }
    ensures ok { OnOk result (known.new.state ≡ with_subscription_of subject server cid subscription known.old.state) }
    ensures brand { known.new.brand ≡ known.old.brand }
{
    match known.upstream.set_sub(server, cid, subject, subscription) {
        Ok(()) => Ok(()),
        Err(TableFault::Missing) => Ok(()),
        Err(_) => Err(AllocError),
    }
}

#[tactic(auto, using(gateway_state::proofs::NewNumbers::new_id), unfolding(gateway_state::specs::Telling::sent, gateway_state::specs::Numbers::is_past_numbers))]
fn subscribe(
    known: &mut Known,
    subject: Subject,
    server: u32,
    cid: u32,
    sid: u32,
    dtype: u16,
    want: Want,
    sent: u32,
) -> Result<(), RowsRefusal>
    requires order { AreNumbersApart known.old.state }
    ensures ok { OnOk result (known.new.state ≡ subscribed_to subject server cid sid dtype want sent known.old.state) }
    ensures used_up { IsErrOf result RowsRefusal.NumbersUsedUp → is_past_numbers (subscribed_to subject server cid sid dtype want sent known.old.state) ≡ true }
    ensures brand { known.new.brand ≡ known.old.brand }
{
    let (reuses, first) = (known.limits.reuses_numbers, known.config.first);
    let Some(id) = known.upstream.new_sub_id(reuses, first, server) else {
        return Err(RowsRefusal::NumbersUsedUp);
    };
    let subscription = Subscription {
        id,
        mask: want.mask,
        count: want.count,
        sent,
    };
    set_subscription(known, subject, server, cid, Some(subscription))?;
    known.ask(
        server,
        &ToServer::EventAdd {
            sid,
            id,
            dtype,
            count: sent,
            mask: want.mask,
        },
    )?;
    Ok(())
}

fn drop_link(known: &mut Known, server: u32, cid: u32, state: LinkState) -> Result<(), AllocError>
    ensures ok { OnOk result (known.new.state ≡ dropped server cid state known.old.state) }
    ensures brand { known.new.brand ≡ known.old.brand }
{
    known.remove_link(server, cid);
    match state {
        LinkState::Creating => Ok(()),
        LinkState::Unusable => Ok(()),
        LinkState::Connected { sid, .. } => {
            known.ask(server, &ToServer::ClearChannel { sid, cid })
        }
    }
}

fn tell_link(known: &mut Known, notice: LinkNotice) -> Result<(), RowsRefusal>
    requires order { AreNumbersApart known.old.state }
    ensures ok { OnOk result (known.new.state ≡ link_told known.old.state notice) }
    ensures used_up { IsErrOf result RowsRefusal.NumbersUsedUp → is_past_numbers (link_told known.old.state notice) ≡ true }
    ensures brand { known.new.brand ≡ known.old.brand }
{
    match notice {
        LinkNotice::Cancelled {
            subject,
            server,
            cid,
            sid,
            dtype,
            subscription,
        } => {
            set_subscription(known, subject, server, cid, None)?;
            let said = ToServer::EventCancel {
                sid,
                id: subscription.id,
                dtype,
                count: subscription.sent,
            };
            known.ask(server, &said)?;
            Ok(())
        }
        LinkNotice::Unread { subject, cid } => {
            known.forget(subject, cid);
            Ok(())
        }
        LinkNotice::Subscribed {
            subject,
            server,
            cid,
            sid,
            dtype,
            want,
            sent,
        } => subscribe(known, subject, server, cid, sid, dtype, want, sent),
        LinkNotice::Dropped { server, cid, state } => {
            drop_link(known, server, cid, state)?;
            Ok(())
        }
    }
}

#[tactic(auto, using(gateway_state::proofs::NumbersKept::numbers_told))]
fn tell_each(known: &mut Known, notices: &[LinkNotice]) -> Result<(), RowsRefusal>
    requires order { AreNumbersApart known.old.state }
    ensures ok { OnOk result (known.new.state ≡ fold link_told known.old.state notices.now) }
    ensures used_up { IsErrOf result RowsRefusal.NumbersUsedUp → is_past_numbers (fold link_told known.old.state notices.now) ≡ true }
    ensures brand { known.new.brand ≡ known.old.brand }
{
    for notice in notices {
        tell_link(known, *notice)?;
    }
    Ok(())
}

/// Asks servers for what is wanted of each variable, and drops links that are no longer wanted.
pub(crate) fn tell_links(known: &mut Known) -> Result<(), RowsRefusal>
    requires order { AreNumbersApart known.old.state }
    requires told { KnowRights known.old.state }
    ensures ok { OnOk result (known.new.state ≡ links_told known.old.state) }
    ensures used_up { IsErrOf result RowsRefusal.NumbersUsedUp → is_past_numbers (links_told known.old.state) ≡ true }
    ensures brand { known.new.brand ≡ known.old.brand }
{
    let notices = link_notices(known)?;
    tell_each(known, &notices)
}

fn interest_notices_on(known: &Known, name: &Name) -> Result<Vec<LinkNotice>, AllocError>
    requires told { KnowRights known.now.state }
    ensures { IfOk result (λ notices. notices.items ≡ interest_notices_over known.now.state (link_of known.now.state name.now)) }
{
    let mut notices = Vec::new(known.alloc);
    if let Some(link) = known.link_of(name) {
        add_interest_notices(known, &mut notices, link)?;
    }
    Ok(notices)
}

/// Asks one variable's server for what is wanted of it.
pub(crate) fn tell_interest(known: &mut Known, name: &Name) -> Result<(), RowsRefusal>
    requires order { AreNumbersApart known.old.state }
    requires told { KnowRights known.old.state }
    ensures ok { OnOk result (known.new.state ≡ interest_told name.now known.old.state) }
    ensures used_up { IsErrOf result RowsRefusal.NumbersUsedUp → is_past_numbers (interest_told name.now known.old.state) ≡ true }
    ensures brand { known.new.brand ≡ known.old.brand }
{
    let notices = interest_notices_on(known, name)?;
    tell_each(known, &notices)
}

fn link_notices_on(known: &Known, name: &Name) -> Result<Vec<LinkNotice>, AllocError>
    requires told { KnowRights known.now.state }
    ensures { IfOk result (λ notices. notices.items ≡ link_notices_over known.now.state (link_of known.now.state name.now)) }
{
    let mut notices = Vec::new(known.alloc);
    if let Some(link) = known.link_of(name) {
        add_link_notices(known, &mut notices, link)?;
    }
    Ok(notices)
}

/// The same, and drops its link where it is no longer wanted.
pub(crate) fn tell_link_on(known: &mut Known, name: &Name) -> Result<(), RowsRefusal>
    requires order { AreNumbersApart known.old.state }
    requires told { KnowRights known.old.state }
    ensures ok { OnOk result (known.new.state ≡ link_told_on name.now known.old.state) }
    ensures used_up { IsErrOf result RowsRefusal.NumbersUsedUp → is_past_numbers (link_told_on name.now known.old.state) ≡ true }
    ensures brand { known.new.brand ≡ known.old.brand }
{
    let notices = link_notices_on(known, name)?;
    tell_each(known, &notices)
}

/// The links of these variables, each once, in the order of links.
fn links_among<'a>(known: &'a Known, names: &TouchedNames) -> Result<Vec<&'a LinkRow>, AllocError>
    ensures { IfOk result (λ links. map (λ link. link.now) links.items ≡ filter (is_link_among names.now) known.now.state.upstream.links) }
{
    known.upstream.links_named(known.alloc, names.as_slice())
}

/// The notices on the links of these variables.
fn link_notices_among(known: &Known, names: &TouchedNames) -> Result<Vec<LinkNotice>, AllocError>
    requires told { KnowRights known.now.state }
    ensures { IfOk result (λ notices. notices.items ≡ link_notices_among names.now known.now.state) }
{
    let mut notices = Vec::new(known.alloc);
    for link in links_among(known, names)? {
        add_link_notices(known, &mut notices, link)?;
    }
    Ok(notices)
}

/// The same of each of these variables, in the order of their links.
pub(crate) fn tell_links_among(known: &mut Known, names: &TouchedNames) -> Result<(), RowsRefusal>
    requires order { AreNumbersApart known.old.state }
    requires ready { AreReady known.old.state }
    ensures ok { OnOk result (known.new.state ≡ links_told_among names.now known.old.state) }
    ensures used_up { IsErrOf result RowsRefusal.NumbersUsedUp → is_past_numbers (links_told_among names.now known.old.state) ≡ true }
    ensures brand { known.new.brand ≡ known.old.brand }
{
    let notices = link_notices_among(known, names)?;
    tell_each(known, &notices)
}
