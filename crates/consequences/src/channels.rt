//! What clients are owed about their channels.
ghost use Rattle.std.specs.Prelude.{◌≡◌, ◌≤◌, ◌+◌, ◌*◌, true, filter, fold, length, OnOk, IfOk};
ghost use Rattle.named_rows.specs.Subs.{is_sub_on};
ghost use Rattle.channel_table.specs.Looks.{GoesOn, IsCounted};
ghost use Rattle.consequences.specs.Looks.{notice_looks, notices_looks};
ghost use Rattle.gateway_rows.specs.Looked.{Looked, LookedOn, OnlyLooked};
ghost use Rattle.gateway_rows.specs.Own.{channels_on, subs_on};
ghost use Rattle.gateway_state.specs.Notices.{channel_notice, channel_notices, channel_told, channels_told, loses_reading, reading_ended, with_reach};
ghost use Rattle.gateway_state.specs.Rights.{channel_of};
ghost use Rattle.gateway_state.specs.Settled.{HasSidsApart};
ghost use Rattle.gateway_state.specs.Subscribing.{unreadable_told};
ghost use Rattle.touched_rows.specs.Touched.{channel_notices_on, channels_told_on};

use ca_message::ToClient;
use channel_table::{Channel, ClientSub, Reach, Visits};
use gateway_rows::{CountedRows, Known};
use gateway_state::ChannelNotice;
use gateway_values::may_read;
use pv_name::Name;
use std::alloc::AllocError;

/// That a channel is gone.
pub(crate) fn disconnected(channel: &Channel) -> ChannelNotice
    ensures { result ≡ ChannelNotice.Disconnected channel.now.session channel.now.sid channel.now.cid }
{
    ChannelNotice::Disconnected {
        session: channel.session,
        sid: channel.sid,
        cid: channel.cid,
    }
}

/// What is owed about a channel: that it is gone, or that its rights changed. Where its link is gone no rule
/// is looked at.
#[tactic(auto, using(crate::proofs::GoneChannels::gone_with_link))]
fn channel_notice(
    known: &Known,
    visits: &mut Visits,
    channel: &Channel,
) -> Result<Option<ChannelNotice>, AllocError>
    requires own { visits.old.brand ≡ known.now.brand }
    ensures found { IfOk result (λ notice. notice ≡ channel_notice known.now.state channel.now) }
    ensures looked { IsCounted 1 visits.old visits.new }
{
    if !known.is_link_connected(&channel.real) {
        return Ok(Some(disconnected(channel)));
    }
    let lead = known.lead_in(visits, channel.session, &channel.asked)?;
    if !known.is_served_by(channel, lead.as_ref()) {
        return Ok(Some(disconnected(channel)));
    }
    let rights = known.rights_by(channel, lead.as_ref());
    if channel.rights_told == rights {
        return Ok(None);
    }
    Ok(Some(ChannelNotice::RightsChanged {
        session: channel.session,
        sid: channel.sid,
        cid: channel.cid,
        reach: channel.reach,
        rights,
    }))
}

fn channel_notices(known: &Known, visits: &mut Visits) -> Result<Vec<ChannelNotice>, AllocError>
    requires own { visits.old.brand ≡ known.now.brand }
    ensures found { IfOk result (λ notices. notices.items ≡ channel_notices known.now.state) }
    ensures looked { GoesOn visits.old visits.new }
{
    let mut notices = Vec::new(known.alloc);
    for channel in known.clients.channels(visits, known.alloc)? {
        if let Some(notice) = channel_notice(known, visits, channel)? {
            notices.push(notice)?;
        }
    }
    Ok(notices)
}

/// What is owed about the channels on a variable.
fn channel_notices_on(
    known: &Known,
    visits: &mut Visits,
    name: &Name,
) -> Result<Vec<ChannelNotice>, AllocError>
    requires own { visits.old.brand ≡ known.now.brand }
    ensures found { IfOk result (λ notices. notices.items ≡ channel_notices_on name.now known.now.state) }
    ensures looked { IsCounted (2 * channels_on known.now.state name.now) visits.old visits.new }
{
    let mut notices = Vec::new(known.alloc);
    for channel in known.channels_on(visits, name)? {
        if let Some(notice) = channel_notice(known, visits, channel)? {
            notices.push(notice)?;
        }
    }
    Ok(notices)
}

fn set_rights(rows: &mut CountedRows, session: u32, sid: u32, reach: Reach, rights: u32)
    ensures ok { rows.new.state ≡ with_reach session sid reach rights rows.old.state }
    ensures looked { Looked 1 rows.old rows.new }
{
    rows.known
        .clients
        .put_channel(&mut rows.visits, session, sid, reach, rights);
}

/// Whether a channel could be read, and may not be with these rights, where that is told.
fn loses_reading(rows: &mut CountedRows, session: u32, sid: u32, rights: u32) -> bool
    ensures found { result ≡ loses_reading rows.old.state rights (channel_of rows.old.state session sid) }
    ensures looked { OnlyLooked 1 rows.old rows.new }
{
    rows.known.limits.tells_unreadable
        && match rows.known.channel_of(&mut rows.visits, session, sid) {
            Some(channel) => may_read(channel.rights_told) && !may_read(rights),
            None => false,
        }
}

/// Tells each of these subscriptions that its channel may not be read.
fn tell_unreadable(known: &mut Known, subs: &[ClientSub]) -> Result<(), AllocError>
    ensures ok { OnOk result (known.new.state ≡ fold unreadable_told known.old.state subs.now) }
    ensures brand { known.new.brand ≡ known.old.brand }
{
    for sub in subs {
        known.tell_unreadable(sub)?;
    }
    Ok(())
}

/// Tells each subscription on a channel that the channel may not be read.
fn end_reading(rows: &mut CountedRows, session: u32, sid: u32) -> Result<(), AllocError>
    ensures ok { OnOk result (rows.new.state ≡ reading_ended session sid true rows.old.state) }
    ensures looked { LookedOn rows.old rows.new }
    ensures bound { OnOk result (rows.new.count.looks ≤ rows.old.count.looks + length (filter (is_sub_on session sid) rows.old.state.clients.subs)) }
{
    let subs = rows
        .known
        .clients
        .subs_on_channel(&mut rows.visits, rows.known.alloc, session, sid)?;
    tell_unreadable(&mut rows.known, &subs)
}

fn tell_channel(rows: &mut CountedRows, notice: ChannelNotice) -> Result<(), AllocError>
    ensures ok { OnOk result (rows.new.state ≡ channel_told rows.old.state notice) }
    ensures looked { LookedOn rows.old rows.new }
    ensures bound { OnOk result (rows.new.count.looks ≤ rows.old.count.looks + notice_looks rows.old.state notice) }
{
    match notice {
        ChannelNotice::Disconnected { session, sid, cid } => {
            rows.known.remove_channel(session, sid);
            rows.known
                .tell(session, &ToClient::ServerDisconnect { cid })
        }
        ChannelNotice::RightsChanged {
            session,
            sid,
            cid,
            reach,
            rights,
        } => {
            let ends = loses_reading(rows, session, sid, rights);
            set_rights(rows, session, sid, reach, rights);
            rows.known
                .tell(session, &ToClient::AccessRights { cid, rights })?;
            if ends {
                end_reading(rows, session, sid)?;
            }
            Ok(())
        }
    }
}

pub(crate) fn tell_each(rows: &mut CountedRows, notices: &[ChannelNotice]) -> Result<(), AllocError>
    ensures ok { OnOk result (rows.new.state ≡ fold channel_told rows.old.state notices.now) }
    ensures looked { LookedOn rows.old rows.new }
    ensures bound { OnOk result (rows.new.count.looks ≤ rows.old.count.looks + notices_looks rows.old.state notices.now) }
{
    for notice in notices {
        tell_channel(rows, *notice)?;
    }
    Ok(())
}

/// Tells clients of channels that are gone, and of rights that changed.
pub(crate) fn tell_channels(rows: &mut CountedRows) -> Result<(), AllocError>
    ensures ok { OnOk result (rows.new.state ≡ channels_told rows.old.state) }
    ensures looked { LookedOn rows.old rows.new }
{
    let notices = channel_notices(&rows.known, &mut rows.visits)?;
    tell_each(rows, &notices)
}

/// The same of the channels on one variable.
#[tactic(auto, using(crate::proofs::RightsLooks::told_looks))]
pub(crate) fn tell_channels_on(rows: &mut CountedRows, name: &Name) -> Result<(), AllocError>
    requires apart { HasSidsApart rows.old.state }
    ensures ok { OnOk result (rows.new.state ≡ channels_told_on name.now rows.old.state) }
    ensures looked { LookedOn rows.old rows.new }
    ensures bound { OnOk result (rows.new.count.looks ≤ rows.old.count.looks + 4 * channels_on rows.old.state name.now + subs_on rows.old.state name.now) }
{
    let notices = channel_notices_on(&rows.known, &mut rows.visits, name)?;
    tell_each(rows, &notices)
}
