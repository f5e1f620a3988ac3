//! The pass over channels: what clients are owed about them.
ghost use Rattle.std.specs.Prelude.{◌≡◌, true, filter, IfOk, OnOk};
ghost use Rattle.named_rows.specs.Subs.{is_sub_on};
ghost use Rattle.gateway_state.specs.Notices.{channel_notice, channel_notices, channel_told, channels_told, loses_reading, reading_ended};
ghost use Rattle.gateway_state.specs.Rights.{channel_of};

use ca_message::ToClient;
use channel_table::{Channel, ClientSub};
use gateway_state::ChannelNotice;
use gateway_values::may_read;
use plain_rows::clients::put_channel;
use plain_rows::state::PlainRows;
use std::alloc::AllocError;

/// What is owed about a channel: that it is gone, or that its rights changed.
fn channel_notice(rows: &PlainRows, channel: &Channel) -> Result<Option<ChannelNotice>, AllocError>
    ensures { IfOk result (λ notice. notice ≡ channel_notice rows.now channel.now) }
{
    let (session, sid, cid) = (channel.session, channel.sid, channel.cid);
    if !rows.is_served(channel)? {
        return Ok(Some(ChannelNotice::Disconnected { session, sid, cid }));
    }
    let rights = rows.rights_of(channel)?;
    if channel.rights_told == rights {
        return Ok(None);
    }
    Ok(Some(ChannelNotice::RightsChanged {
        session,
        sid,
        cid,
        reach: channel.reach,
        rights,
    }))
}

fn channel_notices(rows: &PlainRows) -> Result<Vec<ChannelNotice>, AllocError>
    ensures { IfOk result (λ notices. notices.items ≡ channel_notices rows.now) }
{
    let mut notices = Vec::new(rows.alloc);
    for channel in &rows.channels {
        if let Some(notice) = channel_notice(rows, channel)? {
            notices.push(notice)?;
        }
    }
    Ok(notices)
}

/// Whether a channel could be read, and may not be with these rights, where that is told.
fn loses_reading(rows: &PlainRows, session: u32, sid: u32, rights: u32) -> bool
    ensures { result ≡ loses_reading rows.now rights (channel_of rows.now session sid) }
{
    rows.limits.tells_unreadable
        && match rows.channel_of(session, sid) {
            Some(channel) => may_read(channel.rights_told) && !may_read(rights),
            None => false,
        }
}

/// The subscriptions on a channel.
fn subs_on(rows: &PlainRows, session: u32, sid: u32) -> Result<Vec<ClientSub>, AllocError>
    ensures { IfOk result (λ subs. subs.items ≡ filter (is_sub_on session sid) rows.now.clients.subs) }
{
    let mut subs = Vec::new(rows.alloc);
    for sub in &rows.subs {
        if sub.session == session && sub.sid == sid {
            subs.push(*sub)?;
        }
    }
    Ok(subs)
}

/// Tells each subscription on a channel that the channel may not be read.
fn end_reading(rows: &mut PlainRows, session: u32, sid: u32) -> Result<(), AllocError>
    ensures { OnOk result (rows.new ≡ reading_ended session sid true rows.old) }
{
    for sub in &subs_on(rows, session, sid)? {
        rows.tell_unreadable(sub)?;
    }
    Ok(())
}

fn tell_channel(rows: &mut PlainRows, notice: ChannelNotice) -> Result<(), AllocError>
    ensures { OnOk result (rows.new ≡ channel_told rows.old notice) }
{
    match notice {
        ChannelNotice::Disconnected { session, sid, cid } => {
            rows.remove_channel(session, sid);
            rows.tell(session, ToClient::ServerDisconnect { cid })
        }
        ChannelNotice::RightsChanged {
            session,
            sid,
            cid,
            reach,
            rights,
        } => {
            let ends = loses_reading(rows, session, sid, rights);
            put_channel(&mut rows.channels, session, sid, reach, rights);
            rows.tell(session, ToClient::AccessRights { cid, rights })?;
            if ends {
                end_reading(rows, session, sid)?;
            }
            Ok(())
        }
    }
}

/// Tells clients of channels that are gone, and of rights that changed.
pub(crate) fn tell_channels(rows: &mut PlainRows) -> Result<(), AllocError>
    ensures { OnOk result (rows.new ≡ channels_told rows.old) }
{
    let notices = channel_notices(rows)?;
    for notice in &notices {
        tell_channel(rows, *notice)?;
    }
    Ok(())
}
