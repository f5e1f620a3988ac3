//! What a server's message does by itself, and links to variables that servers have.
ghost use Rattle.std.specs.Prelude.{◌≡◌, true, IsErrOf, OnOk};
ghost use Rattle.gateway_state.specs.Numbers.{is_past_numbers};
ghost use Rattle.gateway_state.specs.Servers.{channel_dropped, channel_made, channel_returned, creation_refused, found, linked, rights_said, server_said};

use crate::update::update;
use crate::write::end_write;
use ca_header::Message;
use ca_message::{NameText, ServerReply, ToServer, read_reply};
use gateway_state::Dest;
use gateway_values::{is_creating, is_usable};
use link_table::{Counter, LinkRow, LinkState, Subscriptions};
use plain_rows::lists::find;
use plain_rows::numbers::PlainRefusal;
use plain_rows::state::PlainRows;
use plain_rows::upstream::{LinkAt, put_minor, put_state};
use pv_name::Name;
use std::alloc::AllocError;

/// A server sent a message.
pub(crate) fn hear_server(
    rows: &mut PlainRows,
    server: u32,
    message: &Message,
) -> Result<(), AllocError>
    ensures { OnOk result (rows.new ≡ server_said rows.old server message.now) }
{
    match read_reply(&message.head, &message.payload) {
        Ok(ServerReply::Version { minor }) => {
            put_minor(&mut rows.servers, server, minor);
            Ok(())
        }
        Ok(
            ServerReply::EventAdd {
                id,
                status,
                dtype,
                count,
                ..
            },
        ) => { update(rows, server, id, status, dtype, count, &message.payload) }
        Ok(
            ServerReply::CreateChannel {
                cid,
                sid,
                dtype,
                count,
            },
        ) => make_channel(rows, server, cid, sid, dtype, count),
        Ok(ServerReply::AccessRights { cid, rights }) => {
            hear_rights(rows, server, cid, rights);
            Ok(())
        }
        Ok(ServerReply::CreateChannelFail { cid }) => {
            hear_refusal(rows, server, cid);
            Ok(())
        }
        Ok(ServerReply::ServerDisconnect { cid }) => {
            hear_disconnect(rows, server, cid);
            Ok(())
        }
        Ok(ServerReply::WriteNotify { ioid, status }) => end_write(rows, server, ioid, status),
        Err(_) => Ok(()),
    }
}

/// The gateway gives up a channel that it doesn't want.
fn return_channel(rows: &mut PlainRows, server: u32, sid: u32, cid: u32) -> Result<(), AllocError>
    ensures { OnOk result (rows.new ≡ channel_returned server sid cid rows.old) }
{
    rows.ask(server, ToServer::ClearChannel { sid, cid })
}

/// A server made a channel.
fn make_channel(
    rows: &mut PlainRows,
    server: u32,
    cid: u32,
    sid: u32,
    dtype: u16,
    count: u32,
) -> Result<(), AllocError>
    ensures { OnOk result (rows.new ≡ channel_made rows.old server cid sid dtype count) }
{
    let Some(link) = find(&rows.links, LinkAt { server, cid }) else {
        return return_channel(rows, server, sid, cid);
    };
    if !is_creating(link.state) {
        return Ok(());
    }
    let rights = link.rights;
    if is_usable(dtype, count) {
        let state = LinkState::Connected { sid, dtype, count };
        put_state(&mut rows.links, server, cid, state, rights);
        return Ok(());
    }
    put_state(&mut rows.links, server, cid, LinkState::Unusable, rights);
    return_channel(rows, server, sid, cid)
}

/// A server said what may be done with a channel.
fn hear_rights(rows: &mut PlainRows, server: u32, cid: u32, rights: u32)
    ensures { rows.new ≡ rights_said rows.old server cid rights }
{
    if let Some(link) = find(&rows.links, LinkAt { server, cid }) {
        let state = link.state;
        put_state(&mut rows.links, server, cid, state, rights);
    }
}

/// A server didn't make a channel.
fn hear_refusal(rows: &mut PlainRows, server: u32, cid: u32)
    ensures { rows.new ≡ creation_refused rows.old server cid }
{
    if let Some(link) = find(&rows.links, LinkAt { server, cid }) {
        if is_creating(link.state) {
            rows.remove_link(server, cid);
        }
    }
}

/// A server dropped a channel.
fn hear_disconnect(rows: &mut PlainRows, server: u32, cid: u32)
    ensures { rows.new ≡ channel_dropped rows.old server cid }
{
    if let Some(_) = find(&rows.links, LinkAt { server, cid }) {
        rows.remove_link(server, cid);
    }
}

/// A server has a variable.
pub(crate) fn find_at(rows: &mut PlainRows, name: &Name, server: u32) -> Result<(), PlainRefusal>
    ensures ok { OnOk result (rows.new ≡ found rows.old name.now server) }
    ensures used_up { IsErrOf result PlainRefusal.NumbersUsedUp → is_past_numbers (found rows.old name.now server) ≡ true }
{
    let limit = rows.limits.links;
    if rows.is_missing(name) && rows.acts(Dest::Upstream(server)) && rows.links.len() < limit {
        make_link(rows, server, name)
    } else {
        Ok(())
    }
}

/// Makes a link, and asks the server for a channel.
#[tactic(auto, unfolding(gateway_state::specs::Telling::sent, gateway_state::specs::Numbers::is_past_numbers))]
fn make_link(rows: &mut PlainRows, server: u32, name: &Name) -> Result<(), PlainRefusal>
    ensures ok { OnOk result (rows.new ≡ linked rows.old server name.now) }
    ensures used_up { IsErrOf result PlainRefusal.NumbersUsedUp → is_past_numbers (linked rows.old server name.now) ≡ true }
{
    let Some(cid) = rows.give_out(Counter::Cid, server) else {
        return Err(PlainRefusal::NumbersUsedUp);
    };
    let link = LinkRow {
        cid,
        server,
        name: name.copy()?,
        state: LinkState::Creating,
        rights: 0,
        subscriptions: Subscriptions {
            values: None,
            properties: None,
        },
    };
    if rows.links.push(link).is_err() {
        return Err(PlainRefusal::OutOfMemory);
    }
    let said = ToServer::CreateChannel {
        cid,
        name: NameText::from(name),
    };
    Ok(rows.ask(server, said)?)
}
