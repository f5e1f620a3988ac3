//! Channels and subscriptions that come, go or change, with what they ask for.
ghost use Rattle.std.specs.Prelude.{◌≡◌, [], ◌∷◌, ◌++◌, false, length, OnOk, OnErr};
ghost use Rattle.std.specs.List.{filter, find, list_any};
ghost use Rattle.rows.specs.Rows.{change_first};
ghost use Rattle.mask_merge.specs.Counts.{counted_with, counted_without};
ghost use Rattle.row_index.specs.Lists.{is_key, of, AddsTo, RemovesFrom, SameLists};
ghost use Rattle.named_rows.specs.Channels.{is_channel, is_not_channel, with_reach_and_rights};
ghost use Rattle.named_rows.specs.Indexes.{sub_key};
ghost use Rattle.named_rows.specs.Subs.{is_sub, is_not_sub};
ghost use Rattle.named_rows.specs.Demand.{ask_of_sub, channel_ask, may_read, AreCounts, IsCounted, IsRecounted, IsUncounted, ChangesDemand, SameDemand};

use crate::asks::{self, may_read};
use crate::channels::{Channel, Channels, Reach};
use crate::demand::Demand;
use crate::subs::{ClientSub, Subs};
use std::alloc::AllocError;

/// Adds a channel. At an error it is let go, and all else is as before.
pub fn add_channel(
    channels: &mut Channels,
    demand: &mut Demand,
    channel: Channel,
) -> Result<(), AllocError>
    requires new { list_any (is_channel channel.session channel.sid) channels.old ≡ false }
    ensures ok { OnOk result (channels.new ≡ channels.old ++ channel ∷ []) }
    ensures ok_demand { OnOk result (ChangesDemand channel.real (counted_with (channel_ask channel)) demand.old demand.new) }
    ensures err { OnErr result (channels.new ≡ channels.old) }
    ensures err_demand { OnErr result (SameDemand demand.old demand.new) }
{
    let (session, sid) = (channel.session, channel.sid);
    channels.add(channel)?;
    match count_channel(channels, demand, session, sid) {
        Ok(()) => Ok(()),
        Err(e) => {
            channels.remove(session, sid);
            Err(e)
        }
    }
}

/// Counts what a channel that stands asks for.
fn count_channel(
    channels: &Channels,
    demand: &mut Demand,
    session: u32,
    sid: u32,
) -> Result<(), AllocError>
    ensures ok { OnOk result (IsCounted (find (is_channel session sid) channels.now) demand.old demand.new) }
    ensures err { OnErr result (SameDemand demand.old demand.new) }
{
    match channels.get(session, sid) {
        Some(channel) => demand.add(&channel.real, asks::of_channel(channel)),
        None => Ok(()),
    }
}

/// Changes a channel that stands: its reach and the rights last told. This takes no memory.
pub fn put_channel(
    channels: &mut Channels,
    subs: &Subs,
    demand: &mut Demand,
    session: u32,
    sid: u32,
    reach: Reach,
    rights: u32,
)
    ensures put { channels.new ≡ change_first (is_channel session sid) (with_reach_and_rights reach rights) channels.old }
    ensures demand { IsRecounted (find (is_channel session sid) channels.old) reach rights subs.now.rows demand.old demand.new }
{
    if let Some(channel) = channels.get(session, sid) {
        recount(subs, demand, channel, reach, rights);
    }
    channels.put(session, sid, reach, rights);
}

/// A channel and the subscriptions on it ask for something else.
fn recount(subs: &Subs, demand: &mut Demand, channel: &Channel, reach: Reach, rights: u32)
    ensures { IsRecounted (Some channel.now) reach rights subs.now.rows demand.old demand.new }
{
    let (before, after) = (may_read(channel.rights_told), may_read(rights));
    if asks::differ(before, after) {
        demand.exchange_on(
            &channel.real,
            subs,
            channel.session,
            channel.sid,
            before,
            after,
        );
    }
    demand.exchange(
        &channel.real,
        asks::of_channel(channel),
        asks::of_reach(reach, rights),
    );
}

/// Removes a channel. This takes no memory.
pub fn remove_channel(channels: &mut Channels, demand: &mut Demand, session: u32, sid: u32)
    ensures rows { channels.new ≡ filter (is_not_channel session sid) channels.old }
    ensures demand { IsUncounted (find (is_channel session sid) channels.old) demand.old demand.new }
{
    if let Some(channel) = channels.get(session, sid) {
        demand.remove(&channel.real, asks::of_channel(channel));
    }
    channels.remove(session, sid);
}

/// Adds a subscription on a channel. At an error nothing changes.
pub fn add_sub(
    subs: &mut Subs,
    demand: &mut Demand,
    channel: &Channel,
    sub: ClientSub,
) -> Result<(), AllocError>
    requires new { list_any (is_sub sub.session sub.id) subs.old.rows ≡ false }
    requires unlisted { length (filter (is_key (sub_key sub)) (of subs.old.on channel.now.real)) ≡ 0 }
    requires counts { AreCounts demand.old }
    ensures ok_rows { OnOk result (subs.new.rows ≡ subs.old.rows ++ sub ∷ []) }
    ensures ok_on { OnOk result (AddsTo channel.now.real (sub_key sub) subs.old.on subs.new.on) }
    ensures ok_demand { OnOk result (ChangesDemand channel.now.real (counted_with (ask_of_sub (may_read channel.now.rights_told) sub)) demand.old demand.new) }
    ensures err_rows { OnErr result (subs.new.rows ≡ subs.old.rows) }
    ensures err_on { OnErr result (SameLists subs.old.on subs.new.on) }
    ensures err_demand { OnErr result (SameDemand demand.old demand.new) }
{
    let ask = asks::of_sub(may_read(channel.rights_told), &sub);
    demand.add(&channel.real, ask)?;
    match subs.add(&channel.real, sub) {
        Ok(()) => Ok(()),
        Err(e) => {
            demand.remove(&channel.real, ask);
            Err(e)
        }
    }
}

/// Removes a subscription on a channel, by its IDs. This takes no memory.
pub fn remove_sub(
    subs: &mut Subs,
    demand: &mut Demand,
    channel: &Channel,
    sub: &ClientSub,
    session: u32,
    id: u32,
)
    ensures rows { subs.new.rows ≡ filter (is_not_sub session id) subs.old.rows }
    ensures on { RemovesFrom channel.now.real (record { owner = session; id = id }) subs.old.on subs.new.on }
    ensures demand { ChangesDemand channel.now.real (counted_without (ask_of_sub (may_read channel.now.rights_told) sub.now)) demand.old demand.new }
{
    let asked = asks::of_sub(may_read(channel.rights_told), sub);
    subs.remove(&channel.real, session, id);
    demand.remove(&channel.real, asked);
}
