//! The table's channels.
ghost use Rattle.std.specs.Prelude.{◌≡◌, ◌≤◌, ◌<◌, ◌↔◌, [], ◌∷◌, ◌++◌, length, map, slice_get, true, false, Err, OnOk, OnErr, IfOk, IsErrOf};
ghost use Rattle.std.specs.List.{filter, find, list_any};
ghost use Rattle.std.specs.Option.{option_copied};
ghost use Rattle.rows.specs.Rows.{change_first};
ghost use Rattle.named_rows.specs.Channels.{count_on_each, is_channel, is_channel_of, is_on, is_on_any, with_reach_and_rights};
ghost use Rattle.channel_table.specs.ClientRows.{has_session, has_channel, channel_count};
ghost use Rattle.channel_table.specs.Looks.{IsCounted, IsCountedExactly};

use super::{CHANNEL_LIMIT, Table, TableFault};
use crate::visits::Visits;
use named_rows::{Channel, Reach, counted_rows};
use pv_name::Name;
use std::alloc::{AllocError, Global};

impl Table {
    /// All channels, in the order in which they were added.
    pub fn channels<'a>(
        &'a self,
        visits: &mut Visits,
        alloc: Global,
    ) -> Result<Vec<&'a Channel>, AllocError>
        requires own { visits.old.brand ≡ self.now.brand }
        ensures all { IfOk result (λ rows. map (λ row. row.now) rows.items ≡ self.now.rows.channels) }
        ensures looked { IsCountedExactly (length self.now.rows.channels) visits.old visits.new }
    {
        visits.count(self.channels.len());
        self.channels.all(alloc)
    }

    /// The session's channel of this ID.
    pub fn channel<'a>(&'a self, visits: &mut Visits, session: u32, sid: u32) -> Option<&'a Channel>
        requires own { visits.old.brand ≡ self.now.brand }
        ensures found { option_copied result ≡ find (is_channel session sid) self.now.rows.channels }
        ensures looked { IsCountedExactly 1 visits.old visits.new }
    {
        visits.count(1);
        self.channels.get(session, sid)
    }

    /// Whether the session has a channel of this ID. It hands out none.
    pub fn has_channel(&self, session: u32, sid: u32) -> bool
        ensures { result ≡ has_channel session sid self.now.rows }
    {
        self.channels.contains(session, sid)
    }

    /// How many channels of the session stand.
    pub fn channel_count(&self, session: u32) -> usize
        ensures { result ≡ channel_count session self.now.rows }
    {
        self.channels.count_of(session)
    }

    /// How many channels stand, of all sessions.
    pub fn all_channels(&self) -> usize
        ensures { result ≡ length self.now.rows.channels }
    {
        self.channels.len()
    }

    /// The session's nth channel, counted from 0 in the order in which they were added.
    pub fn nth_channel_of<'a>(
        &'a self,
        visits: &mut Visits,
        session: u32,
        n: usize,
    ) -> Option<&'a Channel>
        requires own { visits.old.brand ≡ self.now.brand }
        ensures nth { option_copied result ≡ slice_get (filter (is_channel_of session) self.now.rows.channels) n }
        ensures looked { IsCountedExactly 1 visits.old visits.new }
    {
        visits.count(1);
        self.channels.nth_of(session, n)
    }

    /// Whether a channel is on this real name.
    pub fn is_used(&self, name: &Name) -> bool
        ensures { result ≡ list_any (is_on name.now) self.now.rows.channels }
    {
        self.channels.is_used(name)
    }

    /// How many channels are on this real name.
    pub fn channels_on(&self, name: &Name) -> usize
        ensures { result ≡ length (filter (is_on name.now) self.now.rows.channels) }
    {
        self.channels.count_on(name)
    }

    /// The nth channel on this real name, counted from 0 in the order in which they were added.
    pub fn channel_on<'a>(
        &'a self,
        visits: &mut Visits,
        name: &Name,
        n: usize,
    ) -> Option<&'a Channel>
        requires own { visits.old.brand ≡ self.now.brand }
        ensures nth { option_copied result ≡ slice_get (filter (is_on name.now) self.now.rows.channels) n }
        ensures looked { IsCountedExactly 1 visits.old visits.new }
    {
        visits.count(1);
        self.channels.nth_on(name, n)
    }

    /// The channels on any of these real names, each once, in the order in which they were added. As many are
    /// counted as looked at as are on each of the names.
    pub fn channels_on_any<'a>(
        &'a self,
        visits: &mut Visits,
        alloc: Global,
        names: &[Name],
    ) -> Result<Vec<&'a Channel>, AllocError>
        requires own { visits.old.brand ≡ self.now.brand }
        ensures found { IfOk result (λ rows. map (λ row. row.now) rows.items ≡ filter (is_on_any names.now) self.now.rows.channels) }
        ensures looked { IsCounted (count_on_each names.now self.now.rows.channels) visits.old visits.new }
        ensures exact { OnOk result (IsCountedExactly (count_on_each names.now self.now.rows.channels) visits.old visits.new) }
    {
        let keys = self.channels.keys_on_each(alloc, names)?;
        visits.count(keys.len());
        self.channels.on_any(alloc, names, &keys)
    }

    /// Adds a channel to the session that it names. The caller sees to it that none of its ID stands
    /// there.
    pub fn add_channel(&mut self, channel: Channel) -> Result<(), TableFault>
        requires new { has_channel channel.session channel.sid self.old.rows ≡ false }
        ensures ok { OnOk result (self.new.rows ≡ record self.old.rows { channels = self.old.rows.channels ++ channel ∷ [] }) }
        ensures there { OnOk result (has_session channel.session self.old.rows ≡ true) }
        ensures room { OnOk result (channel_count channel.session self.old.rows < CHANNEL_LIMIT) }
        ensures missing { IsErrOf result TableFault.Missing ↔
            (has_session channel.session self.old.rows ≡ false) }
        ensures full { IsErrOf result TableFault.Full ↔
            ((has_session channel.session self.old.rows ≡ true)
            × (CHANNEL_LIMIT ≤ channel_count channel.session self.old.rows)) }
        ensures err { OnErr result (self.new ≡ self.old) }
        ensures brand { self.new.brand ≡ self.old.brand }
    {
        self.add_channel_within(CHANNEL_LIMIT, channel)
    }

    /// The same where as many channels of a session may stand as the caller says.
    pub fn add_channel_within(&mut self, limit: usize, channel: Channel) -> Result<(), TableFault>
        requires new { has_channel channel.session channel.sid self.old.rows ≡ false }
        ensures ok { OnOk result (self.new.rows ≡ record self.old.rows { channels = self.old.rows.channels ++ channel ∷ [] }) }
        ensures there { OnOk result (has_session channel.session self.old.rows ≡ true) }
        ensures room { OnOk result (channel_count channel.session self.old.rows < limit) }
        ensures missing { IsErrOf result TableFault.Missing ↔
            (has_session channel.session self.old.rows ≡ false) }
        ensures full { IsErrOf result TableFault.Full ↔
            ((has_session channel.session self.old.rows ≡ true)
            × (limit ≤ channel_count channel.session self.old.rows)) }
        ensures err { OnErr result (self.new ≡ self.old) }
        ensures brand { self.new.brand ≡ self.old.brand }
    {
        if !self.sessions.contains(channel.session) {
            return Err(TableFault::Missing);
        }
        if self.channels.count_of(channel.session) >= limit {
            return Err(TableFault::Full);
        }
        match counted_rows::add_channel(&mut self.channels, &mut self.demand, channel) {
            Ok(()) => Ok(()),
            Err(_) => Err(TableFault::OutOfMemory),
        }
    }

    /// Changes a channel that stands: its reach and the rights last told. Where it has these, nothing is
    /// counted anew.
    pub fn put_channel(
        &mut self,
        visits: &mut Visits,
        session: u32,
        sid: u32,
        reach: Reach,
        rights: u32,
    )
        requires own { visits.old.brand ≡ self.old.brand }
        ensures put { self.new.rows ≡ record self.old.rows {
          channels = change_first
              (is_channel session sid) (with_reach_and_rights reach rights) self.old.rows.channels;
        } }
        ensures looked { IsCountedExactly 1 visits.old visits.new }
        ensures brand { self.new.brand ≡ self.old.brand }
    {
        visits.count(1);
        if self.channels.has(session, sid, reach, rights) {
            return;
        }
        self.channels.are_apart();
        let (channels, demand) = (&mut self.channels, &mut self.demand);
        counted_rows::put_channel(channels, &self.subs, demand, session, sid, reach, rights);
    }
}
