//! The table of clients, and what of it concerns rows of more than one kind.
ghost use Rattle.std.specs.Prelude.{◌≡◌, ◌<◌, [], length, true, false, IsTrue};
ghost use Rattle.std.specs.List.{filter, list_any};
ghost use Rattle.named_rows.specs.Channels.{is_not_channel, is_channel_of, is_not_channel_of};
ghost use Rattle.named_rows.specs.Reads.{is_not_read_of, is_read_on, is_not_read_on};
ghost use Rattle.channel_table.specs.Sessions.{is_not_numbered};
ghost use Rattle.named_rows.specs.Demand.{props_on, want_on};
ghost use Rattle.named_rows.specs.Subs.{is_not_sub_of, is_sub_on, is_not_sub_on};

mod channels;
mod reads;
mod sessions;
mod subs;

use crate::brand::Brand;
use crate::sessions::Sessions;
use crate::visits::Visits;
use mask_merge::Want;
use named_rows::{Channels, Demand, Reads, Subs, counted_rows};
use pv_name::Name;
use std::alloc::Global;
use std::marker::Model;

/// How many sessions stand at most.
pub const SESSION_LIMIT: usize = 1_024;

/// How many channels of one session stand at most.
pub const CHANNEL_LIMIT: usize = 4_096;

/// How many subscriptions of one session stand at most.
pub const SUB_LIMIT: usize = 8_192;

/// How many reads of one session wait at most.
pub const READ_LIMIT: usize = 256;

/// Why a row was not added. The table is as before.
#[derive(Clone, Copy, Debug, PartialEq, Eq)]
pub enum TableFault {
    /// Memory was refused.
    OutOfMemory,
    /// The session or channel that the row names doesn't stand.
    Missing,
    /// There are as many such rows as there may be.
    Full,
}

/// The rows of clients, each list in the order in which they were added.
#[derive(Drop)]
pub struct Table {
    sessions: Sessions,
    channels: Channels,
    subs: Subs,
    demand: Demand,
    reads: Reads,
    brand: Brand,
}

impl Model for Table {
    ghost use Rattle.channel_table.specs.Looks.{BrandedRows};
    ghost use Rattle.named_rows.specs.Indexes.{reads_in};
    ghost use Rattle.named_rows.specs.Demand.{FollowRows};

    ghost Value = { BrandedRows };

    ghost view = { λ t. record {
      rows = record {
        sessions = t.sessions;
        channels = t.channels;
        subs = t.subs.rows;
        reads = reads_in t.reads;
      };
      brand = t.brand;
    } };

    ghost invariant = { λ t. FollowRows t.channels t.subs t.reads t.demand };
}

impl Table {
    /// No row, and the count of those that were looked at, which bears the brand of this table.
    pub fn new(alloc: Global) -> (Table, Visits)
        ensures rows { result.0.rows ≡ record { sessions = []; channels = []; subs = []; reads = [] } }
        ensures looks { result.1.looks ≡ 0 }
        ensures own { result.1.brand ≡ result.0.brand }
    {
        let (brand, same) = Brand::pair();
        (Table::bare(alloc, brand), Visits::new(same))
    }

    fn bare(alloc: Global, brand: Brand) -> Table
        ensures rows { result.rows ≡ record { sessions = []; channels = []; subs = []; reads = [] } }
        ensures brand { result.brand ≡ brand }
    {
        Table {
            brand,
            sessions: Sessions::new(alloc),
            channels: Channels::new(alloc),
            subs: Subs::new(alloc),
            demand: Demand::new(alloc),
            reads: Reads::new(alloc),
        }
    }

    /// What the subscriptions to a real name and the channels on it want of it together, of a native
    /// count, and whether any of them needs the properties of the variable, whose elements are states or
    /// are not: as far as their clients were told that they may read. It looks at no row.
    pub fn demand_on(&self, name: &Name, native: u32, states: bool) -> (Option<Want>, bool)
        ensures want { result.0 ≡ want_on self.now.rows.channels self.now.rows.subs native name.now }
        ensures props { result.1 ≡ props_on self.now.rows.channels self.now.rows.subs states name.now }
    {
        self.demand.of(name, native, states)
    }

    /// The first of these alone.
    pub fn want_on(&self, name: &Name, native: u32) -> Option<Want>
        ensures { result ≡ want_on self.now.rows.channels self.now.rows.subs native name.now }
    {
        self.demand_on(name, native, false).0
    }

    /// The second alone.
    pub fn props_on(&self, name: &Name, states: bool) -> bool
        ensures { result ≡ props_on self.now.rows.channels self.now.rows.subs states name.now }
    {
        self.demand_on(name, 0, states).1
    }

    /// Removes a session with its channels, subscriptions and reads.
    pub fn remove_session(&mut self, number: u32)
        ensures rows { self.new.rows ≡ record {
          sessions = filter (is_not_numbered number) self.old.rows.sessions;
          channels = filter (is_not_channel_of number) self.old.rows.channels;
          subs = filter (is_not_sub_of number) self.old.rows.subs;
          reads = filter (is_not_read_of number) self.old.rows.reads;
        } }
        ensures brand { self.new.brand ≡ self.old.brand }
    {
        while self.remove_channel_of(number) {}
        self.remove_bare_session(number);
    }

    /// Removes a channel with its subscriptions and reads.
    pub fn remove_channel(&mut self, session: u32, sid: u32)
        ensures rows { self.new.rows ≡ record self.old.rows {
          channels = filter (is_not_channel session sid) self.old.rows.channels;
          subs = filter (is_not_sub_on session sid) self.old.rows.subs;
          reads = filter (is_not_read_on session sid) self.old.rows.reads;
        } }
        ensures brand { self.new.brand ≡ self.old.brand }
    {
        self.remove_subs_on(session, sid);
        self.remove_reads_on(session, sid);
        self.remove_bare_channel(session, sid);
    }

    /// Removes the subscriptions on a channel.
    fn remove_subs_on(&mut self, session: u32, sid: u32)
        ensures rows { self.new.rows ≡ record self.old.rows { subs = filter (is_not_sub_on session sid) self.old.rows.subs } }
        ensures brand { self.new.brand ≡ self.old.brand }
    {
        while self.remove_sub_on(session, sid) {}
    }

    /// Removes the reads that wait on a channel.
    fn remove_reads_on(&mut self, session: u32, sid: u32)
        ensures rows { self.new.rows ≡ record self.old.rows { reads = filter (is_not_read_on session sid) self.old.rows.reads } }
        ensures brand { self.new.brand ≡ self.old.brand }
    {
        while self.remove_read_on(session, sid) {}
    }

    /// Removes a channel on which there is no subscription and no read.
    fn remove_bare_channel(&mut self, session: u32, sid: u32)
        requires no_sub { list_any (is_sub_on session sid) self.old.rows.subs ≡ false }
        requires no_read { list_any (is_read_on session sid) self.old.rows.reads ≡ false }
        ensures rows { self.new.rows ≡ record self.old.rows { channels = filter (is_not_channel session sid) self.old.rows.channels } }
        ensures brand { self.new.brand ≡ self.old.brand }
    {
        self.channels.are_apart();
        counted_rows::remove_channel(&mut self.channels, &mut self.demand, session, sid);
    }

    /// Removes the last channel of a session with what hangs on it, and tells whether there was one.
    /// The last goes without a walk.
    fn remove_channel_of(&mut self, number: u32) -> bool
        ensures others { self.new.rows.sessions ≡ self.old.rows.sessions }
        ensures channels { filter (is_not_channel_of number) self.new.rows.channels ≡
            filter (is_not_channel_of number) self.old.rows.channels }
        ensures subs { filter (is_not_sub_of number) self.new.rows.subs ≡ filter (is_not_sub_of number) self.old.rows.subs }
        ensures reads { filter (is_not_read_of number) self.new.rows.reads ≡ filter (is_not_read_of number) self.old.rows.reads }
        ensures one { IsTrue result → length self.new.rows.channels < length self.old.rows.channels }
        ensures none { result ≡ false → list_any (is_channel_of number) self.new.rows.channels ≡ false }
        ensures brand { self.new.brand ≡ self.old.brand }
    {
        let Some(channel) = self.channels.last_of(number) else {
            return false;
        };
        let sid = channel.sid;
        self.remove_channel(number, sid);
        true
    }

    /// Removes a session that has no channel, and so nothing else.
    fn remove_bare_session(&mut self, number: u32)
        requires bare { list_any (is_channel_of number) self.old.rows.channels ≡ false }
        ensures rows { self.new.rows ≡ record {
          sessions = filter (is_not_numbered number) self.old.rows.sessions;
          channels = filter (is_not_channel_of number) self.old.rows.channels;
          subs = filter (is_not_sub_of number) self.old.rows.subs;
          reads = filter (is_not_read_of number) self.old.rows.reads;
        } }
        ensures brand { self.new.brand ≡ self.old.brand }
    {
        self.sessions.remove(number);
    }
}
