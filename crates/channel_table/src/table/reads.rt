//! The table's waiting reads.
ghost use Rattle.std.specs.Prelude.{◌≡◌, ◌≤◌, ◌<◌, ◌↔◌, [], ◌∷◌, ◌++◌, length, slice_get, true, false, Err, OnOk, OnErr, IfOk, IsErrOf, IsTrue};
ghost use Rattle.std.specs.List.{filter, list_any};
ghost use Rattle.rows.specs.Rows.{remove_first};
ghost use Rattle.channel_table.specs.ClientRows.{has_channel, read_count, is_read_for};
ghost use Rattle.channel_table.specs.Looks.{GoesOn, IsCountedExactly};
ghost use Rattle.named_rows.specs.Reads.{same_read, is_read_of, is_read_on, is_not_read_on};

use super::{READ_LIMIT, Table, TableFault};
use crate::visits::Visits;
use named_rows::{KeptRead, WaitingRead};
use pv_name::Name;
use std::alloc::{AllocError, Global};

impl Table {
    /// All waiting reads, in the order in which they were added.
    pub fn reads(&self, visits: &mut Visits, alloc: Global) -> Result<Vec<WaitingRead>, AllocError>
        requires own { visits.old.brand ≡ self.now.brand }
        ensures all { IfOk result (λ rows. rows.items ≡ self.now.rows.reads) }
        ensures looked { IsCountedExactly (length self.now.rows.reads) visits.old visits.new }
    {
        visits.count(self.reads.len());
        self.reads.all(alloc)
    }

    /// How many reads of the session wait.
    pub fn read_count(&self, session: u32) -> usize
        ensures { result ≡ read_count session self.now.rows }
    {
        self.reads.count_of(session)
    }

    /// How many reads wait, of all sessions.
    pub fn all_reads(&self) -> usize
        ensures { result ≡ length self.now.rows.reads }
    {
        self.reads.len()
    }

    /// The session's nth waiting read.
    pub fn nth_read_of(&self, visits: &mut Visits, session: u32, n: usize) -> Option<WaitingRead>
        requires own { visits.old.brand ≡ self.now.brand }
        ensures nth { result ≡ slice_get (filter (is_read_of session) self.now.rows.reads) n }
        ensures looked { IsCountedExactly 1 visits.old visits.new }
    {
        visits.count(1);
        self.reads.nth_of(session, n)
    }

    /// How many reads wait on channels on this real name.
    pub fn reads_on(&self, name: &Name) -> usize
        ensures { result ≡ length (filter (is_read_for self.now.rows name.now) self.now.rows.reads) }
    {
        self.reads.count_on(name)
    }

    /// The nth read that waits on a channel on this real name.
    pub fn read_on(&self, visits: &mut Visits, name: &Name, n: usize) -> Option<WaitingRead>
        requires own { visits.old.brand ≡ self.now.brand }
        ensures nth { result ≡ slice_get (filter (is_read_for self.now.rows name.now) self.now.rows.reads) n }
        ensures looked { IsCountedExactly 1 visits.old visits.new }
    {
        visits.count(1);
        self.reads.are_apart();
        self.reads.nth_on(name, n)
    }

    /// The reads that wait on channels on this real name, in the order of asking. They are counted as
    /// looked at.
    pub fn reads_for(
        &self,
        visits: &mut Visits,
        alloc: Global,
        name: &Name,
    ) -> Result<Vec<WaitingRead>, AllocError>
        requires own { visits.old.brand ≡ self.now.brand }
        ensures found { IfOk result (λ reads. reads.items ≡ filter (is_read_for self.now.rows name.now) self.now.rows.reads) }
        ensures looked { IfOk result (λ reads. IsCountedExactly (length reads.items) visits.old visits.new) }
        ensures goes_on { GoesOn visits.old visits.new }
    {
        self.reads.are_apart();
        let reads = self.reads.all_on(name, alloc)?;
        visits.count(reads.len());
        Ok(reads)
    }

    /// Adds a read to the channel that it names. An equal one may wait there.
    pub fn add_read(&mut self, read: WaitingRead) -> Result<(), TableFault>
        ensures ok { OnOk result (self.new.rows ≡ record self.old.rows { reads = self.old.rows.reads ++ read ∷ [] }) }
        ensures there { OnOk result (has_channel read.session read.sid self.old.rows ≡ true) }
        ensures room { OnOk result (read_count read.session self.old.rows < READ_LIMIT) }
        ensures missing { IsErrOf result TableFault.Missing ↔
            (has_channel read.session read.sid self.old.rows ≡ false) }
        ensures full { IsErrOf result TableFault.Full ↔
            ((has_channel read.session read.sid self.old.rows ≡ true)
            × (READ_LIMIT ≤ read_count read.session self.old.rows)) }
        ensures err { OnErr result (self.new ≡ self.old) }
        ensures brand { self.new.brand ≡ self.old.brand }
    {
        self.add_read_within(READ_LIMIT, read)
    }

    /// The same where as many reads of a session may wait as the caller says.
    pub fn add_read_within(&mut self, limit: usize, read: WaitingRead) -> Result<(), TableFault>
        ensures ok { OnOk result (self.new.rows ≡ record self.old.rows { reads = self.old.rows.reads ++ read ∷ [] }) }
        ensures there { OnOk result (has_channel read.session read.sid self.old.rows ≡ true) }
        ensures room { OnOk result (read_count read.session self.old.rows < limit) }
        ensures missing { IsErrOf result TableFault.Missing ↔
            (has_channel read.session read.sid self.old.rows ≡ false) }
        ensures full { IsErrOf result TableFault.Full ↔
            ((has_channel read.session read.sid self.old.rows ≡ true)
            × (limit ≤ read_count read.session self.old.rows)) }
        ensures err { OnErr result (self.new ≡ self.old) }
        ensures brand { self.new.brand ≡ self.old.brand }
    {
        if !self.channels.contains(read.session, read.sid) {
            return Err(TableFault::Missing);
        }
        if self.reads.count_of(read.session) >= limit {
            return Err(TableFault::Full);
        }
        match self.keep_read(read) {
            Ok(()) => Ok(()),
            Err(_) => Err(TableFault::OutOfMemory),
        }
    }

    /// Adds a read past the limit too: for a caller that tests itself whether its channel stands, and
    /// answers what is past the limit before anything else happens. A read on a channel that doesn't stand
    /// is refused as if memory were short.
    pub fn keep_read(&mut self, read: WaitingRead) -> Result<(), AllocError>
        ensures ok { OnOk result (self.new.rows ≡ record self.old.rows { reads = self.old.rows.reads ++ read ∷ [] }) }
        ensures err { OnErr result (self.new ≡ self.old) }
        ensures brand { self.new.brand ≡ self.old.brand }
    {
        let Some(channel) = self.channels.get(read.session, read.sid) else {
            return Err(AllocError);
        };
        let id = self.reads.free_id(read.session)?;
        self.reads.add(&channel.real, KeptRead { id, read })?;
        Ok(())
    }

    /// Removes a read, the first of those that are equal.
    pub fn remove_read(&mut self, read: &WaitingRead)
        ensures rows { self.new.rows ≡ record self.old.rows { reads = remove_first (same_read read.now) self.old.rows.reads } }
        ensures brand { self.new.brand ≡ self.old.brand }
    {
        let Some(channel) = self.channels.get(read.session, read.sid) else {
            return;
        };
        self.reads.are_apart();
        if let Some(row) = self.reads.first_like(read) {
            self.reads.remove(&channel.real, row);
        }
    }

    /// Removes the first read that waits on a channel, and tells whether there was one.
    pub(super) fn remove_read_on(&mut self, session: u32, sid: u32) -> bool
        ensures others { self.new.rows ≡ record self.old.rows { reads = self.new.rows.reads } }
        ensures elsewhere { filter (is_not_read_on session sid) self.new.rows.reads ≡
            filter (is_not_read_on session sid) self.old.rows.reads }
        ensures one { IsTrue result → length self.new.rows.reads < length self.old.rows.reads }
        ensures none { result ≡ false → list_any (is_read_on session sid) self.new.rows.reads ≡ false }
        ensures brand { self.new.brand ≡ self.old.brand }
    {
        match self.reads.first_on(session, sid) {
            Some(row) => {
                self.remove_read(&row.read);
                true
            }
            None => false,
        }
    }
}
