//! The table's subscriptions.
ghost use Rattle.std.specs.Prelude.{◌≡◌, ◌≤◌, ◌<◌, ◌↔◌, [], ◌∷◌, ◌++◌, length, map, slice_get, true, false, Err, OnOk, OnErr, IfOk, IsErrOf, IsTrue};
ghost use Rattle.std.specs.List.{filter, find, list_any};
ghost use Rattle.std.specs.Option.{option_copied};
ghost use Rattle.rows.specs.Rows.{change_first};
ghost use Rattle.channel_table.specs.ClientRows.{has_channel, has_sub, sub_count, is_sub_to};
ghost use Rattle.channel_table.specs.Looks.{GoesOn, IsCountedExactly};
ghost use Rattle.named_rows.specs.Subs.{is_sub, is_not_sub, is_sub_of, is_sub_on, is_not_sub_on, with_owed};

use super::{SUB_LIMIT, Table, TableFault};
use crate::visits::Visits;
use named_rows::{ClientSub, SubList, counted_rows};
use pv_name::Name;
use std::alloc::{AllocError, Global};

impl Table {
    /// All subscriptions, in the order in which they were added.
    pub fn subs<'a>(
        &'a self,
        visits: &mut Visits,
        alloc: Global,
    ) -> Result<Vec<&'a ClientSub>, AllocError>
        requires own { visits.old.brand ≡ self.now.brand }
        ensures all { IfOk result (λ rows. map (λ row. row.now) rows.items ≡ self.now.rows.subs) }
        ensures looked { IsCountedExactly (length self.now.rows.subs) visits.old visits.new }
    {
        visits.count(self.subs.len());
        self.subs.all(alloc)
    }

    /// The session's subscription of this ID.
    pub fn sub<'a>(&'a self, visits: &mut Visits, session: u32, id: u32) -> Option<&'a ClientSub>
        requires own { visits.old.brand ≡ self.now.brand }
        ensures found { option_copied result ≡ find (is_sub session id) self.now.rows.subs }
        ensures looked { IsCountedExactly 1 visits.old visits.new }
    {
        visits.count(1);
        self.subs.get(session, id)
    }

    /// How many subscriptions of the session stand.
    pub fn sub_count(&self, session: u32) -> usize
        ensures { result ≡ sub_count session self.now.rows }
    {
        self.subs.count_of(session)
    }

    /// How many subscriptions stand, of all sessions.
    pub fn all_subs(&self) -> usize
        ensures { result ≡ length self.now.rows.subs }
    {
        self.subs.len()
    }

    /// The session's nth subscription.
    pub fn nth_sub_of<'a>(
        &'a self,
        visits: &mut Visits,
        session: u32,
        n: usize,
    ) -> Option<&'a ClientSub>
        requires own { visits.old.brand ≡ self.now.brand }
        ensures nth { option_copied result ≡ slice_get (filter (is_sub_of session) self.now.rows.subs) n }
        ensures looked { IsCountedExactly 1 visits.old visits.new }
    {
        visits.count(1);
        self.subs.nth_of(session, n)
    }

    /// How many subscriptions are to channels on this real name.
    pub fn subs_on(&self, name: &Name) -> usize
        ensures { result ≡ length (filter (is_sub_to self.now.rows name.now) self.now.rows.subs) }
    {
        self.subs.count_on(name)
    }

    /// The subscriptions to channels on this real name, in the order in which they were added. They are
    /// counted as looked at.
    pub fn subs_to(
        &self,
        visits: &mut Visits,
        alloc: Global,
        name: &Name,
    ) -> Result<SubList, AllocError>
        requires own { visits.old.brand ≡ self.now.brand }
        ensures found { IfOk result (λ subs. subs ≡ filter (is_sub_to self.now.rows name.now) self.now.rows.subs) }
        ensures looked { IfOk result (λ subs. IsCountedExactly (length subs) visits.old visits.new) }
        ensures goes_on { GoesOn visits.old visits.new }
    {
        self.subs.are_apart();
        let subs = self.subs.on(name, alloc)?;
        visits.count(subs.len());
        Ok(subs)
    }

    /// The subscriptions on the session's channel of this ID, in the order in which they were added. They are
    /// counted as looked at.
    pub fn subs_on_channel(
        &self,
        visits: &mut Visits,
        alloc: Global,
        session: u32,
        sid: u32,
    ) -> Result<Vec<ClientSub>, AllocError>
        requires own { visits.old.brand ≡ self.now.brand }
        ensures found { IfOk result (λ subs. subs.items ≡ filter (is_sub_on session sid) self.now.rows.subs) }
        ensures looked { IfOk result (λ subs. IsCountedExactly (length subs.items) visits.old visits.new) }
        ensures goes_on { GoesOn visits.old visits.new }
    {
        let subs = self.subs.all_on(alloc, session, sid)?;
        visits.count(subs.len());
        Ok(subs)
    }

    /// Adds a subscription to the channel that it names. The caller sees to it that none of its ID
    /// stands in the session.
    pub fn add_sub(&mut self, sub: ClientSub) -> Result<(), TableFault>
        requires new { has_sub sub.session sub.id self.old.rows ≡ false }
        ensures ok { OnOk result (self.new.rows ≡ record self.old.rows { subs = self.old.rows.subs ++ sub ∷ [] }) }
        ensures there { OnOk result (has_channel sub.session sub.sid self.old.rows ≡ true) }
        ensures room { OnOk result (sub_count sub.session self.old.rows < SUB_LIMIT) }
        ensures missing { IsErrOf result TableFault.Missing ↔
            (has_channel sub.session sub.sid self.old.rows ≡ false) }
        ensures full { IsErrOf result TableFault.Full ↔
            ((has_channel sub.session sub.sid self.old.rows ≡ true)
            × (SUB_LIMIT ≤ sub_count sub.session self.old.rows)) }
        ensures err { OnErr result (self.new ≡ self.old) }
        ensures brand { self.new.brand ≡ self.old.brand }
    {
        self.add_sub_within(SUB_LIMIT, sub)
    }

    /// The same where as many subscriptions of a session may stand as the caller says.
    pub fn add_sub_within(&mut self, limit: usize, sub: ClientSub) -> Result<(), TableFault>
        requires new { has_sub sub.session sub.id self.old.rows ≡ false }
        ensures ok { OnOk result (self.new.rows ≡ record self.old.rows { subs = self.old.rows.subs ++ sub ∷ [] }) }
        ensures there { OnOk result (has_channel sub.session sub.sid self.old.rows ≡ true) }
        ensures room { OnOk result (sub_count sub.session self.old.rows < limit) }
        ensures missing { IsErrOf result TableFault.Missing ↔
            (has_channel sub.session sub.sid self.old.rows ≡ false) }
        ensures full { IsErrOf result TableFault.Full ↔
            ((has_channel sub.session sub.sid self.old.rows ≡ true)
            × (limit ≤ sub_count sub.session self.old.rows)) }
        ensures err { OnErr result (self.new ≡ self.old) }
        ensures brand { self.new.brand ≡ self.old.brand }
    {
        let Some(channel) = self.channels.get(sub.session, sub.sid) else {
            return Err(TableFault::Missing);
        };
        if self.subs.count_of(sub.session) >= limit {
            return Err(TableFault::Full);
        }
        match counted_rows::add_sub(&mut self.subs, &mut self.demand, channel, sub) {
            Ok(()) => Ok(()),
            Err(_) => Err(TableFault::OutOfMemory),
        }
    }

    /// Changes a subscription that stands: whether an update is owed.
    pub fn put_sub(&mut self, visits: &mut Visits, session: u32, id: u32, owed: bool)
        requires own { visits.old.brand ≡ self.old.brand }
        ensures put { self.new.rows ≡ record self.old.rows {
          subs = change_first (is_sub session id) (with_owed owed) self.old.rows.subs;
        } }
        ensures looked { IsCountedExactly 1 visits.old visits.new }
        ensures brand { self.new.brand ≡ self.old.brand }
    {
        visits.count(1);
        self.subs.put(session, id, owed);
    }

    /// Removes the session's subscription of this ID.
    pub fn remove_sub(&mut self, session: u32, id: u32)
        ensures rows { self.new.rows ≡ record self.old.rows { subs = filter (is_not_sub session id) self.old.rows.subs } }
        ensures brand { self.new.brand ≡ self.old.brand }
    {
        let Some(sub) = self.subs.get(session, id).copied() else {
            return;
        };
        self.subs.are_apart();
        if let Some(channel) = self.channels.get(sub.session, sub.sid) {
            let (subs, demand) = (&mut self.subs, &mut self.demand);
            counted_rows::remove_sub(subs, demand, channel, &sub, session, id);
        }
    }

    /// Removes the first subscription on a channel, and tells whether there was one.
    pub(super) fn remove_sub_on(&mut self, session: u32, sid: u32) -> bool
        ensures others { self.new.rows ≡ record self.old.rows { subs = self.new.rows.subs } }
        ensures elsewhere { filter (is_not_sub_on session sid) self.new.rows.subs ≡
            filter (is_not_sub_on session sid) self.old.rows.subs }
        ensures one { IsTrue result → length self.new.rows.subs < length self.old.rows.subs }
        ensures none { result ≡ false → list_any (is_sub_on session sid) self.new.rows.subs ≡ false }
        ensures brand { self.new.brand ≡ self.old.brand }
    {
        let Some(channel) = self.channels.get(session, sid) else {
            return false;
        };
        self.subs.are_apart();
        match self.subs.first_on(session, sid) {
            Some(sub) => {
                let (subs, demand) = (&mut self.subs, &mut self.demand);
                counted_rows::remove_sub(subs, demand, channel, &sub, session, sub.id);
                true
            }
            None => false,
        }
    }
}
