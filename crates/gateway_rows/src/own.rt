//! The reads and subscriptions of one variable.
ghost use Rattle.std.specs.Prelude.{◌≡◌, ◌≤◌, ◌+◌, [], length, filter, map, IfOk, OnOk};
ghost use Rattle.named_rows.specs.Subs.{is_sub_of};
ghost use Rattle.gateway_state.specs.Servers.{waits_for};
ghost use Rattle.gateway_state.specs.Updates.{is_sub_to};
ghost use Rattle.named_rows.specs.Channels.{is_on};
ghost use Rattle.channel_table.specs.Looks.{GoesOn, IsCounted};
ghost use Rattle.gateway_rows.specs.Looked.{OnlyLookedOn};
ghost use Rattle.gateway_rows.specs.Own.{channels_on, is_owed, owed_of};

use crate::counted_rows::CountedRows;
use crate::state::Known;
use channel_table::{Channel, ClientSub, SubList, Table, Visits, WaitingRead};
use pv_name::Name;
use std::alloc::{AllocError, Global};

impl Known {
    /// The channels on a variable, in the order in which they were opened.
    #[tactic(auto, using(crate::proofs::Counted::seen_one_more, crate::proofs::Counted::taken_none))]
    pub fn channels_on<'a>(
        &'a self,
        visits: &mut Visits,
        name: &Name,
    ) -> Result<Vec<&'a Channel>, AllocError>
        requires own { visits.old.brand ≡ self.now.brand }
        ensures found { IfOk result (λ channels. map (λ channel. channel.now) channels.items ≡ filter (is_on name.now) self.now.state.clients.channels) }
        ensures looked { IsCounted (channels_on self.now.state name.now) visits.old visits.new }
    {
        let mut channels = Vec::new(self.alloc);
        for n in 0..self.clients.channels_on(name) {
            if let Some(channel) = self.clients.channel_on(visits, name, n) {
                channels.push(channel)?;
            }
        }
        Ok(channels)
    }
}

impl CountedRows {
    /// The reads that wait for a variable, in the order of asking.
    pub fn reads_for(&mut self, name: &Name) -> Result<Vec<WaitingRead>, AllocError>
        ensures found { IfOk result (λ reads. reads.items ≡ filter (waits_for self.old.state name.now) self.old.state.clients.reads) }
        ensures bound { IfOk result (λ reads. self.new.count.looks ≤ self.old.count.looks + length reads.items) }
        ensures looked { OnlyLookedOn self.old self.new }
    {
        let known = &self.known;
        known.clients.reads_for(&mut self.visits, known.alloc, name)
    }

    /// The subscriptions to a variable, in the order in which they were made.
    pub fn subs_on(&mut self, name: &Name) -> Result<SubList, AllocError>
        ensures found { IfOk result (λ subs. subs ≡ filter (is_sub_to self.old.state name.now) self.old.state.clients.subs) }
        ensures bound { IfOk result (λ subs. self.new.count.looks ≤ self.old.count.looks + length subs) }
        ensures looked { OnlyLookedOn self.old self.new }
    {
        let known = &self.known;
        known.clients.subs_to(&mut self.visits, known.alloc, name)
    }

    /// The subscriptions of a session that are owed an update, in the order in which they were made.
    pub fn owed_of(&mut self, session: u32) -> Result<Vec<ClientSub>, AllocError>
        ensures found { IfOk result (λ subs. subs.items ≡ owed_of self.old.state session) }
        ensures looked { OnlyLookedOn self.old self.new }
    {
        let known = &self.known;
        owed_of(known.alloc, &known.clients, &mut self.visits, session)
    }
}

#[tactic(auto, using(crate::proofs::Counted::kept_one_more, crate::proofs::Counted::passed_one_more, crate::proofs::Counted::kept_none))]
fn owed_of(
    alloc: Global,
    clients: &Table,
    visits: &mut Visits,
    session: u32,
) -> Result<Vec<ClientSub>, AllocError>
    requires own { visits.old.brand ≡ clients.now.brand }
    ensures found { IfOk result (λ subs. subs.items ≡ filter is_owed (filter (is_sub_of session) clients.now.rows.subs)) }
    ensures looked { GoesOn visits.old visits.new }
{
    let mut subs = Vec::new(alloc);
    for n in 0..clients.sub_count(session) {
        if let Some(sub) = clients.nth_sub_of(visits, session, n) {
            if sub.owed {
                subs.push(*sub)?;
            }
        }
    }
    Ok(subs)
}
