//! Small changes of rows.
ghost use Rattle.std.specs.Prelude.{◌≡◌, length, OnOk};
ghost use Rattle.gateway_rows.specs.BrandedState.{Becomes};
ghost use Rattle.gateway_rows.specs.Looked.{Looked};
ghost use Rattle.gateway_state.specs.Clients.{without_channel};
ghost use Rattle.gateway_state.specs.Direct.{edited, limited};
ghost use Rattle.gateway_state.specs.Notices.{forgotten, without_read};
ghost use Rattle.gateway_state.specs.Servers.{without_link};
ghost use Rattle.gateway_state.specs.Updates.{owed_to, owed_to_all, with_owed_of};
ghost use Rattle.gateway_state.specs.Variables.{without_cached};

use crate::counted_rows::CountedRows;
use crate::state::Known;
use channel_table::{ClientSub, WaitingRead};
use gateway_state::{Limits, Policy};
use link_table::Subject;
use std::alloc::AllocError;

impl Known {
    /// A channel goes with its subscriptions, waiting reads and waiting writes.
    pub fn remove_channel(&mut self, number: u32, sid: u32)
        ensures state { Becomes (without_channel number sid self.old.state) self.old self.new }
    {
        self.clients.remove_channel(number, sid);
        self.upstream.remove_writes(number, sid);
    }

    /// A read waits no longer.
    pub fn remove_read(&mut self, read: &WaitingRead)
        ensures state { Becomes (without_read read.now self.old.state) self.old self.new }
    {
        self.clients.remove_read(read);
    }

    /// Forgets all that a link was told.
    fn forget_value(&mut self, cid: u32)
        ensures state { Becomes (without_cached cid self.old.state) self.old self.new }
    {
        self.cache.remove(cid);
    }

    /// Forgets what a link was told of a subject: with its value its properties too.
    pub fn forget(&mut self, subject: Subject, cid: u32)
        ensures state { Becomes (forgotten subject cid self.old.state) self.old self.new }
    {
        match subject {
            Subject::Values => self.forget_value(cid),
            Subject::Properties => self.cache.drop_properties(cid),
        }
    }

    /// Removes a link and what it was told.
    pub fn remove_link(&mut self, server: u32, cid: u32)
        ensures state { Becomes (without_link server cid self.old.state) self.old self.new }
    {
        self.forget_value(cid);
        self.upstream.remove_link(server, cid);
    }

    /// From now on another policy holds.
    pub fn set_policy(&mut self, policy: Policy) -> Result<(), AllocError>
        ensures ok { OnOk result (self.new.state ≡ edited policy self.old.state) }
        ensures brand { self.new.brand ≡ self.old.brand }
    {
        self.searches.set_policy(self.alloc, policy)
    }

    /// From now on these limits hold. Nothing that stands goes at that.
    pub fn set_limits(&mut self, limits: Limits)
        ensures state { Becomes (limited limits self.old.state) self.old self.new }
    {
        self.limits = limits;
    }
}

impl CountedRows {
    /// Notes that a subscription is owed an update, or no longer.
    pub fn set_owed(&mut self, session: u32, id: u32, owed: bool)
        ensures put { self.new.state ≡ with_owed_of session id owed self.old.state }
        ensures looked { Looked 1 self.old self.new }
    {
        self.known
            .clients
            .put_sub(&mut self.visits, session, id, owed);
    }

    fn owe(&mut self, sub: &ClientSub)
        ensures put { self.new.state ≡ owed_to self.old.state sub.now }
        ensures looked { Looked 1 self.old self.new }
    {
        self.set_owed(sub.session, sub.id, true);
    }

    /// Notes that each of these is owed an update.
    pub fn owe_all(&mut self, subs: &[ClientSub])
        ensures put { self.new.state ≡ owed_to_all self.old.state subs.now }
        ensures looked { Looked (length subs.now) self.old self.new }
    {
        for sub in subs {
            self.owe(sub);
        }
    }
}
