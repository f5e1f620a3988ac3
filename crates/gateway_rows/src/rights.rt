//! What clients may do with their channels.
ghost use Rattle.std.specs.Prelude.{◌≡◌, ◌&&◌, bit_and, IfOk, IfSome};
ghost use Rattle.std.specs.Option.{option_copied};
ghost use Rattle.channel_table.specs.Looks.{IsCounted};
ghost use Rattle.gateway_rows.specs.Looked.{OnlyLooked};
ghost use Rattle.gateway_state.specs.Serving.{server_of};
ghost use Rattle.gateway_state.specs.Variables.{link_of};
ghost use Rattle.gateway_state.specs.Reached.{rights_told};
ghost use Rattle.gateway_state.specs.Resolution.{is_real, rights_left};
ghost use Rattle.gateway_state.specs.Told.{KnowRights, KnowsRights};
ghost use Rattle.gateway_state.specs.Rights.{is_found, link_rights, link_connected, channel_of};

use crate::counted_rows::CountedRows;
use crate::state::Known;
use channel_table::{Channel, Visits};
use gateway_state::{is_real, rights_left};
use gateway_values::is_connected;
use pv_alias::Lead;
use pv_name::{Host, Name};
use std::alloc::AllocError;

impl Known {
    fn link_rights(&self, name: &Name) -> u32
        ensures { result ≡ link_rights (link_of self.now.state name.now) }
    {
        match self.link_of(name) {
            Some(link) => link.rights,
            None => 0,
        }
    }

    /// The rights of a channel whose name leads so: those of its link that the policy leaves to its
    /// session.
    pub fn rights_by(&self, channel: &Channel, lead: Option<&Lead>) -> u32
        ensures { result ≡ bit_and (link_rights (link_of self.now.state channel.now.real)) (rights_left self.now.state.policy (option_copied lead.entry)) }
    {
        self.link_rights(&channel.real) & rights_left(self.searches.policy(), lead)
    }

    /// Whether a real name has a link that is connected.
    pub fn is_link_connected(&self, name: &Name) -> bool
        ensures { result ≡ link_connected (link_of self.now.state name.now) }
    {
        match self.link_of(name) {
            Some(link) => is_connected(link.state),
            None => false,
        }
    }

    /// Whether a channel is served whose name leads so: to its real name still, whose link is connected.
    pub fn is_served_by(&self, channel: &Channel, lead: Option<&Lead>) -> bool
        ensures { result ≡ (is_real (option_copied lead.entry) channel.now.real && link_connected (link_of self.now.state channel.now.real)) }
    {
        is_real(lead, &channel.real) && self.is_link_connected(&channel.real)
    }

    /// Whether the name that a host searches for leads to a variable whose link is connected.
    pub fn is_found(&self, host: &Host, name: &Name) -> Result<bool, AllocError>
        ensures { IfOk result (λ answer. answer ≡ is_found self.now.state host.now name.now) }
    {
        match self.lead_of(host, name)? {
            Some(lead) => Ok(self.is_link_connected(&lead.real)),
            None => Ok(false),
        }
    }

    /// A session's channel.
    pub fn channel_of<'a>(
        &'a self,
        visits: &mut Visits,
        session: u32,
        sid: u32,
    ) -> Option<&'a Channel>
        requires own { visits.old.brand ≡ self.now.brand }
        ensures found { option_copied result ≡ channel_of self.now.state session sid }
        ensures looked { IsCounted 1 visits.old visits.new }
    {
        self.clients.channel(visits, session, sid)
    }

    /// A session's channel, where clients know their rights: it has those that its client was last told.
    pub fn told_channel<'a>(
        &'a self,
        visits: &mut Visits,
        session: u32,
        sid: u32,
    ) -> Option<&'a Channel>
        requires told { KnowRights self.now.state }
        requires own { visits.old.brand ≡ self.now.brand }
        ensures found { option_copied result ≡ channel_of self.now.state session sid }
        ensures told { IfSome (option_copied result) (KnowsRights self.now.state) }
        ensures looked { IsCounted 1 visits.old visits.new }
    {
        self.channel_of(visits, session, sid)
    }
}

impl CountedRows {
    /// What a client was last told that it may do with a channel, nothing where it has no such channel. It
    /// takes no memory.
    pub fn rights_told(&mut self, session: u32, sid: u32) -> Option<u32>
        ensures found { result ≡ rights_told self.old.state session sid }
        ensures looked { OnlyLooked 1 self.old self.new }
    {
        match self.known.channel_of(&mut self.visits, session, sid) {
            Some(channel) => Some(channel.rights_told),
            None => None,
        }
    }

    /// The number of the server on whose link a session's channel stands, nothing where there is no such
    /// channel. It takes no memory.
    pub fn server_of(&mut self, session: u32, sid: u32) -> Option<u32>
        ensures found { result ≡ server_of self.old.state session sid }
        ensures looked { OnlyLooked 1 self.old self.new }
    {
        let known = &self.known;
        let channel = known.channel_of(&mut self.visits, session, sid)?;
        let link = known.link_of(&channel.real)?;
        Some(link.server)
    }
}
