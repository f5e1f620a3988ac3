//! Names: where they lead, their links, the rights of their channels, and which are wanted.
ghost use Rattle.std.specs.Prelude.{◌≡◌, [], filter, fold, length, IfOk, OnOk};
ghost use Rattle.link_table.specs.Links.{is_of};
ghost use Rattle.std.specs.List.{cons_option, list_any};
ghost use Rattle.std.specs.Option.{option_copied};
ghost use Rattle.gateway_state.specs.Serving.{server_of};
ghost use Rattle.gateway_state.specs.Clients.{remembered};
ghost use Rattle.gateway_state.specs.Reached.{rights_told};
ghost use Rattle.gateway_state.specs.Rights.{channel_of, is_found, is_served, lead_in, link_connected, link_rights, rights_of};
ghost use Rattle.named_rows.specs.Channels.{is_channel_on, is_on};
ghost use Rattle.gateway_state.specs.Variables.{asks, channel_names, connected, is_linked, is_missing, is_wanted, link_of, search_names, with_name, with_unlinked};

use crate::clients::{ChannelAt, SessionNumbered};
use crate::lists::find;
use crate::state::PlainRows;
use channel_table::Channel;
use gateway_state::{is_real, lead_of, rights_left};
use gateway_values::{ConnectedVariable, connected, is_connected};
use link_table::LinkRow;
use pv_alias::Lead;
use pv_name::{Host, Name};
use std::alloc::AllocError;
use std::cmp::Ordering;

impl PlainRows {
    /// Where the name leads that a session asks for, with what its user may do there; nothing where it is refused,
    /// or where there is no such session.
    pub fn lead_in(&self, number: u32, name: &Name) -> Result<Option<Lead>, AllocError>
        ensures { IfOk result (λ lead. lead ≡ lead_in self.now number name.now) }
    {
        match find(&self.sessions, SessionNumbered { number }) {
            Some(session) => {
                let policy = self.searches.policy();
                let lead = lead_of(self.alloc, policy, &session.host, name)?;
                Ok(policy.led(lead, session.user.as_slice(), &session.host))
            }
            None => Ok(None),
        }
    }

    /// The link of a real name.
    pub(crate) fn link_of(&self, name: &Name) -> Option<&LinkRow>
        ensures { option_copied result ≡ link_of self.now name.now }
    {
        self.links.iter().find(|row| row.name == *name)
    }

    /// The variable of a real name; none where it has no link, or none that is connected.
    pub fn connected(&self, name: &Name) -> Option<ConnectedVariable<'_>>
        ensures { result ≡ connected self.now name.now }
    {
        connected(self.link_of(name)?)
    }

    /// A session's channel.
    pub fn channel_of(&self, session: u32, sid: u32) -> Option<&Channel>
        ensures { option_copied result ≡ channel_of self.now session sid }
    {
        find(&self.channels, ChannelAt { session, sid })
    }

    /// Whether a session's channel stands and is on a variable.
    pub fn is_channel_on(&self, name: &Name, session: u32, sid: u32) -> bool
        ensures { result ≡ is_channel_on name.now (channel_of self.now session sid) }
    {
        match self.channel_of(session, sid) {
            Some(channel) => channel.real == *name,
            None => false,
        }
    }

    fn link_rights(&self, name: &Name) -> u32
        ensures { result ≡ link_rights (link_of self.now name.now) }
    {
        match self.link_of(name) {
            Some(link) => link.rights,
            None => 0,
        }
    }

    fn link_connected(&self, name: &Name) -> bool
        ensures { result ≡ link_connected (link_of self.now name.now) }
    {
        match self.link_of(name) {
            Some(link) => is_connected(link.state),
            None => false,
        }
    }

    /// The rights of a channel: those of its link that the policy leaves to its session.
    pub fn rights_of(&self, channel: &Channel) -> Result<u32, AllocError>
        ensures { IfOk result (λ rights. rights ≡ rights_of self.now channel.now) }
    {
        let lead = self.lead_in(channel.session, &channel.asked)?;
        Ok(self.link_rights(&channel.real) & rights_left(self.searches.policy(), lead.as_ref()))
    }

    /// Whether a channel is served: its name still leads to its real name, whose link is connected.
    pub fn is_served(&self, channel: &Channel) -> Result<bool, AllocError>
        ensures { IfOk result (λ answer. answer ≡ is_served self.now channel.now) }
    {
        let lead = self.lead_in(channel.session, &channel.asked)?;
        Ok(is_real(lead.as_ref(), &channel.real) && self.link_connected(&channel.real))
    }

    /// What a client was last told that it may do with a channel, nothing where it has no such channel.
    /// It takes no memory.
    pub fn rights_told(&self, session: u32, sid: u32) -> Option<u32>
        ensures { result ≡ rights_told self.now session sid }
    {
        match self.channel_of(session, sid) {
            Some(channel) => Some(channel.rights_told),
            None => None,
        }
    }

    /// The number of the server on whose link a session's channel stands, nothing where there is no such
    /// channel. It takes no memory.
    pub fn server_of(&self, session: u32, sid: u32) -> Option<u32>
        ensures { result ≡ server_of self.now session sid }
    {
        let channel = self.channel_of(session, sid)?;
        let link = self.link_of(&channel.real)?;
        Some(link.server)
    }

    /// How many links a server has.
    #[tactic(auto, using(crate::proofs::Counted::counted_links))]
    pub fn link_count_of(&self, server: u32) -> usize
        ensures { result ≡ length (filter (is_of server) self.now.upstream.links) }
    {
        self.links
            .iter()
            .filter(|link| link.server == server)
            .count()
    }

    /// Whether the name that a host searches for leads to a variable whose link is connected.
    pub fn is_found(&self, host: &Host, name: &Name) -> Result<bool, AllocError>
        ensures { IfOk result (λ answer. answer ≡ is_found self.now host.now name.now) }
    {
        match lead_of(self.alloc, self.searches.policy(), host, name)? {
            Some(lead) => Ok(self.link_connected(&lead.real)),
            None => Ok(false),
        }
    }

    fn is_linked(&self, name: &Name) -> bool
        ensures { result ≡ is_linked self.now name.now }
    {
        self.link_of(name).is_some()
    }

    /// Whether a channel is open on the real name, or a remembered search leads to it.
    pub fn is_wanted(&self, name: &Name) -> bool
        ensures { result ≡ is_wanted self.now name.now }
    {
        any_on(&self.channels, name) || self.searches.leads_to(name)
    }

    /// Whether the real name is wanted and has no link.
    pub fn is_missing(&self, name: &Name) -> bool
        ensures { result ≡ is_missing self.now name.now }
    {
        self.is_wanted(name) && !self.is_linked(name)
    }

    /// Adds a name where it has no link.
    fn add_unlinked(&self, names: &mut Vec<Name>, name: &Name) -> Result<(), AllocError>
        ensures { OnOk result (names.new.items ≡ with_unlinked self.now names.old.items name.now) }
    {
        if self.is_linked(name) {
            return Ok(());
        }
        let name = name.copy()?;
        add_in_order(names, name)
    }

    fn add_channel_names(&self, names: &mut Vec<Name>) -> Result<(), AllocError>
        ensures { OnOk result (names.new.items ≡ fold (with_unlinked self.now) names.old.items (channel_names self.now.clients.channels)) }
    {
        for channel in &self.channels {
            self.add_unlinked(names, &channel.real)?;
        }
        Ok(())
    }

    fn add_if_there(&self, names: &mut Vec<Name>, real: &Option<Name>) -> Result<(), AllocError>
        ensures { OnOk result (names.new.items ≡ fold (with_unlinked self.now) names.old.items (cons_option real.now [])) }
    {
        match real {
            Some(name) => self.add_unlinked(names, name),
            None => Ok(()),
        }
    }

    fn add_search_names(&self, names: &mut Vec<Name>) -> Result<(), AllocError>
        ensures { OnOk result (names.new.items ≡ fold (with_unlinked self.now) names.old.items (search_names self.now.policy self.now.searches)) }
    {
        for real in self.searches.reals() {
            self.add_if_there(names, real)?;
        }
        Ok(())
    }

    /// The names to ask servers for: wanted, without a link, by rising bytes, each once.
    pub fn asks(&self) -> Result<Vec<Name>, AllocError>
        ensures { IfOk result (λ names. names.items ≡ asks self.now) }
    {
        let mut names = Vec::new(self.alloc);
        self.add_channel_names(&mut names)?;
        self.add_search_names(&mut names)?;
        Ok(names)
    }

    /// Somebody at a host looks for a name: that is remembered, once. An old search may go for it, or it is
    /// remembered only where there is room.
    pub fn remember(&mut self, host: &Host, name: &Name) -> Result<(), AllocError>
        ensures { OnOk result (self.new ≡ remembered host.now name.now self.old) }
    {
        self.searches.remember(self.alloc, self.limits, host, name)
    }
}

fn any_on(channels: &[Channel], name: &Name) -> bool
    ensures { result ≡ list_any (is_on name.now) channels.now }
{
    channels.iter().any(|channel| channel.real == *name)
}

/// Adds a name to names by rising bytes, where it isn't there yet.
fn add_in_order(names: &mut Vec<Name>, name: Name) -> Result<(), AllocError>
    ensures { OnOk result (names.new.items ≡ with_name name names.old.items) }
{
    for place in 0..names.len() {
        match name.text().as_bytes().cmp(names[place].text().as_bytes()) {
            Ordering::Less => {
                names.insert(place, name)?;
                return Ok(());
            }
            Ordering::Equal => return Ok(()),
            Ordering::Greater => {}
        }
    }
    names.push(name)?;
    Ok(())
}
