//! Links and wanted names, by variable.
ghost use Rattle.std.specs.Prelude.{◌≡◌};
ghost use Rattle.std.specs.Option.{option_copied};
ghost use Rattle.gateway_state.specs.Variables.{connected, link_of, is_linked, is_wanted, is_missing};

use crate::state::Known;
use gateway_values::{ConnectedVariable, connected};
use link_table::LinkRow;
use pv_name::Name;

impl Known {
    /// The link of a real name.
    pub fn link_of(&self, name: &Name) -> Option<&LinkRow>
        ensures { option_copied result ≡ link_of self.now.state name.now }
    {
        self.upstream.by_name(name)
    }

    /// The variable of a real name; none where it has no link, or none that is connected.
    pub fn connected(&self, name: &Name) -> Option<ConnectedVariable<'_>>
        ensures { result ≡ connected self.now.state name.now }
    {
        connected(self.link_of(name)?)
    }

    /// Whether a real name has a link.
    pub fn is_linked(&self, name: &Name) -> bool
        ensures { result ≡ is_linked self.now.state name.now }
    {
        match self.link_of(name) {
            Some(_) => true,
            None => false,
        }
    }

    /// Whether a channel is open on the real name, or a remembered search leads to it.
    pub fn is_wanted(&self, name: &Name) -> bool
        ensures { result ≡ is_wanted self.now.state name.now }
    {
        self.clients.is_used(name) || self.searches.leads_to(name)
    }

    /// Whether the real name is wanted and has no link.
    pub fn is_missing(&self, name: &Name) -> bool
        ensures { result ≡ is_missing self.now.state name.now }
    {
        self.is_wanted(name) && !self.is_linked(name)
    }
}
