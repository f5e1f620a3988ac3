//! What the readers of a variable want together.
ghost use Rattle.std.specs.Prelude.{◌≡◌, None, Some, if◌then◌else◌};
ghost use Rattle.gateway_state.specs.Interest.{minor_of, property_subscription_of, property_want, subscription_of, subscription_to, wanted_for};
ghost use Rattle.gateway_state.specs.Told.{KnowRights};
ghost use Rattle.link_table.specs.declared.links.Subject.TheVariants.{Properties, Values};

use crate::state::Known;
use dbr_layout::is_state_by;
use gateway_state::Sub;
use gateway_values::property_want;
use link_table::{LinkState, Subject};
use mask_merge::Want;
use pv_name::Name;

impl Known {
    /// What the readers of a variable of this native type and count want of its values and of its
    /// properties, nothing of those that there is no reader of. The table of clients has it counted, so
    /// this looks at no row.
    pub fn wanted(&self, name: &Name, dtype: u16, native: u32) -> (Option<Want>, Option<Want>)
        requires told { KnowRights self.now.state }
        ensures values { result.0 ≡ wanted_for Values self.now.state name.now dtype native }
        ensures properties { result.1 ≡ wanted_for Properties self.now.state name.now dtype native }
    {
        let (values, needed) = self.clients.demand_on(name, native, is_state_by(dtype));
        (values, properties_if(needed))
    }

    fn subscription_to(&self, subject: Subject, name: &Name) -> Option<Sub>
        ensures { result ≡ subscription_to subject self.now.state name.now }
    {
        let link = self.link_of(name)?;
        let LinkState::Connected { .. } = link.state else {
            return None;
        };
        let subscription = link.subscriptions.at(subject)?;
        Some(Sub {
            id: subscription.id,
            mask: subscription.mask,
            count: subscription.count,
        })
    }

    /// The present subscription to a variable's values.
    pub fn subscription_of(&self, name: &Name) -> Option<Sub>
        ensures { result ≡ subscription_of self.now.state name.now }
    {
        self.subscription_to(Subject::Values, name)
    }

    /// The ID of the present subscription to a variable's properties.
    pub fn property_subscription_of(&self, name: &Name) -> Option<u32>
        ensures { result ≡ property_subscription_of self.now.state name.now }
    {
        match self.subscription_to(Subject::Properties, name) {
            Some(sub) => Some(sub.id),
            None => None,
        }
    }

    /// The minor version that a server said.
    pub fn minor_of(&self, server: u32) -> u32
        ensures { result ≡ minor_of self.now.state server }
    {
        match self.upstream.server(server) {
            Some(row) => row.minor,
            None => 0,
        }
    }
}

fn properties_if(needed: bool) -> Option<Want>
    ensures { result ≡ (if needed then Some property_want else None) }
{
    if needed { Some(property_want()) } else { None }
}
