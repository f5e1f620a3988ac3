//! What the policy says of names. Each question of the policy is asked here and nowhere else, and takes
//! memory. What remembered searches and the names of channels lead to is kept beside the policy.
ghost use Rattle.std.specs.Prelude.{◌≡◌, IfOk};
ghost use Rattle.channel_table.specs.Looks.{GoesOn, IsCounted};
ghost use Rattle.gateway_rows.specs.Looked.{OnlyLooked, OnlyLookedOn};
ghost use Rattle.gateway_state.specs.Resolution.{lead_of};
ghost use Rattle.gateway_state.specs.Rights.{lead_in};
ghost use Rattle.rule_desk.specs.Granting.{led};
ghost use Rattle.rule_desk.specs.Policy.{counts_as};

use crate::counted_rows::CountedRows;
use crate::state::Known;
use channel_table::{Session, Table, Visits};
use pv_alias::Lead;
use pv_name::{Host, Name};
use state_tables::{AskedName, Searches};
use std::alloc::{AllocError, Global};

impl Known {
    /// Where the name leads that a host asks for; nothing where it is refused.
    pub fn lead_of(&self, host: &Host, name: &Name) -> Result<Option<Lead>, AllocError>
        ensures { IfOk result (λ lead. lead ≡ lead_of self.now.state.policy host.now name.now) }
    {
        self.searches.lead_of(self.alloc, host, name)
    }

    /// The same, which is remembered: asking for it again runs no rule.
    pub fn learn_lead(&mut self, host: &Host, name: &Name) -> Result<Option<Lead>, AllocError>
        ensures found { IfOk result (λ lead. lead ≡ lead_of self.old.state.policy host.now name.now) }
        ensures same { self.new ≡ self.old }
    {
        self.searches.learn_lead(self.alloc, host, name)
    }

    /// Remembers where these names lead that a host asks for, so that asking for them again runs no rule.
    /// Nothing else changes.
    pub fn learn_names(&mut self, host: &Host, names: &[Name]) -> Result<(), AllocError>
        ensures same { self.new ≡ self.old }
    {
        let mut asked = Vec::with_capacity(self.alloc, names.len())?;
        for name in names {
            asked.push(AskedName { host, name })?;
        }
        self.searches.learn_leads(self.alloc, &asked)
    }

    /// Where the name leads that a session asks for, with what its user may do there; nothing where it is refused,
    /// or where there is no such session.
    pub fn lead_in(
        &self,
        visits: &mut Visits,
        number: u32,
        name: &Name,
    ) -> Result<Option<Lead>, AllocError>
        requires own { visits.old.brand ≡ self.now.brand }
        ensures found { IfOk result (λ lead. lead ≡ lead_in self.now.state number name.now) }
        ensures looked { IsCounted 1 visits.old visits.new }
    {
        match self.clients.session(visits, number) {
            Some(session) => {
                let lead = self.lead_of(&session.host, name)?;
                Ok(self.led(lead, session))
            }
            None => Ok(None),
        }
    }

    /// A lead that the rules give to a session's host, with what its user may do there.
    fn led(&self, lead: Option<Lead>, session: &Session) -> Option<Lead>
        ensures { result ≡ led self.now.state.policy.access session.now.user (counts_as self.now.state.policy session.now.host) lead }
    {
        self.searches
            .policy()
            .led(lead, session.user.as_slice(), &session.host)
    }
}

impl CountedRows {
    /// Where the name leads that a session asks for, with what its user may do there. Where it leads is remembered:
    /// asking for it again runs no rule. It is nothing where it is refused, or where there is no such session.
    pub fn learn_lead_in(&mut self, number: u32, name: &Name) -> Result<Option<Lead>, AllocError>
        ensures found { IfOk result (λ lead. lead ≡ lead_in self.old.state number name.now) }
        ensures looked { OnlyLooked 1 self.old self.new }
    {
        let known = &mut self.known;
        match known.clients.session(&mut self.visits, number) {
            Some(session) => {
                let lead = known.searches.learn_lead(known.alloc, &session.host, name)?;
                Ok(
                    known
                        .searches
                        .policy()
                        .led(lead, session.user.as_slice(), &session.host),
                )
            }
            None => Ok(None),
        }
    }

    /// Remembers what the names of all channels lead to, so that asking for them again runs no rule.
    /// Nothing else changes.
    pub fn learn_leads(&mut self) -> Result<(), AllocError>
        ensures looked { OnlyLookedOn self.old self.new }
    {
        let known = &mut self.known;
        learn_leads(
            known.alloc,
            &known.clients,
            &mut self.visits,
            &mut known.searches,
        )
    }
}

fn learn_leads(
    alloc: Global,
    clients: &Table,
    visits: &mut Visits,
    searches: &mut Searches,
) -> Result<(), AllocError>
    requires own { visits.old.brand ≡ clients.now.brand }
    ensures same { searches.new ≡ searches.old }
    ensures looked { GoesOn visits.old visits.new }
{
    let mut asked = Vec::new(alloc);
    for channel in &clients.channels(visits, alloc)? {
        if let Some(session) = clients.session(visits, channel.session) {
            asked.push(AskedName {
                host: &session.host,
                name: &channel.asked,
            })?;
        }
    }
    searches.learn_leads(alloc, &asked)
}
