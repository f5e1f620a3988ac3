//! What the IDs of subscriptions lead to.
ghost use Rattle.std.specs.Prelude.{◌≡◌, [], false, OnOk, OnErr};
ghost use Rattle.link_table.specs.Links.{is_same_id};
ghost use Rattle.link_table.specs.LinkIndex.{forgotten, leads_at, led_by, renewed, sub_key, with_led, without_led, IsFree};

use crate::links::{Subject, Subscription, Subscriptions};
use row_index::{Key, RowMap};
use std::alloc::{AllocError, Global};
use std::marker::Model;

/// The key of the link that has a subscription, for each subject.
#[derive(Drop)]
pub(crate) struct SubLeads {
    values: RowMap<Key>,
    properties: RowMap<Key>,
}

impl Model for SubLeads {
    ghost use Rattle.link_table.specs.LinkIndex.{Leads};

    ghost Value = { Leads };

    ghost view = { λ s. record { values = s.values; properties = s.properties } };
}

impl SubLeads {
    /// No key leads anywhere. This takes no memory.
    pub(crate) fn new(alloc: Global) -> SubLeads
        ensures { result ≡ record { values = []; properties = [] } }
    {
        SubLeads {
            values: RowMap::new(alloc),
            properties: RowMap::new(alloc),
        }
    }

    /// What a key leads to, on whichever subject.
    pub(crate) fn get(&self, key: Key) -> Option<Key>
        ensures { result ≡ led_by key self.now }
    {
        match self.values.get(key) {
            Some(to) => Some(*to),
            None => self.properties.get(key).copied(),
        }
    }

    /// Lets the ID of a new subscription on a subject lead to its link, in place of that of the old
    /// one, unless both have the same. At an error that of the old one still does.
    pub(crate) fn renew(
        &mut self,
        subject: Subject,
        was: Option<Subscription>,
        sub: Option<Subscription>,
        to: Key,
    ) -> Result<(), AllocError>
        requires { is_same_id was sub ≡ false → IsFree (sub_key to.owner sub) (leads_at subject self.old) }
        ensures ok { OnOk result (self.new ≡ renewed subject was sub to self.old) }
        ensures err { OnErr result (self.new ≡ self.old) }
    {
        if is_same_id(was, sub) {
            return Ok(());
        }
        let old = sub_key(to.owner, was);
        let new = sub_key(to.owner, sub);
        match subject {
            Subject::Values => move_lead(&mut self.values, old, new, to),
            Subject::Properties => move_lead(&mut self.properties, old, new, to),
        }
    }

    /// Lets the IDs of a link's subscriptions lead nowhere.
    pub(crate) fn forget(&mut self, server: u32, subs: Subscriptions)
        ensures { self.new ≡ forgotten server subs self.old }
    {
        forget_lead(&mut self.values, sub_key(server, subs.values));
        forget_lead(&mut self.properties, sub_key(server, subs.properties));
    }
}

// Whether the second subscription has the ID of the first.
fn is_same_id(was: Option<Subscription>, sub: Option<Subscription>) -> bool
    ensures { result ≡ is_same_id was sub }
{
    match (was, sub) {
        (Some(was), Some(sub)) => was.id == sub.id,
        _ => false,
    }
}

// The key under which a subscription leads to its link. The subscription's ID is the owner, so that
// no owner has many.
fn sub_key(server: u32, sub: Option<Subscription>) -> Option<Key>
    ensures { result ≡ sub_key server sub }
{
    match sub {
        Some(sub) => Some(Key {
            owner: sub.id,
            id: server,
        }),
        None => None,
    }
}

// Lets another key lead to this one, in place of the one that did. At an error that one still does.
fn move_lead(
    leads: &mut RowMap<Key>,
    old: Option<Key>,
    new: Option<Key>,
    to: Key,
) -> Result<(), AllocError>
    requires { IsFree new leads.old }
    ensures ok { OnOk result (leads.new ≡ without_led old (with_led new to leads.old)) }
    ensures err { OnErr result (leads.new ≡ leads.old) }
{
    if let Some(new) = new {
        leads.add(new, to)?;
    }
    forget_lead(leads, old);
    Ok(())
}

fn forget_lead(leads: &mut RowMap<Key>, led: Option<Key>)
    ensures { leads.new ≡ without_led led leads.old }
{
    if let Some(led) = led {
        leads.remove(led);
    }
}
