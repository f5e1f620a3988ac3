//! What names were found to lead to.
ghost use Rattle.std.specs.Prelude.{◌≡◌, ◌<◌, [], length, string_bytes, IfOk, IfSome, OnOk, OnErr, IsTrue};
ghost use Rattle.gateway_state.specs.Resolution.{lead_of};
ghost use Rattle.state_tables.specs.Leads.{AreKept, AreLeads, IsLead, IsAskedBy, rows_of, text_of};
ghost use Rattle.state_tables.specs.declared.leads.TheConstants.{LEADS_LIMIT};
ghost use Rattle.rule_desk.specs.declared.policy.Policy.{Policy as PolicyValue};

use indexmap::IndexMap;
use pv_alias::Lead;
use pv_name::{Host, Name};
use rule_desk::Policy;
use std::alloc::{AllocError, Global};
use std::marker::Model;

/// The most names, each with the host that asks for it, of which it is remembered what they lead to.
pub const LEADS_LIMIT: usize = 262_144;

/// A name, and the host that asks for it.
#[derive(Drop)]
pub struct AskedName<'a> {
    pub host: &'a Host,
    pub name: &'a Name,
}

/// What a name was found to lead to that a host asks for; nothing where it is refused.
#[derive(Drop)]
pub(crate) struct LeadRow {
    pub(crate) host: Host,
    pub(crate) name: Name,
    pub(crate) lead: Option<Lead>,
}

/// What names lead to that were asked for. It holds `LEADS_LIMIT` of them: when one more comes it is
/// emptied and begins anew, and rules are run again where they are needed.
#[derive(Drop)]
pub(crate) struct Leads {
    /// Each under a text of its host and its name.
    rows: IndexMap<String, LeadRow>,
    alloc: Global,
}

impl Model for Leads {
    ghost use Rattle.std.specs.Prelude.{List};
    ghost use Rattle.state_tables.specs.Leads.{AreKept, rows_of};
    ghost use Rattle.state_tables.specs.declared.leads.TheConstants.{LEADS_LIMIT};
    ghost use Rattle.state_tables.specs.declared.leads.LeadRow.{LeadRow as Row};

    ghost Value = { List Row };

    ghost view = { λ l. rows_of l.rows.entries };

    ghost invariant = { λ l. AreKept LEADS_LIMIT l.rows.entries };
}

impl Leads {
    pub(crate) fn new(alloc: Global) -> Leads
        ensures { result ≡ [] }
    {
        Leads {
            rows: IndexMap::new(alloc),
            alloc,
        }
    }

    /// What is remembered of the name that a host asks for: where it leads, or that it leads nowhere.
    pub(crate) fn get(
        &self,
        policy: &Policy,
        host: &Host,
        name: &Name,
    ) -> Result<Option<Option<Lead>>, AllocError>
        requires { AreLeads policy.now self.now }
        ensures { IfOk result (λ found. IfSome found (IsLead policy.now host.now name.now)) }
    {
        let key = key(self.alloc, host, name)?;
        match self.rows.get(&key) {
            Some(row) if is_asked_by(row, host, name) => Ok(Some(copy(&row.lead)?)),
            _ => Ok(None),
        }
    }

    /// Remembers what the name leads to that a host asks for, or that it leads nowhere.
    pub(crate) fn add(
        &mut self,
        policy: &Policy,
        host: &Host,
        name: &Name,
        lead: &Option<Lead>,
    ) -> Result<(), AllocError>
        requires leads { AreLeads policy.now self.old }
        requires lead { IsLead policy.now host.now name.now lead.now }
        ensures { AreLeads policy.now self.new }
    {
        let key = key(self.alloc, host, name)?;
        let row = row(host, name, lead)?;
        self.make_room();
        put(&mut self.rows, key, row)
    }

    // Begins anew where no more are to be held.
    fn make_room(&mut self)
        ensures same { (policy : PolicyValue) → AreLeads policy self.old → AreLeads policy self.new }
        ensures room { length self.new < LEADS_LIMIT }
    {
        if self.rows.len() >= LEADS_LIMIT {
            self.rows.clear();
        }
    }
}

#[tactic(auto, using(crate::proofs::LeadRows::leads_with_one, crate::proofs::LeadRows::kept_with_one))]
fn put(rows: &mut IndexMap<String, LeadRow>, key: String, row: LeadRow) -> Result<(), AllocError>
    requires kept { AreKept LEADS_LIMIT rows.old.entries }
    requires room { length (rows_of rows.old.entries) < LEADS_LIMIT }
    requires its { string_bytes key ≡ text_of row.host row.name }
    ensures kept { AreKept LEADS_LIMIT rows.new.entries }
    ensures same { (policy : PolicyValue) → IsLead policy row.host row.name row.lead → AreLeads policy (rows_of rows.old.entries) → AreLeads policy (rows_of rows.new.entries) }
{
    match rows.insert(key, row) {
        Ok(_) => Ok(()),
        Err(_) => Err(AllocError),
    }
}

// One text for the two: no host has a space.
fn key(alloc: Global, host: &Host, name: &Name) -> Result<String, AllocError>
    ensures { IfOk result (λ key. string_bytes key ≡ text_of host.now name.now) }
{
    let mut key = String::from_str(alloc, host.text())?;
    key.push_str(" ")?;
    key.push_str(name.text())?;
    Ok(key)
}

fn row(host: &Host, name: &Name, lead: &Option<Lead>) -> Result<LeadRow, AllocError>
    ensures { IfOk result (λ row. row ≡ record { host = host.now; name = name.now; lead = lead.now }) }
{
    let (Ok(host), Ok(name)) = (host.copy(), name.copy()) else {
        return Err(AllocError);
    };
    Ok(LeadRow {
        host,
        name,
        lead: copy(lead)?,
    })
}

fn copy(lead: &Option<Lead>) -> Result<Option<Lead>, AllocError>
    ensures { IfOk result (λ copy. copy ≡ lead.now) }
{
    match lead {
        Some(lead) => Ok(Some(lead.copy()?)),
        None => Ok(None),
    }
}

fn is_asked_by(row: &LeadRow, host: &Host, name: &Name) -> bool
    ensures { IsTrue result → IsAskedBy host.now name.now row.now }
{
    row.name.text() == name.text() && row.host.text() == host.text()
}
