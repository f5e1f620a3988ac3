//! Many names resolved by the same rules.
ghost use Rattle.std.specs.Prelude.{◌≡◌, ◌∷◌, [], option_and_then, IfOk};
ghost use Rattle.access_file.specs.HostNames.{hosts_of};
ghost use Rattle.pv_alias.specs.Resolution.{resolution, is_refused, matching, deciding, lead_by};

use crate::NoMemory;
use crate::lead::Lead;
use crate::resolving::refuses;
use crate::tried::Tried;
use access_file::HostName;
use pv_name::{Host, Name};
use pvlist::{Order, Row, Rules};
use std::alloc::Global;
use std::marker::Model;

/// Rules by which many names are resolved, one after another. The matcher of a row is made when a name is
/// first tried on the row, and kept. A contract sees the rules.
#[derive(Drop)]
pub struct Resolver<'r> {
    alloc: Global,
    rules: &'r Rules,
    /// The rules' rows, in order.
    rows: Vec<Tried<'r>>,
}

impl<'r> Model for Resolver<'r> {
    ghost use Rattle.pvlist.specs.Ruling.{Ruling};
    ghost use Rattle.pvlist.specs.contracts.row.Row as row;
    ghost use Rattle.std.specs.Coded.{codes};
    ghost use Rattle.std.specs.Prelude.{◌≡◌};

    ghost Value = { Ruling };

    ghost coded = { Prim.hlevel (codes, row.the_row.coded) };

    ghost view = { λ r. r.rules.now };

    ghost invariant = { λ r. r.rows.items ≡ r.rules.now.rows };
}

impl<'r> Resolver<'r> {
    /// Resolves by these rules. Where they are open it takes no memory.
    pub fn new(alloc: Global, rules: &'r Rules) -> Result<Resolver<'r>, NoMemory>
        ensures { IfOk result (λ resolver. resolver ≡ rules.now) }
    {
        let rows = untried(alloc, rules.rows())?;
        Ok(Resolver { alloc, rules, rows })
    }

    /// Where the name leads that a client on this host asks for; `None` where the rules refuse it.
    /// It is what `resolve` gives under the same rules. Its only error is want of memory.
    #[tactic(auto, unfolding(access_file::specs::HostNames::hosts_of))]
    pub fn resolve(&mut self, host: &Host, name: &Name) -> Result<Option<Lead>, NoMemory>
        ensures lead { IfOk result (λ lead. lead ≡ resolution self.old (host.now ∷ []) name.now) }
        ensures same { self.new ≡ self.old }
    {
        self.resolve_known(host, &[], name)
    }

    /// The same where the host has names by these rows.
    #[tactic(auto, unfolding(crate::specs::Resolution::resolution))]
    pub fn resolve_known(
        &mut self,
        host: &Host,
        names: &[HostName],
        name: &Name,
    ) -> Result<Option<Lead>, NoMemory>
        ensures lead { IfOk result (λ lead. lead ≡ resolution self.old (hosts_of names.now host.now) name.now) }
        ensures same { self.new ≡ self.old }
    {
        if self.rules.is_open() {
            return Ok(Some(Lead::to_open(name)?));
        }
        let order = self.rules.order();
        if is_refused(self.alloc, order, &mut self.rows, host, names, name)? {
            return Ok(None);
        }
        last_lead(self.alloc, &mut self.rows, name)
    }
}

/// The rows, on which no name was tried yet.
fn untried<'r>(alloc: Global, rows: &'r [Row]) -> Result<Vec<Tried<'r>>, NoMemory>
    ensures { IfOk result (λ all. all.items ≡ rows.now) }
{
    let mut all = Vec::with_capacity(alloc, rows.len())?;
    for row in rows {
        all.push(Tried::new(row))?;
    }
    Ok(all)
}

/// Whether a row that matches the name refuses it to the host.
fn is_refused(
    alloc: Global,
    order: Order,
    rows: &mut [Tried<'_>],
    host: &Host,
    names: &[HostName],
    name: &Name,
) -> Result<bool, NoMemory>
    ensures refused { IfOk result
        (λ refused. refused ≡ is_refused order (hosts_of names.now host.now) (matching rows.old name.now)) }
    ensures same { rows.new ≡ rows.old }
{
    for row in rows.iter_mut() {
        if refuses(order, row.verb(), host, names) && row.matches(alloc, name)? {
            return Ok(true);
        }
    }
    Ok(false)
}

/// Where the last ALLOW or ALIAS row leads that matches the name.
fn last_lead(alloc: Global, rows: &mut [Tried<'_>], name: &Name) -> Result<Option<Lead>, NoMemory>
    ensures lead { IfOk result (λ lead. lead ≡ option_and_then (lead_by name.now)
        (deciding (matching rows.old name.now))) }
    ensures same { rows.new ≡ rows.old }
{
    let mut end = rows.len();
    while end > 0 {
        end -= 1;
        if rows[end].decides(alloc, name)? {
            return rows[end].lead(alloc, name);
        }
    }
    Ok(None)
}
