//! Properties that servers were asked for and don't tell.
ghost use Rattle.std.specs.Prelude.{◌≡◌, ◌≤◌, ◌+◌, filter, fold, is_some, map, OnOk, IfOk};
ghost use Rattle.gateway_rows.specs.Looked.{LookedOn};
ghost use Rattle.gateway_rows.specs.Own.{reads_on};
ghost use Rattle.gateway_state.specs.Aged.{are_properties_overdue, is_asked_before, properties_given_up};
ghost use Rattle.gateway_state.specs.Updates.{held_by};
ghost use Rattle.direct_effect.specs.Looks.{age_looks};
ghost use Rattle.direct_effect.specs.Overdue.{given_up_on, looks_at, overdue_of};

use crate::update::fail_reads;
use gateway_rows::{CountedRows, Known};
use gateway_values::{is_connected, is_older, native_in};
use link_table::{Counter, LinkRow, LinkState, Subject, Subscription};
use pv_name::Name;
use std::alloc::AllocError;

/// A variable whose properties are overdue, and how far its link has come.
#[derive(Drop)]
pub(crate) struct Overdue {
    name: Name,
    state: LinkState,
}

/// Whether this was asked for before the last age.
fn is_asked_before(known: &Known, subscription: Option<Subscription>) -> bool
    ensures { result ≡ is_asked_before known.now.state subscription }
{
    match subscription {
        Some(subscription) => {
            let next = known.upstream.next(Counter::Subscription);
            is_older(known.last_age.subscription, next, subscription.id)
        }
        None => false,
    }
}

/// Whether properties of a link are held.
fn has_properties(known: &Known, cid: u32) -> bool
    ensures { result ≡ is_some (held_by known.now.state cid).properties }
{
    match known.cache.get(cid) {
        Some(last) => last.held.has_properties(),
        None => false,
    }
}

/// Whether a link's properties were asked for before the last age, and weren't told.
fn are_properties_overdue(known: &Known, link: &LinkRow) -> bool
    ensures { result ≡ are_properties_overdue known.now.state link.now }
{
    is_connected(link.state)
        && is_asked_before(known, link.subscriptions.at(Subject::Properties))
        && !has_properties(known, link.cid)
}

/// The variables of the links whose properties are so.
fn list_overdue(known: &Known) -> Result<Vec<Overdue>, AllocError>
    ensures { IfOk result (λ overdue. overdue.items ≡ map overdue_of (filter (are_properties_overdue known.now.state) known.now.state.upstream.links)) }
{
    let mut overdue = Vec::new(known.alloc);
    for link in known.upstream.links(known.alloc)? {
        if are_properties_overdue(known, link) {
            overdue.push(Overdue {
                name: link.name.copy()?,
                state: link.state,
            })?;
        }
    }
    Ok(overdue)
}

/// The reads that wait for the properties of a variable can't be had.
#[tactic(auto, using(crate::proofs::Failing::failing_are_waiting))]
fn give_up_on(rows: &mut CountedRows, overdue: &Overdue) -> Result<(), AllocError>
    ensures ok { OnOk result (rows.new.state ≡ given_up_on rows.old.state overdue.now) }
    ensures looked { LookedOn rows.old rows.new }
    ensures bound { OnOk result (rows.new.count.looks ≤ rows.old.count.looks + reads_on rows.old.state overdue.now.name) }
{
    let reads = rows.reads_for(&overdue.name)?;
    let native = native_in(overdue.state);
    fail_reads(&mut rows.known, reads, Subject::Properties, native)
}

/// The same of each of these, in order.
fn give_up_on_all(rows: &mut CountedRows, overdue: &[Overdue]) -> Result<(), AllocError>
    ensures ok { OnOk result (rows.new.state ≡ fold given_up_on rows.old.state overdue.now) }
    ensures looked { LookedOn rows.old rows.new }
    ensures bound { OnOk result (rows.new.count.looks ≤ rows.old.count.looks + looks_at rows.old.state overdue.now) }
{
    for one in overdue {
        give_up_on(rows, one)?;
    }
    Ok(())
}

/// Time passed: the reads that wait for properties that a server was asked for before the last age and didn't
/// tell can't be had.
#[tactic(auto, using(crate::proofs::GivenUp::given_up_as_overdue))]
pub fn give_up_properties(rows: &mut CountedRows) -> Result<(), AllocError>
    ensures ok { OnOk result (rows.new.state ≡ properties_given_up rows.old.state) }
    ensures looked { LookedOn rows.old rows.new }
    ensures bound { OnOk result (rows.new.count.looks ≤ rows.old.count.looks + age_looks rows.old.state) }
{
    let overdue = list_overdue(&rows.known)?;
    give_up_on_all(rows, &overdue)
}
