//! What is forgotten and given up as time passes.
ghost use Rattle.std.specs.Prelude.{◌≡◌, filter, is_some, IfOk, OnOk};
ghost use Rattle.gateway_state.specs.Aged.{age_told, aged, are_properties_overdue, is_asked_before, is_link_overdue, link_given_up, links_given_up, properties_given_up, properties_given_up_on, searches_forgotten};
ghost use Rattle.gateway_state.specs.Updates.{held_by};

use crate::update::fail_reads;
use gateway_state::LastAge;
use gateway_values::{is_connected, is_creating, is_older, native_in};
use link_table::{Counter, LinkRow, Subject, Subscription};
use plain_rows::lists::find;
use plain_rows::state::PlainRows;
use plain_rows::upstream::{MessageOf, copy_link};
use std::alloc::AllocError;

/// Time passed.
pub(crate) fn age(rows: &mut PlainRows) -> Result<(), AllocError>
    ensures { OnOk result (rows.new ≡ aged rows.old) }
{
    give_up_properties(rows)?;
    give_up_links(rows)?;
    tell_age(rows);
    forget_searches(rows)
}

// Properties that servers were asked for

/// Whether something was asked for before the last age.
fn is_asked_before(rows: &PlainRows, subscription: Option<Subscription>) -> bool
    ensures { result ≡ is_asked_before rows.now subscription }
{
    match subscription {
        Some(subscription) => {
            let next = rows.numbers.next(Counter::Subscription);
            is_older(rows.last_age.subscription, next, subscription.id)
        }
        None => false,
    }
}

/// Whether a link's properties were told.
fn has_properties(rows: &PlainRows, cid: u32) -> bool
    ensures { result ≡ is_some (held_by rows.now cid).properties }
{
    match find(&rows.cache, MessageOf { cid }) {
        Some(last) => last.held.has_properties(),
        None => false,
    }
}

/// Whether a link's properties were asked for before the last age, and weren't told.
fn are_properties_overdue(rows: &PlainRows, link: &LinkRow) -> bool
    ensures { result ≡ are_properties_overdue rows.now link.now }
{
    is_connected(link.state)
        && is_asked_before(rows, link.subscriptions.properties)
        && !has_properties(rows, link.cid)
}

fn links_without_properties(rows: &PlainRows) -> Result<Vec<LinkRow>, AllocError>
    ensures { IfOk result (λ links. links.items ≡ filter (are_properties_overdue rows.now) rows.now.upstream.links) }
{
    let mut links = Vec::new(rows.alloc);
    for link in &rows.links {
        if are_properties_overdue(rows, link) {
            links.push(copy_link(link)?)?;
        }
    }
    Ok(links)
}

/// The reads that wait for the properties of a link's variable can't be had.
fn give_up_properties_on(rows: &mut PlainRows, link: &LinkRow) -> Result<(), AllocError>
    ensures { OnOk result (rows.new ≡ properties_given_up_on rows.old link.now) }
{
    fail_reads(rows, Subject::Properties, native_in(link.state), &link.name)
}

/// None of those that are overdue can.
fn give_up_properties(rows: &mut PlainRows) -> Result<(), AllocError>
    ensures { OnOk result (rows.new ≡ properties_given_up rows.old) }
{
    let links = links_without_properties(rows)?;
    for link in &links {
        give_up_properties_on(rows, link)?;
    }
    Ok(())
}

// Channels that servers were asked for

/// Whether a server was asked for a link's channel before the last age, and hasn't answered.
fn is_link_overdue(rows: &PlainRows, link: &LinkRow) -> bool
    ensures { result ≡ is_link_overdue rows.now link.now }
{
    let next = rows.numbers.next(Counter::Cid);
    is_creating(link.state) && is_older(rows.last_age.cid, next, link.cid)
}

fn overdue_links(rows: &PlainRows) -> Result<Vec<LinkRow>, AllocError>
    ensures { IfOk result (λ links. links.items ≡ filter (is_link_overdue rows.now) rows.now.upstream.links) }
{
    let mut links = Vec::new(rows.alloc);
    for link in &rows.links {
        if is_link_overdue(rows, link) {
            links.push(copy_link(link)?)?;
        }
    }
    Ok(links)
}

fn give_up_link(rows: &mut PlainRows, link: &LinkRow)
    ensures { rows.new ≡ link_given_up rows.old link.now }
{
    rows.remove_link(link.server, link.cid);
}

/// The links that are overdue go, so that their names are missing again.
fn give_up_links(rows: &mut PlainRows) -> Result<(), AllocError>
    ensures { OnOk result (rows.new ≡ links_given_up rows.old) }
{
    let links = overdue_links(rows)?;
    for link in &links {
        give_up_link(rows, link);
    }
    Ok(())
}

// Searches

/// What stands now stood at this age.
fn tell_age(rows: &mut PlainRows)
    ensures { rows.new ≡ age_told rows.old }
{
    rows.last_age = LastAge {
        cid: rows.numbers.next(Counter::Cid),
        subscription: rows.numbers.next(Counter::Subscription),
    };
}

/// The searches that weren't made since the last age are forgotten.
fn forget_searches(rows: &mut PlainRows) -> Result<(), AllocError>
    ensures { OnOk result (rows.new ≡ searches_forgotten rows.old) }
{
    rows.searches.forget_stale(rows.alloc)
}
