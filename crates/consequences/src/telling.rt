//! What follows from an event, by what it touched.
ghost use Rattle.std.specs.Prelude.{◌≡◌, ◌≤◌, ◌+◌, ◌*◌, true, filter, length, OnOk, IsErrOf};
ghost use Rattle.consequences.specs.Looks.{looks_after};
ghost use Rattle.gateway_rows.specs.Looked.{LookedOn};
ghost use Rattle.gateway_rows.specs.Own.{IsWithin, channels_on, reads_on, subs_on};
ghost use Rattle.consequences.specs.InTurn.{AreFoundBy};
ghost use Rattle.gateway_state.specs.Numbers.{is_past_numbers};
ghost use Rattle.gateway_state.specs.Servers.{concerned_owed};
ghost use Rattle.gateway_state.specs.Settled.{AreNumbersApart};
ghost use Rattle.gateway_state.specs.Step.{consequences};
ghost use Rattle.gateway_state.specs.Told.{KnowRights};
ghost use Rattle.gateway_state.specs.Updates.{is_sub_to};
ghost use Rattle.touched_rows.specs.Concern.{passes};
ghost use Rattle.touched_rows.specs.Touched.{channels_told_on, reads_told_on, updates_told_on, variable_told};
ghost use Rattle.touched_rows.specs.Touches.{IsReady, consequences_of, with_touched};

use crate::channels::{tell_channels, tell_channels_on};
use crate::gone::tell_gone;
use crate::links::{tell_interest, tell_link_on, tell_links, tell_links_among};
use crate::reads::{tell_new_read, tell_reads, tell_reads_on};
use crate::sharing::{share_on, share_with, thin_on};
use crate::source::source_of;
use crate::updates::{
    tell_one_update, tell_updates, tell_updates_to, withhold_updates, withhold_updates_on,
};
use crate::walk::tell_each;
use channel_table::ClientSub;
use gateway_rows::{CountedRows, RowsRefusal};
use pv_name::Name;
use std::alloc::AllocError;
use touched_rows::{Concern, Touched};

/// All passes, over all rows.
#[tactic(auto, using(gateway_state::proofs::NumberLemmas::links_told_past, gateway_state::proofs::NumbersKept::numbers_before_links, gateway_state::proofs::ToldRights::told_before_withheld, gateway_state::proofs::ToldRights::told_before_links, gateway_state::proofs::ToldRights::told_before_reads, gateway_state::proofs::ToldRights::told_before_updates))]
fn follow_all(rows: &mut CountedRows) -> Result<(), RowsRefusal>
    requires order { AreNumbersApart rows.old.state }
    ensures ok { OnOk result (rows.new.state ≡ consequences rows.old.state) }
    ensures used_up { IsErrOf result RowsRefusal.NumbersUsedUp → is_past_numbers (consequences rows.old.state) ≡ true }
    ensures looked { LookedOn rows.old rows.new }
{
    tell_channels(rows)?;
    withhold_updates(rows)?;
    tell_links(&mut rows.known)?;
    tell_reads(rows)?;
    tell_updates(rows)?;
    Ok(())
}

/// The same where names may lead elsewhere. What they lead to is learned first, so that the rules are run
/// once for each channel.
fn tell_consequences_anew(rows: &mut CountedRows) -> Result<(), RowsRefusal>
    requires order { AreNumbersApart rows.old.state }
    ensures ok { OnOk result (rows.new.state ≡ consequences rows.old.state) }
    ensures used_up { IsErrOf result RowsRefusal.NumbersUsedUp → is_past_numbers (consequences rows.old.state) ≡ true }
    ensures looked { LookedOn rows.old rows.new }
{
    rows.learn_leads()?;
    follow_all(rows)
}

/// All passes, over the rows of one variable.
#[tactic(auto, using(touched_rows::proofs::Numbers::variable_follows_past, touched_rows::proofs::Ready::order_before_link, touched_rows::proofs::Ready::told_after_withheld, touched_rows::proofs::Ready::told_after_link, crate::proofs::RightsLooks::fewer_then, crate::proofs::RightsLooks::as_many_then, crate::proofs::ValueWalk::nobody_owed))]
fn follow_variable(rows: &mut CountedRows, name: &Name) -> Result<(), RowsRefusal>
    requires order { AreNumbersApart rows.old.state }
    requires told { KnowRights (channels_told_on name.now rows.old.state) }
    ensures ok { OnOk result (rows.new.state ≡ variable_told name.now rows.old.state) }
    ensures used_up { IsErrOf result RowsRefusal.NumbersUsedUp → is_past_numbers (variable_told name.now rows.old.state) ≡ true }
    ensures looked { LookedOn rows.old rows.new }
    ensures bound { OnOk result (rows.new.count.looks ≤ rows.old.count.looks + (4 * channels_on rows.old.state name.now + 9 * subs_on rows.old.state name.now + 2 * reads_on rows.old.state name.now)) }
{
    tell_channels_on(rows, name)?;
    withhold_updates_on(rows, name)?;
    tell_link_on(&mut rows.known, name)?;
    Ok(tell_value(rows, name, Concern::Nobody)?)
}

/// Answers the reads that wait for a variable and are covered, and then gives the updates that are due on it,
/// to which these are all subscriptions: to those whom an update concerns and those who were owed one before.
#[tactic(auto, using(touched_rows::proofs::Ready::told_after_reads, crate::proofs::ValueWalk::on_after_reads))]
fn tell_listed(
    rows: &mut CountedRows,
    name: &Name,
    concern: Concern,
    subs: &[ClientSub],
) -> Result<(), AllocError>
    requires told { KnowRights rows.old.state }
    requires found { AreFoundBy concern rows.old.state }
    requires subs { subs.now ≡ filter (is_sub_to rows.old.state name.now) rows.old.state.clients.subs }
    ensures ok { OnOk result (rows.new.state ≡ updates_told_on name.now (reads_told_on name.now (concerned_owed name.now (passes concern) rows.old.state))) }
    ensures looked { LookedOn rows.old rows.new }
    ensures bound { OnOk result (rows.new.count.looks ≤ rows.old.count.looks + 3 * length subs.now + 2 * reads_on rows.old.state name.now) }
{
    tell_reads_on(rows, name)?;
    tell_each(rows, name, concern, subs)?;
    Ok(())
}

/// The same, with all subscriptions to the variable. What several of them are given is laid out once.
fn tell_value(rows: &mut CountedRows, name: &Name, concern: Concern) -> Result<(), AllocError>
    requires told { KnowRights rows.old.state }
    requires found { AreFoundBy concern rows.old.state }
    ensures ok { OnOk result (rows.new.state ≡ updates_told_on name.now (reads_told_on name.now (concerned_owed name.now (passes concern) rows.old.state))) }
    ensures looked { LookedOn rows.old rows.new }
    ensures bound { OnOk result (rows.new.count.looks ≤ rows.old.count.looks + 5 * subs_on rows.old.state name.now + 2 * reads_on rows.old.state name.now) }
{
    let subs = rows.subs_on(name)?;
    share_on(rows, name, concern, subs.as_slice())?;
    tell_listed(rows, name, concern, subs.as_slice())?;
    if subs.len() > 1 {
        let source = source_of(&rows.known, name);
        thin_on(&mut rows.known, source);
    }
    Ok(())
}

/// What follows from an event that touched this. A read that was touched isn't kept yet, and an update that
/// came is owed to nobody yet.
#[tactic(auto, using(touched_rows::proofs::Numbers::update_follows_past, touched_rows::proofs::Ready::told_after_interest, crate::proofs::ValueWalk::found_apart))]
pub fn tell_consequences(rows: &mut CountedRows, touched: Touched) -> Result<(), RowsRefusal>
    requires order { AreNumbersApart rows.old.state }
    requires told { IsReady touched rows.old.state }
    ensures ok { OnOk result (rows.new.state ≡ consequences_of touched (with_touched touched rows.old.state)) }
    ensures used_up { IsErrOf result RowsRefusal.NumbersUsedUp → is_past_numbers (consequences_of touched (with_touched touched rows.old.state)) ≡ true }
    ensures looked { LookedOn rows.old rows.new }
    ensures bound { OnOk result (IsWithin (looks_after touched rows.old.state) rows.old.count.looks rows.new.count.looks) }
{
    match touched {
        Touched::All => tell_consequences_anew(rows),
        Touched::Gone(names) => Ok(tell_gone(rows, &names)?),
        Touched::Nothing => Ok(()),
        Touched::Session(number) => Ok(tell_updates_to(rows, number)?),
        Touched::Variable(name) => follow_variable(rows, &name),
        Touched::Value(name, concern) => Ok(tell_value(rows, &name, concern)?),
        Touched::Interest(name) => tell_interest(&mut rows.known, &name),
        Touched::Link(name) => tell_link_on(&mut rows.known, &name),
        Touched::Links(names) => tell_links_among(&mut rows.known, &names),
        Touched::Read(name, read) => tell_new_read(rows, &name, read),
        Touched::Subscription(name, sub) => {
            tell_interest(&mut rows.known, &name)?;
            let shared = share_with(rows, &name, &sub)?;
            tell_one_update(rows, sub)?;
            thin_on(&mut rows.known, shared);
            Ok(())
        }
    }
}
