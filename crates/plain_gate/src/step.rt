//! One event: its direct effect, and all passes over all rows.
ghost use Rattle.std.specs.Prelude.{◌≡◌, true, false, IfOk, IsErrOf, OnOk};
ghost use Rattle.gateway_state.specs.Direct.{direct_effect, drained, searched};
ghost use Rattle.gateway_state.specs.Numbers.{is_past_numbers};
ghost use Rattle.gateway_state.specs.Step.{consequences, step, taken};

use crate::ages::age;
use crate::channels_pass::tell_channels;
use crate::client::hear_client;
use crate::links_pass::tell_links;
use crate::opening::{lose_server, lose_session, open_server, open_session};
use crate::reads_pass::tell_reads;
use crate::search::seek;
use crate::server::{find_at, hear_server};
use crate::updates_pass::{tell_updates, withhold_updates};
use ca_message::ToServer;
use fanout::Out;
use gateway_state::{Dest, Event, lead_of};
use plain_rows::connections::take;
use plain_rows::numbers::PlainRefusal;
use plain_rows::state::PlainRows;
use pv_name::{Host, Name};
use std::alloc::AllocError;

/// Performs one event.
#[tactic(auto, using(gateway_state::proofs::NumberLemmas::consequences_past), unfolding(gateway_state::specs::Step::step))]
pub(crate) fn step(rows: &mut PlainRows, event: Event) -> Result<(), PlainRefusal>
    ensures ok { OnOk result (rows.new ≡ step rows.old event) }
    ensures used_up { IsErrOf result PlainRefusal.NumbersUsedUp → is_past_numbers (step rows.old event) ≡ true }
    ensures in_range { OnOk result (is_past_numbers rows.new ≡ false) }
{
    perform(rows, event)?;
    tell_consequences(rows)?;
    rows.numbers_are_in_range();
    Ok(())
}

/// Takes the oldest messages of an outbox, in order. This is an event too.
#[tactic(auto, using(gateway_state::proofs::NumberLemmas::consequences_past), unfolding(gateway_state::specs::Step::step))]
pub(crate) fn drain(
    rows: &mut PlainRows,
    dest: Dest,
    count: usize,
) -> Result<Vec<Out>, PlainRefusal>
    ensures ok { OnOk result (rows.new ≡ step rows.old (Event.Drain dest count)) }
    ensures found { IfOk result (λ outs. outs.items ≡ taken rows.old (Event.Drain dest count) dest) }
    ensures used_up { IsErrOf result PlainRefusal.NumbersUsedUp → is_past_numbers (step rows.old (Event.Drain dest count)) ≡ true }
    ensures in_range { OnOk result (is_past_numbers rows.new ≡ false) }
{
    let outs = take_out(rows, dest, count)?;
    tell_consequences(rows)?;
    rows.numbers_are_in_range();
    Ok(outs)
}

/// The oldest messages of an outbox go, and are handed out in order.
fn take_out(rows: &mut PlainRows, dest: Dest, count: usize) -> Result<Vec<Out>, AllocError>
    ensures ok { OnOk result (rows.new ≡ drained rows.old dest count) }
    ensures found { IfOk result (λ outs. outs.items ≡ taken rows.old (Event.Drain dest count) dest) }
{
    take(&mut rows.connections, rows.alloc, dest, count)
}

/// What follows from an event: all passes, over all rows.
#[tactic(auto, using(gateway_state::proofs::NumberLemmas::links_told_past))]
fn tell_consequences(rows: &mut PlainRows) -> Result<(), PlainRefusal>
    ensures ok { OnOk result (rows.new ≡ consequences rows.old) }
    ensures used_up { IsErrOf result PlainRefusal.NumbersUsedUp → is_past_numbers (consequences rows.old) ≡ true }
{
    tell_channels(rows)?;
    withhold_updates(rows)?;
    tell_links(rows)?;
    tell_reads(rows)?;
    tell_updates(rows)?;
    Ok(())
}

/// What the event does by itself.
fn perform(rows: &mut PlainRows, event: Event) -> Result<(), PlainRefusal>
    ensures ok { OnOk result (rows.new ≡ direct_effect rows.old event) }
    ensures used_up { IsErrOf result PlainRefusal.NumbersUsedUp → is_past_numbers (direct_effect rows.old event) ≡ true }
{
    match event {
        Event::Opened(number, host) => Ok(open_session(rows, number, host)?),
        Event::Lost(number) => {
            lose_session(rows, number);
            Ok(())
        }
        Event::Client(number, message) => {
            if rows.acts(Dest::Session(number)) {
                hear_client(rows, number, message)
            } else {
                Ok(())
            }
        }
        Event::UpOpened(number) => Ok(open_server(rows, number)?),
        Event::UpLost(number) => {
            lose_server(rows, number);
            Ok(())
        }
        Event::Server(number, message) => {
            if rows.acts(Dest::Upstream(number)) {
                Ok(hear_server(rows, number, &message)?)
            } else {
                Ok(())
            }
        }
        Event::Found(name, number) => find_at(rows, &name, number),
        Event::Search(host, name) => Ok(search_for(rows, &host, &name)?),
        Event::Edit(policy) => { Ok(rows.searches.set_policy(rows.alloc, policy)?) }
        Event::Sweep => {
            rows.searches.clear();
            Ok(())
        }
        Event::Drain(dest, count) => {
            let _taken = take_out(rows, dest, count)?;
            Ok(())
        }
        Event::Limit(limits) => {
            rows.limits = limits;
            Ok(())
        }
        Event::Age => Ok(age(rows)?),
        Event::Probe(number) => Ok(rows.ask(number, ToServer::Echo)?),
        Event::Seek(number, cid, name) => {
            if rows.acts(Dest::Session(number)) {
                Ok(seek(rows, number, cid, &name)?)
            } else {
                Ok(())
            }
        }
    }
}

/// Somebody at a host looks for a name, which is remembered where it leads somewhere.
fn search_for(rows: &mut PlainRows, host: &Host, name: &Name) -> Result<(), AllocError>
    ensures { OnOk result (rows.new ≡ searched host.now name.now rows.old) }
{
    match lead_of(rows.alloc, rows.searches.policy(), host, name)? {
        Some(_) => rows.remember(host, name),
        None => Ok(()),
    }
}
