//! One event.
ghost use Rattle.std.specs.Prelude.{◌≡◌, true, false, OnOk, IfOk, IsErrOf};
ghost use Rattle.gateway_core.specs.Looks.{direct_looks, event_looks};
ghost use Rattle.gateway_core.specs.ReadyForEvent.{IsReadyForEvent};
ghost use Rattle.gateway_rows.specs.Looked.{LookedOn};
ghost use Rattle.gateway_rows.specs.Own.{IsWithin};
ghost use Rattle.gateway_state.specs.Numbers.{is_past_numbers};
ghost use Rattle.gateway_state.specs.Direct.{direct_effect, searched};
ghost use Rattle.gateway_state.specs.Reached.{IsReached};
ghost use Rattle.gateway_state.specs.Step.{step, taken};
ghost use Rattle.gateway_state.specs.Variables.{search_names};
ghost use Rattle.touched_rows.specs.Touches.{drain_touches, event_touches, searched_touches, with_touched};

use crate::age::age;
use crate::connections::{lose_server, lose_session, open_server, open_session};
use crate::orders::{limit, probe};
use consequences::tell_consequences;
use direct_effect::{find_at, hear_client, hear_server, left_touches, seek};
use fanout::Out;
use gateway_rows::{CountedRows, Known, RowsRefusal};
use gateway_state::{Dest, Event};
use pv_name::{Host, Name};
use std::alloc::AllocError;
use touched_rows::{Touched, TouchedNames};

/// Performs one event, in a state that a run reaches.
#[tactic(auto, using(gateway_state::proofs::NumberLemmas::consequences_past, touched_rows::proofs::ToldAlone::step_alone, crate::proofs::Looked::looked_in_all, crate::proofs::BeforeReads::looked_without), unfolding(gateway_state::specs::Step::step))]
pub(crate) fn step(rows: &mut CountedRows, event: Event) -> Result<(), RowsRefusal>
    requires reached { IsReached rows.old.state }
    ensures ok { OnOk result (rows.new.state ≡ step rows.old.state event) }
    ensures used_up { IsErrOf result RowsRefusal.NumbersUsedUp → is_past_numbers (step rows.old.state event) ≡ true }
    ensures in_range { OnOk result (is_past_numbers rows.new.state ≡ false) }
    ensures bound { OnOk result (IsWithin (event_looks rows.old.state event) rows.old.count.looks rows.new.count.looks) }
    ensures looked { LookedOn rows.old rows.new }
{
    let touched = perform(rows, event)?;
    tell_consequences(rows, touched)?;
    rows.known.numbers_are_in_range();
    Ok(())
}

/// Takes the oldest messages of an outbox, in order. This is an event too.
#[tactic(auto, using(gateway_state::proofs::NumberLemmas::consequences_past, touched_rows::proofs::ToldAlone::step_alone), unfolding(gateway_state::specs::Step::step))]
pub(crate) fn drain(
    rows: &mut CountedRows,
    dest: Dest,
    count: usize,
) -> Result<Vec<Out>, RowsRefusal>
    requires reached { IsReached rows.old.state }
    ensures ok { OnOk result (rows.new.state ≡ step rows.old.state (Event.Drain dest count)) }
    ensures found { IfOk result (λ outs. outs.items ≡ taken rows.old.state (Event.Drain dest count) dest) }
    ensures used_up { IsErrOf result RowsRefusal.NumbersUsedUp → is_past_numbers (step rows.old.state (Event.Drain dest count)) ≡ true }
    ensures in_range { OnOk result (is_past_numbers rows.new.state ≡ false) }
    ensures looked { LookedOn rows.old rows.new }
{
    let touched = drain_touches(&rows.known, dest);
    let outs = rows.known.take(dest, count)?;
    tell_consequences(rows, touched)?;
    rows.known.numbers_are_in_range();
    Ok(outs)
}

/// A client whose outbox took no updates may take them again once it was drained.
fn drain_touches(known: &Known, dest: Dest) -> Touched
    ensures { result ≡ drain_touches known.now.state dest }
{
    match dest {
        Dest::Session(number) if !known.takes_updates(number) => Touched::Session(number),
        Dest::Session(_) | Dest::Upstream(_) => Touched::Nothing,
    }
}

/// What the event does by itself. A read that was touched isn't kept yet, nor an update owed to those whom it
/// concerns.
#[tactic(auto, using(gateway_rows::proofs::OwnStays::within_none, touched_rows::proofs::KeptLate::drain_keeps_none, touched_rows::proofs::KeptLate::search_keeps_none, touched_rows::proofs::KeptLate::seek_keeps_none))]
fn perform(rows: &mut CountedRows, event: Event) -> Result<Touched, RowsRefusal>
    requires ready { IsReadyForEvent rows.old.state }
    ensures ok { IfOk result (λ touched. with_touched touched rows.new.state ≡ direct_effect rows.old.state event) }
    ensures touched { IfOk result (λ touched. touched ≡ event_touches rows.old.state event) }
    ensures used_up { IsErrOf result RowsRefusal.NumbersUsedUp → is_past_numbers (direct_effect rows.old.state event) ≡ true }
    ensures bound { OnOk result (IsWithin (direct_looks rows.old.state event) rows.old.count.looks rows.new.count.looks) }
    ensures looked { LookedOn rows.old rows.new }
{
    Ok(match event {
        Event::Opened(number, host) => {
            open_session(&mut rows.known, number, host)?;
            Touched::Nothing
        }
        Event::Lost(number) => Touched::Links(lose_session(rows, number)?),
        Event::Client(number, message) => {
            if !rows.known.acts(Dest::Session(number)) {
                return Ok(Touched::Nothing);
            }
            hear_client(rows, number, message)?
        }
        Event::UpOpened(number) => {
            open_server(&mut rows.known, number)?;
            Touched::Nothing
        }
        Event::UpLost(number) => Touched::Gone(lose_server(&mut rows.known, number)?),
        Event::Server(number, message) => {
            if !rows.known.acts(Dest::Upstream(number)) {
                return Ok(Touched::Nothing);
            }
            hear_server(rows, number, message)?
        }
        Event::Found(name, number) => {
            find_at(&mut rows.known, name, number)?;
            Touched::Nothing
        }
        Event::Search(host, name) => search_for(&mut rows.known, &host, &name)?,
        Event::Edit(policy) => {
            rows.known.set_policy(policy)?;
            Touched::All
        }
        Event::Sweep => {
            let names = searched_names(&rows.known)?;
            rows.known.sweep();
            Touched::Links(names)
        }
        Event::Drain(dest, count) => {
            let touched = drain_touches(&rows.known, dest);
            let _taken = rows.known.take(dest, count)?;
            touched
        }
        Event::Limit(limits) => limit(&mut rows.known, limits),
        Event::Age => Touched::Links(age(rows)?),
        Event::Probe(number) => probe(&mut rows.known, number)?,
        Event::Seek(number, cid, name) => {
            if !rows.known.acts(Dest::Session(number)) {
                return Ok(Touched::Nothing);
            }
            seek(rows, number, cid, &name)?
        }
    })
}

/// The variables that searches lead to.
fn searched_names(known: &Known) -> Result<TouchedNames, AllocError>
    ensures { IfOk result (λ names. names ≡ search_names known.now.state.policy known.now.state.searches) }
{
    let names = known.searches.names(known.alloc)?;
    TouchedNames::copied(known.alloc, &names)
}

/// Somebody at a host looks for a name, which is remembered where it leads somewhere. Another search may go
/// for it.
fn search_for(known: &mut Known, host: &Host, name: &Name) -> Result<Touched, AllocError>
    ensures ok { OnOk result (known.new.state ≡ searched host.now name.now known.old.state) }
    ensures touched { IfOk result (λ touched. touched ≡ searched_touches known.old.state host.now name.now) }
    ensures brand { known.new.brand ≡ known.old.brand }
{
    match known.learn_lead(host, name)? {
        Some(_) => {
            let left = known.remember(host, name)?;
            left_touches(known, left)
        }
        None => Ok(Touched::Nothing),
    }
}
