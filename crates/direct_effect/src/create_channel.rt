//! CREATE_CHAN.
ghost use Rattle.std.specs.Prelude.{◌≡◌, true, OnOk, IfOk, IsErrOf};
ghost use Rattle.gateway_rows.specs.Looked.{Looked};
ghost use Rattle.gateway_state.specs.Numbers.{is_past_numbers};
ghost use Rattle.gateway_state.specs.Clients.{next_sid, remembered_by, with_channel, created_with, created_over, created_as, creation_failed, not_connected, channel_asked, rights_on};
ghost use Rattle.gateway_state.specs.Settled.{HasSidsApart};
ghost use Rattle.gateway_state.specs.Variables.{connected};
ghost use Rattle.std.specs.List.{find};
ghost use Rattle.channel_table.specs.Sessions.{is_numbered};
ghost use Rattle.touched_rows.specs.Touches.{create_touches, create_touches_as, create_touches_over, left_touches, search_left_for};

use crate::host_name::fix_host;
use crate::left::left_touches;
use ca_message::{CreateChannel, ToClient};
use channel_table::{Channel, Reach};
use gateway_rows::{CountedRows, Known, RowsRefusal};
use gateway_state::{Native, RememberedSearch, RowLimit};
use link_table::LinkRow;
use pv_alias::Lead;
use pv_name::Name;
use std::alloc::AllocError;
use touched_rows::Touched;

/// A client is told that it gets no channel.
pub(crate) fn fail_creation(known: &mut Known, number: u32, cid: u32) -> Result<(), AllocError>
    ensures ok { OnOk result (known.new.state ≡ creation_failed number cid known.old.state) }
    ensures brand { known.new.brand ≡ known.old.brand }
{
    known.tell(number, &ToClient::CreateChannelFail { cid })
}

/// The session's host looks for the name. It gives the other search that goes for that.
pub(crate) fn remember(
    rows: &mut CountedRows,
    number: u32,
    name: &Name,
) -> Result<Option<RememberedSearch>, AllocError>
    ensures ok { OnOk result (rows.new.state ≡ remembered_by (find (is_numbered number) rows.old.state.clients.sessions) name.now rows.old.state) }
    ensures left { IfOk result (λ left. left ≡ search_left_for (find (is_numbered number) rows.old.state.clients.sessions) name.now rows.old.state) }
    ensures looked { Looked 1 rows.old rows.new }
{
    match rows.known.clients.session(&mut rows.visits, number) {
        Some(session) => {
            let host = session.host.copy()?;
            rows.known.remember(&host, name)
        }
        None => Ok(None),
    }
}

/// The name's variable isn't connected: the channel fails, and the session's host looks for the name.
fn leave_unconnected(
    rows: &mut CountedRows,
    number: u32,
    cid: u32,
    name: &Name,
) -> Result<Touched, AllocError>
    ensures ok { OnOk result (rows.new.state ≡ not_connected number cid name.now rows.old.state) }
    ensures touched { IfOk result (λ touched. touched ≡ left_touches rows.old.state.policy (search_left_for (find (is_numbered number) rows.old.state.clients.sessions) name.now rows.old.state)) }
    ensures looked { Looked 1 rows.old rows.new }
{
    let left = remember(rows, number, name)?;
    let touched = left_touches(&rows.known, left)?;
    fail_creation(&mut rows.known, number, cid)?;
    Ok(touched)
}

/// Adds a channel, which nothing was read on yet.
#[tactic(auto, using(gateway_state::proofs::NewNumbers::new_sid), unfolding(gateway_state::specs::Numbers::is_past_numbers))]
fn add_channel(
    known: &mut Known,
    number: u32,
    cid: u32,
    asked: Name,
    real: Name,
    rights: u32,
) -> Result<u32, RowsRefusal>
    requires order { HasSidsApart known.old.state }
    ensures ok { OnOk result (known.new.state ≡ with_channel number cid asked real rights known.old.state) }
    ensures sid { IfOk result (λ sid. sid ≡ next_sid known.old.state number) }
    ensures used_up { IsErrOf result RowsRefusal.NumbersUsedUp → is_past_numbers (with_channel number cid asked real rights known.old.state) ≡ true }
    ensures brand { known.new.brand ≡ known.old.brand }
{
    let Some(sid) = known.new_sid(number) else {
        return Err(RowsRefusal::NumbersUsedUp);
    };
    let channel = Channel {
        session: number,
        sid,
        cid,
        asked,
        real,
        reach: Reach {
            count: 0,
            props: false,
        },
        rights_told: rights,
    };
    match known
        .clients
        .add_channel_within(known.limits.channels, channel)
    {
        Ok(()) => Ok(sid),
        Err(_) => Err(RowsRefusal::OutOfMemory),
    }
}

/// Adds a channel, and tells the client its rights, then its number.
#[tactic(auto, unfolding(gateway_state::specs::Telling::sent, gateway_state::specs::Numbers::is_past_numbers))]
fn create_on(
    known: &mut Known,
    number: u32,
    cid: u32,
    asked: Name,
    real: Name,
    rights: u32,
    native: Native,
) -> Result<(), RowsRefusal>
    requires order { HasSidsApart known.old.state }
    ensures ok { OnOk result (known.new.state ≡ created_with number cid asked real rights native known.old.state) }
    ensures used_up { IsErrOf result RowsRefusal.NumbersUsedUp → is_past_numbers (created_with number cid asked real rights native known.old.state) ≡ true }
    ensures brand { known.new.brand ≡ known.old.brand }
{
    let sid = add_channel(known, number, cid, asked, real, rights)?;
    known.tell(number, &ToClient::AccessRights { cid, rights })?;
    known.tell(
        number,
        &ToClient::CreateChannel {
            cid,
            sid,
            dtype: native.dtype,
            count: native.count,
        },
    )?;
    Ok(())
}

/// The rights on a link that the policy leaves to who was led to it.
fn rights_on(known: &Known, lead: &Lead, link: &LinkRow) -> u32
    ensures { result ≡ rights_on known.now.state lead.now link.now }
{
    link.rights & known.searches.policy().rights(lead)
}

/// The client's channel, whose name leads somewhere, where one more may be open.
#[tactic(auto, unfolding(gateway_state::specs::Telling::sent, gateway_state::specs::Numbers::is_past_numbers))]
fn create_as(
    rows: &mut CountedRows,
    number: u32,
    cid: u32,
    name: &Name,
    lead: Lead,
) -> Result<Touched, RowsRefusal>
    requires order { HasSidsApart rows.old.state }
    ensures ok { OnOk result (rows.new.state ≡ created_over number cid name.now lead (connected rows.old.state lead.real) rows.old.state) }
    ensures touched { IfOk result (λ touched. touched ≡ create_touches_over rows.old.state (find (is_numbered number) rows.old.state.clients.sessions) name.now (connected rows.old.state lead.real)) }
    ensures used_up { IsErrOf result RowsRefusal.NumbersUsedUp → is_past_numbers (created_over number cid name.now lead (connected rows.old.state lead.real) rows.old.state) ≡ true }
    ensures looked { Looked 1 rows.old rows.new }
{
    let Some(variable) = rows.known.connected(&lead.real) else {
        return Ok(leave_unconnected(rows, number, cid, name)?);
    };
    let native = variable.native;
    let rights = rights_on(&rows.known, &lead, variable.link);
    let asked = name.copy()?;
    create_on(
        &mut rows.known,
        number,
        cid,
        asked,
        lead.real,
        rights,
        native,
    )?;
    let left = rows.end_search(number, name);
    Ok(left_touches(&rows.known, left)?)
}

/// A client wants a channel on a name.
pub(crate) fn create_channel(
    rows: &mut CountedRows,
    number: u32,
    create: &CreateChannel<'_>,
) -> Result<Touched, RowsRefusal>
    requires order { HasSidsApart rows.old.state }
    ensures ok { OnOk result (rows.new.state ≡ channel_asked number create.now.cid create.now.name rows.old.state) }
    ensures touched { IfOk result (λ touched. touched ≡ create_touches rows.old.state number create.now.name) }
    ensures used_up { IsErrOf result RowsRefusal.NumbersUsedUp → is_past_numbers (channel_asked number create.now.cid create.now.name rows.old.state) ≡ true }
    ensures looked { Looked 4 rows.old rows.new }
{
    let name = create.name.to_name(rows.known.alloc)?;
    create_named(rows, number, create.cid, &name)
}

/// The same, by a copy of the name: the message's bytes aren't kept.
#[tactic(auto, using(crate::proofs::FixedHost::touches_as_fixed))]
fn create_named(
    rows: &mut CountedRows,
    number: u32,
    cid: u32,
    name: &Name,
) -> Result<Touched, RowsRefusal>
    requires order { HasSidsApart rows.old.state }
    ensures ok { OnOk result (rows.new.state ≡ channel_asked number cid name.now rows.old.state) }
    ensures touched { IfOk result (λ touched. touched ≡ create_touches rows.old.state number name.now) }
    ensures used_up { IsErrOf result RowsRefusal.NumbersUsedUp → is_past_numbers (channel_asked number cid name.now rows.old.state) ≡ true }
    ensures looked { Looked 4 rows.old rows.new }
{
    let lead = rows.learn_lead_in(number, name)?;
    fix_host(rows, number)?;
    create_led(rows, number, cid, name, lead)
}

/// The client's channel, whose name leads so.
fn create_led(
    rows: &mut CountedRows,
    number: u32,
    cid: u32,
    name: &Name,
    lead: Option<Lead>,
) -> Result<Touched, RowsRefusal>
    requires order { HasSidsApart rows.old.state }
    ensures ok { OnOk result (rows.new.state ≡ created_as number cid name.now lead rows.old.state) }
    ensures touched { IfOk result (λ touched. touched ≡ create_touches_as rows.old.state number name.now lead) }
    ensures used_up { IsErrOf result RowsRefusal.NumbersUsedUp → is_past_numbers (created_as number cid name.now lead rows.old.state) ≡ true }
    ensures looked { Looked 1 rows.old rows.new }
{
    let Some(lead) = lead else {
        fail_creation(&mut rows.known, number, cid)?;
        return Ok(Touched::Nothing);
    };
    if rows.known.clients.channel_count(number) >= rows.known.limits.channels {
        rows.known.meet(RowLimit::Channels);
        fail_creation(&mut rows.known, number, cid)?;
        return Ok(Touched::Nothing);
    }
    create_as(rows, number, cid, name, lead)
}
