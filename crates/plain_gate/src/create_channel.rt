//! CREATE_CHAN.
ghost use Rattle.std.specs.Prelude.{◌≡◌, true, IsErrOf, OnOk};
ghost use Rattle.gateway_state.specs.Clients.{channel_asked, created_over, created_with, creation_failed, without_search_for};
ghost use Rattle.gateway_state.specs.Numbers.{is_past_numbers};
ghost use Rattle.gateway_state.specs.Variables.{connected};

use crate::search::remember;
use ca_message::{CreateChannel, ToClient};
use channel_table::{Channel, Reach};
use gateway_state::Native;
use link_table::Counter;
use plain_rows::clients::{ChannelsOf, SessionNumbered, fix_host};
use plain_rows::lists::{count, find};
use plain_rows::numbers::PlainRefusal;
use plain_rows::state::PlainRows;
use pv_alias::Lead;
use pv_name::Name;
use std::alloc::AllocError;

pub(crate) fn fail_creation(rows: &mut PlainRows, number: u32, cid: u32) -> Result<(), AllocError>
    ensures { OnOk result (rows.new ≡ creation_failed number cid rows.old) }
{
    rows.tell(number, ToClient::CreateChannelFail { cid })
}

/// Makes a channel, which nothing was read on yet, under the next ID, and tells the client of it.
#[tactic(auto, unfolding(gateway_state::specs::Telling::sent, gateway_state::specs::Numbers::is_past_numbers))]
fn create_on(
    rows: &mut PlainRows,
    number: u32,
    cid: u32,
    asked: &Name,
    real: &Name,
    rights: u32,
    native: Native,
) -> Result<(), PlainRefusal>
    ensures ok { OnOk result (rows.new ≡ created_with number cid asked.now real.now rights native rows.old) }
    ensures used_up { IsErrOf result PlainRefusal.NumbersUsedUp → is_past_numbers (created_with number cid asked.now real.now rights native rows.old) ≡ true }
{
    let Some(sid) = rows.give_out(Counter::Sid, number) else {
        return Err(PlainRefusal::NumbersUsedUp);
    };
    let asked = asked.copy()?;
    let channel = Channel {
        session: number,
        sid,
        cid,
        asked,
        real: real.copy()?,
        reach: Reach {
            count: 0,
            props: false,
        },
        rights_told: rights,
    };
    if rows.channels.push(channel).is_err() {
        return Err(PlainRefusal::OutOfMemory);
    }
    let Native { dtype, count } = native;
    rows.tell(number, ToClient::AccessRights { cid, rights })?;
    let said = ToClient::CreateChannel {
        cid,
        sid,
        dtype,
        count,
    };
    Ok(rows.tell(number, said)?)
}

/// The search for a name goes that the address of a session's connection made, where room is made.
fn end_search(rows: &mut PlainRows, number: u32, name: &Name)
    ensures { rows.new ≡ without_search_for number name.now rows.old }
{
    if !rows.limits.makes_room {
        return;
    }
    if let Some(session) = find(&rows.sessions, SessionNumbered { number }) {
        rows.searches.end(&session.peer, name);
    }
}

/// The channel is made where the variable that its name leads to is connected; else the session's host
/// looks for the name.
#[tactic(auto, unfolding(gateway_state::specs::Numbers::is_past_numbers))]
fn create_as(
    rows: &mut PlainRows,
    number: u32,
    cid: u32,
    asked: &Name,
    lead: &Lead,
) -> Result<(), PlainRefusal>
    ensures ok { OnOk result (rows.new ≡ created_over number cid asked.now lead.now (connected rows.old lead.now.real) rows.old) }
    ensures used_up { IsErrOf result PlainRefusal.NumbersUsedUp → is_past_numbers (created_over number cid asked.now lead.now (connected rows.old lead.now.real) rows.old) ≡ true }
{
    if let Some(variable) = rows.connected(&lead.real) {
        let native = variable.native;
        let rights = variable.link.rights & rows.searches.policy().rights(lead);
        create_on(rows, number, cid, asked, &lead.real, rights, native)?;
        end_search(rows, number, asked);
        return Ok(());
    }
    remember(rows, number, asked)?;
    Ok(fail_creation(rows, number, cid)?)
}

/// A client wants a channel on a name.
pub(crate) fn create_channel(
    rows: &mut PlainRows,
    number: u32,
    create: &CreateChannel<'_>,
) -> Result<(), PlainRefusal>
    ensures ok { OnOk result (rows.new ≡ channel_asked number create.now.cid create.now.name rows.old) }
    ensures used_up { IsErrOf result PlainRefusal.NumbersUsedUp → is_past_numbers (channel_asked number create.now.cid create.now.name rows.old) ≡ true }
{
    let name = create.name.to_name(rows.alloc)?;
    create_named(rows, number, create.cid, &name)
}

fn create_named(
    rows: &mut PlainRows,
    number: u32,
    cid: u32,
    name: &Name,
) -> Result<(), PlainRefusal>
    ensures ok { OnOk result (rows.new ≡ channel_asked number cid name.now rows.old) }
    ensures used_up { IsErrOf result PlainRefusal.NumbersUsedUp → is_past_numbers (channel_asked number cid name.now rows.old) ≡ true }
{
    let lead = rows.lead_in(number, name)?;
    fix_host(&mut rows.sessions, number);
    let Some(lead) = lead else {
        return Ok(fail_creation(rows, number, cid)?);
    };
    if count(&rows.channels, ChannelsOf { session: number }) >= rows.limits.channels {
        return Ok(fail_creation(rows, number, cid)?);
    }
    create_as(rows, number, cid, name, &lead)
}
