//! SEARCH on a client's connection.
ghost use Rattle.std.specs.Prelude.{◌≡◌, Some, OnOk};
ghost use Rattle.std.specs.List.{find};
ghost use Rattle.channel_table.specs.Sessions.{is_numbered};
ghost use Rattle.gateway_state.specs.Clients.{remembered_by, sought, sought_as};
ghost use Rattle.gateway_state.specs.Requests.{search_in};

use ca_header::Message;
use ca_message::ToClient;
use plain_rows::clients::SessionNumbered;
use plain_rows::lists::find;
use plain_rows::state::PlainRows;
use pv_alias::Lead;
use pv_name::Name;
use pv_search::{SearchRequest, read_search};
use std::alloc::AllocError;

/// The search that a client's message is, where searches are answered on connections.
pub(crate) fn search_in<'a>(rows: &PlainRows, message: &'a Message) -> Option<SearchRequest<'a>>
    ensures { result ≡ search_in rows.now message.now }
{
    if !rows.limits.answers_searches {
        return None;
    }
    read_search(&message.head, message.payload.as_slice())
}

/// The session's host looks for the name.
pub(crate) fn remember(rows: &mut PlainRows, number: u32, name: &Name) -> Result<(), AllocError>
    ensures { OnOk result (rows.new ≡ remembered_by (find (is_numbered number) rows.old.clients.sessions) name.now rows.old) }
{
    if let Some(session) = find(&rows.sessions, SessionNumbered { number }) {
        let host = session.host.copy()?;
        rows.remember(&host, name)?;
    }
    Ok(())
}

/// The name leads so: that its host looks for it is remembered, and the client is answered where the variable is
/// connected.
fn seek_led(
    rows: &mut PlainRows,
    number: u32,
    cid: u32,
    name: &Name,
    lead: &Lead,
) -> Result<(), AllocError>
    ensures { OnOk result (rows.new ≡ sought_as number cid name.now (Some lead.now) rows.old) }
{
    let is_served = rows.connected(&lead.real).is_some();
    remember(rows, number, name)?;
    if !is_served {
        return Ok(());
    }
    let port = rows.config.port;
    rows.tell(number, ToClient::Search { cid, port })
}

/// A client seeks a name on its connection, or that is done for it again.
pub(crate) fn seek(
    rows: &mut PlainRows,
    number: u32,
    cid: u32,
    name: &Name,
) -> Result<(), AllocError>
    ensures { OnOk result (rows.new ≡ sought number cid name.now rows.old) }
{
    match rows.lead_in(number, name)? {
        Some(lead) => seek_led(rows, number, cid, name, &lead),
        None => Ok(()),
    }
}

/// The same, by a message of the client.
pub(crate) fn hear_search(
    rows: &mut PlainRows,
    number: u32,
    search: &SearchRequest<'_>,
) -> Result<(), AllocError>
    ensures { OnOk result (rows.new ≡ sought number search.now.cid search.now.name rows.old) }
{
    let name = search.name.to_name(rows.alloc)?;
    seek(rows, number, search.cid, &name)
}
