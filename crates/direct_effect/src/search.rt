//! SEARCH on a client's connection.
ghost use Rattle.std.specs.Prelude.{◌≡◌, OnOk, IfOk};
ghost use Rattle.gateway_rows.specs.Looked.{Looked};
ghost use Rattle.gateway_state.specs.Clients.{sought, sought_as, told_served};
ghost use Rattle.gateway_state.specs.Requests.{search_in};
ghost use Rattle.touched_rows.specs.Touches.{seek_touches, seek_touches_as};

use crate::create_channel::remember;
use crate::left::left_touches;
use ca_header::Message;
use ca_message::ToClient;
use gateway_rows::{CountedRows, Known};
use pv_alias::Lead;
use pv_name::Name;
use pv_search::{SearchRequest, read_search};
use std::alloc::AllocError;
use touched_rows::Touched;

/// The search that a client's message is, where searches are answered on connections.
pub(crate) fn search_in<'a>(known: &Known, message: &'a Message) -> Option<SearchRequest<'a>>
    ensures { result ≡ search_in known.now.state message.now }
{
    if !known.limits.answers_searches {
        return None;
    }
    read_search(&message.head, message.payload.as_slice())
}

/// A client is told that the name which it seeks is served here.
fn tell_served(known: &mut Known, number: u32, cid: u32) -> Result<(), AllocError>
    ensures ok { OnOk result (known.new.state ≡ told_served number cid known.old.state) }
    ensures brand { known.new.brand ≡ known.old.brand }
{
    let port = known.config.port;
    known.tell(number, &ToClient::Search { cid, port })
}

/// The name leads so: that its host looks for it is remembered, and the client is answered where the variable is
/// connected.
fn seek_led(
    rows: &mut CountedRows,
    number: u32,
    cid: u32,
    name: &Name,
    lead: Option<Lead>,
) -> Result<Touched, AllocError>
    ensures ok { OnOk result (rows.new.state ≡ sought_as number cid name.now lead rows.old.state) }
    ensures touched { IfOk result (λ touched. touched ≡ seek_touches_as rows.old.state number name.now lead) }
    ensures looked { Looked 1 rows.old rows.new }
{
    let Some(lead) = lead else {
        return Ok(Touched::Nothing);
    };
    let is_served = rows.known.connected(&lead.real).is_some();
    let left = remember(rows, number, name)?;
    let touched = left_touches(&rows.known, left)?;
    if is_served {
        tell_served(&mut rows.known, number, cid)?;
    }
    Ok(touched)
}

/// A client seeks a name on its connection, or that is done for it again.
pub fn seek(
    rows: &mut CountedRows,
    number: u32,
    cid: u32,
    name: &Name,
) -> Result<Touched, AllocError>
    ensures ok { OnOk result (rows.new.state ≡ sought number cid name.now rows.old.state) }
    ensures touched { IfOk result (λ touched. touched ≡ seek_touches rows.old.state number name.now) }
    ensures looked { Looked 4 rows.old rows.new }
{
    let lead = rows.learn_lead_in(number, name)?;
    seek_led(rows, number, cid, name, lead)
}

/// Whether the search of a name that leads so has no answer yet.
fn awaits(known: &Known, lead: &Option<Lead>) -> bool {
    match lead {
        Some(lead) => known.connected(&lead.real).is_none(),
        None => false,
    }
}

/// The same, by a message of the client. Whoever makes searches again is told where there is no answer yet.
pub(crate) fn hear_search(
    rows: &mut CountedRows,
    number: u32,
    search: &SearchRequest<'_>,
) -> Result<Touched, AllocError>
    ensures ok { OnOk result (rows.new.state ≡ sought number search.now.cid search.now.name rows.old.state) }
    ensures touched { IfOk result (λ touched. touched ≡ seek_touches rows.old.state number search.now.name) }
    ensures looked { Looked 4 rows.old rows.new }
{
    let name = search.name.to_name(rows.known.alloc)?;
    let lead = rows.learn_lead_in(number, &name)?;
    if awaits(&rows.known, &lead) {
        rows.known.note_unanswered(number, search.cid, &name);
    }
    seek_led(rows, number, search.cid, &name, lead)
}
