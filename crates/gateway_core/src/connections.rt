//! Connections that come and go.
ghost use Rattle.std.specs.Prelude.{◌≡◌, filter, OnOk, IfOk};
ghost use Rattle.named_rows.specs.Channels.{is_channel_of};
ghost use Rattle.channel_table.specs.ClientRows.{channel_count};
ghost use Rattle.channel_table.specs.Looks.{IsCounted};
ghost use Rattle.gateway_rows.specs.Looked.{Looked};
ghost use Rattle.gateway_state.specs.Sessions.{opened, lost, introduced, up_opened, up_lost};
ghost use Rattle.gateway_state.specs.Settled.{HasSessionsConnected};
ghost use Rattle.gateway_state.specs.Variables.{channel_names};
ghost use Rattle.link_table.specs.Links.{is_of};
ghost use Rattle.touched_rows.specs.Touches.{link_names, names_of, server_names};

use ca_message::{NameText, ToClient, ToServer};
use channel_table::{Session, Table, TableFault, User, Visits};
use gateway_rows::{CountedRows, Known};
use gateway_state::{Dest, RowLimit};
use link_table::{Links, Server, TableFault as LinkFault};
use pv_name::Host;
use std::alloc::{AllocError, Global};
use touched_rows::TouchedNames;

/// A client connected from an address.
#[tactic(auto, using(gateway_state::proofs::SessionsConnected::session_is_new))]
pub(crate) fn open_session(known: &mut Known, number: u32, host: Host) -> Result<(), AllocError>
    requires connected { HasSessionsConnected known.old.state }
    ensures ok { OnOk result (known.new.state ≡ opened known.old.state number host) }
    ensures brand { known.new.brand ≡ known.old.brand }
{
    if known.is_open(Dest::Session(number)) {
        return Ok(());
    }
    let session = Session {
        number,
        peer: host.copy()?,
        host,
        user: User::none(known.alloc),
        host_fixed: false,
        paused: false,
    };
    match known
        .clients
        .add_session_within(known.limits.sessions, session)
    {
        Ok(()) => {
            known.connections.add(known.alloc, Dest::Session(number))?;
            known.tell(number, &ToClient::Version)
        }
        Err(TableFault::Full) => {
            known.meet(RowLimit::Sessions);
            Ok(())
        }
        Err(_) => Err(AllocError),
    }
}

/// The variables of a session's channels, in the order of adding.
#[tactic(auto, using(crate::proofs::Named::named_next, crate::proofs::Named::named_past))]
fn names_of(
    alloc: Global,
    clients: &Table,
    visits: &mut Visits,
    number: u32,
) -> Result<TouchedNames, AllocError>
    requires own { visits.old.brand ≡ clients.now.brand }
    ensures names { IfOk result (λ names. names ≡ channel_names (filter (is_channel_of number) clients.now.rows.channels)) }
    ensures looked { IsCounted (channel_count number clients.now.rows) visits.old visits.new }
{
    let mut names = TouchedNames::new(alloc);
    for n in 0..clients.channel_count(number) {
        if let Some(channel) = clients.nth_channel_of(visits, number, n) {
            names.push(channel.real.copy()?)?;
        }
    }
    Ok(names)
}

/// A client's connection is gone. It answers the variables of its channels.
pub(crate) fn lose_session(rows: &mut CountedRows, number: u32) -> Result<TouchedNames, AllocError>
    ensures ok { OnOk result (rows.new.state ≡ lost rows.old.state number) }
    ensures names { IfOk result (λ names. names ≡ names_of rows.old.state number) }
    ensures looked { Looked (channel_count number rows.old.state.clients) rows.old rows.new }
{
    let known = &mut rows.known;
    let names = names_of(known.alloc, &known.clients, &mut rows.visits, number)?;
    known.connections.remove(Dest::Session(number));
    known.clients.remove_session(number);
    known.upstream.remove_writes_of(number);
    Ok(names)
}

/// A server is connected.
pub(crate) fn open_server(known: &mut Known, number: u32) -> Result<(), AllocError>
    ensures ok { OnOk result (known.new.state ≡ up_opened known.old.state number) }
    ensures brand { known.new.brand ≡ known.old.brand }
{
    if known.is_open(Dest::Upstream(number)) {
        return Ok(());
    }
    let server = Server { number, minor: 0 };
    match known
        .upstream
        .add_server_within(known.limits.servers, server)
    {
        Ok(()) => {
            known.connections.add(known.alloc, Dest::Upstream(number))?;
            introduce(known, number)
        }
        Err(LinkFault::Full) => {
            known.meet(RowLimit::Servers);
            Ok(())
        }
        Err(_) => Err(AllocError),
    }
}

/// Says the gateway's version and names to a server.
fn introduce(known: &mut Known, number: u32) -> Result<(), AllocError>
    ensures ok { OnOk result (known.new.state ≡ introduced number known.old.state) }
    ensures brand { known.new.brand ≡ known.old.brand }
{
    let client_name = known.config.client_name.copy()?;
    let host_name = known.config.host_name.copy()?;
    known.ask(number, &ToServer::Version)?;
    known.ask(number, &ToServer::ClientName(NameText::from(&client_name)))?;
    known.ask(number, &ToServer::HostName(NameText::from(&host_name)))
}

/// The variables of a server's links, in the order of links.
#[tactic(auto, using(crate::proofs::Named::linked_next, crate::proofs::Named::linked_past))]
fn server_names(alloc: Global, upstream: &Links, number: u32) -> Result<TouchedNames, AllocError>
    ensures { IfOk result (λ names. names ≡ link_names (filter (is_of number) upstream.now.links)) }
{
    let mut names = TouchedNames::new(alloc);
    for n in 0..upstream.link_count_of(number) {
        if let Some(link) = upstream.link_of(number, n) {
            names.push(link.name.copy()?)?;
        }
    }
    Ok(names)
}

/// A server's connection is gone. It answers the variables of its links.
pub(crate) fn lose_server(known: &mut Known, number: u32) -> Result<TouchedNames, AllocError>
    ensures ok { OnOk result (known.new.state ≡ up_lost known.old.state number) }
    ensures names { IfOk result (λ names. names ≡ server_names known.old.state number) }
    ensures brand { known.new.brand ≡ known.old.brand }
{
    let names = server_names(known.alloc, &known.upstream, number)?;
    known.connections.remove(Dest::Upstream(number));
    known.upstream.remove_server(number);
    known.cache.remove_by(number);
    Ok(names)
}
