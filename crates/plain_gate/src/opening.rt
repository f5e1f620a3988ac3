//! Connections that come and go.
ghost use Rattle.std.specs.Prelude.{◌≡◌, OnOk};
ghost use Rattle.ca_message.specs.declared.to_server.ToServer.TheVariants as requests;
ghost use Rattle.gateway_state.specs.Sessions.{introduced, lost, opened, up_lost, up_opened};
ghost use Rattle.gateway_state.specs.Telling.{asked};

use ca_message::{NameText, ToClient, ToServer};
use channel_table::{Session, User};
use fanout::Outbox;
use gateway_state::{Connection, Dest};
use link_table::Server;
use plain_rows::clients::{ChannelsOf, ReadsOf, SessionNumbered, SubsOf};
use plain_rows::connections::ConnectionTo;
use plain_rows::lists::remove;
use plain_rows::state::PlainRows;
use plain_rows::upstream::{LinksOf, MessagesBy, ServerNumbered, WritesOf, WritesTo};
use pv_name::{Host, Name};
use std::alloc::AllocError;

/// A client connected from an address.
pub(crate) fn open_session(rows: &mut PlainRows, number: u32, host: Host) -> Result<(), AllocError>
    ensures { OnOk result (rows.new ≡ opened rows.old number host) }
{
    if rows.is_open(Dest::Session(number)) || rows.sessions.len() >= rows.limits.sessions {
        return Ok(());
    }
    rows.connections.push(Connection {
        dest: Dest::Session(number),
        outbox: Outbox::new(rows.alloc),
    })?;
    rows.sessions.push(Session {
        number,
        peer: host.copy()?,
        host,
        user: User::none(rows.alloc),
        host_fixed: false,
        paused: false,
    })?;
    rows.tell(number, ToClient::Version)
}

/// A client's connection is gone.
pub(crate) fn lose_session(rows: &mut PlainRows, number: u32)
    ensures { rows.new ≡ lost rows.old number }
{
    let session = number;
    let dest = Dest::Session(number);
    remove(&mut rows.connections, ConnectionTo { dest });
    remove(&mut rows.sessions, SessionNumbered { number });
    remove(&mut rows.channels, ChannelsOf { session });
    remove(&mut rows.subs, SubsOf { session });
    remove(&mut rows.reads, ReadsOf { session });
    remove(&mut rows.writes, WritesOf { session });
}

/// A server is connected.
pub(crate) fn open_server(rows: &mut PlainRows, number: u32) -> Result<(), AllocError>
    ensures { OnOk result (rows.new ≡ up_opened rows.old number) }
{
    if rows.is_open(Dest::Upstream(number)) || rows.servers.len() >= rows.limits.servers {
        return Ok(());
    }
    rows.connections.push(Connection {
        dest: Dest::Upstream(number),
        outbox: Outbox::new(rows.alloc),
    })?;
    rows.servers.push(Server { number, minor: 0 })?;
    introduce(rows, number)
}

/// Says the gateway's version and names to a server.
fn introduce(rows: &mut PlainRows, number: u32) -> Result<(), AllocError>
    ensures { OnOk result (rows.new ≡ introduced number rows.old) }
{
    let client_name = rows.config.client_name.copy()?;
    let host_name = rows.config.host_name.copy()?;
    rows.ask(number, ToServer::Version)?;
    say_client_name(rows, number, &client_name)?;
    say_host_name(rows, number, &host_name)
}

fn say_client_name(rows: &mut PlainRows, number: u32, name: &Name) -> Result<(), AllocError>
    ensures { OnOk result (rows.new ≡ asked number (requests.ClientName name.now) rows.old) }
{
    rows.ask(number, ToServer::ClientName(NameText::from(name)))
}

fn say_host_name(rows: &mut PlainRows, number: u32, name: &Name) -> Result<(), AllocError>
    ensures { OnOk result (rows.new ≡ asked number (requests.HostName name.now) rows.old) }
{
    rows.ask(number, ToServer::HostName(NameText::from(name)))
}

/// A server's connection is gone.
pub(crate) fn lose_server(rows: &mut PlainRows, number: u32)
    ensures { rows.new ≡ up_lost rows.old number }
{
    let server = number;
    let dest = Dest::Upstream(number);
    remove(&mut rows.connections, ConnectionTo { dest });
    remove(&mut rows.servers, ServerNumbered { number });
    remove(&mut rows.links, LinksOf { server });
    remove(&mut rows.writes, WritesTo { server });
    remove(&mut rows.cache, MessagesBy { server });
}
