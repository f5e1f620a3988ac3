//! Messages to clients and to servers.
ghost use Rattle.std.specs.Prelude.{◌≡◌, OnOk, IfOk};
ghost use Rattle.ca_message.specs.declared.to_client.ToClient.TheVariants as replies;
ghost use Rattle.gateway_state.specs.Subscribing.{unreadable_told};
ghost use Rattle.gateway_state.specs.Telling.{outgoing, outgoing_upstream, sent, told, asked};

use crate::state::Known;
use ca_header::{Header, write_head};
use ca_message::codes::{ECA_NORDACCESS, ECA_NORMAL};
use ca_message::commands::CA_PROTO_EVENT_ADD;
use ca_message::{ToClient, ToServer};
use channel_table::ClientSub;
use fanout::Out;
use gateway_state::{Dest, UpdateNotice};
use std::alloc::{AllocError, Global};

impl Known {
    #[tactic(auto, unfolding(gateway_state::specs::Telling::sent))]
    fn send(&mut self, dest: Dest, out: Out) -> Result<(), AllocError>
        ensures ok { OnOk result (self.new.state ≡ sent dest out self.old.state) }
        ensures brand { self.new.brand ≡ self.old.brand }
    {
        let most = self.limits.most_for(dest);
        self.connections.give(most, dest, out)
    }

    /// Tells a client something.
    pub fn tell(&mut self, number: u32, said: &ToClient) -> Result<(), AllocError>
        ensures ok { OnOk result (self.new.state ≡ told number said.now self.old.state) }
        ensures brand { self.new.brand ≡ self.old.brand }
    {
        let out = outgoing(self.alloc, said)?;
        self.send(Dest::Session(number), out)
    }

    /// Tells a client an update, whose payload is handed on as it is.
    pub fn tell_update(&mut self, notice: UpdateNotice) -> Result<(), AllocError>
        ensures ok { OnOk result (self.new.state ≡ told notice.session (replies.Update notice.id notice.dtype notice.count notice.payload) self.old.state) }
        ensures brand { self.new.brand ≡ self.old.brand }
    {
        let dest = Dest::Session(notice.session);
        self.send(dest, outgoing_update(notice))
    }

    /// Tells a subscription that its channel may not be read.
    pub fn tell_unreadable(&mut self, sub: &ClientSub) -> Result<(), AllocError>
        ensures ok { OnOk result (self.new.state ≡ unreadable_told self.old.state sub.now) }
        ensures brand { self.new.brand ≡ self.old.brand }
    {
        self.tell(
            sub.session,
            &ToClient::UpdateRefused {
                id: sub.id,
                dtype: sub.dtype,
                code: ECA_NORDACCESS,
            },
        )
    }

    /// Asks a server for something.
    pub fn ask(&mut self, number: u32, said: &ToServer<'_>) -> Result<(), AllocError>
        ensures ok { OnOk result (self.new.state ≡ asked number said.now self.old.state) }
        ensures brand { self.new.brand ≡ self.old.brand }
    {
        let out = outgoing_upstream(self.alloc, said)?;
        self.send(Dest::Upstream(number), out)
    }
}

/// A message to a client as it goes out.
#[tactic(auto, unfolding(gateway_state::specs::Telling::outgoing))]
fn outgoing(alloc: Global, said: &ToClient) -> Result<Out, AllocError>
    ensures { IfOk result (λ out. out ≡ outgoing said.now) }
{
    let payload = said.payload(alloc)?;
    let head = write_head(&said.head());
    Ok(Out { head, payload })
}

/// An update as it goes out.
#[tactic(auto, unfolding(gateway_state::specs::Telling::outgoing))]
fn outgoing_update(notice: UpdateNotice) -> Out
    ensures { result ≡ outgoing (replies.Update notice.id notice.dtype notice.count notice.payload) }
{
    let head = write_head(&Header {
        command: CA_PROTO_EVENT_ADD,
        size: u32::try_from(notice.payload.len()).unwrap_or(u32::MAX),
        dtype: notice.dtype,
        count: notice.count,
        p1: ECA_NORMAL,
        p2: notice.id,
    });
    Out {
        head,
        payload: notice.payload,
    }
}

/// A message to a server as it goes out.
#[tactic(auto, unfolding(gateway_state::specs::Telling::outgoing_upstream))]
fn outgoing_upstream(alloc: Global, said: &ToServer<'_>) -> Result<Out, AllocError>
    ensures { IfOk result (λ out. out ≡ outgoing_upstream said.now) }
{
    let payload = said.payload(alloc)?;
    let head = write_head(&said.head());
    Ok(Out { head, payload })
}
