//! What the readers of a variable want together, from the list of all readers.
ghost use Rattle.std.specs.Prelude.{◌≡◌, ◌++◌, filter, map, Some, IfOk, OnOk};
ghost use Rattle.named_rows.specs.Demand.{own_ask};
ghost use Rattle.gateway_state.specs.Interest.{ask_props, is_reader, is_subscriber, minor_of, reader_ask, readers, subscription_to, wanted_by, wanted_for};
ghost use Rattle.mask_merge.specs.Counts.{as_native, asks_props, want_asked};
ghost use Rattle.mask_merge.specs.Merged.{events, greatest, merged};

use crate::lists::find;
use crate::state::PlainRows;
use crate::upstream::ServerNumbered;
use channel_table::{Channel, ClientSub, own_ask, reach_ask};
use dbr_layout::is_state_by;
use gateway_state::Sub;
use gateway_values::{may_read, meant_count, property_want};
use link_table::{LinkState, Subject};
use mask_merge::{ALWAYS_ASKED, Ask, KNOWN_EVENTS, Want};
use pv_name::Name;
use std::alloc::{AllocError, Global};

impl PlainRows {
    /// Whether a channel is read itself.
    fn is_reader(&self, name: &Name, channel: &Channel) -> Result<bool, AllocError>
        ensures { IfOk result (λ answer. answer ≡ is_reader self.now name.now channel.now) }
    {
        let reads = channel.reach.count > 0;
        Ok(channel.real == *name && reads && may_read(self.rights_of(channel)?))
    }

    fn is_subscriber(&self, name: &Name, sub: &ClientSub) -> Result<bool, AllocError>
        ensures { IfOk result (λ answer. answer ≡ is_subscriber self.now name.now sub.now) }
    {
        match self.channel_of(sub.session, sub.sid) {
            Some(channel) => Ok(channel.real == *name && may_read(self.rights_of(channel)?)),
            None => Ok(false),
        }
    }

    fn add_subscribers(&self, asks: &mut Vec<Ask>, name: &Name) -> Result<(), AllocError>
        ensures { OnOk result (asks.new.items ≡ asks.old.items ++ map own_ask (filter (is_subscriber self.now name.now) self.now.clients.subs)) }
    {
        for sub in &self.subs {
            if self.is_subscriber(name, sub)? {
                asks.push(own_ask(sub))?;
            }
        }
        Ok(())
    }

    fn add_readers(&self, asks: &mut Vec<Ask>, name: &Name) -> Result<(), AllocError>
        ensures { OnOk result (asks.new.items ≡ asks.old.items ++ map reader_ask (filter (is_reader self.now name.now) self.now.clients.channels)) }
    {
        for channel in &self.channels {
            if self.is_reader(name, channel)? {
                asks.push(reach_ask(channel.reach))?;
            }
        }
        Ok(())
    }

    /// What each reader of a variable asks for.
    fn readers(&self, name: &Name) -> Result<Vec<Ask>, AllocError>
        ensures { IfOk result (λ asks. asks.items ≡ readers self.now name.now) }
    {
        let mut asks = Vec::new(self.alloc);
        self.add_subscribers(&mut asks, name)?;
        self.add_readers(&mut asks, name)?;
        Ok(asks)
    }

    /// What the readers of a variable of this native type and count want of a subject, nothing where
    /// there is none.
    pub fn wanted_for(
        &self,
        subject: Subject,
        name: &Name,
        dtype: u16,
        native: u32,
    ) -> Result<Option<Want>, AllocError>
        ensures { IfOk result (λ want. want ≡ wanted_for subject self.now name.now dtype native) }
    {
        let asks = self.readers(name)?;
        wanted_by(self.alloc, subject, dtype, native, &asks)
    }

    /// The present subscription of a variable for a subject.
    pub fn subscription_to(&self, subject: Subject, name: &Name) -> Option<Sub>
        ensures { result ≡ subscription_to subject self.now name.now }
    {
        let link = self.link_of(name)?;
        let LinkState::Connected { .. } = link.state else {
            return None;
        };
        let subscription = link.subscriptions.at(subject)?;
        Some(Sub {
            id: subscription.id,
            mask: subscription.mask,
            count: subscription.count,
        })
    }

    /// The minor version that a server said.
    pub fn minor_of(&self, server: u32) -> u32
        ensures { result ≡ minor_of self.now server }
    {
        match find(&self.servers, ServerNumbered { number: server }) {
            Some(row) => row.minor,
            None => 0,
        }
    }
}

/// What those who ask this of a variable of a native type and count want a server to tell of a subject.
fn wanted_by(
    alloc: Global,
    subject: Subject,
    dtype: u16,
    native: u32,
    asks: &[Ask],
) -> Result<Option<Want>, AllocError>
    ensures { IfOk result (λ want. want ≡ wanted_by subject dtype native asks.now) }
{
    match subject {
        Subject::Values => {
            let wants = wants_of(alloc, native, asks)?;
            Ok(merged(&wants))
        }
        Subject::Properties if ask_props(dtype, asks) => Ok(Some(property_want())),
        Subject::Properties => Ok(None),
    }
}

/// Whether one of these asks for the properties of a variable of this native type.
fn ask_props(dtype: u16, asks: &[Ask]) -> bool
    ensures { result ≡ ask_props dtype asks.now }
{
    asks.iter().any(|ask| asks_props(is_state_by(dtype), *ask))
}

/// Whether one asks for the properties of a variable, whose elements may be states: those have texts.
fn asks_props(states: bool, ask: Ask) -> bool
    ensures { result ≡ asks_props states (Some ask) }
{
    ask.props || states && ask.texts
}

/// What each wants of the values, where a count of 0 stands for the native one.
fn wants_of(alloc: Global, native: u32, asks: &[Ask]) -> Result<Vec<Want>, AllocError>
    ensures { IfOk result (λ wants. wants.items ≡ map (as_native native) (map want_asked asks.now)) }
{
    let mut wants = Vec::new(alloc);
    for ask in asks {
        let mask = ask.want.mask;
        let count = meant_count(native, ask.want.count);
        wants.push(Want { mask, count })?;
    }
    Ok(wants)
}

/// What all want together, as a server is asked for it.
fn merged(wants: &[Want]) -> Option<Want>
    ensures { result ≡ merged wants.now }
{
    if wants.is_empty() {
        return None;
    }
    Some(Want {
        mask: events(wants) & KNOWN_EVENTS | ALWAYS_ASKED,
        count: greatest(wants),
    })
}

fn events(wants: &[Want]) -> u16
    ensures { result ≡ events wants.now }
{
    let mut events = 0;
    for want in wants {
        events |= want.mask;
    }
    events
}

fn greatest(wants: &[Want]) -> u32
    ensures { result ≡ greatest wants.now }
{
    let mut greatest = 0;
    for want in wants {
        greatest = greatest.max(want.count);
    }
    greatest
}
