//! How far links have come.
ghost use Rattle.std.specs.Prelude.{◌≡◌};
ghost use Rattle.gateway_state.specs.Answer.{native_in};
ghost use Rattle.gateway_state.specs.Servers.{is_usable};
ghost use Rattle.gateway_state.specs.Variables.{connected_in, is_connected, is_creating};

use crate::types::{fits_payload, time_of};
use gateway_state::{Native, PLAIN_TYPES};
use link_table::{LinkRow, LinkState};
use std::marker::Model;

/// Whether a server made the link's channel, and it can be used.
pub fn is_connected(state: LinkState) -> bool
    ensures { result ≡ is_connected state }
{
    match state {
        LinkState::Creating | LinkState::Unusable => false,
        LinkState::Connected { .. } => true,
    }
}

/// Whether the server was asked for the link's channel and hasn't answered.
pub fn is_creating(state: LinkState) -> bool
    ensures { result ≡ is_creating state }
{
    match state {
        LinkState::Creating => true,
        LinkState::Connected { .. } | LinkState::Unusable => false,
    }
}

/// A variable whose link is connected.
#[derive(Drop)]
pub struct ConnectedVariable<'a> {
    pub link: &'a LinkRow,
    /// The server's ID of its channel.
    pub sid: u32,
    pub native: Native,
}

impl<'a> Model for ConnectedVariable<'a> {
    ghost use Rattle.gateway_state.specs.Variables.{ConnectedVariable};

    ghost Value = { ConnectedVariable };

    ghost view = { λ v. record { link = v.link.now; sid = v.sid; native = v.native } };
}

/// The variable of a link that is connected.
pub fn connected(link: &LinkRow) -> Option<ConnectedVariable<'_>>
    ensures { result ≡ connected_in link.now link.now.state }
{
    match link.state {
        LinkState::Creating | LinkState::Unusable => None,
        LinkState::Connected { sid, dtype, count } => Some(ConnectedVariable {
            link,
            sid,
            native: Native { dtype, count },
        }),
    }
}

/// The type and the count of a connected link's variable.
pub fn native_in(state: LinkState) -> Option<Native>
    ensures { result ≡ native_in state }
{
    match state {
        LinkState::Creating | LinkState::Unusable => None,
        LinkState::Connected { dtype, count, .. } => Some(Native { dtype, count }),
    }
}

/// Whether updates of a channel with this native type and count can be taken.
pub fn is_usable(dtype: u16, count: u32) -> bool
    ensures { result ≡ is_usable dtype count }
{
    dtype < PLAIN_TYPES && 0 < count && fits_payload(time_of(dtype), count)
}
