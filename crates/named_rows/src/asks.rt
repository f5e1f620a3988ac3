//! What rows ask for of the variables that they lead to.
ghost use Rattle.std.specs.Prelude.{◌≡◌};
ghost use Rattle.named_rows.specs.Demand.{ask_of_reach, ask_of_sub, channel_ask, differs, may_read, names_properties, own_ask, reach_ask};

use crate::channels::{Channel, Reach};
use crate::subs::ClientSub;
use dbr_layout::{has_properties_by, is_text_by};
use mask_merge::{ALWAYS_ASKED, Ask, PROPERTY_EVENT, Want};

/// The right to read, a bit of access rights: `CA_PROTO_ACCESS_RIGHT_READ` of the protocol.
pub const READ_RIGHT: u32 = 1;

/// Whether these rights let a client read.
pub fn may_read(rights: u32) -> bool
    ensures { result ≡ may_read rights }
{
    rights & READ_RIGHT == READ_RIGHT
}

/// Whether a client may read now where it might not, or the other way round.
pub(crate) fn differ(before: bool, after: bool) -> bool
    ensures { result ≡ differs before after }
{
    if before { !after } else { after }
}

/// What a channel of this reach and these rights asks for by itself.
pub(crate) fn of_reach(reach: Reach, rights: u32) -> Option<Ask>
    ensures { result ≡ ask_of_reach reach rights }
{
    if reach.count > 0 && may_read(rights) {
        Some(reach_ask(reach))
    } else {
        None
    }
}

/// What the accepted reads on a channel ask for.
pub fn reach_ask(reach: Reach) -> Ask
    ensures { result ≡ reach_ask reach }
{
    Ask {
        want: Want {
            mask: ALWAYS_ASKED,
            count: reach.count,
        },
        props: reach.props,
        texts: false,
    }
}

/// What a channel asks for by itself.
pub(crate) fn of_channel(channel: &Channel) -> Option<Ask>
    ensures { result ≡ channel_ask channel.now }
{
    of_reach(channel.reach, channel.rights_told)
}

/// What a subscription asks for, where its client may read, or may not.
pub(crate) fn of_sub(reads: bool, sub: &ClientSub) -> Option<Ask>
    ensures { result ≡ ask_of_sub reads sub.now }
{
    if reads { Some(own_ask(sub)) } else { None }
}

/// What a subscription asks for.
pub fn own_ask(sub: &ClientSub) -> Ask
    ensures { result ≡ own_ask sub.now }
{
    Ask {
        want: Want {
            mask: sub.mask,
            count: sub.count,
        },
        props: names_properties(sub.mask) || has_properties_by(sub.dtype),
        texts: is_text_by(sub.dtype),
    }
}

fn names_properties(mask: u16) -> bool
    ensures { result ≡ names_properties mask }
{
    mask & PROPERTY_EVENT == PROPERTY_EVENT
}
