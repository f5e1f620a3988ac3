//! What servers are asked to tell.
ghost use Rattle.std.specs.Prelude.{◌≡◌};
ghost use Rattle.gateway_state.specs.Interest.{is_for, property_want, sent_count, sent_for};
ghost use Rattle.gateway_state.specs.Notices.{type_for};

use crate::types::{ctrl_of, time_of};
use gateway_state::UPDATE_MINOR;
use link_table::{Subject, Subscription};
use mask_merge::{PROPERTY_EVENT, Want};

/// What is asked of a server that is to tell a variable's properties.
pub fn property_want() -> Want
    ensures { result ≡ property_want }
{
    Want {
        mask: PROPERTY_EVENT,
        count: 1,
    }
}

/// Whether the subscription is for what is wanted.
pub fn is_for(want: Option<Want>, subscription: Option<Subscription>) -> bool
    ensures { result ≡ is_for want subscription }
{
    match (want, subscription) {
        (None, None) => true,
        (Some(want), Some(sub)) => sub.mask == want.mask && sub.count == want.count,
        (None, Some(_)) => false,
        (Some(_), None) => false,
    }
}

/// The count as it is sent: 0 stands for the native count, where the server knows that.
fn sent_count(minor: u32, native: u32, count: u32) -> u32
    ensures { result ≡ sent_count minor native count }
{
    if count == native && minor >= UPDATE_MINOR {
        0
    } else {
        count
    }
}

/// The count as it is sent for a subject: of properties always the one that is wanted.
pub fn sent_for(subject: Subject, minor: u32, native: u32, count: u32) -> u32
    ensures { result ≡ sent_for subject minor native count }
{
    match subject {
        Subject::Values => sent_count(minor, native, count),
        Subject::Properties => count,
    }
}

/// The type that a server is asked to tell a subject in, of a native type.
pub fn type_for(subject: Subject, dtype: u16) -> u16
    ensures { result ≡ type_for subject dtype }
{
    match subject {
        Subject::Values => time_of(dtype),
        Subject::Properties => ctrl_of(dtype),
    }
}
