//! Updates: of which subject, whether they count, and whom they concern.
ghost use Rattle.std.specs.Prelude.{◌≡◌};
ghost use Rattle.dbr_layout.specs.View.{shown};
ghost use Rattle.gateway_state.specs.Servers.{fails_without, is_described_in, is_description, is_heard, is_value, subject_of};
ghost use Rattle.gateway_state.specs.Updates.{asks_for, is_concerned};

use crate::types::{ctrl_of, needs_by_number, time_of};
use channel_table::{ClientSub, WaitingRead};
use dbr_layout::{Props, View};
use gateway_state::{ALARM_EVENTS, Native, VALUE_EVENTS};
use link_table::{LinkRow, Subject};

/// The subject of a link's subscription that has this ID.
pub fn subject_of(id: u32, link: &LinkRow) -> Subject
    ensures { result ≡ subject_of id link.now }
{
    match link.subscriptions.values {
        Some(sub) if sub.id == id => Subject::Values,
        _ => Subject::Properties,
    }
}

/// Whether an update of a subject counts, of a variable of this native type.
pub fn is_heard(
    subject: Subject,
    native: u16,
    asked_with: u32,
    dtype: u16,
    count: u32,
    payload: &[u8],
) -> bool
    ensures { result ≡ is_heard subject native asked_with dtype count payload.now }
{
    match subject {
        Subject::Values => is_value(native, asked_with, dtype, count, payload),
        Subject::Properties => is_description(native, dtype, count, payload),
    }
}

/// Whether an update counts as a value.
fn is_value(native: u16, asked_with: u32, dtype: u16, count: u32, payload: &[u8]) -> bool
    ensures { result ≡ is_value native asked_with dtype count payload.now }
{
    dtype == time_of(native) && count <= asked_with && View::new(dtype, count, payload).is_ok()
}

/// Whether an update counts as properties.
fn is_description(native: u16, dtype: u16, count: u32, payload: &[u8]) -> bool
    ensures { result ≡ is_description native dtype count payload.now }
{
    dtype == ctrl_of(native) && count <= 1 && tells_properties(dtype, count, payload)
}

fn tells_properties(dtype: u16, count: u32, payload: &[u8]) -> bool
    ensures { result ≡ is_described_in (shown dtype count payload.now) }
{
    match View::new(dtype, count, payload) {
        Ok(view) => Props::of(&view).is_some(),
        Err(_) => false,
    }
}

/// Whether a subscription asks for one of these events.
pub fn asks_for(events: u16, sub: &ClientSub) -> bool
    ensures { result ≡ asks_for events sub.now }
{
    sub.mask & events > 0
}

/// Whether a value concerns a subscription: it asks for values or for the log, or for alarms and the
/// alarm is another.
pub fn is_concerned(differs: bool, sub: &ClientSub) -> bool
    ensures { result ≡ is_concerned differs sub.now }
{
    asks_for(VALUE_EVENTS, sub) || asks_for(ALARM_EVENTS, sub) && differs
}

/// Whether a read of a variable of this native type can't be had where a server fails to tell a
/// subject: without values none can, without properties none that needs them.
pub fn fails_without(subject: Subject, native: Option<Native>, read: &WaitingRead) -> bool
    ensures { result ≡ fails_without subject native read.now }
{
    match (subject, native) {
        (Subject::Values, _) => true,
        (Subject::Properties, Some(native)) => needs_by_number(native.dtype, read.dtype),
        (Subject::Properties, None) => false,
    }
}
