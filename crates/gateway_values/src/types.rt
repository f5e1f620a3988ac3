//! Types and counts.
ghost use Rattle.std.specs.Prelude.{◌≡◌};
ghost use Rattle.dbr_layout.specs.Dbr.{dbr_of};
ghost use Rattle.gateway_state.specs.Answer.{fits_payload, meant_count, needs_by_number};
ghost use Rattle.gateway_state.specs.Servers.{ctrl_of, time_of};

use dbr_layout::{Dbr, has_properties_by, is_state_by, is_text_by};
use gateway_state::{CTRL_FORM, PLAIN_TYPES, TIME_FORM};

/// The count that is meant: 0 stands for the native one.
pub fn meant_count(native: u32, count: u32) -> u32
    ensures { result ≡ meant_count native count }
{
    if count == 0 { native } else { count }
}

/// Whether so many elements of a type fit into a payload.
pub(crate) fn fits_payload(dtype: u16, count: u32) -> bool
    ensures { result ≡ fits_payload (dbr_of dtype) count }
{
    match Dbr::of(dtype) {
        Some(dbr) => match dbr.size_of(count) {
            Some(_) => true,
            None => false,
        },
        None => false,
    }
}

/// The number of a plain type's TIME form; any other number stays.
pub fn time_of(dtype: u16) -> u16
    ensures { result ≡ time_of dtype }
{
    if dtype < PLAIN_TYPES {
        dtype + TIME_FORM
    } else {
        dtype
    }
}

/// The number of a plain type's CTRL form; any other number stays.
pub(crate) fn ctrl_of(dtype: u16) -> u16
    ensures { result ≡ ctrl_of dtype }
{
    if dtype < PLAIN_TYPES {
        dtype + CTRL_FORM
    } else {
        dtype
    }
}

/// Whether an asked type can't be told without the properties of a variable of a native type.
pub(crate) fn needs_by_number(native: u16, dtype: u16) -> bool
    ensures { result ≡ needs_by_number native dtype }
{
    has_properties_by(dtype) || is_state_by(native) && is_text_by(dtype)
}
