//! Why values can't be had.
ghost use Rattle.std.specs.Prelude.{◌≡◌};
ghost use Rattle.gateway_state.specs.Answer.{is_type_served, refusal, value_refusal};

use crate::rights::may_read;
use crate::types::{fits_payload, meant_count};
use ca_message::codes::{ECA_BADCOUNT, ECA_BADTYPE, ECA_NORDACCESS, ECA_TOLARGE};
use dbr_layout::{Dbr, converts};
use gateway_state::Native;

fn is_type_served(native: Native, dtype: u16) -> bool
    ensures { result ≡ is_type_served native dtype }
{
    match (Dbr::of(native.dtype), Dbr::of(dtype)) {
        (Some(from), Some(to)) => converts(from, to),
        (Some(_), None) => false,
        (None, _) => false,
    }
}

/// Why a value of a variable can't be had in a type and count, the first reason that applies.
pub fn value_refusal(native: Native, dtype: u16, count: u32) -> Option<u32>
    ensures { result ≡ value_refusal native dtype count }
{
    if !is_type_served(native, dtype) {
        Some(ECA_BADTYPE)
    } else if native.count < count {
        Some(ECA_BADCOUNT)
    } else if !fits_payload(dtype, meant_count(native.count, count)) {
        Some(ECA_TOLARGE)
    } else {
        None
    }
}

/// Why a read of a variable is refused, the first reason that applies.
pub fn read_refusal(native: Native, rights: u32, dtype: u16, count: u32) -> Option<u32>
    ensures { result ≡ refusal native rights dtype count }
{
    match value_refusal(native, dtype, count) {
        Some(code) => Some(code),
        None if may_read(rights) => None,
        None => Some(ECA_NORDACCESS),
    }
}
