//! What reads are answered, and how far they reach.
ghost use Rattle.std.specs.Prelude.{◌≡◌, Some, IfOk};
ghost use Rattle.gateway_state.specs.Answer.{cached_as};
ghost use Rattle.gateway_state.specs.Clients.{reach_with};

use crate::types::{meant_count, needs_by_number};
use channel_table::Reach;
use gateway_state::{Given, LastMessage, Native};
use std::alloc::{AllocError, Global};

/// What was told last, as an asked type and count; nothing where it doesn't cover these.
pub fn cached_as(
    alloc: Global,
    native: u32,
    dtype: u16,
    count: u32,
    last: &LastMessage,
) -> Result<Option<Given>, AllocError>
    ensures { IfOk result (λ given. given ≡ cached_as native dtype count (Some last.now)) }
{
    if !last.held.covers(dtype, meant_count(native, count)) {
        return Ok(None);
    }
    match last.held.answer(alloc, dtype, count)? {
        Some((count, payload)) => Ok(Some(Given { count, payload })),
        None => Ok(None),
    }
}

/// How far the reads on a channel reach, with one more of this type and count.
pub fn reach_with(reach: Reach, native: Native, dtype: u16, count: u32) -> Reach
    ensures { result ≡ reach_with reach native dtype count }
{
    Reach {
        count: reach.count.max(meant_count(native.count, count)),
        props: reach.props || needs_by_number(native.dtype, dtype),
    }
}
