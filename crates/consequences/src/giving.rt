//! What subscribers of one variable are given of it, one after the other.
ghost use Rattle.std.specs.Prelude.{◌≡◌, List, IfOk, Some};
ghost use Rattle.gateway_state.specs.declared.cached.LastMessage.{LastMessage};
ghost use Rattle.consequences.specs.Giving.{IsGivenStill, IsHadStill, given_from, given_of};

use crate::source::ValueSource;
use bytes::Bytes;
use channel_table::ClientSub;
use gateway_rows::Known;
use gateway_state::Given;
use std::alloc::AllocError;

/// What was given as a type and a count.
#[derive(Drop)]
struct LastGiven {
    dtype: u16,
    count: u32,
    // How many elements these are.
    given: u32,
    payload: Bytes,
}

/// Where a variable's value is, and what was given of it last: who asks for the same next is given that again, and
/// nothing is looked up.
#[derive(Drop)]
pub(crate) struct Giving {
    source: Option<ValueSource>,
    last: Option<LastGiven>,
    // Whether more than one is given.
    has_more: bool,
}

impl Giving {
    /// Nothing was given yet.
    pub(crate) fn new(source: Option<ValueSource>, has_more: bool) -> Giving
        ensures source { result.source ≡ source }
        ensures still { (cache : List LastMessage) → IsGivenStill cache result }
    {
        Giving {
            source,
            last: None,
            has_more,
        }
    }

    /// What a subscription is given of the value; nothing where there is none that covers what it asks for.
    pub(crate) fn give(
        &mut self,
        known: &Known,
        sub: &ClientSub,
    ) -> Result<Option<Given>, AllocError>
        requires still { IsGivenStill known.now.state.cache self.old }
        ensures given { IfOk result (λ given. given ≡ given_from known.now.state.cache self.old.source sub.now.dtype sub.now.count) }
        ensures source { self.new.source ≡ self.old.source }
        ensures still { IsGivenStill known.now.state.cache self.new }
    {
        if let Some(last) = &self.last {
            if last.dtype == sub.dtype && last.count == sub.count {
                return again(last);
            }
        }
        let given = first_given(known, self.source, sub)?;
        if self.has_more {
            self.last = kept(known, self.source, &given, sub.dtype, sub.count)?;
        }
        Ok(given)
    }
}

// The same once more.
fn again(last: &LastGiven) -> Result<Option<Given>, AllocError>
    ensures { IfOk result (λ given. given ≡ Some (given_of last.now)) }
{
    Ok(Some(Given {
        count: last.given,
        payload: last.payload.clone()?,
    }))
}

// What a subscription is given from there.
fn first_given(
    known: &Known,
    source: Option<ValueSource>,
    sub: &ClientSub,
) -> Result<Option<Given>, AllocError>
    ensures { IfOk result (λ given. given ≡ given_from known.now.state.cache source sub.now.dtype sub.now.count) }
{
    match source {
        Some(source) => known.cached_value(source.cid, source.native, sub.dtype, sub.count),
        None => Ok(None),
    }
}

// What was given from there, to be given again.
fn kept(
    known: &Known,
    source: Option<ValueSource>,
    given: &Option<Given>,
    dtype: u16,
    count: u32,
) -> Result<Option<LastGiven>, AllocError>
    requires given { given.now ≡ given_from known.now.state.cache source dtype count }
    ensures still { IfOk result (λ last. IsHadStill known.now.state.cache source last) }
{
    let Some(given) = given else {
        return Ok(None);
    };
    Ok(Some(LastGiven {
        dtype,
        count,
        given: given.count,
        payload: given.payload.clone()?,
    }))
}
