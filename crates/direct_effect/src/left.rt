//! Searches that go.
ghost use Rattle.std.specs.Prelude.{◌≡◌, IfOk};
ghost use Rattle.touched_rows.specs.Touches.{left_touches};

use gateway_rows::Known;
use gateway_state::RememberedSearch;
use std::alloc::AllocError;
use touched_rows::{Touched, TouchedNames};

/// What a search touches that goes, where one does: the links of the name that it leads to, which it alone
/// may have wanted.
pub fn left_touches(known: &Known, left: Option<RememberedSearch>) -> Result<Touched, AllocError>
    ensures { IfOk result (λ touched. touched ≡ left_touches known.now.state.policy left) }
{
    let Some(search) = left else {
        return Ok(Touched::Nothing);
    };
    let mut names = TouchedNames::new(known.alloc);
    if let Some(lead) = known.lead_of(&search.host, &search.name)? {
        names.push(lead.real)?;
    }
    Ok(Touched::Links(names))
}
