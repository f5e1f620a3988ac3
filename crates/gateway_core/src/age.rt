//! Time that passes.
ghost use Rattle.std.specs.Prelude.{◌≡◌, ◌≤◌, ◌+◌, filter, OnOk, IfOk};
ghost use Rattle.gateway_rows.specs.Looked.{LookedOn};
ghost use Rattle.gateway_state.specs.Aged.{age_told, aged, links_given_up, properties_given_up, searches_forgotten};
ghost use Rattle.gateway_state.specs.Searches.{is_stale};
ghost use Rattle.gateway_state.specs.Variables.{search_names};
ghost use Rattle.direct_effect.specs.Looks.{age_looks};

use direct_effect::give_up_properties;
use gateway_rows::{CountedRows, Known};
use std::alloc::AllocError;
use touched_rows::TouchedNames;

/// What servers owe since before the last time is given up, and then what stands is noted.
fn give_up(rows: &mut CountedRows) -> Result<(), AllocError>
    ensures ok { OnOk result (rows.new.state ≡ age_told (links_given_up (properties_given_up rows.old.state))) }
    ensures bound { OnOk result (rows.new.count.looks ≤ rows.old.count.looks + age_looks rows.old.state) }
    ensures looked { LookedOn rows.old rows.new }
{
    give_up_properties(rows)?;
    rows.known.give_up_links()?;
    rows.known.tell_age();
    Ok(())
}

/// Searches that weren't made since the last time are forgotten. It answers the variables that they led to.
fn forget(known: &mut Known) -> Result<TouchedNames, AllocError>
    ensures ok { OnOk result (known.new.state ≡ searches_forgotten known.old.state) }
    ensures names { IfOk result (λ names. names ≡ search_names known.old.state.policy (filter is_stale known.old.state.searches)) }
    ensures brand { known.new.brand ≡ known.old.brand }
{
    let names = known.forget_searches()?;
    TouchedNames::copied(known.alloc, &names)
}

/// Time passed: what servers owe since before the last time is given up, and what wasn't searched for since
/// then is forgotten. It answers the variables that the forgotten searches led to.
#[tactic(auto, using(crate::proofs::Aging::stale_names_left))]
pub(crate) fn age(rows: &mut CountedRows) -> Result<TouchedNames, AllocError>
    ensures ok { OnOk result (rows.new.state ≡ aged rows.old.state) }
    ensures names { IfOk result (λ names. names ≡ search_names rows.old.state.policy (filter is_stale rows.old.state.searches)) }
    ensures bound { OnOk result (rows.new.count.looks ≤ rows.old.count.looks + age_looks rows.old.state) }
    ensures looked { LookedOn rows.old rows.new }
{
    give_up(rows)?;
    forget(&mut rows.known)
}
