//! The rows with the count of looks at them.
ghost use Rattle.std.specs.Prelude.{◌≡◌};
ghost use Rattle.gateway_state.specs.Gateway.{initial};

use crate::state::Known;
use channel_table::Visits;
use gateway_state::{Config, Policy};
use std::alloc::Global;
use std::marker::Model;

/// The rows, and the count of looks at them.
#[derive(Drop)]
pub struct CountedRows {
    pub known: Known,
    pub visits: Visits,
}

impl Model for CountedRows {
    ghost use Rattle.gateway_rows.specs.CountedState.{CountedState};
    ghost use Rattle.rule_desk.specs.contracts.policy.Policy as the_policy;
    ghost use Rattle.std.specs.Coded.{codes};
    ghost use Rattle.std.specs.Prelude.{◌≡◌};

    ghost Value = { CountedState };

    ghost coded = { Prim.hlevel (codes, the_policy.the_row.coded) };

    ghost view = { λ r. record { state = r.known.state; count = r.visits } };

    // The count is that of the table of clients.
    ghost invariant = { λ r. r.visits.brand ≡ r.known.brand };
}

impl CountedRows {
    /// What is known before any event, of which nothing was looked at.
    pub fn new(alloc: Global, config: Config, policy: Policy) -> CountedRows
        ensures state { result.state ≡ initial config policy }
        ensures looks { result.count.looks ≡ 0 }
    {
        let (known, visits) = Known::new(alloc, config, policy);
        CountedRows { known, visits }
    }
}
