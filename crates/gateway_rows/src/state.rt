//! All rows of the gateway.
ghost use Rattle.std.specs.Prelude.{◌≡◌, false};
ghost use Rattle.gateway_state.specs.Gateway.{initial};
ghost use Rattle.gateway_state.specs.Numbers.{is_past_numbers};
ghost use Rattle.gateway_state.specs.RowCounts.{row_counts};

use channel_table::{Table, Visits};
use gateway_state::{Config, LastAge, Limits, LimitsMet, Policy, RowCounts, Unanswered};
use link_table::Links;
use state_tables::{Cache, Connections, Searches};
use std::alloc::Global;
use std::marker::Model;

/// What the gateway knows. A call that fails may leave the work half done.
pub struct Known {
    pub alloc: Global,
    pub config: Config,
    /// How much is taken on at most.
    pub limits: Limits,
    /// The connections that stand, with their outboxes.
    pub connections: Connections,
    /// Clients' sessions, channels, reads that wait, and subscriptions.
    pub clients: Table,
    /// Servers, links, and the numbers that are given out.
    pub upstream: Links,
    /// What each link was told last.
    pub cache: Cache,
    /// The policy that holds, and the searches that are remembered.
    pub searches: Searches,
    /// What stood already when time was last told to pass.
    pub last_age: LastAge,
    // How often limits were met, without the outboxes that were full. It is no part of what contracts see.
    pub(crate) met: LimitsMet,
    // Searches on connections that had no answer. They are none either.
    pub(crate) unanswered: Unanswered,
}

impl Model for Known {
    ghost use Rattle.gateway_rows.specs.BrandedState.{BrandedState};
    ghost use Rattle.rule_desk.specs.contracts.policy.Policy as the_policy;
    ghost use Rattle.std.specs.Coded.{codes};

    ghost Value = { BrandedState };

    ghost coded = { Prim.hlevel (codes, the_policy.the_row.coded) };

    ghost view = { λ r. record {
      state = record {
        config = r.config;
        policy = r.searches.policy;
        limits = r.limits;
        connections = r.connections;
        clients = r.clients.rows;
        upstream = r.upstream;
        cache = r.cache;
        searches = r.searches.rows;
        last_age = r.last_age;
      };
      brand = r.clients.brand;
    } };
}

// A function of its own, so that who drops the rows need not know of the drops of all their parts.
impl Drop for Known {
    fn drop(self) {
        let Known {
            config,
            connections,
            clients,
            upstream,
            cache,
            searches,
            unanswered,
            alloc: _,
            limits: _,
            last_age: _,
            met: _,
        } = self;
        drop(config);
        drop(connections);
        drop(clients);
        drop(upstream);
        drop(cache);
        drop(searches);
        drop(unanswered);
    }
}

impl Known {
    /// What is known before any event, and the count of looks at the rows of clients.
    pub(crate) fn new(alloc: Global, config: Config, policy: Policy) -> (Known, Visits)
        ensures state { result.0.state ≡ initial config policy }
        ensures looks { result.1.looks ≡ 0 }
        ensures own { result.1.brand ≡ result.0.brand }
    {
        let first = config.first;
        let (clients, visits) = Table::new(alloc);
        let known = Known {
            alloc,
            config,
            limits: Limits::usual(),
            connections: Connections::new(alloc),
            clients,
            upstream: Links::new(alloc, first),
            cache: Cache::new(alloc),
            searches: Searches::new(alloc, policy),
            last_age: LastAge {
                cid: first,
                subscription: first,
            },
            met: LimitsMet::NONE,
            unanswered: Unanswered::new(alloc),
        };
        (known, visits)
    }

    /// How many rows of each kind there are. It looks at none.
    pub fn row_counts(&self) -> RowCounts
        ensures { result ≡ row_counts self.now.state }
    {
        RowCounts {
            sessions: self.clients.all_sessions(),
            channels: self.clients.all_channels(),
            subs: self.clients.all_subs(),
            reads: self.clients.all_reads(),
            servers: self.upstream.server_count(),
            links: self.upstream.link_count(),
            writes: self.upstream.write_count(),
            searches: self.searches.len(),
        }
    }

    /// No number past the last one was given out, whatever was done: this call does nothing.
    #[tactic(auto, unfolding(gateway_state::specs::Numbers::is_past_numbers))]
    pub fn numbers_are_in_range(&self)
        ensures { is_past_numbers self.now.state ≡ false }
    {
        self.upstream.numbers_are_in_range();
    }
}
