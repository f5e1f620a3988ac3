//! All rows, as plain lists.
ghost use Rattle.std.specs.Prelude.{◌≡◌, false};
ghost use Rattle.gateway_state.specs.Gateway.{initial};
ghost use Rattle.gateway_state.specs.Numbers.{is_past_numbers};
ghost use Rattle.gateway_state.specs.RowCounts.{row_counts};

use crate::numbers::PlainNumbers;
use crate::searches::PlainSearches;
use channel_table::{Channel, ClientSub, Session, WaitingRead};
use gateway_state::{Config, Connection, LastAge, LastMessage, Limits, Policy, RowCounts};
use link_table::{LinkRow, Server, WaitingWrite};
use std::alloc::Global;
use std::marker::Model;

/// What the gateway knows: each list in the order in which its rows were added. A call that fails may
/// leave the work half done.
#[derive(Drop)]
pub struct PlainRows {
    pub alloc: Global,
    pub config: Config,
    /// How much is taken on at most.
    pub limits: Limits,
    /// The connections that stand, with their outboxes.
    pub connections: Vec<Connection>,
    pub sessions: Vec<Session>,
    pub channels: Vec<Channel>,
    /// The subscriptions of clients.
    pub subs: Vec<ClientSub>,
    /// The reads that wait for a value.
    pub reads: Vec<WaitingRead>,
    pub servers: Vec<Server>,
    pub links: Vec<LinkRow>,
    /// The writes that wait for what their server says.
    pub writes: Vec<WaitingWrite>,
    /// The numbers that are given out.
    pub numbers: PlainNumbers,
    /// The last message of each link.
    pub cache: Vec<LastMessage>,
    /// The policy that holds, and the searches that are remembered.
    pub searches: PlainSearches,
    /// What stood already when time was last told to pass.
    pub last_age: LastAge,
}

impl Model for PlainRows {
    ghost use Rattle.gateway_state.specs.Gateway.{Gateway};
    ghost use Rattle.rule_desk.specs.contracts.policy.Policy as the_policy;
    ghost use Rattle.std.specs.Coded.{codes};

    ghost Value = { Gateway };

    ghost coded = { Prim.hlevel (codes, the_policy.the_row.coded) };

    ghost view = { λ r. record {
      config = r.config;
      policy = r.searches.policy;
      limits = r.limits;
      connections = r.connections.items;
      clients = record {
        sessions = r.sessions.items;
        channels = r.channels.items;
        subs = r.subs.items;
        reads = r.reads.items;
      };
      upstream = record {
        servers = r.servers.items;
        links = r.links.items;
        writes = r.writes.items;
        counters = r.numbers;
      };
      cache = r.cache.items;
      searches = r.searches.rows;
      last_age = r.last_age;
    } };
}

impl PlainRows {
    /// What is known before any event.
    pub fn new(alloc: Global, config: Config, policy: Policy) -> PlainRows
        ensures { result ≡ initial config policy }
    {
        let first = config.first;
        PlainRows {
            alloc,
            config,
            limits: Limits::usual(),
            connections: Vec::new(alloc),
            sessions: Vec::new(alloc),
            channels: Vec::new(alloc),
            subs: Vec::new(alloc),
            reads: Vec::new(alloc),
            servers: Vec::new(alloc),
            links: Vec::new(alloc),
            writes: Vec::new(alloc),
            numbers: PlainNumbers::new(first),
            cache: Vec::new(alloc),
            searches: PlainSearches::new(alloc, policy),
            last_age: LastAge {
                cid: first,
                subscription: first,
            },
        }
    }

    /// How many rows of each kind there are.
    pub fn row_counts(&self) -> RowCounts
        ensures { result ≡ row_counts self.now }
    {
        RowCounts {
            sessions: self.sessions.len(),
            channels: self.channels.len(),
            subs: self.subs.len(),
            reads: self.reads.len(),
            servers: self.servers.len(),
            links: self.links.len(),
            writes: self.writes.len(),
            searches: self.searches.len(),
        }
    }

    /// No number past the last one was given out, whatever was done: this call does nothing.
    #[tactic(auto, unfolding(gateway_state::specs::Numbers::is_past_numbers))]
    pub fn numbers_are_in_range(&self)
        ensures { is_past_numbers self.now ≡ false }
    {
        self.numbers.are_in_range();
    }
}
