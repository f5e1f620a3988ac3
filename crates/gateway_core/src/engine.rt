//! The engine: the rows, until a step is refused.
ghost use Rattle.std.specs.Prelude.{◌≡◌, ◌+◌, ◌≢◌, ◌≤◌, ◌<◌, ◌↔◌, Some, None, IsSome, IsNone, true, false, OnOk, OnErr, IfOk, IfSome, IsErrOf, IsOk};
ghost use Rattle.std.specs.Option.{option_map};
ghost use Rattle.gateway_state.specs.Gateway.{initial};
ghost use Rattle.gateway_state.specs.declared.config.TheConstants.{LAST_FIRST};
ghost use Rattle.gateway_state.specs.Numbers.{is_past_numbers, runs_out};
ghost use Rattle.gateway_state.specs.Step.{step, run, taken};
ghost use Rattle.gateway_state.specs.Answer.{reading};
ghost use Rattle.gateway_state.specs.Asked.{is_open, must_end, queued, queued_bytes};
ghost use Rattle.gateway_state.specs.Serving.{server_of};
ghost use Rattle.gateway_state.specs.Interest.{property_subscription_of, subscription_of};
ghost use Rattle.gateway_state.specs.Rights.{rights_asked};
ghost use Rattle.gateway_state.specs.Variables.{asks, is_missing};
ghost use Rattle.gateway_state.specs.RowCounts.{row_counts};
ghost use Rattle.gateway_calls.specs.Counting.{link_count_of};
ghost use Rattle.gateway_calls.specs.Searching.{IsSearched};
ghost use Rattle.gateway_core.specs.EngineState.{visits_of};
ghost use Rattle.gateway_core.specs.Looks.{event_looks};
ghost use Rattle.gateway_rows.specs.Own.{IsWithin};

use crate::search::search;
use crate::step::{drain, step};
use fanout::Out;
use gateway_calls::{AskFault, Failed, NoMemory, StepFault};
use gateway_rows::{CountedRows, RowsRefusal};
use gateway_state::{
    Config, Dest, Event, Fullest, Limits, LimitsMet, Policy, Reading, RowCounts, Sub,
    UnansweredSince,
};
use pv_name::{Host, Name};
use pv_search::SearchAnswer;
use std::alloc::Global;
use std::collections::VecDeque;
use std::marker::Model;

/// The gateway, one event at a time. A refused step leaves it failed for good.
#[derive(Drop)]
pub struct Engine {
    rows: Option<CountedRows>,
    // How many rows of clients had been looked at when a step was refused.
    visited: u64,
}

impl Model for Engine {
    ghost use Rattle.gateway_core.specs.EngineState.{EngineState, visits_of};
    ghost use Rattle.rule_desk.specs.contracts.policy.Policy as the_policy;
    ghost use Rattle.std.specs.Coded.{codes};
    ghost use Rattle.std.specs.Option.{option_map};

    ghost Value = { EngineState };

    ghost coded = { Prim.hlevel (codes, the_policy.the_row.coded) };

    ghost view = { λ e. record { state = option_map (λ rows. rows.state) e.rows; visits = visits_of e.rows e.visited } };

    ghost use Rattle.std.specs.Option.{ForSome};
    ghost use Rattle.gateway_core.specs.EngineState.{IsRunning};

    // Whatever happened, the rows are those that a run of events reaches.
    ghost invariant = { λ e. ForSome e.rows IsRunning };
}

impl Engine {
    /// A gateway to which nothing happened yet.
    pub fn new(alloc: Global, config: Config, policy: Policy) -> Result<Engine, NoMemory>
        requires lowest { 0 < config.first }
        requires highest { config.first ≤ LAST_FIRST }
        ensures state { IfOk result (λ engine. engine.state ≡ Some (initial config policy)) }
        ensures visits { IfOk result (λ engine. engine.visits ≡ 0) }
    {
        Ok(Engine {
            rows: Some(CountedRows::new(alloc, config, policy)),
            visited: 0,
        })
    }

    /// A gateway to which nothing happened yet but that these limits hold.
    pub fn with_limits(
        alloc: Global,
        config: Config,
        policy: Policy,
        limits: Limits,
    ) -> Result<Engine, NoMemory>
        requires lowest { 0 < config.first }
        requires highest { config.first ≤ LAST_FIRST }
        ensures state { IfOk result (λ engine. engine.state ≡ Some (step (initial config policy) (Event.Limit limits))) }
        ensures visits { IfOk result (λ engine. engine.visits ≡ 0) }
    {
        let mut limited = CountedRows::new(alloc, config, policy);
        limited.known.set_limits(limits);
        Ok(Engine {
            rows: Some(limited),
            visited: 0,
        })
    }

    /// Performs one event.
    pub fn step(&mut self, event: Event) -> Result<(), StepFault>
        ensures ok { OnOk result (self.new.state ≡ option_map (λ w. step w event) self.old.state) }
        ensures used_up { IsErrOf result StepFault.NumbersUsedUp → option_map (λ w. is_past_numbers (step w event)) self.old.state ≡ Some true }
        ensures in_range { OnOk result (option_map (λ w. is_past_numbers (step w event)) self.old.state ≡ Some false) }
        ensures failed { IsErrOf result StepFault.Failed ↔ IsNone self.old.state }
        ensures err { OnErr result (self.new.state ≡ None) }
        ensures bound { OnOk result (IfSome self.old.state (λ w. IsWithin (event_looks w event) self.old.visits self.new.visits)) }
        ensures no_less { self.old.visits ≤ self.new.visits }
    {
        let Some(rows) = &mut self.rows else {
            return Err(StepFault::Failed);
        };
        match step(rows, event) {
            Ok(()) => Ok(()),
            Err(refusal) => Err(give_up(&mut self.rows, &mut self.visited, refusal)),
        }
    }

    /// Performs events in order, up to the first that is refused.
    #[tactic(auto, unfolding(gateway_state::specs::Step::run, gateway_state::specs::Numbers::runs_out))]
    pub fn run(&mut self, events: Vec<Event>) -> Result<(), StepFault>
        ensures ok { OnOk result (self.new.state ≡ option_map (λ w. run w events.items) self.old.state) }
        ensures used_up { IsErrOf result StepFault.NumbersUsedUp → option_map (λ w. runs_out w events.items) self.old.state ≡ Some true }
        ensures in_range { OnOk result (option_map (λ w. runs_out w events.items) self.old.state ≡ Some false) }
        ensures failed { IsErrOf result StepFault.Failed ↔ IsNone self.old.state }
        ensures err { OnErr result (self.new.state ≡ None) }
        ensures no_less { self.old.visits ≤ self.new.visits }
    {
        if self.rows.is_none() {
            return Err(StepFault::Failed);
        }
        let mut left = VecDeque::from(events);
        while let Some(event) = left.pop_front() {
            self.step(event)?;
        }
        Ok(())
    }

    /// Takes the first `count` messages of an outbox, or all, and hands them out in order.
    pub fn drain(&mut self, dest: Dest, count: usize) -> Result<Vec<Out>, StepFault>
        ensures ok { OnOk result (self.new.state ≡ option_map (λ w. step w (Event.Drain dest count)) self.old.state) }
        ensures used_up { IsErrOf result StepFault.NumbersUsedUp → option_map (λ w. is_past_numbers (step w (Event.Drain dest count))) self.old.state ≡ Some true }
        ensures in_range { OnOk result (option_map (λ w. is_past_numbers (step w (Event.Drain dest count))) self.old.state ≡ Some false) }
        ensures found { IfOk result (λ outs. Some outs.items ≡ option_map (λ w. taken w (Event.Drain dest count) dest) self.old.state) }
        ensures failed { IsErrOf result StepFault.Failed ↔ IsNone self.old.state }
        ensures err { OnErr result (self.new.state ≡ None) }
        ensures no_less { self.old.visits ≤ self.new.visits }
    {
        let Some(rows) = &mut self.rows else {
            return Err(StepFault::Failed);
        };
        match drain(rows, dest, count) {
            Ok(outs) => Ok(outs),
            Err(refusal) => Err(give_up(&mut self.rows, &mut self.visited, refusal)),
        }
    }

    /// How many rows of clients were looked at so far, up to the type's last value.
    pub fn visited(&mut self) -> u64
        ensures found { result ≡ self.old.visits }
        ensures same { self.new ≡ self.old }
    {
        match &self.rows {
            Some(rows) => rows.visits.visited(),
            None => self.visited,
        }
    }

    /// Whether the connection stands.
    pub fn is_open(&mut self, dest: Dest) -> Result<bool, Failed>
        ensures found { IfOk result (λ answer. Some answer ≡ option_map (λ w. is_open w dest) self.old.state) }
        ensures failed { IsOk result ↔ IsSome self.old.state }
        ensures same { self.new ≡ self.old }
    {
        match &self.rows {
            Some(rows) => Ok(rows.known.is_open(dest)),
            None => Err(Failed),
        }
    }

    /// Whether the connection stands and must end.
    pub fn must_end(&mut self, dest: Dest) -> Result<bool, Failed>
        ensures found { IfOk result (λ answer. Some answer ≡ option_map (λ w. must_end w dest) self.old.state) }
        ensures failed { IsOk result ↔ IsSome self.old.state }
        ensures same { self.new ≡ self.old }
    {
        match &self.rows {
            Some(rows) => Ok(rows.known.must_end(dest)),
            None => Err(Failed),
        }
    }

    /// How many messages wait for the connection, 0 where it doesn't stand.
    pub fn queued(&mut self, dest: Dest) -> Result<usize, Failed>
        ensures found { IfOk result (λ answer. Some answer ≡ option_map (λ w. queued w dest) self.old.state) }
        ensures failed { IsOk result ↔ IsSome self.old.state }
        ensures same { self.new ≡ self.old }
    {
        match &self.rows {
            Some(rows) => Ok(rows.known.queued(dest)),
            None => Err(Failed),
        }
    }

    /// How many bytes wait for the connection, 0 where it doesn't stand, and at most the type's last value.
    pub fn queued_bytes(&mut self, dest: Dest) -> Result<u64, Failed>
        ensures found { IfOk result (λ answer. Some answer ≡ option_map (λ w. queued_bytes w dest) self.old.state) }
        ensures failed { IsOk result ↔ IsSome self.old.state }
        ensures same { self.new ≡ self.old }
    {
        match &self.rows {
            Some(rows) => Ok(rows.known.queued_bytes(dest)),
            None => Err(Failed),
        }
    }

    /// How many rows of each kind there are: the lengths of the lists that the definitions speak of.
    pub fn row_counts(&mut self) -> Result<RowCounts, Failed>
        ensures found { IfOk result (λ counts. Some counts ≡ option_map row_counts self.old.state) }
        ensures failed { IsOk result ↔ IsSome self.old.state }
        ensures same { self.new ≡ self.old }
    {
        match &self.rows {
            Some(rows) => Ok(rows.known.row_counts()),
            None => Err(Failed),
        }
    }

    /// The limits that hold.
    pub fn limits(&mut self) -> Result<Limits, Failed>
        ensures found { IfOk result (λ limits. Some limits ≡ option_map (λ w. w.limits) self.old.state) }
        ensures failed { IsOk result ↔ IsSome self.old.state }
        ensures same { self.new ≡ self.old }
    {
        match &self.rows {
            Some(rows) => Ok(rows.known.limits),
            None => Err(Failed),
        }
    }

    /// The present subscription of a variable upstream, nothing where there is none.
    pub fn subscription(&mut self, name: &Name) -> Result<Option<Sub>, Failed>
        ensures found { IfOk result (λ answer. Some answer ≡ option_map (λ w. subscription_of w name.now) self.old.state) }
        ensures failed { IsOk result ↔ IsSome self.old.state }
        ensures same { self.new ≡ self.old }
    {
        match &self.rows {
            Some(rows) => Ok(rows.known.subscription_of(name)),
            None => Err(Failed),
        }
    }

    /// The ID of the present subscription to a variable's properties, nothing where there is none.
    pub fn property_subscription(&mut self, name: &Name) -> Result<Option<u32>, Failed>
        ensures found { IfOk result (λ answer. Some answer ≡ option_map (λ w. property_subscription_of w name.now) self.old.state) }
        ensures failed { IsOk result ↔ IsSome self.old.state }
        ensures same { self.new ≡ self.old }
    {
        match &self.rows {
            Some(rows) => Ok(rows.known.property_subscription_of(name)),
            None => Err(Failed),
        }
    }

    /// What a client may do with its channel (1: read, 2: write), nothing where it has no such channel.
    pub fn rights(&mut self, session: u32, sid: u32) -> Result<Option<u32>, Failed>
        ensures found { IfOk result (λ answer. Some answer ≡ option_map (λ w. rights_asked w session sid) self.old.state) }
        ensures failed { IsOk result ↔ IsSome self.old.state }
        ensures same { self.new.state ≡ self.old.state }
        ensures bound { self.new.visits ≤ self.old.visits + 1 }
        ensures no_less { self.old.visits ≤ self.new.visits }
    {
        let Some(rows) = &mut self.rows else {
            return Err(Failed);
        };
        // Whatever happened, a client was told of the rights that it has.
        Ok(rows.rights_told(session, sid))
    }

    /// What a READ_NOTIFY would be answered now. The limit of reads that wait isn't part of it.
    pub fn read(
        &mut self,
        session: u32,
        sid: u32,
        dtype: u16,
        count: u32,
    ) -> Result<Reading, AskFault>
        ensures found { IfOk result (λ answer. Some answer ≡ option_map (λ w. reading w session sid dtype count) self.old.state) }
        ensures failed { IsErrOf result AskFault.Failed ↔ IsNone self.old.state }
        ensures same { self.new.state ≡ self.old.state }
        ensures no_less { self.old.visits ≤ self.new.visits }
    {
        let Some(rows) = &mut self.rows else {
            return Err(AskFault::Failed);
        };
        match rows.reading(session, sid, dtype, count) {
            Ok(answer) => Ok(answer),
            Err(_) => Err(AskFault::OutOfMemory),
        }
    }

    /// The names to ask servers for: wanted, without a link, by rising bytes, each once.
    pub fn asks(&mut self) -> Result<Vec<Name>, AskFault>
        ensures found { IfOk result (λ names. Some names.items ≡ option_map asks self.old.state) }
        ensures failed { IsErrOf result AskFault.Failed ↔ IsNone self.old.state }
        ensures same { self.new ≡ self.old }
    {
        match &self.rows {
            Some(rows) => match rows.known.asks() {
                Ok(names) => Ok(names),
                Err(_) => Err(AskFault::OutOfMemory),
            },
            None => Err(AskFault::Failed),
        }
    }

    /// Whether the name is one to ask servers for now: wanted, and without a link. It takes no memory.
    pub fn is_missing(&mut self, name: &Name) -> Result<bool, Failed>
        ensures found { IfOk result (λ answer. Some answer ≡ option_map (λ w. is_missing w name.now) self.old.state) }
        ensures failed { IsOk result ↔ IsSome self.old.state }
        ensures same { self.new ≡ self.old }
    {
        match &self.rows {
            Some(rows) => Ok(rows.known.is_missing(name)),
            None => Err(Failed),
        }
    }

    /// How many links a server has, none where there is no such server. It takes no memory.
    pub fn link_count_of(&mut self, server: u32) -> Result<usize, Failed>
        ensures found { IfOk result (λ answer. Some answer ≡ option_map (λ w. link_count_of w server) self.old.state) }
        ensures failed { IsOk result ↔ IsSome self.old.state }
        ensures same { self.new ≡ self.old }
    {
        match &self.rows {
            Some(rows) => Ok(rows.known.upstream.link_count_of(server)),
            None => Err(Failed),
        }
    }

    /// The number of the server on whose link the session's channel stands, nothing where there is no such
    /// channel. It takes no memory.
    pub fn server_of(&mut self, session: u32, sid: u32) -> Result<Option<u32>, Failed>
        ensures found { IfOk result (λ answer. Some answer ≡ option_map (λ w. server_of w session sid) self.old.state) }
        ensures failed { IsOk result ↔ IsSome self.old.state }
        ensures same { self.new.state ≡ self.old.state }
        ensures bound { self.new.visits ≤ self.old.visits + 1 }
        ensures no_less { self.old.visits ≤ self.new.visits }
    {
        let Some(rows) = &mut self.rows else {
            return Err(Failed);
        };
        Ok(rows.server_of(session, sid))
    }

    /// How often each limit was met since the start; none where a step was refused. No definition speaks of
    /// it: it is for whoever watches.
    pub fn limits_met(&self) -> LimitsMet {
        match &self.rows {
            Some(rows) => rows.known.limits_met(),
            None => LimitsMet::NONE,
        }
    }

    /// How many searches on connections had no answer when they came; none where a step was refused. No definition
    /// speaks of it: it is for whoever makes them again.
    pub fn unanswered_count(&self) -> u64 {
        match &self.rows {
            Some(rows) => rows.known.unanswered_count(),
            None => 0,
        }
    }

    /// The searches on connections that had no answer when they came, behind the first so many, as far as they are
    /// known; none where a step was refused. No definition speaks of it: it is for whoever makes them again.
    pub fn unanswered_since(&self, alloc: Global, seen: u64) -> Result<UnansweredSince, NoMemory> {
        match &self.rows {
            Some(rows) => rows.known.unanswered_since(alloc, seen),
            None => Ok(UnansweredSince::none(alloc)),
        }
    }

    /// The most that one client or server has now, in proportion to connections; nothing where a step was
    /// refused, or memory to look. No definition speaks of it: it is for whoever watches.
    pub fn fullest(&self) -> Fullest {
        match &self.rows {
            Some(rows) => rows.known.fullest(),
            None => Fullest::NONE,
        }
    }

    /// What a client's datagram from this host comes to: the names that it searches for, and the datagram
    /// to send back for those that lead to connected variables.
    pub fn search(&mut self, host: &Host, datagram: &[u8]) -> Result<SearchAnswer, AskFault>
        ensures found { IfOk result (λ answer. IfSome self.old.state (λ w. IsSearched w host.now datagram.now answer)) }
        ensures failed { IsErrOf result AskFault.Failed ↔ IsNone self.old.state }
        ensures same { self.new ≡ self.old }
    {
        let Some(rows) = &mut self.rows else {
            return Err(AskFault::Failed);
        };
        match search(&mut rows.known, host, datagram) {
            Ok(answer) => Ok(answer),
            Err(_) => Err(AskFault::OutOfMemory),
        }
    }
}

/// Gives up for good: a step was refused, and is half done. The number of looks is kept.
fn give_up(rows: &mut Option<CountedRows>, visited: &mut u64, refusal: RowsRefusal) -> StepFault
    ensures cause { result ≢ StepFault.Failed }
    ensures used_up { result ≡ StepFault.NumbersUsedUp ↔ refusal ≡ RowsRefusal.NumbersUsedUp }
    ensures out_of_memory { result ≡ StepFault.OutOfMemory ↔ refusal ≡ RowsRefusal.OutOfMemory }
    ensures failed { rows.new ≡ None }
    ensures kept { visited.new ≡ visits_of rows.old visited.old }
{
    if let Some(refused) = &*rows {
        *visited = refused.visits.visited();
    }
    *rows = None;
    match refusal {
        RowsRefusal::OutOfMemory => StepFault::OutOfMemory,
        RowsRefusal::NumbersUsedUp => StepFault::NumbersUsedUp,
    }
}
