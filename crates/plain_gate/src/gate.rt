//! The plain gateway: the rows, until a step is refused.
ghost use Rattle.std.specs.Prelude.{◌≡◌, ◌≢◌, ◌≤◌, ◌<◌, ◌↔◌, Some, None, IsSome, IsNone, true, false, OnOk, OnErr, IfOk, IfSome, IsErrOf, IsOk};
ghost use Rattle.std.specs.Option.{option_map};
ghost use Rattle.gateway_state.specs.Gateway.{initial};
ghost use Rattle.gateway_state.specs.declared.config.TheConstants.{LAST_FIRST};
ghost use Rattle.gateway_state.specs.Numbers.{is_past_numbers, runs_out};
ghost use Rattle.gateway_state.specs.Step.{step, run, taken};
ghost use Rattle.gateway_state.specs.Answer.{reading};
ghost use Rattle.gateway_state.specs.Asked.{is_open, must_end, queued, queued_bytes};
ghost use Rattle.gateway_state.specs.Interest.{property_subscription_of, subscription_of};
ghost use Rattle.gateway_state.specs.Rights.{rights_asked};
ghost use Rattle.gateway_state.specs.Variables.{asks};
ghost use Rattle.gateway_calls.specs.Searching.{IsSearched};

use crate::step::{drain, step};
use fanout::Out;
use gateway_calls::{AskFault, Failed, GatewayCalls, NoMemory, StepFault};
use gateway_state::{Config, Dest, Event, Limits, Policy, Reading, RowCounts, Sub};
use link_table::Subject;
use plain_rows::numbers::PlainRefusal;
use plain_rows::state::PlainRows;
use pv_name::{Host, Name};
use pv_search::{SearchAnswer, answer};
use std::alloc::{AllocError, Global};
use std::collections::VecDeque;
use std::marker::Model;

/// The gateway over plain lists, one event at a time. A refused step leaves it failed for good.
#[derive(Drop)]
pub struct PlainGate {
    rows: Option<PlainRows>,
}

impl Model for PlainGate {
    ghost use Rattle.std.specs.Prelude.{Option};
    ghost use Rattle.gateway_state.specs.Gateway.{Gateway};
    ghost use Rattle.rule_desk.specs.contracts.policy.Policy as the_policy;
    ghost use Rattle.std.specs.Coded.{codes};

    ghost Value = { Option Gateway };

    ghost coded = { Prim.hlevel (codes, the_policy.the_row.coded) };

    ghost view = { λ e. e.rows };

    ghost use Rattle.std.specs.Option.{ForSome};
    ghost use Rattle.gateway_state.specs.Reached.{IsReached};

    // Whatever happened, the rows are those that a run of events reaches.
    ghost invariant = { λ e. ForSome e.rows IsReached };
}

impl PlainGate {
    /// A gateway to which nothing happened yet.
    pub fn new(alloc: Global, config: Config, policy: Policy) -> Result<PlainGate, NoMemory>
        requires lowest { 0 < config.first }
        requires highest { config.first ≤ LAST_FIRST }
        ensures { IfOk result (λ gate. gate ≡ Some (initial config policy)) }
    {
        Ok(PlainGate {
            rows: Some(PlainRows::new(alloc, config, policy)),
        })
    }

    /// The same, where these limits hold from the start.
    pub fn with_limits(
        alloc: Global,
        config: Config,
        policy: Policy,
        limits: Limits,
    ) -> Result<PlainGate, NoMemory>
        requires lowest { 0 < config.first }
        requires highest { config.first ≤ LAST_FIRST }
        ensures { IfOk result (λ gate. gate ≡ Some (step (initial config policy) (Event.Limit limits))) }
    {
        let mut rows = PlainRows::new(alloc, config, policy);
        match step(&mut rows, Event::Limit(limits)) {
            Ok(()) => Ok(PlainGate { rows: Some(rows) }),
            Err(_) => Err(AllocError),
        }
    }
}

impl GatewayCalls for PlainGate {
    ghost state = { λ gate. gate };

    fn new(alloc: Global, config: Config, policy: Policy) -> Result<PlainGate, NoMemory> {
        PlainGate::new(alloc, config, policy)
    }

    fn step(&mut self, event: Event) -> Result<(), StepFault> {
        let Some(rows) = &mut self.rows else {
            return Err(StepFault::Failed);
        };
        match step(rows, event) {
            Ok(()) => Ok(()),
            Err(refusal) => Err(give_up(&mut self.rows, refusal)),
        }
    }

    #[tactic(auto, unfolding(gateway_state::specs::Step::run, gateway_state::specs::Numbers::runs_out))]
    fn run(&mut self, events: Vec<Event>) -> Result<(), StepFault> {
        if self.rows.is_none() {
            return Err(StepFault::Failed);
        }
        let mut left = VecDeque::from(events);
        while let Some(event) = left.pop_front() {
            self.step(event)?;
        }
        Ok(())
    }

    fn drain(&mut self, dest: Dest, count: usize) -> Result<Vec<Out>, StepFault> {
        let Some(rows) = &mut self.rows else {
            return Err(StepFault::Failed);
        };
        match drain(rows, dest, count) {
            Ok(outs) => Ok(outs),
            Err(refusal) => Err(give_up(&mut self.rows, refusal)),
        }
    }

    fn is_open(&mut self, dest: Dest) -> Result<bool, Failed> {
        match &self.rows {
            Some(rows) => Ok(rows.is_open(dest)),
            None => Err(Failed),
        }
    }

    fn must_end(&mut self, dest: Dest) -> Result<bool, Failed> {
        match &self.rows {
            Some(rows) => Ok(rows.must_end(dest)),
            None => Err(Failed),
        }
    }

    fn queued(&mut self, dest: Dest) -> Result<usize, Failed> {
        match &self.rows {
            Some(rows) => Ok(rows.queued(dest)),
            None => Err(Failed),
        }
    }

    fn queued_bytes(&mut self, dest: Dest) -> Result<u64, Failed> {
        match &self.rows {
            Some(rows) => Ok(rows.queued_bytes(dest)),
            None => Err(Failed),
        }
    }

    fn row_counts(&mut self) -> Result<RowCounts, Failed> {
        match &self.rows {
            Some(rows) => Ok(rows.row_counts()),
            None => Err(Failed),
        }
    }

    fn limits(&mut self) -> Result<Limits, Failed> {
        match &self.rows {
            Some(rows) => Ok(rows.limits),
            None => Err(Failed),
        }
    }

    fn subscription(&mut self, name: &Name) -> Result<Option<Sub>, Failed> {
        match &self.rows {
            Some(rows) => Ok(rows.subscription_to(Subject::Values, name)),
            None => Err(Failed),
        }
    }

    fn property_subscription(&mut self, name: &Name) -> Result<Option<u32>, Failed> {
        let Some(rows) = &self.rows else {
            return Err(Failed);
        };
        match rows.subscription_to(Subject::Properties, name) {
            Some(sub) => Ok(Some(sub.id)),
            None => Ok(None),
        }
    }

    fn rights(&mut self, session: u32, sid: u32) -> Result<Option<u32>, Failed> {
        let Some(rows) = &self.rows else {
            return Err(Failed);
        };
        // Whatever happened, a client was told of the rights that it has.
        Ok(rows.rights_told(session, sid))
    }

    fn read(
        &mut self,
        session: u32,
        sid: u32,
        dtype: u16,
        count: u32,
    ) -> Result<Reading, AskFault> {
        match &self.rows {
            Some(rows) => match rows.reading(session, sid, dtype, count) {
                Ok(answer) => Ok(answer),
                Err(_) => Err(AskFault::OutOfMemory),
            },
            None => Err(AskFault::Failed),
        }
    }

    fn asks(&mut self) -> Result<Vec<Name>, AskFault> {
        match &self.rows {
            Some(rows) => match rows.asks() {
                Ok(names) => Ok(names),
                Err(_) => Err(AskFault::OutOfMemory),
            },
            None => Err(AskFault::Failed),
        }
    }

    fn is_missing(&mut self, name: &Name) -> Result<bool, Failed> {
        match &self.rows {
            Some(rows) => Ok(rows.is_missing(name)),
            None => Err(Failed),
        }
    }

    fn link_count_of(&mut self, server: u32) -> Result<usize, Failed> {
        match &self.rows {
            Some(rows) => Ok(rows.link_count_of(server)),
            None => Err(Failed),
        }
    }

    fn server_of(&mut self, session: u32, sid: u32) -> Result<Option<u32>, Failed> {
        match &self.rows {
            Some(rows) => Ok(rows.server_of(session, sid)),
            None => Err(Failed),
        }
    }

    fn search(&mut self, host: &Host, datagram: &[u8]) -> Result<SearchAnswer, AskFault> {
        match &self.rows {
            Some(rows) => match search(rows, host, datagram) {
                Ok(answer) => Ok(answer),
                Err(_) => Err(AskFault::OutOfMemory),
            },
            None => Err(AskFault::Failed),
        }
    }
}

/// What a host's datagram comes to: those names pass that lead to connected variables.
fn search(rows: &PlainRows, host: &Host, datagram: &[u8]) -> Result<SearchAnswer, AllocError>
    ensures { IfOk result (λ answer. IsSearched rows.now host.now datagram.now answer) }
{
    let is_found = |name: &Name| rows.is_found(host, name);
    let found = answer(rows.alloc, datagram, rows.config.port, is_found)?;
    Ok(found)
}

/// Gives up for good: a step was refused, and is half done.
fn give_up(rows: &mut Option<PlainRows>, refusal: PlainRefusal) -> StepFault
    ensures cause { result ≢ StepFault.Failed }
    ensures used_up { result ≡ StepFault.NumbersUsedUp ↔ refusal ≡ PlainRefusal.NumbersUsedUp }
    ensures out_of_memory { result ≡ StepFault.OutOfMemory ↔ refusal ≡ PlainRefusal.OutOfMemory }
    ensures failed { rows.new ≡ None }
{
    *rows = None;
    match refusal {
        PlainRefusal::OutOfMemory => StepFault::OutOfMemory,
        PlainRefusal::NumbersUsedUp => StepFault::NumbersUsedUp,
    }
}
