//! The calls of a gateway.
ghost use Rattle.std.specs.Prelude.{◌≡◌, ◌≤◌, ◌<◌, ◌↔◌, Option, Some, IsSome, IsNone, true, false, OnOk, OnErr, IfOk, IfSome, IsErrOf, IsOk, None};
ghost use Rattle.std.specs.Option.{option_map};
ghost use Rattle.gateway_state.specs.Gateway.{Gateway, initial};
ghost use Rattle.gateway_state.specs.declared.config.TheConstants.{LAST_FIRST};
ghost use Rattle.gateway_state.specs.Numbers.{is_past_numbers, runs_out};
ghost use Rattle.gateway_state.specs.Step.{step, run, taken};
ghost use Rattle.gateway_state.specs.Answer.{reading};
ghost use Rattle.gateway_state.specs.Asked.{is_open, must_end, queued, queued_bytes};
ghost use Rattle.gateway_state.specs.Serving.{server_of};
ghost use Rattle.gateway_state.specs.Interest.{property_subscription_of, subscription_of};
ghost use Rattle.gateway_state.specs.Rights.{rights_asked};
ghost use Rattle.gateway_state.specs.Variables.{asks, is_missing};
ghost use Rattle.gateway_state.specs.RowCounts.{row_counts};
ghost use Rattle.gateway_calls.specs.Counting.{link_count_of};
ghost use Rattle.gateway_calls.specs.Searching.{IsSearched};

use crate::NoMemory;
use crate::fault::{AskFault, Failed, StepFault};
use fanout::Out;
use gateway_state::{
    Config, Dest, Event, Fullest, Limits, LimitsMet, Policy, Reading, RowCounts, Sub,
    UnansweredSince,
};
use pv_name::{Host, Name};
use pv_search::SearchAnswer;
use std::alloc::Global;

/// A gateway, one event at a time. A refused step leaves it failed for good.
pub trait GatewayCalls {
    /// Its state, none once it failed.
    ghost state: { Self → Option Gateway };

    /// A gateway to which nothing happened yet.
    fn new(alloc: Global, config: Config, policy: Policy) -> Result<Self, NoMemory>
        requires lowest { 0 < config.first }
        requires highest { config.first ≤ LAST_FIRST }
        ensures { IfOk result (λ gate. state gate ≡ Some (initial config policy)) };

    /// Performs one event.
    fn step(&mut self, event: Event) -> Result<(), StepFault>
        ensures ok { OnOk result (state self.new ≡ option_map (λ w. step w event) (state self.old)) }
        ensures used_up { IsErrOf result StepFault.NumbersUsedUp → option_map (λ w. is_past_numbers (step w event)) (state self.old) ≡ Some true }
        ensures in_range { OnOk result (option_map (λ w. is_past_numbers (step w event)) (state self.old) ≡ Some false) }
        ensures failed { IsErrOf result StepFault.Failed ↔ IsNone (state self.old) }
        ensures err { OnErr result (state self.new ≡ None) };

    /// Performs events in order, up to the first that is refused.
    fn run(&mut self, events: Vec<Event>) -> Result<(), StepFault>
        ensures ok { OnOk result (state self.new ≡ option_map (λ w. run w events.items) (state self.old)) }
        ensures used_up { IsErrOf result StepFault.NumbersUsedUp → option_map (λ w. runs_out w events.items) (state self.old) ≡ Some true }
        ensures in_range { OnOk result (option_map (λ w. runs_out w events.items) (state self.old) ≡ Some false) }
        ensures failed { IsErrOf result StepFault.Failed ↔ IsNone (state self.old) }
        ensures err { OnErr result (state self.new ≡ None) };

    /// Takes the first `count` messages of an outbox, or all, and hands them out in order.
    fn drain(&mut self, dest: Dest, count: usize) -> Result<Vec<Out>, StepFault>
        ensures ok { OnOk result (state self.new ≡ option_map (λ w. step w (Event.Drain dest count)) (state self.old)) }
        ensures used_up { IsErrOf result StepFault.NumbersUsedUp → option_map (λ w. is_past_numbers (step w (Event.Drain dest count))) (state self.old) ≡ Some true }
        ensures in_range { OnOk result (option_map (λ w. is_past_numbers (step w (Event.Drain dest count))) (state self.old) ≡ Some false) }
        ensures found { IfOk result (λ outs. Some outs.items ≡ option_map (λ w. taken w (Event.Drain dest count) dest) (state self.old)) }
        ensures failed { IsErrOf result StepFault.Failed ↔ IsNone (state self.old) }
        ensures err { OnErr result (state self.new ≡ None) };

    /// Whether the connection stands.
    fn is_open(&mut self, dest: Dest) -> Result<bool, Failed>
        ensures found { IfOk result (λ answer. Some answer ≡ option_map (λ w. is_open w dest) (state self.old)) }
        ensures failed { IsOk result ↔ IsSome (state self.old) }
        ensures same { state self.new ≡ state self.old };

    /// Whether the connection stands and must end.
    fn must_end(&mut self, dest: Dest) -> Result<bool, Failed>
        ensures found { IfOk result (λ answer. Some answer ≡ option_map (λ w. must_end w dest) (state self.old)) }
        ensures failed { IsOk result ↔ IsSome (state self.old) }
        ensures same { state self.new ≡ state self.old };

    /// How many messages wait for the connection, 0 where it doesn't stand.
    fn queued(&mut self, dest: Dest) -> Result<usize, Failed>
        ensures found { IfOk result (λ answer. Some answer ≡ option_map (λ w. queued w dest) (state self.old)) }
        ensures failed { IsOk result ↔ IsSome (state self.old) }
        ensures same { state self.new ≡ state self.old };

    /// How many bytes wait for the connection, 0 where it doesn't stand, and at most the type's last value.
    fn queued_bytes(&mut self, dest: Dest) -> Result<u64, Failed>
        ensures found { IfOk result (λ answer. Some answer ≡ option_map (λ w. queued_bytes w dest) (state self.old)) }
        ensures failed { IsOk result ↔ IsSome (state self.old) }
        ensures same { state self.new ≡ state self.old };

    /// How many rows of each kind there are.
    fn row_counts(&mut self) -> Result<RowCounts, Failed>
        ensures found { IfOk result (λ counts. Some counts ≡ option_map row_counts (state self.old)) }
        ensures failed { IsOk result ↔ IsSome (state self.old) }
        ensures same { state self.new ≡ state self.old };

    /// The limits that hold.
    fn limits(&mut self) -> Result<Limits, Failed>
        ensures found { IfOk result (λ answer. Some answer ≡ option_map (λ w. w.limits) (state self.old)) }
        ensures failed { IsOk result ↔ IsSome (state self.old) }
        ensures same { state self.new ≡ state self.old };

    /// The present subscription of a variable upstream, nothing where there is none.
    fn subscription(&mut self, name: &Name) -> Result<Option<Sub>, Failed>
        ensures found { IfOk result (λ answer. Some answer ≡ option_map (λ w. subscription_of w name.now) (state self.old)) }
        ensures failed { IsOk result ↔ IsSome (state self.old) }
        ensures same { state self.new ≡ state self.old };

    /// The ID of the present subscription to a variable's properties, nothing where there is none.
    fn property_subscription(&mut self, name: &Name) -> Result<Option<u32>, Failed>
        ensures found { IfOk result (λ answer. Some answer ≡ option_map (λ w. property_subscription_of w name.now) (state self.old)) }
        ensures failed { IsOk result ↔ IsSome (state self.old) }
        ensures same { state self.new ≡ state self.old };

    /// What a client may do with its channel (1: read, 2: write), nothing where it has no such channel.
    fn rights(&mut self, session: u32, sid: u32) -> Result<Option<u32>, Failed>
        ensures found { IfOk result (λ answer. Some answer ≡ option_map (λ w. rights_asked w session sid) (state self.old)) }
        ensures failed { IsOk result ↔ IsSome (state self.old) }
        ensures same { state self.new ≡ state self.old };

    /// What a READ_NOTIFY would be answered now. The limit of reads that wait isn't part of it.
    fn read(&mut self, session: u32, sid: u32, dtype: u16, count: u32) -> Result<Reading, AskFault>
        ensures found { IfOk result (λ answer. Some answer ≡ option_map (λ w. reading w session sid dtype count) (state self.old)) }
        ensures failed { IsErrOf result AskFault.Failed ↔ IsNone (state self.old) }
        ensures same { state self.new ≡ state self.old };

    /// The names to ask servers for: wanted, without a link, by rising bytes, each once.
    fn asks(&mut self) -> Result<Vec<Name>, AskFault>
        ensures found { IfOk result (λ names. Some names.items ≡ option_map asks (state self.old)) }
        ensures failed { IsErrOf result AskFault.Failed ↔ IsNone (state self.old) }
        ensures same { state self.new ≡ state self.old };

    /// Whether the name is one to ask servers for now: wanted, and without a link.
    fn is_missing(&mut self, name: &Name) -> Result<bool, Failed>
        ensures found { IfOk result (λ answer. Some answer ≡ option_map (λ w. is_missing w name.now) (state self.old)) }
        ensures failed { IsOk result ↔ IsSome (state self.old) }
        ensures same { state self.new ≡ state self.old };

    /// How many links a server has, none where there is no such server.
    fn link_count_of(&mut self, server: u32) -> Result<usize, Failed>
        ensures found { IfOk result (λ answer. Some answer ≡ option_map (λ w. link_count_of w server) (state self.old)) }
        ensures failed { IsOk result ↔ IsSome (state self.old) }
        ensures same { state self.new ≡ state self.old };

    /// The number of the server on whose link the session's channel stands, nothing where there is no such
    /// channel.
    fn server_of(&mut self, session: u32, sid: u32) -> Result<Option<u32>, Failed>
        ensures found { IfOk result (λ answer. Some answer ≡ option_map (λ w. server_of w session sid) (state self.old)) }
        ensures failed { IsOk result ↔ IsSome (state self.old) }
        ensures same { state self.new ≡ state self.old };

    /// What a client's datagram from this host comes to: the names that it searches for, and the datagram
    /// to send back for those that lead to connected variables.
    fn search(&mut self, host: &Host, datagram: &[u8]) -> Result<SearchAnswer, AskFault>
        ensures found { IfOk result (λ answer. IfSome (state self.old) (λ w. IsSearched w host.now datagram.now answer)) }
        ensures failed { IsErrOf result AskFault.Failed ↔ IsNone (state self.old) }
        ensures same { state self.new ≡ state self.old };

    /// How often limits were met since the start. No definition speaks of it: it is for whoever watches.
    fn limits_met(&self) -> LimitsMet {
        LimitsMet::NONE
    }

    /// How many searches on connections had no answer when they came. No definition speaks of it: it is for whoever
    /// makes them again.
    fn unanswered_count(&self) -> u64 {
        0
    }

    /// The searches on connections that had no answer when they came, behind the first so many, as far as they are
    /// known. No definition speaks of it: it is for whoever makes them again.
    fn unanswered_since(&self, alloc: Global, _seen: u64) -> Result<UnansweredSince, NoMemory> {
        Ok(UnansweredSince::none(alloc))
    }

    /// The most that one client or server has now. No definition speaks of it: it is for whoever watches.
    fn fullest(&self) -> Fullest {
        Fullest::NONE
    }
}
