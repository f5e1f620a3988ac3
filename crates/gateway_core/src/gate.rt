//! The engine is a gateway.

use crate::engine::Engine;
use fanout::Out;
use gateway_calls::{AskFault, Failed, GatewayCalls, NoMemory, StepFault};
use gateway_state::{
    Config, Dest, Event, Fullest, Limits, LimitsMet, Policy, Reading, RowCounts, Sub,
    UnansweredSince,
};
use pv_name::{Host, Name};
use pv_search::SearchAnswer;
use std::alloc::Global;

impl GatewayCalls for Engine {
    ghost state = { λ engine. engine.state };

    fn new(alloc: Global, config: Config, policy: Policy) -> Result<Engine, NoMemory> {
        Engine::new(alloc, config, policy)
    }

    fn step(&mut self, event: Event) -> Result<(), StepFault> {
        Engine::step(self, event)
    }

    fn run(&mut self, events: Vec<Event>) -> Result<(), StepFault> {
        Engine::run(self, events)
    }

    fn drain(&mut self, dest: Dest, count: usize) -> Result<Vec<Out>, StepFault> {
        Engine::drain(self, dest, count)
    }

    fn is_open(&mut self, dest: Dest) -> Result<bool, Failed> {
        Engine::is_open(self, dest)
    }

    fn must_end(&mut self, dest: Dest) -> Result<bool, Failed> {
        Engine::must_end(self, dest)
    }

    fn queued(&mut self, dest: Dest) -> Result<usize, Failed> {
        Engine::queued(self, dest)
    }

    fn queued_bytes(&mut self, dest: Dest) -> Result<u64, Failed> {
        Engine::queued_bytes(self, dest)
    }

    fn row_counts(&mut self) -> Result<RowCounts, Failed> {
        Engine::row_counts(self)
    }

    fn limits(&mut self) -> Result<Limits, Failed> {
        Engine::limits(self)
    }

    fn subscription(&mut self, name: &Name) -> Result<Option<Sub>, Failed> {
        Engine::subscription(self, name)
    }

    fn property_subscription(&mut self, name: &Name) -> Result<Option<u32>, Failed> {
        Engine::property_subscription(self, name)
    }

    fn rights(&mut self, session: u32, sid: u32) -> Result<Option<u32>, Failed> {
        Engine::rights(self, session, sid)
    }

    fn read(
        &mut self,
        session: u32,
        sid: u32,
        dtype: u16,
        count: u32,
    ) -> Result<Reading, AskFault> {
        Engine::read(self, session, sid, dtype, count)
    }

    fn asks(&mut self) -> Result<Vec<Name>, AskFault> {
        Engine::asks(self)
    }

    fn is_missing(&mut self, name: &Name) -> Result<bool, Failed> {
        Engine::is_missing(self, name)
    }

    fn link_count_of(&mut self, server: u32) -> Result<usize, Failed> {
        Engine::link_count_of(self, server)
    }

    fn server_of(&mut self, session: u32, sid: u32) -> Result<Option<u32>, Failed> {
        Engine::server_of(self, session, sid)
    }

    fn limits_met(&self) -> LimitsMet {
        Engine::limits_met(self)
    }

    fn unanswered_count(&self) -> u64 {
        Engine::unanswered_count(self)
    }

    fn unanswered_since(&self, alloc: Global, seen: u64) -> Result<UnansweredSince, NoMemory> {
        Engine::unanswered_since(self, alloc, seen)
    }

    fn fullest(&self) -> Fullest {
        Engine::fullest(self)
    }

    fn search(&mut self, host: &Host, datagram: &[u8]) -> Result<SearchAnswer, AskFault> {
        Engine::search(self, host, datagram)
    }
}
