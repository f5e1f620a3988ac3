//! The gateway, one event at a time.
//!
//! An `Engine` performs events, each an atomic step. What a step does is stated over the whole rows
//! of the gateway (`gateway_state`, `specs/`): the event's direct effect, and then the notices that
//! follow from it on channels, on links, on waiting reads and on subscriptions. `step`, `run` and
//! `drain` leave the state that those definitions make of the old one, or fail and leave the engine
//! failed for good; the questions answer the definition of their name and change nothing; `laws` says
//! what holds in every state that a run reaches.
//!
//! The layers below: the rows and what is asked of them (`gateway_rows`), and on those side by side
//! what a client's and a server's message does by itself (`direct_effect`), and
//! the notices (`consequences`).
#![tactic(auto)]

mod age;
mod connections;
mod engine;
mod gate;
pub mod laws;
mod orders;
mod search;
mod step;

pub use engine::Engine;
pub use fanout::Out;
pub use gateway_calls::{AskFault, Failed, NoMemory, StepFault};
pub use gateway_state::{
    Config, Dest, Event, Fullest, Limits, LimitsMet, Policy, Reading, RowCounts, Sub,
};
pub use pv_search::SearchAnswer;
