//! What a gateway can be called for, whichever body it has.
//!
//! [`GatewayCalls`] has the calls of a gateway, each with what it does to the gateway's state as the
//! definitions of `gateway_state` say it. `gateway_core::Engine` and `plain_gate::PlainGate` are
//! gates; what stands on a gate, as a player of scripts, runs on either.
//!
//! ```rust
//! fn greet<G: GatewayCalls>(gate: &mut G, host: Host) -> Result<Vec<Out>, StepFault> {
//!     gate.step(Event::Opened(1, host))?;
//!     gate.drain(Dest::Session(1), 1)
//! }
//! ```
#![tactic(auto)]

mod calls;
mod fault;

pub use calls::GatewayCalls;
pub use fault::{AskFault, Failed, StepFault};

/// Want of memory, of a call that fails for nothing else.
pub type NoMemory = std::alloc::AllocError;
