//! Stories of a board, and a reader's worker with and without the core.
//!
//! `tell` says what a story's lines are. `core_alone` has the test that isn't a story: what a worker hands
//! over waits until the gate's turns perform it; `refused` the one of a board that is refused memory.

mod core_alone;
mod held;
mod refused;
mod stories;
mod tell;
pub(crate) mod told;
