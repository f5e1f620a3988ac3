//! Tests of boards, and of the workers of connections. There is no code here but tests. They stand apart
//! from `replay_tests`, so that both crates are proved at once, and these while the bodies of scripts are
//! still being proved.
//!
//! - `boards`: stories of a board with its rings, and a reader's worker before the core comes.
//! - `workers`: the workers of connections, the core and the gate between them, in threads where it
//!   matters.
//!
//! The first lines of each folder's `mod.rt` say how a test is added there.
#![tactic(auto)]

#[cfg(test)]
mod boards;
#[cfg(test)]
mod workers;
