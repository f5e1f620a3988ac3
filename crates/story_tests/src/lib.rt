//! Worked runs of scripts, told to both gateways. There is no code here but tests. They stand apart from
//! `replay_tests`, so that both crates are proved at once.
//!
//! The first lines of `stories/mod.rt` say what a story is, and so how one is added.
#![tactic(auto)]

#[cfg(test)]
mod stories;
