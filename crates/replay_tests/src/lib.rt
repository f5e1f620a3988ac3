//! Tests of replays; worked runs are in `story_tests`. There is no code here but tests. They stand apart so
//! that each crate they test is proved once, and together, since a crate of tests over the whole gateway
//! costs minutes before its first test is proved.
//!
//! - `scripts`: which lines a script has, what is printed, streams that fail, and numbers that are used
//!   up.
//! - `same_answers`: lists of events that are drawn and told to both gateways, which have to print the
//!   same.
//!
//! The first lines of each folder's `mod.rt` say how a test is added there.
#![tactic(auto)]

#[cfg(test)]
mod same_answers;
#[cfg(test)]
mod scripts;
