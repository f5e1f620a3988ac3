//! Tests of who waits at a gate, and what wakes it. No contract says either: a call that waits may wait for ever, and one
//! that tries again and again in its place answers the same. There is no code here but tests. They stand apart from
//! `board_tests`, so that both crates are proved at once.
//!
//! - `story`: what a story says, and `tells`, which serves two connections beside what is done, and
//!   asserts how all ended.
//! - `links`: links that wait for steps of a story; `movers`: the core, or who waits in its place.
//! - `steps`: what is done and looked at, one after the other; `calls`: the calls of the gate among it; `signs`: how far
//!   others come, and whether they sleep.
//! - `seats`, `cores`, `pauses`, `ends`: the stories; `messages`: what is said in them.
//!
//! A new test is a story more. Stories are data, told by one function: a function that owns a gate, rings and links is
//! dear to prove.
#![tactic(auto)]

#[cfg(test)]
mod calls;
#[cfg(test)]
mod cores;
#[cfg(test)]
mod ends;
#[cfg(test)]
mod links;
#[cfg(test)]
mod messages;
#[cfg(test)]
mod movers;
#[cfg(test)]
mod pauses;
#[cfg(test)]
mod seats;
#[cfg(test)]
mod signs;
#[cfg(test)]
mod steps;
#[cfg(test)]
mod story;
