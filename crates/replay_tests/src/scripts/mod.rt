//! Tests of scripts: which lines there are, what is printed, and how a replay ends where a stream fails.
//!
//! Lines are told as tables of lines (`lines`), streams as tables of streams (`streams`), and used up
//! numbers, and those that come again, as stories of gateways that have few (`used_up`, `again`); so are limits that
//! hold from the start (`limited`). How often rows are looked at is told of an engine (`learning`), and which searches
//! on connections wait for an answer (`seeking`). Worked runs are in `story_tests`.

mod again;
mod engine;
mod learning;
mod limited;
mod lines;
mod output;
mod seeking;
mod streams;
mod typing;
mod used_up;
