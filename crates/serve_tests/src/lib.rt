//! Tests of what a serving gateway keeps beside its rows, and of what it says to name servers and hears of them. They stand
//! apart so that each crate they test is proved once, and not a second time with its tests.
//!
//! A test is a story, which is a text. Its lines are calls: one word for what is called, then numbers, and behind a colon a
//! text. Behind `> ` stands what a call answers; behind `>47 ` what it answers 47 times, with `; ` between lines. Lines that begin with `# ` are
//! titles, and at each nothing is kept, nobody is connected, and nothing was heard.
//!
//! The functions that make the calls return no error. What they tell would show one, and each way out of a function is dear
//! to prove.
//!
//! The calls are said in the files that make them: `asks`, `lates`, `lines`, `connections`, `reports`, `streams`. The files
//! named `.._stories` have the stories.
#![tactic(auto)]

#[cfg(test)]
mod ask_stories;
#[cfg(test)]
mod asks;
#[cfg(test)]
mod connection_stories;
#[cfg(test)]
mod connections;
#[cfg(test)]
mod late_stories;
#[cfg(test)]
mod lates;
#[cfg(test)]
mod line_stories;
#[cfg(test)]
mod lines;
#[cfg(test)]
mod report_stories;
#[cfg(test)]
mod reports;
#[cfg(test)]
mod stream_stories;
#[cfg(test)]
mod streams;
#[cfg(test)]
mod tell;
#[cfg(test)]
mod words;
