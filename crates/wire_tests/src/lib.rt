//! Tests of what stands on the wire: headers, streams, messages, search datagrams and when names are asked
//! for, DBR types, what is held of a variable, outboxes. They stand apart so that each crate they test is proved once, and not a second
//! time with its tests.
//!
//! A test is a story, which is a text. Its lines are calls: one word for what is called, then numbers,
//! and behind a colon bytes. Behind `> ` stands what a call answers; behind `>16 ` what it answers 16
//! times, with `; ` between lines. Lines that begin with `# ` are titles, and at each an empty intake,
//! outbox and schedule stand ready, no name waits, no server is known, and nothing is held. Bytes are hexadecimal digits with blanks between them, and
//! `00*24` is 24 times that. An answer of many bytes is told with the last ones in this form.
//!
//! The functions that make the calls return no error. What they tell would show one, and each way out
//! of a function is dear to prove.
//!
//! The calls are said in the files that make them: `headers`, `streams`, `messages`, `to_clients`,
//! `to_servers`, `searches`, `datagrams`, `schedules`, `newcomers`, `servers`, `layouts`,
//! `caches`, `outboxes`. The files named `.._stories` have the stories. In `crowds` calls are made one by one.
#![tactic(auto)]

#[cfg(test)]
mod cache_stories;
#[cfg(test)]
mod caches;
#[cfg(test)]
mod crowds;
#[cfg(test)]
mod datagram_stories;
#[cfg(test)]
mod datagrams;
#[cfg(test)]
mod header_stories;
#[cfg(test)]
mod headers;
#[cfg(test)]
mod held_stories;
#[cfg(test)]
mod layout_stories;
#[cfg(test)]
mod layouts;
#[cfg(test)]
mod message_stories;
#[cfg(test)]
mod messages;
#[cfg(test)]
mod newcomer_stories;
#[cfg(test)]
mod newcomers;
#[cfg(test)]
mod outbox_stories;
#[cfg(test)]
mod outboxes;
#[cfg(test)]
mod property_stories;
#[cfg(test)]
mod readings;
#[cfg(test)]
mod refusal_stories;
#[cfg(test)]
mod schedule_stories;
#[cfg(test)]
mod schedules;
#[cfg(test)]
mod search_stories;
#[cfg(test)]
mod searches;
#[cfg(test)]
mod sent_stories;
#[cfg(test)]
mod server_stories;
#[cfg(test)]
mod servers;
#[cfg(test)]
mod streams;
#[cfg(test)]
mod tell;
#[cfg(test)]
mod telling_stories;
#[cfg(test)]
mod to_clients;
#[cfg(test)]
mod to_servers;
#[cfg(test)]
mod type_stories;
#[cfg(test)]
mod words;
