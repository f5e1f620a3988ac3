//! Rule files and group files of the EPICS PV Gateway (user's guide, PVLIST).
//!
//! A rule file says which names a client may ask for, what they lead to and by which group. A
//! group file says what a group may do. Each is read whole, from its text:
//!
//! ```text
//! let rules = Rules::read(alloc, "T.* ALLOW\nS\\(.\\) ALIAS T\\1 ops\nS9 DENY FROM lab7")?;
//! let groups = Groups::read(alloc, "ops READ")?;
//! rules.rows()[0].pattern.regex().as_str() // "^(?:T.*)$", a row that allows
//! groups.rights(&Group::read(alloc, b"ops")?)  // Some(1)
//! Rules::read(alloc, "T1 PERMIT").err()   // Some(RuleFault::At(1, RuleCause::NoVerb))
//! ```
//!
//! The pattern of a row is read as a regular expression after a translation, and matches whole
//! names. It writes groups after backslashes, as above, or without them where the file is read by
//! `Rules::read_as` in the plain syntax; `first_bare_group` finds rows that may be meant so. A fault
//! names the first line that has one and the first cause that applies to it. What lines say is in
//! `specs/RuleLine.antt` and `specs/GroupFile.antt`, what files say in `specs/RuleFile.antt`, how
//! patterns are translated in `specs/Translation.antt`, and how faults are told in
//! `specs/Cause.antt`.
#![tactic(auto)]

mod bare_groups;
mod bracket;
mod clues;
mod compiled;
mod fault;
mod group_line;
mod group_word;
mod groups;
mod host_words;
mod hosts;
mod keyword;
pub mod laws;
mod line;
mod pattern;
mod real_text;
mod row;
mod rules;
mod syntax;
mod translation;
mod words;
mod writing;

pub use bare_groups::first_bare_group;
pub use fault::{RuleCause, RuleFault, TranslateFault};
pub use groups::{GroupRight, Groups};
pub use hosts::Hosts;
pub use line::{LINE_LIMIT, ROW_LIMIT};
pub use pattern::Pattern;
pub use real_text::RealText;
pub use row::{Row, Security, Verb};
pub use rules::{Order, Rules};
pub use syntax::Syntax;
pub use translation::{translate, translate_as};
