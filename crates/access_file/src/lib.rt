//! Access security files of EPICS: who may read and write the variables of which group.
//!
//! A file lists users (UAG) and hosts (HAG), and gives each access security group (ASG) its rules,
//! which speak of them:
//!
//! ```text
//! UAG(ops) {anna, ben}
//! ASG(DEFAULT) { RULE(1, READ) RULE(1, WRITE, TRAPWRITE) {UAG(ops)} }
//! ```
//!
//! [`Access::read`] reads a file whole, and of a faulty one tells the first fault with its line.
//! [`Access::grant`] says what a user on a host may do: the greatest right that a rule of the group
//! gives, and whether writes by it are to be recorded. [`Access::grant_known`] says the same of a host that has
//! names ([`HostNames`]): a rule that speaks to any of them speaks to it.
//!
//! What a file is, is in `specs/`: its tokens in `Tokens.antt`, what each may be followed by in
//! `Grammar.antt`, the file and its lines in `File.antt`; what is granted in `Groups.antt`.
#![tactic(auto)]

mod access;
mod by_name;
mod bytes;
mod fault;
mod folded;
mod host_names;
mod keyword;
pub mod laws;
mod names;
mod naming;
mod place;
mod reader;
mod reading;
mod rule;
mod signs;

pub use access::{Access, DEFAULT_GROUP};
pub use fault::{AccessCause, AccessFault};
pub use host_names::{HostName, HostNames};
pub use reader::{GROUPS_LIMIT, NAMES_LIMIT, RULES_LIMIT};
pub use rule::{Grant, Level, Right};
