//! Tests of names, of rule files and of access security files, from the words of a line to what a
//! policy answers. They stand apart so that each crate they test is proved once, and not a second time
//! with its tests.
//!
//! A test is a story, which is a text. Its lines are calls, each with one word for what is called and
//! then a text, and behind `> ` stands what a call answers. A line `| TEXT` is a line of the next
//! call's text, before what stands in that call's own line. Lines that begin with `# ` are titles, and
//! at each a policy that is open to all stands ready. From the call `plain` on, up to the next title,
//! patterns are of the plain syntax, and elsewhere of the escaped one. `«0d»` is the character with
//! this number, and `«63*x¶»` is 63 times that, each with the end of a line; so it is in answers, too. In
//! `«3*a№»` the sign № is 1, 2 and 3.
//!
//! The calls are said in the files that make them: `names`, `files`, `leads`, `policies`, `access`,
//! which has its stories too. The files named `.._stories` have the others.
#![tactic(auto)]

#[cfg(test)]
mod access;
#[cfg(test)]
mod access_stories;
#[cfg(test)]
mod clearance_stories;
#[cfg(test)]
mod file_stories;
#[cfg(test)]
mod files;
#[cfg(test)]
mod lead_stories;
#[cfg(test)]
mod leads;
#[cfg(test)]
mod name_stories;
#[cfg(test)]
mod names;
#[cfg(test)]
mod note_stories;
#[cfg(test)]
mod pattern_stories;
#[cfg(test)]
mod plain_stories;
#[cfg(test)]
mod policies;
#[cfg(test)]
mod policy_stories;
#[cfg(test)]
mod site;
#[cfg(test)]
mod tell;
#[cfg(test)]
mod words;
