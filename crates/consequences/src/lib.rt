//! What others are owed after an event.
//!
//! `tell_consequences` takes the rows of the gateway and what the event touched (`touched_rows`), and leaves the
//! rows that `consequences_of` makes of the old ones. Where anything may have been touched it tells all in
//! passes, over channels (`channels_told`), updates that are withheld from now on (`updates_withheld`),
//! links (`links_told`), reads that wait (`reads_told`) and updates that are due (`updates_told`). Each
//! pass makes its list of notices from the rows as it begins, and then gives them one by one; but an update
//! that is due is worked out when its turn comes, so that no more is laid out than outboxes take. Else the
//! same is done for one variable, session, read or subscription alone, or for the links of several
//! variables, by the rights that clients were last told (`IsReady`); or the channels on several variables
//! are gone (`gone`). A read that was touched isn't kept yet, and is only if it has to wait. So it is with an
//! update: `walk` tells whom it concerns, and notes only of those who have to wait that they are owed it. A
//! refusal leaves the rows half done; it says that numbers are used up only where a number past the last one
//! would be given out.
#![tactic(auto)]

mod channels;
mod giving;
mod gone;
mod links;
mod met;
mod reads;
mod sharing;
mod source;
mod telling;
mod updates;
mod walk;

pub use telling::tell_consequences;
