//! What an event touches.
use crate::concern::Concern;
use crate::names::TouchedNames;
use channel_table::{ClientSub, WaitingRead};
use pv_name::Name;

/// What others may be owed after an event's direct effect, where nobody was owed anything before it.
#[derive(Drop)]
pub enum Touched {
    /// Anything, to anybody.
    All,
    /// Nothing.
    Nothing,
    /// Updates to the subscriptions of this session, which may have room for them now.
    Session(u32),
    /// Anything, to those who use this variable, whose link may be gone or have other rights: that their
    /// channels are gone or what they may do with them, and what follows from that.
    Variable(Name),
    /// Answers to the reads that wait for this variable, and updates to those of its subscriptions whom
    /// this says. They aren't owed them yet.
    Value(Name, Concern),
    /// What the readers of this variable want together, to its server.
    Interest(Name),
    /// The same, or that the variable isn't wanted any more.
    Link(Name),
    /// The same of each of these variables, in the order of their links.
    Links(TouchedNames),
    /// That their channels are gone, to those who have channels on these variables, whose links are gone.
    Gone(TouchedNames),
    /// What the readers of this variable want together, and then the answer to this read. It isn't kept
    /// yet, and is only if it has to wait.
    Read(Name, WaitingRead),
    /// What the readers of this variable want together, and then an update to this subscription.
    Subscription(Name, ClientSub),
}
