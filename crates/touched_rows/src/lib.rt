//! What an event touches: where nobody was owed anything before it, what follows from it is told on
//! one variable, or on the links of several, or to one session, or is nothing at all.
//!
//! `Touched` names what is told, and a `Concern` in it whom an update does.
//! `specs/Touched.antt` has the words for what is told on them alone, `specs/Touches.antt` says what each
//! event touches, and `laws` that this is all that follows.
#![tactic(auto)]

mod concern;
pub mod laws;
mod names;
mod touched;

pub use concern::Concern;
pub use names::TouchedNames;
pub use touched::Touched;
