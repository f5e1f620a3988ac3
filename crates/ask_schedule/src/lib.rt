//! Which names servers are asked for, and when. Time is counted in looks, which the caller counts.
//!
//! - [`Schedule::add`] takes a name, which is due at once, and before all that were asked for.
//! - [`Schedule::due`] gives the names to ask for at a look, at most so many, and plans them anew: after n
//!   tries the next is 2 ^ n looks later, and never more than 2 ^ 9.
//! - [`Schedule::remove`] lets a name go. [`Schedule::soon`] has all names asked for sooner, where a server
//!   came.
//!
//! [`Newcomers`] has names that were never asked for, each under the host that looks for it, and gives them by hosts in turn.
//! [`AtOnce`] says how much of what a host sends is heard at once, before the others' turn.
//!
//! Each name has one row, and there are no more than the limit. A call that is refused memory changes nothing.
//! What a schedule does is said over the whole list of its rows, in the order in which they are due
//! (`specs/Plan.antt`). At a look at most so many names are asked for, a name that is due is asked for
//! unless so many that are due stand before it, and none again within its gap (`laws`). A look at which nothing
//! is due costs the same however many names there are.
//!
//! ```
//! let mut schedule = Schedule::new(rt.alloc(), 1000);
//! schedule.add(&Name::read(rt.alloc(), b"T1")?)?;
//! assert_eq!(rt; schedule.due(100, 4)?.len(), 1);
//! assert_eq!(rt; schedule.due(100, 4)?.len(), 0);
//! assert_eq!(rt; schedule.due(101, 4)?.len(), 1);
//! assert_eq!(rt; schedule.due(102, 4)?.len(), 0);
//! assert_eq!(rt; schedule.due(103, 4)?.len(), 1);
//! ```
#![tactic(auto)]

pub use at_once::AtOnce;
pub use newcomers::Newcomers;
pub use row::{LAST_LAP, LAST_LOOK, MOST_TRIES};
pub use schedule::{Added, Schedule};

mod at_once;
pub mod laws;
mod newcomers;
mod row;
mod schedule;

/// The error of a call that fails only where memory runs out.
pub type NoMemory = std::alloc::AllocError;
