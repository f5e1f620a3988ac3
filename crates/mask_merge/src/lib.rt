//! What the readers of a process variable want of it together: the events that any of them asks for,
//! with VALUE and ALARM, and the greatest count of elements; and whether any asks for its properties.
//!
//! - [`Tally::add`] and [`Tally::remove`] count what each reader wants: a mask of events and a count of
//!   elements, and the properties or not. [`Tally::add_ask`] and [`Tally::remove_ask`] are for one that
//!   may ask for texts too. [`Tally::add_silent`] and [`Tally::remove_silent`] count those that want
//!   nothing now, as they may not read.
//! - [`Tally::exchange`] is for a reader that asks for something else than it did, or nothing, or
//!   something again.
//! - [`Tally::want`] is what a server is to be asked for, or `None` where nobody wants anything;
//!   [`Tally::want_of`] is the same where a count of 0 stands for the native count.
//! - [`Tally::props`] tells whether anybody asks for the properties, and [`Tally::props_of`] the same of
//!   a variable whose elements may be states: of those a text takes the properties too.
//!
//! A contract sees a `Tally` as counts: how many readers ask for LOG, for properties and for texts, how
//! many are silent, and the counts of elements that the others want, rising. After whatever readers
//! come, leave and change, they are those of the readers that stand, as long as each that leaves or
//! changes is one of these ([`tallies_follow_those_that_stand`]). They are enough to know what all want
//! ([`counts_are_enough`]), and they follow each reader ([`counts_follow_one_more`],
//! [`counts_follow_one_less`], [`an_exchange_is_one_less_and_one_more`]), in whatever order
//! ([`counts_have_no_order`]).
//!
//! Each reader's want is met, and no more is asked for than that ([`each_want_is_met`],
//! [`no_more_is_asked_for`]). Order and repetition don't matter, and a reader that left leaves nothing
//! behind ([`order_and_repetition_do_not_matter`], [`coming_and_leaving_changes_nothing`]). Only `add`,
//! `add_ask` and `add_silent` take memory; where that is refused, nothing changes.
//!
//! ```
//! let mut tally = Tally::new(rt.alloc());
//! tally.add(1, 3, false)?;
//! tally.add(4, 10, true)?;
//! assert_eq!(rt; tally.want(), Some(Want { mask: 5, count: 10 }));
//! assert!(rt; tally.props());
//! tally.remove(4, 10, true);
//! assert_eq!(rt; tally.want(), Some(Want { mask: 5, count: 3 }));
//! assert!(rt; !tally.props());
//! ```
#![tactic(auto)]

mod kept;
mod laws;
mod tally;
mod want;

pub use laws::{
    an_exchange_is_one_less_and_one_more, coming_and_leaving_changes_nothing, counts_are_enough,
    counts_follow_one_less, counts_follow_one_more, counts_have_no_order, each_want_is_met,
    no_more_is_asked_for, numbers_are_these, order_and_repetition_do_not_matter,
    tallies_follow_those_that_stand,
};
pub use tally::Tally;
pub use want::{ALWAYS_ASKED, Ask, KNOWN_EVENTS, LOG_EVENT, PROPERTY_EVENT, Want};
