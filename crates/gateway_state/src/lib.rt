//! What the gateway knows, as rows, and what its contracts cite.
//!
//! The definitions of `specs/` say what the gateway does, one event at a time, over whole lists of
//! rows. Here are the rows of connections, last messages and remembered searches; those of clients and
//! of servers are in `channel_table` and `link_table`. Nothing here keeps a list or finds a row in one.
#![tactic(auto)]

mod cached;
mod config;
mod connections;
mod event;
mod interest;
mod last_age;
mod last_value;
pub mod laws;
mod limits;
mod limits_met;
mod notice;
mod reading;
mod resolution;
mod row_counts;
mod search;
mod unanswered;

pub use cached::LastMessage;
pub use config::{Config, LAST_FIRST};
pub use connections::Connection;
pub use event::{Dest, Event};
pub use interest::{
    ALARM_EVENTS, CTRL_FORM, PLAIN_TYPES, SERVED_EVENTS, Sub, TIME_FORM, VALUE_EVENTS,
};
pub use last_age::LastAge;
pub use last_value::LastValue;
pub use limits::{LOWEST_MINOR, Limits, SEARCH_LIMIT, UPDATE_BYTES, UPDATE_LIMIT, UPDATE_MINOR};
pub use limits_met::{Fullest, LimitsMet, RowLimit};
pub use notice::{
    ChannelNotice, LinkNotice, ReadNotice, ReadVerdict, SubVerdict, UpdateNotice, WriteVerdict,
};
pub use reading::{Given, Native, Reading};
pub use resolution::{is_real, lead_of, rights_left};
pub use row_counts::RowCounts;
pub use rule_desk::Policy;
pub use search::RememberedSearch;
pub use unanswered::{SearchOn, Unanswered, UnansweredSince};
