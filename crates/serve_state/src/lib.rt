//! What a serving gateway keeps beside its rows, and decides without a socket or a thread.
//!
//! - [`read_order`] reads a line of standard input;
//! - [`SentAsks`] keeps the names that servers were asked for, with the CIDs of the asks, and who answered first;
//! - [`AskRhythm`] says when it is found out which names are to be asked for, and [`AskBudget`] how many datagrams may ask
//!   for them;
//! - [`Clashes`] keeps of which names it was told that two servers answered them;
//! - [`Roster`] keeps the connections: which numbers are held, and how many workers each still has;
//! - [`HostSeats`] is how many clients a host may have;
//! - [`MostWaiting`] is how many bytes may wait for a client, and [`MostInAll`] for all of them, and who goes where more do;
//! - [`FirstNumber`] is the first number that the gateway gives out;
//! - [`Scale`] is how many clients, servers and names there may be;
//! - [`Vigil`] says whether who is connected is still there;
//! - [`Late`] keeps searches that couldn't be answered when they were made;
//! - [`Rhythm`] says at which looks an order is due that is performed every so many [`Seconds`];
//! - [`Beacon`] says when beacons are sent, and under which IDs, and [`beacon_text`] is one;
//! - [`Outages`] keeps of which servers it was told that they can't be reached;
//! - [`LogQueue`] keeps the lines of the log that wait to be written;
//! - [`OrderLines`] cuts standard input into lines;
//! - [`Steady`] says when a file that somebody may be writing has been read;
//! - [`LimitWatch`] says when it is told how often a limit was met;
//! - [`is_kept_back`] says which descriptors are kept for servers;
//! - [`server_of`] tells a server's datagram from a client's;
//! - [`Versions`] hears whether a client's version of the protocol is too old;
//! - [`Notice`] is what is logged, with its text and its level;
//! - [`Report`] is what the gateway tells of itself, as a line of JSON.
#![tactic(auto)]

mod ask_rhythm;
mod asked;
mod beacon;
mod clashes;
mod cut;
mod file_text;
mod first;
mod hosts;
mod in_all;
mod late;
mod late_queue;
mod level;
mod limits;
mod log_queue;
mod most;
mod notice;
mod numbers;
mod order;
mod order_lines;
mod outages;
mod peers;
mod report;
mod rhythm;
mod roster;
mod scale;
mod spare;
mod steady;
mod versions;
mod vigil;

pub use ask_rhythm::{AskBudget, AskRhythm, askings_are_apart, looks_have_four_datagrams};
pub use asked::{ASKED_LIMIT, SentAsks};
pub use beacon::{Beacon, beacon_text, beacons_are_counted};
pub use clashes::Clashes;
pub use cut::Cut;
pub use file_text::FileText;
pub use first::FirstNumber;
pub use hosts::HostSeats;
pub use in_all::{MostInAll, WaitingBytes, as_few_go_as_will_do};
pub use late::{LATE_LIMIT, LATE_OF_HOST, Late, LateSearch};
pub use late_queue::LateQueue;
pub use level::read_level;
pub use limits::{Bound, LIMITS, Limit, LimitWatch, limits_are_told_once, told_limits_rest};
pub use log_queue::{BYTES_LIMIT, Dropped, KIND_LIMIT, LINES_LIMIT, LogLine, LogQueue, ToLog};
pub use most::MostWaiting;
pub use notice::{FileCause, Notice};
pub use order::{OperatorOrder, read_order};
pub use order_lines::{LINE_LIMIT, OrderLine, OrderLines};
pub use outages::{Outages, Try};
pub use peers::server_of;
pub use report::{InAllReport, Report, ServerReport};
pub use rhythm::{Rhythm, Seconds, rhythms_are_due_each_period};
pub use roster::{Roster, RosterRefusal, RosterRow};
pub use scale::{CLIENTS, MOST_CLIENTS, MOST_NAMES, MOST_SERVERS, SERVERS, Scale, read_up_to};
pub use spare::{OTHERS, is_kept_back};
pub use steady::{FileReading, READINGS, Steady};
pub use versions::{Versions, versions_are_heard_by_headers};
pub use vigil::{
    Counts, Patience, Verdict, Vigil, vigils_ask_before_they_cut, vigils_go_by_silence,
    vigils_spare_who_speaks,
};
